use crate::{LookupError, PgMetadataCacheKey, PgMetadataLookup, PgTypeMetadata};
use std::alloc::Global;

/// A lookup that knows no type. It never fails.
#[derive(Clone, Copy, Debug, Default)]
pub struct Dummy;

impl PgMetadataLookup for Dummy {
    ghost use Rattle.std.specs.Prelude.{true, Some, None, refl};

    ghost state = { λ _. record {
      told = record { known = Some (λ _. None); faultless = true };
      fault_count = 0;
      origin = tt;
    } };

    ghost quiet = { λ _ _. refl };

    fn lookup_type(
        &mut self,
        alloc: Global,
        type_name: &str,
        schema: Option<&str>,
    ) -> Result<PgTypeMetadata, LookupError> {
        let key = PgMetadataCacheKey::borrowed(schema, type_name);
        Ok(PgTypeMetadata::unknown(alloc, key)?)
    }

    fn faults(&self) -> u64 {
        0
    }
}
