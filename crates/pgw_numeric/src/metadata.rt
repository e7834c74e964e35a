ghost use Rattle.std.specs.Prelude.{◌≡◌};
ghost use Rattle.pgw_meta.specs.Naming.{built_in};
ghost use Rattle.pgw_scalar.specs.BuiltIn.{AreOids};

use crate::sql_types::Numeric;
use pgw_meta::{HasSqlType, LookupError, Pg, PgMetadataLookup, PgTypeMetadata};
use std::alloc::Global;

impl HasSqlType<Numeric> for Pg {
    ghost names = { built_in 1700 1231 };

    /// The oids of `numeric` and of its arrays. It takes no memory.
    fn metadata<L: PgMetadataLookup>(
        _alloc: Global,
        _lookup: &mut L,
    ) -> Result<PgTypeMetadata, LookupError>
        ensures oids { AreOids 1700 1231 result }
        ensures lookup { _lookup.new ≡ _lookup.old }
    {
        Ok(PgTypeMetadata::new(1700, 1231))
    }
}
