ghost use Rattle.std.specs.Prelude.{◌≡◌};
ghost use Rattle.pgw_meta.specs.Naming.{built_in};
ghost use Rattle.pgw_scalar.specs.BuiltIn.{AreOids};

use crate::sql_types::Record;
use pgw_meta::{HasSqlType, LookupError, Pg, PgMetadataLookup, PgTypeMetadata};
use std::alloc::Global;

impl<ST> HasSqlType<Record<ST>> for Pg {
    ghost names = { built_in 2249 2287 };

    /// The oid of the type `record`, and that of its arrays. It takes no memory.
    fn metadata<L: PgMetadataLookup>(
        _alloc: Global,
        _lookup: &mut L,
    ) -> Result<PgTypeMetadata, LookupError>
        ensures oids { AreOids 2249 2287 result }
        ensures lookup { _lookup.new ≡ _lookup.old }
    {
        Ok(PgTypeMetadata::new(2249, 2287))
    }
}
