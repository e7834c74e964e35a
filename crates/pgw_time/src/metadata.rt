ghost use Rattle.std.specs.Prelude.{◌≡◌};
ghost use Rattle.pgw_meta.specs.Naming.{built_in};
ghost use Rattle.pgw_scalar.specs.BuiltIn.{AreOids};

use crate::sql_types;
use pgw_meta::{HasSqlType, LookupError, Pg, PgMetadataLookup, PgTypeMetadata};
use std::alloc::Global;

impl HasSqlType<sql_types::Date> for Pg {
    ghost names = { built_in 1082 1182 };

    /// The oids of `date` and of its arrays. It takes no memory.
    fn metadata<L: PgMetadataLookup>(
        _alloc: Global,
        _lookup: &mut L,
    ) -> Result<PgTypeMetadata, LookupError>
        ensures oids { AreOids 1082 1182 result }
        ensures lookup { _lookup.new ≡ _lookup.old }
    {
        Ok(PgTypeMetadata::new(1082, 1182))
    }
}

impl HasSqlType<sql_types::Time> for Pg {
    ghost names = { built_in 1083 1183 };

    /// The oids of `time` and of its arrays. It takes no memory.
    fn metadata<L: PgMetadataLookup>(
        _alloc: Global,
        _lookup: &mut L,
    ) -> Result<PgTypeMetadata, LookupError>
        ensures oids { AreOids 1083 1183 result }
        ensures lookup { _lookup.new ≡ _lookup.old }
    {
        Ok(PgTypeMetadata::new(1083, 1183))
    }
}

impl HasSqlType<sql_types::Timestamp> for Pg {
    ghost names = { built_in 1114 1115 };

    /// The oids of `timestamp` and of its arrays. It takes no memory.
    fn metadata<L: PgMetadataLookup>(
        _alloc: Global,
        _lookup: &mut L,
    ) -> Result<PgTypeMetadata, LookupError>
        ensures oids { AreOids 1114 1115 result }
        ensures lookup { _lookup.new ≡ _lookup.old }
    {
        Ok(PgTypeMetadata::new(1114, 1115))
    }
}

impl HasSqlType<sql_types::Timestamptz> for Pg {
    ghost names = { built_in 1184 1185 };

    /// The oids of `timestamptz` and of its arrays. It takes no memory.
    fn metadata<L: PgMetadataLookup>(
        _alloc: Global,
        _lookup: &mut L,
    ) -> Result<PgTypeMetadata, LookupError>
        ensures oids { AreOids 1184 1185 result }
        ensures lookup { _lookup.new ≡ _lookup.old }
    {
        Ok(PgTypeMetadata::new(1184, 1185))
    }
}

impl HasSqlType<sql_types::Interval> for Pg {
    ghost names = { built_in 1186 1187 };

    /// The oids of `interval` and of its arrays. It takes no memory.
    fn metadata<L: PgMetadataLookup>(
        _alloc: Global,
        _lookup: &mut L,
    ) -> Result<PgTypeMetadata, LookupError>
        ensures oids { AreOids 1186 1187 result }
        ensures lookup { _lookup.new ≡ _lookup.old }
    {
        Ok(PgTypeMetadata::new(1186, 1187))
    }
}
