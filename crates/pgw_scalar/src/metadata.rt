ghost use Rattle.std.specs.Prelude.{◌≡◌, None, codes};
ghost use Rattle.pgw_meta.specs.Naming.{built_in, looked_up_by};
ghost use Rattle.pgw_scalar.specs.BuiltIn.{AreOids};

use crate::sql_types::{
    BigInt, Binary, Bool, CChar, Cidr, Citext, Inet, Integer, MacAddr, MacAddr8, Money, Oid, PgLsn,
    SmallInt, Text, Uuid,
};
use pgw_meta::{HasSqlType, LookupError, Pg, PgMetadataLookup, PgTypeMetadata};
use std::alloc::Global;

impl HasSqlType<Bool> for Pg {
    ghost names = { built_in 16 1000 };

    /// The oids of `bool` and of its arrays. It takes no memory.
    fn metadata<L: PgMetadataLookup>(
        _alloc: Global,
        _lookup: &mut L,
    ) -> Result<PgTypeMetadata, LookupError>
        ensures oids { AreOids 16 1000 result }
        ensures lookup { _lookup.new ≡ _lookup.old }
    {
        Ok(PgTypeMetadata::new(16, 1000))
    }
}

impl HasSqlType<CChar> for Pg {
    ghost names = { built_in 18 1002 };

    /// The oids of `"char"` and of its arrays. It takes no memory.
    fn metadata<L: PgMetadataLookup>(
        _alloc: Global,
        _lookup: &mut L,
    ) -> Result<PgTypeMetadata, LookupError>
        ensures oids { AreOids 18 1002 result }
        ensures lookup { _lookup.new ≡ _lookup.old }
    {
        Ok(PgTypeMetadata::new(18, 1002))
    }
}

impl HasSqlType<SmallInt> for Pg {
    ghost names = { built_in 21 1005 };

    /// The oids of `int2` and of its arrays. It takes no memory.
    fn metadata<L: PgMetadataLookup>(
        _alloc: Global,
        _lookup: &mut L,
    ) -> Result<PgTypeMetadata, LookupError>
        ensures oids { AreOids 21 1005 result }
        ensures lookup { _lookup.new ≡ _lookup.old }
    {
        Ok(PgTypeMetadata::new(21, 1005))
    }
}

impl HasSqlType<Integer> for Pg {
    ghost names = { built_in 23 1007 };

    /// The oids of `int4` and of its arrays. It takes no memory.
    fn metadata<L: PgMetadataLookup>(
        _alloc: Global,
        _lookup: &mut L,
    ) -> Result<PgTypeMetadata, LookupError>
        ensures oids { AreOids 23 1007 result }
        ensures lookup { _lookup.new ≡ _lookup.old }
    {
        Ok(PgTypeMetadata::new(23, 1007))
    }
}

impl HasSqlType<BigInt> for Pg {
    ghost names = { built_in 20 1016 };

    /// The oids of `int8` and of its arrays. It takes no memory.
    fn metadata<L: PgMetadataLookup>(
        _alloc: Global,
        _lookup: &mut L,
    ) -> Result<PgTypeMetadata, LookupError>
        ensures oids { AreOids 20 1016 result }
        ensures lookup { _lookup.new ≡ _lookup.old }
    {
        Ok(PgTypeMetadata::new(20, 1016))
    }
}

impl HasSqlType<Oid> for Pg {
    ghost names = { built_in 26 1028 };

    /// The oids of `oid` and of its arrays. It takes no memory.
    fn metadata<L: PgMetadataLookup>(
        _alloc: Global,
        _lookup: &mut L,
    ) -> Result<PgTypeMetadata, LookupError>
        ensures oids { AreOids 26 1028 result }
        ensures lookup { _lookup.new ≡ _lookup.old }
    {
        Ok(PgTypeMetadata::new(26, 1028))
    }
}

impl HasSqlType<Text> for Pg {
    ghost names = { built_in 25 1009 };

    /// The oids of `text` and of its arrays. It takes no memory.
    fn metadata<L: PgMetadataLookup>(
        _alloc: Global,
        _lookup: &mut L,
    ) -> Result<PgTypeMetadata, LookupError>
        ensures oids { AreOids 25 1009 result }
        ensures lookup { _lookup.new ≡ _lookup.old }
    {
        Ok(PgTypeMetadata::new(25, 1009))
    }
}

impl HasSqlType<Citext> for Pg {
    ghost names = { looked_up_by (record { schema = None; name = codes "citext" }) };

    /// The oids of `citext` and of its arrays, which are looked up by its name, in no schema that is said.
    fn metadata<L: PgMetadataLookup>(
        alloc: Global,
        lookup: &mut L,
    ) -> Result<PgTypeMetadata, LookupError> {
        lookup.lookup_type(alloc, "citext", None)
    }
}

impl HasSqlType<Binary> for Pg {
    ghost names = { built_in 17 1001 };

    /// The oids of `bytea` and of its arrays. It takes no memory.
    fn metadata<L: PgMetadataLookup>(
        _alloc: Global,
        _lookup: &mut L,
    ) -> Result<PgTypeMetadata, LookupError>
        ensures oids { AreOids 17 1001 result }
        ensures lookup { _lookup.new ≡ _lookup.old }
    {
        Ok(PgTypeMetadata::new(17, 1001))
    }
}

impl HasSqlType<Uuid> for Pg {
    ghost names = { built_in 2950 2951 };

    /// The oids of `uuid` and of its arrays. It takes no memory.
    fn metadata<L: PgMetadataLookup>(
        _alloc: Global,
        _lookup: &mut L,
    ) -> Result<PgTypeMetadata, LookupError>
        ensures oids { AreOids 2950 2951 result }
        ensures lookup { _lookup.new ≡ _lookup.old }
    {
        Ok(PgTypeMetadata::new(2950, 2951))
    }
}

impl HasSqlType<Money> for Pg {
    ghost names = { built_in 790 791 };

    /// The oids of `money` and of its arrays. It takes no memory.
    fn metadata<L: PgMetadataLookup>(
        _alloc: Global,
        _lookup: &mut L,
    ) -> Result<PgTypeMetadata, LookupError>
        ensures oids { AreOids 790 791 result }
        ensures lookup { _lookup.new ≡ _lookup.old }
    {
        Ok(PgTypeMetadata::new(790, 791))
    }
}

impl HasSqlType<PgLsn> for Pg {
    ghost names = { built_in 3220 3221 };

    /// The oids of `pg_lsn` and of its arrays. It takes no memory.
    fn metadata<L: PgMetadataLookup>(
        _alloc: Global,
        _lookup: &mut L,
    ) -> Result<PgTypeMetadata, LookupError>
        ensures oids { AreOids 3220 3221 result }
        ensures lookup { _lookup.new ≡ _lookup.old }
    {
        Ok(PgTypeMetadata::new(3220, 3221))
    }
}

impl HasSqlType<MacAddr> for Pg {
    ghost names = { built_in 829 1040 };

    /// The oids of `macaddr` and of its arrays. It takes no memory.
    fn metadata<L: PgMetadataLookup>(
        _alloc: Global,
        _lookup: &mut L,
    ) -> Result<PgTypeMetadata, LookupError>
        ensures oids { AreOids 829 1040 result }
        ensures lookup { _lookup.new ≡ _lookup.old }
    {
        Ok(PgTypeMetadata::new(829, 1040))
    }
}

impl HasSqlType<MacAddr8> for Pg {
    ghost names = { built_in 774 775 };

    /// The oids of `macaddr8` and of its arrays. It takes no memory.
    fn metadata<L: PgMetadataLookup>(
        _alloc: Global,
        _lookup: &mut L,
    ) -> Result<PgTypeMetadata, LookupError>
        ensures oids { AreOids 774 775 result }
        ensures lookup { _lookup.new ≡ _lookup.old }
    {
        Ok(PgTypeMetadata::new(774, 775))
    }
}

impl HasSqlType<Inet> for Pg {
    ghost names = { built_in 869 1041 };

    /// The oids of `inet` and of its arrays. It takes no memory.
    fn metadata<L: PgMetadataLookup>(
        _alloc: Global,
        _lookup: &mut L,
    ) -> Result<PgTypeMetadata, LookupError>
        ensures oids { AreOids 869 1041 result }
        ensures lookup { _lookup.new ≡ _lookup.old }
    {
        Ok(PgTypeMetadata::new(869, 1041))
    }
}

impl HasSqlType<Cidr> for Pg {
    ghost names = { built_in 650 651 };

    /// The oids of `cidr` and of its arrays. It takes no memory.
    fn metadata<L: PgMetadataLookup>(
        _alloc: Global,
        _lookup: &mut L,
    ) -> Result<PgTypeMetadata, LookupError>
        ensures oids { AreOids 650 651 result }
        ensures lookup { _lookup.new ≡ _lookup.old }
    {
        Ok(PgTypeMetadata::new(650, 651))
    }
}
