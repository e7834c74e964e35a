ghost use Rattle.std.specs.Prelude.{◌≡◌};
ghost use Rattle.pgw_meta.specs.Naming.{built_in};
ghost use Rattle.pgw_scalar.specs.BuiltIn.{AreOids};
ghost use Rattle.pgw_nested.specs.Naming.{of_arrays};

use crate::sql_types::{Array, Multirange, Nullable, Range};
use pgw_meta::{HasSqlType, LookupError, Pg, PgMetadataLookup, PgTypeMetadata, RangeElement};
use std::alloc::Global;

impl<ST> HasSqlType<Nullable<ST>> for Pg
where
    Pg: HasSqlType<ST>,
{
    ghost names = { ⟦<Pg as HasSqlType<ST>>⟧.names };

    /// The oids of the type that is not null and of its arrays, or the key that it is looked up by.
    fn metadata<L: PgMetadataLookup>(
        alloc: Global,
        lookup: &mut L,
    ) -> Result<PgTypeMetadata, LookupError> {
        <Pg as HasSqlType<ST>>::metadata(alloc, lookup)
    }
}

impl<ST> HasSqlType<Array<ST>> for Pg
where
    Pg: HasSqlType<ST>,
{
    ghost names = { of_arrays ⟦<Pg as HasSqlType<ST>>⟧.names };

    /// As the oid of the type, that of the arrays of the element's type; and 0, since arrays of arrays have none. Or
    /// the key that the element's type is looked up by.
    fn metadata<L: PgMetadataLookup>(
        alloc: Global,
        lookup: &mut L,
    ) -> Result<PgTypeMetadata, LookupError> {
        let element = <Pg as HasSqlType<ST>>::metadata(alloc, lookup)?;
        match element.into_oids() {
            Ok((_, array_oid)) => Ok(PgTypeMetadata::new(array_oid, 0)),
            Err(unknown) => Ok(PgTypeMetadata::from_result(Err(unknown))),
        }
    }
}

impl<ST: RangeElement> HasSqlType<Range<ST>> for Pg {
    ghost names = { built_in ST.RANGE_OID ST.RANGE_ARRAY_OID };

    /// The oids of the type of the ranges and of its arrays. It takes no memory.
    fn metadata<L: PgMetadataLookup>(
        _alloc: Global,
        _lookup: &mut L,
    ) -> Result<PgTypeMetadata, LookupError>
        ensures oids { AreOids ST.RANGE_OID ST.RANGE_ARRAY_OID result }
        ensures lookup { _lookup.new ≡ _lookup.old }
    {
        Ok(PgTypeMetadata::new(ST::RANGE_OID, ST::RANGE_ARRAY_OID))
    }
}

impl<ST: RangeElement> HasSqlType<Multirange<ST>> for Pg {
    ghost names = { built_in ST.MULTIRANGE_OID ST.MULTIRANGE_ARRAY_OID };

    /// The oids of the type of the multiranges and of its arrays. It takes no memory.
    fn metadata<L: PgMetadataLookup>(
        _alloc: Global,
        _lookup: &mut L,
    ) -> Result<PgTypeMetadata, LookupError>
        ensures oids { AreOids ST.MULTIRANGE_OID ST.MULTIRANGE_ARRAY_OID result }
        ensures lookup { _lookup.new ≡ _lookup.old }
    {
        Ok(PgTypeMetadata::new(ST::MULTIRANGE_OID, ST::MULTIRANGE_ARRAY_OID))
    }
}
