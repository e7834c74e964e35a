ghost use Rattle.pgw_nested.specs.Nullable.{ReadsNullable, RefusesNullable, WritesNullable};

use crate::sql_types::Nullable;
use pgw_meta::deserialize::{self, FromSql};
use pgw_meta::serialize::{self, ToSql};
use pgw_meta::{NotNull, PgMetadataLookup};
use pgw_wire::{IsNull, Output, PgValue};
use std::alloc::Global;

/// The field of a type that allows null: a null, or the field of its part.
impl<ST: NotNull, T: FromSql<ST>> FromSql<Nullable<ST>> for Option<T> {
    ghost reads = { ReadsNullable T.reads };

    ghost refuses = { RefusesNullable T.refuses };

    ghost MEMORY = { T.MEMORY };

    /// The value of the part. What the part refuses is refused with its error.
    fn from_sql(alloc: Global, value: PgValue<'_>) -> deserialize::Result<Option<T>> {
        Ok(Some(T::from_sql(alloc, value)?))
    }

    /// None for a null, which is not refused, and else the value of the part.
    fn from_nullable_sql(
        alloc: Global,
        value: Option<PgValue<'_>>,
    ) -> deserialize::Result<Option<T>> {
        match value {
            Some(value) => Ok(Some(T::from_sql(alloc, value)?)),
            None => Ok(None),
        }
    }
}

impl<ST: NotNull, T: ToSql<ST>> ToSql<Nullable<ST>> for Option<T> {
    ghost writes = { WritesNullable T.writes };

    /// None is `Yes`, and no byte is appended. A value is written as one of the part, and what that answers is handed
    /// on.
    fn to_sql<L: PgMetadataLookup>(&self, out: &mut Output<'_, L>) -> serialize::Result {
        match self {
            Some(value) => value.to_sql(out),
            None => Ok(IsNull::Yes),
        }
    }
}
