ghost use Rattle.std.specs.Prelude.{true};
ghost use Rattle.pgw_meta.specs.Reading.{ReadsPiece, RefusesPiece};
ghost use Rattle.pgw_nested.specs.Array.{IsArray, RefusesArray};
ghost use Rattle.pgw_nested.specs.Written.{WritesArray};

use crate::ArrayPieces;
use crate::array_pieces::value_of;
use crate::array_writing::write_array;
use crate::sql_types::{Array, Nullable};
use pgw_meta::deserialize::{self, FromSql, required};
use pgw_meta::serialize::{self, ToSql};
use pgw_meta::{HasSqlType, Pg, PgMetadataLookup};
use pgw_wire::{Output, PgValue};
use std::alloc::Global;

/// The field of an array: what stands in front of its elements, and then each element, its length and its bytes.
impl<ST, T: FromSql<ST>> FromSql<Array<ST>> for Vec<T> {
    ghost reads = { ReadsPiece (λ piece v. IsArray T.reads piece v.items) };

    ghost refuses = { RefusesPiece (RefusesArray T.reads T.refuses) };

    ghost MEMORY = { true };

    /// The elements, each read as one of its type before the next is looked at, which is null where the element is. The
    /// first fault from the left is the error: `ShortBuffer`, `Dimensions`, `NegativeSize` and `ElementBytes` as from
    /// `ArrayPieces`, and what an element is refused with. Memory is asked for as elements are read, and not by their
    /// count.
    fn from_sql(alloc: Global, value: PgValue<'_>) -> deserialize::Result<Vec<T>> {
        let oid = value.get_oid();
        let mut pieces = ArrayPieces::new(value.as_bytes())?;
        let mut items = Vec::new(alloc);
        'elements: while let Some(cell) = pieces.next_piece()? {
            let item = T::from_nullable_sql(alloc, value_of(cell, oid))?;
            items.push(item)?;
        }
        Ok(items)
    }

    fn from_nullable_sql(alloc: Global, value: Option<PgValue<'_>>) -> deserialize::Result<Vec<T>> {
        <Vec<T> as FromSql<Array<ST>>>::from_sql(alloc, required(value)?)
    }
}

/// Values that are borrowed, to be written as an array.
#[derive(Clone, Copy, Debug)]
pub struct Items<'a, T>(pub &'a [T]);

impl<ST, T: ToSql<ST>> ToSql<Array<ST>> for Vec<T>
where
    Pg: HasSqlType<ST>,
{
    ghost writes = { λ k v. WritesArray ⟦<Pg as HasSqlType<ST>>⟧.names T.writes k v.items };

    /// Appends five numbers of 4 bytes, 1, the flags, the oid of the element's type, the count and 1, and then each
    /// element, its length and its bytes. The flags are 1 where an element is null, which is written as the length -1,
    /// and else 0. The answer is `No`, also where there is no element. The first refusal in the order of these bytes is
    /// the error: `UnknownType` where the key of the element's type is not known, `TooMany` with more than 2147483647
    /// elements, what an element is refused with, and `TooMany` with an element of more bytes.
    fn to_sql<L: PgMetadataLookup>(&self, out: &mut Output<'_, L>) -> serialize::Result {
        write_array::<ST, T, L>(self.as_slice(), out)
    }
}

impl<ST, T: ToSql<ST>> ToSql<Nullable<Array<ST>>> for Vec<T>
where
    Pg: HasSqlType<ST>,
{
    ghost writes = { λ k v. WritesArray ⟦<Pg as HasSqlType<ST>>⟧.names T.writes k v.items };

    /// As an array that allows no null.
    fn to_sql<L: PgMetadataLookup>(&self, out: &mut Output<'_, L>) -> serialize::Result {
        write_array::<ST, T, L>(self.as_slice(), out)
    }
}

impl<'a, ST, T: ToSql<ST>> ToSql<Array<ST>> for Items<'a, T>
where
    Pg: HasSqlType<ST>,
{
    ghost writes = { λ k v. WritesArray ⟦<Pg as HasSqlType<ST>>⟧.names T.writes k v.0.now };

    /// As a vector of these values.
    fn to_sql<L: PgMetadataLookup>(&self, out: &mut Output<'_, L>) -> serialize::Result {
        write_array::<ST, T, L>(self.0, out)
    }
}

impl<'a, ST, T: ToSql<ST>> ToSql<Nullable<Array<ST>>> for Items<'a, T>
where
    Pg: HasSqlType<ST>,
{
    ghost writes = { λ k v. WritesArray ⟦<Pg as HasSqlType<ST>>⟧.names T.writes k v.0.now };

    /// As a vector of these values.
    fn to_sql<L: PgMetadataLookup>(&self, out: &mut Output<'_, L>) -> serialize::Result {
        write_array::<ST, T, L>(self.0, out)
    }
}
