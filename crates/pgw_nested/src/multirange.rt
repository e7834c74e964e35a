ghost use Rattle.std.specs.Prelude.{◌≡◌, true, Some, Err};
ghost use Rattle.pgw_wire.specs.declared.sql_error.SqlError.TheVariants.{NoMemory as no_memory};
ghost use Rattle.pgw_meta.specs.Reading.{Answers, ReadsPiece, RefusesPiece};
ghost use Rattle.pgw_nested.specs.Range.{IsRange, RefusesRange};
ghost use Rattle.pgw_nested.specs.Multirange.{IsMultirange, ReachesRange, RefusesMultirange};
ghost use Rattle.pgw_nested.specs.RangeWritten.{WritesBoundsOf, WritesMultirange};

use crate::multirange_writing::write_multirange;
use crate::sql_types::{Multirange, Nullable, Range};
use crate::{BoundsOf, Items, MultirangePieces};
use pgw_meta::deserialize::{self, FromSql, required};
use pgw_meta::serialize::{self, ToSql};
use pgw_meta::{Defaultable, PgMetadataLookup};
use pgw_wire::{Output, PgValue};
use std::alloc::Global;
use std::ops::Bound;

/// The field of a multirange: how many ranges it has, and then each range, its length and its bytes.
impl<ST, T: FromSql<ST> + Defaultable> FromSql<Multirange<ST>> for Vec<(Bound<T>, Bound<T>)> {
    ghost reads = { ReadsPiece (λ piece v. IsMultirange (ReadsPiece (IsRange T.reads T.DEFAULT)) piece v.items) };

    ghost refuses = { RefusesPiece (RefusesMultirange (ReadsPiece (IsRange T.reads T.DEFAULT))
        (RefusesPiece (RefusesRange T.reads T.refuses))) };

    ghost MEMORY = { true };

    /// The ranges, each read as one before the next is looked at. The first fault from the left is the error:
    /// `ShortBuffer`, `NegativeSize` and `ElementBytes` as from `MultirangePieces`, and what a range is refused with.
    /// Memory is asked for as ranges are read, and not by their count.
    fn from_sql(alloc: Global, value: PgValue<'_>) -> deserialize::Result<Vec<(Bound<T>, Bound<T>)>>
        ensures answers { Answers
            (ReadsPiece (λ piece v. IsMultirange (ReadsPiece (IsRange T.reads T.DEFAULT)) piece v.items))
            (RefusesPiece (RefusesMultirange (ReadsPiece (IsRange T.reads T.DEFAULT))
            (RefusesPiece (RefusesRange T.reads T.refuses)))) true (Some value.entry.raw_value.now) result }
        ensures memory { result ≡ Err no_memory
            → ReachesRange (ReadsPiece (IsRange T.reads T.DEFAULT)) value.entry.raw_value.now }
    {
        let oid = value.get_oid();
        let mut pieces = MultirangePieces::new(value.as_bytes())?;
        let mut items = Vec::new(alloc);
        'bounds: while let Some(piece) = pieces.next_piece()? {
            let range = <(Bound<T>, Bound<T>) as FromSql<Range<ST>>>::from_sql(
                alloc,
                PgValue::new(piece, oid),
            )?;
            items.push(range)?;
        }
        Ok(items)
    }

    fn from_nullable_sql(
        alloc: Global,
        value: Option<PgValue<'_>>,
    ) -> deserialize::Result<Vec<(Bound<T>, Bound<T>)>> {
        <Vec<(Bound<T>, Bound<T>)> as FromSql<Multirange<ST>>>::from_sql(alloc, required(value)?)
    }
}

impl<ST, R: BoundsOf> ToSql<Multirange<ST>> for Vec<R>
where
    R::Item: ToSql<ST>,
{
    ghost writes = { λ k v. WritesMultirange (WritesBoundsOf R.is_lower R.is_upper R.Item.writes) k v.items };

    /// Appends how many ranges there are, in 4 bytes, and then each, its length and its bytes, as the range of its
    /// bounds is written. The answer is `No`. The first refusal in the order of these bytes is the error: `TooMany` with
    /// more than 2147483647 ranges, what a range is refused with, and `TooMany` with a range of more bytes.
    fn to_sql<L: PgMetadataLookup>(&self, out: &mut Output<'_, L>) -> serialize::Result {
        write_multirange::<ST, R::Item, R, L>(self.as_slice(), out)
    }
}

impl<ST, R: BoundsOf> ToSql<Nullable<Multirange<ST>>> for Vec<R>
where
    R::Item: ToSql<ST>,
{
    ghost writes = { λ k v. WritesMultirange (WritesBoundsOf R.is_lower R.is_upper R.Item.writes) k v.items };

    /// As a multirange that allows no null.
    fn to_sql<L: PgMetadataLookup>(&self, out: &mut Output<'_, L>) -> serialize::Result {
        write_multirange::<ST, R::Item, R, L>(self.as_slice(), out)
    }
}

impl<'a, ST, R: BoundsOf> ToSql<Multirange<ST>> for Items<'a, R>
where
    R::Item: ToSql<ST>,
{
    ghost writes = { λ k v. WritesMultirange (WritesBoundsOf R.is_lower R.is_upper R.Item.writes) k v.0.now };

    /// As a vector of these ranges.
    fn to_sql<L: PgMetadataLookup>(&self, out: &mut Output<'_, L>) -> serialize::Result {
        write_multirange::<ST, R::Item, R, L>(self.0, out)
    }
}

impl<'a, ST, R: BoundsOf> ToSql<Nullable<Multirange<ST>>> for Items<'a, R>
where
    R::Item: ToSql<ST>,
{
    ghost writes = { λ k v. WritesMultirange (WritesBoundsOf R.is_lower R.is_upper R.Item.writes) k v.0.now };

    /// As a multirange that allows no null.
    fn to_sql<L: PgMetadataLookup>(&self, out: &mut Output<'_, L>) -> serialize::Result {
        write_multirange::<ST, R::Item, R, L>(self.0, out)
    }
}
