ghost use Rattle.std.specs.Prelude.{◌≡◌};
ghost use Rattle.pgw_meta.specs.Reading.{Answers, ReadsPiece, RefusesPiece};
ghost use Rattle.pgw_nested.specs.Range.{SpellsBound, RefusesBound, no_value, IsRange, RefusesRange};
ghost use Rattle.pgw_nested.specs.RangePieces.{bound_of};
ghost use Rattle.pgw_nested.specs.RangeWritten.{WritesRange};

use crate::range_writing::write_range;
use crate::sql_types::{Nullable, Range};
use crate::{BoundPiece, RangePieces};
use pgw_meta::deserialize::{self, FromSql, required};
use pgw_meta::serialize::{self, ToSql};
use pgw_meta::{Defaultable, PgMetadataLookup};
use pgw_wire::{Output, PgValue};
use std::alloc::Global;
use std::num::NonZeroU32;
use std::ops::Bound;

/// A bound whose value is read from its piece, as a field with this oid.
fn read_bound<ST, T: FromSql<ST>>(
    alloc: Global,
    piece: BoundPiece<'_>,
    oid: NonZeroU32,
) -> deserialize::Result<Bound<T>>
    ensures { Answers (SpellsBound T.reads) (RefusesBound T.refuses) T.MEMORY (bound_of piece.entry) result }
{
    match piece {
        BoundPiece::Unbounded => Ok(Bound::Unbounded),
        BoundPiece::Included(bytes) => {
            Ok(Bound::Included(T::from_sql(alloc, PgValue::new(bytes, oid))?))
        }
        BoundPiece::Excluded(bytes) => {
            Ok(Bound::Excluded(T::from_sql(alloc, PgValue::new(bytes, oid))?))
        }
    }
}

/// The bounds of an empty range.
fn no_value<T: Defaultable>() -> (Bound<T>, Bound<T>)
    ensures { result ≡ no_value T.DEFAULT }
{
    (
        Bound::Excluded(T::default_value()),
        Bound::Excluded(T::default_value()),
    )
}

/// The field of a range: a byte of flags, and the bounds that are there, each its length and its bytes.
impl<ST, T: FromSql<ST> + Defaultable> FromSql<Range<ST>> for (Bound<T>, Bound<T>) {
    ghost reads = { ReadsPiece (IsRange T.reads T.DEFAULT) };

    ghost refuses = { RefusesPiece (RefusesRange T.reads T.refuses) };

    ghost MEMORY = { T.MEMORY };

    /// The lower bound and the upper, each value read as one of its type before what stands behind it is looked at.
    /// An empty range is read as the default value, twice excluded. The first fault from the left is the error:
    /// `ShortBuffer`, `NegativeSize` and `RangeElement` as from `RangePieces`, and what a value is refused with.
    fn from_sql(alloc: Global, value: PgValue<'_>) -> deserialize::Result<(Bound<T>, Bound<T>)> {
        let oid = value.get_oid();
        let mut pieces = RangePieces::new(value.as_bytes())?;
        let lower = match pieces.next_piece()? {
            Some(piece) => read_bound::<ST, T>(alloc, piece, oid)?,
            None => return Ok(no_value::<T>()),
        };
        let upper = read_bound::<ST, T>(alloc, pieces.upper_piece()?, oid)?;
        Ok((lower, upper))
    }

    fn from_nullable_sql(
        alloc: Global,
        value: Option<PgValue<'_>>,
    ) -> deserialize::Result<(Bound<T>, Bound<T>)> {
        <(Bound<T>, Bound<T>) as FromSql<Range<ST>>>::from_sql(alloc, required(value)?)
    }
}

impl<ST, T: ToSql<ST>> ToSql<Range<ST>> for (Bound<T>, Bound<T>) {
    ghost writes = { WritesRange T.writes };

    /// Appends the flags, in one byte, and the bounds that are there: of each its value's length and bytes, or the
    /// length -1 where the value is null. The answer is `No`. It never says that the range is empty. The first refusal
    /// in the order of these bytes is the error: what a value is refused with, and `TooMany` with one of more than
    /// 2147483647 bytes.
    fn to_sql<L: PgMetadataLookup>(&self, out: &mut Output<'_, L>) -> serialize::Result {
        write_range::<ST, T, L>(self.0.as_ref(), self.1.as_ref(), out)
    }
}

impl<ST, T: ToSql<ST>> ToSql<Nullable<Range<ST>>> for (Bound<T>, Bound<T>) {
    ghost writes = { WritesRange T.writes };

    /// As a range that allows no null.
    fn to_sql<L: PgMetadataLookup>(&self, out: &mut Output<'_, L>) -> serialize::Result {
        write_range::<ST, T, L>(self.0.as_ref(), self.1.as_ref(), out)
    }
}
