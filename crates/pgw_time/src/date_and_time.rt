ghost use Rattle.std.specs.Prelude.{◌≡◌, Ok, false, pos};
ghost use Rattle.std.specs.Int.{w32, w64};
ghost use Rattle.pgw_wire.specs.declared.is_null.IsNull.TheVariants.{No as no};
ghost use Rattle.pgw_meta.specs.Reading.{ReadsPiece, RefusesPiece};
ghost use Rattle.pgw_scalar.specs.Whole.{IsSigned, signed_bytes};
ghost use Rattle.pgw_scalar.specs.Refusals.{RefusesSize};
ghost use Rattle.pgw_scalar.specs.Writing.{WrotePiece};

use crate::sql_types::{Date, Time, Timestamp, Timestamptz};
use pgw_meta::deserialize::{self, FromSql, required};
use pgw_meta::serialize::{self, ToSql};
use pgw_meta::{Defaultable, PgMetadataLookup};
use pgw_scalar::sql_types::{BigInt, Integer};
use pgw_wire::{Output, PgValue};
use std::alloc::Global;

/// A day, as the number of days from 2000-01-01 on, which is negative of a day before. Every number is a value here. To
/// PostgreSQL the greatest and the least stand for infinity, and some others are no date. Dates are ordered by their
/// numbers.
#[derive(Debug, Clone, Copy, PartialEq, Eq, PartialOrd, Ord)]
pub struct PgDate(pub i32);

/// A time of day, as the number of microseconds since midnight. Every number is a value here. PostgreSQL has no time
/// below 0 or above 86400000000. Times are ordered by their numbers.
#[derive(Debug, Clone, Copy, PartialEq, Eq, PartialOrd, Ord)]
pub struct PgTime(pub i64);

/// A day and a time of day, as the number of microseconds from the midnight on that begins 2000-01-01, which is
/// negative before it. Of a `timestamptz` that is midnight in UTC. Every number is a value here. To PostgreSQL the
/// greatest and the least stand for infinity, and some others are no timestamp. Timestamps are ordered by their
/// numbers.
#[derive(Debug, Clone, Copy, PartialEq, Eq, PartialOrd, Ord)]
pub struct PgTimestamp(pub i64);

impl Defaultable for PgDate {
    ghost DEFAULT = { record { 0 = pos 0 } };

    /// The day 2000-01-01.
    fn default_value() -> PgDate {
        PgDate(0)
    }
}

impl Defaultable for PgTime {
    ghost DEFAULT = { record { 0 = pos 0 } };

    /// Midnight.
    fn default_value() -> PgTime {
        PgTime(0)
    }
}

impl Defaultable for PgTimestamp {
    ghost DEFAULT = { record { 0 = pos 0 } };

    /// The midnight that begins 2000-01-01.
    fn default_value() -> PgTimestamp {
        PgTimestamp(0)
    }
}

/// The field of a `date`: that of an `int4`.
impl FromSql<Date> for PgDate {
    ghost reads = { ReadsPiece (λ piece v. IsSigned w32 piece v.0) };

    ghost refuses = { RefusesPiece (RefusesSize 4) };

    ghost MEMORY = { false };

    /// The day. `WrongSize` exactly where the piece has not 4 bytes. It takes no memory.
    fn from_sql(alloc: Global, value: PgValue<'_>) -> deserialize::Result<PgDate> {
        Ok(PgDate(<i32 as FromSql<Integer>>::from_sql(alloc, value)?))
    }

    fn from_nullable_sql(alloc: Global, value: Option<PgValue<'_>>) -> deserialize::Result<PgDate> {
        <PgDate as FromSql<Date>>::from_sql(alloc, required(value)?)
    }
}

impl ToSql<Date> for PgDate {
    ghost writes = { λ _ v answer bytes. (answer ≡ Ok no) × (bytes ≡ signed_bytes w32 v.0) };

    /// Appends the 4 bytes of the number.
    fn to_sql<L: PgMetadataLookup>(&self, out: &mut Output<'_, L>) -> serialize::Result
        ensures { WrotePiece out.old out.new (signed_bytes w32 self.now.0) result }
    {
        <i32 as ToSql<Integer>>::to_sql(&self.0, out)
    }
}

/// The field of a `time`: that of an `int8`.
impl FromSql<Time> for PgTime {
    ghost reads = { ReadsPiece (λ piece v. IsSigned w64 piece v.0) };

    ghost refuses = { RefusesPiece (RefusesSize 8) };

    ghost MEMORY = { false };

    /// The time. `WrongSize` exactly where the piece has not 8 bytes. It takes no memory.
    fn from_sql(alloc: Global, value: PgValue<'_>) -> deserialize::Result<PgTime> {
        Ok(PgTime(<i64 as FromSql<BigInt>>::from_sql(alloc, value)?))
    }

    fn from_nullable_sql(alloc: Global, value: Option<PgValue<'_>>) -> deserialize::Result<PgTime> {
        <PgTime as FromSql<Time>>::from_sql(alloc, required(value)?)
    }
}

impl ToSql<Time> for PgTime {
    ghost writes = { λ _ v answer bytes. (answer ≡ Ok no) × (bytes ≡ signed_bytes w64 v.0) };

    /// Appends the 8 bytes of the number.
    fn to_sql<L: PgMetadataLookup>(&self, out: &mut Output<'_, L>) -> serialize::Result
        ensures { WrotePiece out.old out.new (signed_bytes w64 self.now.0) result }
    {
        <i64 as ToSql<BigInt>>::to_sql(&self.0, out)
    }
}

/// The field of a `timestamp`: that of an `int8`.
impl FromSql<Timestamp> for PgTimestamp {
    ghost reads = { ReadsPiece (λ piece v. IsSigned w64 piece v.0) };

    ghost refuses = { RefusesPiece (RefusesSize 8) };

    ghost MEMORY = { false };

    /// The timestamp. `WrongSize` exactly where the piece has not 8 bytes. It takes no memory.
    fn from_sql(alloc: Global, value: PgValue<'_>) -> deserialize::Result<PgTimestamp> {
        Ok(PgTimestamp(<i64 as FromSql<BigInt>>::from_sql(alloc, value)?))
    }

    fn from_nullable_sql(
        alloc: Global,
        value: Option<PgValue<'_>>,
    ) -> deserialize::Result<PgTimestamp> {
        <PgTimestamp as FromSql<Timestamp>>::from_sql(alloc, required(value)?)
    }
}

impl ToSql<Timestamp> for PgTimestamp {
    ghost writes = { λ _ v answer bytes. (answer ≡ Ok no) × (bytes ≡ signed_bytes w64 v.0) };

    /// Appends the 8 bytes of the number.
    fn to_sql<L: PgMetadataLookup>(&self, out: &mut Output<'_, L>) -> serialize::Result
        ensures { WrotePiece out.old out.new (signed_bytes w64 self.now.0) result }
    {
        <i64 as ToSql<BigInt>>::to_sql(&self.0, out)
    }
}

/// The field of a `timestamptz`, which is that of a `timestamp`.
impl FromSql<Timestamptz> for PgTimestamp {
    ghost reads = { ReadsPiece (λ piece v. IsSigned w64 piece v.0) };

    ghost refuses = { RefusesPiece (RefusesSize 8) };

    ghost MEMORY = { false };

    /// The timestamp. `WrongSize` exactly where the piece has not 8 bytes. It takes no memory.
    fn from_sql(alloc: Global, value: PgValue<'_>) -> deserialize::Result<PgTimestamp> {
        <PgTimestamp as FromSql<Timestamp>>::from_sql(alloc, value)
    }

    fn from_nullable_sql(
        alloc: Global,
        value: Option<PgValue<'_>>,
    ) -> deserialize::Result<PgTimestamp> {
        <PgTimestamp as FromSql<Timestamp>>::from_nullable_sql(alloc, value)
    }
}

impl ToSql<Timestamptz> for PgTimestamp {
    ghost writes = { λ _ v answer bytes. (answer ≡ Ok no) × (bytes ≡ signed_bytes w64 v.0) };

    /// Appends the 8 bytes of the number.
    fn to_sql<L: PgMetadataLookup>(&self, out: &mut Output<'_, L>) -> serialize::Result
        ensures { WrotePiece out.old out.new (signed_bytes w64 self.now.0) result }
    {
        <PgTimestamp as ToSql<Timestamp>>::to_sql(self, out)
    }
}
