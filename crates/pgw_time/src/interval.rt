ghost use Rattle.std.specs.Prelude.{◌≡◌, ◌+ℤ◌, pos, FitsSigned, SomeIff, Ok, false};
ghost use Rattle.std.specs.Int.{w32, w64};
ghost use Rattle.pgw_wire.specs.declared.is_null.IsNull.TheVariants.{No as no};
ghost use Rattle.pgw_meta.specs.Reading.{ReadsPiece, RefusesPiece};
ghost use Rattle.pgw_scalar.specs.Writing.{WrotePiece};
ghost use Rattle.pgw_time.specs.Interval.{IsInterval, interval_bytes, interval_of};
ghost use Rattle.pgw_time.specs.Refusals.{RefusesInterval};

use crate::sql_types::Interval;
use pgw_meta::PgMetadataLookup;
use pgw_meta::deserialize::{self, FromSql, required};
use pgw_meta::serialize::{self, ToSql};
use pgw_wire::{IsNull, Output, PgValue, SqlError, take_i32, take_i64};
use std::alloc::Global;

/// A span of time, as the numbers of its microseconds, days and months, each of either sign. None is turned into
/// another, since months differ in how many days they have, and days in how long they are where clocks are changed.
#[derive(Debug, Clone, Copy, PartialEq, Eq)]
pub struct PgInterval {
    pub microseconds: i64,
    pub days: i32,
    pub months: i32,
}

impl PgInterval {
    /// The interval of these numbers. It takes no memory.
    pub fn new(microseconds: i64, days: i32, months: i32) -> Self
        ensures { result ≡ record { microseconds = microseconds; days = days; months = months } }
    {
        PgInterval {
            microseconds,
            days,
            months,
        }
    }

    /// The interval of microseconds alone. It takes no memory.
    pub fn from_microseconds(microseconds: i64) -> Self
        ensures { result ≡ record { microseconds = microseconds; days = pos 0; months = pos 0 } }
    {
        PgInterval::new(microseconds, 0, 0)
    }

    /// The interval of days alone. It takes no memory.
    pub fn from_days(days: i32) -> Self
        ensures { result ≡ record { microseconds = pos 0; days = days; months = pos 0 } }
    {
        PgInterval::new(0, days, 0)
    }

    /// The interval of months alone. It takes no memory.
    pub fn from_months(months: i32) -> Self
        ensures { result ≡ record { microseconds = pos 0; days = pos 0; months = months } }
    {
        PgInterval::new(0, 0, months)
    }

    /// The sums of the microseconds, of the days and of the months, none of which is carried into another. None exactly
    /// where one of them is outside of its type. It takes no memory.
    pub fn checked_add(self, other: PgInterval) -> Option<PgInterval>
        ensures { SomeIff result
            (FitsSigned w64 (self.microseconds +ℤ other.microseconds)
            × FitsSigned w32 (self.days +ℤ other.days)
            × FitsSigned w32 (self.months +ℤ other.months))
            (record {
              microseconds = self.microseconds +ℤ other.microseconds;
              days = self.days +ℤ other.days;
              months = self.months +ℤ other.months;
            }) }
    {
        let microseconds = self.microseconds.checked_add(other.microseconds)?;
        let days = self.days.checked_add(other.days)?;
        let months = self.months.checked_add(other.months)?;
        Some(PgInterval::new(microseconds, days, months))
    }
}

/// The field of an `interval`: 8 bytes of microseconds, 4 of days and 4 of months, each a number in two's complement,
/// the most significant byte first. What stands behind them is ignored.
impl FromSql<Interval> for PgInterval {
    ghost reads = { ReadsPiece (λ piece v. IsInterval piece (interval_of v)) };

    ghost refuses = { RefusesPiece RefusesInterval };

    ghost MEMORY = { false };

    /// The three numbers in the first 16 bytes. `ShortValue` exactly where there are fewer, with the place where the
    /// first of the numbers ends that is not whole there. It takes no memory.
    fn from_sql(_alloc: Global, value: PgValue<'_>) -> deserialize::Result<PgInterval> {
        let bytes = value.as_bytes();
        let have = bytes.len();
        let Some((microseconds, rest)) = take_i64(bytes) else {
            return Err(SqlError::ShortValue { have, want: 8 });
        };
        let Some((days, rest)) = take_i32(rest) else {
            return Err(SqlError::ShortValue { have, want: 12 });
        };
        match take_i32(rest) {
            Some((months, _)) => Ok(PgInterval::new(microseconds, days, months)),
            None => Err(SqlError::ShortValue { have, want: 16 }),
        }
    }

    fn from_nullable_sql(
        alloc: Global,
        value: Option<PgValue<'_>>,
    ) -> deserialize::Result<PgInterval> {
        <PgInterval as FromSql<Interval>>::from_sql(alloc, required(value)?)
    }
}

impl ToSql<Interval> for PgInterval {
    ghost writes = { λ _ v answer bytes. (answer ≡ Ok no) × (bytes ≡ interval_bytes (interval_of v)) };

    /// Appends the 8 bytes of the microseconds, the 4 of the days and the 4 of the months.
    fn to_sql<L: PgMetadataLookup>(&self, out: &mut Output<'_, L>) -> serialize::Result
        ensures { WrotePiece out.old out.new (interval_bytes (interval_of self.now)) result }
    {
        out.write_all(&self.microseconds.to_be_bytes())?;
        out.write_all(&self.days.to_be_bytes())?;
        out.write_all(&self.months.to_be_bytes())?;
        Ok(IsNull::No)
    }
}
