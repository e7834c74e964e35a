ghost use Rattle.std.specs.Prelude.{◌≡◌, ◌+ℤ◌, ◌-ℤ◌, FitsSigned, SomeIff, Ok, false};
ghost use Rattle.std.specs.Int.{w64};
ghost use Rattle.pgw_wire.specs.declared.is_null.IsNull.TheVariants.{No as no};
ghost use Rattle.pgw_meta.specs.Reading.{ReadsPiece, RefusesPiece};
ghost use Rattle.pgw_scalar.specs.Whole.{IsSigned, signed_bytes};
ghost use Rattle.pgw_scalar.specs.Refusals.{RefusesSize};
ghost use Rattle.pgw_scalar.specs.Writing.{WrotePiece};

use crate::sql_types::{BigInt, Money};
use pgw_meta::PgMetadataLookup;
use pgw_meta::deserialize::{self, FromSql, required};
use pgw_meta::serialize::{self, ToSql};
use pgw_wire::{Output, PgValue};
use std::alloc::Global;

/// An amount of money, as a number of the least unit that the server counts in, which its setting `lc_monetary` says.
/// Amounts are ordered by their numbers.
#[derive(Debug, Clone, Copy, PartialEq, Eq, PartialOrd, Ord)]
pub struct PgMoney(pub i64);

impl PgMoney {
    /// The sum. None exactly where it is no `i64`. It takes no memory.
    pub fn checked_add(self, rhs: PgMoney) -> Option<PgMoney>
        ensures { SomeIff result (FitsSigned w64 (self.0 +ℤ rhs.0)) (record { 0 = self.0 +ℤ rhs.0 }) }
    {
        match self.0.checked_add(rhs.0) {
            Some(sum) => Some(PgMoney(sum)),
            None => None,
        }
    }

    /// The difference. None exactly where it is no `i64`. It takes no memory.
    pub fn checked_sub(self, rhs: PgMoney) -> Option<PgMoney>
        ensures { SomeIff result (FitsSigned w64 (self.0 -ℤ rhs.0)) (record { 0 = self.0 -ℤ rhs.0 }) }
    {
        match self.0.checked_sub(rhs.0) {
            Some(difference) => Some(PgMoney(difference)),
            None => None,
        }
    }
}

/// The field of a `money`: that of an `int8`.
impl FromSql<Money> for PgMoney {
    ghost reads = { ReadsPiece (λ piece v. IsSigned w64 piece v.0) };

    ghost refuses = { RefusesPiece (RefusesSize 8) };

    ghost MEMORY = { false };

    /// The amount. `WrongSize` exactly where the piece has not 8 bytes. It takes no memory.
    fn from_sql(alloc: Global, value: PgValue<'_>) -> deserialize::Result<PgMoney> {
        Ok(PgMoney(<i64 as FromSql<BigInt>>::from_sql(alloc, value)?))
    }

    fn from_nullable_sql(
        alloc: Global,
        value: Option<PgValue<'_>>,
    ) -> deserialize::Result<PgMoney> {
        <PgMoney as FromSql<Money>>::from_sql(alloc, required(value)?)
    }
}

impl ToSql<Money> for PgMoney {
    ghost writes = { λ _ v answer bytes. (answer ≡ Ok no) × (bytes ≡ signed_bytes w64 v.0) };

    /// Appends the 8 bytes of the number.
    fn to_sql<L: PgMetadataLookup>(&self, out: &mut Output<'_, L>) -> serialize::Result
        ensures { WrotePiece out.old out.new (signed_bytes w64 self.now.0) result }
    {
        <i64 as ToSql<BigInt>>::to_sql(&self.0, out)
    }
}
