ghost use Rattle.std.specs.Prelude.{◌≡◌, Ok, false};
ghost use Rattle.std.specs.Int.{w16, w32, w64};
ghost use Rattle.pgw_wire.specs.declared.is_null.IsNull.TheVariants.{No as no};
ghost use Rattle.pgw_meta.specs.Reading.{ReadsPiece, RefusesPiece};
ghost use Rattle.pgw_scalar.specs.Whole.{IsSigned, signed_bytes};
ghost use Rattle.pgw_scalar.specs.Refusals.{RefusesSize};
ghost use Rattle.pgw_scalar.specs.Writing.{WrotePiece};

use crate::sql_types::{BigInt, Integer, SmallInt};
use pgw_meta::PgMetadataLookup;
use pgw_meta::deserialize::{self, FromSql, required};
use pgw_meta::serialize::{self, ToSql};
use pgw_wire::{IsNull, Output, PgValue, SqlError, take_i16, take_i32, take_i64};
use std::alloc::Global;

/// The field of an `int2`: 2 bytes, a number in two's complement, the most significant byte first.
impl FromSql<SmallInt> for i16 {
    ghost reads = { ReadsPiece (IsSigned w16) };

    ghost refuses = { RefusesPiece (RefusesSize 2) };

    ghost MEMORY = { false };

    /// The number. `WrongSize` exactly where the piece has not 2 bytes. It takes no memory.
    fn from_sql(_alloc: Global, value: PgValue<'_>) -> deserialize::Result<i16> {
        match take_i16(value.as_bytes()) {
            Some((number, [])) => Ok(number),
            _ => Err(SqlError::WrongSize {
                want: 2,
                have: value.as_bytes().len(),
            }),
        }
    }

    fn from_nullable_sql(alloc: Global, value: Option<PgValue<'_>>) -> deserialize::Result<i16> {
        <i16 as FromSql<SmallInt>>::from_sql(alloc, required(value)?)
    }
}

impl ToSql<SmallInt> for i16 {
    ghost writes = { λ _ v answer bytes. (answer ≡ Ok no) × (bytes ≡ signed_bytes w16 v) };

    /// Appends the 2 bytes of the number.
    fn to_sql<L: PgMetadataLookup>(&self, out: &mut Output<'_, L>) -> serialize::Result
        ensures { WrotePiece out.old out.new (signed_bytes w16 self.now) result }
    {
        out.write_all(&self.to_be_bytes())?;
        Ok(IsNull::No)
    }
}

/// The field of an `int4`: 4 bytes, a number in two's complement, the most significant byte first.
impl FromSql<Integer> for i32 {
    ghost reads = { ReadsPiece (IsSigned w32) };

    ghost refuses = { RefusesPiece (RefusesSize 4) };

    ghost MEMORY = { false };

    /// The number. `WrongSize` exactly where the piece has not 4 bytes. It takes no memory.
    fn from_sql(_alloc: Global, value: PgValue<'_>) -> deserialize::Result<i32> {
        match take_i32(value.as_bytes()) {
            Some((number, [])) => Ok(number),
            _ => Err(SqlError::WrongSize {
                want: 4,
                have: value.as_bytes().len(),
            }),
        }
    }

    fn from_nullable_sql(alloc: Global, value: Option<PgValue<'_>>) -> deserialize::Result<i32> {
        <i32 as FromSql<Integer>>::from_sql(alloc, required(value)?)
    }
}

impl ToSql<Integer> for i32 {
    ghost writes = { λ _ v answer bytes. (answer ≡ Ok no) × (bytes ≡ signed_bytes w32 v) };

    /// Appends the 4 bytes of the number.
    fn to_sql<L: PgMetadataLookup>(&self, out: &mut Output<'_, L>) -> serialize::Result
        ensures { WrotePiece out.old out.new (signed_bytes w32 self.now) result }
    {
        out.write_all(&self.to_be_bytes())?;
        Ok(IsNull::No)
    }
}

/// The field of an `int8`: 8 bytes, a number in two's complement, the most significant byte first.
impl FromSql<BigInt> for i64 {
    ghost reads = { ReadsPiece (IsSigned w64) };

    ghost refuses = { RefusesPiece (RefusesSize 8) };

    ghost MEMORY = { false };

    /// The number. `WrongSize` exactly where the piece has not 8 bytes. It takes no memory.
    fn from_sql(_alloc: Global, value: PgValue<'_>) -> deserialize::Result<i64> {
        match take_i64(value.as_bytes()) {
            Some((number, [])) => Ok(number),
            _ => Err(SqlError::WrongSize {
                want: 8,
                have: value.as_bytes().len(),
            }),
        }
    }

    fn from_nullable_sql(alloc: Global, value: Option<PgValue<'_>>) -> deserialize::Result<i64> {
        <i64 as FromSql<BigInt>>::from_sql(alloc, required(value)?)
    }
}

impl ToSql<BigInt> for i64 {
    ghost writes = { λ _ v answer bytes. (answer ≡ Ok no) × (bytes ≡ signed_bytes w64 v) };

    /// Appends the 8 bytes of the number.
    fn to_sql<L: PgMetadataLookup>(&self, out: &mut Output<'_, L>) -> serialize::Result
        ensures { WrotePiece out.old out.new (signed_bytes w64 self.now) result }
    {
        out.write_all(&self.to_be_bytes())?;
        Ok(IsNull::No)
    }
}
