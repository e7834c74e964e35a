ghost use Rattle.std.specs.Prelude.{◌≡◌, Ok, false};
ghost use Rattle.pgw_wire.specs.declared.is_null.IsNull.TheVariants.{No as no};
ghost use Rattle.pgw_meta.specs.Reading.{ReadsPiece, RefusesPiece};
ghost use Rattle.pgw_scalar.specs.Leading.{IsBool, bool_bytes, IsChar, char_bytes, IsOid, oid_bytes};
ghost use Rattle.pgw_scalar.specs.Refusals.{RefusesEmpty, RefusesShort};
ghost use Rattle.pgw_scalar.specs.Writing.{WrotePiece};

use crate::sql_types::{Bool, CChar, Oid};
use pgw_meta::PgMetadataLookup;
use pgw_meta::deserialize::{self, FromSql, required};
use pgw_meta::serialize::{self, ToSql};
use pgw_wire::{IsNull, Output, PgValue, SqlError, take_u32};
use std::alloc::Global;

/// The field of a `bool`: a byte, which is 0 of false and any other of true. What stands behind it is ignored.
impl FromSql<Bool> for bool {
    ghost reads = { ReadsPiece IsBool };

    ghost refuses = { RefusesPiece RefusesEmpty };

    ghost MEMORY = { false };

    /// Whether the first byte is not 0. `EmptyResponse` exactly where there is no byte. It takes no memory.
    fn from_sql(_alloc: Global, value: PgValue<'_>) -> deserialize::Result<bool> {
        match value.as_bytes() {
            [first, ..] => Ok(*first != 0),
            [] => Err(SqlError::EmptyResponse),
        }
    }

    fn from_nullable_sql(alloc: Global, value: Option<PgValue<'_>>) -> deserialize::Result<bool> {
        <bool as FromSql<Bool>>::from_sql(alloc, required(value)?)
    }
}

impl ToSql<Bool> for bool {
    ghost writes = { λ _ v answer bytes. (answer ≡ Ok no) × (bytes ≡ bool_bytes v) };

    /// Appends a byte, 1 of true and 0 of false.
    fn to_sql<L: PgMetadataLookup>(&self, out: &mut Output<'_, L>) -> serialize::Result
        ensures { WrotePiece out.old out.new (bool_bytes self.now) result }
    {
        out.write_all(&[if *self { 1 } else { 0 }])?;
        Ok(IsNull::No)
    }
}

/// The field of a `"char"`: a byte. What stands behind it is ignored.
impl FromSql<CChar> for u8 {
    ghost reads = { ReadsPiece IsChar };

    ghost refuses = { RefusesPiece RefusesEmpty };

    ghost MEMORY = { false };

    /// The first byte. `EmptyResponse` exactly where there is none. It takes no memory.
    fn from_sql(_alloc: Global, value: PgValue<'_>) -> deserialize::Result<u8> {
        match value.as_bytes() {
            [first, ..] => Ok(*first),
            [] => Err(SqlError::EmptyResponse),
        }
    }

    fn from_nullable_sql(alloc: Global, value: Option<PgValue<'_>>) -> deserialize::Result<u8> {
        <u8 as FromSql<CChar>>::from_sql(alloc, required(value)?)
    }
}

impl ToSql<CChar> for u8 {
    ghost writes = { λ _ v answer bytes. (answer ≡ Ok no) × (bytes ≡ char_bytes v) };

    /// Appends the byte.
    fn to_sql<L: PgMetadataLookup>(&self, out: &mut Output<'_, L>) -> serialize::Result
        ensures { WrotePiece out.old out.new (char_bytes self.now) result }
    {
        out.write_all(&[*self])?;
        Ok(IsNull::No)
    }
}

/// The field of an `oid`: 4 bytes, a number without a sign, the most significant byte first. What stands behind them is
/// ignored.
impl FromSql<Oid> for u32 {
    ghost reads = { ReadsPiece IsOid };

    ghost refuses = { RefusesPiece RefusesShort };

    ghost MEMORY = { false };

    /// The number in the first 4 bytes. `ShortBuffer` exactly where there are fewer. It takes no memory.
    fn from_sql(_alloc: Global, value: PgValue<'_>) -> deserialize::Result<u32> {
        match take_u32(value.as_bytes()) {
            Some((oid, _)) => Ok(oid),
            None => Err(SqlError::ShortBuffer),
        }
    }

    fn from_nullable_sql(alloc: Global, value: Option<PgValue<'_>>) -> deserialize::Result<u32> {
        <u32 as FromSql<Oid>>::from_sql(alloc, required(value)?)
    }
}

impl ToSql<Oid> for u32 {
    ghost writes = { λ _ v answer bytes. (answer ≡ Ok no) × (bytes ≡ oid_bytes v) };

    /// Appends the 4 bytes of the number.
    fn to_sql<L: PgMetadataLookup>(&self, out: &mut Output<'_, L>) -> serialize::Result
        ensures { WrotePiece out.old out.new (oid_bytes self.now) result }
    {
        out.write_all(&self.to_be_bytes())?;
        Ok(IsNull::No)
    }
}
