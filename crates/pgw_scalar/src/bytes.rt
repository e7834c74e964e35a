ghost use Rattle.std.specs.Prelude.{◌≡◌, Ok, true};
ghost use Rattle.std.specs.Cow.{cow_slice_items};
ghost use Rattle.pgw_wire.specs.declared.is_null.IsNull.TheVariants.{No as no};
ghost use Rattle.pgw_meta.specs.Reading.{ReadsPiece, RefusesPiece};
ghost use Rattle.pgw_scalar.specs.Bytea.{IsBytea};
ghost use Rattle.pgw_scalar.specs.Refusals.{RefusesNone};
ghost use Rattle.pgw_scalar.specs.Writing.{WrotePiece};

use crate::sql_types::Binary;
use pgw_meta::PgMetadataLookup;
use pgw_meta::deserialize::{self, FromSql, FromSqlRef, required};
use pgw_meta::serialize::{self, ToSql};
use pgw_wire::{IsNull, Output, PgValue};
use std::alloc::Global;
use std::borrow::CowSlice;

/// Bytes that are borrowed, to be written.
#[derive(Clone, Copy, Debug, PartialEq, Eq)]
pub struct BytesRef<'a>(pub &'a [u8]);

/// The field of a `bytea`: any bytes. The value borrows them.
impl<'a> FromSqlRef<'a, Binary> for &'a [u8] {
    ghost reads = { λ piece bytes. IsBytea piece bytes.now };

    ghost refuses = { RefusesNone };

    /// The bytes. No piece is refused. It takes no memory.
    fn from_sql_ref(value: PgValue<'a>) -> deserialize::Result<&'a [u8]> {
        Ok(value.as_bytes())
    }
}

/// The field of a `bytea`: any bytes.
impl FromSql<Binary> for Vec<u8> {
    ghost reads = { ReadsPiece (λ piece bytes. IsBytea piece bytes.items) };

    ghost refuses = { RefusesPiece RefusesNone };

    ghost MEMORY = { true };

    /// The bytes, in memory of their own. No piece is refused.
    fn from_sql(alloc: Global, value: PgValue<'_>) -> deserialize::Result<Vec<u8>> {
        Ok(Vec::from_slice(alloc, value.as_bytes())?)
    }

    fn from_nullable_sql(
        alloc: Global,
        value: Option<PgValue<'_>>,
    ) -> deserialize::Result<Vec<u8>> {
        <Vec<u8> as FromSql<Binary>>::from_sql(alloc, required(value)?)
    }
}

impl ToSql<Binary> for Vec<u8> {
    ghost writes = { λ _ v answer bytes. (answer ≡ Ok no) × (bytes ≡ v.items) };

    /// Appends the bytes.
    fn to_sql<L: PgMetadataLookup>(&self, out: &mut Output<'_, L>) -> serialize::Result
        ensures { WrotePiece out.old out.new self.now.items result }
    {
        out.write_all(self.as_slice())?;
        Ok(IsNull::No)
    }
}

/// The field of a `bytea`, as for `Vec<u8>`.
impl FromSql<Binary> for CowSlice<'_, u8> {
    ghost reads = { ReadsPiece (λ piece bytes. IsBytea piece (cow_slice_items bytes)) };

    ghost refuses = { RefusesPiece RefusesNone };

    ghost MEMORY = { true };

    /// The bytes, in memory of their own. No piece is refused.
    fn from_sql(alloc: Global, value: PgValue<'_>) -> deserialize::Result<Self> {
        Ok(CowSlice::Owned(<Vec<u8> as FromSql<Binary>>::from_sql(alloc, value)?))
    }

    fn from_nullable_sql(alloc: Global, value: Option<PgValue<'_>>) -> deserialize::Result<Self> {
        <Self as FromSql<Binary>>::from_sql(alloc, required(value)?)
    }
}

impl ToSql<Binary> for CowSlice<'_, u8> {
    ghost writes = { λ _ v answer bytes. (answer ≡ Ok no) × (bytes ≡ cow_slice_items v) };

    /// Appends the bytes, be they borrowed or owned.
    fn to_sql<L: PgMetadataLookup>(&self, out: &mut Output<'_, L>) -> serialize::Result {
        out.write_all(self.as_slice())?;
        Ok(IsNull::No)
    }
}

impl ToSql<Binary> for BytesRef<'_> {
    ghost writes = { λ _ v answer bytes. (answer ≡ Ok no) × (bytes ≡ v.0.now) };

    /// Appends the bytes.
    fn to_sql<L: PgMetadataLookup>(&self, out: &mut Output<'_, L>) -> serialize::Result {
        out.write_all(self.0)?;
        Ok(IsNull::No)
    }
}

impl<const N: usize> ToSql<Binary> for [u8; N] {
    ghost writes = { λ _ v answer bytes. (answer ≡ Ok no) × (bytes ≡ v) };

    /// Appends the bytes.
    fn to_sql<L: PgMetadataLookup>(&self, out: &mut Output<'_, L>) -> serialize::Result {
        out.write_all(self.as_slice())?;
        Ok(IsNull::No)
    }
}
