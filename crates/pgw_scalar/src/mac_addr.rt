ghost use Rattle.std.specs.Prelude.{◌≡◌, Ok, Some, false};
ghost use Rattle.pgw_wire.specs.declared.is_null.IsNull.TheVariants.{No as no};
ghost use Rattle.pgw_meta.specs.Reading.{Answers, ReadsPiece, RefusesPiece};
ghost use Rattle.pgw_scalar.specs.Sized.{IsSized};
ghost use Rattle.pgw_scalar.specs.Refusals.{RefusesMac};
ghost use Rattle.pgw_scalar.specs.Writing.{WrotePiece};

use crate::sql_types::{MacAddr, MacAddr8};
use pgw_meta::PgMetadataLookup;
use pgw_meta::deserialize::{self, FromSql, required};
use pgw_meta::serialize::{self, ToSql};
use pgw_wire::{IsNull, Output, PgValue, SqlError};
use std::alloc::Global;

/// The bytes of an address that has to have `N`. `MacLength` exactly where there are not as many. It takes no memory.
fn address<const N: usize>(value: PgValue<'_>) -> deserialize::Result<[u8; N]>
    ensures { Answers (ReadsPiece (IsSized N)) (RefusesPiece (RefusesMac N)) false
        (Some value.entry.raw_value.now) result }
{
    match <[u8; N]>::try_from(value.as_bytes()) {
        Ok(bytes) => Ok(bytes),
        Err(_) => Err(SqlError::MacLength { want: N }),
    }
}

/// The field of a `macaddr`: the 6 bytes of the address.
impl FromSql<MacAddr> for [u8; 6] {
    ghost reads = { ReadsPiece (IsSized 6) };

    ghost refuses = { RefusesPiece (RefusesMac 6) };

    ghost MEMORY = { false };

    /// The address. `MacLength` exactly where there are not 6 bytes. It takes no memory.
    fn from_sql(_alloc: Global, value: PgValue<'_>) -> deserialize::Result<[u8; 6]> {
        address(value)
    }

    fn from_nullable_sql(
        alloc: Global,
        value: Option<PgValue<'_>>,
    ) -> deserialize::Result<[u8; 6]> {
        <[u8; 6] as FromSql<MacAddr>>::from_sql(alloc, required(value)?)
    }
}

impl ToSql<MacAddr> for [u8; 6] {
    ghost writes = { λ _ v answer bytes. (answer ≡ Ok no) × (bytes ≡ v) };

    /// Appends the 6 bytes.
    fn to_sql<L: PgMetadataLookup>(&self, out: &mut Output<'_, L>) -> serialize::Result
        ensures { WrotePiece out.old out.new self.now result }
    {
        out.write_all(self)?;
        Ok(IsNull::No)
    }
}

/// The field of a `macaddr8`: the 8 bytes of the address.
impl FromSql<MacAddr8> for [u8; 8] {
    ghost reads = { ReadsPiece (IsSized 8) };

    ghost refuses = { RefusesPiece (RefusesMac 8) };

    ghost MEMORY = { false };

    /// The address. `MacLength` exactly where there are not 8 bytes. It takes no memory.
    fn from_sql(_alloc: Global, value: PgValue<'_>) -> deserialize::Result<[u8; 8]> {
        address(value)
    }

    fn from_nullable_sql(
        alloc: Global,
        value: Option<PgValue<'_>>,
    ) -> deserialize::Result<[u8; 8]> {
        <[u8; 8] as FromSql<MacAddr8>>::from_sql(alloc, required(value)?)
    }
}

impl ToSql<MacAddr8> for [u8; 8] {
    ghost writes = { λ _ v answer bytes. (answer ≡ Ok no) × (bytes ≡ v) };

    /// Appends the 8 bytes.
    fn to_sql<L: PgMetadataLookup>(&self, out: &mut Output<'_, L>) -> serialize::Result
        ensures { WrotePiece out.old out.new self.now result }
    {
        out.write_all(self)?;
        Ok(IsNull::No)
    }
}
