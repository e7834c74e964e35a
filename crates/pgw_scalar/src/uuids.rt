ghost use Rattle.std.specs.Prelude.{◌≡◌, Ok, false};
ghost use Rattle.pgw_wire.specs.declared.is_null.IsNull.TheVariants.{No as no};
ghost use Rattle.pgw_meta.specs.Reading.{ReadsPiece, RefusesPiece};
ghost use Rattle.pgw_scalar.specs.Sized.{IsSized};
ghost use Rattle.pgw_scalar.specs.Refusals.{RefusesUuid};
ghost use Rattle.pgw_scalar.specs.Writing.{WrotePiece};

use crate::sql_types::Uuid as UuidType;
use pgw_meta::PgMetadataLookup;
use pgw_meta::deserialize::{self, FromSql, required};
use pgw_meta::serialize::{self, ToSql};
use pgw_wire::{IsNull, Output, PgValue, SqlError};
use std::alloc::Global;
use uuid::Uuid;

/// The field of a `uuid`: its 16 bytes.
impl FromSql<UuidType> for Uuid {
    ghost reads = { ReadsPiece (IsSized 16) };

    ghost refuses = { RefusesPiece RefusesUuid };

    ghost MEMORY = { false };

    /// The uuid of the bytes. `UuidLength` exactly where there are not 16. It takes no memory.
    fn from_sql(_alloc: Global, value: PgValue<'_>) -> deserialize::Result<Uuid> {
        match Uuid::from_slice(value.as_bytes()) {
            Ok(uuid) => Ok(uuid),
            Err(_) => Err(SqlError::UuidLength {
                have: value.as_bytes().len(),
            }),
        }
    }

    fn from_nullable_sql(alloc: Global, value: Option<PgValue<'_>>) -> deserialize::Result<Uuid> {
        <Uuid as FromSql<UuidType>>::from_sql(alloc, required(value)?)
    }
}

impl ToSql<UuidType> for Uuid {
    ghost writes = { λ _ v answer bytes. (answer ≡ Ok no) × (bytes ≡ v) };

    /// Appends the 16 bytes.
    fn to_sql<L: PgMetadataLookup>(&self, out: &mut Output<'_, L>) -> serialize::Result
        ensures { WrotePiece out.old out.new self.now result }
    {
        out.write_all(self.as_bytes())?;
        Ok(IsNull::No)
    }
}
