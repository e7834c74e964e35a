ghost use Rattle.std.specs.Prelude.{◌≡◌, Ok, false};
ghost use Rattle.std.specs.Int.{w64, to_be_bytes};
ghost use Rattle.pgw_wire.specs.declared.is_null.IsNull.TheVariants.{No as no};
ghost use Rattle.pgw_meta.specs.Reading.{ReadsPiece, RefusesPiece};
ghost use Rattle.pgw_scalar.specs.Whole.{IsUnsigned};
ghost use Rattle.pgw_scalar.specs.Refusals.{RefusesSize};
ghost use Rattle.pgw_scalar.specs.Writing.{WrotePiece};

use crate::sql_types;
use pgw_meta::PgMetadataLookup;
use pgw_meta::deserialize::{self, FromSql, required};
use pgw_meta::serialize::{self, ToSql};
use pgw_wire::{IsNull, Output, PgValue, SqlError, take_u64};
use std::alloc::Global;

/// A position in the server's write-ahead log, as a number of bytes. The default is 0.
#[derive(Debug, Clone, Copy, PartialEq, Eq, Default)]
pub struct PgLsn(pub u64);

/// The field of a `pg_lsn`: 8 bytes, a number without a sign, the most significant byte first.
impl FromSql<sql_types::PgLsn> for PgLsn {
    ghost reads = { ReadsPiece (λ piece v. IsUnsigned w64 piece v.0) };

    ghost refuses = { RefusesPiece (RefusesSize 8) };

    ghost MEMORY = { false };

    /// The position. `WrongSize` exactly where the piece has not 8 bytes. It takes no memory.
    fn from_sql(_alloc: Global, value: PgValue<'_>) -> deserialize::Result<PgLsn> {
        match take_u64(value.as_bytes()) {
            Some((position, [])) => Ok(PgLsn(position)),
            _ => Err(SqlError::WrongSize {
                want: 8,
                have: value.as_bytes().len(),
            }),
        }
    }

    fn from_nullable_sql(alloc: Global, value: Option<PgValue<'_>>) -> deserialize::Result<PgLsn> {
        <PgLsn as FromSql<sql_types::PgLsn>>::from_sql(alloc, required(value)?)
    }
}

impl ToSql<sql_types::PgLsn> for PgLsn {
    ghost writes = { λ _ v answer bytes. (answer ≡ Ok no) × (bytes ≡ to_be_bytes w64 v.0) };

    /// Appends the 8 bytes of the number.
    fn to_sql<L: PgMetadataLookup>(&self, out: &mut Output<'_, L>) -> serialize::Result
        ensures { WrotePiece out.old out.new (to_be_bytes w64 self.now.0) result }
    {
        out.write_all(&self.0.to_be_bytes())?;
        Ok(IsNull::No)
    }
}
