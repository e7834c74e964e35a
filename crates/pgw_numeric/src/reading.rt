ghost use Rattle.std.specs.Prelude.{◌≡◌, ◌*◌, length, true, Some, Err, IfOk};
ghost use Rattle.pgw_meta.specs.Reading.{Answers, ReadsPiece, RefusesPiece};
ghost use Rattle.pgw_wire.specs.declared.sql_error.SqlError.TheVariants.{NoMemory as no_memory};
ghost use Rattle.pgw_numeric.specs.Numeric.{IsNumeric};
ghost use Rattle.pgw_numeric.specs.Refusals.{RefusesNumeric};
ghost use Rattle.pgw_numeric.specs.Field.{AreDigits, IsNumber};
ghost use Rattle.pgw_numeric.specs.Written.{numeric_of};

use crate::PgNumeric;
use crate::field::{Sign, sign_of, take_parts};
use crate::sql_types::Numeric;
use pgw_meta::deserialize::{self, FromSql, required};
use pgw_wire::{InvalidNumericSign, NoMemory, PgValue, SqlError, take_i16};
use std::alloc::Global;

/// So many digits, which are all that the bytes hold. Memory is asked for once, for all of them together.
fn read_digits(alloc: Global, count: u16, bytes: &[u8]) -> Result<Vec<i16>, NoMemory>
    requires { length bytes.now ≡ 2 * count }
    ensures { IfOk result (λ digits. AreDigits bytes.now digits.items) }
{
    let mut digits = Vec::with_capacity(alloc, usize::from(count))?;
    let mut rest = bytes;
    'read: while let Some((digit, behind)) = take_i16(rest) {
        if digits.push(digit).is_err() {
            unreachable!();
        }
        rest = behind;
    }
    Ok(digits)
}

/// The value of a piece, as the codec answers it.
fn read_piece(alloc: Global, piece: &[u8]) -> deserialize::Result<PgNumeric>
    ensures answers { Answers (ReadsPiece (λ piece v. IsNumeric piece (numeric_of v))) (RefusesPiece RefusesNumeric)
        true (Some piece.now) result }
    ensures memory { result ≡ Err no_memory → IsNumber piece.now }
{
    let Some((header, bytes)) = take_parts(piece) else {
        return Err(SqlError::ShortBuffer);
    };
    match sign_of(header.sign) {
        Some(Sign::Positive) => Ok(PgNumeric::Positive {
            weight: header.weight,
            scale: header.scale,
            digits: read_digits(alloc, header.count, bytes)?,
        }),
        Some(Sign::Negative) => Ok(PgNumeric::Negative {
            weight: header.weight,
            scale: header.scale,
            digits: read_digits(alloc, header.count, bytes)?,
        }),
        Some(Sign::NaN) => Ok(PgNumeric::NaN),
        None => Err(SqlError::InvalidSign(InvalidNumericSign(header.sign))),
    }
}

/// The field of a `numeric`: how many digits it has, the weight, the sign, the scale, and then the digits, each in 2
/// bytes, the most significant first. What stands behind it is ignored.
impl FromSql<Numeric> for PgNumeric {
    ghost reads = { ReadsPiece (λ piece v. IsNumeric piece (numeric_of v)) };

    ghost refuses = { RefusesPiece RefusesNumeric };

    ghost MEMORY = { true };

    /// The number, its digits in memory of their own, or `NaN`, of which weight, scale and digits are dropped.
    /// `ShortBuffer` exactly where the piece has fewer than 8 bytes, or fewer than these and 2 for each digit that it
    /// states. `InvalidSign` exactly where it has as many, and its sign is none. Only a number takes memory.
    fn from_sql(alloc: Global, value: PgValue<'_>) -> deserialize::Result<PgNumeric>
        ensures answers { Answers (ReadsPiece (λ piece v. IsNumeric piece (numeric_of v)))
            (RefusesPiece RefusesNumeric) true (Some value.entry.raw_value.now) result }
        ensures memory { result ≡ Err no_memory → IsNumber value.entry.raw_value.now }
    {
        read_piece(alloc, value.as_bytes())
    }

    fn from_nullable_sql(
        alloc: Global,
        value: Option<PgValue<'_>>,
    ) -> deserialize::Result<PgNumeric> {
        <PgNumeric as FromSql<Numeric>>::from_sql(alloc, required(value)?)
    }
}
