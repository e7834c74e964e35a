ghost use Rattle.std.specs.Prelude.{◌≡◌, ◌++◌, List, ℕ, length, OnOk};
ghost use Rattle.pgw_wire.specs.Output.{IsSameOutput};
ghost use Rattle.pgw_numeric.specs.Numeric.{digit_bytes};
ghost use Rattle.pgw_numeric.specs.Written.{numeric_of, IsWrittenAs, WritesNumeric, WroteNumeric};

use crate::PgNumeric;
use crate::field::{Header, Sign};
use crate::sql_types::Numeric;
use pgw_meta::PgMetadataLookup;
use pgw_meta::serialize::{self, ToSql, WriteError};
use pgw_wire::{IsNull, NoMemory, Output};

/// What stands in the field of a value.
#[derive(Drop)]
struct Parts<'a> {
    weight: i16,
    sign: Sign,
    scale: u16,
    digits: &'a [i16],
}

impl PgNumeric {
    /// What stands in its field.
    fn parts(&self) -> Parts<'_>
        ensures { IsWrittenAs (numeric_of self.now) result }
    {
        match self {
            PgNumeric::Positive {
                weight,
                scale,
                digits,
            } => Parts {
                weight: *weight,
                sign: Sign::Positive,
                scale: *scale,
                digits: digits.as_slice(),
            },
            PgNumeric::Negative {
                weight,
                scale,
                digits,
            } => Parts {
                weight: *weight,
                sign: Sign::Negative,
                scale: *scale,
                digits: digits.as_slice(),
            },
            PgNumeric::NaN => Parts {
                weight: 0,
                sign: Sign::NaN,
                scale: 0,
                digits: &[],
            },
        }
    }
}

/// Appends the digits, each in 2 bytes.
fn write_digits<L>(out: &mut Output<'_, L>, digits: &[i16]) -> Result<(), NoMemory>
    ensures same { IsSameOutput out.old out.new }
    ensures lookup { out.new.lookup.now ≡ out.old.lookup.now }
    ensures more { (more : List ℕ) × (out.new.out.now.bytes ≡ out.old.out.now.bytes ++ more) }
    ensures ok { OnOk result (out.new.out.now.bytes ≡ out.old.out.now.bytes ++ digit_bytes digits.now) }
{
    for digit in digits {
        out.write_all(&digit.to_be_bytes())?;
    }
    Ok(())
}

impl ToSql<Numeric> for PgNumeric {
    ghost writes = { λ _ v answer bytes. WritesNumeric (numeric_of v) answer bytes };

    /// Appends how many digits it has, the weight, the sign, the scale and the digits; of `NaN` 0000 0000 C000 0000.
    /// `TooMany` exactly where it has more than 65535 digits, and then nothing is appended.
    fn to_sql<L: PgMetadataLookup>(&self, out: &mut Output<'_, L>) -> serialize::Result
        ensures { WroteNumeric out.old out.new (numeric_of self.now) result }
    {
        let parts = self.parts();
        let Ok(count) = u16::try_from(parts.digits.len()) else {
            return Err(WriteError::TooMany);
        };
        let header = Header {
            count,
            weight: parts.weight,
            sign: parts.sign.word(),
            scale: parts.scale,
        };
        out.write_all(&header.to_bytes())?;
        write_digits(out, parts.digits)?;
        Ok(IsNull::No)
    }
}
