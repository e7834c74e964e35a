ghost use Rattle.std.specs.Prelude.{◌≡◌, ◌<◌, ◌^◌, ◌++◌, false, length, Some, MatchResult};
ghost use Rattle.std.specs.Int.{to_be_bytes, w32};
ghost use Rattle.pgw_wire.specs.Cell.{cell_of, frame};
ghost use Rattle.pgw_wire.specs.declared.sql_error.SqlError.TheVariants.{ShortBuffer as short_buffer};
ghost use Rattle.pgw_nested.specs.Frames.{IsFramed, HasNoFrame, HasNoPiece};

use pgw_wire::deserialize::Result;
use pgw_wire::{RawCell, SqlError, take_piece, take_u32};

/// The length of a null, -1, as a number without sign.
const NULL: u32 = 0xffff_ffff;

/// The least number without sign that is negative as one with sign.
pub(crate) const NEGATIVE: u32 = 0x8000_0000;

/// The number in the first four bytes, and the rest. `ShortBuffer` exactly where fewer are there.
pub fn take_word(bytes: &[u8]) -> Result<(u32, &[u8])>
    ensures { MatchResult result (λ x. (bytes.now ≡ to_be_bytes w32 x.0 ++ x.1.now) × (x.0 < 2 ^ 32))
        (λ e. (e ≡ short_buffer) × (length bytes.now < 4)) }
{
    take_u32(bytes).ok_or(SqlError::ShortBuffer)
}

/// The first bytes, as many as the length says, and the rest. `NegativeSize` with a length below 0, and `ElementBytes`
/// with a length that is more than the bytes.
fn take_sized(len: u32, bytes: &[u8]) -> Result<(&[u8], &[u8])>
    ensures { MatchResult result
        (λ x. (len < 2147483648) × (length x.0.now ≡ len) × (bytes.now ≡ x.0.now ++ x.1.now))
        (λ e. HasNoPiece len bytes.now e) }
{
    if len >= NEGATIVE {
        return Err(SqlError::NegativeSize(len.cast_signed()));
    }
    take_piece(bytes, len as usize).ok_or(SqlError::ElementBytes {
        want: len.cast_signed(),
        have: bytes.len(),
    })
}

/// The piece whose frame stands in front of the bytes, and the rest: a length of 4 bytes, and as many bytes.
/// `ShortBuffer` where the bytes end inside the length, `NegativeSize` with a length below 0, and `ElementBytes` with a
/// length that is more than the bytes behind it.
pub(crate) fn take_frame(bytes: &[u8]) -> Result<(&[u8], &[u8])>
    ensures { MatchResult result
        (λ x. (length x.0.now < 2147483648) × (bytes.now ≡ frame (Some x.0.now) ++ x.1.now))
        (λ e. HasNoFrame false bytes.now e) }
{
    let (len, rest) = take_word(bytes)?;
    take_sized(len, rest)
}

/// The cell whose frame stands in front of the bytes, and the rest. Where nulls may stand, the length -1 is a null's,
/// and else all is as for a piece.
pub fn take_cell(nulls: bool, bytes: &[u8]) -> Result<(RawCell<'_>, &[u8])>
    ensures { MatchResult result
        (λ x. IsFramed nulls (cell_of x.0) × (bytes.now ≡ frame (cell_of x.0) ++ x.1.now))
        (λ e. HasNoFrame nulls bytes.now e) }
{
    let (len, rest) = take_word(bytes)?;
    if nulls && len == NULL {
        return Ok((RawCell::Null, rest));
    }
    let (piece, rest) = take_sized(len, rest)?;
    Ok((RawCell::Piece(piece), rest))
}
