ghost use Rattle.std.specs.Prelude.{◌≡◌, ◌++◌, ◌<◌, ◌^◌, List, ℕ, length, IfSome, IsNone};
ghost use Rattle.pgw_wire.specs.Cell.{Cell, cell_of};
ghost use Rattle.pgw_copy.specs.Format.{IsField, AreFields, IsRow};
ghost use Rattle.pgw_copy.specs.Reader.{IsCutField, AreCutFields, IsWholeRow};

use pgw_copy::{NEGATIVE_COUNT, NEGATIVE_LENGTH};
use pgw_wire::{RawCell, take_piece, take_u16, take_u32};

/// The cell of the field at the front, and what stands behind the field. None where no whole field stands there.
#[inline(always)]
pub(crate) fn front_cell(bytes: &[u8]) -> Option<(RawCell<'_>, &[u8])>
    ensures some { IfSome result (λ x. (field : List ℕ) × IsField (cell_of x.0) field × (bytes.now ≡ field ++ x.1.now)) }
    ensures none { IsNone result → IsCutField bytes.now }
{
    let (length, rest) = take_u32(bytes)?;
    if length < NEGATIVE_LENGTH {
        let (piece, behind) = take_piece(rest, length as usize)?;
        Some((RawCell::Piece(piece), behind))
    } else {
        Some((RawCell::Null, rest))
    }
}

/// What stands behind so many fields at the front. None where not as many whole fields stand there.
pub(crate) fn behind_fields(count: usize, bytes: &[u8]) -> Option<&[u8]>
    ensures some { IfSome result (λ rest. (cells : List Cell) × (fields : List ℕ) × (length cells ≡ count)
        × AreFields cells fields × (bytes.now ≡ fields ++ rest.now)) }
    ensures none { IsNone result → AreCutFields count bytes.now }
{
    let mut rest = bytes;
    for _field in 0..count {
        let (_cell, behind) = front_cell(rest)?;
        rest = behind;
    }
    Some(rest)
}

/// What stands behind the row at the front. None where no whole row stands there.
pub(crate) fn behind_row(bytes: &[u8]) -> Option<&[u8]>
    ensures some { IfSome result (λ rest. (row : List ℕ) × IsWholeRow row × (bytes.now ≡ row ++ rest.now)) }
    ensures none { IsNone result → (cells : List Cell) (row behind : List ℕ) → IsRow cells row → bytes.now ≡ row ++ behind → ⊥ }
{
    let (count, fields) = take_u16(bytes)?;
    if count < NEGATIVE_COUNT {
        behind_fields(count as usize, fields)
    } else {
        None
    }
}
