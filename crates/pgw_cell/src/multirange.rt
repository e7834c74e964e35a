ghost use Rattle.std.specs.Prelude.{◌≡◌, Some};
ghost use Rattle.pgw_wire.specs.Cell.{frame};
ghost use Rattle.pgw_meta.specs.Shape.{range, multirange};
ghost use Rattle.pgw_meta.specs.Types.{shape};
ghost use Rattle.pgw_nested.specs.RangePieces.{ranges_of};
ghost use Rattle.pgw_cell.specs.Ranges.{multirange_spelling};
ghost use Rattle.pgw_cell.specs.Pieces.{piece_size, read_piece};
ghost use Rattle.pgw_cell.specs.Cells.{canonical_size};
ghost use Rattle.pgw_cell.specs.Written.{size_read, cells_read, sizes_read, ranges_written, HasRoom, Appends};

use crate::piece::are_bytes;
use crate::range::{push_range, sized_range};
use crate::sizes::{add, break_of};
use pgw_meta::PgType;
use pgw_nested::{MultirangePieces, close_length, place_length};
use pgw_wire::{Break, ByteBuffer};

/// How many bytes the multirange over such a part is written as that the piece spells, as they are counted, or the kind
/// in which the piece breaks. It takes no memory.
#[inline(never)]
pub(crate) fn sized_multirange(part: &PgType, piece: &[u8]) -> Result<usize, Break>
    ensures { result ≡ size_read (piece_size (multirange (shape part.now))) (read_piece (multirange (shape part.now)) piece.now) }
{
    match MultirangePieces::new(piece) {
        Ok(pieces) => sized_ranges(part, pieces),
        Err(error) => Err(break_of(&error)),
    }
}

/// How many bytes the multirange has that these ranges are written as.
fn sized_ranges(part: &PgType, pieces: MultirangePieces<'_>) -> Result<usize, Break>
    ensures { result ≡ sizes_read (canonical_size (range (shape part.now))) 4 (cells_read (range (shape part.now)) (ranges_of pieces.entry)) }
{
    let mut pieces = pieces;
    let mut total = 4;
    loop {
        match pieces.next_piece() {
            Ok(Some(piece)) => {
                are_bytes(piece);
                total = add(total, sized_range(part, piece)?);
            }
            Ok(None) => return Ok(total),
            Err(error) => return Err(break_of(&error)),
        }
    }
}

/// Appends the canonical field of that multirange into the room that was made for it.
#[inline(never)]
pub(crate) fn push_multirange(part: &PgType, piece: &[u8], out: &mut ByteBuffer)
    requires { HasRoom (read_piece (multirange (shape part.now)) piece.now)
        (λ v. frame (Some ((multirange_spelling (shape part.now)).canonical v))) out.old.spare }
    ensures { Appends (read_piece (multirange (shape part.now)) piece.now)
        (λ v. frame (Some ((multirange_spelling (shape part.now)).canonical v))) out.old out.new }
{
    match MultirangePieces::new(piece) {
        Ok(pieces) => {
            let place = place_length(out);
            out.push_reserved(&pieces.left().to_be_bytes());
            push_ranges(part, pieces, out);
            close_length(out, place);
        }
        Err(_) => unreachable!(),
    }
}

/// Appends the canonical fields of the ranges of a multirange.
fn push_ranges(part: &PgType, pieces: MultirangePieces<'_>, out: &mut ByteBuffer)
    requires { HasRoom (cells_read (range (shape part.now)) (ranges_of pieces)) (ranges_written (shape part.now))
        out.old.spare }
    ensures { Appends (cells_read (range (shape part.now)) (ranges_of pieces.entry)) (ranges_written (shape part.now))
        out.old out.new }
{
    let mut pieces = pieces;
    loop {
        match pieces.next_piece() {
            Ok(Some(piece)) => {
                are_bytes(piece);
                push_range(part, piece, out);
            }
            Ok(None) => return,
            Err(_) => unreachable!(),
        }
    }
}
