ghost use Rattle.std.specs.Prelude.{◌≡◌, ◌≤◌, ◌+◌, ◌++◌, length, Some, is_some, IsTrue};
ghost use Rattle.pgw_wire.specs.Cell.{frame};
ghost use Rattle.pgw_meta.specs.Shape.{range};
ghost use Rattle.pgw_meta.specs.Types.{shape};
ghost use Rattle.pgw_nested.specs.RangePieces.{bound_of};
ghost use Rattle.pgw_nested.specs.RangeWritten.{bound_of_kind};
ghost use Rattle.pgw_cell.specs.Ranges.{default_of, range_spelling};
ghost use Rattle.pgw_cell.specs.Pieces.{piece_size, read_piece};
ghost use Rattle.pgw_cell.specs.Written.{bytes_of, counted, size_read, HasRoom, Appends, kind_of_bound, default_answer, default_bytes, bound_answer, bound_read, range_answer, range_read, bytes_of_bound, bytes_of_range};

use crate::piece::{Canonical, written};
use crate::sizes::{MANY, break_of};
use pgw_meta::PgType;
use pgw_nested::{BoundKind, BoundPiece, RangePieces, place_range};
use pgw_wire::{Break, ByteBuffer};
use std::ops::Bound;

/// The bytes of a default value, which is 0 for every type but numeric.
const ZERO: &[u8] = &[0; 8];

/// What the bounds of a range are written as.
#[derive(Clone, Copy)]
pub(crate) struct CanonicalRange<'a> {
    pub(crate) lower: Bound<Canonical<'a>>,
    pub(crate) upper: Bound<Canonical<'a>>,
}

/// How many bytes the field of a bound's value has, as they are counted.
fn bound_len(bound: Bound<Canonical<'_>>) -> usize
    ensures value { counted result ≡ counted (length (bytes_of_bound bound.entry)) }
    ensures few { result ≤ 4294967300 }
{
    match bound {
        Bound::Unbounded => 0,
        Bound::Included(value) => 4 + value.len().min(MANY),
        Bound::Excluded(value) => 4 + value.len().min(MANY),
    }
}

/// Of what kind a bound is.
fn kind_of(bound: &Bound<Canonical<'_>>) -> BoundKind
    ensures { bound_of_kind result ≡ kind_of_bound bound.now }
{
    match bound {
        Bound::Unbounded => BoundKind::Unbounded,
        Bound::Included(_) => BoundKind::Included,
        Bound::Excluded(_) => BoundKind::Excluded,
    }
}

/// Appends the field of a value into the room that was made for it.
fn push_value(value: Canonical<'_>, out: &mut ByteBuffer)
    requires room { 4 + length (bytes_of value) ≤ out.old.spare }
    requires small { length (bytes_of value) ≤ 2147483647 }
    ensures bytes { out.new.bytes ≡ out.old.bytes ++ frame (Some (bytes_of value.entry)) }
    ensures spare { out.new.spare + (4 + length (bytes_of value.entry)) ≡ out.old.spare }
{
    out.push_reserved(&(value.len() as u32).to_be_bytes());
    value.push_reserved(out);
}

/// Appends the field of a bound's value into the room that was made for it, and nothing where it has none.
fn push_bound(bound: Bound<Canonical<'_>>, out: &mut ByteBuffer)
    requires room { length (bytes_of_bound bound) ≤ out.old.spare }
    requires small { length (bytes_of_bound bound) ≤ 2147483647 }
    ensures bytes { out.new.bytes ≡ out.old.bytes ++ bytes_of_bound bound.entry }
    ensures spare { out.new.spare + length (bytes_of_bound bound.entry) ≡ out.old.spare }
{
    match bound {
        Bound::Unbounded => {}
        Bound::Included(value) => push_value(value, out),
        Bound::Excluded(value) => push_value(value, out),
    }
}

impl<'a> CanonicalRange<'a> {
    /// How many bytes that are, as they are counted.
    pub(crate) fn len(self) -> usize
        ensures { result ≡ counted (length (bytes_of_range self.entry)) }
    {
        (1 + bound_len(self.lower) + bound_len(self.upper)).min(MANY)
    }

    /// Appends the bytes into the room that was made for them.
    fn push_reserved(self, out: &mut ByteBuffer)
        requires room { length (bytes_of_range self) ≤ out.old.spare }
        requires small { length (bytes_of_range self) ≤ 2147483647 }
        ensures bytes { out.new.bytes ≡ out.old.bytes ++ bytes_of_range self.entry }
        ensures spare { out.new.spare + length (bytes_of_range self.entry) ≡ out.old.spare }
    {
        place_range(out, kind_of(&self.lower), kind_of(&self.upper));
        push_bound(self.lower, out);
        push_bound(self.upper, out);
    }

    /// Appends their field into the room that was made for it.
    pub(crate) fn push_field(self, out: &mut ByteBuffer)
        requires room { 4 + length (bytes_of_range self) ≤ out.old.spare }
        requires small { length (bytes_of_range self) ≤ 2147483647 }
        ensures bytes { out.new.bytes ≡ out.old.bytes ++ frame (Some (bytes_of_range self.entry)) }
        ensures spare { out.new.spare + (4 + length (bytes_of_range self.entry)) ≡ out.old.spare }
    {
        out.push_reserved(&(self.len() as u32).to_be_bytes());
        self.push_reserved(out);
    }
}

/// What the value is written as that both bounds of an empty range exclude. None of a type that PostgreSQL has no ranges
/// over.
fn default_of(part: &PgType) -> Option<Canonical<'static>>
    ensures { default_answer result ≡ default_bytes (shape part.now) }
{
    match part {
        PgType::Int4 | PgType::Date => Some(Canonical::Bytes(&ZERO[..4])),
        PgType::Int8 | PgType::Timestamp | PgType::Timestamptz => Some(Canonical::Bytes(ZERO)),
        PgType::Numeric => Some(Canonical::NotANumber),
        _ => None,
    }
}

/// What the bound is written as whose piece this is, or the kind in which the piece breaks.
fn written_bound<'a>(part: &PgType, piece: BoundPiece<'a>) -> Result<Bound<Canonical<'a>>, Break>
    requires { IsTrue (is_some (default_of (shape part.now))) }
    ensures { bound_answer result ≡ bound_read (shape part.now) (bound_of piece.entry) }
{
    match piece {
        BoundPiece::Unbounded => Ok(Bound::Unbounded),
        BoundPiece::Included(bytes) => Ok(Bound::Included(written(part, bytes)?)),
        BoundPiece::Excluded(bytes) => Ok(Bound::Excluded(written(part, bytes)?)),
    }
}

/// What the range is written as that the piece spells, or the kind in which the piece breaks. An empty one is written as
/// two bounds that exclude the default value. It takes no memory.
pub(crate) fn written_range<'a>(part: &PgType, piece: &'a [u8]) -> Result<CanonicalRange<'a>, Break>
    ensures { range_answer result ≡ range_read (shape part.now) piece.now }
{
    let Some(default) = default_of(part) else {
        return Err(Break::Size);
    };
    let mut pieces = match RangePieces::new(piece) {
        Ok(pieces) => pieces,
        Err(error) => return Err(break_of(&error)),
    };
    let lower = match pieces.next_piece() {
        Ok(Some(piece)) => written_bound(part, piece)?,
        Ok(None) => {
            return Ok(CanonicalRange {
                lower: Bound::Excluded(default),
                upper: Bound::Excluded(default),
            });
        }
        Err(error) => return Err(break_of(&error)),
    };
    let upper = match pieces.next_piece() {
        Ok(Some(piece)) => written_bound(part, piece)?,
        Ok(None) => unreachable!(),
        Err(error) => return Err(break_of(&error)),
    };
    Ok(CanonicalRange { lower, upper })
}

/// How many bytes the range over such a part is written as that the piece spells, as they are counted, or the kind in
/// which the piece breaks. It takes no memory.
pub(crate) fn sized_range(part: &PgType, piece: &[u8]) -> Result<usize, Break>
    ensures { result ≡ size_read (piece_size (range (shape part.now))) (read_piece (range (shape part.now)) piece.now) }
{
    match written_range(part, piece) {
        Ok(range) => Ok(range.len()),
        Err(kind) => Err(kind),
    }
}

/// Appends the canonical field of that range into the room that was made for it.
pub(crate) fn push_range(part: &PgType, piece: &[u8], out: &mut ByteBuffer)
    requires { HasRoom (read_piece (range (shape part.now)) piece.now)
        (λ v. frame (Some ((range_spelling (shape part.now)).canonical v))) out.old.spare }
    ensures { Appends (read_piece (range (shape part.now)) piece.now)
        (λ v. frame (Some ((range_spelling (shape part.now)).canonical v))) out.old out.new }
{
    match written_range(part, piece) {
        Ok(range) => range.push_field(out),
        Err(_) => unreachable!(),
    }
}
