ghost use Rattle.std.specs.Prelude.{◌≡◌, IfSome, MatchResult};
ghost use Rattle.pgw_wire.specs.Cell.{cell_of};
ghost use Rattle.pgw_meta.specs.Reading.{cell_of_value};
ghost use Rattle.pgw_nested.specs.Array.{BeginsArray, BeginsNoArray, elements_in};
ghost use Rattle.pgw_nested.specs.Pieces.{elements_of, GivesNext};

use crate::cuts::{NEGATIVE, take_cell, take_word};
use pgw_wire::deserialize::Result;
use pgw_wire::{PgValue, RawCell, SqlError};
use std::num::NonZeroU32;

/// How many elements a count is of: none where it is negative.
fn elements_counted(count: u32) -> u32
    ensures { result ≡ elements_in count }
{
    if count < NEGATIVE { count } else { 0 }
}

/// The field that a cell inside of a value is, with the oid of that value. None for a null.
pub fn value_of(cell: RawCell<'_>, oid: NonZeroU32) -> Option<PgValue<'_>>
    ensures cell { cell_of_value result ≡ cell_of cell.entry }
    ensures oid { IfSome result (λ value. value.type_oid ≡ oid) }
{
    match cell {
        RawCell::Null => None,
        RawCell::Piece(bytes) => Some(PgValue::new(bytes, oid)),
    }
}

/// The elements of an array's field, of which each is read once, in order. It lends them from the field, and takes no
/// memory.
///
/// The field is five numbers of 4 bytes, the dimensions, flags, the oid of the element's type, a count of elements and
/// the index of the first, and then each element: its length in 4 bytes, and as many bytes. Without dimensions it ends
/// behind the oid. Bytes behind the end are ignored.
#[derive(Drop)]
pub struct ArrayPieces<'a> {
    rest: &'a [u8],
    left: u32,
    nulls: bool,
}

impl<'a> ArrayPieces<'a> {
    /// The elements of this field. There are none where the dimensions are 0, or the count is 0 or less. `ShortBuffer`
    /// exactly where the field has fewer than 12 bytes, or has dimensions and fewer than 20; else `Dimensions` exactly
    /// where their number is neither 0 nor 1.
    pub fn new(bytes: &'a [u8]) -> Result<ArrayPieces<'a>>
        ensures { MatchResult result (λ pieces. BeginsArray bytes.now (elements_of pieces))
            (λ e. BeginsNoArray bytes.now e) }
    {
        let (dimensions, rest) = take_word(bytes)?;
        let (flags, rest) = take_word(rest)?;
        let (_oid, rest) = take_word(rest)?;
        if dimensions == 0 {
            return Ok(ArrayPieces {
                rest: &[],
                left: 0,
                nulls: false,
            });
        }
        let (count, rest) = take_word(rest)?;
        let (_bound, rest) = take_word(rest)?;
        if dimensions != 1 {
            return Err(SqlError::Dimensions(dimensions.cast_signed()));
        }
        Ok(ArrayPieces {
            rest,
            left: elements_counted(count),
            nulls: flags != 0,
        })
    }

    /// How many elements are left to be given, by the count that the field states.
    pub fn left(&self) -> u32
        ensures { result ≡ (elements_of self.now).left }
    {
        self.left
    }

    /// The next element. None where all were given. The length -1 is a null's where the flags are not 0. `ShortBuffer`
    /// where the field ends inside the length, `NegativeSize` with any other length below 0, and `ElementBytes` with a
    /// length that is more than the bytes behind it. A call that is refused changes nothing, so that the next one is
    /// refused alike.
    pub fn next_piece(&mut self) -> Result<Option<RawCell<'a>>>
        ensures { GivesNext (elements_of self.old) result (elements_of self.new) }
    {
        if self.left == 0 {
            return Ok(None);
        }
        let (cell, rest) = take_cell(self.nulls, self.rest)?;
        self.rest = rest;
        self.left -= 1;
        Ok(Some(cell))
    }
}
