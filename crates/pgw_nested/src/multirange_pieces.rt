ghost use Rattle.std.specs.Prelude.{◌≡◌, ◌<◌, length, MatchResult};
ghost use Rattle.pgw_wire.specs.declared.sql_error.SqlError.TheVariants.{ShortBuffer as short_buffer};
ghost use Rattle.pgw_nested.specs.Multirange.{BeginsMultirange};
ghost use Rattle.pgw_nested.specs.RangePieces.{ranges_of, GivesRange};

use crate::cuts::{take_frame, take_word};
use pgw_wire::deserialize::Result;

/// The ranges of a multirange's field, of which each is read once, in order. It lends them from the field, and takes no
/// memory.
///
/// The field is how many ranges there are, in 4 bytes, and then each range: its length in 4 bytes, and as many bytes.
/// Bytes behind the last are ignored.
#[derive(Drop)]
pub struct MultirangePieces<'a> {
    rest: &'a [u8],
    left: u32,
}

impl<'a> MultirangePieces<'a> {
    /// The ranges of this field. `ShortBuffer` exactly where it has fewer than 4 bytes.
    pub fn new(bytes: &'a [u8]) -> Result<MultirangePieces<'a>>
        ensures { MatchResult result (λ pieces. BeginsMultirange bytes.now (ranges_of pieces))
            (λ e. (length bytes.now < 4) × (e ≡ short_buffer)) }
    {
        let (left, rest) = take_word(bytes)?;
        Ok(MultirangePieces { rest, left })
    }

    /// How many ranges are left to be given, by the count that the field states.
    pub fn left(&self) -> u32
        ensures { result ≡ (ranges_of self.now).left }
    {
        self.left
    }

    /// The next range. None where all were given. `ShortBuffer` where the field ends inside the length, `NegativeSize`
    /// with a length below 0, and `ElementBytes` with a length that is more than the bytes behind it. A call that is
    /// refused changes nothing, so that the next one is refused alike.
    pub fn next_piece(&mut self) -> Result<Option<&'a [u8]>>
        ensures { GivesRange (ranges_of self.old) result (ranges_of self.new) }
    {
        if self.left == 0 {
            return Ok(None);
        }
        let (piece, rest) = take_frame(self.rest)?;
        self.rest = rest;
        self.left -= 1;
        Ok(Some(piece))
    }
}
