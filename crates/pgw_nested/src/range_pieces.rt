ghost use Rattle.std.specs.Prelude.{◌≡◌, [], ◌∷◌, ◌<◌, false, length, MatchResult};
ghost use Rattle.pgw_wire.specs.declared.sql_error.SqlError.{SqlError as Refusal};
ghost use Rattle.pgw_wire.specs.declared.sql_error.SqlError.TheVariants.{ShortBuffer as short_buffer};
ghost use Rattle.pgw_nested.specs.Frames.{HasNoFrame};
ghost use Rattle.pgw_nested.specs.Flags.{has, empty, lower_infinite, upper_infinite};
ghost use Rattle.pgw_nested.specs.Range.{bound_at, HasLower, HasUpper, as_range};
ghost use Rattle.pgw_nested.specs.RangePieces.{bound_of, coming_of, first_under, BeginsRange, GivesBound};

use crate::cuts::{take_frame, take_word};
use crate::range_flags::RangeFlags;
use bitflags::Flags;
use pgw_wire::SqlError;
use pgw_wire::deserialize::Result;

/// A bound of a range as its field has it: there is none, or these are the bytes of its value, which the range includes
/// or not.
#[derive(Debug, Clone, Copy, PartialEq, Eq)]
pub enum BoundPiece<'a> {
    Unbounded,
    Included(&'a [u8]),
    Excluded(&'a [u8]),
}

/// Which bound of a range comes next.
#[derive(Clone, Copy, Drop)]
enum Next {
    Lower,
    Upper,
    Nothing,
}

/// The flags in the first byte, and the rest. `ShortBuffer` exactly where there is no byte.
fn take_flags(bytes: &[u8]) -> Result<(RangeFlags, &[u8])>
    ensures { MatchResult result (λ x. bytes.now ≡ x.0.0 ∷ x.1.now) (λ e. (bytes.now ≡ []) × (e ≡ short_buffer)) }
{
    match bytes {
        [flags, rest @ ..] => Ok((RangeFlags::from_bits_retain(*flags), rest)),
        _ => Err(SqlError::ShortBuffer),
    }
}

/// Which bound comes first.
fn first_under(flags: RangeFlags) -> Next
    ensures { result ≡ first_under flags.0 }
{
    if flags.has(RangeFlags::EMPTY) {
        Next::Nothing
    } else {
        Next::Lower
    }
}

/// A bound that is there.
fn bound_piece(included: bool, piece: &[u8]) -> BoundPiece<'_>
    ensures { bound_of result ≡ bound_at included piece.now }
{
    if included {
        BoundPiece::Included(piece)
    } else {
        BoundPiece::Excluded(piece)
    }
}

/// The error of a lower bound whose frame is cut with this one.
fn range_error(error: SqlError) -> SqlError
    ensures { result ≡ as_range error }
{
    match error {
        SqlError::ElementBytes { want, have } => SqlError::RangeElement { want, have },
        other => other,
    }
}

/// The lower bound in front of the bytes, and the rest.
fn take_lower(flags: RangeFlags, bytes: &[u8]) -> Result<(BoundPiece<'_>, &[u8])>
    ensures { MatchResult result (λ x. HasLower flags.0 bytes.now (bound_of x.0) x.1.now)
        (λ e. (has flags.0 lower_infinite ≡ false)
        × (error : Refusal) × HasNoFrame false bytes.now error × (e ≡ as_range error)) }
{
    if flags.has(RangeFlags::LB_INF) {
        return Ok((BoundPiece::Unbounded, bytes));
    }
    match take_frame(bytes) {
        Ok((piece, rest)) => Ok((bound_piece(flags.has(RangeFlags::LB_INC), piece), rest)),
        Err(error) => Err(range_error(error)),
    }
}

/// The upper bound: all the bytes behind the first four.
fn take_upper(flags: RangeFlags, bytes: &[u8]) -> Result<BoundPiece<'_>>
    ensures { MatchResult result (λ b. HasUpper flags.0 bytes.now (bound_of b))
        (λ e. (has flags.0 upper_infinite ≡ false) × (length bytes.now < 4) × (e ≡ short_buffer)) }
{
    if flags.has(RangeFlags::UB_INF) {
        return Ok(BoundPiece::Unbounded);
    }
    let (_len, piece) = take_word(bytes)?;
    Ok(bound_piece(flags.has(RangeFlags::UB_INC), piece))
}

/// The bounds of a range's field, of which each is read once: the lower, and then the upper. It lends them from the
/// field, and takes no memory.
///
/// The field is a byte of flags and the bounds: of each that is there, its length in 4 bytes, and as many bytes. The
/// flags are 01, the range is empty; 02 and 04, the lower bound is included, and the upper; 08 and 10, there is no
/// lower bound, and no upper. The other bits are ignored, and so is what stands behind the flags of an empty range, and
/// behind the lower bound where there is no upper. The upper bound is all the rest, whatever its length says.
#[derive(Drop)]
pub struct RangePieces<'a> {
    rest: &'a [u8],
    flags: RangeFlags,
    next: Next,
}

impl<'a> RangePieces<'a> {
    /// The bounds of this field. `ShortBuffer` exactly where it has no byte.
    pub fn new(bytes: &'a [u8]) -> Result<RangePieces<'a>>
        ensures { MatchResult result (λ pieces. BeginsRange bytes.now (coming_of pieces))
            (λ e. (bytes.now ≡ []) × (e ≡ short_buffer)) }
    {
        let (flags, rest) = take_flags(bytes)?;
        let next = first_under(flags);
        Ok(RangePieces { rest, flags, next })
    }

    /// Whether the flags say that the range is empty, and so has no bounds.
    pub fn is_empty(&self) -> bool
        ensures { result ≡ has self.now.flags.0 empty }
    {
        self.flags.has(RangeFlags::EMPTY)
    }

    /// The next bound. None where both were given, and at once where the range is empty. The lower bound:
    /// `ShortBuffer` where the field ends inside its length, `NegativeSize` with a length below 0, and `RangeElement`
    /// with a length that is more than the bytes behind it. The upper bound: `ShortBuffer` where fewer than four bytes
    /// are left. A call that is refused changes nothing, so that the next one is refused alike.
    pub fn next_piece(&mut self) -> Result<Option<BoundPiece<'a>>>
        ensures { GivesBound (coming_of self.old) result (coming_of self.new) }
    {
        match self.next {
            Next::Lower => {
                let (lower, rest) = take_lower(self.flags, self.rest)?;
                self.rest = rest;
                self.next = Next::Upper;
                Ok(Some(lower))
            }
            Next::Upper => {
                let upper = self.upper_piece()?;
                self.next = Next::Nothing;
                Ok(Some(upper))
            }
            Next::Nothing => Ok(None),
        }
    }

    /// The upper bound, where the lower was given.
    pub(crate) fn upper_piece(&self) -> Result<BoundPiece<'a>>
        ensures { MatchResult result (λ b. HasUpper self.now.flags.0 self.now.rest.now (bound_of b))
            (λ e. (has self.now.flags.0 upper_infinite ≡ false) × (length self.now.rest.now < 4) × (e ≡ short_buffer)) }
    {
        take_upper(self.flags, self.rest)
    }
}
