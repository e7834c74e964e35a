ghost use Rattle.std.specs.Prelude.{◌≡◌, ◌≢◌, ◌<◌, ◌≤◌, ◌^◌, ◌++◌, [], OnErr, IfOk, IfErr, MatchResult};
ghost use Rattle.std.specs.Int.{to_be_bytes, w32};
ghost use Rattle.std.specs.Int.NonZero.{non_zero_u32_get};
ghost use Rattle.pgw_wire.specs.Cell.{cell_of};
ghost use Rattle.pgw_wire.specs.declared.sql_error.SqlError.TheVariants.{Surplus as surplus};
ghost use Rattle.pgw_record.specs.Record.{IsComponent, component_bytes, HasNoOid, HasNoComponent, BeginsNoRecord};
ghost use Rattle.pgw_record.specs.Pieces.{coming_of, component_of, BeginsRecord, IsNext, GivesComponent};

use pgw_nested::{take_cell, take_word};
use pgw_wire::deserialize::Result;
use pgw_wire::{RawCell, SqlError};
use std::num::NonZeroU32;

/// A component of a record: the oid that the record states of its type, and its cell.
#[derive(Clone, Copy)]
pub struct RecordPiece<'a> {
    pub oid: NonZeroU32,
    pub cell: RawCell<'a>,
}

/// The oid of a component, and the rest. `ShortBuffer` where the bytes end inside it, and `ZeroOid` where it is 0.
fn take_oid(bytes: &[u8]) -> Result<(NonZeroU32, &[u8])>
    ensures { MatchResult result
        (λ x. (bytes.now ≡ to_be_bytes w32 (non_zero_u32_get x.0) ++ x.1.now) × (non_zero_u32_get x.0 ≢ 0)
        × (non_zero_u32_get x.0 < 2 ^ 32))
        (λ e. HasNoOid bytes.now e) }
{
    let (word, rest) = take_word(bytes)?;
    let oid = NonZeroU32::new(word).ok_or(SqlError::ZeroOid)?;
    Ok((oid, rest))
}

/// The component in front of the bytes, and the rest.
fn take_component(bytes: &[u8]) -> Result<(RecordPiece<'_>, &[u8])>
    ensures { MatchResult result
        (λ x. IsComponent (component_of x.0) × (bytes.now ≡ component_bytes (component_of x.0) ++ x.1.now))
        (λ e. HasNoComponent bytes.now e) }
{
    let (oid, rest) = take_oid(bytes)?;
    let (cell, rest) = take_cell(true, rest)?;
    Ok((RecordPiece { oid, cell }, rest))
}

/// The components of a record's field, of which each is read once, in order. It lends them from the field, and takes no
/// memory.
///
/// The field is how many components there are, in 4 bytes, and then each component: the oid of its type, in 4 bytes,
/// the length of its piece, in 4 bytes, and as many bytes. The length -1 is a null's, which has no bytes. Nothing
/// stands behind the last.
#[derive(Drop)]
pub struct RecordPieces<'a> {
    rest: &'a [u8],
    left: u32,
}

impl<'a> RecordPieces<'a> {
    /// The components of this field, of which there have to be `arity`. `ShortBuffer` exactly where it has fewer than 4
    /// bytes; else `TupleCount`, with this number and the one that the field states, exactly where they differ.
    pub fn new(bytes: &'a [u8], arity: u32) -> Result<RecordPieces<'a>>
        requires { arity ≤ 2147483647 }
        ensures { MatchResult result (λ pieces. BeginsRecord bytes.now arity (coming_of pieces))
            (λ e. BeginsNoRecord bytes.now arity e) }
    {
        let (left, rest) = take_word(bytes)?;
        if left != arity {
            return Err(SqlError::TupleCount {
                want: arity.cast_signed(),
                have: left.cast_signed(),
            });
        }
        Ok(RecordPieces { rest, left })
    }

    /// The next component. None where all were given, and nothing stands behind them. `ShortBuffer` where the field
    /// ends inside the oid or the length, `ZeroOid` with an oid of 0, `NegativeSize` with a length below -1,
    /// `ElementBytes` with a length that is more than the bytes behind it, and `Surplus` with bytes behind the last
    /// component. A call that is refused changes nothing, so that the next one is refused alike.
    pub fn next_piece(&mut self) -> Result<Option<RecordPiece<'a>>>
        ensures { GivesComponent (coming_of self.old) result (coming_of self.new) }
    {
        if self.left == 0 {
            self.end()?;
            return Ok(None);
        }
        let piece = self.next_component()?;
        Ok(Some(piece))
    }

    /// The next component, where one is left.
    pub(crate) fn next_component(&mut self) -> Result<RecordPiece<'a>>
        requires { 0 < self.old.left }
        ensures ok { IfOk result (λ piece. IsNext (component_of piece) (coming_of self.old) (coming_of self.new)) }
        ensures err { IfErr result (λ e. HasNoComponent self.old.rest.now e) }
        ensures kept { OnErr result (coming_of self.new ≡ coming_of self.old) }
    {
        let (piece, rest) = take_component(self.rest)?;
        self.rest = rest;
        self.left -= 1;
        Ok(piece)
    }

    /// Whether nothing stands behind the last component, which was given. `Surplus` exactly where bytes do.
    pub(crate) fn end(&self) -> Result<()>
        ensures { MatchResult result (λ _. self.now.rest.now ≡ []) (λ e. (self.now.rest.now ≢ []) × (e ≡ surplus)) }
    {
        if self.rest.is_empty() {
            Ok(())
        } else {
            Err(SqlError::Surplus)
        }
    }
}
