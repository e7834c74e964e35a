ghost use Rattle.std.specs.Prelude.{◌≡◌, ◌≢◌, ◌≤◌, ◌^◌, ◌<◌, ◌++◌, List, ℕ, length, Option, None, Some, IsSome, IfOk, IfErr, OnOk, OnErr, is_none, option_map, false, true, MatchResult, IfSome};
ghost use Rattle.std.specs.Borrow.{sem};
ghost use Rattle.std.specs.Io.BufRead.{Rests};
ghost use Rattle.std.specs.Int.{to_be_bytes, w16};
ghost use Rattle.pgw_copy.specs.contracts.reader.CopyReader.{the_row};
ghost use Rattle.pgw_copy.specs.Format.{IsHeader, IsCount, AreFields};
ghost use Rattle.pgw_copy.specs.Reader.{Reads, KeptError, HeaderError, CountError, RowError, AreCutFields, AreWholeFields, IsRowOrEnd};
ghost use Rattle.pgw_copy.specs.State.{ready, behind_count, ended, cells_of, bytes_of};

use crate::filling::fill;
use crate::header::take_header;
use crate::row::RowBuffer;
use crate::{CopyReadError, NEGATIVE_COUNT, RawRow};
use pgw_wire::{Source, take_u16};
use std::alloc::Global;
use std::marker::Model;

/// The count -1, which ends a stream, in two's complement.
const END: u16 = 0xffff;

/// What a count says, which it is handed as it stands: how many fields a row has, or None where -1 ends the stream.
fn count_of(count: u16) -> Result<Option<u16>, CopyReadError>
    ensures ok { IfOk result (λ c. IsCount c (to_be_bytes w16 count)) }
    ensures err { IfErr result (λ e. CountError e (to_be_bytes w16 count)) }
    ensures known { IfErr result (λ e. (e ≢ CopyReadError.Truncated) × (e ≢ CopyReadError.ReadFault)) }
{
    if count == END {
        Ok(None)
    } else if count < NEGATIVE_COUNT {
        Ok(Some(count))
    } else {
        Err(CopyReadError::BadFieldCount(count.cast_signed()))
    }
}

/// Takes the count in front of a row, or None at the count -1, which ends the stream.
fn take_count<S: Source>(source: &mut S) -> Result<Option<u16>, CopyReadError>
    ensures takes { Reads (S.state source.old) (S.state source.new) result IsCount CountError }
{
    let mut bytes = [0; 2];
    fill(source, &mut bytes)?;
    let (count, _) = take_u16(&bytes).unwrap();
    count_of(count)
}

/// Where a reader stands in its stream.
#[derive(Clone, Copy)]
enum State {
    /// In front of a row or of the end.
    Ready,
    /// Behind the count of a row, in front of this many fields.
    Pending(u16),
    /// Behind the end, or behind an error.
    Over,
}

/// Reads a stream row by row. It takes exactly the bytes that its calls name, and no byte behind them.
///
/// It is over behind the end of the stream and behind every error, and must not be asked for more then.
#[derive(Drop)]
pub struct CopyReader {
    row: RowBuffer,
    state: State,
}

impl Model for CopyReader {
    ghost use Rattle.pgw_copy.specs.State.{ReaderState, reader_state_code, pending_in, is_over_in};

    ghost Value = { ReaderState };

    ghost coded = { reader_state_code };

    ghost view = { λ r. record { pending = pending_in r.state; over = is_over_in r.state } };
}

impl CopyReader {
    /// Takes the header of a stream.
    ///
    /// | error | what was taken |
    /// |---|---|
    /// | `BadHeader` | 19 bytes that do not begin as a stream does; or that do, and behind flags whose high half is 0 state a negative length of the extension |
    /// | `BadFlags` | 19 bytes that begin as a stream does, and flags with a bit of their high half set |
    /// | `Truncated` | all that was left: fewer than 19 bytes, or the first 19 of a header and less than its extension |
    /// | `ReadFault` | such bytes as for `Truncated`; the source failed behind them |
    pub fn start<S: Source>(alloc: Global, source: &mut S) -> Result<CopyReader, CopyReadError>
        ensures takes { Reads (S.state source.old) (S.state source.new) result (λ _ taken. IsHeader taken) HeaderError }
        ensures reader { IfOk result (λ reader. reader ≡ ready) }
    {
        take_header(source)?;
        Ok(CopyReader {
            row: RowBuffer::new(alloc),
            state: State::Ready,
        })
    }

    /// Takes the count of a row, which is then pending, or None at the count -1, behind which the reader is over.
    ///
    /// | error | what was taken |
    /// |---|---|
    /// | `BadFieldCount` | the two bytes of a count below -1 |
    /// | `Truncated` | all that was left, fewer than two bytes |
    /// | `ReadFault` | fewer than two bytes; the source failed behind them |
    pub fn next_count<S: Source>(&mut self, source: &mut S) -> Result<Option<u16>, CopyReadError>
        requires { self.old ≡ ready }
        ensures takes { Reads (S.state source.old) (S.state source.new) result IsCount CountError }
        ensures ok { IfOk result (λ count. self.new ≡ behind_count count) }
        ensures err { OnErr result (self.new ≡ ended) }
    {
        self.state = State::Over;
        let count = take_count(source)?;
        if let Some(fields) = count {
            self.state = State::Pending(fields);
        }
        Ok(count)
    }

    /// Takes the fields of the row whose count is pending, and lends the row. Nothing is pending then.
    ///
    /// | error | what was taken |
    /// |---|---|
    /// | `Truncated` | all that was left, which ends inside these fields |
    /// | `ReadFault` | the beginning of these fields; the source failed behind it |
    /// | `NoMemory` | the beginning of these fields, or all of them; memory for the row was asked for and refused |
    pub fn read_fields<S: Source>(&mut self, source: &mut S) -> Result<RawRow<'_>, CopyReadError>
        requires { IsSome self.old.pending }
        ensures takes { (count : ℕ) → self.old.pending ≡ Some count → Reads (S.state source.old) (S.state source.new) result
            (λ row taken. AreFields (cells_of row) taken × (bytes_of row ≡ to_be_bytes w16 count ++ taken))
            (KeptError (AreCutFields count) (AreWholeFields count)) }
        ensures many { (count : ℕ) → self.old.pending ≡ Some count → IfOk result (λ row. length (cells_of row) ≡ count) }
        ensures* reader { sem 𝓛 (Rests the_row self.entry (λ new.
            MatchResult result (λ _. new ≡ ready) (λ _. new ≡ ended))) }
    {
        let count = self.pending().unwrap();
        self.state = State::Over;
        self.row.take_fields(count, source)?;
        self.state = State::Ready;
        Ok(RawRow { row: &self.row })
    }

    /// Takes a row, its count and its fields, and lends it, or None at the count -1, behind which the reader is
    /// over. The errors are those of `next_count` and `read_fields`.
    pub fn next_row<S: Source>(
        &mut self,
        source: &mut S,
    ) -> Result<Option<RawRow<'_>>, CopyReadError>
        requires { self.old ≡ ready }
        ensures takes { Reads (S.state source.old) (S.state source.new) result
            (λ row taken. IsRowOrEnd (option_map cells_of row) taken × IfSome row (λ r. bytes_of r ≡ taken))
            RowError }
        ensures* reader { sem 𝓛 (Rests the_row self.entry (λ new.
            MatchResult result (λ row. new ≡ record { pending = None; over = is_none row }) (λ _. new ≡ ended))) }
    {
        match self.next_count(source)? {
            None => Ok(None),
            Some(_) => Ok(Some(self.read_fields(source)?)),
        }
    }

    /// How many fields are pending.
    pub fn pending(&self) -> Option<u16>
        ensures { result ≡ self.now.pending }
    {
        match self.state {
            State::Pending(count) => Some(count),
            State::Ready | State::Over => None,
        }
    }

    /// Whether it reads no more.
    pub fn is_over(&self) -> bool
        ensures { result ≡ self.now.over }
    {
        matches!(self.state, State::Over)
    }
}
