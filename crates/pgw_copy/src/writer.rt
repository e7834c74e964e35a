ghost use Rattle.std.specs.Prelude.{◌≡◌, ◌⊎◌, ◌≤◌, [], length, OnOk, OnErr};
ghost use Rattle.std.specs.Int.{to_be_bytes, w16};
ghost use Rattle.std.specs.Borrow.{Lends, sem};
ghost use Rattle.pgw_wire.specs.contracts.buffer.ByteBuffer.{the_row as buffer_row};
ghost use Rattle.pgw_wire.specs.Outside.{HasFailed, Settled, Writes, Wrote, WroteFront};
ghost use Rattle.pgw_copy.specs.contracts.writer.CopyWriter.{the_row};
ghost use Rattle.pgw_copy.specs.Format.{canonical_header, trailer};

use pgw_wire::{ByteBuffer, Failed, NoMemory, Sink, send};
use std::alloc::Global;
use std::marker::Model;

/// The magic, no flag, and no extension.
const HEADER: [u8; 19] = *b"PGCOPY\n\xff\r\n\0\0\0\0\0\0\0\0\0";

/// The count -1, which ends a stream.
const TRAILER: [u8; 2] = [0xff; 2];

/// Writes a binary COPY stream ("Binary Format" on the manual's page COPY): the header, the rows, and the count that
/// ends them. One row at a time is made in its buffer.
///
/// At a `Failed` the sink has gained a front of what the call writes, and nothing else; called again, it writes from the
/// first byte again. It is for the caller to make the calls in order, and to put as many fields behind a count as it says.
#[derive(Drop)]
pub struct CopyWriter {
    row: ByteBuffer,
}

impl Model for CopyWriter {
    ghost use Rattle.pgw_wire.specs.Room.{Room, room_code};

    ghost Value = { Room };

    ghost coded = { room_code };

    ghost view = { λ w. w.row };
}

/// Writes the whole piece. `Failed` where the sink failed.
fn send_whole<K: Sink>(sink: &mut K, piece: &[u8]) -> Result<(), Failed>
    ensures writes { Writes (K.state sink.old) (K.state sink.new) result piece.now }
{
    if send(sink, piece) < piece.len() {
        Err(Failed)
    } else {
        Ok(())
    }
}

impl CopyWriter {
    /// A writer whose buffer is empty. It takes no memory.
    pub fn new(alloc: Global) -> CopyWriter
        ensures { result ≡ record { bytes = []; spare = 0 } }
    {
        CopyWriter {
            row: ByteBuffer::new(alloc),
        }
    }

    /// Writes the header, 19 bytes: the 11 of the magic, then four of flags and four of the extension's length, all 0.
    /// `Failed` where the sink failed.
    pub fn header<K: Sink>(&mut self, sink: &mut K) -> Result<(), Failed>
        ensures writes { Writes (K.state sink.old) (K.state sink.new) result canonical_header }
        ensures buffer { self.new ≡ self.old }
    {
        send_whole(sink, &HEADER)
    }

    /// Drops what the buffer has and puts the row's count of columns there, at most 32767, two bytes, big-endian. The one error is a
    /// refusal of memory, and behind it the buffer is as before.
    pub fn begin_row(&mut self, columns: u16) -> Result<(), NoMemory>
        requires few { columns ≤ 32767 }
        ensures ok { OnOk result (self.new.bytes ≡ to_be_bytes w16 columns) }
        ensures err { OnErr result (self.new ≡ self.old) }
    {
        self.row.reserve(2)?;
        self.row.clear();
        self.row.push_reserved(&columns.to_be_bytes());
        Ok(())
    }

    /// The buffer, for the row's fields behind its count: for each the length of its bytes in four bytes, big-endian,
    /// and its bytes, and for a null four bytes of 255. What stands in it is what `send_row` writes.
    pub fn buffer(&mut self) -> &mut ByteBuffer
        ensures* writes_back { sem 𝓛 (Lends the_row buffer_row self.entry result (λ room. room)) }
        ensures value { result.now ≡ self.old }
    {
        &mut self.row
    }

    /// Writes the bytes of the buffer, which keeps them. `Failed` where the sink failed.
    pub fn send_row<K: Sink>(&mut self, sink: &mut K) -> Result<(), Failed>
        ensures writes { Writes (K.state sink.old) (K.state sink.new) result self.old.bytes }
        ensures buffer { self.new ≡ self.old }
    {
        send_whole(sink, self.row.as_bytes())
    }

    /// Writes the count -1, two bytes of 255, which ends the stream, and flushes, so that all that the sink got is
    /// settled. `Failed` where the sink failed; where the flush did, both bytes were written.
    pub fn trailer<K: Sink>(&mut self, sink: &mut K) -> Result<(), Failed>
        ensures ok { OnOk result (Settled (K.state sink.old) (K.state sink.new) trailer) }
        ensures err { OnErr result (WroteFront (Wrote (K.state sink.old) (K.state sink.new)) trailer
            ⊎ Wrote (K.state sink.old) (K.state sink.new) trailer) }
        ensures failed { OnErr result (HasFailed (K.state sink.old) (K.state sink.new)) }
        ensures buffer { self.new ≡ self.old }
    {
        send_whole(sink, &TRAILER)?;
        sink.flush()
    }
}
