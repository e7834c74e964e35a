ghost use Rattle.std.specs.Prelude.{◌≡◌, ◌+◌, ◌≤◌, [], ◌++◌, length, take, IsOk, OnOk, OnErr};
ghost use Rattle.std.specs.Int.{to_be_bytes, w32};
ghost use Rattle.pgw_wire.specs.Room.{overwritten};

use crate::NoMemory;
use std::alloc::Global;
use std::marker::Model;

/// Bytes that grow at their end, and in which a length can be set once it is known.
#[derive(Drop)]
pub struct ByteBuffer {
    bytes: Vec<u8>,
    spare: usize,
}

impl Model for ByteBuffer {
    ghost use Rattle.std.specs.Prelude.{◌+◌, ◌≤◌, vec_capacity, vec_len};
    ghost use Rattle.pgw_wire.specs.Room.{Room, room_code};

    ghost Value = { Room };

    ghost coded = { room_code };

    ghost view = { λ b. record { bytes = b.bytes.items; spare = b.spare } };

    ghost invariant = { λ b. vec_len b.bytes + b.spare ≤ vec_capacity b.bytes };
}

impl ByteBuffer {
    /// A buffer with no bytes. It takes no memory.
    pub fn new(alloc: Global) -> ByteBuffer
        ensures { result ≡ record { bytes = []; spare = 0 } }
    {
        ByteBuffer {
            bytes: Vec::new(alloc),
            spare: 0,
        }
    }

    /// Appends the piece. Where memory is refused, the buffer is as before.
    pub fn push_all(&mut self, piece: &[u8]) -> Result<(), NoMemory>
        ensures ok { OnOk result (self.new.bytes ≡ self.old.bytes ++ piece.now) }
        ensures err { OnErr result (self.new ≡ self.old) }
        ensures spare { self.old.spare ≤ self.new.spare + length piece.now }
        ensures suffices { length piece.now ≤ self.old.spare → IsOk result }
    {
        self.bytes.extend_from_slice(piece)?;
        self.spare = self.spare.saturating_sub(piece.len());
        Ok(())
    }

    /// Makes the spare at least `extra`, so that `push_reserved` takes as many bytes. Where the spare suffices it takes
    /// no memory, and answers Ok. Where memory is refused, the buffer is as before.
    pub fn reserve(&mut self, extra: usize) -> Result<(), NoMemory>
        ensures bytes { self.new.bytes ≡ self.old.bytes }
        ensures ok { OnOk result (extra ≤ self.new.spare) }
        ensures spare { self.old.spare ≤ self.new.spare }
        ensures suffices { extra ≤ self.old.spare → IsOk result }
        ensures err { OnErr result (self.new ≡ self.old) }
    {
        if self.spare < extra {
            self.bytes.reserve(extra)?;
            self.spare = extra;
        }
        Ok(())
    }

    /// Appends the piece into the room that was made for it. It takes no memory.
    pub fn push_reserved(&mut self, piece: &[u8])
        requires { length piece.now ≤ self.old.spare }
        ensures bytes { self.new.bytes ≡ self.old.bytes ++ piece.now }
        ensures spare { self.new.spare + length piece.now ≡ self.old.spare }
    {
        if self.bytes.extend_from_slice(piece).is_err() {
            unreachable!();
        }
        self.spare -= piece.len();
    }

    /// Writes the number, big-endian, over the four bytes at `place`, which have to be there. Nothing else changes.
    pub fn patch_u32(&mut self, place: usize, value: u32)
        requires { place + 4 ≤ length self.old.bytes }
        ensures bytes { self.new.bytes ≡ overwritten self.old.bytes place (to_be_bytes w32 value) }
        ensures spare { self.new.spare ≡ self.old.spare }
    {
        self.bytes[place..place + 4].copy_from_slice(&value.to_be_bytes());
    }

    /// Drops the bytes behind the first `len`, of which there have to be as many, and keeps their room.
    pub fn truncate(&mut self, len: usize)
        requires { len ≤ length self.old.bytes }
        ensures bytes { self.new.bytes ≡ take len self.old.bytes }
        ensures spare { self.old.spare ≤ self.new.spare }
    {
        self.bytes.truncate(len);
    }

    /// Drops all bytes and keeps their room.
    pub fn clear(&mut self)
        ensures bytes { self.new.bytes ≡ [] }
        ensures spare { self.old.spare ≤ self.new.spare }
    {
        self.bytes.clear();
    }

    /// The bytes.
    pub fn as_bytes(&self) -> &[u8]
        ensures { result.now ≡ self.now.bytes }
    {
        self.bytes.as_slice()
    }

    /// How many bytes there are.
    pub fn len(&self) -> usize
        ensures { result ≡ length self.now.bytes }
    {
        self.bytes.len()
    }

    /// The allocator that its memory comes from.
    pub fn alloc(&self) -> Global {
        *self.bytes.allocator()
    }
}
