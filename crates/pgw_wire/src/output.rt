ghost use Rattle.std.specs.Prelude.{◌≡◌, ◌+◌, ◌-◌, ◌≤◌, [], ◌++◌, length, take, OnOk, OnErr};
ghost use Rattle.std.specs.Borrow.{sem};
ghost use Rattle.std.specs.Int.{to_be_bytes, w32};
ghost use Rattle.pgw_wire.specs.Output.{IsSameOutput, LendsLookup, LendsBoth, KeepsFront};
ghost use Rattle.pgw_wire.specs.Room.{overwritten};

use crate::{ByteBuffer, NoMemory};
use std::alloc::Global;

/// Where a value is written: a buffer that its bytes are appended to, and a lookup that is asked for the object
/// identifiers of types. Both are borrowed. Places are counted from where the buffer ended when the output was made.
#[derive(Drop)]
pub struct Output<'a, L> {
    out: &'a mut ByteBuffer,
    lookup: &'a mut L,
    start: usize,
}

impl<'a, L> Output<'a, L> {
    /// An output that writes behind the bytes of the buffer.
    pub fn new(out: &'a mut ByteBuffer, metadata_lookup: &'a mut L) -> Output<'a, L>
        ensures buffer { (result.out.ghost_name ≡ out.entry.ghost_name) × (result.out.now ≡ out.old) }
        ensures lookup { (result.lookup.ghost_name ≡ metadata_lookup.entry.ghost_name)
            × (result.lookup.now ≡ metadata_lookup.old) }
        ensures start { result.start ≡ length out.old.bytes }
    {
        let start = out.len();
        Output {
            out,
            lookup: metadata_lookup,
            start,
        }
    }

    /// The buffer, with what was written.
    pub fn into_inner(self) -> &'a mut ByteBuffer
        ensures same { result.ghost_name ≡ self.entry.out.ghost_name }
        ensures buffer { result.now ≡ self.entry.out.now }
    {
        self.out
    }

    /// The lookup.
    pub fn metadata_lookup(&mut self) -> &mut L
        ensures* writes_back { sem 𝓛 (LendsLookup L.row self.entry result) }
        ensures value { result.now ≡ self.old.lookup.now }
    {
        self.lookup
    }

    /// The allocator that the buffer's memory comes from.
    pub fn alloc(&self) -> Global {
        self.out.alloc()
    }

    /// An output to the same buffer that asks the same lookup, and counts places from where the buffer ends now.
    pub fn reborrow(&mut self) -> Output<'_, L>
        ensures* writes_back { sem 𝓛 (LendsBoth L.row self.entry result) }
        ensures buffer { result.out.now ≡ self.old.out.now }
        ensures lookup { result.lookup.now ≡ self.old.lookup.now }
        ensures start { result.start ≡ length self.old.out.now.bytes }
    {
        Output::new(&mut *self.out, &mut *self.lookup)
    }

    /// Appends the piece. Where memory is refused, the buffer is as before.
    pub fn write_all(&mut self, piece: &[u8]) -> Result<(), NoMemory>
        ensures same { IsSameOutput self.old self.new }
        ensures lookup { self.new.lookup.now ≡ self.old.lookup.now }
        ensures ok { OnOk result (self.new.out.now.bytes ≡ self.old.out.now.bytes ++ piece.now) }
        ensures err { OnErr result (self.new.out.now ≡ self.old.out.now) }
        ensures front { KeepsFront self.old self.new }
    {
        self.out.push_all(piece)
    }

    /// How many bytes stand behind the start.
    pub fn written(&self) -> usize
        ensures { result ≡ length self.now.out.now.bytes - self.now.start }
    {
        self.out.len().saturating_sub(self.start)
    }

    /// Writes the number, big-endian, over the four bytes at `place`, counted from the start, which have to be there.
    /// Nothing else changes.
    pub fn patch(&mut self, place: usize, value: u32)
        requires { place + 4 ≤ length self.old.out.now.bytes - self.old.start }
        ensures same { IsSameOutput self.old self.new }
        ensures lookup { self.new.lookup.now ≡ self.old.lookup.now }
        ensures bytes { self.new.out.now.bytes
            ≡ overwritten self.old.out.now.bytes (self.old.start + place) (to_be_bytes w32 value) }
        ensures spare { self.new.out.now.spare ≡ self.old.out.now.spare }
        ensures front { KeepsFront self.old self.new }
    {
        let _len = self.out.len();
        self.out.patch_u32(self.start + place, value);
    }

    /// Drops the bytes behind the first `written` ones from the start, of which there have to be as many.
    pub fn take_back(&mut self, written: usize)
        requires { written ≤ length self.old.out.now.bytes - self.old.start }
        ensures same { IsSameOutput self.old self.new }
        ensures lookup { self.new.lookup.now ≡ self.old.lookup.now }
        ensures bytes { self.new.out.now.bytes ≡ take (self.old.start + written) self.old.out.now.bytes }
        ensures spare { self.old.out.now.spare ≤ self.new.out.now.spare }
        ensures front { KeepsFront self.old self.new }
    {
        let len = self.out.len();
        self.out.truncate((self.start + written).min(len));
    }
}

/// Drops all bytes of the buffer, and lets the output go.
fn clear<L>(out: Output<'_, L>)
    ensures buffer { out.exit.0.now.bytes ≡ [] }
    ensures lookup { out.exit.1.0.now ≡ out.entry.lookup.now }
{
    out.out.clear();
}

/// What a caller of `reborrow` knows: the outer output has the buffer and the lookup as the inner one left them, and
/// its start and both references are as before.
fn clear_within<L>(outer: &mut Output<'_, L>)
    ensures wrote { outer.new.out.now.bytes ≡ [] }
    ensures lookup { outer.new.lookup.now ≡ outer.old.lookup.now }
    ensures same { IsSameOutput outer.old outer.new }
{
    clear(outer.reborrow());
}
