ghost use Rattle.std.specs.Prelude.{◌≡◌, ◌+◌, ◌-◌, ◌<◌, ◌≤◌, ◌^◌, [], ◌++◌, length, max, min, take, drop, OnOk};
ghost use Rattle.std.specs.Int.{to_be_bytes, w16, w32};
ghost use Rattle.pgw_copy.specs.Reader.{Reads, KeptError, IsShort};

use crate::CopyReadError;
use crate::filling::fill;
use pgw_wire::{Source, take_u32};
use std::alloc::{AllocError, Global};
use std::marker::Model;

/// For how many bytes room is made at once where they are many.
const STEP: usize = 65536;

/// How many bytes a count has.
const COUNT: usize = 2;

/// How many bytes a length has.
const LENGTH: usize = 4;

/// Makes room for `next` more bytes behind those in use, where there is less. There is then room for as many again as are
/// in use, up to 65536, so that many small pieces cost few requests.
fn grow(bytes: &mut Vec<u8>, used: usize, next: usize) -> Result<(), AllocError>
    requires within { used ≤ length bytes.old.items }
    requires less { length bytes.old.items < used + next }
    requires step { next ≤ 65536 }
    ensures ok { OnOk result (length bytes.new.items ≡ used + max next (min used 65536)) }
    ensures kept { take used bytes.new.items ≡ take used bytes.old.items }
    ensures within { used ≤ length bytes.new.items }
{
    let room = used + next.max(used.min(STEP));
    bytes.reserve_exact(room - bytes.len())?;
    bytes.resize(room, 0)?;
    Ok(())
}

/// Makes room for `next` more bytes behind those in use. Mostly there is room already, so only the test is inlined.
#[inline(always)]
fn make_room(bytes: &mut Vec<u8>, used: usize, next: usize) -> Result<(), AllocError>
    requires within { used ≤ length bytes.old.items }
    requires step { next ≤ 65536 }
    ensures ok { OnOk result (used + next ≤ length bytes.new.items) }
    ensures most { OnOk result (length bytes.new.items ≤ max (length bytes.old.items) (used + max next (min used 65536))) }
    ensures kept { take used bytes.new.items ≡ take used bytes.old.items }
    ensures within { used ≤ length bytes.new.items }
{
    if bytes.len() - used < next {
        grow(bytes, used, next)?;
    }
    Ok(())
}

/// The bytes of a row as they were taken, and behind them room for more, which is filled already. Contracts see the bytes
/// in use as a list.
#[derive(Drop)]
pub(crate) struct TakenBytes {
    bytes: Vec<u8>,
    used: usize,
}

impl Model for TakenBytes {
    ghost use Rattle.std.specs.Prelude.{List, ℕ, ◌≤◌, take, vec_len};
    ghost use Rattle.std.specs.Coded.{coded_list, coded_ℕ};

    ghost Value = { List ℕ };

    ghost coded = { coded_list coded_ℕ };

    ghost view = { λ b. take b.used b.bytes.items };

    ghost invariant = { λ b. b.used ≤ vec_len b.bytes };
}

impl TakenBytes {
    /// No bytes. It takes no memory.
    pub(crate) fn new(alloc: Global) -> TakenBytes
        ensures { result ≡ [] }
    {
        TakenBytes {
            bytes: Vec::new(alloc),
            used: 0,
        }
    }

    /// Puts a row's count in place of the bytes, whose room it keeps.
    pub(crate) fn begin(&mut self, count: u16) -> Result<(), AllocError>
        ensures ok { OnOk result (self.new ≡ to_be_bytes w16 count) }
    {
        self.used = 0;
        make_room(&mut self.bytes, 0, COUNT)?;
        self.bytes[0..COUNT].copy_from_slice(&count.to_be_bytes());
        self.used = COUNT;
        Ok(())
    }

    /// How many bytes there are.
    pub(crate) fn len(&self) -> usize
        ensures { result ≡ length self.now }
    {
        self.used
    }

    /// The bytes.
    pub(crate) fn as_bytes(&self) -> &[u8]
        ensures { result.now ≡ self.now }
    {
        &self.bytes[..self.used]
    }

    /// The bytes from one place to another.
    pub(crate) fn piece(&self, start: usize, end: usize) -> &[u8]
        requires order { start ≤ end }
        requires within { end ≤ length self.now }
        ensures { result.now ≡ take (end - start) (drop start self.now) }
    {
        &self.bytes[start..end]
    }

    /// Takes the next `next` bytes, one at least, and appends them.
    ///
    /// Where this is inlined, and `next` is known there, so is the length of what is copied.
    #[inline(always)]
    fn append<S: Source>(&mut self, source: &mut S, next: usize) -> Result<(), CopyReadError>
        requires some { 0 < next }
        requires step { next ≤ 65536 }
        ensures takes { Reads (S.state source.old) (S.state source.new) result
            (λ _ taken. (length taken ≡ next) × (self.new ≡ self.old ++ taken))
            (KeptError (IsShort next) (λ _. ⊥)) }
        ensures kept { length self.old ≤ length self.new }
        ensures grown { OnOk result (length self.new ≡ length self.old + next) }
    {
        make_room(&mut self.bytes, self.used, next)?;
        fill(source, &mut self.bytes[self.used..self.used + next])?;
        self.used += next;
        Ok(())
    }

    /// Takes the length of a field, and appends its bytes. It answers its two's complement as it stands: from 2^31 on it is
    /// negative.
    pub(crate) fn take_length<S: Source>(&mut self, source: &mut S) -> Result<u32, CopyReadError>
        ensures takes { Reads (S.state source.old) (S.state source.new) result
            (λ n taken. (n < 2 ^ 32) × (taken ≡ to_be_bytes w32 n) × (self.new ≡ self.old ++ taken))
            (KeptError (IsShort 4) (λ _. ⊥)) }
        ensures kept { length self.old ≤ length self.new }
    {
        self.append(source, LENGTH)?;
        let end = self.len();
        let (length, _) = take_u32(self.piece(end - LENGTH, end)).unwrap();
        Ok(length)
    }

    /// Takes the next `len` bytes, and appends them as they come: at most 65536 at a time, so that the room for them grows
    /// by what was taken and no more than 65536 bytes beyond, whatever `len` is.
    pub(crate) fn take<S: Source>(
        &mut self,
        source: &mut S,
        len: usize,
    ) -> Result<(), CopyReadError>
        ensures takes { Reads (S.state source.old) (S.state source.new) result
            (λ _ taken. (length taken ≡ len) × (self.new ≡ self.old ++ taken))
            (KeptError (IsShort len) (λ _. ⊥)) }
        ensures kept { length self.old ≤ length self.new }
        ensures grown { OnOk result (length self.new ≡ length self.old + len) }
    {
        let mut left = len;
        while left > 0 {
            let next = left.min(STEP);
            self.append(source, next)?;
            left -= next;
        }
        Ok(())
    }
}
