ghost use Rattle.std.specs.Prelude.{◌≡◌, ◌+◌, ◌-◌, ◌^◌, ◌≤◌, ◌==◌, ◌++◌, [], true, false, Some, None, Ok, Err, IfOk, IsOk, OnOk, OnErr, length, min, take, drop, if◌then◌else◌};
ghost use Rattle.pgw_wire.specs.Memory.{no_calls, is_failing, succeeded, failed, limit_of, next_cut, left_of, given, accepted};
ghost use Rattle.pgw_wire.specs.Outside.{settled_after};

use crate::{Failed, FailingCalls, Sink, Source};
use cuts::Cuts;
use std::alloc::Global;
use std::marker::Model;

mod cuts;

/// A source of bytes in memory, for tests: which of its calls fail and how it cuts its answers is given.
#[derive(Drop)]
pub struct MemorySource {
    bytes: Vec<u8>,
    taken: usize,
    calls: FailingCalls,
    cuts: Cuts,
}

impl Model for MemorySource {
    ghost use Rattle.std.specs.Prelude.{◌≤◌, vec_len};
    ghost use Rattle.pgw_wire.specs.Memory.{Reading};

    ghost Value = { Reading };

    ghost view = { λ s. record { bytes = s.bytes.items; taken = s.taken; calls = s.calls; cuts = s.cuts } };

    ghost invariant = { λ s. s.taken ≤ vec_len s.bytes };
}

impl MemorySource {
    /// A source of these bytes. Reads are counted from 0, and those whose numbers stand in `fails` fail, no others. The
    /// read that is the i-th to succeed gives at most `cuts[i]` bytes, where 0 counts as 1, and behind the list as
    /// many as there is room for.
    pub fn new(bytes: Vec<u8>, cuts: Vec<usize>, fails: Vec<u64>) -> MemorySource
        ensures { result ≡ record {
          bytes = bytes.items;
          taken = 0;
          calls = no_calls fails.items;
          cuts = record { most = cuts.items; successes = 0 };
        } }
    {
        MemorySource {
            bytes,
            taken: 0,
            calls: FailingCalls::new(fails),
            cuts: Cuts::new(cuts),
        }
    }

    /// How many bytes were taken.
    pub fn taken(&self) -> usize
        ensures { result ≡ self.now.taken }
    {
        self.taken
    }
}

/// Copies as many of the first bytes to the front of the buffer as fit there, `limit` at most.
#[tactic(auto, using(crate::proofs::Lists::front_copied))]
pub(crate) fn copy_front(bytes: &[u8], buf: &mut [u8], limit: usize) -> usize
    ensures count { result ≡ min (min (length bytes.now) (length buf.old)) limit }
    ensures filled { buf.new ≡ take result bytes.now ++ drop result buf.old }
    ensures front { take result buf.new ≡ take result bytes.now }
{
    let len = bytes.len().min(buf.len()).min(limit);
    buf[..len].copy_from_slice(&bytes[..len]);
    len
}

impl Source for MemorySource {
    ghost state = { λ s. record { told = Some (left_of s); fault_count = s.calls.faults; origin = tt } };

    #[tactic(auto, using(std::proofs::lemmas::Grind::common_steps, crate::proofs::Lists::drop_more))]
    fn read(&mut self, buf: &mut [u8]) -> Result<usize, Failed>
        ensures answer { result ≡ (if is_failing self.old.calls then Err (record {}) else Ok (given (length buf.old) self.old)) }
        ensures ok { IfOk result (λ n. self.new ≡ record {
          bytes = self.old.bytes;
          taken = self.old.taken + n;
          calls = succeeded self.old.calls;
          cuts = next_cut self.old.cuts;
        }) }
        ensures filled { IfOk result (λ n. buf.new ≡ take n (left_of self.old) ++ drop n buf.old) }
        ensures err { OnErr result (self.new ≡ record self.old { calls = failed self.old.calls }) }
        ensures buffer_kept { OnErr result (buf.new ≡ buf.old) }
        ensures taken { IfOk result (λ n. left_of self.old ≡ take n buf.new ++ left_of self.new) }
        ensures faults { self.old.calls.faults ≤ self.new.calls.faults }
    {
        self.calls.call()?;
        let len = copy_front(&self.bytes[self.taken..], buf, self.cuts.limit());
        self.taken += len;
        self.cuts.advance();
        Ok(len)
    }

    fn faults(&self) -> u64 {
        self.calls.faults()
    }
}

/// A sink that keeps what it gains in memory, for tests: which of its calls fail and how many bytes each write
/// takes is given.
#[derive(Drop)]
pub struct MemorySink {
    gained: Vec<u8>,
    settled: bool,
    calls: FailingCalls,
    cuts: Cuts,
}

impl Model for MemorySink {
    ghost use Rattle.pgw_wire.specs.Memory.{Writing};

    ghost Value = { Writing };

    ghost view = { λ s. record { bytes = s.gained.items; settled = s.settled; calls = s.calls; cuts = s.cuts } };
}

impl MemorySink {
    /// A sink that has gained nothing and is settled. Its call with number k, counted from 0 over writes and
    /// flushes, fails where k is in `fails`, and else only as a write that is refused memory. The call that is the
    /// i-th to succeed takes, where it is a write, at most `cuts[i]` bytes, where 0 counts as 1, and behind the list
    /// the whole piece.
    pub fn new(alloc: Global, cuts: Vec<usize>, fails: Vec<u64>) -> MemorySink
        ensures { result ≡ record {
          bytes = [];
          settled = true;
          calls = no_calls fails.items;
          cuts = record { most = cuts.items; successes = 0 };
        } }
    {
        MemorySink {
            gained: Vec::new(alloc),
            settled: true,
            calls: FailingCalls::new(fails),
            cuts: Cuts::new(cuts),
        }
    }

    /// All bytes that it has gained.
    pub fn gained(&self) -> &[u8]
        ensures { result.now ≡ self.now.bytes }
    {
        &self.gained
    }
}

impl Sink for MemorySink {
    ghost state = { λ s. record {
      told = record { bytes = Some s.bytes; settled = Some s.settled };
      fault_count = s.calls.faults;
      origin = tt;
    } };

    /// Where memory for the bytes is refused, that is a fault of this sink.
    fn write(&mut self, piece: &[u8]) -> Result<usize, Failed>
        ensures answer { IfOk result (λ n. n ≡ accepted piece.now self.old) }
        ensures failing { is_failing self.old.calls ≡ true → result ≡ Err (record {}) }
        ensures empty { is_failing self.old.calls ≡ false → piece.now ≡ [] → IsOk result }
        ensures ok { IfOk result (λ n. self.new ≡ record {
          bytes = self.old.bytes ++ take n piece.now;
          settled = (if n == 0 then self.old.settled else false);
          calls = succeeded self.old.calls;
          cuts = next_cut self.old.cuts;
        }) }
        ensures err { OnErr result (self.new ≡ record self.old { calls = failed self.old.calls }) }
        ensures faults { self.old.calls.faults ≤ self.new.calls.faults }
    {
        self.calls.call()?;
        let len = piece.len().min(self.cuts.limit());
        if self.gained.extend_from_slice(&piece[..len]).is_err() {
            self.calls.fail();
            return Err(Failed);
        }
        self.cuts.advance();
        if len > 0 {
            self.settled = false;
        }
        Ok(len)
    }

    fn flush(&mut self) -> Result<(), Failed>
        ensures answer { result ≡ (if is_failing self.old.calls then Err (record {}) else Ok tt) }
        ensures ok { OnOk result (self.new ≡ record {
          bytes = self.old.bytes;
          settled = true;
          calls = succeeded self.old.calls;
          cuts = next_cut self.old.cuts;
        }) }
        ensures err { OnErr result (self.new ≡ record self.old { calls = failed self.old.calls }) }
        ensures faults { self.old.calls.faults ≤ self.new.calls.faults }
    {
        self.calls.call()?;
        self.cuts.advance();
        self.settled = true;
        Ok(())
    }

    fn faults(&self) -> u64 {
        self.calls.faults()
    }
}
