ghost use Rattle.std.specs.Prelude.{◌≡◌, ◌+◌, ◌-◌, ◌^◌, ◌++◌, None, Some, Ok, IfOk, length, min, take, drop};

use crate::memory::copy_front;
use crate::{Failed, Sink, Source, Taker};
use std::marker::Model;

/// A source of bytes in memory that never fails and gives as many as fit.
#[derive(Drop)]
pub struct QuietSource {
    bytes: Vec<u8>,
    taken: usize,
}

impl Model for QuietSource {
    ghost use Rattle.std.specs.Prelude.{ℕ, ◌≤◌, List, drop, vec_len};

    // the bytes that are left
    ghost Value = { List ℕ };

    ghost view = { λ s. drop s.taken s.bytes.items };

    ghost invariant = { λ s. s.taken ≤ vec_len s.bytes };
}

impl QuietSource {
    /// A source of these bytes.
    pub fn new(bytes: Vec<u8>) -> QuietSource
        ensures { result ≡ bytes.items }
    {
        QuietSource { bytes, taken: 0 }
    }
}

impl Source for QuietSource {
    ghost state = { λ s. record { told = Some s; fault_count = 0; origin = tt } };

    #[tactic(auto, using(std::proofs::lemmas::Grind::common_steps, crate::proofs::Lists::drop_more))]
    fn read(&mut self, buf: &mut [u8]) -> Result<usize, Failed>
        ensures answer { result ≡ Ok (min (length self.old) (length buf.old)) }
        ensures left { IfOk result (λ n. self.new ≡ drop n self.old) }
        ensures filled { IfOk result (λ n. buf.new ≡ take n self.old ++ drop n buf.old) }
        ensures taken { IfOk result (λ n. self.old ≡ take n buf.new ++ self.new) }
    {
        let len = copy_front(&self.bytes[self.taken..], buf, usize::MAX);
        self.taken += len;
        Ok(len)
    }

    fn faults(&self) -> u64 {
        0
    }

    #[tactic(auto, using(std::proofs::lemmas::Grind::common_steps, crate::proofs::Lists::drop_more))]
    fn show<K, T: Taker<K>>(&mut self, taker: &mut T, to: &mut K) -> Result<bool, Failed> {
        self.taken += taker.look(to, &self.bytes[self.taken..]);
        Ok(true)
    }
}

/// A sink that never fails and keeps of what it gets only how many bytes that was.
#[derive(Drop)]
pub struct QuietSink {
    count: u64,
}

impl Model for QuietSink {
    ghost use Rattle.std.specs.Prelude.{ℕ};

    ghost Value = { ℕ };

    ghost view = { λ s. s.count };
}

impl QuietSink {
    /// A sink that got no byte.
    pub fn new() -> QuietSink
        ensures { result ≡ 0 }
    {
        QuietSink { count: 0 }
    }

    /// How many bytes it got. The count stops at the largest `u64`.
    pub fn count(&self) -> u64
        ensures { result ≡ self.now }
    {
        self.count
    }
}

impl Sink for QuietSink {
    ghost state = { λ _. record { told = record { bytes = None; settled = None }; fault_count = 0; origin = tt } };

    fn write(&mut self, piece: &[u8]) -> Result<usize, Failed>
        ensures answer { result ≡ Ok (length piece.now) }
        ensures count { self.new ≡ min (self.old + length piece.now) (2 ^ 64 - 1) }
    {
        self.count = self.count.saturating_add(piece.len() as u64);
        Ok(piece.len())
    }

    fn flush(&mut self) -> Result<(), Failed>
        ensures answer { result ≡ Ok tt }
        ensures count { self.new ≡ self.old }
    {
        Ok(())
    }

    fn faults(&self) -> u64 {
        0
    }
}
