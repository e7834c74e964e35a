ghost use Rattle.std.specs.Prelude.{◌≡◌, ℕ, ◌+◌, ◌<◌, ◌≤◌, Bool, true, false, Ok, List, length, take, drop, option_map, Result, IfOk, OnOk, OnErr};
ghost use Rattle.std.specs.Io.KnownBytes.{Appends, Consumes, IsAtEnd, Keeps};
ghost use Rattle.pgw_wire.specs.Outside.{SourceState, SinkState, left, gained, settled, HasFailed, GoesOn, TookReady, settled_after};

use crate::Failed;

/// Where bytes come from.
pub trait Source {
    /// What says on which object it stands: for a wrapper over an object that was lent to it, which object, what
    /// that had left and its count when the wrapper was made. Where it stands on nothing else it says nothing.
    ghost Origin: { Type 0 } = { Unit {0} };

    /// What is told of it: the bytes that it has left, where it tells these; how many of its calls failed, a count that stops
    /// at the largest `u64`; and on which object it stands.
    ghost state: { Self → SourceState Origin };

    /// Reads some of the bytes to the front of `buf`, and answers how many. It answers 0 only at the end or where
    /// `buf` is empty. `Failed` comes only where the count of faults rises, and leaves the bytes and `buf`.
    fn read(&mut self, buf: &mut [u8]) -> Result<usize, Failed>
        ensures within { IfOk result (λ n. n ≤ length buf.old) }
        ensures taken { IfOk result (λ n. Consumes (left (state self.old)) (left (state self.new)) (take n buf.new)) }
        ensures rest { IfOk result (λ n. drop n buf.new ≡ drop n buf.old) }
        ensures end { result ≡ Ok 0 → 0 < length buf.old → IsAtEnd (left (state self.new)) }
        ensures err { OnErr result (Keeps (left (state self.old)) (left (state self.new))) }
        ensures buffer_kept { OnErr result (buf.new ≡ buf.old) }
        ensures failed { OnErr result (HasFailed (state self.old) (state self.new)) }
        ensures goes_on { GoesOn (state self.old) (state self.new) };

    /// How many calls failed so far.
    fn faults(&self) -> u64
        ensures { result ≡ (state self.now).fault_count };

    /// Shows the taker bytes that stand ready in front of what is left, and takes as many of them as it answers. They may be
    /// fewer than are left, or none. A source that has none at hand may answer false, as the one here does, and then what is
    /// left, the taker and `to` are as before. `Failed` comes only where the count of faults rises, and leaves these too.
    fn show<K, T: Taker<K>>(&mut self, taker: &mut T, to: &mut K) -> Result<bool, Failed>
        ensures shown { result ≡ Ok true → (ready : List ℕ) × (n : ℕ)
            × TookReady (left (state self.old)) (left (state self.new)) ready n
            × T.takes taker.old to.old ready n taker.new to.new }
        ensures none { result ≡ Ok false
            → Keeps (left (state self.old)) (left (state self.new)) × (taker.new ≡ taker.old) × (to.new ≡ to.old) }
        ensures err { OnErr result (Keeps (left (state self.old)) (left (state self.new)) × (taker.new ≡ taker.old) × (to.new ≡ to.old)) }
        ensures failed { OnErr result (HasFailed (state self.old) (state self.new)) }
        ensures goes_on { GoesOn (state self.old) (state self.new) }
    {
        Ok(false)
    }
}

/// Looks at bytes that stand ready in a source, makes of them what it will, and says how many of them are taken.
pub trait Taker<K> {
    /// What a look leaves: the taker and what it works on before, the bytes that were ready, how many of them are taken, and
    /// the taker and what it works on behind.
    ghost takes: { Self → K → List ℕ → ℕ → Self → K → Type 0 };

    /// Looks at the bytes, works on `to`, and answers how many of the bytes, from the first, are taken.
    fn look(&mut self, to: &mut K, ready: &[u8]) -> usize
        ensures within { result ≤ length ready.now }
        ensures takes { takes self.old to.old ready.now result self.new to.new };
}

/// Where bytes go.
pub trait Sink {
    /// As for a source, with what the lent object had gained.
    ghost Origin: { Type 0 } = { Unit {0} };

    /// What is told of it: the bytes that it got, where it tells them; whether all that it got is settled, where it tells
    /// that, true behind a flush, false behind a byte; how many of its calls failed; and on which object it stands.
    ghost state: { Self → SinkState Origin };

    /// Takes the front of the piece, one byte at least, and answers how many bytes it took. Of an empty piece it
    /// takes none. `Failed` comes only where the count of faults rises, and nothing was taken then.
    fn write(&mut self, piece: &[u8]) -> Result<usize, Failed>
        ensures within { IfOk result (λ n. n ≤ length piece.now) }
        ensures progress { 0 < length piece.now → IfOk result (λ n. 0 < n) }
        ensures gained { IfOk result (λ n. Appends (gained (state self.old)) (gained (state self.new)) (take n piece.now)) }
        ensures settled { IfOk result (λ n. settled (state self.new) ≡ settled_after n (settled (state self.old))) }
        ensures err { OnErr result (Keeps (gained (state self.old)) (gained (state self.new))) }
        ensures settled_kept { OnErr result (settled (state self.new) ≡ settled (state self.old)) }
        ensures failed { OnErr result (HasFailed (state self.old) (state self.new)) }
        ensures goes_on { GoesOn (state self.old) (state self.new) };

    /// Settles what it got. `Failed` comes only where the count of faults rises, and leaves it as it was.
    fn flush(&mut self) -> Result<(), Failed>
        ensures gained { Keeps (gained (state self.old)) (gained (state self.new)) }
        ensures ok { OnOk result (settled (state self.new) ≡ option_map (λ _. true) (settled (state self.old))) }
        ensures err { OnErr result (settled (state self.new) ≡ settled (state self.old)) }
        ensures failed { OnErr result (HasFailed (state self.old) (state self.new)) }
        ensures goes_on { GoesOn (state self.old) (state self.new) };

    /// How many calls failed so far.
    fn faults(&self) -> u64
        ensures { result ≡ (state self.now).fault_count };
}
