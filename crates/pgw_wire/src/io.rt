ghost use Rattle.std.specs.Prelude.{◌≡◌, ◌<◌, ◌≤◌, ◌++◌, List, ℕ, length, min, take, drop, true, None, Ok, IfOk, OnOk, OnErr};
ghost use Rattle.std.specs.Io.KnownBytes.{Appends, Consumes, Keeps, IsAtEnd};
ghost use Rattle.pgw_wire.specs.Outside.{left, gained, settled, counted, TookReady};
ghost use Rattle.pgw_wire.specs.Reading.{Fills};

use crate::{Failed, Sink, Source, Taker};
use std::io::{BufRead, Read, Write};

const SCRATCH: usize = 4096;

/// Counts a fault.
fn count_fault(faults: &mut u64) -> Failed
    ensures counted { faults.new ≡ counted faults.old }
    ensures faults { faults.old ≤ faults.new }
{
    *faults = faults.saturating_add(1);
    Failed
}

/// Reads to the front of `buf` by way of `scratch`, as many bytes at most as both have: a reader may write behind the bytes
/// that it counts, and a source may not. It is one read of the reader, whatever `buf` is.
fn read_through<R: Read>(
    inner: &mut R,
    scratch: &mut [u8],
    buf: &mut [u8],
    faults: &mut u64,
) -> Result<usize, Failed>
    requires { 0 < length scratch.old }
    ensures fills { Fills (R.remaining inner.old) (R.remaining inner.new) faults.old faults.new result buf.old buf.new }
    ensures faults { faults.old ≤ faults.new }
{
    let len = buf.len().min(scratch.len());
    match inner.read(&mut scratch[..len]) {
        Ok(n) => {
            buf[..n].copy_from_slice(&scratch[..n]);
            Ok(n)
        }
        Err(_) => Err(count_fault(faults)),
    }
}

/// A source over a reader. Each of its reads is one read of the reader, of at most 4096 bytes. Where `buf` is empty it is
/// one of no bytes, which may fail.
#[derive(Drop)]
pub struct ReadSource<R> {
    inner: R,
    faults: u64,
    scratch: [u8; SCRATCH],
}

impl<R: Read> ReadSource<R> {
    /// A source over `inner` that has not failed.
    pub fn new(inner: R) -> ReadSource<R>
        ensures left { left (⟦<ReadSource<R> as Source>⟧.state result) ≡ R.remaining inner }
        ensures faults { (⟦<ReadSource<R> as Source>⟧.state result).fault_count ≡ 0 }
    {
        ReadSource {
            inner,
            faults: 0,
            scratch: [0; SCRATCH],
        }
    }
}

impl<R: Read> Source for ReadSource<R> {
    ghost state = { λ s. record { told = R.remaining s.inner; fault_count = s.faults; origin = tt } };

    fn read(&mut self, buf: &mut [u8]) -> Result<usize, Failed>
        ensures fills { Fills (R.remaining self.old.inner) (R.remaining self.new.inner) self.old.faults self.new.faults
            result buf.old buf.new }
        ensures faults { self.old.faults ≤ self.new.faults }
    {
        read_through(
            &mut self.inner,
            &mut self.scratch[..],
            buf,
            &mut self.faults,
        )
    }

    fn faults(&self) -> u64 {
        self.faults
    }
}

/// Copies the front of a slice over that of another, as many bytes as both have, and answers how many.
///
/// Where it is inlined, and the length of `to` is known there, the length of the copy is known too.
#[inline(always)]
fn copy_front(from: &[u8], to: &mut [u8]) -> usize
    ensures count { result ≡ min (length from.now) (length to.old) }
    ensures bytes { to.new ≡ take result from.now ++ drop result to.old }
{
    if to.len() <= from.len() {
        let n = to.len();
        to.copy_from_slice(&from[..n]);
        n
    } else {
        let n = from.len();
        to[..n].copy_from_slice(from);
        n
    }
}

/// A source over a reader that has a buffer. A read gives bytes of the buffer, which is filled first where it is empty. So
/// each byte is copied once, where a `ReadSource` copies it twice. It shows what its buffer holds, which is not copied.
///
/// At the end of the reader one more read of it, of one byte, finds that nothing is left. A read into an empty `buf` makes
/// the same calls, and takes nothing.
#[derive(Drop)]
pub struct BufReadSource<R> {
    inner: R,
    faults: u64,
}

impl<R: BufRead> BufReadSource<R> {
    /// A source over `inner` that has not failed.
    pub fn new(inner: R) -> BufReadSource<R>
        ensures left { left (⟦<BufReadSource<R> as Source>⟧.state result) ≡ R.remaining inner }
        ensures faults { (⟦<BufReadSource<R> as Source>⟧.state result).fault_count ≡ 0 }
    {
        BufReadSource { inner, faults: 0 }
    }
}

impl<R: BufRead> Source for BufReadSource<R> {
    ghost state = { λ s. record { told = R.remaining s.inner; fault_count = s.faults; origin = tt } };

    #[inline(always)]
    fn read(&mut self, buf: &mut [u8]) -> Result<usize, Failed>
        ensures fills { Fills (R.remaining self.old.inner) (R.remaining self.new.inner) self.old.faults self.new.faults
            result buf.old buf.new }
        ensures faults { self.old.faults ≤ self.new.faults }
    {
        match self.inner.fill_buf() {
            Ok(kept) if !kept.is_empty() => {
                let n = copy_front(kept, buf);
                self.inner.consume(n);
                Ok(n)
            }
            // std promises of a read alone that 0 bytes mean the end.
            Ok(_) => read_through(&mut self.inner, &mut [0], buf, &mut self.faults),
            Err(_) => Err(count_fault(&mut self.faults)),
        }
    }

    fn faults(&self) -> u64 {
        self.faults
    }

    #[inline(always)]
    fn show<K, T: Taker<K>>(&mut self, taker: &mut T, to: &mut K) -> Result<bool, Failed>
        ensures answer { IfOk result (λ shows. shows ≡ true) }
        ensures shown { result ≡ Ok true → (ready : List ℕ) × (n : ℕ)
            × TookReady (R.remaining self.old.inner) (R.remaining self.new.inner) ready n
            × T.takes taker.old to.old ready n taker.new to.new }
        ensures err { OnErr result (Keeps (R.remaining self.old.inner) (R.remaining self.new.inner)
            × (taker.new ≡ taker.old) × (to.new ≡ to.old)) }
        ensures no_fault { IfOk result (λ _. self.new.faults ≡ self.old.faults) }
        ensures fault { OnErr result (self.new.faults ≡ counted self.old.faults) }
        ensures faults { self.old.faults ≤ self.new.faults }
    {
        match self.inner.fill_buf() {
            Ok(ready) => {
                let taken = taker.look(to, ready);
                self.inner.consume(taken);
                Ok(true)
            }
            Err(_) => Err(count_fault(&mut self.faults)),
        }
    }
}

/// A sink over a writer. Each of its writes and flushes is one of the writer.
#[derive(Drop)]
pub struct WriteSink<W> {
    inner: W,
    faults: u64,
}

impl<W: Write> WriteSink<W> {
    /// A sink over `inner` that has not failed.
    pub fn new(inner: W) -> WriteSink<W>
        ensures gained { gained (⟦<WriteSink<W> as Sink>⟧.state result) ≡ W.contents inner }
        ensures settled { settled (⟦<WriteSink<W> as Sink>⟧.state result) ≡ None }
        ensures faults { (⟦<WriteSink<W> as Sink>⟧.state result).fault_count ≡ 0 }
    {
        WriteSink { inner, faults: 0 }
    }
}

impl<W: Write> Sink for WriteSink<W> {
    ghost state = { λ s. record {
      told = record { bytes = W.contents s.inner; settled = None };
      fault_count = s.faults;
      origin = tt;
    } };

    fn write(&mut self, piece: &[u8]) -> Result<usize, Failed>
        ensures within { IfOk result (λ n. n ≤ length piece.now) }
        ensures progress { 0 < length piece.now → IfOk result (λ n. 0 < n) }
        ensures gained { IfOk result (λ n. Appends (W.contents self.old.inner) (W.contents self.new.inner) (take n piece.now)) }
        ensures err { OnErr result (Keeps (W.contents self.old.inner) (W.contents self.new.inner)) }
        ensures no_fault { IfOk result (λ _. self.new.faults ≡ self.old.faults) }
        ensures fault { OnErr result (self.new.faults ≡ counted self.old.faults) }
        ensures faults { self.old.faults ≤ self.new.faults }
    {
        match self.inner.write(piece) {
            Ok(n) if n > 0 || piece.is_empty() => Ok(n),
            _ => Err(count_fault(&mut self.faults)),
        }
    }

    fn flush(&mut self) -> Result<(), Failed>
        ensures gained { Keeps (W.contents self.old.inner) (W.contents self.new.inner) }
        ensures no_fault { OnOk result (self.new.faults ≡ self.old.faults) }
        ensures fault { OnErr result (self.new.faults ≡ counted self.old.faults) }
        ensures faults { self.old.faults ≤ self.new.faults }
    {
        match self.inner.flush() {
            Ok(()) => Ok(()),
            Err(_) => Err(count_fault(&mut self.faults)),
        }
    }

    fn faults(&self) -> u64 {
        self.faults
    }
}
