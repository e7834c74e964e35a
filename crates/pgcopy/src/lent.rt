ghost use Rattle.std.specs.Prelude.{◌≡◌, ◌≢◌, ℕ, ◌≤◌, List, [], true, false, Some, IfErr};
ghost use Rattle.pgw_wire.specs.Outside.{counted};
ghost use Rattle.std.specs.Io.{WritesAtMost};
ghost use Rattle.std.specs.Io.Buffered.{writer_inner, writer_buffer};
ghost use Rattle.std.specs.Io.KnownBytes.{Keeps, WriteAppends, append_known};
ghost use Rattle.std.specs.IoError.{error_kind};
ghost use Rattle.pgcopy.specs.Lent.{marked, kept_back};

use crate::edge::is_interrupted;
use pgw_wire::{Failed, Sink};
use std::io;
use std::io::{BufWriter, Error, ErrorKind, Write};

/// A writer that was lent, whose calls are made again where a signal interrupted them. It gives up after 2^64 - 1 tries,
/// and takes at most 2^64 - 1 bytes.
#[derive(Drop)]
pub struct LentWriter<'a, W> {
    pub inner: &'a mut W,
    /// How many bytes it took.
    pub passed: u64,
}

impl<W: Write> Write for LentWriter<'_, W> {
    ghost contents = { λ s. marked s.inner.ghost_name s.passed (W.contents s.inner.now) };

    #[tactic(auto, using(crate::proofs::Kept::keeps_then, crate::proofs::Marked::marked_kept, crate::proofs::Marked::marked_write))]
    fn write(&mut self, buf: &[u8]) -> io::Result<usize>
        ensures bound { WritesAtMost result buf.now }
        ensures bytes { WriteAppends (marked self.old.inner.ghost_name self.old.passed (W.contents self.old.inner.now))
            (marked self.new.inner.ghost_name self.new.passed (W.contents self.new.inner.now)) result buf.now }
        ensures retried { IfErr result (λ e. error_kind e ≢ ErrorKind.Interrupted) }
    {
        if buf.len() as u64 > u64::MAX - self.passed {
            return Err(Error::from(ErrorKind::FileTooLarge));
        }
        for _ in 0..u64::MAX {
            match self.inner.write(buf) {
                Ok(n) => {
                    self.passed += n as u64;
                    return Ok(n);
                }
                Err(e) if is_interrupted(&e) => {}
                Err(e) => return Err(e),
            }
        }
        Err(Error::from(ErrorKind::TimedOut))
    }

    #[tactic(auto, using(crate::proofs::Kept::keeps_then, crate::proofs::Marked::marked_kept))]
    fn flush(&mut self) -> io::Result<()>
        ensures bytes { Keeps (marked self.old.inner.ghost_name self.old.passed (W.contents self.old.inner.now))
            (marked self.new.inner.ghost_name self.new.passed (W.contents self.new.inner.now)) }
        ensures retried { IfErr result (λ e. error_kind e ≢ ErrorKind.Interrupted) }
    {
        for _ in 0..u64::MAX {
            match self.inner.flush() {
                Ok(()) => return Ok(()),
                Err(e) if is_interrupted(&e) => {}
                Err(e) => return Err(e),
            }
        }
        Err(Error::from(ErrorKind::TimedOut))
    }
}

/// A sink over a writer with a buffer in front of it. A flush that succeeds ends it: behind that it takes no bytes, and
/// all that it got is with the writer.
#[derive(Drop)]
pub struct FinalSink<W: Write + Drop> {
    inner: BufWriter<W>,
    is_flushed: bool,
    faults: u64,
}

impl<W: Write + Drop> FinalSink<W> {
    /// A sink over `inner` that has not failed, and is not flushed.
    pub fn new(inner: BufWriter<W>) -> FinalSink<W>
        ensures inner { result.inner ≡ inner }
        ensures flushed { result.is_flushed ≡ false }
    {
        FinalSink {
            inner,
            is_flushed: false,
            faults: 0,
        }
    }

    /// Counts a fault.
    fn fail(&mut self) -> Failed
        ensures counted { self.new.faults ≡ counted self.old.faults }
        ensures faults { self.old.faults ≤ self.new.faults }
        ensures inner { self.new.inner ≡ self.old.inner }
        ensures flushed { self.new.is_flushed ≡ self.old.is_flushed }
    {
        self.faults = self.faults.saturating_add(1);
        Failed
    }

    /// The writer, behind a flush where none succeeded before. What cannot be written then is lost.
    pub fn finish(self) -> W
        ensures { (lost : List ℕ) × (self.is_flushed ≡ true → lost ≡ [])
            × Keeps (append_known (W.contents (writer_inner self.inner)) (kept_back self.is_flushed (writer_buffer self.inner)))
            (append_known (W.contents result) lost) }
    {
        let FinalSink {
            inner: mut buffered,
            is_flushed,
            faults: _,
        } = self;
        if !is_flushed {
            let _ = buffered.flush();
        }
        let (writer, _) = buffered.into_parts();
        writer
    }
}

impl<W: Write + Drop> Sink for FinalSink<W> {
    ghost state = { λ s. record {
      told = record {
        bytes = append_known (W.contents (writer_inner s.inner)) (kept_back s.is_flushed (writer_buffer s.inner));
        settled = Some s.is_flushed;
      };
      fault_count = s.faults;
      origin = tt;
    } };

    #[inline(always)]
    fn write(&mut self, piece: &[u8]) -> Result<usize, Failed> {
        if self.is_flushed {
            return Err(self.fail());
        }
        match self.inner.write(piece) {
            Ok(n) if n > 0 || piece.is_empty() => Ok(n),
            _ => Err(self.fail()),
        }
    }

    fn flush(&mut self) -> Result<(), Failed> {
        if self.is_flushed {
            return Ok(());
        }
        match self.inner.flush() {
            Ok(()) => {
                self.is_flushed = true;
                Ok(())
            }
            Err(_) => Err(self.fail()),
        }
    }

    fn faults(&self) -> u64 {
        self.faults
    }
}
