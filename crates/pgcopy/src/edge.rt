ghost use Rattle.std.specs.Prelude.{◌≡◌, ◌≢◌, ◌↔◌, ◌⊎◌, List, [], ◌++◌, codes, ℕ, Some, None, IfOk, IfErr, true};
ghost use Rattle.pgw_wire.specs.Outside.{HasFront};
ghost use Rattle.pgw_meta.specs.Known.{Key};
ghost use Rattle.pgw_tree.specs.Stream.{IsValidStream};
ghost use Rattle.std.specs.Io.{ReadsAtMost};
ghost use Rattle.std.specs.Io.KnownBytes.{Appends, ReadConsumes};
ghost use Rattle.std.specs.IoError.{error_kind};
ghost use Rattle.pgcopy.specs.Words.{texts, PlanData, IsPlan, HasNoPlan, PlacedFault, IsFirstFault, IsOfAColumn, missing};
ghost use Rattle.pgcopy.specs.Report.{line_of, unknown_text, fault_status};
ghost use Rattle.pgcopy.specs.Lent.{GotFront, CopiedOut, StoppedOut};

use crate::lent::{FinalSink, LentWriter};
use crate::report::{Outcome, Status};
use crate::run::run;
use pgw_tree::CopyFault;
use pgw_wire::BufReadSource;
use std::alloc::Global;
use std::io::{BufReader, BufWriter, Error, ErrorKind, Read, Write};
use std::process::ExitCode;
use std::rt::Env;
use std::{env, io};

/// How many bytes of input are kept between two calls of the system, in which whole rows are looked for.
const INPUT: usize = 262144;

/// How many bytes of output are kept between two calls of the system. What is longer is written without being kept.
const OUTPUT: usize = 65536;

/// How many bytes of a line are kept: more than any line has.
const LINE: usize = 256;

/// Whether a signal interrupted the call that failed with this error. Such a call is made again, and no other.
pub fn is_interrupted(error: &Error) -> bool
    ensures { (result ≡ true) ↔ (error_kind error.now ≡ ErrorKind.Interrupted) }
{
    error.kind() == ErrorKind::Interrupted
}

/// A reader whose calls are made again where a signal interrupted them. It gives up after 2^64 - 1 tries.
#[derive(Drop)]
struct Retrying<R> {
    inner: R,
}

impl<R: Read> Read for Retrying<R> {
    ghost remaining = { λ s. R.remaining s.inner };

    #[tactic(auto, using(crate::proofs::Kept::keeps_then, crate::proofs::Kept::consumes_behind_kept))]
    fn read(&mut self, buf: &mut [u8]) -> io::Result<usize>
        ensures bound { ReadsAtMost result buf.new }
        ensures bytes { ReadConsumes (R.remaining self.old.inner) (R.remaining self.new.inner) result buf.new }
        ensures retried { IfErr result (λ e. error_kind e ≢ ErrorKind.Interrupted) }
    {
        for _ in 0..u64::MAX {
            match self.inner.read(buf) {
                Ok(n) => return Ok(n),
                Err(e) if is_interrupted(&e) => {}
                Err(e) => return Err(e),
            }
        }
        Err(Error::from(ErrorKind::TimedOut))
    }
}

/// The arguments behind the program's name. The error is `OutOfMemory` where memory for them is refused, and another
/// where one of them is no text.
pub fn words<R: Env + AllocGlobal>(rt: &R) -> io::Result<Vec<String>> {
    let mut arguments = env::args(rt)?;
    arguments.next();
    Ok(arguments.collect(rt.alloc())?)
}

/// Runs on `input` and `output`, with the line on `errors`. The error is `OutOfMemory`: memory for the buffers around them
/// was refused, before the run.
///
/// Where a stream was copied the output has all of it. What the run did not flush is flushed at the end, and a flush that
/// fails then changes nothing more: what it could not write is missing.
pub fn copy<I: Read + Drop, O: Write, E: Write>(
    alloc: Global,
    words: &[String],
    input: I,
    output: &mut O,
    errors: &mut E,
) -> io::Result<Status>
    // Status 1 comes exactly where no plan is what the words ask for, unless memory runs out where the type of a column is
    // wrong. There the output gets nothing. Statuses other than these two come only where there is a plan.
    ensures words { IfOk result (λ status. status ≡ Status.Words → HasNoPlan (texts words.now)) }
    ensures planned { IfOk result (λ status. status ≢ Status.Words → status ≢ Status.NoMemory
        → (plan : PlanData) × IsPlan (texts words.now) plan) }
    ensures no_plan { IfOk result (λ status. (wrong : PlacedFault) → IsFirstFault (texts words.now) wrong
        → (status ≡ Status.Words) ⊎ ((status ≡ Status.NoMemory) × IsOfAColumn wrong.fault)) }
    ensures words_line { IfOk result (λ status. (wrong : PlacedFault) → IsFirstFault (texts words.now) wrong
        → status ≡ Status.Words
        → GotFront (E.contents errors.old) (E.contents errors.new) (line_of (Outcome.BadWord wrong.place wrong.fault))) }
    ensures memory_line { IfOk result (λ status. HasNoPlan (texts words.now) → status ≡ Status.NoMemory
        → GotFront (E.contents errors.old) (E.contents errors.new) (line_of (Outcome.Fault CopyFault.NoMemory))) }
    ensures untouched { IfOk result (λ _. HasNoPlan (texts words.now)
        → Appends (O.contents output.old) (O.contents output.new) []) }

    // What status 0 means, and what the output got.
    ensures copied { IfOk result (λ status. status ≡ Status.Copied → (plan : PlanData) × IsPlan (texts words.now) plan
        × ((left : List ℕ) → I.remaining input ≡ Some left
        → HasFront (Some left) (IsValidStream plan.limits plan.columns))) }
    ensures output { IfOk result (λ status. status ≡ Status.Copied → (plan : PlanData) × IsPlan (texts words.now) plan
        × (n : ℕ) × CopiedOut plan n (I.remaining input) (O.contents output.old) (O.contents output.new)
        (E.contents errors.old) (E.contents errors.new)) }

    // Where there is a plan, each other status is that of a fault, which its line tells, and which says what was read and
    // what was written.
    ensures fault { IfOk result (λ status. (plan : PlanData) → IsPlan (texts words.now) plan → status ≢ Status.Copied
        → (fault : CopyFault) × (status ≡ fault_status fault)
        × StoppedOut plan fault (I.remaining input) (O.contents output.old) (O.contents output.new)
        (E.contents errors.old) (E.contents errors.new)) }

    // Status 4 comes exactly where the columns need an oid that the words do not give, unless memory runs out. Its line
    // names the first type of such an oid, and the output gets nothing.
    ensures unknown_type { IfOk result (λ status. status ≡ Status.UnknownType
        → (plan : PlanData) × IsPlan (texts words.now) plan × (key : Key) × (missing plan ≡ Some key)
        × GotFront (E.contents errors.old) (E.contents errors.new) (unknown_text key ++ codes "\n")) }
    ensures unwritten { IfOk result (λ status. status ≡ Status.UnknownType
        → Appends (O.contents output.old) (O.contents output.new) []) }
    ensures unmet { IfOk result (λ status. (plan : PlanData) (key : Key) → IsPlan (texts words.now) plan
        → missing plan ≡ Some key → (status ≡ Status.UnknownType) ⊎ (status ≡ Status.NoMemory)) }

    ensures complete { IfOk result (λ status. (plan : PlanData) → IsPlan (texts words.now) plan → missing plan ≡ None
        → HasFront (I.remaining input) (IsValidStream plan.limits plan.columns)
        → (status ≡ Status.Copied) ⊎ (status ≡ Status.Outside) ⊎ (status ≡ Status.NoMemory)) }
    ensures no_memory { IfErr result (λ e. error_kind e ≡ ErrorKind.OutOfMemory) }
{
    let reader = BufReader::with_capacity(alloc, INPUT, Retrying { inner: input })?;
    let writer = BufWriter::with_capacity(
        alloc,
        OUTPUT,
        LentWriter {
            inner: output,
            passed: 0,
        },
    )?;
    let line = BufWriter::with_capacity(
        alloc,
        LINE,
        LentWriter {
            inner: errors,
            passed: 0,
        },
    )?;
    let mut source = BufReadSource::new(reader);
    let mut sink = FinalSink::new(writer);
    let mut notes = FinalSink::new(line);
    let status = run(alloc, words, &mut source, &mut sink, &mut notes);
    // Taken apart, each tells that it is still the writer that was lent.
    let LentWriter {
        inner: _output,
        passed: _,
    } = sink.finish();
    let LentWriter {
        inner: _errors,
        passed: _,
    } = notes.finish();
    Ok(status)
}

/// Writes a text to `output`. Where that fails, the line of a write fault goes to `errors`, with the status of one.
pub fn tell<O: Write, E: Write>(text: &str, output: &mut O, errors: &mut E) -> ExitCode {
    let mut output = LentWriter {
        inner: output,
        passed: 0,
    };
    let told = match output.write_all(text.as_bytes()) {
        Ok(()) => output.flush(),
        Err(error) => Err(error),
    };
    match told {
        Ok(()) => ExitCode::SUCCESS,
        Err(_) => {
            let mut errors = LentWriter {
                inner: errors,
                passed: 0,
            };
            let _ = errors.write_all(b"write fault\n");
            ExitCode::from(Status::Outside.code())
        }
    }
}

/// Tells on `errors` where to read how the program is used.
pub fn hint<E: Write>(errors: &mut E) {
    let mut errors = LentWriter {
        inner: errors,
        passed: 0,
    };
    let _ = errors.write_all(b"try pgcopy --help\n");
}

/// Tells on `errors` why there was no run.
pub fn explain<E: Write>(error: &Error, errors: &mut E) -> Status
    ensures no_memory { error_kind error.now ≡ ErrorKind.OutOfMemory → result ≡ Status.NoMemory }
    ensures words { error_kind error.now ≢ ErrorKind.OutOfMemory → result ≡ Status.Words }
{
    let mut errors = LentWriter {
        inner: errors,
        passed: 0,
    };
    if error.kind() == ErrorKind::OutOfMemory {
        let _ = errors.write_all(b"out of memory\n");
        Status::NoMemory
    } else {
        let _ = errors.write_all(b"arguments are not text\n");
        Status::Words
    }
}
