//! A copy has two ways: rows that stand whole in what a source shows, and rows that are read piece by piece. These tests
//! cut and break the calls of both sides at each place, so that each seam between the ways is met.

use crate::report::Status;
use crate::seam_cases::{CASES, Case, HEADER, NULL, NULL_TWO};
use crate::test_runs::{run_on, texts_of};
use pgw_wire::{BufReadSource, MemorySource, QuietSource, Sink, Source};
use std::alloc::{AllocError, Global};
use std::io;
use std::io::{BufReader, Error, ErrorKind, Read};
use std::process::Abort;

/// The number of a call that does not come.
const NEVER: u64 = u64::MAX;

/// More calls than any of the runs makes.
const CALLS: usize = 400;

/// A reader that gives at most so many bytes a read, and whose read with the number `fail`, counted from 0, fails.
#[derive(Drop)]
struct Pieces<'a> {
    rest: &'a [u8],
    most: usize,
    fail: u64,
    calls: u64,
}

impl Read for Pieces<'_> {
    fn read(&mut self, buf: &mut [u8]) -> io::Result<usize> {
        let call = self.calls;
        self.calls = call.saturating_add(1);
        if call == self.fail {
            return Err(Error::from(ErrorKind::Other));
        }
        let len = buf.len().min(self.most);
        self.rest.read(&mut buf[..len])
    }
}

/// How many bytes the calls move at most, and the numbers of the calls that fail, counted from 0.
#[derive(Clone, Copy)]
struct Calls {
    read_most: usize,
    read_fail: u64,
    write_most: usize,
    write_fail: u64,
}

/// A case, and what it is run on.
#[derive(Drop)]
struct Prepared {
    case: Case,
    words: Vec<String>,
    input: Vec<u8>,
    output: Vec<u8>,
}

/// Makes what a case is run on.
fn prepare(alloc: Global, case: Case) -> Result<Prepared, AllocError> {
    Ok(Prepared {
        case,
        words: texts_of(alloc, case.words)?,
        input: case.input(alloc)?,
        output: case.output(alloc)?,
    })
}

/// The cuts by which each call moves at most so many bytes.
fn cuts_of(alloc: Global, most: usize) -> Result<Vec<usize>, AllocError> {
    match most {
        1 => [1; CALLS].to_vec(alloc),
        7 => [7; CALLS].to_vec(alloc),
        _ => Ok(Vec::new(alloc)),
    }
}

/// How many bytes a source still has. A read that fails is made again.
fn left_of<S: Source>(source: &mut S) -> usize {
    let mut left = 0usize;
    let mut buf = [0; 512];
    for _ in 0..CALLS {
        match source.read(&mut buf) {
            Ok(0) => return left,
            Ok(n) => left = left.saturating_add(n),
            Err(_) => {}
        }
    }
    left
}

/// The status and the line of a run in which a read failed, or a call of the sink, or none.
fn told(case: &Case, read_failed: bool, write_failed: bool) -> (Status, &'static [u8]) {
    if read_failed {
        return (Status::Outside, b"read fault\n");
    }
    if write_failed {
        return (Status::Outside, b"write fault\n");
    }
    (case.status, case.line)
}

/// Whether a read is needed behind so many bytes: they are not all that is taken, or the stream is cut there.
fn is_needed(case: &Case, taken: usize) -> bool {
    taken < case.taken_at(usize::MAX) || case.line == b"truncated\n".as_slice()
}

/// Runs on the source, looks at all that came of it, and answers whether a call failed.
fn check_on<S: Source>(
    rt: &impl Abort,
    alloc: Global,
    prepared: &Prepared,
    source: &mut S,
    calls: Calls,
) -> bool {
    let cuts = cuts_of(alloc, calls.write_most).expect(rt, "memory");
    let fail = calls.write_fail;
    let ended = run_on(alloc, &prepared.words, source, cuts, fail).expect(rt, "memory");
    let read_failed = source.faults() > 0;
    let write_failed = ended.output.faults() > 0;
    let written = ended.output.gained().len();
    let taken = prepared.input.len().saturating_sub(left_of(source));
    let case = &prepared.case;
    let wanted = if read_failed {
        (case.written_at(taken), taken)
    } else {
        (written, case.taken_at(written))
    };
    assert_eq!(rt;
        (ended.status, ended.line.gained()),
        told(case, read_failed, write_failed)
    );
    assert_eq!(rt; (written, taken), wanted);
    assert!(rt; read_failed || write_failed || written == prepared.output.len());
    assert!(rt; !read_failed || is_needed(case, taken));
    assert!(rt; prepared.output.starts_with(ended.output.gained()));
    read_failed | write_failed
}

/// What a case is run over: a source that shows no bytes, one that shows all, or one that shows what stands in its buffer
/// of so many bytes.
#[derive(Clone, Copy)]
enum Over {
    Memory,
    Quiet,
    Buffer(usize),
}

/// Runs over such a source.
fn run_over(rt: &impl Abort, alloc: Global, prepared: &Prepared, over: Over, calls: Calls) -> bool {
    match over {
        Over::Memory => {
            let bytes = prepared.input.to_vec(alloc).expect(rt, "memory");
            let cuts = cuts_of(alloc, calls.read_most).expect(rt, "memory");
            let fails = [calls.read_fail].to_vec(alloc).expect(rt, "memory");
            let mut source = MemorySource::new(bytes, cuts, fails);
            check_on(rt, alloc, prepared, &mut source, calls)
        }
        Over::Quiet => {
            let bytes = prepared.input.to_vec(alloc).expect(rt, "memory");
            let mut source = QuietSource::new(bytes);
            check_on(rt, alloc, prepared, &mut source, calls)
        }
        Over::Buffer(capacity) => {
            let pieces = Pieces {
                rest: &prepared.input,
                most: calls.read_most,
                fail: calls.read_fail,
                calls: 0,
            };
            let reader = BufReader::with_capacity(alloc, capacity, pieces).expect(rt, "memory");
            let mut source = BufReadSource::new(reader);
            check_on(rt, alloc, prepared, &mut source, calls)
        }
    }
}

/// Which call fails.
#[derive(Clone, Copy)]
enum Failing {
    Read,
    Write,
}

/// The calls of which the one with this number fails, a read, or a write or flush. Each moves at most so many bytes.
fn calls_of(failing: Failing, most: usize, call: u64) -> Calls {
    match failing {
        Failing::Read => Calls {
            read_most: most,
            read_fail: call,
            write_most: 4096,
            write_fail: NEVER,
        },
        Failing::Write => Calls {
            read_most: 4096,
            read_fail: NEVER,
            write_most: most,
            write_fail: call,
        },
    }
}

/// Lets each read of each case fail in turn, or each write and flush. Each moves at most so many bytes.
fn break_calls(rt: &impl Abort, alloc: Global, over: Over, failing: Failing, most: usize) {
    for case in CASES {
        let prepared = prepare(alloc, case).expect(rt, "memory");
        let mut failed = true;
        for call in 0..CALLS {
            if failed {
                let calls = calls_of(failing, most, call as u64);
                failed = run_over(rt, alloc, &prepared, over, calls);
            }
        }
        assert!(rt; !failed);
    }
}

// The sink has the header and the rows that were taken whole. Each read fills the buffer, where there is one, or a part.
#[test]
fn failed_read_is_told(rt: HostRuntime) {
    for most in [1, 7, 4096] {
        break_calls(&rt, rt.alloc(), Over::Memory, Failing::Read, most);
    }
    for capacity in 0..41 {
        break_calls(&rt, rt.alloc(), Over::Buffer(capacity), Failing::Read, 4096);
    }
    for (capacity, most) in [
        (2, 1),
        (40, 1),
        (8, 7),
        (20, 7),
        (40, 7),
        (40, 33),
        (4096, 50),
    ] {
        break_calls(&rt, rt.alloc(), Over::Buffer(capacity), Failing::Read, most);
    }
}

// What is left of the source begins behind the row in which the sink failed.
#[test]
fn failed_write_is_told(rt: HostRuntime) {
    for most in [1, 7, 4096] {
        break_calls(&rt, rt.alloc(), Over::Memory, Failing::Write, most);
        break_calls(&rt, rt.alloc(), Over::Quiet, Failing::Write, most);
    }
    for capacity in 0..41 {
        break_calls(&rt, rt.alloc(), Over::Buffer(capacity), Failing::Write, 7);
    }
    for capacity in [1, 17, 31, 40] {
        break_calls(&rt, rt.alloc(), Over::Buffer(capacity), Failing::Write, 1);
    }
}

// The first read gives exactly the bytes that suffice, and the second fails: it is made only where they end too early.
#[test]
fn no_read_is_made_behind_the_bytes_that_suffice(rt: HostRuntime) {
    let alloc = rt.alloc();
    for case in CASES {
        let prepared = prepare(alloc, case).expect(&rt, "memory");
        let calls = calls_of(Failing::Read, case.taken_at(usize::MAX), 1);
        let is_cut = case.line == b"truncated\n".as_slice();
        assert!(rt; run_over(&rt, alloc, &prepared, Over::Buffer(4096), calls) == is_cut);
    }
}

/// The status, and how many bytes are written and taken of a source that shows all, where each write takes one, and the sink
/// fails behind so many.
fn moved_behind(
    alloc: Global,
    case: Case,
    written: usize,
) -> Result<(Status, usize, usize), AllocError> {
    let prepared = prepare(alloc, case)?;
    let mut source = QuietSource::new(prepared.input.to_vec(alloc)?);
    let cuts = cuts_of(alloc, 1)?;
    let fail = written as u64;
    let ended = run_on(alloc, &prepared.words, &mut source, cuts, fail)?;
    let taken = prepared.input.len().saturating_sub(left_of(&mut source));
    Ok((ended.status, ended.output.gained().len(), taken))
}

// how many bytes the sink gets before it fails, and how many are taken then, of four rows that are canonical as they stand
const AS_THEY_STAND: [(usize, usize); 12] = [
    (0, 19),
    (18, 19),
    (19, 35),
    (34, 35),
    (35, 49),
    (48, 49),
    (49, 63),
    (62, 63),
    (63, 79),
    (78, 79),
    (79, 81),
    (81, 81),
];

// the same of four rows that are spelled otherwise
const SPELLED_OTHERWISE: [(usize, usize); 11] = [
    (18, 19),
    (19, 42),
    (34, 42),
    (35, 61),
    (48, 61),
    (49, 85),
    (64, 85),
    (65, 108),
    (80, 108),
    (81, 110),
    (82, 110),
];

#[test]
fn rows_through_the_one_in_which_the_sink_failed_are_taken(rt: HostRuntime) {
    let alloc = rt.alloc();
    for (written, taken) in AS_THEY_STAND {
        assert_eq!(rt;
            moved_behind(alloc, CASES[1], written),
            Ok((Status::Outside, written, taken))
        );
    }
    for (written, taken) in SPELLED_OTHERWISE {
        assert_eq!(rt;
            moved_behind(alloc, CASES[3], written),
            Ok((Status::Outside, written, taken))
        );
    }
}

/// A header and so many times the row, and what stands behind them.
fn repeated(alloc: Global, row: &[u8], many: usize, tail: &[u8]) -> Result<Vec<u8>, AllocError> {
    let mut bytes = Vec::from_slice(alloc, HEADER)?;
    for _ in 0..many {
        bytes.extend_from_slice(row)?;
    }
    bytes.extend_from_slice(tail)?;
    Ok(bytes)
}

/// Copies so many rows of which the null has another length, where the sink's call with this number fails. Answers whether
/// what is written is a front of the canonical stream and the line is this one, the status, and how many bytes are written
/// and left.
fn respell_many(
    alloc: Global,
    many: usize,
    fail: u64,
    line: &[u8],
) -> Result<(bool, Status, usize, usize), AllocError> {
    let prepared = prepare(alloc, CASES[2])?;
    let output = repeated(alloc, NULL, many, b"\xff\xff")?;
    let mut source = QuietSource::new(repeated(alloc, NULL_TWO, many, b"\xff\xff")?);
    let cuts = Vec::new(alloc);
    let ended = run_on(alloc, &prepared.words, &mut source, cuts, fail)?;
    let written = ended.output.gained();
    let is_told = output.starts_with(written) && ended.line.gained() == line;
    Ok((is_told, ended.status, written.len(), left_of(&mut source)))
}

// The rows have 42000 bytes, and the canonical ones too: more than are spelled before some are written.
#[test]
fn many_rows_that_are_spelled_otherwise_are_copied(rt: HostRuntime) {
    let alloc = rt.alloc();
    assert_eq!(rt;
        respell_many(alloc, 3000, NEVER, b"rows 3000\n"),
        Ok((true, Status::Copied, 42021, 0))
    );
    let failed = respell_many(alloc, 3000, 2, b"write fault\n").expect(&rt, "memory");
    let (is_told, status, written, left) = failed;
    // The sink failed in front of a row, which was taken.
    assert_eq!(rt;
        (is_told, status, written % 14, written.saturating_add(left)),
        (true, Status::Outside, 19 % 14, 42021 - 14)
    );
}
