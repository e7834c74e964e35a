use crate::about::asked;
use crate::edge::{copy, explain, hint, tell};
use crate::report::Status;
use crate::test_runs::texts_of;
use std::alloc::{AllocError, Global};
use std::io::{Error, ErrorKind, Read, Result, Write};
use std::process::Abort;

// a stream of one row, the number 42
const ONE_ROW: &[u8] = b"PGCOPY\n\xff\r\n\0\0\0\0\0\0\0\0\0\0\x01\0\0\0\x04\0\0\0\x2a\xff\xff";

// the same row without an end
const CUT: &[u8] = b"PGCOPY\n\xff\r\n\0\0\0\0\0\0\0\0\0\0\x01\0\0\0\x04\0\0\0\x2a";

/// The most bytes that a read gives or a write takes.
const MOST: usize = 150000;

/// The kinds of errors that end a call. That of a call which a signal interrupted does not stand here.
const KINDS: [ErrorKind; 40] = [
    ErrorKind::BrokenPipe,
    ErrorKind::ConnectionReset,
    ErrorKind::TimedOut,
    ErrorKind::NotFound,
    ErrorKind::PermissionDenied,
    ErrorKind::ConnectionRefused,
    ErrorKind::HostUnreachable,
    ErrorKind::NetworkUnreachable,
    ErrorKind::ConnectionAborted,
    ErrorKind::NotConnected,
    ErrorKind::AddrInUse,
    ErrorKind::AddrNotAvailable,
    ErrorKind::NetworkDown,
    ErrorKind::AlreadyExists,
    ErrorKind::WouldBlock,
    ErrorKind::NotADirectory,
    ErrorKind::IsADirectory,
    ErrorKind::DirectoryNotEmpty,
    ErrorKind::ReadOnlyFilesystem,
    ErrorKind::FilesystemLoop,
    ErrorKind::StaleNetworkFileHandle,
    ErrorKind::InvalidInput,
    ErrorKind::InvalidData,
    ErrorKind::WriteZero,
    ErrorKind::StorageFull,
    ErrorKind::NotSeekable,
    ErrorKind::QuotaExceeded,
    ErrorKind::FileTooLarge,
    ErrorKind::ResourceBusy,
    ErrorKind::ExecutableFileBusy,
    ErrorKind::Deadlock,
    ErrorKind::CrossesDevices,
    ErrorKind::TooManyLinks,
    ErrorKind::InvalidFilename,
    ErrorKind::ArgumentListTooLong,
    ErrorKind::Unsupported,
    ErrorKind::UnexpectedEof,
    ErrorKind::OutOfMemory,
    ErrorKind::InProgress,
    ErrorKind::Other,
];

/// The place of no kind.
const NONE: usize = KINDS.len();

/// Which calls fail: so many, one after another, as a signal interrupts them, the first of them with the number `first`,
/// counted from 0, and then one in the kind at this place of `KINDS`, if there is one.
#[derive(Clone, Copy)]
struct Fails {
    first: usize,
    interrupted: usize,
    kind: usize,
}

/// No call fails.
const NEVER: Fails = Fails {
    first: 0,
    interrupted: 0,
    kind: NONE,
};

impl Fails {
    /// The kind in which the call with this number fails.
    fn kind_at(self, call: usize) -> Option<ErrorKind> {
        let behind = call.checked_sub(self.first)?;
        if behind < self.interrupted {
            Some(ErrorKind::Interrupted)
        } else if behind == self.interrupted {
            KINDS.get(self.kind).copied()
        } else {
            None
        }
    }
}

/// A reader whose calls fail as told.
#[derive(Drop)]
struct Reads<'a> {
    rest: &'a [u8],
    fails: Fails,
    calls: usize,
}

impl Read for Reads<'_> {
    fn read(&mut self, buf: &mut [u8]) -> Result<usize> {
        let call = self.calls;
        self.calls = call.saturating_add(1);
        if let Some(kind) = self.fails.kind_at(call) {
            return Err(Error::from(kind));
        }
        let len = buf.len().min(MOST);
        self.rest.read(&mut buf[..len])
    }
}

/// A writer whose calls, writes and flushes, fail as told.
#[derive(Drop)]
struct Writes<'a> {
    output: &'a mut Vec<u8>,
    fails: Fails,
    calls: usize,
}

impl Write for Writes<'_> {
    fn write(&mut self, buf: &[u8]) -> Result<usize> {
        let call = self.calls;
        self.calls = call.saturating_add(1);
        match self.fails.kind_at(call) {
            Some(kind) => Err(Error::from(kind)),
            None => self.output.write(&buf[..buf.len().min(MOST)]),
        }
    }

    fn flush(&mut self) -> Result<()> {
        let call = self.calls;
        self.calls = call.saturating_add(1);
        match self.fails.kind_at(call) {
            Some(kind) => Err(Error::from(kind)),
            None => Ok(()),
        }
    }
}

/// What a copy came to, and how many calls its streams got.
#[derive(Drop)]
struct Ended {
    status: Status,
    output: Vec<u8>,
    line: Vec<u8>,
    reads: usize,
    writes: usize,
    line_writes: usize,
}

/// Copies by these words, where the calls of the input and of the output fail as told.
fn ended_of(
    alloc: Global,
    words: &[&str],
    input: &[u8],
    read_fails: Fails,
    write_fails: Fails,
) -> Result<Ended> {
    let texts = texts_of(alloc, words)?;
    let mut output = Vec::new(alloc);
    let mut line = Vec::new(alloc);
    let mut reader = Reads {
        rest: input,
        fails: read_fails,
        calls: 0,
    };
    let mut writer = Writes {
        output: &mut output,
        fails: write_fails,
        calls: 0,
    };
    let mut errors = Writes {
        output: &mut line,
        fails: NEVER,
        calls: 0,
    };
    let status = copy(alloc, &texts, &mut reader, &mut writer, &mut errors)?;
    let (reads, writes, line_writes) = (reader.calls, writer.calls, errors.calls);
    Ok(Ended {
        status,
        output,
        line,
        reads,
        writes,
        line_writes,
    })
}

/// The same, with memory enough.
fn copy_on(
    rt: &impl Abort,
    alloc: Global,
    words: &[&str],
    input: &[u8],
    read_fails: Fails,
    write_fails: Fails,
) -> Ended {
    ended_of(alloc, words, input, read_fails, write_fails).expect(rt, "memory")
}

/// A stream of four rows of a text: the first is longer than the buffer of the input, the second than that of the output.
fn long_rows(alloc: Global) -> std::result::Result<Vec<u8>, AllocError> {
    let mut bytes = Vec::from_slice(alloc, &ONE_ROW[..19])?;
    for len in [300000u32, 70000, 3, 0] {
        bytes.extend_from_slice(b"\0\x01")?;
        bytes.extend_from_slice(&len.to_be_bytes())?;
        for _ in 0..len {
            bytes.push(b'a')?;
        }
    }
    bytes.extend_from_slice(b"\xff\xff")?;
    Ok(bytes)
}

/// How often a signal interrupts a call in these tests, before it is answered.
const OFTEN: usize = 2000;

/// A stream that is copied as it stands by these words, with this line.
#[derive(Clone, Copy)]
struct Stream<'a> {
    words: &'a [&'a str],
    bytes: &'a [u8],
    line: &'a [u8],
}

/// Lets each read fail in turn.
fn break_reads(rt: &impl Abort, alloc: Global, stream: Stream<'_>, fails: Fails) {
    let mut fails = fails;
    for first in 0..stream.bytes.len().div_ceil(MOST) {
        fails.first = first;
        let ended = copy_on(rt, alloc, stream.words, stream.bytes, fails, NEVER);
        let written = if first == 0 { 0 } else { 19 };
        let wanted = if fails.kind < NONE {
            let line = b"read fault\n".as_slice();
            (Status::Outside, line, &stream.bytes[..written])
        } else {
            (Status::Copied, stream.line, stream.bytes)
        };
        assert!(rt; (ended.status, ended.line.as_slice(), ended.output.as_slice()) == wanted);
    }
}

/// Lets each write and flush of the output fail in turn.
fn break_writes(rt: &impl Abort, alloc: Global, stream: Stream<'_>, fails: Fails) {
    let mut fails = fails;
    let clean = copy_on(rt, alloc, stream.words, stream.bytes, NEVER, NEVER);
    for first in 0..clean.writes {
        fails.first = first;
        let ended = copy_on(rt, alloc, stream.words, stream.bytes, NEVER, fails);
        let output = ended.output.as_slice();
        let wanted = if fails.kind < NONE {
            let front = &stream.bytes[..output.len().min(stream.bytes.len())];
            (Status::Outside, b"write fault\n".as_slice(), front)
        } else {
            (Status::Copied, stream.line, stream.bytes)
        };
        assert!(rt; (ended.status, ended.line.as_slice(), output) == wanted);
    }
}

/// Lets each call of the input and of the output fail in turn: as a signal interrupts it, so many times, and then in a
/// kind, if there is one.
fn break_calls(
    rt: &impl Abort,
    alloc: Global,
    stream: Stream<'_>,
    interrupted: usize,
    kind: usize,
) {
    let fails = Fails {
        first: 0,
        interrupted,
        kind,
    };
    break_reads(rt, alloc, stream, fails);
    break_writes(rt, alloc, stream, fails);
}

#[test]
fn a_call_that_fails_is_told_and_one_that_a_signal_interrupted_is_made_again(rt: HostRuntime) {
    let alloc = rt.alloc();
    let short = Stream {
        words: &["copy", "int4"],
        bytes: ONE_ROW,
        line: b"rows 1\n",
    };
    for kind in 0..NONE {
        break_calls(&rt, alloc, short, 0, kind);
    }
    break_calls(&rt, alloc, short, OFTEN, NONE);
    let rows = long_rows(alloc).expect(&rt, "memory");
    let long = Stream {
        words: &["copy", "text"],
        bytes: &rows,
        line: b"rows 4\n",
    };
    let clean = copy_on(&rt, alloc, long.words, &rows, NEVER, NEVER);
    assert!(rt; clean.reads == rows.len().div_ceil(MOST));
    for kind in 0..3 {
        break_calls(&rt, alloc, long, 2, kind);
    }
    break_calls(&rt, alloc, long, OFTEN, NONE);
}

// words, a stream, the status, the line, the output, and how many calls the input and the output get
const ENDS: [(&[&str], &[u8], Status, &[u8], &[u8], usize, usize); 3] = [
    (
        &["copy", "int4"],
        ONE_ROW,
        Status::Copied,
        b"rows 1\n",
        ONE_ROW,
        1,
        2,
    ),
    (
        &["copy", "int4"],
        CUT,
        Status::Refused,
        b"truncated\n",
        CUT,
        3,
        2,
    ),
    (
        &["copy"],
        ONE_ROW,
        Status::Words,
        b"word 1: missing type\n",
        b"",
        0,
        1,
    ),
];

// No read is made that is not needed. The line is written once and flushed. The output is flushed once, behind a refusal,
// too.
#[test]
fn what_came_of_a_copy_is_told(rt: HostRuntime) {
    for (words, input, status, line, output, reads, writes) in ENDS {
        let ended = copy_on(&rt, rt.alloc(), words, input, NEVER, NEVER);
        let told = (ended.status, ended.line.as_slice(), ended.output.as_slice());
        assert!(rt; told == (status, line, output));
        assert!(rt; (ended.reads, ended.writes, ended.line_writes) == (reads, writes, 2));
    }
}

#[test]
fn texts_beside_a_run_are_told(rt: HostRuntime) {
    let alloc = rt.alloc();
    let mut errors = Vec::<u8>::new(alloc);
    explain(&Error::from(ErrorKind::OutOfMemory), &mut errors);
    explain(&Error::from(ErrorKind::InvalidData), &mut errors);
    hint(&mut errors);
    let wanted = b"out of memory\narguments are not text\ntry pgcopy --help\n".as_slice();
    assert!(rt; errors.as_slice() == wanted);
}

// words, and what the text begins with that they ask for, if any
const ASKED: [(&[&str], &str); 5] = [
    (&["--help"], "usage: pgcopy copy "),
    (&["-h"], "usage: pgcopy copy "),
    (&["--version"], "pgcopy "),
    (&["copy", "--help"], ""),
    (&[], ""),
];

// A text is written and flushed. Each of the two calls fails in turn.
#[test]
fn help_is_asked_for_by_one_word(rt: HostRuntime) {
    let alloc = rt.alloc();
    for (given, begin) in ASKED {
        let words = texts_of(alloc, given).expect(&rt, "memory");
        let text = asked(&words).unwrap_or("");
        assert!(rt; text.starts_with(begin) && text.is_empty() == begin.is_empty());
    }
    for kind in 0..=NONE {
        for first in 0..3 {
            let mut output = Vec::new(alloc);
            let mut errors = Vec::<u8>::new(alloc);
            let mut writer = Writes {
                output: &mut output,
                fails: Fails {
                    first,
                    interrupted: 3,
                    kind,
                },
                calls: 0,
            };
            tell("text", &mut writer, &mut errors);
            let is_told = kind < NONE && first < 2;
            assert!(rt; errors.is_empty() != is_told);
            assert!(rt; b"write fault\n".starts_with(&errors));
            assert!(rt; is_told || output.as_slice() == b"text".as_slice());
        }
    }
}
