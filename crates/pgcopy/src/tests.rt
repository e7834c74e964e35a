ghost use Rattle.std.specs.Prelude.{◌≤◌};

use crate::report::Status;
use crate::test_runs::{Ended, run_on, texts_of};
use pgw_wire::{MemorySource, Sink, Source};
use std::alloc::{AllocError, Global};
use std::process::Abort;

// a header without flags and extension
const HEADER: &[u8] = b"PGCOPY\n\xff\r\n\0\0\0\0\0\0\0\0\0";

// a stream of no rows
const EMPTY: &[u8] = b"PGCOPY\n\xff\r\n\0\0\0\0\0\0\0\0\0\xff\xff";

// a stream of one row, the number 42
const ONE_ROW: &[u8] = b"PGCOPY\n\xff\r\n\0\0\0\0\0\0\0\0\0\0\x01\0\0\0\x04\0\0\0\x2a\xff\xff";

// the same without its end
const CUT: &[u8] = b"PGCOPY\n\xff\r\n\0\0\0\0\0\0\0\0\0\0\x01\0\0\0\x04\0\0\0\x2a";

// the rows 42 and 43
const TWO_ROWS: &[u8] =
    b"PGCOPY\n\xff\r\n\0\0\0\0\0\0\0\0\0\0\x01\0\0\0\x04\0\0\0\x2a\0\x01\0\0\0\x04\0\0\0\x2b\xff\xff";

// the row 42, with two fields more
const SURPLUS: &[u8] =
    b"PGCOPY\n\xff\r\n\0\0\0\0\0\0\0\0\0\0\x03\0\0\0\x04\0\0\0\x2a\xff\xff\xff\xff\0\0\0\x01\xaa\xff\xff";

// two bytes behind the end of a stream
const BEHIND: &[u8] =
    b"PGCOPY\n\xff\r\n\0\0\0\0\0\0\0\0\0\0\x01\0\0\0\x04\0\0\0\x2a\xff\xff\xaa\xbb";

// a null and the number 7
const NULL_FIRST: &[u8] =
    b"PGCOPY\n\xff\r\n\0\0\0\0\0\0\0\0\0\0\x02\xff\xff\xff\xff\0\0\0\x04\0\0\0\x07\xff\xff";

// the same row, its null with the length -2
const NULL_RESPELLED: &[u8] =
    b"PGCOPY\n\xff\r\n\0\0\0\0\0\0\0\0\0\0\x02\xff\xff\xff\xfe\0\0\0\x04\0\0\0\x07\xff\xff";

// the row 42, behind a header with a flag and an extension
const EXTENDED: &[u8] =
    b"PGCOPY\n\xff\r\n\0\0\0\0\x01\0\0\0\x05extra\0\x01\0\0\0\x04\0\0\0\x2a\xff\xff";

// two rows of texts
const TEXTS: &[u8] =
    b"PGCOPY\n\xff\r\n\0\0\0\0\0\0\0\0\0\0\x02\0\0\0\x02\xc3\xa9\0\0\0\0\0\x02\0\0\0\x01a\xff\xff\xff\xff\xff\xff";

// a row of two fields, and the count of another
const SHORT: &[u8] =
    b"PGCOPY\n\xff\r\n\0\0\0\0\0\0\0\0\0\0\x02\0\0\0\x04\0\0\0\x2a\xff\xff\xff\xff\0\x01";

// the row 42, and one of a null
const NULL_BEHIND: &[u8] =
    b"PGCOPY\n\xff\r\n\0\0\0\0\0\0\0\0\0\0\x01\0\0\0\x04\0\0\0\x2a\0\x01\xff\xff\xff\xff\xff\xff";

// a signature with another letter
const OTHER: &[u8] = b"PGCOPX\n\xff\r\n\0\0\0\0\0\0\0\0\0\xff\xff";

// a flag of the high half
const FLAGS: &[u8] = b"PGCOPY\n\xff\r\n\0\0\x01\0\0\0\0\0\0\xff\xff";

// an extension of the length -1
const EXTENSION: &[u8] = b"PGCOPY\n\xff\r\n\0\0\0\0\0\xff\xff\xff\xff\xff\xff";

// the count -2
const COUNT: &[u8] = b"PGCOPY\n\xff\r\n\0\0\0\0\0\0\0\0\0\xff\xfe";

// a text of three bytes
const LONG: &[u8] = b"PGCOPY\n\xff\r\n\0\0\0\0\0\0\0\0\0\0\x01\0\0\0\x03abc\xff\xff";

// a null
const NULL: &[u8] = b"PGCOPY\n\xff\r\n\0\0\0\0\0\0\0\0\0\0\x01\xff\xff\xff\xff";

// an int4 of three bytes, and one of five
const THREE: &[u8] = b"PGCOPY\n\xff\r\n\0\0\0\0\0\0\0\0\0\0\x01\0\0\0\x03\0\0\x2a";

const FIVE: &[u8] = b"PGCOPY\n\xff\r\n\0\0\0\0\0\0\0\0\0\0\x01\0\0\0\x05\0\0\0\x2a\0";

// a text that is not UTF-8
const WRONG_TEXT: &[u8] = b"PGCOPY\n\xff\r\n\0\0\0\0\0\0\0\0\0\0\x01\0\0\0\x02\xc3\x28";

// a bool, which is true
const BOOL: &[u8] = b"PGCOPY\n\xff\r\n\0\0\0\0\0\0\0\0\0\0\x01\0\0\0\x01\x01\xff\xff";

// the same, with another byte for true and two bytes behind it
const BOOL_RESPELLED: &[u8] =
    b"PGCOPY\n\xff\r\n\0\0\0\0\0\0\0\0\0\0\x01\0\0\0\x03\x02\xaa\xbb\xff\xff";

// a field of no byte
const NO_BYTE: &[u8] = b"PGCOPY\n\xff\r\n\0\0\0\0\0\0\0\0\0\0\x01\0\0\0\0";

// a field of each type, the last of them null
const EACH_TYPE: &[u8] = b"PGCOPY\n\xff\r\n\0\0\0\0\0\0\0\0\0\
    \0\x0d\0\0\0\x01\x01\0\0\0\x01A\0\0\0\x02\xff\xff\0\0\0\x04\0\0\0*\0\0\0\x08\0\0\0\0\0\0\0\x01\0\
    \0\0\x04\0\0a\xa8\0\0\0\x04Sean\0\0\0\x02\0\xff\0\0\0\x10\xff\xff\xff\xff\xff\xff\xff\xffabcdef1\
    2\0\0\0\x08\xff\xff\xff\xff\xff\xff\xff\x85\0\0\0\x08RT\0\xfb\xc6\x16\x17\xff\0\0\0\x06RT\0\xfb\
    \xc6\x16\xff\xff\xff\xff\xff\xff";

// the same row, with bytes behind the first, second and sixth value, and a null of the length -2
const EACH_RESPELLED: &[u8] = b"PGCOPY\n\xff\r\n\0\0\0\0\0\0\0\0\0\
    \0\x0d\0\0\0\x03\x02\xaa\xbb\0\0\0\x02AB\0\0\0\x02\xff\xff\0\0\0\x04\0\0\0*\0\0\0\x08\0\0\0\0\0\
    \0\0\x01\0\0\0\x05\0\0a\xa8\xff\0\0\0\x04Sean\0\0\0\x02\0\xff\0\0\0\x10\xff\xff\xff\xff\xff\xff\
    \xff\xffabcdef12\0\0\0\x08\xff\xff\xff\xff\xff\xff\xff\x85\0\0\0\x08RT\0\xfb\xc6\x16\x17\xff\0\0\
    \0\x06RT\0\xfb\xc6\x16\xff\xff\xff\xfe\xff\xff";

/// The number of a call that does not come.
const NEVER: u64 = u64::MAX;

/// What a run is on, and what has to come of it.
#[derive(Clone, Copy)]
struct Run<'a> {
    words: &'a [&'a str],
    input: &'a [u8],
    /// The number of the read that fails, counted from 0. The reads are the header, then of each row its count, and of each
    /// field its length and its bytes.
    read_fail: u64,
    /// The number of the sink's call that fails. They are the header, each row, the end and the flush.
    write_fail: u64,
    status: Status,
    line: &'a [u8],
    output: &'a [u8],
    /// How many bytes are taken.
    taken: usize,
}

/// Runs, each read and write by at most so many bytes as `cuts` says. Also answers how many bytes are taken, and how many
/// reads failed.
fn ended_of(alloc: Global, on: Run<'_>, cuts: &[usize]) -> Result<(Ended, usize, u64), AllocError> {
    let words = texts_of(alloc, on.words)?;
    let fails = [on.read_fail].to_vec(alloc)?;
    let mut source = MemorySource::new(on.input.to_vec(alloc)?, cuts.to_vec(alloc)?, fails);
    let ended = run_on(
        alloc,
        &words,
        &mut source,
        cuts.to_vec(alloc)?,
        on.write_fail,
    )?;
    Ok((ended, source.taken(), source.faults()))
}

/// Runs, and fails where something else comes of it. A call fails just where the line tells that one did.
fn assert_run(rt: &impl Abort, alloc: Global, wanted: Run<'_>, cuts: &[usize]) {
    let (ended, taken, read_faults) = ended_of(alloc, wanted, cuts).expect(rt, "memory");
    let wanted_faults = (
        u64::from(wanted.line == b"read fault\n".as_slice()),
        u64::from(wanted.line == b"write fault\n".as_slice()),
    );
    assert_eq!(rt; (read_faults, ended.output.faults()), wanted_faults);
    assert_eq!(rt;
        (
            ended.status,
            ended.line.gained(),
            ended.output.gained(),
            taken
        ),
        (wanted.status, wanted.line, wanted.output, wanted.taken)
    );
}

// what runs come to
const RUNS: [Run<'static>; 34] = [
    // what is copied
    Run {
        words: &["copy", "rows=1", "int4"],
        input: EXTENDED,
        read_fail: NEVER,
        write_fail: NEVER,
        status: Status::Copied,
        line: b"rows 1\n",
        output: ONE_ROW,
        taken: 36,
    },
    Run {
        words: &["copy", "oid=citext:16400:16405", "int4"],
        input: SURPLUS,
        read_fail: NEVER,
        write_fail: NEVER,
        status: Status::Copied,
        line: b"rows 1\n",
        output: ONE_ROW,
        taken: 40,
    },
    Run {
        words: &["copy", "int4"],
        input: BEHIND,
        read_fail: NEVER,
        write_fail: NEVER,
        status: Status::Copied,
        line: b"rows 1\n",
        output: ONE_ROW,
        taken: 31,
    },
    Run {
        words: &["copy", "int4?", "int4"],
        input: NULL_RESPELLED,
        read_fail: NEVER,
        write_fail: NEVER,
        status: Status::Copied,
        line: b"rows 1\n",
        output: NULL_FIRST,
        taken: 35,
    },
    Run {
        words: &["copy", "bool"],
        input: BOOL_RESPELLED,
        read_fail: NEVER,
        write_fail: NEVER,
        status: Status::Copied,
        line: b"rows 1\n",
        output: BOOL,
        taken: 30,
    },
    Run {
        words: &[
            "copy",
            "bool",
            "char",
            "int2",
            "int4",
            "int8",
            "oid?",
            "text",
            "bytea",
            "uuid",
            "money",
            "pg_lsn",
            "macaddr",
            "macaddr8?",
        ],
        input: EACH_RESPELLED,
        read_fail: NEVER,
        write_fail: NEVER,
        status: Status::Copied,
        line: b"rows 1\n",
        output: EACH_TYPE,
        taken: 143,
    },
    Run {
        words: &["copy", "rows=0", "int4"],
        input: EMPTY,
        read_fail: NEVER,
        write_fail: NEVER,
        status: Status::Copied,
        line: b"rows 0\n",
        output: EMPTY,
        taken: 21,
    },
    Run {
        words: &["copy", "field=2", "rows=2", "text", "text?"],
        input: TEXTS,
        read_fail: NEVER,
        write_fail: NEVER,
        status: Status::Copied,
        line: b"rows 2\n",
        output: TEXTS,
        taken: 44,
    },
    // No call is made that is not needed: the next of each side would fail.
    Run {
        words: &["copy", "int4"],
        input: ONE_ROW,
        read_fail: 5,
        write_fail: 4,
        status: Status::Copied,
        line: b"rows 1\n",
        output: ONE_ROW,
        taken: 31,
    },
    Run {
        words: &["copy", "int4", "int4", "int4"],
        input: SHORT,
        read_fail: 5,
        write_fail: NEVER,
        status: Status::Refused,
        line: b"row 0: too few fields\n",
        output: HEADER,
        taken: 33,
    },
    Run {
        words: &["copy", "int4"],
        input: NULL_BEHIND,
        read_fail: 6,
        write_fail: NEVER,
        status: Status::Refused,
        line: b"row 1 column 0: null\n",
        output: CUT,
        taken: 35,
    },
    Run {
        words: &["copy", "int4"],
        input: CUT,
        read_fail: 5,
        write_fail: NEVER,
        status: Status::Refused,
        line: b"truncated\n",
        output: CUT,
        taken: 29,
    },
    Run {
        words: &["copy", "int4"],
        input: OTHER,
        read_fail: 1,
        write_fail: NEVER,
        status: Status::Refused,
        line: b"bad header\n",
        output: b"",
        taken: 19,
    },
    // a call that fails
    Run {
        words: &["copy", "int4"],
        input: TWO_ROWS,
        read_fail: 2,
        write_fail: NEVER,
        status: Status::Outside,
        line: b"read fault\n",
        output: HEADER,
        taken: 21,
    },
    Run {
        words: &["copy", "int4"],
        input: TWO_ROWS,
        read_fail: 5,
        write_fail: NEVER,
        status: Status::Outside,
        line: b"read fault\n",
        output: CUT,
        taken: 31,
    },
    Run {
        words: &["copy", "int4"],
        input: TWO_ROWS,
        read_fail: NEVER,
        write_fail: 2,
        status: Status::Outside,
        line: b"write fault\n",
        output: CUT,
        taken: 39,
    },
    Run {
        words: &["copy", "int4"],
        input: TWO_ROWS,
        read_fail: NEVER,
        write_fail: 4,
        status: Status::Outside,
        line: b"write fault\n",
        output: TWO_ROWS,
        taken: 41,
    },
    // what is no stream of the columns, or exceeds a limit
    Run {
        words: &["copy", "bool?"],
        input: NO_BYTE,
        read_fail: NEVER,
        write_fail: NEVER,
        status: Status::Refused,
        line: b"row 0 column 0: size\n",
        output: HEADER,
        taken: 25,
    },
    Run {
        words: &["copy", "int4"],
        input: FLAGS,
        read_fail: NEVER,
        write_fail: NEVER,
        status: Status::Refused,
        line: b"bad flags 00010000\n",
        output: b"",
        taken: 19,
    },
    Run {
        words: &["copy", "int4"],
        input: EXTENSION,
        read_fail: NEVER,
        write_fail: NEVER,
        status: Status::Refused,
        line: b"bad header\n",
        output: b"",
        taken: 19,
    },
    Run {
        words: &["copy", "int4"],
        input: COUNT,
        read_fail: NEVER,
        write_fail: NEVER,
        status: Status::Refused,
        line: b"bad field count -2\n",
        output: HEADER,
        taken: 21,
    },
    Run {
        words: &["copy", "field=2", "text"],
        input: LONG,
        read_fail: NEVER,
        write_fail: NEVER,
        status: Status::Refused,
        line: b"row 0 column 0: too long\n",
        output: HEADER,
        taken: 28,
    },
    Run {
        words: &["copy", "rows=0", "int4"],
        input: ONE_ROW,
        read_fail: NEVER,
        write_fail: NEVER,
        status: Status::Refused,
        line: b"row limit\n",
        output: HEADER,
        taken: 21,
    },
    Run {
        words: &["copy", "int4"],
        input: NULL,
        read_fail: NEVER,
        write_fail: NEVER,
        status: Status::Refused,
        line: b"row 0 column 0: null\n",
        output: HEADER,
        taken: 25,
    },
    Run {
        words: &["copy", "text"],
        input: NULL,
        read_fail: NEVER,
        write_fail: NEVER,
        status: Status::Refused,
        line: b"row 0 column 0: null\n",
        output: HEADER,
        taken: 25,
    },
    Run {
        words: &["copy", "int4"],
        input: THREE,
        read_fail: NEVER,
        write_fail: NEVER,
        status: Status::Refused,
        line: b"row 0 column 0: size\n",
        output: HEADER,
        taken: 28,
    },
    Run {
        words: &["copy", "int4?"],
        input: FIVE,
        read_fail: NEVER,
        write_fail: NEVER,
        status: Status::Refused,
        line: b"row 0 column 0: size\n",
        output: HEADER,
        taken: 30,
    },
    Run {
        words: &["copy", "text?"],
        input: WRONG_TEXT,
        read_fail: NEVER,
        write_fail: NEVER,
        status: Status::Refused,
        line: b"row 0 column 0: utf8\n",
        output: HEADER,
        taken: 27,
    },
    // words that are wrong
    Run {
        words: &[],
        input: ONE_ROW,
        read_fail: NEVER,
        write_fail: NEVER,
        status: Status::Words,
        line: b"word 0: missing command\n",
        output: b"",
        taken: 0,
    },
    Run {
        words: &["copy"],
        input: ONE_ROW,
        read_fail: NEVER,
        write_fail: NEVER,
        status: Status::Words,
        line: b"word 1: missing type\n",
        output: b"",
        taken: 0,
    },
    Run {
        words: &["copy", "int9"],
        input: ONE_ROW,
        read_fail: NEVER,
        write_fail: NEVER,
        status: Status::Words,
        line: b"word 1: bad type at 0\n",
        output: b"",
        taken: 0,
    },
    Run {
        words: &["cpy"],
        input: ONE_ROW,
        read_fail: NEVER,
        write_fail: NEVER,
        status: Status::Words,
        line: b"word 0: unknown command\n",
        output: b"",
        taken: 0,
    },
    Run {
        words: &["copy", "rows=x", "int4"],
        input: ONE_ROW,
        read_fail: NEVER,
        write_fail: NEVER,
        status: Status::Words,
        line: b"word 1: bad number\n",
        output: b"",
        taken: 0,
    },
    Run {
        words: &["copy", "rows=1", "rows=2", "int4"],
        input: ONE_ROW,
        read_fail: NEVER,
        write_fail: NEVER,
        status: Status::Words,
        line: b"word 2: repeated option\n",
        output: b"",
        taken: 0,
    },
];

#[test]
fn runs_end_as_they_have_to(rt: HostRuntime) {
    for wanted in RUNS {
        assert_run(&rt, rt.alloc(), wanted, &[]);
    }
}

/// How many bytes of two rows are written where so many of them are there, and no end of the second row.
fn written_of(len: usize) -> usize
    ensures { result ≤ 29 }
{
    match len {
        0..19 => 0,
        19..29 => 19,
        _ => 29,
    }
}

// Each read gives one byte, and each write takes one. With a limit of one row the count of the second is refused.
#[test]
fn a_stream_that_is_cut_anywhere_is_refused(rt: HostRuntime) {
    let alloc = rt.alloc();
    for len in 0..42 {
        let input = &TWO_ROWS[..len];
        let output = &TWO_ROWS[..written_of(len)];
        let cut = Run {
            words: &["copy", "int4"],
            input,
            read_fail: NEVER,
            write_fail: NEVER,
            status: Status::Refused,
            line: b"truncated\n",
            output,
            taken: len,
        };
        if len < 39 {
            assert_run(&rt, alloc, cut, &[1; 80]);
        }
        let line = if len < 31 {
            b"truncated\n".as_slice()
        } else {
            b"row limit\n".as_slice()
        };
        let limited = Run {
            words: &["copy", "rows=1", "int4"],
            input,
            read_fail: NEVER,
            write_fail: NEVER,
            status: Status::Refused,
            line,
            output,
            taken: len.min(31),
        };
        assert_run(&rt, alloc, limited, &[1; 80]);
    }
}
