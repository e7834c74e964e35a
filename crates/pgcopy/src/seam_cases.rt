//! Streams of rows of the columns int4 and text?, and what has to come of them, worked by hand from the format.

use crate::report::Status;
use std::alloc::{AllocError, Global};

/// A header or a row: as it stands in the stream, and in its canonical form.
pub type Part = (&'static [u8], &'static [u8]);

/// The words that name the columns.
const WORDS: &[&str] = &["copy", "int4", "text?"];

/// A header without flags and extension.
pub const HEADER: &[u8] = b"PGCOPY\n\xff\r\n\0\0\0\0\0\0\0\0\0";

/// A header with a low flag and an extension of five bytes.
const EXTENDED: &[u8] = b"PGCOPY\n\xff\r\n\0\0\0\0\x01\0\0\0\x05extra";

/// The row 7, "hi".
const SEVEN: &[u8] = b"\0\x02\0\0\0\x04\0\0\0\x07\0\0\0\x02hi";

/// That row with one field more, and with two.
const SEVEN_AND_ONE: &[u8] = b"\0\x03\0\0\0\x04\0\0\0\x07\0\0\0\x02hi\0\0\0\x03xyz";

const SEVEN_AND_TWO: &[u8] = b"\0\x04\0\0\0\x04\0\0\0\x07\0\0\0\x02hi\xff\xff\xff\xff\0\0\0\0";

/// The row -2, null.
pub const NULL: &[u8] = b"\0\x02\0\0\0\x04\xff\xff\xff\xfe\xff\xff\xff\xff";

/// That row with the null's length -2, -2147483648, and -256 with a field more.
pub const NULL_TWO: &[u8] = b"\0\x02\0\0\0\x04\xff\xff\xff\xfe\xff\xff\xff\xfe";

const NULL_LEAST: &[u8] = b"\0\x02\0\0\0\x04\xff\xff\xff\xfe\x80\0\0\0";

const NULL_AND_ONE: &[u8] = b"\0\x03\0\0\0\x04\xff\xff\xff\xfe\xff\xff\xff\0\0\0\0\x01z";

/// The row -2147483648, "".
const LEAST: &[u8] = b"\0\x02\0\0\0\x04\x80\0\0\0\0\0\0\0";

/// A row of a text of sixty bytes, and that row with a field more.
const LONG: &[u8] =
    b"\0\x02\0\0\0\x04\0\0\0\x01\0\0\0\x3c0123456789abcdefghijklmnopqrstuvwxyzABCDEFGHIJKLMNOPQRSTUVWX";

const LONG_AND_ONE: &[u8] =
    b"\0\x03\0\0\0\x04\0\0\0\x01\0\0\0\x3c0123456789abcdefghijklmnopqrstuvwxyzABCDEFGHIJKLMNOPQRSTUVWX\0\0\0\x01?";

/// A stream, the words that it is copied by, and what has to come of it.
#[derive(Clone, Copy)]
pub struct Case {
    pub words: &'static [&'static str],
    /// The header and the rows that are copied.
    pub parts: &'static [Part],
    /// What stands behind them.
    pub tail: &'static [u8],
    /// How many bytes of the tail are taken.
    pub taken: usize,
    pub status: Status,
    pub line: &'static [u8],
}

/// Streams that are copied, and streams that are refused behind some rows.
pub const CASES: [Case; 14] = [
    Case {
        words: WORDS,
        parts: &[(HEADER, HEADER)],
        tail: b"\xff\xff",
        taken: 2,
        status: Status::Copied,
        line: b"rows 0\n",
    },
    // canonical rows
    Case {
        words: WORDS,
        parts: &[
            (HEADER, HEADER),
            (SEVEN, SEVEN),
            (NULL, NULL),
            (LEAST, LEAST),
            (SEVEN, SEVEN),
        ],
        tail: b"\xff\xff",
        taken: 2,
        status: Status::Copied,
        line: b"rows 4\n",
    },
    // rows with nulls of other lengths
    Case {
        words: WORDS,
        parts: &[
            (HEADER, HEADER),
            (NULL_TWO, NULL),
            (NULL_LEAST, NULL),
            (NULL_TWO, NULL),
            (NULL_LEAST, NULL),
        ],
        tail: b"\xff\xff",
        taken: 2,
        status: Status::Copied,
        line: b"rows 4\n",
    },
    // rows with fields more
    Case {
        words: WORDS,
        parts: &[
            (HEADER, HEADER),
            (SEVEN_AND_ONE, SEVEN),
            (NULL_AND_ONE, NULL),
            (SEVEN_AND_TWO, SEVEN),
            (SEVEN_AND_ONE, SEVEN),
        ],
        tail: b"\xff\xff",
        taken: 2,
        status: Status::Copied,
        line: b"rows 4\n",
    },
    // both kinds by turns, limits that just suffice, and bytes behind the end
    Case {
        words: &["copy", "rows=6", "field=4", "int4", "text?"],
        parts: &[
            (EXTENDED, HEADER),
            (SEVEN, SEVEN),
            (NULL_TWO, NULL),
            (SEVEN_AND_ONE, SEVEN),
            (LEAST, LEAST),
            (NULL, NULL),
            (SEVEN_AND_TWO, SEVEN),
        ],
        tail: b"\xff\xff\0\x02\0\0\0\x04",
        taken: 2,
        status: Status::Copied,
        line: b"rows 6\n",
    },
    // texts that are longer than most of the buffers
    Case {
        words: WORDS,
        parts: &[
            (HEADER, HEADER),
            (LONG, LONG),
            (LONG_AND_ONE, LONG),
            (SEVEN, SEVEN),
        ],
        tail: b"\xff\xff",
        taken: 2,
        status: Status::Copied,
        line: b"rows 3\n",
    },
    // refused from here on
    Case {
        words: WORDS,
        parts: &[(HEADER, HEADER), (SEVEN, SEVEN), (NULL_TWO, NULL)],
        tail: b"\0\x02\0\0\0\x04\0\0\0\x07\0\0\0\x02h",
        taken: 15,
        status: Status::Refused,
        line: b"truncated\n",
    },
    Case {
        words: WORDS,
        parts: &[(HEADER, HEADER), (SEVEN_AND_ONE, SEVEN), (NULL, NULL)],
        tail: b"\0",
        taken: 1,
        status: Status::Refused,
        line: b"truncated\n",
    },
    Case {
        words: WORDS,
        parts: &[(HEADER, HEADER), (NULL_AND_ONE, NULL), (LEAST, LEAST)],
        tail: b"\x80\x02\0\0\0\x04",
        taken: 2,
        status: Status::Refused,
        line: b"bad field count -32766\n",
    },
    Case {
        words: WORDS,
        parts: &[(HEADER, HEADER), (SEVEN, SEVEN), (SEVEN_AND_TWO, SEVEN)],
        tail: b"\0\x01\0\0\0\x04\0\0\0\x07\xff\xff",
        taken: 10,
        status: Status::Refused,
        line: b"row 2: too few fields\n",
    },
    // a text that is not UTF-8, in a row with a field more
    Case {
        words: WORDS,
        parts: &[(HEADER, HEADER), (NULL_LEAST, NULL), (SEVEN, SEVEN)],
        tail: b"\0\x03\0\0\0\x04\0\0\0\x07\0\0\0\x02\xc3\x28\0\0\0\0\xff\xff",
        taken: 20,
        status: Status::Refused,
        line: b"row 2 column 1: utf8\n",
    },
    Case {
        words: &["copy", "field=4", "int4", "text?"],
        parts: &[
            (HEADER, HEADER),
            (SEVEN, SEVEN),
            (NULL_TWO, NULL),
            (LEAST, LEAST),
        ],
        tail: b"\0\x02\0\0\0\x04\0\0\0\x07\0\0\0\x05hello\xff\xff",
        taken: 19,
        status: Status::Refused,
        line: b"row 3 column 1: too long\n",
    },
    Case {
        words: &["copy", "rows=3", "int4", "text?"],
        parts: &[
            (HEADER, HEADER),
            (SEVEN, SEVEN),
            (SEVEN_AND_ONE, SEVEN),
            (NULL_TWO, NULL),
        ],
        tail: b"\0\x02\0\0\0\x04\0\0\0\x07\xff\xff\xff\xff\xff\xff",
        taken: 2,
        status: Status::Refused,
        line: b"row limit\n",
    },
    Case {
        words: &["copy", "rows=2", "int4", "text?"],
        parts: &[(HEADER, HEADER), (LEAST, LEAST), (NULL, NULL)],
        tail: SEVEN,
        taken: 2,
        status: Status::Refused,
        line: b"row limit\n",
    },
];

impl Case {
    /// The whole stream.
    pub fn input(&self, alloc: Global) -> Result<Vec<u8>, AllocError> {
        let mut bytes = Vec::new(alloc);
        for (given, _) in self.parts {
            bytes.extend_from_slice(given)?;
        }
        bytes.extend_from_slice(self.tail)?;
        Ok(bytes)
    }

    /// What is written where nothing fails.
    pub fn output(&self, alloc: Global) -> Result<Vec<u8>, AllocError> {
        let mut bytes = Vec::new(alloc);
        for (_, canonical) in self.parts {
            bytes.extend_from_slice(canonical)?;
        }
        if self.status == Status::Copied {
            bytes.extend_from_slice(b"\xff\xff")?;
        }
        Ok(bytes)
    }

    /// How many bytes the canonical forms have of the header and the rows that stand whole in so many bytes of the stream.
    pub fn written_at(&self, taken: usize) -> usize {
        let mut end = 0usize;
        let mut written = 0usize;
        for (given, canonical) in self.parts {
            end = end.saturating_add(given.len());
            if end > taken {
                return written;
            }
            written = written.saturating_add(canonical.len());
        }
        written
    }

    /// How many bytes are taken where the sink failed behind so many bytes: those through the header or the row that the
    /// next of them belongs to, or else through what is taken of the tail.
    pub fn taken_at(&self, written: usize) -> usize {
        let mut taken = 0usize;
        let mut end = 0usize;
        for (given, canonical) in self.parts {
            taken = taken.saturating_add(given.len());
            end = end.saturating_add(canonical.len());
            if written < end {
                return taken;
            }
        }
        taken.saturating_add(self.taken)
    }
}
