ghost use Rattle.std.specs.Prelude.{◌≡◌, ℕ, ◌≤◌, ◌++◌, codes};
ghost use Rattle.std.specs.List.{flat_map};
ghost use Rattle.pgw_meta.specs.Keys.{owned_key};
ghost use Rattle.pgcopy.specs.Report.{code_of, fault_status, status_of, fault_text, flags_text, kind_text, field_text, unknown_text, copy_fault_text, line_of, WroteUnlessFailed};

use crate::words::WordFault;
use itoa::Buffer;
use pgw_meta::TypeKey;
use pgw_tree::CopyFault;
use pgw_wire::{Break, Sink, send};

/// The hexadecimal digits, each at the place of its value.
const DIGITS: [u8; 16] = *b"0123456789ABCDEF";

/// What a run ended with.
#[derive(Clone, Copy, Debug, PartialEq, Eq)]
pub enum Status {
    /// A whole stream was copied.
    Copied,
    /// Something is wrong with the words.
    Words,
    /// What was read is no stream, within the limits, of the columns that the words name.
    Refused,
    /// The source or the sink failed.
    Outside,
    /// A named type is not known.
    UnknownType,
    /// Memory was asked for and refused.
    NoMemory,
}

impl Status {
    /// The number that the process ends with, from 0 for `Copied` to 5 for `NoMemory`.
    pub fn code(self) -> u8
        ensures { result ≡ code_of self }
    {
        match self {
            Status::Copied => 0,
            Status::Words => 1,
            Status::Refused => 2,
            Status::Outside => 3,
            Status::UnknownType => 4,
            Status::NoMemory => 5,
        }
    }
}

/// What a run ended with where the stream was not copied.
fn fault_status(fault: &CopyFault) -> Status
    ensures { result ≡ fault_status fault.now }
{
    match fault {
        CopyFault::ReadFault | CopyFault::WriteFault | CopyFault::LookupFault => Status::Outside,
        CopyFault::UnknownType(_) => Status::UnknownType,
        CopyFault::NoMemory => Status::NoMemory,
        CopyFault::BadHeader
        | CopyFault::BadFlags(_)
        | CopyFault::Truncated
        | CopyFault::BadFieldCount(_)
        | CopyFault::UnexpectedEndOfRow { .. }
        | CopyFault::BadValue { .. }
        | CopyFault::TooLong { .. }
        | CopyFault::RowLimit => Status::Refused,
    }
}

/// What a run came to.
#[derive(Debug, PartialEq, Eq, Drop)]
pub enum Outcome {
    /// This many rows were copied.
    Copied(u64),
    /// What is wrong with the words, and the place of the word.
    BadWord { place: usize, fault: WordFault },
    /// Why the stream was not copied. `NoMemory` is want of memory in the words too.
    Fault(CopyFault),
}

impl Outcome {
    /// The status that it ends with.
    pub fn status(&self) -> Status
        ensures { result ≡ status_of self.now }
    {
        match self {
            Outcome::Copied(_) => Status::Copied,
            Outcome::BadWord { .. } => Status::Words,
            Outcome::Fault(fault) => fault_status(fault),
        }
    }
}

/// Writes the pieces, one behind the other.
fn send_all<N: Sink>(notes: &mut N, pieces: &[&[u8]])
    ensures gained { WroteUnlessFailed (N.state notes.old) (N.state notes.new) (flat_map (λ p. p.now) pieces.now) }
{
    for piece in pieces {
        if send(notes, piece) < piece.len() {
            return;
        }
    }
}

/// What a fault of the words is called, and behind that its number, where it has one.
fn fault_text<'a>(fault: WordFault, number: &'a mut Buffer) -> (&'static [u8], &'a [u8])
    ensures { result.0.now ++ result.1.now ≡ fault_text fault }
{
    match fault {
        WordFault::NoCommand => (b"missing command", b""),
        WordFault::UnknownCommand => (b"unknown command", b""),
        WordFault::BadNumber => (b"bad number", b""),
        WordFault::Repeated => (b"repeated option", b""),
        WordFault::BadOid => (b"bad oid word", b""),
        WordFault::BadType(place) => (b"bad type at ", number.format(place).as_bytes()),
        WordFault::DeepType(place) => (b"type too deep at ", number.format(place).as_bytes()),
        WordFault::NoTypes => (b"missing type", b""),
        WordFault::Schema(fault) => (b"schema fault ", number.format(fault).as_bytes()),
        WordFault::NotYet => (b"not supported yet", b""),
    }
}

/// The eight hexadecimal digits of a header's flags.
fn flags_text(flags: u32) -> [u8; 8]
    ensures { result ≡ flags_text flags }
{
    let mut text = [0; 8];
    let mut left = flags;
    let mut place = text.len();
    while place > 0 {
        place -= 1;
        text[place] = DIGITS[(left % 16) as usize];
        left /= 16;
    }
    text
}

/// The word for why a field spells no value.
fn kind_text(kind: Break) -> &'static [u8]
    ensures { result.now ≡ kind_text kind }
{
    match kind {
        Break::Null => b"null",
        Break::Size => b"size",
        Break::Count => b"count",
        Break::Utf8 => b"utf8",
        Break::Sign => b"sign",
        Break::Family => b"family",
        Break::Prefix => b"prefix",
        Break::ZeroOid => b"zero oid",
        Break::Dimensions => b"dimensions",
        Break::Surplus => b"surplus",
    }
}

/// Writes the line of a field: where it stands, and what is wrong with it.
fn report_field<N: Sink>(row: u64, column: usize, text: &[u8], notes: &mut N)
    ensures line { WroteUnlessFailed (N.state notes.old) (N.state notes.new) (field_text row column text.now ++ codes "\n") }
{
    let mut row_number = Buffer::new();
    let mut column_number = Buffer::new();
    let row = row_number.format(row).as_bytes();
    let column = column_number.format(column).as_bytes();
    send_all(
        notes,
        &[b"row ", row, b" column ", column, b": ", text, b"\n"],
    );
}

/// Writes the line of a type that is not known.
fn report_key<N: Sink>(key: &TypeKey, notes: &mut N)
    ensures line { WroteUnlessFailed (N.state notes.old) (N.state notes.new) (unknown_text (owned_key key.now) ++ codes "\n") }
{
    let name = key.name.as_str().as_bytes();
    match &key.schema {
        Some(schema) => {
            let schema = schema.as_str().as_bytes();
            send_all(notes, &[b"unknown type ", schema, b".", name, b"\n"]);
        }
        None => send_all(notes, &[b"unknown type ", name, b"\n"]),
    }
}

/// Writes the line of a stream that was not copied.
fn report_fault<N: Sink>(fault: &CopyFault, notes: &mut N)
    ensures line { WroteUnlessFailed (N.state notes.old) (N.state notes.new) (copy_fault_text fault.now ++ codes "\n") }
{
    let mut number = Buffer::new();
    match fault {
        CopyFault::BadHeader => send_all(notes, &[b"bad header\n"]),
        CopyFault::BadFlags(flags) => {
            let text = flags_text(*flags);
            send_all(notes, &[b"bad flags ", &text, b"\n"]);
        }
        CopyFault::Truncated => send_all(notes, &[b"truncated\n"]),
        CopyFault::BadFieldCount(count) => {
            let count = number.format(*count).as_bytes();
            send_all(notes, &[b"bad field count ", count, b"\n"]);
        }
        CopyFault::UnexpectedEndOfRow { row } => {
            let row = number.format(*row).as_bytes();
            send_all(notes, &[b"row ", row, b": too few fields\n"]);
        }
        CopyFault::BadValue { row, column, kind } => {
            report_field(*row, *column, kind_text(*kind), notes);
        }
        CopyFault::TooLong { row, column } => report_field(*row, *column, b"too long", notes),
        CopyFault::RowLimit => send_all(notes, &[b"row limit\n"]),
        CopyFault::UnknownType(key) => report_key(key, notes),
        CopyFault::LookupFault => send_all(notes, &[b"lookup fault\n"]),
        CopyFault::ReadFault => send_all(notes, &[b"read fault\n"]),
        CopyFault::WriteFault => send_all(notes, &[b"write fault\n"]),
        CopyFault::NoMemory => send_all(notes, &[b"out of memory\n"]),
    }
}

/// Writes the line of an outcome. It takes no memory, and stops where `notes` fails.
pub fn report<N: Sink>(outcome: &Outcome, notes: &mut N)
    ensures line { WroteUnlessFailed (N.state notes.old) (N.state notes.new) (line_of outcome.now) }
{
    let mut number = Buffer::new();
    match outcome {
        Outcome::Copied(rows) => send_all(
            notes,
            &[b"rows ", number.format(*rows).as_bytes(), b"\n"],
        ),
        Outcome::BadWord { place, fault } => {
            let mut fault_number = Buffer::new();
            let place = number.format(*place).as_bytes();
            let (text, fault_number) = fault_text(*fault, &mut fault_number);
            send_all(notes, &[b"word ", place, b": ", text, fault_number, b"\n"]);
        }
        Outcome::Fault(fault) => report_fault(fault, notes),
    }
}
