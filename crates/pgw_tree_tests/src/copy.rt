//! Tests of the reader and the writer of `pgw_copy`. They stand here because a crate with tests is proved a second time,
//! which costs that crate much more than these tests.
ghost use Rattle.std.specs.Prelude.{◌≡◌, ◌∷◌, [], OnOk, IfOk, None, is_none};
ghost use Rattle.pgw_copy.specs.State.{ready};

use pgw_copy::{CopyReadError, CopyReader, CopyWriter, RawRow};
use pgw_wire::{Failed, MemorySink, MemorySource, NoMemory, RawCell, Sink, Source};
use std::alloc::{AllocError, Global};
use std::test::Fail;

const HEADER: &[u8] = b"PGCOPY\n\xff\r\n\0\0\0\0\0\0\0\0\0";

// a row of three columns (the int4 7, a null, and the text "hi"), a row of no columns, and the end
const STREAM: &[u8] =
    b"PGCOPY\n\xff\r\n\0\0\0\0\0\0\0\0\0\0\x03\0\0\0\x04\0\0\0\x07\xff\xff\xff\xff\0\0\0\x02hi\0\0\xff\xff";

/// Puts the row of three columns into the buffer. Its contract shows what a caller of `buffer` learns.
fn put_row(writer: &mut CopyWriter) -> Result<(), NoMemory>
    ensures { OnOk result (writer.new.bytes ≡ 0 ∷ 3 ∷ 0 ∷ 0 ∷ 0 ∷ 4 ∷ 0 ∷ 0 ∷ 0 ∷ 7 ∷ 255 ∷ 255 ∷ 255 ∷ 255 ∷ 0 ∷ 0 ∷ 0 ∷ 2 ∷ 104 ∷ 105 ∷ []) }
{
    writer.begin_row(3)?;
    writer.buffer().push_all(b"\0\0\0\x04\0\0\0\x07")?;
    writer.buffer().push_all(b"\xff\xff\xff\xff")?;
    writer.buffer().push_all(b"\0\0\0\x02hi")
}

/// Writes the stream, as far as no call fails. Memory that is refused counts as a failed call.
fn write_stream<K: Sink>(alloc: Global, sink: &mut K) -> Result<(), Failed> {
    let mut writer = CopyWriter::new(alloc);
    writer.header(sink)?;
    put_row(&mut writer).map_err(|_| Failed)?;
    writer.send_row(sink)?;
    writer.begin_row(0).map_err(|_| Failed)?;
    writer.send_row(sink)?;
    writer.trailer(sink)
}

/// The sink to which the stream was written, of which each write took at most as many bytes as the cuts say, and the call
/// with this number failed; and whether the writing failed.
fn written_to(alloc: Global, cuts: &[usize], fail: u64) -> Result<(MemorySink, bool), AllocError> {
    let mut sink = MemorySink::new(alloc, cuts.to_vec(alloc)?, [fail].to_vec(alloc)?);
    let failed = write_stream(alloc, &mut sink).is_err();
    Ok((sink, failed))
}

// Each write takes one byte, and in turn each write fails, and the flush.
#[test]
fn a_stream_is_written_up_to_the_call_that_fails(rt: HostRuntime) -> Result<(), Fail> {
    let alloc: Global = rt.alloc();
    for fail in 0..=STREAM.len() {
        let (sink, failed) = written_to(alloc, &[1; 64], fail as u64)?;
        assert!(rt; (failed, sink.gained(), sink.faults()) == (true, &STREAM[..fail], 1));
    }
    let (sink, failed) = written_to(alloc, &[], u64::MAX)?;
    assert!(rt; (failed, sink.gained()) == (false, STREAM));
    Ok(())
}

// a low flag, an extension of five bytes, a row of three fields (the piece "hi", a null whose length is -2, an empty
// piece), a row of one, the piece "x", the end, and two bytes behind it
const OTHER: &[u8] =
    b"PGCOPY\n\xff\r\n\0\0\0\0\x01\0\0\0\x05abcde\0\x03\0\0\0\x02hi\xff\xff\xff\xfe\0\0\0\0\0\x01\0\0\0\x01x\xff\xff\xdd\xee";

// how many bytes of it are the stream
const OTHER_LEN: usize = 49;

/// A source of these bytes. Its reads are cut and fail as told for `MemorySource::new`.
fn source_of(
    alloc: Global,
    bytes: &[u8],
    cuts: &[usize],
    fails: &[u64],
) -> Result<MemorySource, AllocError> {
    Ok(MemorySource::new(
        bytes.to_vec(alloc)?,
        cuts.to_vec(alloc)?,
        fails.to_vec(alloc)?,
    ))
}

/// Whether there is a cell at a place, and it is this piece, or a null for None.
fn has_cell(row: &RawRow<'_>, place: usize, wanted: Option<&[u8]>) -> bool {
    match row.get(place) {
        Some(RawCell::Null) => wanted.is_none(),
        Some(RawCell::Piece(piece)) => wanted == Some(piece),
        None => false,
    }
}

/// How many fields the next row has, or None at the end. Its contract shows what a caller of `next_row` learns.
fn next_len<S: Source>(
    reader: &mut CopyReader,
    source: &mut S,
) -> Result<Option<usize>, CopyReadError>
    requires { reader.old ≡ ready }
    ensures { IfOk result (λ len. reader.new ≡ record { pending = None; over = is_none len }) }
{
    match reader.next_row(source)? {
        Some(row) => Ok(Some(row.len())),
        None => Ok(None),
    }
}

// The second row, whose count and fields are read apart, has fewer bytes than the first, of which nothing is kept. The
// second time each read gives one byte.
#[test]
fn a_stream_is_read(rt: HostRuntime) -> Result<(), Fail> {
    let alloc: Global = rt.alloc();
    for cuts in [[].as_slice(), [1; 64].as_slice()] {
        let mut source = source_of(alloc, OTHER, cuts, &[])?;
        let mut reader = CopyReader::start(alloc, &mut source)?;
        assert!(rt; source.taken() == 24);
        let Some(row) = reader.next_row(&mut source)? else {
            return Err(Fail::from("no row"));
        };
        let cells = (
            has_cell(&row, 0, Some(b"hi")),
            has_cell(&row, 1, None),
            has_cell(&row, 2, Some(b"")),
        );
        assert!(rt; cells == (true, true, true));
        assert!(rt; (row.len(), row.get(3).is_none()) == (3, true));
        assert!(rt; row.as_bytes() == &OTHER[24..40]);
        assert!(rt; source.taken() == 40);
        let Some(count) = reader.next_count(&mut source)? else {
            return Err(Fail::from("no second row"));
        };
        assert!(rt; (count, reader.pending(), source.taken()) == (1, Some(1), 42));
        let row = reader.read_fields(&mut source)?;
        assert!(rt; (has_cell(&row, 0, Some(b"x")), row.as_bytes()) == (true, &OTHER[40..47]));
        let was_over = reader.is_over();
        let end = next_len(&mut reader, &mut source)?;
        assert!(rt; (was_over, end, reader.is_over()) == (false, None, true));
        assert!(rt; source.taken() == OTHER_LEN);
    }
    Ok(())
}

/// Reads a header, two rows and the end, as far as there are any.
fn read_stream<S: Source>(alloc: Global, source: &mut S) -> Result<(), CopyReadError> {
    let mut reader = CopyReader::start(alloc, source)?;
    if next_len(&mut reader, source)?.is_some() && next_len(&mut reader, source)?.is_some() {
        next_len(&mut reader, source)?;
    }
    Ok(())
}

/// What the reading of these bytes comes to, and how many of them are taken. The reads are cut and fail as told for
/// `MemorySource::new`.
fn read_on(
    alloc: Global,
    bytes: &[u8],
    cuts: &[usize],
    fails: &[u64],
) -> Result<(Result<(), CopyReadError>, usize), AllocError> {
    let mut source = source_of(alloc, bytes, cuts, fails)?;
    let read = read_stream(alloc, &mut source);
    Ok((read, source.taken()))
}

// a header, what stands behind it, the error, and how many bytes were taken then
const REFUSED: [(&[u8], &[u8], CopyReadError, usize); 8] = [
    (
        b"PGCOPY\n\xfe\r\n\0\0\0\0\0\0\0\0\0",
        b"\xff\xff",
        CopyReadError::BadHeader,
        19,
    ),
    (
        b"PGCOPY\n\xff\r\n\0\0\0\0\0\xff\xff\xff\xff",
        b"\xff\xff",
        CopyReadError::BadHeader,
        19,
    ),
    (
        b"PGCOPY\n\xff\r\n\0\0\x01\0\0\0\0\0\0",
        b"\xff\xff",
        CopyReadError::BadFlags(0x1_0000),
        19,
    ),
    // The magic is looked at before the flags, and these before the length of the extension.
    (
        b"PGCOPY\n\xff\r\n\0\x80\0\0\x01\x80\0\0\0",
        b"\xff\xff",
        CopyReadError::BadFlags(0x8000_0001),
        19,
    ),
    (
        HEADER,
        b"\xff\xfe\0\0",
        CopyReadError::BadFieldCount(-2),
        21,
    ),
    (HEADER, b"\x80\0", CopyReadError::BadFieldCount(-32768), 21),
    (HEADER, b"\0\x01\0\0\0", CopyReadError::Truncated, 24),
    // a field that states 2147483647 bytes and holds three
    (
        HEADER,
        b"\0\x01\x7f\xff\xff\xffabc",
        CopyReadError::Truncated,
        28,
    ),
];

#[test]
fn what_is_no_stream_is_refused(rt: HostRuntime) -> Result<(), Fail> {
    let alloc: Global = rt.alloc();
    for (header, behind, error, taken) in REFUSED {
        let mut bytes = header.to_vec(alloc)?;
        bytes.extend_from_slice(behind)?;
        let ended = read_on(alloc, &bytes, &[], &[])?;
        assert!(rt; ended == (Err(error), taken));
    }
    Ok(())
}

// The stream ends behind each of its bytes in turn; or each read gives one byte, and in turn each read fails.
#[test]
fn a_stream_that_breaks_off_is_told(rt: HostRuntime) -> Result<(), Fail> {
    let alloc: Global = rt.alloc();
    for place in 0..OTHER_LEN {
        let ended = read_on(alloc, &OTHER[..place], &[], &[])?;
        assert!(rt; ended == (Err(CopyReadError::Truncated), place));
        let ended = read_on(alloc, OTHER, &[1; 64], &[place as u64])?;
        assert!(rt; ended == (Err(CopyReadError::ReadFault), place));
    }
    assert!(rt; read_on(alloc, OTHER, &[], &[])? == (Ok(()), OTHER_LEN));
    Ok(())
}
