ghost use Rattle.std.specs.Prelude.{◌≤◌, IfOk, IsTrue};
ghost use Rattle.pgw_meta.specs.Schema.{has_ranges};
ghost use Rattle.pgw_meta.specs.Types.{shape};
ghost use Rattle.pgw_cell.specs.Built.{IsBuilt};

use crate::cell::{Both, array, fault, or_null};
use pgw_cell::{
    AppendFault, BoundDatum, CellFault, Datum, MeasureFault, RangeDatum, RangeList, append_cell,
    measure_cell, read_cell,
};
use pgw_meta::{FoundOids, PgType};
use pgw_wire::{Break, ByteBuffer, NoMemory, RawCell};
use std::alloc::Global;
use std::test::Fail;

/// The type of ranges over a type that PostgreSQL has ranges over.
fn range(alloc: Global, part: PgType) -> Result<PgType, NoMemory>
    requires { IsTrue (has_ranges (shape part)) }
    ensures { IfOk result (λ t. IsBuilt (shape t)) }
{
    Ok(PgType::Range(Box::new(alloc, part)?))
}

/// The type of their lists.
fn multirange(alloc: Global, part: PgType) -> Result<PgType, NoMemory>
    requires { IsTrue (has_ranges (shape part)) }
    ensures { IfOk result (λ t. IsBuilt (shape t)) }
{
    Ok(PgType::Multirange(Box::new(alloc, part)?))
}

/// Whether the piece is appended, rewritten, and read and written so.
fn is_written(t: &PgType, piece: &[u8], field: &[u8], both: &mut Both) -> Result<bool, Fail>
    requires { IsBuilt (shape t.now) }
{
    both.appended.clear();
    both.rewritten.clear();
    both.written.clear();
    both.piece(t, piece)?;
    let appended = both.appended.as_bytes();
    let bytes = (appended, both.rewritten.as_bytes(), both.written.as_bytes());
    Ok(bytes == (field, field, field))
}

/// Whether the piece breaks in the kind where it is read, measured and appended.
fn breaks(t: &PgType, piece: &[u8], kind: Break, out: &mut ByteBuffer) -> bool
    requires { IsBuilt (shape t.now) }
{
    let cell = RawCell::Piece(piece);
    let found = FoundOids::new(out.alloc());
    let appended = append_cell(t, cell, 64, &found, out);
    let answers = (
        fault(out.alloc(), t, cell),
        measure_cell(t, cell, 64),
        appended,
    );
    answers
        == (
            Some(CellFault::Break(kind)),
            Err(MeasureFault::Break(kind)),
            Err(AppendFault::Break(kind)),
        )
}

/// From 1, included, to 5, excluded.
const ONE_TO_FIVE: &[u8] = b"\0\0\0\x11\x02\0\0\0\x04\0\0\0\x01\0\0\0\x04\0\0\0\x05";

/// Twice 0, excluded, which stands for an empty range.
const TWICE_ZERO: &[u8] = b"\0\0\0\x11\0\0\0\0\x04\0\0\0\0\0\0\0\x04\0\0\0\0";

#[test]
fn ranges_are_written_in_their_canonical_form(rt: HostRuntime) -> Result<(), Fail> {
    let alloc = rt.alloc();
    let numbers = range(alloc, PgType::Int4)?;
    let mut both = Both::new(alloc, FoundOids::new(alloc));
    let all = b"\0\0\0\x01\x18";
    let states_99 = b"\0\0\0\0\x04\0\0\0\x01\0\0\0\x63\0\0\0\x05";
    let one_to_five = b"\0\0\0\x11\0\0\0\0\x04\0\0\0\x01\0\0\0\x04\0\0\0\x05";
    let up_to_five = b"\0\0\0\x09\x0c\0\0\0\x04\0\0\0\x05";
    let from_one = b"\0\0\0\x09\x12\0\0\0\x04\0\0\0\x01";
    let written = [
        is_written(&numbers, &ONE_TO_FIVE[4..], ONE_TO_FIVE, &mut both)?,
        is_written(&numbers, b"\x01", TWICE_ZERO, &mut both)?,
        is_written(&numbers, b"\x1f\x09", TWICE_ZERO, &mut both)?,
        is_written(&numbers, b"\x18", all, &mut both)?,
        is_written(&numbers, b"\xf8\x09", all, &mut both)?,
        is_written(&numbers, states_99, one_to_five, &mut both)?,
        is_written(
            &numbers,
            b"\xec\xff\xff\xff\xff\0\0\0\x05",
            up_to_five,
            &mut both,
        )?,
        is_written(
            &numbers,
            b"\x12\0\0\0\x04\0\0\0\x01\x09",
            from_one,
            &mut both,
        )?,
    ];
    assert!(rt; written == [true; 8]);
    Ok(())
}

/// Twice what is not a number, excluded.
const TWICE_NAN: &[u8] = b"\0\0\0\x19\0\0\0\0\x08\0\0\0\0\xc0\0\0\0\0\0\0\x08\0\0\0\0\xc0\0\0\0";

/// Whether the field is appended, rewritten and written of an empty range over the part.
fn empty_is_written(part: PgType, field: &[u8], both: &mut Both) -> Result<bool, Fail>
    requires { IsTrue (has_ranges (shape part)) }
{
    let t = range(both.written.alloc(), part)?;
    is_written(&t, b"\x01", field, both)
}

#[test]
fn an_empty_range_excludes_the_default_of_its_part(rt: HostRuntime) -> Result<(), Fail> {
    let alloc = rt.alloc();
    let mut both = Both::new(alloc, FoundOids::new(alloc));
    let zeros = b"\0\0\0\x19\0\0\0\0\x08\0\0\0\0\0\0\0\0\0\0\0\x08\0\0\0\0\0\0\0\0";
    assert!(rt; empty_is_written(PgType::Numeric, TWICE_NAN, &mut both)?);
    assert!(rt; empty_is_written(PgType::Int8, zeros, &mut both)?);
    assert!(rt; empty_is_written(PgType::Timestamp, zeros, &mut both)?);
    assert!(rt; empty_is_written(PgType::Timestamptz, zeros, &mut both)?);
    assert!(rt; empty_is_written(PgType::Date, TWICE_ZERO, &mut both)?);
    Ok(())
}

#[test]
fn bounds_are_written_as_their_parts_are(rt: HostRuntime) -> Result<(), Fail> {
    let alloc = rt.alloc();
    let mut both = Both::new(alloc, FoundOids::new(alloc));
    let numbers = range(alloc, PgType::Numeric)?;
    let seven = b"\x06\0\0\0\x0b\0\x01\0\0\x40\0\0\0\0\x07\xaa\xff\xff\xff\xff\0\0\0\0\xc0\0\0\x02";
    let field = b"\0\0\0\x1b\x06\0\0\0\x0a\0\x01\0\0\x40\0\0\0\0\x07\0\0\0\x08\0\0\0\0\xc0\0\0\0";
    assert!(rt; is_written(&numbers, seven, field, &mut both)?);
    Ok(())
}

#[test]
fn ranges_break_at_their_first_fault(rt: HostRuntime) -> Result<(), Fail> {
    let alloc = rt.alloc();
    let mut out = ByteBuffer::new(alloc);
    let numbers = range(alloc, PgType::Int4)?;
    let size = Break::Size;
    let broken = [
        breaks(&numbers, b"", size, &mut out),
        breaks(&numbers, b"\0\0\0\0\x06\0\0\0\x2a", size, &mut out),
        breaks(&numbers, b"\0\xff\xff\xff\xff", size, &mut out),
        breaks(&numbers, b"\0\xff\xff\xff\xfe", size, &mut out),
        breaks(&numbers, b"\0\0\0\0", size, &mut out),
        breaks(&numbers, b"\x08\0\0\0", size, &mut out),
        breaks(
            &numbers,
            b"\0\0\0\0\x01\x09\0\0\0\x04\0\0\0\x05",
            size,
            &mut out,
        ),
        breaks(&numbers, b"\x08\0\0\0\x04\x09\x09", size, &mut out),
    ];
    assert!(rt; broken == [true; 8]);
    assert!(rt; fault(alloc, &numbers, RawCell::Null) == Some(CellFault::Break(Break::Null)));
    assert!(rt; out.as_bytes() == b"".as_slice());
    Ok(())
}

#[test]
fn bounds_break_as_their_parts_do(rt: HostRuntime) -> Result<(), Fail> {
    let alloc = rt.alloc();
    let mut out = ByteBuffer::new(alloc);
    let numbers = range(alloc, PgType::Numeric)?;
    let lower = b"\0\0\0\0\x08\0\0\0\0\xd0\0\0\0\0\0\0\x01\x09";
    let upper = b"\x08\0\0\0\x01\0\0\0\0\xd0\0\0\0";
    let both = b"\0\0\0\0\x01\x09\0\0\0\x08\0\0\0\0\xd0\0\0\0";
    let broken = [
        breaks(&numbers, lower, Break::Sign, &mut out),
        breaks(&numbers, upper, Break::Sign, &mut out),
        breaks(&numbers, both, Break::Size, &mut out),
    ];
    assert!(rt; broken == [true; 3]);
    Ok(())
}

/// What is answered of the cell at a limit, by measuring it and by appending its canonical field.
fn at_limit(
    t: &PgType,
    piece: &[u8],
    field_max: u32,
    out: &mut ByteBuffer,
) -> (Result<usize, MeasureFault>, Result<(), AppendFault>)
    requires built { IsBuilt (shape t.now) }
    requires max { field_max ≤ 2147483647 }
{
    let cell = RawCell::Piece(piece);
    let found = FoundOids::new(out.alloc());
    let measured = measure_cell(t, cell, field_max);
    (measured, append_cell(t, cell, field_max, &found, out))
}

#[test]
fn an_empty_range_may_be_too_long(rt: HostRuntime) -> Result<(), Fail> {
    let alloc = rt.alloc();
    let mut out = ByteBuffer::new(alloc);
    let long = (Err(MeasureFault::TooLong), Err(AppendFault::TooLong));
    let numbers = range(alloc, PgType::Int4)?;
    assert!(rt; at_limit(&numbers, b"\x01", 16, &mut out) == long);
    assert!(rt; at_limit(&numbers, b"\x01", 17, &mut out) == (Ok(21), Ok(())));
    assert!(rt; out.as_bytes() == TWICE_ZERO);
    let lists = multirange(alloc, PgType::Int4)?;
    assert!(rt; at_limit(&lists, b"\0\0\0\x01\0\0\0\x01\x01", 24, &mut out) == long);
    assert!(rt; at_limit(&lists, b"\0\0\0\x01\0\0\0\x01\x01", 25, &mut out) == (Ok(29), Ok(())));
    Ok(())
}

#[test]
fn multiranges_are_written_in_their_canonical_form(rt: HostRuntime) -> Result<(), Fail> {
    let alloc = rt.alloc();
    let lists = multirange(alloc, PgType::Int4)?;
    let mut both = Both::new(alloc, FoundOids::new(alloc));
    let one = b"\0\0\0\x19\0\0\0\x01\0\0\0\x11\0\0\0\0\x04\0\0\0\0\0\0\0\x04\0\0\0\0";
    let longer = b"\0\0\0\x02\0\0\0\x02\xf8\x09\0\0\0\x0a\x12\0\0\0\x04\0\0\0\x01\x09\x09";
    let two = b"\0\0\0\x16\0\0\0\x02\0\0\0\x01\x18\0\0\0\x09\x12\0\0\0\x04\0\0\0\x01";
    let written = [
        is_written(&lists, b"\0\0\0\x01\0\0\0\x01\x01", one, &mut both)?,
        is_written(&lists, b"\0\0\0\0\x09", b"\0\0\0\x04\0\0\0\0", &mut both)?,
        is_written(&lists, longer, two, &mut both)?,
    ];
    assert!(rt; written == [true; 3]);
    Ok(())
}

#[test]
fn multiranges_break_at_their_first_fault(rt: HostRuntime) -> Result<(), Fail> {
    let alloc = rt.alloc();
    let mut out = ByteBuffer::new(alloc);
    let lists = multirange(alloc, PgType::Numeric)?;
    let size = Break::Size;
    let sign = b"\0\0\0\x02\0\0\0\x0d\x08\0\0\0\x01\0\0\0\0\xd0\0\0\0\0\0\0\x01";
    let broken = [
        breaks(&lists, b"", size, &mut out),
        breaks(&lists, b"\0\0\0", size, &mut out),
        breaks(&lists, b"\0\0\0\x01", size, &mut out),
        breaks(&lists, b"\xff\xff\xff\xff", size, &mut out),
        breaks(&lists, b"\0\0\0\x01\xff\xff\xff\xff", size, &mut out),
        breaks(&lists, b"\0\0\0\x01\0\0\0\x06\0\0\0\x2a", size, &mut out),
        breaks(&lists, sign, Break::Sign, &mut out),
    ];
    assert!(rt; broken == [true; 7]);
    assert!(rt; fault(alloc, &lists, RawCell::Null) == Some(CellFault::Break(Break::Null)));
    Ok(())
}

// The oids of int4range and int4multirange are 3904 and 4451.
const ARRAY_OF_RANGES: &[u8] = b"\0\0\0\x2d\0\0\0\x01\0\0\0\x01\0\0\x0f\x40\0\0\0\x02\0\0\0\x01\
    \0\0\0\x11\0\0\0\0\x04\0\0\0\0\0\0\0\x04\0\0\0\0\xff\xff\xff\xff";

const ARRAY_OF_MULTIRANGES: &[u8] = b"\0\0\0\x21\0\0\0\x01\0\0\0\0\0\0\x11\x63\0\0\0\x01\0\0\0\x01\
    \0\0\0\x09\0\0\0\x01\0\0\0\x01\x18";

#[test]
fn arrays_of_ranges_are_written_in_their_canonical_form(rt: HostRuntime) -> Result<(), Fail> {
    let alloc = rt.alloc();
    let mut both = Both::new(alloc, FoundOids::new(alloc));
    let ranges = array(alloc, or_null(alloc, range(alloc, PgType::Int4)?)?)?;
    let empty = b"\0\0\0\x01\0\0\0\x01\0\0\0\x17\0\0\0\x02\0\0\0\0\0\0\0\x01\x01\xff\xff\xff\xff";
    assert!(rt; is_written(&ranges, empty, ARRAY_OF_RANGES, &mut both)?);
    let lists = or_null(alloc, array(alloc, multirange(alloc, PgType::Int4)?)?)?;
    let all = b"\0\0\0\x01\0\0\0\0\0\0\0\x17\0\0\0\x01\0\0\0\x01\0\0\0\x09\0\0\0\x01\0\0\0\x01\xf8";
    assert!(rt; is_written(&lists, all, ARRAY_OF_MULTIRANGES, &mut both)?);
    both.cell(&or_null(alloc, range(alloc, PgType::Date)?)?, RawCell::Null)?;
    assert!(rt; both.appended.as_bytes().ends_with(b"\xff\xff\xff\xff"));
    Ok(())
}

#[test]
fn ranges_own_their_bounds(rt: HostRuntime) -> Result<(), Fail> {
    let alloc = rt.alloc();
    let numbers = range(alloc, PgType::Int4)?;
    let read = read_cell(alloc, &numbers, RawCell::Piece(&ONE_TO_FIVE[4..]))?;
    let Datum::Bounds(bounds) = read else {
        return Err(Fail::from("no bounds"));
    };
    let lower = match &bounds.lower {
        BoundDatum::Included(value) => matches!(**value, Datum::Number(1)),
        _ => false,
    };
    let upper = match &bounds.upper {
        BoundDatum::Excluded(value) => matches!(**value, Datum::Number(5)),
        _ => false,
    };
    assert!(rt; (lower, upper) == (true, true));
    let mut list = RangeList::new(alloc);
    list.push(bounds)?;
    list.push(RangeDatum {
        lower: BoundDatum::Unbounded,
        upper: BoundDatum::Unbounded,
    })?;
    let there = (list.len(), list.get(1).is_some(), list.get(2).is_some());
    assert!(rt; there == (2, true, false));
    assert!(rt; list.as_slice().len() == 2);
    Ok(())
}
