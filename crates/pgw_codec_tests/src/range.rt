use pgw_meta::{Dummy, FromSql, HasSqlType, Pg, ToSql, deserialize, serialize};
use pgw_nested::sql_types::{Array, Multirange, Nullable, Range};
use pgw_nested::{
    BoundKind, BoundPiece, BoundsOf, Items, MultirangePieces, RangePieces, begin_multirange,
    begin_range,
};
use pgw_numeric::PgNumeric;
use pgw_numeric::sql_types::Numeric;
use pgw_scalar::sql_types::{BigInt, Integer};
use pgw_time::sql_types::{Date, Timestamp, Timestamptz};
use pgw_wire::{ByteBuffer, IsNull, Output, PgValue, SqlError};
use std::alloc::Global;
use std::num::NonZeroU32;
use std::ops::{self, Bound, RangeFrom, RangeInclusive, RangeTo, RangeToInclusive};
use std::test::Fail;

/// The bounds of a range of numbers.
type Bounds = (Bound<i32>, Bound<i32>);

/// From 1, included, to 5, excluded.
const ONE_TO_FIVE: &[u8] = b"\x02\0\0\0\x04\0\0\0\x01\0\0\0\x04\0\0\0\x05";

/// Twice 0, excluded, which stands for an empty range.
const TWICE_ZERO: &[u8] = b"\0\0\0\0\x04\0\0\0\0\0\0\0\x04\0\0\0\0";

/// All numbers, and from 1, included, to 5, excluded.
const TWO_RANGES: &[u8] =
    b"\0\0\0\x02\0\0\0\x01\x18\0\0\0\x11\x02\0\0\0\x04\0\0\0\x01\0\0\0\x04\0\0\0\x05";

fn value(bytes: &[u8]) -> PgValue<'_> {
    PgValue::new(bytes, NonZeroU32::MIN)
}

fn read_range(alloc: Global, bytes: &[u8]) -> deserialize::Result<Bounds> {
    <Bounds as FromSql<Range<Integer>>>::from_sql(alloc, value(bytes))
}

fn read_multirange(alloc: Global, bytes: &[u8]) -> deserialize::Result<Vec<Bounds>> {
    <Vec<Bounds> as FromSql<Multirange<Integer>>>::from_sql(alloc, value(bytes))
}

fn write<A, T: ToSql<A> + Drop>(buffer: &mut ByteBuffer, value: T) -> serialize::Result {
    buffer.clear();
    let mut lookup = Dummy;
    value.to_sql(&mut Output::new(buffer, &mut lookup))
}

#[test]
fn ranges_are_read(rt: HostRuntime) -> Result<(), Fail> {
    let table = [
        (ONE_TO_FIVE, (Bound::Included(1), Bound::Excluded(5))),
        (TWICE_ZERO, (Bound::Excluded(0), Bound::Excluded(0))),
        (b"\x01", (Bound::Excluded(0), Bound::Excluded(0))),
        (b"\x1f\x09", (Bound::Excluded(0), Bound::Excluded(0))),
        (b"\x18\x09", (Bound::Unbounded, Bound::Unbounded)),
        (b"\xf8", (Bound::Unbounded, Bound::Unbounded)),
        (
            b"\0\0\0\0\x04\0\0\0\x01\0\0\0\x63\0\0\0\x05",
            (Bound::Excluded(1), Bound::Excluded(5)),
        ),
        (
            b"\x0c\xff\xff\xff\xff\0\0\0\x05",
            (Bound::Unbounded, Bound::Included(5)),
        ),
        (
            b"\x12\0\0\0\x04\0\0\0\x01\x09",
            (Bound::Included(1), Bound::Unbounded),
        ),
    ];
    for (bytes, bounds) in &table {
        assert!(rt; read_range(rt.alloc(), bytes)? == *bounds);
    }
    Ok(())
}

#[test]
fn what_is_no_range_is_refused(rt: HostRuntime) {
    let table = [
        (b"".as_slice(), SqlError::ShortBuffer),
        (
            b"\0\0\0\0\x06\0\0\0\x2a",
            SqlError::RangeElement { want: 6, have: 4 },
        ),
        (b"\0\xff\xff\xff\xff", SqlError::NegativeSize(-1)),
        (b"\0\0\0\0", SqlError::ShortBuffer),
        (b"\x08\0\0\0", SqlError::ShortBuffer),
        (
            b"\0\0\0\0\x01\x09\0\0\0",
            SqlError::WrongSize { want: 4, have: 1 },
        ),
        (
            b"\x08\0\0\0\x04\x09\x09",
            SqlError::WrongSize { want: 4, have: 2 },
        ),
    ];
    for (bytes, error) in &table {
        assert!(rt; read_range(rt.alloc(), bytes).err() == Some(*error));
    }
    let null = <Bounds as FromSql<Range<Integer>>>::from_nullable_sql(rt.alloc(), None);
    assert!(rt; null.err() == Some(SqlError::UnexpectedNull));
}

#[test]
fn an_empty_range_of_numeric_is_read_as_no_number(rt: HostRuntime) -> Result<(), Fail> {
    let empty = <(Bound<PgNumeric>, Bound<PgNumeric>) as FromSql<Range<Numeric>>>::from_sql(
        rt.alloc(),
        value(b"\x01"),
    )?;
    let mut buffer = ByteBuffer::new(rt.alloc());
    let written = write::<Range<Numeric>, (Bound<PgNumeric>, Bound<PgNumeric>)>(&mut buffer, empty);
    assert!(rt; written == Ok(IsNull::No));
    let bytes = b"\0\0\0\0\x08\0\0\0\0\xc0\0\0\0\0\0\0\x08\0\0\0\0\xc0\0\0\0".as_slice();
    assert!(rt; buffer.as_bytes() == bytes);
    Ok(())
}

#[test]
fn bounds_are_written(rt: HostRuntime) {
    let mut buffer = ByteBuffer::new(rt.alloc());
    let table = [
        (ONE_TO_FIVE, (Bound::Included(1), Bound::Excluded(5))),
        (TWICE_ZERO, (Bound::Excluded(0), Bound::Excluded(0))),
        (b"\x18", (Bound::Unbounded, Bound::Unbounded)),
        (
            b"\x0c\0\0\0\x04\0\0\0\x05",
            (Bound::Unbounded, Bound::Included(5)),
        ),
        (
            b"\x10\0\0\0\x04\0\0\0\x05",
            (Bound::Excluded(5), Bound::Unbounded),
        ),
    ];
    for (bytes, bounds) in &table {
        assert!(rt; write::<Range<Integer>, Bounds>(&mut buffer, *bounds) == Ok(IsNull::No));
        assert!(rt; buffer.as_bytes() == *bytes);
        let nullable = write::<Nullable<Range<Integer>>, Bounds>(&mut buffer, *bounds);
        assert!(rt; nullable == Ok(IsNull::No));
        assert!(rt; buffer.as_bytes() == *bytes);
    }
    let null = write::<Nullable<Range<Integer>>, Option<Bounds>>(&mut buffer, None);
    assert!(rt; null == Ok(IsNull::Yes));
}

#[test]
fn the_ranges_of_std_are_written_as_their_bounds(rt: HostRuntime) {
    let mut buffer = ByteBuffer::new(rt.alloc());
    let from_five = b"\x12\0\0\0\x04\0\0\0\x05".as_slice();
    let below_five = b"\x08\0\0\0\x04\0\0\0\x05".as_slice();
    let up_to_five = b"\x0c\0\0\0\x04\0\0\0\x05".as_slice();
    let one_up_to_five = b"\x06\0\0\0\x04\0\0\0\x01\0\0\0\x04\0\0\0\x05".as_slice();
    let _answer = write::<Range<Integer>, ops::Range<i32>>(&mut buffer, 1..5);
    assert!(rt; buffer.as_bytes() == ONE_TO_FIVE);
    let _answer = write::<Nullable<Range<Integer>>, ops::Range<i32>>(&mut buffer, 1..5);
    assert!(rt; buffer.as_bytes() == ONE_TO_FIVE);
    let _answer = write::<Range<Integer>, RangeFrom<i32>>(&mut buffer, 5..);
    assert!(rt; buffer.as_bytes() == from_five);
    let _answer = write::<Nullable<Range<Integer>>, RangeFrom<i32>>(&mut buffer, 5..);
    assert!(rt; buffer.as_bytes() == from_five);
    let _answer = write::<Range<Integer>, RangeTo<i32>>(&mut buffer, ..5);
    assert!(rt; buffer.as_bytes() == below_five);
    let _answer = write::<Nullable<Range<Integer>>, RangeTo<i32>>(&mut buffer, ..5);
    assert!(rt; buffer.as_bytes() == below_five);
    let _answer = write::<Range<Integer>, RangeToInclusive<i32>>(&mut buffer, ..=5);
    assert!(rt; buffer.as_bytes() == up_to_five);
    let _answer = write::<Nullable<Range<Integer>>, RangeToInclusive<i32>>(&mut buffer, ..=5);
    assert!(rt; buffer.as_bytes() == up_to_five);
    let _answer = write::<Range<Integer>, RangeInclusive<i32>>(&mut buffer, 1..=5);
    assert!(rt; buffer.as_bytes() == one_up_to_five);
    let _answer = write::<Nullable<Range<Integer>>, RangeInclusive<i32>>(&mut buffer, 1..=5);
    assert!(rt; buffer.as_bytes() == one_up_to_five);
}

#[test]
fn multiranges_are_read(rt: HostRuntime) -> Result<(), Fail> {
    let alloc = rt.alloc();
    let two = read_multirange(alloc, TWO_RANGES)?;
    let bounds = [
        (Bound::Unbounded, Bound::Unbounded),
        (Bound::Included(1), Bound::Excluded(5)),
    ];
    assert!(rt; two.as_slice() == bounds.as_slice());
    let empty = read_multirange(alloc, b"\0\0\0\x01\0\0\0\x01\x01\x09")?;
    assert!(rt; empty.as_slice() == [(Bound::Excluded(0), Bound::Excluded(0))].as_slice());
    assert!(rt; read_multirange(alloc, b"\0\0\0\0\x09")?.is_empty());
    Ok(())
}

#[test]
fn what_is_no_multirange_is_refused(rt: HostRuntime) {
    let table = [
        (b"\0\0\0".as_slice(), SqlError::ShortBuffer),
        (b"\0\0\0\x01", SqlError::ShortBuffer),
        (b"\xff\xff\xff\xff", SqlError::ShortBuffer),
        (
            b"\0\0\0\x01\0\0\0\x06\0\0\0\x2a",
            SqlError::ElementBytes { want: 6, have: 4 },
        ),
        (b"\0\0\0\x01\xff\xff\xff\xff", SqlError::NegativeSize(-1)),
        (b"\0\0\0\x01\0\0\0\0", SqlError::ShortBuffer),
        (
            b"\0\0\0\x01\0\0\0\x06\x08\0\0\0\x04\x09",
            SqlError::WrongSize { want: 4, have: 1 },
        ),
    ];
    for (bytes, error) in &table {
        assert!(rt; read_multirange(rt.alloc(), bytes).err() == Some(*error));
    }
    let null = <Vec<Bounds> as FromSql<Multirange<Integer>>>::from_nullable_sql(rt.alloc(), None);
    assert!(rt; null.err() == Some(SqlError::UnexpectedNull));
}

#[test]
fn lists_of_ranges_are_written(rt: HostRuntime) -> Result<(), Fail> {
    let alloc = rt.alloc();
    let mut buffer = ByteBuffer::new(alloc);
    let bounds = [
        (Bound::Unbounded, Bound::Unbounded),
        (Bound::Included(1), Bound::Excluded(5)),
    ];
    let items = write::<Multirange<Integer>, Items<'_, Bounds>>(&mut buffer, Items(&bounds));
    assert!(rt; items == Ok(IsNull::No));
    assert!(rt; buffer.as_bytes() == TWO_RANGES);
    let list = Vec::from_slice(alloc, &bounds)?;
    let listed = write::<Nullable<Multirange<Integer>>, Vec<Bounds>>(&mut buffer, list);
    assert!(rt; listed == Ok(IsNull::No));
    assert!(rt; buffer.as_bytes() == TWO_RANGES);
    let mut ranges = Vec::new(alloc);
    ranges.push(1..5)?;
    let of_std = write::<Multirange<Integer>, Vec<ops::Range<i32>>>(&mut buffer, ranges);
    assert!(rt; of_std == Ok(IsNull::No));
    let one = b"\0\0\0\x01\0\0\0\x11\x02\0\0\0\x04\0\0\0\x01\0\0\0\x04\0\0\0\x05".as_slice();
    assert!(rt; buffer.as_bytes() == one);
    let none = write::<Nullable<Multirange<Integer>>, Items<'_, Bounds>>(&mut buffer, Items(&[]));
    assert!(rt; none == Ok(IsNull::No));
    assert!(rt; buffer.as_bytes() == b"\0\0\0\0".as_slice());
    Ok(())
}

#[test]
fn bounds_are_lent_one_by_one(rt: HostRuntime) -> Result<(), Fail> {
    let mut pieces = RangePieces::new(ONE_TO_FIVE)?;
    assert!(rt; !pieces.is_empty());
    let lower = pieces.next_piece()?;
    assert!(rt; lower == Some(BoundPiece::Included(b"\0\0\0\x01")));
    let upper = pieces.next_piece()?;
    assert!(rt; upper == Some(BoundPiece::Excluded(b"\0\0\0\x05")));
    assert!(rt; pieces.next_piece()?.is_none());
    let mut empty = RangePieces::new(b"\x01\x09")?;
    assert!(rt; empty.is_empty());
    assert!(rt; empty.next_piece()?.is_none());
    let mut short = RangePieces::new(b"\x08\0\0\0")?;
    let no_lower = short.next_piece()?;
    assert!(rt; no_lower == Some(BoundPiece::Unbounded));
    for _call in 0..2 {
        assert!(rt; short.next_piece().err() == Some(SqlError::ShortBuffer));
    }
    Ok(())
}

#[test]
fn ranges_are_lent_one_by_one(rt: HostRuntime) -> Result<(), Fail> {
    let mut pieces = MultirangePieces::new(TWO_RANGES)?;
    let first = pieces.next_piece()?;
    assert!(rt; first == Some(b"\x18".as_slice()));
    let second = pieces.next_piece()?;
    assert!(rt; second == Some(ONE_TO_FIVE));
    assert!(rt; pieces.next_piece()?.is_none());
    let mut short = MultirangePieces::new(b"\0\0\0\x01\0\0")?;
    for _call in 0..2 {
        assert!(rt; short.next_piece().err() == Some(SqlError::ShortBuffer));
    }
    Ok(())
}

#[test]
fn ranges_are_begun(rt: HostRuntime) -> Result<(), Fail> {
    let mut buffer = ByteBuffer::new(rt.alloc());
    let mut lookup = Dummy;
    {
        let mut out = Output::new(&mut buffer, &mut lookup);
        begin_multirange(&mut out, 0)?;
        begin_range(&mut out, BoundKind::Included, BoundKind::Excluded)?;
        begin_range(&mut out, BoundKind::Excluded, BoundKind::Included)?;
        begin_range(&mut out, BoundKind::Unbounded, BoundKind::Unbounded)?;
    }
    assert!(rt; buffer.as_bytes() == b"\0\0\0\0\x02\x04\x18".as_slice());
    Ok(())
}

#[test]
fn a_range_has_two_bounds(rt: HostRuntime) {
    let bounds = (1..5, 5.., ..5, ..=5, 1..=5);
    assert!(rt; (bounds.0.lower(), bounds.0.upper()) == (Bound::Included(&1), Bound::Excluded(&5)));
    assert!(rt; (bounds.1.lower(), bounds.1.upper()) == (Bound::Included(&5), Bound::Unbounded));
    assert!(rt; (bounds.2.lower(), bounds.2.upper()) == (Bound::Unbounded, Bound::Excluded(&5)));
    assert!(rt; (bounds.3.lower(), bounds.3.upper()) == (Bound::Unbounded, Bound::Included(&5)));
    assert!(rt; (bounds.4.lower(), bounds.4.upper()) == (Bound::Included(&1), Bound::Included(&5)));
}

fn range_oids<ST>(alloc: Global) -> Result<[Option<(u32, u32)>; 2], Fail>
where
    Pg: HasSqlType<Range<ST>> + HasSqlType<Multirange<ST>>,
{
    let range = <Pg as HasSqlType<Range<ST>>>::metadata(alloc, &mut Dummy)?;
    let multirange = <Pg as HasSqlType<Multirange<ST>>>::metadata(alloc, &mut Dummy)?;
    Ok([range.into_oids().ok(), multirange.into_oids().ok()])
}

#[test]
fn ranges_have_the_oids_of_their_elements(rt: HostRuntime) -> Result<(), Fail> {
    let alloc = rt.alloc();
    assert!(rt; range_oids::<Integer>(alloc)? == [Some((3904, 3905)), Some((4451, 6150))]);
    assert!(rt; range_oids::<BigInt>(alloc)? == [Some((3926, 3927)), Some((4536, 6157))]);
    assert!(rt; range_oids::<Numeric>(alloc)? == [Some((3906, 3907)), Some((4532, 6151))]);
    assert!(rt; range_oids::<Date>(alloc)? == [Some((3912, 3913)), Some((4535, 6155))]);
    assert!(rt; range_oids::<Timestamp>(alloc)? == [Some((3908, 3909)), Some((4533, 6152))]);
    assert!(rt; range_oids::<Timestamptz>(alloc)? == [Some((3910, 3911)), Some((4534, 6153))]);
    let array = <Pg as HasSqlType<Array<Range<Integer>>>>::metadata(alloc, &mut Dummy)?;
    assert!(rt; array.into_oids() == Ok((3905, 0)));
    Ok(())
}
