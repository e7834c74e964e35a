ghost use Rattle.std.specs.Prelude.{◌≤◌};

use pgw_meta::{Dummy, FromSql, HasSqlType, Pg, WriteError, deserialize, serialize};
use pgw_nested::sql_types::{Array, Nullable};
use pgw_nested::{begin_piece, end_piece};
use pgw_record::sql_types::Record;
use pgw_record::{RecordPiece, RecordPieces, WriteTuple, begin_component, begin_record};
use pgw_scalar::TextRef;
use pgw_scalar::sql_types::{Citext, Integer, SmallInt, Text};
use pgw_wire::{ByteBuffer, IsNull, Output, PgValue, RawCell, SqlError};
use std::alloc::Global;
use std::num::NonZeroU32;
use std::test::Fail;

/// 1 and `hi`.
const ONE_AND_HI: &[u8] = b"\0\0\0\x02\0\0\0\x17\0\0\0\x04\0\0\0\x01\0\0\0\x19\0\0\0\x02hi";

/// 42, and a null of the type with the oid 99.
const WITH_NULL: &[u8] = b"\0\0\0\x02\0\0\0\x17\0\0\0\x04\0\0\0\x2a\0\0\0\x63\xff\xff\xff\xff";

/// The numbers from 1 to 8, as components.
const EIGHT: &[u8; 96] = b"\0\0\0\x17\0\0\0\x04\0\0\0\x01\0\0\0\x17\0\0\0\x04\0\0\0\x02\
    \0\0\0\x17\0\0\0\x04\0\0\0\x03\0\0\0\x17\0\0\0\x04\0\0\0\x04\
    \0\0\0\x17\0\0\0\x04\0\0\0\x05\0\0\0\x17\0\0\0\x04\0\0\0\x06\
    \0\0\0\x17\0\0\0\x04\0\0\0\x07\0\0\0\x17\0\0\0\x04\0\0\0\x08";

fn value(bytes: &[u8]) -> PgValue<'_> {
    PgValue::new(bytes, NonZeroU32::MIN)
}

fn read_one(alloc: Global, bytes: &[u8]) -> deserialize::Result<(i32,)> {
    <(i32,) as FromSql<Record<(Integer,)>>>::from_sql(alloc, value(bytes))
}

fn write<ST, T: WriteTuple<ST> + Drop>(buffer: &mut ByteBuffer, tuple: T) -> serialize::Result {
    buffer.clear();
    let mut lookup = Dummy;
    tuple.write_tuple(&mut Output::new(buffer, &mut lookup))
}

#[test]
fn records_are_read(rt: HostRuntime) -> Result<(), Fail> {
    let alloc = rt.alloc();
    let (one, hi) = <(i32, String) as FromSql<Record<(Integer, Text)>>>::from_sql(
        alloc,
        value(ONE_AND_HI),
    )?;
    assert!(rt; (one, hi.as_str()) == (1, "hi"));
    let with_null = <(i32, Option<i32>) as FromSql<Record<(Integer, Nullable<Integer>)>>>::from_sql(
        alloc,
        value(WITH_NULL),
    )?;
    assert!(rt; with_null == (42, None));
    let inside = <((i32,), i32) as FromSql<Record<(Record<(Integer,)>, Integer)>>>::from_sql(
        alloc,
        value(
            b"\0\0\0\x02\0\0\x08\xc9\0\0\0\x10\0\0\0\x01\0\0\0\x17\0\0\0\x04\0\0\0\x01\0\0\0\x17\
            \0\0\0\x04\0\0\0\x02",
        ),
    )?;
    assert!(rt; inside == ((1,), 2));
    Ok(())
}

#[test]
fn what_is_no_record_is_refused(rt: HostRuntime) {
    let table = [
        (b"\0\0\0".as_slice(), SqlError::ShortBuffer),
        (b"\0\0\0\x01", SqlError::ShortBuffer),
        (
            b"\0\0\0\x02\0\0\0\0",
            SqlError::TupleCount { want: 1, have: 2 },
        ),
        (
            b"\xff\xff\xff\xff",
            SqlError::TupleCount { want: 1, have: -1 },
        ),
        (b"\0\0\0\x01\0\0\0\0", SqlError::ZeroOid),
        (b"\0\0\0\x01\0\0\0\0\0\0\0\x04\0\0\0\x2a", SqlError::ZeroOid),
        (b"\0\0\0\x01\0\0\0\x17", SqlError::ShortBuffer),
        (
            b"\0\0\0\x01\0\0\0\x01\0\0\0\x06\0\0\0\x04",
            SqlError::ElementBytes { want: 6, have: 4 },
        ),
        (
            b"\0\0\0\x01\0\0\0\x17\xff\xff\xff\xfe",
            SqlError::NegativeSize(-2),
        ),
        (
            b"\0\0\0\x01\0\0\0\x17\xff\xff\xff\xff",
            SqlError::UnexpectedNull,
        ),
        (
            b"\0\0\0\x01\0\0\0\x17\0\0\0\x01\x2a\xaa",
            SqlError::WrongSize { want: 4, have: 1 },
        ),
        (
            b"\0\0\0\x01\0\0\0\x17\0\0\0\x04\0\0\0\x2a\xaa",
            SqlError::Surplus,
        ),
    ];
    for (bytes, error) in &table {
        assert!(rt; read_one(rt.alloc(), bytes).err() == Some(*error));
    }
    let null = <(i32,) as FromSql<Record<(Integer,)>>>::from_nullable_sql(rt.alloc(), None);
    assert!(rt; null.err() == Some(SqlError::UnexpectedNull));
}

#[test]
fn tuples_are_written(rt: HostRuntime) {
    let mut buffer = ByteBuffer::new(rt.alloc());
    let answer = write::<(Integer, Text), (i32, TextRef<'_>)>(&mut buffer, (1, TextRef("hi")));
    assert!(rt; answer == Ok(IsNull::No));
    assert!(rt; buffer.as_bytes() == ONE_AND_HI);
    let nulls = write::<(Nullable<Integer>, Nullable<SmallInt>), (Option<i32>, Option<i16>)>(
        &mut buffer,
        (Some(42), None),
    );
    assert!(rt; nulls == Ok(IsNull::No));
    let written = b"\0\0\0\x02\0\0\0\x17\0\0\0\x04\0\0\0\x2a\0\0\0\x15\xff\xff\xff\xff".as_slice();
    assert!(rt; buffer.as_bytes() == written);
}

#[test]
fn the_key_that_is_not_known_is_told(rt: HostRuntime) {
    let mut buffer = ByteBuffer::new(rt.alloc());
    match write::<(Integer, Citext), (i32, TextRef<'_>)>(&mut buffer, (1, TextRef("hi"))) {
        Err(WriteError::UnknownType(unknown)) => {
            assert!(rt; unknown.key().type_name() == "citext")
        }
        _ => panic!(rt; "known"),
    }
}

#[test]
fn components_are_lent_one_by_one(rt: HostRuntime) -> Result<(), Fail> {
    let mut pieces = RecordPieces::new(WITH_NULL, 2)?;
    match pieces.next_piece()? {
        Some(
            RecordPiece {
                oid,
                cell: RawCell::Piece(piece),
            },
        ) => {
            assert!(rt; (oid.get(), piece) == (23, b"\0\0\0\x2a".as_slice()));
        }
        _ => panic!(rt; "no piece"),
    }
    match pieces.next_piece()? {
        Some(
            RecordPiece {
                oid,
                cell: RawCell::Null,
            },
        ) => {
            assert!(rt; oid.get() == 99);
        }
        _ => panic!(rt; "no null"),
    }
    assert!(rt; pieces.next_piece()?.is_none());
    let mut surplus = RecordPieces::new(b"\0\0\0\0\x2a", 0)?;
    for _call in 0..2 {
        assert!(rt; surplus.next_piece().err() == Some(SqlError::Surplus));
    }
    Ok(())
}

#[test]
fn records_are_begun(rt: HostRuntime) -> Result<(), Fail> {
    let mut buffer = ByteBuffer::new(rt.alloc());
    let mut lookup = Dummy;
    {
        let mut out = Output::new(&mut buffer, &mut lookup);
        begin_record(&mut out, 1)?;
        begin_component(&mut out, 23)?;
        let mark = begin_piece(&mut out)?;
        end_piece(&mut out, mark)?;
        assert!(rt; begin_record(&mut out, 2147483648) == Err(WriteError::TooMany));
    }
    assert!(rt; buffer.as_bytes() == b"\0\0\0\x01\0\0\0\x17\0\0\0\0".as_slice());
    Ok(())
}

#[test]
fn records_have_oids_of_their_own(rt: HostRuntime) -> Result<(), Fail> {
    let alloc = rt.alloc();
    let record = <Pg as HasSqlType<Record<(Integer,)>>>::metadata(alloc, &mut Dummy)?;
    assert!(rt; record.into_oids() == Ok((2249, 2287)));
    let array = <Pg as HasSqlType<Array<Record<(Integer,)>>>>::metadata(alloc, &mut Dummy)?;
    assert!(rt; array.into_oids() == Ok((2287, 0)));
    Ok(())
}

/// The tuple of the first numbers is written as their components, and read back from these.
fn write_and_read<ST, T: FromSql<Record<ST>> + WriteTuple<ST>>(
    alloc: Global,
    count: u8,
    tuple: T,
) -> Result<(bool, T), Fail>
    requires { count ≤ 8 }
{
    let mut record = ByteBuffer::new(alloc);
    record.push_all(&[0, 0, 0, count])?;
    record.push_all(&EIGHT[..12 * count as usize])?;
    let mut buffer = ByteBuffer::new(alloc);
    let answer = write::<ST, T>(&mut buffer, tuple);
    let is_written = answer == Ok(IsNull::No) && buffer.as_bytes() == record.as_bytes();
    Ok((is_written, T::from_sql(alloc, value(record.as_bytes()))?))
}

#[test]
fn tuples_of_one_to_four_members_are_written_and_read(rt: HostRuntime) -> Result<(), Fail> {
    let alloc = rt.alloc();
    let numbers = write_and_read::<(Integer,), (i32,)>(alloc, 1, (1,))?;
    assert!(rt; numbers == (true, (1,)));
    let numbers = write_and_read::<(Integer, Integer), (i32, i32)>(alloc, 2, (1, 2))?;
    assert!(rt; numbers == (true, (1, 2)));
    let numbers = write_and_read::<(Integer, Integer, Integer), (i32, i32, i32)>(
        alloc,
        3,
        (1, 2, 3),
    )?;
    assert!(rt; numbers == (true, (1, 2, 3)));
    let numbers = write_and_read::<(Integer, Integer, Integer, Integer), (i32, i32, i32, i32)>(
        alloc,
        4,
        (1, 2, 3, 4),
    )?;
    assert!(rt; numbers == (true, (1, 2, 3, 4)));
    Ok(())
}

#[test]
fn tuples_of_five_to_eight_members_are_written_and_read(rt: HostRuntime) -> Result<(), Fail> {
    let alloc = rt.alloc();
    let numbers = write_and_read::<
        (Integer, Integer, Integer, Integer, Integer),
        (i32, i32, i32, i32, i32),
    >(alloc, 5, (1, 2, 3, 4, 5))?;
    assert!(rt; numbers == (true, (1, 2, 3, 4, 5)));
    let numbers = write_and_read::<
        (Integer, Integer, Integer, Integer, Integer, Integer),
        (i32, i32, i32, i32, i32, i32),
    >(alloc, 6, (1, 2, 3, 4, 5, 6))?;
    assert!(rt; numbers == (true, (1, 2, 3, 4, 5, 6)));
    let numbers = write_and_read::<
        (
            Integer,
            Integer,
            Integer,
            Integer,
            Integer,
            Integer,
            Integer,
        ),
        (i32, i32, i32, i32, i32, i32, i32),
    >(alloc, 7, (1, 2, 3, 4, 5, 6, 7))?;
    assert!(rt; numbers == (true, (1, 2, 3, 4, 5, 6, 7)));
    let numbers = write_and_read::<
        (
            Integer,
            Integer,
            Integer,
            Integer,
            Integer,
            Integer,
            Integer,
            Integer,
        ),
        (i32, i32, i32, i32, i32, i32, i32, i32),
    >(alloc, 8, (1, 2, 3, 4, 5, 6, 7, 8))?;
    assert!(rt; numbers == (true, (1, 2, 3, 4, 5, 6, 7, 8)));
    Ok(())
}
