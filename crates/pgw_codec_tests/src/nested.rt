use pgw_meta::{Dummy, FromSql, HasSqlType, Pg, ToSql, WriteError, deserialize, serialize};
use pgw_nested::sql_types::{Array, Nullable};
use pgw_nested::{
    ArrayPieces, Items, begin_array, begin_piece, close_length, end_piece, null_flag, null_piece,
    place_array, place_length,
};
use pgw_scalar::TextRef;
use pgw_scalar::sql_types::{Citext, Integer, Text};
use pgw_wire::{ByteBuffer, IsNull, Output, PgValue, RawCell, SqlError};
use std::alloc::Global;
use std::num::NonZeroU32;
use std::test::Fail;

/// 42 and a null.
const WITH_NULL: &[u8] = b"\0\0\0\x01\0\0\0\x01\0\0\0\x17\0\0\0\x02\0\0\0\x01\
    \0\0\0\x04\0\0\0\x2a\xff\xff\xff\xff";

/// No element.
const EMPTY: &[u8] = b"\0\0\0\x01\0\0\0\0\0\0\0\x17\0\0\0\0\0\0\0\x01";

fn value(bytes: &[u8]) -> PgValue<'_> {
    PgValue::new(bytes, NonZeroU32::MIN)
}

fn read(alloc: Global, bytes: &[u8]) -> deserialize::Result<Vec<Option<i32>>> {
    <Vec<Option<i32>> as FromSql<Array<Nullable<Integer>>>>::from_sql(alloc, value(bytes))
}

fn write<A, T: ToSql<A> + Drop>(buffer: &mut ByteBuffer, value: T) -> serialize::Result {
    let mut lookup = Dummy;
    value.to_sql(&mut Output::new(buffer, &mut lookup))
}

#[test]
fn options_are_read_and_written(rt: HostRuntime) -> Result<(), Fail> {
    let alloc = rt.alloc();
    let mut buffer = ByteBuffer::new(alloc);
    let answers = (
        write::<Nullable<Text>, Option<TextRef<'_>>>(&mut buffer, None),
        write::<Nullable<Text>, Option<TextRef<'_>>>(&mut buffer, Some(TextRef(""))),
        write::<Nullable<Text>, Option<TextRef<'_>>>(&mut buffer, Some(TextRef("Sean"))),
    );
    assert!(rt; answers == (Ok(IsNull::Yes), Ok(IsNull::No), Ok(IsNull::No)));
    assert!(rt; buffer.as_bytes() == b"Sean".as_slice());
    let null = <Option<i32> as FromSql<Nullable<Integer>>>::from_nullable_sql(alloc, None);
    let number = <Option<i32> as FromSql<Nullable<Integer>>>::from_sql(alloc, value(b"\0\0\0\x2a"));
    assert!(rt; (null, number) == (Ok(None), Ok(Some(42))));
    Ok(())
}

#[test]
fn arrays_are_read(rt: HostRuntime) -> Result<(), Fail> {
    let alloc = rt.alloc();
    let read_back = read(alloc, WITH_NULL)?;
    assert!(rt; read_back.as_slice() == [Some(42), None].as_slice());
    let empty = [
        b"\0\0\0\0\0\0\0\x01\0\0\0\x17\x09".as_slice(),
        EMPTY,
        b"\0\0\0\x01\0\0\0\0\0\0\0\x17\xff\xff\xff\xfd\0\0\0\x01\x09",
    ];
    for bytes in &empty {
        assert!(rt; read(alloc, bytes)?.is_empty());
    }
    Ok(())
}

#[test]
fn what_is_no_array_is_refused(rt: HostRuntime) {
    let table = [
        (
            b"\0\0\0\0\0\0\0\x01\0\0\0".as_slice(),
            SqlError::ShortBuffer,
        ),
        (
            b"\0\0\0\x02\0\0\0\0\0\0\0\x17\0\0\0\x01\0\0\0\x01",
            SqlError::Dimensions(2),
        ),
        (
            b"\0\0\0\x01\0\0\0\0\0\0\0\0\0\0\0\x02\0\0\0\0\0\0\0\x06\0\0\0\x2a",
            SqlError::ElementBytes { want: 6, have: 4 },
        ),
        (
            b"\0\0\0\x01\0\0\0\0\0\0\0\0\0\0\0\x02\0\0\0\0\0\0\0\x04\0\0\0\x2a",
            SqlError::ShortBuffer,
        ),
        (
            b"\0\0\0\x01\0\0\0\0\0\0\0\x17\0\0\0\x01\0\0\0\x01\xff\xff\xff\xff",
            SqlError::NegativeSize(-1),
        ),
        (
            b"\0\0\0\x01\0\0\0\x01\0\0\0\x17\0\0\0\x01\0\0\0\x01\xff\xff\xff\xfe",
            SqlError::NegativeSize(-2),
        ),
        (
            b"\0\0\0\x01\0\0\0\0\0\0\0\x17\x7f\xff\xff\xff\0\0\0\x01\0\0\0\x04",
            SqlError::ElementBytes { want: 4, have: 0 },
        ),
        (
            b"\0\0\0\x01\0\0\0\0\0\0\0\x17\0\0\0\x02\0\0\0\x01\0\0\0\x01\x09",
            SqlError::WrongSize { want: 4, have: 1 },
        ),
    ];
    for (bytes, error) in &table {
        assert!(rt; read(rt.alloc(), bytes).err() == Some(*error));
    }
    let null = <Vec<i32> as FromSql<Array<Integer>>>::from_sql(rt.alloc(), value(WITH_NULL));
    assert!(rt; null.err() == Some(SqlError::UnexpectedNull));
}

#[test]
fn arrays_are_written(rt: HostRuntime) -> Result<(), Fail> {
    let alloc = rt.alloc();
    let values = [Some(42), None];
    let mut buffer = ByteBuffer::new(alloc);
    let items = write::<Array<Nullable<Integer>>, Items<'_, Option<i32>>>(
        &mut buffer,
        Items(&values),
    );
    assert!(rt; items == Ok(IsNull::No));
    assert!(rt; buffer.as_bytes() == WITH_NULL);
    buffer.clear();
    let list = Vec::from_slice(alloc, &values)?;
    let listed = write::<Array<Nullable<Integer>>, Vec<Option<i32>>>(&mut buffer, list);
    assert!(rt; listed == Ok(IsNull::No));
    assert!(rt; buffer.as_bytes() == WITH_NULL);
    buffer.clear();
    let empty = write::<Nullable<Array<Integer>>, Items<'_, i32>>(&mut buffer, Items(&[]));
    assert!(rt; empty == Ok(IsNull::No));
    assert!(rt; buffer.as_bytes() == EMPTY);
    let none = write::<Nullable<Array<Integer>>, Vec<i32>>(&mut buffer, Vec::new(alloc));
    assert!(rt; none == Ok(IsNull::No));
    Ok(())
}

#[test]
fn an_unknown_element_is_refused(rt: HostRuntime) {
    let alloc = rt.alloc();
    let mut buffer = ByteBuffer::new(alloc);
    match write::<Array<Citext>, Vec<String>>(&mut buffer, Vec::new(alloc)) {
        Err(WriteError::UnknownType(unknown)) => {
            assert!(rt; unknown.key().type_name() == "citext")
        }
        _ => panic!(rt; "known"),
    }
}

#[test]
fn elements_are_lent_one_by_one(rt: HostRuntime) -> Result<(), Fail> {
    let mut pieces = ArrayPieces::new(WITH_NULL)?;
    match pieces.next_piece()? {
        Some(RawCell::Piece(piece)) => assert!(rt; piece == b"\0\0\0\x2a".as_slice()),
        _ => panic!(rt; "no piece"),
    }
    match pieces.next_piece()? {
        Some(RawCell::Null) => {}
        _ => panic!(rt; "no null"),
    }
    assert!(rt; pieces.next_piece()?.is_none());
    let mut short = ArrayPieces::new(b"\0\0\0\x01\0\0\0\0\0\0\0\x17\0\0\0\x01\0\0\0\x01\0\0")?;
    for _call in 0..2 {
        assert!(rt; short.next_piece().err() == Some(SqlError::ShortBuffer));
    }
    Ok(())
}

#[test]
fn lengths_and_flags_are_set_later(rt: HostRuntime) -> Result<(), Fail> {
    let mut buffer = ByteBuffer::new(rt.alloc());
    buffer.push_all(b"\x09")?;
    let mut lookup = Dummy;
    {
        let mut out = Output::new(&mut buffer, &mut lookup);
        let array = begin_array(&mut out, 23, 2)?;
        let piece = begin_piece(&mut out)?;
        out.write_all(b"\0\0\0\x2a")?;
        end_piece(&mut out, piece)?;
        let null = begin_piece(&mut out)?;
        out.write_all(b"\0\0")?;
        null_piece(&mut out, null);
        null_flag(&mut out, &array);
    }
    assert!(rt; &buffer.as_bytes()[1..] == WITH_NULL);
    Ok(())
}

#[test]
fn arrays_are_placed_in_room_that_was_made(rt: HostRuntime) -> Result<(), Fail> {
    let mut buffer = ByteBuffer::new(rt.alloc());
    buffer.reserve(32)?;
    let flags = place_array(&mut buffer, 23, 2);
    let piece = place_length(&mut buffer);
    buffer.push_reserved(b"\0\0\0\x2a");
    close_length(&mut buffer, piece);
    let _null = place_length(&mut buffer);
    buffer.patch_u32(flags, 1);
    assert!(rt; buffer.as_bytes() == WITH_NULL);
    Ok(())
}

#[test]
fn arrays_have_the_array_oid_of_their_elements(rt: HostRuntime) -> Result<(), Fail> {
    let array = <Pg as HasSqlType<Array<Nullable<Integer>>>>::metadata(rt.alloc(), &mut Dummy)?;
    assert!(rt; array.into_oids() == Ok((1007, 0)));
    Ok(())
}
