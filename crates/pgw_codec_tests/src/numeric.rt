use pgw_meta::{
    Defaultable, Dummy, FromSql, HasSqlType, Pg, PgTypeMetadata, RangeElement, ToSql, WriteError,
    deserialize, serialize,
};
use pgw_numeric::field::{Front, Header, Sign, canonical_front, sign_of, take_header, take_parts};
use pgw_numeric::sql_types::Numeric;
use pgw_numeric::{InvalidNumericSign, PgNumeric};
use pgw_wire::{Break, ByteBuffer, IsNull, Output, PgValue, SqlError};
use std::alloc::Global;
use std::num::NonZeroU32;
use std::test::Fail;

/// -123.456, which is -(123 + 4560 / 10000).
const NEGATIVE: &[u8] = b"\0\x02\0\0\x40\0\0\x03\0\x7b\x11\xd0";

/// What is not a number.
const NAN: &[u8] = b"\0\0\0\0\xc0\0\0\0";

fn read(alloc: Global, bytes: &[u8]) -> deserialize::Result<PgNumeric> {
    PgNumeric::from_nullable_sql(alloc, Some(PgValue::new(bytes, NonZeroU32::MIN)))
}

fn write(buffer: &mut ByteBuffer, value: &PgNumeric) -> serialize::Result {
    value.to_sql(&mut Output::new(buffer, &mut Dummy))
}

#[test]
fn numbers_are_their_digits(rt: HostRuntime) -> Result<(), Fail> {
    let alloc = rt.alloc();
    let negative = PgNumeric::Negative {
        weight: 0,
        scale: 3,
        digits: Vec::from_slice(alloc, &[123, 4560])?,
    };
    assert!(rt; read(alloc, NEGATIVE) == Ok(negative));
    let other = PgNumeric::Positive {
        weight: -1,
        scale: 2,
        digits: Vec::from_slice(alloc, &[-1])?,
    };
    assert!(rt; read(alloc, b"\0\x01\xff\xff\0\0\0\x02\xff\xff\x09\x09") == Ok(other));
    let zero = PgNumeric::Positive {
        weight: 0,
        scale: 0,
        digits: Vec::new(alloc),
    };
    assert!(rt; read(alloc, &[0; 8]) == Ok(zero));
    Ok(())
}

#[test]
fn what_is_read_is_written_alike(rt: HostRuntime) -> Result<(), Fail> {
    let alloc = rt.alloc();
    let mut buffer = ByteBuffer::new(alloc);
    let written = [
        write(&mut buffer, &read(alloc, NEGATIVE)?),
        write(&mut buffer, &read(alloc, &[0; 8])?),
    ];
    assert!(rt; written == [Ok(IsNull::No), Ok(IsNull::No)]);
    let bytes = b"\0\x02\0\0\x40\0\0\x03\0\x7b\x11\xd0\0\0\0\0\0\0\0\0";
    assert!(rt; buffer.as_bytes() == bytes.as_slice());
    Ok(())
}

#[test]
fn what_is_not_a_number_has_one_form(rt: HostRuntime) -> Result<(), Fail> {
    let alloc = rt.alloc();
    let mut buffer = ByteBuffer::new(alloc);
    let value = read(alloc, b"\0\x01\0\x05\xc0\0\0\x09\x13\x88")?;
    assert!(rt; value == PgNumeric::NaN);
    assert!(rt; write(&mut buffer, &value) == Ok(IsNull::No));
    assert!(rt; buffer.as_bytes() == NAN);
    Ok(())
}

#[test]
fn fields_are_refused(rt: HostRuntime) {
    let alloc = rt.alloc();
    let refused = (
        read(alloc, b"\0\0\0\0\x80\0\0\0"),
        read(alloc, b"\0\x03\0\0\x80\0\0\0\0\x01"),
        read(alloc, b"\0\x01\0\0\xc0\0\0\0\0"),
        read(alloc, b"\0\0\0\0\0\0\0"),
        PgNumeric::from_nullable_sql(alloc, None),
    );
    let errors = (
        Err(SqlError::InvalidSign(InvalidNumericSign(0x8000))),
        Err(SqlError::ShortBuffer),
        Err(SqlError::ShortBuffer),
        Err(SqlError::ShortBuffer),
        Err(SqlError::UnexpectedNull),
    );
    assert!(rt; refused == errors);
}

#[test]
fn a_field_has_65535_digits_at_most(rt: HostRuntime) -> Result<(), Fail> {
    let alloc = rt.alloc();
    let mut bytes = Vec::from_elem(alloc, 0xff, 131078)?;
    bytes[4..8].copy_from_slice(b"\x40\0\0\x09");
    let value = read(alloc, &bytes)?;
    let mut buffer = ByteBuffer::new(alloc);
    assert!(rt; write(&mut buffer, &value) == Ok(IsNull::No));
    assert!(rt; buffer.as_bytes() == bytes.as_slice());
    let more = PgNumeric::Positive {
        weight: 0,
        scale: 0,
        digits: Vec::from_elem(alloc, 1, 65536)?,
    };
    let mut buffer = ByteBuffer::new(alloc);
    assert!(rt; write(&mut buffer, &more) == Err(WriteError::TooMany));
    assert!(rt; buffer.as_bytes() == b"".as_slice());
    Ok(())
}

#[test]
fn fields_are_walked_over(rt: HostRuntime) {
    let long = *b"\0\x01\0\0\0\0\0\x03\0\x7b\x11\xd0";
    let fronts = (
        canonical_front(NEGATIVE),
        canonical_front(&long),
        canonical_front(b"\0\0\0\x05\xc0\0\0\x09"),
        canonical_front(b"\0\x01\0\0\x80\0\0\0"),
        canonical_front(b"\0\0\0\0\x80\0\0\0"),
    );
    let expected = (
        Ok(Front::Number(NEGATIVE)),
        Ok(Front::Number(&long[..10])),
        Ok(Front::NaN),
        Err(Break::Size),
        Err(Break::Sign),
    );
    assert!(rt; fronts == expected);
    let first = Header {
        count: 1,
        weight: 0,
        sign: Sign::Positive.word(),
        scale: 3,
    };
    assert!(rt; take_header(&long) == Some((first, b"\0\x7b\x11\xd0".as_slice())));
    assert!(rt; take_parts(&long) == Some((first, b"\0\x7b".as_slice())));
    assert!(rt; (first.size(), first.to_bytes().as_slice()) == (10, &long[..8]));
    assert!(rt; (sign_of(0x4000), sign_of(1)) == (Some(Sign::Negative), None));
}

#[test]
fn the_type_has_the_oids_of_the_catalog(rt: HostRuntime) {
    match <Pg as HasSqlType<Numeric>>::metadata(rt.alloc(), &mut Dummy) {
        Ok(metadata) => assert!(rt; metadata == PgTypeMetadata::new(1700, 1231)),
        Err(_) => panic!(rt; "no memory"),
    }
    let ranges = [
        <Numeric as RangeElement>::RANGE_OID,
        <Numeric as RangeElement>::RANGE_ARRAY_OID,
        <Numeric as RangeElement>::MULTIRANGE_OID,
        <Numeric as RangeElement>::MULTIRANGE_ARRAY_OID,
    ];
    assert!(rt; ranges == [3906, 3907, 4532, 6151]);
    assert!(rt;
        (PgNumeric::default(), PgNumeric::default_value()) == (PgNumeric::NaN, PgNumeric::NaN)
    );
}
