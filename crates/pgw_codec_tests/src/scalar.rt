use pgw_meta::{
    Dummy, FromSql, FromSqlRef, HasSqlType, Pg, PgTypeMetadata, RangeElement, ToSql, deserialize,
    serialize,
};
use pgw_scalar::sql_types::{
    BigInt, Binary, Bool, Bytea, CChar, Cidr, Citext, Inet, Int8, Integer, MacAddr, MacAddr8,
    Money, Oid, PgLsn as LsnType, SmallInt, Text, Uuid as UuidType,
};
use pgw_scalar::{
    BytesRef, Cents, IpNetwork, Ipv4Network, Ipv6Network, PgLsn, PgMoney, PrefixError, TextRef,
};
use pgw_wire::{ByteBuffer, IsNull, NetworkFault, Output, PgValue, SqlError};
use std::alloc::Global;
use std::borrow::{CowSlice, CowStr};
use std::num::NonZeroU32;
use std::test::Fail;
use uuid::Uuid;

const MAC: [u8; 6] = [0x52, 0x54, 0x00, 0xfb, 0xc6, 0x16];

const MAC8: [u8; 8] = [0x52, 0x54, 0x00, 0xfb, 0xc6, 0x16, 0x17, 0xff];

const UUID: [u8; 16] = *b"\xff\xff\xff\xff\xff\xff\xff\xffabcdef12";

fn value(bytes: &[u8]) -> PgValue<'_> {
    PgValue::new(bytes, NonZeroU32::MIN)
}

fn read<A, T: FromSql<A>>(alloc: Global, bytes: &[u8]) -> deserialize::Result<T> {
    T::from_nullable_sql(alloc, Some(value(bytes)))
}

/// Whether the value is written, as no null.
fn write<A, T: ToSql<A> + Drop>(buffer: &mut ByteBuffer, value: T) -> bool {
    let mut lookup = Dummy;
    value.to_sql(&mut Output::new(buffer, &mut lookup)) == Ok(IsNull::No)
}

#[test]
fn whole_numbers_are_big_endian(rt: HostRuntime) {
    let mut buffer = ByteBuffer::new(rt.alloc());
    let written = [
        write::<SmallInt, i16>(&mut buffer, 1),
        write::<SmallInt, i16>(&mut buffer, 0),
        write::<SmallInt, i16>(&mut buffer, -1),
        write::<Integer, i32>(&mut buffer, 1),
        write::<Integer, i32>(&mut buffer, 0),
        write::<Integer, i32>(&mut buffer, -1),
        write::<BigInt, i64>(&mut buffer, -1),
        write::<Money, PgMoney>(&mut buffer, Cents(-2)),
        write::<LsnType, PgLsn>(&mut buffer, PgLsn(0x525400FBC61617FF)),
        write::<Oid, u32>(&mut buffer, 0xfffffffe),
    ];
    assert!(rt; written == [true; 10]);
    let bytes = b"\0\x01\0\0\xff\xff\
        \0\0\0\x01\0\0\0\0\xff\xff\xff\xff\
        \xff\xff\xff\xff\xff\xff\xff\xff\
        \xff\xff\xff\xff\xff\xff\xff\xfe\
        \x52\x54\0\xfb\xc6\x16\x17\xff\
        \xff\xff\xff\xfe";
    assert!(rt; buffer.as_bytes() == bytes.as_slice());
}

#[test]
fn whole_numbers_are_read(rt: HostRuntime) {
    let alloc = rt.alloc();
    let numbers = (
        read::<SmallInt, i16>(alloc, b"\xff\xfe"),
        read::<Integer, i32>(alloc, b"\0\0\x01\0"),
        read::<Int8, i64>(alloc, b"\x80\0\0\0\0\0\0\0"),
        read::<Money, PgMoney>(alloc, b"\xff\xff\xff\xff\xff\xff\xff\xfe"),
        read::<LsnType, PgLsn>(alloc, &MAC8),
    );
    let expected = (
        Ok(-2),
        Ok(256),
        Ok(i64::MIN),
        Ok(PgMoney(-2)),
        Ok(PgLsn(0x525400FBC61617FF)),
    );
    assert!(rt; numbers == expected);
    let long = SqlError::WrongSize { want: 4, have: 5 };
    assert!(rt; read::<Integer, i32>(alloc, b"\0\0\0\0\x2a") == Err(long));
    assert!(rt;
        <i32 as FromSql<Integer>>::from_nullable_sql(alloc, None) == Err(SqlError::UnexpectedNull)
    );
}

#[test]
fn first_bytes_count(rt: HostRuntime) {
    let alloc = rt.alloc();
    let mut buffer = ByteBuffer::new(alloc);
    let written = [
        write::<CChar, u8>(&mut buffer, b'A'),
        write::<CChar, u8>(&mut buffer, 0xc4),
        write::<Bool, bool>(&mut buffer, true),
        write::<Bool, bool>(&mut buffer, false),
    ];
    assert!(rt; written == [true; 4]);
    assert!(rt; buffer.as_bytes() == b"\x41\xc4\x01\0".as_slice());
    let values = (
        read::<Bool, bool>(alloc, b"\x02\xaa\xbb"),
        read::<Bool, bool>(alloc, b"\0\x01"),
        read::<CChar, u8>(alloc, b"\xc4\x41"),
        read::<Oid, u32>(alloc, b"\xff\xff\xff\xfe\x09"),
    );
    assert!(rt; values == (Ok(true), Ok(false), Ok(0xc4), Ok(0xfffffffe)));
    let refused = (
        read::<Bool, bool>(alloc, b""),
        read::<CChar, u8>(alloc, b""),
        read::<Oid, u32>(alloc, b"\0\x40\x10"),
    );
    let errors = (
        Err(SqlError::EmptyResponse),
        Err(SqlError::EmptyResponse),
        Err(SqlError::ShortBuffer),
    );
    assert!(rt; refused == errors);
}

#[test]
fn addresses_and_uuids_are_their_bytes(rt: HostRuntime) {
    let alloc = rt.alloc();
    let mut buffer = ByteBuffer::new(alloc);
    let written = [
        write::<MacAddr, [u8; 6]>(&mut buffer, MAC),
        write::<MacAddr8, [u8; 8]>(&mut buffer, MAC8),
        write::<UuidType, Uuid>(&mut buffer, Uuid::from_bytes(UUID)),
    ];
    assert!(rt; written == [true; 3]);
    let bytes = b"\x52\x54\0\xfb\xc6\x16\x52\x54\0\xfb\xc6\x16\x17\xff\
        \xff\xff\xff\xff\xff\xff\xff\xffabcdef12";
    assert!(rt; buffer.as_bytes() == bytes.as_slice());
    let values = (
        read::<MacAddr, [u8; 6]>(alloc, &MAC),
        read::<MacAddr8, [u8; 8]>(alloc, &MAC8),
        read::<UuidType, Uuid>(alloc, &UUID),
    );
    assert!(rt; values == (Ok(MAC), Ok(MAC8), Ok(Uuid::from_bytes(UUID))));
    let refused = (
        read::<MacAddr, [u8; 6]>(alloc, &MAC8),
        read::<MacAddr8, [u8; 8]>(alloc, &MAC),
        read::<UuidType, Uuid>(alloc, b"boom"),
    );
    let errors = (
        Err(SqlError::MacLength { want: 6 }),
        Err(SqlError::MacLength { want: 8 }),
        Err(SqlError::UuidLength { have: 4 }),
    );
    assert!(rt; refused == errors);
}

const LOOPBACK: [u8; 4] = [127, 0, 0, 1];

const LOOPBACK6: [u8; 16] = [0, 0, 0, 0, 0, 0, 0, 0, 0, 0, 0, 0, 0, 0, 0, 1];

const FIELD6: [u8; 20] = *b"\x03\x40\0\x10\0\0\0\0\0\0\0\0\0\0\0\0\0\0\0\x01";

fn four(ip: [u8; 4], prefix: u8) -> Result<IpNetwork, PrefixError> {
    Ok(IpNetwork::V4(Ipv4Network::new(ip, prefix)?))
}

fn six(ip: [u8; 16], prefix: u8) -> Result<IpNetwork, PrefixError> {
    Ok(IpNetwork::V6(Ipv6Network::new(ip, prefix)?))
}

#[test]
fn networks_are_written(rt: HostRuntime) -> Result<(), Fail> {
    let mut buffer = ByteBuffer::new(rt.alloc());
    let written = [
        write::<Inet, IpNetwork>(&mut buffer, four(LOOPBACK, 32)?),
        write::<Cidr, IpNetwork>(&mut buffer, four(LOOPBACK, 32)?),
        write::<Cidr, IpNetwork>(&mut buffer, four([192, 168, 0, 1], 24)?),
        write::<Inet, IpNetwork>(&mut buffer, six(LOOPBACK6, 64)?),
    ];
    assert!(rt; written == [true; 4]);
    let bytes = b"\x02\x20\0\x04\x7f\0\0\x01\
        \x02\x20\x01\x04\x7f\0\0\x01\
        \x02\x18\x01\x04\xc0\xa8\0\x01\
        \x03\x40\0\x10\0\0\0\0\0\0\0\0\0\0\0\0\0\0\0\x01";
    assert!(rt; buffer.as_bytes() == bytes.as_slice());
    Ok(())
}

#[test]
fn networks_are_read(rt: HostRuntime) -> Result<(), Fail> {
    let alloc = rt.alloc();
    let values = (
        read::<Inet, IpNetwork>(alloc, b"\x02\x20\0\x04\x7f\0\0\x01"),
        read::<Cidr, IpNetwork>(alloc, b"\x02\x20\x01\x04\x7f\0\0\x01"),
        read::<Cidr, IpNetwork>(alloc, b"\x02\x18\x01\x04\xc0\xa8\0\x01"),
        read::<Inet, IpNetwork>(alloc, b"\x02\0\0\x04\x7f\0\0\x01"),
        read::<Inet, IpNetwork>(alloc, &FIELD6),
    );
    let networks = (
        Ok(four(LOOPBACK, 32)?),
        Ok(four(LOOPBACK, 32)?),
        Ok(four([192, 168, 0, 1], 24)?),
        Ok(four(LOOPBACK, 0)?),
        Ok(six(LOOPBACK6, 64)?),
    );
    assert!(rt; values == networks);
    Ok(())
}

const FAULTS: [(&[u8], SqlError); 7] = [
    (b"\x07\x02\0", SqlError::Network(NetworkFault::TooShort)),
    (
        b"\x02\x20\x01\x04\x7f\0\0\x01",
        SqlError::Network(NetworkFault::WrongType),
    ),
    (
        b"\x02\x21\0\x05\x7f\0\0\x01\0",
        SqlError::Network(NetworkFault::WrongLength),
    ),
    (
        b"\x02\x21\0\x05\x7f\0\0\x01",
        SqlError::Network(NetworkFault::WrongAddressLength),
    ),
    (b"\x02\x21\0\x04\x7f\0\0\x01", SqlError::BadPrefix(33)),
    (
        b"\x03\x81\0\x10\0\0\0\0\0\0\0\0\0\0\0\0\0\0\0\x01",
        SqlError::BadPrefix(129),
    ),
    (
        b"\x07\x20\0\x04\x7f\0\0\x01",
        SqlError::Network(NetworkFault::WrongFamily),
    ),
];

#[test]
fn the_first_fault_of_a_network_is_told(rt: HostRuntime) {
    let alloc = rt.alloc();
    for (bytes, error) in &FAULTS {
        assert!(rt; read::<Inet, IpNetwork>(alloc, bytes) == Err(*error));
    }
    let inet = read::<Cidr, IpNetwork>(alloc, b"\x02\x20\0\x04\x7f\0\0\x01");
    assert!(rt; inet == Err(SqlError::Network(NetworkFault::WrongType)));
}

#[test]
fn prefixes_are_no_longer_than_the_address(rt: HostRuntime) -> Result<(), Fail> {
    let alloc = rt.alloc();
    let short = Ipv4Network::new(LOOPBACK, 32)?;
    assert!(rt; (short.ip(), short.prefix()) == (LOOPBACK, 32));
    let long = Ipv6Network::new(LOOPBACK6, 128)?;
    assert!(rt; (long.ip(), long.prefix()) == (LOOPBACK6, 128));
    let past = (
        Ipv4Network::new(LOOPBACK, 33),
        Ipv6Network::new(LOOPBACK6, 129),
    );
    assert!(rt; past == (Err(PrefixError), Err(PrefixError)));
    let text = PrefixError.to_string(alloc)?;
    assert!(rt; text.as_str() == "the prefix is longer than the address");
    Ok(())
}

#[test]
fn texts_and_bytes_are_read(rt: HostRuntime) -> Result<(), Fail> {
    let alloc = rt.alloc();
    let sean = b"\x53\x65\x61\x6e";
    assert!(rt; read::<Text, String>(alloc, sean)?.as_str() == "Sean");
    assert!(rt; read::<Text, CowStr>(alloc, sean)? == CowStr::Borrowed("Sean"));
    assert!(rt; read::<Citext, String>(alloc, sean)?.as_str() == "Sean");
    assert!(rt; read::<Citext, CowStr>(alloc, sean)? == CowStr::Borrowed("Sean"));
    assert!(rt; <&str as FromSqlRef<'_, Text>>::from_sql_ref(value(sean)) == Ok("Sean"));
    assert!(rt; read::<Text, String>(alloc, b"\xc3\x28") == Err(SqlError::BadUtf8));
    assert!(rt; read::<Binary, Vec<u8>>(alloc, sean)?.as_slice() == sean.as_slice());
    assert!(rt; read::<Bytea, CowSlice<u8>>(alloc, sean)?.as_slice() == sean.as_slice());
    assert!(rt;
        <&[u8] as FromSqlRef<'_, Binary>>::from_sql_ref(value(b"\xc3\x28"))
            == Ok(b"\xc3\x28".as_slice())
    );
    Ok(())
}

#[test]
fn texts_and_bytes_are_written(rt: HostRuntime) -> Result<(), Fail> {
    let alloc = rt.alloc();
    let mut buffer = ByteBuffer::new(alloc);
    let written = [
        write::<Text, String>(&mut buffer, "a".to_string(alloc)?),
        write::<Text, CowStr>(&mut buffer, CowStr::Borrowed("b")),
        write::<Text, TextRef>(&mut buffer, TextRef("c")),
        write::<Citext, String>(&mut buffer, "d".to_string(alloc)?),
        write::<Citext, CowStr>(&mut buffer, CowStr::Borrowed("e")),
        write::<Citext, TextRef>(&mut buffer, TextRef("f")),
        write::<Binary, Vec<u8>>(&mut buffer, Vec::from_slice(alloc, b"g")?),
        write::<Binary, CowSlice<u8>>(&mut buffer, CowSlice::Borrowed(b"h".as_slice())),
        write::<Binary, BytesRef>(&mut buffer, BytesRef(b"i")),
        write::<Binary, [u8; 2]>(&mut buffer, *b"jk"),
    ];
    assert!(rt; written == [true; 10]);
    assert!(rt; buffer.as_bytes() == b"abcdefghijk".as_slice());
    Ok(())
}

#[test]
fn sums_of_money_do_not_wrap(rt: HostRuntime) {
    let sums = (
        PgMoney(123).checked_sub(PgMoney(456)),
        PgMoney(123).checked_add(PgMoney(456)),
        PgMoney(i64::MAX).checked_add(PgMoney(1)),
        PgMoney(i64::MIN).checked_sub(PgMoney(1)),
    );
    assert!(rt; sums == (Some(PgMoney(-333)), Some(PgMoney(579)), None, None));
    assert!(rt; PgLsn::default() == PgLsn(0));
}

/// Whether the metadata of the type are these, without any lookup that knows a type.
fn has_oids<A>(alloc: Global, oid: u32, array_oid: u32) -> bool
where
    Pg: HasSqlType<A>,
{
    match <Pg as HasSqlType<A>>::metadata(alloc, &mut Dummy) {
        Ok(metadata) => metadata == PgTypeMetadata::new(oid, array_oid),
        Err(_) => false,
    }
}

#[test]
fn types_have_the_oids_of_the_catalog(rt: HostRuntime) {
    let alloc = rt.alloc();
    let known = [
        has_oids::<Bool>(alloc, 16, 1000),
        has_oids::<CChar>(alloc, 18, 1002),
        has_oids::<SmallInt>(alloc, 21, 1005),
        has_oids::<Integer>(alloc, 23, 1007),
        has_oids::<BigInt>(alloc, 20, 1016),
        has_oids::<Oid>(alloc, 26, 1028),
        has_oids::<Text>(alloc, 25, 1009),
        has_oids::<Binary>(alloc, 17, 1001),
        has_oids::<UuidType>(alloc, 2950, 2951),
        has_oids::<Money>(alloc, 790, 791),
        has_oids::<LsnType>(alloc, 3220, 3221),
        has_oids::<MacAddr>(alloc, 829, 1040),
        has_oids::<MacAddr8>(alloc, 774, 775),
        has_oids::<Inet>(alloc, 869, 1041),
        has_oids::<Cidr>(alloc, 650, 651),
    ];
    assert!(rt; known == [true; 15]);
    let ranges = [
        <Integer as RangeElement>::RANGE_OID,
        <Integer as RangeElement>::RANGE_ARRAY_OID,
        <Integer as RangeElement>::MULTIRANGE_OID,
        <Integer as RangeElement>::MULTIRANGE_ARRAY_OID,
        <BigInt as RangeElement>::RANGE_OID,
        <BigInt as RangeElement>::RANGE_ARRAY_OID,
        <BigInt as RangeElement>::MULTIRANGE_OID,
        <BigInt as RangeElement>::MULTIRANGE_ARRAY_OID,
    ];
    assert!(rt; ranges == [3904, 3905, 4451, 6150, 3926, 3927, 4536, 6157]);
}

#[test]
fn citext_is_looked_up_by_its_name(rt: HostRuntime) {
    match <Pg as HasSqlType<Citext>>::metadata(rt.alloc(), &mut Dummy) {
        Ok(metadata) => match metadata.oid() {
            Ok(_) => panic!(rt; "known"),
            Err(unknown) => {
                let key = unknown.key();
                assert!(rt; (key.schema(), key.type_name()) == (None, "citext"));
            }
        },
        Err(_) => panic!(rt; "no memory"),
    }
}
