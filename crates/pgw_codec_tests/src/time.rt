use pgw_meta::{
    Defaultable, Dummy, FromSql, HasSqlType, Pg, PgTypeMetadata, RangeElement, ToSql, deserialize,
};
use pgw_time::{PgDate, PgInterval, PgTime, PgTimestamp, sql_types};
use pgw_wire::{ByteBuffer, IsNull, Output, PgValue, SqlError};
use std::alloc::Global;
use std::num::NonZeroU32;

const DAY_1970: PgDate = PgDate(-10957);

const EPOCH: PgTimestamp = PgTimestamp(-946684800000000);

const LAST_MICROSECOND: PgTime = PgTime(86399999999);

const TWO_MONTHS: PgInterval = PgInterval {
    microseconds: 60123456,
    days: 0,
    months: 2,
};

fn read<A, T: FromSql<A>>(alloc: Global, bytes: &[u8]) -> deserialize::Result<T> {
    T::from_nullable_sql(alloc, Some(PgValue::new(bytes, NonZeroU32::MIN)))
}

/// Whether the value is written, as no null.
fn write<A, T: ToSql<A> + Drop>(buffer: &mut ByteBuffer, value: T) -> bool {
    let mut lookup = Dummy;
    value.to_sql(&mut Output::new(buffer, &mut lookup)) == Ok(IsNull::No)
}

#[test]
fn values_are_written_as_their_numbers(rt: HostRuntime) {
    let mut buffer = ByteBuffer::new(rt.alloc());
    let written = [
        write::<sql_types::Date, PgDate>(&mut buffer, DAY_1970),
        write::<sql_types::Time, PgTime>(&mut buffer, LAST_MICROSECOND),
        write::<sql_types::Timestamp, PgTimestamp>(&mut buffer, EPOCH),
        write::<sql_types::Timestamptz, PgTimestamp>(&mut buffer, EPOCH),
        write::<sql_types::Interval, PgInterval>(&mut buffer, TWO_MONTHS),
    ];
    assert!(rt; written == [true; 5]);
    let bytes = b"\xff\xff\xd5\x33\
        \0\0\0\x14\x1d\xd7\x5f\xff\
        \xff\xfc\xa2\xfe\xc4\xc8\x20\0\
        \xff\xfc\xa2\xfe\xc4\xc8\x20\0\
        \0\0\0\0\x03\x95\x69\x40\0\0\0\0\0\0\0\x02";
    assert!(rt; buffer.as_bytes() == bytes.as_slice());
}

#[test]
fn values_are_read_from_their_bytes(rt: HostRuntime) {
    let alloc = rt.alloc();
    let epoch = b"\xff\xfc\xa2\xfe\xc4\xc8\x20\0";
    let values = (
        read::<sql_types::Date, PgDate>(alloc, b"\xff\xff\xd5\x33"),
        read::<sql_types::Time, PgTime>(alloc, b"\0\0\0\x14\x1d\xd7\x5f\xff"),
        read::<sql_types::Timestamp, PgTimestamp>(alloc, epoch),
        read::<sql_types::Timestamptz, PgTimestamp>(alloc, epoch),
    );
    assert!(rt; values == (Ok(DAY_1970), Ok(LAST_MICROSECOND), Ok(EPOCH), Ok(EPOCH)));
    let long = b"\xff\xfc\xa2\xfe\xc4\xc8\x20\0\0";
    let refused = (
        read::<sql_types::Date, PgDate>(alloc, b"\xff\xff\xd5"),
        read::<sql_types::Time, PgTime>(alloc, long),
        read::<sql_types::Timestamp, PgTimestamp>(alloc, long),
        <PgTimestamp as FromSql<sql_types::Timestamptz>>::from_nullable_sql(alloc, None),
    );
    let errors = (
        Err(SqlError::WrongSize { want: 4, have: 3 }),
        Err(SqlError::WrongSize { want: 8, have: 9 }),
        Err(SqlError::WrongSize { want: 8, have: 9 }),
        Err(SqlError::UnexpectedNull),
    );
    assert!(rt; refused == errors);
}

#[test]
fn an_interval_is_its_first_16_bytes(rt: HostRuntime) {
    let alloc = rt.alloc();
    let values = (
        read::<sql_types::Interval, PgInterval>(
            alloc,
            b"\0\0\0\0\x03\x95\x69\x40\0\0\0\0\0\0\0\x02",
        ),
        read::<sql_types::Interval, PgInterval>(
            alloc,
            b"\0\0\0\0\x03\x95\x69\x40\0\0\0\0\0\0\0\x02\xaa\xbb",
        ),
    );
    assert!(rt; values == (Ok(TWO_MONTHS), Ok(TWO_MONTHS)));
    let refused = (
        read::<sql_types::Interval, PgInterval>(alloc, &[0; 4]),
        read::<sql_types::Interval, PgInterval>(alloc, &[0; 9]),
        read::<sql_types::Interval, PgInterval>(alloc, &[0; 13]),
    );
    let errors = (
        Err(SqlError::ShortValue { have: 4, want: 8 }),
        Err(SqlError::ShortValue { have: 9, want: 12 }),
        Err(SqlError::ShortValue { have: 13, want: 16 }),
    );
    assert!(rt; refused == errors);
}

#[test]
fn sums_of_intervals_do_not_wrap(rt: HostRuntime) {
    let sums = (
        PgInterval::from_days(2147483647).checked_add(PgInterval::from_days(1)),
        PgInterval::from_microseconds(60123456).checked_add(PgInterval::from_months(2)),
        PgInterval::new(-1, 3, 5).checked_add(PgInterval::new(2, -4, 1)),
    );
    let expected = (None, Some(TWO_MONTHS), Some(PgInterval::new(1, -1, 6)));
    assert!(rt; sums == expected);
}

#[test]
fn defaults_are_zero(rt: HostRuntime) {
    let defaults = (
        PgDate::default_value(),
        PgTime::default_value(),
        PgTimestamp::default_value(),
    );
    assert!(rt; defaults == (PgDate(0), PgTime(0), PgTimestamp(0)));
}

/// Whether the metadata of the type are these, without any lookup that knows a type.
fn has_oids<A>(alloc: Global, oid: u32, array_oid: u32) -> bool
where
    Pg: HasSqlType<A>,
{
    match <Pg as HasSqlType<A>>::metadata(alloc, &mut Dummy) {
        Ok(metadata) => metadata == PgTypeMetadata::new(oid, array_oid),
        Err(_) => false,
    }
}

fn range_oids<A: RangeElement>() -> [u32; 4] {
    [
        A::RANGE_OID,
        A::RANGE_ARRAY_OID,
        A::MULTIRANGE_OID,
        A::MULTIRANGE_ARRAY_OID,
    ]
}

#[test]
fn types_have_the_oids_of_the_catalog(rt: HostRuntime) {
    let alloc = rt.alloc();
    let known = [
        has_oids::<sql_types::Date>(alloc, 1082, 1182),
        has_oids::<sql_types::Time>(alloc, 1083, 1183),
        has_oids::<sql_types::Timestamp>(alloc, 1114, 1115),
        has_oids::<sql_types::Timestamptz>(alloc, 1184, 1185),
        has_oids::<sql_types::Interval>(alloc, 1186, 1187),
    ];
    assert!(rt; known == [true; 5]);
    let ranges = [
        range_oids::<sql_types::Date>(),
        range_oids::<sql_types::Timestamp>(),
        range_oids::<sql_types::Timestamptz>(),
    ];
    let expected = [
        [3912, 3913, 4535, 6155],
        [3908, 3909, 4533, 6152],
        [3910, 3911, 4534, 6153],
    ];
    assert!(rt; ranges == expected);
}
