ghost use Rattle.std.specs.Prelude.{◌≡◌, ◌≢◌, [], ◌∷◌, length, false, codes, Ok, None};
ghost use Rattle.pgw_meta.specs.Naming.{looked_up_by};
ghost use Rattle.pgw_meta.specs.Reading.{ReadsPiece, RefusesPiece};
ghost use Rattle.pgw_wire.specs.declared.is_null.IsNull.TheVariants.{No as no};
ghost use Rattle.pgw_wire.specs.declared.sql_error.SqlError.TheVariants.{WrongSize as wrong_size};

use pgw_meta::deserialize::required;
use pgw_meta::{
    Defaultable, Dummy, FromSql, HasSqlType, LookupError, NotNull, Pg, PgMetadataLookup,
    PgTypeMetadata, SingleValue, SqlType, ToSql, WriteError, deserialize, serialize,
};
use pgw_wire::{ByteBuffer, IsNull, NoMemory, Output, PgValue, SqlError};
use std::alloc::Global;
use std::num::NonZeroU32;
use std::test::Fail;

/// The marker of a type of numbers in one byte, which is looked up by its name.
struct Small;

impl SqlType for Small {}

impl NotNull for Small {}

impl SingleValue for Small {}

impl HasSqlType<Small> for Pg {
    ghost names = { looked_up_by (record { schema = None; name = codes "small" }) };

    fn metadata<L: PgMetadataLookup>(
        alloc: Global,
        lookup: &mut L,
    ) -> Result<PgTypeMetadata, LookupError> {
        lookup.lookup_type(alloc, "small", None)
    }
}

#[derive(Clone, Copy, Debug, PartialEq, Eq)]
struct Byte(u8);

impl FromSql<Small> for Byte {
    ghost reads = { ReadsPiece (λ piece v. piece ≡ v.0 ∷ []) };

    ghost refuses = { RefusesPiece (λ piece e. (length piece ≢ 1) × (e ≡ wrong_size 1 (length piece))) };

    ghost MEMORY = { false };

    fn from_sql(_alloc: Global, value: PgValue<'_>) -> deserialize::Result<Byte> {
        match value.as_bytes() {
            [number] => Ok(Byte(*number)),
            bytes => Err(SqlError::WrongSize {
                want: 1,
                have: bytes.len(),
            }),
        }
    }

    fn from_nullable_sql(alloc: Global, value: Option<PgValue<'_>>) -> deserialize::Result<Byte> {
        <Byte as FromSql<Small>>::from_sql(alloc, required(value)?)
    }
}

impl ToSql<Small> for Byte {
    ghost writes = { λ _ v answer bytes. (answer ≡ Ok no) × (bytes ≡ v.0 ∷ []) };

    fn to_sql<L: PgMetadataLookup>(&self, out: &mut Output<'_, L>) -> serialize::Result {
        out.write_all(&[self.0])?;
        Ok(IsNull::No)
    }
}

/// The value that is read from the bytes, or from a null.
fn read<T: FromSql<Small>>(alloc: Global, bytes: Option<&[u8]>) -> deserialize::Result<T> {
    let value = match bytes {
        Some(bytes) => Some(PgValue::new(bytes, NonZeroU32::MIN)),
        None => None,
    };
    T::from_nullable_sql(alloc, value)
}

fn write<T: ToSql<Small> + Drop>(buffer: &mut ByteBuffer, value: T) -> serialize::Result {
    let mut lookup = Dummy;
    let mut out = Output::new(buffer, &mut lookup);
    value.to_sql(&mut out)
}

#[test]
fn a_type_of_ones_own_is_read_and_written(rt: HostRuntime) -> Result<(), Fail> {
    let alloc = rt.alloc();
    assert!(rt; read(alloc, Some(b"\x07")) == Ok(Byte(7)));
    let long = SqlError::WrongSize { want: 1, have: 2 };
    assert!(rt; read::<Byte>(alloc, Some(b"\x07\x08")) == Err(long));
    assert!(rt; read::<Byte>(alloc, None) == Err(SqlError::UnexpectedNull));

    let mut buffer = ByteBuffer::new(alloc);
    buffer.push_all(b"\x01")?;
    assert!(rt; write(&mut buffer, Byte(7)) == Ok(IsNull::No));
    assert!(rt; write(&mut buffer, &Byte(8)) == Ok(IsNull::No));
    assert!(rt; buffer.as_bytes() == b"\x01\x07\x08".as_slice());
    Ok(())
}

#[test]
fn what_dummy_is_asked_for_is_unknown(rt: HostRuntime) {
    match <Pg as HasSqlType<Small>>::metadata(rt.alloc(), &mut Dummy) {
        Ok(metadata) => match metadata.oid() {
            Ok(_) => panic!(rt; "known"),
            Err(unknown) => {
                assert!(rt; unknown.key().type_name() == "small");
                assert!(rt; unknown.key().schema() == None);
            }
        },
        Err(_) => panic!(rt; "no memory"),
    }
    assert!(rt; Dummy.faults() == 0);
}

#[test]
fn defaults_are_zero(rt: HostRuntime) {
    assert!(rt; i32::default_value() == 0);
    assert!(rt; i64::default_value() == 0);
}

#[test]
fn errors_of_writing_have_their_texts(rt: HostRuntime) -> Result<(), Fail> {
    let table = [
        (WriteError::from(LookupError::Failed), "the lookup failed"),
        (WriteError::TooMany, "too many digits, elements or bytes"),
        (WriteError::JsonFloat, "JSON with a float"),
        (WriteError::Custom(7), "custom error 7"),
        (WriteError::from(NoMemory), "out of memory"),
        (WriteError::OutOfRange, "value out of range"),
    ];
    for (error, text) in &table {
        assert!(rt; error.to_string(rt.alloc())?.as_str() == *text);
    }
    Ok(())
}
