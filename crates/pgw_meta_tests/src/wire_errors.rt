use pgw_wire::{Break, FieldError, InvalidNumericSign, NetworkFault, SqlError};
use std::test::Fail;

const SHORT_FIELD: FieldError = FieldError {
    column: 3,
    number: 4,
};

const WRONG_FAMILY: &str = "invalid network address format";

const TEXTS: [(SqlError, &str); 31] = [
    (
        SqlError::UnexpectedNull,
        "Unexpected null for non-null column",
    ),
    (SqlError::UnexpectedEndOfRow, "Unexpected end of row"),
    (SqlError::ShortBuffer, "failed to fill whole buffer"),
    (
        SqlError::WrongSize { want: 4, have: 3 },
        "Received 3 bytes while decoding a value of 4 bytes",
    ),
    (
        SqlError::EmptyResponse,
        "Received an empty response from the server",
    ),
    (
        SqlError::ShortValue { have: 4, want: 8 },
        "Value buffer only contains 4 bytes, but requested 8 bytes",
    ),
    (
        SqlError::ElementBytes { want: 9, have: 5 },
        "Invalid element byte count: Expected at least 9 bytes, but only 5 bytes were received",
    ),
    (
        SqlError::RangeElement { want: 9, have: 5 },
        "Invalid element size: Got 9 elements, but only 5 bytes",
    ),
    (SqlError::NegativeSize(-2), "Negative size -2"),
    (
        SqlError::Dimensions(2),
        "multi-dimensional arrays are not supported",
    ),
    (SqlError::BadUtf8, "invalid UTF-8"),
    (
        SqlError::InvalidSign(InvalidNumericSign(1)),
        "sign for numeric field was not one of 0, 0x4000, 0xC000",
    ),
    (
        SqlError::Network(NetworkFault::TooShort),
        "invalid network address format. input is too short.",
    ),
    (SqlError::Network(NetworkFault::WrongType), WRONG_FAMILY),
    (SqlError::Network(NetworkFault::WrongLength), WRONG_FAMILY),
    (
        SqlError::Network(NetworkFault::WrongAddressLength),
        WRONG_FAMILY,
    ),
    (SqlError::Network(NetworkFault::WrongFamily), WRONG_FAMILY),
    (SqlError::BadPrefix(33), "invalid prefix 33"),
    (
        SqlError::MacLength { want: 6 },
        "invalid network address format: input isn't 6 bytes.",
    ),
    (
        SqlError::UuidLength { have: 4 },
        "invalid length: expected 16 bytes, found 4",
    ),
    (
        SqlError::TupleCount { want: 2, have: -1 },
        "Expected a tuple of 2 elements, got -1",
    ),
    (SqlError::ZeroOid, "Oid's aren't zero"),
    (
        SqlError::Surplus,
        "Received too many bytes. This tuple likely contains an element of the wrong SQL type.",
    ),
    (SqlError::InvalidJson, "Invalid Json"),
    (
        SqlError::JsonbVersion(2),
        "Unsupported JSONB encoding version",
    ),
    (SqlError::JsonFloat, "JSON with a float"),
    (SqlError::OutOfRange, "value out of range"),
    (SqlError::MissingColumn, "Column was not present in query"),
    (
        SqlError::Field(SHORT_FIELD),
        "Error deserializing field 3: error 4",
    ),
    (SqlError::Custom(7), "custom error 7"),
    (SqlError::NoMemory, "out of memory"),
];

#[test]
fn errors_have_their_texts(rt: HostRuntime) -> Result<(), Fail> {
    for (error, text) in &TEXTS {
        assert!(rt; error.to_string(rt.alloc())?.as_str() == *text);
    }
    Ok(())
}

#[test]
fn the_error_of_a_field_is_of_the_kind_of_its_number(rt: HostRuntime) {
    assert!(rt; SqlError::Field(SHORT_FIELD).number() == 25);
    assert!(rt; SqlError::Field(SHORT_FIELD).kind() == Some(Break::Size));
    assert!(rt; SqlError::OutOfRange.kind() == None);
}
