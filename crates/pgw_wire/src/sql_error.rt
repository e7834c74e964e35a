ghost use Rattle.std.specs.Prelude.{◌≡◌};
ghost use Rattle.pgw_wire.specs.Refusal.{number_of, kind_of, kind_of_number};

use crate::{Break, NoMemory};
use std::alloc::{AllocError, AllocFailed};
use thiserror::Error;

/// What is wrong with the four bytes in front of a network address, or with how many bytes there are: its family, the
/// length of its prefix, a byte that tells `inet` from `cidr`, and the length of the address.
#[derive(Clone, Copy, Debug, PartialEq, Eq, Error)]
pub enum NetworkFault {
    /// The field has fewer bytes than these four.
    #[error("invalid network address format. input is too short.")]
    TooShort,
    /// The third byte is not that of the type: 0 for `inet`, 1 for `cidr`.
    #[error("invalid network address format")]
    WrongType,
    /// The field is not as long as one of its family: 8 bytes, or 20.
    #[error("invalid network address format")]
    WrongLength,
    /// The fourth byte is not the length of an address of its family: 4, or 16.
    #[error("invalid network address format")]
    WrongAddressLength,
    /// The family is neither 2 nor 3.
    #[error("invalid network address format")]
    WrongFamily,
}

/// A numeric has this sign, which is none.
#[derive(Clone, Copy, Debug, PartialEq, Eq, Error)]
#[error("sign for numeric field was not one of 0, 0x4000, 0xC000")]
pub struct InvalidNumericSign(pub u16);

/// A field of a row was refused: which one, counted from 0, and the number of the error.
#[derive(Clone, Copy, Debug, PartialEq, Eq, Error)]
#[error("Error deserializing field {column}: error {number}")]
pub struct FieldError {
    /// The field's place in its row, counted from 0.
    pub column: usize,
    /// The number of the `SqlError` that refused it.
    pub number: u8,
}

/// Why a cell is read as no value of a type, or a row as none.
#[derive(Clone, Copy, Debug, PartialEq, Eq, Error)]
pub enum SqlError {
    /// Number 1 of these errors: the cell is null, and the type allows none.
    #[error("Unexpected null for non-null column")]
    UnexpectedNull,
    /// Number 2 of these errors: the row has no field at the place that is read.
    #[error("Unexpected end of row")]
    UnexpectedEndOfRow,
    /// Number 3 of these errors: the bytes end inside a number that has to stand there.
    #[error("failed to fill whole buffer")]
    ShortBuffer,
    /// Number 4 of these errors: the piece has to have `want` bytes, and has `have`.
    #[error("Received {have} bytes while decoding a value of {want} bytes")]
    WrongSize { want: usize, have: usize },
    /// Number 5 of these errors: the piece is empty, and a value has a byte at least.
    #[error("Received an empty response from the server")]
    EmptyResponse,
    /// Number 6 of these errors: the piece has `have` bytes, and what is read ends behind `want`.
    #[error("Value buffer only contains {have} bytes, but requested {want} bytes")]
    ShortValue { have: usize, want: usize },
    /// Number 7 of these errors: a piece inside has the length `want`, and `have` bytes are there.
    #[error("Invalid element byte count: Expected at least {want} bytes, but only {have} bytes were received")]
    ElementBytes { want: i32, have: usize },
    /// Number 8 of these errors: the lower bound of a range has the length `want`, and `have` bytes are there.
    #[error("Invalid element size: Got {want} elements, but only {have} bytes")]
    RangeElement { want: i32, have: usize },
    /// Number 9 of these errors: a length inside is this number, which is negative and stands for no null.
    #[error("Negative size {0}")]
    NegativeSize(i32),
    /// Number 10 of these errors: an array has this many dimensions, which are neither none nor one.
    #[error("multi-dimensional arrays are not supported")]
    Dimensions(i32),
    /// Number 11 of these errors: a text is not UTF-8.
    #[error("invalid UTF-8")]
    BadUtf8,
    /// Number 12 of these errors: the sign of a numeric is none.
    #[error(transparent)]
    InvalidSign(InvalidNumericSign),
    /// Number 13 of these errors: a network address is not laid out as one.
    #[error(transparent)]
    Network(NetworkFault),
    /// Number 14 of these errors: the prefix of a network address has this many bits, which are more than the address has.
    #[error("invalid prefix {0}")]
    BadPrefix(u8),
    /// Number 15 of these errors: a hardware address has to have `want` bytes, and has not.
    #[error("invalid network address format: input isn't {want} bytes.")]
    MacLength { want: usize },
    /// Number 16 of these errors: a uuid has to have 16 bytes, and has `have`.
    #[error("invalid length: expected 16 bytes, found {have}")]
    UuidLength { have: usize },
    /// Number 17 of these errors: a record has to have `want` components, and states `have`.
    #[error("Expected a tuple of {want} elements, got {have}")]
    TupleCount { want: i32, have: i32 },
    /// Number 18 of these errors: an object identifier inside is 0.
    #[error("Oid's aren't zero")]
    ZeroOid,
    /// Number 19 of these errors: bytes stand behind the last component of a record.
    #[error("Received too many bytes. This tuple likely contains an element of the wrong SQL type.")]
    Surplus,
    /// Number 20 of these errors: the text is no JSON.
    #[error("Invalid Json")]
    InvalidJson,
    /// Number 21 of these errors: a `jsonb` begins with this number, which is not 1.
    #[error("Unsupported JSONB encoding version")]
    JsonbVersion(u8),
    /// Number 22 of these errors: a number in a JSON text fits neither 64 bits with a sign nor 64 bits without one.
    #[error("JSON with a float")]
    JsonFloat,
    /// Number 23 of these errors: the value lies outside of those that the Rust type has.
    #[error("value out of range")]
    OutOfRange,
    /// Number 24 of these errors: the row has no field of the name that is read.
    #[error("Column was not present in query")]
    MissingColumn,
    /// Number 25 of these errors: a field of a row was refused.
    #[error(transparent)]
    Field(FieldError),
    /// Number 26 of these errors: an error of a user's own codec, which chose the number that it holds.
    #[error("custom error {0}")]
    Custom(u32),
    /// Number 27 of these errors: memory was asked for and refused.
    #[error("out of memory")]
    NoMemory,
}

/// In which kind a cell breaks that is refused with the error of this number. None where no cell breaks so.
fn kind_of_error(number: u8) -> Option<Break>
    ensures { result ≡ kind_of_number number }
{
    match number {
        1 => Some(Break::Null),
        3..=9 | 15 | 16 => Some(Break::Size),
        10 => Some(Break::Dimensions),
        11 => Some(Break::Utf8),
        12 => Some(Break::Sign),
        13 => Some(Break::Family),
        14 => Some(Break::Prefix),
        17 => Some(Break::Count),
        18 => Some(Break::ZeroOid),
        19 => Some(Break::Surplus),
        _ => None,
    }
}

impl SqlError {
    /// The error's number, from 1 to 27.
    pub fn number(&self) -> u8
        ensures { result ≡ number_of self.now }
    {
        match self {
            SqlError::UnexpectedNull => 1,
            SqlError::UnexpectedEndOfRow => 2,
            SqlError::ShortBuffer => 3,
            SqlError::WrongSize { .. } => 4,
            SqlError::EmptyResponse => 5,
            SqlError::ShortValue { .. } => 6,
            SqlError::ElementBytes { .. } => 7,
            SqlError::RangeElement { .. } => 8,
            SqlError::NegativeSize(_) => 9,
            SqlError::Dimensions(_) => 10,
            SqlError::BadUtf8 => 11,
            SqlError::InvalidSign(_) => 12,
            SqlError::Network(_) => 13,
            SqlError::BadPrefix(_) => 14,
            SqlError::MacLength { .. } => 15,
            SqlError::UuidLength { .. } => 16,
            SqlError::TupleCount { .. } => 17,
            SqlError::ZeroOid => 18,
            SqlError::Surplus => 19,
            SqlError::InvalidJson => 20,
            SqlError::JsonbVersion(_) => 21,
            SqlError::JsonFloat => 22,
            SqlError::OutOfRange => 23,
            SqlError::MissingColumn => 24,
            SqlError::Field(_) => 25,
            SqlError::Custom(_) => 26,
            SqlError::NoMemory => 27,
        }
    }

    /// In which kind a cell breaks that is refused with this error; of a field, with the error of that number. None where
    /// that says nothing of the cell's bytes.
    pub fn kind(&self) -> Option<Break>
        ensures { result ≡ kind_of self.now }
    {
        match self {
            SqlError::Field(error) => kind_of_error(error.number),
            _ => kind_of_error(self.number()),
        }
    }
}

impl From<NoMemory> for SqlError {
    ghost use Rattle.pgw_wire.specs.declared.sql_error.SqlError.TheVariants.{NoMemory as no_memory};

    ghost from_gives = { λ _ e. e ≡ no_memory };

    fn from(_: NoMemory) -> SqlError {
        SqlError::NoMemory
    }
}

impl From<AllocError> for SqlError {
    ghost use Rattle.pgw_wire.specs.declared.sql_error.SqlError.TheVariants.{NoMemory as no_memory};

    ghost from_gives = { λ _ e. e ≡ no_memory };

    fn from(_: AllocError) -> SqlError {
        SqlError::NoMemory
    }
}

impl<T: Drop> From<AllocFailed<T>> for SqlError {
    ghost use Rattle.pgw_wire.specs.declared.sql_error.SqlError.TheVariants.{NoMemory as no_memory};

    ghost from_gives = { λ _ e. e ≡ no_memory };

    fn from(_: AllocFailed<T>) -> SqlError {
        SqlError::NoMemory
    }
}
