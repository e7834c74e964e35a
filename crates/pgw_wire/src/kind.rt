use thiserror::Error;

/// Why a cell spells no value of a type.
#[derive(Clone, Copy, Debug, PartialEq, Eq, Error)]
pub enum Break {
    /// It is null, and the type allows none.
    #[error("null")]
    Null,
    /// It has too few bytes or too many, or a length inside it points past its end, or is negative where no null may be.
    #[error("size")]
    Size,
    /// A count inside it is another than the type's.
    #[error("count")]
    Count,
    /// It is not UTF-8.
    #[error("utf8")]
    Utf8,
    /// The sign of a numeric is none.
    #[error("sign")]
    Sign,
    /// It is not laid out as a network of its type: its family is none, or its bytes are not those that belong to the
    /// family and the type.
    #[error("family")]
    Family,
    /// The prefix of a network is longer than the address, and all else is right.
    #[error("prefix")]
    Prefix,
    /// An object identifier inside it is 0.
    #[error("zero oid")]
    ZeroOid,
    /// An array states a number of dimensions that is neither 0 nor 1.
    #[error("dimensions")]
    Dimensions,
    /// Bytes follow behind the last component of a record.
    #[error("surplus")]
    Surplus,
}
