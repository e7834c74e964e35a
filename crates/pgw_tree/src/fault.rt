ghost use Rattle.std.specs.Prelude.{◌≡◌};

use pgw_copy::CopyReadError;
use pgw_meta::{LookupError, TypeKey};
use pgw_wire::{Break, Failed, NoMemory as NoMemoryLeft};
use thiserror::Error;

/// Why a stream was not copied. Rows and columns are counted from 0.
#[derive(Debug, PartialEq, Eq, Error, Drop)]
pub enum CopyFault {
    /// The first 19 bytes do not begin with those that every stream begins with, or state, behind good flags, a negative
    /// length of the header's extension.
    #[error("bad header")]
    BadHeader,
    /// A bit of the high half of the header's flags, which are these, is set.
    #[error("bad flags {0:08X}")]
    BadFlags(u32),
    /// The source ended inside the header or a row, or where a row or the end of the stream has to come.
    #[error("truncated")]
    Truncated,
    /// The count of a row, which is this, is below -1.
    #[error("bad field count {0}")]
    BadFieldCount(i16),
    /// The row has fewer fields than there are columns.
    #[error("row {row}: too few fields")]
    UnexpectedEndOfRow {
        row: u64,
    },
    /// The field of the row in this column spells no value of the column's type.
    #[error("row {row} column {column}: {kind}")]
    BadValue {
        row: u64,
        column: usize,
        kind: Break,
    },
    /// The value of the row in this column has more canonical bytes than the limit.
    #[error("row {row} column {column}: too long")]
    TooLong {
        row: u64,
        column: usize,
    },
    /// As many rows as the limit were copied, and the count of another one is there.
    #[error("row limit")]
    RowLimit,
    /// The type of this key, whose oids the columns need, is not known, or an oid that they need of it is 0.
    #[error("unknown type {0}")]
    UnknownType(TypeKey),
    /// The lookup failed.
    #[error("lookup fault")]
    LookupFault,
    /// The source failed.
    #[error("read fault")]
    ReadFault,
    /// The sink failed.
    #[error("write fault")]
    WriteFault,
    /// Memory was asked for and refused.
    #[error("out of memory")]
    NoMemory,
}

impl From<CopyReadError> for CopyFault {
    ghost use Rattle.pgw_tree.specs.ReadErrors.{fault_of};

    ghost from_gives = { λ e f. f ≡ fault_of e };

    fn from(error: CopyReadError) -> CopyFault {
        match error {
            CopyReadError::BadHeader => CopyFault::BadHeader,
            CopyReadError::BadFlags(flags) => CopyFault::BadFlags(flags),
            CopyReadError::Truncated => CopyFault::Truncated,
            CopyReadError::BadFieldCount(count) => CopyFault::BadFieldCount(count),
            CopyReadError::ReadFault => CopyFault::ReadFault,
            CopyReadError::NoMemory => CopyFault::NoMemory,
        }
    }
}

impl From<LookupError> for CopyFault {
    ghost use Rattle.pgw_tree.specs.Lookups.{looked_up_fault};

    ghost from_gives = { λ e f. f ≡ looked_up_fault e };

    fn from(error: LookupError) -> CopyFault {
        match error {
            LookupError::Failed => CopyFault::LookupFault,
            LookupError::NoMemory => CopyFault::NoMemory,
        }
    }
}

impl From<Failed> for CopyFault {
    ghost use Rattle.pgw_tree.specs.declared.fault.CopyFault.TheVariants.{WriteFault as write_fault};

    ghost from_gives = { λ _ f. f ≡ write_fault };

    fn from(_: Failed) -> CopyFault {
        CopyFault::WriteFault
    }
}

impl From<NoMemoryLeft> for CopyFault {
    ghost use Rattle.pgw_tree.specs.declared.fault.CopyFault.TheVariants.{NoMemory as no_memory};

    ghost from_gives = { λ _ f. f ≡ no_memory };

    fn from(_: NoMemoryLeft) -> CopyFault {
        CopyFault::NoMemory
    }
}
