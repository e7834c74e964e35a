ghost use Rattle.std.specs.Prelude.{◌≡◌};

use pgw_wire::NoMemory as NoMemoryLeft;
use std::alloc::{AllocError, AllocFailed};
use thiserror::Error;

/// Why a stream could not be read on.
#[derive(Clone, Copy, Debug, PartialEq, Eq, Error)]
pub enum CopyReadError {
    /// Number 1 of these errors: the first 19 bytes do not begin with those that every stream begins with, or state, behind
    /// good flags, a negative length of the header's extension.
    #[error("bad header")]
    BadHeader,
    /// Number 2 of these errors: a bit of the high half of the header's flags, which are these, is set.
    #[error("bad flags {0:08X}")]
    BadFlags(u32),
    /// Number 3 of these errors: the source ended where more bytes have to come.
    #[error("truncated")]
    Truncated,
    /// Number 4 of these errors: the count of a row, which is this, is below -1.
    #[error("bad field count {0}")]
    BadFieldCount(i16),
    /// Number 5 of these errors: the source failed.
    #[error("read fault")]
    ReadFault,
    /// Number 6 of these errors: memory was asked for and refused.
    #[error("out of memory")]
    NoMemory,
}

impl From<NoMemoryLeft> for CopyReadError {
    ghost use Rattle.pgw_copy.specs.declared.fault.CopyReadError.TheVariants.{NoMemory as no_memory};

    ghost from_gives = { λ _ e. e ≡ no_memory };

    fn from(_: NoMemoryLeft) -> CopyReadError {
        CopyReadError::NoMemory
    }
}

impl From<AllocError> for CopyReadError {
    ghost use Rattle.pgw_copy.specs.declared.fault.CopyReadError.TheVariants.{NoMemory as no_memory};

    ghost from_gives = { λ _ e. e ≡ no_memory };

    fn from(_: AllocError) -> CopyReadError {
        CopyReadError::NoMemory
    }
}

impl<T: Drop> From<AllocFailed<T>> for CopyReadError {
    ghost use Rattle.pgw_copy.specs.declared.fault.CopyReadError.TheVariants.{NoMemory as no_memory};

    ghost from_gives = { λ _ e. e ≡ no_memory };

    fn from(_: AllocFailed<T>) -> CopyReadError {
        CopyReadError::NoMemory
    }
}
