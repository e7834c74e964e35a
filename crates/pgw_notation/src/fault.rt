ghost use Rattle.std.specs.Prelude.{◌≡◌};

use pgw_wire::NoMemory as NoMemoryLeft;
use std::alloc::{AllocError, AllocFailed};
use thiserror::Error;

/// Why a text is not read as a type. Places are bytes of the text, counted from 0.
#[derive(Clone, Copy, Debug, PartialEq, Eq, Error)]
pub enum TypeFault {
    /// Number 1 of these faults: at this place a token begins that cannot stand there, or the text ends too early.
    #[error("bad type at {place}")]
    Syntax {
        /// Where the token begins, or how long the text is.
        place: usize,
    },
    /// Number 2 of these faults: at this place a `(` stands while 31 records are open, or a `?` or `[]` behind 31 of
    /// these.
    #[error("type too deep at {place}")]
    TooDeep {
        /// Where it begins.
        place: usize,
    },
    /// Number 3 of these faults: memory was asked for and refused.
    #[error("out of memory")]
    NoMemory,
}

impl From<NoMemoryLeft> for TypeFault {
    ghost use Rattle.pgw_notation.specs.declared.fault.TypeFault.TheVariants.{NoMemory as no_memory};

    ghost from_gives = { λ _ e. e ≡ no_memory };

    fn from(_: NoMemoryLeft) -> TypeFault {
        TypeFault::NoMemory
    }
}

impl From<AllocError> for TypeFault {
    ghost use Rattle.pgw_notation.specs.declared.fault.TypeFault.TheVariants.{NoMemory as no_memory};

    ghost from_gives = { λ _ e. e ≡ no_memory };

    fn from(_: AllocError) -> TypeFault {
        TypeFault::NoMemory
    }
}

impl<T: Drop> From<AllocFailed<T>> for TypeFault {
    ghost use Rattle.pgw_notation.specs.declared.fault.TypeFault.TheVariants.{NoMemory as no_memory};

    ghost from_gives = { λ _ e. e ≡ no_memory };

    fn from(_: AllocFailed<T>) -> TypeFault {
        TypeFault::NoMemory
    }
}
