ghost use Rattle.std.specs.Prelude.{◌≡◌};
ghost use Rattle.pgw_tree.specs.Sending.{in_row};

use crate::CopyFault;
use pgw_wire::{Break, NoMemory as NoMemoryLeft};

/// Why the canonical form of a row was not made or not written.
#[derive(Clone, Copy)]
pub(crate) enum SendFault {
    /// It has fewer fields than there are columns.
    TooFew,
    /// The cell of this column breaks in this kind.
    BadValue { column: usize, kind: Break },
    /// The value of this column has more canonical bytes than the limit.
    TooLong { column: usize },
    /// The sink failed.
    WriteFault,
    /// Memory was asked for and refused.
    NoMemory,
}

impl SendFault {
    /// The fault of the copy, by the place of the row.
    pub(crate) fn in_row(self, row: u64) -> CopyFault
        ensures { result ≡ in_row row self }
    {
        match self {
            SendFault::TooFew => CopyFault::UnexpectedEndOfRow { row },
            SendFault::BadValue { column, kind } => CopyFault::BadValue { row, column, kind },
            SendFault::TooLong { column } => CopyFault::TooLong { row, column },
            SendFault::WriteFault => CopyFault::WriteFault,
            SendFault::NoMemory => CopyFault::NoMemory,
        }
    }
}

impl From<NoMemoryLeft> for SendFault {
    ghost use Rattle.pgw_tree.specs.declared.send_fault.SendFault.TheVariants.{NoMemory as no_memory};

    ghost from_gives = { λ _ e. e ≡ no_memory };

    fn from(_: NoMemoryLeft) -> SendFault {
        SendFault::NoMemory
    }
}
