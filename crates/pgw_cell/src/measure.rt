ghost use Rattle.std.specs.Prelude.{◌≡◌, ◌≤◌, ℕ, length, Ok, Err, IfOk};
ghost use Rattle.pgw_wire.specs.Cell.{cell_of, frame};
ghost use Rattle.pgw_wire.specs.declared.kind.Break.{Break as Kind};
ghost use Rattle.pgw_meta.specs.Known.{Known};
ghost use Rattle.pgw_meta.specs.Types.{shape};
ghost use Rattle.pgw_cell.specs.Value.{Value};
ghost use Rattle.pgw_cell.specs.Built.{IsBuilt};
ghost use Rattle.pgw_cell.specs.Cells.{Spells, Breaks, Fits, canonical_cell, read_value};
ghost use Rattle.pgw_cell.specs.Written.{AreBytes, measured};

use crate::piece::are_bytes;
use crate::sizes::sized_cell;
use pgw_meta::PgType;
use pgw_wire::{Break, RawCell};
use thiserror::Error;

/// Why a cell has no canonical form of as many bytes as a field may have.
#[derive(Clone, Copy, Debug, PartialEq, Eq, Error)]
pub enum MeasureFault {
    /// It breaks in this kind.
    #[error(transparent)]
    Break(Break),
    /// The value's canonical bytes are more than a field may have.
    #[error("too long")]
    TooLong,
}

/// The bytes of a cell are numbers below 256. It does nothing: it is called for what it ensures.
#[inline(always)]
pub(crate) fn is_of_bytes(cell: RawCell<'_>)
    ensures { AreBytes (cell_of cell.entry) }
{
    match cell {
        RawCell::Null => {}
        RawCell::Piece(piece) => are_bytes(piece),
    }
}

#[inline(always)]
fn measure(t: &PgType, cell: RawCell<'_>, field_max: u32) -> Result<usize, MeasureFault>
    requires { field_max ≤ 2147483647 }
    ensures value { result ≡ measured field_max (shape t.now) (read_value (shape t.now) (cell_of cell.entry)) }
    ensures bytes { AreBytes (cell_of cell.entry) }
{
    is_of_bytes(cell);
    match sized_cell(t, cell) {
        Err(kind) => Err(MeasureFault::Break(kind)),
        Ok(size) => {
            if size > field_max as usize {
                Err(MeasureFault::TooLong)
            } else {
                Ok(4 + size)
            }
        }
    }
}

/// How many bytes the canonical field of the value has that the cell spells: the four bytes of its length, and at most
/// `field_max` behind them, whatever the oids are. Else the kind in which the cell breaks, or `TooLong`. It takes no memory.
#[inline(always)]
pub fn measure_cell(t: &PgType, cell: RawCell<'_>, field_max: u32) -> Result<usize, MeasureFault>
    requires built { IsBuilt (shape t.now) }
    requires max { field_max ≤ 2147483647 }
    ensures ok { IfOk result (λ n. (v : Value) × Spells (shape t.now) (cell_of cell.entry) v
        × Fits field_max (shape t.now) v
        × ((known : Known) → n ≡ length (frame (canonical_cell known (shape t.now) v)))) }
    ensures broken { (kind : Kind) → result ≡ Err (MeasureFault.Break kind)
        → Breaks (shape t.now) kind (cell_of cell.entry) }
    ensures long { result ≡ Err MeasureFault.TooLong → (v : Value) × Spells (shape t.now) (cell_of cell.entry) v
        × (Fits field_max (shape t.now) v → ⊥) }
    ensures spells { (known : Known) (v : Value) → Spells (shape t.now) (cell_of cell.entry) v → Fits field_max (shape t.now) v
        → result ≡ Ok (length (frame (canonical_cell known (shape t.now) v))) }
    ensures breaks { (kind : Kind) → Breaks (shape t.now) kind (cell_of cell.entry)
        → result ≡ Err (MeasureFault.Break kind) }
    ensures passes { (v : Value) → Spells (shape t.now) (cell_of cell.entry) v → (Fits field_max (shape t.now) v → ⊥)
        → result ≡ Err MeasureFault.TooLong }
{
    measure(t, cell, field_max)
}
