//! Laws of cells by the types of columns, for proofs that call these functions: what they ensure. They do nothing.

ghost use Rattle.std.specs.Prelude.{◌≡◌, ◌⊎◌};
ghost use Rattle.pgw_wire.specs.Cell.{cell_of, size_of};
ghost use Rattle.pgw_wire.specs.declared.kind.Break.{Break as Kind};
ghost use Rattle.pgw_meta.specs.Known.{Known};
ghost use Rattle.pgw_meta.specs.Types.{shape};
ghost use Rattle.pgw_cell.specs.Value.{Value};
ghost use Rattle.pgw_cell.specs.Built.{IsBuilt};
ghost use Rattle.pgw_cell.specs.Cells.{HasType, Spells, Breaks, Fits, canonical_cell, canonical_size};

use crate::piece::are_bytes;
use pgw_meta::PgType;
use pgw_wire::RawCell;

/// A cell spells at most one value of a type.
#[tactic(auto, using(crate::proofs::Reading::value_once))]
pub fn one_value(t: &PgType, cell: RawCell<'_>)
    ensures { (v w : Value) → Spells (shape t.now) (cell_of cell.entry) v
        → Spells (shape t.now) (cell_of cell.entry) w → v ≡ w }
{}

/// A cell breaks in at most one kind.
#[tactic(auto, using(crate::proofs::Reading::kind_once))]
pub fn one_kind(t: &PgType, cell: RawCell<'_>)
    ensures { (j k : Kind) → Breaks (shape t.now) j (cell_of cell.entry)
        → Breaks (shape t.now) k (cell_of cell.entry) → j ≡ k }
{}

/// A cell that spells a value does not break, and one that breaks spells none.
#[tactic(auto, using(crate::proofs::Reading::breaks_or_spells))]
pub fn never_both(t: &PgType, cell: RawCell<'_>)
    ensures { (v : Value) (kind : Kind) → Spells (shape t.now) (cell_of cell.entry) v
        → Breaks (shape t.now) kind (cell_of cell.entry) → ⊥ }
{}

/// Every cell of a type that is built spells a value or breaks.
pub fn always_one(t: &PgType, cell: RawCell<'_>)
    requires { IsBuilt (shape t.now) }
    ensures { ((v : Value) × Spells (shape t.now) (cell_of cell.entry) v)
        ⊎ ((kind : Kind) × Breaks (shape t.now) kind (cell_of cell.entry)) }
{
    match cell {
        RawCell::Null => {}
        RawCell::Piece(piece) => are_bytes(piece),
    }
}

/// What a cell of a type spells is a value of the type.
#[tactic(auto, using(crate::proofs::Reading::spelled_has_type))]
pub fn spelled_has_type(t: &PgType, cell: RawCell<'_>)
    ensures { (v : Value) → Spells (shape t.now) (cell_of cell.entry) v → HasType (shape t.now) v }
{}

/// The canonical cell of a value of the type has as many bytes as the value's size says, and a null has none.
pub fn size_is_counted(t: &PgType)
    ensures { (known : Known) (v : Value) → HasType (shape t.now) v
        → canonical_size (shape t.now) v ≡ size_of (canonical_cell known (shape t.now) v) }
{}

/// The canonical cell of a value of the type, of at most 2147483647 bytes, spells that value.
pub fn canonical_is_read_back(t: &PgType)
    ensures { (known : Known) (v : Value) → HasType (shape t.now) v → Fits 2147483647 (shape t.now) v
        → Spells (shape t.now) (canonical_cell known (shape t.now) v) v }
{}
