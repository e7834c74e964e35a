ghost use Rattle.std.specs.Prelude.{◌≡◌, ◌<◌, ◌^◌, length, IfOk};
ghost use Rattle.pgw_meta.specs.NamedOids.{known_of};
ghost use Rattle.pgw_meta.specs.Types.{column_shapes};
ghost use Rattle.pgw_tree.specs.ColumnTypes.{AreBuilt, AreBuilt-prop, plain_cells};

use pgw_cell::PlainCell;
use pgw_meta::{FoundOids, PgType};
use pgw_wire::NoMemory;
use std::alloc::Global;

/// The columns of a stream, of which each type is one whose cells are copied.
#[derive(Drop)]
pub(crate) struct Columns<'a> {
    /// The types.
    pub(crate) types: &'a [PgType],
    /// By what a canonical cell of each type is known.
    pub(crate) plain: &'a [PlainCell],
    /// The oids of named types.
    pub(crate) found: &'a FoundOids,
    ghost few: { length types.now < 2 ^ 15 },
    ghost built: { AreBuilt (column_shapes types.now) } by { AreBuilt-prop (column_shapes types.now) },
    ghost each: { plain.now ≡ plain_cells (known_of found.now) (column_shapes types.now) },
}

/// By what a canonical cell of each type is known, in the order of the types.
pub(crate) fn plain_cells_of(
    alloc: Global,
    types: &[PgType],
    found: &FoundOids,
) -> Result<Vec<PlainCell>, NoMemory>
    ensures { IfOk result (λ cells. cells.items ≡ plain_cells (known_of found.now) (column_shapes types.now)) }
{
    let mut cells = Vec::with_capacity(alloc, types.len())?;
    for (_place, t) in types.iter().enumerate() {
        cells.push(PlainCell::of(t, found))?;
    }
    Ok(cells)
}
