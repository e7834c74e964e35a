ghost use Rattle.std.specs.Prelude.{◌≡◌, ◌≤◌, ◌++◌, List, ℕ, IfSome};
ghost use Rattle.pgw_meta.specs.NamedOids.{known_of};
ghost use Rattle.pgw_meta.specs.Types.{column_shapes};
ghost use Rattle.pgw_cell.specs.Value.{Value};
ghost use Rattle.pgw_tree.specs.Plain.{IsPlainFields, IsPlainRow, IsPlainRun};

use crate::columns::Columns;
use pgw_cell::PlainCell;
use pgw_wire::take_u16;

/// What stands behind the canonical fields of the columns at the front. None where none stand there.
#[inline(always)]
pub(crate) fn behind_plain_fields<'a>(
    columns: &Columns<'_>,
    field_max: u32,
    bytes: &'a [u8],
) -> Option<&'a [u8]>
    requires max { field_max ≤ 2147483647 }
    ensures some { IfSome result (λ rest. (fields : List ℕ) × (values : List Value)
        × IsPlainFields (known_of columns.now.found.now) field_max (column_shapes columns.now.types.now) values fields × (bytes.now ≡ fields ++ rest.now)) }
{
    let mut rest = bytes;
    for cell in columns.plain {
        rest = cell.behind_field(field_max, rest)?;
    }
    Some(rest)
}

/// What stands behind the canonical row at the front. None where none stands there.
#[inline(always)]
fn behind_plain_row<'a>(columns: &Columns<'_>, field_max: u32, bytes: &'a [u8]) -> Option<&'a [u8]>
    requires max { field_max ≤ 2147483647 }
    ensures some { IfSome result (λ rest. (row : List ℕ) × (values : List Value)
        × IsPlainRow (known_of columns.now.found.now) field_max (column_shapes columns.now.types.now) row values × (bytes.now ≡ row ++ rest.now)) }
{
    let (count, fields) = take_u16(bytes)?;
    if count as usize != columns.plain.len() {
        return None;
    }
    behind_plain_fields(columns, field_max, fields)
}

/// Rows, and the bytes that they are.
#[derive(Drop)]
pub(crate) struct Run<'a> {
    pub(crate) rows: u64,
    pub(crate) bytes: &'a [u8],
}

/// The canonical rows at the front, `most` at most.
#[inline(always)]
fn walk<'a>(columns: &Columns<'_>, field_max: u32, most: u64, bytes: &'a [u8]) -> Run<'a>
    requires max { field_max ≤ 2147483647 }
    ensures { IsPlainRun (known_of columns.now.found.now) field_max (column_shapes columns.now.types.now) most bytes.now result.bytes.now result.rows }
{
    let mut rows = 0;
    let mut rest = bytes;
    while rows < most {
        match behind_plain_row(columns, field_max, rest) {
            Some(behind) => {
                rest = behind;
                rows += 1;
            }
            None => break,
        }
    }
    Run {
        rows,
        bytes: &bytes[..bytes.len() - rest.len()],
    }
}

/// The canonical rows at the front, `most` at most.
// Inlined, it would keep its counter in memory. For rows of one column of four bytes the walk is made anew, with its columns known.
#[inline(never)]
pub(crate) fn plain_rows<'a>(
    columns: &Columns<'_>,
    field_max: u32,
    most: u64,
    bytes: &'a [u8],
) -> Run<'a>
    requires max { field_max ≤ 2147483647 }
    ensures { IsPlainRun (known_of columns.now.found.now) field_max (column_shapes columns.now.types.now) most bytes.now result.bytes.now result.rows }
{
    if let [only] = columns.plain
        && *only == PlainCell::four_bytes()
        && field_max >= 4
    {
        let known = Columns {
            types: columns.types,
            plain: &[PlainCell::four_bytes()],
            found: columns.found,
        };
        walk(&known, field_max, most, bytes)
    } else {
        let known = Columns {
            types: columns.types,
            plain: columns.plain,
            found: columns.found,
        };
        walk(&known, field_max, most, bytes)
    }
}
