ghost use Rattle.std.specs.Prelude.{◌≡◌, ◌≤◌, ◌++◌, List, ℕ, length, IfSome, IsNone};
ghost use Rattle.std.specs.Int.{to_be_bytes, w16};
ghost use Rattle.pgw_meta.specs.NamedOids.{known_of};
ghost use Rattle.std.specs.Io.{StartsWith};
ghost use Rattle.pgw_meta.specs.Types.{column_shapes};
ghost use Rattle.pgw_tree.specs.Appending.{AppendsFields};
ghost use Rattle.pgw_tree.specs.Runs.{AreRespelled, RespellsRow};

use crate::append::{append_row, push_plain_row};
use crate::columns::Columns;
use crate::fields::behind_fields;
use crate::plain::{Run, behind_plain_fields};
use pgw_copy::NEGATIVE_COUNT;
use pgw_wire::{ByteBuffer, take_u16};

/// How many bytes of canonical rows are kept before they are written.
const ENOUGH: usize = 32768;

/// Appends the canonical row of the values that the columns' fields at the front spell, and answers what stands behind these.
/// None where they spell none that fit, where one is cut, or where memory is refused; and where they are canonical as they
/// stand and the row has no others, since a run of such rows is taken in one piece. Then a part may have been appended.
fn append_columns<'a>(
    columns: &Columns<'_>,
    field_max: u32,
    only: bool,
    fields: &'a [u8],
    out: &mut ByteBuffer,
) -> Option<&'a [u8]>
    requires max { field_max ≤ 2147483647 }
    ensures some { IfSome result (λ rest. AppendsFields (known_of columns.now.found.now) field_max (column_shapes columns.now.types.now) fields.now rest.now
        (out.old.bytes ++ to_be_bytes w16 (length columns.now.types.now)) out.new.bytes) }
    ensures front { (more : List ℕ) × (out.new.bytes ≡ out.old.bytes ++ more) }
{
    match behind_plain_fields(columns, field_max, fields) {
        Some(_) if only => None,
        Some(others) => {
            let plain = &fields[..fields.len() - others.len()];
            match push_plain_row(columns, plain, out) {
                Ok(()) => Some(others),
                Err(_) => None,
            }
        }
        None => match append_row(columns, field_max, fields, out) {
            Ok(others) => Some(others),
            Err(_) => None,
        },
    }
}

/// Appends the canonical row of the values that the first fields of the row at the front spell, and answers what stands behind
/// that row. None where no whole row stands there that spells values which fit, where memory is refused, or where the row is
/// canonical as it stands. Then a part may have been appended.
fn append_front<'a>(
    columns: &Columns<'_>,
    field_max: u32,
    bytes: &'a [u8],
    out: &mut ByteBuffer,
) -> Option<&'a [u8]>
    requires max { field_max ≤ 2147483647 }
    ensures some { IfSome result (λ rest.
        RespellsRow (known_of columns.now.found.now) field_max (column_shapes columns.now.types.now) bytes.now rest.now out.old.bytes out.new.bytes) }
    ensures front { (more : List ℕ) × (out.new.bytes ≡ out.old.bytes ++ more) }
{
    let (count, fields) = take_u16(bytes)?;
    if count >= NEGATIVE_COUNT || (count as usize) < columns.types.len() {
        return None;
    }
    let more = count as usize - columns.types.len();
    let others = append_columns(columns, field_max, more == 0, fields, out)?;
    behind_fields(more, others)
}

/// The same, where the buffer is as before if there is no answer.
fn respell_row<'a>(
    columns: &Columns<'_>,
    field_max: u32,
    bytes: &'a [u8],
    out: &mut ByteBuffer,
) -> Option<&'a [u8]>
    requires max { field_max ≤ 2147483647 }
    ensures some { IfSome result (λ rest.
        RespellsRow (known_of columns.now.found.now) field_max (column_shapes columns.now.types.now) bytes.now rest.now out.old.bytes out.new.bytes) }
    ensures none { IsNone result → out.new.bytes ≡ out.old.bytes }
{
    let start = out.len();
    let behind = append_front(columns, field_max, bytes, out);
    if behind.is_none() {
        out.truncate(start);
    }
    behind
}

/// Makes the buffer the canonical form of rows at the front, `most` at most, and answers these. It stops in front of a row that
/// is canonical as it stands, since more such rows may follow, and where the buffer holds enough.
pub(crate) fn respell_rows<'a>(
    columns: &Columns<'_>,
    field_max: u32,
    most: u64,
    bytes: &'a [u8],
    out: &mut ByteBuffer,
) -> Run<'a>
    requires max { field_max ≤ 2147483647 }
    ensures limit { result.rows ≤ most }
    ensures front { StartsWith bytes.now result.bytes.now }
    ensures rows { AreRespelled (known_of columns.now.found.now) field_max (column_shapes columns.now.types.now) result.rows out.new.bytes result.bytes.now }
{
    out.clear();
    let mut rows = 0;
    let mut rest = bytes;
    while rows < most && out.len() < ENOUGH {
        match respell_row(columns, field_max, rest, out) {
            None => break,
            Some(behind) => {
                rest = behind;
                rows += 1;
            }
        }
    }
    Run {
        rows,
        bytes: &bytes[..bytes.len() - rest.len()],
    }
}
