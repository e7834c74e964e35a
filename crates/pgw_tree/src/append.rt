ghost use Rattle.std.specs.Prelude.{◌≡◌, ◌≤◌, ◌++◌, List, ℕ, length, OnErr, OnOk, IfOk, IfErr};
ghost use Rattle.pgw_meta.specs.NamedOids.{known_of};
ghost use Rattle.std.specs.Int.{to_be_bytes, w16};
ghost use Rattle.pgw_wire.specs.Cell.{Cell};
ghost use Rattle.pgw_meta.specs.Types.{column_shapes};
ghost use Rattle.pgw_tree.specs.Sending.{SendCause};
ghost use Rattle.pgw_tree.specs.Appending.{HasRowFields, AppendsFields};

use crate::columns::Columns;
use crate::fields::front_cell;
use crate::send_fault::SendFault;
use pgw_cell::{AppendFault, append_cell};
use pgw_wire::{ByteBuffer, NoMemory};

/// Appends the canonical fields of the values that the first fields of a row spell, column by column, and answers what stands
/// behind those fields. At an error some of the canonical fields may have been appended: `TooFew` says that a field is cut.
fn append_fields<'a>(
    columns: &Columns<'_>,
    field_max: u32,
    fields: &'a [u8],
    out: &mut ByteBuffer,
) -> Result<&'a [u8], SendFault>
    requires max { field_max ≤ 2147483647 }
    ensures ok { IfOk result (λ rest. AppendsFields (known_of columns.now.found.now) field_max (column_shapes columns.now.types.now) fields.now rest.now out.old.bytes out.new.bytes) }
    ensures err { IfErr result (λ fault. (cells : List Cell) → HasRowFields (column_shapes columns.now.types.now) cells fields.now
        → SendCause field_max (column_shapes columns.now.types.now) cells ⊥ fault) }
    ensures front { (more : List ℕ) × (out.new.bytes ≡ out.old.bytes ++ more) }
{
    let mut rest = fields;
    for (column, t) in columns.types.iter().enumerate() {
        let Some((cell, behind)) = front_cell(rest) else {
            return Err(SendFault::TooFew);
        };
        match append_cell(t, cell, field_max, columns.found, out) {
            Ok(()) => rest = behind,
            Err(AppendFault::Break(kind)) => return Err(SendFault::BadValue { column, kind }),
            Err(AppendFault::TooLong) => return Err(SendFault::TooLong { column }),
            Err(AppendFault::NoMemory) => return Err(SendFault::NoMemory),
        }
    }
    Ok(rest)
}

/// Appends the count of the columns and their fields, which are canonical as they stand. At an error the bytes are as before.
pub(crate) fn push_plain_row(
    columns: &Columns<'_>,
    fields: &[u8],
    out: &mut ByteBuffer,
) -> Result<(), NoMemory>
    ensures ok { OnOk result (out.new.bytes
        ≡ out.old.bytes ++ (to_be_bytes w16 (length columns.now.types.now) ++ fields.now)) }
    ensures kept { OnErr result (out.new.bytes ≡ out.old.bytes) }
{
    out.reserve(fields.len() + 2)?;
    out.push_reserved(&(columns.types.len() as u16).to_be_bytes());
    out.push_reserved(fields);
    Ok(())
}

/// Appends the canonical row of the values that the first fields of a row spell, column by column, and answers what stands
/// behind those fields. At an error a part of that row may have been appended: `TooFew` says that a field is cut.
pub(crate) fn append_row<'a>(
    columns: &Columns<'_>,
    field_max: u32,
    fields: &'a [u8],
    out: &mut ByteBuffer,
) -> Result<&'a [u8], SendFault>
    requires max { field_max ≤ 2147483647 }
    ensures ok { IfOk result (λ rest. AppendsFields (known_of columns.now.found.now) field_max (column_shapes columns.now.types.now) fields.now rest.now
        (out.old.bytes ++ to_be_bytes w16 (length columns.now.types.now)) out.new.bytes) }
    ensures err { IfErr result (λ fault. (cells : List Cell) → HasRowFields (column_shapes columns.now.types.now) cells fields.now
        → SendCause field_max (column_shapes columns.now.types.now) cells ⊥ fault) }
    ensures front { (more : List ℕ) × (out.new.bytes ≡ out.old.bytes ++ more) }
{
    out.push_all(&(columns.types.len() as u16).to_be_bytes())?;
    append_fields(columns, field_max, fields, out)
}
