ghost use Rattle.std.specs.Prelude.{◌≡◌, ◌≢◌, ◌<◌, ◌≤◌, ◌^◌, List, length, true, OnOk, IfErr, Ok, Err};
ghost use Rattle.pgw_meta.specs.NamedOids.{known_of};
ghost use Rattle.pgw_wire.specs.Outside.{HasFailed, Wrote, WroteFront};
ghost use Rattle.pgw_copy.specs.Format.{IsRow};
ghost use Rattle.pgw_copy.specs.State.{cells_of, bytes_of, ready};
ghost use Rattle.pgw_meta.specs.Types.{column_shapes};
ghost use Rattle.pgw_cell.specs.Value.{Value};
ghost use Rattle.pgw_tree.specs.Canonical.{canonical_row};
ghost use Rattle.pgw_tree.specs.Columns.{SpellsFit};
ghost use Rattle.pgw_tree.specs.Sending.{SendCause};
ghost use Rattle.pgw_tree.specs.Copying.{Copies};
ghost use Rattle.pgw_tree.specs.Runs.{IsNextRow, rows_fault};

use crate::append::append_row;
use crate::columns::Columns;
use crate::plain::plain_rows;
use crate::send_fault::SendFault;
use crate::{CopyFault, Limits};
use pgw_copy::{CopyReader, CopyWriter, RawRow};
use pgw_wire::{Sink, Source, send};

/// Makes the writer's buffer the canonical row of the values that the first cells of the row spell, column by column.
fn fill_row(
    columns: &Columns<'_>,
    row: &RawRow<'_>,
    field_max: u32,
    writer: &mut CopyWriter,
) -> Result<(), SendFault>
    requires max { field_max ≤ 2147483647 }
    requires row { IsRow (cells_of row.now) (bytes_of row.now) }
    ensures ok { OnOk result ((values : List Value) × SpellsFit field_max (column_shapes columns.now.types.now) (cells_of row.now) values
        × (writer.new.bytes ≡ canonical_row (known_of columns.now.found.now) (column_shapes columns.now.types.now) values)) }
    ensures err { IfErr result (SendCause field_max (column_shapes columns.now.types.now) (cells_of row.now) ⊥) }
{
    if row.len() < columns.types.len() {
        return Err(SendFault::TooFew);
    }
    let buffer = writer.buffer();
    buffer.clear();
    append_row(columns, field_max, &row.as_bytes()[2..], buffer)?;
    Ok(())
}

/// Writes the canonical row of the values that the first cells of the row spell: as it was taken where that is the one, and
/// else by way of the writer's buffer.
fn send_values<K: Sink>(
    columns: &Columns<'_>,
    row: &RawRow<'_>,
    field_max: u32,
    writer: &mut CopyWriter,
    sink: &mut K,
) -> Result<(), SendFault>
    requires max { field_max ≤ 2147483647 }
    requires row { IsRow (cells_of row.now) (bytes_of row.now) }
    ensures ok { OnOk result ((values : List Value) × SpellsFit field_max (column_shapes columns.now.types.now) (cells_of row.now) values
        × Wrote (K.state sink.old) (K.state sink.new) (canonical_row (known_of columns.now.found.now) (column_shapes columns.now.types.now) values)) }
    ensures err { IfErr result (SendCause field_max (column_shapes columns.now.types.now) (cells_of row.now)
        ((values : List Value) × SpellsFit field_max (column_shapes columns.now.types.now) (cells_of row.now) values
        × WroteFront (Wrote (K.state sink.old) (K.state sink.new)) (canonical_row (known_of columns.now.found.now) (column_shapes columns.now.types.now) values)
        × HasFailed (K.state sink.old) (K.state sink.new))) }
    ensures unwritten { IfErr result (λ fault. fault ≢ SendFault.WriteFault → sink.new ≡ sink.old) }
{
    let bytes = row.as_bytes();
    let run = plain_rows(columns, field_max, 1, bytes);
    if run.rows == 1 && run.bytes.len() == bytes.len() {
        if send(sink, bytes) < bytes.len() {
            return Err(SendFault::WriteFault);
        }
        return Ok(());
    }
    fill_row(columns, row, field_max, writer)?;
    match writer.send_row(sink) {
        Ok(()) => Ok(()),
        Err(_) => Err(SendFault::WriteFault),
    }
}

/// Takes the next row and writes its canonical form, or takes the end of the stream, and answers whether it was a row. So
/// many rows were copied before.
pub(crate) fn copy_row<S: Source, K: Sink>(
    columns: &Columns<'_>,
    limits: Limits,
    rows: u64,
    reader: &mut CopyReader,
    source: &mut S,
    writer: &mut CopyWriter,
    sink: &mut K,
) -> Result<bool, CopyFault>
    requires ready { reader.old ≡ ready }
    requires allowed { rows ≤ limits.rows_max }
    ensures takes { Copies (S.state source.old) (S.state source.new) result
        (IsNextRow (known_of columns.now.found.now) limits (column_shapes columns.now.types.now) rows (Wrote (K.state sink.old) (K.state sink.new)))
        (rows_fault (known_of columns.now.found.now) limits (column_shapes columns.now.types.now) rows (Wrote (K.state sink.old) (K.state sink.new))) }
    ensures ready { result ≡ Ok true → reader.new ≡ ready }
    ensures more { result ≡ Ok true → rows < limits.rows_max }
    ensures write_fault { result ≡ Err CopyFault.WriteFault → HasFailed (K.state sink.old) (K.state sink.new) }
{
    if reader.next_count(source)?.is_none() {
        return Ok(false);
    }
    if rows == limits.rows_max() {
        return Err(CopyFault::RowLimit);
    }
    let row = reader.read_fields(source)?;
    match send_values(columns, &row, limits.field_max(), writer, sink) {
        Ok(()) => Ok(true),
        Err(fault) => Err(fault.in_row(rows)),
    }
}
