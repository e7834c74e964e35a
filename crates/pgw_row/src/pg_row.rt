ghost use Rattle.std.specs.Prelude.{◌≡◌, length, position, refl};
ghost use Rattle.pgw_row.specs.Rows.{field_of, whole_row, inner_place, inner_place_named};
ghost use Rattle.pgw_row.specs.ResultRows.{fields_of_columns, field_in_column, column_is_named};

use crate::{PartialRow, PgField, ResultColumn, Row, RowIndex, RowNames};
use pgw_wire::RawCell;
use std::ops::Range;

/// A row of a result, which borrows its columns and its cells.
#[derive(Clone, Copy)]
pub struct PgRow<'a> {
    columns: &'a [ResultColumn],
    cells: &'a [Option<Vec<u8>>],
}

impl<'a> PgRow<'a> {
    /// The row of these cells, one for each of the columns.
    pub(crate) fn new(columns: &'a [ResultColumn], cells: &'a [Option<Vec<u8>>]) -> PgRow<'a>
        ensures columns { result.columns.now ≡ columns.now }
        ensures cells { result.cells.now ≡ cells.now }
    {
        PgRow { columns, cells }
    }
}

impl RowIndex<usize> for PgRow<'_> {
    ghost index = { λ row. inner_place 0 (whole_row (fields_of_columns row.columns.now row.cells.now)) };

    fn idx(&self, idx: usize) -> Option<usize> {
        if idx < self.field_count() {
            Some(idx)
        } else {
            None
        }
    }
}

impl RowNames for PgRow<'_> {
    ghost index_of_name = { λ row. inner_place_named 0 (whole_row (fields_of_columns row.columns.now row.cells.now)) };

    #[tactic(auto, using(crate::proofs::ResultFields::place_in_fields, crate::proofs::ResultFields::no_place))]
    fn idx_name(&self, name: &str) -> Option<usize> {
        let place = place_of_column(self.columns, name)?;
        if place < self.field_count() {
            Some(place)
        } else {
            None
        }
    }
}

/// Whether the column has this name.
fn is_named(column: &ResultColumn, name: &str) -> bool
    ensures { result ≡ column_is_named name.now column.now }
{
    match &column.name {
        Some(own) => own.as_str() == name,
        None => false,
    }
}

/// The place of the first column with this name.
fn place_of_column(columns: &[ResultColumn], name: &str) -> Option<usize>
    ensures { result ≡ position (column_is_named name.now) columns.now }
{
    columns.iter().position(|column| is_named(column, name))
}

/// The field of a column with a cell of it.
fn field_in<'a>(column: &'a ResultColumn, cell: &'a Option<Vec<u8>>) -> PgField<'a>
    ensures { field_of result ≡ field_in_column column.now cell.now }
{
    let name = match &column.name {
        Some(name) => Some(name.as_str()),
        None => None,
    };
    let cell = match cell {
        Some(bytes) => RawCell::Piece(bytes.as_slice()),
        None => RawCell::Null,
    };
    PgField::new(name, cell, column.oid)
}

impl<'a> Row for PgRow<'a> {
    type InnerPartialRow = PgRow<'a>;

    ghost parts = { λ row. whole_row (fields_of_columns row.columns.now row.cells.now) };

    ghost inner = { λ row. row };

    ghost first = { λ _. 0 };

    #[tactic(auto, using(crate::proofs::ResultFields::count_of_fields))]
    fn field_count(&self) -> usize {
        self.columns.len().min(self.cells.len())
    }

    fn get(&self, idx: usize) -> Option<PgField<'_>> {
        let column = self.columns.get(idx)?;
        let cell = self.cells.get(idx)?;
        Some(field_in(column, cell))
    }

    fn get_named(&self, name: &str) -> Option<PgField<'_>> {
        self.get(self.idx_name(name)?)
    }

    fn partial_row(&self, places: Range<usize>) -> PartialRow<'_, PgRow<'a>> {
        PartialRow::between(self, 0, self.field_count(), places)
    }

    ghost by_place = { λ row place. refl };

    ghost by_name = { λ row name. refl };
}
