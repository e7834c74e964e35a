ghost use Rattle.std.specs.Prelude.{◌≡◌, ℕ, length, map, slice_get, option_map, string_bytes, MatchOption, IfOk, IfErr, OnOk};
ghost use Rattle.std.specs.Option.{option_and_then, option_copied, is_none};
ghost use Rattle.pgw_row.specs.Results.{answered_of, row_of, AreWhole, IsFirstRagged, cell_at, SaysCount};
ghost use Rattle.pgw_row.specs.ResultRows.{fields_of_columns, row_fields};
ghost use Rattle.pgw_row.specs.declared.result.ResultError.TheVariants.{RaggedRow as ragged_row, BadCount as bad_count};

use crate::PgRow;
use std::marker::Model;
use std::num::NonZeroU32;
use thiserror::Error;

/// Why parts make no result, or a result does not tell how many rows were changed.
#[derive(Clone, Copy, Debug, PartialEq, Eq, Error)]
pub enum ResultError {
    /// A row has more or fewer cells than there are columns.
    #[error("row {row} has not as many values as there are columns")]
    RaggedRow {
        /// The place of the first such row, counted from 0.
        row: usize,
    },
    /// The text that tells how many rows the command changed is no number, or one past `usize`.
    #[error("the count of rows is no number")]
    BadCount,
}

/// A column of a result.
#[derive(Debug, Drop)]
pub struct ResultColumn {
    /// The column's name, where it has one.
    pub name: Option<String>,
    /// The oid of the column's type.
    pub oid: NonZeroU32,
}

/// What a query answered: columns, rows of as many cells, each null or a piece of bytes, and the text that tells how
/// many rows the command changed. Rows and columns are counted from 0.
#[derive(Debug, Drop)]
pub struct PgResult {
    columns: Vec<ResultColumn>,
    rows: Vec<Vec<Option<Vec<u8>>>>,
    command_count: String,
}

impl Model for PgResult {
    ghost use Rattle.std.specs.Prelude.{length, map, string_bytes};
    ghost use Rattle.pgw_row.specs.Results.{Answered, answered_of, row_of, AreWhole};

    ghost Value = { Answered };

    ghost view = { λ r. answered_of r.columns.items r.rows.items (string_bytes r.command_count) };

    ghost invariant = { λ r. AreWhole (length r.columns.items) (map row_of r.rows.items) };
}

impl PgResult {
    /// The result of these parts. `RaggedRow` exactly where a row has not as many cells as there are columns, with the
    /// place of the first such row. It takes no memory.
    pub fn from_parts(
        columns: Vec<ResultColumn>,
        rows: Vec<Vec<Option<Vec<u8>>>>,
        command_count: String,
    ) -> Result<PgResult, ResultError>
        ensures parts { IfOk result (λ answered.
            answered ≡ answered_of columns.items rows.items (string_bytes command_count)) }
        ensures whole { OnOk result (AreWhole (length columns.items) (map row_of rows.items)) }
        ensures ragged { IfErr result (λ e. (row : ℕ) × (e ≡ ragged_row row)
            × IsFirstRagged (length columns.items) (map row_of rows.items) row) }
    {
        match first_ragged(columns.len(), &rows) {
            Some(row) => Err(ResultError::RaggedRow { row }),
            None => Ok(PgResult {
                columns,
                rows,
                command_count,
            }),
        }
    }

    /// How many rows the command changed: 0 where it does not tell. `BadCount` exactly where its text is neither empty
    /// nor decimal digits, behind a `+` or none, of a number that a `usize` holds.
    pub fn rows_affected(&self) -> Result<usize, ResultError>
        ensures count { IfOk result (SaysCount self.now.command_count) }
        ensures no_count { IfErr result (λ e. (e ≡ bad_count) × ((n : ℕ) → ¬ (SaysCount self.now.command_count n))) }
    {
        let count = self.command_count.as_str();
        if count.is_empty() {
            return Ok(0);
        }
        count.parse().map_err(|_| ResultError::BadCount)
    }

    /// How many rows there are.
    pub fn num_rows(&self) -> usize
        ensures { result ≡ length self.now.rows }
    {
        self.rows.len()
    }

    /// How many columns there are, and cells in each row.
    pub fn column_count(&self) -> usize
        ensures columns { result ≡ length self.now.columns }
        ensures rows { AreWhole result self.now.rows }
    {
        self.columns.len()
    }

    /// The name of a column. None past the last, and where the column has no name.
    pub fn column_name(&self, col_idx: usize) -> Option<&str>
        ensures { option_copied result ≡ option_and_then (λ c. c.name) (slice_get self.now.columns col_idx) }
    {
        self.columns.get(col_idx)?.name.as_deref()
    }

    /// The oid of the type of a column. None exactly past the last.
    pub fn column_type(&self, col_idx: usize) -> Option<NonZeroU32>
        ensures { result ≡ option_map (λ c. c.oid) (slice_get self.now.columns col_idx) }
    {
        Some(self.columns.get(col_idx)?.oid)
    }

    /// The row at a place, whose fields are the columns, each with its cell of this row. None exactly past the last.
    pub fn get_row(&self, row_idx: usize) -> Option<PgRow<'_>>
        ensures { option_map (λ row. fields_of_columns row.columns.now row.cells.now) result
            ≡ option_map (row_fields self.now.columns) (slice_get self.now.rows row_idx) }
    {
        Some(PgRow::new(&self.columns, self.rows.get(row_idx)?))
    }

    /// The piece in a row and a column. None where the cell is null, and past the last row or column.
    pub fn get(&self, row_idx: usize, col_idx: usize) -> Option<&[u8]>
        ensures { option_copied result ≡ cell_at self.now.rows row_idx col_idx }
    {
        self.rows.get(row_idx)?.get(col_idx)?.as_deref()
    }

    /// Whether there is no piece in a row and a column: the cell is null, or it stands past the last row or column.
    pub fn is_null(&self, row_idx: usize, col_idx: usize) -> bool
        ensures { result ≡ is_none (cell_at self.now.rows row_idx col_idx) }
    {
        self.get(row_idx, col_idx).is_none()
    }
}

/// The place of the first row that has not this many cells.
fn first_ragged(columns: usize, rows: &[Vec<Option<Vec<u8>>>]) -> Option<usize>
    ensures { let cells = map row_of rows.now in
        MatchOption result (AreWhole columns cells) (IsFirstRagged columns cells) }
{
    rows.iter().position(|row| row.len() != columns)
}
