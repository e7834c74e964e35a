ghost use Rattle.std.specs.Prelude.{◌≡◌, ℕ, ◌+◌, List, Option, None, Err, min, length, slice_get, option_map};
ghost use Rattle.pgw_wire.specs.declared.sql_error.SqlError.TheVariants.{UnexpectedEndOfRow as end_of_row, MissingColumn as missing_column};
ghost use Rattle.pgw_meta.specs.Reading.{Answers};
ghost use Rattle.pgw_row.specs.Rows.{RowParts, field_of, fields_in, cells_in, field_named, finds_in, inner_place, inner_place_named};
ghost use Rattle.pgw_row.specs.RowReading.{AnswersOr};
ghost use Rattle.pgw_row.specs.Building.{ReadsNamed, RefusesNamed, named_cells};

use crate::{Field, PartialRow, PgField};
use pgw_meta::FromSql;
use pgw_meta::deserialize::Result;
use pgw_wire::SqlError;
use std::alloc::Global;
use std::ops::Range;

/// What has fields that are found by an index.
pub trait RowIndex<I> {
    /// The place that an index finds.
    ghost index: { Self → I → Option ℕ };

    /// The place of a field, counted from 0. None where the index finds none.
    ///
    /// Of a window the place is counted in the row that it is a window on.
    fn idx(&self, idx: I) -> Option<usize>
        ensures { result ≡ index self.now idx };
}

/// What has fields that are found by the names of their columns.
pub trait RowNames {
    /// The place that a name finds.
    ghost index_of_name: { Self → List ℕ → Option ℕ };

    /// The place of the field that a name finds, counted from 0. None where it finds none.
    ///
    /// Of a window the place is counted in the row that it is a window on.
    fn idx_name(&self, name: &str) -> Option<usize>
        ensures { result ≡ index_of_name self.now name.now };
}

/// A row of fields, or a window on a part of one.
pub trait Row: RowIndex<usize> + RowNames + Sized {
    /// The type of the row that it is a window on. Of a row that is no window it is its own type.
    type InnerPartialRow;

    /// The fields of the whole row, and which of them it has.
    ghost parts: { Self → RowParts };

    /// The row that it is a window on. Of a row that is no window it is the row itself.
    ghost inner: { Self → Self.InnerPartialRow };

    /// Where in that row its first field stands.
    ghost first: { Self → ℕ };

    /// How many fields it has.
    fn field_count(&self) -> usize
        ensures { result ≡ length (fields_in (parts self.now)) };

    /// The field at a place, counted from 0. None past the last.
    fn get(&self, idx: usize) -> Option<PgField<'_>>
        ensures { option_map field_of result ≡ slice_get (fields_in (parts self.now)) idx };

    /// The field that a name finds: the first one of the whole row whose column has the name. None where no column has
    /// it, and where the row is a window in which that field does not lie.
    fn get_named(&self, name: &str) -> Option<PgField<'_>>
        ensures { option_map field_of result ≡ field_named (parts self.now) name.now };

    /// A window on the places of a range, counted in this row. Past the row's end it has none.
    fn partial_row(&self, places: Range<usize>) -> PartialRow<'_, Self::InnerPartialRow>
        ensures inner { result.inner.now ≡ inner self.now }
        ensures from { result.from
            ≡ min (first self.now + places.start) (first self.now + length (fields_in (parts self.now))) }
        ensures to { result.to
            ≡ min (first self.now + places.end) (first self.now + length (fields_in (parts self.now))) };

    /// The value of the field at a place, counted from 0, as a value of the type of the marker `ST`.
    /// `UnexpectedEndOfRow` where there is none; else what `T` answers.
    fn get_value<ST, T: FromSql<ST>>(&self, alloc: Global, idx: usize) -> Result<T>
        ensures { AnswersOr end_of_row T.reads T.refuses T.MEMORY (slice_get (cells_in (parts self.now)) idx) result }
    {
        match self.get(idx) {
            Some(field) => T::from_nullable_sql(alloc, field.value()),
            None => Err(SqlError::UnexpectedEndOfRow),
        }
    }

    /// The places that are found are those of its fields.
    ghost by_place: { (row : Self) (place : ℕ) → Self.index row place ≡ inner_place (first row) (parts row) place };

    /// Names find the places of the fields that they find.
    ghost by_name: { (row : Self) (name : List ℕ)
        → Self.index_of_name row name ≡ inner_place_named (first row) (parts row) name };
}

/// A row whose values are read by the names of their columns.
pub trait NamedRow: Row {
    /// The value of the field that a name finds, as a value of the type of the marker `ST`. `MissingColumn` where it
    /// finds none; else what `T` answers.
    fn get_by_name<ST, T: FromSql<ST>>(&self, alloc: Global, column_name: &str) -> Result<T>
        ensures answers { Answers (ReadsNamed T.reads column_name.now) (RefusesNamed T.refuses column_name.now) T.MEMORY
            (named_cells (Self.parts self.now)) result }
        ensures missing { finds_in (Self.parts self.now) column_name.now ≡ None → result ≡ Err missing_column };
}

impl<R: Row> NamedRow for R {
    #[tactic(auto, using(crate::proofs::Named::named))]
    fn get_by_name<ST, T: FromSql<ST>>(&self, alloc: Global, column_name: &str) -> Result<T> {
        match self.get_named(column_name) {
            Some(field) => T::from_nullable_sql(alloc, field.value()),
            None => Err(SqlError::MissingColumn),
        }
    }
}
