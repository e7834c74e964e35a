ghost use Rattle.std.specs.Prelude.{◌||◌, ℕ, Bool, List};
ghost use Rattle.pgw_wire.specs.Cell.{Cell};
ghost use Rattle.pgw_wire.specs.declared.sql_error.SqlError.{SqlError as Refusal};
ghost use Rattle.pgw_meta.specs.Reading.{Answers};
ghost use Rattle.pgw_row.specs.Rows.{cells_in};
ghost use Rattle.pgw_row.specs.Building.{ReadsThrough, RefusesThrough, ReadsOptional, RefusesOptional, NamedCells, named_cells};

use crate::{NamedRow, Row};
use pgw_meta::deserialize::Result;
use pgw_wire::SqlError;
use std::alloc::Global;

/// A value that is built from the fields of a row, of the types of the marker `ST`.
///
/// The three ghost members are its meaning, and each implementation states them.
pub trait FromSqlRow<ST>: Sized + Drop {
    /// The cells of a row are read as the value.
    ghost reads_row: { List Cell → Self → Type 0 };

    /// The cells of a row are refused with the error.
    ghost refuses_row: { List Cell → Refusal → Type 0 };

    /// Reading may ask for memory.
    ghost MEMORY: { Bool };

    /// The value of a row. Ok has a value that its cells are read as. An error is one that they are refused with, or
    /// `NoMemory`, which comes only where reading may ask for memory.
    fn build_from_row<R: Row>(alloc: Global, row: &R) -> Result<Self>
        ensures { Answers reads_row refuses_row MEMORY (cells_in (R.parts row.now)) result };
}

/// A value that is built from the fields of a row, whose number its type tells.
///
/// The three ghost members are its meaning, and each implementation states them.
pub trait FromStaticSqlRow<ST>: Sized + Drop {
    /// The cells of a row are read as the value.
    ghost reads_row: { List Cell → Self → Type 0 };

    /// The cells of a row are refused with the error.
    ghost refuses_row: { List Cell → Refusal → Type 0 };

    /// Reading may ask for memory.
    ghost MEMORY: { Bool };

    /// The value of a row. Ok has a value that its cells are read as. An error is one that they are refused with, or
    /// `NoMemory`, which comes only where reading may ask for memory.
    fn build_from_row<R: Row>(alloc: Global, row: &R) -> Result<Self>
        ensures { Answers reads_row refuses_row MEMORY (cells_in (R.parts row.now)) result };
}

/// A value that is built from a row, and the number of its fields.
pub trait StaticallySizedRow<ST>: FromSqlRow<ST> {
    /// How many fields of a row it is built from.
    ghost FIELD_COUNT: { ℕ };

    /// How many fields of a row it is built from.
    const FIELD_COUNT: usize;
}

/// A value of one's own that is built from the value of a row.
///
/// The three ghost members are its meaning, and each implementation states them.
pub trait Queryable<ST>: Sized {
    /// What is read from the row first.
    type Row: FromStaticSqlRow<ST>;

    /// From that this value is built.
    ghost builds: { Self.Row → Self → Type 0 };

    /// That is refused with the error.
    ghost refuses: { Self.Row → Refusal → Type 0 };

    /// Building may ask for memory.
    ghost MEMORY: { Bool };

    /// The value that is built from what was read. Ok has a value that is built from it, and an error is one that it is
    /// refused with; or it is `NoMemory`, which comes only where building may ask for memory.
    fn build(alloc: Global, row: Self::Row) -> Result<Self>
        ensures { Answers builds refuses MEMORY row result };
}

/// A value that is built from the fields of a row by the names of their columns.
///
/// The three ghost members are its meaning, and each implementation states them.
pub trait QueryableByName: Sized {
    /// The fields of a row are read as the value.
    ghost reads_row: { NamedCells → Self → Type 0 };

    /// The fields of a row are refused with the error.
    ghost refuses_row: { NamedCells → Refusal → Type 0 };

    /// Reading may ask for memory.
    ghost MEMORY: { Bool };

    /// The value of a row. Ok has a value that its fields are read as. An error is one that they are refused with, or
    /// `NoMemory`, which comes only where reading may ask for memory.
    fn build<R: NamedRow>(alloc: Global, row: &R) -> Result<Self>
        ensures { Answers reads_row refuses_row MEMORY (named_cells (R.parts row.now)) result };
}

/// The value of a row: what `T` is built from is read, and `T` is built from that. An error is that of one of the two.
pub fn build_queryable<T: Queryable<ST>, ST, R: Row>(alloc: Global, row: &R) -> Result<T>
    ensures { Answers (ReadsThrough T.Row.reads_row T.builds)
        (RefusesThrough T.Row.reads_row T.Row.refuses_row T.refuses) (T.Row.MEMORY || T.MEMORY)
        (cells_in (R.parts row.now)) result }
{
    let values = <T::Row as FromStaticSqlRow<ST>>::build_from_row(alloc, row)?;
    T::build(alloc, values)
}

/// The value of a row that may hold none, as where a join finds no row. None where `T` answers `UnexpectedNull`; every
/// other error stays.
pub fn build_optional<T: FromSqlRow<ST>, ST, R: Row>(alloc: Global, row: &R) -> Result<Option<T>>
    ensures { Answers (ReadsOptional T.reads_row T.refuses_row) (RefusesOptional T.refuses_row) T.MEMORY
        (cells_in (R.parts row.now)) result }
{
    match T::build_from_row(alloc, row) {
        Ok(value) => Ok(Some(value)),
        Err(SqlError::UnexpectedNull) => Ok(None),
        Err(error) => Err(error),
    }
}

impl<T: QueryableByName> QueryableByName for Option<T> {
    ghost reads_row = { ReadsOptional T.reads_row T.refuses_row };

    ghost refuses_row = { RefusesOptional T.refuses_row };

    ghost MEMORY = { T.MEMORY };

    fn build<R: NamedRow>(alloc: Global, row: &R) -> Result<Option<T>> {
        match T::build(alloc, row) {
            Ok(value) => Ok(Some(value)),
            Err(SqlError::UnexpectedNull) => Ok(None),
            Err(error) => Err(error),
        }
    }
}
