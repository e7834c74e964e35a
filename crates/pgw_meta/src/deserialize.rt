ghost use Rattle.std.specs.Prelude.{◌≡◌, List, ℕ, Bool, false, true, Some, None, Ok, Err, MatchResult};
ghost use Rattle.pgw_wire.specs.Cell.{Cell};
ghost use Rattle.pgw_wire.specs.declared.sql_error.SqlError.{SqlError as Refusal};
ghost use Rattle.pgw_wire.specs.declared.sql_error.SqlError.TheVariants.{UnexpectedNull as unexpected_null};
ghost use Rattle.pgw_meta.specs.Reading.{Answers, cell_of_value};

pub use pgw_wire::deserialize::Result;
use pgw_wire::{PgValue, SqlError};
use std::alloc::Global;

/// A value that can be read from a field of the type of the marker `A`.
///
/// The three ghost members are its meaning, and each implementation states them. Of one cell `reads` and `refuses` may
/// both hold, unless they are stated so that they exclude each other.
pub trait FromSql<A>: Sized + Drop {
    /// The cell is read as the value.
    ghost reads: { Cell → Self → Type 0 };

    /// The cell is refused with the error.
    ghost refuses: { Cell → Refusal → Type 0 };

    /// Reading may ask for memory.
    ghost MEMORY: { Bool };

    /// Reads the value of a field that is not null. Ok has a value that the piece is read as, and an error is one that it
    /// is refused with; or it is `NoMemory`, which comes only of a type whose values take memory.
    fn from_sql(alloc: Global, value: PgValue<'_>) -> Result<Self>
        ensures { Answers reads refuses MEMORY (Some value.entry.raw_value.now) result };

    /// Reads the value of a field, which is None where it is null. Of a type that allows no null this is `UnexpectedNull`.
    fn from_nullable_sql(alloc: Global, value: Option<PgValue<'_>>) -> Result<Self>
        ensures { Answers reads refuses MEMORY (cell_of_value value.entry) result };
}

/// The value of a field of a type that allows no null. `UnexpectedNull` exactly where the field is null.
pub fn required(value: Option<PgValue<'_>>) -> Result<PgValue<'_>>
    ensures { MatchResult result (λ v. value.entry ≡ Some v) (λ e. (e ≡ unexpected_null) × (value.entry ≡ None)) }
{
    match value {
        Some(value) => Ok(value),
        None => Err(SqlError::UnexpectedNull),
    }
}

/// A value that can be read from a field of the type of the marker `A`, and borrows the field's bytes.
pub trait FromSqlRef<'a, A>: Sized {
    /// The piece is read as the value.
    ghost reads: { List ℕ → Self → Type 0 };

    /// The piece is refused with the error.
    ghost refuses: { List ℕ → Refusal → Type 0 };

    /// Reads the value of a field that is not null. Ok has a value that the piece is read as, and an error is one that it
    /// is refused with. It takes no memory.
    fn from_sql_ref(value: PgValue<'a>) -> Result<Self>
        ensures { Answers reads refuses false value.entry.raw_value.now result };
}

/// A type with a value for where a field has none, as for the bounds of an empty range.
pub trait Defaultable {
    /// The value.
    ghost DEFAULT: { Self };

    /// The value.
    fn default_value() -> Self
        ensures { result ≡ DEFAULT };
}

impl Defaultable for i32 {
    ghost use Rattle.std.specs.Prelude.{pos};

    ghost DEFAULT = { pos 0 };

    fn default_value() -> i32 {
        0
    }
}

impl Defaultable for i64 {
    ghost use Rattle.std.specs.Prelude.{pos};

    ghost DEFAULT = { pos 0 };

    fn default_value() -> i64 {
        0
    }
}
