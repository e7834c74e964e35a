ghost use Rattle.std.specs.Prelude.{◌≡◌, ◌≤◌, ◌+◌, ◌||◌, ℕ, suc, List, Bool, false, length};
ghost use Rattle.pgw_wire.specs.Cell.{Cell};
ghost use Rattle.pgw_wire.specs.declared.sql_error.SqlError.{SqlError as Refusal};
ghost use Rattle.pgw_meta.specs.Reading.{Answers};
ghost use Rattle.pgw_row.specs.Rows.{cells_in};
ghost use Rattle.pgw_row.specs.Building.{in_column as refusal_in_column, ReadsMembers, ReadsNone, RefusesMembers, RefusesNone, RefusesTuple};

use crate::Row;
use pgw_meta::FromSql;
use pgw_meta::deserialize::Result;
use pgw_wire::{FieldError, SqlError};
use std::alloc::Global;

/// The members of a tuple as pairs in pairs, the last of them `()`. They are read from the fields of a row in order.
pub(crate) trait Members<ST>: Sized + Drop {
    /// How many there are.
    ghost COUNT: { ℕ };

    /// The cells of a row from a place on are read as the members.
    ghost reads_members: { ℕ → List Cell → Self → Type 0 };

    /// The cells of a row from a place on are refused with the error.
    ghost refuses_members: { ℕ → List Cell → Refusal → Type 0 };

    /// Reading may ask for memory.
    ghost MEMORY: { Bool };

    /// The members, of which the first is read from the field at `place`.
    fn read_members<R: Row>(alloc: Global, row: &R, place: usize) -> Result<Self>
        requires there { place + COUNT ≤ length (cells_in (R.parts row.now)) }
        requires counted { place + COUNT ≤ usize.MAX }
        ensures { Answers (reads_members place) (refuses_members place) MEMORY (cells_in (R.parts row.now)) result };
}

/// The error of a row in which the field at a place was refused.
fn in_column(column: usize, error: SqlError) -> SqlError
    ensures { result ≡ refusal_in_column column error }
{
    match error {
        SqlError::UnexpectedNull | SqlError::NoMemory => error,
        _ => SqlError::Field(FieldError {
            column,
            number: error.number(),
        }),
    }
}

impl Members<()> for () {
    ghost COUNT = { 0 };

    ghost reads_members = { ReadsNone };

    ghost refuses_members = { RefusesNone };

    ghost MEMORY = { false };

    fn read_members<R: Row>(_alloc: Global, _row: &R, _place: usize) -> Result<()> {
        Ok(())
    }
}

impl<SH, ST, H: FromSql<SH>, T: Members<ST>> Members<(SH, ST)> for (H, T) {
    ghost COUNT = { 1 + T.COUNT };

    ghost reads_members = { ReadsMembers H.reads T.reads_members };

    ghost refuses_members = { RefusesMembers H.reads H.refuses T.refuses_members };

    ghost MEMORY = { H.MEMORY || T.MEMORY };

    #[tactic(auto, using(pgw_meta::proofs::Reading::refused_too))]
    fn read_members<R: Row>(alloc: Global, row: &R, place: usize) -> Result<(H, T)> {
        let head = match row.get_value::<SH, H>(alloc, place) {
            Ok(head) => head,
            Err(error) => return Err(in_column(place, error)),
        };
        let tail = T::read_members(alloc, row, place + 1)?;
        Ok((head, tail))
    }
}

/// The members of a tuple, read from the first `count` fields of a row. `UnexpectedEndOfRow` where it has fewer, before
/// one is read.
pub(crate) fn read_tuple<ST, M: Members<ST>, R: Row>(
    alloc: Global,
    row: &R,
    count: usize,
) -> Result<M>
    requires { count ≡ M.COUNT }
    ensures { Answers (M.reads_members 0) (RefusesTuple M.COUNT M.refuses_members) M.MEMORY
        (cells_in (R.parts row.now)) result }
{
    if row.field_count() < count {
        return Err(SqlError::UnexpectedEndOfRow);
    }
    M::read_members(alloc, row, 0)
}
