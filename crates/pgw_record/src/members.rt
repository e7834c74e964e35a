ghost use Rattle.std.specs.Prelude.{◌≡◌, ◌≤◌, ◌+◌, ◌||◌, ℕ, List, Bool, false};
ghost use Rattle.pgw_wire.specs.declared.sql_error.SqlError.{SqlError as Refusal};
ghost use Rattle.pgw_meta.specs.Reading.{Answers, ReadsPiece, RefusesPiece, cell_of_value};
ghost use Rattle.pgw_record.specs.Record.{Component, SpellsMember, SpellsNone};
ghost use Rattle.pgw_record.specs.Record.{RefusesMember, RefusesNone, RefusesRecord};
ghost use Rattle.pgw_record.specs.Members.{AreMembers, AreRecordMembers};

use crate::RecordPieces;
use pgw_meta::FromSql;
use pgw_meta::deserialize::{Result, required};
use pgw_nested::value_of;
use pgw_wire::PgValue;
use std::alloc::Global;

/// The members of a tuple as pairs in pairs, the last of them `()`. They are read from the components of a record in
/// order.
pub(crate) trait Members<ST>: Sized + Drop {
    /// How many there are.
    ghost COUNT: { ℕ };

    /// The components spell the members.
    ghost spelled: { Self → List Component → Type 0 };

    /// Bytes behind the count of a record, or behind some of its components, are refused with the error.
    ghost refuses: { List ℕ → Refusal → Type 0 };

    /// Reading may ask for memory.
    ghost MEMORY: { Bool };

    /// The members, from the components that are left, of which there are as many.
    fn read_members(alloc: Global, pieces: &mut RecordPieces<'_>) -> Result<Self>
        requires { pieces.old.left ≡ COUNT }
        ensures { Answers (AreMembers COUNT spelled) refuses MEMORY pieces.old.rest.now result };
}

impl Members<()> for () {
    ghost COUNT = { 0 };

    ghost spelled = { λ _. SpellsNone };

    ghost refuses = { RefusesNone };

    ghost MEMORY = { false };

    fn read_members(_alloc: Global, pieces: &mut RecordPieces<'_>) -> Result<()> {
        pieces.end()
    }
}

impl<SH, ST, H: FromSql<SH>, T: Members<ST>> Members<(SH, ST)> for (H, T) {
    ghost COUNT = { 1 + T.COUNT };

    ghost spelled = { λ v. SpellsMember H.reads v.0 (T.spelled v.1) };

    ghost refuses = { RefusesMember H.reads H.refuses T.refuses };

    ghost MEMORY = { H.MEMORY || T.MEMORY };

    #[tactic(auto, using(pgw_meta::proofs::Reading::refused_too))]
    fn read_members(alloc: Global, pieces: &mut RecordPieces<'_>) -> Result<(H, T)> {
        let piece = pieces.next_component()?;
        let head = H::from_nullable_sql(alloc, value_of(piece.cell, piece.oid))?;
        let tail = T::read_members(alloc, pieces)?;
        Ok((head, tail))
    }
}

/// The members of a tuple, `count` in number, from the field of a record. `UnexpectedNull` where the field is null.
pub(crate) fn read_tuple<ST, M: Members<ST>>(
    alloc: Global,
    value: Option<PgValue<'_>>,
    count: u32,
) -> Result<M>
    requires few { count ≤ 2147483647 }
    requires members { count ≡ M.COUNT }
    ensures { Answers (ReadsPiece (AreRecordMembers M.spelled)) (RefusesPiece (RefusesRecord M.COUNT M.refuses))
        M.MEMORY (cell_of_value value.entry) result }
{
    let value = required(value)?;
    let mut pieces = RecordPieces::new(value.as_bytes(), count)?;
    M::read_members(alloc, &mut pieces)
}
