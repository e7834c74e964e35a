ghost use Rattle.std.specs.Prelude.{◌≡◌, ◌≢◌, [], ◌∷◌, length, false};
ghost use Rattle.pgw_meta.specs.Reading.{ReadsPiece, RefusesPiece};
ghost use Rattle.pgw_wire.specs.declared.sql_error.SqlError.TheVariants.{WrongSize as wrong_size};

use pgw_meta::FromSql;
use pgw_meta::deserialize::{self, required};
use pgw_row::{
    Field, NamedRow, PartialRow, PgField, PgResult, ResultColumn, Row, RowIndex, RowNames,
};
use pgw_wire::{PgValue, RawCell, SqlError, TypeOidLookup};
use std::alloc::Global;
use std::num::NonZeroU32;
use std::test::Fail;

/// The marker of a type of numbers in one byte.
pub(crate) struct Small;

#[derive(Clone, Copy, Debug, PartialEq, Eq)]
pub(crate) struct Byte(pub(crate) u8);

impl FromSql<Small> for Byte {
    ghost reads = { ReadsPiece (λ piece v. piece ≡ v.0 ∷ []) };

    ghost refuses = { RefusesPiece (λ piece e. (length piece ≢ 1) × (e ≡ wrong_size 1 (length piece))) };

    ghost MEMORY = { false };

    fn from_sql(_alloc: Global, value: PgValue<'_>) -> deserialize::Result<Byte> {
        let bytes = value.as_bytes();
        if let [number] = bytes {
            return Ok(Byte(*number));
        }
        let have = bytes.len();
        Err(SqlError::WrongSize { want: 1, have })
    }

    fn from_nullable_sql(alloc: Global, value: Option<PgValue<'_>>) -> deserialize::Result<Byte> {
        let value = required(value)?;
        Self::from_sql(alloc, value)
    }
}

/// A result of one row: its columns' names, and its cells.
pub(crate) fn one_row(
    alloc: Global,
    names: &[&str],
    pieces: &[Option<&[u8]>],
) -> Result<PgResult, Fail> {
    let mut columns = Vec::new(alloc);
    for name in names {
        columns.push(ResultColumn {
            name: Some(name.to_string(alloc)?),
            oid: NonZeroU32::MIN,
        })?;
    }
    let mut cells = Vec::new(alloc);
    for piece in pieces {
        cells.push(match piece {
            Some(piece) => Some(piece.to_vec(alloc)?),
            None => None,
        })?;
    }
    let mut rows = Vec::new(alloc);
    rows.push(cells)?;
    Ok(PgResult::from_parts(columns, rows, String::new(alloc))?)
}

/// The number in a field's one byte, if there is such a field.
fn number(field: Option<PgField<'_>>) -> Option<u8> {
    match field?.value()?.as_bytes() {
        [number] => Some(*number),
        _ => None,
    }
}

#[test]
fn a_field_made_by_hand_says_what_it_was_made_of(rt: HostRuntime) {
    let field = PgField::new(Some("id"), RawCell::Piece(b"\x07"), NonZeroU32::MIN);
    assert!(rt; field.field_name() == Some("id"));
    assert!(rt; number(Some(field)) == Some(7));
    assert!(rt; !field.is_null() && field.lookup() == NonZeroU32::MIN);
    let null = PgField::new(None, RawCell::Null, NonZeroU32::MIN);
    assert!(rt; null.is_null() && null.field_name() == None);
}

/// The columns a, b and a, and the cells 01, null and 03.
fn with_null(alloc: Global) -> Result<PgResult, Fail> {
    one_row(
        alloc,
        &["a", "b", "a"],
        &[Some(b"\x01"), None, Some(b"\x03")],
    )
}

#[test]
fn fields_are_found_by_place_and_by_name(rt: HostRuntime) -> Result<(), Fail> {
    let alloc = rt.alloc();
    let result = with_null(alloc)?;
    let Some(row) = result.get_row(0) else {
        panic!(rt; "no row");
    };
    assert!(rt; row.field_count() == 3);
    assert!(rt; number(row.get(2)) == Some(3));
    assert!(rt; row.get(3).is_none());
    assert!(rt; row.idx(2) == Some(2) && row.idx(3) == None);
    assert!(rt; row.idx_name("a") == Some(0) && row.idx_name("c") == None);
    assert!(rt; number(row.get_named("a")) == Some(1));
    Ok(())
}

#[test]
fn values_are_read_by_place_and_by_name(rt: HostRuntime) -> Result<(), Fail> {
    let alloc = rt.alloc();
    let result = with_null(alloc)?;
    let Some(row) = result.get_row(0) else {
        panic!(rt; "no row");
    };
    assert!(rt; row.get_value::<Small, Byte>(alloc, 0) == Ok(Byte(1)));
    assert!(rt; row.get_value::<Small, Byte>(alloc, 1) == Err(SqlError::UnexpectedNull));
    assert!(rt; row.get_value::<Small, Byte>(alloc, 3) == Err(SqlError::UnexpectedEndOfRow));
    assert!(rt; row.get_by_name::<Small, Byte>(alloc, "a") == Ok(Byte(1)));
    assert!(rt; row.get_by_name::<Small, Byte>(alloc, "nom") == Err(SqlError::MissingColumn));
    Ok(())
}

#[test]
fn a_window_has_its_places_alone(rt: HostRuntime) -> Result<(), Fail> {
    let alloc = rt.alloc();
    let result = with_null(alloc)?;
    let Some(row) = result.get_row(0) else {
        panic!(rt; "no row");
    };
    let window = row.partial_row(1..3);
    assert!(rt; window.idx_name("b") == Some(1) && window.idx_name("a") == None);
    assert!(rt; window.get_named("b").is_some() && window.get_named("a").is_none());
    let last = window.partial_row(1..9);
    assert!(rt; last.field_count() == 1 && last.idx(0) == Some(2));
    assert!(rt; number(last.get(0)) == Some(3));
    assert!(rt; last.get(1).is_none());
    let first = PartialRow::new(&window, 0..1);
    assert!(rt; first.idx_name("b") == Some(0) && first.field_count() == 1);
    Ok(())
}

#[test]
fn windows_reach_no_further_than_the_largest_place(rt: HostRuntime) -> Result<(), Fail> {
    let alloc = rt.alloc();
    let result = with_null(alloc)?;
    let Some(row) = result.get_row(0) else {
        panic!(rt; "no row");
    };
    let window = row.partial_row(1..usize::MAX);
    assert!(rt; window.field_count() == 2);
    assert!(rt; window.get(usize::MAX).is_none() && window.idx(usize::MAX) == None);
    assert!(rt; window.partial_row(usize::MAX..usize::MAX).field_count() == 0);
    assert!(rt; number(window.partial_row(1..usize::MAX).get(0)) == Some(3));
    assert!(rt; PartialRow::new(&window, 2..1).field_count() == 0);
    Ok(())
}
