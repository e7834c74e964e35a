ghost use Rattle.std.specs.Prelude.{◌≡◌, ◌⊎◌, codes, false};
ghost use Rattle.pgw_row.specs.Building.{ReadsNamed, RefusesNamed};

use crate::row::{Byte, Small, one_row};
use pgw_meta::{FromSql, deserialize};
use pgw_row::{
    Field, FromSqlRow, NamedRow, Queryable, QueryableByName, Row, StaticallySizedRow,
    build_optional, build_queryable,
};
use pgw_wire::{FieldError, SqlError};
use std::alloc::Global;
use std::test::Fail;

/// A value of one's own, built from two fields, or from those of the names a and b.
#[derive(Clone, Copy, Debug, PartialEq, Eq)]
struct Point {
    x: Byte,
    y: Byte,
}

impl Queryable<(Small, Small)> for Point {
    type Row = (Byte, Byte);

    ghost builds = { λ row v. (v.x ≡ row.0) × (v.y ≡ row.1) };

    ghost refuses = { λ _ _. ⊥ };

    ghost MEMORY = { false };

    fn build(_alloc: Global, row: (Byte, Byte)) -> deserialize::Result<Point> {
        let (x, y) = row;
        Ok(Point { x, y })
    }
}

impl QueryableByName for Point {
    ghost reads_row = { λ row v. ReadsNamed ⟦<Byte as FromSql<Small>>⟧.reads (codes "a") row v.x
        × ReadsNamed ⟦<Byte as FromSql<Small>>⟧.reads (codes "b") row v.y };

    ghost refuses_row = { λ row e. RefusesNamed ⟦<Byte as FromSql<Small>>⟧.refuses (codes "a") row e
        ⊎ RefusesNamed ⟦<Byte as FromSql<Small>>⟧.refuses (codes "b") row e };

    ghost MEMORY = { false };

    #[tactic(auto, using(pgw_meta::proofs::Reading::refused_too))]
    fn build<R: NamedRow>(alloc: Global, row: &R) -> deserialize::Result<Point> {
        let x = row.get_by_name::<Small, Byte>(alloc, "a")?;
        let y = row.get_by_name::<Small, Byte>(alloc, "b")?;
        Ok(Point { x, y })
    }
}

/// The columns a, b and a.
const NAMES: &[&str] = &["a", "b", "a"];

fn pair<R: Row>(alloc: Global, row: &R) -> deserialize::Result<(Byte, Byte)> {
    <(Byte, Byte) as FromSqlRow<(Small, Small)>>::build_from_row(alloc, row)
}

/// The number in the first field of a row that may hold none.
fn first<R: Row>(alloc: Global, row: &R) -> deserialize::Result<Option<(Byte,)>> {
    build_optional::<(Byte,), (Small,), R>(alloc, row)
}

#[test]
fn tuples_are_built_of_fields_in_order(rt: HostRuntime) -> Result<(), Fail> {
    let alloc = rt.alloc();
    let result = one_row(alloc, NAMES, &[Some(b"\x01"), Some(b"\x02"), Some(b"\x03")])?;
    let Some(row) = result.get_row(0) else {
        panic!(rt; "no row");
    };
    assert!(rt; pair(alloc, &row) == Ok((Byte(1), Byte(2))));
    assert!(rt; pair(alloc, &row.partial_row(1..3)) == Ok((Byte(2), Byte(3))));
    assert!(rt; pair(alloc, &row.partial_row(2..3)) == Err(SqlError::UnexpectedEndOfRow));
    assert!(rt; <(Byte, Byte) as StaticallySizedRow<(Small, Small)>>::FIELD_COUNT == 2);
    Ok(())
}

#[test]
fn a_type_of_ones_own_is_built_by_place_and_by_name(rt: HostRuntime) -> Result<(), Fail> {
    let alloc = rt.alloc();
    let result = one_row(alloc, NAMES, &[Some(b"\x01"), Some(b"\x02"), Some(b"\x03")])?;
    let Some(row) = result.get_row(0) else {
        panic!(rt; "no row");
    };
    let point = Point {
        x: Byte(1),
        y: Byte(2),
    };
    assert!(rt; build_queryable::<Point, (Small, Small), _>(alloc, &row) == Ok(point));
    assert!(rt; <Point as QueryableByName>::build(alloc, &row) == Ok(point));
    let window = row.partial_row(1..3);
    assert!(rt; <Point as QueryableByName>::build(alloc, &window) == Err(SqlError::MissingColumn));
    Ok(())
}

#[test]
fn the_first_field_that_is_refused_is_told(rt: HostRuntime) -> Result<(), Fail> {
    let alloc = rt.alloc();
    let result = one_row(alloc, NAMES, &[Some(b"\x01"), Some(b"\x02\x03"), None])?;
    let Some(row) = result.get_row(0) else {
        panic!(rt; "no row");
    };
    let second = SqlError::Field(FieldError {
        column: 1,
        number: 4,
    });
    assert!(rt; pair(alloc, &row) == Err(second));
    let first = SqlError::Field(FieldError {
        column: 0,
        number: 4,
    });
    assert!(rt; pair(alloc, &row.partial_row(1..3)) == Err(first));
    let wrong = SqlError::WrongSize { want: 1, have: 2 };
    assert!(rt; <Option<Point> as QueryableByName>::build(alloc, &row) == Err(wrong));
    Ok(())
}

#[test]
fn a_null_makes_an_optional_value_none(rt: HostRuntime) -> Result<(), Fail> {
    let alloc = rt.alloc();
    let result = one_row(alloc, NAMES, &[Some(b"\x01"), None, Some(b"\x02\x03")])?;
    let Some(row) = result.get_row(0) else {
        panic!(rt; "no row");
    };
    assert!(rt; pair(alloc, &row) == Err(SqlError::UnexpectedNull));
    assert!(rt; first(alloc, &row) == Ok(Some((Byte(1),))));
    assert!(rt; first(alloc, &row.partial_row(1..3)) == Ok(None));
    let refused = SqlError::Field(FieldError {
        column: 0,
        number: 4,
    });
    assert!(rt; first(alloc, &row.partial_row(2..3)) == Err(refused));
    assert!(rt; <Option<Point> as QueryableByName>::build(alloc, &row) == Ok(None));
    Ok(())
}

#[test]
fn a_tuple_of_eight_members_is_built(rt: HostRuntime) -> Result<(), Fail> {
    let alloc = rt.alloc();
    let mut cells: [Option<&[u8]>; 8] = [None; 8];
    for (cell, piece) in cells
        .iter_mut()
        .zip(b"\x01\x02\x03\x04\x05\x06\x07\x08".chunks(1))
    {
        *cell = Some(piece);
    }
    let result = one_row(alloc, &["n"; 8], &cells)?;
    let Some(row) = result.get_row(0) else {
        panic!(rt; "no row");
    };
    let eight = build_queryable::<
        (Byte, Byte, Byte, Byte, Byte, Byte, Byte, Byte),
        (Small, Small, Small, Small, Small, Small, Small, Small),
        _,
    >(alloc, &row);
    assert!(rt; eight.is_ok_and(|eight| eight.7 == Byte(8)));
    Ok(())
}
