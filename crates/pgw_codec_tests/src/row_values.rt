//! Rows of a result that are read as tuples of an `Integer` and a `Text`.

use crate::row::one_row;
use pgw_row::{FromSqlRow, NamedRow, Row, build_optional};
use pgw_scalar::sql_types::{Integer, Text};
use pgw_wire::{FieldError, SqlError};
use std::alloc::Global;
use std::test::Fail;

/// The columns of the rows.
const NAMES: &[&str] = &["id", "name"];

/// Why a row is read as no tuple.
fn refusal<R: Row>(alloc: Global, row: &R) -> Option<SqlError> {
    <(i32, String) as FromSqlRow<(Integer, Text)>>::build_from_row(alloc, row).err()
}

#[test]
fn tuples_are_read_from_rows_of_a_result(rt: HostRuntime) -> Result<(), Fail> {
    let alloc = rt.alloc();
    let result = one_row(alloc, NAMES, &[Some(b"\0\0\0\x2a"), Some(b"Sean")])?;
    let Some(row) = result.get_row(0) else {
        panic!(rt; "no row");
    };
    let pair = <(i32, String) as FromSqlRow<(Integer, Text)>>::build_from_row(alloc, &row);
    assert!(rt; pair.is_ok_and(|pair| pair.0 == 42 && pair.1.as_str() == "Sean"));
    assert!(rt; row.get_by_name::<Integer, i32>(alloc, "id") == Ok(42));
    let missing = row.get_by_name::<Integer, i32>(alloc, "nom");
    assert!(rt; missing == Err(SqlError::MissingColumn));
    Ok(())
}

#[test]
fn a_row_is_refused_for_its_first_field_that_is(rt: HostRuntime) -> Result<(), Fail> {
    let alloc = rt.alloc();
    let null = one_row(alloc, NAMES, &[Some(b"\0\0\0\x2a"), None])?;
    let short = one_row(alloc, NAMES, &[Some(b"\0\0\x2a"), Some(b"Sean")])?;
    let first_null = one_row(alloc, NAMES, &[None, Some(b"Sean")])?;
    let (Some(null), Some(short), Some(first_null)) = (
        null.get_row(0),
        short.get_row(0),
        first_null.get_row(0),
    ) else {
        panic!(rt; "no row");
    };
    let first = SqlError::Field(FieldError {
        column: 0,
        number: 4,
    });
    assert!(rt; refusal(alloc, &null) == Some(SqlError::UnexpectedNull));
    assert!(rt; refusal(alloc, &short) == Some(first));
    let window = short.partial_row(0..1);
    assert!(rt; refusal(alloc, &window) == Some(SqlError::UnexpectedEndOfRow));
    let optional = build_optional::<(i32, String), (Integer, Text), _>(alloc, &first_null);
    assert!(rt; optional.is_ok_and(|pair| pair.is_none()));
    Ok(())
}
