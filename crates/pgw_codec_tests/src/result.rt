use pgw_row::{
    DatabaseErrorKind, PgErrorInformation, PgNotification, PgResult, ResultColumn, ResultError,
    Row, RowNames, kind_of,
};
use std::alloc::{AllocError, Global};
use std::fmt::Display;
use std::num::NonZeroU32;
use std::test::Fail;

/// A column of this name, of the type with the oid 1.
fn column(alloc: Global, name: &str) -> Result<ResultColumn, AllocError> {
    Ok(ResultColumn {
        name: Some(String::from_str(alloc, name)?),
        oid: NonZeroU32::MIN,
    })
}

/// So many rows of as many nulls as the lengths say, under the columns `id` and `name`.
fn of_nulls(
    alloc: Global,
    lengths: &[usize],
    count: &str,
) -> Result<Result<PgResult, ResultError>, AllocError> {
    let mut columns = Vec::new(alloc);
    columns.push(column(alloc, "id")?)?;
    columns.push(column(alloc, "name")?)?;
    let mut rows = Vec::new(alloc);
    for length in lengths {
        let mut row = Vec::new(alloc);
        for _ in 0..*length {
            row.push(None)?;
        }
        rows.push(row)?;
    }
    Ok(PgResult::from_parts(columns, rows, String::from_str(alloc, count)?))
}

#[test]
fn a_result_has_its_parts(rt: HostRuntime) -> Result<(), Fail> {
    let alloc = rt.alloc();
    let mut columns = Vec::new(alloc);
    columns.push(column(alloc, "id")?)?;
    columns.push(ResultColumn {
        name: None,
        oid: NonZeroU32::MAX,
    })?;
    let mut row = Vec::new(alloc);
    row.push(Some(b"\x00\x00\x00\x2A".to_vec(alloc)?))?;
    row.push(None)?;
    let mut rows = Vec::new(alloc);
    rows.push(row)?;
    let result = match PgResult::from_parts(columns, rows, String::new(alloc)) {
        Ok(result) => result,
        Err(_) => panic!(rt; "ragged"),
    };
    assert!(rt; result.num_rows() == 1);
    assert!(rt; result.column_count() == 2);
    assert!(rt; result.column_name(0) == Some("id"));
    assert!(rt; result.column_name(1).is_none());
    assert!(rt; result.column_name(2).is_none());
    assert!(rt; result.column_type(1) == Some(NonZeroU32::MAX));
    assert!(rt; result.column_type(2).is_none());
    assert!(rt; result.get(0, 0) == Some(b"\x00\x00\x00\x2A".as_slice()));
    assert!(rt; result.get(0, 1).is_none());
    assert!(rt; !result.is_null(0, 0));
    assert!(rt; result.is_null(0, 1));
    assert!(rt; result.is_null(1, usize::MAX));
    assert!(rt; result.get_row(1).is_none());
    let Some(row) = result.get_row(0) else {
        panic!(rt; "no row");
    };
    assert!(rt; (row.field_count(), row.idx_name("id")) == (2, Some(0)));
    Ok(())
}

#[test]
fn the_first_ragged_row_is_refused(rt: HostRuntime) -> Result<(), Fail> {
    let alloc = rt.alloc();
    let ragged = of_nulls(alloc, &[2, 1, 2, 0], "")?;
    assert!(rt; matches!(ragged, Err(ResultError::RaggedRow { row: 1 })));
    assert!(rt; of_nulls(alloc, &[2, 2], "")?.is_ok());
    assert!(rt; of_nulls(alloc, &[], "")?.is_ok());
    Ok(())
}

#[test]
fn the_count_of_rows_is_a_number(rt: HostRuntime) -> Result<(), Fail> {
    let alloc = rt.alloc();
    let table = [
        ("", Ok(0)),
        ("+12", Ok(12)),
        ("18446744073709551615", Ok(usize::MAX)),
        ("18446744073709551616", Err(ResultError::BadCount)),
        ("+", Err(ResultError::BadCount)),
        ("x", Err(ResultError::BadCount)),
    ];
    for (count, rows) in &table {
        match of_nulls(alloc, &[], count)? {
            Ok(result) => assert!(rt; result.rows_affected() == *rows),
            Err(_) => panic!(rt; "ragged"),
        }
    }
    Ok(())
}

#[test]
fn kinds_go_by_the_sqlstate(rt: HostRuntime) {
    let table = [
        ("23505", DatabaseErrorKind::UniqueViolation),
        ("23503", DatabaseErrorKind::ForeignKeyViolation),
        ("40001", DatabaseErrorKind::SerializationFailure),
        ("25006", DatabaseErrorKind::ReadOnlyTransaction),
        ("23502", DatabaseErrorKind::NotNullViolation),
        ("23514", DatabaseErrorKind::CheckViolation),
        ("23001", DatabaseErrorKind::RestrictViolation),
        ("23P01", DatabaseErrorKind::ExclusionViolation),
        ("08001", DatabaseErrorKind::ClosedConnection),
        ("42P01", DatabaseErrorKind::Unknown),
    ];
    for (state, kind) in &table {
        assert!(rt; kind_of(Some(state), false) == *kind);
        assert!(rt; kind_of(Some(state), true) == DatabaseErrorKind::ClosedConnection);
    }
    assert!(rt; kind_of(None, false) == DatabaseErrorKind::Unknown);
}

#[test]
fn errors_are_told_by_their_fields(rt: HostRuntime) -> Result<(), Fail> {
    let alloc = rt.alloc();
    let mut error = PgErrorInformation {
        message_primary: None,
        detail: Some(String::from_str(alloc, "Key (id)=(1) already exists.")?),
        hint: None,
        table: Some(String::from_str(alloc, "users")?),
        column: None,
        constraint: Some(String::from_str(alloc, "users_pkey")?),
        position: Some(String::from_str(alloc, "15")?),
        error_message: String::from_str(alloc, "ERROR:  duplicate key")?,
    };
    assert!(rt; error.message() == "ERROR:  duplicate key");
    error.message_primary = Some(String::from_str(alloc, "duplicate key")?);
    assert!(rt; error.message() == "duplicate key");
    assert!(rt; error.details() == Some("Key (id)=(1) already exists."));
    assert!(rt; error.hint().is_none());
    assert!(rt; error.table_name() == Some("users"));
    assert!(rt; error.column_name().is_none());
    assert!(rt; error.constraint_name() == Some("users_pkey"));
    assert!(rt; error.statement_position() == Some(15));
    error.position = Some(String::from_str(alloc, "2147483648")?);
    assert!(rt; error.statement_position().is_none());
    Ok(())
}

#[test]
fn a_notification_has_its_parts(rt: HostRuntime) -> Result<(), Fail> {
    let alloc = rt.alloc();
    let notification = PgNotification {
        process_id: 4711,
        channel: String::from_str(alloc, "jobs")?,
        payload: String::new(alloc),
    };
    assert!(rt; notification.process_id == 4711);
    assert!(rt; notification.channel.as_str() == "jobs");
    assert!(rt; notification.payload.is_empty());
    Ok(())
}

#[test]
fn errors_of_results_have_their_texts(rt: HostRuntime) -> Result<(), Fail> {
    let table = [
        (
            ResultError::RaggedRow { row: 3 },
            "row 3 has not as many values as there are columns",
        ),
        (ResultError::BadCount, "the count of rows is no number"),
    ];
    for (error, text) in &table {
        assert!(rt; error.to_string(rt.alloc())?.as_str() == *text);
    }
    Ok(())
}
