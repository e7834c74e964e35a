ghost use Rattle.std.specs.Prelude.{◌≡◌, option_map};
ghost use Rattle.std.specs.Option.{option_copied};
ghost use Rattle.pgw_row.specs.ErrorKinds.{kinds_by_state, kind_in, kind_of};

/// The kinds of errors that a database tells of.
#[derive(Clone, Copy, Debug, PartialEq, Eq)]
pub enum DatabaseErrorKind {
    /// Two rows would have the same values where each has to have its own. SQLSTATE 23505.
    UniqueViolation,
    /// A row would refer to another that is not there. SQLSTATE 23503.
    ForeignKeyViolation,
    /// A transaction does not go together with those that ran beside it, and may be tried again. SQLSTATE 40001.
    SerializationFailure,
    /// A command that writes came in a transaction that only reads. SQLSTATE 25006.
    ReadOnlyTransaction,
    /// A column that has to have a value would be null. SQLSTATE 23502.
    NotNullViolation,
    /// A row would not meet a condition of its table. SQLSTATE 23514.
    CheckViolation,
    /// A row that others refer to would be removed or changed. SQLSTATE 23001.
    RestrictViolation,
    /// Two rows would exclude each other. SQLSTATE 23P01.
    ExclusionViolation,
    /// The connection is bad, or was not made. SQLSTATE 08000, 08001, 08004 and 08006, and any where it is bad.
    ClosedConnection,
    /// Any other error, and one without a SQLSTATE.
    Unknown,
}

/// The kind of a SQLSTATE.
fn kind_of_state(sqlstate: &str) -> DatabaseErrorKind
    ensures { result ≡ kind_in kinds_by_state sqlstate.now }
{
    match sqlstate {
        "23505" => DatabaseErrorKind::UniqueViolation,
        "23503" => DatabaseErrorKind::ForeignKeyViolation,
        "40001" => DatabaseErrorKind::SerializationFailure,
        "25006" => DatabaseErrorKind::ReadOnlyTransaction,
        "23502" => DatabaseErrorKind::NotNullViolation,
        "23514" => DatabaseErrorKind::CheckViolation,
        "23001" => DatabaseErrorKind::RestrictViolation,
        "23P01" => DatabaseErrorKind::ExclusionViolation,
        "08000" | "08006" | "08001" | "08004" => DatabaseErrorKind::ClosedConnection,
        _ => DatabaseErrorKind::Unknown,
    }
}

/// The kind of an error, by its SQLSTATE, where it has one, and by whether the connection is bad behind it. Where it is
/// bad the kind is `ClosedConnection`, whatever the SQLSTATE. It takes no memory.
pub fn kind_of(sqlstate: Option<&str>, connection_bad: bool) -> DatabaseErrorKind
    ensures { result ≡ kind_of (option_copied sqlstate.entry) connection_bad }
{
    if connection_bad {
        return DatabaseErrorKind::ClosedConnection;
    }
    match sqlstate {
        Some(sqlstate) => kind_of_state(sqlstate),
        None => DatabaseErrorKind::Unknown,
    }
}
