use crate::SqlError;

/// What reading a value answers.
pub type Result<T> = std::result::Result<T, SqlError>;
