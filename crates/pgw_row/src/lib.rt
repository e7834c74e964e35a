//! Rows and results. Rows of fields: their cells by place and by name, windows on them, and the values that are read from
//! them. What a query answers: the columns and rows of a result, and how many rows a command changed; what is known of
//! an error of the database, and of which kind it is; and notifications.
#![tactic(auto)]

mod deserialize;
mod error_information;
mod error_kind;
mod field;
mod members;
mod notification;
mod partial_row;
mod pg_row;
mod queryable_tuples;
mod result;
mod row;
mod tuples;

pub use deserialize::{
    FromSqlRow, FromStaticSqlRow, Queryable, QueryableByName, StaticallySizedRow, build_optional,
    build_queryable,
};
pub use error_information::PgErrorInformation;
pub use error_kind::{DatabaseErrorKind, kind_of};
pub use field::{Field, PgField};
pub use notification::PgNotification;
pub use partial_row::PartialRow;
pub use pg_row::PgRow;
pub use result::{PgResult, ResultColumn, ResultError};
pub use row::{NamedRow, Row, RowIndex, RowNames};
