//! The codec of PostgreSQL's `numeric`, by its digits to the base 10000: how a value is read from a field, and the
//! bytes that it is written as. There is no arithmetic here, and no decimal text.
#![tactic(auto)]

pub mod field;
mod metadata;
mod numeric;
mod reading;
pub mod sql_types;
mod writing;

pub use numeric::PgNumeric;
pub use pgw_wire::InvalidNumericSign;
