//! The codecs of PostgreSQL's dates, times, timestamps and intervals, whose values are numbers: no calendar is needed
//! to read one, and none stands here.
#![tactic(auto)]

mod date_and_time;
mod interval;
pub mod laws;
mod metadata;
pub mod sql_types;

pub use date_and_time::{PgDate, PgTime, PgTimestamp};
pub use interval::PgInterval;
