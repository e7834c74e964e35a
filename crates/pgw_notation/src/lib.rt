//! The notation of PostgreSQL's types: the text that a type is written as, read into its tree.
#![tactic(auto)]

mod checking;
mod fault;
pub mod laws;
mod names;
mod reading;
mod tokens;

pub use checking::type_fault;
pub use fault::TypeFault;
pub use reading::parse_type;
