//! Tests of what the clauses of pgw_wire and pgw_meta don't say: printed texts, calls that fail in the middle, and
//! one codec of each trait. The crates that they are of are proved once, without them.
#![tactic(auto)]

#[cfg(test)]
mod catalog;
#[cfg(test)]
mod codec;
#[cfg(test)]
mod meta;
#[cfg(test)]
mod needs;
#[cfg(test)]
mod output;
#[cfg(test)]
mod schema;
#[cfg(test)]
mod wire;
#[cfg(test)]
mod wire_errors;
