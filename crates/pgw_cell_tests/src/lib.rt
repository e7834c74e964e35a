//! Tests of what the clauses of cells don't say: bytes worked out from PostgreSQL's manual, and which fields pass as they
//! stand. The crates that they are of are proved once, without them.
#![tactic(auto)]

#[cfg(test)]
mod cell;
#[cfg(test)]
mod range;
