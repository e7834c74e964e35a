//! Tests of what the clauses of pgw_notation don't say: that texts are read where memory is given, and printed texts. The
//! crate that they are of is proved once, without them.
#![tactic(auto)]

#[cfg(test)]
mod faults;
#[cfg(test)]
mod types;
