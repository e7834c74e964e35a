//! Tests of what the clauses of the stream's reader and writer, and of copying, don't say. The crates that they are of are
//! proved once, without them.
#![tactic(auto)]

#[cfg(test)]
mod copy;
#[cfg(test)]
mod markers;
#[cfg(test)]
mod tree;
