//! Tests of what the clauses of codecs, rows and results don't say: bytes worked out from PostgreSQL's manual, and
//! printed texts. The crates that they are of are proved once, without them.
#![tactic(auto)]

#[cfg(test)]
mod nested;
#[cfg(test)]
mod numeric;
#[cfg(test)]
mod range;
#[cfg(test)]
mod record;
#[cfg(test)]
mod result;
#[cfg(test)]
mod row;
#[cfg(test)]
mod row_building;
#[cfg(test)]
mod row_values;
#[cfg(test)]
mod scalar;
#[cfg(test)]
mod time;
