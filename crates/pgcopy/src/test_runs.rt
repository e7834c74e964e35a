//! Runs on any source, for the tests.

use crate::report::Status;
use crate::run::run;
use pgw_wire::{MemorySink, Source};
use std::alloc::{AllocError, Global};

/// What a run came to: its status, what was written, and its line.
#[derive(Drop)]
pub struct Ended {
    pub status: Status,
    pub output: MemorySink,
    pub line: MemorySink,
}

/// The words as texts of their own.
pub fn texts_of(alloc: Global, words: &[&str]) -> Result<Vec<String>, AllocError> {
    let mut texts = Vec::new(alloc);
    for word in words {
        texts.push(String::from_str(alloc, word)?)?;
    }
    Ok(texts)
}

/// Runs on the source. Each call of the sink takes at most as many bytes as the cuts say, and the one with the number
/// `fail`, counted from 0, fails.
pub fn run_on<S: Source>(
    alloc: Global,
    words: &[String],
    source: &mut S,
    cuts: Vec<usize>,
    fail: u64,
) -> Result<Ended, AllocError> {
    let fails = [fail].to_vec(alloc)?;
    let mut output = MemorySink::new(alloc, cuts, fails);
    let mut line = MemorySink::new(alloc, Vec::new(alloc), Vec::new(alloc));
    let status = run(alloc, words, source, &mut output, &mut line);
    Ok(Ended {
        status,
        output,
        line,
    })
}
