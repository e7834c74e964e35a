//! Readers and writers of binary COPY streams, field by field and without types.
#![tactic(auto)]

mod fault;
mod filling;
mod format;
mod header;
mod reader;
mod row;
mod taken;
mod writer;

pub use fault::CopyReadError;
pub use format::{NEGATIVE_COUNT, NEGATIVE_LENGTH};
pub use reader::CopyReader;
pub use row::RawRow;
pub use writer::CopyWriter;
