//! The codecs of records: tuples of one to eight members, each of its own type. `RecordPieces` takes a record apart,
//! and `WriteTuple` writes one. `begin_record` and `begin_component` begin its parts, to be written with the calls of
//! `pgw_nested` that set the lengths of pieces once they are known.
#![tactic(auto)]

mod members;
mod metadata;
mod record;
mod record_pieces;
mod record_writing;
pub mod sql_types;
mod write_tuple;
mod written_members;

pub use record_pieces::{RecordPiece, RecordPieces};
pub use record_writing::{begin_component, begin_record};
pub use write_tuple::WriteTuple;
