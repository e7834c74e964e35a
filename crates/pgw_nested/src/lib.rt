//! The codecs of types that stand on others: values that may be null, arrays, ranges and multiranges. `ArrayPieces`,
//! `RangePieces` and `MultirangePieces` take them apart. They are written by calls that set the lengths of pieces once
//! they are known.
#![tactic(auto)]

mod array;
mod array_pieces;
mod array_writing;
mod bounds_of;
mod cuts;
mod marks;
mod metadata;
mod multirange;
mod multirange_pieces;
mod multirange_writing;
mod option;
mod range;
mod range_flags;
mod range_pieces;
mod range_writing;
mod reserved;
pub mod sql_types;
mod std_ranges;

pub use array::Items;
pub use array_pieces::{ArrayPieces, value_of};
pub use array_writing::write_element;
pub use bounds_of::BoundsOf;
pub use cuts::{take_cell, take_word};
pub use marks::{ArrayMark, PieceMark, begin_array, begin_piece, end_piece, null_flag, null_piece};
pub use multirange_pieces::MultirangePieces;
pub use multirange_writing::begin_multirange;
pub use range_pieces::{BoundPiece, RangePieces};
pub use range_writing::{BoundKind, begin_range};
pub use reserved::{close_length, place_array, place_length, place_range};
