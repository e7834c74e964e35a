//! What PostgreSQL's binary values and COPY streams are made of, below any type: big-endian numbers and pieces
//! cut from bytes, cells, a buffer that lengths are patched in, and the sources and sinks that bytes come from
//! and go to.
#![tactic(auto)]

mod buffer;
mod calls;
mod cell;
mod cuts;
pub mod deserialize;
mod error;
mod io;
mod is_null;
mod kind;
mod memory;
mod output;
mod outside;
mod quiet;
mod sending;
mod sql_error;
mod value;

pub use buffer::ByteBuffer;
pub use calls::FailingCalls;
pub use cell::RawCell;
pub use cuts::{take_i16, take_i32, take_i64, take_piece, take_u8, take_u16, take_u32, take_u64};
pub use error::{Failed, NoMemory};
pub use io::{BufReadSource, ReadSource, WriteSink};
pub use is_null::IsNull;
pub use kind::Break;
pub use memory::{MemorySink, MemorySource};
pub use output::Output;
pub use outside::{Sink, Source, Taker};
pub use quiet::{QuietSink, QuietSource};
pub use sending::send;
pub use sql_error::{FieldError, InvalidNumericSign, NetworkFault, SqlError};
pub use value::{PgValue, TypeOidLookup};
