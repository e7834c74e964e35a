//! The marker of records.

use pgw_meta::{NotNull, SingleValue, SqlType};
use std::marker::PhantomData;

/// The records whose components have these types: `ST` is a tuple of one to eight markers.
#[derive(Debug, Clone, Copy, Default)]
pub struct Record<ST> {
    of: PhantomData<ST>,
}

impl<ST> SqlType for Record<ST> {}

impl<ST> NotNull for Record<ST> {}

impl<ST> SingleValue for Record<ST> {}
