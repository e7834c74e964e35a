//! The marker of `numeric`.

use pgw_meta::{NotNull, RangeElement, SingleValue, SqlType};

/// `numeric`, a number of any precision.
#[derive(Debug, Clone, Copy, Default)]
pub struct Numeric;

impl SqlType for Numeric {}

impl NotNull for Numeric {}

impl SingleValue for Numeric {}

impl RangeElement for Numeric {
    ghost RANGE_OID = { 3906 };

    const RANGE_OID: u32 = 3906;

    ghost RANGE_ARRAY_OID = { 3907 };

    const RANGE_ARRAY_OID: u32 = 3907;

    ghost MULTIRANGE_OID = { 4532 };

    const MULTIRANGE_OID: u32 = 4532;

    ghost MULTIRANGE_ARRAY_OID = { 6151 };

    const MULTIRANGE_ARRAY_OID: u32 = 6151;
}
