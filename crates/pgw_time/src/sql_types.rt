//! The markers of PostgreSQL's types of dates and times.

use pgw_meta::{NotNull, RangeElement, SingleValue, SqlType};

/// `date`, a day.
#[derive(Debug, Clone, Copy, Default)]
pub struct Date;

impl SqlType for Date {}

impl NotNull for Date {}

impl SingleValue for Date {}

impl RangeElement for Date {
    ghost RANGE_OID = { 3912 };

    const RANGE_OID: u32 = 3912;

    ghost RANGE_ARRAY_OID = { 3913 };

    const RANGE_ARRAY_OID: u32 = 3913;

    ghost MULTIRANGE_OID = { 4535 };

    const MULTIRANGE_OID: u32 = 4535;

    ghost MULTIRANGE_ARRAY_OID = { 6155 };

    const MULTIRANGE_ARRAY_OID: u32 = 6155;
}

/// `time`, a time of day without a time zone.
#[derive(Debug, Clone, Copy, Default)]
pub struct Time;

impl SqlType for Time {}

impl NotNull for Time {}

impl SingleValue for Time {}

/// `timestamp`, a day and a time of day without a time zone.
#[derive(Debug, Clone, Copy, Default)]
pub struct Timestamp;

impl SqlType for Timestamp {}

impl NotNull for Timestamp {}

impl SingleValue for Timestamp {}

impl RangeElement for Timestamp {
    ghost RANGE_OID = { 3908 };

    const RANGE_OID: u32 = 3908;

    ghost RANGE_ARRAY_OID = { 3909 };

    const RANGE_ARRAY_OID: u32 = 3909;

    ghost MULTIRANGE_OID = { 4533 };

    const MULTIRANGE_OID: u32 = 4533;

    ghost MULTIRANGE_ARRAY_OID = { 6152 };

    const MULTIRANGE_ARRAY_OID: u32 = 6152;
}

/// `timestamptz`, an instant.
#[derive(Debug, Clone, Copy, Default)]
pub struct Timestamptz;

impl SqlType for Timestamptz {}

impl NotNull for Timestamptz {}

impl SingleValue for Timestamptz {}

impl RangeElement for Timestamptz {
    ghost RANGE_OID = { 3910 };

    const RANGE_OID: u32 = 3910;

    ghost RANGE_ARRAY_OID = { 3911 };

    const RANGE_ARRAY_OID: u32 = 3911;

    ghost MULTIRANGE_OID = { 4534 };

    const MULTIRANGE_OID: u32 = 4534;

    ghost MULTIRANGE_ARRAY_OID = { 6153 };

    const MULTIRANGE_ARRAY_OID: u32 = 6153;
}

/// `interval`, a span of months, days and microseconds.
#[derive(Debug, Clone, Copy, Default)]
pub struct Interval;

impl SqlType for Interval {}

impl NotNull for Interval {}

impl SingleValue for Interval {}
