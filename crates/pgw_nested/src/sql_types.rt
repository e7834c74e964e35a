//! The markers of types that stand on others.

use pgw_meta::{NotNull, RangeElement, SingleValue, SqlType};
use std::marker::PhantomData;

/// A type that allows null, over one that does not.
#[derive(Debug, Clone, Copy, Default)]
pub struct Nullable<ST> {
    of: PhantomData<ST>,
}

impl<ST: NotNull> SqlType for Nullable<ST> {}

impl<ST: NotNull + SingleValue> SingleValue for Nullable<ST> {}

/// The arrays of a type, which may allow null. They have one dimension or none.
#[derive(Debug, Clone, Copy, Default)]
pub struct Array<ST> {
    of: PhantomData<ST>,
}

impl<ST: SqlType> SqlType for Array<ST> {}

impl<ST: SqlType> NotNull for Array<ST> {}

impl<ST: SqlType> SingleValue for Array<ST> {}

/// The ranges of a type.
#[derive(Debug, Clone, Copy, Default)]
pub struct Range<ST> {
    of: PhantomData<ST>,
}

impl<ST: RangeElement> SqlType for Range<ST> {}

impl<ST: RangeElement> NotNull for Range<ST> {}

impl<ST: RangeElement> SingleValue for Range<ST> {}

/// The multiranges of a type: lists of its ranges.
#[derive(Debug, Clone, Copy, Default)]
pub struct Multirange<ST> {
    of: PhantomData<ST>,
}

impl<ST: RangeElement> SqlType for Multirange<ST> {}

impl<ST: RangeElement> NotNull for Multirange<ST> {}

impl<ST: RangeElement> SingleValue for Multirange<ST> {}
