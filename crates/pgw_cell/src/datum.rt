ghost use Rattle.std.specs.Prelude.{◌≡◌, [], ◌∷◌, ◌++◌, OnOk, OnErr, length, slice_get};
ghost use Rattle.std.specs.Option.{option_copied};
ghost use Rattle.pgw_cell.specs.Data.{data_of, ranges_of};

use crate::{ByteList, DigitList};
use pgw_meta::NameText;
use pgw_wire::NoMemory;
use sqlite_items::Items;
use std::alloc::Global;

/// A value of a column.
#[cycle(data)]
#[derive(Debug, Drop)]
pub enum Datum {
    /// No value.
    Null,
    /// Of a bool.
    Truth(bool),
    /// Of a type of whole numbers: `int2`, `int4`, `int8`, `money`, dates and times, and without a sign `"char"`, `oid` and `pg_lsn`.
    Number(i128),
    /// Of a type of bytes: `bytea`, `uuid`, `macaddr` and `macaddr8`.
    Bytes(ByteList),
    /// Of a text.
    Text(NameText),
    /// Of an `inet` or `cidr`: an address of 16 bytes, which is one of IPv6, or of 4, which is one of IPv4, and how many
    /// of its bits are the prefix.
    Network {
        six: bool,
        prefix: u8,
        address: ByteList,
    },
    /// Of an `interval`: its three numbers, of which none is carried into another.
    Interval {
        microseconds: i64,
        days: i32,
        months: i32,
    },
    /// Of a `numeric` that is a number: its digits to the base 10000, of which the first counts 10000 to the power of
    /// the weight, and how many decimal digits are shown behind the point.
    Numeric {
        negative: bool,
        weight: i16,
        scale: u16,
        digits: DigitList,
    },
    /// Of a `numeric` that is not a number.
    NotANumber,
    /// Of an array: its elements.
    List(DatumList),
    /// Of a range: its bounds.
    Bounds(RangeDatum),
    /// Of a multirange: its ranges.
    Ranges(RangeList),
}

/// Values in order: the elements of an array.
#[cycle(data)]
#[derive(Debug, Drop)]
pub struct DatumList {
    data: Items<Datum>,
}

impl DatumList {
    /// No values. It takes no memory.
    pub fn new(alloc: Global) -> DatumList
        ensures { data_of result ≡ [] }
    {
        DatumList {
            data: Items::new(alloc),
        }
    }

    /// Appends a value. Where memory is refused, the value is dropped and the list is as before.
    pub fn push(&mut self, item: Datum) -> Result<(), NoMemory>
        ensures ok { OnOk result (data_of self.new ≡ data_of self.old ++ (item ∷ [])) }
        ensures err { OnErr result (data_of self.new ≡ data_of self.old) }
    {
        self.data.push(item)?;
        Ok(())
    }

    /// How many values there are.
    pub fn len(&self) -> usize
        ensures { result ≡ length (data_of self.now) }
    {
        self.data.len()
    }

    /// The value at a place, counted from 0. None past the last.
    pub fn get(&self, place: usize) -> Option<&Datum>
        ensures { option_copied result ≡ slice_get (data_of self.now) place }
    {
        self.data.get(place)
    }

    /// The values.
    pub fn as_slice(&self) -> &[Datum]
        ensures { result.now ≡ data_of self.now }
    {
        self.data.as_slice()
    }
}

/// The bounds of a range.
#[cycle(data)]
#[derive(Debug, Drop)]
pub struct RangeDatum {
    pub lower: BoundDatum,
    pub upper: BoundDatum,
}

/// A bound of a range: there is none, or the range includes its value, or it does not.
#[cycle(data)]
#[derive(Debug, Drop)]
pub enum BoundDatum {
    Unbounded,
    Included(Box<Datum>),
    Excluded(Box<Datum>),
}

/// Ranges in order: those of a multirange.
#[cycle(data)]
#[derive(Debug, Drop)]
pub struct RangeList {
    data: Items<RangeDatum>,
}

impl RangeList {
    /// No ranges. It takes no memory.
    pub fn new(alloc: Global) -> RangeList
        ensures { ranges_of result ≡ [] }
    {
        RangeList {
            data: Items::new(alloc),
        }
    }

    /// Appends a range. Where memory is refused, the range is dropped and the list is as before.
    pub fn push(&mut self, item: RangeDatum) -> Result<(), NoMemory>
        ensures ok { OnOk result (ranges_of self.new ≡ ranges_of self.old ++ (item ∷ [])) }
        ensures err { OnErr result (ranges_of self.new ≡ ranges_of self.old) }
    {
        self.data.push(item)?;
        Ok(())
    }

    /// How many ranges there are.
    pub fn len(&self) -> usize
        ensures { result ≡ length (ranges_of self.now) }
    {
        self.data.len()
    }

    /// The range at a place, counted from 0. None past the last.
    pub fn get(&self, place: usize) -> Option<&RangeDatum>
        ensures { option_copied result ≡ slice_get (ranges_of self.now) place }
    {
        self.data.get(place)
    }

    /// The ranges.
    pub fn as_slice(&self) -> &[RangeDatum]
        ensures { result.now ≡ ranges_of self.now }
    {
        self.data.as_slice()
    }
}
