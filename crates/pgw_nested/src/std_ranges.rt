ghost use Rattle.pgw_nested.specs.RangeWritten.{WritesBoundsOf};

use crate::BoundsOf;
use crate::range_writing::write_bounds_of;
use crate::sql_types::{Nullable, Range};
use pgw_meta::PgMetadataLookup;
use pgw_meta::serialize::{self, ToSql};
use pgw_wire::Output;
use std::ops::{self, RangeFrom, RangeInclusive, RangeTo, RangeToInclusive};

impl<ST, T: ToSql<ST>> ToSql<Range<ST>> for ops::Range<T> {
    ghost writes = { WritesBoundsOf ⟦<ops::Range<T> as BoundsOf>⟧.is_lower
        ⟦<ops::Range<T> as BoundsOf>⟧.is_upper T.writes };

    /// As the pair of its bounds.
    fn to_sql<L: PgMetadataLookup>(&self, out: &mut Output<'_, L>) -> serialize::Result {
        write_bounds_of::<ST, ops::Range<T>, L>(self, out)
    }
}

impl<ST, T: ToSql<ST>> ToSql<Nullable<Range<ST>>> for ops::Range<T> {
    ghost writes = { WritesBoundsOf ⟦<ops::Range<T> as BoundsOf>⟧.is_lower
        ⟦<ops::Range<T> as BoundsOf>⟧.is_upper T.writes };

    /// As a range that allows no null.
    fn to_sql<L: PgMetadataLookup>(&self, out: &mut Output<'_, L>) -> serialize::Result {
        write_bounds_of::<ST, ops::Range<T>, L>(self, out)
    }
}

impl<ST, T: ToSql<ST>> ToSql<Range<ST>> for RangeFrom<T> {
    ghost writes = { WritesBoundsOf ⟦<RangeFrom<T> as BoundsOf>⟧.is_lower
        ⟦<RangeFrom<T> as BoundsOf>⟧.is_upper T.writes };

    /// As the pair of its bounds.
    fn to_sql<L: PgMetadataLookup>(&self, out: &mut Output<'_, L>) -> serialize::Result {
        write_bounds_of::<ST, RangeFrom<T>, L>(self, out)
    }
}

impl<ST, T: ToSql<ST>> ToSql<Nullable<Range<ST>>> for RangeFrom<T> {
    ghost writes = { WritesBoundsOf ⟦<RangeFrom<T> as BoundsOf>⟧.is_lower
        ⟦<RangeFrom<T> as BoundsOf>⟧.is_upper T.writes };

    /// As a range that allows no null.
    fn to_sql<L: PgMetadataLookup>(&self, out: &mut Output<'_, L>) -> serialize::Result {
        write_bounds_of::<ST, RangeFrom<T>, L>(self, out)
    }
}

impl<ST, T: ToSql<ST>> ToSql<Range<ST>> for RangeTo<T> {
    ghost writes = { WritesBoundsOf ⟦<RangeTo<T> as BoundsOf>⟧.is_lower
        ⟦<RangeTo<T> as BoundsOf>⟧.is_upper T.writes };

    /// As the pair of its bounds.
    fn to_sql<L: PgMetadataLookup>(&self, out: &mut Output<'_, L>) -> serialize::Result {
        write_bounds_of::<ST, RangeTo<T>, L>(self, out)
    }
}

impl<ST, T: ToSql<ST>> ToSql<Nullable<Range<ST>>> for RangeTo<T> {
    ghost writes = { WritesBoundsOf ⟦<RangeTo<T> as BoundsOf>⟧.is_lower
        ⟦<RangeTo<T> as BoundsOf>⟧.is_upper T.writes };

    /// As a range that allows no null.
    fn to_sql<L: PgMetadataLookup>(&self, out: &mut Output<'_, L>) -> serialize::Result {
        write_bounds_of::<ST, RangeTo<T>, L>(self, out)
    }
}

impl<ST, T: ToSql<ST>> ToSql<Range<ST>> for RangeToInclusive<T> {
    ghost writes = { WritesBoundsOf ⟦<RangeToInclusive<T> as BoundsOf>⟧.is_lower
        ⟦<RangeToInclusive<T> as BoundsOf>⟧.is_upper T.writes };

    /// As the pair of its bounds.
    fn to_sql<L: PgMetadataLookup>(&self, out: &mut Output<'_, L>) -> serialize::Result {
        write_bounds_of::<ST, RangeToInclusive<T>, L>(self, out)
    }
}

impl<ST, T: ToSql<ST>> ToSql<Nullable<Range<ST>>> for RangeToInclusive<T> {
    ghost writes = { WritesBoundsOf ⟦<RangeToInclusive<T> as BoundsOf>⟧.is_lower
        ⟦<RangeToInclusive<T> as BoundsOf>⟧.is_upper T.writes };

    /// As a range that allows no null.
    fn to_sql<L: PgMetadataLookup>(&self, out: &mut Output<'_, L>) -> serialize::Result {
        write_bounds_of::<ST, RangeToInclusive<T>, L>(self, out)
    }
}

impl<ST, T: ToSql<ST> + Drop> ToSql<Range<ST>> for RangeInclusive<T> {
    ghost writes = { WritesBoundsOf ⟦<RangeInclusive<T> as BoundsOf>⟧.is_lower
        ⟦<RangeInclusive<T> as BoundsOf>⟧.is_upper T.writes };

    /// As the pair of its bounds.
    fn to_sql<L: PgMetadataLookup>(&self, out: &mut Output<'_, L>) -> serialize::Result {
        write_bounds_of::<ST, RangeInclusive<T>, L>(self, out)
    }
}

impl<ST, T: ToSql<ST> + Drop> ToSql<Nullable<Range<ST>>> for RangeInclusive<T> {
    ghost writes = { WritesBoundsOf ⟦<RangeInclusive<T> as BoundsOf>⟧.is_lower
        ⟦<RangeInclusive<T> as BoundsOf>⟧.is_upper T.writes };

    /// As a range that allows no null.
    fn to_sql<L: PgMetadataLookup>(&self, out: &mut Output<'_, L>) -> serialize::Result {
        write_bounds_of::<ST, RangeInclusive<T>, L>(self, out)
    }
}
