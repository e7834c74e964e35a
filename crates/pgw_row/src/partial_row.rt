ghost use Rattle.std.specs.Prelude.{◌≡◌, ◌+◌, min, length, refl};
ghost use Rattle.pgw_row.specs.Rows.{window_on, fields_in, inner_place, inner_place_named};

use crate::{PgField, Row, RowIndex, RowNames};
use std::ops::Range;

/// A window on a row: of its fields those from the place `from` to the one before `to`.
#[derive(Drop)]
pub struct PartialRow<'a, R> {
    inner: &'a R,
    from: usize,
    to: usize,
}

impl<'a, R> PartialRow<'a, R> {
    /// Of the places of that row from `first` to the one before `end` those of a range, counted from `first` on.
    pub(crate) fn between(
        inner: &'a R,
        first: usize,
        end: usize,
        range: Range<usize>,
    ) -> PartialRow<'a, R>
        ensures inner { result.inner.now ≡ inner.now }
        ensures from { result.from ≡ min (first + range.start) end }
        ensures to { result.to ≡ min (first + range.end) end }
    {
        PartialRow {
            inner,
            from: first.saturating_add(range.start).min(end),
            to: first.saturating_add(range.end).min(end),
        }
    }
}

impl<'a, R: Row> PartialRow<'a, R> {
    /// A window on the places of a range, counted in that row. Past the row's end it has none.
    pub fn new(inner: &'a R, range: Range<usize>) -> PartialRow<'a, R>
        ensures inner { result.inner.now ≡ inner.now }
        ensures from { result.from ≡ min range.start (length (fields_in (R.parts inner.now))) }
        ensures to { result.to ≡ min range.end (length (fields_in (R.parts inner.now))) }
    {
        PartialRow::between(inner, 0, inner.field_count(), range)
    }
}

impl<R: Row> PartialRow<'_, R> {
    /// The place, in the row that it is a window on, behind its last field. Of an empty one it is that of its begin.
    fn end(&self) -> usize
        ensures { result
            ≡ self.now.from + length (fields_in (window_on (R.parts self.now.inner.now) self.now.from self.now.to)) }
    {
        self.to.min(self.inner.field_count()).max(self.from)
    }
}

impl<R: Row> RowIndex<usize> for PartialRow<'_, R> {
    ghost index = { λ w. inner_place w.from (window_on (R.parts w.inner.now) w.from w.to) };

    fn idx(&self, idx: usize) -> Option<usize> {
        if idx < self.field_count() {
            Some(self.from + idx)
        } else {
            None
        }
    }
}

impl<R: Row> RowNames for PartialRow<'_, R> {
    ghost index_of_name = { λ w. inner_place_named w.from (window_on (R.parts w.inner.now) w.from w.to) };

    fn idx_name(&self, name: &str) -> Option<usize> {
        // The row below may be a window too, and then both are places of the row below it.
        let found = self.inner.idx_name(name)?;
        let first = self.inner.idx(0)?;
        let place = found - first;
        if self.from <= place && place < self.to {
            Some(place)
        } else {
            None
        }
    }
}

impl<'a, R: Row> Row for PartialRow<'a, R> {
    type InnerPartialRow = R;

    ghost parts = { λ w. window_on (R.parts w.inner.now) w.from w.to };

    ghost inner = { λ w. w.inner.now };

    ghost first = { λ w. w.from };

    fn field_count(&self) -> usize {
        self.end() - self.from
    }

    fn get(&self, idx: usize) -> Option<PgField<'_>> {
        self.inner.get(self.idx(idx)?)
    }

    fn get_named(&self, name: &str) -> Option<PgField<'_>> {
        self.inner.get(self.idx_name(name)?)
    }

    fn partial_row(&self, places: Range<usize>) -> PartialRow<'_, R> {
        PartialRow::between(self.inner, self.from, self.end(), places)
    }

    ghost by_place = { λ w place. refl };

    ghost by_name = { λ w name. refl };
}
