ghost use Rattle.std.specs.Prelude.{◌≡◌, false};
ghost use Rattle.std.specs.declared.ops.Bound.{Bound as ABound};
ghost use Rattle.std.specs.declared.ops.Bound.TheVariants.{Included as included, Excluded as excluded};
ghost use Rattle.std.specs.declared.ops.Bound.TheVariants.{Unbounded as unbounded};
ghost use Rattle.std.specs.Range.Bound.{bound_map};
ghost use Rattle.std.specs.Range.{range_inclusive_start, range_inclusive_end, range_inclusive_exhausted};

use std::ops::{Bound, Range, RangeBounds, RangeFrom, RangeInclusive, RangeTo, RangeToInclusive};

/// What has two bounds, and so can be written as a range: a pair of bounds, and the ranges of std.
pub trait BoundsOf {
    /// The values that the bounds have.
    type Item;

    /// The lower bound is this one.
    ghost is_lower: { Self → ABound Self.Item → Type 0 };

    /// The upper bound is this one.
    ghost is_upper: { Self → ABound Self.Item → Type 0 };

    /// The lower bound.
    fn lower(&self) -> Bound<&Self::Item>
        ensures { is_lower self.now (bound_map (λ x. x.now) result) };

    /// The upper bound.
    fn upper(&self) -> Bound<&Self::Item>
        ensures { is_upper self.now (bound_map (λ x. x.now) result) };
}

impl<T> BoundsOf for (Bound<T>, Bound<T>) {
    type Item = T;

    ghost is_lower = { λ v b. b ≡ v.0 };

    ghost is_upper = { λ v b. b ≡ v.1 };

    fn lower(&self) -> Bound<&T> {
        self.0.as_ref()
    }

    fn upper(&self) -> Bound<&T> {
        self.1.as_ref()
    }
}

impl<T> BoundsOf for Range<T> {
    type Item = T;

    ghost is_lower = { λ v b. b ≡ included v.start };

    ghost is_upper = { λ v b. b ≡ excluded v.end };

    fn lower(&self) -> Bound<&T> {
        Bound::Included(&self.start)
    }

    fn upper(&self) -> Bound<&T> {
        Bound::Excluded(&self.end)
    }
}

/// Nothing is said of the bounds of a range that was iterated to its end, as of those of std's.
impl<T: Drop> BoundsOf for RangeInclusive<T> {
    type Item = T;

    ghost is_lower = { λ v b. range_inclusive_exhausted v ≡ false → b ≡ included (range_inclusive_start v) };

    ghost is_upper = { λ v b. range_inclusive_exhausted v ≡ false → b ≡ included (range_inclusive_end v) };

    fn lower(&self) -> Bound<&T> {
        self.start_bound()
    }

    fn upper(&self) -> Bound<&T> {
        self.end_bound()
    }
}

impl<T> BoundsOf for RangeFrom<T> {
    type Item = T;

    ghost is_lower = { λ v b. b ≡ included v.start };

    ghost is_upper = { λ v b. b ≡ unbounded };

    fn lower(&self) -> Bound<&T> {
        Bound::Included(&self.start)
    }

    fn upper(&self) -> Bound<&T> {
        Bound::Unbounded
    }
}

impl<T> BoundsOf for RangeTo<T> {
    type Item = T;

    ghost is_lower = { λ v b. b ≡ unbounded };

    ghost is_upper = { λ v b. b ≡ excluded v.end };

    fn lower(&self) -> Bound<&T> {
        Bound::Unbounded
    }

    fn upper(&self) -> Bound<&T> {
        Bound::Excluded(&self.end)
    }
}

impl<T> BoundsOf for RangeToInclusive<T> {
    type Item = T;

    ghost is_lower = { λ v b. b ≡ unbounded };

    ghost is_upper = { λ v b. b ≡ included v.end };

    fn lower(&self) -> Bound<&T> {
        Bound::Unbounded
    }

    fn upper(&self) -> Bound<&T> {
        Bound::Included(&self.end)
    }
}
