//! Laws of dates, times, timestamps and intervals, for proofs that call these functions: what they ensure. They do
//! nothing.

ghost use Rattle.std.specs.Prelude.{◌≡◌, ◌↔◌, IsTrue};
ghost use Rattle.std.specs.Ordering.{int_cmp};

use crate::{PgDate, PgInterval, PgTime, PgTimestamp};

/// Two dates are equal exactly where their numbers are.
pub fn dates_are_equal_by_their_numbers(a: PgDate, b: PgDate)
    ensures { IsTrue (⟦<PgDate as PartialEq>⟧.eq a b) ↔ (a.0 ≡ b.0) }
{}

/// Two dates are ordered as their numbers are.
pub fn dates_are_ordered_by_their_numbers(a: PgDate, b: PgDate)
    ensures { ⟦<PgDate as Ord>⟧.cmp a b ≡ int_cmp a.0 b.0 }
{}

/// Two times are equal exactly where their numbers are.
pub fn times_are_equal_by_their_numbers(a: PgTime, b: PgTime)
    ensures { IsTrue (⟦<PgTime as PartialEq>⟧.eq a b) ↔ (a.0 ≡ b.0) }
{}

/// Two times are ordered as their numbers are.
pub fn times_are_ordered_by_their_numbers(a: PgTime, b: PgTime)
    ensures { ⟦<PgTime as Ord>⟧.cmp a b ≡ int_cmp a.0 b.0 }
{}

/// Two timestamps are equal exactly where their numbers are.
pub fn timestamps_are_equal_by_their_numbers(a: PgTimestamp, b: PgTimestamp)
    ensures { IsTrue (⟦<PgTimestamp as PartialEq>⟧.eq a b) ↔ (a.0 ≡ b.0) }
{}

/// Two timestamps are ordered as their numbers are.
pub fn timestamps_are_ordered_by_their_numbers(a: PgTimestamp, b: PgTimestamp)
    ensures { ⟦<PgTimestamp as Ord>⟧.cmp a b ≡ int_cmp a.0 b.0 }
{}

/// Two intervals are equal exactly where the three numbers of one are those of the other.
pub fn intervals_are_equal_by_their_numbers(a: PgInterval, b: PgInterval)
    ensures { IsTrue (⟦<PgInterval as PartialEq>⟧.eq a b)
        ↔ ((a.microseconds ≡ b.microseconds) × (a.days ≡ b.days) × (a.months ≡ b.months)) }
{}
