ghost use Rattle.std.specs.Prelude.{◌≡◌, ◌≤◌, ◌<◌, ◌++◌, [], ◌∷◌, ℕ, List, length, Some, Err, OnOk, OnErr, IfErr};
ghost use Rattle.std.specs.Range.Bound.{bound_map};
ghost use Rattle.pgw_wire.specs.Outside.{HasFailed};
ghost use Rattle.pgw_wire.specs.Output.{IsSameOutput, StartsWithin};
ghost use Rattle.pgw_meta.specs.Known.{Known, known};
ghost use Rattle.pgw_meta.specs.Writing.{Wrote};
ghost use Rattle.pgw_meta.specs.declared.serialize.WriteError.TheVariants.{LookupFailed as lookup_failed};
ghost use Rattle.pgw_meta.specs.declared.serialize.WriteError.TheVariants.{NoMemory as no_memory};
ghost use Rattle.pgw_nested.specs.Range.{lower_flags, upper_flags};
ghost use Rattle.pgw_nested.specs.RangeWritten.{bound_of_kind, flags_of_kinds, WroteBound, WritesRange, WritesBoundsOf};

use crate::BoundsOf;
use crate::array_writing::write_element;
use crate::range_flags::RangeFlags;
use bitflags::Flags;
use pgw_meta::PgMetadataLookup;
use pgw_meta::serialize::{self, ToSql, WriteError};
use pgw_wire::{IsNull, Output};
use std::ops::Bound;

/// Of what kind a bound of a range is: there is none, or the range includes its value, or it does not.
#[derive(Debug, Clone, Copy, PartialEq, Eq, Drop)]
pub enum BoundKind {
    Unbounded,
    Included,
    Excluded,
}

/// The flags of a lower bound.
pub(crate) fn lower_bits(kind: BoundKind) -> u8
    ensures value { result ≡ lower_flags (bound_of_kind kind) }
    ensures few { result ≤ 8 }
{
    match kind {
        BoundKind::Unbounded => RangeFlags::LB_INF.bits(),
        BoundKind::Included => RangeFlags::LB_INC.bits(),
        BoundKind::Excluded => 0,
    }
}

/// The flags of an upper bound.
pub(crate) fn upper_bits(kind: BoundKind) -> u8
    ensures value { result ≡ upper_flags (bound_of_kind kind) }
    ensures few { result ≤ 16 }
{
    match kind {
        BoundKind::Unbounded => RangeFlags::UB_INF.bits(),
        BoundKind::Included => RangeFlags::UB_INC.bits(),
        BoundKind::Excluded => 0,
    }
}

/// Begins a range whose bounds are of these kinds: a byte of flags is appended. It never says that the range is empty.
pub fn begin_range<L>(
    out: &mut Output<'_, L>,
    lower_kind: BoundKind,
    upper_kind: BoundKind,
) -> Result<(), WriteError>
    ensures same { IsSameOutput out.old out.new }
    ensures lookup { out.new.lookup.now ≡ out.old.lookup.now }
    ensures ok { OnOk result (out.new.out.now.bytes
        ≡ out.old.out.now.bytes ++ (flags_of_kinds lower_kind upper_kind ∷ [])) }
    ensures err { IfErr result (λ e. e ≡ no_memory) }
    ensures kept { OnErr result (out.new.out.now ≡ out.old.out.now) }
{
    let flags = lower_bits(lower_kind) + upper_bits(upper_kind);
    out.write_all(&[flags])?;
    Ok(())
}

/// Of what kind the bound is.
fn kind_of<T>(bound: &Bound<&T>) -> BoundKind
    ensures lower { lower_flags (bound_of_kind result) ≡ lower_flags (bound_map (λ x. x.now) bound.now) }
    ensures upper { upper_flags (bound_of_kind result) ≡ upper_flags (bound_map (λ x. x.now) bound.now) }
{
    match bound {
        Bound::Unbounded => BoundKind::Unbounded,
        Bound::Included(_) => BoundKind::Included,
        Bound::Excluded(_) => BoundKind::Excluded,
    }
}

/// Writes a bound, of which there are no bytes where there is none.
fn write_bound<ST, T: ToSql<ST>, L: PgMetadataLookup>(
    bound: Bound<&T>,
    out: &mut Output<'_, L>,
) -> Result<(), WriteError>
    requires { StartsWithin out.old }
    ensures wrote { (bytes : List ℕ) × (out.new.out.now.bytes ≡ out.old.out.now.bytes ++ bytes)
        × ((k : Known) → known (L.state out.old.lookup.now) ≡ Some k
        → WroteBound (T.writes k) (bound_map (λ x. x.now) bound.entry) bytes result) }
    ensures failed { result ≡ Err lookup_failed → HasFailed (L.state out.old.lookup.now) (L.state out.new.lookup.now) }
    ensures same { IsSameOutput out.old out.new }
    ensures told { (L.state out.new.lookup.now).told ≡ (L.state out.old.lookup.now).told }
    ensures faults { (L.state out.old.lookup.now).fault_count ≤ (L.state out.new.lookup.now).fault_count }
{
    match bound {
        Bound::Unbounded => Ok(()),
        Bound::Included(value) => {
            write_element::<ST, T, L>(value, out)?;
            Ok(())
        }
        Bound::Excluded(value) => {
            write_element::<ST, T, L>(value, out)?;
            Ok(())
        }
    }
}

/// Writes a range with these bounds.
pub(crate) fn write_range<ST, T: ToSql<ST>, L: PgMetadataLookup>(
    lower: Bound<&T>,
    upper: Bound<&T>,
    out: &mut Output<'_, L>,
) -> serialize::Result
    requires { StartsWithin out.old }
    ensures wrote { (bytes : List ℕ) × (out.new.out.now.bytes ≡ out.old.out.now.bytes ++ bytes)
        × ((k : Known) → known (L.state out.old.lookup.now) ≡ Some k
        → Wrote (WritesRange T.writes) k (bound_map (λ x. x.now) lower.entry, bound_map (λ x. x.now) upper.entry)
        bytes result) }
    ensures failed { result ≡ Err lookup_failed → HasFailed (L.state out.old.lookup.now) (L.state out.new.lookup.now) }
    ensures same { IsSameOutput out.old out.new }
    ensures told { (L.state out.new.lookup.now).told ≡ (L.state out.old.lookup.now).told }
    ensures faults { (L.state out.old.lookup.now).fault_count ≤ (L.state out.new.lookup.now).fault_count }
{
    begin_range(out, kind_of(&lower), kind_of(&upper))?;
    if let Err(error) = write_bound::<ST, T, L>(lower, out) {
        return Err(error);
    }
    if let Err(error) = write_bound::<ST, T, L>(upper, out) {
        return Err(error);
    }
    Ok(IsNull::No)
}

/// Writes what has bounds as their range.
pub(crate) fn write_bounds_of<ST, R: BoundsOf, L: PgMetadataLookup>(
    value: &R,
    out: &mut Output<'_, L>,
) -> serialize::Result
where
    R::Item: ToSql<ST>,
    requires { StartsWithin out.old }
    ensures wrote { (bytes : List ℕ) × (out.new.out.now.bytes ≡ out.old.out.now.bytes ++ bytes)
        × ((k : Known) → known (L.state out.old.lookup.now) ≡ Some k
        → Wrote (WritesBoundsOf R.is_lower R.is_upper R.Item.writes) k value.now bytes result) }
    ensures failed { result ≡ Err lookup_failed → HasFailed (L.state out.old.lookup.now) (L.state out.new.lookup.now) }
    ensures same { IsSameOutput out.old out.new }
    ensures told { (L.state out.new.lookup.now).told ≡ (L.state out.old.lookup.now).told }
    ensures faults { (L.state out.old.lookup.now).fault_count ≤ (L.state out.new.lookup.now).fault_count }
{
    write_range::<ST, R::Item, L>(value.lower(), value.upper(), out)
}
