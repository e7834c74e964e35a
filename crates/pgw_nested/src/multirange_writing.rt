ghost use Rattle.std.specs.Prelude.{◌≡◌, ◌<◌, ◌≤◌, ◌++◌, ℕ, List, Some, Err, OnOk, OnErr, IfErr};
ghost use Rattle.std.specs.Int.{to_be_bytes, w32};
ghost use Rattle.pgw_wire.specs.Outside.{HasFailed};
ghost use Rattle.pgw_wire.specs.Output.{IsSameOutput, StartsWithin};
ghost use Rattle.pgw_meta.specs.Known.{Known, known};
ghost use Rattle.pgw_meta.specs.Writing.{Wrote};
ghost use Rattle.pgw_meta.specs.declared.serialize.WriteError.TheVariants.{LookupFailed as lookup_failed};
ghost use Rattle.pgw_nested.specs.Marks.{RefusesCount};
ghost use Rattle.pgw_nested.specs.Writing.{WroteElement};
ghost use Rattle.pgw_nested.specs.RangeWritten.{WritesBoundsOf, WritesMultirange};

use crate::BoundsOf;
use crate::array_writing::write_element;
use crate::marks::GREATEST;
use crate::range_writing::write_bounds_of;
use crate::sql_types::Range;
use pgw_meta::PgMetadataLookup;
use pgw_meta::serialize::{self, ToSql, WriteError};
use pgw_wire::{IsNull, Output};

/// Begins a multirange of so many ranges: their number is appended, in 4 bytes. `TooMany` exactly where it is above
/// 2147483647.
pub fn begin_multirange<L>(out: &mut Output<'_, L>, count: usize) -> Result<(), WriteError>
    ensures same { IsSameOutput out.old out.new }
    ensures lookup { out.new.lookup.now ≡ out.old.lookup.now }
    ensures ok { OnOk result ((count < 2147483648)
        × (out.new.out.now.bytes ≡ out.old.out.now.bytes ++ to_be_bytes w32 count)) }
    ensures err { IfErr result (λ e. RefusesCount count e) }
    ensures kept { OnErr result (out.new.out.now ≡ out.old.out.now) }
{
    if count > GREATEST {
        return Err(WriteError::TooMany);
    }
    let [a, b, c, d] = (count as u32).to_be_bytes();
    out.write_all(&[a, b, c, d])?;
    Ok(())
}

/// What has bounds, to be written as a range.
#[derive(Clone, Copy)]
struct AsRange<'a, R>(&'a R);

impl<'a, ST, R: BoundsOf> ToSql<Range<ST>> for AsRange<'a, R>
where
    R::Item: ToSql<ST>,
{
    ghost writes = { λ k v. WritesBoundsOf R.is_lower R.is_upper R.Item.writes k v.0.now };

    fn to_sql<L: PgMetadataLookup>(&self, out: &mut Output<'_, L>) -> serialize::Result {
        write_bounds_of::<ST, R, L>(self.0, out)
    }
}

/// Writes a range of a multirange: its length and its bytes.
fn write_next<ST, T: ToSql<ST>, R: BoundsOf<Item = T>, L: PgMetadataLookup>(
    range: &R,
    out: &mut Output<'_, L>,
) -> serialize::Result
    requires { StartsWithin out.old }
    ensures wrote { (bytes : List ℕ) × (out.new.out.now.bytes ≡ out.old.out.now.bytes ++ bytes)
        × ((k : Known) → known (L.state out.old.lookup.now) ≡ Some k
        → WroteElement (WritesBoundsOf R.is_lower R.is_upper T.writes k) range.now bytes result) }
    ensures failed { result ≡ Err lookup_failed → HasFailed (L.state out.old.lookup.now) (L.state out.new.lookup.now) }
    ensures same { IsSameOutput out.old out.new }
    ensures told { (L.state out.new.lookup.now).told ≡ (L.state out.old.lookup.now).told }
    ensures faults { (L.state out.old.lookup.now).fault_count ≤ (L.state out.new.lookup.now).fault_count }
{
    write_element::<Range<ST>, AsRange<'_, R>, L>(&AsRange(range), out)
}

/// Writes a multirange of these ranges.
pub(crate) fn write_multirange<ST, T: ToSql<ST>, R: BoundsOf<Item = T>, L: PgMetadataLookup>(
    ranges: &[R],
    out: &mut Output<'_, L>,
) -> serialize::Result
    requires { StartsWithin out.old }
    ensures wrote { (bytes : List ℕ) × (out.new.out.now.bytes ≡ out.old.out.now.bytes ++ bytes)
        × ((k : Known) → known (L.state out.old.lookup.now) ≡ Some k
        → Wrote (WritesMultirange (WritesBoundsOf R.is_lower R.is_upper T.writes)) k ranges.now bytes result) }
    ensures failed { result ≡ Err lookup_failed → HasFailed (L.state out.old.lookup.now) (L.state out.new.lookup.now) }
    ensures same { IsSameOutput out.old out.new }
    ensures told { (L.state out.new.lookup.now).told ≡ (L.state out.old.lookup.now).told }
    ensures faults { (L.state out.old.lookup.now).fault_count ≤ (L.state out.new.lookup.now).fault_count }
{
    begin_multirange(out, ranges.len())?;
    'each: for range in ranges {
        if let Err(error) = write_next::<ST, T, R, L>(range, out) {
            return Err(error);
        }
    }
    Ok(IsNull::No)
}
