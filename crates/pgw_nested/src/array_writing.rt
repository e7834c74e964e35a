ghost use Rattle.std.specs.Prelude.{◌≡◌, ◌≤◌, ◌+◌, ◌++◌, ℕ, List, length, Some, Err};
ghost use Rattle.pgw_wire.specs.Outside.{HasFailed};
ghost use Rattle.pgw_wire.specs.Output.{IsSameOutput, StartsWithin};
ghost use Rattle.pgw_meta.specs.Known.{Known, known};
ghost use Rattle.pgw_meta.specs.Writing.{Wrote};
ghost use Rattle.pgw_meta.specs.declared.serialize.WriteError.TheVariants.{LookupFailed as lookup_failed};
ghost use Rattle.pgw_nested.specs.Marks.{IsWritten};
ghost use Rattle.pgw_nested.specs.Written.{WritesArray};
ghost use Rattle.pgw_nested.specs.Writing.{WroteElement, WroteNext, WroteElements};

use crate::{ArrayMark, begin_array, begin_piece, end_piece, null_flag, null_piece};
use pgw_meta::serialize::{self, ToSql, WriteError};
use pgw_meta::{HasSqlType, Pg, PgMetadataLookup};
use pgw_wire::{IsNull, Output};

/// Writes a value inside of another: its length and its bytes, or the length of a null, where what was written of it is
/// taken back. The answer is that of its type. What the value is refused with is the error, and `TooMany` with one of more
/// than 2147483647 bytes.
pub fn write_element<ST, T: ToSql<ST>, L: PgMetadataLookup>(
    item: &T,
    out: &mut Output<'_, L>,
) -> serialize::Result
    requires { StartsWithin out.old }
    ensures wrote { (bytes : List ℕ) × (out.new.out.now.bytes ≡ out.old.out.now.bytes ++ bytes)
        × ((k : Known) → known (L.state out.old.lookup.now) ≡ Some k
        → WroteElement (T.writes k) item.now bytes result) }
    ensures failed { result ≡ Err lookup_failed → HasFailed (L.state out.old.lookup.now) (L.state out.new.lookup.now) }
    ensures same { IsSameOutput out.old out.new }
    ensures told { (L.state out.new.lookup.now).told ≡ (L.state out.old.lookup.now).told }
    ensures faults { (L.state out.old.lookup.now).fault_count ≤ (L.state out.new.lookup.now).fault_count }
{
    let mark = begin_piece(out)?;
    match item.to_sql(out)? {
        IsNull::Yes => {
            null_piece(out, mark);
            Ok(IsNull::Yes)
        }
        IsNull::No => {
            end_piece(out, mark)?;
            Ok(IsNull::No)
        }
    }
}

/// Writes the next element of the array with this mark, and says in its flags where that is a null.
fn write_next<ST, T: ToSql<ST>, L: PgMetadataLookup>(
    item: &T,
    mark: &ArrayMark,
    out: &mut Output<'_, L>,
) -> Result<(), WriteError>
    requires start { StartsWithin out.old }
    requires mark { IsWritten out.old mark.now.place }
    ensures wrote { (base bytes : List ℕ) → out.old.out.now.bytes ≡ base ++ bytes → 8 ≤ length bytes
        → out.old.start + mark.now.place ≡ length base + 4
        → (more : List ℕ) × (out.new.out.now.bytes ≡ base ++ more) × (length bytes ≤ length more)
        × ((k : Known) → known (L.state out.old.lookup.now) ≡ Some k
        → WroteNext (T.writes k) item.now bytes more result) }
    ensures failed { result ≡ Err lookup_failed → HasFailed (L.state out.old.lookup.now) (L.state out.new.lookup.now) }
    ensures same { IsSameOutput out.old out.new }
    ensures told { (L.state out.new.lookup.now).told ≡ (L.state out.old.lookup.now).told }
    ensures faults { (L.state out.old.lookup.now).fault_count ≤ (L.state out.new.lookup.now).fault_count }
{
    match write_element::<ST, T, L>(item, out)? {
        IsNull::Yes => {
            null_flag(out, mark);
            Ok(())
        }
        IsNull::No => Ok(()),
    }
}

/// Writes an array of these elements, whose type has this oid.
fn write_elements<ST, T: ToSql<ST>, L: PgMetadataLookup>(
    items: &[T],
    oid: u32,
    out: &mut Output<'_, L>,
) -> serialize::Result
    requires { StartsWithin out.old }
    ensures wrote { (bytes : List ℕ) × (out.new.out.now.bytes ≡ out.old.out.now.bytes ++ bytes)
        × ((k : Known) → known (L.state out.old.lookup.now) ≡ Some k
        → WroteElements (T.writes k) items.now oid bytes result) }
    ensures failed { result ≡ Err lookup_failed → HasFailed (L.state out.old.lookup.now) (L.state out.new.lookup.now) }
    ensures same { IsSameOutput out.old out.new }
    ensures told { (L.state out.new.lookup.now).told ≡ (L.state out.old.lookup.now).told }
    ensures faults { (L.state out.old.lookup.now).fault_count ≤ (L.state out.new.lookup.now).fault_count }
{
    let mark = begin_array(out, oid, items.len())?;
    'items: for item in items {
        if let Err(error) = write_next::<ST, T, L>(item, &mark, out) {
            return Err(error);
        }
    }
    Ok(IsNull::No)
}

/// Writes an array of these elements, whose oid is looked up where their type has no oid of its own.
pub(crate) fn write_array<ST, T: ToSql<ST>, L: PgMetadataLookup>(
    items: &[T],
    out: &mut Output<'_, L>,
) -> serialize::Result
where
    Pg: HasSqlType<ST>,
    requires { StartsWithin out.old }
    ensures wrote { (bytes : List ℕ) × (out.new.out.now.bytes ≡ out.old.out.now.bytes ++ bytes)
        × ((k : Known) → known (L.state out.old.lookup.now) ≡ Some k
        → Wrote (WritesArray ⟦<Pg as HasSqlType<ST>>⟧.names T.writes) k items.now bytes result) }
    ensures failed { result ≡ Err lookup_failed → HasFailed (L.state out.old.lookup.now) (L.state out.new.lookup.now) }
    ensures same { IsSameOutput out.old out.new }
    ensures told { (L.state out.new.lookup.now).told ≡ (L.state out.old.lookup.now).told }
    ensures faults { (L.state out.old.lookup.now).fault_count ≤ (L.state out.new.lookup.now).fault_count }
{
    let alloc = out.alloc();
    let metadata = <Pg as HasSqlType<ST>>::metadata(alloc, out.metadata_lookup())?;
    match metadata.into_oids() {
        Ok((oid, _)) => write_elements::<ST, T, L>(items, oid, out),
        Err(unknown) => Err(WriteError::UnknownType(unknown)),
    }
}
