ghost use Rattle.std.specs.Prelude.{◌≡◌, ◌≤◌, ◌<◌, ◌++◌, ℕ, List, [], Some, Err, OnOk, OnErr, IfErr};
ghost use Rattle.std.specs.Int.{to_be_bytes, w32};
ghost use Rattle.pgw_wire.specs.Outside.{HasFailed};
ghost use Rattle.pgw_wire.specs.Output.{IsSameOutput, StartsWithin};
ghost use Rattle.pgw_meta.specs.Known.{Known, known};
ghost use Rattle.pgw_meta.specs.declared.serialize.WriteError.TheVariants.{LookupFailed as lookup_failed};
ghost use Rattle.pgw_meta.specs.declared.serialize.WriteError.TheVariants.{NoMemory as no_memory};
ghost use Rattle.pgw_nested.specs.Marks.{RefusesCount};
ghost use Rattle.pgw_record.specs.Written.{WroteCell, WroteComponent};

use pgw_meta::serialize::{ToSql, WriteError};
use pgw_meta::{HasSqlType, Pg, PgMetadataLookup};
use pgw_nested::write_element;
use pgw_wire::Output;

/// The greatest count of components.
const GREATEST: usize = 2147483647;

/// Begins a record of so many components: their number is appended, in 4 bytes. `TooMany` exactly where it is above
/// 2147483647.
pub fn begin_record<L>(out: &mut Output<'_, L>, count: usize) -> Result<(), WriteError>
    ensures same { IsSameOutput out.old out.new }
    ensures lookup { out.new.lookup.now ≡ out.old.lookup.now }
    ensures ok { OnOk result ((count < 2147483648)
        × (out.new.out.now.bytes ≡ out.old.out.now.bytes ++ to_be_bytes w32 count)) }
    ensures err { IfErr result (λ e. RefusesCount count e) }
    ensures kept { OnErr result (out.new.out.now ≡ out.old.out.now) }
{
    if count > GREATEST {
        return Err(WriteError::TooMany);
    }
    out.write_all(&(count as u32).to_be_bytes())?;
    Ok(())
}

/// Begins the record of a tuple, of so many members. Where memory is refused, nothing is appended.
pub(crate) fn begin_tuple<L>(count: usize, out: &mut Output<'_, L>) -> Result<(), WriteError>
    requires { count ≤ 2147483647 }
    ensures same { IsSameOutput out.old out.new }
    ensures lookup { out.new.lookup.now ≡ out.old.lookup.now }
    ensures ok { OnOk result (out.new.out.now.bytes ≡ out.old.out.now.bytes ++ to_be_bytes w32 count) }
    ensures err { IfErr result (λ e. e ≡ no_memory) }
    ensures kept { OnErr result (out.new.out.now.bytes ≡ out.old.out.now.bytes ++ []) }
{
    begin_record(out, count)
}

/// Begins a component of a record: the oid of its type is appended, in 4 bytes.
pub fn begin_component<L>(out: &mut Output<'_, L>, oid: u32) -> Result<(), WriteError>
    ensures same { IsSameOutput out.old out.new }
    ensures lookup { out.new.lookup.now ≡ out.old.lookup.now }
    ensures ok { OnOk result (out.new.out.now.bytes ≡ out.old.out.now.bytes ++ to_be_bytes w32 oid) }
    ensures err { IfErr result (λ e. e ≡ no_memory) }
    ensures kept { OnErr result (out.new.out.now ≡ out.old.out.now) }
{
    out.write_all(&oid.to_be_bytes())?;
    Ok(())
}

/// Writes a component with this oid: the oid, and the value's length and bytes, or the length of a null.
fn write_cell<ST, T: ToSql<ST>, L: PgMetadataLookup>(
    value: &T,
    oid: u32,
    out: &mut Output<'_, L>,
) -> Result<(), WriteError>
    requires { StartsWithin out.old }
    ensures wrote { (bytes : List ℕ) × (out.new.out.now.bytes ≡ out.old.out.now.bytes ++ bytes)
        × ((k : Known) → known (L.state out.old.lookup.now) ≡ Some k
        → WroteCell (T.writes k) oid value.now bytes result) }
    ensures failed { result ≡ Err lookup_failed → HasFailed (L.state out.old.lookup.now) (L.state out.new.lookup.now) }
    ensures same { IsSameOutput out.old out.new }
    ensures told { (L.state out.new.lookup.now).told ≡ (L.state out.old.lookup.now).told }
    ensures faults { (L.state out.old.lookup.now).fault_count ≤ (L.state out.new.lookup.now).fault_count }
{
    begin_component(out, oid)?;
    write_element::<ST, T, L>(value, out)?;
    Ok(())
}

/// Writes a member as the component of a record, whose oid is looked up where its type has no oid of its own.
pub(crate) fn write_component<ST, T: ToSql<ST>, L: PgMetadataLookup>(
    value: &T,
    out: &mut Output<'_, L>,
) -> Result<(), WriteError>
where
    Pg: HasSqlType<ST>,
    requires { StartsWithin out.old }
    ensures wrote { (bytes : List ℕ) × (out.new.out.now.bytes ≡ out.old.out.now.bytes ++ bytes)
        × ((k : Known) → known (L.state out.old.lookup.now) ≡ Some k
        → WroteComponent ⟦<Pg as HasSqlType<ST>>⟧.names T.writes k value.now bytes result) }
    ensures failed { result ≡ Err lookup_failed → HasFailed (L.state out.old.lookup.now) (L.state out.new.lookup.now) }
    ensures same { IsSameOutput out.old out.new }
    ensures told { (L.state out.new.lookup.now).told ≡ (L.state out.old.lookup.now).told }
    ensures faults { (L.state out.old.lookup.now).fault_count ≤ (L.state out.new.lookup.now).fault_count }
{
    let alloc = out.alloc();
    let metadata = <Pg as HasSqlType<ST>>::metadata(alloc, out.metadata_lookup())?;
    match metadata.into_oids() {
        Ok((oid, _)) => write_cell::<ST, T, L>(value, oid, out),
        Err(unknown) => Err(WriteError::UnknownType(unknown)),
    }
}
