ghost use Rattle.std.specs.Prelude.{◌≡◌, ◌⊎◌, ◌<◌, ◌≤◌, ◌^◌, [], length, true, Some, Err, IfOk, OnOk, IsErr, IsErrAnd, IsOkUnless, option_map, ⊤};
ghost use Rattle.pgw_meta.specs.NamedOids.{known_of};
ghost use Rattle.std.specs.Io.KnownBytes.{IsAtEnd};
ghost use Rattle.pgw_wire.specs.Outside.{left, settled, HasFailed, Took, HasFront, HasNoFront, Gains, Wrote, Settled};
ghost use Rattle.pgw_meta.specs.Known.{Key, Known, known};
ghost use Rattle.pgw_meta.specs.Keys.{owned_key};
ghost use Rattle.pgw_meta.specs.Needs.{needed_keys, needs_of};
ghost use Rattle.pgw_meta.specs.Types.{column_shapes};
ghost use Rattle.pgw_tree.specs.ColumnTypes.{AreBuilt};
ghost use Rattle.pgw_tree.specs.Canonical.{canonical_front};
ghost use Rattle.pgw_tree.specs.Stream.{IsValidStream};
ghost use Rattle.pgw_tree.specs.Copying.{Copies};
ghost use Rattle.pgw_tree.specs.Lookups.{AreFound, AreMet, Covers, IsFirstUnmet, IsLookupFault, IsUnknownType, HasFailedAsked, first_unmet};
ghost use Rattle.pgw_tree.specs.Causes.{IsCopied, fault_says, copy_says};

use crate::columns::{Columns, plain_cells_of};
use crate::needs::look_up_all;
use crate::next_row::copy_row;
use crate::shown::copy_shown;
use crate::{CopyFault, Limits};
use pgw_copy::{CopyReader, CopyWriter};
use pgw_meta::{FoundOids, Need, PgMetadataLookup, PgType, Schema};
use pgw_wire::{Sink, Source};
use std::alloc::Global;

/// What was copied.
#[derive(Debug, Drop)]
pub struct Copied {
    /// How many rows.
    pub rows: u64,
    /// The oids that were found of the types that are looked up by their names.
    pub oids: FoundOids,
}

/// Copies a stream, and settles the sink.
fn copy_stream<S: Source, K: Sink>(
    alloc: Global,
    columns: &Columns<'_>,
    source: &mut S,
    sink: &mut K,
    limits: Limits,
) -> Result<u64, CopyFault>
    ensures takes { Copies (S.state source.old) (S.state source.new) result
        (λ n. IsCopied limits (column_shapes columns.now.types.now) (canonical_front (known_of columns.now.found.now) (column_shapes columns.now.types.now)) n
        (Settled (K.state sink.old) (K.state sink.new)))
        (λ fault. fault_says limits (column_shapes columns.now.types.now) (canonical_front (known_of columns.now.found.now) (column_shapes columns.now.types.now)) fault
        (Wrote (K.state sink.old) (K.state sink.new))) }
    ensures write_fault { result ≡ Err CopyFault.WriteFault → HasFailed (K.state sink.old) (K.state sink.new) }
{
    let mut reader = CopyReader::start(alloc, source)?;
    let mut writer = CopyWriter::new(alloc);
    writer.header(sink)?;
    let mut rows = copy_shown(alloc, columns, limits, 0, source, sink)?;
    while copy_row(
        columns,
        limits,
        rows,
        &mut reader,
        source,
        &mut writer,
        sink,
    )? {
        rows = copy_shown(alloc, columns, limits, rows + 1, source, sink)?;
    }
    writer.trailer(sink)?;
    Ok(rows)
}

/// Copies a stream of rows of columns of these types, and settles the sink.
fn copy_typed<S: Source, K: Sink>(
    alloc: Global,
    types: &[PgType],
    found: &FoundOids,
    source: &mut S,
    sink: &mut K,
    limits: Limits,
) -> Result<u64, CopyFault>
    requires few { length types.now < 2 ^ 15 }
    requires built { AreBuilt (column_shapes types.now) }
    ensures takes { Copies (S.state source.old) (S.state source.new) result
        (λ n. IsCopied limits (column_shapes types.now) (canonical_front (known_of found.now) (column_shapes types.now)) n
        (Settled (K.state sink.old) (K.state sink.new)))
        (λ fault. fault_says limits (column_shapes types.now) (canonical_front (known_of found.now) (column_shapes types.now)) fault
        (Wrote (K.state sink.old) (K.state sink.new))) }
    ensures write_fault { result ≡ Err CopyFault.WriteFault → HasFailed (K.state sink.old) (K.state sink.new) }
{
    let plain = plain_cells_of(alloc, types, found)?;
    let columns = Columns {
        types,
        plain: plain.as_slice(),
        found,
    };
    copy_stream(alloc, &columns, source, sink, limits)
}

/// Looks up what is needed, and then copies a stream of rows of columns of these types, and settles the sink.
fn copy_found<L: PgMetadataLookup, S: Source, K: Sink>(
    alloc: Global,
    types: &[PgType],
    needs: &[Need],
    lookup: &mut L,
    source: &mut S,
    sink: &mut K,
    limits: Limits,
) -> Result<Copied, CopyFault>
    requires few { length types.now < 2 ^ 15 }
    requires built { AreBuilt (column_shapes types.now) }
    ensures takes { Copies (S.state source.old) (S.state source.new) result
        (λ copied. IsCopied limits (column_shapes types.now) (canonical_front (known_of copied.oids) (column_shapes types.now)) copied.rows
        (Settled (K.state sink.old) (K.state sink.new)))
        (λ fault. copy_says limits (column_shapes types.now) (AreFound (known (L.state lookup.old)) (needed_keys needs.now))
        (λ found. canonical_front (known_of found) (column_shapes types.now)) fault
        (Wrote (K.state sink.old) (K.state sink.new))) }
    ensures write_fault { result ≡ Err CopyFault.WriteFault → HasFailed (K.state sink.old) (K.state sink.new) }
    ensures oids { IfOk result (λ copied. AreFound (known (L.state lookup.old)) (needed_keys needs.now) copied.oids) }
    ensures untouched { IsErrAnd result IsLookupFault → (source.new ≡ source.old) × (sink.new ≡ sink.old) }
    ensures unknown_type { (key : _) → result ≡ Err (CopyFault.UnknownType key)
        → IsFirstUnmet (known (L.state lookup.old)) (needed_keys needs.now) (owned_key key) }
    ensures lookup_fault { result ≡ Err CopyFault.LookupFault
        → HasFailedAsked (needed_keys needs.now) (L.state lookup.old) (L.state lookup.new) }
    ensures unmet { (k : Known) (key : Key) → known (L.state lookup.old) ≡ Some k
        → first_unmet k (needed_keys needs.now) ≡ Some key
        → ¬ HasFailedAsked (needed_keys needs.now) (L.state lookup.old) (L.state lookup.new)
        → IsUnknownType result key ⊎ (result ≡ Err CopyFault.NoMemory) }
    ensures met { AreMet (known (L.state lookup.old)) (needed_keys needs.now)
        → ¬ HasFailedAsked (needed_keys needs.now) (L.state lookup.old) (L.state lookup.new)
        → IsErrAnd result IsLookupFault → ⊥ }
    ensures unasked { needed_keys needs.now ≡ [] → lookup.new ≡ lookup.old }
    ensures told { (L.state lookup.new).told ≡ (L.state lookup.old).told }
    ensures faults { (L.state lookup.old).fault_count ≤ (L.state lookup.new).fault_count }
{
    let oids = look_up_all(alloc, needs, lookup)?;
    let rows = copy_typed(alloc, types, &oids, source, sink, limits)?;
    Ok(Copied { rows, oids })
}

/// Copies a stream of rows of columns of these types, as the manual's page COPY has it under "Binary Format": at Ok the bytes
/// taken are one stream of as many rows as it answers, through the count -1 that ends it, and the bytes written are the
/// canonical stream of the same rows, under the oids that it answers. Fields behind the last column are read and ignored. The
/// types have to be of those whose cells are copied: scalar types, and nullable, array and named
/// types over one of these.
///
/// What the schema needs of named types is looked up first, in order, before anything is read: its oids are answered with the
/// number of rows. A schema without needs leaves the lookup as it is.
///
/// Faults are met in the order of the stream's bytes, behind those of the lookup. A row is refused for its fields only
/// where it is whole, column by column. The sink gets the header once the stream's header was read, and each row once all
/// its columns were found good.
///
/// | fault | cause | what was written |
/// |---|---|---|
/// | `UnknownType` | the lookup does not know this key, which is the first such, or an oid that is needed of it is 0 | nothing, and nothing was read |
/// | `LookupFault` | the lookup failed | nothing, and nothing was read |
/// | `BadHeader` | the first 19 bytes begin no stream, or state, behind good flags, a negative length of the extension | nothing |
/// | `BadFlags` | a bit of the high half of the flags is set | nothing |
/// | `Truncated` | the source ended before it had 19 bytes, whatever these are, or inside the header's extension | nothing |
/// | `Truncated` | it ended inside a row, or where a row or the end has to come | header and rows before |
/// | `BadFieldCount` | a row's count is below -1 | header and rows before |
/// | `RowLimit` | as many rows as the limit were copied, and another count is there | header and rows before |
/// | `UnexpectedEndOfRow` | a row has fewer fields than there are columns | header and rows before |
/// | `BadValue` | a field spells no value of its column's type | header and rows before |
/// | `TooLong` | a value has more canonical bytes than the limit | header and rows before |
/// | `ReadFault` | the source failed | nothing, or header and rows before |
/// | `WriteFault` | the sink failed | header and rows, and at a failed flush the end; of what was written last the end may be missing |
/// | `NoMemory` | memory was asked for and refused | nothing, or header and rows before |
///
/// Rows that stand whole in what the source shows are copied from there: those that are canonical as they stand in one piece,
/// others by way of a buffer, as many at once as have up to 32768 bytes. Any other row is held in memory as it was read, and
/// in its canonical form too where that is another. A row that is spelled otherwise is measured before its canonical form is
/// made, so that memory is asked for once, where the room that the rows before took does not suffice. Tests and not clauses
/// show that the rows which were read are written before more is read, that the sink is flushed once, behind the end, and
/// that no read is made that is not needed.
pub fn recopy<L: PgMetadataLookup, S: Source, K: Sink>(
    alloc: Global,
    schema: &Schema,
    lookup: &mut L,
    source: &mut S,
    sink: &mut K,
    limits: Limits,
) -> Result<Copied, CopyFault>
    requires built { AreBuilt (column_shapes schema.now) }

    // The bytes taken are a stream that spells as many rows as it answers, and the bytes written are their canonical
    // stream.
    ensures copied { IfOk result (λ c. Took (S.state source.old) (S.state source.new)
        (IsCopied limits (column_shapes schema.now) (canonical_front (known_of c.oids) (column_shapes schema.now)) c.rows
        (Settled (K.state sink.old) (K.state sink.new)))) }
    ensures settled { OnOk result (settled (K.state sink.new) ≡ option_map (λ _. true) (settled (K.state sink.old))) }

    // What each fault says of the bytes that were taken, and of those that were written.
    ensures fault { (fault : _) → result ≡ Err fault → Took (S.state source.old) (S.state source.new)
        (copy_says limits (column_shapes schema.now)
        (AreFound (known (L.state lookup.old)) (needs_of (column_shapes schema.now)))
        (λ found. canonical_front (known_of found) (column_shapes schema.now)) fault
        (Wrote (K.state sink.old) (K.state sink.new))) }
    ensures truncated { result ≡ Err CopyFault.Truncated → IsAtEnd (left (S.state source.new)) }
    ensures read_fault { result ≡ Err CopyFault.ReadFault → HasFailed (S.state source.old) (S.state source.new) }
    ensures write_fault { result ≡ Err CopyFault.WriteFault → HasFailed (K.state sink.old) (K.state sink.new) }

    // The needs come first: the first that the lookup does not meet is the answer, with source and sink as they were.
    ensures unknown_type { (key : _) → result ≡ Err (CopyFault.UnknownType key)
        → IsFirstUnmet (known (L.state lookup.old)) (needs_of (column_shapes schema.now)) (owned_key key) }
    ensures lookup_fault { result ≡ Err CopyFault.LookupFault
        → HasFailedAsked (needs_of (column_shapes schema.now)) (L.state lookup.old) (L.state lookup.new) }
    ensures untouched { IsErrAnd result IsLookupFault → (source.new ≡ source.old) × (sink.new ≡ sink.old) }
    ensures unmet { (k : Known) (key : Key) → known (L.state lookup.old) ≡ Some k
        → first_unmet k (needs_of (column_shapes schema.now)) ≡ Some key
        → ¬ HasFailedAsked (needs_of (column_shapes schema.now)) (L.state lookup.old) (L.state lookup.new)
        → IsUnknownType result key ⊎ (result ≡ Err CopyFault.NoMemory) }

    ensures met { AreMet (known (L.state lookup.old)) (needs_of (column_shapes schema.now))
        → ¬ HasFailedAsked (needs_of (column_shapes schema.now)) (L.state lookup.old) (L.state lookup.new)
        → IsErrAnd result IsLookupFault → ⊥ }

    // A valid stream is copied where each need is met, unless memory runs out or an object outside failed.
    ensures complete { AreMet (known (L.state lookup.old)) (needs_of (column_shapes schema.now))
        → ¬ HasFailedAsked (needs_of (column_shapes schema.now)) (L.state lookup.old) (L.state lookup.new)
        → HasFront (left (S.state source.old)) (IsValidStream limits (column_shapes schema.now))
        → ¬ HasFailed (S.state source.old) (S.state source.new)
        → ¬ HasFailed (K.state sink.old) (K.state sink.new)
        → IsOkUnless result CopyFault.NoMemory }

    // What is told to begin with no valid stream is not copied.
    ensures refused { HasNoFront (left (S.state source.old)) (IsValidStream limits (column_shapes schema.now)) → IsErr result }

    // What is left, whatever it answers.
    ensures taken { Took (S.state source.old) (S.state source.new) (λ _. ⊤) }
    ensures gained { Gains (K.state sink.old) (K.state sink.new) }

    // The oids are those that the lookup knows, one entry for each need, in order, and cover the needs. What it knows
    // stays.
    ensures oids { IfOk result (λ c.
        AreFound (known (L.state lookup.old)) (needs_of (column_shapes schema.now)) c.oids) }
    ensures covers { IfOk result (λ c. Covers c.oids (needs_of (column_shapes schema.now))) }
    ensures unasked { needs_of (column_shapes schema.now) ≡ [] → lookup.new ≡ lookup.old }
    ensures told { (L.state lookup.new).told ≡ (L.state lookup.old).told }
    ensures lookup_faults { (L.state lookup.old).fault_count ≤ (L.state lookup.new).fault_count }
{
    copy_found(
        alloc,
        schema.columns().as_slice(),
        schema.needs().as_slice(),
        lookup,
        source,
        sink,
        limits,
    )
}
