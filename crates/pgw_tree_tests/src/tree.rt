ghost use Rattle.std.specs.Prelude.{◌≡◌, None, IfOk};
ghost use Rattle.pgw_meta.specs.Shape.{nullable};
ghost use Rattle.pgw_meta.specs.Types.{shape, types_of, column_shapes};
ghost use Rattle.pgw_cell.specs.Built.{IsBuilt};
ghost use Rattle.pgw_tree.specs.ColumnTypes.{AreBuilt};

use pgw_meta::{
    CachedLookup, Dummy, MemoryCatalog, PgMetadataLookup, PgType, Schema, TypeKey, TypeList,
};
use pgw_tree::{CopyFault, Limits, recopy};
use pgw_wire::{Break, Failed, MemorySink, MemorySource, NoMemory, QuietSource, Sink, Source};
use std::alloc::Global;
use std::test::Fail;

/// At most so many rows, and canonical fields of at most so many bytes.
fn limits_of(rows_max: u64, field_max: u32) -> Result<Limits, Fail> {
    let Some(limits) = Limits::new(rows_max, field_max) else {
        return Err(Fail::from("limits"));
    };
    Ok(limits)
}

#[test]
fn fields_have_a_limit(rt: HostRuntime) -> Result<(), Fail> {
    let limits = limits_of(7, 2147483647)?;
    assert!(rt; (limits.rows_max(), limits.field_max()) == (7, 2147483647));
    assert!(rt; Limits::new(7, 2147483648).is_none());
    Ok(())
}

/// The type or null.
fn or_null(alloc: Global, t: PgType) -> Result<PgType, NoMemory>
    ensures { IfOk result (λ or_null. shape or_null ≡ nullable (shape t)) }
{
    Ok(PgType::Nullable(Box::new(alloc, t)?))
}

/// Appends a column.
fn add(columns: &mut TypeList, t: PgType) -> Result<(), NoMemory>
    requires columns { AreBuilt (column_shapes (types_of columns.old)) }
    requires column { IsBuilt (shape t) }
    ensures { AreBuilt (column_shapes (types_of columns.new)) }
{
    columns.push(t)
}

/// The schema of these columns.
fn schema_of(alloc: Global, columns: TypeList) -> Result<Schema, Fail>
    requires { AreBuilt (column_shapes (types_of columns)) }
    ensures { IfOk result (λ schema. AreBuilt (column_shapes schema)) }
{
    Ok(Schema::new(alloc, columns)?)
}

/// An int4, and a text or null.
fn two_columns(alloc: Global) -> Result<Schema, Fail>
    ensures { IfOk result (λ schema. AreBuilt (column_shapes schema)) }
{
    let mut columns = TypeList::new(alloc);
    add(&mut columns, PgType::Int4)?;
    add(&mut columns, or_null(alloc, PgType::Text)?)?;
    schema_of(alloc, columns)
}

/// A bool, a "char", an oid, a bytea, and an int8 or null.
fn five_columns(alloc: Global) -> Result<Schema, Fail>
    ensures { IfOk result (λ schema. AreBuilt (column_shapes schema)) }
{
    let mut columns = TypeList::new(alloc);
    add(&mut columns, PgType::Bool)?;
    add(&mut columns, PgType::Char)?;
    add(&mut columns, PgType::Oid)?;
    add(&mut columns, PgType::Bytea)?;
    add(&mut columns, or_null(alloc, PgType::Int8)?)?;
    schema_of(alloc, columns)
}

/// An int4 or null.
fn one_column(alloc: Global) -> Result<Schema, Fail>
    ensures { IfOk result (λ schema. AreBuilt (column_shapes schema)) }
{
    let mut columns = TypeList::new(alloc);
    add(&mut columns, or_null(alloc, PgType::Int4)?)?;
    schema_of(alloc, columns)
}

/// A `citext`, which is named over a text.
fn citext(alloc: Global) -> Result<PgType, NoMemory>
    ensures { IfOk result (λ t. IsBuilt (shape t)) }
{
    let key = TypeKey::new(alloc, None, "citext")?;
    Ok(PgType::Named(key, Box::new(alloc, PgType::Text)?))
}

/// A `citext`.
fn named_column(alloc: Global) -> Result<Schema, Fail>
    ensures { IfOk result (λ schema. AreBuilt (column_shapes schema)) }
{
    let mut columns = TypeList::new(alloc);
    add(&mut columns, citext(alloc)?)?;
    schema_of(alloc, columns)
}

/// An array of `citext`.
fn array_column(alloc: Global) -> Result<Schema, Fail>
    ensures { IfOk result (λ schema. AreBuilt (column_shapes schema)) }
{
    let mut columns = TypeList::new(alloc);
    add(
        &mut columns,
        PgType::Array(Box::new(alloc, citext(alloc)?)?),
    )?;
    schema_of(alloc, columns)
}

/// Copies, for the tests, and answers how many rows and how many oids: what they learn of it is what they look at.
fn copy<S: Source, K: Sink>(
    alloc: Global,
    schema: &Schema,
    source: &mut S,
    sink: &mut K,
    limits: Limits,
) -> Result<(u64, usize), CopyFault>
    requires { AreBuilt (column_shapes schema.now) }
{
    let copied = recopy(alloc, schema, &mut Dummy, source, sink, limits)?;
    Ok((copied.rows, copied.oids.len()))
}

// a row of the number 42 and a null
const STREAM: &[u8] =
    b"PGCOPY\n\xff\r\n\0\0\0\0\0\0\0\0\0\0\x02\0\0\0\x04\0\0\0\x2a\xff\xff\xff\xff\xff\xff";

#[test]
fn stream_is_copied(rt: HostRuntime) -> Result<(), Fail> {
    let alloc: Global = rt.alloc();
    let schema = two_columns(alloc)?;
    let mut source = QuietSource::new(STREAM.to_vec(alloc)?);
    let mut sink = MemorySink::new(alloc, Vec::new(alloc), Vec::new(alloc));
    let copied = copy(alloc, &schema, &mut source, &mut sink, limits_of(1, 4)?);
    assert!(rt; (copied, sink.gained()) == (Ok((1, 0)), STREAM));
    Ok(())
}

// a row of a text of two bytes, and one of two bytes that are no text
const LETTER: &[u8] = b"PGCOPY\n\xff\r\n\0\0\0\0\0\0\0\0\0\0\x01\0\0\0\x02\xc3\xa9\xff\xff";

const NO_TEXT: &[u8] = b"PGCOPY\n\xff\r\n\0\0\0\0\0\0\0\0\0\0\x01\0\0\0\x02\xc3\x28\xff\xff";

/// One row of an array with the one element `x`, of which the oid is 25, that of `text`.
const ARRAY: &[u8] = b"PGCOPY\n\xff\r\n\0\0\0\0\0\0\0\0\0\0\x01\
    \0\0\0\x19\0\0\0\x01\0\0\0\0\0\0\0\x19\0\0\0\x01\0\0\0\x01\0\0\0\x01x\xff\xff";

/// The same with the oid 16400.
const FOUND: &[u8] = b"PGCOPY\n\xff\r\n\0\0\0\0\0\0\0\0\0\0\x01\
    \0\0\0\x19\0\0\0\x01\0\0\0\0\0\0\x40\x10\0\0\0\x01\0\0\0\x01\0\0\0\x01x\xff\xff";

/// Copies that row, and answers the fault.
fn fault_of_array<L: PgMetadataLookup>(
    alloc: Global,
    lookup: &mut L,
    sink: &mut MemorySink,
) -> Result<Option<CopyFault>, Fail> {
    let schema = array_column(alloc)?;
    let mut source = QuietSource::new(ARRAY.to_vec(alloc)?);
    Ok(recopy(alloc, &schema, lookup, &mut source, sink, limits_of(1, 64)?).err())
}

// Elements of a named type have an oid that is looked up before anything is read.
#[test]
fn an_array_of_a_named_type_needs_its_oid(rt: HostRuntime) -> Result<(), Fail> {
    let alloc: Global = rt.alloc();
    let mut sink = MemorySink::new(alloc, Vec::new(alloc), Vec::new(alloc));
    let unknown = fault_of_array(alloc, &mut Dummy, &mut sink)?;
    assert!(rt; matches!(unknown, Some(CopyFault::UnknownType(_))));
    let mut catalog = MemoryCatalog::new(alloc, [0].to_vec(alloc)?);
    catalog.push_path("public")?;
    catalog.add("public", "citext", 16400, 16405)?;
    let mut lookup = CachedLookup::new(alloc, catalog);
    let failed = fault_of_array(alloc, &mut lookup, &mut sink)?;
    assert!(rt; matches!(failed, Some(CopyFault::LookupFault)));
    assert!(rt; sink.gained().is_empty());
    let fault = fault_of_array(alloc, &mut lookup, &mut sink)?;
    assert!(rt; (fault.is_none(), sink.gained()) == (true, FOUND));
    Ok(())
}

#[test]
fn column_of_a_named_type_is_copied(rt: HostRuntime) -> Result<(), Fail> {
    let alloc: Global = rt.alloc();
    let schema = named_column(alloc)?;
    let catalog = MemoryCatalog::new(alloc, Vec::new(alloc));
    let mut lookup = CachedLookup::new(alloc, catalog);
    let mut sink = MemorySink::new(alloc, Vec::new(alloc), Vec::new(alloc));
    let mut source = QuietSource::new(LETTER.to_vec(alloc)?);
    let limits = limits_of(1, 2)?;
    let copied = recopy(alloc, &schema, &mut lookup, &mut source, &mut sink, limits);
    assert!(rt; (copied.is_ok(), sink.gained()) == (true, LETTER));
    assert!(rt; lookup.catalog().searches() == 0);
    Ok(())
}

#[test]
fn named_text_is_refused_as_its_part(rt: HostRuntime) -> Result<(), Fail> {
    let alloc: Global = rt.alloc();
    let schema = named_column(alloc)?;
    let mut sink = MemorySink::new(alloc, Vec::new(alloc), Vec::new(alloc));
    let mut source = QuietSource::new(NO_TEXT.to_vec(alloc)?);
    let copied = copy(alloc, &schema, &mut source, &mut sink, limits_of(1, 2)?);
    let fault = CopyFault::BadValue {
        row: 0,
        column: 0,
        kind: Break::Utf8,
    };
    assert!(rt; (copied, sink.gained()) == (Err(fault), &LETTER[..19]));
    Ok(())
}

// Two rows: of true, written as the bytes 2 and 9, the byte "A" with another behind it, the oid 7 with a byte behind it,
// the bytes DE and AD, a null whose length is -2, and a field more; and of false, the byte 255, the greatest oid, no
// byte, and a number.
const LOOSE: &[u8] = b"PGCOPY\n\xff\r\n\0\0\0\0\0\0\0\0\0\
    \0\x06\0\0\0\x02\x02\x09\0\0\0\x02AB\0\0\0\x05\0\0\0\x07\xff\0\0\0\x02\xde\xad\xff\xff\xff\xfe\0\0\0\x01x\
    \0\x05\0\0\0\x01\0\0\0\0\x01\xff\0\0\0\x04\xff\xff\xff\xff\0\0\0\0\0\0\0\x08\x80\0\0\0\0\0\0\x01\xff\xff";

// their canonical form
const CANONICAL: &[u8] = b"PGCOPY\n\xff\r\n\0\0\0\0\0\0\0\0\0\
    \0\x05\0\0\0\x01\x01\0\0\0\x01A\0\0\0\x04\0\0\0\x07\0\0\0\x02\xde\xad\xff\xff\xff\xff\
    \0\x05\0\0\0\x01\0\0\0\0\x01\xff\0\0\0\x04\xff\xff\xff\xff\0\0\0\0\0\0\0\x08\x80\0\0\0\0\0\0\x01\xff\xff";

/// What the rows of five columns are copied as from this source, and how many rows and oids there are.
fn copy_five<S: Source>(
    alloc: Global,
    source: &mut S,
) -> Result<(Result<(u64, usize), CopyFault>, MemorySink), Fail> {
    let schema = five_columns(alloc)?;
    let mut sink = MemorySink::new(alloc, Vec::new(alloc), Vec::new(alloc));
    let copied = copy(alloc, &schema, source, &mut sink, limits_of(2, 8)?);
    Ok((copied, sink))
}

// The one source shows the rows, and of the other each is read.
#[test]
fn rows_of_several_types_are_spelled_anew(rt: HostRuntime) -> Result<(), Fail> {
    let alloc: Global = rt.alloc();
    let (copied, sink) = copy_five(alloc, &mut QuietSource::new(LOOSE.to_vec(alloc)?))?;
    assert!(rt; (copied, sink.gained()) == (Ok((2, 0)), CANONICAL));
    let mut source = MemorySource::new(LOOSE.to_vec(alloc)?, Vec::new(alloc), Vec::new(alloc));
    let (copied, sink) = copy_five(alloc, &mut source)?;
    assert!(rt; (copied, sink.gained()) == (Ok((2, 0)), CANONICAL));
    Ok(())
}

/// A sink that keeps how many bytes each write brought.
#[derive(Drop)]
struct Writes {
    lengths: Vec<usize>,
}

impl Sink for Writes {
    ghost state = { λ _. record {
      told = record { bytes = None; settled = None };
      fault_count = 18446744073709551615;
      origin = tt;
    } };

    fn write(&mut self, piece: &[u8]) -> Result<usize, Failed> {
        self.lengths.push(piece.len()).map_err(|_| Failed)?;
        Ok(piece.len())
    }

    fn flush(&mut self) -> Result<(), Failed> {
        Ok(())
    }

    fn faults(&self) -> u64 {
        u64::MAX
    }
}

// three rows as they stand, two whose null has another length, and one as it stands
const MIXED: &[u8] = b"PGCOPY\n\xff\r\n\0\0\0\0\0\0\0\0\0\
    \0\x01\0\0\0\x04\0\0\0\x2a\0\x01\xff\xff\xff\xff\0\x01\0\0\0\x04\0\0\0\x2a\
    \0\x01\xff\xff\xff\xfe\0\x01\x80\0\0\0\0\x01\0\0\0\x04\0\0\0\x2a\xff\xff";

// The pieces are the header, the three rows, the two that are spelled otherwise, the last one, and the end.
#[test]
fn rows_that_are_shown_are_written_together(rt: HostRuntime) -> Result<(), Fail> {
    let alloc: Global = rt.alloc();
    let schema = one_column(alloc)?;
    let mut source = QuietSource::new(MIXED.to_vec(alloc)?);
    let mut sink = Writes {
        lengths: Vec::new(alloc),
    };
    let copied = copy(alloc, &schema, &mut source, &mut sink, limits_of(6, 4)?);
    let lengths = sink.lengths.as_slice();
    assert!(rt; (copied, lengths) == (Ok((6, 0)), [19, 26, 12, 10, 2].as_slice()));
    Ok(())
}
