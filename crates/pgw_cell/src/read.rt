ghost use Rattle.std.specs.Prelude.{◌≡◌, ◌<◌, List, ℕ, Result, Ok, Err, IfOk, IfErr, IsTrue, MatchResult};
ghost use Rattle.std.specs.Int.{w16, w32, w64, from_be_bytes, cast_signed};
ghost use Rattle.pgw_wire.specs.Cell.{cell_of};
ghost use Rattle.pgw_wire.specs.declared.kind.Break.{Break as Kind};
ghost use Rattle.std.specs.declared.ops.Bound.{Bound};
ghost use Rattle.pgw_meta.specs.Shape.{array, range, multirange};
ghost use Rattle.pgw_meta.specs.Types.{shape};
ghost use Rattle.pgw_nested.specs.Pieces.{elements_of};
ghost use Rattle.pgw_nested.specs.RangePieces.{ranges_of};
ghost use Rattle.pgw_scalar.specs.Sized.{read_sized};
ghost use Rattle.pgw_scalar.specs.Leading.{read_bool, read_char, read_oid};
ghost use Rattle.pgw_scalar.specs.Text.{read_text};
ghost use Rattle.pgw_scalar.specs.Networks.{read_network};
ghost use Rattle.pgw_time.specs.Interval.{read_interval};
ghost use Rattle.pgw_numeric.specs.Numeric.{read_numeric};
ghost use Rattle.pgw_cell.specs.Value.{Value, truth, number, natural, string, bytes, network, interval, numeric};
ghost use Rattle.pgw_cell.specs.Built.{IsBuilt};
ghost use Rattle.pgw_cell.specs.Spellings.{read_as};
ghost use Rattle.pgw_cell.specs.Ranges.{HasBound, bound_cell, part_spelling};
ghost use Rattle.pgw_cell.specs.Pieces.{read_piece};
ghost use Rattle.pgw_cell.specs.Cells.{Spells, Breaks, read_value};
ghost use Rattle.pgw_cell.specs.Data.{value_of, data_of, values_of, value_of_range, range_values, takes_memory, AnswersBy, AnswersBound, AnswersAs};
ghost use Rattle.pgw_cell.specs.Written.{AreBytes, cell_of_bound, cells_read};

use crate::multirange::sized_multirange;
use crate::network::network_field;
use crate::piece::{Canonical, are_bytes};
use crate::range::written_range;
use crate::sizes::{is_nullable, sized_array};
use crate::{BoundDatum, ByteList, Datum, DatumList, DigitList, RangeDatum, RangeList};
use pgw_meta::deserialize::FromSql;
use pgw_meta::{NameText, PgType};
use pgw_nested::{ArrayPieces, MultirangePieces};
use pgw_numeric::PgNumeric;
use pgw_numeric::sql_types::Numeric;
use pgw_time::PgInterval;
use pgw_time::sql_types::Interval;
use pgw_wire::{Break, NoMemory as NoMemoryLeft, PgValue, RawCell, SqlError};
use std::alloc::Global;
use std::num::NonZeroU32;
use std::ops::Bound;
use thiserror::Error;

/// Why no value was read from a cell.
#[derive(Clone, Copy, Debug, PartialEq, Eq, Error)]
pub enum CellFault {
    /// The cell breaks in this kind.
    #[error(transparent)]
    Break(Break),
    /// Memory was asked for and refused.
    #[error("out of memory")]
    NoMemory,
}

impl From<NoMemoryLeft> for CellFault {
    ghost use Rattle.pgw_cell.specs.declared.read.CellFault.TheVariants.{NoMemory as no_memory};

    ghost from_gives = { λ _ e. e ≡ no_memory };

    fn from(_: NoMemoryLeft) -> CellFault {
        CellFault::NoMemory
    }
}

fn read_bool(piece: &[u8]) -> Result<bool, Break>
    ensures { result ≡ read_bool piece.now }
{
    match piece {
        [first, ..] => Ok(*first != 0),
        [] => Err(Break::Size),
    }
}

fn read_char(piece: &[u8]) -> Result<u64, Break>
    ensures { result ≡ read_char piece.now }
{
    match piece {
        [first, ..] => Ok(u64::from(*first)),
        [] => Err(Break::Size),
    }
}

fn read_int2(piece: &[u8]) -> Result<i128, Break>
    ensures { result ≡ read_sized 2 (λ q. cast_signed w16 (from_be_bytes w16 q)) piece.now }
{
    match piece.as_array::<2>() {
        Some(bytes) => Ok(i128::from(i16::from_be_bytes(*bytes))),
        None => Err(Break::Size),
    }
}

fn read_int4(piece: &[u8]) -> Result<i128, Break>
    ensures { result ≡ read_sized 4 (λ q. cast_signed w32 (from_be_bytes w32 q)) piece.now }
{
    match piece.as_array::<4>() {
        Some(bytes) => Ok(i128::from(i32::from_be_bytes(*bytes))),
        None => Err(Break::Size),
    }
}

fn read_int8(piece: &[u8]) -> Result<i128, Break>
    ensures { result ≡ read_sized 8 (λ q. cast_signed w64 (from_be_bytes w64 q)) piece.now }
{
    match piece.as_array::<8>() {
        Some(bytes) => Ok(i128::from(i64::from_be_bytes(*bytes))),
        None => Err(Break::Size),
    }
}

fn read_lsn(piece: &[u8]) -> Result<u64, Break>
    ensures { result ≡ read_sized 8 (from_be_bytes w64) piece.now }
{
    match piece.as_array::<8>() {
        Some(bytes) => Ok(u64::from_be_bytes(*bytes)),
        None => Err(Break::Size),
    }
}

fn read_oid(piece: &[u8]) -> Result<u64, Break>
    ensures { result ≡ read_oid piece.now }
{
    match piece.first_chunk::<4>() {
        Some(bytes) => Ok(u64::from(u32::from_be_bytes(*bytes))),
        None => Err(Break::Size),
    }
}

fn truth(read: Result<bool, Break>) -> Result<Datum, CellFault>
    ensures { AnswersAs result (read_as truth read) }
{
    match read {
        Ok(truth) => Ok(Datum::Truth(truth)),
        Err(kind) => Err(CellFault::Break(kind)),
    }
}

fn number(read: Result<i128, Break>) -> Result<Datum, CellFault>
    ensures { AnswersAs result (read_as number read) }
{
    match read {
        Ok(number) => Ok(Datum::Number(number)),
        Err(kind) => Err(CellFault::Break(kind)),
    }
}

fn natural(read: Result<u64, Break>) -> Result<Datum, CellFault>
    ensures { AnswersAs result (read_as natural read) }
{
    match read {
        Ok(number) => Ok(Datum::Number(i128::from(number))),
        Err(kind) => Err(CellFault::Break(kind)),
    }
}

fn read_text(alloc: Global, piece: &[u8]) -> Result<Datum, CellFault>
    ensures { AnswersAs result (read_as string (read_text piece.now)) }
{
    match str::from_utf8(piece) {
        Ok(text) => Ok(Datum::Text(NameText::from_str(alloc, text)?)),
        Err(_) => Err(CellFault::Break(Break::Utf8)),
    }
}

fn read_bytes(alloc: Global, piece: &[u8]) -> Result<Datum, CellFault>
    ensures { AnswersAs result (Ok (bytes piece.now)) }
{
    Ok(Datum::Bytes(ByteList::from_slice(alloc, piece)?))
}

fn read_sized(alloc: Global, size: usize, piece: &[u8]) -> Result<Datum, CellFault>
    ensures { AnswersAs result (read_as bytes (read_sized size (λ q. q) piece.now)) }
{
    if piece.len() == size {
        read_bytes(alloc, piece)
    } else {
        Err(CellFault::Break(Break::Size))
    }
}

fn read_network(alloc: Global, type_byte: u8, piece: &[u8]) -> Result<Datum, CellFault>
    ensures { AnswersAs result (read_as network (read_network type_byte piece.now)) }
{
    match network_field(type_byte, piece) {
        Ok(field) => Ok(Datum::Network {
            six: field.six,
            prefix: field.prefix,
            address: ByteList::from_slice(alloc, field.address)?,
        }),
        Err(kind) => Err(CellFault::Break(kind)),
    }
}

/// The piece for a codec that does not look at the type of the field.
fn value_of_piece(piece: &[u8]) -> PgValue<'_>
    ensures { result.raw_value.now ≡ piece.now }
{
    PgValue::new(piece, NonZeroU32::MIN)
}

fn read_interval(alloc: Global, piece: &[u8]) -> Result<Datum, CellFault>
    ensures { AnswersAs result (read_as interval (read_interval piece.now)) }
{
    match <PgInterval as FromSql<Interval>>::from_sql(alloc, value_of_piece(piece)) {
        Ok(value) => Ok(Datum::Interval {
            microseconds: value.microseconds,
            days: value.days,
            months: value.months,
        }),
        Err(_) => Err(CellFault::Break(Break::Size)),
    }
}

fn read_numeric(alloc: Global, piece: &[u8]) -> Result<Datum, CellFault>
    ensures { AnswersAs result (read_as numeric (read_numeric piece.now)) }
{
    match <PgNumeric as FromSql<Numeric>>::from_sql(alloc, value_of_piece(piece)) {
        Ok(
            PgNumeric::Positive {
                weight,
                scale,
                digits,
            },
        ) => Ok(Datum::Numeric {
            negative: false,
            weight,
            scale,
            digits: DigitList::from_vec(digits),
        }),
        Ok(
            PgNumeric::Negative {
                weight,
                scale,
                digits,
            },
        ) => Ok(Datum::Numeric {
            negative: true,
            weight,
            scale,
            digits: DigitList::from_vec(digits),
        }),
        Ok(PgNumeric::NaN) => Ok(Datum::NotANumber),
        Err(SqlError::NoMemory) => Err(CellFault::NoMemory),
        Err(SqlError::InvalidSign(_)) => Err(CellFault::Break(Break::Sign)),
        Err(_) => Err(CellFault::Break(Break::Size)),
    }
}

/// The value in memory of its own.
fn boxed(alloc: Global, value: Datum) -> Result<Box<Datum>, CellFault>
    ensures ok { IfOk result (λ boxed. boxed.value ≡ value) }
    ensures err { IfErr result (λ fault. fault ≡ CellFault.NoMemory) }
{
    match Box::new(alloc, value) {
        Ok(boxed) => Ok(boxed),
        Err(_) => Err(CellFault::NoMemory),
    }
}

/// The range with these bounds.
fn bounds(read: Result<RangeDatum, CellFault>) -> Result<Datum, CellFault>
    ensures { (r : Result Value Kind) → AnswersBy value_of_range read r → AnswersAs result r }
{
    match read {
        Ok(range) => Ok(Datum::Bounds(range)),
        Err(fault) => Err(fault),
    }
}

#[cycle(reading)]
fn read_piece(alloc: Global, t: &PgType, piece: &[u8]) -> Result<Datum, CellFault>
    ensures { AnswersAs result (read_piece (shape t.now) piece.now) }
{
    match t {
        PgType::Bool => truth(read_bool(piece)),
        PgType::Char => natural(read_char(piece)),
        PgType::Int2 => number(read_int2(piece)),
        PgType::Int4 => number(read_int4(piece)),
        PgType::Int8 => number(read_int8(piece)),
        PgType::Oid => natural(read_oid(piece)),
        PgType::Text => read_text(alloc, piece),
        PgType::Bytea => read_bytes(alloc, piece),
        PgType::Uuid => read_sized(alloc, 16, piece),
        PgType::Money => number(read_int8(piece)),
        PgType::Lsn => natural(read_lsn(piece)),
        PgType::Mac => read_sized(alloc, 6, piece),
        PgType::Mac8 => read_sized(alloc, 8, piece),
        PgType::Inet => read_network(alloc, 0, piece),
        PgType::Cidr => read_network(alloc, 1, piece),
        PgType::Date => number(read_int4(piece)),
        PgType::Time | PgType::Timestamp | PgType::Timestamptz => number(read_int8(piece)),
        PgType::Interval => read_interval(alloc, piece),
        PgType::Numeric => read_numeric(alloc, piece),
        PgType::Nullable(part) | PgType::Named(_, part) => read_piece(alloc, part, piece),
        PgType::Array(element) => read_array(alloc, element, piece),
        PgType::Range(part) => bounds(read_range(alloc, part, piece)),
        PgType::Multirange(part) => read_multirange(alloc, part, piece),
        _ => Err(CellFault::Break(Break::Size)),
    }
}

/// The array that the piece spells. The piece is walked over first, so that memory is asked for only where each element
/// spells a value.
#[cycle(reading)]
fn read_array(alloc: Global, element: &PgType, piece: &[u8]) -> Result<Datum, CellFault>
    ensures { AnswersAs result (read_piece (array (shape element.now)) piece.now) }
{
    if let Err(kind) = sized_array(element, piece) {
        return Err(CellFault::Break(kind));
    }
    match ArrayPieces::new(piece) {
        Ok(pieces) => {
            let list = read_elements(alloc, element, pieces)?;
            Ok(Datum::List(list))
        }
        Err(_) => unreachable!(),
    }
}

/// The elements of an array, of which each spells a value.
#[cycle(reading)]
fn read_elements(
    alloc: Global,
    element: &PgType,
    pieces: ArrayPieces<'_>,
) -> Result<DatumList, CellFault>
    requires { (x : List Value × List ℕ) × (cells_read (shape element.now) (elements_of pieces) ≡ Ok x) }
    ensures ok { IfOk result (λ list. (rest : List ℕ) × (cells_read (shape element.now) (elements_of pieces.entry)
        ≡ Ok (values_of (data_of list), rest))) }
    ensures err { IfErr result (λ fault. (fault ≡ CellFault.NoMemory) × (0 < (elements_of pieces.entry).left)) }
{
    let mut pieces = pieces;
    let mut list = DatumList::new(alloc);
    loop {
        match pieces.next_piece() {
            Ok(Some(cell)) => {
                let item = read(alloc, element, cell)?;
                list.push(item)?;
            }
            Ok(None) => return Ok(list),
            Err(_) => unreachable!(),
        }
    }
}

/// The range over such a part that the piece spells. The piece is walked over first, so that memory is asked for only
/// where it spells one.
#[cycle(reading)]
fn read_range(alloc: Global, part: &PgType, piece: &[u8]) -> Result<RangeDatum, CellFault>
    ensures { AnswersBy value_of_range result (read_piece (range (shape part.now)) piece.now) }
{
    match written_range(part, piece) {
        Ok(range) => {
            let lower = read_bound(alloc, part, range.lower)?;
            let upper = read_bound(alloc, part, range.upper)?;
            Ok(RangeDatum { lower, upper })
        }
        Err(kind) => Err(CellFault::Break(kind)),
    }
}

/// The bound whose value is written so.
#[cycle(reading)]
fn read_bound(
    alloc: Global,
    part: &PgType,
    bound: Bound<Canonical<'_>>,
) -> Result<BoundDatum, CellFault>
    ensures { (b : Bound Value) → HasBound (part_spelling (shape part.now)).Has b
        → cell_of_bound bound.entry ≡ bound_cell (part_spelling (shape part.now)).canonical b → AnswersBound b result }
{
    match bound {
        Bound::Unbounded => Ok(BoundDatum::Unbounded),
        Bound::Included(value) => {
            let value = read_piece(alloc, part, value.bytes())?;
            Ok(BoundDatum::Included(boxed(alloc, value)?))
        }
        Bound::Excluded(value) => {
            let value = read_piece(alloc, part, value.bytes())?;
            Ok(BoundDatum::Excluded(boxed(alloc, value)?))
        }
    }
}

/// The multirange over such a part that the piece spells. As an array, the piece is walked over first.
#[cycle(reading)]
fn read_multirange(alloc: Global, part: &PgType, piece: &[u8]) -> Result<Datum, CellFault>
    ensures { AnswersAs result (read_piece (multirange (shape part.now)) piece.now) }
{
    if let Err(kind) = sized_multirange(part, piece) {
        return Err(CellFault::Break(kind));
    }
    match MultirangePieces::new(piece) {
        Ok(pieces) => {
            let list = read_ranges(alloc, part, pieces)?;
            Ok(Datum::Ranges(list))
        }
        Err(_) => unreachable!(),
    }
}

/// The ranges of a multirange, of which each is spelled.
#[cycle(reading)]
fn read_ranges(
    alloc: Global,
    part: &PgType,
    pieces: MultirangePieces<'_>,
) -> Result<RangeList, CellFault>
    requires { (x : List Value × List ℕ) × (cells_read (range (shape part.now)) (ranges_of pieces) ≡ Ok x) }
    ensures ok { IfOk result (λ list. (rest : List ℕ) × (cells_read (range (shape part.now)) (ranges_of pieces.entry)
        ≡ Ok (range_values list, rest))) }
    ensures err { IfErr result (λ fault. (fault ≡ CellFault.NoMemory) × (0 < (ranges_of pieces.entry).left)) }
{
    let mut pieces = pieces;
    let mut list = RangeList::new(alloc);
    loop {
        match pieces.next_piece() {
            Ok(Some(piece)) => {
                let item = read_range(alloc, part, piece)?;
                list.push(item)?;
            }
            Ok(None) => return Ok(list),
            Err(_) => unreachable!(),
        }
    }
}

#[cycle(reading)]
fn read(alloc: Global, t: &PgType, cell: RawCell<'_>) -> Result<Datum, CellFault>
    ensures value { AnswersAs result (read_value (shape t.now) (cell_of cell.entry)) }
    ensures bytes { AreBytes (cell_of cell.entry) }
{
    match cell {
        RawCell::Null => {
            if is_nullable(t) {
                Ok(Datum::Null)
            } else {
                Err(CellFault::Break(Break::Null))
            }
        }
        RawCell::Piece(piece) => {
            are_bytes(piece);
            read_piece(alloc, t, piece)
        }
    }
}

/// The value that the cell spells. `Break` exactly where the cell breaks in this kind. `NoMemory` only where it spells
/// a value that takes memory: a text, bytes, a network, a numeric that is a number, an array with elements, a range with a
/// bound that has a value, or a multirange with ranges. So a cell that holds an array, a range or a multirange is walked
/// over once before any memory is asked for, and none is asked for by the count that it states.
pub fn read_cell(alloc: Global, t: &PgType, cell: RawCell<'_>) -> Result<Datum, CellFault>
    requires { IsBuilt (shape t.now) }
    ensures ok { IfOk result (λ value. Spells (shape t.now) (cell_of cell.entry) (value_of value)) }
    ensures spells { (v : Value) → Spells (shape t.now) (cell_of cell.entry) v
        → MatchResult result (λ value. value_of value ≡ v) (λ fault. fault ≡ CellFault.NoMemory) }
    ensures broken { (kind : Kind) → result ≡ Err (CellFault.Break kind)
        → Breaks (shape t.now) kind (cell_of cell.entry) }
    ensures breaks { (kind : Kind) → Breaks (shape t.now) kind (cell_of cell.entry)
        → result ≡ Err (CellFault.Break kind) }
    ensures memory { result ≡ Err CellFault.NoMemory → (v : Value) × Spells (shape t.now) (cell_of cell.entry) v
        × IsTrue (takes_memory v) }
{
    read(alloc, t, cell)
}
