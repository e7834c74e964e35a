ghost use Rattle.std.specs.Prelude.{◌≡◌, ◌≤◌, ◌+◌, map};
ghost use Rattle.std.specs.List.{AllByRecursion};
ghost use Rattle.pgw_meta.specs.Shape.{array, range, multirange};
ghost use Rattle.pgw_meta.specs.Types.{shape};
ghost use Rattle.pgw_cell.specs.Spellings.{networks, numerics};
ghost use Rattle.pgw_cell.specs.Arrays.{array_size, frames_size};
ghost use Rattle.pgw_cell.specs.Pieces.{HasPiece, piece_size};
ghost use Rattle.pgw_cell.specs.Ranges.{HasBound, bound_size};
ghost use Rattle.pgw_cell.specs.Cells.{HasType, canonical_size};
ghost use Rattle.pgw_cell.specs.Value.{bound_in};
ghost use Rattle.pgw_cell.specs.Data.{value_of, values_of, value_of_range, bound_of};
ghost use Rattle.pgw_cell.specs.Written.{counted};

use crate::sizes::{MANY, add};
use crate::write::{bytes_of, text_of};
use crate::{BoundDatum, Datum, RangeDatum};
use pgw_meta::PgType;

fn network_size(type_byte: u8, value: &Datum) -> usize
    requires { (networks type_byte).Has (value_of value.now) }
    ensures { result ≡ (networks type_byte).size (value_of value.now) }
{
    match value {
        Datum::Network { six, .. } => { if *six { 20 } else { 8 } }
        _ => unreachable!(),
    }
}

fn numeric_size(value: &Datum) -> usize
    requires { numerics.Has (value_of value.now) }
    ensures { result ≡ numerics.size (value_of value.now) }
{
    match value {
        Datum::Numeric { digits, .. } => 8 + 2 * digits.len(),
        Datum::NotANumber => 8,
        _ => unreachable!(),
    }
}

/// How many bytes the canonical piece of a value of the type has, as they are counted. It takes no memory.
#[cycle(value_sizes)]
pub(crate) fn value_size(t: &PgType, value: &Datum) -> usize
    requires { HasPiece (shape t.now) (value_of value.now) }
    ensures { result ≡ counted (piece_size (shape t.now) (value_of value.now)) }
{
    match t {
        PgType::Bool | PgType::Char => 1,
        PgType::Int2 => 2,
        PgType::Int4 | PgType::Oid | PgType::Date => 4,
        PgType::Int8
        | PgType::Money
        | PgType::Lsn
        | PgType::Mac8
        | PgType::Time
        | PgType::Timestamp
        | PgType::Timestamptz => 8,
        PgType::Mac => 6,
        PgType::Uuid | PgType::Interval => 16,
        PgType::Text => text_of(value).len().min(MANY),
        PgType::Bytea => bytes_of(value).len().min(MANY),
        PgType::Inet => network_size(0, value).min(MANY),
        PgType::Cidr => network_size(1, value).min(MANY),
        PgType::Numeric => numeric_size(value).min(MANY),
        PgType::Nullable(part) | PgType::Named(_, part) => value_size(part, value),
        PgType::Array(element) => array_size(element, value),
        PgType::Range(part) => range_size(part, value),
        PgType::Multirange(part) => multirange_size(part, value),
        _ => unreachable!(),
    }
}

/// The same of a cell. A null is written as no bytes.
#[cycle(value_sizes)]
fn cell_size(t: &PgType, value: &Datum) -> usize
    requires { HasType (shape t.now) (value_of value.now) }
    ensures { result ≡ counted (canonical_size (shape t.now) (value_of value.now)) }
{
    match value {
        Datum::Null => 0,
        _ => value_size(t, value),
    }
}

/// The same of an array of such elements.
#[cycle(value_sizes)]
fn array_size(element: &PgType, value: &Datum) -> usize
    requires { HasPiece (array (shape element.now)) (value_of value.now) }
    ensures { result ≡ counted (piece_size (array (shape element.now)) (value_of value.now)) }
{
    match value {
        Datum::List(list) => items_size(element, list.as_slice()),
        _ => unreachable!(),
    }
}

/// How many bytes the array of these elements has.
#[cycle(value_sizes)]
pub(crate) fn items_size(element: &PgType, items: &[Datum]) -> usize
    requires { AllByRecursion (HasType (shape element.now)) (values_of items.now) }
    ensures { result ≡ counted (20 + frames_size (canonical_size (shape element.now)) (values_of items.now)) }
{
    let mut total = 20;
    for item in items {
        total = add(total, cell_size(element, item));
    }
    total
}

/// The same of a range over such a part.
#[cycle(value_sizes)]
fn range_size(part: &PgType, value: &Datum) -> usize
    requires { HasPiece (range (shape part.now)) (value_of value.now) }
    ensures { result ≡ counted (piece_size (range (shape part.now)) (value_of value.now)) }
{
    match value {
        Datum::Bounds(bounds) => bounds_size(part, bounds),
        _ => unreachable!(),
    }
}

/// How many bytes the range with these bounds has.
#[cycle(value_sizes)]
pub(crate) fn bounds_size(part: &PgType, bounds: &RangeDatum) -> usize
    requires { HasPiece (range (shape part.now)) (value_of_range bounds.now) }
    ensures { result ≡ counted (piece_size (range (shape part.now)) (value_of_range bounds.now)) }
{
    (1 + value_bound_size(part, &bounds.lower) + value_bound_size(part, &bounds.upper)).min(MANY)
}

/// How many bytes the field of a bound's value has, as they are counted.
#[cycle(value_sizes)]
fn value_bound_size(part: &PgType, bound: &BoundDatum) -> usize
    requires { HasBound (HasPiece (shape part.now)) (bound_in (bound_of bound.now)) }
    ensures value { counted result ≡ counted (bound_size (piece_size (shape part.now)) (bound_in (bound_of bound.now))) }
    ensures few { result ≤ 4294967300 }
{
    match bound {
        BoundDatum::Unbounded => 0,
        BoundDatum::Included(value) => 4 + value_size(part, value),
        BoundDatum::Excluded(value) => 4 + value_size(part, value),
    }
}

/// How many bytes the canonical piece of a multirange over such a part has, as they are counted.
#[cycle(value_sizes)]
fn multirange_size(part: &PgType, value: &Datum) -> usize
    requires { HasPiece (multirange (shape part.now)) (value_of value.now) }
    ensures { result ≡ counted (piece_size (multirange (shape part.now)) (value_of value.now)) }
{
    match value {
        Datum::Ranges(list) => ranges_size(part, list.as_slice()),
        _ => unreachable!(),
    }
}

/// How many bytes the multirange of these ranges has.
#[cycle(value_sizes)]
pub(crate) fn ranges_size(part: &PgType, ranges: &[RangeDatum]) -> usize
    requires { AllByRecursion (HasType (range (shape part.now))) (map value_of_range ranges.now) }
    ensures { result ≡ counted (4 + frames_size (canonical_size (range (shape part.now))) (map value_of_range ranges.now)) }
{
    let mut total = 4;
    for bounds in ranges {
        total = add(total, bounds_size(part, bounds));
    }
    total
}
