ghost use Rattle.std.specs.Prelude.{◌≡◌, ◌↔◌, ◌<◌, ◌≤◌, ◌^◌, ◌+◌, ◌*◌, ◌++◌, ℕ, ℤ, Bool, List, length, map, None, Some, Err, IsOk, OnOk, OnErr};
ghost use Rattle.pgw_wire.specs.Cell.{frame};
ghost use Rattle.std.specs.List.{AllByRecursion};
ghost use Rattle.pgw_meta.specs.NamedOids.{known_of, oids_of};
ghost use Rattle.pgw_meta.specs.Shape.{array, range, multirange};
ghost use Rattle.pgw_nested.specs.Array.{is_null, any_null, array_bytes};
ghost use Rattle.pgw_nested.specs.Frames.{frames};
ghost use Rattle.pgw_nested.specs.Multirange.{multirange_bytes};
ghost use Rattle.pgw_nested.specs.RangeWritten.{bound_of_kind};
ghost use Rattle.pgw_cell.specs.Nulls.{unless_null};
ghost use Rattle.pgw_meta.specs.Types.{shape};
ghost use Rattle.pgw_time.specs.Interval.{Interval, interval_bytes};
ghost use Rattle.pgw_numeric.specs.Numeric.{number_sign, header_bytes, digit_bytes, field_bytes};
ghost use Rattle.pgw_numeric.specs.Field.{bytes_of_header};
ghost use Rattle.pgw_cell.specs.Value.{truth, number, bytes, string, interval, bound_in};
ghost use Rattle.pgw_cell.specs.Spellings.{networks, numerics, bytes_of_interval};
ghost use Rattle.pgw_cell.specs.Pieces.{HasPiece, canonical_piece};
ghost use Rattle.pgw_cell.specs.Cells.{HasType, Fits, canonical_cell};
ghost use Rattle.pgw_cell.specs.Ranges.{HasBound};
ghost use Rattle.pgw_cell.specs.Data.{value_of, values_of, value_of_range, bound_of};
ghost use Rattle.pgw_cell.specs.Written.{kind_of_bound, written_bound};
ghost use Rattle.pgw_cell.specs.Wrote.{Wrote, Began};

use crate::piece::NOT_A_NUMBER;
use crate::rewrite::{NULL, either, say_nulls};
use crate::value_sizes::{bounds_size, items_size, ranges_size};
use crate::{BoundDatum, Datum, RangeDatum};
use pgw_meta::{FoundOids, PgType, oid_of};
use pgw_nested::{BoundKind, place_array, place_range};
use pgw_numeric::field::{Header, Sign};
use pgw_wire::{ByteBuffer, NoMemory as NoMemoryLeft};
use thiserror::Error;

/// Why a value was not written.
#[derive(Clone, Copy, Debug, PartialEq, Eq, Error)]
pub enum WriteCellFault {
    /// Its canonical bytes are more than a field may have.
    #[error("too long")]
    TooLong,
    /// Memory was asked for and refused.
    #[error("out of memory")]
    NoMemory,
}

impl From<NoMemoryLeft> for WriteCellFault {
    ghost use Rattle.pgw_cell.specs.declared.write.WriteCellFault.TheVariants.{NoMemory as no_memory};

    ghost from_gives = { λ _ e. e ≡ no_memory };

    fn from(_: NoMemoryLeft) -> WriteCellFault {
        WriteCellFault::NoMemory
    }
}

fn truth_of(value: &Datum) -> bool
    requires { (b : Bool) × (value_of value.now ≡ truth b) }
    ensures { value_of value.now ≡ truth result }
{
    match value {
        Datum::Truth(truth) => *truth,
        _ => unreachable!(),
    }
}

fn number_of(value: &Datum) -> i128
    requires { (n : ℤ) × (value_of value.now ≡ number n) }
    ensures { value_of value.now ≡ number result }
{
    match value {
        Datum::Number(number) => *number,
        _ => unreachable!(),
    }
}

pub(crate) fn bytes_of(value: &Datum) -> &[u8]
    requires { (b : List ℕ) × (value_of value.now ≡ bytes b) }
    ensures { value_of value.now ≡ bytes result.now }
{
    match value {
        Datum::Bytes(bytes) => bytes.as_slice(),
        _ => unreachable!(),
    }
}

pub(crate) fn text_of(value: &Datum) -> &[u8]
    requires { (s : List ℕ) × (value_of value.now ≡ string s) }
    ensures { value_of value.now ≡ string result.now }
{
    match value {
        Datum::Text(text) => text.as_str().as_bytes(),
        _ => unreachable!(),
    }
}

/// Appends the length of a piece, and makes room for its bytes.
fn begin_field(size: usize, field_max: u32, out: &mut ByteBuffer) -> Result<(), WriteCellFault>
    requires { field_max ≤ 2147483647 }
    ensures { Began field_max size result out.old out.new }
{
    if size > field_max as usize {
        return Err(WriteCellFault::TooLong);
    }
    out.reserve(4 + size)?;
    out.push_reserved(&(size as u32).to_be_bytes());
    Ok(())
}

/// Appends the length and the bytes of a piece, both or none.
fn write_field(piece: &[u8], field_max: u32, out: &mut ByteBuffer) -> Result<(), WriteCellFault>
    requires { field_max ≤ 2147483647 }
    ensures { Wrote field_max (Some piece.now) result out.old out.new }
{
    begin_field(piece.len(), field_max, out)?;
    out.push_reserved(piece);
    Ok(())
}

fn write_network(
    type_byte: u8,
    value: &Datum,
    field_max: u32,
    out: &mut ByteBuffer,
) -> Result<(), WriteCellFault>
    requires has { (networks type_byte).Has (value_of value.now) }
    requires max { field_max ≤ 2147483647 }
    ensures { Wrote field_max (Some ((networks type_byte).canonical (value_of value.now))) result out.old out.new }
{
    match value {
        Datum::Network {
            six,
            prefix,
            address,
        } => {
            let (family, size) = if *six { (3, 16) } else { (2, 4) };
            begin_field(4 + address.len(), field_max, out)?;
            out.push_reserved(&[family, *prefix, type_byte, size]);
            out.push_reserved(address.as_slice());
            Ok(())
        }
        _ => unreachable!(),
    }
}

/// The bytes of the three numbers of an interval.
fn interval_bytes(value: &Datum) -> [u8; 16]
    requires { (x : Interval) × (value_of value.now ≡ interval x) }
    ensures { result ≡ bytes_of_interval interval_bytes (value_of value.now) }
{
    match value {
        Datum::Interval {
            microseconds,
            days,
            months,
        } => {
            let [a, b, c, d, e, f, g, h] = microseconds.to_be_bytes();
            let [i, j, k, l] = days.to_be_bytes();
            let [m, n, o, p] = months.to_be_bytes();
            [a, b, c, d, e, f, g, h, i, j, k, l, m, n, o, p]
        }
        _ => unreachable!(),
    }
}

/// Appends the digits into the room that was made for them.
fn push_digits(digits: &[i16], out: &mut ByteBuffer)
    requires { 2 * length digits.now ≤ out.old.spare }
    ensures bytes { out.new.bytes ≡ out.old.bytes ++ digit_bytes digits.now }
    ensures spare { out.new.spare + 2 * length digits.now ≡ out.old.spare }
{
    for digit in digits {
        out.push_reserved(&digit.to_be_bytes());
    }
}

/// What stands in front of the digits of a number.
fn header(negative: bool, weight: i16, scale: u16, digits: &[i16]) -> Header
    requires { length digits.now < 2 ^ 16 }
    ensures bytes { bytes_of_header result ≡ header_bytes (length digits.now) weight (number_sign negative) scale }
    ensures count { result.count ≡ length digits.now }
{
    let sign = if negative {
        Sign::Negative
    } else {
        Sign::Positive
    };
    Header {
        count: digits.len() as u16,
        weight,
        sign: sign.word(),
        scale,
    }
}

/// Appends the field of a number.
fn write_number(
    negative: bool,
    weight: i16,
    scale: u16,
    digits: &[i16],
    field_max: u32,
    out: &mut ByteBuffer,
) -> Result<(), WriteCellFault>
    requires few { length digits.now < 2 ^ 16 }
    requires max { field_max ≤ 2147483647 }
    ensures { Wrote field_max (Some (field_bytes weight (number_sign negative) scale digits.now)) result
        out.old out.new }
{
    let header = header(negative, weight, scale, digits);
    begin_field(header.size(), field_max, out)?;
    out.push_reserved(&header.to_bytes());
    push_digits(digits, out);
    Ok(())
}

fn write_numeric(value: &Datum, field_max: u32, out: &mut ByteBuffer) -> Result<(), WriteCellFault>
    requires has { numerics.Has (value_of value.now) }
    requires max { field_max ≤ 2147483647 }
    ensures { Wrote field_max (Some (numerics.canonical (value_of value.now))) result out.old out.new }
{
    match value {
        Datum::Numeric {
            negative,
            weight,
            scale,
            digits,
        } => write_number(
            *negative,
            *weight,
            *scale,
            digits.as_slice(),
            field_max,
            out,
        ),
        Datum::NotANumber => write_field(&NOT_A_NUMBER, field_max, out),
        _ => unreachable!(),
    }
}

#[cycle(writing)]
fn write_piece(
    t: &PgType,
    value: &Datum,
    found: &FoundOids,
    field_max: u32,
    out: &mut ByteBuffer,
) -> Result<(), WriteCellFault>
    requires has { HasPiece (shape t.now) (value_of value.now) }
    requires max { field_max ≤ 2147483647 }
    ensures { Wrote field_max (Some (canonical_piece (known_of found.now) (shape t.now) (value_of value.now))) result out.old out.new }
{
    match t {
        PgType::Bool => write_field(&[u8::from(truth_of(value))], field_max, out),
        PgType::Char => write_field(&[number_of(value) as u8], field_max, out),
        PgType::Int2 => write_field(&(number_of(value) as i16).to_be_bytes(), field_max, out),
        PgType::Int4 => write_field(&(number_of(value) as i32).to_be_bytes(), field_max, out),
        PgType::Int8 => write_field(&(number_of(value) as i64).to_be_bytes(), field_max, out),
        PgType::Oid => write_field(&(number_of(value) as u32).to_be_bytes(), field_max, out),
        PgType::Text => write_field(text_of(value), field_max, out),
        PgType::Bytea => write_field(bytes_of(value), field_max, out),
        PgType::Uuid => write_field(bytes_of(value), field_max, out),
        PgType::Money => write_field(&(number_of(value) as i64).to_be_bytes(), field_max, out),
        PgType::Lsn => write_field(&(number_of(value) as u64).to_be_bytes(), field_max, out),
        PgType::Mac => write_field(bytes_of(value), field_max, out),
        PgType::Mac8 => write_field(bytes_of(value), field_max, out),
        PgType::Inet => write_network(0, value, field_max, out),
        PgType::Cidr => write_network(1, value, field_max, out),
        PgType::Date => write_field(&(number_of(value) as i32).to_be_bytes(), field_max, out),
        PgType::Time | PgType::Timestamp | PgType::Timestamptz => {
            write_field(&(number_of(value) as i64).to_be_bytes(), field_max, out)
        }
        PgType::Interval => write_field(&interval_bytes(value), field_max, out),
        PgType::Numeric => write_numeric(value, field_max, out),
        PgType::Nullable(part) | PgType::Named(_, part) => write_piece(
            part, value, found, field_max, out,
        ),
        PgType::Array(element) => write_array(element, value, found, field_max, out),
        PgType::Range(part) => write_range(part, value, found, field_max, out),
        PgType::Multirange(part) => write_multirange(part, value, found, field_max, out),
        _ => unreachable!(),
    }
}

/// Whether the value is null.
fn is_null(value: &Datum) -> bool
    ensures { (piece : List ℕ) → result ≡ is_null (unless_null (value_of value.now) piece) }
{
    matches!(value, Datum::Null)
}

/// Appends the field of an array of such elements.
#[cycle(writing)]
fn write_array(
    element: &PgType,
    value: &Datum,
    found: &FoundOids,
    field_max: u32,
    out: &mut ByteBuffer,
) -> Result<(), WriteCellFault>
    requires has { HasPiece (array (shape element.now)) (value_of value.now) }
    requires max { field_max ≤ 2147483647 }
    ensures { Wrote field_max (Some (canonical_piece (known_of found.now) (array (shape element.now)) (value_of value.now)))
        result out.old out.new }
{
    match value {
        Datum::List(list) => write_list(element, list.as_slice(), found, field_max, out),
        _ => unreachable!(),
    }
}

/// Appends the field of the array of these elements. Its size is known before, so that memory is asked for once.
#[cycle(writing)]
fn write_list(
    element: &PgType,
    items: &[Datum],
    found: &FoundOids,
    field_max: u32,
    out: &mut ByteBuffer,
) -> Result<(), WriteCellFault>
    requires has { AllByRecursion (HasType (shape element.now)) (values_of items.now) }
    requires max { field_max ≤ 2147483647 }
    ensures { Wrote field_max (Some (array_bytes (oids_of (known_of found.now) (shape element.now)).oid
        (map (canonical_cell (known_of found.now) (shape element.now)) (values_of items.now)))) result out.old out.new }
{
    begin_field(items_size(element, items), field_max, out)?;
    let flags = place_array(out, oid_of(found, element), items.len() as u32);
    let null = write_items(element, items, found, out);
    say_nulls(out, flags, null);
    Ok(())
}

/// Appends the fields of the elements of an array into the room that was made for them, and answers whether one is a
/// null.
#[cycle(writing)]
fn write_items(element: &PgType, items: &[Datum], found: &FoundOids, out: &mut ByteBuffer) -> bool
    requires has { AllByRecursion (HasType (shape element.now)) (values_of items.now) }
    requires room { length (frames (map (canonical_cell (known_of found.now) (shape element.now)) (values_of items.now)))
        ≤ out.old.spare }
    requires small { length (frames (map (canonical_cell (known_of found.now) (shape element.now)) (values_of items.now)))
        ≤ 2147483647 }
    ensures bytes { out.new.bytes ≡ out.old.bytes
        ++ frames (map (canonical_cell (known_of found.now) (shape element.now)) (values_of items.now)) }
    ensures spare { out.old.spare ≤ out.new.spare
        + length (frames (map (canonical_cell (known_of found.now) (shape element.now)) (values_of items.now))) }
    ensures null { result ≡ any_null (map (canonical_cell (known_of found.now) (shape element.now)) (values_of items.now)) }
{
    let mut null = false;
    for item in items {
        null = either(null, is_null(item));
        match write(element, item, found, 2147483647, out) {
            Ok(()) => {}
            Err(_) => unreachable!(),
        }
    }
    null
}

/// Appends the field of a range over such a part.
#[cycle(writing)]
fn write_range(
    part: &PgType,
    value: &Datum,
    found: &FoundOids,
    field_max: u32,
    out: &mut ByteBuffer,
) -> Result<(), WriteCellFault>
    requires has { HasPiece (range (shape part.now)) (value_of value.now) }
    requires max { field_max ≤ 2147483647 }
    ensures { Wrote field_max (Some (canonical_piece (known_of found.now) (range (shape part.now)) (value_of value.now)))
        result out.old out.new }
{
    match value {
        Datum::Bounds(bounds) => write_bounds(part, bounds, found, field_max, out),
        _ => unreachable!(),
    }
}

/// Of what kind a bound is.
fn kind_of(bound: &BoundDatum) -> BoundKind
    ensures { bound_of_kind result ≡ kind_of_bound (bound_in (bound_of bound.now)) }
{
    match bound {
        BoundDatum::Unbounded => BoundKind::Unbounded,
        BoundDatum::Included(_) => BoundKind::Included,
        BoundDatum::Excluded(_) => BoundKind::Excluded,
    }
}

/// Appends the field of the range with these bounds. Its size is known before, so that memory is asked for once.
#[cycle(writing)]
fn write_bounds(
    part: &PgType,
    bounds: &RangeDatum,
    found: &FoundOids,
    field_max: u32,
    out: &mut ByteBuffer,
) -> Result<(), WriteCellFault>
    requires has { HasPiece (range (shape part.now)) (value_of_range bounds.now) }
    requires max { field_max ≤ 2147483647 }
    ensures { Wrote field_max (Some (canonical_piece (known_of found.now) (range (shape part.now)) (value_of_range bounds.now)))
        result out.old out.new }
{
    begin_field(bounds_size(part, bounds), field_max, out)?;
    place_range(out, kind_of(&bounds.lower), kind_of(&bounds.upper));
    write_bound(part, &bounds.lower, found, out);
    write_bound(part, &bounds.upper, found, out);
    Ok(())
}

/// Appends the field of a bound's value into the room that was made for it, and nothing where it has none.
#[cycle(writing)]
fn write_bound(part: &PgType, bound: &BoundDatum, found: &FoundOids, out: &mut ByteBuffer)
    requires has { HasBound (HasPiece (shape part.now)) (bound_in (bound_of bound.now)) }
    requires room { length (written_bound (known_of found.now) (shape part.now) (bound_of bound.now)) ≤ out.old.spare }
    requires small { length (written_bound (known_of found.now) (shape part.now) (bound_of bound.now)) ≤ 2147483647 }
    ensures bytes { out.new.bytes ≡ out.old.bytes ++ written_bound (known_of found.now) (shape part.now) (bound_of bound.now) }
    ensures spare { out.old.spare
        ≤ out.new.spare + length (written_bound (known_of found.now) (shape part.now) (bound_of bound.now)) }
{
    match bound {
        BoundDatum::Unbounded => {}
        BoundDatum::Included(value) => write_whole(part, value, found, out),
        BoundDatum::Excluded(value) => write_whole(part, value, found, out),
    }
}

/// Appends the field of a value that is not null into the room that was made for it.
#[cycle(writing)]
fn write_whole(t: &PgType, value: &Datum, found: &FoundOids, out: &mut ByteBuffer)
    requires has { HasPiece (shape t.now) (value_of value.now) }
    requires room { length (frame (Some (canonical_piece (known_of found.now) (shape t.now) (value_of value.now))))
        ≤ out.old.spare }
    requires small { length (frame (Some (canonical_piece (known_of found.now) (shape t.now) (value_of value.now))))
        ≤ 2147483647 }
    ensures bytes { out.new.bytes ≡ out.old.bytes
        ++ frame (Some (canonical_piece (known_of found.now) (shape t.now) (value_of value.now))) }
    ensures spare { out.old.spare ≤ out.new.spare
        + length (frame (Some (canonical_piece (known_of found.now) (shape t.now) (value_of value.now)))) }
{
    match write_piece(t, value, found, 2147483647, out) {
        Ok(()) => {}
        Err(_) => unreachable!(),
    }
}

/// Appends the field of a multirange over such a part.
#[cycle(writing)]
fn write_multirange(
    part: &PgType,
    value: &Datum,
    found: &FoundOids,
    field_max: u32,
    out: &mut ByteBuffer,
) -> Result<(), WriteCellFault>
    requires has { HasPiece (multirange (shape part.now)) (value_of value.now) }
    requires max { field_max ≤ 2147483647 }
    ensures { Wrote field_max (Some (canonical_piece (known_of found.now) (multirange (shape part.now)) (value_of value.now)))
        result out.old out.new }
{
    match value {
        Datum::Ranges(list) => write_ranges(part, list.as_slice(), found, field_max, out),
        _ => unreachable!(),
    }
}

/// Appends the field of the multirange of these ranges. Its size is known before, so that memory is asked for once.
#[cycle(writing)]
fn write_ranges(
    part: &PgType,
    ranges: &[RangeDatum],
    found: &FoundOids,
    field_max: u32,
    out: &mut ByteBuffer,
) -> Result<(), WriteCellFault>
    requires has { AllByRecursion (HasType (range (shape part.now))) (map value_of_range ranges.now) }
    requires max { field_max ≤ 2147483647 }
    ensures { Wrote field_max (Some (multirange_bytes
        (map (canonical_cell (known_of found.now) (range (shape part.now))) (map value_of_range ranges.now))))
        result out.old out.new }
{
    begin_field(ranges_size(part, ranges), field_max, out)?;
    out.push_reserved(&(ranges.len() as u32).to_be_bytes());
    write_each_range(part, ranges, found, out);
    Ok(())
}

/// Appends the fields of the ranges of a multirange into the room that was made for them.
#[cycle(writing)]
fn write_each_range(part: &PgType, ranges: &[RangeDatum], found: &FoundOids, out: &mut ByteBuffer)
    requires has { AllByRecursion (HasType (range (shape part.now))) (map value_of_range ranges.now) }
    requires room { length (frames (map (canonical_cell (known_of found.now) (range (shape part.now)))
        (map value_of_range ranges.now))) ≤ out.old.spare }
    requires small { length (frames (map (canonical_cell (known_of found.now) (range (shape part.now)))
        (map value_of_range ranges.now))) ≤ 2147483647 }
    ensures bytes { out.new.bytes ≡ out.old.bytes ++ frames (map (canonical_cell (known_of found.now)
        (range (shape part.now))) (map value_of_range ranges.now)) }
    ensures spare { out.old.spare ≤ out.new.spare + length (frames (map (canonical_cell (known_of found.now)
        (range (shape part.now))) (map value_of_range ranges.now))) }
{
    for bounds in ranges {
        match write_bounds(part, bounds, found, 2147483647, out) {
            Ok(()) => {}
            Err(_) => unreachable!(),
        }
    }
}

fn write_null(field_max: u32, out: &mut ByteBuffer) -> Result<(), WriteCellFault>
    ensures { Wrote field_max None result out.old out.new }
{
    out.push_all(&NULL)?;
    Ok(())
}

#[cycle(writing)]
fn write(
    t: &PgType,
    value: &Datum,
    found: &FoundOids,
    field_max: u32,
    out: &mut ByteBuffer,
) -> Result<(), WriteCellFault>
    requires has { HasType (shape t.now) (value_of value.now) }
    requires max { field_max ≤ 2147483647 }
    ensures { Wrote field_max (canonical_cell (known_of found.now) (shape t.now) (value_of value.now)) result out.old out.new }
{
    match value {
        Datum::Null => write_null(field_max, out),
        _ => write_piece(t, value, found, field_max, out),
    }
}

/// Appends the canonical field of a value of the type: the length of its bytes, and those. `TooLong` exactly where they
/// are more than `field_max`, and `NoMemory` only where they are not; after either the bytes of the buffer are as
/// before. Where the field fits the spare of the buffer it takes no memory. The oids of named types, which fields of
/// other types hold, are those of `found`.
pub fn write_cell(
    t: &PgType,
    value: &Datum,
    found: &FoundOids,
    field_max: u32,
    out: &mut ByteBuffer,
) -> Result<(), WriteCellFault>
    requires has { HasType (shape t.now) (value_of value.now) }
    requires max { field_max ≤ 2147483647 }
    ensures ok { OnOk result (out.new.bytes ≡ out.old.bytes
        ++ frame (canonical_cell (known_of found.now) (shape t.now) (value_of value.now))) }
    ensures fits { OnOk result (Fits field_max (shape t.now) (value_of value.now)) }
    ensures long { (result ≡ Err WriteCellFault.TooLong) ↔ (Fits field_max (shape t.now) (value_of value.now) → ⊥) }
    ensures memory { result ≡ Err WriteCellFault.NoMemory → Fits field_max (shape t.now) (value_of value.now) }
    ensures kept { OnErr result (out.new.bytes ≡ out.old.bytes) }
    ensures spare { out.old.spare
        ≤ out.new.spare + length (frame (canonical_cell (known_of found.now) (shape t.now) (value_of value.now))) }
    ensures suffices { Fits field_max (shape t.now) (value_of value.now)
        → length (frame (canonical_cell (known_of found.now) (shape t.now) (value_of value.now))) ≤ out.old.spare → IsOk result }
{
    write(t, value, found, field_max, out)
}
