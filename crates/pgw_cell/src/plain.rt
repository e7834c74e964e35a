ghost use Rattle.std.specs.Prelude.{◌≡◌, ◌≤◌, ◌++◌, List, ℕ, length, None, Some, true, false, IfSome};
ghost use Rattle.pgw_wire.specs.Cell.{frame};
ghost use Rattle.pgw_meta.specs.Known.{Known};
ghost use Rattle.pgw_meta.specs.NamedOids.{known_of};
ghost use Rattle.pgw_meta.specs.Shape.{Shape};
ghost use Rattle.pgw_meta.specs.Types.{shape};
ghost use Rattle.pgw_nested.specs.Array.{array_head, HasOneDimension};
ghost use Rattle.pgw_cell.specs.Plain.{plain_rule, plain_element, PassesArray, IsPlainElement, ArePlainElements, PassesElements, four_bytes, IsPlainCellOf, IsPlainField, IsSomeNetwork, Passes, IsPassedBefore};

use crate::equal_elements::behind_equal;
use crate::network::network_field;
use crate::rewrite::either;
use crate::sizes::is_nullable;
use crate::utf8::is_text;
use pgw_meta::{FoundOids, PgType, oid_of};
use pgw_numeric::field::{Sign, sign_of, take_parts};
use pgw_wire::{take_piece, take_u32};

/// The length -1 of a null.
const NULL: u32 = u32::MAX;

/// Which pieces of a type are canonical as they stand.
// Each size is one of its own, so that it is a constant where a field is cut.
#[derive(Clone, Copy, Debug, PartialEq, Eq)]
enum Rule {
    /// Those of one byte.
    One,
    /// Those of two bytes.
    Two,
    /// Those of four bytes.
    Four,
    /// Those of six bytes.
    Six,
    /// Those of eight bytes.
    Eight,
    /// Those of sixteen bytes.
    Sixteen,
    /// One byte, 0 or 1.
    Truth,
    /// UTF-8.
    Text,
    /// Any bytes.
    Bytes,
    /// The field of an `inet`.
    Inet,
    /// The field of a `cidr`.
    Cidr,
    /// The field of a numeric that is written as it stands.
    Numeric,
    /// Those of an array whose elements are canonical as they stand.
    Array,
    /// None that is known.
    Nothing,
}

/// Which cells are canonical as they stand as elements of arrays, and the oid of their type, which the arrays state.
#[derive(Clone, Copy, Debug, PartialEq, Eq)]
struct PlainElement {
    rule: Rule,
    nullable: bool,
    oid: u32,
}

/// What is kept of the elements where a type is no array.
const NO_ELEMENT: PlainElement = PlainElement {
    rule: Rule::Nothing,
    nullable: false,
    oid: 0,
};

/// Which fields of a column are canonical as they stand: a few words, made once a column.
#[derive(Clone, Copy, Debug, PartialEq, Eq)]
pub struct PlainCell {
    rule: Rule,
    nullable: bool,
    element: PlainElement,
}

impl PlainCell {
    /// Of a type without null whose values are written in four bytes, and spelled by any four.
    #[inline(always)]
    pub const fn four_bytes() -> PlainCell
        ensures { result ≡ four_bytes }
    {
        PlainCell {
            rule: Rule::Four,
            nullable: false,
            element: NO_ELEMENT,
        }
    }

    /// Of a column of this type, where the oids of named types are these.
    pub fn of(t: &PgType, found: &FoundOids) -> PlainCell
        ensures { IsPlainCellOf (known_of found.now) result (shape t.now) }
    {
        PlainCell {
            rule: rule_of(t),
            nullable: is_nullable(t),
            element: element_of(t, found),
        }
    }

    /// What stands behind the canonical field at the front, of a value of at most `field_max` bytes. None where no such
    /// field stands there, or where it is not known to be one. It takes no memory.
    #[inline(always)]
    pub fn behind_field<'a>(&self, field_max: u32, bytes: &'a [u8]) -> Option<&'a [u8]>
        requires { field_max ≤ 2147483647 }
        ensures { (known : Known) (t : Shape) → IsPlainCellOf known self.now t → IfSome result (λ rest. (field : List ℕ)
            × IsPlainField known field_max t field × (bytes.now ≡ field ++ rest.now)) }
    {
        match behind_piece(self.rule, field_max, bytes) {
            Some(rest) => Some(rest),
            None => self.behind_other(field_max, bytes),
        }
    }
}

impl PlainCell {
    /// The same of a field that is an array or a null.
    #[inline(always)]
    fn behind_other<'a>(&self, field_max: u32, bytes: &'a [u8]) -> Option<&'a [u8]>
        requires { field_max ≤ 2147483647 }
        ensures { (known : Known) (t : Shape) → IsPlainCellOf known self.now t → IfSome result (λ rest. (field : List ℕ)
            × IsPlainField known field_max t field × (bytes.now ≡ field ++ rest.now)) }
    {
        match self.rule {
            Rule::Array => match behind_array(self.element, field_max, bytes) {
                Some(rest) => Some(rest),
                None => behind_null(self.nullable, bytes),
            },
            _ => behind_null(self.nullable, bytes),
        }
    }
}

/// What is kept of the elements of a type.
fn element_of(t: &PgType, found: &FoundOids) -> PlainElement
    ensures { result ≡ plain_element (known_of found.now) (shape t.now) }
{
    match t {
        PgType::Nullable(part) | PgType::Named(_, part) => element_of(part, found),
        PgType::Array(element) => PlainElement {
            rule: rule_of(element),
            nullable: is_nullable(element),
            oid: oid_of(found, element),
        },
        _ => NO_ELEMENT,
    }
}

/// Which pieces of the type are canonical as they stand.
fn rule_of(t: &PgType) -> Rule
    ensures { result ≡ plain_rule (shape t.now) }
{
    match t {
        PgType::Bool => Rule::Truth,
        PgType::Char => Rule::One,
        PgType::Int2 => Rule::Two,
        PgType::Int4 => Rule::Four,
        PgType::Int8 => Rule::Eight,
        PgType::Oid => Rule::Four,
        PgType::Text => Rule::Text,
        PgType::Bytea => Rule::Bytes,
        PgType::Uuid => Rule::Sixteen,
        PgType::Money => Rule::Eight,
        PgType::Lsn => Rule::Eight,
        PgType::Mac => Rule::Six,
        PgType::Mac8 => Rule::Eight,
        PgType::Inet => Rule::Inet,
        PgType::Cidr => Rule::Cidr,
        PgType::Date => Rule::Four,
        PgType::Time | PgType::Timestamp | PgType::Timestamptz => Rule::Eight,
        PgType::Interval => Rule::Sixteen,
        PgType::Numeric => Rule::Numeric,
        PgType::Nullable(part) | PgType::Named(_, part) => rule_of(part),
        PgType::Array(_) => Rule::Array,
        _ => Rule::Nothing,
    }
}

/// What stands behind the field at the front, whose piece passes the rule.
#[inline(always)]
fn behind_piece(rule: Rule, most: u32, bytes: &[u8]) -> Option<&[u8]>
    ensures { IfSome result (λ rest. IsPassedBefore most (Passes rule) bytes.now rest.now) }
{
    match rule {
        Rule::One => behind_sized(1, most, bytes),
        Rule::Two => behind_sized(2, most, bytes),
        Rule::Four => behind_sized(4, most, bytes),
        Rule::Six => behind_sized(6, most, bytes),
        Rule::Eight => behind_sized(8, most, bytes),
        Rule::Sixteen => behind_sized(16, most, bytes),
        Rule::Truth => behind_truth(most, bytes),
        Rule::Text => behind_text(most, bytes),
        Rule::Bytes => behind_bytes(most, bytes),
        Rule::Inet => behind_network(0, most, bytes),
        Rule::Cidr => behind_network(1, most, bytes),
        Rule::Numeric => behind_numeric(most, bytes),
        Rule::Array | Rule::Nothing => None,
    }
}

// Where the piece ends is reckoned from the size that is known and not from the length that was read, so that no field
// waits for the length of the one before to be loaded.
#[inline(always)]
fn behind_sized(size: u32, most: u32, bytes: &[u8]) -> Option<&[u8]>
    ensures { IfSome result (λ rest. IsPassedBefore most (λ piece. length piece ≡ size) bytes.now rest.now) }
{
    let (length, rest) = take_u32(bytes)?;
    if length != size || size > most {
        return None;
    }
    let (_piece, rest) = take_piece(rest, size as usize)?;
    Some(rest)
}

#[inline(always)]
fn behind_truth(most: u32, bytes: &[u8]) -> Option<&[u8]>
    ensures { IfSome result (λ rest. IsPassedBefore most (Passes Rule.Truth) bytes.now rest.now) }
{
    let (length, rest) = take_u32(bytes)?;
    match rest {
        [truth, rest @ ..] if length == 1 && *truth <= 1 && most >= 1 => Some(rest),
        _ => None,
    }
}

/// The piece of the field at the front, of at most so many bytes, and what stands behind it.
#[inline(always)]
fn front_piece(most: u32, bytes: &[u8]) -> Option<(&[u8], &[u8])>
    ensures field { IfSome result (λ x. bytes.now ≡ frame (Some x.0.now) ++ x.1.now) }
    ensures fits { IfSome result (λ x. length x.0.now ≤ most) }
{
    let (length, rest) = take_u32(bytes)?;
    if length > most {
        return None;
    }
    take_piece(rest, length as usize)
}

#[inline(always)]
fn behind_text(most: u32, bytes: &[u8]) -> Option<&[u8]>
    ensures { IfSome result (λ rest. IsPassedBefore most (Passes Rule.Text) bytes.now rest.now) }
{
    let (piece, rest) = front_piece(most, bytes)?;
    if is_text(piece) { Some(rest) } else { None }
}

#[inline(always)]
fn behind_bytes(most: u32, bytes: &[u8]) -> Option<&[u8]>
    ensures { IfSome result (λ rest. IsPassedBefore most (Passes Rule.Bytes) bytes.now rest.now) }
{
    let (_piece, rest) = front_piece(most, bytes)?;
    Some(rest)
}

#[inline(always)]
fn behind_network(type_byte: u8, most: u32, bytes: &[u8]) -> Option<&[u8]>
    ensures { IfSome result (λ rest. IsPassedBefore most (IsSomeNetwork type_byte) bytes.now rest.now) }
{
    let (piece, rest) = front_piece(most, bytes)?;
    if network_field(type_byte, piece).is_ok() {
        Some(rest)
    } else {
        None
    }
}

/// Whether the piece is the field of a numeric and is written as it stands.
#[inline(always)]
fn is_plain_numeric(piece: &[u8]) -> bool
    ensures { result ≡ true → Passes Rule.Numeric piece.now }
{
    let Some((header, _)) = take_parts(piece) else {
        return false;
    };
    match sign_of(header.sign) {
        Some(Sign::Positive) => piece.len() == header.size(),
        Some(Sign::Negative) => piece.len() == header.size(),
        Some(Sign::NaN) => piece.len() == 8 && header.weight == 0 && header.scale == 0,
        None => false,
    }
}

#[inline(always)]
fn behind_numeric(most: u32, bytes: &[u8]) -> Option<&[u8]>
    ensures { IfSome result (λ rest. IsPassedBefore most (Passes Rule.Numeric) bytes.now rest.now) }
{
    let (piece, rest) = front_piece(most, bytes)?;
    if is_plain_numeric(piece) {
        Some(rest)
    } else {
        None
    }
}

/// The flags and the count of an array that states one dimension, this oid of its elements' type, and 1 as the index of the
/// first, and what stands behind these.
fn array_front(oid: u32, piece: &[u8]) -> Option<(u32, u32, &[u8])>
    ensures { IfSome result (λ x. piece.now ≡ array_head x.0 oid x.1 1 ++ x.2.now) }
{
    let (dimensions, rest) = take_u32(piece)?;
    let (flags, rest) = take_u32(rest)?;
    let (element, rest) = take_u32(rest)?;
    let (count, rest) = take_u32(rest)?;
    let (bound, rest) = take_u32(rest)?;
    if dimensions != 1 {
        return None;
    }
    if element != oid {
        return None;
    }
    if bound != 1 {
        return None;
    }
    Some((flags, count, rest))
}

/// Whether the element at the front is a null, and what stands behind it. None where no element stands there that is canonical
/// as it stands.
#[inline(always)]
fn behind_element(element: PlainElement, bytes: &[u8]) -> Option<(bool, &[u8])>
    ensures { IfSome result (λ x. IsPlainElement element bytes.now x.0 x.1.now) }
{
    match behind_piece(element.rule, 2147483647, bytes) {
        Some(rest) => Some((false, rest)),
        None => {
            let rest = behind_null(element.nullable, bytes)?;
            Some((true, rest))
        }
    }
}

/// What stands behind so many elements at the front, none of which is null and all of which have the size that the rule asks
/// for. None where this is not so, or where the rule asks for no size.
#[inline(always)]
fn behind_equal_elements(element: PlainElement, count: u32, bytes: &[u8]) -> Option<&[u8]>
    ensures { IfSome result (λ rest. ArePlainElements element count bytes.now false rest.now) }
{
    match element.rule {
        Rule::One => behind_equal::<5>(1, count, bytes),
        Rule::Two => behind_equal::<6>(2, count, bytes),
        Rule::Four => behind_equal::<8>(4, count, bytes),
        Rule::Six => behind_equal::<10>(6, count, bytes),
        Rule::Eight => behind_equal::<12>(8, count, bytes),
        Rule::Sixteen => behind_equal::<20>(16, count, bytes),
        _ => None,
    }
}

/// Whether a null is among so many elements at the front, and what stands behind them. None where one of them is not
/// canonical as it stands.
#[inline(always)]
fn behind_elements(element: PlainElement, count: u32, bytes: &[u8]) -> Option<(bool, &[u8])>
    ensures { IfSome result (λ x. ArePlainElements element count bytes.now x.0 x.1.now) }
{
    match behind_equal_elements(element, count, bytes) {
        Some(rest) => Some((false, rest)),
        None => behind_each(element, count, bytes),
    }
}

/// The same, element by element.
fn behind_each(element: PlainElement, count: u32, bytes: &[u8]) -> Option<(bool, &[u8])>
    ensures { IfSome result (λ x. ArePlainElements element count bytes.now x.0 x.1.now) }
{
    let mut null = false;
    let mut rest = bytes;
    for _place in 0..count {
        let (is_null, behind) = behind_element(element, rest)?;
        null = either(null, is_null);
        rest = behind;
    }
    Some((null, rest))
}

/// The flags and the count of an array that states one dimension, and what stands behind its 20 bytes, whatever the oid of
/// its elements' type and the index of the first are.
fn dimension(piece: &[u8]) -> Option<(u32, u32, &[u8])>
    ensures { IfSome result (λ x. HasOneDimension piece.now x.0 x.1 x.2.now) }
{
    let (dimensions, rest) = take_u32(piece)?;
    let (flags, rest) = take_u32(rest)?;
    let (_oid, rest) = take_u32(rest)?;
    let (count, rest) = take_u32(rest)?;
    let (_bound, rest) = take_u32(rest)?;
    if dimensions != 1 {
        return None;
    }
    Some((flags, count, rest))
}

/// How many elements of the type an array has, whether a null is among them, and the bytes of their fields, where all of them
/// are canonical as they stand: so they are written behind the head of any array that has them. None where one of them is
/// not known to be, or where the array states no dimension or a count below zero.
#[inline(never)]
pub(crate) fn plain_elements<'a>(t: &PgType, piece: &'a [u8]) -> Option<(u32, bool, &'a [u8])>
    ensures { IfSome result (λ x. PassesElements (shape t.now) piece.now x.0 x.1 x.2.now) }
{
    let (flags, count, elements) = dimension(piece)?;
    if count > 2147483647 {
        return None;
    }
    let element = PlainElement {
        rule: rule_of(t),
        nullable: is_nullable(t),
        oid: 0,
    };
    let (null, rest) = behind_elements(element, count, elements)?;
    if null && flags == 0 {
        return None;
    }
    Some((count, null, &elements[..elements.len() - rest.len()]))
}

/// Whether the piece is an array of such elements and is written as it stands.
fn is_plain_array(element: PlainElement, piece: &[u8]) -> bool
    ensures { result ≡ true → PassesArray element piece.now }
{
    let Some((flags, count, elements)) = array_front(element.oid, piece) else {
        return false;
    };
    match behind_elements(element, count, elements) {
        Some((null, [])) => flags == u32::from(null),
        _ => false,
    }
}

/// What stands behind the field of an array of such elements at the front.
#[inline(never)]
fn behind_array(element: PlainElement, most: u32, bytes: &[u8]) -> Option<&[u8]>
    ensures { IfSome result (λ rest. IsPassedBefore most (PassesArray element) bytes.now rest.now) }
{
    let (piece, rest) = front_piece(most, bytes)?;
    if is_plain_array(element, piece) {
        Some(rest)
    } else {
        None
    }
}

/// What stands behind the null at the front, which is none where the column has no nulls.
#[inline(always)]
fn behind_null(nullable: bool, bytes: &[u8]) -> Option<&[u8]>
    ensures { IfSome result (λ rest. (nullable ≡ true) × (bytes.now ≡ frame None ++ rest.now)) }
{
    let (length, rest) = take_u32(bytes)?;
    if length == NULL && nullable {
        Some(rest)
    } else {
        None
    }
}
