ghost use Rattle.std.specs.Prelude.{◌≡◌, IfOk, is_some, option_map};
ghost use Rattle.pgw_meta.specs.Types.{shape};
ghost use Rattle.pgw_notation.specs.Names.{is_name_byte, is_name, scalar_types, range_types, named_among, type_named};
ghost use Rattle.pgw_notation.specs.Views.{range_shape};

use pgw_meta::PgType;
use std::alloc::{AllocFailed, Global};

/// How many bytes a name has at most.
const NAME_MAX: usize = 63;

/// A name of ranges or of multiranges, by the type of their bounds.
#[derive(Drop)]
enum RangeName {
    /// Ranges over this type.
    Range(PgType),
    /// Multiranges over this type.
    Multirange(PgType),
}

/// Whether a byte may stand in a name.
pub fn is_name_byte(byte: u8) -> bool
    ensures { result ≡ is_name_byte byte }
{
    byte.is_ascii_alphanumeric() || byte == b'_'
}

/// Whether a text is a name: 1 to 63 letters of ASCII, digits and `_`.
pub fn is_name(text: &str) -> bool
    ensures { result ≡ is_name text.now }
{
    let bytes = text.as_bytes();
    if bytes.is_empty() || bytes.len() > NAME_MAX {
        return false;
    }
    bytes.iter().all(|byte| is_name_byte(*byte))
}

/// The scalar type of a name.
fn scalar_type(name: &str) -> Option<PgType>
    ensures { option_map shape result ≡ named_among name.now scalar_types }
{
    match name {
        "bool" => Some(PgType::Bool),
        "char" => Some(PgType::Char),
        "int2" => Some(PgType::Int2),
        "int4" => Some(PgType::Int4),
        "int8" => Some(PgType::Int8),
        "oid" => Some(PgType::Oid),
        "text" => Some(PgType::Text),
        "bytea" => Some(PgType::Bytea),
        "uuid" => Some(PgType::Uuid),
        "money" => Some(PgType::Money),
        "pg_lsn" => Some(PgType::Lsn),
        "macaddr" => Some(PgType::Mac),
        "macaddr8" => Some(PgType::Mac8),
        "inet" => Some(PgType::Inet),
        "cidr" => Some(PgType::Cidr),
        "date" => Some(PgType::Date),
        "time" => Some(PgType::Time),
        "timestamp" => Some(PgType::Timestamp),
        "timestamptz" => Some(PgType::Timestamptz),
        "interval" => Some(PgType::Interval),
        "numeric" => Some(PgType::Numeric),
        _ => None,
    }
}

/// The type of the bounds that a name of ranges or of multiranges says.
fn range_named(name: &str) -> Option<RangeName>
    ensures { option_map range_shape result ≡ named_among name.now range_types }
{
    match name {
        "int4range" => Some(RangeName::Range(PgType::Int4)),
        "int8range" => Some(RangeName::Range(PgType::Int8)),
        "numrange" => Some(RangeName::Range(PgType::Numeric)),
        "daterange" => Some(RangeName::Range(PgType::Date)),
        "tsrange" => Some(RangeName::Range(PgType::Timestamp)),
        "tstzrange" => Some(RangeName::Range(PgType::Timestamptz)),
        "int4multirange" => Some(RangeName::Multirange(PgType::Int4)),
        "int8multirange" => Some(RangeName::Multirange(PgType::Int8)),
        "nummultirange" => Some(RangeName::Multirange(PgType::Numeric)),
        "datemultirange" => Some(RangeName::Multirange(PgType::Date)),
        "tsmultirange" => Some(RangeName::Multirange(PgType::Timestamp)),
        "tstzmultirange" => Some(RangeName::Multirange(PgType::Timestamptz)),
        _ => None,
    }
}

/// Whether a type is written by this name alone.
pub fn is_type_name(name: &str) -> bool
    ensures { result ≡ is_some (type_named name.now) }
{
    scalar_type(name).is_some() || range_named(name).is_some()
}

/// The type that is written by this name alone. The error comes only for want of memory.
pub fn type_named(alloc: Global, name: &str) -> Result<Option<PgType>, AllocFailed<PgType>>
    ensures { IfOk result (λ t. option_map shape t ≡ type_named name.now) }
{
    if let Some(t) = scalar_type(name) {
        return Ok(Some(t));
    }
    match range_named(name) {
        Some(RangeName::Range(bound)) => Ok(Some(PgType::Range(Box::new(alloc, bound)?))),
        Some(RangeName::Multirange(bound)) => Ok(Some(PgType::Multirange(Box::new(alloc, bound)?))),
        None => Ok(None),
    }
}
