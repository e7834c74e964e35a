ghost use Rattle.std.specs.Prelude.{◌≡◌};
ghost use Rattle.pgw_meta.specs.Metadata.{oids_of as both_of};
ghost use Rattle.pgw_meta.specs.NamedOids.{known_of, oids_of, range_oids, multirange_oids};
ghost use Rattle.pgw_meta.specs.Types.{shape};

use crate::found_oids::first_oids;
use crate::{FoundOids, InnerPgTypeMetadata, PgType};

/// The oid of a type: PostgreSQL's own, or for a named type that of the first entry of its key. 0, which is the oid of no
/// type, where no entry has the key, for arrays of arrays, and for ranges over a type that has none. It takes no memory.
pub fn oid_of(found: &FoundOids, t: &PgType) -> u32
    ensures { result ≡ (oids_of (known_of found.now) (shape t.now)).oid }
{
    oids(found, t).oid
}

/// The oid of the type of its arrays, as `oid_of` has that of the type. 0 for an array.
pub fn array_oid_of(found: &FoundOids, t: &PgType) -> u32
    ensures { result ≡ (oids_of (known_of found.now) (shape t.now)).array_oid }
{
    oids(found, t).array_oid
}

fn both(oid: u32, array_oid: u32) -> InnerPgTypeMetadata
    ensures oid { result.oid ≡ oid }
    ensures array_oid { result.array_oid ≡ array_oid }
{
    InnerPgTypeMetadata { oid, array_oid }
}

fn oids(found: &FoundOids, t: &PgType) -> InnerPgTypeMetadata
    ensures { both_of result ≡ oids_of (known_of found.now) (shape t.now) }
{
    match t {
        PgType::Bool => both(16, 1000),
        PgType::Char => both(18, 1002),
        PgType::Int2 => both(21, 1005),
        PgType::Int4 => both(23, 1007),
        PgType::Int8 => both(20, 1016),
        PgType::Oid => both(26, 1028),
        PgType::Text => both(25, 1009),
        PgType::Bytea => both(17, 1001),
        PgType::Uuid => both(2950, 2951),
        PgType::Money => both(790, 791),
        PgType::Lsn => both(3220, 3221),
        PgType::Mac => both(829, 1040),
        PgType::Mac8 => both(774, 775),
        PgType::Inet => both(869, 1041),
        PgType::Cidr => both(650, 651),
        PgType::Date => both(1082, 1182),
        PgType::Time => both(1083, 1183),
        PgType::Timestamp => both(1114, 1115),
        PgType::Timestamptz => both(1184, 1185),
        PgType::Interval => both(1186, 1187),
        PgType::Numeric => both(1700, 1231),
        PgType::Nullable(part) => oids(found, part),
        PgType::Array(element) => both(oids(found, element).array_oid, 0),
        PgType::Range(part) => range(part),
        PgType::Multirange(part) => multirange(part),
        PgType::Record(_) => both(2249, 2287),
        PgType::Named(key, _) => {
            first_oids(found.as_slice(), &key.as_key()).unwrap_or(both(0, 0))
        }
    }
}

// The oids of the ranges over a type.
fn range(part: &PgType) -> InnerPgTypeMetadata
    ensures { both_of result ≡ range_oids (shape part.now) }
{
    match part {
        PgType::Int4 => both(3904, 3905),
        PgType::Int8 => both(3926, 3927),
        PgType::Numeric => both(3906, 3907),
        PgType::Date => both(3912, 3913),
        PgType::Timestamp => both(3908, 3909),
        PgType::Timestamptz => both(3910, 3911),
        _ => both(0, 0),
    }
}

// The oids of the multiranges over a type.
fn multirange(part: &PgType) -> InnerPgTypeMetadata
    ensures { both_of result ≡ multirange_oids (shape part.now) }
{
    match part {
        PgType::Int4 => both(4451, 6150),
        PgType::Int8 => both(4536, 6157),
        PgType::Numeric => both(4532, 6151),
        PgType::Date => both(4535, 6155),
        PgType::Timestamp => both(4533, 6152),
        PgType::Timestamptz => both(4534, 6153),
        _ => both(0, 0),
    }
}
