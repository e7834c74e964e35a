ghost use Rattle.std.specs.Prelude.{◌≡◌, [], ◌∷◌, ◌++◌, OnOk, OnErr, length, slice_get};
ghost use Rattle.std.specs.Option.{option_copied};
ghost use Rattle.pgw_meta.specs.Types.{types_of};

use crate::TypeKey;
use pgw_wire::NoMemory;
use sqlite_items::Items;
use std::alloc::Global;

/// A type of PostgreSQL's, as a tree. Which trees the columns of a stream may have, `Schema::new` says.
#[cycle(types)]
#[derive(Debug, Drop)]
pub enum PgType {
    /// `bool`.
    Bool,
    /// `"char"`: one byte.
    Char,
    /// `int2`: a signed number of 16 bits.
    Int2,
    /// `int4`: a signed number of 32 bits.
    Int4,
    /// `int8`: a signed number of 64 bits.
    Int8,
    /// `oid`: an unsigned number of 32 bits.
    Oid,
    /// `text`: UTF-8.
    Text,
    /// `bytea`: any bytes.
    Bytea,
    /// `uuid`: 16 bytes.
    Uuid,
    /// `money`: a signed number of 64 bits.
    Money,
    /// `pg_lsn`: an unsigned number of 64 bits.
    Lsn,
    /// `macaddr`: 6 bytes.
    Mac,
    /// `macaddr8`: 8 bytes.
    Mac8,
    /// `inet`: an address and the length of its prefix.
    Inet,
    /// `cidr`: an address and the length of its prefix.
    Cidr,
    /// `date`: days, from 2000-01-01.
    Date,
    /// `time`: microseconds since midnight.
    Time,
    /// `timestamp`: microseconds, from 2000-01-01.
    Timestamp,
    /// `timestamptz`: microseconds, from 2000-01-01 in UTC.
    Timestamptz,
    /// `interval`: microseconds, days and months.
    Interval,
    /// `numeric`: digits to the base 10000, or not a number.
    Numeric,
    /// The part or null.
    Nullable(Box<PgType>),
    /// An array of one dimension whose elements are of the part.
    Array(Box<PgType>),
    /// A range between bounds of the part.
    Range(Box<PgType>),
    /// A list of ranges between bounds of the part.
    Multirange(Box<PgType>),
    /// A row of components, one of each of these types.
    Record(TypeList),
    /// A type that is looked up by this key, whose values are those of the part.
    Named(TypeKey, Box<PgType>),
}

/// Types in order: the columns of a row, or the components of a record.
#[cycle(types)]
#[derive(Debug, Drop)]
pub struct TypeList {
    types: Items<PgType>,
}

impl TypeList {
    /// No types. It takes no memory.
    pub fn new(alloc: Global) -> TypeList
        ensures { types_of result ≡ [] }
    {
        TypeList {
            types: Items::new(alloc),
        }
    }

    /// Appends a type. Where memory is refused, the type is dropped and the list is as before.
    pub fn push(&mut self, item: PgType) -> Result<(), NoMemory>
        ensures ok { OnOk result (types_of self.new ≡ types_of self.old ++ (item ∷ [])) }
        ensures err { OnErr result (types_of self.new ≡ types_of self.old) }
    {
        self.types.push(item)?;
        Ok(())
    }

    /// How many types there are.
    pub fn len(&self) -> usize
        ensures { result ≡ length (types_of self.now) }
    {
        self.types.len()
    }

    /// The type at a place, counted from 0. None past the last.
    pub fn get(&self, place: usize) -> Option<&PgType>
        ensures { option_copied result ≡ slice_get (types_of self.now) place }
    {
        self.types.get(place)
    }

    /// The types.
    pub fn as_slice(&self) -> &[PgType]
        ensures { result.now ≡ types_of self.now }
    {
        self.types.as_slice()
    }
}
