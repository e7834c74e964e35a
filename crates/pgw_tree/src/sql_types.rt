//! The markers of PostgreSQL's types, from the crates of their codecs, and names for ranges and multiranges over each type
//! that has them.

pub use pgw_nested::sql_types::{Array, Multirange, Nullable, Range};
pub use pgw_numeric::sql_types::Numeric;
pub use pgw_scalar::sql_types::{
    BigInt, BigSerial, Binary, Bool, Bpchar, Bytea, CChar, Cidr, Citext, Inet, Int2, Int4, Int8,
    Integer, MacAddr, MacAddr8, Macaddr, Macaddr8, Money, Oid, PgLsn, Serial, SmallInt,
    SmallSerial, Text, Uuid, VarChar,
};
pub use pgw_time::sql_types::{Date, Interval, Time, Timestamp, Timestamptz};

/// `int4range`.
pub type Int4range = Range<Integer>;

/// `int8range`.
pub type Int8range = Range<BigInt>;

/// `numrange`.
pub type Numrange = Range<Numeric>;

/// `daterange`.
pub type Daterange = Range<Date>;

/// `tsrange`.
pub type Tsrange = Range<Timestamp>;

/// `tstzrange`.
pub type Tstzrange = Range<Timestamptz>;

/// `int4multirange`.
pub type Int4multirange = Multirange<Integer>;

/// `int8multirange`.
pub type Int8multirange = Multirange<BigInt>;

/// `nummultirange`.
pub type Nummultirange = Multirange<Numeric>;

/// `datemultirange`.
pub type Datemultirange = Multirange<Date>;

/// `tsmultirange`.
pub type Tsmultirange = Multirange<Timestamp>;

/// `tstzmultirange`.
pub type Tstzmultirange = Multirange<Timestamptz>;
