//! The markers of PostgreSQL's scalar types.

use pgw_meta::{NotNull, RangeElement, SingleValue, SqlType};

/// `bool`.
#[derive(Debug, Clone, Copy, Default)]
pub struct Bool;

impl SqlType for Bool {}

impl NotNull for Bool {}

impl SingleValue for Bool {}

/// `"char"`, a byte.
#[derive(Debug, Clone, Copy, Default)]
pub struct CChar;

impl SqlType for CChar {}

impl NotNull for CChar {}

impl SingleValue for CChar {}

/// `int2`, a number of 16 bits with a sign.
#[derive(Debug, Clone, Copy, Default)]
pub struct SmallInt;

impl SqlType for SmallInt {}

impl NotNull for SmallInt {}

impl SingleValue for SmallInt {}

/// `SmallInt` by PostgreSQL's short name.
pub type Int2 = SmallInt;

/// `smallserial`, of which a field is that of an `int2`.
pub type SmallSerial = SmallInt;

/// `int4`, a number of 32 bits with a sign.
#[derive(Debug, Clone, Copy, Default)]
pub struct Integer;

impl SqlType for Integer {}

impl NotNull for Integer {}

impl SingleValue for Integer {}

impl RangeElement for Integer {
    ghost RANGE_OID = { 3904 };

    const RANGE_OID: u32 = 3904;

    ghost RANGE_ARRAY_OID = { 3905 };

    const RANGE_ARRAY_OID: u32 = 3905;

    ghost MULTIRANGE_OID = { 4451 };

    const MULTIRANGE_OID: u32 = 4451;

    ghost MULTIRANGE_ARRAY_OID = { 6150 };

    const MULTIRANGE_ARRAY_OID: u32 = 6150;
}

/// `Integer` by PostgreSQL's short name.
pub type Int4 = Integer;

/// `serial`, of which a field is that of an `int4`.
pub type Serial = Integer;

/// `int8`, a number of 64 bits with a sign.
#[derive(Debug, Clone, Copy, Default)]
pub struct BigInt;

impl SqlType for BigInt {}

impl NotNull for BigInt {}

impl SingleValue for BigInt {}

impl RangeElement for BigInt {
    ghost RANGE_OID = { 3926 };

    const RANGE_OID: u32 = 3926;

    ghost RANGE_ARRAY_OID = { 3927 };

    const RANGE_ARRAY_OID: u32 = 3927;

    ghost MULTIRANGE_OID = { 4536 };

    const MULTIRANGE_OID: u32 = 4536;

    ghost MULTIRANGE_ARRAY_OID = { 6157 };

    const MULTIRANGE_ARRAY_OID: u32 = 6157;
}

/// `BigInt` by PostgreSQL's short name.
pub type Int8 = BigInt;

/// `bigserial`, of which a field is that of an `int8`.
pub type BigSerial = BigInt;

/// `oid`, a number of 32 bits without a sign.
#[derive(Debug, Clone, Copy, Default)]
pub struct Oid;

impl SqlType for Oid {}

impl NotNull for Oid {}

impl SingleValue for Oid {}

/// `text`.
#[derive(Debug, Clone, Copy, Default)]
pub struct Text;

impl SqlType for Text {}

impl NotNull for Text {}

impl SingleValue for Text {}

/// `varchar`, of which a field is that of a `text`.
pub type VarChar = Text;

/// `bpchar`, of which a field is that of a `text`.
pub type Bpchar = Text;

/// `citext`, a text that the server compares without regard to case. It is looked up by its name.
#[derive(Debug, Clone, Copy, Default)]
pub struct Citext;

impl SqlType for Citext {}

impl NotNull for Citext {}

impl SingleValue for Citext {}

/// `bytea`, any bytes.
#[derive(Debug, Clone, Copy, Default)]
pub struct Binary;

impl SqlType for Binary {}

impl NotNull for Binary {}

impl SingleValue for Binary {}

/// `Binary` by PostgreSQL's name.
pub type Bytea = Binary;

/// `uuid`.
#[derive(Debug, Clone, Copy, Default)]
pub struct Uuid;

impl SqlType for Uuid {}

impl NotNull for Uuid {}

impl SingleValue for Uuid {}

/// `money`.
#[derive(Debug, Clone, Copy, Default)]
pub struct Money;

impl SqlType for Money {}

impl NotNull for Money {}

impl SingleValue for Money {}

/// `pg_lsn`, a position in the server's write-ahead log.
#[derive(Debug, Clone, Copy, Default)]
pub struct PgLsn;

impl SqlType for PgLsn {}

impl NotNull for PgLsn {}

impl SingleValue for PgLsn {}

/// `macaddr`, a hardware address of 6 bytes.
#[derive(Debug, Clone, Copy, Default)]
pub struct MacAddr;

impl SqlType for MacAddr {}

impl NotNull for MacAddr {}

impl SingleValue for MacAddr {}

/// `MacAddr` by PostgreSQL's name.
pub type Macaddr = MacAddr;

/// `macaddr8`, a hardware address of 8 bytes.
#[derive(Debug, Clone, Copy, Default)]
pub struct MacAddr8;

impl SqlType for MacAddr8 {}

impl NotNull for MacAddr8 {}

impl SingleValue for MacAddr8 {}

/// `MacAddr8` by PostgreSQL's name.
pub type Macaddr8 = MacAddr8;

/// `inet`, an address of IPv4 or IPv6 with the length of its prefix.
#[derive(Debug, Clone, Copy, Default)]
pub struct Inet;

impl SqlType for Inet {}

impl NotNull for Inet {}

impl SingleValue for Inet {}

/// `cidr`, a network of IPv4 or IPv6: an address with the length of its prefix.
#[derive(Debug, Clone, Copy, Default)]
pub struct Cidr;

impl SqlType for Cidr {}

impl NotNull for Cidr {}

impl SingleValue for Cidr {}
