//! The codecs of PostgreSQL's scalar types: how a value is read from a field, and the bytes that it is written as.
#![tactic(auto)]

mod bytes;
mod integers;
pub mod laws;
mod leading;
mod mac_addr;
mod metadata;
mod money;
mod network_address;
mod networks;
mod pg_lsn;
pub mod sql_types;
mod text;
mod uuids;

pub use bytes::BytesRef;
pub use money::PgMoney;
/// An amount of money by its usual unit, of which 100 are one of the currency.
pub use money::PgMoney as Cents;
pub use networks::{IpNetwork, Ipv4Network, Ipv6Network, PrefixError};
pub use pg_lsn::PgLsn;
pub use text::TextRef;
