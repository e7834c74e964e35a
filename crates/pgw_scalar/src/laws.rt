//! Laws of amounts of money, of positions in the log and of networks, for proofs that call these functions: what they
//! ensure. They do nothing.

ghost use Rattle.std.specs.Prelude.{◌≡◌, ◌↔◌, IsTrue};
ghost use Rattle.std.specs.Ordering.{int_cmp};
ghost use Rattle.pgw_scalar.specs.Networks.{IsNetwork, network_bytes};
ghost use Rattle.pgw_scalar.specs.IpNetworks.{network_of};

use crate::{IpNetwork, PgLsn, PgMoney};

/// Two amounts are equal exactly where their numbers are.
pub fn amounts_are_equal_by_their_numbers(a: PgMoney, b: PgMoney)
    ensures { IsTrue (⟦<PgMoney as PartialEq>⟧.eq a b) ↔ (a.0 ≡ b.0) }
{}

/// Two amounts are ordered as their numbers are.
pub fn amounts_are_ordered_by_their_numbers(a: PgMoney, b: PgMoney)
    ensures { ⟦<PgMoney as Ord>⟧.cmp a b ≡ int_cmp a.0 b.0 }
{}

/// Two positions are equal exactly where their numbers are.
pub fn positions_are_equal_by_their_numbers(a: PgLsn, b: PgLsn)
    ensures { IsTrue (⟦<PgLsn as PartialEq>⟧.eq a b) ↔ (a.0 ≡ b.0) }
{}

/// What a network is written as is a field of this network, with any byte of the type: the address has as many bytes as
/// its family says, and the prefix is no longer.
pub fn networks_are_what_is_written(type_byte: u8, network: &IpNetwork)
    ensures { IsNetwork type_byte (network_bytes type_byte (network_of network.now)) (network_of network.now) }
{
    let _octets = match network {
        IpNetwork::V4(network) => network.octets(),
        IpNetwork::V6(network) => network.octets(),
    };
}
