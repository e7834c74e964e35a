ghost use Rattle.std.specs.Prelude.{◌≡◌, ◌≤◌, ◌↔◌, length, IsOk, IfOk};

use thiserror::Error;

/// The prefix has more bits than the address.
#[derive(Clone, Copy, Debug, PartialEq, Eq, Error)]
#[error("the prefix is longer than the address")]
pub struct PrefixError;

/// An address of IPv4, and how many of its bits are the prefix, which are 32 at most. The other bits of the address may
/// be set or not.
#[derive(Clone, Copy, Debug, PartialEq, Eq)]
pub struct Ipv4Network {
    ip: [u8; 4],
    prefix: u8,
    ghost fits: { prefix ≤ 32 },
}

impl Ipv4Network {
    /// The address of these bytes, with a prefix of so many bits. `PrefixError` exactly where these are more than 32.
    /// It takes no memory.
    pub fn new(ip: [u8; 4], prefix: u8) -> Result<Ipv4Network, PrefixError>
        ensures network { IfOk result (λ network. (network.ip ≡ ip) × (network.prefix ≡ prefix)) }
        ensures ok { IsOk result ↔ (prefix ≤ 32) }
    {
        if prefix > 32 {
            return Err(PrefixError);
        }
        Ok(Ipv4Network { ip, prefix })
    }

    /// The bytes of the address, as it was given.
    pub fn ip(&self) -> [u8; 4]
        ensures { result ≡ self.now.ip }
    {
        self.ip
    }

    /// These bytes, borrowed.
    pub(crate) fn octets(&self) -> &[u8]
        ensures value { result.now ≡ self.now.ip }
        ensures many { length result.now ≡ 4 }
    {
        &self.ip
    }

    /// How many bits the prefix has, 0 to 32.
    pub fn prefix(&self) -> u8
        ensures value { result ≡ self.now.prefix }
        ensures fits { result ≤ 32 }
    {
        self.prefix
    }
}

/// An address of IPv6, and how many of its bits are the prefix, which are 128 at most. The other bits of the address
/// may be set or not.
#[derive(Clone, Copy, Debug, PartialEq, Eq)]
pub struct Ipv6Network {
    ip: [u8; 16],
    prefix: u8,
    ghost fits: { prefix ≤ 128 },
}

impl Ipv6Network {
    /// The address of these bytes, with a prefix of so many bits. `PrefixError` exactly where these are more than 128.
    /// It takes no memory.
    pub fn new(ip: [u8; 16], prefix: u8) -> Result<Ipv6Network, PrefixError>
        ensures network { IfOk result (λ network. (network.ip ≡ ip) × (network.prefix ≡ prefix)) }
        ensures ok { IsOk result ↔ (prefix ≤ 128) }
    {
        if prefix > 128 {
            return Err(PrefixError);
        }
        Ok(Ipv6Network { ip, prefix })
    }

    /// The bytes of the address, as it was given.
    pub fn ip(&self) -> [u8; 16]
        ensures { result ≡ self.now.ip }
    {
        self.ip
    }

    /// These bytes, borrowed.
    pub(crate) fn octets(&self) -> &[u8]
        ensures value { result.now ≡ self.now.ip }
        ensures many { length result.now ≡ 16 }
    {
        &self.ip
    }

    /// How many bits the prefix has, 0 to 128.
    pub fn prefix(&self) -> u8
        ensures value { result ≡ self.now.prefix }
        ensures fits { result ≤ 128 }
    {
        self.prefix
    }
}

/// An address of IPv4 or IPv6, with its prefix.
#[derive(Clone, Copy, Debug, PartialEq, Eq)]
pub enum IpNetwork {
    /// An address of IPv4.
    V4(Ipv4Network),
    /// An address of IPv6.
    V6(Ipv6Network),
}
