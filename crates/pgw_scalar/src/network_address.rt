ghost use Rattle.std.specs.Prelude.{◌≡◌, [], ◌∷◌, length, ℕ, IfOk, Ok, Some, false, true};
ghost use Rattle.std.specs.Result.{result_err};
ghost use Rattle.pgw_wire.specs.declared.is_null.IsNull.TheVariants.{No as no};
ghost use Rattle.pgw_meta.specs.Reading.{Answers, ReadsPiece, RefusesPiece};
ghost use Rattle.pgw_scalar.specs.Networks.{IsNetwork, network_bytes, family, address_size};
ghost use Rattle.pgw_scalar.specs.IpNetworks.{network_of};
ghost use Rattle.pgw_scalar.specs.Refusals.{RefusesNetwork, network_refusal, address_refusal, length_refusal};
ghost use Rattle.pgw_scalar.specs.Writing.{WrotePiece};

use crate::sql_types::{Cidr, Inet};
use crate::{IpNetwork, Ipv4Network, Ipv6Network};
use pgw_meta::PgMetadataLookup;
use pgw_meta::deserialize::{self, FromSql, required};
use pgw_meta::serialize::{self, ToSql};
use pgw_wire::{IsNull, NetworkFault, Output, PgValue, SqlError};
use std::alloc::Global;

/// The byte of the type in a field of an `inet`.
const INET: u8 = 0;

/// The byte of the type in a field of a `cidr`.
const CIDR: u8 = 1;

/// The network of a field that has to have this byte of its type. It takes no memory.
#[tactic(auto, using(crate::proofs::NetworkAnswers::network_answers))]
fn network(type_byte: u8, value: PgValue<'_>) -> deserialize::Result<IpNetwork>
    ensures { Answers (ReadsPiece (λ piece n. IsNetwork type_byte piece (network_of n)))
        (RefusesPiece (RefusesNetwork type_byte)) false (Some value.entry.raw_value.now) result }
{
    network_of_bytes(type_byte, value.as_bytes())
}

// the network of these bytes, in the same way
fn network_of_bytes(type_byte: u8, bytes: &[u8]) -> deserialize::Result<IpNetwork>
    ensures network { IfOk result (λ n. IsNetwork type_byte bytes.now (network_of n)) }
    ensures refusal { result_err result ≡ network_refusal type_byte bytes.now }
{
    let [family, prefix, third, size, address @ ..] = bytes else {
        return Err(SqlError::Network(NetworkFault::TooShort));
    };
    if *third != type_byte {
        return Err(SqlError::Network(NetworkFault::WrongType));
    }
    match *family {
        2 => network_of_four(*prefix, *size, address),
        3 => network_of_six(*prefix, *size, address),
        _ => Err(SqlError::Network(NetworkFault::WrongFamily)),
    }
}

// what stands behind the family 2 and the byte of the type
fn network_of_four(prefix: u8, size: u8, bytes: &[u8]) -> deserialize::Result<IpNetwork>
    ensures network { IfOk result (λ n. (type_byte : ℕ)
        → IsNetwork type_byte (2 ∷ prefix ∷ type_byte ∷ size ∷ bytes.now) (network_of n)) }
    ensures refusal { result_err result ≡ address_refusal false prefix size bytes.now }
{
    let ip = address(size, bytes)?;
    match Ipv4Network::new(ip, prefix) {
        Ok(network) => Ok(IpNetwork::V4(network)),
        Err(_) => Err(SqlError::BadPrefix(prefix)),
    }
}

// what stands behind the family 3 and the byte of the type
fn network_of_six(prefix: u8, size: u8, bytes: &[u8]) -> deserialize::Result<IpNetwork>
    ensures network { IfOk result (λ n. (type_byte : ℕ)
        → IsNetwork type_byte (3 ∷ prefix ∷ type_byte ∷ size ∷ bytes.now) (network_of n)) }
    ensures refusal { result_err result ≡ address_refusal true prefix size bytes.now }
{
    let ip = address(size, bytes)?;
    match Ipv6Network::new(ip, prefix) {
        Ok(network) => Ok(IpNetwork::V6(network)),
        Err(_) => Err(SqlError::BadPrefix(prefix)),
    }
}

// The bytes of an address that has to have `N`, where the field states that it has so many.
fn address<const N: usize>(size: u8, bytes: &[u8]) -> deserialize::Result<[u8; N]>
    ensures address { IfOk result (λ ip. (ip ≡ bytes.now) × (length bytes.now ≡ N) × (size ≡ N)) }
    ensures refusal { result_err result ≡ length_refusal N size bytes.now }
{
    let Ok(ip) = <[u8; N]>::try_from(bytes) else {
        return Err(SqlError::Network(NetworkFault::WrongLength));
    };
    if usize::from(size) != N {
        return Err(SqlError::Network(NetworkFault::WrongAddressLength));
    }
    Ok(ip)
}

// the four bytes in front of the address
fn header(type_byte: u8, network: &IpNetwork) -> [u8; 4]
    ensures { result ≡ family (network_of network.now).six ∷ (network_of network.now).prefix ∷ type_byte
        ∷ address_size (network_of network.now).six ∷ [] }
{
    match network {
        IpNetwork::V4(network) => [2, network.prefix(), type_byte, 4],
        IpNetwork::V6(network) => [3, network.prefix(), type_byte, 16],
    }
}

// the bytes of the address, behind these four
fn address_of(network: &IpNetwork) -> &[u8]
    ensures { result.now ≡ (network_of network.now).address }
{
    match network {
        IpNetwork::V4(network) => network.octets(),
        IpNetwork::V6(network) => network.octets(),
    }
}

/// The field of an `inet`: the family, which is 2 of IPv4 and 3 of IPv6, the length of the prefix in bits, the byte 0,
/// the length of the address in bytes, and the address.
impl FromSql<Inet> for IpNetwork {
    ghost reads = { ReadsPiece (λ piece n. IsNetwork 0 piece (network_of n)) };

    ghost refuses = { RefusesPiece (RefusesNetwork 0) };

    ghost MEMORY = { false };

    /// The address and its prefix. The first of these faults is told: `Network` of `TooShort`, where there are fewer
    /// than 4 bytes; of `WrongType`, where the third is not 0; of `WrongFamily`, where the first is neither 2 nor 3; of
    /// `WrongLength`, where there are not 8 bytes, or 20 of the family 3; of `WrongAddressLength`, where the fourth is
    /// not 4, or 16; and `BadPrefix` with the second byte, where that is past 32, or 128. It takes no memory.
    fn from_sql(_alloc: Global, value: PgValue<'_>) -> deserialize::Result<IpNetwork> {
        network(INET, value)
    }

    fn from_nullable_sql(
        alloc: Global,
        value: Option<PgValue<'_>>,
    ) -> deserialize::Result<IpNetwork> {
        <IpNetwork as FromSql<Inet>>::from_sql(alloc, required(value)?)
    }
}

impl ToSql<Inet> for IpNetwork {
    ghost writes = { λ _ v answer bytes. (answer ≡ Ok no) × (bytes ≡ network_bytes 0 (network_of v)) };

    /// Appends the family, the prefix, 0, the length of the address, and all bytes of the address.
    fn to_sql<L: PgMetadataLookup>(&self, out: &mut Output<'_, L>) -> serialize::Result
        ensures { WrotePiece out.old out.new (network_bytes 0 (network_of self.now)) result }
    {
        out.write_all(&header(INET, self))?;
        out.write_all(address_of(self))?;
        Ok(IsNull::No)
    }
}

/// The field of a `cidr`, as that of an `inet` with 1 for the byte of the type. The bits behind the prefix may be set
/// or not.
impl FromSql<Cidr> for IpNetwork {
    ghost reads = { ReadsPiece (λ piece n. IsNetwork 1 piece (network_of n)) };

    ghost refuses = { RefusesPiece (RefusesNetwork 1) };

    ghost MEMORY = { false };

    /// As for `Inet`, but for `WrongType`, which comes where the third byte is not 1.
    fn from_sql(_alloc: Global, value: PgValue<'_>) -> deserialize::Result<IpNetwork> {
        network(CIDR, value)
    }

    fn from_nullable_sql(
        alloc: Global,
        value: Option<PgValue<'_>>,
    ) -> deserialize::Result<IpNetwork> {
        <IpNetwork as FromSql<Cidr>>::from_sql(alloc, required(value)?)
    }
}

impl ToSql<Cidr> for IpNetwork {
    ghost writes = { λ _ v answer bytes. (answer ≡ Ok no) × (bytes ≡ network_bytes 1 (network_of v)) };

    /// Appends the family, the prefix, 1, the length of the address, and all bytes of the address.
    fn to_sql<L: PgMetadataLookup>(&self, out: &mut Output<'_, L>) -> serialize::Result
        ensures { WrotePiece out.old out.new (network_bytes 1 (network_of self.now)) result }
    {
        out.write_all(&header(CIDR, self))?;
        out.write_all(address_of(self))?;
        Ok(IsNull::No)
    }
}
