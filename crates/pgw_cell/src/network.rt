ghost use Rattle.std.specs.Prelude.{◌≡◌};
ghost use Rattle.pgw_scalar.specs.Networks.{is_laid_out, read_network, longest_prefix};
ghost use Rattle.pgw_cell.specs.Networks.{network_answer};

use pgw_wire::Break;

/// The family of an address of IPv4.
const IPV4: u8 = 2;

/// The family of an address of IPv6.
const IPV6: u8 = 3;

/// What stands in the field of a network.
#[derive(Clone, Copy)]
pub(crate) struct NetworkField<'a> {
    pub(crate) six: bool,
    pub(crate) prefix: u8,
    pub(crate) address: &'a [u8],
}

/// Whether the bytes but for the second are those of a network's field.
#[inline(always)]
fn is_laid_out(type_byte: u8, family: u8, third: u8, size: u8, address: &[u8]) -> bool
    ensures { result ≡ is_laid_out type_byte family third size address.now }
{
    if family == IPV6 {
        third == type_byte && size == 16 && address.len() == 16
    } else {
        family == IPV4 && third == type_byte && size == 4 && address.len() == 4
    }
}

#[inline(always)]
fn longest_prefix(six: bool) -> u8
    ensures { result ≡ longest_prefix six }
{
    if six { 128 } else { 32 }
}

/// The network whose field the piece is, with this byte of the type, or the kind in which the piece breaks.
#[inline(always)]
pub(crate) fn network_field(type_byte: u8, piece: &[u8]) -> Result<NetworkField<'_>, Break>
    ensures { network_answer result ≡ read_network type_byte piece.now }
{
    let [family, prefix, third, size, address @ ..] = piece else {
        return Err(Break::Family);
    };
    if !is_laid_out(type_byte, *family, *third, *size, address) {
        return Err(Break::Family);
    }
    let six = *family == IPV6;
    if *prefix > longest_prefix(six) {
        return Err(Break::Prefix);
    }
    Ok(NetworkField {
        six,
        prefix: *prefix,
        address,
    })
}
