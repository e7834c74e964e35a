//! The parts of the field of a `numeric`, which are walked over here without its value and without memory.

ghost use Rattle.std.specs.Prelude.{◌≡◌, ◌<◌, ◌+◌, ◌*◌, ◌++◌, ◌↔◌, ℕ, length, get_or, Ok, Err, IfOk, IfSome, IsNone};
ghost use Rattle.pgw_wire.specs.declared.kind.Break.{Break as Kind};
ghost use Rattle.pgw_numeric.specs.Numeric.{Numeric as Value, IsNumeric, BreaksNumeric, IsNoSign};
ghost use Rattle.pgw_numeric.specs.Numeric.{stated_size, numeric_bytes, read_numeric};
ghost use Rattle.pgw_numeric.specs.Field.{sign_word, bytes_of_header, IsHeader, HasParts};
ghost use Rattle.pgw_numeric.specs.Field.{bytes_of_front, front_bytes, written_again};

use pgw_wire::{Break, take_i16, take_piece, take_u16};

/// How many bytes stand in front of the digits.
const HEADER: usize = 8;

/// The signs of numerics.
#[derive(Clone, Copy, Debug, PartialEq, Eq)]
pub enum Sign {
    /// 0, of a number of 0 or above.
    Positive,
    /// 0x4000, of a number below 0.
    Negative,
    /// 0xC000, of what is not a number.
    NaN,
}

impl Sign {
    /// The number that stands for the sign in a field. It takes no memory.
    pub fn word(self) -> u16
        ensures { result ≡ sign_word self }
    {
        match self {
            Sign::Positive => 0,
            Sign::Negative => 0x4000,
            Sign::NaN => 0xC000,
        }
    }
}

/// The sign that this number stands for. None exactly where it stands for none. It takes no memory.
pub fn sign_of(word: u16) -> Option<Sign>
    ensures some { IfSome result (λ sign. word ≡ sign_word sign) }
    ensures none { IsNone result ↔ IsNoSign word }
{
    match word {
        0 => Some(Sign::Positive),
        0x4000 => Some(Sign::Negative),
        0xC000 => Some(Sign::NaN),
        _ => None,
    }
}

/// The four numbers of 16 bits that stand in front of the digits, in the order of their bytes.
#[derive(Clone, Copy, Debug, PartialEq, Eq)]
pub struct Header {
    /// How many digits follow.
    pub count: u16,
    /// To which power of 10000 the first digit counts.
    pub weight: i16,
    /// What stands for the sign.
    pub sign: u16,
    /// How many decimal digits are shown behind the point.
    pub scale: u16,
}

impl Header {
    /// Its 8 bytes. It takes no memory.
    pub fn to_bytes(self) -> [u8; 8]
        ensures { result ≡ bytes_of_header self }
    {
        let [a, b] = self.count.to_be_bytes();
        let [c, d] = self.weight.to_be_bytes();
        let [e, f] = self.sign.to_be_bytes();
        let [g, h] = self.scale.to_be_bytes();
        [a, b, c, d, e, f, g, h]
    }

    /// How many bytes its field has: its own 8, and 2 for each digit. It takes no memory.
    pub fn size(self) -> usize
        ensures { result ≡ 8 + 2 * self.count }
    {
        HEADER + 2 * usize::from(self.count)
    }
}

/// The header in the first 8 bytes, and what stands behind it. None exactly where there are fewer. It takes no memory.
pub fn take_header(piece: &[u8]) -> Option<(Header, &[u8])>
    ensures some { IfSome result (λ x. piece.now ≡ bytes_of_header x.0 ++ x.1.now) }
    ensures each { IfSome result (λ x. IsHeader x.0) }
    ensures none { IsNone result ↔ (length piece.now < 8) }
{
    let (count, rest) = take_u16(piece)?;
    let (weight, rest) = take_i16(rest)?;
    let (sign, rest) = take_u16(rest)?;
    let (scale, rest) = take_u16(rest)?;
    let header = Header {
        count,
        weight,
        sign,
        scale,
    };
    Some((header, rest))
}

/// The header of the field that the piece begins with, and the bytes of as many digits as it states. None exactly where
/// the piece has fewer bytes than these. It takes no memory.
pub fn take_parts(piece: &[u8]) -> Option<(Header, &[u8])>
    ensures some { IfSome result (λ x. HasParts piece.now x.0 x.1.now) }
    ensures none { IsNone result ↔ (length piece.now < stated_size piece.now) }
{
    let (header, behind) = take_header(piece)?;
    let (digits, _) = take_piece(behind, 2 * usize::from(header.count))?;
    Some((header, digits))
}

/// What of a piece its value is written as.
#[derive(Clone, Copy, Debug, PartialEq, Eq)]
pub enum Front<'a> {
    /// The bytes at its front that are the field of a number.
    Number(&'a [u8]),
    /// None: it is not a number, which is written as 0000 0000 C000 0000.
    NaN,
}

/// The front of the piece, as the function says that a piece is read by.
fn front_of(piece: &[u8]) -> Result<Front<'_>, Break>
    ensures read { front_bytes result ≡ written_again (read_numeric piece.now) }
    ensures bytes { (i : ℕ) → get_or piece.now i 0 < 256 }
{
    let Some((header, _)) = take_parts(piece) else {
        return Err(Break::Size);
    };
    let field = &piece[..header.size()];
    match sign_of(header.sign) {
        Some(Sign::Positive) => Ok(Front::Number(field)),
        Some(Sign::Negative) => Ok(Front::Number(field)),
        Some(Sign::NaN) => Ok(Front::NaN),
        None => Err(Break::Sign),
    }
}

/// The front of the piece that its value is written as, or the kind in which the piece breaks: `Size` exactly where it
/// has fewer bytes than its header and as many digits as this states, and else `Sign` exactly where its sign is none. It
/// takes no memory.
pub fn canonical_front(piece: &[u8]) -> Result<Front<'_>, Break>
    ensures read { front_bytes result ≡ written_again (read_numeric piece.now) }
    ensures ok { IfOk result (λ front. (v : Value) × IsNumeric piece.now v × (bytes_of_front front ≡ numeric_bytes v)) }
    ensures spells { (v : Value) → IsNumeric piece.now v → front_bytes result ≡ Ok (numeric_bytes v) }
    ensures broken { (kind : Kind) → result ≡ Err kind → BreaksNumeric kind piece.now }
    ensures breaks { (kind : Kind) → BreaksNumeric kind piece.now → result ≡ Err kind }
{
    front_of(piece)
}
