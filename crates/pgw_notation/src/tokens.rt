ghost use Rattle.std.specs.Prelude.{◌≡◌, ◌+◌, ◌<◌, ◌≤◌, [], ◌∷◌, length, drop, IfSome, IfNone, IsTrue, IsFalse, ℕ, slice_index};
ghost use Rattle.pgw_notation.specs.Names.{is_name_byte};
ghost use Rattle.pgw_notation.specs.Tokens.{mark, tokens, token_bytes};
ghost use Rattle.pgw_notation.specs.Views.{token_of};

use crate::names::is_name_byte;

/// A token of a text in which a type is written.
#[derive(Clone, Copy, Debug)]
pub enum Token<'a> {
    /// The longest run of letters of ASCII, digits and `_`.
    Word(&'a str),
    /// `?`.
    Question,
    /// `[]`.
    Brackets,
    /// `(`.
    Opening,
    /// `)`.
    Closing,
    /// `,`.
    Comma,
    /// `@`.
    At,
    /// `.`.
    Point,
    /// `:`.
    Colon,
    /// A byte that begins none of the others.
    Other(u8),
}

/// The mark that a byte is by itself.
fn mark(byte: u8) -> Token<'static>
    ensures { token_of result ≡ mark byte }
{
    match byte {
        b'?' => Token::Question,
        b'(' => Token::Opening,
        b')' => Token::Closing,
        b',' => Token::Comma,
        b'@' => Token::At,
        b'.' => Token::Point,
        b':' => Token::Colon,
        _ => Token::Other(byte),
    }
}

/// How many bytes from the front on may stand in a name.
fn run_len(bytes: &[u8]) -> usize
    ensures within { result ≤ length bytes.now }
    ensures names { (k : ℕ) → k < result → IsTrue (is_name_byte (slice_index bytes.now k)) }
    ensures longest { result < length bytes.now → IsFalse (is_name_byte (slice_index bytes.now result)) }
{
    for (place, byte) in bytes.iter().enumerate() {
        if !is_name_byte(*byte) {
            return place;
        }
    }
    bytes.len()
}

/// The token that begins at a place of a text, and the place behind it. None at the text's end.
pub fn token_at(text: &str, place: usize) -> Option<(Token<'_>, usize)>
    requires { place ≤ length text.now }
    ensures token { IfSome result (λ found. tokens (drop place text.now)
        ≡ token_of found.0 ∷ tokens (drop found.1 text.now)) }
    ensures behind { IfSome result (λ found. found.1 ≡ place + length (token_bytes (token_of found.0))) }
    ensures further { IfSome result (λ found. place < found.1) }
    ensures within { IfSome result (λ found. found.1 ≤ length text.now) }
    ensures end { IfNone result (place ≡ length text.now) }
{
    let bytes = &text.as_bytes()[place..];
    let first = *bytes.first()?;
    if is_name_byte(first) {
        let behind = place + run_len(bytes);
        Some((Token::Word(&text[place..behind]), behind))
    } else if bytes.starts_with(b"[]") {
        Some((Token::Brackets, place + 2))
    } else {
        Some((mark(first), place + 1))
    }
}
