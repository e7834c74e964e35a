ghost use Rattle.std.specs.Prelude.{◌≡◌, ◌&&◌, option_map};
ghost use Rattle.pgcopy.specs.Numbers.{read_number};
ghost use Rattle.pgcopy.specs.OidWords.{is_name_byte, is_name, names_in, entry_in, given_entry};

use crate::numbers::read_number;

/// How many bytes a name has at most.
const NAME_MAX: usize = 63;

/// The schema that a name without one stands in.
pub const SEARCHED_SCHEMA: &str = "public";

/// The oids that a word gives a type, with the names of the type and of its schema, which are parts of the word.
#[derive(Clone, Copy)]
pub struct GivenOids<'a> {
    /// The schema that the type stands in.
    pub schema: &'a str,
    /// The type's name.
    pub name: &'a str,
    /// The oid of the type.
    pub oid: u32,
    /// The oid of the type of its arrays.
    pub array_oid: u32,
}

/// Whether a byte may stand in a name.
fn is_name_byte(byte: u8) -> bool
    ensures { result ≡ is_name_byte byte }
{
    byte.is_ascii_alphanumeric() || byte == b'_'
}

/// Whether a text is a name: 1 to 63 letters of ASCII, digits and `_`.
fn is_name(text: &str) -> bool
    ensures { result ≡ is_name text.now }
{
    let bytes = text.as_bytes();
    if bytes.is_empty() || bytes.len() > NAME_MAX {
        return false;
    }
    bytes.iter().all(|byte| is_name_byte(*byte))
}

/// Whether both texts are names.
fn are_names(schema: &str, name: &str) -> bool
    ensures { result ≡ (is_name schema.now && is_name name.now) }
{
    is_name(schema) && is_name(name)
}

/// The texts round the first point, or the schema `public` and the whole text where there is none.
fn names_in(text: &str) -> (&str, &str)
    ensures { (result.0.now, result.1.now) ≡ names_in text.now }
{
    match text.split_once('.') {
        Some((schema, name)) => (schema, name),
        None => (SEARCHED_SCHEMA, text),
    }
}

/// The oid that digits write.
fn oid_in(digits: &str) -> Option<u32>
    ensures { result ≡ read_number 4294967295 digits.now }
{
    let oid = read_number(digits, u64::from(u32::MAX))?;
    Some(oid as u32)
}

/// The oids that `[schema.]name:OID:ARRAYOID` gives a type. None where the text has another form.
pub fn given_oids(text: &str) -> Option<GivenOids<'_>>
    ensures { option_map given_entry result ≡ entry_in text.now }
{
    let (named, oids) = text.split_once(':')?;
    let (oid, array_oid) = oids.split_once(':')?;
    let (schema, name) = names_in(named);
    let oid = oid_in(oid)?;
    let array_oid = oid_in(array_oid)?;
    if are_names(schema, name) {
        Some(GivenOids {
            schema,
            name,
            oid,
            array_oid,
        })
    } else {
        None
    }
}
