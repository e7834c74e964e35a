ghost use Rattle.std.specs.Prelude.{◌≡◌, ◌≢◌, ◌⊎◌, List, Some, Ok, Err, option_map, length, nat_le, IfOk, IfErr, MatchResult};
ghost use Rattle.pgw_meta.specs.Keys.{owned_key};
ghost use Rattle.pgw_meta.specs.Shape.{Shape, composite};
ghost use Rattle.pgw_meta.specs.Types.{shape};
ghost use Rattle.pgw_notation.specs.Faults.{IsTextOf, IsFaultOf};
ghost use Rattle.pgw_notation.specs.Reading.{Frame, no_type, behind_at, behind_name, behind_point, behind_key, behind_colon, behind_type, in_mode, read_token, read_tokens, unless_deep, opened, ended, start, Answers};
ghost use Rattle.pgw_notation.specs.Tokens.{tokens};
ghost use Rattle.pgw_notation.specs.Views.{token_of, frame_of, frames_of, mode_of, state_of};

use crate::TypeFault;
use crate::checking::{DEPTH_MAX, type_fault};
use crate::names::{is_name, type_named};
use crate::tokens::{Token, token_at};
use pgw_meta::{PgType, TypeKey, TypeList};
use std::alloc::Global;

/// A record whose `)` is still to come.
#[derive(Drop)]
struct Open {
    /// The key in front of its `(`.
    key: Option<TypeKey>,
    /// Its components so far.
    parts: TypeList,
}

/// What stands in front of the next token, in the innermost record.
#[derive(Drop)]
enum Front<'a> {
    /// Nothing: a type has to come.
    Start,
    /// `@`.
    BehindAt,
    /// `@` and a name, which may be that of a schema.
    BehindName(&'a str),
    /// `@`, the name of a schema and a point.
    BehindPoint(&'a str),
    /// `@` and a whole key, of a schema and a name.
    BehindKey(&'a str, &'a str),
    /// `@`, a key and a colon.
    BehindColon(TypeKey),
    /// A type, and how many suffixes stand behind its base.
    BehindType(PgType, usize),
}

/// Opens a record.
fn open_record<'a>(
    alloc: Global,
    open: &mut Vec<Open>,
    key: Option<TypeKey>,
    place: usize,
) -> Result<Front<'a>, TypeFault>
    ensures { Answers (λ front. state_of open.new.items front) result
        (unless_deep place (nat_le 31 (length (frames_of open.old.items)))
        (Some (opened (option_map owned_key key) (frames_of open.old.items)))) }
{
    if open.len() >= DEPTH_MAX {
        return Err(TypeFault::TooDeep { place });
    }
    open.push(Open {
        key,
        parts: TypeList::new(alloc),
    })?;
    Ok(Front::Start)
}

/// The record, with its key where it has one.
fn record_of(alloc: Global, innermost: Open, last: PgType) -> Result<PgType, TypeFault>
    ensures { Answers shape result (Ok (ended (frame_of innermost) (shape last))) }
{
    let Open { key, mut parts } = innermost;
    parts.push(last)?;
    let t = PgType::Record(parts);
    match key {
        None => Ok(t),
        Some(key) => Ok(PgType::Named(key, Box::new(alloc, t)?)),
    }
}

/// Reads a token behind a type.
fn read_behind_type<'a>(
    alloc: Global,
    open: &mut Vec<Open>,
    t: PgType,
    suffixes: usize,
    token: Token<'a>,
    place: usize,
) -> Result<Front<'a>, TypeFault>
    ensures { Answers (λ front. state_of open.new.items front) result
        (read_token place (in_mode (frames_of open.old.items) (behind_type suffixes (shape t)))
        (token_of token.entry)) }
{
    match token {
        Token::Question => {
            if suffixes >= DEPTH_MAX {
                return Err(TypeFault::TooDeep { place });
            }
            let t = PgType::Nullable(Box::new(alloc, t)?);
            Ok(Front::BehindType(t, suffixes + 1))
        }
        Token::Brackets => {
            if suffixes >= DEPTH_MAX {
                return Err(TypeFault::TooDeep { place });
            }
            let t = PgType::Array(Box::new(alloc, t)?);
            Ok(Front::BehindType(t, suffixes + 1))
        }
        Token::Comma => {
            let Some(record) = open.last_mut() else {
                return Err(TypeFault::Syntax { place });
            };
            record.parts.push(t)?;
            Ok(Front::Start)
        }
        Token::Closing => {
            let Some(record) = open.pop() else {
                return Err(TypeFault::Syntax { place });
            };
            Ok(Front::BehindType(record_of(alloc, record, t)?, 0))
        }
        _ => Err(TypeFault::Syntax { place }),
    }
}

/// Reads a token at this place, behind what stands in front of it.
fn read_token<'a>(
    alloc: Global,
    open: &mut Vec<Open>,
    front: Front<'a>,
    token: Token<'a>,
    place: usize,
) -> Result<Front<'a>, TypeFault>
    ensures { Answers (λ next. state_of open.new.items next) result
        (read_token place (state_of open.old.items front.entry) (token_of token.entry)) }
{
    match (front, token) {
        (Front::Start, Token::Word(name)) => match type_named(alloc, name)? {
            Some(t) => Ok(Front::BehindType(t, 0)),
            None => Err(TypeFault::Syntax { place }),
        },
        (Front::Start, Token::Opening) => open_record(alloc, open, None, place),
        (Front::Start, Token::At) => Ok(Front::BehindAt),
        (Front::BehindAt, Token::Word(name)) if is_name(name) => Ok(Front::BehindName(name)),
        (Front::BehindName(first), Token::Point) => Ok(Front::BehindPoint(first)),
        (Front::BehindName(first), Token::Colon) => {
            Ok(Front::BehindColon(TypeKey::new(alloc, None, first)?))
        }
        (Front::BehindPoint(schema), Token::Word(name)) if is_name(name) => {
            Ok(Front::BehindKey(schema, name))
        }
        (Front::BehindKey(schema, name), Token::Colon) => {
            Ok(Front::BehindColon(TypeKey::new(alloc, Some(schema), name)?))
        }
        (Front::BehindColon(key), Token::Word("text")) => {
            let part = Box::new(alloc, PgType::Text)?;
            Ok(Front::BehindType(PgType::Named(key, part), 0))
        }
        (Front::BehindColon(key), Token::Opening) => open_record(alloc, open, Some(key), place),
        (Front::BehindType(t, suffixes), _) => {
            read_behind_type(alloc, open, t, suffixes, token, place)
        }
        _ => Err(TypeFault::Syntax { place }),
    }
}

/// The type of the tokens of a text.
fn read_text(alloc: Global, text: &str) -> Result<PgType, TypeFault>
    ensures { Answers shape result (read_tokens 0 start (tokens text.now)) }
{
    let mut open = Vec::new(alloc);
    let mut front = Front::Start;
    let mut place = 0;
    while let Some((token, behind)) = token_at(text, place) {
        front = read_token(alloc, &mut open, front, token, place)?;
        place = behind;
    }
    match front {
        Front::BehindType(t, _) if open.is_empty() => Ok(t),
        _ => Err(TypeFault::Syntax { place }),
    }
}

/// Reads the text of a type:
///
/// ```text
/// type = base suffix*                                    suffix = "?" | "[]"
/// base = name | record | "@" key ":" ("text" | record)   key = [schema "."] name
/// record = "(" type ("," type)* ")"
/// ```
///
/// The name of a type is that of a scalar, as `int4`, of a range, as `int4range`, or of a multirange, as
/// `int4multirange`. A `?` behind a type says that it may be null, and `[]` that it is an array of such elements. The
/// names of a key have 1 to 63 letters of ASCII, digits and `_`. There are no spaces. Which types the columns of a stream
/// may have, the notation does not say: `Schema::new` does.
///
/// An error is the first thing that is wrong, whatever memory there is: `Syntax` where a token begins that no type's text
/// goes on with, or where the text ends too early; and `TooDeep` where a token that may follow is a `(` while 31 records
/// are open, or a suffix behind 31 others of one base. `NoMemory` comes only with the text of a type.
pub fn parse_type(alloc: Global, text: &str) -> Result<PgType, TypeFault>
    ensures text { IfOk result (λ t. IsTextOf (shape t) text.now) }
    ensures fault { (fault : TypeFault) → fault ≢ TypeFault.NoMemory → result ≡ Err fault → IsFaultOf fault text.now }
    ensures no_memory { result ≡ Err TypeFault.NoMemory → (t : Shape) × IsTextOf t text.now }

    // The first fault is the answer, and the text of a type is read as that type unless memory is refused.
    ensures each_fault { (fault : TypeFault) → IsFaultOf fault text.now → result ≡ Err fault }
    ensures each_text { (t : Shape) → IsTextOf t text.now
        → MatchResult result (λ u. shape u ≡ t) (λ e. e ≡ TypeFault.NoMemory) }
{
    match type_fault(text) {
        Some(fault) => Err(fault),
        None => read_text(alloc, text),
    }
}
