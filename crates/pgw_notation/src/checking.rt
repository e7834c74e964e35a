ghost use Rattle.std.specs.Prelude.{◌≡◌, ◌+◌, None, Some, IfNone, IfSome, nat_le};
ghost use Rattle.std.specs.Result.{result_map_both};
ghost use Rattle.pgw_meta.specs.Shape.{Shape};
ghost use Rattle.pgw_notation.specs.Faults.{IsTextOf, IsFaultOf};
ghost use Rattle.pgw_notation.specs.Tokens.{tokens};
ghost use Rattle.pgw_notation.specs.Reading.{unless_deep};
ghost use Rattle.pgw_notation.specs.Checking.{at_start, after_type, sketch_at, check_token, check_tokens};
ghost use Rattle.pgw_notation.specs.Views.{token_of, sketch};

use crate::TypeFault;
use crate::names::{is_name, is_type_name};
use crate::tokens::{Token, token_at};

/// How many records are open at most, and how many suffixes stand behind a base.
pub const DEPTH_MAX: usize = 31;

/// What kind of thing stands in front of the next token, in the innermost record.
#[derive(Clone, Copy)]
enum Behind {
    /// Nothing: a type has to come.
    Nothing,
    /// `@`.
    AtSign,
    /// `@` and a name.
    FirstName,
    /// `@`, the name of a schema and a point.
    SchemaPoint,
    /// `@`, a schema, a point and a name.
    WholeKey,
    /// `@`, a key and a colon.
    KeyColon,
    /// A type with so many suffixes behind its base.
    Suffixes(usize),
}

/// How far a text was checked.
#[derive(Clone, Copy)]
struct Progress {
    /// How many records are open.
    depth: usize,
    /// What stands in front of the next token.
    behind: Behind,
}

/// The same with one record more open.
fn opened(depth: usize, place: usize) -> Result<Progress, TypeFault>
    ensures { result_map_both sketch (λ e. e) result
        ≡ unless_deep place (nat_le 31 depth) (Some (sketch_at (depth + 1) at_start)) }
{
    if depth >= DEPTH_MAX {
        return Err(TypeFault::TooDeep { place });
    }
    Ok(Progress {
        depth: depth + 1,
        behind: Behind::Nothing,
    })
}

/// Checks a token behind a type.
fn check_behind_type(
    depth: usize,
    suffixes: usize,
    token: Token<'_>,
    place: usize,
) -> Result<Progress, TypeFault>
    ensures { result_map_both sketch (λ e. e) result
        ≡ check_token place (sketch_at depth (after_type suffixes)) (token_of token.entry) }
{
    match token {
        Token::Question | Token::Brackets => {
            if suffixes >= DEPTH_MAX {
                return Err(TypeFault::TooDeep { place });
            }
            Ok(Progress {
                depth,
                behind: Behind::Suffixes(suffixes + 1),
            })
        }
        Token::Comma if depth > 0 => Ok(Progress {
            depth,
            behind: Behind::Nothing,
        }),
        Token::Closing if depth > 0 => Ok(Progress {
            depth: depth - 1,
            behind: Behind::Suffixes(0),
        }),
        _ => Err(TypeFault::Syntax { place }),
    }
}

/// Checks a token at this place.
fn check_token(progress: Progress, token: Token<'_>, place: usize) -> Result<Progress, TypeFault>
    ensures { result_map_both sketch (λ e. e) result ≡ check_token place (sketch progress) (token_of token.entry) }
{
    let Progress { depth, behind } = progress;
    let next = |behind| Ok(Progress { depth, behind });
    match (behind, token) {
        (Behind::Nothing, Token::Word(name)) if is_type_name(name) => next(Behind::Suffixes(0)),
        (Behind::Nothing | Behind::KeyColon, Token::Opening) => opened(depth, place),
        (Behind::Nothing, Token::At) => next(Behind::AtSign),
        (Behind::AtSign, Token::Word(name)) if is_name(name) => next(Behind::FirstName),
        (Behind::FirstName, Token::Point) => next(Behind::SchemaPoint),
        (Behind::FirstName | Behind::WholeKey, Token::Colon) => next(Behind::KeyColon),
        (Behind::SchemaPoint, Token::Word(name)) if is_name(name) => next(Behind::WholeKey),
        (Behind::KeyColon, Token::Word("text")) => next(Behind::Suffixes(0)),
        (Behind::Suffixes(suffixes), _) => check_behind_type(depth, suffixes, token, place),
        _ => Err(TypeFault::Syntax { place }),
    }
}

/// The first fault of the tokens of a text.
fn check_text(text: &str) -> Option<TypeFault>
    ensures { result ≡ check_tokens 0 (sketch_at 0 at_start) (tokens text.now) }
{
    let mut progress = Progress {
        depth: 0,
        behind: Behind::Nothing,
    };
    let mut place = 0;
    while let Some((token, behind)) = token_at(text, place) {
        match check_token(progress, token, place) {
            Ok(next) => progress = next,
            Err(fault) => return Some(fault),
        }
        place = behind;
    }
    match progress {
        Progress {
            depth: 0,
            behind: Behind::Suffixes(_),
        } => None,
        _ => Some(TypeFault::Syntax { place }),
    }
}

/// The first thing that is wrong with the text of a type, where something is: what `parse_type` answers of it. It takes no
/// memory, and never answers `NoMemory`.
pub fn type_fault(text: &str) -> Option<TypeFault>
    ensures fault { IfSome result (λ fault. IsFaultOf fault text.now) }
    ensures none { IfNone result ((t : Shape) × IsTextOf t text.now) }

    // The first fault is the answer, and the text of a type has none.
    ensures each_fault { (fault : TypeFault) → IsFaultOf fault text.now → result ≡ Some fault }
    ensures each_text { (t : Shape) → IsTextOf t text.now → result ≡ None }
{
    check_text(text)
}
