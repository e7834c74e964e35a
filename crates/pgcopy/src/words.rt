ghost use Rattle.std.specs.Prelude.{◌≡◌, ◌≢◌, ◌↔◌, ◌⊎◌, ◌+◌, ◌-◌, ◌≤◌, ◌<◌, [], ◌∷◌, ◌++◌, map, codes, string_bytes, Option, None, Some, is_some, option_map, Ok, Err, true, IfOk, IfErr, IfSome, MatchResult};
ghost use Rattle.std.specs.List.{filter_map, list_all};
ghost use Rattle.std.specs.Option.{unwrap_or};
ghost use Rattle.pgw_meta.specs.NamedOids.{known_of};
ghost use Rattle.pgw_meta.specs.Catalog.{in_schema};
ghost use Rattle.pgw_meta.specs.Types.{shape, column_shapes, types_of};
ghost use Rattle.pgw_meta.specs.Schema.{schema_fault, fault_number};
ghost use Rattle.pgw_tree.specs.ColumnTypes.{AreBuilt};
ghost use Rattle.pgw_tree.specs.Limits.{default_limits};
ghost use Rattle.pgcopy.specs.OidWords.{given_entry};
ghost use Rattle.pgcopy.specs.Words.{has_record, behind, is_option, type_of, as_word_fault, type_fault_of, entry_of, number_of, option_fault, word_fault, place_of, first_fault, PlanData, IsPlan, HasNoPlan, PlacedFault, placed, IsFirstFault, IsOfAColumn, plan_of, texts};
ghost use Rattle.pgcopy.specs.WordsRead.{AreRead, AreColumns, plan_data};

use crate::numbers::read_number;
use crate::oid_words::{GivenOids, given_oids};
use pgw_meta::{Found, FoundOids, PgType, Schema, SchemaError, TypeKey, TypeList};
use pgw_notation::{TypeFault, parse_type, type_fault};
use pgw_tree::{FIELD_MAX, Limits};
use pgw_wire::NoMemory;
use std::alloc::Global;
use thiserror::Error;

/// The most rows, where no word limits them.
const ROWS_MAX: u64 = u64::MAX;

/// How many columns a row has at most: its count of fields has 16 bits with a sign.
const COLUMNS_MAX: usize = 32767;

/// What is wrong with the words of a command line.
#[derive(Clone, Copy, Debug, PartialEq, Eq, Error)]
pub enum WordFault {
    /// There are no words.
    #[error("missing command")]
    NoCommand,
    /// The first word is no command.
    #[error("unknown command")]
    UnknownCommand,
    /// The digits of an option are no number that it may have.
    #[error("bad number")]
    BadNumber,
    /// The option stands before it already; of `oid=` one of this schema and name does.
    #[error("repeated option")]
    Repeated,
    /// What stands behind `oid=` is not `[schema.]name:OID:ARRAYOID`, with names of 1 to 63 letters of ASCII, digits and
    /// `_`, and numbers of at most 4294967295.
    #[error("bad oid word")]
    BadOid,
    /// The word is no text of a type: at this byte something begins that cannot stand there, or the word ends too early.
    #[error("bad type at {0}")]
    BadType(usize),
    /// At this byte of the word a `(` stands while 31 records are open, or a `?` or `[]` behind 31 of these.
    #[error("type too deep at {0}")]
    DeepType(usize),
    /// The command has no column types.
    #[error("missing type")]
    NoTypes,
    /// The types are not those of a schema's columns, by the number of `SchemaError`. 2: there are more than 32767
    /// columns. Each other is of the column that the word names.
    #[error("schema fault {0}")]
    Schema(u8),
    /// The word names a type with a record in it, which is not copied yet.
    #[error("not supported yet")]
    NotYet,
}

/// Why the words gave no plan.
#[derive(Clone, Copy, Debug, PartialEq, Eq, Error)]
pub enum WordError {
    /// What is wrong first, and the place of its word, counted from 0.
    #[error("word {place}: {fault}")]
    Fault { place: usize, fault: WordFault },
    /// Memory was asked for and refused.
    #[error("out of memory")]
    NoMemory,
}

impl From<NoMemory> for WordError {
    ghost use Rattle.pgcopy.specs.declared.words.WordError.TheVariants.{NoMemory};

    ghost from_gives = { λ _ e. e ≡ NoMemory };

    fn from(_: NoMemory) -> WordError {
        WordError::NoMemory
    }
}

/// What the words of a command line ask for.
#[derive(Drop)]
pub struct Plan {
    /// How much is copied at most.
    pub limits: Limits,
    /// The oids that the words give types, in their order, each key with its schema.
    pub entries: FoundOids,
    /// The types of the columns.
    pub schema: Schema,
}

/// What was read of the words so far: the numbers of the options, and how many types there are.
#[derive(Clone, Copy)]
struct WordsRead {
    rows: Option<u64>,
    field: Option<u64>,
    types: usize,
}

/// Whether a record stands in a word that is the text of a type. Records are not copied yet.
fn has_record(word: &str) -> bool
    ensures { result ≡ has_record word.now }
{
    word.as_bytes().iter().any(|byte| *byte == b'(')
}

/// What a fault of a text is as that of a word. A check takes no memory.
fn as_word_fault(fault: TypeFault) -> WordFault
    requires { fault ≢ TypeFault.NoMemory }
    ensures { result ≡ as_word_fault fault }
{
    match fault {
        TypeFault::Syntax { place } => WordFault::BadType(place),
        TypeFault::TooDeep { place } => WordFault::DeepType(place),
        TypeFault::NoMemory => unreachable!("a check takes no memory"),
    }
}

/// What is wrong with a word that is to be the text of a column's type.
fn type_fault_of(word: &str) -> Option<WordFault>
    ensures { result ≡ type_fault_of word.now }
{
    match type_fault(word) {
        Some(fault) => Some(as_word_fault(fault)),
        None if has_record(word) => Some(WordFault::NotYet),
        None => None,
    }
}

/// What stands in a word behind a text, where it begins with it.
fn behind<'a>(word: &'a str, front: &str) -> Option<&'a str>
    ensures { option_map (λ rest. rest.now) result ≡ behind front.now word.now }
{
    word.strip_prefix(front)
}

/// Whether a word is an option, where no type stands before it.
fn is_option(word: &str) -> bool
    ensures { result ≡ is_option word.now }
{
    behind(word, "rows=").is_some()
        || behind(word, "field=").is_some()
        || behind(word, "oid=").is_some()
}

/// The oids that an option `oid=` gives a type.
fn oids_of(word: &str) -> Option<GivenOids<'_>>
    ensures { option_map given_entry result ≡ entry_of word.now }
{
    given_oids(behind(word, "oid=")?)
}

/// Whether one of the words gives oids to the type of this name in this schema.
fn is_given(words: &[String], schema: &str, name: &str) -> bool
    ensures { result ≡ is_some (known_of (filter_map entry_of (map string_bytes words.now)) (in_schema schema.now name.now)) }
{
    for word in words {
        if let Some(given) = oids_of(word.as_str()) {
            if given.schema == schema && given.name == name {
                return true;
            }
        }
    }
    false
}

/// The number of an option, of at most `most`. `again` says that the option stands before it already.
fn number_of(digits: &str, most: u64, again: bool) -> Result<u64, WordFault>
    ensures { result ≡ number_of most digits.now again }
{
    match read_number(digits, most) {
        None => Err(WordFault::BadNumber),
        Some(_) if again => Err(WordFault::Repeated),
        Some(number) => Ok(number),
    }
}

/// Reads an option behind others, which stand before it.
fn read_option(seen: WordsRead, before: &[String], word: &str) -> Result<WordsRead, WordFault>
    ensures { AreRead seen (texts before.now) → list_all is_option (texts before.now) ≡ true → is_option word.now ≡ true
        → MatchResult result
        (λ next. (option_fault (texts before.now) word.now ≡ None) × AreRead next (texts before.now ++ (word.now ∷ [])))
        (λ fault. option_fault (texts before.now) word.now ≡ Some fault) }
{
    if let Some(digits) = behind(word, "rows=") {
        let rows = number_of(digits, ROWS_MAX, seen.rows.is_some())?;
        Ok(WordsRead {
            rows: Some(rows),
            ..seen
        })
    } else if let Some(digits) = behind(word, "field=") {
        let field = number_of(digits, FIELD_MAX as u64, seen.field.is_some())?;
        Ok(WordsRead {
            field: Some(field),
            ..seen
        })
    } else {
        match oids_of(word) {
            None => Err(WordFault::BadOid),
            Some(given) if is_given(before, given.schema, given.name) => Err(WordFault::Repeated),
            Some(_) => Ok(seen),
        }
    }
}

/// Reads a word behind others, which stand before it.
fn read_word(seen: WordsRead, before: &[String], word: &str) -> Result<WordsRead, WordFault>
    requires { seen.types < 18446744073709551615 }
    ensures { AreRead seen (texts before.now)
        → MatchResult result
        (λ next. (word_fault (texts before.now) word.now ≡ None) × AreRead next (texts before.now ++ (word.now ∷ [])))
        (λ fault. word_fault (texts before.now) word.now ≡ Some fault) }
{
    if seen.types == 0 && is_option(word) {
        read_option(seen, before, word)
    } else {
        match type_fault_of(word) {
            Some(fault) => Err(fault),
            None => Ok(WordsRead {
                types: seen.types + 1,
                ..seen
            }),
        }
    }
}

/// Reads the words behind the command. An error has its place, counted from the command.
fn read_behind(words: &[String]) -> Result<WordsRead, (usize, WordFault)>
    ensures ok { IfOk result (λ seen. AreRead seen (map string_bytes words.now)
        × (first_fault (codes "copy" ∷ []) (map string_bytes words.now)
        ≡ first_fault (codes "copy" ∷ map string_bytes words.now) [])) }
    ensures err { IfErr result (λ e. first_fault (codes "copy" ∷ []) (map string_bytes words.now)
        ≡ Some (placed e.0 e.1)) }
{
    let mut seen = WordsRead {
        rows: None,
        field: None,
        types: 0,
    };
    for (k, word) in words.iter().enumerate() {
        match read_word(seen, &words[..k], word.as_str()) {
            Ok(next) => seen = next,
            Err(fault) => return Err((k + 1, fault)),
        }
    }
    Ok(seen)
}

/// Reads all words, the command too, but for whether their types are those of a schema's columns. An error has its place.
fn read_all(words: &[String]) -> Result<WordsRead, (usize, WordFault)>
    ensures ok { IfOk result (λ seen. AreColumns seen (map string_bytes words.now)) }
    ensures err { IfErr result (λ e. plan_of words.now ≡ Err (placed e.0 e.1)) }
{
    let Some((command, rest)) = words.split_first() else {
        return Err((0, WordFault::NoCommand));
    };
    if command.as_str() != "copy" {
        return Err((0, WordFault::UnknownCommand));
    }
    let seen = read_behind(rest)?;
    if seen.types == 0 {
        return Err((words.len(), WordFault::NoTypes));
    }
    if seen.types > COLUMNS_MAX {
        return Err((words.len(), WordFault::Schema(2)));
    }
    Ok(seen)
}

/// The entries of the oids that the words give, in their order.
fn known_entries(alloc: Global, words: &[String]) -> Result<FoundOids, NoMemory>
    ensures { IfOk result (λ entries. entries ≡ filter_map entry_of (map string_bytes words.now)) }
{
    let mut entries = FoundOids::new(alloc);
    for word in words {
        if let Some(given) = oids_of(word.as_str()) {
            entries.push(Found {
                key: TypeKey::new(alloc, Some(given.schema), given.name)?,
                oid: given.oid,
                array_oid: given.array_oid,
            })?;
        }
    }
    Ok(entries)
}

/// The type of a column that a word is the text of, where it is that of one.
fn column_of(alloc: Global, word: &str) -> Result<Option<PgType>, NoMemory>
    ensures { IfOk result (λ column. option_map shape column ≡ type_of word.now) }
{
    if has_record(word) {
        return Ok(None);
    }
    match parse_type(alloc, word) {
        Ok(t) => Ok(Some(t)),
        Err(TypeFault::Syntax { .. }) => Ok(None),
        Err(TypeFault::TooDeep { .. }) => Ok(None),
        Err(TypeFault::NoMemory) => Err(NoMemory),
    }
}

/// The types that the words are the texts of, in their order. The command and the options are none.
fn known_types(alloc: Global, words: &[String]) -> Result<TypeList, NoMemory>
    ensures { IfOk result (λ columns. column_shapes (types_of columns) ≡ filter_map type_of (map string_bytes words.now)) }
{
    let mut columns = TypeList::new(alloc);
    for word in words {
        if let Some(t) = column_of(alloc, word.as_str())? {
            columns.push(t)?;
        }
    }
    Ok(columns)
}

/// The schema of the types that the words are the texts of.
fn known_schema(alloc: Global, words: &[String]) -> Result<Schema, SchemaError>
    ensures types { IfOk result (λ schema. column_shapes schema ≡ filter_map type_of (map string_bytes words.now)) }
    ensures built { IfOk result (λ schema. AreBuilt (column_shapes schema)) }
    ensures none { IfOk result (λ _. schema_fault (filter_map type_of (map string_bytes words.now)) ≡ None) }
    ensures fault { IfErr result (λ e. (e ≡ SchemaError.NoMemory)
        ⊎ (schema_fault (filter_map type_of (map string_bytes words.now)) ≡ Some e)) }
{
    let columns = known_types(alloc, words)?;
    Schema::new(alloc, columns)
}

/// The fault of a column's word, where the first column is that of the word at this place.
fn column_fault(first: usize, behind: usize, error: SchemaError) -> WordError
    requires fits { place_of first behind error ≤ behind }
    ensures memory { error ≡ SchemaError.NoMemory → result ≡ WordError.NoMemory }
    ensures placed { error ≢ SchemaError.NoMemory
        → result ≡ WordError.Fault (place_of first behind error) (WordFault.Schema (fault_number error)) }
{
    let place = match error {
        SchemaError::NoMemory => return WordError::NoMemory,
        SchemaError::NoColumns | SchemaError::TooManyColumns => behind,
        SchemaError::NestedNullable { column }
        | SchemaError::NestedArray { column }
        | SchemaError::BadRange { column }
        | SchemaError::EmptyRecord { column }
        | SchemaError::WideRecord { column }
        | SchemaError::BadNamed { column }
        | SchemaError::TooDeep { column } => first + column,
    };
    WordError::Fault {
        place,
        fault: WordFault::Schema(error.number()),
    }
}

/// The limits that the options set, and the defaults of the others.
fn limits_from(seen: WordsRead) -> Limits
    requires field { IfSome seen.field (λ field. field ≤ 2147483647) }
    ensures { result ≡ record {
      rows_max = unwrap_or seen.rows default_limits.rows_max;
      field_max = unwrap_or seen.field default_limits.field_max;
    } }
{
    let rows = seen.rows.unwrap_or(ROWS_MAX);
    let field = seen.field.unwrap_or(FIELD_MAX as u64);
    Limits::new(rows, field as u32).unwrap()
}

/// What the words ask for: the command `copy`, which is the only one, then options, and then the text of a type for each
/// column. `rows=` and `field=` stand there at most once, and `oid=[schema.]name:OID:ARRAYOID` at most once for each
/// schema and name, where a name without a schema stands in the schema `public`. `IsPlan` says it.
///
/// Where no plan is what they ask for, the error is their first fault from the left; what is wrong with a column's type,
/// though each word is the text of one, comes behind all others. `IsFirstFault` says which that is. Memory is asked for
/// only where there is a plan, or such a fault.
#[tactic(auto, using(crate::proofs::Plans::found_is_plan, crate::proofs::Plans::found_is_first))]
pub fn read_words(alloc: Global, words: &[String]) -> Result<Plan, WordError>
    ensures plan { IfOk result (λ plan. plan_of words.now ≡ Ok (plan_data plan)) }
    ensures is_plan { IfOk result (λ plan. IsPlan (map string_bytes words.now) (plan_data plan)) }
    ensures built { IfOk result (λ plan. AreBuilt (column_shapes plan.schema)) }
    ensures fault { (place : _) (fault : _) → result ≡ Err (WordError.Fault place fault)
        → plan_of words.now ≡ Err (placed place fault) }
    ensures no_plan { (place : _) (fault : _) → result ≡ Err (WordError.Fault place fault)
        → HasNoPlan (map string_bytes words.now) }
    ensures first_fault { (place : _) (fault : _) → result ≡ Err (WordError.Fault place fault)
        → IsFirstFault (map string_bytes words.now) (placed place fault) }

    // Want of memory comes in place of a plan, or of the fault of a column's type.
    ensures no_memory { result ≡ Err WordError.NoMemory → IfErr (plan_of words.now) (λ wrong. IsOfAColumn wrong.fault) }

    // `plan_of` is the plan where there is one, and else the first fault.
    ensures plans { (plan : PlanData) → (plan_of words.now ≡ Ok plan) ↔ IsPlan (map string_bytes words.now) plan }
    ensures faults { (wrong : PlacedFault)
        → (plan_of words.now ≡ Err wrong) ↔ IsFirstFault (map string_bytes words.now) wrong }
{
    let seen = match read_all(words) {
        Ok(seen) => seen,
        Err((place, fault)) => return Err(WordError::Fault { place, fault }),
    };
    let entries = known_entries(alloc, words)?;
    let schema = match known_schema(alloc, words) {
        Ok(schema) => schema,
        Err(error) => return Err(column_fault(words.len() - seen.types, words.len(), error)),
    };
    let limits = limits_from(seen);
    Ok(Plan {
        limits,
        entries,
        schema,
    })
}
