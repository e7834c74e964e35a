ghost use Rattle.std.specs.Prelude.{◌≡◌, ◌≢◌, ◌≤◌, ◌⊎◌, ⊤, ℕ, ◌++◌, codes, Err, Some, None, true, option_map, IfOk, IfErr, IsOk, IsErr, IsOkAnd, IsOkUnless, OnOk};
ghost use Rattle.pgw_wire.specs.Outside.{left, settled, HasFailed, Took, HasFront, HasNoFront, Gains};
ghost use Rattle.pgw_meta.specs.Known.{Key};
ghost use Rattle.pgw_meta.specs.Types.{column_shapes};
ghost use Rattle.pgw_tree.specs.ColumnTypes.{AreBuilt};
ghost use Rattle.pgw_tree.specs.Lookups.{IsUnknownType};
ghost use Rattle.pgw_tree.specs.Stream.{IsValidStream};
ghost use Rattle.pgcopy.specs.OidWords.{AreEntries};
ghost use Rattle.pgcopy.specs.Words.{texts, PlanData, IsPlan, HasNoPlan, PlacedFault, IsFirstFault, IsOfAColumn, plan_of, missing};
ghost use Rattle.pgcopy.specs.WordsRead.{plan_data};
ghost use Rattle.pgcopy.specs.Runs.{CopiedRows, MetFault};
ghost use Rattle.pgcopy.specs.Report.{line_of, unknown_text, fault_status, status_of, WroteUnlessFailed};

use crate::catalog::catalog_of;
use crate::report::{Outcome, Status, report};
use crate::words::{Plan, WordError, read_words};
use pgw_meta::CachedLookup;
use pgw_tree::{Copied, CopyFault, recopy};
use pgw_wire::{Sink, Source};
use std::alloc::Global;

/// Copies what a plan asks for. The oids that its columns need are looked up among its entries.
fn copy_plan<S: Source, K: Sink>(
    alloc: Global,
    plan: &Plan,
    source: &mut S,
    sink: &mut K,
) -> Result<Copied, CopyFault>
    requires built { AreBuilt (column_shapes plan.now.schema) }
    requires entries { AreEntries plan.now.entries }
    ensures copied { IfOk result (λ copied. CopiedRows (plan_data plan.now) copied.rows
        (S.state source.old) (S.state source.new) (K.state sink.old) (K.state sink.new)) }
    ensures settled { OnOk result (settled (K.state sink.new) ≡ option_map (λ _. true) (settled (K.state sink.old))) }
    ensures fault { (fault : CopyFault) → result ≡ Err fault → MetFault (plan_data plan.now) fault
        (S.state source.old) (S.state source.new) (K.state sink.old) (K.state sink.new) }
    ensures unmet { (key : Key) → missing (plan_data plan.now) ≡ Some key
        → IsUnknownType result key ⊎ (result ≡ Err CopyFault.NoMemory) }
    ensures untouched { (key : _) → result ≡ Err (CopyFault.UnknownType key)
        → (source.new ≡ source.old) × (sink.new ≡ sink.old) }
    ensures complete { missing (plan_data plan.now) ≡ None
        → HasFront (left (S.state source.old)) (IsValidStream plan.now.limits (column_shapes plan.now.schema))
        → ¬ HasFailed (S.state source.old) (S.state source.new)
        → ¬ HasFailed (K.state sink.old) (K.state sink.new)
        → IsOkUnless result CopyFault.NoMemory }
    ensures refused { HasNoFront (left (S.state source.old))
        (IsValidStream plan.now.limits (column_shapes plan.now.schema)) → IsErr result }
    ensures taken { Took (S.state source.old) (S.state source.new) (λ _. ⊤) }
    ensures gained { Gains (K.state sink.old) (K.state sink.new) }
{
    let catalog = catalog_of(alloc, plan.entries.as_slice())?;
    let mut lookup = CachedLookup::new(alloc, catalog);
    recopy(alloc, &plan.schema, &mut lookup, source, sink, plan.limits)
}

/// Executes the command of the words, and answers what came of it.
fn execute<S: Source, K: Sink>(
    alloc: Global,
    words: &[String],
    source: &mut S,
    sink: &mut K,
) -> Outcome
    ensures bad_word { IfErr (plan_of words.now) (λ wrong. (result ≡ Outcome.BadWord wrong.place wrong.fault)
        ⊎ ((result ≡ Outcome.Fault CopyFault.NoMemory) × IsOfAColumn wrong.fault)) }
    ensures source_untouched { IfErr (plan_of words.now) (λ _. source.new ≡ source.old) }
    ensures sink_untouched { IfErr (plan_of words.now) (λ _. sink.new ≡ sink.old) }
    ensures words { status_of result ≡ Status.Words → IsErr (plan_of words.now) }

    ensures copied { status_of result ≡ Status.Copied
        → IsOkAnd (plan_of words.now) (λ plan. (n : ℕ) × (result ≡ Outcome.Copied n)
        × CopiedRows plan n (S.state source.old) (S.state source.new) (K.state sink.old) (K.state sink.new)) }
    ensures settled { status_of result ≡ Status.Copied
        → settled (K.state sink.new) ≡ option_map (λ _. true) (settled (K.state sink.old)) }
    ensures planned { status_of result ≢ Status.Words → status_of result ≢ Status.NoMemory → IsOk (plan_of words.now) }
    ensures fault { IfOk (plan_of words.now) (λ plan. status_of result ≢ Status.Copied
        → (fault : CopyFault) × (result ≡ Outcome.Fault fault)
        × MetFault plan fault (S.state source.old) (S.state source.new) (K.state sink.old) (K.state sink.new)) }
    ensures unread { status_of result ≡ Status.UnknownType → source.new ≡ source.old }
    ensures unwritten { status_of result ≡ Status.UnknownType → sink.new ≡ sink.old }
    ensures unmet { IfOk (plan_of words.now) (λ plan. (key : Key) → missing plan ≡ Some key
        → (status_of result ≡ Status.UnknownType) ⊎ (status_of result ≡ Status.NoMemory)) }

    ensures complete { IfOk (plan_of words.now) (λ plan. missing plan ≡ None
        → HasFront (left (S.state source.old)) (IsValidStream plan.limits plan.columns)
        → ¬ HasFailed (S.state source.old) (S.state source.new)
        → ¬ HasFailed (K.state sink.old) (K.state sink.new)
        → (status_of result ≡ Status.Copied) ⊎ (status_of result ≡ Status.NoMemory)) }
    ensures refused { IfOk (plan_of words.now) (λ plan. missing plan ≡ None
        → HasNoFront (left (S.state source.old)) (IsValidStream plan.limits plan.columns)
        → ¬ HasFailed (S.state source.old) (S.state source.new)
        → ¬ HasFailed (K.state sink.old) (K.state sink.new)
        → (status_of result ≡ Status.Refused) ⊎ (status_of result ≡ Status.NoMemory)) }

    ensures taken { Took (S.state source.old) (S.state source.new) (λ _. ⊤) }
    ensures gained { Gains (K.state sink.old) (K.state sink.new) }
{
    match read_words(alloc, words) {
        Ok(plan) => match copy_plan(alloc, &plan, source, sink) {
            Ok(copied) => Outcome::Copied(copied.rows),
            Err(fault) => Outcome::Fault(fault),
        },
        Err(WordError::Fault { place, fault }) => Outcome::BadWord { place, fault },
        Err(WordError::NoMemory) => Outcome::Fault(CopyFault::NoMemory),
    }
}

/// Executes the command of the words, and writes a line to `notes` that tells what came of it.
///
/// The command `copy`, options and column types copy a stream of rows of these columns, as PostgreSQL's
/// `COPY .. (FORMAT binary)` has it, from the source to the sink. `rows=` limits how many rows the stream has, and
/// `field=` how many bytes the canonical form of a field has; `oid=` gives the oids of a type, which are looked up before
/// anything is read, where the columns need them: the canonical form of an array has the oid of its elements' type, and that
/// of a type with a key of its own, as `@citext:text`, is the oid that `oid=` gives its key.
///
/// | status | cause | line |
/// |---|---|---|
/// | `Copied` | the source began with a whole stream, and the sink has its canonical form | `rows` and their number |
/// | `Words` | something is wrong with the words; nothing was read or written | `word`, its place and what is wrong |
/// | `Refused` | the first 19 bytes do not begin as a stream does, or state, behind good flags, a negative length of the extension | `bad header` |
/// | `Refused` | a bit of the high half of the header's flags is set | `bad flags` and their eight digits |
/// | `Refused` | the source ended inside the stream | `truncated` |
/// | `Refused` | the count of a row is below -1 | `bad field count` and the count |
/// | `Refused` | a row has fewer fields than there are columns | `row`, its number, and `too few fields` |
/// | `Refused` | a field spells no value of its column's type, or is an array with an element that spells none of its own | `row`, `column`, and what is wrong |
/// | `Refused` | a value is longer than the limit | `row`, `column`, and `too long` |
/// | `Refused` | as many rows as the limit were copied, and the count of another one is there | `row limit` |
/// | `Outside` | the source or the sink failed | `read fault` or `write fault` |
/// | `UnknownType` | the columns need an oid of a type, and no `oid=` gives it, or one gives 0; nothing was read or written | `unknown type` and the key of the first such type, in the order in which the columns first need them |
/// | `NoMemory` | memory was asked for and refused | `out of memory` |
///
/// Rows and columns are counted from 0. A fault of the header comes before anything is written; behind the header the
/// sink has the canonical form of all rows before the fault. Where the sink failed itself, the end of what was written last
/// may be missing.
///
/// The line takes no memory. Where `notes` fails the status stays, and a front of the line is there.
pub fn run<S: Source, K: Sink, N: Sink>(
    alloc: Global,
    words: &[String],
    source: &mut S,
    sink: &mut K,
    notes: &mut N,
) -> Status
    // Status 1 comes exactly where no plan is what the words ask for, unless memory runs out where the type of a column is
    // wrong though each word is the text of a type. In both cases nothing is read or written, and the line tells which
    // it is. Statuses other than these two come only where there is a plan.
    ensures words { result ≡ Status.Words → HasNoPlan (texts words.now) }
    ensures planned { result ≢ Status.Words → result ≢ Status.NoMemory
        → (plan : PlanData) × IsPlan (texts words.now) plan }
    ensures no_plan { (wrong : PlacedFault) → IsFirstFault (texts words.now) wrong
        → (result ≡ Status.Words) ⊎ ((result ≡ Status.NoMemory) × IsOfAColumn wrong.fault) }
    ensures first_fault { HasNoPlan (texts words.now) → (wrong : PlacedFault) × IsFirstFault (texts words.now) wrong }
    ensures words_line { (wrong : PlacedFault) → IsFirstFault (texts words.now) wrong → result ≡ Status.Words
        → WroteUnlessFailed (N.state notes.old) (N.state notes.new) (line_of (Outcome.BadWord wrong.place wrong.fault)) }
    ensures memory_line { HasNoPlan (texts words.now) → result ≡ Status.NoMemory
        → WroteUnlessFailed (N.state notes.old) (N.state notes.new) (line_of (Outcome.Fault CopyFault.NoMemory)) }
    ensures source_untouched { HasNoPlan (texts words.now) → source.new ≡ source.old }
    ensures sink_untouched { HasNoPlan (texts words.now) → sink.new ≡ sink.old }

    // The bytes taken are one stream of exactly the rows that the line counts, and the bytes written are the
    // canonical stream of those rows.
    ensures copied { result ≡ Status.Copied
        → (plan : PlanData) × IsPlan (texts words.now) plan × (n : ℕ)
        × WroteUnlessFailed (N.state notes.old) (N.state notes.new) (line_of (Outcome.Copied n))
        × CopiedRows plan n (S.state source.old) (S.state source.new) (K.state sink.old) (K.state sink.new) }
    ensures settled { result ≡ Status.Copied
        → settled (K.state sink.new) ≡ option_map (λ _. true) (settled (K.state sink.old)) }

    // Where there is a plan, each other status is that of a fault, which its line tells, and which says what was taken and
    // what was written.
    ensures fault { (plan : PlanData) → IsPlan (texts words.now) plan → result ≢ Status.Copied
        → (fault : CopyFault) × (result ≡ fault_status fault)
        × WroteUnlessFailed (N.state notes.old) (N.state notes.new) (line_of (Outcome.Fault fault))
        × MetFault plan fault (S.state source.old) (S.state source.new) (K.state sink.old) (K.state sink.new) }

    // Status 4 comes exactly where the columns need an oid that the words do not give, unless memory runs out. Its line
    // names the first type of such an oid, and nothing is read or written.
    ensures unknown_type { result ≡ Status.UnknownType
        → (plan : PlanData) × IsPlan (texts words.now) plan × (key : Key) × (missing plan ≡ Some key)
        × WroteUnlessFailed (N.state notes.old) (N.state notes.new) (unknown_text key ++ codes "\n") }
    ensures unread { result ≡ Status.UnknownType → source.new ≡ source.old }
    ensures unwritten { result ≡ Status.UnknownType → sink.new ≡ sink.old }
    ensures unmet { (plan : PlanData) (key : Key) → IsPlan (texts words.now) plan → missing plan ≡ Some key
        → (result ≡ Status.UnknownType) ⊎ (result ≡ Status.NoMemory) }

    // Where no oid is missing, a valid stream is copied, and what begins with none is refused, unless memory runs out or
    // an object outside failed.
    ensures complete { (plan : PlanData) → IsPlan (texts words.now) plan → missing plan ≡ None
        → HasFront (left (S.state source.old)) (IsValidStream plan.limits plan.columns)
        → ¬ HasFailed (S.state source.old) (S.state source.new)
        → ¬ HasFailed (K.state sink.old) (K.state sink.new)
        → (result ≡ Status.Copied) ⊎ (result ≡ Status.NoMemory) }
    ensures refused { (plan : PlanData) → IsPlan (texts words.now) plan → missing plan ≡ None
        → HasNoFront (left (S.state source.old)) (IsValidStream plan.limits plan.columns)
        → ¬ HasFailed (S.state source.old) (S.state source.new)
        → ¬ HasFailed (K.state sink.old) (K.state sink.new)
        → (result ≡ Status.Refused) ⊎ (result ≡ Status.NoMemory) }

    // What is left, whatever it answers.
    ensures taken { Took (S.state source.old) (S.state source.new) (λ _. ⊤) }
    ensures gained { Gains (K.state sink.old) (K.state sink.new) }
    ensures noted { Gains (N.state notes.old) (N.state notes.new) }
{
    let outcome = execute(alloc, words, source, sink);
    report(&outcome, notes);
    outcome.status()
}
