ghost use Rattle.std.specs.Prelude.{◌≡◌, ◌<◌, ◌≤◌, ◌^◌, ◌+◌, ◌⊎◌, List, [], ℕ, length, take, Some, IfSome, IsNone, Ok, Err, IfErr};
ghost use Rattle.pgw_meta.specs.Known.{Known};
ghost use Rattle.pgw_meta.specs.NamedOids.{known_of};
ghost use Rattle.pgw_wire.specs.Outside.{HasFailed, Wrote};
ghost use Rattle.pgw_tree.specs.Copying.{Copies};
ghost use Rattle.pgw_meta.specs.Shape.{Shape};
ghost use Rattle.pgw_meta.specs.Types.{column_shapes};
ghost use Rattle.pgw_cell.specs.Value.{Value};
ghost use Rattle.pgw_tree.specs.Runs.{AreRespelled, EndsInRow, IsRun, shown_fault, copied_says, length_of, rows_of};

use crate::columns::Columns;
use crate::fields::behind_row;
use crate::plain::plain_rows;
use crate::respell::respell_rows;
use crate::{CopyFault, Limits};
use pgw_wire::{ByteBuffer, Sink, Source, Taker, send};
use std::alloc::Global;

/// What came of copying rows at the front of bytes.
#[derive(Drop)]
pub(crate) enum CopiedFront {
    /// There are so many rows now, and the last of them ends behind so many bytes.
    Whole { rows: u64, len: usize },
    /// The sink failed in the row that ends behind so many bytes.
    Broken { len: usize },
}

impl CopiedFront {
    /// Behind how many bytes the last of the rows ends.
    fn len(&self) -> usize
        ensures { result ≡ length_of self.now }
    {
        match self {
            CopiedFront::Whole { len, .. } | CopiedFront::Broken { len } => *len,
        }
    }

    /// How many rows there are. None where the sink failed.
    fn rows(&self) -> Option<u64>
        ensures { result ≡ rows_of self.now }
    {
        match self {
            CopiedFront::Whole { rows, .. } => Some(*rows),
            CopiedFront::Broken { .. } => None,
        }
    }
}

/// Where among rows the one ends in whose canonical form the byte behind the first `sent` is.
fn row_end_behind(canonical: &[u8], run: &[u8], sent: usize) -> usize
    requires rows { (known : Known) × (most : ℕ) × (columns : List Shape) × (many : ℕ) × AreRespelled known most columns many canonical.now run.now }
    requires inside { sent < length canonical.now }
    ensures within { result ≤ length run.now }
    ensures row { (known : Known) (most : ℕ) (columns : List Shape) (many : ℕ) (all : AreRespelled known most columns many canonical.now run.now)
        → EndsInRow known most columns all.rows sent (take result run.now) }
{
    let mut rest = canonical;
    let mut run_rest = run;
    loop {
        let behind = behind_row(rest).unwrap();
        let run_behind = behind_row(run_rest).unwrap();
        if sent < canonical.len() - behind.len() {
            return run.len() - run_behind.len();
        }
        rest = behind;
        run_rest = run_behind;
    }
}

/// Copies so many rows by sending their canonical form in one piece. So many rows were copied before.
fn send_rows<K: Sink>(
    columns: &Columns<'_>,
    limits: Limits,
    before: u64,
    many: u64,
    canonical: &[u8],
    run: &[u8],
    sink: &mut K,
) -> CopiedFront
    requires rows { AreRespelled (known_of columns.now.found.now) limits.field_max (column_shapes columns.now.types.now) many canonical.now run.now }
    requires allowed { before + many ≤ limits.rows_max }
    ensures copied { copied_says (known_of columns.now.found.now) limits (column_shapes columns.now.types.now) before
        (Wrote (K.state sink.old) (K.state sink.new)) (HasFailed (K.state sink.old) (K.state sink.new)) run.now result }
    ensures more { (rows len : ℕ) → result ≡ CopiedFront.Whole rows len → rows ≡ before + many }
{
    let sent = send(sink, canonical);
    if sent < canonical.len() {
        CopiedFront::Broken {
            len: row_end_behind(canonical, run, sent),
        }
    } else {
        CopiedFront::Whole {
            rows: before + many,
            len: run.len(),
        }
    }
}

/// Copies the rows at the front that are canonical as they stand, or else some that have to be spelled otherwise, whose
/// canonical form is made in the buffer. None, and the sink is left alone, where neither stand there, or where memory is
/// refused. So many rows were copied before.
fn copy_front<K: Sink>(
    columns: &Columns<'_>,
    limits: Limits,
    before: u64,
    bytes: &[u8],
    buffer: &mut ByteBuffer,
    sink: &mut K,
) -> Option<CopiedFront>
    requires allowed { before < limits.rows_max }
    ensures copied { IfSome result (copied_says (known_of columns.now.found.now) limits (column_shapes columns.now.types.now) before
        (Wrote (K.state sink.old) (K.state sink.new)) (HasFailed (K.state sink.old) (K.state sink.new)) bytes.now) }
    ensures more { (rows len : ℕ) → result ≡ Some (CopiedFront.Whole rows len) → before < rows }
    ensures none { IsNone result → sink.new ≡ sink.old }
{
    let most = limits.rows_max() - before;
    let run = plain_rows(columns, limits.field_max(), most, bytes);
    if run.rows > 0 {
        return Some(send_rows(
            columns, limits, before, run.rows, run.bytes, run.bytes, sink,
        ));
    }
    let run = respell_rows(columns, limits.field_max(), most, bytes, buffer);
    if run.rows > 0 {
        Some(send_rows(
            columns,
            limits,
            before,
            run.rows,
            buffer.as_bytes(),
            run.bytes,
            sink,
        ))
    } else {
        None
    }
}

/// Copies rows at the front, as long as each stands there whole, up to the limit on rows. So many rows were copied before.
fn copy_rows<K: Sink>(
    columns: &Columns<'_>,
    limits: Limits,
    before: u64,
    bytes: &[u8],
    buffer: &mut ByteBuffer,
    sink: &mut K,
) -> CopiedFront
    requires allowed { before ≤ limits.rows_max }
    ensures copied { copied_says (known_of columns.now.found.now) limits (column_shapes columns.now.types.now) before
        (Wrote (K.state sink.old) (K.state sink.new)) (HasFailed (K.state sink.old) (K.state sink.new)) bytes.now result }
{
    let mut rows = before;
    let mut len = 0;
    while rows < limits.rows_max() {
        match copy_front(columns, limits, rows, &bytes[len..], buffer, sink) {
            None => break,
            Some(
                CopiedFront::Whole {
                    rows: now,
                    len: more,
                },
            ) => {
                rows = now;
                len += more;
            }
            Some(CopiedFront::Broken { len: last }) => return CopiedFront::Broken {
                len: len + last,
            },
        }
    }
    CopiedFront::Whole { rows, len }
}

/// Copies the rows that stand whole in what a source shows. So many rows were copied before.
#[derive(Drop)]
struct RowTaker<'a> {
    columns: &'a Columns<'a>,
    limits: Limits,
    before: u64,
    buffer: ByteBuffer,
    copied: CopiedFront,
    ghost allowed: { before ≤ limits.rows_max },
}

impl<K: Sink> Taker<K> for RowTaker<'_> {
    ghost takes = { λ taker sink ready n then_ sink_then.
        (n ≡ length_of then_.copied)
        × copied_says (known_of taker.columns.now.found.now) taker.limits (column_shapes taker.columns.now.types.now) taker.before
        (Wrote (K.state sink) (K.state sink_then)) (HasFailed (K.state sink) (K.state sink_then)) ready then_.copied };

    #[inline(always)]
    fn look(&mut self, to: &mut K, ready: &[u8]) -> usize {
        self.copied = copy_rows(
            self.columns,
            self.limits,
            self.before,
            ready,
            &mut self.buffer,
            to,
        );
        self.copied.len()
    }
}

/// Copies the rows that stand whole in what the source shows, and answers how many rows there are then. So many were copied
/// before.
pub(crate) fn copy_shown<S: Source, K: Sink>(
    alloc: Global,
    columns: &Columns<'_>,
    limits: Limits,
    before: u64,
    source: &mut S,
    sink: &mut K,
) -> Result<u64, CopyFault>
    requires allowed { before ≤ limits.rows_max }
    ensures takes { Copies (S.state source.old) (S.state source.new) result
        (λ rows. IsRun (known_of columns.now.found.now) limits (column_shapes columns.now.types.now) before rows (Wrote (K.state sink.old) (K.state sink.new)))
        (shown_fault (known_of columns.now.found.now) limits (column_shapes columns.now.types.now) before (Wrote (K.state sink.old) (K.state sink.new))) }
    ensures write_fault { result ≡ Err CopyFault.WriteFault → HasFailed (K.state sink.old) (K.state sink.new) }
{
    let mut taker = RowTaker {
        columns,
        limits,
        before,
        buffer: ByteBuffer::new(alloc),
        copied: CopiedFront::Whole {
            rows: before,
            len: 0,
        },
    };
    match source.show(&mut taker, sink) {
        Ok(_) => taker.copied.rows().ok_or(CopyFault::WriteFault),
        Err(_) => Err(CopyFault::ReadFault),
    }
}
