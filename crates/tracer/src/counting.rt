//! Operations counted by kind.

ghost use Rattle.std.specs.Prelude.{◌≡◌, ◌<◌, ◌≤◌, ◌∷◌, [], ◌++◌, ℕ, List, decimal, flat_map, length, slice_get, Some};
ghost use Rattle.op_table.specs.declared.kinds.OpKind.{OpKind};
ghost use Rattle.op_text.specs.OpText.{next_word};
ghost use Rattle.std.specs.List.{enumerate_from};
ghost use Rattle.qccd_io.specs.Sends.{Sends};
ghost use Rattle.tracer.specs.Counted.{Tallied};
ghost use Rattle.tracer.specs.Report.{column_of, columns, count_text, counts_line, item_column};

use op_table::{Op, OpKind};
use qccd_base::number_text;
use qccd_circuit::ItemKind;
use qccd_io::{Failed, Sink, send, send_all};

// What the columns of the counts are called, in their order.
const COLUMNS: [&str; 12] = [
    "split", "merge", "move", "enter", "leave", "rot", "gswap", "gate1", "gate2", "measure",
    "reset", "fence",
];

// The column in which an item of this kind stands, where it is done in a trap or over traps.
fn item_column(kind: ItemKind) -> usize
    ensures value { result ≡ item_column kind }
    ensures there { result < 12 }
{
    match kind {
        ItemKind::Gate1 => 7,
        ItemKind::Gate2 => 8,
        ItemKind::Measure => 9,
        ItemKind::Reset => 10,
        ItemKind::Barrier => 11,
    }
}

// The column in which an operation stands.
fn column_of(op: &Op) -> usize
    ensures value { result ≡ column_of op.now }
    ensures there { result < 12 }
{
    match op.kind() {
        OpKind::Split {
            trap: _,
            end: _,
            seg: _,
        } => 0,
        OpKind::Merge {
            seg: _,
            trap: _,
            end: _,
        } => 1,
        OpKind::Move { seg: _ } => 2,
        OpKind::Enter { seg: _, junc: _ } => 3,
        OpKind::Leave { junc: _, seg: _ } => 4,
        OpKind::Rot { trap: _, at: _ } => 5,
        OpKind::GSwap {
            trap: _,
            low: _,
            high: _,
        } => 6,
        OpKind::Item {
            number: _,
            trap: _,
            item,
            at: _,
        } => item_column(item.kind()),
        OpKind::Fence {
            number: _,
            item: _,
            traps: _,
        } => 11,
    }
}

/// Counts the operation in its column.
#[inline]
pub(crate) fn count(counts: &mut [u64; 12], op: &Op)
    requires few { (ops : List OpKind) × Tallied ops counts.old × (length ops < 4194304) }
    ensures { (ops : List OpKind) → Tallied ops counts.old → Tallied (ops ++ op.now ∷ []) counts.new }
{
    let column = column_of(op);
    counts[column] += 1;
}

/// How many of the operations stand in each column, counted in one pass.
pub(crate) fn counts_of(ops: &[Op]) -> [u64; 12]
    requires { length ops.now ≤ 4194304 }
    ensures { Tallied ops.now result }
{
    let mut counts = [0; 12];
    for op in ops {
        count(&mut counts, op);
    }
    counts
}

fn send_count<S: Sink>(sink: &mut S, name: &str, count: u64) -> Result<(), Failed>
    ensures { Sends S.taken S.faults S.behind sink.old sink.new result (next_word name.now ++ next_word (decimal count)) }
{
    let count = number_text(count);
    send_all(sink, &[b" ", name.as_bytes(), b" ", count.as_bytes()])
}

// What a column is called.
fn column_name(column: usize) -> &'static str
    requires { column < 12 }
    ensures { slice_get columns column ≡ Some result.now }
{
    COLUMNS[column]
}

// The name of each column and the count of the operations that stand in it.
fn send_columns<S: Sink>(sink: &mut S, counts: &[u64; 12]) -> Result<(), Failed>
    ensures { (ops : List OpKind) → Tallied ops counts.now → Sends S.taken S.faults S.behind sink.old sink.new result (flat_map (count_text ops) (enumerate_from 0 columns)) }
{
    for column in 0..12 {
        send_count(sink, column_name(column), counts[column])?;
    }
    Ok(())
}

/// Appends the line that tells how many operations of each kind there are. Where it fails, a prefix of the line
/// was appended and the count of faults rose. It takes no memory.
pub(crate) fn send_counts<S: Sink>(sink: &mut S, counts: &[u64; 12]) -> Result<(), Failed>
    ensures { (ops : List OpKind) → Tallied ops counts.now → Sends S.taken S.faults S.behind sink.old sink.new result (counts_line ops) }
{
    send(sink, b"counts")?;
    send_columns(sink, counts)?;
    send(sink, b"\n")
}
