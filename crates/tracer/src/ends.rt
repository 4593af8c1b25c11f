//! What the cells hold at the end of a program, and the lines that tell it.

ghost use Rattle.std.specs.Prelude.{◌≡◌, ◌+◌, ◌<◌, ◌≤◌, ◌++◌, codes, flat_map, length, map};
ghost use Rattle.std.specs.List.{range_with_len};
ghost use Rattle.qccd_base.specs.Greatest.{greatest};
ghost use Rattle.qccd_io.specs.Sends.{Sends};
ghost use Rattle.op_table.specs.Contents.{content};
ghost use Rattle.op_table.specs.State.{is_in_junction, is_on_segment};
ghost use Rattle.op_cells.specs.Numbering.{IsThere};
ghost use Rattle.qccd_program.specs.AllCells.{AtEnd};
ghost use Rattle.qccd_program.specs.Program.{end_of};
ghost use Rattle.op_text.specs.OpText.{next_word};
ghost use Rattle.tracer.specs.Report.{end_line, end_lines, junction_line, labelled, last_finish, pair_text, segment_line, side_text, stray_lines};
ghost use Rattle.tracer.specs.Summary.{traps_heat};

use op_cells::{Cell, Cells, carry_in, chain_in, heat_in, index_of, rider_in};
use op_table::{Carry, Content, Entry, Rider};
use qccd_base::{JuncId, Res, SegEnd, SegId, TrapId};
use qccd_io::{Failed, Piece, Sink, send};
use qccd_program::Program;

// What the resource holds at the end.
fn held_at_end<'a>(program: &Program, cells: &'a Cells, r: Res) -> &'a Content
    requires at_end { AtEnd program.now cells.now }
    requires there { IsThere program.now.machine program.now.bits r }
    ensures { result.now ≡ content (end_of program.now) r }
{
    &cells.as_slice()[index_of(program.machine(), r)].content
}

// An ion and the qubit that it carries as a further word, in front of a piece.
fn put_entry(piece: &mut Piece, entry: Entry)
    requires { 43 ≤ piece.old.room }
    ensures text { piece.new.text ≡ next_word (pair_text entry.ion.0 entry.qubit) ++ piece.old.text }
    ensures room { piece.old.room ≤ piece.new.room + 43 }
{
    piece.put_labelled(b":q", u64::from(entry.qubit.0));
    piece.put_labelled(b" ", u64::from(entry.ion.0));
}

// An ion and the qubit that it carries, as a further word.
fn send_entry<S: Sink>(sink: &mut S, entry: Entry) -> Result<(), Failed>
    ensures { Sends S.taken S.faults S.behind sink.old sink.new result (next_word (pair_text entry.ion.0 entry.qubit)) }
{
    let mut piece = Piece::new();
    put_entry(&mut piece, entry);
    send(sink, piece.as_slice())
}

fn send_entries<S: Sink>(sink: &mut S, entries: &[Entry]) -> Result<(), Failed>
    ensures { Sends S.taken S.faults S.behind sink.old sink.new result (flat_map (λ e. next_word (pair_text e.ion.0 e.qubit)) entries.now) }
{
    for entry in entries {
        send_entry(sink, *entry)?;
    }
    Ok(())
}

// What stands before the ions of a trap's line.
fn send_heat<S: Sink>(sink: &mut S, t: TrapId, heat: u64) -> Result<(), Failed>
    ensures { Sends S.taken S.faults S.behind sink.old sink.new result (labelled (codes "end T") t.0 ++ labelled (codes " heat ") heat) }
{
    let mut piece = Piece::new();
    piece.put_labelled(b" heat ", heat);
    piece.put_labelled(b"end T", u64::from(t.0));
    send(sink, piece.as_slice())
}

fn send_trap_end<S: Sink>(
    sink: &mut S,
    program: &Program,
    cells: &Cells,
    t: TrapId,
) -> Result<(), Failed>
    requires at_end { AtEnd program.now cells.now }
    requires there { t.0 < length program.now.machine.capacities }
    ensures { Sends S.taken S.faults S.behind sink.old sink.new result (end_line (end_of program.now) t.0) }
{
    let held = held_at_end(program, cells, Res::Trap(t));
    send_heat(sink, t, heat_in(held))?;
    send_entries(sink, chain_in(held))?;
    send(sink, b"\n")
}

fn send_trap_ends<S: Sink>(sink: &mut S, program: &Program, cells: &Cells) -> Result<(), Failed>
    requires { AtEnd program.now cells.now }
    ensures { Sends S.taken S.faults S.behind sink.old sink.new result (flat_map (end_line (end_of program.now)) (range_with_len 0 (length program.now.machine.capacities))) }
{
    for t in 0..program.machine().traps() {
        send_trap_end(sink, program, cells, TrapId(t))?;
    }
    Ok(())
}

// The name of an end of a segment.
fn side_word(end: SegEnd) -> &'static [u8]
    ensures { result.now ≡ side_text end }
{
    match end {
        SegEnd::A => b"a",
        SegEnd::B => b"b",
    }
}

fn send_rider<S: Sink>(sink: &mut S, g: SegId, rider: Rider) -> Result<(), Failed>
    ensures { Sends S.taken S.faults S.behind sink.old sink.new result (segment_line g.0 rider.end rider.heat (pair_text rider.entry.ion.0 rider.entry.qubit)) }
{
    let mut piece = Piece::new();
    piece.put(b"\n");
    put_entry(&mut piece, rider.entry);
    piece.put_labelled(b" heat ", rider.heat);
    piece.put(side_word(rider.end));
    piece.put(b" ");
    piece.put_labelled(b"end S", u64::from(g.0));
    send(sink, piece.as_slice())
}

fn send_segment_end<S: Sink>(
    sink: &mut S,
    program: &Program,
    cells: &Cells,
    g: SegId,
) -> Result<(), Failed>
    requires at_end { AtEnd program.now cells.now }
    requires there { g.0 < length program.now.machine.segments }
    ensures { Sends S.taken S.faults S.behind sink.old sink.new result (stray_lines (end_of program.now) (is_on_segment g.0)) }
{
    let _ops = program.ops();
    let held = held_at_end(program, cells, Res::Seg(g));
    match rider_in(held) {
        None => Ok(()),
        Some(rider) => send_rider(sink, g, rider),
    }
}

fn send_segment_ends<S: Sink>(sink: &mut S, program: &Program, cells: &Cells) -> Result<(), Failed>
    requires { AtEnd program.now cells.now }
    ensures { Sends S.taken S.faults S.behind sink.old sink.new result (flat_map (λ g. stray_lines (end_of program.now) (is_on_segment g)) (range_with_len 0 (length program.now.machine.segments))) }
{
    for g in 0..program.machine().segments() {
        send_segment_end(sink, program, cells, SegId(g))?;
    }
    Ok(())
}

fn send_carry<S: Sink>(sink: &mut S, j: JuncId, carry: Carry) -> Result<(), Failed>
    ensures { Sends S.taken S.faults S.behind sink.old sink.new result (junction_line j.0 carry.heat (pair_text carry.entry.ion.0 carry.entry.qubit)) }
{
    let mut piece = Piece::new();
    piece.put(b"\n");
    put_entry(&mut piece, carry.entry);
    piece.put_labelled(b" heat ", carry.heat);
    piece.put_labelled(b"end J", u64::from(j.0));
    send(sink, piece.as_slice())
}

fn send_junction_end<S: Sink>(
    sink: &mut S,
    program: &Program,
    cells: &Cells,
    j: JuncId,
) -> Result<(), Failed>
    requires at_end { AtEnd program.now cells.now }
    requires there { j.0 < program.now.machine.junctions }
    ensures { Sends S.taken S.faults S.behind sink.old sink.new result (stray_lines (end_of program.now) (is_in_junction j.0)) }
{
    let _ops = program.ops();
    let held = held_at_end(program, cells, Res::Junc(j));
    match carry_in(held) {
        None => Ok(()),
        Some(carry) => send_carry(sink, j, carry),
    }
}

fn send_junction_ends<S: Sink>(sink: &mut S, program: &Program, cells: &Cells) -> Result<(), Failed>
    requires { AtEnd program.now cells.now }
    ensures { Sends S.taken S.faults S.behind sink.old sink.new result (flat_map (λ j. stray_lines (end_of program.now) (is_in_junction j)) (range_with_len 0 program.now.machine.junctions)) }
{
    for j in 0..program.machine().junctions() {
        send_junction_end(sink, program, cells, JuncId(j))?;
    }
    Ok(())
}

/// Appends the lines that tell what is left where: one for each trap, then one for each segment and for each
/// junction that holds an ion. Where it fails, a prefix of the lines was appended and the count of faults rose.
/// It takes no memory.
pub(crate) fn send_ends<S: Sink>(
    sink: &mut S,
    program: &Program,
    cells: &Cells,
) -> Result<(), Failed>
    requires { AtEnd program.now cells.now }
    ensures { Sends S.taken S.faults S.behind sink.old sink.new result (end_lines program.now) }
{
    send_trap_ends(sink, program, cells)?;
    send_segment_ends(sink, program, cells)?;
    send_junction_ends(sink, program, cells)
}

// The greatest of the clocks.
fn greatest_clock(cells: &[Cell]) -> u64
    ensures { result ≡ greatest (map (λ c. c.free_at) cells.now) }
{
    let mut most = 0;
    for cell in cells {
        most = cell.free_at.max(most);
    }
    most
}

/// When the last operation finishes, in microseconds; 0 where there is none.
pub(crate) fn last_finish(program: &Program, cells: &Cells) -> u64
    requires { AtEnd program.now cells.now }
    ensures { result ≡ last_finish program.now }
{
    let _ops = program.ops();
    greatest_clock(cells.as_slice())
}

/// The sum of the heats of all traps at the end, in thousandths.
pub(crate) fn traps_heat(program: &Program, cells: &Cells) -> u64
    requires { AtEnd program.now cells.now }
    ensures { result ≡ traps_heat program.now }
{
    let _ops = program.ops();
    let mut sum = 0;
    for trap in 0..program.machine().traps() {
        sum += heat_in(held_at_end(program, cells, Res::Trap(TrapId(trap))));
    }
    sum
}
