//! A run of each kind of operation, with clocks and logs worked out by hand, what is told of operations
//! that are not legal, and sizes.

ghost use Rattle.std.specs.Prelude.{◌≡◌, IfOk, IfSome};
ghost use Rattle.op_table.specs.Op.{IsOp};

use super::*;
use crate::permitting::may_run;
use arrayvec::ArrayVec;
use op_table::{Content, Entry, Op, OpKind, Why};
use qccd_base::{
    Bit, BitList, End, Ion, JuncId, NoMemory, PosList, Qubit, QubitList, Res, SegId, Times, TrapId,
    TrapList,
};
use qccd_circuit::{AngleList, Item, ItemKind, Name, fits};
use qccd_machine::{Machine, MachineFault, Parts, Place};
use std::alloc::Global;
use std::test::Fail;

fn left(trap: u8) -> Place {
    Place::TrapEnd(TrapId(trap), End::Left)
}

fn right(trap: u8) -> Place {
    Place::TrapEnd(TrapId(trap), End::Right)
}

fn at(junction: u8) -> Place {
    Place::Junction(JuncId(junction))
}

/// Six traps and junctions of two, three and four ends. Both ends of the last trap are joined to one
/// junction.
fn machine(alloc: Global) -> Result<Machine, MachineFault> {
    let segments = [
        (right(0), at(0)),
        (at(0), left(1)),
        (right(1), at(1)),
        (at(1), left(2)),
        (left(3), at(1)),
        (left(0), at(2)),
        (left(4), at(2)),
        (left(5), at(2)),
        (right(5), at(2)),
    ];
    Machine::build(
        alloc,
        Parts {
            capacities: Vec::from_slice(alloc, &[3, 2, 4, 2, 2, 2])?,
            junctions: 3,
            segments: Vec::from_slice(alloc, &segments)?,
            times: Times::usual(),
        },
    )
}

/// A cell of the content, free at 0, with room for eight entries.
fn cell(alloc: Global, content: Content) -> Result<Cell, NoMemory> {
    Ok(Cell {
        content,
        free_at: 0,
        log: DoneList::with_room(alloc, 8)?,
    })
}

/// Three ions in the first trap, each with the qubit of its number, and nothing elsewhere.
fn cells(alloc: Global) -> Result<Cells, NoMemory> {
    let mut list = Vec::new(alloc);
    for trap in 0..6 {
        let mut chain = ArrayVec::new();
        if trap == 0 {
            for number in 0..3 {
                let entry = Entry {
                    ion: Ion(number),
                    qubit: Qubit(number),
                };
                let _full = chain.try_push(entry);
            }
        }
        list.push(cell(alloc, Content::Trap { chain, heat: 0 })?)?;
    }
    for _segment in 0..9 {
        list.push(cell(alloc, Content::Seg { rider: None })?)?;
    }
    for _junction in 0..3 {
        list.push(cell(alloc, Content::Junc { carry: None })?)?;
    }
    list.push(cell(alloc, Content::Bit)?)?;
    Ok(Cells::of_list(list))
}

/// The item with no angle, where it fits.
fn made(
    alloc: Global,
    kind: ItemKind,
    name: &[u8],
    qubits: &[Qubit],
    bits: &[Bit],
) -> Result<Option<Item>, NoMemory>
    ensures { IfOk result (λ found. IfSome found (λ item. (item.kind ≡ kind) × (item.qubits ≡ qubits.now))) }
{
    let name = Name::of(Vec::from_slice(alloc, name)?);
    let angles = AngleList::of(Vec::new(alloc));
    let qubits = QubitList::of(Vec::from_slice(alloc, qubits)?);
    let bits = BitList::of(Vec::from_slice(alloc, bits)?);
    if !fits(kind, &name, &angles, &qubits, &bits, &None) {
        return Ok(None);
    }
    Ok(Some(Item::of(kind, name, angles, qubits, bits, None)))
}

/// An h on a qubit at a position of a trap.
fn gate(alloc: Global, qubit: u16, trap: u8, at: u8) -> Result<Option<OpKind>, NoMemory>
    ensures { IfOk result (λ found. IfSome found IsOp) }
{
    match made(alloc, ItemKind::Gate1, b"h", &[Qubit(qubit)], &[])? {
        None => Ok(None),
        Some(item) => Ok(Some(OpKind::Item {
            number: 0,
            trap: TrapId(trap),
            item,
            at: PosList::of(Vec::from_slice(alloc, &[at])?),
        })),
    }
}

/// A measurement of a qubit at a position of a trap into bit 0.
fn measurement(alloc: Global, qubit: u16, trap: u8, at: u8) -> Result<Option<OpKind>, NoMemory>
    ensures { IfOk result (λ found. IfSome found IsOp) }
{
    match made(
        alloc,
        ItemKind::Measure,
        b"measure",
        &[Qubit(qubit)],
        &[Bit(0)],
    )? {
        None => Ok(None),
        Some(item) => Ok(Some(OpKind::Item {
            number: 1,
            trap: TrapId(trap),
            item,
            at: PosList::of(Vec::from_slice(alloc, &[at])?),
        })),
    }
}

/// A barrier on two qubits over the first two traps.
fn fence(alloc: Global, first: u16, second: u16) -> Result<Option<OpKind>, NoMemory>
    ensures { IfOk result (λ found. IfSome found IsOp) }
{
    match made(
        alloc,
        ItemKind::Barrier,
        b"barrier",
        &[Qubit(first), Qubit(second)],
        &[],
    )? {
        None => Ok(None),
        Some(item) => Ok(Some(OpKind::Fence {
            number: 2,
            item,
            traps: TrapList::of(Vec::from_slice(alloc, &[TrapId(0), TrapId(1)])?),
        })),
    }
}

/// Runs the operation, where it may be run.
fn runs(
    alloc: Global,
    machine: &Machine,
    cells: &mut Cells,
    k: u32,
    kind: OpKind,
) -> Result<bool, NoMemory>
    requires { IsOp kind }
{
    let op = Op::of(alloc, kind)?;
    if !may_run(machine, &op, cells) {
        return Ok(false);
    }
    run_one(machine, k, &op, cells);
    Ok(true)
}

fn split(trap: u8, end: End, seg: u8) -> OpKind
    ensures { IsOp result }
{
    OpKind::Split {
        trap: TrapId(trap),
        end,
        seg: SegId(seg),
    }
}

fn shift(seg: u8) -> OpKind
    ensures { IsOp result }
{
    OpKind::Move { seg: SegId(seg) }
}

fn enter(seg: u8, junc: u8) -> OpKind
    ensures { IsOp result }
{
    OpKind::Enter {
        seg: SegId(seg),
        junc: JuncId(junc),
    }
}

fn leave(junc: u8, seg: u8) -> OpKind
    ensures { IsOp result }
{
    OpKind::Leave {
        junc: JuncId(junc),
        seg: SegId(seg),
    }
}

fn merge(seg: u8, trap: u8, end: End) -> OpKind
    ensures { IsOp result }
{
    OpKind::Merge {
        seg: SegId(seg),
        trap: TrapId(trap),
        end,
    }
}

fn rot(trap: u8, at: u8) -> OpKind
    ensures { IsOp result }
{
    OpKind::Rot {
        trap: TrapId(trap),
        at,
    }
}

/// Whether the cell at this place has this log: number, start and finish of each entry.
fn logs_at(list: &[Cell], place: usize, log: &[(u32, u64, u64)]) -> bool {
    match list.get(place) {
        None => false,
        Some(cell) => has_log(cell, log),
    }
}

/// Whether the cell at this place is free at this time.
fn is_free_at(list: &[Cell], place: usize, time: u64) -> bool {
    match list.get(place) {
        None => false,
        Some(cell) => cell.free_at == time,
    }
}

fn has_log(cell: &Cell, log: &[(u32, u64, u64)]) -> bool {
    let entries = cell.log.as_slice();
    if entries.len() != log.len() {
        return false;
    }
    for (entry, wanted) in entries.iter().zip(log) {
        if entry.op != wanted.0 || entry.start != wanted.1 || entry.finish != wanted.2 {
            return false;
        }
    }
    true
}

/// Runs a gate swap, a gate, a measurement and a fence over both traps.
fn run_items(alloc: Global, machine: &Machine, cells: &mut Cells) -> Result<(), NoMemory> {
    let gswap = OpKind::GSwap {
        trap: TrapId(0),
        low: 0,
        high: 1,
    };
    runs(alloc, machine, cells, 7, gswap)?;
    if let Some(gate) = gate(alloc, 0, 0, 0)? {
        runs(alloc, machine, cells, 8, gate)?;
    }
    if let Some(measurement) = measurement(alloc, 2, 1, 0)? {
        runs(alloc, machine, cells, 9, measurement)?;
    }
    if let Some(fence) = fence(alloc, 0, 2)? {
        runs(alloc, machine, cells, 10, fence)?;
    }
    Ok(())
}

/// Takes an ion out of a trap onto a segment and into the junction at the segment's other end.
fn take_out(
    alloc: Global,
    machine: &Machine,
    cells: &mut Cells,
    trap: u8,
    end: End,
    seg: u8,
    junc: u8,
) -> Result<bool, NoMemory> {
    Ok(
        runs(alloc, machine, cells, 0, split(trap, end, seg))?
            && runs(alloc, machine, cells, 1, shift(seg))?
            && runs(alloc, machine, cells, 2, enter(seg, junc))?,
    )
}

/// Takes the ion in the junction onto a segment and into the trap at the segment's other end.
fn take_in(
    alloc: Global,
    machine: &Machine,
    cells: &mut Cells,
    junc: u8,
    seg: u8,
    trap: u8,
    end: End,
) -> Result<bool, NoMemory> {
    Ok(
        runs(alloc, machine, cells, 3, leave(junc, seg))?
            && runs(alloc, machine, cells, 4, shift(seg))?
            && runs(alloc, machine, cells, 5, merge(seg, trap, end))?,
    )
}

/// Whether the cells are as the journey leaves them.
fn has_arrived(list: &[Cell]) -> bool {
    logs_at(
        list,
        0,
        &[
            (0, 0, 80),
            (6, 80, 280),
            (7, 280, 580),
            (8, 580, 585),
            (10, 585, 585),
        ],
    ) && logs_at(list, 1, &[(5, 190, 270), (9, 270, 370)])
        && logs_at(list, 6, &[(1, 80, 85), (2, 85, 135)])
        && logs_at(list, 7, &[(3, 135, 185), (4, 185, 190)])
        && is_free_at(list, 15, 185)
        && is_free_at(list, 18, 370)
}

/// An ion goes from the first trap through the junction of two ends into the second.
#[test]
fn a_journey(rt: HostRuntime) -> Result<(), Fail> {
    let alloc = rt.alloc();
    let machine = machine(alloc)?;
    let mut cells = cells(alloc)?;
    assert!(rt; take_out(alloc, &machine, &mut cells, 0, End::Right, 0, 0)?);
    assert!(rt; take_in(alloc, &machine, &mut cells, 0, 1, 1, End::Left)?);
    assert!(rt; runs(alloc, &machine, &mut cells, 6, rot(0, 0))?);
    run_items(alloc, &machine, &mut cells)?;
    let list = cells.into_list();
    assert!(rt; has_arrived(list.as_slice()));
    Ok(())
}

/// The junction of four ends takes 60. A trap whose both ends are joined to it takes an ion at the end that
/// the segment is joined to, and at no other.
#[test]
fn round_a_trap(rt: HostRuntime) -> Result<(), Fail> {
    let alloc = rt.alloc();
    let machine = machine(alloc)?;
    let mut cells = cells(alloc)?;
    assert!(rt; take_out(alloc, &machine, &mut cells, 0, End::Left, 5, 2)?);
    assert!(rt; !take_in(alloc, &machine, &mut cells, 2, 8, 5, End::Left)?);
    assert!(rt; runs(alloc, &machine, &mut cells, 5, merge(8, 5, End::Right))?);
    assert!(rt; logs_at(cells.as_slice(), 14, &[(3, 145, 205), (4, 205, 210)]));
    if cells.as_slice().len() > 5 {
        assert!(rt; has_log(cells.at(Res::Trap(TrapId(5))), &[(5, 210, 290)]));
    }
    Ok(())
}

/// Whether this is told of an operation on the cells.
fn tells(
    alloc: Global,
    machine: &Machine,
    cells: &Cells,
    kind: OpKind,
    why: Option<Why>,
) -> Result<bool, NoMemory>
    requires { IsOp kind }
{
    let op = Op::of(alloc, kind)?;
    Ok(legality::told(machine, &op, cells.as_slice()) == why)
}

/// What is told where several causes stand together.
#[test]
fn what_is_told(rt: HostRuntime) -> Result<(), Fail> {
    let alloc = rt.alloc();
    let machine = machine(alloc)?;
    let mut cells = cells(alloc)?;
    assert!(rt;
        tells(
            alloc,
            &machine,
            &cells,
            split(1, End::Left, 9),
            Some(Why::NoPlace)
        )?
    );
    assert!(rt;
        tells(
            alloc,
            &machine,
            &cells,
            split(1, End::Right, 0),
            Some(Why::NoIon)
        )?
    );
    assert!(rt; runs(alloc, &machine, &mut cells, 0, split(0, End::Right, 0))?);
    assert!(rt;
        tells(
            alloc,
            &machine,
            &cells,
            split(0, End::Left, 0),
            Some(Why::Occupied)
        )?
    );
    assert!(rt; tells(alloc, &machine, &cells, enter(0, 0), Some(Why::WrongEnd))?);
    Ok(())
}
