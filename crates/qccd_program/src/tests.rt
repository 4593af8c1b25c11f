//! The worked program from its parts to the cells at its end, and programs of many operations, with ample
//! memory.

ghost use Rattle.std.specs.Prelude.{◌≡◌, ◌≤◌, [], None, IfOk};
ghost use Rattle.qccd_base.specs.Names.{trap};
ghost use Rattle.qccd_circuit.specs.Item.{Fits};
ghost use Rattle.qccd_circuit.specs.Example.{cx_on};
ghost use Rattle.op_table.specs.declared.kinds.OpKind.TheVariants as does;
ghost use Rattle.op_table.specs.Op.{IsOp};
ghost use Rattle.op_table.specs.Example.{pair};
ghost use Rattle.qccd_program.specs.Example.{eight_ops, exchanges, start_chains, two_gates_and_one};

use super::*;
use op_cells::{Cell, Done};
use op_table::{Content, Entry, Op, OpKind};
use qccd_base::{
    BitList, End, Ion, IonList, NoMemory, PosList, Qubit, QubitList, SegId, Times, TrapId,
};
use qccd_circuit::{AngleList, Item, ItemKind, Name};
use qccd_machine::{Machine, Parts, Place};
use std::alloc::Global;
use std::test::Fail;

/// Two traps of five, the right end of the first joined to the left end of the second.
fn two_traps(alloc: Global) -> Result<Machine, Fail>
    ensures { IfOk result (λ m. m ≡ pair) }
{
    let joined = [(
        Place::TrapEnd(TrapId(0), End::Right),
        Place::TrapEnd(TrapId(1), End::Left),
    )];
    let parts = Parts {
        capacities: Vec::from_slice(alloc, &[5, 5])?,
        junctions: 0,
        segments: Vec::from_slice(alloc, &joined)?,
        times: Times::usual(),
    };
    Ok(Machine::build(alloc, parts)?)
}

fn chains(alloc: Global) -> Result<Vec<IonList>, Fail>
    ensures { IfOk result (λ chains. chains.items ≡ start_chains) }
{
    let first = IonList::of(Vec::from_slice(alloc, &[Ion(0), Ion(1), Ion(2)])?);
    let second = IonList::of(Vec::from_slice(alloc, &[Ion(3)])?);
    Ok(Vec::from_array(alloc, [first, second])?)
}

/// A gate done in a trap, as operation.
fn gate(
    alloc: Global,
    number: u32,
    trap: TrapId,
    kind: ItemKind,
    name: &[u8],
    qubits: &[Qubit],
    at: &[u8],
) -> Result<Op, NoMemory>
    requires fits { Fits (record { kind = kind; name = name.now; angles = []; qubits = qubits.now; bits = []; cond = None }) }
    requires placed { IsOp (does.Item number trap (record { kind = kind; name = name.now; angles = []; qubits = qubits.now; bits = []; cond = None }) at.now) }
    ensures { IfOk result (λ op. op ≡ does.Item number trap (record { kind = kind; name = name.now; angles = []; qubits = qubits.now; bits = []; cond = None }) at.now) }
{
    let item = Item::of(
        kind,
        Name::of(Vec::from_slice(alloc, name)?),
        AngleList::of(Vec::new(alloc)),
        QubitList::of(Vec::from_slice(alloc, qubits)?),
        BitList::of(Vec::new(alloc)),
        None,
    );
    let at = PosList::of(Vec::from_slice(alloc, at)?);
    Op::of(
        alloc,
        OpKind::Item {
            number,
            trap,
            item,
            at,
        },
    )
}

fn ops(alloc: Global) -> Result<Vec<Op>, Fail>
    ensures { IfOk result (λ ops. ops.items ≡ eight_ops) }
{
    let (first, second, seg) = (TrapId(0), TrapId(1), SegId(0));
    let (right, left) = (End::Right, End::Left);
    let ops = [
        gate(
            alloc,
            0,
            first,
            ItemKind::Gate2,
            b"cx",
            &[Qubit(0), Qubit(1)],
            &[0, 1],
        )?,
        gate(alloc, 1, first, ItemKind::Gate1, b"x", &[Qubit(2)], &[2])?,
        Op::of(alloc, OpKind::Rot { trap: first, at: 0 })?,
        Op::of(alloc, OpKind::Rot { trap: first, at: 1 })?,
        Op::of(
            alloc,
            OpKind::Split {
                trap: first,
                end: right,
                seg,
            },
        )?,
        Op::of(alloc, OpKind::Move { seg })?,
        Op::of(
            alloc,
            OpKind::Merge {
                seg,
                trap: second,
                end: left,
            },
        )?,
        gate(
            alloc,
            2,
            second,
            ItemKind::Gate2,
            b"cx",
            &[Qubit(0), Qubit(3)],
            &[0, 1],
        )?,
    ];
    Ok(Vec::from_array(alloc, ops)?)
}

fn example(alloc: Global) -> Result<Program, Fail>
    ensures { IfOk result (λ p. p ≡ two_gates_and_one) }
{
    Ok(Program::of(
        alloc,
        two_traps(alloc)?,
        4,
        0,
        None,
        chains(alloc)?,
        ops(alloc)?,
    )?)
}

/// The chain and the heat of a trap's cell.
fn chain_of(cell: &Cell) -> Option<(&[Entry], u64)> {
    match &cell.content {
        Content::Trap { chain, heat } => Some((chain.as_slice(), *heat)),
        Content::Seg { rider: _ } => None,
        Content::Junc { carry: _ } => None,
        Content::Bit => None,
    }
}

fn entry(number: u16) -> Entry {
    Entry {
        ion: Ion(number),
        qubit: Qubit(number),
    }
}

fn done(op: u32, start: u64, finish: u64) -> Done {
    Done { op, start, finish }
}

#[test]
fn cells_at_the_end(rt: HostRuntime) -> Result<(), Fail> {
    let program = example(rt.alloc())?;
    let mut cells = program.first_cells(rt.alloc())?;
    run_in_order(&program, &mut cells);
    let [first, second, segment] = cells.as_slice() else {
        return Err("three cells")?;
    };
    let (chain, heat) = chain_of(first).ok_or("a trap")?;
    assert_eq!(rt; chain, [entry(1), entry(2)].as_slice());
    assert_eq!(rt; (heat, first.free_at), (367, 585));
    let log = [
        done(0, 0, 100),
        done(1, 100, 105),
        done(2, 105, 305),
        done(3, 305, 505),
        done(4, 505, 585),
    ];
    assert_eq!(rt; first.log.as_slice(), log.as_slice());
    let (chain, heat) = chain_of(second).ok_or("a trap")?;
    assert_eq!(rt; chain, [entry(0), entry(3)].as_slice());
    assert_eq!(rt; (heat, second.free_at), (343, 770));
    let log = [done(6, 590, 670), done(7, 670, 770)];
    assert_eq!(rt; second.log.as_slice(), log.as_slice());
    assert!(rt; chain_of(segment).is_none());
    assert_eq!(rt; segment.free_at, 670);
    assert_eq!(rt; segment.log.as_slice(), [done(5, 585, 590)].as_slice());
    Ok(())
}

/// How many operations before operation k touch the i-th of its resources, where there is one.
fn turn(program: &Program, k: u32, i: usize) -> Option<u32> {
    let op = program.ops().get(k as usize)?;
    let _res = op.touches().get(i)?;
    Some(program.nth(k, i))
}

/// Takes what threads may share and hand over.
fn crosses_threads<T: Send + Sync>(_shared: &T) {}

#[test]
fn turns_and_parts(rt: HostRuntime) -> Result<(), Fail> {
    let program = example(rt.alloc())?;
    assert_eq!(rt; (program.qubits(), program.bits()), (4, 0));
    assert_eq!(rt; program.start(TrapId(1)), [Ion(3)].as_slice());
    let turns = [
        (4, 0, Some(4)),
        (4, 1, Some(0)),
        (4, 2, None),
        (6, 0, Some(0)),
        (6, 1, Some(2)),
        (7, 0, Some(1)),
        (8, 0, None),
    ];
    for (k, i, expected) in turns {
        assert_eq!(rt; turn(&program, k, i), expected, "at {k}, {i}");
    }
    crosses_threads(&program);
    let (machine, start, ops) = program.into_parts();
    assert_eq!(rt; (machine.traps(), start.len(), ops.len()), (2, 2, 8));
    Ok(())
}

/// So many exchanges of the qubits of the first trap's first two ions.
fn exchanges(alloc: Global, count: u32) -> Result<Program, Fail>
    requires { count ≤ 4194304 }
    ensures { IfOk result (λ p. p ≡ exchanges count) }
{
    let mut ops = Vec::with_capacity(alloc, count as usize)?;
    for _ in 0..count {
        let kind = OpKind::GSwap {
            trap: TrapId(0),
            low: 0,
            high: 1,
        };
        ops.push(Op::of(alloc, kind)?)?;
    }
    Ok(Program::of(alloc, two_traps(alloc)?, 4, 0, None, chains(alloc)?, ops)?)
}

#[test]
fn many_operations(rt: HostRuntime) -> Result<(), Fail> {
    let program = exchanges(rt.alloc(), 100_000)?;
    assert_eq!(rt; turn(&program, 99_999, 0), Some(99_999));
    let mut cells = program.first_cells(rt.alloc())?;
    run_in_order(&program, &mut cells);
    let [first, ..] = cells.as_slice() else {
        return Err("a cell")?;
    };
    assert_eq!(rt; first.free_at, 30_000_000);
    assert_eq!(rt; first.log.as_slice().len(), 100_000);
    Ok(())
}
