//! An ion on its way to another trap, what is told of operations that are not legal, and a plan of many
//! operations, with ample memory.

ghost use Rattle.std.specs.Prelude.{◌≡◌, ◌<◌, IfOk, OnOk};
ghost use Rattle.op_table.specs.Example.{pair};
ghost use Rattle.op_table.specs.Op.{IsOp};
ghost use Rattle.op_plan.specs.Example.{three_ions, IsOfThree};

use super::*;
use op_table::{Op, OpKind, Why};
use qccd_base::{End, Ion, IonList, NoMemory, Qubit, SegId, Times, TrapId};
use qccd_machine::{Machine, Parts, Place};
use std::alloc::Global;
use std::test::Fail;

/// Two traps of five, the right end of the first joined to the left end of the second.
fn two_traps(alloc: Global) -> Result<Machine, Fail>
    ensures { IfOk result (λ m. m ≡ pair) }
{
    let joined = [(
        Place::TrapEnd(TrapId(0), End::Right),
        Place::TrapEnd(TrapId(1), End::Left),
    )];
    let parts = Parts {
        capacities: Vec::from_slice(alloc, &[5, 5])?,
        junctions: 0,
        segments: Vec::from_slice(alloc, &joined)?,
        times: Times::usual(),
    };
    Ok(Machine::build(alloc, parts)?)
}

/// The plan of three ions in the first trap, with no operation yet.
fn three_in_a_trap(alloc: Global, machine: &Machine) -> Result<Plan, NoMemory>
    requires { machine.now ≡ pair }
    ensures { IfOk result IsOfThree }
{
    let first = IonList::of(Vec::from_slice(alloc, &[Ion(0), Ion(1), Ion(2)])?);
    let second = IonList::of(Vec::new(alloc));
    let chains = Vec::from_array(alloc, [first, second])?;
    Plan::begin(alloc, machine, 3, 0, chains.as_slice())
}

/// Appends the operation, where it is legal and there are not too many before it.
fn emits(alloc: Global, machine: &Machine, plan: &mut Plan, kind: OpKind) -> Result<bool, NoMemory>
    requires machine { machine.now ≡ pair }
    requires plan { IsOfThree plan.old }
    requires op { IsOp kind }
    ensures { OnOk result (IsOfThree plan.new) }
{
    let op = Op::of(alloc, kind)?;
    if plan.ops().len() >= 4194304 || plan.legal(machine, &op).is_err() {
        return Ok(false);
    }
    plan.emit(machine, op)?;
    Ok(true)
}

/// Whether the qubit stands in this trap at this position.
fn stands(plan: &Plan, qubit: u16, place: Option<(u8, u8)>) -> bool
    requires plan { IsOfThree plan.now }
    requires there { qubit < 3 }
{
    match plan.place_of(Qubit(qubit)) {
        None => place.is_none(),
        Some((trap, position)) => place == Some((trap.0, position)),
    }
}

/// Whether the trap holds these qubits, from left to right.
fn holds(plan: &Plan, trap: u8, qubits: &[u16]) -> bool
    requires plan { IsOfThree plan.now }
    requires there { trap < 2 }
{
    let chain = plan.chain(TrapId(trap));
    if chain.len() != qubits.len() {
        return false;
    }
    for (entry, qubit) in chain.iter().zip(qubits) {
        if entry.qubit.0 != *qubit {
            return false;
        }
    }
    true
}

/// Whether this is why the operation is not legal.
fn tells(
    alloc: Global,
    machine: &Machine,
    plan: &Plan,
    kind: OpKind,
    why: Why,
) -> Result<bool, NoMemory>
    requires machine { machine.now ≡ pair }
    requires plan { IsOfThree plan.now }
    requires op { IsOp kind }
{
    let op = Op::of(alloc, kind)?;
    Ok(plan.legal(machine, &op) == Err(why))
}

fn split(trap: u8, end: End) -> OpKind
    ensures { IsOp result }
{
    OpKind::Split {
        trap: TrapId(trap),
        end,
        seg: SegId(0),
    }
}

fn shift() -> OpKind
    ensures { IsOp result }
{
    OpKind::Move { seg: SegId(0) }
}

fn merge(trap: u8, end: End) -> OpKind
    ensures { IsOp result }
{
    OpKind::Merge {
        seg: SegId(0),
        trap: TrapId(trap),
        end,
    }
}

fn rot(at: u8) -> OpKind
    ensures { IsOp result }
{
    OpKind::Rot {
        trap: TrapId(0),
        at,
    }
}

/// The qubit at the right end of the first trap goes to the second, and stands in no trap on its way.
#[test]
fn to_the_next_trap(rt: HostRuntime) -> Result<(), Fail> {
    let alloc = rt.alloc();
    let machine = two_traps(alloc)?;
    let mut plan = three_in_a_trap(alloc, &machine)?;
    assert!(rt; stands(&plan, 2, Some((0, 2))));
    assert!(rt; emits(alloc, &machine, &mut plan, split(0, End::Right))?);
    assert!(rt; stands(&plan, 2, None) && holds(&plan, 0, &[0, 1]));
    assert!(rt; emits(alloc, &machine, &mut plan, shift())?);
    assert!(rt; stands(&plan, 2, None));
    assert!(rt; emits(alloc, &machine, &mut plan, merge(1, End::Left))?);
    assert!(rt; stands(&plan, 2, Some((1, 0))) && holds(&plan, 1, &[2]));
    assert!(rt; plan.into_ops().len() == 3);
    Ok(())
}

/// What is told where an operation is not legal.
#[test]
fn what_is_told(rt: HostRuntime) -> Result<(), Fail> {
    let alloc = rt.alloc();
    let machine = two_traps(alloc)?;
    let mut plan = three_in_a_trap(alloc, &machine)?;
    assert!(rt; tells(alloc, &machine, &plan, split(1, End::Left), Why::NoIon)?);
    assert!(rt; emits(alloc, &machine, &mut plan, split(0, End::Right))?);
    assert!(rt; tells(alloc, &machine, &plan, split(0, End::Right), Why::Occupied)?);
    assert!(rt; tells(alloc, &machine, &plan, merge(1, End::Left), Why::WrongEnd)?);
    assert!(rt; tells(alloc, &machine, &plan, rot(1), Why::Position)?);
    Ok(())
}

/// How many of these exchanges of the first two ions are appended.
fn exchanges(alloc: Global, machine: &Machine, plan: &mut Plan, count: u32) -> Result<u32, NoMemory>
    requires machine { machine.now ≡ pair }
    requires plan { IsOfThree plan.old }
    ensures { OnOk result (IsOfThree plan.new) }
{
    let mut made = 0u32;
    for _ in 0..count {
        if emits(alloc, machine, plan, rot(0))? {
            made = made.wrapping_add(1);
        }
    }
    Ok(made)
}

/// A plan of twenty thousand and one operations.
#[test]
fn many_operations(rt: HostRuntime) -> Result<(), Fail> {
    let alloc = rt.alloc();
    let machine = two_traps(alloc)?;
    let mut plan = three_in_a_trap(alloc, &machine)?;
    assert!(rt; exchanges(alloc, &machine, &mut plan, 20001)? == 20001);
    assert!(rt; stands(&plan, 0, Some((0, 1))) && holds(&plan, 0, &[1, 0, 2]));
    assert!(rt; plan.ops().len() == 20001);
    Ok(())
}
