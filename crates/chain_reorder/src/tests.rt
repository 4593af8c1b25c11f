//! A qubit is brought to both ends in both modes, and many times, with ample memory.

ghost use Rattle.std.specs.Prelude.{◌≡◌, ◌<◌, IfOk, OnOk};
ghost use Rattle.op_table.specs.Example.{pair};
ghost use Rattle.op_plan.specs.Example.{IsOfThree};

use super::*;
use op_plan::Plan;
use qccd_base::{End, Ion, IonList, Mode, NoMemory, Qubit, Times, TrapId};
use qccd_machine::{Machine, Parts, Place};
use std::alloc::Global;
use std::test::Fail;

/// Two traps of five, the right end of the first joined to the left end of the second.
fn two_traps(alloc: Global) -> Result<Machine, Fail>
    ensures { IfOk result (λ m. m ≡ pair) }
{
    let joined = [(
        Place::TrapEnd(TrapId(0), End::Right),
        Place::TrapEnd(TrapId(1), End::Left),
    )];
    let parts = Parts {
        capacities: Vec::from_slice(alloc, &[5, 5])?,
        junctions: 0,
        segments: Vec::from_slice(alloc, &joined)?,
        times: Times::usual(),
    };
    Ok(Machine::build(alloc, parts)?)
}

/// The plan of three ions in the first trap, with no operation yet.
fn three_in_a_trap(alloc: Global, machine: &Machine) -> Result<Plan, NoMemory>
    requires { machine.now ≡ pair }
    ensures { IfOk result IsOfThree }
{
    let first = IonList::of(Vec::from_slice(alloc, &[Ion(0), Ion(1), Ion(2)])?);
    let second = IonList::of(Vec::new(alloc));
    let chains = Vec::from_array(alloc, [first, second])?;
    Plan::begin(alloc, machine, 3, 0, chains.as_slice())
}

/// Brings the qubit to that end of its trap, where it stands in one and the plan has room.
fn brings(
    alloc: Global,
    machine: &Machine,
    plan: &mut Plan,
    qubit: u16,
    end: End,
    mode: Mode,
) -> Result<bool, NoMemory>
    requires machine { machine.now ≡ pair }
    requires plan { IsOfThree plan.old }
    requires there { qubit < 3 }
    ensures { OnOk result (IsOfThree plan.new) }
{
    if plan.ops().len() > 4000000 {
        return Ok(false);
    }
    match plan.place_of(Qubit(qubit)) {
        None => Ok(false),
        Some((trap, _)) => {
            to_end(alloc, machine, plan, trap, Qubit(qubit), end, mode)?;
            Ok(true)
        }
    }
}

/// Whether the first trap holds these qubits, from left to right, after so many operations.
fn holds(plan: &Plan, qubits: &[u16], count: usize) -> bool
    requires { IsOfThree plan.now }
{
    let chain = plan.chain(TrapId(0));
    if chain.len() != qubits.len() {
        return false;
    }
    for (entry, qubit) in chain.iter().zip(qubits) {
        if entry.qubit.0 != *qubit {
            return false;
        }
    }
    plan.ops().len() == count
}

/// Neighbours are exchanged one by one.
#[test]
fn by_exchanging_ions(rt: HostRuntime) -> Result<(), Fail> {
    let alloc = rt.alloc();
    let machine = two_traps(alloc)?;
    let mut plan = three_in_a_trap(alloc, &machine)?;
    assert!(rt; brings(alloc, &machine, &mut plan, 2, End::Left, Mode::IonSwap)?);
    assert!(rt; holds(&plan, &[2, 0, 1], 2));
    assert!(rt; brings(alloc, &machine, &mut plan, 0, End::Right, Mode::IonSwap)?);
    assert!(rt; holds(&plan, &[2, 1, 0], 3));
    assert!(rt; brings(alloc, &machine, &mut plan, 0, End::Right, Mode::IonSwap)?);
    assert!(rt; holds(&plan, &[2, 1, 0], 3));
    Ok(())
}

/// One exchange of qubits, and none for a qubit that is there.
#[test]
fn by_exchanging_qubits(rt: HostRuntime) -> Result<(), Fail> {
    let alloc = rt.alloc();
    let machine = two_traps(alloc)?;
    let mut plan = three_in_a_trap(alloc, &machine)?;
    assert!(rt; brings(alloc, &machine, &mut plan, 2, End::Left, Mode::GateSwap)?);
    assert!(rt; holds(&plan, &[2, 1, 0], 1));
    assert!(rt; brings(alloc, &machine, &mut plan, 1, End::Right, Mode::GateSwap)?);
    assert!(rt; holds(&plan, &[2, 0, 1], 2));
    assert!(rt; brings(alloc, &machine, &mut plan, 1, End::Right, Mode::GateSwap)?);
    assert!(rt; holds(&plan, &[2, 0, 1], 2));
    Ok(())
}

/// How many times the qubit at the left end is brought to the right one.
fn turns(alloc: Global, machine: &Machine, plan: &mut Plan, count: u16) -> Result<u32, NoMemory>
    requires machine { machine.now ≡ pair }
    requires plan { IsOfThree plan.old }
    ensures { OnOk result (IsOfThree plan.new) }
{
    let mut made = 0u32;
    for number in 0..count {
        if brings(alloc, machine, plan, number % 3, End::Right, Mode::IonSwap)? {
            made = made.wrapping_add(1);
        }
    }
    Ok(made)
}

/// The chain is turned by one ion nine thousand times.
#[test]
fn many_times(rt: HostRuntime) -> Result<(), Fail> {
    let alloc = rt.alloc();
    let machine = two_traps(alloc)?;
    let mut plan = three_in_a_trap(alloc, &machine)?;
    assert!(rt; turns(alloc, &machine, &mut plan, 9000)? == 9000);
    assert!(rt; holds(&plan, &[0, 1, 2], 18000));
    Ok(())
}
