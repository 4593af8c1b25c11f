//! A circuit is compiled.

ghost use Rattle.std.specs.Prelude.{◌≡◌, ◌≤◌, ◌<◌, ◌-◌, ℕ, IfErr, OnOk, Some, length};
ghost use Rattle.qccd_circuit.specs.Circuit.{IsCircuit};
ghost use Rattle.qccd_machine.specs.Machine.{slots_of, worst_of};
ghost use Rattle.op_plan.specs.Plan.{state_of, Agrees};
ghost use Rattle.dep_graph.specs.Ready.{Follows};
ghost use Rattle.gate_scheduler.specs.Pick.{pick};
ghost use Rattle.router.specs.Wiring.{wiring_of};
ghost use Rattle.compiler.specs.Chosen.{chosen_long, planned};
ghost use Rattle.compiler.specs.Compiled.{IsCompiled, IsRefused};

use crate::items::compile_item;
use dep_graph::{Graph, Ready};
use gate_scheduler::pick;
use ion_mapping::{MapFault, place};
use op_plan::Plan;
use qccd_base::{Mode, NoMemory};
use qccd_circuit::Circuit;
use qccd_machine::Machine;
use qccd_program::Program;
use router::Routes;
use std::alloc::Global;
use thiserror::Error;

/// Why a circuit has no program for a machine.
#[derive(Clone, Copy, Debug, PartialEq, Eq, Hash, Error)]
pub enum CompileFault {
    /// The circuit has more qubits than the machine has slots for.
    #[error("{qubits} qubits, {slots} slots")]
    Shortage { qubits: u32, slots: u32 },
    /// After so many of the items there are so many operations that the next item might pass the limit of
    /// 4,194,304.
    #[error("too long: {done} items took {ops} operations, the limit is 4194304")]
    TooLong { done: u32, ops: u32 },
    /// Memory ran out.
    #[error("no memory")]
    NoMemory,
}

impl From<NoMemory> for CompileFault {
    ghost use Rattle.std.specs.Prelude.{◌≡◌};
    ghost use Rattle.compiler.specs.declared.compiling.CompileFault.TheVariants.{NoMemory};

    ghost from_gives = { λ _ e. e ≡ NoMemory };

    fn from(_refused: NoMemory) -> CompileFault {
        CompileFault::NoMemory
    }
}

impl From<MapFault> for CompileFault {
    ghost use Rattle.std.specs.Prelude.{◌≡◌};
    ghost use Rattle.compiler.specs.Compiled.{of_placement};

    ghost from_gives = { λ f e. e ≡ of_placement f };

    fn from(fault: MapFault) -> CompileFault {
        match fault {
            MapFault::Shortage { qubits, slots } => CompileFault::Shortage { qubits, slots },
            MapFault::NoMemory => CompileFault::NoMemory,
        }
    }
}

// How many operations a program may have.
const MOST_OPS: u32 = 4194304;

/// The chosen program of the circuit for the machine: it implements the circuit, its items in the order in which
/// they are picked, with no more operations for an item than the bound.
///
/// `Shortage` comes exactly where the circuit has more qubits than the machine takes, and `TooLong` at the
/// first item before which there are so many operations that those of one more may be too many.
pub fn compile(
    alloc: Global,
    circuit: &Circuit,
    machine: Machine,
    mode: Mode,
) -> Result<Program, CompileFault>
    ensures { IsCompiled circuit.now machine mode result }
{
    let _traps = machine.traps();
    let items = circuit.items();
    let start = place(alloc, circuit, &machine)?;
    let routes = Routes::of(alloc, &machine)?;
    // Each item takes an operation at least.
    let mut plan = Plan::with_room(
        alloc,
        &machine,
        circuit.qubits(),
        circuit.bits(),
        start.as_slice(),
        items.len(),
    )?;
    compile_items(alloc, circuit, &machine, &routes, &mut plan, mode)?;
    let _ops = plan.ops();
    let program = Program::of(
        alloc,
        machine,
        circuit.qubits(),
        circuit.bits(),
        Some(mode),
        start,
        plan.into_ops(),
    )?;
    Ok(program)
}

// The items, one after another, each as it is picked.
fn compile_items(
    alloc: Global,
    circuit: &Circuit,
    machine: &Machine,
    routes: &Routes,
    plan: &mut Plan,
    mode: Mode,
) -> Result<(), CompileFault>
    requires slots { circuit.now.qubits ≤ slots_of machine.now }
    requires routes { routes.now ≡ wiring_of machine.now }
    requires plan { plan.old ≡ planned circuit.now machine.now mode 0 }
    ensures done { OnOk result (plan.new ≡ planned circuit.now machine.now mode (length circuit.now.items)) }
    ensures fits { OnOk result ((count : ℕ) → count < length circuit.now.items → chosen_long circuit.now machine.now mode count ≤ 4194304 - worst_of machine.now) }
    ensures refused { IfErr result (IsRefused circuit.now machine.now mode) }
{
    let _traps = machine.traps();
    let items = circuit.items();
    let most = MOST_OPS - machine.worst();
    let graph = Graph::of(alloc, circuit)?;
    let mut ready = Ready::of(alloc, &graph)?;
    for done in 0..items.len() {
        let ops = plan.ops().len() as u32;
        if ops > most {
            return Err(CompileFault::TooLong {
                done: done as u32,
                ops,
            });
        }
        let number = next(circuit, &ready, plan);
        compile_item(
            alloc,
            machine,
            routes,
            plan,
            number,
            &items[number as usize],
            mode,
        )?;
        ready.take(&graph, number);
    }
    Ok(())
}

// The item that is picked, where one is left.
fn next(circuit: &Circuit, ready: &Ready, plan: &Plan) -> u32
    requires ready { Follows circuit.now.items ready.now }
    requires qubits { circuit.now.qubits ≤ plan.now.qubits }
    requires some { (i : ℕ) × (pick circuit.now.items ready.now.taken (state_of plan.now) ≡ Some i) }
    ensures { pick circuit.now.items ready.now.taken (state_of plan.now) ≡ Some result }
{
    match pick(circuit, ready, plan) {
        None => unreachable!(),
        Some(number) => number,
    }
}
