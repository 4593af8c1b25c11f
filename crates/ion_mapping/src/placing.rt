//! The chains at the start: qubits in the order of their first use, traps filled in the order of their numbers.

ghost use Rattle.std.specs.Prelude.{◌≡◌, ◌≢◌, ◌+◌, ◌-◌, ◌<◌, ◌≤◌, max, [], IfErr, IfOk, OnOk, Err, map, sum};
ghost use Rattle.qccd_base.specs.Names.{ion};
ghost use Rattle.qccd_machine.specs.Machine.{slots_of};
ghost use Rattle.ion_mapping.specs.declared.fault.MapFault.TheVariants as fault;
ghost use Rattle.ion_mapping.specs.Placement.{by_use, filled, fills, chains_at_start, spared, uses};
ghost use Rattle.ion_mapping.specs.Taking.{with_numbers};

use crate::fault::MapFault;
use crate::taking::Taking;
use qccd_base::{Ion, IonList, NoMemory, Qubit, TrapId};
use qccd_circuit::Circuit;
use qccd_machine::Machine;
use std::alloc::Global;

/// One chain for each trap. The qubits are taken in the order of their first use, then the unused ones by number,
/// and the traps are filled in the order of their numbers; ion i carries qubit i. In each trap two places are spared,
/// or one, where the others are enough for all qubits and leave one place at least in each trap.
///
/// `Shortage` comes exactly where the circuit has more qubits than the machine takes.
pub fn place(alloc: Global, circuit: &Circuit, machine: &Machine) -> Result<Vec<IonList>, MapFault>
    ensures placed { IfOk result (λ chains. chains.items ≡ chains_at_start circuit.now machine.now) }
    ensures short { slots_of machine.now < circuit.now.qubits → result ≡ Err (fault.Shortage circuit.now.qubits (slots_of machine.now)) }
    ensures refused { IfErr result (λ f. f ≢ fault.NoMemory → slots_of machine.now < circuit.now.qubits) }
{
    let qubits = u32::from(circuit.qubits());
    let slots = machine.slots();
    if slots < qubits {
        return Err(MapFault::Shortage { qubits, slots });
    }
    let ions = ions_by_use(alloc, circuit)?;
    let chains = chains_of(
        alloc,
        machine,
        spare_places(machine, qubits),
        ions.as_slice(),
    )?;
    Ok(chains)
}

// The ions in the order of their qubits' first use, then those of the unused ones.
fn ions_by_use(alloc: Global, circuit: &Circuit) -> Result<Vec<Ion>, NoMemory>
    ensures { IfOk result (λ ions. ions.items ≡ map ion (by_use circuit.now)) }
{
    // There are not too many qubits, as the contract of the items tells.
    let _items = circuit.items();
    let mut taking = Taking::with_room(alloc, circuit.qubits())?;
    take_used(&mut taking, circuit)?;
    for number in 0..circuit.qubits() {
        taking.take(Qubit(number))?;
    }
    Ok(taking.into_ions())
}

// The qubits that the items name, in turn. Once all of the circuit are taken, the items that are left are not
// looked at, since they name no other.
fn take_used(taking: &mut Taking, circuit: &Circuit) -> Result<(), NoMemory>
    requires { taking.old ≡ [] }
    ensures { OnOk result (taking.new ≡ with_numbers [] (uses circuit.now.items)) }
{
    let items = circuit.items();
    let qubits = usize::from(circuit.qubits());
    let mut done = 0;
    while done < items.len() && taking.len() < qubits {
        taking.take_all(items[done].qubits().as_slice())?;
        done += 1;
    }
    Ok(())
}

// How many places are spared in each trap.
fn spare_places(machine: &Machine, qubits: u32) -> u8
    ensures { result ≡ spared machine.now qubits }
{
    if qubits <= places(machine, 2) {
        2
    } else if qubits <= places(machine, 1) {
        1
    } else {
        0
    }
}

// How many ions the traps are filled with in all, where so many places are spared in each.
fn places(machine: &Machine, spare: u8) -> u32
    ensures { result ≡ sum (fills machine.now spare) }
{
    let mut all = 0;
    for trap in 0..machine.traps() {
        all += u32::from(fill(machine.capacity(TrapId(trap)), spare));
    }
    all
}

// How many ions a trap of this capacity is filled with.
fn fill(capacity: u8, spare: u8) -> u8
    ensures { result ≡ max (capacity - spare) 1 }
{
    capacity.saturating_sub(spare).max(1)
}

// The traps filled with these ions, in order.
fn chains_of(
    alloc: Global,
    machine: &Machine,
    spare: u8,
    ions: &[Ion],
) -> Result<Vec<IonList>, NoMemory>
    ensures { IfOk result (λ chains. chains.items ≡ filled (fills machine.now spare) ions.now) }
{
    let mut chains = Vec::with_capacity(alloc, usize::from(machine.traps()))?;
    let mut rest = ions;
    for trap in 0..machine.traps() {
        let most = usize::from(fill(machine.capacity(TrapId(trap)), spare));
        let (chain, later) = rest.split_at(most.min(rest.len()));
        chains.push(IonList::of(Vec::from_slice(alloc, chain)?))?;
        rest = later;
    }
    Ok(chains)
}
