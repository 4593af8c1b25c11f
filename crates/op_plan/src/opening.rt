//! What a plan begins with: copies of the machine's wiring and of the start chains, and what they put where.

ghost use Rattle.std.specs.Prelude.{◌≡◌, ◌<◌, ℕ, All, IfOk, length};
ghost use Rattle.qccd_machine.specs.Machine.{IsValid};
ghost use Rattle.op_table.specs.Start.{IsStart};
ghost use Rattle.op_table.specs.State.{opening};
ghost use Rattle.op_cells.specs.Shows.{Shows};
ghost use Rattle.op_plan.specs.Cold.{cold};
ghost use Rattle.op_plan.specs.Kept.{housed, AreHomes};
ghost use Rattle.op_plan.specs.Opening.{AreStart, IsOpeningAt};

use op_cells::{Cell, Cells, DoneList, count_of, start_chain};
use op_table::Content;
use qccd_base::{Ion, IonList, NoMemory, SegId, TrapId};
use qccd_machine::{Machine, Place};
use std::alloc::Global;

/// The capacities of the traps.
pub(crate) fn capacities_of(alloc: Global, machine: &Machine) -> Result<Vec<u8>, NoMemory>
    ensures { IfOk result (λ capacities. capacities.items ≡ machine.now.capacities) }
{
    let mut capacities = Vec::with_capacity(alloc, usize::from(machine.traps()))?;
    for trap in 0..machine.traps() {
        capacities.push(machine.capacity(TrapId(trap)))?;
    }
    Ok(capacities)
}

/// The ends of the segments.
pub(crate) fn segments_of(alloc: Global, machine: &Machine) -> Result<Vec<(Place, Place)>, NoMemory>
    ensures { IfOk result (λ segments. segments.items ≡ machine.now.segments) }
{
    let mut segments = Vec::with_capacity(alloc, usize::from(machine.segments()))?;
    for seg in 0..machine.segments() {
        segments.push(machine.ends(SegId(seg)))?;
    }
    Ok(segments)
}

/// The same chains.
pub(crate) fn copied(alloc: Global, chains: &[IonList]) -> Result<Vec<IonList>, NoMemory>
    ensures { IfOk result (λ copies. copies.items ≡ chains.now) }
{
    let mut copies = Vec::with_capacity(alloc, chains.len())?;
    for chain in chains {
        copies.push(IonList::of(Vec::from_slice(alloc, chain.as_slice())?))?;
    }
    Ok(copies)
}

/// The cells of all resources at the opening, with no room in their logs.
pub fn opening_cells(
    alloc: Global,
    machine: &Machine,
    bits: u16,
    chains: &[IonList],
) -> Result<Cells, NoMemory>
    requires { AreStart machine.now chains.now }
    ensures { IfOk result (λ cells. (qubits : ℕ) → IsStart machine.now qubits chains.now → Shows machine.now (cold (opening qubits bits chains.now)) cells) }
{
    let count = count_of(machine, bits);
    let mut cells = Vec::with_capacity(alloc, count)?;
    for number in 0..count {
        let log = DoneList::with_room(alloc, 0)?;
        let content = opening_content(machine, chains, number);
        cells.push(Cell {
            content,
            free_at: 0,
            log,
        })?;
    }
    Ok(Cells::of_list(cells))
}

// What the resource with that number holds at the opening.
fn opening_content(machine: &Machine, chains: &[IonList], number: usize) -> Content
    requires { AreStart machine.now chains.now }
    ensures { (qubits bits : ℕ) → IsStart machine.now qubits chains.now → IsOpeningAt machine.now qubits bits chains.now number result }
{
    let traps = usize::from(machine.traps());
    let segments = usize::from(machine.segments());
    if number < traps {
        Content::Trap {
            chain: start_chain(chains[number].as_slice()),
            heat: 0,
        }
    } else if number < traps + segments {
        Content::Seg { rider: None }
    } else if number < count_of(machine, 0) {
        Content::Junc { carry: None }
    } else {
        Content::Bit
    }
}

/// The trap of each qubit at the opening.
pub(crate) fn opening_homes(
    alloc: Global,
    machine: &Machine,
    qubits: u16,
    chains: &[IonList],
) -> Result<Vec<Option<TrapId>>, NoMemory>
    requires { IsStart machine.now qubits chains.now }
    ensures { IfOk result (λ traps. (bits : ℕ) → AreHomes (opening qubits bits chains.now) qubits traps.items) }
{
    let mut homes = vec![in alloc; None; usize::from(qubits)]?;
    for trap in 0..machine.traps() {
        house(
            &mut homes,
            TrapId(trap),
            chains[usize::from(trap)].as_slice(),
        );
    }
    Ok(homes)
}

/// For each qubit the position at which it stands at the opening, as a guess where it stands later.
pub(crate) fn opening_seats(
    alloc: Global,
    qubits: u16,
    chains: &[IonList],
) -> Result<Vec<usize>, NoMemory> {
    let mut seats = vec![in alloc; 0usize; usize::from(qubits)]?;
    for chain in chains {
        seat(&mut seats, chain.as_slice());
    }
    Ok(seats)
}

// The ions carry the qubits of their numbers to their positions.
fn seat(seats: &mut Vec<usize>, ions: &[Ion]) {
    for (at, ion) in ions.iter().enumerate() {
        let qubit = usize::from(ion.0);
        if qubit < seats.len() {
            seats[qubit] = at;
        }
    }
}

// The ions carry the qubits of their numbers into the trap.
fn house(homes: &mut Vec<Option<TrapId>>, trap: TrapId, ions: &[Ion])
    requires { All (λ x. x.0 < length homes.old.items) ions.now }
    ensures { homes.new.items ≡ housed trap ions.now homes.old.items }
{
    for ion in ions {
        homes[usize::from(ion.0)] = Some(trap);
    }
}
