//! Machines, and what they answer.

ghost use Rattle.std.specs.Prelude.{◌≡◌, ◌≢◌, ◌<◌, ◌≤◌, ℕ, All, IfErr, IfOk, IfNone, IfSome, OnOk, length, slice_get};
ghost use Rattle.qccd_base.specs.Greatest.{greatest};
ghost use Rattle.qccd_base.specs.declared.names.SegId.{SegId};
ghost use Rattle.qccd_machine.specs.declared.fault.MachineFault.TheVariants as fault;
ghost use Rattle.qccd_machine.specs.Fault.{data_of, IsFirst};
ghost use Rattle.qccd_machine.specs.Joined.{IsJoined};
ghost use Rattle.qccd_machine.specs.Machine.{MachineData, IsValid, degree_of, machine_data, slots_of, worst_of};

use crate::ends::{ends_at, first_at};
use crate::fault::MachineFault;
use crate::parts::Parts;
use crate::place::Place;
use qccd_base::{End, JuncId, SegId, Times, TrapId};
use std::alloc::{AllocError, Global};
use std::marker::Model;

/// A machine that is valid: at least one trap, each within its limits, and every part within reach.
#[derive(Debug, Drop)]
pub struct Machine {
    capacities: Vec<u8>,
    junctions: u8,
    segments: Vec<(Place, Place)>,
    times: Times,
}

impl Model for Machine {
    ghost use Rattle.qccd_machine.specs.Machine.{MachineData, IsValid};

    ghost Value = { MachineData };

    ghost view = { λ m. record {
      capacities = m.capacities.items;
      junctions = m.junctions;
      segments = m.segments.items;
      times = m.times;
    } };

    ghost invariant = { λ m. IsValid (record {
      capacities = m.capacities.items;
      junctions = m.junctions;
      segments = m.segments.items;
      times = m.times;
    }) };
}

impl Machine {
    /// The machine of these parts, which are valid.
    pub(crate) fn of_valid(
        capacities: Vec<u8>,
        junctions: u8,
        segments: Vec<(Place, Place)>,
        times: Times,
    ) -> Machine
        requires { IsValid (machine_data capacities.items junctions segments.items times) }
        ensures { result ≡ machine_data capacities.items junctions segments.items times }
    {
        Machine {
            capacities,
            junctions,
            segments,
            times,
        }
    }

    /// The machine of the parts.
    ///
    /// Parts that do not fit are refused for the first fault that applies, and nothing is taken before
    /// it is told, so that a number of parts past any memory is refused by its name. Memory can run
    /// out only where the parts fit.
    pub fn build(alloc: Global, parts: Parts) -> Result<Machine, MachineFault>
        ensures built { IfOk result (λ m. m ≡ data_of parts) }
        ensures valid { OnOk result (IsValid (data_of parts)) }
        ensures refused { IfErr result (λ f. f ≢ fault.NoMemory → IsFirst (data_of parts) f) }
        ensures memory { IfErr result (λ f. f ≡ fault.NoMemory → IsValid (data_of parts)) }
    {
        match parts.fault() {
            Some(fault) => Err(fault),
            None => {
                let capacities = narrowed(alloc, parts.capacities.as_slice())?;
                Ok(Machine::of_valid(
                    capacities,
                    parts.junctions as u8,
                    parts.segments,
                    parts.times,
                ))
            }
        }
    }

    /// How many traps there are.
    pub fn traps(&self) -> u8
        ensures count { result ≡ length self.now.capacities }
        ensures valid { IsValid self.now }
    {
        self.capacities.len() as u8
    }

    /// How many segments there are.
    pub fn segments(&self) -> u8
        ensures { result ≡ length self.now.segments }
    {
        self.segments.len() as u8
    }

    /// How many junctions there are.
    pub fn junctions(&self) -> u8
        ensures { result ≡ self.now.junctions }
    {
        self.junctions
    }

    /// How many ions the trap holds at most.
    pub fn capacity(&self, t: TrapId) -> u8
        requires { t.0 < length self.now.capacities }
        ensures { slice_get self.now.capacities t.0 ≡ Some result }
    {
        self.capacities[usize::from(t.0)]
    }

    /// Where the two ends of the segment are, end A first.
    pub fn ends(&self, s: SegId) -> (Place, Place)
        requires { s.0 < length self.now.segments }
        ensures { slice_get self.now.segments s.0 ≡ Some result }
    {
        self.segments[usize::from(s.0)]
    }

    /// The segment that is joined to this end of the trap, or `None` where none is. There is one at
    /// most.
    pub fn joined(&self, t: TrapId, e: End) -> Option<SegId>
        requires { t.0 < length self.now.capacities }
        ensures some { IfSome result (λ s. IsJoined self.now (Place.TrapEnd t e) s.0) }
        ensures none { IfNone result ((s : ℕ) → IsJoined self.now (Place.TrapEnd t e) s → ⊥) }
        ensures only { (s : SegId) → IsJoined self.now (Place.TrapEnd t e) s.0 → result ≡ Some s }
    {
        let number = first_at(self.segments.as_slice(), Place::TrapEnd(t, e))?;
        Some(SegId(number as u8))
    }

    /// How many ends of segments the junction joins.
    pub fn degree(&self, j: JuncId) -> u8
        requires { j.0 < self.now.junctions }
        ensures { result ≡ degree_of self.now j.0 }
    {
        ends_at(self.segments.as_slice(), Place::Junction(j)) as u8
    }

    /// How long each step takes.
    pub fn times(&self) -> &Times
        ensures { result.now ≡ self.now.times }
    {
        &self.times
    }

    /// How many qubits the machine takes: the capacities' sum less one, and for one trap its capacity.
    pub fn slots(&self) -> u32
        ensures { result ≡ slots_of self.now }
    {
        let all: u32 = self.capacities.iter().map(|c| u32::from(*c)).sum();
        if self.capacities.len() == 1 {
            all
        } else {
            all - 1
        }
    }

    /// The bound that is stated for the operations of one item: a hop of a qubit for each ordered pair
    /// of traps, and the item itself. A hop brings the qubit to the end of its chain, splits, moves and
    /// merges it, and takes it through each junction at most once.
    pub fn worst(&self) -> u32
        ensures { result ≡ worst_of self.now }
    {
        let traps = self.capacities.len() as u32;
        let longest = u32::from(greatest_of(self.capacities.as_slice()));
        let hop = (longest - 1) + 3 + 3 * u32::from(self.junctions);
        traps * (traps - 1) * hop + 1
    }
}

// The capacities as a machine has them.
fn narrowed(alloc: Global, capacities: &[u64]) -> Result<Vec<u8>, AllocError>
    requires { All (λ c. c ≤ 32) capacities.now }
    ensures { IfOk result (λ v. v.items ≡ capacities.now) }
{
    capacities
        .iter()
        .map(|capacity| *capacity as u8)
        .collect(alloc)
}

/// The greatest of the numbers, or 0 where there is none.
fn greatest_of(numbers: &[u8]) -> u8
    ensures { result ≡ greatest numbers.now }
{
    let mut most = 0;
    for number in numbers {
        if *number > most {
            most = *number;
        }
    }
    most
}
