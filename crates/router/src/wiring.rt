//! The part of a machine on which routes depend.

ghost use Rattle.std.specs.Prelude.{◌≡◌, IfOk};
ghost use Rattle.router.specs.Wiring.{IsWiring, wiring_of};

use qccd_base::{NoMemory, SegId};
use qccd_machine::{Machine, Place};
use std::alloc::Global;
use std::marker::Model;

/// How many traps and junctions a machine has, and what each of its segments joins.
#[derive(Drop)]
pub(crate) struct Wiring {
    traps: u8,
    junctions: u8,
    segments: Vec<(Place, Place)>,
}

impl Model for Wiring {
    ghost use Rattle.router.specs.Wiring.{WiringData, IsWiring};

    ghost Value = { WiringData };

    ghost view = { λ a. record { traps = a.traps; junctions = a.junctions; segments = a.segments.items } };

    ghost invariant = { λ a. IsWiring (record { traps = a.traps; junctions = a.junctions; segments = a.segments.items }) };
}

impl Wiring {
    /// The wiring of the machine.
    pub fn of(alloc: Global, machine: &Machine) -> Result<Wiring, NoMemory>
        ensures { IfOk result (λ wiring. wiring ≡ wiring_of machine.now) }
    {
        Ok(Wiring {
            traps: machine.traps(),
            junctions: machine.junctions(),
            segments: segments_of(alloc, machine)?,
        })
    }

    /// How many traps there are.
    pub fn traps(&self) -> u8
        ensures count { result ≡ self.now.traps }
        ensures wiring { IsWiring self.now }
    {
        self.traps
    }

    /// How many junctions there are.
    pub fn junctions(&self) -> u8
        ensures count { result ≡ self.now.junctions }
        ensures wiring { IsWiring self.now }
    {
        self.junctions
    }

    /// The two ends of each segment.
    pub fn segments(&self) -> &[(Place, Place)]
        ensures value { result.now ≡ self.now.segments }
        ensures wiring { IsWiring self.now }
    {
        self.segments.as_slice()
    }
}

/// The two ends of each segment of the machine.
fn segments_of(alloc: Global, machine: &Machine) -> Result<Vec<(Place, Place)>, NoMemory>
    ensures { IfOk result (λ segments. segments.items ≡ machine.now.segments) }
{
    let mut segments = Vec::with_capacity(alloc, usize::from(machine.segments()))?;
    for number in 0..machine.segments() {
        segments.push(machine.ends(SegId(number)))?;
    }
    Ok(segments)
}
