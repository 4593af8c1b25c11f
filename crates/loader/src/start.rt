//! The start chains of a raw program.

ghost use Rattle.std.specs.Prelude.{◌≡◌, ◌≤◌, ◌<◌, ◌^◌, ◌++◌, [], List, length, IfNone};
ghost use Rattle.std.specs.Bool.{OnFalse};
ghost use Rattle.qccd_base.specs.declared.names.Ion.{Ion};
ghost use Rattle.loader.specs.Refusal.{ions_of, is_stray, stray_behind, missing_ion, bad_ion, overfull_trap, start_refusal, Answers};
ghost use Rattle.loader.specs.Marked.{AreSeen};

use crate::faults::LoadFault;
use qccd_base::{Ion, IonList, TrapId};
use qccd_machine::Machine;

const IONS: usize = 256;

// Whether the ion is not below the number of qubits, or stands a second time.
fn is_stray(ion: Ion, qubits: u16, seen: &[bool]) -> bool
    requires few { qubits ≤ 256 }
    requires all { length seen.now ≡ 256 }
    ensures stray { (front : List Ion) → AreSeen front seen.now → result ≡ is_stray qubits front ion }
    ensures below { OnFalse result (ion.0 < qubits) }
{
    ion.0 >= qubits || seen[usize::from(ion.0)]
}

// The first ion of a chain that is astray behind those that were seen; where there is none all of it is seen.
fn stray_in(chain: &[Ion], qubits: u16, seen: &mut [bool]) -> Option<Ion>
    requires few { qubits ≤ 256 }
    requires all { length seen.old ≡ 256 }
    ensures long { length seen.new ≡ 256 }
    ensures stray { (front : List Ion) → AreSeen front seen.old → result ≡ stray_behind qubits front chain.now }
    ensures seen { IfNone result ((front : List Ion) → AreSeen front seen.old → AreSeen (front ++ chain.now) seen.new) }
{
    for ion in chain {
        if is_stray(*ion, qubits, seen) {
            return Some(*ion);
        }
        seen[usize::from(ion.0)] = true;
    }
    None
}

// The same of all chains.
fn stray_of(chains: &[IonList], qubits: u16, seen: &mut [bool]) -> Option<Ion>
    requires few { qubits ≤ 256 }
    requires unseen { AreSeen [] seen.old }
    ensures long { length seen.new ≡ 256 }
    ensures stray { result ≡ stray_behind qubits [] (ions_of chains.now) }
    ensures seen { IfNone result (AreSeen (ions_of chains.now) seen.new) }
{
    for chain in chains {
        let stray = stray_in(chain.as_slice(), qubits, seen);
        if stray.is_some() {
            return stray;
        }
    }
    None
}

// The least ion that was not seen.
fn missing_of(qubits: u16, seen: &[bool]) -> Option<Ion>
    requires few { qubits ≤ 256 }
    requires all { length seen.now ≡ 256 }
    ensures { (ions : List Ion) → AreSeen ions seen.now → result ≡ missing_ion qubits ions }
{
    for ion in 0..qubits {
        if !seen[usize::from(ion)] {
            return Some(Ion(ion));
        }
    }
    None
}

// The first ion that is astray, or else the least that is missing.
fn bad_ion(chains: &[IonList], qubits: u16) -> Option<Ion>
    requires few { qubits ≤ 256 }
    ensures { result ≡ bad_ion qubits (ions_of chains.now) }
{
    let mut seen = [false; IONS];
    let astray = stray_of(chains, qubits, &mut seen);
    if astray.is_some() {
        return astray;
    }
    missing_of(qubits, &seen)
}

// The first chain above its trap's capacity.
fn overfull(machine: &Machine, chains: &[IonList]) -> Option<TrapId>
    requires { length chains.now ≡ length machine.now.capacities }
    ensures { result ≡ overfull_trap machine.now chains.now }
{
    for trap in 0..machine.traps() {
        let chain = &chains[usize::from(trap)];
        if chain.as_slice().len() > usize::from(machine.capacity(TrapId(trap))) {
            return Some(TrapId(trap));
        }
    }
    None
}

/// Whether these are start chains of so many qubits, and if not, why.
pub fn start(machine: &Machine, qubits: u16, chains: &[IonList]) -> Result<(), LoadFault>
    requires few { qubits ≤ 256 }
    requires chains { length chains.now < 2 ^ 32 }
    ensures { Answers result (start_refusal machine.now qubits chains.now) }
{
    let traps = usize::from(machine.traps());
    if chains.len() != traps {
        return Err(LoadFault::TrapCount {
            given: chains.len() as u32,
            traps: traps as u32,
        });
    }
    if let Some(ion) = bad_ion(chains, qubits) {
        return Err(LoadFault::BadStart { ion });
    }
    match overfull(machine, chains) {
        None => Ok(()),
        Some(trap) => Err(LoadFault::StartOverfull { trap }),
    }
}
