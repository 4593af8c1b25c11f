//! What holds of all parts and their faults, and of the machines that are known by name. Each function
//! does nothing: its contract is the law.

ghost use Rattle.std.specs.Prelude.{◌≡◌, ◌≤◌, ℕ, ◌⊎◌};
ghost use Rattle.qccd_machine.specs.declared.fault.MachineFault.{MachineFault};
ghost use Rattle.qccd_machine.specs.Fault.{Applies, IsFirst};
ghost use Rattle.qccd_machine.specs.declared.place.Preset.{Preset};
ghost use Rattle.qccd_machine.specs.Machine.{MachineData, IsValid};
ghost use Rattle.qccd_machine.specs.Preset.{preset_of};

/// No fault applies to a valid machine. So parts are never both those of a machine and refused.
pub fn not_both()
    ensures { (m : MachineData) (fault : MachineFault) → IsValid m → Applies m fault → ⊥ }
{}

/// One fault at most is the first. So parts are refused in one way at most.
pub fn one_refusal()
    ensures { (m : MachineData) (fault other : MachineFault) → IsFirst m fault → IsFirst m other → fault ≡ other }
{}

/// Each machine of parts is valid or has a first fault. So parts are those of a machine or are
/// refused, and never neither.
pub fn every_parts()
    ensures { (m : MachineData) → IsValid m ⊎ ((fault : MachineFault) × IsFirst m fault) }
{}

/// Parts to which no fault applies are valid. So a machine is what has no fault.
pub fn valid_without_fault()
    ensures { (m : MachineData) → ((fault : MachineFault) → Applies m fault → ⊥) → IsValid m }
{}

/// Each machine that is known by name is valid, whatever the capacity of its traps within the limits.
pub fn presets_valid()
    ensures { (which : Preset) (capacity : ℕ) → 2 ≤ capacity → capacity ≤ 32 → IsValid (preset_of which capacity) }
{}
