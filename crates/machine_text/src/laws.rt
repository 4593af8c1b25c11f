//! What holds of all texts. Each function does nothing: its contract is the law.

ghost use Rattle.std.specs.Prelude.{◌≡◌, ℕ, ◌⊎◌, List};
ghost use Rattle.qccd_machine.specs.Machine.{MachineData};
ghost use Rattle.machine_text.specs.declared.fault.TextFault.{TextFault};
ghost use Rattle.machine_text.specs.Machine.{IsMachineOf, IsRefusalOf};

/// A text is that of one machine at most.
pub fn one_machine()
    ensures { (text : List ℕ) (m n : MachineData)
        → IsMachineOf text m → IsMachineOf text n → m ≡ n }
{}

/// A text is refused in one way at most.
pub fn one_refusal()
    ensures { (text : List ℕ) (fault other : TextFault)
        → IsRefusalOf text fault → IsRefusalOf text other → fault ≡ other }
{}

/// No text is that of a machine and refused.
pub fn not_both()
    ensures { (text : List ℕ) (m : MachineData) (fault : TextFault)
        → IsMachineOf text m → IsRefusalOf text fault → ⊥ }
{}

/// Each text is that of a machine or is refused.
pub fn every_text()
    ensures { (text : List ℕ) → ((m : MachineData) × IsMachineOf text m)
        ⊎ ((fault : TextFault) × IsRefusalOf text fault) }
{}
