//! Worked examples of what the definitions say. Each function does nothing: its contract is the example.

ghost use Rattle.std.specs.Prelude.{◌≡◌, codes};
ghost use Rattle.qccd_base.specs.Names.{ion};
ghost use Rattle.machine_text.specs.declared.fault.TextFault.TheVariants.{NotToml};
ghost use Rattle.qasm_reader.specs.declared.fault.QasmKind.TheVariants as kind;
ghost use Rattle.op_table.specs.declared.kinds.Why.TheVariants.{Full};
ghost use Rattle.op_text.specs.declared.kind.AsmKind.TheVariants as asm;
ghost use Rattle.loader.specs.declared.faults.LoadFault.TheVariants.{TrapCount, BadStart, Illegal, ItemTwice};
ghost use Rattle.meaning_check.specs.declared.verdict.Verdict.TheVariants.{Missing, Order};
ghost use Rattle.qccd_messages.specs.Cause.{TooLarge, Machine, Circuit, Shortage, Asm, Load, NotSame};
ghost use Rattle.qccd_messages.specs.Message.{message_of};

/// Two places are too few for three qubits.
pub fn shortage_told()
    ensures { message_of (Shortage 3 2) ≡ codes "qccd: 3 qubits, 2 slots\n" }
{}

/// A circuit of no form that is read yet.
pub fn not_built_told()
    ensures { message_of (Circuit 0 kind.NotBuilt) ≡ codes "qccd: circuit: byte 0: not built\n" }
{}

/// A machine's file that is no TOML.
pub fn not_toml_told()
    ensures { message_of (Machine NotToml) ≡ codes "qccd: machine: not TOML\n" }
{}

/// A machine's file with a byte too many.
pub fn large_told()
    ensures { message_of (TooLarge (codes "m") 1048576) ≡ codes "qccd: m has more than 1048576 bytes\n" }
{}

/// A program's text that ends within its fifteenth line, and one of a later version.
pub fn texts_refused()
    ensures cut { message_of (Asm 15 asm.Count) ≡ codes "qccd: program: line 15: count\n" }
    ensures version { message_of (Asm 1 asm.NotBuilt) ≡ codes "qccd: program: line 1: not built\n" }
{}

/// Texts that spell no program of their machine.
pub fn programs_refused()
    ensures full { message_of (Load (Illegal 3 Full)) ≡ codes "qccd: program: operation 3: trap is full\n" }
    ensures twice { message_of (Load (ItemTwice 7)) ≡ codes "qccd: program: operation 7: item stands twice\n" }
    ensures chains { message_of (Load (TrapCount 2 1)) ≡ codes "qccd: program: 2 chains for 1 traps\n" }
    ensures start { message_of (Load (BadStart (ion 0))) ≡ codes "qccd: program: ion 0 stands wrongly at the start\n" }
{}

/// Programs that are not the circuit's.
pub fn differences_told()
    ensures order { message_of (NotSame (Order 0 2)) ≡ codes "qccd: not the same: item 2 stands before item 0\n" }
    ensures missing { message_of (NotSame (Missing 2)) ≡ codes "qccd: not the same: item 2 is missing\n" }
{}
