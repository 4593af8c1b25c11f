//! What holds of all definitions. Each function does nothing: its contract is the law.

ghost use Rattle.std.specs.Prelude.{◌≡◌, ◌<◌, ◌≤◌, ℕ, All, IsTrue, List, Option, false, is_some, length};
ghost use Rattle.qccd_base.specs.declared.names.Qubit.{Qubit};
ghost use Rattle.qccd_circuit.specs.declared.kinds.Cond.{Cond};
ghost use Rattle.qccd_circuit.specs.Circuit.{IsWithin};
ghost use Rattle.qccd_circuit.specs.Item.{Fits, IsCond, cond_bits};
ghost use Rattle.gate_defs.specs.declared.kinds.Arg.{Arg};
ghost use Rattle.gate_defs.specs.declared.kinds.Def.{Def};
ghost use Rattle.gate_defs.specs.Meaning.{Application, any_long, applications, applied_all, def_at, expansion, items_of, meanings, steps_at, with_inside};
ghost use Rattle.gate_defs.specs.Measures.{count, counts, size_of, weight};
ghost use Rattle.gate_defs.specs.Rule.{AreDefs, IsApplied, IsCalled};

/// What a definition is, is told by its own steps: their applications in order, each in front of those inside it.
pub fn told_by_steps()
    ensures { (defs : List Def) (id : ℕ) (args : List Arg) (qubits : List Qubit) → AreDefs defs → id < length defs
        → applications defs id args qubits ≡ applied_all (meanings defs) args qubits (steps_at defs id) }
{}

/// An application is as many items as are counted for its callee: it and all inside it.
pub fn applications_counted()
    ensures { (defs : List Def) (cond : Option Cond) (a : Application) → AreDefs defs → IsCalled defs a.callee (length a.args) (length a.qubits)
        → length (items_of defs cond (with_inside (meanings defs) a)) ≡ size_of (counts defs) a.callee }
{}

/// So is the expansion of a definition with a body, and these are no more than it weighs.
pub fn expansions_counted()
    ensures items { (defs : List Def) (id : ℕ) (args : List Arg) (qubits : List Qubit) (cond : Option Cond) → AreDefs defs → id < length defs
        → IsTrue (is_some (def_at defs id).body) → length (expansion defs id args qubits cond) ≡ count defs id }
    ensures weight { (defs : List Def) (id : ℕ) → count defs id ≤ weight defs id }
{}

/// All items of an application keep the item rule and are on its qubits, unless an angle in it is too long.
pub fn items_keep_the_rule()
    ensures fit { (defs : List Def) (cond : Option Cond) (n : ℕ) (a : Application) → AreDefs defs → IsCond cond → IsApplied defs n a
        → any_long (with_inside (meanings defs) a) ≡ false → All Fits (items_of defs cond (with_inside (meanings defs) a)) }
    ensures within { (defs : List Def) (cond : Option Cond) (n bits : ℕ) (a : Application) → AreDefs defs → All (λ b. b.0 < bits) (cond_bits cond) → IsApplied defs n a
        → any_long (with_inside (meanings defs) a) ≡ false → All (IsWithin n bits) (items_of defs cond (with_inside (meanings defs) a)) }
{}
