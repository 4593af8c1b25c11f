//! Worked examples. Each function does nothing: its contract is the fact.

ghost use Rattle.std.specs.Prelude.{◌≡◌, ◌∷◌, [], None, Some, codes, false, true};
ghost use Rattle.qccd_base.specs.Names.{qubit};
ghost use Rattle.qccd_circuit.specs.declared.kinds.ItemKind.TheVariants.{Gate1, Gate2};
ghost use Rattle.gate_defs.specs.declared.kinds.Callee.TheVariants.{Defined, Plain};
ghost use Rattle.gate_defs.specs.Angles.{arg};
ghost use Rattle.gate_defs.specs.Example.{alone, digits, fence, g, growing, own_cswap, sized, sum, twice, two_bits};
ghost use Rattle.gate_defs.specs.Gates.{gate, plain_gate};
ghost use Rattle.gate_defs.specs.Items.{barrier_on, cx, gate_item, one};
ghost use Rattle.gate_defs.specs.Meaning.{any_long, applications, expansion};
ghost use Rattle.gate_defs.specs.Measures.{count, depth, weight};
ghost use Rattle.gate_defs.specs.Rule.{AreDefs, IsCalled, found};

/// A definition is expanded: a parameter stands in parentheses where its argument has more than one token.
pub fn parameters()
    ensures sum { expansion (g ∷ []) 0 (sum ∷ []) (qubit 0 ∷ qubit 1 ∷ []) None
        ≡ gate_item Gate1 (codes "rz") (codes "(pi+1)/2" ∷ []) (qubit 0 ∷ []) None ∷ cx (qubit 0) (qubit 1) None
        ∷ gate_item Gate1 (codes "rz") (codes "-(pi+1)" ∷ []) (qubit 1 ∷ []) None ∷ [] }
    ensures token { expansion (g ∷ []) 0 (arg (codes "pi") true ∷ []) (qubit 5 ∷ qubit 3 ∷ []) two_bits
        ≡ gate_item Gate1 (codes "rz") (codes "pi/2" ∷ []) (qubit 5 ∷ []) two_bits ∷ cx (qubit 5) (qubit 3) two_bits
        ∷ gate_item Gate1 (codes "rz") (codes "-pi" ∷ []) (qubit 3 ∷ []) two_bits ∷ [] }
    ensures alone { expansion (alone ∷ []) 0 (sum ∷ []) (qubit 0 ∷ []) None
        ≡ gate_item Gate1 (codes "rx") (codes "pi+1" ∷ []) (qubit 0 ∷ []) None
        ∷ gate_item Gate1 (codes "rx") (codes "((pi+1))" ∷ []) (qubit 0 ∷ []) None ∷ [] }
{}

/// A definition applies one before it, whose arguments are those of the body under the outer ones.
pub fn nested()
    ensures { expansion (g ∷ twice ∷ []) 1 (arg (codes "1") true ∷ []) (qubit 0 ∷ qubit 1 ∷ []) None
        ≡ gate_item Gate1 (codes "rz") (codes "(1*2)/2" ∷ []) (qubit 1 ∷ []) None ∷ cx (qubit 1) (qubit 0) None
        ∷ gate_item Gate1 (codes "rz") (codes "-(1*2)" ∷ []) (qubit 0 ∷ []) None
        ∷ gate_item Gate1 (codes "rz") (codes "1/2" ∷ []) (qubit 0 ∷ []) None ∷ cx (qubit 0) (qubit 1) None
        ∷ gate_item Gate1 (codes "rz") (codes "-1" ∷ []) (qubit 1 ∷ []) None ∷ [] }
{}

/// A barrier has no condition, and an opaque gate is one item of its name, whatever the tables say of that name.
pub fn conditions_and_names()
    ensures barrier { expansion (fence ∷ []) 0 [] (qubit 0 ∷ qubit 1 ∷ []) two_bits
        ≡ barrier_on (qubit 1 ∷ qubit 0 ∷ []) ∷ one (codes "x") (qubit 0) two_bits ∷ [] }
    ensures cswap { expansion own_cswap 1 [] (qubit 0 ∷ qubit 1 ∷ []) None
        ≡ gate_item Gate2 (codes "cswap") (codes "1" ∷ []) (qubit 1 ∷ qubit 0 ∷ []) None ∷ [] }
{}

/// The measures of an opaque gate, of a gate with an empty body, of one with a `ccx`, a barrier and an `h`, and of one that
/// applies the last twice.
pub fn measures()
    ensures depths { depth sized 0 ∷ depth sized 1 ∷ depth sized 2 ∷ depth sized 3 ∷ [] ≡ 0 ∷ 1 ∷ 1 ∷ 2 ∷ [] }
    ensures weights { weight sized 0 ∷ weight sized 1 ∷ weight sized 2 ∷ weight sized 3 ∷ [] ≡ 1 ∷ 1 ∷ 18 ∷ 37 ∷ [] }
    ensures counts { count sized 0 ∷ count sized 1 ∷ count sized 2 ∷ count sized 3 ∷ [] ≡ 1 ∷ 0 ∷ 17 ∷ 34 ∷ [] }
{}

/// An angle may have 1,024 bytes and no more, also in an application that is no item.
pub fn long_angles()
    ensures inner { any_long (applications growing 1 (digits 1024 ∷ []) (qubit 0 ∷ [])) ≡ true }
    ensures short { any_long (applications growing 1 (digits 1023 ∷ []) (qubit 0 ∷ [])) ≡ false }
    ensures no_items { expansion growing 1 (digits 3 ∷ []) (qubit 0 ∷ []) None ≡ [] }
    ensures alone { any_long (applications (alone ∷ []) 0 (digits 1022 ∷ []) (qubit 0 ∷ [])) ≡ false }
{}

/// What may be applied: each gate of the tables but two, and an opaque gate on two qubits at most.
pub fn callees()
    ensures always { plain_gate (codes "U") ≡ Some (gate (codes "U") 3 1) }
    ensures first { plain_gate (codes "cu3") ≡ Some (gate (codes "cu3") 3 2) }
    ensures second { plain_gate (codes "cu") ≡ Some (gate (codes "cu") 4 2) }
    ensures ccx { IsCalled [] (Plain (codes "ccx")) 0 3 → ⊥ }
    ensures other { IsCalled [] (Plain (codes "foo")) 0 1 → ⊥ }
    ensures no_body { IsCalled sized (Defined 0) 0 3 → ⊥ }
    ensures body { IsCalled sized (Defined 3) 0 3 }
{}

/// These may be defined, and are found by their names.
pub fn names()
    ensures may { AreDefs (g ∷ twice ∷ []) }
    ensures there { found (g ∷ twice ∷ []) (codes "twice") ≡ Some 1 }
    ensures not_there { found (g ∷ twice ∷ []) (codes "h") ≡ None }
{}
