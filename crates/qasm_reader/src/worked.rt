//! Worked examples.

ghost use Rattle.std.specs.Prelude.{◌≡◌, ◌∷◌, ◌++◌, [], codes, Ok, Some};
ghost use Rattle.qasm_reader.specs.Example.{after_head, answer_to, long_text, refused};
ghost use Rattle.qccd_circuit.specs.Example.{cx_on, h_on, measure_into, barrier_over};
ghost use Rattle.qccd_base.specs.Names.{bit, qubit};
ghost use Rattle.qasm_reader.specs.declared.fault.QasmKind.TheVariants as kind;
ghost use Rattle.qasm_reader.specs.declared.fault.Many.TheVariants as many;
ghost use Rattle.qasm_reader.specs.Gates.{gate_item};
ghost use Rattle.qccd_circuit.specs.declared.kinds.ItemKind.TheVariants.{Gate1, Gate2};

/// Texts that are refused.
pub fn refusals()
    ensures header { answer_to [] ≡ refused 0 kind.Header }
    ensures twice { after_head (codes "qreg q[1];\ncx q[0],q[0];\n") ≡ refused 55 kind.SameQubit }
    ensures sizes { after_head (codes "qreg q[2];\nqreg r[3];\ncx q,r;\n") ≡ refused 63 kind.SizeMismatch }
    ensures angle { after_head (codes "qreg q[1];\nrx(sin(pi/2 q[0];\n") ≡ refused 59 kind.Syntax }
    ensures cut { after_head (codes "qreg q[2]") ≡ refused 45 kind.Syntax }
{}

/// Gates with angles.
pub fn angles()
    ensures { after_head (codes "qreg q[1];\nrx( sin( pi / 2 )^2 ) q[0];\nu3(-pi/2,1e-05,0.5) q[0];\n") ≡ Ok (record {
      qubits = 1;
      bits = 0;
      items = gate_item Gate1 (codes "rx") (codes "sin(pi/2)^2" ∷ []) (0 ∷ [])
          ∷ gate_item Gate1 (codes "u3") (codes "-pi/2" ∷ codes "1e-05" ∷ codes "0.5" ∷ []) (0 ∷ []) ∷ [];
    }) }
{}

/// Broadcast, measurement and a barrier.
pub fn broadcast()
    ensures { after_head (codes "qreg q[2];\ncreg c[2];qreg r[1];\ncx q,r[0];\nmeasure q->c;barrier q[1],q;") ≡ Ok (record {
      qubits = 3;
      bits = 2;
      items = cx_on 0 2 ∷ cx_on 1 2 ∷ measure_into 0 0 ∷ measure_into 1 1 ∷ barrier_over (qubit 1 ∷ qubit 0 ∷ []) ∷ [];
    }) }
{}

/// Of two kinds at one token the smaller number.
pub fn orders()
    ensures unknown { after_head (codes "qreg q[1];rx z;") ≡ refused 49 kind.UnknownName }
    ensures classical { after_head (codes "creg c[1];rx c;") ≡ refused 49 kind.WrongKind }
    ensures angles { after_head (codes "qreg q[1];rx q;") ≡ refused 49 kind.AngleCount }
    ensures none { after_head (codes "qreg q[1];rx ;") ≡ refused 49 kind.Syntax }
    ensures end { after_head (codes "qreg q[1];rx") ≡ refused 48 kind.Syntax }
    ensures left { after_head (codes "qreg q[2];qreg r[3];cx q,r") ≡ refused 61 kind.SizeMismatch }
    ensures index { after_head (codes "qreg q[2];h q[2];") ≡ refused 50 kind.IndexOut }
    ensures count { after_head (codes "qreg q[2];cx q[1];") ≡ refused 53 kind.OperandCount }
    ensures again { after_head (codes "qreg q[2];creg q[1];") ≡ refused 51 kind.DuplicateName }
    ensures empty { after_head (codes "qreg q[0];") ≡ refused 43 kind.EmptyRegister }
    ensures many { after_head (codes "qreg q[257];") ≡ refused 43 (kind.TooMany many.Qubits 256) }
    ensures file { answer_to (codes "OPENQASM 2.0;include \"x\";") ≡ refused 21 kind.UnknownInclude }
    ensures before { answer_to (codes "OPENQASM 2.0;qreg q[1];h q;") ≡ refused 23 kind.UnknownName }
{}

/// An angle that is too long.
pub fn long_angle()
    ensures { answer_to (long_text 1025) ≡ refused 1074 (kind.TooMany many.AngleBytes 1024) }
{}
