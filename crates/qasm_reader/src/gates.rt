//! The gates that are known by name.

ghost use Rattle.std.specs.Prelude.{◌≡◌, ◌==◌, map, option_map, true};
ghost use Rattle.qasm_lex.specs.Runs.{begins};
ghost use Rattle.gate_defs.specs.Gates.{gate_in, gate_of};
ghost use Rattle.qasm_reader.specs.Named.{row_gate, shape};

use crate::words::same;

/// A gate that is known by its name.
#[derive(Clone, Copy, Debug)]
pub(crate) struct KnownGate {
    pub(crate) name: &'static [u8],
    /// How many angles it takes.
    pub(crate) angles: u8,
    /// How many qubits it takes.
    pub(crate) qubits: u8,
}

// The gates that a text may use before the include: name, angles, qubits.
const BEFORE: [(&[u8], u8, u8); 2] = [(b"U", 3, 1), (b"CX", 0, 2)];

// Of the gates that a text may use after the include those of one letter.
const SHORT: [(&[u8], u8, u8); 9] = [
    (b"U", 3, 1),
    (b"x", 0, 1),
    (b"y", 0, 1),
    (b"z", 0, 1),
    (b"h", 0, 1),
    (b"s", 0, 1),
    (b"t", 0, 1),
    (b"p", 1, 1),
    (b"u", 3, 1),
];

// Those of more letters that begin with `c`.
const WITH_C: [(&[u8], u8, u8); 14] = [
    (b"cx", 0, 2),
    (b"cz", 0, 2),
    (b"cy", 0, 2),
    (b"ch", 0, 2),
    (b"crz", 1, 2),
    (b"cu1", 1, 2),
    (b"cu3", 3, 2),
    (b"ccx", 0, 3),
    (b"csx", 0, 2),
    (b"crx", 1, 2),
    (b"cry", 1, 2),
    (b"cp", 1, 2),
    (b"cu", 4, 2),
    (b"cswap", 0, 3),
];

// The others.
const OTHERS: [(&[u8], u8, u8); 16] = [
    (b"CX", 0, 2),
    (b"id", 0, 1),
    (b"sdg", 0, 1),
    (b"tdg", 0, 1),
    (b"u1", 1, 1),
    (b"rx", 1, 1),
    (b"ry", 1, 1),
    (b"rz", 1, 1),
    (b"u2", 2, 1),
    (b"u3", 3, 1),
    (b"sx", 0, 1),
    (b"sxdg", 0, 1),
    (b"u0", 1, 1),
    (b"swap", 0, 2),
    (b"rxx", 1, 2),
    (b"rzz", 1, 2),
];

// The gate of this name among some.
#[inline(always)]
fn gate_in(gates: &[(&'static [u8], u8, u8)], name: &[u8]) -> Option<KnownGate>
    ensures { option_map shape result ≡ gate_in (map row_gate gates.now) name.now }
{
    let mut left = gates;
    while let [gate, rest @ ..] = left {
        if same(name, gate.0) {
            let (name, angles, qubits) = *gate;
            return Some(KnownGate {
                name,
                angles,
                qubits,
            });
        }
        left = rest;
    }
    None
}

// Whether the name begins with `c`.
fn begins_with_c(name: &[u8]) -> bool
    ensures { result ≡ begins (λ c. c == 99) name.now }
{
    match name {
        [] => false,
        [first, ..] => *first == b'c',
    }
}

// The gate of this name after the include. Those of its class alone are looked through.
#[inline(always)]
fn included_gate(name: &[u8]) -> Option<KnownGate>
    ensures { option_map shape result ≡ gate_of true name.now }
{
    if name.len() == 1 {
        gate_in(&SHORT, name)
    } else if begins_with_c(name) {
        gate_in(&WITH_C, name)
    } else {
        gate_in(&OTHERS, name)
    }
}

/// The gate of this name, before the include or after it.
#[inline(always)]
pub(crate) fn gate_of(included: bool, name: &[u8]) -> Option<KnownGate>
    ensures { option_map shape result ≡ gate_of included name.now }
{
    if included {
        included_gate(name)
    } else {
        gate_in(&BEFORE, name)
    }
}
