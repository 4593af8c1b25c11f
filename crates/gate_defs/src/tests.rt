//! Definitions are added and found, and one is expanded, with ample memory.

ghost use Rattle.std.specs.Prelude.{◌≡◌, ◌∷◌, [], IfOk, codes, true};
ghost use Rattle.gate_defs.specs.Angles.{arg};
ghost use Rattle.gate_defs.specs.Example.{minus_inside, opaque_of};

use super::*;
use qccd_base::{NoMemory, Qubit};
use qccd_circuit::{Angle, Name};
use std::alloc::Global;
use std::test::Fail;

/// `opaque o(t) a;`
fn opaque(alloc: Global) -> Result<Def, NoMemory>
    ensures { IfOk result (λ def. def ≡ opaque_of (codes "o") 1 1) }
{
    Ok(Def {
        name: Name::from_slice(alloc, b"o")?,
        params: 1,
        qubits: 1,
        body: None,
    })
}

/// `gate f(t) a { o(-t) a; }`, where `o` has the number 0.
fn outer(alloc: Global) -> Result<Def, NoMemory>
    ensures { IfOk result (λ def. def ≡ minus_inside) }
{
    let minus = Piece::Text(Name::from_slice(alloc, b"-")?);
    let angle = PieceList::of(Vec::from_array(alloc, [minus, Piece::Param(0)])?);
    let step = BodyStep {
        callee: Callee::Defined(0),
        angles: PieceLists::of(Vec::from_array(alloc, [angle])?),
        wires: WireList::of(Vec::from_array(alloc, [0])?),
    };
    Ok(Def {
        name: Name::from_slice(alloc, b"f")?,
        params: 1,
        qubits: 1,
        body: Some(StepList::of(Vec::from_array(alloc, [step])?)),
    })
}

/// The argument `7`.
fn seven(alloc: Global) -> Result<Arg, NoMemory>
    ensures { IfOk result (λ seven. seven ≡ arg (codes "7") true) }
{
    Ok(Arg {
        text: Angle::from_slice(alloc, b"7")?,
        single: true,
    })
}

#[test]
fn adds_finds_and_expands(rt: HostRuntime) -> Result<(), Fail> {
    let alloc = rt.alloc();
    let mut defs = Defs::begin(alloc);
    defs.add(opaque(alloc)?)?;
    let id = defs.add(outer(alloc)?)?;
    assert_eq!(rt; defs.find(b"f"), Some(id));
    assert_eq!(rt; defs.find(b"g"), None);
    let args = [seven(alloc)?];
    let items = defs.expand(alloc, id, &args, &[Qubit(3)], &None)?;
    assert_eq!(rt; items.len(), 1);
    for item in items.as_slice() {
        assert!(rt; item.name().as_slice() == b"o".as_slice());
        for angle in item.angles().as_slice() {
            assert!(rt; angle.as_slice() == b"-7".as_slice());
        }
    }
    Ok(())
}
