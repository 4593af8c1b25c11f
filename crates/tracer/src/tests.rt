//! A program of many operations is put in order and told, with ample memory.

ghost use Rattle.std.specs.Prelude.{◌≡◌, ◌≤◌, IfOk};
ghost use Rattle.op_table.specs.Example.{pair};
ghost use Rattle.qccd_program.specs.Example.{exchanges, start_chains};

use super::*;
use op_table::{Op, OpKind};
use qccd_base::{End, Ion, IonList, Times, TrapId};
use qccd_io::MemSink;
use qccd_machine::{Machine, Parts, Place};
use qccd_program::{Program, run_in_order};
use std::alloc::Global;
use std::test::Fail;

/// Two traps of five, the right end of the first joined to the left end of the second.
fn two_traps(alloc: Global) -> Result<Machine, Fail>
    ensures { IfOk result (λ m. m ≡ pair) }
{
    let joined = [(
        Place::TrapEnd(TrapId(0), End::Right),
        Place::TrapEnd(TrapId(1), End::Left),
    )];
    let parts = Parts {
        capacities: Vec::from_slice(alloc, &[5, 5])?,
        junctions: 0,
        segments: Vec::from_slice(alloc, &joined)?,
        times: Times::usual(),
    };
    Ok(Machine::build(alloc, parts)?)
}

fn chains(alloc: Global) -> Result<Vec<IonList>, Fail>
    ensures { IfOk result (λ chains. chains.items ≡ start_chains) }
{
    let first = IonList::of(Vec::from_slice(alloc, &[Ion(0), Ion(1), Ion(2)])?);
    let second = IonList::of(Vec::from_slice(alloc, &[Ion(3)])?);
    Ok(Vec::from_array(alloc, [first, second])?)
}

/// So many exchanges of the qubits of the first trap's first two ions.
fn exchanges(alloc: Global, count: u32) -> Result<Program, Fail>
    requires { count ≤ 4194304 }
    ensures { IfOk result (λ p. p ≡ exchanges count) }
{
    let mut ops = Vec::with_capacity(alloc, count as usize)?;
    for _ in 0..count {
        let kind = OpKind::GSwap {
            trap: TrapId(0),
            low: 0,
            high: 1,
        };
        ops.push(Op::of(alloc, kind)?)?;
    }
    Ok(Program::of(alloc, two_traps(alloc)?, 4, 0, None, chains(alloc)?, ops)?)
}

#[test]
fn many_operations(rt: HostRuntime) -> Result<(), Fail> {
    let program = exchanges(rt.alloc(), 100_000)?;
    let mut cells = program.first_cells(rt.alloc())?;
    run_in_order(&program, &mut cells);
    assert_eq!(rt; time_order(rt.alloc(), &program, &cells)?.len(), 100_000);
    let mut sink = MemSink::of(rt.alloc(), 4_000_000, 4_000_000, Vec::new(rt.alloc()))?;
    assert_eq!(rt;
        write_report(rt.alloc(), &program, &cells, &mut sink),
        Ok(())
    );
    let first = b"QCCD report 1\nqubits 4 bits 0 traps 2 segments 1 junctions 0\nstart T0 0 1 2\n";
    assert!(rt; sink.bytes().starts_with(first));
    assert!(rt; sink.bytes().ends_with(b"\nfinish 30000000\n"));
    assert_eq!(rt; write_summary(&program, &cells, 7, 0, &mut sink), Ok(()));
    assert!(rt; sink.bytes().ends_with(b"\nheat 0\nfinish 30000000\n"));
    Ok(())
}
