//! A small circuit, and the largest one with ample memory.

use super::*;
use std::test::Fail;

#[test]
fn four_items_on_three_qubits(rt: HostRuntime) -> Result<(), Fail> {
    let circuit = rehearsal(rt.alloc(), 1, 3, 4)?;
    let mut numbers = Vec::new(rt.alloc());
    for item in circuit.items() {
        for qubit in item.qubits().as_slice() {
            numbers.push(qubit.0)?;
        }
    }
    assert!(rt; numbers.as_slice() == [1, 2, 1, 0, 2, 0].as_slice());
    Ok(())
}

#[test]
fn the_largest_circuit(rt: HostRuntime) -> Result<(), Fail> {
    let circuit = rehearsal(rt.alloc(), 2147483647, 256, 65536)?;
    assert_eq!(rt; circuit.items().len(), 65536);
    Ok(())
}
