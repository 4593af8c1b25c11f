//! What the statements so far have made known.

ghost use Rattle.std.specs.Prelude.{◌≡◌, IfOk};
ghost use Rattle.qasm_reader.specs.Known.{nothing};
ghost use Rattle.qasm_reader.specs.Code.{known};

use crate::names::Names;
use qccd_base::NoMemory;
use qccd_circuit::Item;
use std::alloc::Global;

/// What is known, and the items so far.
#[derive(Drop)]
pub(crate) struct State {
    pub(crate) included: bool,
    pub(crate) qubits: u16,
    pub(crate) bits: u16,
    pub(crate) names: Names,
    pub(crate) items: Vec<Item>,
}

impl State {
    /// Nothing is known yet, and there is room for so many items.
    pub(crate) fn new(alloc: Global, room: usize) -> Result<State, NoMemory>
        ensures { IfOk result (λ state. known state ≡ nothing) }
    {
        let items = Vec::with_capacity(alloc, room)?;
        Ok(State {
            included: false,
            qubits: 0,
            bits: 0,
            names: Names::new(alloc),
            items,
        })
    }
}
