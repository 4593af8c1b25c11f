//! Qubits that are taken as they come, each once.

ghost use Rattle.std.specs.Prelude.{◌≡◌, ◌<◌, [], All, IfOk, OnOk, length, map};
ghost use Rattle.ion_mapping.specs.Taking.{with_number, with_numbers};

use qccd_base::{Ion, NoMemory, Qubit};
use std::alloc::Global;
use std::marker::Model;

/// The ions of the qubits that were taken, in their order, and a mark for each of these qubits.
#[derive(Drop)]
pub(crate) struct Taking {
    ions: Vec<Ion>,
    marks: [bool; 256],
}

impl Model for Taking {
    ghost use Rattle.std.specs.Prelude.{ℕ, ◌≡◌, ◌<◌, List, false, map, slice_index_or};
    ghost use Rattle.ion_mapping.specs.Taking.{has};

    ghost Value = { List ℕ };

    ghost view = { λ a. map (λ x. x.0) a.ions.items };

    ghost invariant = { λ a. (k : ℕ) → k < 256 → slice_index_or a.marks k false ≡ has (map (λ x. x.0) a.ions.items) k };
}

impl Taking {
    /// None is taken yet; there is room for so many.
    pub fn with_room(alloc: Global, room: u16) -> Result<Taking, NoMemory>
        ensures { IfOk result (λ t. t ≡ []) }
    {
        Ok(Taking {
            ions: Vec::with_capacity(alloc, usize::from(room))?,
            marks: [false; 256],
        })
    }

    /// How many qubits are taken.
    pub fn len(&self) -> usize
        ensures { result ≡ length self.now }
    {
        self.ions.len()
    }

    /// Takes the qubit, where it was not taken before.
    pub fn take(&mut self, qubit: Qubit) -> Result<(), NoMemory>
        requires { qubit.0 < 256 }
        ensures { OnOk result (self.new ≡ with_number self.old qubit.0) }
    {
        let number = usize::from(qubit.0);
        if !self.marks[number] {
            self.ions.push(Ion(qubit.0))?;
            self.marks[number] = true;
        }
        Ok(())
    }

    /// Takes each of the qubits in turn.
    pub fn take_all(&mut self, qubits: &[Qubit]) -> Result<(), NoMemory>
        requires { All (λ q. q.0 < 256) qubits.now }
        ensures { OnOk result (self.new ≡ with_numbers self.old (map (λ q. q.0) qubits.now)) }
    {
        for qubit in qubits {
            self.take(*qubit)?;
        }
        Ok(())
    }

    /// The ions in the order in which their qubits were taken.
    pub fn into_ions(self) -> Vec<Ion>
        ensures { map (λ x. x.0) result.items ≡ self }
    {
        self.ions
    }
}
