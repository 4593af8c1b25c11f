//! The registers by their names.

ghost use Rattle.std.specs.Prelude.{◌≡◌, None, OnOk};
ghost use Rattle.qasm_reader.specs.Known.{with_name};
ghost use Rattle.qasm_reader.specs.Named.{stands_for};

use crate::kinds::Register;
use crate::words::same;
use std::alloc::{AllocError, Global};
use std::collections::BTreeMap;

/// A register with its name.
#[derive(Drop)]
pub(crate) struct Named {
    pub(crate) name: Vec<u8>,
    pub(crate) register: Register,
}

/// The registers by their names. The first that was declared stands beside the map: most circuits name no other.
#[derive(Drop)]
pub(crate) struct Names {
    pub(crate) first: Option<Named>,
    pub(crate) map: BTreeMap<Vec<u8>, Register>,
}

impl Names {
    /// No name stands for a register.
    pub(crate) fn new(alloc: Global) -> Names
        ensures { stands_for result ≡ (λ _. None) }
    {
        Names {
            first: None,
            map: BTreeMap::new(alloc),
        }
    }

    /// The register that the name stands for.
    #[inline(always)]
    pub(crate) fn find(&self, name: &[u8]) -> Option<Register>
        ensures { result ≡ stands_for self.now name.now }
    {
        if let Some(first) = &self.first {
            if same(name, &first.name) {
                return Some(first.register);
            }
        }
        self.map.get(name).copied()
    }

    /// Lets the name stand for the register.
    pub(crate) fn add(&mut self, name: Vec<u8>, register: Register) -> Result<(), AllocError>
        ensures { OnOk result (stands_for self.new ≡ with_name name.items register (stands_for self.old)) }
    {
        match &mut self.first {
            None => self.first = Some(Named { name, register }),
            Some(first) => {
                if same(&name, &first.name) {
                    first.register = register;
                } else {
                    self.map.insert(name, register)?;
                }
            }
        }
        Ok(())
    }
}
