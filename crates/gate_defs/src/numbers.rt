//! The number of each name.

ghost use Rattle.std.specs.Prelude.{◌≡◌, None, OnErr, OnOk};
ghost use Rattle.gate_defs.specs.Kept.{number_of, with_number};

use std::alloc::{AllocError, Global};
use std::collections::BTreeMap;

/// The numbers of definitions by their names.
#[derive(Drop)]
pub(crate) struct Numbers {
    pub(crate) map: BTreeMap<Vec<u8>, u32>,
}

impl Numbers {
    /// No name has a number.
    pub(crate) fn new(alloc: Global) -> Numbers
        ensures { number_of result ≡ (λ _. None) }
    {
        Numbers {
            map: BTreeMap::new(alloc),
        }
    }

    /// The number of the name, where it has one.
    pub(crate) fn find(&self, name: &[u8]) -> Option<u32>
        ensures { result ≡ number_of self.now name.now }
    {
        self.map.get(name).copied()
    }

    /// Gives the name this number.
    pub(crate) fn add(&mut self, name: Vec<u8>, number: u32) -> Result<(), AllocError>
        ensures ok { OnOk result (number_of self.new ≡ with_number name.items number (number_of self.old)) }
        ensures err { OnErr result (number_of self.new ≡ number_of self.old) }
    {
        self.map.insert(name, number)?;
        Ok(())
    }
}
