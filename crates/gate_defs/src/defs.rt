//! Definitions one after another, found by their names.

ghost use Rattle.std.specs.Prelude.{◌≡◌, ◌<◌, ◌≤◌, ◌++◌, ◌∷◌, [], IfOk, OnErr, OnOk, false, length};
ghost use Rattle.qccd_circuit.specs.Item.{IsCond};
ghost use Rattle.gate_defs.specs.Kept.{AreMeasuresOf, IsKept};
ghost use Rattle.gate_defs.specs.Meaning.{any_long, applications, def_at, expansion};
ghost use Rattle.gate_defs.specs.Measures.{count, depth, weight};
ghost use Rattle.gate_defs.specs.Outcome.{TellsLong};
ghost use Rattle.gate_defs.specs.Rule.{AreDefs, CanApply, IsNext, found};

use crate::expanding::expanded;
use crate::faults::ExpandFault;
use crate::kinds::{Arg, Def};
use crate::lists::ItemList;
use crate::measures::{self, Measures};
use crate::numbers::Numbers;
use qccd_base::{NoMemory, Qubit};
use qccd_circuit::Cond;
use std::alloc::Global;
use std::marker::Model;

/// Definitions of gates. Each has the number of those before it, and its body applies only those.
#[derive(Drop)]
pub struct Defs {
    defs: Vec<Def>,
    measures: Vec<Measures>,
    numbers: Numbers,
}

impl Model for Defs {
    ghost use Rattle.std.specs.Prelude.{List};
    ghost use Rattle.gate_defs.specs.declared.kinds.Def.{Def};
    ghost use Rattle.gate_defs.specs.Kept.{IsKept};

    ghost Value = { List Def };

    ghost view = { λ a. a.defs.items };

    ghost invariant = { λ a. IsKept a.defs.items a.measures.items a.numbers };
}

// Puts the definition behind the others. Out of memory, all stays as it was.
fn put(
    defs: &mut Vec<Def>,
    measures: &mut Vec<Measures>,
    numbers: &mut Numbers,
    def: Def,
) -> Result<u32, NoMemory>
    requires are_kept { IsKept defs.old.items measures.old.items numbers.old }
    requires next { IsNext defs.old.items def }
    ensures number { IfOk result (λ id. id ≡ length defs.old.items) }
    ensures ok { OnOk result (defs.new.items ≡ defs.old.items ++ def ∷ []) }
    ensures err { OnErr result (defs.new.items ≡ defs.old.items) }
    ensures kept { IsKept defs.new.items measures.new.items numbers.new }
{
    let id = defs.len() as u32;
    let own = measures::of_def(measures, &def);
    let name = Vec::from_slice(*defs.allocator(), def.name.as_slice())?;

    // Where there is room, a push can't fail.
    defs.reserve(1)?;
    measures.reserve(1)?;
    numbers.add(name, id)?;
    defs.push(def)?;
    measures.push(own)?;
    Ok(id)
}

impl Defs {
    /// No definition.
    pub fn begin(alloc: Global) -> Defs
        ensures { result ≡ [] }
    {
        Defs {
            defs: Vec::new(alloc),
            measures: Vec::new(alloc),
            numbers: Numbers::new(alloc),
        }
    }

    /// The number of the definition with this name, none if no definition has it.
    pub fn find(&self, name: &[u8]) -> Option<u32>
        ensures { result ≡ found self.now name.now }
    {
        self.numbers.find(name)
    }

    /// The definition with this number.
    pub fn def(&self, id: u32) -> &Def
        requires { id < length self.now }
        ensures { result.now ≡ def_at self.now id }
    {
        &self.defs[id as usize]
    }

    // The measures of the definition with this number.
    fn measures(&self, id: u32) -> Measures
        requires { id < length self.now }
        ensures { AreMeasuresOf self.now id result }
    {
        self.measures[id as usize]
    }

    /// How deep the definition with this number is: 0 for an opaque gate, and else 1 and the greatest depth of
    /// what its body applies.
    pub fn depth(&self, id: u32) -> u32
        requires { id < length self.now }
        ensures value { result ≡ depth self.now id }
        ensures most { result ≤ 64 }
    {
        self.measures(id).depth
    }

    /// What the definition with this number weighs: 1 for an opaque gate, and else 1 and the weights of what its
    /// body applies.
    pub fn weight(&self, id: u32) -> u64
        requires { id < length self.now }
        ensures value { result ≡ weight self.now id }
        ensures most { result ≤ 65536 }
    {
        self.measures(id).weight
    }

    /// How many items an application of the definition with this number is.
    pub fn items(&self, id: u32) -> u64
        requires { id < length self.now }
        ensures value { result ≡ count self.now id }
        ensures most { result ≤ 65536 }
    {
        self.measures(id).items
    }

    /// Puts a definition behind the others, and gives its number. Out of memory, nothing changes, and `def` is
    /// dropped.
    pub fn add(&mut self, def: Def) -> Result<u32, NoMemory>
        requires { IsNext self.old def }
        ensures number { IfOk result (λ id. id ≡ length self.old) }
        ensures ok { OnOk result (self.new ≡ self.old ++ def ∷ []) }
        ensures err { OnErr result (self.new ≡ self.old) }
    {
        put(&mut self.defs, &mut self.measures, &mut self.numbers, def)
    }

    /// The items of one application of a definition with a body, each under the condition but for barriers.
    ///
    /// It is `AngleTooLong` exactly where an angle of an application in it is longer than 1,024 bytes.
    pub fn expand(
        &self,
        alloc: Global,
        id: u32,
        args: &[Arg],
        qubits: &[Qubit],
        cond: &Option<Cond>,
    ) -> Result<ItemList, ExpandFault>
        requires can_apply { CanApply self.now id args.now qubits.now }
        requires condition { IsCond cond.now }
        ensures value { IfOk result (λ list. list ≡ expansion self.now id args.now qubits.now cond.now) }
        ensures short { IfOk result (λ _. any_long (applications self.now id args.now qubits.now) ≡ false) }
        ensures long { TellsLong result (any_long (applications self.now id args.now qubits.now)) }
    {
        expanded(alloc, &self.defs, id, args, qubits, *cond)
    }
}
