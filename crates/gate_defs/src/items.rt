//! The items of one application itself.

ghost use Rattle.std.specs.Prelude.{◌≡◌, ◌++◌, ◌∷◌, [], All, IfOk, IsTrue, OnOk, length, map};
ghost use Rattle.qccd_circuit.specs.Item.{Fits, IsCond, are_distinct};
ghost use Rattle.gate_defs.specs.Items.{barrier_on, ccx_items, cswap_items, gate_item, gate_on, kind_on, on_three};
ghost use Rattle.gate_defs.specs.Meaning.{own_items, texts};
ghost use Rattle.gate_defs.specs.Rule.{AreArgs, AreDefs, IsCalled};
ghost use Rattle.gate_defs.specs.Steps.{on_wire, step_item};

use crate::kinds::{Arg, Callee, Def};
use qccd_base::{BitList, NoMemory, Qubit, QubitList};
use qccd_circuit::{AngleList, Cond, Item, ItemKind, Name};
use std::alloc::Global;

/// An operand of a gate on three qubits.
#[derive(Clone, Copy, Debug)]
pub(crate) enum Wire {
    A,
    B,
    C,
}

/// A gate among those that a gate on three qubits is expanded to.
#[derive(Clone, Copy, Debug)]
pub(crate) enum Step {
    /// A gate of this name on one qubit.
    One(&'static [u8], Wire),
    /// A `cx`, by its control and its target.
    Cx(Wire, Wire),
}

// The gates that `ccx` is.
const CCX: [Step; 15] = [
    Step::One(b"h", Wire::C),
    Step::Cx(Wire::B, Wire::C),
    Step::One(b"tdg", Wire::C),
    Step::Cx(Wire::A, Wire::C),
    Step::One(b"t", Wire::C),
    Step::Cx(Wire::B, Wire::C),
    Step::One(b"tdg", Wire::C),
    Step::Cx(Wire::A, Wire::C),
    Step::One(b"t", Wire::B),
    Step::One(b"t", Wire::C),
    Step::One(b"h", Wire::C),
    Step::Cx(Wire::A, Wire::B),
    Step::One(b"t", Wire::A),
    Step::One(b"tdg", Wire::B),
    Step::Cx(Wire::A, Wire::B),
];

// What `cswap` has before and behind a `ccx`.
const AROUND: [Step; 1] = [Step::Cx(Wire::C, Wire::B)];

/// The item on these qubits with no bit of its own.
#[inline(always)]
pub fn item_on(
    alloc: Global,
    kind: ItemKind,
    name: &[u8],
    angles: AngleList,
    qubits: &[Qubit],
    cond: Option<Cond>,
) -> Result<Item, NoMemory>
    requires { Fits (gate_item kind name.now angles qubits.now cond) }
    ensures { IfOk result (λ item. item ≡ gate_item kind name.now angles qubits.now cond) }
{
    let name = Name::from_slice(alloc, name)?;
    let qubits = QubitList::from_slice(alloc, qubits)?;
    let bits = BitList::of(Vec::new(alloc));
    Ok(Item::of(kind, name, angles, qubits, bits, cond))
}

// The kind of a gate on these qubits.
fn kind_on(qubits: &[Qubit]) -> ItemKind
    ensures { result ≡ kind_on qubits.now }
{
    match qubits {
        [] | [_] => ItemKind::Gate1,
        _ => ItemKind::Gate2,
    }
}

// The texts of the arguments.
fn texts(alloc: Global, args: &[Arg]) -> Result<AngleList, NoMemory>
    ensures { IfOk result (λ list. list ≡ texts args.now) }
{
    let mut list = Vec::with_capacity(alloc, args.len())?;
    for arg in args {
        list.push(arg.text.copy()?)?;
    }
    Ok(AngleList::of(list))
}

// Puts a gate that is one item at the end.
fn add_gate(
    alloc: Global,
    name: &[u8],
    args: &[Arg],
    qubits: &[Qubit],
    cond: Option<Cond>,
    items: &mut Vec<Item>,
) -> Result<(), NoMemory>
    requires { Fits (gate_on name.now (texts args.now) qubits.now cond) }
    ensures { OnOk result (items.new.items ≡ items.old.items ++ gate_on name.now (texts args.now) qubits.now cond ∷ []) }
{
    let angles = texts(alloc, args)?;
    items.push(item_on(alloc, kind_on(qubits), name, angles, qubits, cond)?)?;
    Ok(())
}

// Puts a barrier at the end.
fn add_barrier(alloc: Global, qubits: &[Qubit], items: &mut Vec<Item>) -> Result<(), NoMemory>
    requires { Fits (barrier_on qubits.now) }
    ensures { OnOk result (items.new.items ≡ items.old.items ++ barrier_on qubits.now ∷ []) }
{
    let angles = AngleList::of(Vec::new(alloc));
    let item = item_on(alloc, ItemKind::Barrier, b"barrier", angles, qubits, None)?;
    items.push(item)?;
    Ok(())
}

// The operand on this wire.
fn on_wire(three: [Qubit; 3], wire: Wire) -> Qubit
    ensures { result ≡ on_wire three wire }
{
    let [a, b, c] = three;
    match wire {
        Wire::A => a,
        Wire::B => b,
        Wire::C => c,
    }
}

// The item of a step.
fn step_item(
    alloc: Global,
    three: [Qubit; 3],
    cond: Option<Cond>,
    step: Step,
) -> Result<Item, NoMemory>
    requires { Fits (step_item three cond step) }
    ensures { IfOk result (λ item. item ≡ step_item three cond step) }
{
    let angles = AngleList::of(Vec::new(alloc));
    match step {
        Step::One(name, on) => {
            let on = [on_wire(three, on)];
            item_on(alloc, ItemKind::Gate1, name, angles, &on, cond)
        }
        Step::Cx(control, target) => {
            let on = [on_wire(three, control), on_wire(three, target)];
            item_on(alloc, ItemKind::Gate2, b"cx", angles, &on, cond)
        }
    }
}

// Puts the items of the steps at the end.
fn add_steps(
    alloc: Global,
    three: [Qubit; 3],
    cond: Option<Cond>,
    steps: &[Step],
    items: &mut Vec<Item>,
) -> Result<(), NoMemory>
    requires { All Fits (map (step_item three cond) steps.now) }
    ensures { OnOk result (items.new.items ≡ items.old.items ++ map (step_item three cond) steps.now) }
{
    for step in steps {
        items.push(step_item(alloc, three, cond, *step)?)?;
    }
    Ok(())
}

/// Puts the items of a `ccx` on three qubits at the end. On other numbers of qubits there is none.
pub fn add_ccx(
    alloc: Global,
    qubits: &[Qubit],
    cond: Option<Cond>,
    items: &mut Vec<Item>,
) -> Result<(), NoMemory>
    requires condition { IsCond cond }
    requires distinct { IsTrue (are_distinct qubits.now) }
    ensures { OnOk result (items.new.items ≡ items.old.items ++ on_three ccx_items qubits.now cond) }
{
    match qubits {
        [a, b, c] => add_steps(alloc, [*a, *b, *c], cond, &CCX, items),
        _ => Ok(()),
    }
}

/// Puts the items of a `cswap` on three qubits at the end. On other numbers of qubits there is none.
pub fn add_cswap(
    alloc: Global,
    qubits: &[Qubit],
    cond: Option<Cond>,
    items: &mut Vec<Item>,
) -> Result<(), NoMemory>
    requires condition { IsCond cond }
    requires distinct { IsTrue (are_distinct qubits.now) }
    ensures { OnOk result (items.new.items ≡ items.old.items ++ on_three cswap_items qubits.now cond) }
{
    match qubits {
        [a, b, c] => {
            let three = [*a, *b, *c];
            add_steps(alloc, three, cond, &AROUND, items)?;
            add_steps(alloc, three, cond, &CCX, items)?;
            add_steps(alloc, three, cond, &AROUND, items)
        }
        _ => Ok(()),
    }
}

/// Puts the items of an application itself at the end. A definition with a body has none.
pub(crate) fn add_own(
    alloc: Global,
    defs: &[Def],
    callee: &Callee,
    args: &[Arg],
    qubits: &[Qubit],
    cond: Option<Cond>,
    items: &mut Vec<Item>,
) -> Result<(), NoMemory>
    requires are_defs { AreDefs defs.now }
    requires called { IsCalled defs.now callee.now (length args.now) (length qubits.now) }
    requires are_args { AreArgs args.now }
    requires distinct { IsTrue (are_distinct qubits.now) }
    requires condition { IsCond cond }
    ensures { OnOk result (items.new.items ≡ items.old.items ++ own_items defs.now cond (record { callee = callee.now; args = args.now; qubits = qubits.now })) }
{
    match callee {
        Callee::Plain(name) => add_gate(alloc, name.as_slice(), args, qubits, cond, items),
        Callee::Ccx => add_ccx(alloc, qubits, cond, items),
        Callee::Cswap => add_cswap(alloc, qubits, cond, items),
        Callee::Defined(id) => {
            let def = &defs[*id as usize];
            match &def.body {
                None => add_gate(alloc, def.name.as_slice(), args, qubits, cond, items),
                Some(_) => Ok(()),
            }
        }
        Callee::Barrier => add_barrier(alloc, qubits, items),
    }
}
