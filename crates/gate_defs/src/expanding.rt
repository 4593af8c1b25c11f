//! What an application of a definition is, with a list of open definitions.

ghost use Rattle.std.specs.Prelude.{◌≡◌, ◌<◌, ◌++◌, ◌∷◌, [], All, IfOk, IsTrue, OnOk, false, get_or, length, map, option_map};
ghost use Rattle.qccd_base.specs.Names.{qubit};
ghost use Rattle.qccd_circuit.specs.Item.{IsCond, are_distinct};
ghost use Rattle.gate_defs.specs.Frames.{IsOpen, Opens, Takes, entered};
ghost use Rattle.gate_defs.specs.Meaning.{any_long, applications, expansion, own_items, steps_at};
ghost use Rattle.gate_defs.specs.Outcome.{TellsLong};
ghost use Rattle.gate_defs.specs.Rule.{AreArgs, AreDefs, CanApply, IsCalled};

use crate::angles::{angles_under, copied};
use crate::faults::ExpandFault;
use crate::items::add_own;
use crate::kinds::{Arg, BodyStep, Callee, Def};
use crate::lists::ItemList;
use qccd_base::{NoMemory, Qubit};
use qccd_circuit::{Cond, Item};
use std::alloc::Global;

/// A definition that is being gone through: the steps that are left, and what it is applied to.
#[derive(Drop)]
pub(crate) struct Frame<'a> {
    pub(crate) steps: &'a [BodyStep],
    pub(crate) args: Vec<Arg>,
    pub(crate) qubits: Vec<Qubit>,
}

// The qubits on these wires.
fn on_wires(alloc: Global, qubits: &[Qubit], wires: &[u32]) -> Result<Vec<Qubit>, NoMemory>
    requires { All (λ w. w < length qubits.now) wires.now }
    ensures { IfOk result (λ list. list.items ≡ map (λ w. get_or qubits.now w (qubit 0)) wires.now) }
{
    let mut list = Vec::with_capacity(alloc, wires.len())?;
    for wire in wires {
        list.push(qubits[*wire as usize])?;
    }
    Ok(list)
}

// The steps of the definition with a body that is applied, where one is.
fn entered<'a>(
    defs: &'a [Def],
    callee: &Callee,
    angles: usize,
    qubits: usize,
) -> Option<&'a [BodyStep]>
    requires { IsCalled defs.now callee.now angles qubits }
    ensures { option_map (λ steps. steps.now) result ≡ entered defs.now callee.now }
{
    match callee {
        Callee::Defined(id) => match &defs[*id as usize].body {
            None => None,
            Some(steps) => Some(steps.as_slice()),
        },
        Callee::Plain(_) => None,
        Callee::Ccx => None,
        Callee::Cswap => None,
        Callee::Barrier => None,
    }
}

// Opens the definition that is applied, or puts the items of the application at the end.
fn open<'a>(
    alloc: Global,
    defs: &'a [Def],
    callee: &Callee,
    args: Vec<Arg>,
    qubits: Vec<Qubit>,
    cond: Option<Cond>,
    frames: &mut Vec<Frame<'a>>,
    items: &mut Vec<Item>,
) -> Result<(), NoMemory>
    requires are_defs { AreDefs defs.now }
    requires called { IsCalled defs.now callee.now (length args.items) (length qubits.items) }
    requires are_args { AreArgs args.items }
    requires distinct { IsTrue (are_distinct qubits.items) }
    requires condition { IsCond cond }
    requires others { All (IsOpen defs.now) frames.old.items }
    ensures opens { OnOk result (Opens defs.now (record { callee = callee.now; args = args.items; qubits = qubits.items }) frames.old.items frames.new.items) }
    ensures items { OnOk result (items.new.items ≡ items.old.items ++ own_items defs.now cond (record { callee = callee.now; args = args.items; qubits = qubits.items })) }
{
    match entered(defs, callee, args.len(), qubits.len()) {
        None => add_own(alloc, defs, callee, &args, &qubits, cond, items)?,
        Some(steps) => frames.push(Frame {
            steps,
            args,
            qubits,
        })?,
    }
    Ok(())
}

// Takes the next step of the frame. One that has none left is closed.
fn take_step<'a>(
    alloc: Global,
    defs: &'a [Def],
    frame: Frame<'a>,
    cond: Option<Cond>,
    frames: &mut Vec<Frame<'a>>,
    items: &mut Vec<Item>,
) -> Result<(), ExpandFault>
    requires are_defs { AreDefs defs.now }
    requires frame { IsOpen defs.now frame }
    requires others { All (IsOpen defs.now) frames.old.items }
    requires condition { IsCond cond }
    ensures { Takes defs.now cond (frames.old.items ++ frame.entry ∷ []) items.old.items result frames.new.items items.new.items }
{
    let Frame {
        steps,
        args,
        qubits,
    } = frame;
    if let [step, rest @ ..] = steps {
        let inner_args = angles_under(alloc, &args, step.angles.as_slice())?;
        let inner_qubits = on_wires(alloc, &qubits, step.wires.as_slice())?;
        frames.push(Frame {
            steps: rest,
            args,
            qubits,
        })?;
        open(
            alloc,
            defs,
            &step.callee,
            inner_args,
            inner_qubits,
            cond,
            frames,
            items,
        )?;
    }
    Ok(())
}

// The first open definition: all its steps are left.
fn first_frame<'a>(
    alloc: Global,
    defs: &'a [Def],
    id: u32,
    args: &[Arg],
    qubits: &[Qubit],
) -> Result<Frame<'a>, NoMemory>
    requires { id < length defs.now }
    ensures steps { IfOk result (λ frame. frame.steps.now ≡ steps_at defs.now id) }
    ensures args { IfOk result (λ frame. frame.args.items ≡ args.now) }
    ensures qubits { IfOk result (λ frame. frame.qubits.items ≡ qubits.now) }
{
    let steps = match &defs[id as usize].body {
        None => &[],
        Some(steps) => steps.as_slice(),
    };
    Ok(Frame {
        steps,
        args: copied(alloc, args)?,
        qubits: Vec::from_slice(alloc, qubits)?,
    })
}

/// The items of one application of a definition.
pub(crate) fn expanded(
    alloc: Global,
    defs: &[Def],
    id: u32,
    args: &[Arg],
    qubits: &[Qubit],
    cond: Option<Cond>,
) -> Result<ItemList, ExpandFault>
    requires are_defs { AreDefs defs.now }
    requires can_apply { CanApply defs.now id args.now qubits.now }
    requires condition { IsCond cond }
    ensures value { IfOk result (λ list. list ≡ expansion defs.now id args.now qubits.now cond) }
    ensures short { IfOk result (λ _. any_long (applications defs.now id args.now qubits.now) ≡ false) }
    ensures long { TellsLong result (any_long (applications defs.now id args.now qubits.now)) }
{
    let mut items = Vec::new(alloc);
    let mut frames = Vec::new(alloc);
    frames.push(first_frame(alloc, defs, id, args, qubits)?)?;
    while let Some(frame) = frames.pop() {
        take_step(alloc, defs, frame, cond, &mut frames, &mut items)?;
    }
    Ok(ItemList::of(items))
}
