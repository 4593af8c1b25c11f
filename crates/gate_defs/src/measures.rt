//! How deep a definition is, what it weighs, and how many items it is.

ghost use Rattle.std.specs.Prelude.{◌≡◌, ◌≤◌, All, length, map};
ghost use Rattle.qccd_base.specs.Greatest.{greatest};
ghost use Rattle.gate_defs.specs.Kept.{IsThere, counts_in, depths_in, weights_in};
ghost use Rattle.gate_defs.specs.Meaning.{steps_in};
ghost use Rattle.gate_defs.specs.Measures.{count_over, depth_over, depth_under, size_all, size_of, weight_over};

use crate::kinds::{BodyStep, Callee, Def};

/// What is known of a definition by its body.
#[derive(Clone, Copy, Debug)]
pub(crate) struct Measures {
    pub(crate) depth: u32,
    pub(crate) weight: u64,
    pub(crate) items: u64,
}

// Those of a gate of the tables, or of an opaque gate, that is so many items.
fn plain(items: u64) -> Measures
    ensures depth { result.depth ≡ 0 }
    ensures weight { result.weight ≡ items }
    ensures items { result.items ≡ items }
{
    Measures {
        depth: 0,
        weight: items,
        items,
    }
}

// Those of a callee.
fn of_callee(known: &[Measures], callee: &Callee) -> Measures
    requires { IsThere (length known.now) callee.now }
    ensures depth { result.depth ≡ depth_under (depths_in known.now) callee.now }
    ensures weight { result.weight ≡ size_of (weights_in known.now) callee.now }
    ensures items { result.items ≡ size_of (counts_in known.now) callee.now }
{
    match callee {
        Callee::Plain(_) => plain(1),
        Callee::Ccx => plain(15),
        Callee::Cswap => plain(17),
        Callee::Defined(id) => known[*id as usize],
        Callee::Barrier => plain(1),
    }
}

// Those of steps together: the greatest depth, and the sums of the others.
fn of_steps(known: &[Measures], steps: &[BodyStep]) -> Measures
    requires there { All (λ s. IsThere (length known.now) s.callee) steps.now }
    requires heavy { size_all (weights_in known.now) steps.now ≤ 65536 }
    requires many { size_all (counts_in known.now) steps.now ≤ 65536 }
    ensures depth { result.depth ≡ greatest (map (λ s. depth_under (depths_in known.now) s.callee) steps.now) }
    ensures weight { result.weight ≡ size_all (weights_in known.now) steps.now }
    ensures items { result.items ≡ size_all (counts_in known.now) steps.now }
{
    let mut depth = 0;
    let mut weight = 0;
    let mut items = 0;
    for step in steps {
        let of_step = of_callee(known, &step.callee);
        depth = of_step.depth.max(depth);
        weight += of_step.weight;
        items += of_step.items;
    }
    Measures {
        depth,
        weight,
        items,
    }
}

/// Those of a definition behind others with these.
pub(crate) fn of_def(known: &[Measures], def: &Def) -> Measures
    requires there { All (λ s. IsThere (length known.now) s.callee) (steps_in def.now.body) }
    requires deep { depth_over (depths_in known.now) def.now ≤ 64 }
    requires heavy { weight_over (weights_in known.now) def.now ≤ 65536 }
    requires many { count_over (counts_in known.now) def.now ≤ 65536 }
    ensures depth { result.depth ≡ depth_over (depths_in known.now) def.now }
    ensures weight { result.weight ≡ weight_over (weights_in known.now) def.now }
    ensures items { result.items ≡ count_over (counts_in known.now) def.now }
{
    match &def.body {
        None => plain(1),
        Some(steps) => {
            let inner = of_steps(known, steps.as_slice());
            Measures {
                depth: inner.depth + 1,
                weight: inner.weight + 1,
                items: inner.items,
            }
        }
    }
}
