//! Operations that were made before, so that equal ones are made once.

ghost use Rattle.std.specs.Prelude.{◌≡◌, ◌≤◌, IfOk, true};
ghost use Rattle.op_table.specs.Op.{IsOp};

use crate::kinds::OpKind;
use crate::op::Op;
use qccd_base::{End, NoMemory};
use std::alloc::Global;

// Where each kind begins on the shelf, and how many places there are. A machine has at most 32 traps of
// 32 ions and 128 segments.
const MOVES: usize = 0;

const SPLITS: usize = MOVES + 128;

const MERGES: usize = SPLITS + 64;

const ROTS: usize = MERGES + 64;

const ENTERS: usize = ROTS + 1024;

const LEAVES: usize = ENTERS + 1024;

const GSWAPS: usize = LEAVES + 1024;

const PLACES: usize = GSWAPS + 1024;

/// Operations that were made before, one at each place. An operation that moves ions is looked for at its
/// place; where another stands there, a new one takes the place.
#[derive(Debug, Drop)]
pub struct OpShelf {
    made: Vec<Option<Op>>,
}

impl OpShelf {
    /// A shelf with nothing on it, or that memory ran out.
    pub fn of(alloc: Global) -> Result<OpShelf, NoMemory> {
        let mut made = Vec::with_capacity(alloc, PLACES)?;
        for _ in 0..PLACES {
            made.push(None)?;
        }
        Ok(OpShelf { made })
    }

    /// The operation of this kind, or that memory ran out. Where an equal one that moves ions is on the shelf,
    /// that one is shared and no memory is taken; items and fences are made anew.
    #[inline(always)]
    pub fn op(&mut self, alloc: Global, kind: OpKind) -> Result<Op, NoMemory>
        requires { IsOp kind }
        ensures { IfOk result (λ op. op ≡ kind) }
    {
        match place_of(&kind) {
            None => Op::of(alloc, kind),
            Some(place) => {
                if let Some(Some(op)) = self.made.get(place) {
                    if is_same(op.kind(), &kind) {
                        return op.copy();
                    }
                }
                self.make(alloc, place, kind)
            }
        }
    }

    // Mostly the operation is there; then nothing of this is needed.
    #[inline(never)]
    fn make(&mut self, alloc: Global, place: usize, kind: OpKind) -> Result<Op, NoMemory>
        requires { IsOp kind }
        ensures { IfOk result (λ op. op ≡ kind) }
    {
        let op = Op::of(alloc, kind)?;
        let shared = op.copy()?;
        if let Some(there) = self.made.get_mut(place) {
            *there = Some(shared);
        }
        Ok(op)
    }
}

// The place of an operation of this kind, or none for an item and a fence. Nothing rests on it but time: a
// number past the shelf is no place, and two kinds may have one place, as some exchanges of qubits have.
#[inline(always)]
fn place_of(kind: &OpKind) -> Option<usize> {
    match kind {
        OpKind::Move { seg } => Some(MOVES + usize::from(seg.0 & 127)),
        OpKind::Split { trap, end, .. } => {
            Some(SPLITS + 2 * usize::from(trap.0 & 31) + number_of(*end))
        }
        OpKind::Merge { trap, end, .. } => {
            Some(MERGES + 2 * usize::from(trap.0 & 31) + number_of(*end))
        }
        OpKind::Rot { trap, at } => {
            Some(ROTS + 32 * usize::from(trap.0 & 31) + usize::from(at & 31))
        }
        OpKind::Enter { seg, junc } => {
            Some(ENTERS + 8 * usize::from(seg.0 & 127) + usize::from(junc.0 & 7))
        }
        OpKind::Leave { junc, seg } => {
            Some(LEAVES + 8 * usize::from(seg.0 & 127) + usize::from(junc.0 & 7))
        }
        OpKind::GSwap { trap, low, high } => {
            let ends = 5 * usize::from(low & 31) + usize::from(high & 31);
            Some(GSWAPS + 32 * usize::from(trap.0 & 31) + ends % 32)
        }
        OpKind::Item { .. } | OpKind::Fence { .. } => None,
    }
}

fn number_of(end: End) -> usize
    ensures { result ≤ 1 }
{
    match end {
        End::Left => 0,
        End::Right => 1,
    }
}

// Whether the kinds are one. Items and fences are never said to be one.
#[inline(always)]
fn is_same(one: &OpKind, other: &OpKind) -> bool
    ensures { result ≡ true → one.now ≡ other.now }
{
    match (one, other) {
        (OpKind::Move { seg: s }, OpKind::Move { seg: g }) => s.0 == g.0,
        (
            OpKind::Split {
                trap: t,
                end: e,
                seg: s,
            },
            OpKind::Split {
                trap: u,
                end: f,
                seg: g,
            },
        ) => t.0 == u.0 && e == f && s.0 == g.0,
        (
            OpKind::Merge {
                trap: t,
                end: e,
                seg: s,
            },
            OpKind::Merge {
                trap: u,
                end: f,
                seg: g,
            },
        ) => t.0 == u.0 && e == f && s.0 == g.0,
        (OpKind::Enter { seg: s, junc: j }, OpKind::Enter { seg: g, junc: i }) => {
            s.0 == g.0 && j.0 == i.0
        }
        (OpKind::Leave { seg: s, junc: j }, OpKind::Leave { seg: g, junc: i }) => {
            s.0 == g.0 && j.0 == i.0
        }
        (OpKind::Rot { trap: t, at: a }, OpKind::Rot { trap: u, at: b }) => t.0 == u.0 && a == b,
        (
            OpKind::GSwap {
                trap: t,
                low: a,
                high: b,
            },
            OpKind::GSwap {
                trap: u,
                low: c,
                high: d,
            },
        ) => t.0 == u.0 && a == c && b == d,
        _ => false,
    }
}
