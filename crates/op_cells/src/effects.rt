//! What each kind of operation does to the contents that it touches.

ghost use Rattle.std.specs.Prelude.{◌≡◌, ◌<◌, ◌+◌, ◌^◌, ◌∷◌, [], true, length, is_some, None, Some, option_map, slice_get, swap};
ghost use Rattle.time_heat.specs.Heat.{merged_heat, rotated_heat};
ghost use Rattle.op_table.specs.declared.contents.Content.TheVariants as holds;
ghost use Rattle.op_table.specs.Act.{chain_in, heat_in, rider_in, carry_in, rider_heat_in, trap_content, split_cells, end_index, without_end, with_end, riding, moved_rider, entered_rider, left_carry, qubits_swapped};
ghost use Rattle.op_table.specs.Contents.{heat_held};

use arrayvec::ArrayVec;
use op_table::{Carry, Content, Entry, Rider};
use qccd_base::{End, SegEnd};
use time_heat::{enter_heat, merge_heat, move_heat, rot_heat, split_heat};

/// The entries of a trap's chain; of anything else there are none.
pub fn chain_in(content: &Content) -> &[Entry]
    ensures { result.now ≡ chain_in content.now }
{
    match content {
        Content::Trap { chain, heat: _ } => chain.as_slice(),
        Content::Seg { rider: _ } => &[],
        Content::Junc { carry: _ } => &[],
        Content::Bit => &[],
    }
}

/// The ion on a segment.
pub fn rider_in(content: &Content) -> Option<Rider>
    ensures { result ≡ rider_in content.now }
{
    match content {
        Content::Trap { chain: _, heat: _ } => None,
        Content::Seg { rider } => *rider,
        Content::Junc { carry: _ } => None,
        Content::Bit => None,
    }
}

/// The heat of a trap, in thousandths; of anything else it is 0.
pub fn heat_in(content: &Content) -> u64
    ensures { result ≡ heat_in content.now }
{
    match content {
        Content::Trap { chain: _, heat } => *heat,
        Content::Seg { rider: _ } => 0,
        Content::Junc { carry: _ } => 0,
        Content::Bit => 0,
    }
}

/// The ion in a junction.
pub fn carry_in(content: &Content) -> Option<Carry>
    ensures { result ≡ carry_in content.now }
{
    match content {
        Content::Trap { chain: _, heat: _ } => None,
        Content::Seg { rider: _ } => None,
        Content::Junc { carry } => *carry,
        Content::Bit => None,
    }
}

/// The ion at an end of the trap's chain goes onto an end of the segment.
pub(crate) fn split(trap: &mut Content, seg: &mut Content, end: End, onto: SegEnd)
    requires some { 0 < length (chain_in trap.old) }
    requires heat { heat_held trap.old < 2 ^ 62 }
    ensures { trap.new ∷ seg.new ∷ [] ≡ split_cells onto end (chain_in trap.old) (heat_in trap.old) }
{
    match trap {
        Content::Trap { chain, heat } => {
            let heats = split_heat(*heat, chain.len() as u8);
            let entry = take_end(chain, end);
            *heat = heats.1;
            *seg = Content::Seg {
                rider: riding(entry, onto, heats.0),
            };
        }
        Content::Seg { rider: _ } => {}
        Content::Junc { carry: _ } => {}
        Content::Bit => {}
    }
}

// Takes the entry at an end out of the chain.
fn take_end(chain: &mut ArrayVec<Entry, 32>, end: End) -> Option<Entry>
    requires { 0 < length chain.old.items }
    ensures value { result ≡ slice_get chain.old.items (end_index end chain.old.items) }
    ensures rest { chain.new.items ≡ without_end end chain.old.items }
{
    match end {
        End::Left => Some(chain.remove(0)),
        End::Right => chain.pop(),
    }
}

// The entry on a segment.
fn riding(entry: Option<Entry>, end: SegEnd, heat: u64) -> Option<Rider>
    ensures { result ≡ option_map (riding end heat) entry }
{
    match entry {
        None => None,
        Some(entry) => Some(Rider { entry, end, heat }),
    }
}

/// The ion on the segment joins the trap's chain at an end.
pub(crate) fn merge(trap: &mut Content, seg: &mut Content, end: End)
    requires rider { is_some (rider_in seg.old) ≡ true }
    requires room { length (chain_in trap.old) < 32 }
    requires trap_heat { heat_held trap.old < 2 ^ 62 }
    requires seg_heat { heat_held seg.old < 2 ^ 62 }
    ensures { trap.new ∷ seg.new ∷ [] ≡ trap_content (with_end end (rider_in seg.old) (chain_in trap.old)) (merged_heat (heat_in trap.old) (rider_heat_in (rider_in seg.old))) ∷ holds.Seg None ∷ [] }
{
    match seg {
        Content::Seg { rider } => {
            if let Some(arrived) = rider {
                join(trap, *arrived, end);
            }
            *rider = None;
        }
        Content::Trap { chain: _, heat: _ } => {}
        Content::Junc { carry: _ } => {}
        Content::Bit => {}
    }
}

// The ion joins the chain at an end. What holds no chain comes to hold this ion alone.
fn join(trap: &mut Content, rider: Rider, end: End)
    requires room { length (chain_in trap.old) < 32 }
    requires trap_heat { heat_held trap.old < 2 ^ 62 }
    requires ion_heat { rider.heat < 2 ^ 62 }
    ensures { trap.new ≡ trap_content (with_end end (Some rider) (chain_in trap.old)) (merged_heat (heat_in trap.old) rider.heat) }
{
    match trap {
        Content::Trap { chain, heat } => {
            put_end(chain, rider, end);
            *heat = merge_heat(*heat, rider.heat);
        }
        Content::Seg { rider: _ } => *trap = alone(rider, end),
        Content::Junc { carry: _ } => *trap = alone(rider, end),
        Content::Bit => *trap = alone(rider, end),
    }
}

// A trap of this ion alone.
fn alone(rider: Rider, end: End) -> Content
    requires { rider.heat < 2 ^ 62 }
    ensures { result ≡ trap_content (with_end end (Some rider) []) (merged_heat 0 rider.heat) }
{
    let mut chain = ArrayVec::new();
    put_end(&mut chain, rider, end);
    Content::Trap {
        chain,
        heat: merge_heat(0, rider.heat),
    }
}

// Puts the entry at an end of the chain.
fn put_end(chain: &mut ArrayVec<Entry, 32>, rider: Rider, end: End)
    requires { length chain.old.items < 32 }
    ensures { chain.new.items ≡ with_end end (Some rider) chain.old.items }
{
    match end {
        End::Left => chain.insert(0, rider.entry),
        End::Right => chain.push(rider.entry),
    }
}

/// The ion on the segment goes to the segment's other end.
pub(crate) fn advance(seg: &mut Content)
    requires { heat_held seg.old < 2 ^ 62 }
    ensures { seg.new ≡ holds.Seg (option_map moved_rider (rider_in seg.old)) }
{
    let rider = match rider_in(seg) {
        None => None,
        Some(rider) => Some(moved(rider)),
    };
    *seg = Content::Seg { rider };
}

// The ion at the other end of its segment.
fn moved(rider: Rider) -> Rider
    requires { rider.heat < 2 ^ 62 }
    ensures { result ≡ moved_rider rider }
{
    let end = match rider.end {
        SegEnd::A => SegEnd::B,
        SegEnd::B => SegEnd::A,
    };
    Rider {
        entry: rider.entry,
        end,
        heat: move_heat(rider.heat),
    }
}

/// The ion on the segment goes into the junction.
pub(crate) fn enter(seg: &mut Content, junc: &mut Content)
    requires { heat_held seg.old < 2 ^ 62 }
    ensures { seg.new ∷ junc.new ∷ [] ≡ holds.Seg None ∷ holds.Junc (option_map entered_rider (rider_in seg.old)) ∷ [] }
{
    let carry = match rider_in(seg) {
        None => None,
        Some(rider) => Some(Carry {
            entry: rider.entry,
            heat: enter_heat(rider.heat),
        }),
    };
    *seg = Content::Seg { rider: None };
    *junc = Content::Junc { carry };
}

/// The ion in the junction goes onto an end of the segment.
pub(crate) fn leave(seg: &mut Content, junc: &mut Content, onto: SegEnd)
    ensures { seg.new ∷ junc.new ∷ [] ≡ holds.Seg (option_map (left_carry onto) (carry_in junc.old)) ∷ holds.Junc None ∷ [] }
{
    let rider = match carry_in(junc) {
        None => None,
        Some(carry) => Some(Rider {
            entry: carry.entry,
            end: onto,
            heat: carry.heat,
        }),
    };
    *seg = Content::Seg { rider };
    *junc = Content::Junc { carry: None };
}

/// The ions at a position and the next exchange places.
pub(crate) fn rotate(trap: &mut Content, at: u8)
    requires within { at + 1 < length (chain_in trap.old) }
    requires heat { heat_held trap.old < 2 ^ 62 }
    ensures { trap.new ≡ trap_content (swap (chain_in trap.old) at (at + 1)) (rotated_heat (heat_in trap.old)) }
{
    match trap {
        Content::Trap { chain, heat } => {
            let low = usize::from(at);
            chain.as_mut_slice().swap(low, low + 1);
            *heat = rot_heat(*heat);
        }
        Content::Seg { rider: _ } => {}
        Content::Junc { carry: _ } => {}
        Content::Bit => {}
    }
}

/// The ions at two positions exchange their qubits.
pub(crate) fn exchange(trap: &mut Content, low: u8, high: u8)
    requires order { low < high }
    requires within { high < length (chain_in trap.old) }
    ensures { trap.new ≡ trap_content (qubits_swapped low high (chain_in trap.old)) (heat_in trap.old) }
{
    match trap {
        Content::Trap { chain, heat: _ } => {
            exchange_qubits(chain.as_mut_slice(), usize::from(low), usize::from(high));
        }
        Content::Seg { rider: _ } => {}
        Content::Junc { carry: _ } => {}
        Content::Bit => {}
    }
}

// The entries at two places exchange their qubits.
fn exchange_qubits(chain: &mut [Entry], low: usize, high: usize)
    requires order { low < high }
    requires within { high < length chain.old }
    ensures { chain.new ≡ qubits_swapped low high chain.old }
{
    let qubit = chain[low].qubit;
    chain[low].qubit = chain[high].qubit;
    chain[high].qubit = qubit;
}
