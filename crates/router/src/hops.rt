//! Distances and next hops. Found by rounds over neighbours: in each those traps are reached that have a neighbour
//! that the round before has reached.

ghost use Rattle.std.specs.Prelude.{◌≡◌, ◌+◌, ◌<◌, ◌≤◌, ◌≢◌, ℕ, IfOk, Some, if◌then◌else◌, length, slice_get, unwrap_or};
ghost use Rattle.std.specs.Option.{option_or};
ghost use Rattle.router.specs.Steps.{is_at};
ghost use Rattle.router.specs.Counts.{AreCounts, count_at, near};
ghost use Rattle.router.specs.Hops.{are_neighbours};
ghost use Rattle.router.specs.Tables.{all_paths, hop_of, hops_to};

use crate::paths::PathsTo;
use crate::steps::{is_at, note};
use crate::wiring::Wiring;
use qccd_base::{NoMemory, TrapId};
use std::alloc::Global;
use std::marker::Model;

/// How many hops lead to one trap from each trap, where some number is known.
#[derive(Clone, Copy)]
pub(crate) struct Counts {
    pub traps: [Option<u8>; 32],
}

impl Counts {
    /// The least numbers of hops to the trap.
    fn to(wiring: &Wiring, paths: &[PathsTo], to: TrapId) -> Counts
        requires there { to.0 < wiring.now.traps }
        requires paths { paths.now ≡ all_paths wiring.now }
        ensures { AreCounts wiring.now to.0 wiring.now.traps result }
    {
        let mut counts = Counts::start(wiring, to);
        for count in 1..wiring.traps() {
            counts = counts.further(wiring, paths, to, count);
        }
        counts
    }

    // No hop leads from the trap to itself, and nothing is known of the others.
    fn start(wiring: &Wiring, to: TrapId) -> Counts
        requires { to.0 < wiring.now.traps }
        ensures { AreCounts wiring.now to.0 1 result }
    {
        let _traps = wiring.traps();
        let mut traps = [None; 32];
        traps[usize::from(to.0)] = Some(0);
        Counts { traps }
    }

    // What one more round finds: the traps with a neighbour from which one hop fewer leads on.
    fn further(&self, wiring: &Wiring, paths: &[PathsTo], to: TrapId, count: u8) -> Counts
        requires some { 0 < count }
        requires paths { paths.now ≡ all_paths wiring.now }
        requires counts { AreCounts wiring.now to.0 count self.now }
        ensures { AreCounts wiring.now to.0 (count + 1) result }
    {
        let mut counts = *self;
        for number in 0..wiring.traps() {
            let trap = TrapId(number);
            let near = self.near(wiring, paths, trap, count - 1).is_some();
            counts.reach(near, trap, count);
        }
        counts
    }

    // Notes so many hops for the trap, where they lead on from there and no number is known yet.
    fn reach(&mut self, leads: bool, trap: TrapId, count: u8)
        requires { trap.0 < 32 }
        ensures own { count_at self.new trap.0 ≡ (if leads then option_or (count_at self.old trap.0) (Some count) else count_at self.old trap.0) }
        ensures others { (a : ℕ) → a ≢ trap.0 → count_at self.new a ≡ count_at self.old a }
    {
        if leads {
            note(&mut self.traps[usize::from(trap.0)], count);
        }
    }

    // The least neighbour from which so many hops lead on.
    fn near(&self, wiring: &Wiring, paths: &[PathsTo], from: TrapId, left: u8) -> Option<TrapId>
        requires there { from.0 < wiring.now.traps }
        requires paths { paths.now ≡ all_paths wiring.now }
        ensures { result ≡ near wiring.now self.now from.0 left }
    {
        for number in 0..wiring.traps() {
            let neighbour = TrapId(number);
            if are_neighbours(wiring, paths, from, neighbour)
                && self.is_at(wiring, neighbour, left)
            {
                return Some(neighbour);
            }
        }
        None
    }

    // How many hops lead on from the trap, and 0 where no number is known.
    fn count(&self, wiring: &Wiring, trap: TrapId) -> u8
        requires { trap.0 < wiring.now.traps }
        ensures { result ≡ unwrap_or (count_at self.now trap.0) 0 }
    {
        let _traps = wiring.traps();
        match self.traps[usize::from(trap.0)] {
            Some(count) => count,
            None => 0,
        }
    }

    // Whether so many hops lead on from the trap.
    fn is_at(&self, wiring: &Wiring, trap: TrapId, count: u8) -> bool
        requires { trap.0 < wiring.now.traps }
        ensures { result ≡ is_at (count_at self.now trap.0) count }
    {
        let _traps = wiring.traps();
        is_at(self.traps[usize::from(trap.0)], count)
    }
}

// Whether a path joins the two traps.
fn are_neighbours(wiring: &Wiring, paths: &[PathsTo], from: TrapId, to: TrapId) -> bool
    requires from { from.0 < wiring.now.traps }
    requires to { to.0 < wiring.now.traps }
    requires paths { paths.now ≡ all_paths wiring.now }
    ensures { result ≡ are_neighbours wiring.now from.0 to.0 }
{
    paths[usize::from(to.0)].at(from).is_some()
}

/// How far it is from one trap to another, and the next hop there.
#[derive(Clone, Copy)]
pub(crate) struct Hop {
    pub distance: u32,
    pub next: Option<TrapId>,
}

impl Hop {
    // The hop from the trap that the numbers of hops to `to` tell.
    fn of(wiring: &Wiring, paths: &[PathsTo], counts: &Counts, from: TrapId, to: TrapId) -> Hop
        requires from { from.0 < wiring.now.traps }
        requires to { to.0 < wiring.now.traps }
        requires paths { paths.now ≡ all_paths wiring.now }
        requires counts { AreCounts wiring.now to.0 wiring.now.traps counts.now }
        ensures { result ≡ hop_of wiring.now to.0 from.0 }
    {
        let _traps = wiring.traps();
        let count = counts.count(wiring, from);
        let next = if count == 0 {
            None
        } else {
            counts.near(wiring, paths, from, count - 1)
        };
        Hop {
            distance: u32::from(count),
            next,
        }
    }
}

/// The hops to one trap, from each trap.
#[derive(Drop)]
pub(crate) struct HopsTo {
    from: Vec<Hop>,
}

impl Model for HopsTo {
    ghost use Rattle.std.specs.Prelude.{List};
    ghost use Rattle.router.specs.declared.hops.Hop.{Hop};

    ghost Value = { List Hop };

    ghost view = { λ a. a.from.items };
}

impl HopsTo {
    /// The hops to the trap.
    pub fn of(
        alloc: Global,
        wiring: &Wiring,
        paths: &[PathsTo],
        to: TrapId,
    ) -> Result<HopsTo, NoMemory>
        requires there { to.0 < wiring.now.traps }
        requires paths { paths.now ≡ all_paths wiring.now }
        ensures { IfOk result (λ hops. hops ≡ hops_to wiring.now to.0) }
    {
        let counts = Counts::to(wiring, paths, to);
        let mut from = Vec::with_capacity(alloc, usize::from(wiring.traps()))?;
        for number in 0..wiring.traps() {
            let hop = Hop::of(wiring, paths, &counts, TrapId(number), to);
            from.push(hop)?;
        }
        Ok(HopsTo { from })
    }

    /// The hop from the trap.
    pub fn at(&self, from: TrapId) -> &Hop
        requires { from.0 < length self.now }
        ensures { slice_get self.now from.0 ≡ Some result.now }
    {
        &self.from[usize::from(from.0)]
    }
}
