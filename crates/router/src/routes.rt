//! Routes on a machine, all found once.

ghost use Rattle.std.specs.Prelude.{◌≡◌, ◌↔◌, ◌<◌, IfOk, MatchOption, None, Some, map, option_map};
ghost use Rattle.qccd_base.specs.Names.{trap};
ghost use Rattle.router.specs.Hops.{distance, next_hop};
ghost use Rattle.router.specs.Paths.{hop_path};
ghost use Rattle.router.specs.Tables.{all_hops, all_paths};
ghost use Rattle.router.specs.Wiring.{wiring_of};

use crate::hops::HopsTo;
use crate::paths::PathsTo;
use crate::wiring::Wiring;
use qccd_base::{NoMemory, SegId, TrapId};
use qccd_machine::Machine;
use std::alloc::Global;
use std::marker::Model;

/// The routes on a machine: how far each trap is from each other, the next hop, and the path of each hop. They are
/// those of every machine that is wired in the same way, whatever its capacities and times.
#[derive(Drop)]
pub struct Routes {
    wiring: Wiring,
    paths: Vec<PathsTo>,
    hops: Vec<HopsTo>,
}

impl Model for Routes {
    ghost use Rattle.std.specs.Prelude.{◌≡◌};
    ghost use Rattle.router.specs.Tables.{all_hops, all_paths};
    ghost use Rattle.router.specs.Wiring.{IsWiring, WiringData};

    ghost Value = { WiringData };

    ghost view = { λ a. a.wiring };

    ghost invariant = { λ a. IsWiring a.wiring × (a.paths.items ≡ all_paths a.wiring) × (a.hops.items ≡ all_hops a.wiring) };
}

impl Routes {
    /// The routes on the machine.
    pub fn of(alloc: Global, machine: &Machine) -> Result<Routes, NoMemory>
        ensures { IfOk result (λ routes. routes ≡ wiring_of machine.now) }
    {
        let wiring = Wiring::of(alloc, machine)?;
        let _traps = wiring.traps();
        let paths = paths_of(alloc, &wiring)?;
        let hops = hops_of(alloc, &wiring, paths.as_slice())?;
        Ok(Routes {
            wiring,
            paths,
            hops,
        })
    }

    /// The least number of hops between neighbours that lead from one trap to the other.
    pub fn distance(&self, from: TrapId, to: TrapId) -> u32
        requires from { from.0 < self.now.traps }
        requires to { to.0 < self.now.traps }
        ensures { result ≡ distance self.now from.0 to.0 }
    {
        self.hops[usize::from(to.0)].at(from).distance
    }

    /// The least neighbour of `from` that is one hop nearer to `to`. `None` exactly where the two are equal.
    pub fn next_hop(&self, from: TrapId, to: TrapId) -> Option<TrapId>
        requires from { from.0 < self.now.traps }
        requires to { to.0 < self.now.traps }
        ensures hop { result ≡ option_map trap (next_hop self.now from.0 to.0) }
        ensures none { (result ≡ None) ↔ (from ≡ to) }
    {
        self.hops[usize::from(to.0)].at(from).next
    }

    /// The path from one trap to the other with the fewest segments and no trap inside, among these the least list
    /// of numbers. `None` exactly where the two are no neighbours.
    pub fn hop_path(&self, from: TrapId, to: TrapId) -> Option<&[SegId]>
        requires from { from.0 < self.now.traps }
        requires to { to.0 < self.now.traps }
        ensures { MatchOption result (hop_path self.now from.0 to.0 ≡ None) (λ path. hop_path self.now from.0 to.0 ≡ Some (map (λ g. g.0) path.now)) }
    {
        self.paths[usize::from(to.0)].at(from).segments()
    }
}

// The paths of hops to each trap.
fn paths_of(alloc: Global, wiring: &Wiring) -> Result<Vec<PathsTo>, NoMemory>
    ensures { IfOk result (λ paths. paths.items ≡ all_paths wiring.now) }
{
    let mut paths = Vec::with_capacity(alloc, usize::from(wiring.traps()))?;
    for number in 0..wiring.traps() {
        let to = PathsTo::of(alloc, wiring, TrapId(number))?;
        paths.push(to)?;
    }
    Ok(paths)
}

// The hops to each trap.
fn hops_of(alloc: Global, wiring: &Wiring, paths: &[PathsTo]) -> Result<Vec<HopsTo>, NoMemory>
    requires { paths.now ≡ all_paths wiring.now }
    ensures { IfOk result (λ hops. hops.items ≡ all_hops wiring.now) }
{
    let mut hops = Vec::with_capacity(alloc, usize::from(wiring.traps()))?;
    for number in 0..wiring.traps() {
        let to = HopsTo::of(alloc, wiring, paths, TrapId(number))?;
        hops.push(to)?;
    }
    Ok(hops)
}
