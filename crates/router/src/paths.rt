//! The paths of hops. With the least numbers of segments known, a path goes at each place along the least segment
//! that leads on.

ghost use Rattle.std.specs.Prelude.{◌≡◌, ◌+◌, ◌<◌, ◌≤◌, IfOk, MatchOption, Some, None, is_some, length, map, slice_get};
ghost use Rattle.qccd_base.specs.Resource.{same_res};
ghost use Rattle.qccd_machine.specs.Machine.{site};
ghost use Rattle.router.specs.Greedy.{far_along, LeadsFrom};
ghost use Rattle.router.specs.Paths.{hop_path, path_of};
ghost use Rattle.router.specs.Steps.{AreLeast, HasCount, steps_at};
ghost use Rattle.router.specs.Tables.{paths_to};

use crate::steps::Steps;
use crate::wiring::Wiring;
use qccd_base::{End, NoMemory, SegId, TrapId};
use qccd_machine::Place;
use std::alloc::Global;
use std::marker::Model;

/// The segments of a hop from one trap to another, in order, where the two are neighbours.
#[derive(Drop)]
pub(crate) struct HopPath {
    segments: Option<Vec<SegId>>,
}

impl Model for HopPath {
    ghost use Rattle.std.specs.Prelude.{ℕ, List, Option, map, option_map};

    ghost Value = { Option (List ℕ) };

    ghost view = { λ a. option_map (λ path. map (λ g. g.0) path.items) a.segments };
}

impl HopPath {
    /// The path of these segments.
    fn along(segments: Vec<SegId>) -> HopPath
        ensures { result ≡ Some (map (λ g. g.0) segments.items) }
    {
        HopPath {
            segments: Some(segments),
        }
    }

    /// No path.
    fn none() -> HopPath
        ensures { result ≡ None }
    {
        HopPath { segments: None }
    }

    /// The path that the numbers of segments to `to` tell.
    fn of(
        alloc: Global,
        wiring: &Wiring,
        steps: &Steps,
        from: TrapId,
        to: TrapId,
    ) -> Result<HopPath, NoMemory>
        requires few { from.0 < 32 }
        requires least { AreLeast wiring.now to.0 (wiring.now.junctions + 1) steps.now }
        ensures { IfOk result (λ path. path ≡ hop_path wiring.now from.0 to.0) }
    {
        if from.0 == to.0 {
            return Ok(HopPath::none());
        }
        let start = Place::TrapEnd(from, End::Left);
        match steps.at(start) {
            Some(count) => {
                let path = path_along(alloc, wiring, steps, start, to, count)?;
                Ok(HopPath::along(path))
            }
            None => Ok(HopPath::none()),
        }
    }

    /// The segments, where there is a path.
    pub fn segments(&self) -> Option<&[SegId]>
        ensures { MatchOption result (self.now ≡ None) (λ path. self.now ≡ Some (map (λ g. g.0) path.now)) }
    {
        match &self.segments {
            Some(path) => Some(path.as_slice()),
            None => None,
        }
    }

    /// Whether there is a path.
    pub fn is_some(&self) -> bool
        ensures { result ≡ is_some self.now }
    {
        self.segments.is_some()
    }
}

// The least path of so many segments, where none of fewer leads from the place.
fn path_along(
    alloc: Global,
    wiring: &Wiring,
    steps: &Steps,
    start: Place,
    to: TrapId,
    count: u8,
) -> Result<Vec<SegId>, NoMemory>
    requires there { HasCount start }
    requires least { AreLeast wiring.now to.0 (wiring.now.junctions + 1) steps.now }
    requires count { steps_at steps.now start ≡ Some count }
    ensures { IfOk result (λ path. path_of wiring.now to.0 count (site start) ≡ Some (map (λ g. g.0) path.items)) }
{
    let mut path = Vec::with_capacity(alloc, usize::from(count))?;
    let mut place = start;
    let mut left = count;
    while left > 0 {
        left -= 1;
        let (segment, far) = first_on(wiring, steps, place, to, left);
        path.push(segment)?;
        place = far;
    }
    Ok(path)
}

// The least segment from the place from whose far end so many lead on, and that end.
fn first_on(wiring: &Wiring, steps: &Steps, place: Place, to: TrapId, left: u8) -> (SegId, Place)
    requires there { HasCount place }
    requires least { AreLeast wiring.now to.0 (wiring.now.junctions + 1) steps.now }
    requires count { steps_at steps.now place ≡ Some (left + 1) }
    ensures { LeadsFrom wiring.now steps.now to.0 left (site place) result.0.0 result.1 }
{
    for (number, ends) in wiring.segments().iter().enumerate() {
        if let Some(far) = far_end(*ends, place) {
            if steps.leads_on(far, to, left) {
                return (SegId(number as u8), far);
            }
        }
    }
    unreachable!()
}

// The other end of a segment that has an end at the trap or the junction of the place.
fn far_end(ends: (Place, Place), place: Place) -> Option<Place>
    ensures { result ≡ far_along (site place) ends }
{
    if same_site(ends.0, place) {
        Some(ends.1)
    } else if same_site(ends.1, place) {
        Some(ends.0)
    } else {
        None
    }
}

// Whether two places are at one trap or at one junction.
fn same_site(a: Place, b: Place) -> bool
    ensures { result ≡ same_res (site a) (site b) }
{
    match (a, b) {
        (Place::TrapEnd(t, _), Place::TrapEnd(u, _)) => t.0 == u.0,
        (Place::Junction(i), Place::Junction(j)) => i.0 == j.0,
        _ => false,
    }
}

/// The paths of hops to one trap, from each trap.
#[derive(Drop)]
pub(crate) struct PathsTo {
    from: Vec<HopPath>,
}

impl Model for PathsTo {
    ghost use Rattle.std.specs.Prelude.{ℕ, List, Option};

    ghost Value = { List (Option (List ℕ)) };

    ghost view = { λ a. a.from.items };
}

impl PathsTo {
    /// The paths to the trap.
    pub fn of(alloc: Global, wiring: &Wiring, to: TrapId) -> Result<PathsTo, NoMemory>
        requires { to.0 < wiring.now.traps }
        ensures { IfOk result (λ paths. paths ≡ paths_to wiring.now to.0) }
    {
        let steps = Steps::to(wiring, to);
        let mut from = Vec::with_capacity(alloc, usize::from(wiring.traps()))?;
        for number in 0..wiring.traps() {
            let path = HopPath::of(alloc, wiring, &steps, TrapId(number), to)?;
            from.push(path)?;
        }
        Ok(PathsTo { from })
    }

    /// The path from the trap.
    pub fn at(&self, from: TrapId) -> &HopPath
        requires { from.0 < length self.now }
        ensures { slice_get self.now from.0 ≡ Some result.now }
    {
        &self.from[usize::from(from.0)]
    }
}
