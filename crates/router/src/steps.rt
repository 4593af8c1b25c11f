//! How many segments lead to a trap, at the least, from each trap and each junction. Found by rounds: in each those
//! places are reached from which a segment leads to a place that the round before has reached.

ghost use Rattle.std.specs.Prelude.{◌≡◌, ◌+◌, ◌<◌, Some};
ghost use Rattle.std.specs.Prelude.{if◌then◌else◌};
ghost use Rattle.std.specs.Option.{option_or};
ghost use Rattle.qccd_machine.specs.declared.place.Place.{Place};
ghost use Rattle.router.specs.Steps.{AreLeast, HasCount, is_at, leads_on, reached, steps_at};

use crate::wiring::Wiring;
use qccd_base::TrapId;
use qccd_machine::Place;

/// How many segments lead to one trap from each trap and each junction, where some number is known.
#[derive(Clone, Copy)]
pub(crate) struct Steps {
    pub traps: [Option<u8>; 32],
    pub junctions: [Option<u8>; 64],
}

impl Steps {
    /// The least numbers of segments of paths to the trap.
    pub fn to(wiring: &Wiring, to: TrapId) -> Steps
        requires { to.0 < wiring.now.traps }
        ensures { AreLeast wiring.now to.0 (wiring.now.junctions + 1) result }
    {
        let mut steps = Steps {
            traps: [None; 32],
            junctions: [None; 64],
        };
        for left in 0..wiring.junctions() + 1 {
            steps = steps.further(wiring, to, left);
        }
        steps
    }

    // What one more round finds: the places from which a segment leads to a place with so many left.
    fn further(&self, wiring: &Wiring, to: TrapId, left: u8) -> Steps
        requires few { left < 255 }
        requires least { AreLeast wiring.now to.0 left self.now }
        ensures { AreLeast wiring.now to.0 (left + 1) result }
    {
        let mut steps = *self;
        for (a, b) in wiring.segments() {
            steps.reach(self.leads_on(*b, to, left), *a, left + 1);
            steps.reach(self.leads_on(*a, to, left), *b, left + 1);
        }
        steps
    }

    // Notes so many segments for the place, where they lead on from there and no number is known yet.
    fn reach(&mut self, leads: bool, place: Place, count: u8)
        requires { HasCount place }
        ensures { (p : Place) → HasCount p → steps_at self.new p ≡ (if leads then reached place count p (steps_at self.old p) else steps_at self.old p) }
    {
        if leads {
            match place {
                Place::TrapEnd(trap, _) => note(&mut self.traps[usize::from(trap.0)], count),
                Place::Junction(junction) => note(
                    &mut self.junctions[usize::from(junction.0)],
                    count,
                ),
            }
        }
    }

    /// How many segments lead to the trap from the place, where some do.
    pub fn at(&self, place: Place) -> Option<u8>
        requires { HasCount place }
        ensures { result ≡ steps_at self.now place }
    {
        match place {
            Place::TrapEnd(trap, _) => self.traps[usize::from(trap.0)],
            Place::Junction(junction) => self.junctions[usize::from(junction.0)],
        }
    }

    /// Whether so many segments, at the least, lead on to the trap from the far end of a segment.
    pub fn leads_on(&self, far: Place, to: TrapId, left: u8) -> bool
        requires { HasCount far }
        ensures { result ≡ leads_on self.now to.0 far left }
    {
        match far {
            Place::TrapEnd(trap, _) => left == 0 && trap.0 == to.0,
            Place::Junction(junction) => is_at(self.junctions[usize::from(junction.0)], left),
        }
    }
}

/// Notes the count where there is none.
pub(crate) fn note(place: &mut Option<u8>, count: u8)
    ensures { place.new ≡ option_or place.old (Some count) }
{
    if place.is_none() {
        *place = Some(count);
    }
}

/// Whether the number is known to be this one.
pub(crate) fn is_at(known: Option<u8>, number: u8) -> bool
    ensures { result ≡ is_at known number }
{
    match known {
        Some(count) => count == number,
        None => false,
    }
}
