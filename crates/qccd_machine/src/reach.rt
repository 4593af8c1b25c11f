//! Which traps and junctions a path leads to from the first trap.

ghost use Rattle.std.specs.Prelude.{◌≡◌, ◌⊎◌, ◌↔◌, ℕ, ◌+◌, ◌<◌, ◌≤◌, true, false, Some, slice_get, length};
ghost use Rattle.std.specs.List.{All};
ghost use Rattle.qccd_base.specs.declared.names.Res.{Res};
ghost use Rattle.qccd_machine.specs.Fault.{data_of};
ghost use Rattle.qccd_machine.specs.Machine.{MachineData, IsReached, first_trap, site};
ghost use Rattle.qccd_machine.specs.Reach.{AllReached, HasMark, IsClosedBelow, KeepsMarks, is_marked, unmarked};

use crate::place::Place;

/// A mark for each trap and each junction that a path was found to.
#[derive(Clone, Copy)]
pub struct Reached {
    pub traps: [bool; 32],
    pub junctions: [bool; 64],
}

impl Reached {
    // The first trap alone is marked.
    fn start() -> Reached
        ensures first { is_marked result first_trap ≡ true }
        ensures only { (r : Res) → is_marked result r ≡ true → r ≡ first_trap }
    {
        let mut traps = [false; 32];
        traps[0] = true;
        Reached {
            traps,
            junctions: [false; 64],
        }
    }

    // Whether the trap or the junction of the place is marked.
    fn has(&self, place: Place) -> bool
        requires { HasMark place }
        ensures { result ≡ is_marked self.now (site place) }
    {
        match place {
            Place::TrapEnd(trap, _) => self.traps[usize::from(trap.0)],
            Place::Junction(junction) => self.junctions[usize::from(junction.0)],
        }
    }

    // Marks the trap or the junction of the place.
    fn mark(&mut self, place: Place)
        requires mark { HasMark place }
        requires fresh { is_marked self.old (site place) ≡ false }
        ensures marked { is_marked self.new (site place) ≡ true }
        ensures keeps { KeepsMarks self.old self.new }
        ensures only { (r : Res) → is_marked self.new r ≡ true → (is_marked self.old r ≡ true) ⊎ (r ≡ site place) }
        ensures fewer { unmarked self.new < unmarked self.old }
    {
        match place {
            Place::TrapEnd(trap, _) => self.traps[usize::from(trap.0)] = true,
            Place::Junction(junction) => self.junctions[usize::from(junction.0)] = true,
        }
    }

    // Where one end of a segment is marked, marks the other. Says whether there was one to mark.
    fn follow(&mut self, ends: (Place, Place)) -> bool
        requires first { HasMark ends.0 }
        requires second { HasMark ends.1 }
        ensures both { is_marked self.new (site ends.0) ≡ is_marked self.new (site ends.1) }
        ensures keeps { KeepsMarks self.old self.new }
        ensures reached { (m : MachineData) (s : ℕ) → slice_get m.segments s ≡ Some ends → AllReached m self.old → AllReached m self.new }
        ensures fewer { result ≡ true → unmarked self.new < unmarked self.old }
        ensures same { result ≡ false → self.new ≡ self.old }
    {
        match (self.has(ends.0), self.has(ends.1)) {
            (true, false) => {
                self.mark(ends.1);
                true
            }
            (false, true) => {
                self.mark(ends.0);
                true
            }
            _ => false,
        }
    }

    // Follows each segment once. Says whether there was something to mark.
    fn spread(&mut self, segments: &[(Place, Place)]) -> bool
        requires { All (λ s. HasMark s.0 × HasMark s.1) segments.now }
        ensures keeps { KeepsMarks self.old self.new }
        ensures reached { (m : MachineData) → m.segments ≡ segments.now → AllReached m self.old → AllReached m self.new }
        ensures fewer { result ≡ true → unmarked self.new < unmarked self.old }
        ensures closed { result ≡ false → IsClosedBelow segments.now (length segments.now) self.new }
    {
        let mut found = false;
        for ends in segments {
            if self.follow(*ends) {
                found = true;
            }
        }
        found
    }

    /// What a path leads to. Each round over the segments but the last marks something.
    pub fn from_first_trap(segments: &[(Place, Place)]) -> Reached
        requires { All (λ s. HasMark s.0 × HasMark s.1) segments.now }
        ensures { (m : MachineData) (r : Res) → m.segments ≡ segments.now → (is_marked result r ≡ true) ↔ IsReached m r }
    {
        let mut marks = Reached::start();
        while marks.spread(segments) {}
        marks
    }
}
