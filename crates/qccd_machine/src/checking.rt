//! What is wrong with parts that make no machine.

ghost use Rattle.std.specs.Prelude.{◌≡◌, ℕ, ◌+◌, ◌<◌, ◌≤◌, ◌↔◌, ◌⊎◌, IsTrue, IfSome, IfNone, [], ◌∷◌, length, count_by};
ghost use Rattle.std.specs.List.{All, Any};
ghost use Rattle.qccd_base.specs.Times.{times_of};
ghost use Rattle.qccd_machine.specs.declared.place.Place.{Place};
ghost use Rattle.qccd_machine.specs.declared.place.Place.TheVariants.{Junction};
ghost use Rattle.qccd_machine.specs.Fault.{data_of, IsFirst, TakesEnd};
ghost use Rattle.qccd_machine.specs.Machine.{IsThere, IsValid, degree_of, same_place, site};
ghost use Rattle.qccd_machine.specs.Reach.{MarksReached};
ghost use Rattle.qccd_machine.specs.Search.{at_capacities, at_counts, at_degrees, at_end, at_far_junctions, at_far_traps, at_segment, at_segments, at_times, IsFirstWithin, NoneWithin};

use crate::ends::ends_at;
use crate::fault::{MachineFault, PartKind};
use crate::parts::Parts;
use crate::place::Place;
use crate::reach::Reached;
use qccd_base::{JuncId, Res, SegId, TrapId};

// The most traps, segments and junctions of a machine.
const TRAPS: usize = 32;

const SEGMENTS: usize = 128;

const JUNCTIONS: u64 = 64;

// The least and the greatest capacity of a trap.
const LEAST_CAPACITY: u64 = 2;

const MOST_CAPACITY: u64 = 32;

// The fewest and the most ends of segments that a junction joins.
const LEAST_DEGREE: usize = 2;

const MOST_DEGREE: usize = 4;

// The longest time of a step, in microseconds.
const LONGEST: u32 = 1_000_000;

impl Parts {
    /// What is wrong with the parts, told by the first fault that applies, or `None` where they make a
    /// machine. It takes no memory, and looks at nothing that there may be too many of before it has
    /// counted it.
    pub fn fault(&self) -> Option<MachineFault>
        ensures some { IfSome result (IsFirst (data_of self.now)) }
        ensures none { IfNone result (IsValid (data_of self.now)) }
    {
        if let Some(fault) = self.wrong_count() {
            return Some(fault);
        }
        if let Some(fault) = self.wrong_capacity() {
            return Some(fault);
        }
        if let Some(fault) = self.wrong_segment() {
            return Some(fault);
        }
        if let Some(fault) = self.wrong_degree() {
            return Some(fault);
        }
        let marks = self.reached();
        if let Some(fault) = self.far_trap(&marks) {
            return Some(fault);
        }
        if let Some(fault) = self.far_junction(&marks) {
            return Some(fault);
        }
        self.wrong_time()
    }

    // No trap, or too many of a kind.
    fn wrong_count(&self) -> Option<MachineFault>
        ensures some { IfSome result (IsFirstWithin (data_of self.now) at_counts at_capacities) }
        ensures none { IfNone result (NoneWithin (data_of self.now) at_counts at_capacities) }
        ensures traps { IfNone result (length self.now.capacities.items ≤ 32) }
        ensures segments { IfNone result (length self.now.segments.items ≤ 128) }
        ensures junctions { IfNone result (self.now.junctions ≤ 64) }
    {
        if self.capacities.is_empty() {
            Some(MachineFault::NoTrap)
        } else if self.capacities.len() > TRAPS {
            Some(MachineFault::TooMany {
                what: PartKind::Traps,
            })
        } else if self.segments.len() > SEGMENTS {
            Some(MachineFault::TooMany {
                what: PartKind::Segments,
            })
        } else if self.junctions > JUNCTIONS {
            Some(MachineFault::TooMany {
                what: PartKind::Junctions,
            })
        } else {
            None
        }
    }

    // A trap whose capacity is outside 2 to 32.
    fn wrong_capacity(&self) -> Option<MachineFault>
        requires { length self.now.capacities.items ≤ 32 }
        ensures some { IfSome result (IsFirstWithin (data_of self.now) at_capacities at_segments) }
        ensures none { IfNone result (NoneWithin (data_of self.now) at_capacities at_segments) }
    {
        for (trap, capacity) in self.capacities.iter().enumerate() {
            if *capacity < LEAST_CAPACITY || *capacity > MOST_CAPACITY {
                return Some(MachineFault::Capacity {
                    trap: TrapId(trap as u8),
                });
            }
        }
        None
    }

    // Whether the place is at a trap or a junction that is there.
    fn has(&self, place: Place) -> bool
        ensures { IsTrue result ↔ IsThere (data_of self.now) place }
    {
        match place {
            Place::TrapEnd(trap, _) => usize::from(trap.0) < self.capacities.len(),
            Place::Junction(junction) => u64::from(junction.0) < self.junctions,
        }
    }

    // Whether both places are.
    fn has_both(&self, ends: (Place, Place)) -> bool
        ensures { IsTrue result ↔ (IsThere (data_of self.now) ends.0 × IsThere (data_of self.now) ends.1) }
    {
        self.has(ends.0) && self.has(ends.1)
    }

    // What is wrong with the ends of one segment.
    fn wrong_ends(&self, segment: usize) -> Option<MachineFault>
        requires few { length self.now.segments.items ≤ 128 }
        requires there { segment < length self.now.segments.items }
        ensures some { IfSome result (IsFirstWithin (data_of self.now) (at_segment segment) (at_segment (segment + 1))) }
        ensures none { IfNone result (NoneWithin (data_of self.now) (at_segment segment) (at_segment (segment + 1))) }
    {
        let ends = self.segments[segment];
        let seg = SegId(segment as u8);
        if !self.has_both(ends) {
            Some(MachineFault::BadEnd { seg })
        } else if same_site(ends.0, ends.1) {
            Some(MachineFault::SelfJoined { seg })
        } else if is_taken(&self.segments[..segment], ends) {
            Some(MachineFault::EndTaken { seg })
        } else {
            None
        }
    }

    // A segment with an end that is not there, both ends at one trap or junction, or an end that is
    // taken.
    fn wrong_segment(&self) -> Option<MachineFault>
        requires { length self.now.segments.items ≤ 128 }
        ensures some { IfSome result (IsFirstWithin (data_of self.now) at_segments at_degrees) }
        ensures none { IfNone result (NoneWithin (data_of self.now) at_segments at_degrees) }
    {
        for segment in 0..self.segments.len() {
            if let Some(fault) = self.wrong_ends(segment) {
                return Some(fault);
            }
        }
        None
    }

    // How many ends of segments the junction joins.
    fn degree(&self, junction: JuncId) -> usize
        requires { length self.now.segments.items ≤ 128 }
        ensures { result ≡ degree_of (data_of self.now) junction.0 }
    {
        ends_at(self.segments.as_slice(), Place::Junction(junction))
    }

    // A junction that does not join 2 to 4 ends of segments.
    fn wrong_degree(&self) -> Option<MachineFault>
        requires few_segments { length self.now.segments.items ≤ 128 }
        requires few_junctions { self.now.junctions ≤ 64 }
        ensures some { IfSome result (IsFirstWithin (data_of self.now) at_degrees at_far_traps) }
        ensures none { IfNone result (NoneWithin (data_of self.now) at_degrees at_far_traps) }
    {
        for junction in 0..self.junctions as u8 {
            let degree = self.degree(JuncId(junction));
            if degree < LEAST_DEGREE || degree > MOST_DEGREE {
                return Some(MachineFault::JunctionDegree {
                    junc: JuncId(junction),
                });
            }
        }
        None
    }

    // What a path leads to from the first trap.
    fn reached(&self) -> Reached
        requires traps { length self.now.capacities.items ≤ 32 }
        requires junctions { self.now.junctions ≤ 64 }
        requires there { All (λ s. IsThere (data_of self.now) s.0 × IsThere (data_of self.now) s.1) self.now.segments.items }
        ensures { MarksReached (data_of self.now) result }
    {
        Reached::from_first_trap(self.segments.as_slice())
    }

    // A trap out of reach.
    fn far_trap(&self, marks: &Reached) -> Option<MachineFault>
        requires few { length self.now.capacities.items ≤ 32 }
        requires marks { MarksReached (data_of self.now) marks.now }
        ensures some { IfSome result (IsFirstWithin (data_of self.now) at_far_traps at_far_junctions) }
        ensures none { IfNone result (NoneWithin (data_of self.now) at_far_traps at_far_junctions) }
    {
        for trap in 0..self.capacities.len() as u8 {
            if !marks.traps[usize::from(trap)] {
                return Some(MachineFault::NotConnected {
                    place: Res::Trap(TrapId(trap)),
                });
            }
        }
        None
    }

    // A junction out of reach.
    fn far_junction(&self, marks: &Reached) -> Option<MachineFault>
        requires few { self.now.junctions ≤ 64 }
        requires marks { MarksReached (data_of self.now) marks.now }
        ensures some { IfSome result (IsFirstWithin (data_of self.now) at_far_junctions at_times) }
        ensures none { IfNone result (NoneWithin (data_of self.now) at_far_junctions at_times) }
    {
        for junction in 0..self.junctions as u8 {
            if !marks.junctions[usize::from(junction)] {
                return Some(MachineFault::NotConnected {
                    place: Res::Junc(JuncId(junction)),
                });
            }
        }
        None
    }

    // The times in the order of their fields.
    fn all_times(&self) -> [u32; 12]
        ensures { result ≡ times_of self.now.times }
    {
        let times = &self.times;
        [
            times.split,
            times.merge,
            times.shift,
            times.cross2,
            times.cross3,
            times.cross4,
            times.rot,
            times.gate1,
            times.measure,
            times.reset,
            times.gate2,
            times.between,
        ]
    }

    // A time that is too long.
    fn wrong_time(&self) -> Option<MachineFault>
        ensures some { IfSome result (IsFirstWithin (data_of self.now) at_times at_end) }
        ensures none { IfNone result (NoneWithin (data_of self.now) at_times at_end) }
    {
        let times = self.all_times();
        for (field, time) in times.iter().enumerate() {
            if *time > LONGEST {
                return Some(MachineFault::TableRange { field: field as u8 });
            }
        }
        None
    }
}

// Whether the places are at one trap or at one junction.
fn same_site(a: Place, b: Place) -> bool
    ensures { IsTrue result ↔ (site a ≡ site b) }
{
    match (a, b) {
        (Place::TrapEnd(t, _), Place::TrapEnd(u, _)) => t.0 == u.0,
        (Place::Junction(i), Place::Junction(j)) => i.0 == j.0,
        _ => false,
    }
}

// Whether the place is an end of a trap, and one of the two.
fn takes_end(ends: &(Place, Place), place: Place) -> bool
    ensures { IsTrue result ↔ TakesEnd ends.now place }
{
    match place {
        Place::TrapEnd(..) => ends.0 == place || ends.1 == place,
        Place::Junction(_) => false,
    }
}

// Whether one of the two others is an end of a trap, and one of the ends.
fn share_end(others: &(Place, Place), ends: (Place, Place)) -> bool
    ensures { IsTrue result ↔ (TakesEnd others.now ends.0 ⊎ TakesEnd others.now ends.1) }
{
    takes_end(others, ends.0) || takes_end(others, ends.1)
}

// Whether one of the segments has an end of a trap that is one of the ends.
fn is_taken(segments: &[(Place, Place)], ends: (Place, Place)) -> bool
    ensures { IsTrue result ↔ Any (λ others. TakesEnd others ends.0 ⊎ TakesEnd others ends.1) segments.now }
{
    segments.iter().any(|others| share_end(others, ends))
}
