//! What a machine is built from.

use crate::place::Place;
use qccd_base::Times;

/// What a machine is built from. Nothing is asked of it: `Machine::build` tells what does not fit.
#[derive(Debug, Drop)]
pub struct Parts {
    /// How many ions each trap holds at most, trap 0 first.
    pub capacities: Vec<u64>,
    /// How many junctions there are.
    pub junctions: u64,
    /// The two ends of each segment, segment 0 first. The first of the two is its end A.
    pub segments: Vec<(Place, Place)>,
    /// How long each step takes.
    pub times: Times,
}
