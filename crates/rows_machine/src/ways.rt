//! The ways on a machine.

use crate::machines::machine_of;
use crate::parts::{small, unread};
use qccd_base::{NoMemory, TrapId};
use router::Routes;
use std::alloc::{AllocError, Global};
use std::io;

/// Prints the row, and of each way, as `0-5`, how many hops it takes, the trap that is next on it, and its path
/// where that is one hop.
pub fn show_ways(rt: &impl Print, alloc: Global, row: &str, rest: &str) -> io::Result<()> {
    let (ways, machine) = rest.split_once(" ").ok_or(unread())?;
    let machine = machine_of(alloc, machine)?;
    let routes = match Routes::of(alloc, &machine) {
        Ok(routes) => routes,
        Err(NoMemory) => return Err(AllocError.into()),
    };
    println!(rt; "{row}")?;
    for way in ways.split(",") {
        let (from, to) = traps_of(way).ok_or(unread())?;
        if from.0 >= machine.traps() || to.0 >= machine.traps() {
            return Err(unread());
        }
        println!(rt;
            "  {way} takes {}, next {:?}, path {:?}",
            routes.distance(from, to),
            routes.next_hop(from, to),
            routes.hop_path(from, to)
        )?;
    }
    Ok(())
}

/// The two traps of a way.
fn traps_of(way: &str) -> Option<(TrapId, TrapId)> {
    let (from, to) = way.split_once("-")?;
    Some((TrapId(small(from)?), TrapId(small(to)?)))
}
