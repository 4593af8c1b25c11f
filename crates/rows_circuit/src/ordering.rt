//! What stands on what in a circuit: the levels of its items, their order by level, and the items that are ready.

ghost use Rattle.dep_graph.specs.Graph.{IsGraphOf};
ghost use Rattle.dep_graph.specs.Ready.{Follows};

use crate::reading::taken;
use dep_graph::{Graph, Ready};
use gate_scheduler::order;
use qccd_base::NoMemory;
use qccd_circuit::{Circuit, Item, same_order, shares};
use std::alloc::{AllocError, Global};
use std::io;

/// Prints the levels of the circuit's items, and the items by level.
pub fn show_levels(rt: &impl Print, alloc: Global, circuit: &Circuit) -> io::Result<()> {
    let graph = taken(Graph::of(alloc, circuit))?;
    let list = taken(order(alloc, circuit))?;
    println!(rt; "  levels {:?}", graph.levels())?;
    println!(rt; "  order {:?}", list.as_slice())
}

/// Prints which items are ready, and again after each of the numbers is taken, where it is ready.
pub fn show_taking(
    rt: &impl Print,
    alloc: Global,
    circuit: &Circuit,
    numbers: &[u32],
) -> io::Result<()> {
    let graph = match Graph::of(alloc, circuit) {
        Ok(graph) => graph,
        Err(NoMemory) => return Err(AllocError.into()),
    };
    let mut ready = match Ready::of(alloc, &graph) {
        Ok(ready) => ready,
        Err(NoMemory) => return Err(AllocError.into()),
    };
    println!(rt; "  ready {:?}", ready.list())?;
    take_each(rt, circuit, &graph, &mut ready, numbers)
}

/// Takes the items one after another, each where it is ready, and prints which are ready then.
fn take_each(
    rt: &impl Print,
    circuit: &Circuit,
    graph: &Graph,
    ready: &mut Ready,
    numbers: &[u32],
) -> io::Result<()>
    requires made { IsGraphOf circuit.now.items graph.now }
    requires follows { Follows circuit.now.items ready.old }
{
    for number in numbers {
        let was_ready = take_where_ready(circuit, graph, ready, *number);
        println!(rt;
            "  {number} was ready: {was_ready}, ready {:?}",
            ready.list()
        )?;
    }
    Ok(())
}

/// Takes the item where it is ready.
fn take_where_ready(circuit: &Circuit, graph: &Graph, ready: &mut Ready, item: u32) -> bool
    requires made { IsGraphOf circuit.now.items graph.now }
    requires follows { Follows circuit.now.items ready.old }
    ensures { Follows circuit.now.items ready.new }
{
    if !ready.ready(item) {
        return false;
    }
    ready.take(graph, item);
    true
}

/// Whether each item's level is the plain rule's.
fn levels_are_plain(items: &[Item], levels: &[u32]) -> bool {
    for (j, (item, level)) in items.iter().zip(levels).enumerate() {
        if plain_level(item, &items[..j.min(items.len())], levels) != *level {
            return false;
        }
    }
    true
}

/// The level of an item behind these items, whose levels are these: 0 where it shares with none of them, else 1
/// plus the greatest level of those that it shares with.
fn plain_level(item: &Item, earlier: &[Item], levels: &[u32]) -> u32 {
    let mut plain = 0;
    for (earlier, below) in earlier.iter().zip(levels) {
        if shares(earlier, item) {
            plain = plain.max(below.saturating_add(1));
        }
    }
    plain
}

/// Whether an item that is not taken has each earlier one that shares with it taken.
fn is_plainly_ready(items: &[Item], taken: &[bool], j: usize) -> bool {
    let (Some(item), Some(false)) = (items.get(j), taken.get(j)) else {
        return false;
    };
    items
        .iter()
        .zip(taken)
        .take(j)
        .all(|(earlier, taken)| *taken || !shares(earlier, item))
}

/// Whether those are ready that are plainly ready.
fn ready_are_plain(circuit: &Circuit, ready: &Ready, taken: &[bool]) -> bool {
    let items = circuit.items();
    for number in 0..items.len() {
        if ready.ready(number as u32) != is_plainly_ready(items, taken, number) {
            return false;
        }
    }
    true
}

/// Takes one of the ready items after another, as long as those are ready that are plainly ready; how many are
/// taken.
fn taken_plainly(circuit: &Circuit, graph: &Graph, ready: &mut Ready, taken: &mut [bool]) -> usize
    requires made { IsGraphOf circuit.now.items graph.now }
    requires follows { Follows circuit.now.items ready.old }
{
    let mut count = 0usize;
    for turn in 0..circuit.items().len() {
        if !ready_are_plain(circuit, ready, taken) {
            return count;
        }
        let list = ready.list();
        if list.is_empty() {
            return count;
        }
        let item = list[turn.wrapping_mul(7) % list.len()];
        let index = item as usize;
        if take_where_ready(circuit, graph, ready, item) && index < taken.len() {
            taken[index] = true;
            count = count.saturating_add(1);
        }
    }
    count
}

/// Prints whether the levels of the circuit's items are the plain rule's, and how many items are taken while those
/// are ready that the plain rule tells.
pub fn show_plainly(rt: &impl Print, alloc: Global, circuit: &Circuit) -> io::Result<()> {
    let graph = match Graph::of(alloc, circuit) {
        Ok(graph) => graph,
        Err(NoMemory) => return Err(AllocError.into()),
    };
    let mut ready = match Ready::of(alloc, &graph) {
        Ok(ready) => ready,
        Err(NoMemory) => return Err(AllocError.into()),
    };
    let mut marks = vec![in alloc; false; circuit.items().len()]?;
    let plain = levels_are_plain(circuit.items(), graph.levels());
    let count = taken_plainly(circuit, &graph, &mut ready, marks.as_mut_slice());
    println!(rt;
        "  items {}, levels plain: {plain}, taken {count}",
        circuit.items().len()
    )
}

/// Prints how many items have a level, whether any is ready, and whether the order by level keeps the circuit's.
pub fn show_counts(rt: &impl Print, alloc: Global, circuit: &Circuit) -> io::Result<()> {
    let graph = taken(Graph::of(alloc, circuit))?;
    let ready = taken(Ready::of(alloc, &graph))?;
    let list = taken(order(alloc, circuit))?;
    println!(rt;
        "  levels {}, any ready: {}, kept by level: {}",
        graph.levels().len(),
        !ready.list().is_empty(),
        taken(same_order(alloc, circuit, list.as_slice()))?
    )
}
