//! Which item stands directly behind which.

ghost use Rattle.std.specs.Prelude.{◌≡◌, ◌+◌, ◌<◌, ◌≤◌, List, IfOk, get_or, length};
ghost use Rattle.dep_graph.specs.Graph.{IsGraphOf, links_of};
ghost use Rattle.dep_graph.specs.Levels.{levels};
ghost use Rattle.qccd_circuit.specs.Item.{ItemData};

use crate::level::levels;
use crate::linking::Linking;
use qccd_base::NoMemory;
use qccd_circuit::Circuit;
use std::alloc::Global;
use std::marker::Model;

/// The items of a circuit with their levels, and which stand directly behind which: on some operand of the
/// one, the other is the next item.
#[derive(Debug, Drop)]
pub struct Graph {
    levels: Vec<u32>,
    links: Vec<u32>,
    ends: Vec<usize>,
    waits: Vec<u32>,
}

impl Model for Graph {
    ghost use Rattle.std.specs.Prelude.{◌≤◌, length};
    ghost use Rattle.dep_graph.specs.Graph.{GraphData};

    ghost Value = { GraphData };

    ghost view = { λ a. record { levels = a.levels.items; links = a.links.items; ends = a.ends.items; waits = a.waits.items } };

    ghost invariant = { λ a. length a.waits.items ≤ 65536 };
}

impl Graph {
    /// The graph of the circuit's items. The time grows with their operands.
    pub fn of(alloc: Global, circuit: &Circuit) -> Result<Graph, NoMemory>
        ensures { IfOk result (λ graph. IsGraphOf circuit.now.items graph) }
    {
        let levels = levels(alloc, circuit)?;
        let items = circuit.items();
        let mut linking = Linking::begin(alloc, items.len())?;
        for index in (0..items.len()).rev() {
            linking.link(&items[index], index as u32)?;
        }
        Ok(Graph {
            levels,
            links: linking.links,
            ends: linking.ends,
            waits: linking.waits,
        })
    }

    /// The level of each item: 0 where no earlier item shares with it, else 1 plus the greatest level of
    /// those that do.
    pub fn levels(&self) -> &[u32]
        ensures { (items : List ItemData) → IsGraphOf items self.now → result.now ≡ levels items }
    {
        self.levels.as_slice()
    }

    // How many items stand directly before each.
    pub(crate) fn waits(&self) -> &[u32]
        ensures value { result.now ≡ self.now.waits }
        ensures few { length self.now.waits ≤ 65536 }
    {
        self.waits.as_slice()
    }

    // The items that stand directly behind an item.
    pub(crate) fn links(&self, item: usize) -> &[u32]
        requires within { item + 1 < length self.now.ends }
        requires ascending { get_or self.now.ends (item + 1) 0 ≤ get_or self.now.ends item 0 }
        requires inside { get_or self.now.ends item 0 ≤ length self.now.links }
        ensures { result.now ≡ links_of self.now.links self.now.ends item }
    {
        &self.links[self.ends[item + 1]..self.ends[item]]
    }
}
