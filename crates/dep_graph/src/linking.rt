//! A graph in the making: the items from some number on are linked.

ghost use Rattle.std.specs.Prelude.{◌≡◌, ◌+◌, ◌<◌, ◌≤◌, List, IfOk, IfSome, None, OnOk, Some, get_or, length, slice_get};
ghost use Rattle.dep_graph.specs.Linking.{HasEntries, LinksFrom, data_of, linked_to, met};
ghost use Rattle.qccd_circuit.specs.Circuit.{IsWithin};
ghost use Rattle.qccd_circuit.specs.Item.{ItemData};

use qccd_base::NoMemory;
use qccd_circuit::Item;
use std::alloc::Global;

// A row for each of 256 qubits and each of 256 bits.
const ROWS: usize = 512;

/// The links of the items from some number on.
#[derive(Debug, Drop)]
pub(crate) struct Linking {
    /// The items that stand directly behind each, from the last item to the first.
    pub(crate) links: Vec<u32>,
    /// Where the links of each item end.
    pub(crate) ends: Vec<usize>,
    /// How many items stand directly before each.
    pub(crate) waits: Vec<u32>,
    // By which item each was linked last.
    linked_by: Vec<u32>,
    // The first item on each operand.
    next: [Option<u32>; ROWS],
}

impl Linking {
    /// So many items, and none of them linked yet.
    pub(crate) fn begin(alloc: Global, count: usize) -> Result<Linking, NoMemory>
        requires { count ≤ 65536 }
        ensures { IfOk result (λ made. (items : List ItemData) → length items ≡ count → LinksFrom items count (data_of made)) }
    {
        let ends = vec![in alloc; 0; count + 1]?;
        let waits = vec![in alloc; 0; count]?;
        let linked_by = vec![in alloc; 0; count]?;
        Ok(Linking {
            links: Vec::new(alloc),
            ends,
            waits,
            linked_by,
            next: [None; ROWS],
        })
    }

    /// Links the item before those that are linked: to the first item on each of its operands, once each.
    pub(crate) fn link(&mut self, item: &Item, number: u32) -> Result<(), NoMemory>
        requires within { IsWithin 256 256 item.now }
        requires behind { (items : List ItemData) × (length items ≤ 65536) × (slice_get items number ≡ Some item.now)
            × LinksFrom items (number + 1) (data_of self.old) }
        ensures { OnOk result ((items : List ItemData) → slice_get items number ≡ Some item.now
            → LinksFrom items (number + 1) (data_of self.old) → LinksFrom items number (data_of self.new)) }
    {
        let index = number as usize;
        self.linked_by[index] = number;
        for k in 0..item.operand_count() {
            self.meet(item.operand(k), number)?;
        }
        self.ends[index] = self.links.len();
        Ok(())
    }

    // The item is now the first on an operand, and is linked to the one that was.
    fn meet(&mut self, row: usize, number: u32) -> Result<(), NoMemory>
        requires row { row < 512 }
        requires entries { IfSome (get_or self.old.next row None) (λ later. HasEntries (data_of self.old) later) }
        ensures { OnOk result (data_of self.new ≡ met (data_of self.old) row number) }
    {
        let first = self.next[row];
        self.next[row] = Some(number);
        match first {
            None => Ok(()),
            Some(later) => self.link_to(later, number),
        }
    }

    // Links the item to a later one, unless it is already.
    fn link_to(&mut self, later: u32, number: u32) -> Result<(), NoMemory>
        requires { HasEntries (data_of self.old) later }
        ensures { OnOk result (data_of self.new ≡ linked_to (data_of self.old) later number) }
    {
        let index = later as usize;
        if self.linked_by[index] == number {
            return Ok(());
        }
        self.linked_by[index] = number;
        self.waits[index] += 1;
        self.links.push(later)?;
        Ok(())
    }
}
