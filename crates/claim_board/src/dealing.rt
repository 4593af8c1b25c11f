//! Dealing a deck.

ghost use Rattle.std.specs.Prelude.{◌≡◌, ◌+◌, ◌<◌, ◌≤◌, ℕ, List, [], IfOk, length, map, Some, vec_capacity};
ghost use Rattle.op_cells.specs.declared.cells.Cell.{Cell};
ghost use Rattle.qccd_program.specs.AllCells.{AtStep};
ghost use Rattle.claim_core.specs.Board.{width};
ghost use Rattle.claim_core.specs.Event.{touched};
ghost use Rattle.claim_board.specs.Deck.{AreDealt, IsDealt, program_of, workers_of};
ghost use Rattle.claim_board.specs.Rule.{fresh_view};

use crate::deck::Deck;
use crate::pass::{Bounds, Pass};
use crate::steps::cut;
use crate::view::{Key, Place};
use atomic_table::Table;
use op_cells::{Cell, count_of};
use qccd_base::NoMemory;
use qccd_program::Program;
use std::alloc::Global;
use std::snapshot::Snapshot;

// The most resources that an operation of the program touches.
fn most_touched(program: &Program) -> usize
    ensures { (k : ℕ) → length (touched program.now.ops k) ≤ result }
{
    let mut most = 0;
    for op in program.ops() {
        most = most.max(op.touches().len());
    }
    most
}

// Where the numbers of segments, junctions and bits begin.
fn bounds_of(program: &Program) -> Bounds
    ensures segments { result.segments ≡ length program.now.machine.capacities }
    ensures junctions { result.junctions ≡ result.segments + length program.now.machine.segments }
    ensures bits { result.bits ≡ result.junctions + program.now.machine.junctions }
{
    let machine = program.machine();
    let segments = usize::from(machine.traps());
    let junctions = segments + usize::from(machine.segments());
    let bits = junctions + usize::from(machine.junctions());
    Bounds {
        segments,
        junctions,
        bits,
    }
}

// The cells before the first operation, each in a slot.
fn slots_of(alloc: Global, program: &Program) -> Result<Vec<Option<Cell>>, NoMemory>
    ensures { IfOk result (λ slots. (cells : List Cell) × (slots.items ≡ map Some cells) × AtStep program.now 0 cells) }
{
    let mut cells = program.first_cells(alloc)?.into_list();
    let mut slots = Vec::with_capacity(alloc, cells.len())?;
    while let Some(cell) = cells.pop() {
        slots.push(Some(cell))?;
    }
    slots.reverse();
    Ok(slots)
}

// The pass with that number, which has done nothing, at its place. All memory that it ever needs is reserved.
fn pass_at(
    alloc: Global,
    deck: &Deck,
    program: &Program,
    place: Place,
    number: u32,
    most: usize,
) -> Result<Pass, NoMemory>
    requires deck { (place.table_id ≡ deck.now.words.shared.table_id) × (program_of deck.now ≡ program.now) }
    requires fresh { (made : ℕ) × (place.me ≡ (fresh_view program.now (workers_of deck.now) number made, [])) }
    requires few { number < 16 }
    requires most { (k : ℕ) → length (touched program.now.ops k) ≤ most }
    ensures { IfOk result (λ pass. IsDealt deck.now program.now number pass) }
{
    let count = count_of(program.machine(), program.bits());
    let seen = vec![in alloc; 0u32; count]?;
    let cells = Vec::with_capacity(alloc, most)?;
    Ok(Pass {
        place,
        number,
        op: None,
        seen,
        cells,
        bounds: bounds_of(program),
    })
}

// The passes of a deck, from its first place.
fn passes_of(
    alloc: Global,
    deck: &Deck,
    program: &Program,
    first: Place,
    workers: u8,
) -> Result<Vec<Pass>, NoMemory>
    requires deck { (first.table_id ≡ deck.now.words.shared.table_id) × (program_of deck.now ≡ program.now) × (workers_of deck.now ≡ workers) }
    requires fresh { first.me ≡ (fresh_view program.now (workers_of deck.now) 0 1, []) }
    requires some { 0 < workers }
    requires few { workers ≤ 16 }
    ensures { IfOk result (λ passes. (length passes.items ≡ workers) × AreDealt deck.now program.now 0 passes.items) }
{
    let most = most_touched(program);
    let mut first = first;
    let mut passes = Vec::with_capacity(alloc, usize::from(workers))?;
    for number in 1..u32::from(workers) {
        let place = cut(&deck.words.shared, &mut first);
        passes.push(pass_at(alloc, deck, program, place, number, most)?)?;
    }
    let pass = pass_at(alloc, deck, program, first, 0, most)?;
    passes.insert(0, pass)?;
    Ok(passes)
}

impl Deck {
    /// A deck of the program for 1 to 16 workers, and their passes, numbered from 0, each with nothing in hand. All
    /// memory of the run is taken here, logs and passes included.
    pub fn deal(
        alloc: Global,
        program: &Program,
        workers: u8,
    ) -> Result<(Deck, Vec<Pass>), NoMemory>
        requires workers { (0 < workers) × (workers ≤ 16) }
        ensures deck { IfOk result (λ r. (program_of r.0 ≡ program.now) × (workers_of r.0 ≡ workers)) }
        ensures passes { IfOk result (λ r. (length r.1.items ≡ workers) × AreDealt r.0 program.now 0 r.1.items) }
    {
        let _ops = program.ops();
        let count = count_of(program.machine(), program.bits());
        let words = vec![in alloc; 0u64; count]?;
        let slots = slots_of(alloc, program)?;
        let cells = Vec::with_capacity(alloc, count)?;
        let turns = Vec::with_capacity(alloc, count)?;
        let key = Key {
            program: Snapshot::of(program),
            workers: u64::from(workers),
        };
        let Ok((words, first)) = Table::new(alloc, words.as_slice(), slots, &key) else {
            return Err(NoMemory);
        };
        let deck = Deck {
            words,
            cells,
            turns,
        };
        let passes = passes_of(alloc, &deck, program, first, workers)?;
        Ok((deck, passes))
    }
}
