//! All histories of two workers.

ghost use Rattle.std.specs.Prelude.{IfOk, IsTrue};
ghost use Rattle.claim_core.specs.Event.{IsEvent};
ghost use Rattle.rows_history.specs.Rows.{IsOfTwo};

use crate::fault::Fault;
use claim_core::{ActFault, Board, Event};
use op_table::Op;
use qccd_base::{NoMemory, Res};
use qccd_program::Program;
use std::alloc::Global;

/// How many workers a board has.
pub const WORKERS: u16 = 2;

/// An order in which operations commit, and how many histories have it.
#[derive(Debug, Drop)]
pub struct Order {
    pub ops: Vec<u32>,
    pub histories: u32,
}

// Whether an event's worker and operation are there.
fn is_there(program: &Program, board: &Board, event: Event) -> bool
    requires { IsOfTwo program.now board.now }
    ensures { IsTrue result → IsEvent program.now board.now event }
{
    let count = program.ops().len();
    match event {
        Event::Begin { worker, op } => worker < WORKERS && (op as usize) < count,
        Event::Reach { worker, op, res: _ } => worker < WORKERS && (op as usize) < count,
        Event::Give { worker, op, res: _ } => worker < WORKERS && (op as usize) < count,
    }
}

/// Does the event, and tells what the board answers, or nothing where worker or operation are not there.
pub fn answer(program: &Program, board: &mut Board, event: Event) -> Option<Result<(), ActFault>>
    requires { IsOfTwo program.now board.old }
    ensures { IsOfTwo program.now board.new }
{
    if !is_there(program, board, event) {
        return None;
    }
    Some(board.act(program, event))
}

// The board after a history.
fn board_after(alloc: Global, program: &Program, history: &[Event]) -> Result<Board, Fault>
    ensures { IfOk result (λ b. IsOfTwo program.now b) }
{
    let mut board = Board::of(alloc, program, WORKERS)?;
    for event in history {
        if answer(program, &mut board, *event) != Some(Ok(())) {
            return Err(Fault::Forgotten);
        }
    }
    Ok(board)
}

// Adds what a worker may do with an operation that touches these.
fn add_events(
    events: &mut Vec<Event>,
    worker: u16,
    op: u32,
    touched: &[Res],
) -> Result<(), NoMemory> {
    events.push(Event::Begin { worker, op })?;
    for res in touched {
        let res = *res;
        events.push(Event::Reach { worker, op, res })?;
        events.push(Event::Give { worker, op, res })?;
    }
    Ok(())
}

// All that two workers may do with the program's operations.
fn all_events(alloc: Global, program: &Program) -> Result<Vec<Event>, NoMemory> {
    let mut events = Vec::new(alloc);
    for (k, op) in program.ops().iter().enumerate() {
        add_events(&mut events, 0, k as u32, op.touches())?;
        add_events(&mut events, 1, k as u32, op.touches())?;
    }
    Ok(events)
}

// How many events a history has that does all of these operations: each resource is taken and given.
fn length_of(ops: &[Op]) -> usize {
    let mut count = 0usize;
    for op in ops {
        count = count
            .wrapping_add(op.touches().len())
            .wrapping_add(op.touches().len());
    }
    count
}

// Whether the least operation that is not finished is enabled.
fn may_go_on(alloc: Global, program: &Program, history: &[Event]) -> Result<bool, Fault> {
    let board = board_after(alloc, program, history)?;
    Ok(match board.least_unfinished(program) {
        Some(op) => board.is_enabled(program, op),
        None => false,
    })
}

// Whether all operations are finished.
fn has_ended(alloc: Global, program: &Program, history: &[Event]) -> Result<bool, Fault> {
    let board = board_after(alloc, program, history)?;
    Ok(board.least_unfinished(program).is_none())
}

// Adds the history with each event that is allowed after it.
fn add_longer(
    alloc: Global,
    program: &Program,
    history: &[Event],
    events: &[Event],
    longer: &mut Vec<Vec<Event>>,
) -> Result<(), Fault> {
    for event in events {
        let mut board = board_after(alloc, program, history)?;
        if answer(program, &mut board, *event) == Some(Ok(())) {
            let mut next = Vec::from_slice(alloc, history)?;
            next.push(*event)?;
            longer.push(next)?;
        }
    }
    Ok(())
}

// All histories with one event more than these.
fn all_longer(
    alloc: Global,
    program: &Program,
    histories: &[Vec<Event>],
    events: &[Event],
) -> Result<Vec<Vec<Event>>, Fault> {
    let mut longer = Vec::new(alloc);
    for history in histories {
        let history = history.as_slice();
        if !may_go_on(alloc, program, history)? {
            return Err(Fault::Stuck);
        }
        add_longer(alloc, program, history, events, &mut longer)?;
    }
    Ok(longer)
}

// All histories to the program's end.
fn whole_histories(alloc: Global, program: &Program) -> Result<Vec<Vec<Event>>, Fault> {
    let events = all_events(alloc, program)?;
    let mut histories = Vec::new(alloc);
    histories.push(Vec::new(alloc))?;
    for _ in 0..length_of(program.ops()) {
        histories = all_longer(alloc, program, histories.as_slice(), events.as_slice())?;
    }
    Ok(histories)
}

// The operation of an event that gives.
fn given_by(event: Event) -> Option<u32> {
    match event {
        Event::Begin { worker: _, op: _ } => None,
        Event::Reach {
            worker: _,
            op: _,
            res: _,
        } => None,
        Event::Give {
            worker: _,
            op,
            res: _,
        } => Some(op),
    }
}

// The operations of a history, each where it gives for the first time.
fn commits(alloc: Global, history: &[Event]) -> Result<Vec<u32>, NoMemory> {
    let mut ops = Vec::new(alloc);
    for event in history {
        if let Some(op) = given_by(*event) {
            if !ops.as_slice().contains(&op) {
                ops.push(op)?;
            }
        }
    }
    Ok(ops)
}

// Counts a history whose operations commit in this order.
fn count_order(orders: &mut Vec<Order>, ops: Vec<u32>) -> Result<(), NoMemory> {
    for order in orders.iter_mut() {
        if order.ops.as_slice() == ops.as_slice() {
            order.histories = order.histories.wrapping_add(1);
            return Ok(());
        }
    }
    orders.push(Order { ops, histories: 1 })?;
    Ok(())
}

/// The orders in which operations commit, of all histories to the program's end, each of which has finished all
/// operations.
pub fn orders(alloc: Global, program: &Program) -> Result<Vec<Order>, Fault> {
    let mut orders = Vec::new(alloc);
    for history in whole_histories(alloc, program)? {
        if !has_ended(alloc, program, history.as_slice())? {
            return Err(Fault::Stuck);
        }
        count_order(&mut orders, commits(alloc, history.as_slice())?)?;
    }
    Ok(orders)
}
