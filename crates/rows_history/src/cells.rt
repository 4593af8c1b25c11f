//! The cells that operations leave in one order or another.

use crate::fault::Fault;
use loader::load;
use op_cells::{Cell, Done};
use op_table::{Content, Op};
use qccd_program::{Program, run_in_order};
use std::alloc::Global;
use transport_asm::RawProgram;

// The most operations of a program.
const MOST_OPS: usize = 4194304;

// The operations of these numbers, in this order.
fn reordered(alloc: Global, ops: Vec<Op>, order: &[u32]) -> Result<Vec<Op>, Fault> {
    let mut left = Vec::new(alloc);
    for op in ops {
        left.push(Some(op))?;
    }
    let mut list = Vec::new(alloc);
    for k in order {
        let place = left.get_mut(*k as usize).ok_or(Fault::Illegal)?;
        list.push(place.take().ok_or(Fault::Illegal)?)?;
    }
    Ok(list)
}

// The program with its operations in this order.
fn in_this_order(alloc: Global, program: Program, order: &[u32]) -> Result<Program, Fault> {
    let (qubits, bits) = (program.qubits(), program.bits());
    let mode = program.mode();
    let (machine, chains, ops) = program.into_parts();
    let ops = reordered(alloc, ops, order)?;
    if qubits > 256 || bits > 256 || chains.len() > 32 || ops.len() > MOST_OPS {
        return Err(Fault::Illegal);
    }
    let raw = RawProgram {
        qubits,
        bits,
        mode,
        chains,
        ops,
    };
    match load(alloc, machine, raw) {
        Ok(program) => Ok(program),
        Err(_) => Err(Fault::Illegal),
    }
}

fn is_same_content(one: &Content, other: &Content) -> bool {
    match (one, other) {
        (
            Content::Trap { chain, heat },
            Content::Trap {
                chain: ions,
                heat: warmth,
            },
        ) => { chain.as_slice() == ions.as_slice() && heat == warmth }
        (Content::Seg { rider }, Content::Seg { rider: ion }) => rider == ion,
        (Content::Junc { carry }, Content::Junc { carry: ion }) => carry == ion,
        (Content::Bit, Content::Bit) => true,
        _ => false,
    }
}

// Whether the entry of the reordered run is that of the run in order.
fn is_same_entry(one: &Done, other: &Done, order: &[u32]) -> bool {
    order.get(one.op as usize) == Some(&other.op)
        && one.start == other.start
        && one.finish == other.finish
}

fn is_same(one: &Cell, other: &Cell, order: &[u32]) -> bool {
    let (entries, others) = (one.log.as_slice(), other.log.as_slice());
    is_same_content(&one.content, &other.content)
        && one.free_at == other.free_at
        && entries.len() == others.len()
        && entries
            .iter()
            .zip(others)
            .all(|(entry, other)| is_same_entry(entry, other, order))
}

/// Whether a program's operations in this order leave the cells that they leave in the program's: what each
/// resource holds, its clock and its log. `again` is the program once more.
pub fn leaves_the_same(
    alloc: Global,
    again: Program,
    program: &Program,
    order: &[u32],
) -> Result<bool, Fault> {
    let again = in_this_order(alloc, again, order)?;
    let mut cells = again.first_cells(alloc)?;
    run_in_order(&again, &mut cells);
    let mut last = program.first_cells(alloc)?;
    run_in_order(program, &mut last);
    let (cells, last) = (cells.as_slice(), last.as_slice());
    Ok(
        cells.len() == last.len()
            && cells
                .iter()
                .zip(last)
                .all(|(one, other)| is_same(one, other, order)),
    )
}
