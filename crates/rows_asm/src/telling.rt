//! What is told of a text.

use crate::fault::Fault;
use loader::LoadFault;
use op_table::Op;
use qccd_base::{IonList, Mode, number_text};
use qccd_io::{Failed, Sink, send, send_all, send_labelled};
use transport_asm::{AsmFault, OpFault, RawProgram, write_op};

/// Tells a chain.
fn tell_chain<S: Sink>(chain: &IonList, sink: &mut S) -> Result<(), Failed> {
    send(sink, b" /")?;
    for ion in chain.as_slice() {
        send_labelled(sink, b" ", ion.0.into())?;
    }
    Ok(())
}

/// Tells the chains.
fn tell_chains<S: Sink>(chains: &[IonList], sink: &mut S) -> Result<(), Failed> {
    for chain in chains {
        tell_chain(chain, sink)?;
    }
    Ok(())
}

/// Tells the operations.
fn tell_ops<S: Sink>(ops: &[Op], sink: &mut S) -> Result<(), Failed> {
    for op in ops {
        send(sink, b" ; ")?;
        write_op(op, sink)?;
    }
    Ok(())
}

/// Tells the mode, where there is one.
fn tell_mode<S: Sink>(mode: Option<Mode>, sink: &mut S) -> Result<(), Failed> {
    match mode {
        None => Ok(()),
        Some(Mode::IonSwap) => send(sink, b" mode ion"),
        Some(Mode::GateSwap) => send(sink, b" mode gate"),
    }
}

/// Tells what a text spells.
pub fn tell_raw<S: Sink>(raw: &RawProgram, sink: &mut S) -> Result<(), Failed> {
    send(sink, b" =")?;
    tell_mode(raw.mode, sink)?;
    send_labelled(sink, b" ", raw.qubits.into())?;
    send_labelled(sink, b" ", raw.bits.into())?;
    tell_chains(raw.chains.as_slice(), sink)?;
    tell_ops(raw.ops.as_slice(), sink)
}

/// Tells an operation that was read alone.
pub fn tell_op<S: Sink>(op: &Op, sink: &mut S) -> Result<(), Failed> {
    send(sink, b" = ")?;
    write_op(op, sink)
}

/// Tells why an operation was not read.
pub fn tell_op_fault<S: Sink>(fault: OpFault, sink: &mut S) -> Result<(), Fault> {
    match fault {
        OpFault::Refused { kind } => send_all(sink, &[b" ! ", kind.text().as_bytes()])?,
        OpFault::NoMemory => return Err(Fault::NoMemory),
    }
    Ok(())
}

/// Tells why a text was not read.
pub fn tell_fault<S: Sink>(fault: AsmFault, sink: &mut S) -> Result<(), Fault> {
    let AsmFault::Refused { line, kind } = fault else {
        return Err(Fault::NoMemory);
    };
    send_labelled(sink, b" ! ", line.into())?;
    send_all(sink, &[b" ", kind.text().as_bytes()])?;
    Ok(())
}

/// Tells how many parts of a text were not read for one reason.
pub fn tell_parts<S: Sink>(count: u64, fault: Option<AsmFault>, sink: &mut S) -> Result<(), Fault> {
    if count == 0 {
        return Ok(());
    }
    send_labelled(sink, b" ", count)?;
    send(sink, b"x")?;
    match fault {
        None => Ok(send(sink, b" read")?),
        Some(fault) => tell_fault(fault, sink),
    }
}

/// Tells why a program was not loaded.
pub fn tell_load_fault<S: Sink>(fault: LoadFault, sink: &mut S) -> Result<(), Fault> {
    if fault == LoadFault::NoMemory {
        return Err(Fault::NoMemory);
    }
    send_all(sink, &[b" ! ", fault.text().as_bytes()])?;
    Ok(())
}
