//! Counts the items of the circuit on standard input, for the measure of speed in `bench/`. Of a text that
//! is refused it tells the byte and the kind.
#![tactic(auto)]

use qasm_reader::{QasmFault, read};
use std::io::Read;
use std::process::ExitCode;

// The most bytes of a circuit.
const LIMIT: usize = 16777216;

fn main(rt: HostRuntime) -> ExitCode {
    let mut text = Vec::new(rt.alloc());
    if rt.stdin().read_to_end(&mut text).is_err() || text.len() > LIMIT {
        return ExitCode::from(2);
    }
    let told = match read(rt.alloc(), text.as_slice()) {
        Ok(circuit) => println!(rt; "{} items", circuit.items().len()),
        Err(QasmFault::Refused { at, kind }) => println!(rt; "byte {at}: {}", kind.text()),
        Err(QasmFault::NoMemory) => return ExitCode::from(12),
    };
    match told {
        Ok(()) => ExitCode::from(0),
        Err(_) => ExitCode::from(1),
    }
}
