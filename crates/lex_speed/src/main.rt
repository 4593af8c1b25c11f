//! Counts the tokens of the circuit on standard input, for the measure of speed in `bench/`.
#![tactic(auto)]

use qasm_lex::lex;
use std::io::Read;
use std::process::ExitCode;

// The most bytes of a circuit.
const LIMIT: usize = 16777216;

fn main(rt: HostRuntime) -> ExitCode {
    let mut text = Vec::new(rt.alloc());
    if rt.stdin().read_to_end(&mut text).is_err() || text.len() > LIMIT {
        return ExitCode::from(2);
    }
    let tokens = match lex(rt.alloc(), text.as_slice()) {
        Ok(tokens) => tokens.len(),
        Err(_) => return ExitCode::from(1),
    };
    match println!(rt; "{tokens}") {
        Ok(()) => ExitCode::from(0),
        Err(_) => ExitCode::from(1),
    }
}
