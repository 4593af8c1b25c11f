//! How many bytes files have at most.

/// Of the text of a machine.
pub const MACHINE_LIMIT: u32 = 1_048_576;

/// Of the text of a circuit.
pub const CIRCUIT_LIMIT: u32 = 16_777_216;

/// Of the text of a program.
pub const PROGRAM_LIMIT: u32 = 268_435_456;
