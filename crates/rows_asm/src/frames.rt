//! What stands around the text of a row, and what is done with it.

use qccd_machine::Preset;

/// What is done with a text.
#[derive(Clone, Copy)]
pub enum Task {
    Read,
    /// Each part that begins it is read.
    Cut,
    /// It is read as an operation.
    ReadAlone,
    /// It is read, and loaded on this machine.
    Load(Preset),
}

/// What stands before a text and behind it, and what is done with it.
#[derive(Clone, Copy)]
pub struct Frame {
    pub before: &'static str,
    pub behind: &'static str,
    pub task: Task,
}

/// Up to the only operation, on four ions in two traps.
const BEFORE_OP: &str = "QCCD 1~qubits 4~bits 2~traps 2~T0 0 1 2~T1 3~ops 1~";

/// Up to the only chain.
const BEFORE_CHAIN: &str = "QCCD 1~qubits 1~bits 0~traps 1~";

/// Up to the number of qubits.
const BEFORE_QUBITS: &str = "QCCD 1~qubits ";

/// Up to the number of operations, on three ions in the first two of six traps.
const BEFORE_OPS: &str = "QCCD 1~qubits 3~bits 2~traps 6~T0 0~T1 1 2~T2~T3~T4~T5~ops ";

/// The same in programs that name their mode.
const IN_MODE_ION: &str = "QCCD 2~mode ion~qubits 3~bits 2~traps 6~T0 0~T1 1 2~T2~T3~T4~T5~ops ";

const IN_MODE_GATE: &str = "QCCD 2~mode gate~qubits 3~bits 2~traps 6~T0 0~T1 1 2~T2~T3~T4~T5~ops ";

/// Behind the last chain.
const WITHOUT_OPS: &str = "~ops 0~end~";

/// Behind the last operation.
const END: &str = "~end~";

/// The frame of the texts behind this word.
pub fn frame_of(word: &str) -> Option<Frame> {
    let (before, behind, task) = match word {
        "text" => ("", "", Task::Read),
        "cuts" => ("", "", Task::Cut),
        "alone" => ("", "", Task::ReadAlone),
        "op" => (BEFORE_OP, END, Task::Read),
        "chain" => (BEFORE_CHAIN, WITHOUT_OPS, Task::Read),
        "single" => (BEFORE_QUBITS, WITHOUT_OPS, Task::Load(Preset::Single)),
        "six" => (BEFORE_QUBITS, WITHOUT_OPS, Task::Load(Preset::L6)),
        "line" => (BEFORE_OPS, END, Task::Load(Preset::L6)),
        "ion" => (IN_MODE_ION, END, Task::Load(Preset::L6)),
        "gate" => (IN_MODE_GATE, END, Task::Load(Preset::L6)),
        "grid" => (BEFORE_OPS, END, Task::Load(Preset::G2x3)),
        _ => return None,
    };
    Some(Frame {
        before,
        behind,
        task,
    })
}
