//! What the words of the command line ask for.

ghost use Rattle.std.specs.Prelude.{◌≡◌, ℕ, ◌≤◌, ◌↔◌, map, Some, IfSome, option_map, string_bytes, decimal};
ghost use Rattle.qccd_words.specs.Words.{asked, machine_asked, capacity_after, preset_named, machine_of, mode_named, number_named, options_of, check_of, compile_of, exec_of, rehearse_of, request_of, run_of, tidy_of, AreWorkers, HasCapacity, IsWithinLimits};

use qccd_base::{Mode, read_number};
use qccd_machine::Preset;

/// How many ions a trap holds at most, where the machine's word does not say.
const USUAL_CAPACITY: u8 = 16;

/// The greatest number that a circuit is made from, and how many qubits and items it has at most.
const GREATEST_NUMBER: u64 = 2147483647;

const MOST_QUBITS: u64 = 256;

const MOST_ITEMS: u64 = 65536;

/// How many workers run a program at most, and how many where the words do not say.
const MOST_WORKERS: u64 = 16;

const USUAL_WORKERS: u8 = 4;

/// How a qubit is brought to the end of its chain, where the words do not say.
const USUAL_MODE: Mode = Mode::IonSwap;

/// A machine, as a word names it.
#[derive(Clone, Copy, Debug, PartialEq, Eq, Hash)]
pub enum MachineWord<'a> {
    /// A machine that is known by name, and how many ions each of its traps holds at most: a number
    /// from 2 to 32.
    Preset(Preset, u8),
    /// The name of a file that describes the machine.
    File(&'a str),
}

/// What the words ask for.
#[derive(Clone, Copy, Debug, PartialEq, Eq, Hash)]
pub enum Command<'a> {
    /// Compile a circuit for a machine, and run the program.
    Run {
        machine: MachineWord<'a>,
        /// The name of the circuit's file.
        circuit: &'a str,
        /// How many workers run the program: 1 to 16.
        workers: u8,
        mode: Mode,
    },
    /// Compile a circuit for a machine, and write the text of the program.
    Compile {
        machine: MachineWord<'a>,
        /// The name of the circuit's file.
        circuit: &'a str,
        mode: Mode,
    },
    /// Run the program of a text on a machine.
    Exec {
        machine: MachineWord<'a>,
        /// The name of the program's file.
        program: &'a str,
        /// How many workers run the program: 1 to 16.
        workers: u8,
    },
    /// Compare the program of a text, on a machine, with a circuit.
    Check {
        machine: MachineWord<'a>,
        /// The name of the circuit's file.
        circuit: &'a str,
        /// The name of the program's file.
        program: &'a str,
    },
    /// Make a circuit from a number, compile it for a machine, and run the program.
    Rehearse {
        /// At most 2,147,483,647.
        number: u32,
        /// How many qubits the circuit has: 1 to 256.
        qubits: u16,
        /// How many items the circuit has: at most 65,536.
        items: u32,
        machine: MachineWord<'a>,
        /// How many workers run the program: 1 to 16.
        workers: u8,
    },
    /// Write the text of a program, on a machine, without the operations that undo each other.
    Tidy {
        machine: MachineWord<'a>,
        /// The name of the program's file.
        program: &'a str,
    },
}

/// What the words ask for, or `None` where they are of no form that is known. The words are those
/// after the program's own name. It takes no memory.
///
/// There are six forms: `run MACHINE CIRCUIT`, `compile MACHINE CIRCUIT`, `exec MACHINE PROGRAM`, `check MACHINE
/// CIRCUIT PROGRAM`, `rehearse NUMBER QUBITS ITEMS MACHINE`, with a number of at most 2,147,483,647, 1 to 256
/// qubits and at most 65,536 items, and `tidy MACHINE PROGRAM`. The machine is `@L6`, `@G2x3` or `@single`, or one of these with a colon and a
/// capacity from 2 to 32, or any word that does not begin with `@`, which is the name of a file. The circuit and the
/// program are any word as it stands. An empty word is the name of a file, too.
///
/// Options follow, in any order and each at most once: `--workers` with a number from 1 to 16 (4 if it is not given)
/// after `run`, `exec` and `rehearse`, and `--swap` with `ion` or `gate` (`ion` if it is not given) after `run` and
/// `compile`. No number has a sign or a leading zero.
pub fn request(words: &[String]) -> Option<Command<'_>>
    ensures asked { option_map asked result ≡ request_of (map string_bytes words.now) }
    ensures limits { IfSome result (λ c. IsWithinLimits (asked c)) }
{
    match words {
        [command, words @ ..] if command.as_str() == "run" => run_words(words),
        [command, words @ ..] if command.as_str() == "compile" => compile_words(words),
        [command, words @ ..] if command.as_str() == "exec" => exec_words(words),
        [command, words @ ..] if command.as_str() == "check" => check_words(words),
        [command, words @ ..] if command.as_str() == "rehearse" => rehearsal_words(words),
        [command, words @ ..] if command.as_str() == "tidy" => tidy_words(words),
        _ => None,
    }
}

// The run that the words after the first one ask for.
fn run_words(words: &[String]) -> Option<Command<'_>>
    ensures asked { option_map asked result ≡ run_of (map string_bytes words.now) }
    ensures limits { IfSome result (λ c. IsWithinLimits (asked c)) }
{
    let [machine, circuit, options @ ..] = words else {
        return None;
    };
    let machine = machine_word(machine.as_str())?;
    let (workers, mode) = option_words(options, None, None)?;
    Some(Command::Run {
        machine,
        circuit: circuit.as_str(),
        workers,
        mode,
    })
}

// The compiling that the words after the first one ask for.
fn compile_words(words: &[String]) -> Option<Command<'_>>
    ensures asked { option_map asked result ≡ compile_of (map string_bytes words.now) }
    ensures limits { IfSome result (λ c. IsWithinLimits (asked c)) }
{
    let [machine, circuit, options @ ..] = words else {
        return None;
    };
    let machine = machine_word(machine.as_str())?;
    let (_, mode) = option_words(options, Some(USUAL_WORKERS), None)?;
    Some(Command::Compile {
        machine,
        circuit: circuit.as_str(),
        mode,
    })
}

// The run of a program that the words after the first one ask for.
fn exec_words(words: &[String]) -> Option<Command<'_>>
    ensures asked { option_map asked result ≡ exec_of (map string_bytes words.now) }
    ensures limits { IfSome result (λ c. IsWithinLimits (asked c)) }
{
    let [machine, program, options @ ..] = words else {
        return None;
    };
    let machine = machine_word(machine.as_str())?;
    let (workers, _) = option_words(options, None, Some(USUAL_MODE))?;
    Some(Command::Exec {
        machine,
        program: program.as_str(),
        workers,
    })
}

// The comparison that the words after the first one ask for.
fn check_words(words: &[String]) -> Option<Command<'_>>
    ensures asked { option_map asked result ≡ check_of (map string_bytes words.now) }
    ensures limits { IfSome result (λ c. IsWithinLimits (asked c)) }
{
    match words {
        [machine, circuit, program] => Some(Command::Check {
            machine: machine_word(machine.as_str())?,
            circuit: circuit.as_str(),
            program: program.as_str(),
        }),
        _ => None,
    }
}

// The rehearsal that the words after the first one ask for.
fn rehearsal_words(words: &[String]) -> Option<Command<'_>>
    ensures asked { option_map asked result ≡ rehearse_of (map string_bytes words.now) }
    ensures limits { IfSome result (λ c. IsWithinLimits (asked c)) }
{
    let [number, qubits, items, machine, options @ ..] = words else {
        return None;
    };
    let number = number_word(number.as_str(), 0, GREATEST_NUMBER)?;
    let qubits = number_word(qubits.as_str(), 1, MOST_QUBITS)?;
    let items = number_word(items.as_str(), 0, MOST_ITEMS)?;
    let machine = machine_word(machine.as_str())?;
    let (workers, _) = option_words(options, None, Some(USUAL_MODE))?;
    Some(Command::Rehearse {
        number: number as u32,
        qubits: qubits as u16,
        items: items as u32,
        machine,
        workers,
    })
}

// The tidying that the words after the first one ask for.
fn tidy_words(words: &[String]) -> Option<Command<'_>>
    ensures asked { option_map asked result ≡ tidy_of (map string_bytes words.now) }
    ensures limits { IfSome result (λ c. IsWithinLimits (asked c)) }
{
    match words {
        [machine, program] => Some(Command::Tidy {
            machine: machine_word(machine.as_str())?,
            program: program.as_str(),
        }),
        _ => None,
    }
}

// The number in the range whose text the word is.
fn number_word(word: &str, low: u64, high: u64) -> Option<u64>
    ensures named { result ≡ number_named low high word.now }
    ensures within { IfSome result (λ n. (low ≤ n) × (n ≤ high)) }
{
    match read_number(word.as_bytes())? {
        number if low <= number && number <= high => Some(number),
        _ => None,
    }
}

// How many workers run a program and how a qubit comes to the end of its chain: by the options in the words, and by
// what was given of them before. An option that a command does not take is given before.
fn option_words(words: &[String], workers: Option<u8>, mode: Option<Mode>) -> Option<(u8, Mode)>
    requires workers { IfSome workers AreWorkers }
    ensures options { result ≡ options_of (map string_bytes words.now) workers mode }
    ensures workers { IfSome result (λ options. AreWorkers options.0) }
{
    match words {
        [] => Some((workers.unwrap_or(USUAL_WORKERS), mode.unwrap_or(USUAL_MODE))),
        [name, value, words @ ..] => match name.as_str() {
            "--workers" if workers.is_none() => {
                let workers = worker_word(value.as_str())?;
                option_words(words, Some(workers), mode)
            }
            "--swap" if mode.is_none() => {
                let mode = mode_word(value.as_str())?;
                option_words(words, workers, Some(mode))
            }
            _ => None,
        },
        _ => None,
    }
}

// The number of workers that the word names.
fn worker_word(word: &str) -> Option<u8>
    ensures named { result ≡ number_named 1 16 word.now }
    ensures within { IfSome result AreWorkers }
{
    let workers = number_word(word, 1, MOST_WORKERS)?;
    Some(workers as u8)
}

// The mode that the word names.
fn mode_word(word: &str) -> Option<Mode>
    ensures { result ≡ mode_named word.now }
{
    match word {
        "ion" => Some(Mode::IonSwap),
        "gate" => Some(Mode::GateSwap),
        _ => None,
    }
}

// The machine that the word names.
fn machine_word(word: &str) -> Option<MachineWord<'_>>
    ensures asked { option_map machine_asked result ≡ machine_of word.now }
    ensures capacity { IfSome result (λ m. HasCapacity (machine_asked m)) }
{
    if word.as_bytes().first() == Some(&b'@') {
        preset_word(word.as_bytes())
    } else {
        Some(MachineWord::File(word))
    }
}

// The machine that is known by the word.
fn preset_word<'a>(word: &[u8]) -> Option<MachineWord<'a>>
    ensures asked { option_map machine_asked result ≡ preset_named word.now }
    ensures capacity { IfSome result (λ m. HasCapacity (machine_asked m)) }
{
    if let Some(capacity) = capacity_word(b"@L6", word) {
        return Some(MachineWord::Preset(Preset::L6, capacity));
    }
    if let Some(capacity) = capacity_word(b"@G2x3", word) {
        return Some(MachineWord::Preset(Preset::G2x3, capacity));
    }
    let capacity = capacity_word(b"@single", word)?;
    Some(MachineWord::Preset(Preset::Single, capacity))
}

// The capacity that stands after the preset's name and a colon, or the usual one after the name alone.
fn capacity_word(name: &[u8], word: &[u8]) -> Option<u8>
    ensures capacity { result ≡ capacity_after name.now word.now }
    ensures within { IfSome result (λ n. (2 ≤ n) × (n ≤ 32)) }
{
    let rest = word.strip_prefix(name)?;
    if rest.is_empty() {
        return Some(USUAL_CAPACITY);
    }
    capacity(rest.strip_prefix(b":")?)
}

// The capacity whose decimal text this is.
fn capacity(digits: &[u8]) -> Option<u8>
    ensures exact { (n : ℕ) → 2 ≤ n → n ≤ 32 → (result ≡ Some n) ↔ (digits.now ≡ decimal n) }
    ensures some { IfSome result (λ n. (2 ≤ n) × (n ≤ 32) × (digits.now ≡ decimal n)) }
{
    match read_number(digits)? {
        number @ 2..=32 => Some(number as u8),
        _ => None,
    }
}
