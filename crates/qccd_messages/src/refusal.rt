//! Why a command is refused, and what is told then.

ghost use Rattle.std.specs.Prelude.{◌≡◌, ◌∷◌, [], codes, decimal};
ghost use Rattle.std.specs.List.{concat};
ghost use Rattle.qccd_io.specs.Sends.{Sends};
ghost use Rattle.qccd_messages.specs.Cause.{TooLarge, Shortage, TooLong, cause_of, status_of};
ghost use Rattle.qccd_messages.specs.Message.{message_of};

use loader::LoadFault;
use machine_text::TextFault;
use meaning_check::Verdict;
use qasm_reader::QasmKind;
use qccd_base::{NoMemory, number_text};
use qccd_io::{Failed, Sink, send, send_all};
use transport_asm::AsmKind;

const USAGE: &[u8] = b"\
usage: qccd run MACHINE CIRCUIT [--workers N] [--swap ion|gate]
       qccd compile MACHINE CIRCUIT [--swap ion|gate]
       qccd exec MACHINE PROGRAM [--workers N]
       qccd check MACHINE CIRCUIT PROGRAM
       qccd rehearse NUMBER QUBITS ITEMS MACHINE [--workers N]
       qccd tidy MACHINE PROGRAM
";

/// Why a command is refused.
#[derive(Clone, Copy, Debug, PartialEq, Eq)]
pub enum Refusal<'a> {
    /// The words are of no form that is known.
    Words,
    /// A file can't be read.
    Read { name: &'a str },
    /// What was to be written can't be.
    Write,
    /// A file has more bytes than the limit.
    TooLarge { name: &'a str, limit: u32 },
    /// The machine's text is refused for this fault.
    Machine { fault: TextFault },
    /// The circuit's text is refused for what stands at this byte, counted from 0.
    Circuit { at: u32, kind: QasmKind },
    /// The machine has too few places for the circuit's qubits.
    Shortage { qubits: u32, slots: u32 },
    /// The program might grow past its limit of 4,194,304 operations with the next item: after `done` of the
    /// circuit's items it has `ops` already.
    TooLong { done: u32, items: u32, ops: u32 },
    /// The program's text is refused for what stands on this line, counted from 1.
    Asm { line: u32, kind: AsmKind },
    /// What the program's text spells is no program of the machine.
    Load { fault: LoadFault },
    /// The program does not implement the circuit.
    NotSame { verdict: Verdict },
    /// Memory ran out.
    NoMemory,
}

impl<'a> From<NoMemory> for Refusal<'a> {
    ghost use Rattle.std.specs.Prelude.{◌≡◌};
    ghost use Rattle.qccd_messages.specs.declared.refusal.Refusal.TheVariants.{NoMemory};

    ghost from_gives = { λ _ r. r ≡ NoMemory };

    fn from(_refused: NoMemory) -> Refusal<'a> {
        Refusal::NoMemory
    }
}

impl Refusal<'_> {
    /// The status with which the program ends.
    pub fn status(&self) -> u8
        ensures { result ≡ status_of (cause_of self.now) }
    {
        match self {
            Refusal::Words => 2,
            Refusal::Read { .. } => 3,
            Refusal::Write => 4,
            Refusal::TooLarge { .. } => 5,
            Refusal::Machine { .. } => 6,
            Refusal::Circuit { .. } => 7,
            Refusal::Shortage { .. } => 8,
            Refusal::TooLong { .. } => 9,
            Refusal::Asm { .. } => 10,
            Refusal::Load { .. } => 10,
            Refusal::NotSame { .. } => 11,
            Refusal::NoMemory => 12,
        }
    }
}

/// Appends the refusal's message: a line that begins with the program's name or, for words of no
/// form that is known, the usage. Where it fails, a prefix of it was appended and the count of faults
/// rose. It takes no memory.
pub fn tell<E: Sink>(err: &mut E, refusal: &Refusal<'_>) -> Result<(), Failed>
    ensures { Sends E.taken E.faults E.behind err.old err.new result (message_of (cause_of refusal.now)) }
{
    match *refusal {
        Refusal::Words => send(err, USAGE),
        Refusal::Read { name } => tell_text(err, b"qccd: cannot read ", name),
        Refusal::Write => send(err, b"qccd: cannot write\n"),
        Refusal::TooLarge { name, limit } => tell_too_large(err, name, limit),
        Refusal::Machine { fault } => tell_text(err, b"qccd: machine: ", fault.text().as_str()),
        Refusal::Circuit { at, kind } => tell_at(err, b"qccd: circuit: byte ", at, kind.text()),
        Refusal::Shortage { qubits, slots } => tell_shortage(err, qubits, slots),
        Refusal::TooLong { done, items, ops } => tell_too_long(err, done, items, ops),
        Refusal::Asm { line, kind } => tell_at(err, b"qccd: program: line ", line, kind.text()),
        Refusal::Load { fault } => tell_text(err, b"qccd: program: ", fault.text().as_str()),
        Refusal::NotSame { verdict } => {
            tell_text(err, b"qccd: not the same: ", verdict.text().as_str())
        }
        Refusal::NoMemory => send(err, b"qccd: no memory\n"),
    }
}

/// A line of what is wrong and a name or a fault.
fn tell_text<E: Sink>(err: &mut E, label: &[u8], text: &str) -> Result<(), Failed>
    ensures { Sends E.taken E.faults E.behind err.old err.new result (concat (label.now ∷ text.now ∷ codes "\n" ∷ [])) }
{
    send_all(err, &[label, text.as_bytes(), b"\n"])
}

/// A line of a place in a text that is refused, and why.
fn tell_at<E: Sink>(err: &mut E, label: &[u8], place: u32, kind: &str) -> Result<(), Failed>
    ensures { Sends E.taken E.faults E.behind err.old err.new result (concat (label.now ∷ decimal place ∷ codes ": " ∷ kind.now ∷ codes "\n" ∷ [])) }
{
    let place = number_text(place.into());
    send_all(
        err,
        &[label, place.as_bytes(), b": ", kind.as_bytes(), b"\n"],
    )
}

fn tell_too_large<E: Sink>(err: &mut E, name: &str, limit: u32) -> Result<(), Failed>
    ensures { Sends E.taken E.faults E.behind err.old err.new result (message_of (TooLarge name.now limit)) }
{
    let limit = number_text(limit.into());
    send_all(
        err,
        &[
            b"qccd: ",
            name.as_bytes(),
            b" has more than ",
            limit.as_bytes(),
            b" bytes\n",
        ],
    )
}

fn tell_shortage<E: Sink>(err: &mut E, qubits: u32, slots: u32) -> Result<(), Failed>
    ensures { Sends E.taken E.faults E.behind err.old err.new result (message_of (Shortage qubits slots)) }
{
    let qubits = number_text(qubits.into());
    let slots = number_text(slots.into());
    send_all(
        err,
        &[
            b"qccd: ",
            qubits.as_bytes(),
            b" qubits, ",
            slots.as_bytes(),
            b" slots\n",
        ],
    )
}

fn tell_too_long<E: Sink>(err: &mut E, done: u32, items: u32, ops: u32) -> Result<(), Failed>
    ensures { Sends E.taken E.faults E.behind err.old err.new result (message_of (TooLong done items ops)) }
{
    let done = number_text(done.into());
    let items = number_text(items.into());
    let ops = number_text(ops.into());
    send_all(
        err,
        &[
            b"qccd: too long: ",
            done.as_bytes(),
            b" of ",
            items.as_bytes(),
            b" items took ",
            ops.as_bytes(),
            b" operations, the limit is 4194304\n",
        ],
    )
}
