//! What the lines of a script ask.

use claim_core::Event;
use qccd_base::{Bit, JuncId, Res, SegId, TrapId, read_number};

/// What a line asks.
#[derive(Clone, Copy, Debug, PartialEq, Eq)]
pub enum Ask {
    /// That an event is done.
    Act(Event),
    /// Which is the least operation that is not finished.
    Least,
    /// Whether an operation is enabled.
    Enabled(u32),
    /// In which orders operations commit.
    Interleavings,
}

// The number that a word is.
fn byte(word: &str) -> Option<u8> {
    u8::try_from(read_number(word.as_bytes())?).ok()
}

fn worker(word: &str) -> Option<u16> {
    u16::try_from(read_number(word.as_bytes())?).ok()
}

fn operation(word: &str) -> Option<u32> {
    u32::try_from(read_number(word.as_bytes())?).ok()
}

// The resource that a word names.
fn resource(word: &str) -> Option<Res> {
    if let Some(number) = word.strip_prefix("T") {
        Some(Res::Trap(TrapId(byte(number)?)))
    } else if let Some(number) = word.strip_prefix("S") {
        Some(Res::Seg(SegId(byte(number)?)))
    } else if let Some(number) = word.strip_prefix("J") {
        Some(Res::Junc(JuncId(byte(number)?)))
    } else {
        let number = word.strip_prefix("b")?;
        Some(Res::Bit(Bit(byte(number)?.into())))
    }
}

// The event of these words.
fn event(verb: &str, worker: u16, op: u32, res: Option<Res>) -> Option<Event> {
    match verb {
        "begin" => Some(Event::Begin { worker, op }),
        "reach" => Some(Event::Reach {
            worker,
            op,
            res: res?,
        }),
        "give" => Some(Event::Give {
            worker,
            op,
            res: res?,
        }),
        _ => None,
    }
}

// The event that a line tells.
fn event_of(line: &str) -> Option<Event> {
    let mut words = line.split_whitespace();
    let verb = words.next()?;
    let worker = worker(words.next()?)?;
    let op = operation(words.next()?)?;
    event(verb, worker, op, words.next().and_then(resource))
}

/// What a line asks, or nothing where it is of no form that is known.
pub fn asked(line: &str) -> Option<Ask> {
    if line == "least" {
        Some(Ask::Least)
    } else if line == "every interleaving" {
        Some(Ask::Interleavings)
    } else if let Some(op) = line.strip_prefix("enabled ") {
        Some(Ask::Enabled(operation(op)?))
    } else {
        Some(Ask::Act(event_of(line)?))
    }
}
