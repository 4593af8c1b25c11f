//! Parts as rows have them. A word is the capacity of a trap, as `2`, a segment, as `T0.right-J0`, or a number
//! by its name, as `junctions=2` or `move=5`. `*N` behind a word stands for N of them. What is not said
//! is no junction, and the usual times.

use qccd_base::{End, JuncId, Times, TrapId, read_number};
use qccd_machine::{Parts, Place};
use std::alloc::Global;
use std::io;

/// That a row can't be read.
pub fn unread() -> io::Error {
    io::ErrorKind::InvalidInput.into()
}

/// A number up to 255.
pub fn small(text: &str) -> Option<u8> {
    u8::try_from(read_number(text.as_bytes())?).ok()
}

/// The parts of these words.
pub fn read_parts(alloc: Global, text: &str) -> io::Result<Parts> {
    let mut parts = Parts {
        capacities: Vec::new(alloc),
        junctions: 0,
        segments: Vec::new(alloc),
        times: Times::usual(),
    };
    for words in text.split_whitespace() {
        let (word, times) = words.split_once("*").unwrap_or((words, "1"));
        for _ in 0..number(times)? {
            add_word(&mut parts, word)?;
        }
    }
    Ok(parts)
}

/// Takes up a word.
fn add_word(parts: &mut Parts, word: &str) -> io::Result<()> {
    if let Some((name, value)) = word.split_once("=") {
        set_number(parts, name, number(value)?)?;
    } else if let Some((first, second)) = word.split_once("-") {
        let ends = (
            place(first).ok_or(unread())?,
            place(second).ok_or(unread())?,
        );
        parts.segments.push(ends)?;
    } else {
        parts.capacities.push(number(word)?)?;
    }
    Ok(())
}

/// Sets the number of this name.
fn set_number(parts: &mut Parts, name: &str, value: u64) -> io::Result<()> {
    if name == "junctions" {
        parts.junctions = value;
        return Ok(());
    }
    let times = &mut parts.times;
    let time = match name {
        "split" => &mut times.split,
        "merge" => &mut times.merge,
        "move" => &mut times.shift,
        "cross2" => &mut times.cross2,
        "cross3" => &mut times.cross3,
        "cross4" => &mut times.cross4,
        "rot" => &mut times.rot,
        "gate1" => &mut times.gate1,
        "measure" => &mut times.measure,
        "reset" => &mut times.reset,
        "gate2" => &mut times.gate2,
        "between" => &mut times.between,
        _ => return Err(unread()),
    };
    *time = u32::try_from(value).ok().ok_or(unread())?;
    Ok(())
}

/// The place of this name, as `T0.left` or `J3`.
fn place(text: &str) -> Option<Place> {
    if let Some(junction) = text.strip_prefix("J") {
        return Some(Place::Junction(JuncId(small(junction)?)));
    }
    let (trap, end) = text.strip_prefix("T")?.split_once(".")?;
    let end = match end {
        "left" => End::Left,
        "right" => End::Right,
        _ => return None,
    };
    Some(Place::TrapEnd(TrapId(small(trap)?), end))
}

/// A number of a row.
pub fn number(text: &str) -> io::Result<u64> {
    read_number(text.as_bytes()).ok_or(unread())
}
