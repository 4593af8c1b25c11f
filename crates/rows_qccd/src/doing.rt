//! Doing a command over files in memory, and telling what came of it.

ghost use Rattle.std.specs.Prelude.{◌<◌, ◌≤◌, length, Some, IfOk};
ghost use Rattle.qccd_io.specs.Shelf.{NoneIsOut};
ghost use Rattle.qccd_io.specs.Stock.{holding_of};

use crate::script::{Fault, Files, Row};
use qccd_base::NoMemory;
use qccd_io::{FetchFault, MemShelf, MemSink, NoPost, fetch_all};
use qccd_top::run;
use std::alloc::Global;
use std::io::Write;
use std::thread::Threads;

/// How many bytes a command may write, of text and of messages.
const ROOM: usize = 1 << 24;

/// How many of them a write takes where something fails.
const PIECE: usize = 16;

/// How many bytes a write takes.
fn most_of(fault: Option<Fault>) -> usize
    ensures { 0 < result }
{
    match fault {
        Some(_) => PIECE,
        None => ROOM,
    }
}

/// The number of the call of the shelf that fails.
fn of_shelf(fault: Option<Fault>) -> Option<u32> {
    match fault {
        Some(Fault::Shelf(number)) => Some(number),
        _ => None,
    }
}

/// The number of the write of the text that fails.
fn of_text(fault: Option<Fault>) -> Option<u32> {
    match fault {
        Some(Fault::Text(number)) => Some(number),
        _ => None,
    }
}

/// The number of the write of messages that fails.
fn of_messages(fault: Option<Fault>) -> Option<u32> {
    match fault {
        Some(Fault::Messages(number)) => Some(number),
        _ => None,
    }
}

/// The number, where there is one.
fn listed(alloc: Global, number: Option<u32>) -> Result<Vec<u32>, NoMemory> {
    let mut numbers = Vec::new(alloc);
    if let Some(number) = number {
        numbers.push(number)?;
    }
    Ok(numbers)
}

/// A shelf that holds copies of the files, and whose calls of these numbers fail.
fn shelf_of(alloc: Global, files: &Files, failing: Vec<u32>) -> Result<MemShelf, NoMemory>
    ensures { IfOk result (λ s. NoneIsOut (Some (holding_of s))) }
{
    let mut held = Vec::new(alloc);
    if let Some(text) = &files.circuit {
        held.push((String::from_str(alloc, "a")?, Vec::from_slice(alloc, text)?))?;
    }
    if let Some(text) = &files.machine {
        held.push((String::from_str(alloc, "m")?, Vec::from_slice(alloc, text)?))?;
    }
    if let Some(text) = &files.program {
        held.push((String::from_str(alloc, "p")?, Vec::from_slice(alloc, text)?))?;
    }
    Ok(MemShelf::of(held, failing))
}

/// Whether the shelf holds this circuit, or none. One call that still fails is made good.
fn holds_still(alloc: Global, shelf: &mut MemShelf, circuit: &Option<Vec<u8>>) -> bool
    requires { NoneIsOut (Some (holding_of shelf.old)) }
{
    let first = fetch_all(alloc, shelf, "a", u32::MAX);
    let second = fetch_all(alloc, shelf, "a", u32::MAX);
    match (first.or(second), circuit) {
        (Ok(bytes), Some(wanted)) => bytes.as_slice() == wanted.as_slice(),
        (Err(FetchFault::ReadFault), None) => true,
        _ => false,
    }
}

/// The words between the blanks.
fn words_of(alloc: Global, line: &str) -> Result<Vec<String>, NoMemory> {
    let mut words = Vec::new(alloc);
    for word in line.split_whitespace() {
        words.push(String::from_str(alloc, word)?)?;
    }
    Ok(words)
}

/// Prints the command and what fails while it is done.
fn show_words<W: Write>(shown: &mut W, line: &str, fault: Option<Fault>) -> bool {
    let told = match fault {
        None => writeln!(shown, "$ {line}"),
        Some(Fault::Shelf(number)) => writeln!(shown, "$ {line} ! shelf {number}"),
        Some(Fault::Text(number)) => writeln!(shown, "$ {line} ! text {number}"),
        Some(Fault::Messages(number)) => writeln!(shown, "$ {line} ! messages {number}"),
    };
    told.is_ok()
}

/// Where the last line of a text begins.
fn last_line(text: &[u8]) -> usize
    ensures { result ≤ length text.now }
{
    let mut at = text.len().saturating_sub(1);
    while at > 0 && text[at - 1] != b'\n' {
        at -= 1;
    }
    at
}

/// Prints a text or, in brief, how many bytes it has and its last line.
fn show_text<W: Write>(shown: &mut W, text: &[u8], brief: bool) -> bool {
    if !brief {
        return shown.write_all(text).is_ok();
    }
    let count = text.len();
    writeln!(shown, "{count} bytes").is_ok() && shown.write_all(&text[last_line(text)..]).is_ok()
}

/// Does a command while this fails, and prints the command and what came of it. What it wrote is put in the place
/// of what the one before wrote.
fn show_once<R: AllocGlobal + Threads + Sync, W: Write>(
    rt: &R,
    row: &Row,
    fault: Option<Fault>,
    wrote: &mut Vec<u8>,
    shown: &mut W,
) -> Result<bool, NoMemory> {
    let alloc = rt.alloc();
    let words = words_of(alloc, row.words.as_str())?;
    let mut shelf = shelf_of(alloc, &row.files, listed(alloc, of_shelf(fault))?)?;
    let most = most_of(fault);
    let mut out = MemSink::of(alloc, ROOM, most, listed(alloc, of_text(fault))?)?;
    let mut err = MemSink::of(alloc, ROOM, most, listed(alloc, of_messages(fault))?)?;
    let status = run(rt, alloc, &words, &mut shelf, &mut out, &mut err, &NoPost);
    let same = holds_still(alloc, &mut shelf, &row.files.circuit);
    *wrote = Vec::from_slice(alloc, out.bytes())?;
    Ok(
        show_words(shown, row.words.as_str(), fault)
            && show_text(shown, out.bytes(), row.brief)
            && shown.write_all(err.bytes()).is_ok()
            && writeln!(shown, "status {}", status.0).is_ok()
            && (same || writeln!(shown, "the circuit's file changed").is_ok()),
    )
}

/// Does the row's command with each of its faults, or with none.
pub fn show<R: AllocGlobal + Threads + Sync, W: Write>(
    rt: &R,
    row: &Row,
    wrote: &mut Vec<u8>,
    shown: &mut W,
) -> Result<bool, NoMemory> {
    if row.faults.is_empty() {
        return show_once(rt, row, None, wrote, shown);
    }
    let mut told = true;
    for fault in &row.faults {
        told = show_once(rt, row, Some(*fault), wrote, shown)? && told;
    }
    Ok(told)
}
