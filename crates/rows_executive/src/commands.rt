//! The commands that are done.

ghost use Rattle.std.specs.Prelude.{Some, IfOk};
ghost use Rattle.qccd_io.specs.Shelf.{NoneIsOut};
ghost use Rattle.qccd_io.specs.Stock.{holding_of};

use qccd_base::NoMemory;
use qccd_io::{MemShelf, MemSink, Post};
use qccd_top::{Status, run};
use std::alloc::Global;
use std::thread::Threads;

/// What stands before a circuit's statements.
const HEAD: &str = "OPENQASM 2.0;include \"qelib1.inc\";";

/// How many bytes a command may write.
const ROOM: usize = 1 << 20;

/// What a command wrote, and its status.
#[derive(Drop)]
pub struct Wrote {
    pub status: Status,
    pub text: Vec<u8>,
}

// A shelf with the circuit of these statements.
fn shelf_of(alloc: Global, statements: &str) -> Result<MemShelf, NoMemory>
    ensures { IfOk result (λ s. NoneIsOut (Some (holding_of s))) }
{
    let mut text = Vec::from_slice(alloc, HEAD.as_bytes())?;
    text.extend_from_slice(statements.as_bytes())?;
    let mut held = Vec::new(alloc);
    held.push((String::from_str(alloc, "a")?, text))?;
    Ok(MemShelf::of(held, Vec::new(alloc)))
}

// The words between the blanks, and a number of workers behind them.
fn words_of(alloc: Global, line: &str, workers: Option<u8>) -> Result<Vec<String>, NoMemory> {
    let mut words = Vec::new(alloc);
    for word in line.split_whitespace() {
        words.push(String::from_str(alloc, word)?)?;
    }
    if let Some(workers) = workers {
        words.push(String::from_str(alloc, "--workers")?)?;
        words.push(format!(in alloc; "{workers}")?)?;
    }
    Ok(words)
}

/// Does the command of a row, perhaps by this many workers.
pub fn done<R: AllocGlobal + Threads + Sync, P: Post>(
    rt: &R,
    row: &str,
    workers: Option<u8>,
    post: &P,
) -> Result<Wrote, NoMemory> {
    let alloc = rt.alloc();
    let (words, statements) = row.split_once('|').unwrap_or((row, ""));
    let words = words_of(alloc, words, workers)?;
    let mut shelf = shelf_of(alloc, statements)?;
    let mut out = MemSink::of(alloc, ROOM, ROOM, Vec::new(alloc))?;
    let mut err = MemSink::of(alloc, ROOM, ROOM, Vec::new(alloc))?;
    let status = run(rt, alloc, &words, &mut shelf, &mut out, &mut err, post);
    let text = Vec::from_slice(alloc, out.bytes())?;
    Ok(Wrote { status, text })
}
