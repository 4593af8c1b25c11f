//! Does the commands of a script, each over files in memory, and prints what each writes, what it is told and
//! its status. The script has lines of these forms, those of a command's files and faults behind it:
//!
//! - `$ WORDS`: a command
//! - `a|TEXT`, `m|TEXT`, `p|TEXT`: a further line of its file `a`, `m` or `p`; without a bar, the file is there
//! - `a*N|TEXT|TEXT`: these lines, N times
//! - `a.|TEXT`: a further text that no line feed ends
//! - `p<`: the file `p` is what the command before wrote
//! - `brief`: of what the command writes, how many bytes it has and its last line stand for the whole
//! - `! shelf N`, `! text N`, `! messages N`: the command is done N times, and each time another one of the first
//!   N calls of the shelf, or writes of the text or of messages, fails; a write takes 16 bytes at most
#![tactic(auto)]

mod doing;
mod script;

use doing::show;
use qccd_base::NoMemory;
use script::rows_of;
use std::io::{Read, Write};
use std::process::ExitCode;
use std::thread::Threads;

/// Does all commands of the script.
fn show_all<R: AllocGlobal + Threads + Sync, W: Write>(
    rt: &R,
    script: &str,
    shown: &mut W,
) -> Result<bool, NoMemory> {
    let mut told = true;
    let mut wrote = Vec::new(rt.alloc());
    for mut row in rows_of(rt.alloc(), script)? {
        if row.chained {
            row.files.program = Some(Vec::from_slice(rt.alloc(), wrote.as_slice())?);
        }
        told = show(rt, &row, &mut wrote, shown)? && told;
    }
    Ok(told)
}

fn main(rt: HostRuntime) -> ExitCode {
    let mut script = String::new(rt.alloc());
    if rt.stdin().read_to_string(&mut script).is_err() {
        return ExitCode::from(2);
    }
    let mut shown = rt.stdout();
    match show_all(&rt, script.as_str(), &mut shown) {
        Ok(true) => ExitCode::from(0),
        Ok(false) => ExitCode::from(4),
        Err(NoMemory) => ExitCode::from(12),
    }
}
