//! Commands as the script has them.

use qccd_base::{NoMemory, read_number};
use std::alloc::Global;

/// What fails while a command is done: a call of the shelf, a write of the text or a write of messages, of this
/// number.
#[derive(Clone, Copy)]
pub enum Fault {
    Shelf(u32),
    Text(u32),
    Messages(u32),
}

/// The files that a command finds.
#[derive(Drop)]
pub struct Files {
    pub circuit: Option<Vec<u8>>,
    pub machine: Option<Vec<u8>>,
    pub program: Option<Vec<u8>>,
}

/// A command with the files that it finds.
#[derive(Drop)]
pub struct Row {
    pub words: String,
    pub files: Files,
    /// Whether the program's file is what the command before wrote.
    pub chained: bool,
    /// Whether the length and the last line of what it writes stand for the whole.
    pub brief: bool,
    /// The command is done once with each of these, and once with none where there is none.
    pub faults: Vec<Fault>,
}

/// Puts these lines behind a file's text so many times.
fn put_lines(
    alloc: Global,
    file: &mut Option<Vec<u8>>,
    lines: &str,
    times: u64,
) -> Result<(), NoMemory> {
    let mut text = file.take().unwrap_or(Vec::new(alloc));
    for _ in 0..times {
        for line in lines.split('|') {
            text.extend_from_slice(line.as_bytes())?;
            text.push(b'\n')?;
        }
    }
    *file = Some(text);
    Ok(())
}

/// Puts a text behind a file's text.
fn put_text(alloc: Global, file: &mut Option<Vec<u8>>, more: &str) -> Result<(), NoMemory> {
    let mut text = file.take().unwrap_or(Vec::new(alloc));
    text.extend_from_slice(more.as_bytes())?;
    *file = Some(text);
    Ok(())
}

/// Takes up a line of a command's files: what stands behind the file's name.
fn take_line(alloc: Global, file: &mut Option<Vec<u8>>, line: &str) -> Result<(), NoMemory> {
    if let Some(text) = line.strip_prefix("|") {
        return put_lines(alloc, file, text, 1);
    }
    if let Some(text) = line.strip_prefix(".|") {
        return put_text(alloc, file, text);
    }
    if let Some((times, lines)) = line.strip_prefix("*").and_then(|rest| rest.split_once("|")) {
        return put_lines(
            alloc,
            file,
            lines,
            read_number(times.as_bytes()).unwrap_or(0),
        );
    }
    put_lines(alloc, file, "", 0)
}

/// Takes up a line of faults: the word and the number behind the `!`.
fn take_faults(faults: &mut Vec<Fault>, line: &str) -> Result<(), NoMemory> {
    let (word, times) = line.split_once(" ").unwrap_or((line, ""));
    for number in 0..read_number(times.as_bytes()).unwrap_or(0) {
        let number = u32::try_from(number).unwrap_or(u32::MAX);
        faults.push(match word {
            "shelf" => Fault::Shelf(number),
            "text" => Fault::Text(number),
            _ => Fault::Messages(number),
        })?;
    }
    Ok(())
}

/// Takes up a line behind a command.
fn take(alloc: Global, row: &mut Row, line: &str) -> Result<(), NoMemory> {
    if line == "p<" {
        row.chained = true;
        return Ok(());
    }
    if line == "brief" {
        row.brief = true;
        return Ok(());
    }
    if let Some(rest) = line.strip_prefix("! ") {
        return take_faults(&mut row.faults, rest);
    }
    if let Some(rest) = line.strip_prefix("a") {
        return take_line(alloc, &mut row.files.circuit, rest);
    }
    if let Some(rest) = line.strip_prefix("m") {
        return take_line(alloc, &mut row.files.machine, rest);
    }
    match line.strip_prefix("p") {
        Some(rest) => take_line(alloc, &mut row.files.program, rest),
        None => Ok(()),
    }
}

/// A command of these words with no file.
fn begun(alloc: Global, words: &str) -> Result<Row, NoMemory> {
    Ok(Row {
        words: String::from_str(alloc, words)?,
        files: Files {
            circuit: None,
            machine: None,
            program: None,
        },
        chained: false,
        brief: false,
        faults: Vec::new(alloc),
    })
}

/// The rows of the script.
pub fn rows_of(alloc: Global, script: &str) -> Result<Vec<Row>, NoMemory> {
    let mut rows: Vec<Row> = Vec::new(alloc);
    for line in script.lines() {
        if let Some(words) = line.strip_prefix("$ ") {
            rows.push(begun(alloc, words)?)?;
        } else if let Some(row) = rows.last_mut() {
            take(alloc, row, line)?;
        }
    }
    Ok(rows)
}
