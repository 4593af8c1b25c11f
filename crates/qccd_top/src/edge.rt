//! What the program does around the top call: it takes its words from the system, and gives the
//! status to it.

ghost use Rattle.std.specs.Prelude.{◌≡◌, IfOk, IfErr};
ghost use Rattle.std.specs.Process.{exit_status};
ghost use Rattle.qccd_io.specs.Shelf.{NoneIsOut};
ghost use Rattle.qccd_io.specs.Sink.{Further};
ghost use Rattle.qccd_top.specs.Call.{call_of, output};
ghost use Rattle.qccd_top.specs.Promises.{Promises};

use crate::top::run;
use qccd_base::NoMemory;
use qccd_io::{FileShelf, NoPost, Shelf, Sink, StdSink};
use qccd_messages::{Refusal, tell};
use std::env;
use std::io::{ErrorKind, Write};
use std::process::ExitCode;
use std::rt::{Env, Files};
use std::thread::Threads;

/// Does what the words after the program's own name ask for, over the files of the system, and gives
/// what the program ends with. The two streams are standard output and standard error.
pub fn start<R: Threads + Sync + Files + Env + AllocGlobal, O: Write + Drop, E: Write + Drop>(
    rt: &R,
    out: O,
    err: E,
) -> ExitCode {
    let mut shelf = FileShelf::of(rt);
    let mut out = StdSink::of(out);
    let mut err = StdSink::of(err);
    finish(rt, words_of(rt), &mut shelf, &mut out, &mut err)
}

/// Does what the words ask for, over any shelf and sinks, and gives what the program ends with: all that
/// `run` promises of its status holds of the system's status. Without memory for the words it says so, and
/// ends with 12.
fn finish<R: Threads + Sync + AllocGlobal, F: Shelf, O: Sink, E: Sink>(
    rt: &R,
    words: Result<Vec<String>, NoMemory>,
    shelf: &mut F,
    out: &mut O,
    err: &mut E,
) -> ExitCode
    requires { NoneIsOut (F.told shelf.old) }
    ensures promises { IfOk words (λ w. Promises (call_of F.told F.faults w.items shelf.old shelf.new (output O.taken O.faults out.old out.new)) (output E.taken E.faults err.old err.new) (exit_status result)) }
    ensures same { F.told shelf.new ≡ F.told shelf.old }
    ensures err_further { Further (E.behind err.old) (E.behind err.new) }
    ensures memory { IfErr words (λ e. (exit_status result ≡ 12) × (O.taken out.new ≡ O.taken out.old)) }
{
    let Ok(words) = words else {
        let refusal = Refusal::NoMemory;
        let _told = tell(err, &refusal);
        return ExitCode::from(refusal.status());
    };
    let status = run(rt, rt.alloc(), words.as_slice(), shelf, out, err, &NoPost);
    ExitCode::from(status.0)
}

/// The words after the program's own name. An argument that is not UTF-8 makes a command line of no
/// known form: then there are no words.
fn words_of(rt: &(impl Env + AllocGlobal)) -> Result<Vec<String>, NoMemory> {
    match env::args(rt) {
        Ok(args) => Ok(args.skip(1).collect(rt.alloc())?),
        Err(error) if error.kind() == ErrorKind::OutOfMemory => Err(NoMemory),
        Err(_) => Ok(Vec::new(rt.alloc())),
    }
}
