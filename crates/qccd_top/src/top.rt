//! From the words to the status.

ghost use Rattle.std.specs.Prelude.{◌≡◌};
ghost use Rattle.qccd_io.specs.Sink.{Further};
ghost use Rattle.qccd_io.specs.Shelf.{NoneIsOut};
ghost use Rattle.qccd_top.specs.Call.{call_of, output};
ghost use Rattle.qccd_top.specs.Promises.{Promises};

use crate::answer::answer;
use crate::crew::Crew;
use qccd_io::{Post, Shelf, Sink};
use qccd_messages::tell;
use std::alloc::Global;
use std::thread::Threads;

/// What the program ends with: 0 where the whole text was written, and else the number of what went
/// wrong.
#[derive(Clone, Copy, Debug, PartialEq, Eq, Hash)]
pub struct Status(pub u8);

/// Does what the words ask for, and says with which status the program ends. The words are those
/// after the program's own name. A program is run by as many workers as they say, each in a thread of its own, and
/// `post` is told each operation that a worker does. What they leave is done by the caller, without telling it.
///
/// With status 0 `out` took the report, the text of a program, tidied or not, that a program is the same as a circuit,
/// or the summary of a rehearsal. With 4 a write failed, and `out` took a prefix of it; with any other status it
/// took nothing. `err` is told why: 2 the words are of no form that is known, 3 a file could not be read, 5
/// it has too many bytes, 6 the machine's file is refused, 7 the circuit's file is refused, 8 the machine
/// takes fewer qubits, 9 the program might grow past its limit with the next item, 10 the program's file is
/// refused, 11 the program is not the same as the circuit, 12 out of memory. They are looked for in this order:
/// words; the machine's file and the machine; the circuit's file and the circuit; its qubits; the program's
/// length; the program's file and the program; the comparison; the writing. A fault of `err` changes no status.
pub fn run<R: Threads + Sync, F: Shelf, O: Sink, E: Sink, P: Post>(
    rt: &R,
    alloc: Global,
    words: &[String],
    shelf: &mut F,
    out: &mut O,
    err: &mut E,
    post: &P,
) -> Status
    requires { NoneIsOut (F.told shelf.old) }
    // What each status says of what was written and told, command by command, is in `Promises`.
    ensures promises { Promises (call_of F.told F.faults words.now shelf.old shelf.new (output O.taken O.faults out.old out.new)) (output E.taken E.faults err.old err.new) result.0 }
    // The shelf tells the same afterwards, and `err` keeps its references.
    ensures same { F.told shelf.new ≡ F.told shelf.old }
    ensures err_further { Further (E.behind err.old) (E.behind err.new) }
{
    let crew = Crew { rt, alloc, post };
    match answer(&crew, words, shelf, out) {
        Ok(()) => Status(0),
        Err(refusal) => {
            let status = refusal.status();
            // A fault of the message changes no status.
            let _told = tell(err, &refusal);
            Status(status)
        }
    }
}
