//! Sinks, and sending a whole text to one.

ghost use Rattle.std.specs.Prelude.{◌≡◌, ℕ, ◌≤◌, List, Option, IfOk, OnErr};
ghost use Rattle.qccd_io.specs.Faults.{Rose};
ghost use Rattle.qccd_io.specs.Sends.{Sends};
ghost use Rattle.qccd_io.specs.Sink.{TookFirst, Behind, nothing_behind, Further};

use crate::failed::Failed;

/// Where bytes go, in order.
pub trait Sink {
    // How many faults there were, which never falls.
    ghost faults: { Self → ℕ };

    // All bytes that it took so far, where it tells that; whether it tells never changes.
    ghost taken: { Self → Option (List ℕ) };

    // The references that it keeps, which stay the same, and how much it handed on through them.
    ghost behind: { Self → Behind } = { λ _. nothing_behind };

    /// Takes a prefix of the piece, and says how long it is: at least one of a piece that has
    /// any. Where it fails it took none, and its count of faults rose.
    fn write(&mut self, piece: &[u8]) -> Result<usize, Failed>
        ensures ok { IfOk result (λ n. TookFirst (taken self.old) (taken self.new) piece.now n) }
        ensures err { OnErr result ((taken self.new ≡ taken self.old)
            × Rose (faults self.old) (faults self.new)) }
        ensures count { faults self.old ≤ faults self.new }
        ensures further { Further (behind self.old) (behind self.new) };
}

/// Appends the whole text. Where it fails, a prefix of the text was appended and the count of
/// faults rose. It takes no memory.
pub fn send<S: Sink>(sink: &mut S, text: &[u8]) -> Result<(), Failed>
    ensures { Sends S.taken S.faults S.behind sink.old sink.new result text.now }
{
    let mut sent = 0;
    while sent < text.len() {
        sent += sink.write(&text[sent..])?;
    }
    Ok(())
}
