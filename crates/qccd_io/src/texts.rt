//! Numbers and words as they stand in texts.

ghost use Rattle.std.specs.Prelude.{◌++◌, flat_map, decimal};
ghost use Rattle.qccd_io.specs.Sends.{Sends};

use crate::failed::Failed;
use crate::piece::Piece;
use crate::sink::{Sink, send};

/// How long a label is at most that goes to the sink together with its number.
const LONGEST_LABEL: usize = 64;

/// Appends the number's decimal text. Where it fails, a prefix of it was appended and the count of
/// faults rose. It takes no memory.
pub fn send_number<S: Sink>(sink: &mut S, n: u64) -> Result<(), Failed>
    ensures { Sends S.taken S.faults S.behind sink.old sink.new result (decimal n) }
{
    let mut piece = Piece::new();
    piece.put_number(n);
    send(sink, piece.as_slice())
}

/// Appends the label and then the number's decimal text, with the same promises.
#[tactic(auto, using(crate::proofs::Appended::sends))]
pub fn send_labelled<S: Sink>(sink: &mut S, label: &[u8], n: u64) -> Result<(), Failed>
    ensures { Sends S.taken S.faults S.behind sink.old sink.new result (label.now ++ decimal n) }
{
    if label.len() > LONGEST_LABEL {
        send(sink, label)?;
        return send_number(sink, n);
    }
    let mut piece = Piece::new();
    piece.put_labelled(label, n);
    send(sink, piece.as_slice())
}

/// Appends the pieces, one after another, with the same promises.
pub fn send_all<S: Sink>(sink: &mut S, pieces: &[&[u8]]) -> Result<(), Failed>
    ensures { Sends S.taken S.faults S.behind sink.old sink.new result (flat_map (λ piece. piece.now) pieces.now) }
{
    for piece in pieces {
        send(sink, piece)?;
    }
    Ok(())
}
