//! Small writes gathered into large ones.

ghost use Rattle.std.specs.Prelude.{◌≡◌, ℕ, ◌<◌, ◌≤◌, ◌++◌, ◌∷◌, List, [], length, take, drop, true, false, IfOk, OnOk, OnErr};
ghost use Rattle.qccd_io.specs.Faults.{Rose};
ghost use Rattle.qccd_io.specs.Sends.{Sends};
ghost use Rattle.qccd_io.specs.Sink.{appended, known_length, Further, TookFirst};

use crate::failed::Failed;
use crate::sink::Sink;
use qccd_base::NoMemory;
use std::alloc::Global;
use std::marker::Model;

/// How many bytes a buffer has room for.
const ROOM: usize = 65536;

/// Room for bytes that wait to be handed on in one piece. Clauses see it as the bytes that wait.
#[derive(Drop)]
pub struct Buffer {
    bytes: Vec<u8>,
    // How many of the first of them went already. Once all went, none is kept.
    gone: usize,
}

impl Model for Buffer {
    ghost use Rattle.std.specs.Prelude.{◌≡◌, ◌<◌, ◌≤◌, ℕ, List, length, drop, vec_capacity};

    ghost Value = { List ℕ };

    ghost view = { λ b. drop b.gone b.bytes.items };

    ghost invariant = { λ b. (b.gone ≤ length b.bytes.items)
        × (length b.bytes.items ≤ b.gone → b.gone ≡ 0)
        × (0 < vec_capacity b.bytes) };
}

impl Buffer {
    /// A buffer with nothing in it. It takes all the memory that it ever needs.
    pub fn of(alloc: Global) -> Result<Buffer, NoMemory>
        ensures { IfOk result (λ b. b ≡ []) }
    {
        let bytes = Vec::with_capacity(alloc, ROOM)?;
        Ok(Buffer { bytes, gone: 0 })
    }

    /// The bytes that wait, in order.
    fn waiting(&self) -> &[u8]
        ensures { result.now ≡ self.now }
    {
        &self.bytes[self.gone..]
    }

    /// Adds the piece if there is room for all of it, and says whether there was.
    #[inline]
    fn gather_whole(&mut self, piece: &[u8]) -> bool
        ensures whole { result ≡ true → self.new ≡ self.old ++ piece.now }
        ensures none { result ≡ false → self.new ≡ self.old }
    {
        if piece.len() > self.bytes.capacity() - self.bytes.len() {
            return false;
        }
        if self.bytes.extend_from_slice(piece).is_err() {
            unreachable!();
        }
        true
    }

    /// Adds as many first bytes of the piece as there is room for, and says how many: at least one
    /// of a piece that has any, where nothing waits.
    fn gather(&mut self, piece: &[u8]) -> usize
        ensures within { result ≤ length piece.now }
        ensures bytes { self.new ≡ self.old ++ take result piece.now }
        ensures some { self.old ≡ [] → 0 < length piece.now → 0 < result }
    {
        let room = self.bytes.capacity() - self.bytes.len();
        let count = piece.len().min(room);
        if self.bytes.extend_from_slice(&piece[..count]).is_err() {
            unreachable!();
        }
        count
    }

    /// Lets the first bytes go.
    fn let_go(&mut self, count: usize)
        requires { count ≤ length self.old }
        ensures { self.new ≡ drop count self.old }
    {
        let gone = self.gone + count;
        if gone == self.bytes.len() {
            self.clear();
        } else {
            self.gone = gone;
        }
    }

    /// Lets all bytes go.
    fn clear(&mut self)
        ensures { self.new ≡ [] }
    {
        self.bytes.clear();
        self.gone = 0;
    }
}

/// A sink that gathers small pieces in a buffer and hands them on to another sink in large ones.
/// It took what the other took and then what waits in the buffer. What still waits when it is let
/// go without `finish` never reaches the other sink.
#[derive(Drop)]
pub struct Buffered<'a, S: Sink> {
    sink: &'a mut S,
    buffer: &'a mut Buffer,
}

impl<'a, S: Sink> Sink for Buffered<'a, S> {
    ghost use Rattle.std.specs.Prelude.{◌∷◌};
    ghost use Rattle.qccd_io.specs.Sink.{appended, known_length};

    ghost faults = { λ b. S.faults b.sink.now };

    ghost taken = { λ b. appended (S.taken b.sink.now) b.buffer.now };

    ghost behind = { λ b. record {
      names = b.sink.ghost_name ∷ (S.behind b.sink.now).names;
      handed = known_length (S.taken b.sink.now);
    } };

    // Nearly all pieces find room, so that what else there is to do stays out of their way.
    #[inline]
    fn write(&mut self, piece: &[u8]) -> Result<usize, Failed> {
        if self.buffer.gather_whole(piece) {
            return Ok(piece.len());
        }
        write_over(self.sink, self.buffer, piece)
    }
}

impl<'a, S: Sink> Buffered<'a, S> {
    /// A sink over the given one. What an earlier use left in the buffer is let go.
    pub fn of(buffer: &'a mut Buffer, sink: &'a mut S) -> Buffered<'a, S>
        ensures sink { result.sink.now ≡ sink.old }
        ensures same_reference { result.sink.ghost_name ≡ sink.entry.ghost_name }
        ensures empty { result.buffer.now ≡ [] }
    {
        buffer.clear();
        Buffered { sink, buffer }
    }

    /// Hands on what waits: the other sink then took all that was written since `of`. Where it
    /// fails, that sink took a prefix of what waited, and its count of faults rose.
    pub fn finish(self) -> Result<(), Failed>
        ensures { Sends S.taken S.faults S.behind self.entry.sink.now self.exit.0.now result self.entry.buffer.now }
    {
        let Buffered { sink, buffer } = self;
        hand_on(sink, buffer)
    }
}

/// Adds what there is room for of a piece, and hands on what waits where there is none.
#[cold]
fn write_over<S: Sink>(sink: &mut S, buffer: &mut Buffer, piece: &[u8]) -> Result<usize, Failed>
    ensures ok { IfOk result (λ n. TookFirst (appended (S.taken sink.old) buffer.old) (appended (S.taken sink.new) buffer.new) piece.now n) }
    ensures err { OnErr result ((appended (S.taken sink.new) buffer.new ≡ appended (S.taken sink.old) buffer.old)
        × Rose (S.faults sink.old) (S.faults sink.new)) }
    ensures count { S.faults sink.old ≤ S.faults sink.new }
    ensures handed { known_length (S.taken sink.old) ≤ known_length (S.taken sink.new) }
    ensures further { Further (S.behind sink.old) (S.behind sink.new) }
{
    let gathered = buffer.gather(piece);
    if gathered > 0 || piece.is_empty() {
        return Ok(gathered);
    }
    hand_on(sink, buffer)?;
    Ok(buffer.gather(piece))
}

/// Hands on what waits. Where it fails, what was not handed on waits still.
fn hand_on<S: Sink>(sink: &mut S, buffer: &mut Buffer) -> Result<(), Failed>
    ensures taken { appended (S.taken sink.new) buffer.new
        ≡ appended (S.taken sink.old) buffer.old }
    ensures ok { OnOk result (buffer.new ≡ []) }
    ensures err { OnErr result (Rose (S.faults sink.old) (S.faults sink.new)) }
    ensures count { S.faults sink.old ≤ S.faults sink.new }
    ensures handed { known_length (S.taken sink.old) ≤ known_length (S.taken sink.new) }
    ensures further { Further (S.behind sink.old) (S.behind sink.new) }
{
    while !buffer.waiting().is_empty() {
        let count = sink.write(buffer.waiting())?;
        buffer.let_go(count);
    }
    Ok(())
}
