//! Short pieces of texts.

ghost use Rattle.std.specs.Prelude.{◌≡◌, ◌+◌, ◌≤◌, ◌++◌, [], length, decimal};

use itoa::write_digits;
use std::marker::Model;

/// How many bytes a piece has room for: a line with six numbers, a name of 64 bytes and labels.
const SIZE: usize = 288;

/// A short piece of a text, which is put together and then sent in one write. It is written from its
/// end to its front, as the digits of a number are found: so each goes to its place at once, and how many
/// they are need not be known before. Clauses see the text so far and the room in front of it.
#[derive(Drop)]
pub struct Piece {
    bytes: [u8; SIZE],
    // Where the text begins. It ends where the bytes end.
    at: usize,
}

impl Model for Piece {
    ghost use Rattle.std.specs.Prelude.{◌≤◌, drop};
    ghost use Rattle.qccd_io.specs.Piece.{PieceData};

    ghost Value = { PieceData };

    ghost view = { λ p. record { text = drop p.at p.bytes; room = p.at } };

    ghost invariant = { λ p. p.at ≤ 288 };
}

impl Piece {
    /// A piece with nothing in it.
    #[inline]
    pub fn new() -> Piece
        ensures { result ≡ record { text = []; room = 288 } }
    {
        Piece {
            bytes: [0; SIZE],
            at: SIZE,
        }
    }

    /// Takes all text out again, so that the piece serves for the next one.
    #[inline]
    pub fn clear(&mut self)
        ensures { self.new ≡ record { text = []; room = 288 } }
    {
        self.at = SIZE;
    }

    /// Puts the text in front.
    // Most texts are literals: inlined, a copy of a known length is a store or two.
    #[inline(always)]
    pub fn put(&mut self, text: &[u8])
        requires { length text.now ≤ self.old.room }
        ensures text { self.new.text ≡ text.now ++ self.old.text }
        ensures room { self.new.room + length text.now ≡ self.old.room }
    {
        let end = self.at;
        self.at -= text.len();
        self.bytes[self.at..end].copy_from_slice(text);
    }

    /// Puts the number's decimal text in front, which has twenty digits at most.
    #[inline]
    pub fn put_number(&mut self, n: u64)
        requires { 20 ≤ self.old.room }
        ensures text { self.new.text ≡ decimal n ++ self.old.text }
        ensures room { self.old.room ≤ self.new.room + 20 }
    {
        self.at = write_digits(n, &mut self.bytes, self.at);
    }

    /// Puts the label and the number's decimal text behind it in front.
    #[inline(always)]
    pub fn put_labelled(&mut self, label: &[u8], n: u64)
        requires { length label.now + 20 ≤ self.old.room }
        ensures text { self.new.text ≡ label.now ++ (decimal n ++ self.old.text) }
        ensures room { self.old.room ≤ self.new.room + (length label.now + 20) }
    {
        self.put_number(n);
        self.put(label);
    }

    /// The text so far.
    #[inline]
    pub fn as_slice(&self) -> &[u8]
        ensures { result.now ≡ self.now.text }
    {
        &self.bytes[self.at..]
    }
}
