//! The tokens of a text, one after another.

ghost use Rattle.std.specs.Prelude.{◌≤◌, length};

use qasm_lex::{TokenKind, next_int, next_sign, next_token, next_word};

/// A text and a place in it, from which on its tokens are still to come. Each is cut from the text when it is asked
/// for, so no list of them is held.
#[derive(Clone, Copy)]
pub(crate) struct Cursor<'a> {
    pub(crate) text: &'a [u8],
    pub(crate) place: usize,
    ghost short: { length text.now ≤ 16777216 },
    ghost within: { place ≤ length text.now },
}

/// A token with its bytes.
#[derive(Clone, Copy)]
pub(crate) struct Piece<'a> {
    pub(crate) kind: TokenKind,
    pub(crate) at: u32,
    pub(crate) bytes: &'a [u8],
}

impl<'a> Cursor<'a> {
    ghost use Rattle.std.specs.Prelude.{◌≡◌, ◌<◌, ◌-◌, ◌∷◌, [], IfNone, IfSome, IsTrue, false, length, true};
    ghost use Rattle.qasm_lex.specs.Fronts.{begins_alone};
    ghost use Rattle.qasm_lex.specs.Tokens.{IsToken};
    ghost use Rattle.qasm_reader.specs.Lexeme.{has_angle_bytes, is};
    ghost use Rattle.qasm_reader.specs.Code.{ahead, begins, seen};
    ghost use Rattle.qasm_lex.specs.declared.tokens.TokenKind.TheVariants as token;

    /// The next token, and those behind it. Where no token begins, a string of one quote is told. It can stand nowhere, so
    /// a text that is read to its end has a list of tokens.
    pub(crate) fn next(&self) -> Option<(Piece<'a>, Cursor<'a>)>
        ensures some { IfSome result (λ p. ahead self.now ≡ seen p.0 ∷ ahead p.1) }
        ensures shorter { IfSome result (λ p. length (ahead p.1) < length (ahead self.now)) }
        ensures some_bytes { IfSome result (λ p. 0 < length p.0.bytes.now) }
        ensures angle_bytes { IfSome result (λ p. IsTrue (has_angle_bytes (seen p.0))) }
        ensures same { IfSome result (λ p. p.1.text.now ≡ self.now.text.now) }
        ensures none { IfNone result (ahead self.now ≡ []) }
    {
        match next_token(self.text, self.place) {
            Ok(None) => None,
            Ok(Some(token)) => {
                let piece = Piece {
                    kind: token.kind,
                    at: token.start,
                    bytes: &self.text[token.start as usize..token.end as usize],
                };
                Some((
                    piece,
                    Cursor {
                        text: self.text,
                        place: token.end as usize,
                    },
                ))
            }
            Err(_) => {
                let piece = Piece {
                    kind: TokenKind::Text,
                    at: 0,
                    bytes: b"\"",
                };
                Some((
                    piece,
                    Cursor {
                        text: self.text,
                        place: self.text.len(),
                    },
                ))
            }
        }
    }

    /// What stands behind the next token, if that is of this kind: the kind of a byte with which no other token begins.
    #[inline(always)]
    pub(crate) fn next_sign(&self, kind: TokenKind, byte: u8) -> Option<Cursor<'a>>
        requires sign { IsToken kind (byte ∷ []) }
        requires alone { IsTrue (begins_alone byte) }
        ensures some { IfSome result (λ rest. ahead self.now ≡ record { kind = kind; at = rest.place - 1; bytes = byte ∷ [] } ∷ ahead rest) }
        ensures shorter { IfSome result (λ rest. length (ahead rest) < length (ahead self.now)) }
        ensures same { IfSome result (λ rest. rest.text.now ≡ self.now.text.now) }
        ensures none { IfNone result (begins kind (ahead self.now) ≡ false) }
    {
        match next_sign(self.text, self.place, kind, byte) {
            Some(token) => Some(Cursor {
                text: self.text,
                place: token.end as usize,
            }),
            None => None,
        }
    }

    /// The next token, and those behind it, if it is a word.
    #[inline(always)]
    pub(crate) fn next_word(&self) -> Option<(Piece<'a>, Cursor<'a>)>
        ensures some { IfSome result (λ p. ahead self.now ≡ seen p.0 ∷ ahead p.1) }
        ensures kind { IfSome result (λ p. p.0.kind ≡ token.Word) }
        ensures shorter { IfSome result (λ p. length (ahead p.1) < length (ahead self.now)) }
        ensures same { IfSome result (λ p. p.1.text.now ≡ self.now.text.now) }
        ensures none { IfNone result (begins token.Word (ahead self.now) ≡ false) }
    {
        match next_word(self.text, self.place) {
            Some(token) => {
                let piece = Piece {
                    kind: token.kind,
                    at: token.start,
                    bytes: &self.text[token.start as usize..token.end as usize],
                };
                Some((
                    piece,
                    Cursor {
                        text: self.text,
                        place: token.end as usize,
                    },
                ))
            }
            None => None,
        }
    }

    /// The next token, and those behind it, if it is an integer.
    #[inline(always)]
    pub(crate) fn next_int(&self) -> Option<(Piece<'a>, Cursor<'a>)>
        ensures some { IfSome result (λ p. ahead self.now ≡ seen p.0 ∷ ahead p.1) }
        ensures kind { IfSome result (λ p. p.0.kind ≡ token.Int) }
        ensures shorter { IfSome result (λ p. length (ahead p.1) < length (ahead self.now)) }
        ensures same { IfSome result (λ p. p.1.text.now ≡ self.now.text.now) }
        ensures none { IfNone result (begins token.Int (ahead self.now) ≡ false) }
    {
        match next_int(self.text, self.place) {
            Some(token) => {
                let piece = Piece {
                    kind: token.kind,
                    at: token.start,
                    bytes: &self.text[token.start as usize..token.end as usize],
                };
                Some((
                    piece,
                    Cursor {
                        text: self.text,
                        place: token.end as usize,
                    },
                ))
            }
            None => None,
        }
    }

    /// The place behind the last byte.
    pub(crate) fn end(&self) -> u32
        ensures { result ≡ length self.now.text.now }
    {
        self.text.len() as u32
    }
}
