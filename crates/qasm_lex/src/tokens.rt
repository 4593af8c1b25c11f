//! Tokens.

/// What a token is.
#[derive(Clone, Copy, Debug, PartialEq, Eq, Hash)]
pub enum TokenKind {
    /// A letter, then letters, digits and underscores.
    Word,
    /// Digits.
    Int,
    /// Digits with a point before, among or behind them, and perhaps an exponent; or digits and an
    /// exponent.
    Real,
    /// Bytes between two quotes, on one line.
    Text,
    /// `;`
    Semi,
    /// `,`
    Comma,
    /// `(`
    LParen,
    /// `)`
    RParen,
    /// `[`
    LBracket,
    /// `]`
    RBracket,
    /// `{`
    LBrace,
    /// `}`
    RBrace,
    /// `+`
    Plus,
    /// `-`
    Minus,
    /// `*`
    Times,
    /// `/`
    Over,
    /// `^`
    Power,
    /// `->`
    Arrow,
    /// `==`
    Equal,
}

/// A token: what it is, and where it stands in its text.
#[derive(Clone, Copy, Debug, PartialEq, Eq, Hash)]
pub struct Token {
    pub kind: TokenKind,
    /// Its first byte, counted from 0.
    pub start: u32,
    /// The byte behind its last one.
    pub end: u32,
}
