//! The tokens of circuits, as texts in OpenQASM 2.0.
#![tactic(auto)]

mod fault;
mod gaps;
pub mod laws;
mod lexing;
mod longest;
mod numbers;
mod runs;
#[cfg(test)]
mod tests;
mod tokens;

pub use fault::LexFault;
pub use lexing::{check, lex, next_int, next_sign, next_token, next_word};
pub use tokens::{Token, TokenKind};
