//! What holds of every text. Each function does nothing: its contract is the law.

ghost use Rattle.std.specs.Prelude.{◌≡◌, ◌≢◌, ◌↔◌, ◌⊎◌, ◌∷◌, ◌++◌, ℕ, IsTrue, List};
ghost use Rattle.std.specs.List.{list_all};
ghost use Rattle.qasm_lex.specs.declared.fault.LexFault.{LexFault};
ghost use Rattle.qasm_lex.specs.declared.tokens.Token.{Token};
ghost use Rattle.qasm_lex.specs.Reading.{AreTokens, IsFirstFault};
ghost use Rattle.qasm_lex.specs.Tokens.{BeginsNoToken, is_text_byte};

/// Each text has a list of tokens or a first fault.
pub fn every_text()
    ensures { (text : List ℕ) → ((ts : List Token) × AreTokens text ts) ⊎ ((fault : LexFault) × IsFirstFault text fault) }
{}

/// A text has one list of tokens at most.
pub fn one_list()
    ensures { (text : List ℕ) (ts others : List Token) → AreTokens text ts → AreTokens text others → ts ≡ others }
{}

/// A text is refused in one way at most.
pub fn one_refusal()
    ensures { (text : List ℕ) (fault other : LexFault) → IsFirstFault text fault → IsFirstFault text other → fault ≡ other }
{}

/// No text has a list of tokens and a fault.
pub fn not_both()
    ensures { (text : List ℕ) (ts : List Token) (fault : LexFault) → AreTokens text ts → IsFirstFault text fault → ⊥ }
{}

/// A quote begins no token exactly where no quote closes its string on its line.
pub fn open_string()
    ensures { (rest : List ℕ) → BeginsNoToken (34 ∷ rest)
        ↔ ((inner follows : List ℕ) → IsTrue (list_all is_text_byte inner) → rest ≢ inner ++ 34 ∷ follows) }
{}
