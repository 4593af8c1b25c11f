//! What holds of program texts. Each function does nothing: its contract is the law.

ghost use Rattle.std.specs.Prelude.{◌≡◌, ◌⊎◌, List, ℕ, Ok};
ghost use Rattle.op_table.specs.declared.kinds.OpKind.{OpKind};
ghost use Rattle.qccd_program.specs.Program.{ProgramData};
ghost use Rattle.op_text.specs.OpText.{op_text};
ghost use Rattle.transport_asm.specs.Lines.{Refusal, words_of, line_text};
ghost use Rattle.op_text.specs.Operations.{op_words, read_op};
ghost use Rattle.transport_asm.specs.Texts.{RawData, Spells, IsRefusedAt, raw_text};
ghost use Rattle.transport_asm.specs.ProgramText.{program_text, spelled};
ghost use Rattle.transport_asm.specs.Writable.{IsWritable, IsWritableRaw};

/// The text of a raw program that has one spells it.
pub fn read_back()
    ensures { (raw : RawData) → IsWritableRaw raw → Spells (raw_text raw) raw }
{}

/// A text that spells a raw program is the only one that does, and the program has a text.
pub fn one_text()
    ensures { (text : List ℕ) (raw : RawData) → Spells text raw → (text ≡ raw_text raw) × IsWritableRaw raw }
{}

/// Each text spells a raw program or is refused.
pub fn every_text()
    ensures { (text : List ℕ) → ((raw : RawData) × Spells text raw) ⊎ ((refusal : Refusal) × IsRefusedAt text refusal) }
{}

/// And not both, nor two of either.
pub fn one_answer()
    ensures raw { (text : List ℕ) (a b : RawData) → Spells text a → Spells text b → a ≡ b }
    ensures refusal { (text : List ℕ) (a b : Refusal) → IsRefusedAt text a → IsRefusedAt text b → a ≡ b }
    ensures not_both { (text : List ℕ) (raw : RawData) (refusal : Refusal) → Spells text raw → IsRefusedAt text refusal → ⊥ }
{}

/// The text of an operation is its words, with a space between each two.
pub fn op_joined()
    ensures { (op : OpKind) → op_text op ≡ line_text (op_words op) }
{}

/// The text of an operation that has one is read as it.
pub fn op_read_back()
    ensures { (op : OpKind) → IsWritable op → read_op (words_of (op_text op)) ≡ Ok op }
{}

/// A text that is read as an operation is its only text, and the operation has a text.
pub fn op_one_text()
    ensures { (text : List ℕ) (op : OpKind) → read_op (words_of text) ≡ Ok op → (text ≡ op_text op) × IsWritable op }
{}

/// The text of a program that has one is read as its numbers, start chains and operations.
pub fn program_read_back()
    ensures { (p : ProgramData) → IsWritableRaw (spelled p) → Spells (program_text p) (spelled p) }
{}
