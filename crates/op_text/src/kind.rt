//! Why a text is refused, and in which word.

ghost use Rattle.std.specs.Prelude.{◌≡◌};
ghost use Rattle.op_text.specs.KindText.{asm_kind_text};

use std::fmt;

/// Why a text is no program's, or no operation's.
#[derive(Clone, Copy, Debug, PartialEq, Eq, PartialOrd, Ord, Hash)]
pub enum AsmKind {
    /// The first line is not `QCCD`, a space and digits.
    Header,
    /// A word is not the stated one, is missing or is one too many, or the words break the rule of
    /// items or the order of traps or positions.
    Word,
    /// Digits with a leading zero, or a number above the limit of its word.
    Number,
    /// A line that no line feed ends, that is missing or that follows the end, or another number than
    /// the next.
    Count,
    /// A version other than 1, or a condition behind an item.
    NotBuilt,
    /// A number of qubits, bits, traps or operations, ions on a line, a name, an angle or the number
    /// of angles past the limit.
    TooMany,
}

impl AsmKind {
    /// The kind in words, without the line. It takes no memory.
    pub fn text(&self) -> &'static str
        ensures { result.now ≡ asm_kind_text self.now }
    {
        match self {
            AsmKind::Header => "header",
            AsmKind::Word => "word",
            AsmKind::Number => "number",
            AsmKind::Count => "count",
            AsmKind::NotBuilt => "not built",
            AsmKind::TooMany => "too many",
        }
    }
}

impl fmt::Display for AsmKind {
    ghost use Rattle.std.specs.Prelude.{Some};
    ghost use Rattle.op_text.specs.KindText.{asm_kind_text};

    ghost output = { λ kind. Some (asm_kind_text kind) };

    fn fmt<W: fmt::Write>(&self, f: &mut fmt::Formatter<W>) -> fmt::Result {
        f.write_str(self.text())
    }
}
