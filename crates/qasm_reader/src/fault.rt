//! Why a text is refused.

ghost use Rattle.std.specs.Prelude.{◌≡◌};
ghost use Rattle.qasm_reader.specs.Kind.{kind_text, many_text};

use std::alloc::{AllocError, AllocFailed};
use std::fmt;
use thiserror::Error;

/// What there may be too many of.
#[derive(Clone, Copy, Debug, PartialEq, Eq, Hash)]
pub enum Many {
    /// Qubits of all registers.
    Qubits,
    /// Classical bits of all registers.
    Bits,
    /// Items of the circuit.
    Items,
    /// Bytes of an angle.
    AngleBytes,
}

/// What is wrong with a text.
#[derive(Clone, Copy, Debug, PartialEq, Eq, Hash)]
pub enum QasmKind {
    /// The text does not begin with `OPENQASM 2.0;`.
    Header,
    /// A byte that begins no word, number, string or sign.
    Token,
    /// A token that cannot stand where it stands, or the end of the text inside a statement.
    Syntax,
    /// An include of another file than `qelib1.inc`.
    UnknownInclude,
    /// A name that is taken already.
    DuplicateName,
    /// A name that stands for nothing.
    UnknownName,
    /// A quantum register where a classical one is asked for, or the other way round.
    WrongKind,
    /// An index that is not below the size of its register.
    IndexOut,
    /// Registers of one gate or measurement that are not of one size, or a measurement between a
    /// register and a cell.
    SizeMismatch,
    /// A gate on one qubit twice, or on a register and a cell of it.
    SameQubit,
    /// More or fewer angles than the gate takes.
    AngleCount,
    /// More or fewer operands than the gate takes.
    OperandCount,
    /// A register of no size.
    EmptyRegister,
    /// More of something than the limit.
    TooMany { what: Many, limit: u32 },
    /// A statement that is not built yet: one whose first word is `gate`, `opaque` or `if`.
    NotBuilt,
}

/// Why there is no circuit.
#[derive(Clone, Copy, Debug, PartialEq, Eq, Hash, Error)]
pub enum QasmFault {
    /// The text is refused for what stands at this byte, counted from 0.
    #[error("byte {at}: {kind}")]
    Refused { at: u32, kind: QasmKind },
    /// Memory ran out.
    #[error("no memory")]
    NoMemory,
}

impl fmt::Display for QasmKind {
    ghost use Rattle.std.specs.Prelude.{Some};
    ghost use Rattle.qasm_reader.specs.Kind.{kind_text};

    ghost output = { λ kind. Some (kind_text kind) };

    fn fmt<W: fmt::Write>(&self, f: &mut fmt::Formatter<W>) -> fmt::Result {
        f.write_str(self.text())
    }
}

impl From<AllocError> for QasmFault {
    ghost use Rattle.std.specs.Prelude.{◌≡◌};
    ghost use Rattle.qasm_reader.specs.declared.fault.QasmFault.TheVariants.{NoMemory};

    ghost from_gives = { λ _ e. e ≡ NoMemory };

    fn from(_refused: AllocError) -> QasmFault {
        QasmFault::NoMemory
    }
}

impl<T: Drop> From<AllocFailed<T>> for QasmFault {
    ghost use Rattle.std.specs.Prelude.{◌≡◌};
    ghost use Rattle.qasm_reader.specs.declared.fault.QasmFault.TheVariants.{NoMemory};

    ghost from_gives = { λ _ e. e ≡ NoMemory };

    fn from(_refused: AllocFailed<T>) -> QasmFault {
        QasmFault::NoMemory
    }
}

impl From<qccd_base::NoMemory> for QasmFault {
    ghost use Rattle.std.specs.Prelude.{◌≡◌};
    ghost use Rattle.qasm_reader.specs.declared.fault.QasmFault.TheVariants.{NoMemory};

    ghost from_gives = { λ _ e. e ≡ NoMemory };

    fn from(_refused: qccd_base::NoMemory) -> QasmFault {
        QasmFault::NoMemory
    }
}

impl QasmKind {
    /// The kind in words, without the byte and the limit. It takes no memory.
    pub fn text(&self) -> &'static str
        ensures { result.now ≡ kind_text self.now }
    {
        match self {
            QasmKind::Header => "header",
            QasmKind::Token => "token",
            QasmKind::Syntax => "syntax",
            QasmKind::UnknownInclude => "unknown include",
            QasmKind::DuplicateName => "name already used",
            QasmKind::UnknownName => "unknown name",
            QasmKind::WrongKind => "wrong kind of register",
            QasmKind::IndexOut => "index out of range",
            QasmKind::SizeMismatch => "sizes differ",
            QasmKind::SameQubit => "qubit used twice",
            QasmKind::AngleCount => "wrong number of angles",
            QasmKind::OperandCount => "wrong number of operands",
            QasmKind::EmptyRegister => "empty register",
            QasmKind::TooMany { what, .. } => too_many(*what),
            QasmKind::NotBuilt => "not built",
        }
    }
}

// That there is too much of this.
fn too_many(what: Many) -> &'static str
    ensures { result.now ≡ many_text what }
{
    match what {
        Many::Qubits => "too many qubits",
        Many::Bits => "too many bits",
        Many::Items => "too many items",
        Many::AngleBytes => "angle too long",
    }
}
