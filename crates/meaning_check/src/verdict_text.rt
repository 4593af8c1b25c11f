//! What is told of a verdict.

ghost use Rattle.std.specs.Prelude.{◌≡◌, ◌≤◌, ◌+◌, [], ◌∷◌, length, decimal};
ghost use Rattle.std.specs.List.{concat};
ghost use Rattle.meaning_check.specs.VerdictText.{verdict_text};

use crate::verdict::Verdict;
use arrayvec::ArrayString;
use qccd_base::{joined, number_text, numbered};
use std::fmt;

impl Verdict {
    /// What is told of the verdict, in one line without its end. It takes no memory.
    pub fn text(&self) -> ArrayString<80>
        ensures { result.bytes ≡ verdict_text self.now }
    {
        match *self {
            Verdict::Sizes => joined("numbers of qubits or bits differ", "", ""),
            Verdict::Differs { op, item } => {
                two_numbers("operation ", op.into(), " differs from item ", item.into())
            }
            Verdict::Missing(item) => numbered("item ", item.into(), " is missing"),
            Verdict::Order { first, second } => {
                two_numbers("item ", second.into(), " stands before item ", first.into())
            }
            Verdict::Same => joined("same", "", ""),
        }
    }
}

impl fmt::Display for Verdict {
    ghost use Rattle.std.specs.Prelude.{Some};
    ghost use Rattle.meaning_check.specs.VerdictText.{verdict_text};

    ghost output = { λ verdict. Some (verdict_text verdict) };

    fn fmt<W: fmt::Write>(&self, f: &mut fmt::Formatter<W>) -> fmt::Result {
        f.write_str(self.text().as_str())
    }
}

// A text and a number, twice. A number has twenty digits at most.
fn two_numbers(before: &str, first: u64, between: &str, second: u64) -> ArrayString<80>
    requires { length before.now + length between.now ≤ 40 }
    ensures { result.bytes ≡ concat (before.now ∷ decimal first ∷ between.now ∷ decimal second ∷ []) }
{
    let mut text = ArrayString::new();
    text.push_str(before);
    text.push_str(number_text(first).as_str());
    text.push_str(between);
    text.push_str(number_text(second).as_str());
    text
}
