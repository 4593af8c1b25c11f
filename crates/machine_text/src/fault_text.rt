//! What is told of a fault.

ghost use Rattle.std.specs.Prelude.{◌≡◌};
ghost use Rattle.machine_text.specs.FaultText.{field_name, table_name, text_fault_text};

use crate::fault::{Part, Spot, TextFault};
use arrayvec::ArrayString;
use qccd_base::{joined, numbered};
use qccd_machine::time_name;

impl TextFault {
    /// What is told of the fault, in one line without its end. It takes no memory.
    pub fn text(&self) -> ArrayString<64>
        ensures { result.bytes ≡ text_fault_text self.now }
    {
        match *self {
            TextFault::NotToml => joined("not TOML", "", ""),
            TextFault::MissingField { spot } => joined(
                "",
                field_name(spot).as_str(),
                " is missing",
            ),
            TextFault::WrongValue { spot } => {
                joined("", field_name(spot).as_str(), " has a wrong value")
            }
            TextFault::UnknownField { spot } => {
                joined("unknown field in ", table_name(spot).as_str(), "")
            }
            TextFault::Machine(fault) => fault.text(),
            TextFault::NoMemory => joined("no memory", "", ""),
        }
    }
}

/// What a field is called, with the number of its trap or segment.
fn field_name(spot: Spot) -> ArrayString<40>
    ensures { result.bytes ≡ field_name spot.part spot.row }
{
    match spot.part {
        Part::Top => joined("the file", "", ""),
        Part::Junctions => joined("junctions", "", ""),
        Part::Trap => joined("trap", "", ""),
        Part::Capacity => numbered("trap ", spot.row, " capacity"),
        Part::Segment => joined("segment", "", ""),
        Part::EndA => numbered("segment ", spot.row, " a"),
        Part::EndB => numbered("segment ", spot.row, " b"),
        Part::Time => joined("time", "", ""),
        Part::TimeField(field) => joined("time ", time_name(field), ""),
    }
}

/// What a table is called: a trap and a segment by its number.
fn table_name(spot: Spot) -> ArrayString<40>
    ensures { result.bytes ≡ table_name spot.part spot.row }
{
    match spot.part {
        Part::Trap => numbered("trap ", spot.row, ""),
        Part::Segment => numbered("segment ", spot.row, ""),
        _ => field_name(spot),
    }
}
