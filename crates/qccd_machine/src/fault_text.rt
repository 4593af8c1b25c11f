//! What is told of a fault.

ghost use Rattle.std.specs.Prelude.{◌≡◌, ◌≤◌, length};
ghost use Rattle.qccd_machine.specs.declared.fault.MachineFault.TheVariants.{NotConnected};
ghost use Rattle.qccd_machine.specs.FaultText.{fault_text};

use crate::fault::{MachineFault, PartKind};
use crate::names::time_name;
use arrayvec::ArrayString;
use qccd_base::{Res, joined, numbered};

impl MachineFault {
    /// What is told of the fault, in one line without its end. It takes no memory.
    pub fn text(&self) -> ArrayString<64>
        ensures { result.bytes ≡ fault_text self.now }
    {
        match *self {
            MachineFault::NoTrap => whole("no trap"),
            MachineFault::TooMany { what } => match what {
                PartKind::Traps => whole("too many traps"),
                PartKind::Segments => whole("too many segments"),
                PartKind::Junctions => whole("too many junctions"),
            },
            MachineFault::Capacity { trap } => {
                numbered("trap T", trap.0.into(), " has a capacity outside 2 to 32")
            }
            MachineFault::EndTaken { seg } => {
                numbered("segment S", seg.0.into(), " takes an end that is taken")
            }
            MachineFault::BadEnd { seg } => {
                numbered("segment S", seg.0.into(), " names a missing place")
            }
            MachineFault::SelfJoined { seg } => {
                numbered("segment S", seg.0.into(), " joins a place to itself")
            }
            MachineFault::JunctionDegree { junc } => numbered(
                "junction J",
                junc.0.into(),
                " does not join 2 to 4 segments",
            ),
            MachineFault::NotConnected { place } => out_of_reach(place),
            MachineFault::TableRange { field } => {
                joined("time ", time_name(field), " is above 1000000")
            }
            MachineFault::NoMemory => whole("no memory"),
        }
    }
}

/// That no path leads there.
fn out_of_reach(place: Res) -> ArrayString<64>
    ensures { result.bytes ≡ fault_text (NotConnected place) }
{
    match place {
        Res::Trap(trap) => numbered("T", trap.0.into(), " is out of reach"),
        Res::Seg(seg) => numbered("S", seg.0.into(), " is out of reach"),
        Res::Junc(junc) => numbered("J", junc.0.into(), " is out of reach"),
        Res::Bit(bit) => numbered("b", bit.0.into(), " is out of reach"),
    }
}

/// The text as it is.
fn whole(text: &str) -> ArrayString<64>
    requires { length text.now ≤ 64 }
    ensures { result.bytes ≡ text.now }
{
    joined(text, "", "")
}
