//! Faults as rows have them: a word, and the number of the part or of the time.

use qccd_base::{Bit, JuncId, Res, SegId, TrapId, read_number};
use qccd_machine::{MachineFault, PartKind};

/// The fault of this word and number.
pub fn read_fault(text: &str) -> Option<MachineFault> {
    let (word, number) = text.split_once(" ")?;
    let wide = u16::try_from(read_number(number.as_bytes())?).ok()?;
    let number = u8::try_from(wide).unwrap_or(u8::MAX);
    Some(match word {
        "no-trap" => MachineFault::NoTrap,
        "too-many-traps" => too_many(PartKind::Traps),
        "too-many-segments" => too_many(PartKind::Segments),
        "too-many-junctions" => too_many(PartKind::Junctions),
        "capacity" => MachineFault::Capacity {
            trap: TrapId(number),
        },
        "end-taken" => MachineFault::EndTaken { seg: SegId(number) },
        "bad-end" => MachineFault::BadEnd { seg: SegId(number) },
        "self-joined" => MachineFault::SelfJoined { seg: SegId(number) },
        "degree" => MachineFault::JunctionDegree {
            junc: JuncId(number),
        },
        "far-trap" => far(Res::Trap(TrapId(number))),
        "far-segment" => far(Res::Seg(SegId(number))),
        "far-junction" => far(Res::Junc(JuncId(number))),
        "far-bit" => far(Res::Bit(Bit(wide))),
        "time" => MachineFault::TableRange { field: number },
        "no-memory" => MachineFault::NoMemory,
        _ => return None,
    })
}

fn too_many(what: PartKind) -> MachineFault {
    MachineFault::TooMany { what }
}

fn far(place: Res) -> MachineFault {
    MachineFault::NotConnected { place }
}
