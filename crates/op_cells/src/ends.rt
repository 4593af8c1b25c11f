//! Which end of a segment is where.

ghost use Rattle.std.specs.Prelude.{◌≡◌, ◌<◌, length, unwrap_or};
ghost use Rattle.qccd_base.specs.declared.names.SegEnd.TheVariants.{A};
ghost use Rattle.qccd_machine.specs.Machine.{same_place};
ghost use Rattle.op_table.specs.Step.{end_at, same_seg_end};

use qccd_base::{SegEnd, SegId};
use qccd_machine::{Machine, Place};

/// The end of the segment that is at the place, if one is.
pub(crate) fn end_at(machine: &Machine, seg: SegId, place: Place) -> Option<SegEnd>
    requires { seg.0 < length machine.now.segments }
    ensures { result ≡ end_at machine.now seg.0 place }
{
    let ends = machine.ends(seg);
    if is_same(place, ends.0) {
        Some(SegEnd::A)
    } else if is_same(place, ends.1) {
        Some(SegEnd::B)
    } else {
        None
    }
}

/// The end of a segment that is joined to the place.
pub(crate) fn joined_end(machine: &Machine, seg: SegId, place: Place) -> SegEnd
    requires { seg.0 < length machine.now.segments }
    ensures { result ≡ unwrap_or (end_at machine.now seg.0 place) A }
{
    match end_at(machine, seg, place) {
        None => SegEnd::A,
        Some(end) => end,
    }
}

/// Whether the ends are the same.
pub(crate) fn same_end(a: SegEnd, b: SegEnd) -> bool
    ensures { result ≡ same_seg_end a b }
{
    a == b
}

// Whether the two places are one.
fn is_same(a: Place, b: Place) -> bool
    ensures { result ≡ same_place a b }
{
    a == b
}
