//! Durations and heats of the usual times, worked out by hand.

use crate::{Work, duration, enter_heat, merge_heat, move_heat, rot_heat, split_heat};
use qccd_base::Times;

#[test]
fn usual_durations(rt: HostRuntime) {
    let times = Times::usual();
    let cases = [
        (Work::Split, 80),
        (Work::Merge, 80),
        (Work::Move, 5),
        (Work::Cross(2), 50),
        (Work::Cross(3), 50),
        (Work::Cross(4), 60),
        (Work::Rot, 200),
        (Work::Gate1, 5),
        (Work::Measure, 100),
        (Work::Reset, 100),
        (Work::Gate2(0), 100),
        (Work::Gate2(3), 130),
        (Work::GSwap(0), 300),
        (Work::GSwap(3), 390),
        (Work::Fence, 0),
    ];
    for (work, microseconds) in cases {
        assert_eq!(rt; duration(&times, work), microseconds, "{work:?}");
    }
}

#[test]
fn heats(rt: HostRuntime) {
    assert_eq!(rt; split_heat(400, 3), (233, 367));
    assert_eq!(rt; split_heat(0, 1), (100, 100));
    assert_eq!(rt; merge_heat(367, 233), 700);
    assert_eq!(rt; rot_heat(500), 700);
    assert_eq!(rt; move_heat(233), 243);
    assert_eq!(rt; enter_heat(243), 293);
}
