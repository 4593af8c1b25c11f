//! How long steps take.

ghost use Rattle.std.specs.Prelude.{◌≡◌, ◌^◌, ◌<◌};
ghost use Rattle.time_heat.specs.Duration.{duration_of, gate2_time};

use crate::Work;
use qccd_base::Times;

/// How long the step takes, in microseconds. An exchange of two qubits takes three two-qubit gates,
/// and a fence no time. A junction that joins neither two nor three counts as one that joins four.
pub fn duration(times: &Times, work: Work) -> u64
    ensures { result ≡ duration_of times.now work }
{
    match work {
        Work::Split => u64::from(times.split),
        Work::Merge => u64::from(times.merge),
        Work::Move => u64::from(times.shift),
        Work::Cross(2) => u64::from(times.cross2),
        Work::Cross(3) => u64::from(times.cross3),
        Work::Cross(_) => u64::from(times.cross4),
        Work::Rot => u64::from(times.rot),
        Work::Gate1 => u64::from(times.gate1),
        Work::Measure => u64::from(times.measure),
        Work::Reset => u64::from(times.reset),
        Work::Gate2(ions) => gate_duration(times, ions),
        Work::GSwap(ions) => 3 * gate_duration(times, ions),
        Work::Fence => 0,
    }
}

// A two-qubit gate on ions with so many between them.
fn gate_duration(times: &Times, ions: u8) -> u64
    ensures value { result ≡ gate2_time times.now ions }
    ensures small { result < 2 ^ 40 }
{
    u64::from(times.gate2) + u64::from(times.between) * u64::from(ions)
}
