//! Which calls of a shelf over memory fail.

ghost use Rattle.std.specs.Prelude.{◌≡◌};

use std::marker::Model;

/// Which calls fail: those whose numbers, from 0, are listed.
#[derive(Drop)]
pub struct Schedule {
    calls: u64,
    failing: Vec<u32>,
}

impl Model for Schedule {
    ghost use Rattle.qccd_io.specs.Stock.{Plan};

    ghost Value = { Plan };

    ghost view = { λ s. record { calls = s.calls; failing = s.failing.items } };
}

impl Schedule {
    ghost use Rattle.qccd_io.specs.Stock.{Plan, fails, after_call};

    /// No call was made yet.
    pub fn of(failing: Vec<u32>) -> Schedule
        ensures { result ≡ record { calls = 0; failing = failing.items } }
    {
        Schedule { calls: 0, failing }
    }

    /// Counts a call, and says whether it fails.
    pub fn next_fails(&mut self) -> bool
        ensures answer { result ≡ fails self.old }
        ensures counted { self.new ≡ after_call self.old }
    {
        let number = self.calls;
        self.calls = number.saturating_add(1);
        self.failing
            .iter()
            .any(|&failing| u64::from(failing) == number)
    }
}
