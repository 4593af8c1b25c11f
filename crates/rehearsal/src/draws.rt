//! Numbers that look random and follow from the first one.

ghost use Rattle.std.specs.Prelude.{◌≡◌, ◌<◌};
ghost use Rattle.rehearsal.specs.Draws.{draw, next};

/// Where the draws have come to.
#[derive(Clone, Copy, Debug, PartialEq, Eq, Hash)]
pub(crate) struct Draws {
    pub(crate) at: u32,
}

impl Draws {
    /// The next draw below a bound.
    pub(crate) fn draw(&mut self, bound: u16) -> u16
        requires { 0 < bound }
        ensures value { result ≡ draw bound self.old.at }
        ensures after { self.new.at ≡ next self.old.at }
    {
        let next = (u64::from(self.at) * 1103515245 + 12345) % 2147483648;
        self.at = next as u32;
        (next / 65536 % u64::from(bound)) as u16
    }
}
