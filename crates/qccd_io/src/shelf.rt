//! Files by name.

ghost use Rattle.std.specs.Prelude.{◌≡◌, ℕ, ◌<◌, ◌≤◌, ◌⊎◌, Option, IfOk, OnErr};
ghost use Rattle.qccd_io.specs.Faults.{Rose};
ghost use Rattle.qccd_io.specs.Shelf.{Holding, NoneIsOut, Lacks, HoldsTheSame, Lends, CanGiveBack, PutsBack};

use crate::failed::Failed;
use crate::source::Source;

/// Files by name, which are lent as sources and given back.
///
/// `faults` counts the files that could not be lent, and the sources with faults that were given
/// back. A shelf over memory also tells which files it holds, and whether a source is out.
pub trait Shelf {
    type Src: Source;

    ghost faults: { Self → ℕ };

    ghost told: { Self → Option Holding };

    /// Lends a source of the named file, at the file's start. It fails where the file can't be
    /// opened or, at a shelf that tells what it holds, is not held; nothing is out then.
    fn lend(&mut self, name: &str) -> Result<Self::Src, Failed>
        requires { NoneIsOut (told self.old) }
        ensures counts { faults self.old ≤ faults self.new }
        ensures fresh { IfOk result (λ s. Self.Src.faults s ≡ 0) }
        ensures lends { IfOk result (λ s. Lends (told self.old) name.now (Self.Src.told s) (told self.new)) }
        ensures failed { OnErr result (Rose (faults self.old) (faults self.new) ⊎ Lacks (told self.old) name.now) }
        ensures keeps { OnErr result (HoldsTheSame (told self.old) (told self.new)) };

    /// Takes a source back, and holds its whole file under its name again. This takes no memory.
    fn give_back(&mut self, src: Self::Src)
        requires { CanGiveBack (told self.old) (Self.Src.told src) }
        ensures counts { faults self.old ≤ faults self.new }
        ensures rises { 0 < Self.Src.faults src → Rose (faults self.old) (faults self.new) }
        ensures puts_back { PutsBack (told self.old) (Self.Src.told src) (told self.new) };
}
