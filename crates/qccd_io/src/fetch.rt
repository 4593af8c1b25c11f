//! Reading a whole file.

ghost use Rattle.std.specs.Prelude.{◌≡◌, ◌+◌, ◌<◌, ◌≤◌, ◌⊎◌, Option, IfOk, IfErr, length, vec_len};
ghost use Rattle.qccd_io.specs.Faults.{Rose};
ghost use Rattle.qccd_io.specs.Fetch.{MatchFault, SameFile, HasLeft, HasMoreLeft, HoldsFile, HoldsMoreThan};
ghost use Rattle.qccd_io.specs.Shelf.{NoneIsOut, Lacks, HoldsTheSame};
ghost use Rattle.qccd_io.specs.Source.{Telling, Reads, AtEnd};

use crate::failed::Failed;
use crate::shelf::Shelf;
use crate::source::Source;
use std::alloc::{AllocError, Global};

/// How many bytes one read asks for at most.
const PIECE: usize = 65536;

/// Why a file's bytes were not fetched.
#[derive(Clone, Copy, Debug, PartialEq, Eq, Hash)]
pub enum FetchFault {
    /// The file could not be lent, or a read failed.
    ReadFault,
    /// The file has more bytes than the limit.
    TooLarge { limit: u32 },
    /// Memory ran out.
    NoMemory,
}

impl From<Failed> for FetchFault {
    ghost use Rattle.std.specs.Prelude.{◌≡◌};
    ghost use Rattle.qccd_io.specs.declared.fetch.FetchFault.TheVariants.{ReadFault};

    ghost from_gives = { λ _ e. e ≡ ReadFault };

    fn from(_failed: Failed) -> FetchFault {
        FetchFault::ReadFault
    }
}

impl From<AllocError> for FetchFault {
    ghost use Rattle.std.specs.Prelude.{◌≡◌};
    ghost use Rattle.qccd_io.specs.declared.fetch.FetchFault.TheVariants.{NoMemory};

    ghost from_gives = { λ _ e. e ≡ NoMemory };

    fn from(_refused: AllocError) -> FetchFault {
        FetchFault::NoMemory
    }
}

/// The whole file of this name, of at most `limit` bytes.
///
/// The shelf is asked for one source, which is given back in every case, so a shelf over memory
/// holds the same files afterwards.
pub fn fetch_all<F: Shelf>(
    alloc: Global,
    shelf: &mut F,
    name: &str,
    limit: u32,
) -> Result<Vec<u8>, FetchFault>
    requires { NoneIsOut (F.told shelf.old) }
    ensures ok { IfOk result (λ v. HoldsFile (F.told shelf.old) name.now v.items) }
    ensures fits { IfOk result (λ v. vec_len v ≤ limit) }
    ensures fault { IfErr result (λ e. MatchFault e
        (Rose (F.faults shelf.old) (F.faults shelf.new) ⊎ Lacks (F.told shelf.old) name.now)
        (λ l. (l ≡ limit) × HoldsMoreThan (F.told shelf.old) name.now limit)) }
    ensures same { HoldsTheSame (F.told shelf.old) (F.told shelf.new) }
    ensures counts { F.faults shelf.old ≤ F.faults shelf.new }
{
    let mut source = match shelf.lend(name) {
        Ok(source) => source,
        Err(Failed) => return Err(FetchFault::ReadFault),
    };
    let read = read_all(alloc, &mut source, limit);
    shelf.give_back(source);
    read
}

/// All bytes that the source has left, if there are at most `limit` of them. It reads at most one
/// byte more than the limit.
fn read_all<S: Source>(alloc: Global, source: &mut S, limit: u32) -> Result<Vec<u8>, FetchFault>
    ensures ok { IfOk result (λ v. HasLeft (S.told source.old) v.items) }
    ensures fits { IfOk result (λ v. vec_len v ≤ limit) }
    ensures fault { IfErr result (λ e. MatchFault e
        (Rose (S.faults source.old) (S.faults source.new))
        (λ l. (l ≡ limit) × HasMoreLeft (S.told source.old) limit)) }
    ensures same { SameFile (S.told source.old) (S.told source.new) }
    ensures counts { S.faults source.old ≤ S.faults source.new }
{
    let Ok(mut piece) = vec![in alloc; 0; PIECE] else {
        return Err(FetchFault::NoMemory);
    };
    let most = limit as usize;
    let mut bytes = Vec::new(alloc);
    while bytes.len() <= most {
        let room = PIECE.min(most + 1 - bytes.len());
        match append_piece(source, &mut piece[..room], &mut bytes) {
            Ok(0) => return Ok(bytes),
            Ok(_) => {}
            Err(fault) => return Err(fault),
        }
    }
    Err(FetchFault::TooLarge { limit })
}

/// Appends what one read gives to the bytes, and says how many there were: 0 at the input's end.
fn append_piece<S: Source>(
    source: &mut S,
    piece: &mut [u8],
    bytes: &mut Vec<u8>,
) -> Result<usize, FetchFault>
    ensures grows { IfOk result (λ n. vec_len bytes.new ≡ vec_len bytes.old + n) }
    // Whatever the bytes were read from before, all of them were read from now.
    ensures reads { IfOk result (λ n. (start : Option Telling)
        → Reads start bytes.old.items (S.told source.old) → Reads start bytes.new.items (S.told source.new)) }
    ensures ends { IfOk result (λ n. n ≡ 0 → 0 < length piece.old → AtEnd (S.told source.new)) }
    ensures fault { IfErr result (λ e. MatchFault e (Rose (S.faults source.old) (S.faults source.new)) (λ l. ⊥)) }
    ensures same { SameFile (S.told source.old) (S.told source.new) }
    ensures counts { S.faults source.old ≤ S.faults source.new }
{
    let count = match source.read(piece) {
        Ok(count) => count,
        Err(Failed) => return Err(FetchFault::ReadFault),
    };
    match bytes.extend_from_slice(&piece[..count]) {
        Ok(()) => Ok(count),
        Err(_) => Err(FetchFault::NoMemory),
    }
}
