//! Fetching files from memory and from the system.

ghost use Rattle.std.specs.Prelude.{None, Some, IfOk};
ghost use Rattle.qccd_io.specs.Stock.{holding_of};
ghost use Rattle.qccd_io.specs.Shelf.{NoneIsOut};

use crate::{Failed, FetchFault, FileShelf, MemShelf, Shelf, Source, fetch_all};
use std::alloc::{AllocError, Global};
use std::fs;
use std::test::Fail;

const BELL: &[u8] = b"qreg q[2];\nh q[0];\n";

/// A shelf of two files, at which one call may fail.
fn shelf_of_two(alloc: Global, failing: Option<u32>) -> Result<MemShelf, AllocError>
    ensures { IfOk result (λ s. NoneIsOut (Some (holding_of s))) }
{
    let mut files = Vec::new(alloc);
    files.push((String::from_str(alloc, "empty")?, Vec::new(alloc)))?;
    files.push((
        String::from_str(alloc, "bell")?,
        Vec::from_slice(alloc, BELL)?,
    ))?;
    let mut numbers = Vec::new(alloc);
    if let Some(number) = failing {
        numbers.push(number)?;
    }
    Ok(MemShelf::of(files, numbers))
}

fn is_same(fetched: &Result<Vec<u8>, FetchFault>, want: Result<&[u8], FetchFault>) -> bool {
    match (fetched, want) {
        (Ok(bytes), Ok(wanted)) => bytes.as_slice() == wanted,
        (Err(fault), Err(wanted)) => *fault == wanted,
        _ => false,
    }
}

#[test]
fn fetches_files_within_the_limit(rt: HostRuntime) -> Result<(), Fail> {
    let too_large = |limit| Err(FetchFault::TooLarge { limit });
    let cases = [
        ("bell", 1000, Ok(BELL)),
        ("bell", 19, Ok(BELL)),
        ("bell", 18, too_large(18)),
        ("bell", 0, too_large(0)),
        ("bell", u32::MAX, Ok(BELL)),
        ("empty", 0, Ok(b"".as_slice())),
        ("cat", 1000, Err(FetchFault::ReadFault)),
    ];
    for (name, limit, want) in cases {
        let mut shelf = shelf_of_two(rt.alloc(), None)?;
        let first = fetch_all(rt.alloc(), &mut shelf, name, limit);
        assert!(rt; is_same(&first, want), "{name} {limit}");
        let again = fetch_all(rt.alloc(), &mut shelf, name, limit);
        assert!(rt; is_same(&again, want), "{name} {limit} again");
    }
    Ok(())
}

// A whole fetch is three calls: the file is lent, read, and read to its end.
#[test]
fn each_call_may_fail_once(rt: HostRuntime) -> Result<(), Fail> {
    for number in 0..10 {
        let mut shelf = shelf_of_two(rt.alloc(), Some(number))?;
        let fetched = [
            fetch_all(rt.alloc(), &mut shelf, "bell", 100),
            fetch_all(rt.alloc(), &mut shelf, "bell", 100),
            fetch_all(rt.alloc(), &mut shelf, "bell", 100),
        ];
        for (turn, outcome) in (0..).zip(fetched.iter()) {
            let want = if number / 3 == turn {
                Err(FetchFault::ReadFault)
            } else {
                Ok(BELL)
            };
            assert!(rt; is_same(outcome, want), "call {number}, fetch {turn}");
        }
    }
    Ok(())
}

#[test]
fn fetches_a_file_of_the_system(rt: HostRuntime) -> Result<(), Fail> {
    let path = "a_file_of_the_system";
    fs::write(&rt, path, BELL)?;
    let mut shelf = FileShelf::of(&rt);
    let fetched = fetch_all(rt.alloc(), &mut shelf, path, 19);
    let large = fetch_all(rt.alloc(), &mut shelf, path, 18);
    fs::remove_file(&rt, path)?;
    let gone = fetch_all(rt.alloc(), &mut shelf, path, 19);
    assert!(rt; is_same(&fetched, Ok(BELL)));
    assert!(rt; is_same(&large, Err(FetchFault::TooLarge { limit: 18 })));
    assert!(rt; is_same(&gone, Err(FetchFault::ReadFault)));
    Ok(())
}

// Files of no byte, of one whole read, and of more than that.
#[test]
fn fetches_long_files_of_the_system(rt: HostRuntime) -> Result<(), Fail> {
    let path = "long_files_of_the_system";
    for size in [0, 65_536, 150_001, 1_310_721] {
        let mut bytes = vec![in rt.alloc(); b'a'; size]?;
        for (place, byte) in bytes.iter_mut().enumerate() {
            *byte = (place % 251) as u8;
        }
        fs::write(&rt, path, bytes.as_slice())?;
        let mut shelf = FileShelf::of(&rt);
        let fetched = fetch_all(rt.alloc(), &mut shelf, path, size as u32);
        assert!(rt; is_same(&fetched, Ok(bytes.as_slice())), "{size}");
    }
    fs::remove_file(&rt, path)?;
    Ok(())
}

/// A source without an end, which counts the bytes that are read from it.
#[derive(Drop)]
struct Endless {
    read: usize,
}

impl Source for Endless {
    ghost faults = { λ _. 0 };

    ghost told = { λ _. None };

    fn read(&mut self, buf: &mut [u8]) -> Result<usize, Failed> {
        self.read = self.read.saturating_add(buf.len());
        Ok(buf.len())
    }
}

/// A shelf of such sources, which counts the bytes that were read from all of them.
#[derive(Drop)]
struct Counting {
    read: usize,
}

impl Shelf for Counting {
    type Src = Endless;

    ghost faults = { λ _. 0 };

    ghost told = { λ _. None };

    fn lend(&mut self, _name: &str) -> Result<Endless, Failed> {
        Ok(Endless { read: 0 })
    }

    fn give_back(&mut self, src: Endless) {
        self.read = self.read.saturating_add(src.read);
    }
}

#[test]
fn reads_one_byte_past_the_limit(rt: HostRuntime) -> Result<(), Fail> {
    for limit in [0, 1, 65_535, 65_536, 200_000] {
        let mut shelf = Counting { read: 0 };
        let fetched = fetch_all(rt.alloc(), &mut shelf, "endless", limit);
        assert!(rt;
            is_same(&fetched, Err(FetchFault::TooLarge { limit })),
            "{limit}"
        );
        assert_eq!(rt; shelf.read, limit as usize + 1);
    }
    Ok(())
}
