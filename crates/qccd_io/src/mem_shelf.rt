//! Files in memory, whose calls fail where they are told to.

ghost use Rattle.std.specs.Prelude.{◌≡◌, ◌+◌, ◌-◌, ◌^◌, ◌<◌, ◌≤◌, ◌⊎◌, ◌↔◌, None, Some, IsTrue, IsErr, IfOk, OnErr, IfSome, IfNone, OnSome, MatchResult, bytes_eq, length, map, min, position, string_bytes, take, vec_len, vec_capacity};
ghost use Rattle.qccd_io.specs.Faults.{Rose};
ghost use Rattle.qccd_io.specs.Stock.{entry_of, file_named, holding_of, HaveDistinctNames, fails, after_call, faults_after, TakesNamed};
ghost use Rattle.qccd_io.specs.Shelf.{NoneIsOut, Lacks, HoldsTheSame, Lends, CanGiveBack, PutsBack};
ghost use Rattle.qccd_io.specs.Source.{Reads, AtEnd};

use crate::failed::Failed;
use crate::schedule::Schedule;
use crate::shelf::Shelf;
use crate::source::Source;
use std::marker::Model;

/// A file in memory that is read: its name, its bytes, and how many of them were read.
#[derive(Drop)]
pub struct MemSource {
    name: String,
    bytes: Vec<u8>,
    read: usize,
    faults: u64,
    schedule: Schedule,
}

impl Model for MemSource {
    ghost use Rattle.std.specs.Prelude.{◌≤◌, drop, length, string_bytes};
    ghost use Rattle.qccd_io.specs.Stock.{Loan};

    ghost Value = { Loan };

    ghost view = { λ s. record {
      telling = record { name = string_bytes s.name; left = drop s.read s.bytes.items; whole = s.bytes.items };
      faults = s.faults;
      plan = s.schedule;
    } };

    ghost invariant = { λ s. s.read ≤ length s.bytes.items };
}

impl Source for MemSource {
    ghost faults = { λ s. s.faults };

    ghost told = { λ s. Some s.telling };

    fn read(&mut self, buf: &mut [u8]) -> Result<usize, Failed>
        ensures counts { self.old.faults ≤ self.new.faults }
        ensures fits { IfOk result (λ n. n ≤ length buf.old) }
        ensures reads { IfOk result (λ n. Reads (Some self.old.telling) (take n buf.new) (Some self.new.telling)) }
        ensures ends { IfOk result (λ n. n ≡ 0 → 0 < length buf.old → AtEnd (Some self.new.telling)) }
        ensures failed { OnErr result (Rose self.old.faults self.new.faults) }
        ensures keeps { OnErr result (Some self.new.telling ≡ Some self.old.telling) }

        // It fails as planned, and copies as much as there is and as fits.
        ensures planned { IsErr result ↔ IsTrue (fails self.old.plan) }
        ensures counted { self.new.faults ≡ faults_after self.old.plan self.old.faults }
        ensures goes_on { self.new.plan ≡ after_call self.old.plan }
        ensures most { IfOk result (λ n. n ≡ min (length self.old.telling.left) (length buf.old)) }
    {
        if self.schedule.next_fails() {
            self.faults = self.faults.saturating_add(1);
            return Err(Failed);
        }
        let rest = &self.bytes[self.read..];
        let count = rest.len().min(buf.len());
        buf[..count].copy_from_slice(&rest[..count]);
        self.read += count;
        Ok(count)
    }
}

/// Files in memory, by name. It tells what it holds.
///
/// Some of its calls fail, as those of a real shelf may: which, is said when it is made.
#[derive(Drop)]
pub struct MemShelf {
    files: Vec<(String, Vec<u8>)>,
    faults: u64,
    schedule: Option<Schedule>,
}

impl Model for MemShelf {
    ghost use Rattle.std.specs.Prelude.{◌<◌, map, string_bytes, IsNone, vec_len, vec_capacity};
    ghost use Rattle.qccd_io.specs.Stock.{Stock, entry_of, HaveDistinctNames};

    ghost Value = { Stock };

    ghost view = { λ s. record { files = map entry_of s.files.items; faults = s.faults; plan = s.schedule } };

    ghost invariant = { λ s. HaveDistinctNames (map entry_of s.files.items)
        × (IsNone s.schedule → vec_len s.files < vec_capacity s.files) };
}

impl MemShelf {
    /// A shelf of these files, no two of one name. The calls of `lend` and of its sources' `read`
    /// whose numbers `failing` lists, counted together from 0, fail; beside them only a `lend`
    /// of a name that is not held fails.
    pub fn of(files: Vec<(String, Vec<u8>)>, failing: Vec<u32>) -> MemShelf
        requires { HaveDistinctNames (map entry_of files.items) }
        ensures { result ≡ record {
          files = map entry_of files.items;
          faults = 0;
          plan = Some (record { calls = 0; failing = failing.items });
        } }
    {
        MemShelf {
            files,
            faults: 0,
            schedule: Some(Schedule::of(failing)),
        }
    }
}

impl Shelf for MemShelf {
    type Src = MemSource;

    ghost faults = { λ s. s.faults };

    ghost told = { λ s. Some (holding_of s) };

    fn lend(&mut self, name: &str) -> Result<MemSource, Failed>
        requires { NoneIsOut (Some (holding_of self.old)) }
        ensures counts { self.old.faults ≤ self.new.faults }
        ensures fresh { IfOk result (λ s. s.faults ≡ 0) }
        ensures lends { IfOk result (λ s. Lends (Some (holding_of self.old)) name.now (Some s.telling) (Some (holding_of self.new))) }
        ensures failed { OnErr result (Rose self.old.faults self.new.faults ⊎ Lacks (Some (holding_of self.old)) name.now) }
        ensures keeps { OnErr result (HoldsTheSame (Some (holding_of self.old)) (Some (holding_of self.new))) }

        // It fails as planned, and where the name is not held.
        ensures planned { IfSome self.old.plan (λ p. IsErr result ↔ (IsTrue (fails p) ⊎ (file_named self.old.files name.now ≡ None))) }
        ensures counted { IfSome self.old.plan (λ p. self.new.faults ≡ faults_after p self.old.faults) }
        ensures goes_on { IfSome self.old.plan (λ p. MatchResult result (λ s. s.plan ≡ after_call p) (λ _. self.new.plan ≡ Some (after_call p))) }
    {
        let mut schedule = match self.schedule.take() {
            Some(schedule) => schedule,
            None => unreachable!(),
        };
        if schedule.next_fails() {
            self.faults = self.faults.saturating_add(1);
            self.schedule = Some(schedule);
            return Err(Failed);
        }
        match take_named(&mut self.files, name) {
            Some((name, bytes)) => Ok(MemSource {
                name,
                bytes,
                read: 0,
                faults: 0,
                schedule,
            }),
            None => {
                self.schedule = Some(schedule);
                Err(Failed)
            }
        }
    }

    fn give_back(&mut self, src: MemSource)
        requires { CanGiveBack (Some (holding_of self.old)) (Some src.telling) }
        ensures counts { self.old.faults ≤ self.new.faults }
        ensures rises { 0 < src.faults → Rose self.old.faults self.new.faults }
        ensures puts_back { PutsBack (Some (holding_of self.old)) (Some src.telling) (Some (holding_of self.new)) }

        // The plan goes on where the source's reads left it.
        ensures counted { self.new.faults ≡ min (self.old.faults + src.faults) (2 ^ 64 - 1) }
        ensures goes_on { self.new.plan ≡ Some src.plan }
    {
        let MemSource {
            name,
            bytes,
            faults,
            schedule,
            ..
        } = src;
        self.faults = self.faults.saturating_add(faults);
        self.schedule = Some(schedule);
        match self.files.push((name, bytes)) {
            Ok(()) => {}
            Err(_) => unreachable!(),
        }
    }
}

/// Takes the file of this name out, if it is there.
fn take_named(files: &mut Vec<(String, Vec<u8>)>, name: &str) -> Option<(String, Vec<u8>)>
    ensures taken { IfSome result (TakesNamed files.old.items files.new.items name.now) }
    ensures missing { IfNone result ((file_named (map entry_of files.old.items) name.now ≡ None) × (files.new.items ≡ files.old.items)) }
    ensures room { OnSome result (vec_len files.new < vec_capacity files.new) }
{
    match index_of(files, name) {
        Some(index) => Some(files.remove(index)),
        None => None,
    }
}

/// Where the file of this name stands.
fn index_of(files: &[(String, Vec<u8>)], name: &str) -> Option<usize>
    ensures { result ≡ position (λ file. bytes_eq (string_bytes file.0) name.now) files.now }
{
    files.iter().position(|file| file.0.as_str() == name)
}
