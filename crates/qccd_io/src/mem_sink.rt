//! A sink over memory, whose writes fail where they are told to.

ghost use Rattle.std.specs.Prelude.{◌≡◌, ◌<◌, ◌≤◌, [], true, false, Some, IfOk, OnErr, MatchResult, ◌==◌};
ghost use Rattle.std.specs.List.{list_any};
ghost use Rattle.qccd_io.specs.Memory.{refuses, taking, after_write};
ghost use Rattle.qccd_io.specs.Faults.{Rose};
ghost use Rattle.qccd_io.specs.Sink.{TookFirst};

use crate::failed::Failed;
use crate::sink::Sink;
use qccd_base::NoMemory;
use std::alloc::Global;
use std::marker::Model;

/// A sink over memory: it tells what it took, takes no more in one write than it is told to, and
/// fails where it is told to. Clauses see it as a `Memory`.
#[derive(Drop)]
pub struct MemSink {
    bytes: Vec<u8>,
    // How many bytes it still takes. There is memory for them already.
    room: usize,
    most: usize,
    failing: Vec<u32>,
    // Both counts stay at the end of their range.
    next: u64,
    faults: u64,
}

impl Model for MemSink {
    ghost use Rattle.std.specs.Prelude.{◌+◌, ◌<◌, ◌≤◌, length, vec_capacity};
    ghost use Rattle.qccd_io.specs.Memory.{Memory};

    ghost Value = { Memory };

    ghost view = { λ m. record {
      bytes = m.bytes.items;
      room = m.room;
      most = m.most;
      failing = m.failing.items;
      next = m.next;
      faults = m.faults;
    } };

    ghost invariant = { λ m. (0 < m.most)
        × (length m.bytes.items + m.room ≤ vec_capacity m.bytes) };
}

impl MemSink {
    /// A sink that took nothing yet, has room for so many bytes and takes `most` of them in one
    /// write at most. Its writes are counted from 0; those whose number is in `failing` fail.
    pub fn of(
        alloc: Global,
        room: usize,
        most: usize,
        failing: Vec<u32>,
    ) -> Result<MemSink, NoMemory>
        requires { 0 < most }
        ensures { IfOk result (λ m. m ≡ record {
          bytes = [];
          room = room;
          most = most;
          failing = failing.items;
          next = 0;
          faults = 0;
        }) }
    {
        let bytes = Vec::with_capacity(alloc, room)?;
        Ok(MemSink {
            bytes,
            room,
            most,
            failing,
            next: 0,
            faults: 0,
        })
    }

    /// All bytes that it took, in order.
    pub fn bytes(&self) -> &[u8]
        ensures { result.now ≡ self.now.bytes }
    {
        self.bytes.as_slice()
    }

    /// Whether the next write is to fail by its number.
    fn is_listed(&self) -> bool
        ensures { result ≡ list_any (λ n. n == self.now.next) self.now.failing }
    {
        self.failing.iter().any(|n| u64::from(*n) == self.next)
    }
}

impl Sink for MemSink {
    ghost faults = { λ m. m.faults };

    ghost taken = { λ m. Some m.bytes };

    /// Takes the least of the piece's length, the room that is left and the most that it takes.
    /// It fails exactly where its number is listed, and where there is no room for a piece that
    /// has bytes. It takes no memory.
    fn write(&mut self, piece: &[u8]) -> Result<usize, Failed>
        ensures result { MatchResult result
            (λ n. (refuses self.old piece.now ≡ false) × (n ≡ taking self.old piece.now))
            (λ _. refuses self.old piece.now ≡ true) }
        ensures after { self.new ≡ after_write self.old piece.now }
        ensures ok { IfOk result (λ n. TookFirst (Some self.old.bytes) (Some self.new.bytes)
            piece.now n) }
        ensures err { OnErr result ((Some self.new.bytes ≡ Some self.old.bytes)
            × Rose self.old.faults self.new.faults) }
        ensures count { self.old.faults ≤ self.new.faults }
    {
        let listed = self.is_listed();
        self.next = self.next.saturating_add(1);
        if listed || (self.room == 0 && !piece.is_empty()) {
            self.faults = self.faults.saturating_add(1);
            return Err(Failed);
        }
        let count = piece.len().min(self.room).min(self.most);
        if self.bytes.extend_from_slice(&piece[..count]).is_err() {
            unreachable!();
        }
        self.room -= count;
        Ok(count)
    }
}
