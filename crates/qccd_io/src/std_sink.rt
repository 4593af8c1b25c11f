//! A sink over a stream of std.

ghost use Rattle.std.specs.Prelude.{◌≡◌, None};

use crate::failed::Failed;
use crate::sink::Sink;
use std::io::Write;

/// A sink over a stream of std, as the process's output. It does not tell what it took.
#[derive(Drop)]
pub struct StdSink<W: Write + Drop> {
    inner: W,
    // It stays at the end of its range.
    faults: u64,
}

impl<W: Write + Drop> StdSink<W> {
    /// A sink over the stream that had no fault yet.
    pub fn of(inner: W) -> StdSink<W>
        ensures inner { result.inner ≡ inner }
        ensures faults { result.faults ≡ 0 }
    {
        StdSink { inner, faults: 0 }
    }
}

impl<W: Write + Drop> Sink for StdSink<W> {
    ghost faults = { λ s. s.faults };

    ghost taken = { λ _. None };

    /// Writes to the stream once. An error is a fault, and so is a stream that takes nothing of a
    /// piece that has bytes.
    fn write(&mut self, piece: &[u8]) -> Result<usize, Failed> {
        match self.inner.write(piece) {
            Ok(count) if count > 0 || piece.is_empty() => Ok(count),
            _ => {
                self.faults = self.faults.saturating_add(1);
                Err(Failed)
            }
        }
    }
}
