//! A post that counts what it is told.

use qccd_io::Post;
use std::sync::atomic::{AtomicU64, Ordering};

/// How often each of two workers told of an operation, and the sum of the numbers of these operations.
#[derive(Drop)]
pub struct Told {
    first: AtomicU64,
    second: AtomicU64,
    sum: AtomicU64,
}

impl Told {
    /// Nothing was told yet.
    pub fn new() -> Told {
        Told {
            first: AtomicU64::new(0),
            second: AtomicU64::new(0),
            sum: AtomicU64::new(0),
        }
    }

    /// How often worker 0 told, how often worker 1, and the sum.
    pub fn counts(&self) -> (u64, u64, u64) {
        (
            self.first.load(Ordering::SeqCst),
            self.second.load(Ordering::SeqCst),
            self.sum.load(Ordering::SeqCst),
        )
    }
}

impl Post for Told {
    fn at(&self, worker: u32, op: u32) {
        let count = if worker == 0 {
            &self.first
        } else {
            &self.second
        };
        count.fetch_add(1, Ordering::SeqCst);
        self.sum.fetch_add(u64::from(op), Ordering::SeqCst);
    }
}
