//! Posts that count what they are told, and that hold operations.

use qccd_base::NoMemory;
use qccd_io::Post;
use std::alloc::Global;
use std::sync::atomic::{AtomicBool, AtomicU32, Ordering};

/// How many operations have marks.
const MARKED: usize = 16384;

/// How often a held operation looks for the other.
const LOOKS: u32 = 1_000_000_000;

/// Counts what it is told.
#[derive(Drop)]
pub struct Marks {
    // How often, by operation.
    ops: Vec<AtomicU32>,
    // How often in all, and by worker 0.
    told: AtomicU32,
    by_first: AtomicU32,
}

impl Marks {
    /// Nothing was told yet.
    pub fn of(alloc: Global) -> Result<Marks, NoMemory> {
        let mut ops = Vec::new(alloc);
        for _ in 0..MARKED {
            ops.push(AtomicU32::new(0))?;
        }
        Ok(Marks {
            ops,
            told: AtomicU32::new(0),
            by_first: AtomicU32::new(0),
        })
    }

    /// How often it was told of an operation.
    pub fn told(&self) -> u32 {
        self.told.load(Ordering::SeqCst)
    }

    /// How often by worker 0.
    pub fn by_first(&self) -> u32 {
        self.by_first.load(Ordering::SeqCst)
    }

    /// How many operations were told just once.
    pub fn once(&self) -> usize {
        let told = self.ops.iter();
        told.filter(|count| count.load(Ordering::SeqCst) == 1)
            .count()
    }

    /// How many operations were told more than once.
    pub fn twice(&self) -> usize {
        let told = self.ops.iter();
        told.filter(|count| count.load(Ordering::SeqCst) > 1)
            .count()
    }
}

impl Post for Marks {
    fn at(&self, worker: u32, op: u32) {
        self.told.fetch_add(1, Ordering::SeqCst);
        if worker == 0 {
            self.by_first.fetch_add(1, Ordering::SeqCst);
        }
        if let Some(count) = self.ops.get(op as usize) {
            count.fetch_add(1, Ordering::SeqCst);
        }
    }
}

/// Holds operation 0 until 1 is told, and 1 until 0 is.
#[derive(Drop)]
pub struct Held {
    first: AtomicBool,
    second: AtomicBool,
    missed: AtomicBool,
}

impl Held {
    /// Nothing was told yet.
    pub fn new() -> Held {
        Held {
            first: AtomicBool::new(false),
            second: AtomicBool::new(false),
            missed: AtomicBool::new(false),
        }
    }

    /// Whether both were told.
    pub fn told(&self) -> bool {
        self.first.load(Ordering::SeqCst) && self.second.load(Ordering::SeqCst)
    }

    /// Whether one of them looked for the other in vain.
    pub fn missed(&self) -> bool {
        self.missed.load(Ordering::SeqCst)
    }

    // Tells the one, and waits until the other is told.
    fn meet(&self, own: &AtomicBool, other: &AtomicBool) {
        own.store(true, Ordering::SeqCst);
        for _ in 0..LOOKS {
            if other.load(Ordering::SeqCst) {
                return;
            }
        }
        self.missed.store(true, Ordering::SeqCst);
    }
}

impl Post for Held {
    fn at(&self, _worker: u32, op: u32) {
        match op {
            0 => self.meet(&self.first, &self.second),
            1 => self.meet(&self.second, &self.first),
            _ => {}
        }
    }
}
