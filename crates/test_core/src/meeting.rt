//! A gate at which two nodes meet.
use actor_threads::Gate;
use std::sync::atomic::{AtomicU64, Ordering};
use std::thread;

/// A gate that holds each pass of two nodes until the other is in one, for a while. It counts the passes.
#[derive(Drop)]
pub struct Meeting {
    first: u8,
    second: u8,
    /// Whether the first node is in a pass, and the second one: 1, or else 0.
    in_first: AtomicU64,
    in_second: AtomicU64,
    met: AtomicU64,
    passes: AtomicU64,
}

impl Meeting {
    /// A gate for these nodes that nobody has passed.
    pub fn open(first: u8, second: u8) -> Self {
        Meeting {
            first,
            second,
            in_first: AtomicU64::new(0),
            in_second: AtomicU64::new(0),
            met: AtomicU64::new(0),
            passes: AtomicU64::new(0),
        }
    }

    /// Whether both nodes were in a pass at once.
    pub fn met(&self) -> bool {
        self.met.load(Ordering::SeqCst) == 1
    }

    /// How many passes there were, of all nodes.
    pub fn passes(&self) -> u64 {
        self.passes.load(Ordering::SeqCst)
    }

    fn meet(&self, mine: &AtomicU64, other: &AtomicU64) {
        mine.store(1, Ordering::SeqCst);
        for _ in 0..1000 {
            if other.load(Ordering::SeqCst) == 1 {
                self.met.store(1, Ordering::SeqCst);
            }
            if self.met() {
                break;
            }
            thread::yield_now();
        }
        mine.store(0, Ordering::SeqCst);
    }
}

impl Gate for Meeting {
    fn pass(&self, node: u8, _step: u64) {
        self.passes.fetch_add(1, Ordering::SeqCst);
        if node == self.first {
            self.meet(&self.in_first, &self.in_second);
        } else if node == self.second {
            self.meet(&self.in_second, &self.in_first);
        }
    }
}
