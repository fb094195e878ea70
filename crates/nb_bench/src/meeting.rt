//! Where workers wait for one another, so that all begin at the same time.

use std::sync::atomic::{AtomicU64, Ordering};
use std::thread::yield_now;

/// How often a worker looks whether the others have come, before it begins without them.
const MAX_LOOKS: u64 = 1_000_000;

/// After how many looks it lets others run, as is needed where there are fewer processors than
/// threads.
const BUSY_LOOKS: u64 = 2000;

/// A meeting of so many workers.
#[derive(Drop)]
pub(crate) struct Meeting {
    workers: u64,
    /// How many of them have come.
    arrived: AtomicU64,
}

impl Meeting {
    pub(crate) fn new(workers: usize) -> Meeting {
        Meeting {
            workers: workers as u64,
            arrived: AtomicU64::new(0),
        }
    }

    /// Waits for the others.
    pub(crate) fn meet(&self) {
        self.arrived.fetch_add(1, Ordering::SeqCst);
        for look in 0..MAX_LOOKS {
            if self.arrived.load(Ordering::SeqCst) >= self.workers {
                return;
            }
            if look >= BUSY_LOOKS {
                yield_now();
            }
        }
    }
}
