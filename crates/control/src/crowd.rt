//! Threads that rest until there is enough to do for one more.

use guarded::Thresholds;
use std::sync::Wait;
use std::sync::atomic::{AtomicBool, AtomicU64, Ordering};

/// Threads of which at least one is at work until all is over, while the others rest.
#[derive(Drop)]
pub struct Crowd {
    threads: u64,
    thresholds: Thresholds,
    at_work: AtomicU64,
    calls: AtomicU64,
    over: AtomicBool,
}

impl Crowd {
    /// So many threads, none of which is at work yet.
    pub fn new(threads: usize, thresholds: Thresholds) -> Crowd {
        Crowd {
            threads: threads as u64,
            thresholds,
            at_work: AtomicU64::new(0),
            calls: AtomicU64::new(0),
            over: AtomicBool::new(false),
        }
    }

    /// With how many rows to publish its threads are called.
    pub fn thresholds(&self) -> Thresholds {
        self.thresholds
    }

    /// A thread comes. The first goes to work, another rests until a thread is called. A call that was made
    /// before it came counts.
    pub fn enter<R: Wait>(&self, rt: &R) {
        let first = self
            .at_work
            .compare_exchange(0, 1, Ordering::SeqCst, Ordering::SeqCst);
        if first.is_err() {
            self.sleep(rt, 0);
        }
    }

    /// A thread at work rests until it is called, unless it is the only one at work. It answers whether it
    /// rested.
    pub fn rest<R: Wait>(&self, rt: &R) -> bool {
        if self.at_work.fetch_sub(1, Ordering::SeqCst) <= 1 {
            self.at_work.fetch_add(1, Ordering::SeqCst);
            return false;
        }
        self.sleep(rt, self.calls.load(Ordering::SeqCst));
        true
    }

    // Until there are more calls than it has seen.
    fn sleep<R: Wait>(&self, rt: &R, seen: u64) {
        for _ in rt.forever() {
            if self.is_over() || self.calls.load(Ordering::SeqCst) != seen {
                break;
            }
            self.calls.park(rt, (seen & 0xffff_ffff) as u32);
        }
        self.at_work.fetch_add(1, Ordering::SeqCst);
    }

    /// Calls a thread that rests, if one does.
    pub fn call(&self) {
        if self.at_work.load(Ordering::SeqCst) < self.threads {
            self.calls.fetch_add(1, Ordering::SeqCst);
            self.calls.wake_one();
        }
    }

    /// All threads may go.
    pub fn end(&self) {
        self.over.store(true, Ordering::SeqCst);
        self.calls.fetch_add(1, Ordering::SeqCst);
        self.calls.wake_all();
    }

    /// Whether they may.
    pub fn is_over(&self) -> bool {
        self.over.load(Ordering::SeqCst)
    }
}
