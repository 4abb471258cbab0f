//! How a thread of a test waits for another.

use std::sync::atomic::{AtomicU64, Ordering};
use std::thread;
use std::time::{Clock, Duration};

/// Whether another thread makes the number as great as wanted within 1000 polls, a millisecond apart.
pub fn gets_to<H: Clock>(rt: &H, number: &AtomicU64, wanted: u64) -> bool {
    for _ in 0..1000u16 {
        if number.load(Ordering::SeqCst) >= wanted {
            return true;
        }
        thread::sleep(rt, Duration::from_millis(1));
    }
    false
}
