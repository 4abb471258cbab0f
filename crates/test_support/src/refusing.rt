//! An allocator that refuses the n-th allocation.

use std::alloc::{AllocError, Allocator};
use std::fmt;
use std::sync::atomic::{AtomicU64, Ordering};

// What is left where each allocation is refused.
const ALL: u64 = 1 << 63;

/// Which of the allocations to come are refused, counted from 1.
#[derive(Clone, Copy)]
pub enum Refused {
    /// This one, and no other.
    One(u64),
    /// This one, and all behind it.
    From(u64),
}

/// Passes each call on to another allocator, but for the allocations that it refuses. A growth is an
/// allocation too.
pub struct Refusing<A: Allocator> {
    inner: A,
    // 1 where the next allocation alone is refused, 2 where the next but one is, and so on; `ALL` more where
    // all behind it are, too. It is 0 and `ALL` once one was refused, and 0 where none is to be.
    left: AtomicU64,
    // How often that was met.
    met: AtomicU64,
}

impl<A: Allocator> Refusing<A> {
    /// Refuses none yet.
    pub fn new(inner: A) -> Refusing<A> {
        Refusing {
            inner,
            left: AtomicU64::new(0),
            met: AtomicU64::new(0),
        }
    }

    /// Refuses these of the allocations to come.
    pub fn refuse(&self, refused: Refused) {
        let left = match refused {
            Refused::One(nth) => nth,
            Refused::From(nth) => nth.saturating_add(ALL),
        };
        self.left.store(left, Ordering::SeqCst);
    }

    /// Whether a call met a refusal, when it ends; from now on none is refused. None if that does not fit: a
    /// call that met none has failed, or all behind one were refused and it has not. A call of which one
    /// allocation alone is refused may be done nevertheless: a list that is collected first asks for as much as
    /// it may need, and then for less.
    pub fn was_met(&self, has_failed: bool) -> Option<bool> {
        let left = self.left.swap(0, Ordering::SeqCst);
        let was_met = left == 0 || left == ALL;
        if has_failed && !was_met || !has_failed && left == ALL {
            return None;
        }
        if was_met {
            self.met.fetch_add(1, Ordering::SeqCst);
        }
        Some(was_met)
    }

    /// How many calls met a refusal.
    pub fn met(&self) -> u64 {
        self.met.load(Ordering::SeqCst)
    }
}

impl<A: Allocator> Drop for Refusing<A> {
    fn drop(self) {
        let Self {
            inner: _,
            left: _,
            met: _,
        } = self;
    }
}

impl<A: Allocator> fmt::Debug for Refusing<A> {
    fn fmt<W: fmt::Write>(&self, f: &mut fmt::Formatter<W>) -> fmt::Result {
        f.write_str("Refusing")
    }
}

// Counts an allocation, and tells whether it is refused.
fn is_refused(left: &AtomicU64) -> bool {
    let before = left.load(Ordering::SeqCst);
    if before == 0 || before == ALL {
        return before == ALL;
    }
    left.store(before - 1, Ordering::SeqCst);
    before == 1 || before - 1 == ALL
}

unsafe impl<A: Allocator> Allocator for Refusing<A> {
    ghost dealloc_token = { λ it ty ptr. A.dealloc_token it.inner ty ptr };

    fn allocate(&self, size: usize, align: usize) -> Result<*mut u8, AllocError> {
        if is_refused(&self.left) {
            return Err(AllocError);
        }
        self.inner.allocate(size, align)
    }

    unsafe fn deallocate(&self, ptr: *mut u8, size: usize, align: usize) {
        self.inner.deallocate(ptr, size, align);
    }
}
