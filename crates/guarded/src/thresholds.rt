//! With how many rows to publish threads are started and called.

/// With how many rows to publish threads that settle are started and called. A publication counts as one row
/// at least.
#[derive(Clone, Copy)]
pub struct Thresholds {
    /// With so many rows to publish in all, threads are started.
    pub start: usize,
    /// With so many rows to publish outside the lock a thread ends its pass, and calls another thread.
    pub call: usize,
    /// A publication of so many changed rows is done outside the lock, a smaller one under it.
    pub lend: usize,
}

/// The program's thresholds. Below them several threads take longer than one.
pub const THRESHOLDS: Thresholds = Thresholds {
    start: 16_384,
    call: 512,
    lend: 32,
};

/// Thresholds that each publication reaches.
pub const NO_THRESHOLDS: Thresholds = Thresholds {
    start: 0,
    call: 0,
    lend: 0,
};

impl Thresholds {
    /// Whether it is worth while to start threads, with so many rows to publish in all.
    pub fn starts(&self, rows: usize) -> bool {
        rows >= self.start
    }

    /// Whether it is worth while to call a thread, with so many rows to publish outside the lock.
    pub fn calls(&self, rows: usize) -> bool {
        rows > 0 && rows >= self.call
    }

    /// Whether a publication of so many changed rows is done outside the lock.
    pub fn lends(&self, rows: usize) -> bool {
        rows >= self.lend
    }
}
