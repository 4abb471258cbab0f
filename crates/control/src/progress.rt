//! How far a settling is.

/// So many steps lie between two tellings of a settling.
pub const STEPS_BETWEEN: usize = 4096;

/// Is told how far a settling is: each time that its fabric's journal has reached a multiple of
/// [`STEPS_BETWEEN`] by a step of the thread that settles it. The turns that threads take together are not
/// told one by one.
pub trait Progress {
    /// The fabric has done so many steps since it was opened.
    fn steps(&mut self, steps: usize);
}

/// Nobody is told.
impl Progress for () {
    fn steps(&mut self, _steps: usize) {}
}
