//! What goes through the queue.

use publication::{FabricName, Job};

/// What a worker takes.
#[derive(Drop)]
pub enum Taken<B: FabricName> {
    /// An address to look up.
    Job(Job<B>),
    /// The worker is to end.
    Stop,
}
