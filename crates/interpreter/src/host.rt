//! What a run needs of its machine.

use std::sync::Wait;
use std::thread::Threads;

/// The handles of a machine on which a network is run: by them its threads are made, and wait for each other.
pub trait Host: Threads + Wait + Copy + Send + Sync + 'static {}

impl<H: Threads + Wait + Copy + Send + Sync + 'static> Host for H {}
