//! How many threads settle a fabric.

use guarded::Thresholds;

/// How many threads settle a fabric, one at least, and with how many rows to publish they are started.
#[derive(Clone, Copy)]
pub struct Crew {
    pub threads: u8,
    pub thresholds: Thresholds,
}
