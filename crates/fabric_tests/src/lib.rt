//! Tests of all that threads share: publications, queues and workers, and above them fabrics and control threads,
//! each through its public surface.
//!
//! Some facts of threads and of memory are in no clause. For example, a reader sees what its writer publishes
//! while both go on, and a turn lets the lock go while it publishes. A body that does neither meets every
//! contract, so these tests make it happen: at a *gate* a thread waits until another has come so far.
//!
//! ```text
//!   publications                  what readers see while a writer publishes; no network runs here
//!   queues, workers               jobs through queues, and replies that are gathered
//!   worker_pools                  200 jobs for one, two and sixteen threads, which meet at their first jobs
//!   fabrics, controls, outside    steps, turns, threads that serve and settle side by side
//!   tickets                       what is refused while a writer is out
//!   turns                         whoever has something to do is found without asking all
//!   jobs                          what readers answer meanwhile
//!   refusals, scripts             want of memory
//! ```
//!
//! Want of memory is tried on a publication, a queue and two workers, and on scripts of two and three routers.
//! Of each step the first, second, third .. allocation is refused, alone or with all behind it. That goes on
//! until an attempt meets no refusal:
//!
//! ```text
//!   attempt 1   its first allocation is refused      nothing has changed
//!   attempt 2   its second allocation is refused     nothing has changed
//!   attempt 3   it meets no refusal                  the step is done, as in a run that is never refused
//! ```
//!
//! After a refused attempt all that can be read is as it was: the journal, what is on links, machines, rows,
//! and each router's answers. The end is that of a run without refusals.
//!
//! What is tricky: a call that takes the lock does not say what it did. Only what its share gained says so,
//! and the fabric that comes back, so such tests close the control, and look at both.
//!
//! What a test expects is taken from the definitions, and never from what the program gave. The crate
//! promises nothing, and no crate stands on it.
#![tactic(auto)]

#[cfg(test)]
mod controls;
#[cfg(test)]
mod equal_to;
#[cfg(test)]
mod fabrics;
#[cfg(test)]
mod jobs;
#[cfg(test)]
mod outside;
#[cfg(test)]
mod publications;
#[cfg(test)]
mod queues;
#[cfg(test)]
mod refusals;
#[cfg(test)]
mod scripts;
#[cfg(test)]
mod tickets;
#[cfg(test)]
mod turns;
#[cfg(test)]
mod worker_pools;
#[cfg(test)]
mod workers;
