//! Random scenarios. Each is run by several control threads and forwarding workers, the journal of the run
//! is replayed, and packets are traced after each of its steps. Threads are started whenever there is
//! something to publish, since such networks reach no threshold of the program. The seed is printed first,
//! then the text of each scenario that does not end as it should, and then how many threads did steps.

use crate::examples::{REPLAY, RUN};
use crate::random::{Scenario, draw};
use crate::traces::{PART, are_straight, step_lines, trace_all};
use command_line::{Format, Words};
use harness::soak::is_good;
use harness::{Outcome, play_in_memory_by};
use play::{Host, NO_THRESHOLDS, TurnGate};
use std::alloc::Global;
use std::io::Write;
use std::sync::atomic::{AtomicU64, Ordering};
use std::thread;
use std::time::{Clock, Duration};

const THREADS: u8 = 4;

const WORKERS: u8 = 4;

// So often a thread waits for the others at most, 1000 polls each time.
const MOST_WAITS: u64 = 10;

// Which threads have published, a bit for each. One that is to publish waits until all of them are.
#[derive(Drop)]
struct Turnout<'a, H> {
    rt: &'a H,
    published: AtomicU64,
    waits: AtomicU64,
}

impl<'a, H: Clock> Turnout<'a, H> {
    // Threads have waited so often.
    fn new(rt: &'a H, waits: u64) -> Self {
        Turnout {
            rt,
            published: AtomicU64::new(0),
            waits: AtomicU64::new(waits),
        }
    }

    // How many threads have published.
    fn count(&self) -> u32 {
        self.published.load(Ordering::SeqCst).count_ones()
    }

    fn wait(&self) {
        for _ in 0..1000u16 {
            if self.count() >= u32::from(THREADS) {
                return;
            }
            thread::sleep(self.rt, Duration::from_millis(1));
        }
    }
}

impl<H: Clock> TurnGate for Turnout<'_, H> {
    fn before(&self, _thread: u8, _turn: u64) {}

    fn publishing(&self, thread: u8, _router: u16) {
        if let Some(bit) = 1u64.checked_shl(u32::from(thread)) {
            self.published.fetch_or(bit, Ordering::SeqCst);
        }
        if self.count() < u32::from(THREADS)
            && self.waits.fetch_add(1, Ordering::SeqCst) < MOST_WAITS
        {
            self.wait();
        }
    }

    fn after(&self, _thread: u8, _turn: u64) {}
}

/// What the program gives if no thread waits for others. The gate is of the same type, so that all is compiled once.
pub fn do_in_memory<H: Host + Clock>(
    rt: &H,
    alloc: Global,
    words: &Words<'_>,
    scenario: &[u8],
    journal: &[u8],
) -> Outcome {
    let gate = Turnout::new(rt, MOST_WAITS);
    play_in_memory_by(rt, alloc, NO_THRESHOLDS, &gate, words, scenario, journal)
}

/// Whether the scenarios of so many seeds, from this one on, are good, and there is one; tells of those
/// that are not.
pub fn are_scenarios_good<H: Host + Clock, W: Write>(
    rt: &H,
    alloc: Global,
    seed: u64,
    count: u32,
    out: &mut W,
) -> bool {
    let _ = writeln!(out, "seed {seed}");
    let turnout = Turnout::new(rt, 0);
    let mut good = 0u32;
    for number in 0..count {
        if is_seed_good(alloc, &turnout, seed, number, out) {
            good = good.saturating_add(1);
        }
    }
    let did = turnout.count();
    let _ = writeln!(
        out,
        "{good} of {count} run by {THREADS} threads, of which {did} did steps, and {WORKERS} workers, \
         replayed and traced"
    );
    count > 0 && good == count
}

// Whether the scenario of a seed is good; tells of one that is not.
fn is_seed_good<H: Host + Clock, W: Write>(
    alloc: Global,
    turnout: &Turnout<'_, H>,
    seed: u64,
    number: u32,
    out: &mut W,
) -> bool {
    let Ok(scenario) = draw(alloc, seed.wrapping_add(u64::from(number))) else {
        let _ = writeln!(out, "scenario {number}: no memory");
        return false;
    };
    let is_good = try_one(alloc, turnout, &scenario);
    if !is_good {
        let _ = write!(out, "scenario {number}:\n{}", scenario.text);
    }
    is_good
}

const RUN_BY_THREADS: Words<'static> = Words::Run {
    file: "",
    threads: THREADS,
    workers: WORKERS,
    journal: None,
    no_journal: false,
    explain: false,
    format: Format::Text,
    progress: false,
};

// Whether a scenario is run to its end, what its journal tells is done again, and no packet that is
// traced after a step of it meets a router twice.
fn try_one<H: Host + Clock>(alloc: Global, turnout: &Turnout<'_, H>, scenario: &Scenario) -> bool {
    let (rt, words, text) = (turnout.rt, &RUN_BY_THREADS, scenario.text.as_bytes());
    let none = b"".as_slice();
    let ran = play_in_memory_by(rt, alloc, NO_THRESHOLDS, turnout, words, text, none);
    let replayed = do_in_memory(rt, alloc, &REPLAY, text, ran.kept.as_slice()).status;
    let straight = is_straight(rt, alloc, scenario, &ran.kept);
    is_good(ran.status, replayed, straight)
}

// Whether the steps of a journal are done again with traces after each, none of which meets a router
// twice.
fn is_straight<H: Host + Clock>(rt: &H, alloc: Global, scenario: &Scenario, kept: &[u8]) -> bool {
    let Some(steps) = step_lines(kept) else {
        return false;
    };
    let last = steps.lines().count().saturating_sub(1) / PART;
    for part in 0..=last {
        if !is_part_straight(rt, alloc, scenario, steps, part) {
            return false;
        }
    }
    true
}

fn is_part_straight<H: Host + Clock>(
    rt: &H,
    alloc: Global,
    scenario: &Scenario,
    steps: &str,
    part: usize,
) -> bool {
    let Some(text) = trace_all(alloc, scenario, steps, part) else {
        return false;
    };
    let ran = do_in_memory(rt, alloc, &RUN, text.as_bytes(), b"");
    match str::from_utf8(&ran.out) {
        Ok(out) => ran.status == 0 && are_straight(out),
        Err(_) => false,
    }
}
