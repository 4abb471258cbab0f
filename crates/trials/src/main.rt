//! The program of the gate: tries the program, in memory, on what its words name, and tells what it finds.
//!
//! Examples, cases and random runs are many, and each has to be tried in several ways. A test for each
//! would say the same again and again, so they are data, and this program tries them: `trials WORD..`. The
//! words are
//!
//! ```text
//!   FILE.toml               an example: the scenario of that file
//!   FILE.cases              the cases of that file
//!   FILE.faults             the table of faults of that file
//!   soak SEED COUNT         so many random scenarios
//!   load WORKERS ANSWERS    1 to 16 workers, each of which answers so many jobs
//! ```
//!
//! An example has to print what stands beside it in a run and in a shell, and its journal has to be replayed.
//! A case has to give what its file says. A random scenario is run by several threads, replayed, and packets
//! are traced after each of its steps. The head of each module says how its files are written.
//!
//! ```text
//! === a link that is up is refused                     a case: its name,
//! $ dualnet run scenario.toml                          its words,
//! --- scenario                                         a block: what stands in the scenario
//! ..
//! --- err                                              a block: what is told of the fault
//! ..
//! ```
//!
//! What always holds: what is right is said by the contracts of `harness`. So a case is called right only if
//! what was gathered is as its file says. Words that are done are not done again (the clause of `first_task`). A number that is
//! drawn is below its bound (the clause of `Dice::below`).
//!
//! The exit status is 0 if all is as it should be, else 1. Without words it is 1, too.
//!
//! What is tricky: networks of cases are too small for the program to start threads. So cases that ask for
//! threads get thresholds at which these are started whenever there is something to publish.
#![tactic(auto)]

mod asking;
mod cases;
mod examples;
mod fault_files;
mod load;
mod random;
mod soak;
mod traces;

ghost use Rattle.std.specs.Prelude.{◌≡◌, ◌<◌, IfSome, length};

use crate::cases::are_cases_right;
use crate::examples::is_example_right;
use crate::load::are_jobs_answered;
use crate::soak::are_scenarios_good;
use play::Host;
use std::env;
use std::io::{self, Write};
use std::process::ExitCode;
use std::time::Clock;

const USAGE: &str = "usage: trials WORD.., where the words are FILE.toml, FILE.cases, FILE.faults, \
soak SEED COUNT, load WORKERS ANSWERS";

fn main(rt: HostRuntime) -> ExitCode {
    match try_words(&rt, &rt) {
        Ok(true) => ExitCode::from(0),
        _ => ExitCode::from(1),
    }
}

// Whether there are words, each of them asks for something, and all of that is as it should be.
fn try_words<H: Host + Clock>(rt: &HostRuntime, wait: &H) -> io::Result<bool> {
    let given: Vec<String> = env::args(rt)?.skip(1).collect(rt.alloc())?;
    let words: Vec<&str> = given.iter().map(|word| word.as_str()).collect(rt.alloc())?;
    if words.is_empty() {
        let _ = writeln!(&mut rt.stderr(), "{USAGE}");
        return Ok(false);
    }
    let mut out = rt.stdout();
    let mut right = true;
    let mut rest = words.as_slice();
    while let Some((task, after)) = first_task(rest) {
        right = is_right(rt, wait, task, &mut out) && right;
        rest = after;
    }
    if let Some(word) = rest.first() {
        let _ = writeln!(&mut out, "{word}: asks for nothing that can be tried");
        let _ = writeln!(&mut rt.stderr(), "{USAGE}");
        right = false;
    }
    Ok(right)
}

// What some words ask for.
#[derive(Clone, Copy)]
enum Task<'a> {
    Example(&'a str),
    Cases(&'a str),
    Soak { seed: u64, count: u32 },
    Load { workers: u8, answers: u32 },
}

// What the first words ask for, and the words behind them; none where they ask for nothing.
fn first_task<'w, 'a>(words: &'w [&'a str]) -> Option<(Task<'a>, &'w [&'a str])>
    ensures { IfSome result (λ found. length found.1.now < length words.now) }
{
    match words {
        ["soak", seed, count, rest @ ..] => with(soak_of(seed, count), rest),
        ["load", workers, answers, rest @ ..] => with(load_of(workers, answers), rest),
        [file, rest @ ..] => with(file_of(file), rest),
        _ => None,
    }
}

fn with<'w, 'a>(task: Option<Task<'a>>, rest: &'w [&'a str]) -> Option<(Task<'a>, &'w [&'a str])>
    ensures { IfSome result (λ found. found.1 ≡ rest.entry) }
{
    Some((task?, rest))
}

fn soak_of(seed: &str, count: &str) -> Option<Task<'static>> {
    let (seed, count) = (seed.parse().ok()?, count.parse().ok()?);
    Some(Task::Soak { seed, count })
}

fn load_of(workers: &str, answers: &str) -> Option<Task<'static>> {
    let (workers, answers) = (workers.parse().ok()?, answers.parse().ok()?);
    Some(Task::Load { workers, answers })
}

fn file_of(file: &str) -> Option<Task<'_>> {
    if file.ends_with(".toml") {
        Some(Task::Example(file))
    } else if file.ends_with(".cases") || file.ends_with(".faults") {
        Some(Task::Cases(file))
    } else {
        None
    }
}

// Whether what is asked for is as it should be; tells what is found of it.
fn is_right<H: Host + Clock, W: Write>(
    rt: &HostRuntime,
    wait: &H,
    task: Task<'_>,
    out: &mut W,
) -> bool {
    match task {
        Task::Example(file) => is_example_right(rt, wait, file, out),
        Task::Cases(file) => are_cases_right(rt, wait, file, out),
        Task::Soak { seed, count } => are_scenarios_good(wait, rt.alloc(), seed, count, out),
        Task::Load { workers, answers } => are_jobs_answered(rt, wait, workers, answers, out),
    }
}
