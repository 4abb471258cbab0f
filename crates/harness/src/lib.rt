//! What the program does, held in memory, and what is found of it: for examples, cases, random scenarios and
//! tests.
//!
//! A test of a program has to know its status, its output, its faults and its journal, all at once. A
//! program that opens files and prints cannot be asked for these. But `play` runs over any readers and
//! writers, so here it runs over lists of bytes:
//!
//! ```text
//! let ran = play_in_memory(&rt, alloc, &words, b"routers = [..", journal);
//! ran.status       // 0
//! ran.out          // what it printed
//! ran.err          // what it printed of a fault; `ran.fault` is the fault itself
//! ran.kept         // the journal's text, if a run or a shell ended with 0
//! ```
//!
//! Beside the [`Outcome`] stand the verdicts, each with its rule in a contract, so what was gathered is not
//! called right by mistake:
//!
//! - `example::judge`: the run and the shell ended with 0 and printed what is wanted, to the byte, and the
//!   replay of the run's journal ended with 0.
//! - `case::judge`: status, output and fault are those that the case says, and so are journal and words, if
//!   it asks for them (`IsAsWanted` in `specs/Wanted.antt`). A [`case::Tally`] is right only if a case was
//!   counted and none was wrong.
//! - `soak::is_good`: the run and its replay ended with 0, and no packet met a router twice.
//!
//! What always holds: what [`play_in_memory`] gives is an end or a fault of that command (`Gave` in
//! `specs/Outcomes.antt`), as `play` promises.
//!
//! What is tricky: in a file without cases no case is wrong, so `Tally::is_right` is false if there was none.
//! And `soak::is_good` only says what is made of two statuses. That they are those of a run and its replay is
//! seen in the code of `trials`.
#![tactic(auto)]

pub mod case;
pub mod example;
pub mod soak;

ghost use Rattle.harness.specs.Outcomes.{Gave};

use command_line::Words;
use play::{Fault, Host, NoGate, Platform, Streams, THRESHOLDS, Thresholds, TurnGate, play};
use std::alloc::Global;
use std::io::{Read, Write};

/// What the program gave.
#[derive(Drop)]
pub struct Outcome {
    /// Its exit status.
    pub status: u8,
    /// What it printed.
    pub out: Vec<u8>,
    /// What it printed of a fault.
    pub err: Vec<u8>,
    /// The text of the journal of a run or a shell that ended with status 0.
    pub kept: Vec<u8>,
    /// The fault for which it stopped, where it did.
    pub fault: Option<Fault>,
}

/// Does what the words ask for, with the bytes of a scenario, and of a journal or the commands of a shell.
pub fn play_in_memory<H, R, J>(
    rt: &H,
    alloc: Global,
    words: &Words<'_>,
    scenario: R,
    journal: J,
) -> Outcome
where
    H: Host,
    R: Read + Drop,
    J: Read + Drop,
    ensures { Gave words.now (R.remaining scenario)
        (J.remaining journal) result.status result.kept.items }
{
    play_in_memory_by(rt, alloc, THRESHOLDS, &NoGate, words, scenario, journal)
}

/// The same, by threads that are started from these thresholds on, and call this gate.
pub fn play_in_memory_by<H, G, R, J>(
    rt: &H,
    alloc: Global,
    thresholds: Thresholds,
    gate: &G,
    words: &Words<'_>,
    scenario: R,
    journal: J,
) -> Outcome
where
    H: Host,
    G: TurnGate + Sync,
    R: Read + Drop,
    J: Read + Drop,
    ensures { Gave words.now (R.remaining scenario)
        (J.remaining journal) result.status result.kept.items }
{
    let mut out = Vec::new(alloc);
    let mut err = Vec::new(alloc);
    let mut kept = Vec::new(alloc);
    let mut fault = None;
    let by = Platform {
        rt,
        alloc,
        thresholds,
        gate,
    };
    // Of the type that `run_quietly` has, so that no command is compiled once more.
    let mut to_out: &mut dyn Write = &mut out;
    let mut to_err: &mut dyn Write = &mut err;
    let mut streams = Streams {
        out: &mut to_out,
        err: &mut to_err,
    };
    let status = play(
        &by,
        words,
        scenario,
        journal,
        &mut streams,
        true,
        &mut kept,
        &mut fault,
    );
    Outcome {
        status,
        out,
        err,
        kept,
        fault,
    }
}
