//! Examples. The scenario of an example is run, and the commands of its script are done by a shell. Each
//! of the two has to print what stands beside it, in the file of the same name that ends in `.out`; and
//! the journal of the run has to be replayed.

use crate::soak::do_in_memory;
use command_line::{Format, Words};
use harness::example::{Verdict, judge};
use plans::read_scenario;
use play::Host;
use std::alloc::{AllocError, Global};
use std::fs;
use std::io::{self, Write};
use std::time::Clock;

/// A run by one thread.
pub const RUN: Words<'static> = Words::Run {
    file: "",
    threads: 1,
    workers: 1,
    journal: None,
    no_journal: false,
    explain: false,
    format: Format::Text,
    progress: false,
};

/// The replay of a journal.
pub const REPLAY: Words<'static> = Words::Replay {
    file: "",
    journal: "",
    explain: false,
    format: Format::Text,
    progress: false,
};

const SHELL: Words<'static> = Words::Shell {
    file: "",
    journal: None,
    no_journal: false,
    explain: false,
    format: Format::Text,
};

/// Whether the example of this scenario's file is as it should be; tells what is found of it.
pub fn is_example_right<H: Host + Clock, W: Write>(
    rt: &HostRuntime,
    wait: &H,
    file: &str,
    out: &mut W,
) -> bool {
    let verdict = match try_example(rt, wait, file) {
        Ok(verdict) => verdict,
        Err(_) => Verdict::IsUnread,
    };
    let _ = writeln!(out, "{file}: {}", verdict.text());
    verdict == Verdict::IsAsItShouldBe
}

// Reads a scenario, and what it should print, and tries it.
fn try_example<H: Host + Clock>(rt: &HostRuntime, wait: &H, file: &str) -> io::Result<Verdict> {
    let alloc = rt.alloc();
    let wanted = output_of(rt, file)?;
    let scenario = fs::read_to_string(rt, file)?;
    let typed = shell_input(alloc, scenario.as_str())?;
    Ok(try_texts(wait, alloc, scenario.as_bytes(), typed.as_bytes(), &wanted))
}

// What stands beside a scenario.
fn output_of(rt: &HostRuntime, file: &str) -> io::Result<Vec<u8>> {
    let name = file.strip_suffix(".toml").unwrap_or(file);
    let output = format!(in rt.alloc(); "{name}.out")?;
    fs::read(rt, output.as_str())
}

// Runs a scenario, types these lines into a shell of it, and replays the run's journal.
fn try_texts<H: Host + Clock>(
    wait: &H,
    alloc: Global,
    scenario: &[u8],
    typed: &[u8],
    wanted: &[u8],
) -> Verdict {
    let ran = do_in_memory(wait, alloc, &RUN, scenario, b"");
    let replayed = do_in_memory(wait, alloc, &REPLAY, scenario, ran.kept.as_slice());
    let shown = do_in_memory(wait, alloc, &SHELL, scenario, typed);
    judge(&ran, &shown, wanted, &replayed)
}

// The lines of a scenario's script, as they are typed into a shell; none where it is no scenario.
fn shell_input(alloc: Global, text: &str) -> Result<String, AllocError> {
    match read_scenario(alloc, text) {
        Ok(lines) => lines.script.join(alloc, "\n"),
        Err(_) => Ok(String::new(alloc)),
    }
}
