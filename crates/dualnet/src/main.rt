//! The program: a network of IPv4 routers, run by the script of a scenario.
//!
//! Contracts and tests cannot see files, streams and the arguments of a process, so this crate has these
//! alone, and as little else as it can. All that can be proved or tested stands in crates below:
//! `command_line` reads the command line, `play` does what it asks for, `advice` tells more of a fault.
//!
//! ```text
//!   arguments  -->  read_words  -->  Words
//!   files      -->  open_file   -->  Input, kept as it is read   --.
//!                                                                   +-->  play  -->  status, output, fault
//!   standard input (commands of a shell)  -------------------------'
//!   journal    <--  fs::write   <--  what `play` kept, if the status is 0
//! ```
//!
//! ```text
//! ./dualnet run examples/ring.toml --journal ring.journal      # status 0
//! ./dualnet replay examples/ring.toml ring.journal             # replay agrees: 106 steps
//! ```
//!
//! - Output is written line by line to a terminal, and else a block at a time.
//! - With `--explain` the bytes of both files are kept as they are read, so that advice can show the line at
//!   fault. The text of a journal is made only if a file is named for it.
//! - A journal that would be written over a file that is read, or to the standard output, is refused before the
//!   run begins (49).
//!
//! What always holds: the exit status is the one that `play` promises for these words and files. If the
//! journal cannot be written after that, it is 2. No function here has a contract of its own.
//!
//! What is tricky: what was printed before a fault has to be seen before it, although output may come in
//! blocks, so `play` flushes the output first. And the program goes by two names: called as `dualnet-view`, by a
//! link, it shows a run (`src/pages.rt`), because one program is proved and compiled in half the time of two.
#![tactic(auto)]

mod pages;

use advice::{explain, file_to_explain};
use command_line::{Words, read_words};
use play::{Fault, FaultKind, Host, NoGate, Platform, Streams, THRESHOLDS, play, refuse};
use program_files::{
    Input, exit_code, explain_unreadable, given_words, is_input, is_one_file, kept_path,
    open_beside, open_file, print_error, scenario_path, second_path,
};
use std::io::{BufWriter, IsTerminal, LineWriter, Read, Write};
use std::process::ExitCode;
use std::{fmt, fs, io};

fn main(rt: HostRuntime) -> ExitCode {
    let status = status(&rt, &rt);
    exit_code(&rt, status)
}

// Does what the command line asks for.
fn status<H: Host>(rt: &HostRuntime, wait: &H) -> io::Result<u8> {
    match given_words(rt)? {
        Ok(given) => run_given(rt, wait, &given),
        Err(status) => Ok(status),
    }
}

// Does what the words of the command line ask for.
fn run_given<H: Host>(rt: &HostRuntime, wait: &H, given: &[String]) -> io::Result<u8> {
    let words: Vec<&str> = given.iter().map(|word| word.as_str()).collect(rt.alloc())?;
    if pages::is_called(words.as_slice()) {
        return pages::show_given(rt, wait, words.as_slice());
    }
    match read_words(rt.alloc(), words.as_slice()) {
        Ok(words) => print_by(rt, wait, &words),
        Err(error) => Ok(print_error(rt, &error)),
    }
}

// Prints line by line where somebody reads along, and else a block at a time. Writers are of one type from here on,
// so that all that prints is compiled once.
fn print_by<H: Host>(rt: &HostRuntime, wait: &H, words: &Words<'_>) -> io::Result<u8> {
    let out = rt.stdout();
    let mut err = rt.stderr();
    if out.is_terminal() {
        let mut lines = LineWriter::new(rt.alloc(), out)?;
        Ok(run_words(rt, wait, words, &mut lines, &mut err))
    } else {
        let mut blocks = BufWriter::new(rt.alloc(), out)?;
        Ok(run_words(rt, wait, words, &mut blocks, &mut err))
    }
}

// Does what the words ask for, over the files that they name.
fn run_words<H: Host>(
    rt: &HostRuntime,
    wait: &H,
    words: &Words<'_>,
    out: &mut dyn Write,
    err: &mut dyn Write,
) -> u8 {
    if let Some(path) = unwritable_path(rt, words) {
        return refuse_journal(rt, words, path, "it is read, or is the standard output");
    }
    let keeps = file_to_explain(words).is_some();
    let mut scenario = Kept::of(rt, open_file(rt, scenario_path(words)), keeps);
    let mut second = Kept::of(rt, second_input(rt, words), keeps);
    run_over(rt, wait, words, &mut scenario, &mut second, out, err)
}

// Does what the words ask for, over these files.
fn run_over<H: Host>(
    rt: &HostRuntime,
    wait: &H,
    words: &Words<'_>,
    scenario: &mut Kept,
    second: &mut Kept,
    mut out: &mut dyn Write,
    mut err: &mut dyn Write,
) -> u8 {
    let mut journal = Vec::new(rt.alloc());
    let mut fault = None;
    let by = Platform {
        rt: wait,
        alloc: rt.alloc(),
        thresholds: THRESHOLDS,
        gate: &NoGate,
    };
    let mut streams = Streams {
        out: &mut out,
        err: &mut err,
    };
    let status = play(
        &by,
        words,
        &mut *scenario,
        &mut *second,
        &mut streams,
        kept_path(words).is_some(),
        &mut journal,
        &mut fault,
    );
    let _ = out.flush();
    if let Some(fault) = fault {
        explain_fault(rt, words, fault, &scenario.bytes, &second.bytes);
    }
    keep_journal(rt, words, status, &journal)
}

// Tells more of a fault, where that is asked for: of files that cannot be read also why.
fn explain_fault(
    rt: &HostRuntime,
    words: &Words<'_>,
    fault: Fault,
    scenario: &[u8],
    second: &[u8],
) {
    if fault.kind == FaultKind::Unreadable && file_to_explain(words).is_some() {
        for path in [scenario_path(words), second_path(words)] {
            if let Some(path) = path {
                explain_unreadable(rt, path, &mut rt.stderr());
            }
        }
    }
    let _ = explain(rt.alloc(), words, fault, scenario, second, &mut rt.stderr());
}

// Writes the journal of a run or a shell that ended with this status, where that is asked for, and answers the exit
// status.
fn keep_journal(rt: &HostRuntime, words: &Words<'_>, status: u8, journal: &[u8]) -> u8 {
    match kept_path(words) {
        Some(path) if status == 0 => match fs::write(rt, path, journal) {
            Ok(()) => 0,
            Err(error) => refuse_journal(rt, words, path, error),
        },
        _ => status,
    }
}

// The journal that is replayed, the document of times, or the commands of a shell.
fn second_input(rt: &HostRuntime, words: &Words<'_>) -> Input {
    match *words {
        Words::Shell { .. } => Input::Standard(rt.stdin()),
        _ => open_beside(rt, scenario_path(words), second_path(words)),
    }
}

// Whether the standard input is read: by a shell, or as the scenario.
fn reads_input(words: &Words<'_>) -> bool {
    matches!(words, Words::Shell { .. }) || scenario_path(words) == Some("-")
}

// The path of the journal, if that is the standard output, which has the lines, or a file that is read.
fn unwritable_path<'a>(rt: &HostRuntime, words: &Words<'a>) -> Option<&'a str> {
    let journal = kept_path(words)?;
    let scenario = scenario_path(words)?;
    let is_in_use = journal == "-"
        || is_one_file(rt, scenario, journal)
        || (reads_input(words) && is_input(rt, journal));
    if is_in_use { Some(journal) } else { None }
}

// Tells that the journal cannot be written there and, if that is asked for, why; and answers the exit status.
fn refuse_journal<D: fmt::Display + Drop>(
    rt: &HostRuntime,
    words: &Words<'_>,
    path: &str,
    why: D,
) -> u8 {
    let fault = Fault::from(FaultKind::Unwritable);
    let status = refuse(fault, &mut rt.stderr());
    if file_to_explain(words).is_some() {
        let _ = writeln!(rt.stderr(), "  {path}: {why}");
    }
    explain_fault(rt, words, fault, &[], &[]);
    status
}

// A reader, and what was read by it, where that is kept.
#[derive(Drop)]
struct Kept {
    file: Input,
    keeps: bool,
    bytes: Vec<u8>,
}

impl Kept {
    // Nothing is read yet.
    fn of(rt: &HostRuntime, file: Input, keeps: bool) -> Kept {
        Kept {
            file,
            keeps,
            bytes: Vec::new(rt.alloc()),
        }
    }
}

impl Read for Kept {
    fn read(&mut self, buf: &mut [u8]) -> io::Result<usize> {
        let count = self.file.read(buf)?;
        if self.keeps {
            self.bytes.extend_from_slice(&buf[..count.min(buf.len())])?;
        }
        Ok(count)
    }
}
