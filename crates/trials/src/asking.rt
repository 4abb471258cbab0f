//! Does what a case asks, and tells where it gives something else. Where it asks for several threads, these are
//! started whenever there is something to publish: the networks of cases reach no threshold of the program.

use crate::examples::REPLAY;
use crate::soak::do_in_memory;
use advice::explain;
use command_line::{Error, Words, exit_status, read_words};
use harness::Outcome;
use harness::case::{Given, Verdict, Wanted, judge};
use play::Host;
use std::alloc::{AllocError, Global};
use std::io::Write;
use std::time::Clock;

/// What is asked, of which texts, and what it should give.
#[derive(Clone, Copy)]
pub struct Case<'a> {
    /// The file that it stands in.
    pub file: &'a str,
    pub name: &'a str,
    /// Command lines, each of which should give the same.
    pub commands: &'a str,
    pub scenario: &'a str,
    pub journal: &'a str,
    pub wanted: Wanted<'a>,
}

/// Whether there is a command line, and each gives what it should; tells of those that do not.
pub fn is_right<H: Host + Clock, W: Write>(
    wait: &H,
    alloc: Global,
    case: &Case<'_>,
    out: &mut W,
) -> Result<bool, AllocError> {
    if case.commands.is_empty() {
        let _ = writeln!(out, "{}: {}: asks nothing", case.file, case.name);
        return Ok(false);
    }
    let mut right = true;
    for line in case.commands.lines() {
        right = is_line_right(wait, alloc, case, line, out)? && right;
    }
    Ok(right)
}

// Whether a line asks something, and gives what it should.
fn is_line_right<H: Host + Clock, W: Write>(
    wait: &H,
    alloc: Global,
    case: &Case<'_>,
    line: &str,
    out: &mut W,
) -> Result<bool, AllocError> {
    let Some(words) = line.strip_prefix("$ ") else {
        let _ = writeln!(out, "{}: {}: no command line: {line}", case.file, case.name);
        return Ok(false);
    };
    let given = ask_words(wait, alloc, case, words)?;
    let verdict = judge(&case.wanted, &given);
    if verdict != Verdict::IsRight {
        let _ = writeln!(out, "{}: {}: {line}", case.file, case.name);
        print_difference(&case.wanted, &given, verdict, out);
    }
    Ok(verdict == Verdict::IsRight)
}

// What a command line gives.
fn ask_words<H: Host + Clock>(
    wait: &H,
    alloc: Global,
    case: &Case<'_>,
    line: &str,
) -> Result<Given, AllocError> {
    let words: Vec<&str> = line.split(' ').collect(alloc)?;
    match read_words(alloc, words.as_slice()) {
        Ok(words) => do_words(wait, alloc, case, &words),
        Err(error) => print_refusal(alloc, &error),
    }
}

fn do_words<H: Host + Clock>(
    wait: &H,
    alloc: Global,
    case: &Case<'_>,
    asked: &Words<'_>,
) -> Result<Given, AllocError> {
    let words = format!(in alloc; "{asked:?}\n")?;
    let scenario = case.scenario.as_bytes();
    let journal = case.journal.as_bytes();
    let mut outcome = do_in_memory(wait, alloc, asked, scenario, journal);
    // Where two outputs are right, it may be the other.
    let counted = case.wanted.other.is_some()
        || is_alike_counted(wait, alloc, asked, scenario, journal, &outcome);
    if let Some(fault) = outcome.fault {
        let _ = explain(alloc, asked, fault, scenario, journal, &mut outcome.err);
    }
    let replay = replay_status(wait, alloc, asked, scenario, &outcome);
    Ok(Given {
        outcome,
        words,
        replay,
        counted,
    })
}

// The status of the replay of a run or a shell that kept its steps and came to its end, else 0.
fn replay_status<H: Host + Clock>(
    wait: &H,
    alloc: Global,
    asked: &Words<'_>,
    scenario: &[u8],
    ran: &Outcome,
) -> u8 {
    match *asked {
        Words::Run {
            no_journal: false,
            ..
        }
        | Words::Shell {
            no_journal: false,
            ..
        } if ran.status == 0 => {
            do_in_memory(wait, alloc, &REPLAY, scenario, ran.kept.as_slice()).status
        }
        _ => 0,
    }
}

// Whether a run by one thread, or a shell, gives the same if its steps are counted and not kept. One that saves is
// another then.
fn is_alike_counted<H: Host + Clock>(
    wait: &H,
    alloc: Global,
    asked: &Words<'_>,
    scenario: &[u8],
    journal: &[u8],
    ran: &Outcome,
) -> bool {
    let counted = match *asked {
        Words::Run {
            file,
            threads: 1,
            explain,
            format,
            progress,
            no_journal: false,
            ..
        } => Words::Run {
            file,
            threads: 1,
            workers: 1,
            journal: None,
            explain,
            format,
            progress,
            no_journal: true,
        },
        Words::Shell {
            file,
            explain,
            format,
            no_journal: false,
            ..
        } => Words::Shell {
            file,
            journal: None,
            explain,
            format,
            no_journal: true,
        },
        _ => return true,
    };
    let again = do_in_memory(wait, alloc, &counted, scenario, journal);
    let is_same = again.status == ran.status && again.out == ran.out && again.err == ran.err;
    is_same || tells_of_saving(&ran.out) || tells_of_saving(&ran.err)
}

// Whether a text tells that a run with a journal saves nothing.
fn tells_of_saving(text: &[u8]) -> bool {
    str::from_utf8(text).is_ok_and(|text| text.contains("54 JournalKept"))
}

// What the program gives where its command line asks for nothing that can be done.
fn print_refusal(alloc: Global, error: &Error) -> Result<Given, AllocError> {
    let text = error.to_string(alloc)?.into_bytes();
    let nothing = Vec::new(alloc);
    let (out, err) = if error.use_stderr() {
        (nothing, text)
    } else {
        (text, nothing)
    };
    let outcome = Outcome {
        status: exit_status(error),
        out,
        err,
        kept: Vec::new(alloc),
        fault: None,
    };
    Ok(Given {
        outcome,
        words: String::new(alloc),
        replay: 0,
        counted: true,
    })
}

// Tells what was given that should not be.
fn print_difference<W: Write>(wanted: &Wanted<'_>, given: &Given, verdict: Verdict, out: &mut W) {
    let ran = &given.outcome;
    let (wanted, bytes) = match verdict {
        Verdict::PrintsSomethingElse => (wanted.out.text(), ran.out.as_slice()),
        Verdict::KeepsSomethingElse => (wanted.kept.unwrap_or(""), ran.kept.as_slice()),
        Verdict::IsReadAsSomethingElse => (wanted.words.unwrap_or(""), given.words.as_bytes()),
        _ => (wanted.err.text(), ran.err.as_slice()),
    };
    let text = str::from_utf8(bytes).unwrap_or("no UTF-8");
    let difference = first_difference(wanted, text);
    let _ = writeln!(
        out,
        "    {}, at status {}, and line {}\n    should be: {}\n    is:        {}",
        verdict.text(),
        ran.status,
        difference.line,
        difference.wanted,
        difference.given
    );
}

// The first line at which two texts differ.
#[derive(Clone, Copy)]
struct Difference<'w, 'g> {
    line: usize,
    wanted: &'w str,
    given: &'g str,
}

fn first_difference<'w, 'g>(wanted: &'w str, given: &'g str) -> Difference<'w, 'g> {
    let mut others = given.lines();
    let mut line = 1usize;
    for wanted in wanted.lines() {
        let given = others.next().unwrap_or("nothing");
        if given != wanted {
            return Difference {
                line,
                wanted,
                given,
            };
        }
        line = line.saturating_add(1);
    }
    let wanted = "nothing";
    let given = others.next().unwrap_or("nothing");
    Difference {
        line,
        wanted,
        given,
    }
}
