//! Files of cases. Before the first case stand lines of comment, which begin with `#`. An empty line and
//! `=== NAME` begin a case. Its command lines follow, each as `$ dualnet WORDS`, and each has to give
//! what the case says. Then its blocks follow, a line `--- BLOCK` and the lines of its text:
//!
//!     scenario    the scenario; where it is missing, that of the case before
//!     journal     the journal that is replayed, or what is typed into a shell; where it is missing, that
//!                 of the case before
//!     line N      stands for line N of the journal, here alone
//!     out         what is printed; where it is missing, nothing
//!     out or      what may be printed in place of that
//!     err         what is told of a fault; where it is missing, nothing
//!     kept        the journal that a run keeps; where it is missing, any
//!     words       what the command line asks for; where it is missing, anything
//!     status N    the exit status; where it is missing, 0
//!
//! Where the text of `out` or `err` ends with `..` and a line feed, it is met by each text that begins
//! like it. The text of a case's last block has no line feed at its end if no empty line follows. The
//! journal of a run or a shell that ends with status 0 has to be replayed with status 0.

use crate::asking::{Case, is_right};
use crate::fault_files::do_faults;
use harness::case::{Tally, Text, Wanted};
use play::Host;
use std::alloc::{AllocError, Global};
use std::fs;
use std::io::{self, Write};
use std::time::Clock;

/// Whether a file, of cases or a table of faults, can be read, has cases, and all of them are right; tells
/// how many there are, and of those that are not right.
pub fn are_cases_right<H: Host + Clock, W: Write>(
    rt: &HostRuntime,
    wait: &H,
    file: &str,
    out: &mut W,
) -> bool {
    match do_file(rt, wait, file, out) {
        Ok(tally) => {
            let _ = writeln!(out, "{file}: {tally}");
            tally.is_right()
        }
        Err(_) => {
            let _ = writeln!(out, "{file}: cannot be read");
            false
        }
    }
}

// Does the cases of a file, of either kind.
fn do_file<H: Host + Clock, W: Write>(
    rt: &HostRuntime,
    wait: &H,
    file: &str,
    out: &mut W,
) -> io::Result<Tally> {
    let text = fs::read_to_string(rt, file)?;
    let tally = if file.ends_with(".faults") {
        do_faults(wait, rt.alloc(), file, text.as_str(), out)?
    } else {
        do_cases(wait, rt.alloc(), file, text.as_str(), out)?
    };
    Ok(tally)
}

// Does the cases of a text, and tells of those that give something else.
fn do_cases<H: Host + Clock, W: Write>(
    wait: &H,
    alloc: Global,
    file: &str,
    text: &str,
    out: &mut W,
) -> Result<Tally, AllocError> {
    let mut tally = Tally::new();
    let mut before = NOTHING;
    for (place, part) in text.split("\n=== ").enumerate() {
        if place > 0 || !is_comment(part) {
            tally.count(is_part_right(wait, alloc, file, part, &mut before, out)?);
        }
    }
    Ok(tally)
}

fn is_comment(text: &str) -> bool {
    text.lines().all(|line| line.starts_with('#'))
}

// Whether a part of a file is a case, and gives what it should.
fn is_part_right<'a, H: Host + Clock, W: Write>(
    wait: &H,
    alloc: Global,
    file: &str,
    text: &'a str,
    before: &mut Blocks<'a>,
    out: &mut W,
) -> Result<bool, AllocError> {
    let Some(part) = read_part(text, *before) else {
        let _ = writeln!(out, "{file}: no case: {text}");
        return Ok(false);
    };
    *before = part.blocks;
    let journal = journal(alloc, part)?;
    let case = Case {
        file,
        name: part.name,
        commands: part.commands,
        scenario: part.blocks.scenario,
        journal: journal.as_str(),
        wanted: read_wanted(part.blocks),
    };
    is_right(wait, alloc, &case, out)
}

// The part of a file that is a case.
#[derive(Clone, Copy)]
struct Part<'a> {
    name: &'a str,
    commands: &'a str,
    rest: &'a str,
    blocks: Blocks<'a>,
}

#[derive(Clone, Copy)]
struct Blocks<'a> {
    scenario: &'a str,
    journal: &'a str,
    out: Option<&'a str>,
    other: Option<&'a str>,
    err: Option<&'a str>,
    kept: Option<&'a str>,
    words: Option<&'a str>,
    status: u8,
}

const NOTHING: Blocks<'static> = Blocks {
    scenario: "",
    journal: "",
    out: None,
    other: None,
    err: None,
    kept: None,
    words: None,
    status: 0,
};

// None where it is not written as a case.
fn read_part<'a>(text: &'a str, before: Blocks<'a>) -> Option<Part<'a>> {
    let (head, rest) = text.split_once("--- ").unwrap_or((text, ""));
    let (name, commands) = head.split_once('\n')?;
    let blocks = Blocks {
        scenario: before.scenario,
        journal: before.journal,
        ..NOTHING
    };
    Some(Part {
        name,
        commands,
        rest,
        blocks: with_blocks(blocks, rest)?,
    })
}

fn with_blocks<'a>(before: Blocks<'a>, rest: &'a str) -> Option<Blocks<'a>> {
    let mut blocks = before;
    for block in rest.split("--- ") {
        if !block.is_empty() {
            let (head, text) = block.split_once('\n')?;
            blocks = with_block(blocks, head, text)?;
        }
    }
    Some(blocks)
}

fn with_block<'a>(before: Blocks<'a>, head: &str, text: &'a str) -> Option<Blocks<'a>> {
    let mut blocks = before;
    match head {
        "scenario" => blocks.scenario = text,
        "journal" => blocks.journal = text,
        "out" if blocks.out.is_none() => blocks.out = Some(text),
        "out or" if blocks.other.is_none() => blocks.other = Some(text),
        "err" if blocks.err.is_none() => blocks.err = Some(text),
        "kept" if blocks.kept.is_none() => blocks.kept = Some(text),
        "words" if blocks.words.is_none() => blocks.words = Some(text),
        _ => blocks.status = status_of(blocks.status, head, text)?,
    }
    Some(blocks)
}

// The status after a block of a status or of a line.
fn status_of(before: u8, head: &str, text: &str) -> Option<u8> {
    match head.strip_prefix("status ") {
        Some(number) if text.is_empty() => number.parse().ok(),
        _ => line_number(head).and(Some(before)),
    }
}

// The number of the line for which a block stands.
fn line_number(head: &str) -> Option<usize> {
    head.strip_prefix("line ")?.parse().ok()
}

fn read_wanted(blocks: Blocks<'_>) -> Wanted<'_> {
    Wanted {
        status: blocks.status,
        out: wanted_text(blocks.out.unwrap_or("")),
        other: blocks.other.map(|text| wanted_text(text)),
        err: wanted_text(blocks.err.unwrap_or("")),
        kept: blocks.kept,
        words: blocks.words,
    }
}

fn wanted_text(text: &str) -> Text<'_> {
    match text.strip_suffix("..\n") {
        Some(front) => Text::Begins(front),
        None => Text::Is(text),
    }
}

// The journal of a case, with the lines that the case has for some of its own.
fn journal(alloc: Global, part: Part<'_>) -> Result<String, AllocError> {
    let mut text = String::new(alloc);
    let mut number = 1usize;
    for line in part.blocks.journal.split_inclusive('\n') {
        text.push_str(line_in_place(part.rest, number).unwrap_or(line))?;
        number = number.saturating_add(1);
    }
    Ok(text)
}

fn line_in_place(rest: &str, number: usize) -> Option<&str> {
    for block in rest.split("--- ") {
        let (head, text) = block.split_once('\n')?;
        if line_number(head) == Some(number) {
            return Some(text);
        }
    }
    None
}
