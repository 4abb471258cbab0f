//! Tables of scenarios that are refused. A line is `routers;links;prefixes;script;fault`, where a bar
//! ends each line of a list but the last, and the fault is what `check` and `run` tell after
//! `dualnet: `, or `none` where `check` finds nothing. Lines that begin with `#` are comment.

use crate::asking::{Case, is_right};
use harness::case::{Tally, Text, Wanted};
use play::Host;
use std::alloc::{AllocError, Global};
use std::io::Write;
use std::time::Clock;

/// Does the rows of a table, and tells of those that give something else.
pub fn do_faults<H: Host + Clock, W: Write>(
    wait: &H,
    alloc: Global,
    file: &str,
    text: &str,
    out: &mut W,
) -> Result<Tally, AllocError> {
    let mut tally = Tally::new();
    for line in text.lines() {
        if !line.starts_with('#') {
            tally.count(is_refused(wait, alloc, file, line, out)?);
        }
    }
    Ok(tally)
}

// Whether the scenario of a row has the row's fault.
fn is_refused<H: Host + Clock, W: Write>(
    wait: &H,
    alloc: Global,
    file: &str,
    line: &str,
    out: &mut W,
) -> Result<bool, AllocError> {
    let Some(row) = row_of(line) else {
        let _ = writeln!(out, "{file}: no row: {line}");
        return Ok(false);
    };
    let scenario = scenario(alloc, row)?;
    let told = format!(in alloc; "dualnet: {}\n", row.fault)?;
    let (commands, wanted) = asked_of(row.fault, told.as_str());
    let case = Case {
        file,
        name: line,
        commands,
        scenario: scenario.as_str(),
        journal: "",
        wanted,
    };
    is_right(wait, alloc, &case, out)
}

#[derive(Clone, Copy)]
struct Row<'a> {
    routers: &'a str,
    links: &'a str,
    prefixes: &'a str,
    script: &'a str,
    fault: &'a str,
}

fn row_of(line: &str) -> Option<Row<'_>> {
    let (routers, rest) = line.split_once(';')?;
    let (links, rest) = rest.split_once(';')?;
    let (prefixes, rest) = rest.split_once(';')?;
    let (script, fault) = rest.split_once(';')?;
    Some(Row {
        routers,
        links,
        prefixes,
        script,
        fault,
    })
}

fn scenario(alloc: Global, row: Row<'_>) -> Result<String, AllocError> {
    let mut text = String::new(alloc);
    push_list(&mut text, "routers", row.routers)?;
    push_list(&mut text, "links", row.links)?;
    push_list(&mut text, "prefixes", row.prefixes)?;
    push_list(&mut text, "script", row.script)?;
    Ok(text)
}

fn push_list(text: &mut String, key: &str, lines: &str) -> Result<(), AllocError> {
    write!(text, "{key} = [")?;
    for line in lines.split_terminator('|') {
        write!(text, "\"{line}\", ")?;
    }
    text.push_str("]\n")
}

const CHECK: &str = "$ dualnet check scenario.toml\n";

const CHECK_AND_RUN: &str = "$ dualnet check scenario.toml\n$ dualnet run scenario.toml\n";

// What is asked of a scenario with this fault, and what it should give.
fn asked_of<'a>(fault: &str, told: &'a str) -> (&'static str, Wanted<'a>) {
    let (commands, status, out, err) = match fault {
        "none" => (CHECK, 0, Text::Begins("ok: "), Text::Is("")),
        _ => (CHECK_AND_RUN, 1, Text::Is(""), Text::Is(told)),
    };
    let wanted = Wanted {
        status,
        out,
        other: None,
        err,
        kept: Some(""),
        words: None,
    };
    (commands, wanted)
}
