//! Whether more is told of a fault, and what.

ghost use Rattle.std.specs.Prelude.{◌≡◌};
ghost use Rattle.advice.specs.Asked.{explained_file};

use crate::command::why_no_command;
use crate::document::{explain_document, explain_keys, explain_times, read_file};
use crate::line::{why_no_link, why_no_name, why_no_prefix};
use crate::others::explain_others;
use crate::page::Brief;
use crate::position::File;
use crate::why::{Shown, Why};
use command_line::Words;
use faults::FaultKind;
use plans::{Fault, Lines, Where, read_scenario};
use script::{Key, Place, read_script};
use std::alloc::Global;
use std::io::{self, Write};

/// The scenario in which the fault is, where more is to be told of it.
pub fn file_to_explain<'a>(words: &Words<'a>) -> Option<&'a str>
    ensures { result ≡ explained_file words.now }
{
    let (file, explain) = match *words {
        Words::Check { file, explain } => (file, explain),
        Words::Run { file, explain, .. } => (file, explain),
        Words::Replay { file, explain, .. } => (file, explain),
        Words::Time { file, explain, .. } => (file, explain),
        Words::Explain { .. } => return None,
        Words::Shell { file, explain, .. } => (file, explain),
    };
    if explain { Some(file) } else { None }
}

/// Tells more of the fault for which the program stops, if these words ask for it: where it stands, what was
/// expected, when the fault comes, and what to do. If a scenario was to be checked alone, also its other faults, as
/// far as they can be told without guessing, 20 in all. The scenario is given, and what was read beside it: a journal,
/// or a document of times. What cannot be written is lost.
pub fn explain<W: Write>(
    alloc: Global,
    words: &Words<'_>,
    fault: Fault,
    scenario: &[u8],
    beside: &[u8],
    out: &mut W,
) -> io::Result<()> {
    let Some(name) = file_to_explain(words) else {
        return Ok(());
    };
    let kind = fault.kind;
    let place = match fault.place {
        None => None,
        Some(Where::Scenario(place)) => Some(place),
        Some(Where::Journal { line }) => {
            tell_journal(name_beside(words), beside, line, out)?;
            None
        }
        Some(place) => return explain_times(alloc, name_beside(words), beside, kind, place, out),
    };
    let file = read_file(name, scenario, kind, out)?;
    match place {
        Some(place) => {
            let with_others = matches!(words, Words::Check { .. });
            return explain_place(alloc, file, kind, place, with_others, out);
        }
        None if kind == FaultKind::BadToml => explain_document(alloc, file, out)?,
        None if kind == FaultKind::BadKey => explain_keys(alloc, file, out)?,
        None => {}
    }
    write!(out, "{}", Brief(kind))
}

// The file that is read beside the scenario.
fn name_beside<'a>(words: &Words<'a>) -> &'a str {
    match *words {
        Words::Replay { journal, .. } => journal,
        Words::Time { times, .. } => times,
        _ => "",
    }
}

// Tells of a line of a journal, counted from 1, that is not what stands there in a journal: its place, its text,
// and what was expected.
fn tell_journal<W: Write>(file: &str, bytes: &[u8], line: usize, out: &mut W) -> io::Result<()> {
    let text = str::from_utf8(bytes).unwrap_or("");
    let found = Shown(match text.split('\n').nth(line.saturating_sub(1)) {
        Some(found) if !found.is_empty() => found,
        _ => "there is no such line",
    });
    let expected = match line {
        1 => "`dualnet journal 2`",
        _ => "`end`, or a step of this network's routers and links, for example `up A B`",
    };
    writeln!(out, "  {file}:{line}:1: {found}\n  expected {expected}")
}

// Tells of the line at fault, when the fault comes, and what to do; then of other lines, if that is asked for.
fn explain_place<W: Write>(
    alloc: Global,
    file: File<'_>,
    kind: FaultKind,
    place: Place,
    with_others: bool,
    out: &mut W,
) -> io::Result<()> {
    let Ok(lines) = read_scenario(alloc, file.text) else {
        return write!(out, "{}", Brief(kind));
    };
    explain_line(alloc, file, &lines, kind, place, out)?;
    write!(out, "{}", Brief(kind))?;
    if with_others {
        return explain_others(alloc, file, &lines, place, out);
    }
    Ok(())
}

/// Tells of a line: its place in the file, its text, and what is wrong with it.
pub fn explain_line<W: Write>(
    alloc: Global,
    file: File<'_>,
    lines: &Lines,
    kind: FaultKind,
    place: Place,
    out: &mut W,
) -> io::Result<()> {
    let (key, list) = list_of(lines, place.key);
    let Some(line) = list.get(place.position) else {
        return Ok(());
    };
    let line = line.as_str();
    let at = file.at_string(key, place.position);
    writeln!(out, "  {at}: {}", Shown(line))?;
    match why(alloc, kind, lines, place, line)? {
        Some(why) => writeln!(out, "  {why}"),
        None => Ok(()),
    }
}

/// A list of a scenario, and its key as it is written.
pub(crate) fn list_of(lines: &Lines, key: Key) -> (&'static str, &[String]) {
    match key {
        Key::Routers => ("routers", &lines.routers),
        Key::Links => ("links", &lines.links),
        Key::Prefixes => ("prefixes", &lines.prefixes),
        Key::Script => ("script", &lines.script),
    }
}

// What a line lacks, where its fault leaves that open.
fn why<'a>(
    alloc: Global,
    kind: FaultKind,
    lines: &'a Lines,
    place: Place,
    line: &'a str,
) -> io::Result<Option<Why<'a>>> {
    let position = place.position;
    if place.key == Key::Routers {
        return Ok(why_no_name(&lines.routers, position));
    }
    let none: &[String] = &[];
    let Ok(reading) = read_script(alloc, &lines.routers, &lines.links, none, none) else {
        return Ok(None);
    };
    let script = reading.script;
    match (kind, place.key) {
        (FaultKind::BadCommand | FaultKind::BadCost, Key::Script) => {
            let why = why_no_command(alloc, &script.names, &script.links, line)?;
            Ok(Some(why))
        }
        (FaultKind::BadLine | FaultKind::BadLink | FaultKind::BadCost, Key::Links) => {
            Ok(why_no_link(&script.names, &lines.links, position))
        }
        (FaultKind::BadLine | FaultKind::BadOwner | FaultKind::BadCost, Key::Prefixes) => {
            Ok(why_no_prefix(&script.names, &lines.prefixes, position))
        }
        _ => Ok(None),
    }
}
