//! The other faults of a scenario's lines, as far as each can be told by itself.

use crate::fault::{explain_line, list_of};
use crate::position::File;
use faults::FaultKind;
use network_model::Step;
use plans::Lines;
use script::{Key, LineFault, Located, Place, Script, read_command, read_script};
use std::alloc::Global;
use std::io::{self, Write};

// How many are told beside the first.
const MOST_OTHERS: u8 = 19;

/// Tells of faults beside the first: of other names where a name is at fault, of other links and
/// prefixes where one of these is, else of other commands.
pub fn explain_others<W: Write>(
    alloc: Global,
    file: File<'_>,
    lines: &Lines,
    first: Place,
    out: &mut W,
) -> io::Result<()> {
    let none: &[String] = &[];
    let Ok(reading) = read_script(alloc, &lines.routers, &lines.links, &lines.prefixes, none) else {
        return Ok(());
    };
    let script = &reading.script;
    let (key, next) = match first.key {
        Key::Links | Key::Prefixes => (Key::Links, Some(Key::Prefixes)),
        key => (key, None),
    };
    let left = explain_list(alloc, file, lines, script, key, first, MOST_OTHERS, out)?;
    if let Some(next) = next {
        explain_list(alloc, file, lines, script, next, first, left, out)?;
    }
    Ok(())
}

// Tells of the faults of a list's lines, and answers how many more may be told.
fn explain_list<W: Write>(
    alloc: Global,
    file: File<'_>,
    lines: &Lines,
    script: &Script,
    key: Key,
    first: Place,
    most: u8,
    out: &mut W,
) -> io::Result<u8> {
    let (_, list) = list_of(lines, key);
    let mut left = most;
    for (position, one) in list.chunks(1).enumerate() {
        let place = Place { key, position };
        if left > 0
            && place != first
            && let Some(fault) = fault_alone(alloc, lines, script, key, one)
        {
            let located = Located {
                fault,
                place: Some(place),
            };
            writeln!(out, "dualnet: {located}")?;
            explain_line(alloc, file, lines, FaultKind::from(fault), place, out)?;
            left = left.saturating_sub(1);
        }
    }
    Ok(left)
}

// The fault of a list of one line; of a command in the network of what was read beside the script.
fn fault_alone(
    alloc: Global,
    lines: &Lines,
    script: &Script,
    key: Key,
    one: &[String],
) -> Option<LineFault> {
    let none: &[String] = &[];
    let read = match key {
        Key::Routers => read_script(alloc, one, none, none, none),
        Key::Links => read_script(alloc, &lines.routers, one, none, none),
        Key::Prefixes => read_script(alloc, &lines.routers, none, one, none),
        Key::Script => return command_fault(script, one.first()?.as_str()),
    };
    let reading = read.ok()?;
    let at = reading.fault?;
    Some(at.fault)
}

fn command_fault(script: &Script, line: &str) -> Option<LineFault> {
    // Names the type of a command's step, without which the checker has no plan for it.
    let _step: Option<Step> = None;
    read_command(&script.names, &script.links, &script.attachments, line).err()
}
