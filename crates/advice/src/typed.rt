//! Why a line that was typed into a shell is not done.

use crate::command::{why_no_command, why_not_of_shell};
use crate::page::Brief;
use crate::why::Shown;
use faults::FaultKind;
use network_model::LinkSpec;
use script::Names;
use std::alloc::Global;
use std::io::{self, Write};

/// A line that was typed into a shell.
#[derive(Clone, Copy)]
pub struct Typed<'a> {
    pub names: &'a Names,
    pub links: &'a [LinkSpec],
    /// Its number, from 1.
    pub number: usize,
    /// Its bytes, which need not be UTF-8.
    pub line: &'a [u8],
}

/// Tells of a line that was typed what is wrong with it, when this fault comes, and what to do.
pub fn explain_typed<W: Write>(
    alloc: Global,
    typed: &Typed<'_>,
    kind: FaultKind,
    out: &mut W,
) -> io::Result<()> {
    let number = typed.number;
    let Ok(line) = str::from_utf8(typed.line) else {
        return write!(out, "  line {number} is not UTF-8\n{}", Brief(kind));
    };
    writeln!(out, "  line {number}: {}", Shown(line))?;
    if kind == FaultKind::BadCommand || kind == FaultKind::BadCost {
        let why = match why_not_of_shell(line) {
            Some(why) => why,
            None => why_no_command(alloc, typed.names, typed.links, line)?,
        };
        writeln!(out, "  {why}")?;
    }
    write!(out, "{}", Brief(kind))
}
