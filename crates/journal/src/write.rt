//! Writes the text of a journal.

ghost use Rattle.std.specs.Prelude.{OnOk};
ghost use Rattle.std.specs.Io.KnownBytes.{Appends};
ghost use Rattle.journal.specs.{Steps.steps_text, Journal.journal_text};

use crate::read::{ENDING, HEADING};
use crate::step_text::StepText;
use network_model::{LinkSpec, Step};
use script::Directory;
use std::io::{self, Write};

/// Writes the text of a journal up to its report: the heading, a line for each step, and `end`, up to
/// the first write that fails.
pub fn write_steps<W: Write>(
    directory: &Directory,
    links: &[LinkSpec],
    steps: &[Step],
    out: &mut W,
) -> io::Result<()>
    ensures { OnOk result (Appends (W.contents out.old) (W.contents out.new)
        (journal_text directory.now links.now steps.now)) }
{
    writeln!(out, "{HEADING}")?;
    write_lines(directory, links, steps, out)?;
    writeln!(out, "{ENDING}")
}

fn write_lines<W: Write>(
    directory: &Directory,
    links: &[LinkSpec],
    steps: &[Step],
    out: &mut W,
) -> io::Result<()>
    ensures { OnOk result (Appends (W.contents out.old) (W.contents out.new)
        (steps_text directory.now links.now steps.now)) }
{
    for &step in steps {
        writeln!(out, "{}", StepText(directory, links, step))?;
    }
    Ok(())
}
