//! Reads the text of a journal.

ghost use Rattle.std.specs.Prelude.{◌≡◌, ◌≢◌, ◌⊎◌, ◌∷◌, Some, IfOk, IfErr, IfSome, IfNone, IsUtf8, slice_get};
ghost use Rattle.journal.specs.{declared.fault.JournalFault.TheVariants.NoMemory as OutOfMemory, declared.read.Version.Version as Versions, Journal.heading, Journal.IsJournal, Journal.IsJournalFault};
ghost use Rattle.texts.specs.Lines.{lines_of};

use crate::fault::JournalFault;
use ipv4_prefix::Prefix;
use metric::Cost;
use network_model::{LinkSpec, Step};
use script::{Names, parse_step};
use std::alloc::Global;
use texts::next_line;

/// The first line of a journal.
pub(crate) const HEADING: &str = "dualnet journal 2";

// The first line of a journal of the first version.
const OLD_HEADING: &str = "dualnet journal 1";

/// The line after the last step.
pub(crate) const ENDING: &str = "end";

/// The version of a journal's text. The lines of both say the same of each step, but the report of the
/// first tells of other distances, and of no attachments.
#[derive(Clone, Copy)]
pub enum Version {
    /// The first, whose report cannot be compared.
    One,
    /// The one that is written.
    Two,
}

/// What the text of a journal says.
#[derive(Drop)]
pub struct Journal<'a> {
    /// The version that its first line says.
    pub version: Version,
    /// The steps, in order.
    pub steps: Vec<Step>,
    /// The report after the last step: the rest of the text.
    pub report: &'a [u8],
}

/// Reads the text of a journal of the network whose routers have these names and whose links are
/// these: the line `dualnet journal 2`, or `dualnet journal 1`, a line for each step, the line `end`, and
/// the report. A text that is not UTF-8 is the fault before any line; else it is the first line that is
/// not so. The steps' prefixes are those of the attachments.
pub fn read_journal<'a>(
    alloc: Global,
    names: &Names,
    links: &[LinkSpec],
    attachments: &[(Prefix, u16, Cost)],
    text: &'a [u8],
) -> Result<Journal<'a>, JournalFault>
    ensures ok { IfOk result (λ j. IsJournal names.now links.now attachments.now text.now
        j.version j.steps.items j.report.now) }
    ensures err { IfErr result (λ e. (e ≡ OutOfMemory)
        ⊎ IsJournalFault names.now links.now attachments.now text.now e) }
{
    match str::from_utf8(text) {
        Ok(text) => read_text(alloc, names, links, attachments, text),
        Err(_) => Err(JournalFault::BadText),
    }
}

// Reads the text of a journal that is UTF-8.
fn read_text<'a>(
    alloc: Global,
    names: &Names,
    links: &[LinkSpec],
    attachments: &[(Prefix, u16, Cost)],
    text: &'a str,
) -> Result<Journal<'a>, JournalFault>
    requires { IsUtf8 text.now }
    ensures ok { IfOk result (λ j. IsJournal names.now links.now attachments.now text.now
        j.version j.steps.items j.report.now) }
    ensures err { IfErr result (λ e. (e ≡ OutOfMemory)
        ⊎ IsJournalFault names.now links.now attachments.now text.now e) }
{
    let Some((version, mut rest)) = after_heading(text) else {
        return Err(JournalFault::BadLine { line: 1 });
    };
    let mut steps = Vec::new(alloc);
    while let Some((line, after)) = next_line(rest) {
        if line == ENDING {
            return Ok(Journal {
                version,
                steps,
                report: after.as_bytes(),
            });
        }
        let Ok(step) = parse_step(names, links, attachments, line) else {
            break;
        };
        steps.push(step)?;
        rest = after;
    }
    Err(JournalFault::BadLine {
        line: steps.len() + 2,
    })
}

// The version that the heading says, and what follows it; nothing where the first line is no heading.
fn after_heading(text: &str) -> Option<(Version, &str)>
    ensures some { IfSome result (λ w. lines_of text.now ≡ heading w.0 ∷ lines_of w.1.now) }
    ensures none { IfNone result ((v : Versions)
        → slice_get (lines_of text.now) 0 ≢ Some (heading v)) }
{
    let (first, rest) = next_line(text)?;
    let version = headed_version(first)?;
    Some((version, rest))
}

fn headed_version(line: &str) -> Option<Version>
    ensures some { IfSome result (λ v. line.now ≡ heading v) }
    ensures none { IfNone result ((v : Versions) → line.now ≢ heading v) }
{
    if line == HEADING {
        return Some(Version::Two);
    }
    if line == OLD_HEADING {
        return Some(Version::One);
    }
    None
}
