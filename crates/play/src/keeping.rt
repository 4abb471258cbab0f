//! Keeps the journal of a run.

ghost use Rattle.std.specs.Prelude.{OnOk, true};
ghost use Rattle.play.specs.Ends.{KeepsJournal};

use command_line::Format;
use fabric::{Fabric, FabricName};
use journal::write_steps;
use lines::{Printer, print_report};
use network_model::NoMemory;
use script::Directory;
use std::io::Write;

/// Keeps something of a run that has come to its end.
pub trait Keeper {
    ghost use Rattle.std.specs.Prelude.{Option};
    ghost use Rattle.fabric.specs.Fabric.{Fabric as FabricState};
    ghost use Rattle.texts.specs.Words.{Text};
    ghost use Rattle.script.specs.Directories.{Directory as Names};

    /// What it was before, the names of routers, the fabric at the end of the run, what was written before and
    /// what is written then, and what it is then.
    ghost keeps: { Self → Names → FabricState → Option Text → Option Text → Self → Type 0 };

    /// Writes what it keeps of the fabric, whose routers have these names.
    fn keep<B: FabricName, W: Write>(
        &mut self,
        fabric: &Fabric<B>,
        directory: &Directory,
        kept: &mut W,
    ) -> Result<(), NoMemory>
        ensures { OnOk result (keeps self.old directory.now fabric.now
            (W.contents kept.old) (W.contents kept.new) self.new) };
}

/// Keeps the text of the journal, if it is wanted: the steps that were done, and the report of what they made. A
/// write that fails is want of memory.
#[derive(Clone, Copy)]
pub struct JournalText {
    pub wanted: bool,
}

impl Keeper for JournalText {
    ghost use Rattle.play.specs.Ends.{KeepsJournal};

    ghost keeps = { λ old d f before after new. KeepsJournal old.wanted d f before after };

    fn keep<B: FabricName, W: Write>(
        &mut self,
        fabric: &Fabric<B>,
        directory: &Directory,
        kept: &mut W,
    ) -> Result<(), NoMemory> {
        if self.wanted {
            return add_journal(fabric, directory, kept);
        }
        Ok(())
    }
}

// Writes the text of the journal.
fn add_journal<B: FabricName, W: Write>(
    fabric: &Fabric<B>,
    directory: &Directory,
    kept: &mut W,
) -> Result<(), NoMemory>
    ensures { OnOk result (KeepsJournal true directory.now fabric.now
        (W.contents kept.old) (W.contents kept.new)) }
{
    let links = fabric.network().links();
    let printer = Printer {
        directory,
        format: Format::Text,
        listed: false,
    };
    if write_steps(directory, links, fabric.journal(), kept).is_err()
        || print_report(fabric.world(), &printer, kept).is_err()
    {
        return Err(NoMemory);
    }
    Ok(())
}
