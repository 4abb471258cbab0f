//! What the command line of the program that shows a run asks for.

ghost use Rattle.std.specs.Prelude.{◌≡◌, [], IfErr, IfOk, MatchResult, ⊤};
ghost use Rattle.clap.specs.Words.{HasKind, app_of, fault_of, found_of, kind_of, matches_of, rows_of};
ghost use Rattle.command_line.specs.Asked.{word_texts};
ghost use Rattle.command_line.specs.View.{IsView, NamesOneRun, view_kinds_of, view_program};

use crate::arguments::{Argument, Shape, with_arguments};
use crate::commands::FILE;
use crate::words::flag;
use clap::error::ErrorKind;
use clap::{ArgMatches, Command, Error};
use std::alloc::{AllocError, Global};

/// What the command line asks for: the states of a run.
#[derive(Clone, Copy)]
pub struct ViewWords<'a> {
    /// The file of the scenario.
    pub file: &'a str,
    /// The file of a journal of a run of it, or none if the script is to be run.
    pub journal: Option<&'a str>,
    /// The document of times, if the network is to run in simulated time. Then no journal is named.
    pub times: Option<&'a str>,
    /// The file to write to, or none if that is the standard output.
    pub output: Option<&'a str>,
    /// Whether the states are asked for as lines of JSON, and not in a page.
    pub json: bool,
}

// What stands below the program's help.
const AFTER_HELP: &str = "\
`man dualnet-view` (docs/dualnet-view.1) describes the page and the lines of JSON.

Examples:
  dualnet-view examples/ring.toml -o ring.html
  dualnet-view examples/ring.toml --times examples/ring-times.toml -o ring.html";

fn view_command<'a>(alloc: Global) -> Result<Command<'a>, AllocError>
    ensures { IfOk result (λ c. app_of c ≡ view_program) }
{
    let command = Command::new(alloc, "dualnet-view")
        .about("Writes the run of a network as a page for a browser, or as lines of JSON")
        .version("0.2.0")
        .after_help(AFTER_HELP);
    with_arguments(alloc, command, &[FILE, JOURNAL, TIMES, OUTPUT, JSON])
}

const JOURNAL: Argument = argument!(FreeWord "journal" "JOURNAL"
    "Journal whose steps are shown. If you name none, the script is run");

const TIMES: Argument = argument!(Value "times" "PATH"
    "Run the network in simulated time, by this document of times, and not the script");

const OUTPUT: Argument = argument!(Output "output" "PATH"
    "Write to this file, and not to the standard output");

const JSON: Argument = argument!(Flag "json" "" "Write a line of JSON for each state, and no page");

/// What the words ask for. The first word is the program's name. If you ask for help, it comes as an error too, and
/// `exit_status` knows it by its kind. A file whose name begins with a hyphen stands after `--`.
pub fn read_view_words<'a>(alloc: Global, words: &'a [&'a str]) -> Result<ViewWords<'a>, Error>
    ensures asked { IfOk result (IsView (matches_of view_program (word_texts words.entry.now))) }
    ensures one { IfOk result NamesOneRun }
    ensures taken { IfOk result (λ _. fault_of view_program (word_texts words.entry.now) ≡ []) }
    ensures kinds { IfErr result (HasKind (view_kinds_of (word_texts words.entry.now))) }
    ensures every { (asked : ViewWords) → fault_of view_program (word_texts words.entry.now) ≡ []
        → IsView (matches_of view_program (word_texts words.entry.now)) asked → NamesOneRun asked
        → MatchResult result (λ _. ⊤) (λ e. kind_of e ≡ ErrorKind.OutOfMemory) }
{
    let mut command = view_command(alloc)?;
    let matches = command.try_get_matches_from_mut(words)?;
    match view_words(&matches) {
        Ok(asked) => Ok(asked),
        Err(why) => Err(command.error(ErrorKind::InvalidValue, why)?),
    }
}

// What the matches ask for, or why that cannot be done.
fn view_words<'a>(matches: &ArgMatches<'a>) -> Result<ViewWords<'a>, &'static str>
    ensures asked { IfOk result (IsView (rows_of (found_of matches.now))) }
    ensures one { IfOk result NamesOneRun }
    ensures none { IfErr result (λ _. (w : ViewWords) → IsView (rows_of (found_of matches.now)) w
        → NamesOneRun w → ⊥) }
{
    let Some(file) = matches.get_str("file") else {
        return Err("no file is named");
    };
    let journal = matches.get_str("journal");
    let times = matches.get_str("times");
    if journal.is_some() && times.is_some() {
        return Err("a journal and a document of times are two runs, and one is shown");
    }
    let output = matches.get_str("output");
    let json = flag(matches, "json");
    Ok(ViewWords {
        file,
        journal,
        times,
        output,
        json,
    })
}
