//! The files that a command line names.

ghost use Rattle.std.specs.Prelude.{◌≡◌, IfSome, true};
ghost use Rattle.program_files.specs.Paths.{scenario_of, read_beside, kept_journal};

use crate::files::is_one_file;
use command_line::{ViewWords, Words};

/// The file of the scenario.
pub fn scenario_path<'a>(words: &Words<'a>) -> Option<&'a str>
    ensures { result ≡ scenario_of words.now }
{
    match *words {
        Words::Check { file, .. } => Some(file),
        Words::Run { file, .. } => Some(file),
        Words::Replay { file, .. } => Some(file),
        Words::Time { file, .. } => Some(file),
        Words::Explain { .. } => None,
        Words::Shell { file, .. } => Some(file),
    }
}

/// The file that is read beside the scenario: the journal that is to be replayed, or the document of times.
pub fn second_path<'a>(words: &Words<'a>) -> Option<&'a str>
    ensures { result ≡ read_beside words.now }
{
    match *words {
        Words::Replay { journal, .. } => Some(journal),
        Words::Time { times, .. } => Some(times),
        _ => None,
    }
}

/// The file that the journal of a run or a shell is to be written to.
pub fn kept_path<'a>(words: &Words<'a>) -> Option<&'a str>
    ensures { result ≡ kept_journal words.now }
{
    match *words {
        Words::Run { journal, .. } => journal,
        Words::Shell { journal, .. } => journal,
        _ => None,
    }
}

/// Whether the path leads to a file that `dualnet-view` reads, by whatever spelling or link: the scenario, the journal
/// or the document of times.
pub fn is_read(rt: &HostRuntime, words: &ViewWords<'_>, path: &str) -> bool
    ensures scenario { (words.now.file).now ≡ path.now → result ≡ true }
    ensures journal { IfSome words.now.journal (λ j. j.now ≡ path.now → result ≡ true) }
    ensures times { IfSome words.now.times (λ t. t.now ≡ path.now → result ≡ true) }
{
    let is_journal = match words.journal {
        Some(journal) => is_one_file(rt, journal, path),
        None => false,
    };
    let is_times = match words.times {
        Some(times) => is_one_file(rt, times, path),
        None => false,
    };
    is_journal || is_times || is_one_file(rt, words.file, path)
}
