//! What the command line asks for.

ghost use Rattle.std.specs.Prelude.{◌≡◌, ◌↔◌, Bool, IfOk, IfErr, IfSome, IfNone, IsTrue, MatchResult, ℕ, [], ⊤, codes};
ghost use Rattle.clap.specs.Words.{HasKind, Text, fault_of, kind_of, rows_of, found_of, subcommand_of, subcommand_rows_of};
ghost use Rattle.command_line.specs.Commands.{program, kinds_of};
ghost use Rattle.command_line.specs.Asked.{AsksAs, ChecksFile, GoTogether, HasFlag, HasFormat, HasNumber, IsAsked, IsFileLine, IsFlag, IsReplayLine, ReplaysFiles, RunsFile, word_texts};

use crate::commands::program_command;
use crate::format::Format;
use clap::error::ErrorKind;
use clap::{ArgMatches, Error};
use faults::FaultKind;
use std::alloc::Global;

/// What the command line asks for.
#[derive(Clone, Copy, Debug)]
pub enum Words<'a> {
    /// Read the scenario in the file, and say what it holds. Here and below, `explain` asks for more about a fault.
    Check {
        file: &'a str,
        explain: bool,
    },
    /// Run the script of the scenario in the file, by so many control threads and forwarding workers, 1 to 16 of
    /// each. Then write the journal to the path, if there is one. Here and in a shell, `no_journal` asks to count the
    /// steps and to keep none of them: then there is no path, and there are one thread and one worker. Here and in a
    /// replay, lines are printed in the format, and `progress` asks how much is done.
    Run {
        file: &'a str,
        threads: u8,
        workers: u8,
        journal: Option<&'a str>,
        no_journal: bool,
        explain: bool,
        format: Format,
        progress: bool,
    },
    /// Do the steps of the journal over the network of the scenario in the file.
    Replay {
        file: &'a str,
        journal: &'a str,
        explain: bool,
        format: Format,
        progress: bool,
    },
    /// Run the network of the scenario in the file in simulated time. The second file has the delays, and
    /// the changes with their moments. `spells` asks for each computation and each outage.
    Time {
        file: &'a str,
        times: &'a str,
        spells: bool,
        explain: bool,
        format: Format,
    },
    /// Explain a number.
    Explain {
        kind: FaultKind,
    },
    /// Do commands from the standard input on the network of the scenario in the file. Then write the
    /// journal to the path, if there is one.
    Shell {
        file: &'a str,
        journal: Option<&'a str>,
        no_journal: bool,
        explain: bool,
        format: Format,
    },
}

/// What the words ask for. The first word is the program's name. If you ask for help, it comes as an error too, and
/// `exit_status` knows it by its kind. A file whose name begins with a hyphen stands after `--`.
pub fn read_words<'a>(alloc: Global, words: &'a [&'a str]) -> Result<Words<'a>, Error>
    ensures asked { IfOk result (IsAsked (subcommand_of program (word_texts words.entry.now))) }
    ensures taken { IfOk result (λ _. fault_of program (word_texts words.entry.now) ≡ []) }
    ensures kinds { IfErr result (HasKind (kinds_of (word_texts words.entry.now))) }
    ensures every { (asked : Words) → fault_of program (word_texts words.entry.now) ≡ []
        → IsAsked (subcommand_of program (word_texts words.entry.now)) asked
        → MatchResult result (λ _. ⊤) (λ e. kind_of e ≡ ErrorKind.OutOfMemory) }
    ensures check { (file : Text) → IsFileLine (codes "check") file (word_texts words.entry.now)
        → MatchResult result (ChecksFile file) (λ e. kind_of e ≡ ErrorKind.OutOfMemory) }
    ensures run { (file : Text) → IsFileLine (codes "run") file (word_texts words.entry.now)
        → MatchResult result (RunsFile file) (λ e. kind_of e ≡ ErrorKind.OutOfMemory) }
    ensures replay { (file journal : Text) → IsReplayLine file journal (word_texts words.entry.now)
        → MatchResult result (ReplaysFiles file journal) (λ e. kind_of e ≡ ErrorKind.OutOfMemory) }
{
    let mut command = program_command(alloc)?;
    let matches = command.try_get_matches_from_mut(words)?;
    match read_matches(&matches) {
        Some(asked) => Ok(asked),
        None => Err(command.error(ErrorKind::InvalidValue, refusal_of(&matches))?),
    }
}

// The error if the matches ask for nothing, though clap takes them.
fn refusal_of(matches: &ArgMatches<'_>) -> &'static str {
    match matches.subcommand() {
        Some(("explain", _)) => "the program prints no such number",
        Some((_, inner)) if named_format(inner).is_some() => {
            "'--no-journal' goes with neither '--journal' nor more than one thread or worker"
        }
        _ => "'--format' takes text or json",
    }
}

// None if the matches ask for nothing.
fn read_matches<'a>(matches: &ArgMatches<'a>) -> Option<Words<'a>>
    ensures some { IfSome result (IsAsked (subcommand_rows_of matches.now)) }
    ensures none { IfNone result ((w : Words) → IsAsked (subcommand_rows_of matches.now) w → ⊥) }
{
    let (name, inner) = matches.subcommand()?;
    command_words(name, inner)
}

fn command_words<'a>(name: &str, matches: &ArgMatches<'a>) -> Option<Words<'a>>
    ensures some { IfSome result (AsksAs name.now (rows_of (found_of matches.now))) }
    ensures none { IfNone result ((w : Words) → AsksAs name.now (rows_of (found_of matches.now)) w
        → ⊥) }
{
    match name {
        "check" => check_words(matches),
        "run" => run_words(matches),
        "replay" => replay_words(matches),
        "time" => time_words(matches),
        "explain" => explain_words(matches),
        "shell" => shell_words(matches),
        _ => None,
    }
}

fn check_words<'a>(matches: &ArgMatches<'a>) -> Option<Words<'a>>
    ensures some { IfSome result (AsksAs (codes "check") (rows_of (found_of matches.now))) }
    ensures none { IfNone result ((w : Words) → AsksAs (codes "check") (rows_of (found_of matches.now)) w
        → ⊥) }
{
    let file = matches.get_str("file")?;
    let explain = flag(matches, "explain");
    Some(Words::Check { file, explain })
}

fn run_words<'a>(matches: &ArgMatches<'a>) -> Option<Words<'a>>
    ensures some { IfSome result (AsksAs (codes "run") (rows_of (found_of matches.now))) }
    ensures none { IfNone result ((w : Words) → AsksAs (codes "run") (rows_of (found_of matches.now)) w
        → ⊥) }
{
    let file = matches.get_str("file")?;
    let threads = number(matches, "threads", 16)?;
    let workers = number(matches, "workers", 16)?;
    let journal = matches.get_str("journal");
    let no_journal = found_flag(matches, "no-journal")?;
    let explain = flag(matches, "explain");
    let format = named_format(matches)?;
    let progress = flag(matches, "progress");
    if !go_together(no_journal, journal, threads, workers) {
        return None;
    }
    Some(Words::Run {
        file,
        threads,
        workers,
        journal,
        no_journal,
        explain,
        format,
        progress,
    })
}

fn replay_words<'a>(matches: &ArgMatches<'a>) -> Option<Words<'a>>
    ensures some { IfSome result (AsksAs (codes "replay") (rows_of (found_of matches.now))) }
    ensures none { IfNone result ((w : Words) → AsksAs (codes "replay") (rows_of (found_of matches.now)) w
        → ⊥) }
{
    let file = matches.get_str("file")?;
    let journal = matches.get_str("journal")?;
    let explain = flag(matches, "explain");
    let format = named_format(matches)?;
    let progress = flag(matches, "progress");
    Some(Words::Replay {
        file,
        journal,
        explain,
        format,
        progress,
    })
}

fn time_words<'a>(matches: &ArgMatches<'a>) -> Option<Words<'a>>
    ensures some { IfSome result (AsksAs (codes "time") (rows_of (found_of matches.now))) }
    ensures none { IfNone result ((w : Words) → AsksAs (codes "time") (rows_of (found_of matches.now)) w
        → ⊥) }
{
    let file = matches.get_str("file")?;
    let times = matches.get_str("times")?;
    let spells = flag(matches, "spells");
    let explain = flag(matches, "explain");
    let format = named_format(matches)?;
    Some(Words::Time {
        file,
        times,
        spells,
        explain,
        format,
    })
}

fn explain_words<'a>(matches: &ArgMatches<'a>) -> Option<Words<'a>>
    ensures some { IfSome result (AsksAs (codes "explain") (rows_of (found_of matches.now))) }
    ensures none { IfNone result ((w : Words) → AsksAs (codes "explain") (rows_of (found_of matches.now)) w
        → ⊥) }
{
    let number = number(matches, "number", 55)?;
    let kind = FaultKind::of(number)?;
    Some(Words::Explain { kind })
}

fn shell_words<'a>(matches: &ArgMatches<'a>) -> Option<Words<'a>>
    ensures some { IfSome result (AsksAs (codes "shell") (rows_of (found_of matches.now))) }
    ensures none { IfNone result ((w : Words) → AsksAs (codes "shell") (rows_of (found_of matches.now)) w
        → ⊥) }
{
    let file = matches.get_str("file")?;
    let journal = matches.get_str("journal");
    let no_journal = found_flag(matches, "no-journal")?;
    let explain = flag(matches, "explain");
    let format = named_format(matches)?;
    if !go_together(no_journal, journal, 1, 1) {
        return None;
    }
    Some(Words::Shell {
        file,
        journal,
        no_journal,
        explain,
        format,
    })
}

// Whether the option at the name is given.
pub(crate) fn flag(matches: &ArgMatches<'_>, id: &str) -> bool
    ensures { IsFlag (rows_of (found_of matches.now)) id.now result }
{
    matches.get_flag(id)
}

// Whether the option at the name is given; none if the matches do not have it.
fn found_flag(matches: &ArgMatches<'_>, id: &str) -> Option<bool>
    ensures some { IfSome result (HasFlag (rows_of (found_of matches.now)) id.now) }
    ensures none { IfNone result ((is : Bool) → HasFlag (rows_of (found_of matches.now)) id.now is
        → ⊥) }
{
    matches.get_one::<bool>(id)
}

// Whether `--no-journal`, if it is given, stands without a journal, and with one thread and one worker.
fn go_together(no_journal: bool, journal: Option<&str>, threads: u8, workers: u8) -> bool
    ensures { IsTrue result ↔ GoTogether no_journal journal.entry threads workers }
{
    !no_journal || (journal.is_none() && threads == 1 && workers == 1)
}

fn named_format(matches: &ArgMatches<'_>) -> Option<Format>
    ensures some { IfSome result (HasFormat (rows_of (found_of matches.now))) }
    ensures none { IfNone result ((f : Format) → HasFormat (rows_of (found_of matches.now)) f → ⊥) }
{
    let name = matches.get_str("format")?;
    Format::of(name)
}

// The number at the name, if it is 1 to `most`.
fn number(matches: &ArgMatches<'_>, id: &str, most: u8) -> Option<u8>
    ensures some { IfSome result (HasNumber (rows_of (found_of matches.now)) id.now most) }
    ensures none { IfNone result ((n : ℕ) → HasNumber (rows_of (found_of matches.now)) id.now most n
        → ⊥) }
{
    let number = matches.get_one::<u8>(id)?;
    if number < 1 || number > most {
        return None;
    }
    Some(number)
}
