//! The program's commands, as `clap` is told of them.

ghost use Rattle.std.specs.Prelude.{◌≡◌, ◌≢◌, ◌⊎◌, IfOk};
ghost use Rattle.clap.specs.Words.{app_of, kind_of};
ghost use Rattle.command_line.specs.Commands.{IsProgramCommand, check_app, explain_app, program, replay_app, run_app, shell_app, time_app};

use crate::arguments::{Argument, Shape, command_of};
use clap::error::ErrorKind;
use clap::{Command, Error};
use std::alloc::{AllocError, Global};

// A command: its name, what it does, an example, and its arguments.
macro_rules! command_with {
    ($alloc:ident $name:literal $about:literal $example:literal $($argument:ident)*) => {
        command_of($alloc, $name, $about, $example, &[$($argument),*])
    };
}

/// The program's exit status after this error: 0 if you asked for help, 2 if memory was refused, else 1.
/// `Error::print` writes help to the standard output and all else to the standard error.
pub fn exit_status(error: &Error) -> u8
    ensures help { (kind_of error.now ≡ ErrorKind.DisplayHelp)
        ⊎ (kind_of error.now ≡ ErrorKind.DisplayVersion)
        → result ≡ 0 }
    ensures memory { kind_of error.now ≡ ErrorKind.OutOfMemory → result ≡ 2 }
    ensures mistake { kind_of error.now ≢ ErrorKind.DisplayHelp
        → kind_of error.now ≢ ErrorKind.DisplayVersion
        → kind_of error.now ≢ ErrorKind.OutOfMemory → result ≡ 1 }
{
    match error.kind() {
        ErrorKind::DisplayHelp | ErrorKind::DisplayVersion => 0,
        ErrorKind::OutOfMemory => 2,
        _ => 1,
    }
}

/// The error of a command line of which a word is not UTF-8.
pub fn not_utf8(alloc: Global) -> Result<Error, AllocError>
    ensures { IfOk result (λ e. kind_of e ≡ ErrorKind.InvalidValue) }
{
    let mut command = program_command(alloc)?;
    command.error(ErrorKind::InvalidValue, "a word is not UTF-8")
}

// The commands of a script, between two texts.
macro_rules! commands {
    ($before:literal, $behind:literal) => {
        concat!(
            $before,
            "\
Commands of a script and of the shell:
  up A B                  The link of A and B comes up, in its next session.
  down A B                It goes down, and the messages on it are lost.
  up A                    Each link of A that is down comes up, one after another.
  down A                  Each link of A that is up goes down, one after another.
  cost A B C              The cost from A on the link to B becomes C.
  deliver A B             A takes the oldest item on the link from B.
  deliver A A             A takes the oldest notice of its own attachments.
  attach A PREFIX COST    A is attached to the prefix, at this cost.
  detach A PREFIX         A is attached to the prefix no longer.
  publish A               The rows that A has chosen come into force.
  release A               A sends the oldest message that it holds.
  try STEP                Does one of the steps above, and prints if it was refused.
  settle                  Routers do what they have to do, until nothing is left.
  settle --seed N         The same in an order that is drawn from N.
  count                   Prints the steps and messages since the last count.
  save                    Keeps the state of the network (with --no-journal alone).
  restore                 Goes back to the state that was saved.
  next A                  Prints what A has to do next.
  queue A B               Prints what A has yet to take from B.
  queue A A               Prints the notices of its attachments that A has yet to take.
  held A                  Prints the messages that A holds.
  state A PREFIX          Prints what A knows of the prefix, as distances and a row.
  table A                 Prints the rows that A has in force.
  lookup A ADDR           Prints the row by which A forwards packets to the address.
  trace A ADDR            Prints which routers such a packet passes, and its end.
  trace A ADDR --through  Goes on if a router matches another prefix than A does.
  inject A ADDR           Gives the workers such a packet.
  drain                   Waits for the workers, and prints what they answered.
  report                  Prints all links, routers and machines.
",
            $behind
        )
    };
}

/// The commands of a shell: those of a script, and its own.
pub const SHELL_COMMANDS: &str = commands!(
    "",
    "\n\
Commands of the shell alone:
  help                    Prints this.
  say TEXT                Prints the text.
  quit                    Ends the shell, as the end of its input does."
);

// What stands below the program's help.
const AFTER_HELP: &str = commands!(
    "\
A scenario is a TOML file of four lists, for example:
  routers = [\"a\", \"b\"]
  links = [\"a b 5 2\"]            # the cost is 5 from a, and 2 from b
  prefixes = [\"10.0.0.0/8 a 1\"]  # a is attached: packets end there, at cost 1
  script = [\"up a b\", \"settle\", \"table b\"]

",
    "\n\
Exit status:
  0  All is done. A replay agrees with its journal.
  1  The command line, the scenario, the journal or the document of times has a fault.
  2  A step was refused, or memory, a thread or a file to be written.
  3  A replay ended in another state than its journal says.

FILE is a path, or - for the standard input. If the program prints a number, as in
`45 BadCommand`, `dualnet explain 45` says what it means. `man dualnet`
(docs/dualnet.1) has the rest.

Example:
  dualnet run examples/two-routers.toml"
);

pub(crate) fn program_command<'a>(alloc: Global) -> Result<Command<'a>, AllocError>
    ensures { IfOk result (λ c. app_of c ≡ program) }
{
    Command::new(alloc, "dualnet")
        .about("A network of IPv4 routers that route by DUAL and forward by longest match")
        .version("0.2.0")
        .after_help(AFTER_HELP)
        .subcommand_required(true)
        .subcommand(check_command(alloc)?)?
        .subcommand(run_command(alloc)?)?
        .subcommand(replay_command(alloc)?)?
        .subcommand(time_command(alloc)?)?
        .subcommand(explain_command(alloc)?)?
        .subcommand(shell_command(alloc)?)
}

fn check_command<'a>(alloc: Global) -> Result<Command<'a>, AllocError>
    ensures { IfOk result (IsProgramCommand check_app) }
{
    command_with!(alloc "check" "Checks a scenario, and prints its size or its first fault"
        "Example:\n  dualnet check examples/two-routers.toml"
        FILE EXPLAIN)
}

fn run_command<'a>(alloc: Global) -> Result<Command<'a>, AllocError>
    ensures { IfOk result (IsProgramCommand run_app) }
{
    command_with!(alloc "run" "Opens the network of a scenario, and does the commands of its script"
        "Example:\n  dualnet run examples/two-routers.toml --threads 4 --journal two-routers.journal"
        FILE THREADS WORKERS JOURNAL NO_JOURNAL EXPLAIN FORMAT PROGRESS)
}

fn replay_command<'a>(alloc: Global) -> Result<Command<'a>, AllocError>
    ensures { IfOk result (IsProgramCommand replay_app) }
{
    command_with!(alloc "replay" "Does the steps of a journal again, and compares how the network ends"
        "Example:\n  dualnet replay examples/two-routers.toml two-routers.journal"
        FILE GIVEN_JOURNAL EXPLAIN FORMAT PROGRESS)
}

fn time_command<'a>(alloc: Global) -> Result<Command<'a>, AllocError>
    ensures { IfOk result (IsProgramCommand time_app) }
{
    command_with!(alloc "time"
        "Runs the network of a scenario in simulated time, and prints a line for each change"
        "Example:\n  dualnet time examples/ring.toml examples/ring-times.toml --spells"
        FILE TIMES SPELLS EXPLAIN FORMAT)
}

fn explain_command<'a>(alloc: Global) -> Result<Command<'a>, AllocError>
    ensures { IfOk result (IsProgramCommand explain_app) }
{
    command_with!(alloc "explain"
        "Explains a number that the program prints: when it comes, and what to do"
        "Example:\n  dualnet explain 45"
        NUMBER)
}

fn shell_command<'a>(alloc: Global) -> Result<Command<'a>, AllocError>
    ensures { IfOk result (IsProgramCommand shell_app) }
{
    command_with!(alloc "shell" "Opens the network of a scenario, and does the commands that you type"
        "Example:\n  dualnet shell examples/ring.toml"
        FILE JOURNAL NO_JOURNAL EXPLAIN FORMAT)
}

// ---- their arguments

pub(crate) const FILE: Argument = argument!(Word "file" "FILE"
    "Scenario: a TOML file, or - for the standard input");

const THREADS: Argument = argument!(Number "threads" "N"
    "Let up to N threads do the steps of a settle: 1 to 16");

const WORKERS: Argument = argument!(Number "workers" "N"
    "Let N threads answer the packets of inject: 1 to 16");

const JOURNAL: Argument = argument!(Value "journal" "PATH"
    "Write all steps to this file, if the status is 0");

const NO_JOURNAL: Argument = argument!(Flag "no-journal" ""
    "Count the steps and keep none, without a limit, by one thread and one worker; not with --journal");

const GIVEN_JOURNAL: Argument = argument!(Word "journal" "JOURNAL"
    "Journal that a run of this scenario wrote");

const TIMES: Argument =
    argument!(Word "times" "TIMES" "Delays, and changes with their moments: a TOML file");

const SPELLS: Argument = argument!(Flag "spells" ""
    "Print who was in a computation, and who had no way, from when until when");

const NUMBER: Argument = argument!(Known "number" "NUMBER"
    "Number that the program printed, for example 45 of `45 BadCommand`");

const EXPLAIN: Argument = argument!(Flag "explain" ""
    "Print below a fault where it is, and what to do; print more of a state");

const FORMAT: Argument =
    argument!(Choice "format" "FORMAT" "Print text, or json: an object on each line");

const PROGRESS: Argument =
    argument!(Flag "progress" "" "Print on the standard error how much is done");
