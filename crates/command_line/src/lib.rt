//! Reads the command lines of the programs: what the words of `dualnet` and of `dualnet-view` ask for.
//!
//! A command line has to be read as people expect it, with help, defaults, options in any order and good
//! errors. The kit's crate `clap` does that, and has a definition of what it does. This crate tells `clap`
//! of the commands, and makes of its matches a value with a type:
//!
//! ```text
//!   dualnet check FILE [--explain]
//!   dualnet run FILE [--threads N] [--workers N] [--journal PATH] [--no-journal] [--explain] [--format F]
//!               [--progress]
//!   dualnet replay FILE JOURNAL [--explain] [--format F] [--progress]
//!   dualnet time FILE TIMES [--spells] [--explain] [--format F]
//!   dualnet shell FILE [--journal PATH] [--no-journal] [--explain] [--format F]
//!   dualnet explain NUMBER
//!   dualnet-view FILE [JOURNAL] [--times TIMES] [-o PATH] [--json]
//! ```
//!
//! ```text
//! match read_words(alloc, &["dualnet", "check", "ring.toml"]) {
//!     Ok(Words::Check { file, explain }) => ..,      // "ring.toml", false
//!     Ok(..) => ..,
//!     Err(error) => exit_status(&error),             // 0 for help, 2 for want of memory, else 1
//! }
//! ```
//!
//! [`Words`] are what `dualnet` is asked for, [`ViewWords`] what `dualnet-view` is. A [`Format`] is `text` or `json`.
//!
//! What always holds: the words that are given are those of the matches that `clap`'s definition has for this
//! line (`IsAsked` in `specs/Asked.antt`). If that definition finds no fault and a command, the words are
//! read, but for want of memory (`every`). So are the plain lines `NAME check FILE`, `NAME run FILE` and
//! `NAME replay FILE JOURNAL`, if no file begins with a hyphen.
//!
//! Each command has a list of arguments, in `src/commands.rt` for `clap` and in `specs/Commands.antt` for the
//! proofs. An argument has one of a few shapes (`Shape` in `src/arguments.rt`), which say whether it has to be
//! there, its range and its default. For example, both numbers of `run` are 1 to 16, and 1 if left out.
//!
//! What is tricky: help that is asked for comes as an error, too, because `clap` has it so. Three things are
//! tested here and not by `clap`: the name of a format, that a number to be explained is printed at all, and
//! what `--no-journal` goes with. Their errors are told as the other errors of the command line.
//!
//! Where there was a choice:
//!
//! - A word that is not UTF-8 is an error of the command line, with status 1. Want of memory while it is read is
//!   `20 NoMemory` with status 2, as everywhere else, and not `clap`'s text.
//! - What `--no-journal` goes with is tested here, because `clap` looks at which options are given, and
//!   not at their values, so `--threads 1` may stand beside it.
#![tactic(auto)]

// An argument: its shape, its name, what help calls its value, and what it is for.
macro_rules! argument {
    ($shape:ident $id:literal $value:literal $help:literal) => {
        Argument {
            shape: Shape::$shape,
            id: $id,
            value: $value,
            help: $help,
        }
    };
}

mod arguments;
mod commands;
mod format;
mod view;
mod words;

pub use clap::Error;
pub use clap::error::ErrorKind;
pub use commands::{SHELL_COMMANDS, exit_status, not_utf8};
pub use format::Format;
pub use view::{ViewWords, read_view_words};
pub use words::{Words, read_words};
