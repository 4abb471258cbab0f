//! The files that the programs read and write, and the words that they are given.
//!
//! `dualnet` and `dualnet-view` both have to find out which files their words name, open them, and say what
//! is wrong with a command line, and neither may write over a file that it reads. These parts stand here
//! once, above the handles of the system and below both programs.
//!
//! ```text
//! let words = given_words(&rt)?;                   // Err(status) if a word is not UTF-8
//! let scenario = open_file(&rt, Some(path));       // `-` is the standard input
//! if is_one_file(&rt, path, journal) { .. }        // by whatever spelling, or a link
//! exit_code(&rt, status)                           // the end of `main`
//! ```
//!
//! - `scenario_path`, `second_path` and `kept_path` say which file is which: the scenario, the journal or the document
//!   of times that is read beside it, and the journal that is written. [`is_read`] says so for `dualnet-view`.
//! - [`open_file`] never fails. A file that cannot be opened is `Input::Missing`, of which each read fails,
//!   so `plans` finds that it is unreadable, as it finds all other faults of a scenario.
//! - [`explain_unreadable`] says why, in the system's words.
//! - [`print_error`] prints an error of the command line, or the help that was asked for, and answers the status.
//!
//! What always holds: the paths are those that the definition reads off the words (`specs/Paths.antt`). Two
//! equal paths lead to one file (`is_one_file`). The status is 0 for help, 2 for want of memory, else 1
//! (`help`, `memory`, `mistake` of [`print_error`]).
//!
//! What is tricky: two paths may lead to one file though they are spelled otherwise. The system is asked for
//! device and inode of both, and if it does not answer, they count as two files. The file that the standard
//! input reads has no path of its own, so [`is_input`] asks for `/dev/stdin`. No clause says what a file holds.
#![tactic(auto)]

mod files;
mod given;
mod paths;

pub use files::{Input, explain_unreadable, is_input, is_one_file, open_beside, open_file};
pub use given::{exit_code, given_words, print_error};
pub use paths::{is_read, kept_path, scenario_path, second_path};
