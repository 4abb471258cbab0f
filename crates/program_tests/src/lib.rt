//! Tests of the program that no file of cases can say.
//!
//! Most of what the program does is tested by files of cases, which `trials` reads: a scenario, words, and
//! what is printed. But such a file cannot say that another file is unreadable, that a write fails, or that a
//! text is not UTF-8. Nor does a small scenario reach the limits, or the threads that only a large network
//! starts. These stand here, as code:
//!
//! ```text
//!   files     files that cannot be read or written, and texts that are not UTF-8
//!   limits    the largest file, network and script that are taken, and larger ones that are refused
//!   numbers   lines with numbers that no run reaches
//!   written   what faults, costs and distances are written as
//!   json      lines of JSON, read by another reader (`serde_json`)
//!   shells    lines that are typed into a shell and are no text, and its answers as objects
//!   views     the states of a run, as lines and in a page
//!   crowds    a network of 4,096 prefixes, which 1, 2, 4 and 16 threads settle
//! ```
//!
//! Most have the program do a command in memory (`harness`), and ask what it gave (`commands`):
//!
//! ```text
//! prints(&rt, alloc, &RUN, scenario, MISSING, "done: 0 steps\n");    // printed this alone, and ended with 0
//! tells(&rt, alloc, &CHECK, MISSING, MISSING, "dualnet: 47 Unreadable\n");    // told this fault alone
//! ```
//!
//! What a test expects comes from the definitions, from the man page or from the plain model in `model`. It
//! never comes from what the program printed. For example, the lines of `views` were reckoned by that model.
//!
//! What is tricky: a fault displays its number and name by a derive, which has no contract, so `written` has
//! the texts that they have to be.
//!
//! The crate promises nothing, and no crate stands on it.
#![tactic(auto)]

#[cfg(test)]
mod commands;
#[cfg(test)]
mod crowds;
#[cfg(test)]
mod equal_to;
#[cfg(test)]
mod files;
#[cfg(test)]
mod json;
#[cfg(test)]
mod limits;
#[cfg(test)]
mod numbers;
#[cfg(test)]
mod shells;
#[cfg(test)]
mod views;
#[cfg(test)]
mod written;
