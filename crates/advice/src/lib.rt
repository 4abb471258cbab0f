//! More about a fault, if you ask for it: its line, what is wrong there, and what to do.
//!
//! A fault is one line, for example `45 BadCommand at script 3`, so you have to count lines, and to guess
//! what the program expected. With `--explain` this crate says it:
//!
//! ```text
//! dualnet: 45 BadCommand at script 3
//!   ring.toml:8:5: delivr a b
//!   unknown command `delivr`: did you mean `deliver`?
//!   when: ..
//!   do:   ..
//! ```
//!
//! ```text
//! explain(alloc, &words, fault, &scenario, &beside, &mut err)?;      // beside: a journal, or a document of times
//! explain_typed(alloc, &typed, kind, &mut err)?;                     // a line that was typed into a shell
//! ```
//!
//! - [`explain`] finds the line in the file (`src/position.rt`), and reads it again to see what is wrong
//!   (`src/command.rt`, `src/line.rt`). For example, a word is too many, a name is not known, or no link joins two
//!   routers. If a text is not a TOML document, it says at which place, if keys are missing or unknown, it names
//!   them, and if the text is not UTF-8, it tells the first byte that is not (`src/document.rt`).
//! - If the scenario was only to be checked, other faults are told, too, 20 in all (`src/others.rt`): those that
//!   need no guess.
//! - Of a journal the line at fault is shown, and of a document of times the string.
//! - What is shown of a file is safe for a terminal (`src/why.rt`): at most 60 characters, and those that
//!   cannot be seen by their numbers.
//! - Each kind of fault has a page (`src/page.rt`), because `texts_of` there has no way to give none. Two of its
//!   lines are the last ones above, and `dualnet explain 4` prints all four:
//!
//! ```text
//! write!(out, "{}", Page(FaultKind::HostBits))?;   // or Brief, for the lines of when and do
//!
//!   4 HostBits
//!   when:    the address of a prefix has a bit set after the prefix's length
//!   example: `10.0.0.1/8`, which should be `10.0.0.0/8`
//!   do:      clear the bits after the length, or write the length that you mean: `10.0.0.1/32` is one address
//! ```
//!
//! What always holds: more is told only if it is asked for (the clause of [`file_to_explain`], which names
//! the scenario). Nothing else of this crate has a contract, so what it prints is tested by files of cases.
//!
//! What is tricky: the fault itself is never decided here, because `plans` has decided it, and this crate
//! only looks for words that explain it. If it finds none, it prints the line, when the number comes, and
//! what to do. The place of a string is found by a scan of the text, which gives up at strings of several
//! lines, and then no line number is told.
//!
//! The nearest command is found by the edit distance of V. I. Levenshtein, of 2 at most (`strsim`).
#![tactic(auto)]

mod command;
mod document;
mod fault;
mod line;
mod others;
mod page;
mod position;
mod typed;
mod why;

pub use fault::{explain, file_to_explain};
pub use page::{Brief, Page};
pub use typed::{Typed, explain_typed};
