//! Texts: the lines of a text, the words of a line, and numbers in decimal digits.
//!
//! A scenario, its script and a journal are texts, and other programs write and read them too. If two
//! crates had two ideas of a word or of a number, one text would have two meanings. So all crates above
//! read by the few rules of this one:
//!
//! - A *line* ends with a line feed, and the last one may end without it (`lines_of` in `specs/Lines.antt`).
//! - *Words* are the parts of a line between its spaces (`words_of` in `specs/Words.antt`). So two spaces in
//!   a row have an empty word between them, and a space at an end has one beyond it.
//! - A *number* has 32 bits and one text: decimal digits, with neither a sign nor a leading zero (`Spells` in
//!   `specs/Number.antt`).
//!
//! ```text
//! next_line("up a b\nsettle")    // Some(("up a b", "settle")): the first line, and what follows
//! first_word("up a b")           // Some(("up", "a b"))
//! two_words("a  b")              // None: the line has three words, and the second is empty
//! read_number("80")              // Some(80)
//! read_number("080")             // None, and so are "+80" and "4294967296"
//! ```
//!
//! What always holds: each function is exact. It answers `Some` for each text of its form, and for no other (`some`
//! and `none`, `read` and `every`). What it gives are parts of the text that it was given, so it takes no memory.
//!
//! What is tricky: an empty word is a word here. If a form wants none, its reader has to test that (`script` does).
//! And the `parse` of the kit reads a plus sign and leading zeros, so `read_number` looks for these first.
#![tactic(auto)]

mod lines;
mod number;
mod words;

pub use lines::{next_line, next_line_of_bytes};
pub use number::{has_canonical_start, read_long, read_number};
pub use words::{first_word, four_words, three_words, two_words};
