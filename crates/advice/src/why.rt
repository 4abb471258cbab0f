//! Texts of a file as they can be shown on a terminal, and why one cannot be taken.

use std::fmt;

/// How many characters of a text are shown.
const MOST_SHOWN: usize = 60;

/// A text of a file, safe to print. At most 60 characters are shown; `..` stands for the rest. A character
/// that a terminal takes as a command, or that looks like a space or like nothing, is shown by its number in
/// Unicode: a tab is `\u{9}`.
#[derive(Clone, Copy)]
pub struct Shown<'a>(pub &'a str);

impl fmt::Display for Shown<'_> {
    fn fmt<W: fmt::Write>(&self, f: &mut fmt::Formatter<W>) -> fmt::Result {
        for (place, letter) in self.0.chars().enumerate() {
            if place == MOST_SHOWN {
                return write!(f, "..");
            }
            show(letter, f)?;
        }
        Ok(())
    }
}

// Writes a character of a file, safe to print.
fn show<W: fmt::Write>(letter: char, f: &mut fmt::Formatter<W>) -> fmt::Result {
    if is_hidden(letter) {
        write!(f, "\\u{{{:x}}}", u32::from(letter))
    } else {
        write!(f, "{letter}")
    }
}

// Whether a character is none that can be seen, and no space: a control, another kind of space, or one that
// turns the direction of a text.
fn is_hidden(letter: char) -> bool {
    match letter {
        '\0'..='\u{1f}' | '\u{7f}'..='\u{a0}' | '\u{ad}' => true,
        '\u{1680}' | '\u{2000}'..='\u{200f}' | '\u{2028}'..='\u{202f}' => true,
        '\u{205f}'..='\u{206f}' | '\u{3000}' | '\u{feff}' => true,
        _ => false,
    }
}

/// The first character of a line that looks like a space and is none.
pub fn odd_space(line: &str) -> Option<char> {
    line.chars().find(|letter| is_hidden(*letter))
}

/// What stands in a reason: a word of the file, or a number.
#[derive(Clone, Copy)]
pub enum Word<'a> {
    Nothing,
    Text(&'a str),
    Letter(char),
    Number(usize),
}

impl fmt::Display for Word<'_> {
    fn fmt<W: fmt::Write>(&self, f: &mut fmt::Formatter<W>) -> fmt::Result {
        match *self {
            Word::Nothing => Ok(()),
            Word::Text(text) => write!(f, "{}", Shown(text)),
            Word::Letter(letter) => show(letter, f),
            Word::Number(number) => write!(f, "{number}"),
        }
    }
}

/// A reason: a text with a `_` for each of two words at most, which are shown safe for a terminal. One form for all of
/// them, so that a function that looks for a reason holds nothing that it would have to write to.
#[derive(Clone, Copy)]
pub struct Why<'a>(&'static str, Word<'a>, Word<'a>);

impl<'a> Why<'a> {
    /// A reason that names nothing of the file.
    pub fn plain(text: &'static str) -> Why<'a> {
        Why(text, Word::Nothing, Word::Nothing)
    }

    /// A reason that names one word.
    pub fn of(text: &'static str, word: Word<'a>) -> Why<'a> {
        Why(text, word, Word::Nothing)
    }

    /// A reason that names two.
    pub fn of_two(text: &'static str, word: Word<'a>, second: Word<'a>) -> Why<'a> {
        Why(text, word, second)
    }
}

impl fmt::Display for Why<'_> {
    fn fmt<W: fmt::Write>(&self, f: &mut fmt::Formatter<W>) -> fmt::Result {
        let Why(text, first, second) = *self;
        let (before, rest) = text.split_once('_').unwrap_or((text, ""));
        let (between, after) = rest.split_once('_').unwrap_or((rest, ""));
        write!(f, "{before}{first}{between}{second}{after}")
    }
}
