//! Why a line is no command.

use crate::line::{why_no_cost, why_no_router, why_outside};
use crate::why::{Why, Word, odd_space};
use network_model::LinkSpec;
use script::{Names, place_between};
use std::alloc::Global;
use std::io;
use strsim::levenshtein;

// The forms of all commands but `try STEP`, with a bar between two. Of two forms of one verb, the first is that of a step.
const FORMS: &str = "\
up A B|down A B|cost A B C|deliver A B|publish A|release A|attach A PREFIX COST|\
detach A PREFIX|up A|down A|settle|settle --seed N|count|state A PREFIX|table A|next A|\
queue A B|held A|lookup A ADDR|trace A ADDR|trace A ADDR --through|report|save|restore|\
inject A ADDR|drain";

/// How a command of the shell alone is written, if the line begins as one.
pub fn why_not_of_shell(line: &str) -> Option<Why<'_>> {
    Some(wrong_words(form_of_shell(word_at(line, 0))?))
}

fn form_of_shell(verb: &str) -> Option<&'static str> {
    match verb {
        "say" => Some("say TEXT"),
        "help" => Some("help"),
        "quit" => Some("quit"),
        _ => None,
    }
}

fn wrong_words<'a>(form: &'static str) -> Why<'a> {
    Why::of("wrong number of words: write `_`", Word::Text(form))
}

/// Why a line of the script is no command on this network.
pub fn why_no_command<'a>(
    alloc: Global,
    names: &Names,
    links: &[LinkSpec],
    line: &'a str,
) -> io::Result<Why<'a>> {
    if let Some(why) = why_spaces(line) {
        return Ok(why);
    }
    let (line, count) = match line.strip_prefix("try ") {
        Some(step) => (step, None),
        None => (line, Some(count_of(line))),
    };
    match form_of(line, count) {
        Some(form) if count_of(form) == count_of(line) => {
            Ok(why_no_words(names, links, form, line))
        }
        Some(form) => Ok(wrong_words(form)),
        None => why_unknown(alloc, word_at(line, 0)),
    }
}

/// Why a line cannot be taken that has nothing in it, two spaces in a row, one at an end, or a character that looks
/// like one. None if it has none of these.
pub fn why_spaces(line: &str) -> Option<Why<'_>> {
    if line.is_empty() {
        return Some(Why::plain("the line is empty"));
    }
    if let Some(letter) = odd_space(line) {
        let why = "`_` cannot stand here: write single spaces between words";
        return Some(Why::of(why, Word::Letter(letter)));
    }
    if line.starts_with(' ') || line.ends_with(' ') || line.contains("  ") {
        let why = "write single spaces between words, and none at an end";
        return Some(Why::plain(why));
    }
    None
}

// The form that the line's verb has with so many words; or else with the line's second word; or else its first.
fn form_of(line: &str, count: Option<usize>) -> Option<&'static str> {
    let (verb, second) = (word_at(line, 0), word_at(line, 1));
    let mut found = None;
    for form in FORMS.split('|') {
        if word_at(form, 0) == verb {
            if count == Some(count_of(form)) {
                return Some(form);
            }
            if found.is_none() || count.is_some() && word_at(form, 1) == second {
                found = Some(form);
            }
        }
    }
    found
}

/// The word at a place of a line; empty if there is none.
pub fn word_at(line: &str, place: usize) -> &str {
    line.split(' ').nth(place).unwrap_or("")
}

/// How many words a line has.
pub fn count_of(line: &str) -> usize {
    line.split(' ').count()
}

// Why a word is no command, and the nearest one that is, if it is near.
fn why_unknown(alloc: Global, verb: &str) -> io::Result<Why<'_>> {
    if verb.starts_with('#') {
        return Ok(Why::plain("a command cannot be a comment"));
    }
    if form_of_shell(verb).is_some() {
        return Ok(Why::of("`_` is a command of the shell alone", Word::Text(verb)));
    }
    let mut nearest = ("", 3);
    for form in FORMS.split('|') {
        let word = word_at(form, 0);
        let distance = levenshtein(alloc, verb, word)?;
        if distance < nearest.1 {
            nearest = (word, distance);
        }
    }
    let near = "unknown command `_`: did you mean `_`?";
    Ok(match nearest.0 {
        "" => Why::of("unknown command `_`", Word::Text(verb)),
        word => Why::of_two(near, Word::Text(verb), Word::Text(word)),
    })
}

// Which is the first word that does not fit its form.
fn why_no_words<'a>(
    names: &Names,
    links: &[LinkSpec],
    form: &'static str,
    line: &'a str,
) -> Why<'a> {
    for place in 1..4 {
        if let Some(why) = why_no_word(names, links, word_at(form, place), line, place) {
            return why;
        }
    }
    if word_at(form, 2) == "PREFIX" {
        let prefix = Word::Text(word_at(line, 2));
        return Why::of("the scenario has no prefix `_`", prefix);
    }
    Why::of("write `_`", Word::Text(form))
}

// Why the word at a place of a line is not what is wanted there.
fn why_no_word<'a>(
    names: &Names,
    links: &[LinkSpec],
    wanted: &str,
    line: &'a str,
    place: usize,
) -> Option<Why<'a>> {
    let word = word_at(line, place);
    match wanted {
        "A" => why_no_router(names, word),
        "B" => why_no_router(names, word).or(why_not_joined(names, links, word_at(line, 1), word)),
        "C" | "COST" => why_no_cost(word),
        "N" => why_outside(word, 0, u32::MAX),
        _ => None,
    }
}

fn why_not_joined(names: &Names, links: &[LinkSpec], a: &str, b: &str) -> Option<Why<'static>> {
    match place_between(links, names.number(a)?, names.number(b)?) {
        Some(_) => None,
        None => Some(Why::plain("no link joins these two routers")),
    }
}
