//! Why a line of routers, of links or of prefixes cannot be taken, or a word that is to be a number.

use crate::command::{count_of, why_spaces, word_at};
use crate::why::{Why, Word};
use script::Names;
use texts::{four_words, read_number};

/// Why the name of this number is none that a router can have, or that it was given before.
pub fn why_no_name(names: &[String], position: usize) -> Option<Why<'_>> {
    let name = names.get(position)?.as_str();
    for letter in name.chars() {
        if !matches!(letter, 'a'..='z' | '0'..='9') {
            let why = "`_` is not a small letter a to z, and not a digit";
            return Some(Why::of(why, Word::Letter(letter)));
        }
    }
    let count = name.len();
    match name.as_bytes().first() {
        None => Some(Why::plain("a name has at least one letter")),
        Some(b'0'..=b'9') => Some(Why::plain("a name begins with a letter")),
        Some(_) if count > 16 => {
            let why = "it has _ characters: a name has at most 16";
            Some(Why::of(why, Word::Number(count)))
        }
        Some(_) => {
            let mut before = names.iter().take(position);
            let place = before.position(|other| other.as_str() == name)?;
            let why = "an earlier router has this name: routers _";
            Some(Why::of(why, Word::Number(place)))
        }
    }
}

/// Why the line of this number is no link of these routers.
pub fn why_no_link<'a>(names: &Names, links: &'a [String], position: usize) -> Option<Why<'a>> {
    let line = links.get(position)?.as_str();
    let Some((a, b, from_a, from_b)) = four_words(line) else {
        let form = "wrong number of words: write `A B C1 C2`";
        return why_spaces(line).or(Some(Why::plain(form)));
    };
    why_spaces(line)
        .or(why_no_cost(from_a))
        .or(why_no_cost(from_b))
        .or(why_no_router(names, a))
        .or(why_no_router(names, b))
        .or(why_no_place(links, position, a, b))
}

// Whether a router is one of the two ends of a link's line.
fn touches(line: &str, router: &str) -> bool {
    word_at(line, 0) == router || word_at(line, 1) == router
}

// Which of the earlier links leaves no place for one of these two routers.
fn why_no_place<'a>(links: &[String], position: usize, a: &'a str, b: &'a str) -> Option<Why<'a>> {
    if a == b {
        return Some(Why::plain("both ends are the same router"));
    }
    let (mut at_a, mut at_b) = (0_usize, 0_usize);
    for place in 0..position {
        let line = links.get(place)?.as_str();
        let (is_at_a, is_at_b) = (touches(line, a), touches(line, b));
        if is_at_a && is_at_b {
            let why = "an earlier link joins these two routers: links _";
            return Some(Why::of(why, Word::Number(place)));
        }
        at_a = at_a.saturating_add(usize::from(is_at_a));
        at_b = at_b.saturating_add(usize::from(is_at_b));
    }
    if at_a < 32 && at_b < 32 {
        return Some(Why::plain("there are 1024 links already"));
    }
    let full = if at_a >= 32 { a } else { b };
    Some(Why::of("`_` has 32 links already", Word::Text(full)))
}

/// Why the line of this number attaches no router to a prefix.
pub fn why_no_prefix<'a>(
    names: &Names,
    prefixes: &'a [String],
    position: usize,
) -> Option<Why<'a>> {
    let line = prefixes.get(position)?.as_str();
    let (prefix, router) = (word_at(line, 0), word_at(line, 1));
    let cost = match count_of(line) {
        2 => None,
        3 => why_no_cost(word_at(line, 2)),
        _ => {
            let form = "wrong number of words: write `PREFIX ROUTER COST`";
            return why_spaces(line).or(Some(Why::plain(form)));
        }
    };
    why_spaces(line)
        .or(why_no_owner(names, prefix, router))
        .or(cost)
        .or(why_attached(prefixes, position, prefix, router))
}

fn why_no_owner<'a>(names: &Names, prefix: &str, router: &'a str) -> Option<Why<'a>> {
    if names.number(router).is_none() && names.number(prefix).is_some() {
        let form = "the prefix comes first: `PREFIX ROUTER COST`";
        return Some(Why::plain(form));
    }
    why_no_router(names, router)
}

// Which of the earlier lines attaches this router to this prefix.
fn why_attached<'a>(
    prefixes: &[String],
    position: usize,
    prefix: &str,
    router: &str,
) -> Option<Why<'a>> {
    for place in 0..position {
        let line = prefixes.get(place)?.as_str();
        if word_at(line, 0) == prefix && word_at(line, 1) == router {
            let why = "this router has the prefix already: prefixes _";
            return Some(Why::of(why, Word::Number(place)));
        }
    }
    Some(Why::plain("there are as many prefixes as there can be"))
}

/// Why a word names no router. None if it names one.
pub fn why_no_router<'a>(names: &Names, word: &'a str) -> Option<Why<'a>> {
    match names.number(word) {
        Some(_) => None,
        None => Some(Why::of("unknown router `_`", Word::Text(word))),
    }
}

/// Why a word is no number, or none that a cost can be. None if it is a cost.
pub fn why_no_cost(word: &str) -> Option<Why<'_>> {
    why_outside(word, 1, 65535)
}

/// Why a word is no number of `least` to `most`. None if it is one.
pub fn why_outside(word: &str, least: u32, most: u32) -> Option<Why<'_>> {
    match read_number(word) {
        Some(number) if number < least => {
            Some(Why::of("`0` is below _", Word::Number(least as usize)))
        }
        Some(number) if number <= most => None,
        _ => Some(why_no_number(word, most)),
    }
}

// Why a word is none of these numbers, which is not below them.
fn why_no_number(word: &str, most: u32) -> Why<'_> {
    let shown = Word::Text(word);
    if word.starts_with('+') || word.starts_with('-') {
        return Why::of("`_` has a sign: write only digits", shown);
    }
    if word.is_empty() || !word.bytes().all(|byte| byte.is_ascii_digit()) {
        return Why::of("`_` is not a whole number", shown);
    }
    if word.starts_with('0') {
        return Why::of("`_` begins with a zero", shown);
    }
    Why::of_two("`_` is above _", shown, Word::Number(most as usize))
}
