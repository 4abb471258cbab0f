//! A file that was read, and where things stand in its text.

use std::fmt;

/// A file, as it was named, and what it holds.
#[derive(Clone, Copy)]
pub struct File<'a> {
    pub name: &'a str,
    pub text: &'a str,
}

impl<'a> File<'a> {
    /// Where a byte stands.
    pub fn at_byte(&self, byte: usize) -> At<'a> {
        let (mut line, mut column) = (1_usize, 1_usize);
        for (place, letter) in self.text.char_indices() {
            if place >= byte {
                break;
            }
            if letter == '\n' {
                line = line.saturating_add(1);
                column = 1;
            } else {
                column = column.saturating_add(1);
            }
        }
        At(self.name, Some((line, column)))
    }

    /// Where a key begins its line. Nowhere if it begins none: if it stands in a table, or in quotes.
    pub fn at_key(&self, key: &str) -> At<'a> {
        for (place, line) in self.text.lines().enumerate() {
            if is_at_key(line, key) {
                let rest = line.trim_start().chars().count();
                let before = line.chars().count().saturating_sub(rest);
                let at = (place.saturating_add(1), before.saturating_add(1));
                return At(self.name, Some(at));
            }
        }
        At(self.name, None)
    }

    /// Where the string of this number, from 0, stands in the array at a key.
    pub fn at_string(&self, key: &str, number: usize) -> At<'a> {
        At(self.name, string_at(self.text, key, number))
    }
}

/// A file, and a line and a column of it, from 1, if they are known, as `ring.toml:8:5`. Columns count characters.
#[derive(Clone, Copy)]
pub struct At<'a>(pub &'a str, pub Option<(usize, usize)>);

impl fmt::Display for At<'_> {
    fn fmt<W: fmt::Write>(&self, f: &mut fmt::Formatter<W>) -> fmt::Result {
        match self.1 {
            Some((line, column)) => write!(f, "{}:{line}:{column}", self.0),
            None => f.write_str(self.0),
        }
    }
}

// Where the string of this number, from 0, stands in the array at a key. None where the text is
// written in a way that is not looked through: by strings of several lines or in quoted keys.
fn string_at(text: &str, key: &str, number: usize) -> Option<(usize, usize)> {
    if text.contains("\"\"\"") || text.contains("'''") {
        return None;
    }
    let mut scan = Scan {
        is_at_key: false,
        depth: 0,
        left: number,
    };
    for (place, line) in text.lines().enumerate() {
        if scan.depth == 0 {
            scan.is_at_key = is_at_key(line, key);
        }
        if let Some(column) = scan.column(line) {
            return Some((place.saturating_add(1), column));
        }
    }
    None
}

fn is_at_key(line: &str, key: &str) -> bool {
    match line.trim_start().strip_prefix(key) {
        Some(rest) => rest.trim_start().starts_with('='),
        None => false,
    }
}

// How far a text was looked through, line by line.
#[derive(Drop)]
struct Scan {
    is_at_key: bool,
    // How many brackets are open.
    depth: u32,
    // How many strings of the key are to be passed over yet.
    left: usize,
}

impl Scan {
    // The column of the string that is looked for, where it begins on this line.
    fn column(&mut self, line: &str) -> Option<usize> {
        let mut quote = None;
        let mut is_escaped = false;
        for (place, letter) in line.chars().enumerate() {
            match quote {
                Some(open) => {
                    if is_escaped {
                        is_escaped = false;
                    } else if letter == '\\' && open == '"' {
                        is_escaped = true;
                    } else if letter == open {
                        quote = None;
                    }
                }
                None => {
                    if letter == '#' {
                        return None;
                    }
                    if letter == '"' || letter == '\'' {
                        quote = Some(letter);
                    }
                    if self.is_found(letter) {
                        return Some(place.saturating_add(1));
                    }
                }
            }
        }
        None
    }

    // Whether the string that is looked for begins with this letter.
    fn is_found(&mut self, letter: char) -> bool {
        match letter {
            '[' => self.depth = self.depth.saturating_add(1),
            ']' => self.depth = self.depth.saturating_sub(1),
            '"' | '\'' if self.is_at_key && self.depth > 0 => {
                if self.left == 0 {
                    return true;
                }
                self.left = self.left.saturating_sub(1);
            }
            _ => {}
        }
        false
    }
}
