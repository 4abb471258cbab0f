//! Random scenarios.

ghost use Rattle.std.specs.Prelude.{◌<◌, ◌≤◌, IfOk, length};

use std::alloc::{AllocError, Global};

// Names of routers.
pub const NAMES: [&str; 8] = ["a", "b", "c", "d", "e", "f", "g", "h"];

// Prefixes that nest, and one beside them.
const PREFIXES: [&str; 5] = [
    "10.0.0.0/8",
    "10.1.0.0/16",
    "10.1.2.0/24",
    "0.0.0.0/0",
    "192.0.2.0/24",
];

// An address in each of them.
pub const ADDRESSES: [&str; 5] = [
    "10.9.9.9",
    "10.1.9.9",
    "10.1.2.9",
    "172.16.0.1",
    "192.0.2.1",
];

const COSTS: [&str; 9] = ["1", "2", "3", "4", "5", "6", "7", "8", "9"];

// 28 commands, each as often as it is likely: of a router R, an address A, a prefix P, a cost C, and the two ends F and T of a
// link. One that may be refused is tried.
const COMMANDS: &str =
    "settle;settle;settle;drain;inject R A;inject R A;inject R A;inject R A;try publish R;\
    try publish R;try release R;try release R;try up F T;try up F T;try up F T;try up F T;\
    try down F T;try down F T;try cost F T C;try cost F T C;try deliver F T;try deliver F T;\
    try deliver F T;try deliver F T;try attach R P C;try attach R P C;try detach R P;\
    try deliver R R";

// Numbers that look random: a sum of odd constants, mixed (SplitMix64 of Steele, Lea and Flood).
#[derive(Drop)]
struct Dice {
    state: u64,
}

impl Dice {
    // A number below this one.
    fn below(&mut self, bound: usize) -> usize
        requires { 0 < bound }
        ensures { result < bound }
    {
        self.state = self.state.wrapping_add(0x9E37_79B9_7F4A_7C15);
        let mut word = self.state;
        word = (word ^ (word >> 30)).wrapping_mul(0xBF58_476D_1CE4_E5B9);
        word = (word ^ (word >> 27)).wrapping_mul(0x94D0_49BB_1331_11EB);
        word ^= word >> 31;
        ((word >> 32) as usize) % bound
    }

    // One of these.
    fn one_of(&mut self, words: &[&'static str]) -> &'static str
        requires { 0 < length words.now }
    {
        words[self.below(words.len())]
    }

    fn command(&mut self) -> Word {
        COMMANDS.split(';').nth(self.below(28)).unwrap_or("")
    }
}

/// A scenario of so many routers.
#[derive(Drop)]
pub struct Scenario {
    pub text: String,
    pub routers: u8,
    ghost few: { routers ≤ 8 },
}

// Two routers.
type Pair = (Word, Word);

type Word = &'static str;

/// Whether there was memory to write.
pub type Done = Result<(), AllocError>;

/// The scenario of this seed: 3 to 8 routers, links between half of all pairs, 2 to 5 prefixes, to each
/// of which one router or two are attached, and 200 commands, none of which ends the run.
pub fn draw(alloc: Global, seed: u64) -> Result<Scenario, AllocError> {
    let (mut text, mut links) = (String::new(alloc), Vec::new(alloc));
    let routers = write_scenario(seed, &mut text, &mut links)?;
    Ok(Scenario { text, routers })
}

// Writes it, and gives how many routers it has, and which have links.
fn write_scenario(seed: u64, text: &mut String, links: &mut Vec<Pair>) -> Result<u8, AllocError>
    ensures { IfOk result (λ r. r ≤ 8) }
{
    let mut dice = Dice { state: seed };
    let routers = 3 + dice.below(6);
    name(routers, text)?;
    link(&mut dice, routers, text, links)?;
    write_script(&mut dice, routers, links, text)?;
    Ok(routers as u8)
}

fn name(routers: usize, text: &mut String) -> Done
    requires { routers ≤ 8 }
{
    text.push_str("routers = [")?;
    for name in &NAMES[..routers] {
        push(text, &["\"", *name, "\", "])?;
    }
    text.push_str("]\nlinks = [")
}

/// Writes these texts one behind the other.
pub fn push(text: &mut String, parts: &[Word]) -> Done {
    for part in parts {
        text.push_str(part)?;
    }
    Ok(())
}

// Links between about half of all pairs of routers.
fn link(dice: &mut Dice, routers: usize, text: &mut String, links: &mut Vec<Pair>) -> Done
    requires { routers ≤ 8 }
{
    for one in 0..routers {
        for other in one + 1..routers {
            if dice.below(2) == 0 {
                links.push((NAMES[one], NAMES[other]))?;
                write_link(dice, NAMES[one], NAMES[other], text)?;
            }
        }
    }
    text.push_str("]\nprefixes = [")
}

// A link at costs of 1 to 9.
fn write_link(dice: &mut Dice, one: Word, other: Word, text: &mut String) -> Done {
    let (there, back) = (dice.one_of(&COSTS), dice.one_of(&COSTS));
    push(
        text,
        &["\"", one, " ", other, " ", there, " ", back, "\", "],
    )
}

// Prefixes, and commands of a script.
fn write_script(dice: &mut Dice, routers: usize, links: &[Pair], text: &mut String) -> Done
    requires { (0 < routers) × (routers ≤ 8) }
{
    let prefixes = &PREFIXES[..2 + dice.below(4)];
    for prefix in prefixes {
        attach(dice, routers, *prefix, text)?;
    }
    text.push_str("]\nscript = [\n")?;
    for _ in 0..200u8 {
        command(dice, routers, prefixes, links, text)?;
    }
    text.push_str("]\n")
}

// One attachment of a prefix, or two at routers beside each other.
fn attach(dice: &mut Dice, routers: usize, prefix: Word, text: &mut String) -> Done
    requires { (0 < routers) × (routers ≤ 8) }
{
    let first = dice.below(routers);
    attach_at(dice, first, prefix, text)?;
    let second = (first + 1) % routers;
    if second != first && dice.below(2) == 0 {
        attach_at(dice, second, prefix, text)?;
    }
    Ok(())
}

// An attachment at a cost of 1 to 9.
fn attach_at(dice: &mut Dice, router: usize, prefix: Word, text: &mut String) -> Done
    requires { router < 8 }
{
    let cost = dice.one_of(&COSTS);
    push(text, &["\"", prefix, " ", NAMES[router], " ", cost, "\", "])
}

// The two ends of a link, from either, where a command is of one; none if there is no link.
fn ends_of(dice: &mut Dice, command: &str, links: &[Pair]) -> Option<Pair> {
    if !command.contains('F') {
        return Some(("", ""));
    }
    if links.is_empty() {
        return None;
    }
    let (one, other) = links[dice.below(links.len())];
    if dice.below(2) == 0 {
        Some((one, other))
    } else {
        Some((other, one))
    }
}

// One command, or none if it would be of a link and there is none.
fn command(
    dice: &mut Dice,
    routers: usize,
    prefixes: &[Word],
    links: &[Pair],
    text: &mut String,
) -> Done
    requires routers { (0 < routers) × (routers ≤ 8) }
    requires prefixes { 0 < length prefixes.now }
{
    let router = NAMES[dice.below(routers)];
    let command = dice.command();
    match ends_of(dice, command, links) {
        Some((from, to)) => fill(dice, command, [router, from, to], prefixes, text),
        None => Ok(()),
    }
}

// Writes a command with words in place of its letters.
fn fill(dice: &mut Dice, form: Word, names: [Word; 3], prefixes: &[Word], text: &mut String) -> Done
    requires { 0 < length prefixes.now }
{
    text.push('"')?;
    for letter in form.chars() {
        match word_of(dice, letter, names, prefixes) {
            Some(word) => text.push_str(word)?,
            None => text.push(letter)?,
        }
    }
    text.push_str("\",\n")
}

// What stands for a letter, if it is not itself.
fn word_of(dice: &mut Dice, letter: char, names: [Word; 3], prefixes: &[Word]) -> Option<Word>
    requires { 0 < length prefixes.now }
{
    match letter {
        'R' => Some(names[0]),
        'A' => Some(dice.one_of(&ADDRESSES)),
        'P' => Some(dice.one_of(prefixes)),
        'C' => Some(dice.one_of(&COSTS)),
        'F' => Some(names[1]),
        'T' => Some(names[2]),
        _ => None,
    }
}
