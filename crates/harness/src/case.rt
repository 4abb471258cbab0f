//! What a case should give, and what is found of it.

ghost use Rattle.std.specs.Prelude.{◌≡◌, ◌<◌, ◌↔◌, IsTrue, false, true};
ghost use Rattle.harness.specs.Wanted.{IsTextOf, IsAsWanted, IsOutOf, IsNoOther};

use crate::Outcome;
use std::fmt;
use std::fmt::{Display, Write};

/// A text that is wanted.
#[derive(Clone, Copy)]
pub enum Text<'a> {
    /// This one.
    Is(&'a str),
    /// One that begins so.
    Begins(&'a str),
}

impl<'a> Text<'a> {
    /// Whether what was given is this text, or begins with it.
    pub fn is_met(&self, given: &[u8]) -> bool
        ensures { IsTrue result → IsTextOf self.now given.now }
    {
        match *self {
            Text::Is(text) => given == text.as_bytes(),
            Text::Begins(text) => given.starts_with(text.as_bytes()),
        }
    }

    pub fn text(&self) -> &'a str {
        match *self {
            Text::Is(text) => text,
            Text::Begins(text) => text,
        }
    }
}

/// What a case should give.
#[derive(Clone, Copy)]
pub struct Wanted<'a> {
    pub status: u8,
    pub out: Text<'a>,
    /// An output that is right as well.
    pub other: Option<Text<'a>>,
    pub err: Text<'a>,
    /// The journal, where it is asked for.
    pub kept: Option<&'a str>,
    /// What the command line asks for, where that is asked for.
    pub words: Option<&'a str>,
}

/// What was given.
#[derive(Drop)]
pub struct Given {
    pub outcome: Outcome,
    /// What the command line asks for.
    pub words: String,
    /// The status of the replay of a run or a shell that came to its end, else 0.
    pub replay: u8,
    /// Whether a run or a shell gives the same if its steps are counted and not kept; of others it is true.
    pub counted: bool,
}

/// What is found of a command.
#[derive(Clone, Copy)]
pub enum Verdict {
    IsRight,
    EndsOtherwise,
    PrintsSomethingElse,
    TellsOfSomethingElse,
    KeepsSomethingElse,
    IsReadAsSomethingElse,
    IsNotReplayed,
    CountsSomethingElse,
}

impl Verdict {
    pub fn text(self) -> &'static str {
        match self {
            Verdict::IsRight => "is right",
            Verdict::EndsOtherwise => "ends otherwise",
            Verdict::PrintsSomethingElse => "prints something else",
            Verdict::TellsOfSomethingElse => "tells of something else",
            Verdict::KeepsSomethingElse => "keeps another journal",
            Verdict::IsReadAsSomethingElse => "is read as something else",
            Verdict::IsNotReplayed => "is not replayed",
            Verdict::CountsSomethingElse => "gives something else without a journal",
        }
    }
}

/// What to say of a command that gave this.
pub fn judge(wanted: &Wanted<'_>, given: &Given) -> Verdict
    ensures right { result ≡ Verdict.IsRight → IsAsWanted wanted.now given.now }
{
    let ran = &given.outcome;
    if ran.status != wanted.status {
        return Verdict::EndsOtherwise;
    }
    if !is_out_met(wanted, ran.out.as_slice()) {
        return Verdict::PrintsSomethingElse;
    }
    if !wanted.err.is_met(ran.err.as_slice()) {
        return Verdict::TellsOfSomethingElse;
    }
    if is_another(wanted.kept, ran.kept.as_slice()) {
        return Verdict::KeepsSomethingElse;
    }
    if is_another(wanted.words, given.words.as_bytes()) {
        return Verdict::IsReadAsSomethingElse;
    }
    if given.replay != 0 {
        return Verdict::IsNotReplayed;
    }
    if !given.counted {
        return Verdict::CountsSomethingElse;
    }
    Verdict::IsRight
}

fn is_out_met(wanted: &Wanted<'_>, given: &[u8]) -> bool
    ensures { IsTrue result → IsOutOf wanted.now given.now }
{
    if wanted.out.is_met(given) {
        return true;
    }
    match wanted.other {
        Some(other) => other.is_met(given),
        None => false,
    }
}

// Whether a text is asked for, and this is another.
fn is_another(wanted: Option<&str>, given: &[u8]) -> bool
    ensures { result ≡ false → IsNoOther wanted.entry given.now }
{
    match wanted {
        Some(text) => given != text.as_bytes(),
        None => false,
    }
}

/// How many cases there are, and how many of them are not right.
#[derive(Clone, Copy)]
pub struct Tally {
    pub all: u32,
    pub wrong: u32,
}

impl Tally {
    /// No case yet.
    pub fn new() -> Self
        ensures { (result.all ≡ 0) × (result.wrong ≡ 0) }
    {
        Tally { all: 0, wrong: 0 }
    }

    /// Counts a case; past 4,294,967,295 it stays at that number.
    pub fn count(&mut self, is_right: bool)
        ensures all { 0 < self.new.all }
        ensures wrong { self.new.wrong ≡ 0 ↔ (self.old.wrong ≡ 0) × (is_right ≡ true) }
    {
        self.all = self.all.saturating_add(1);
        if !is_right {
            self.wrong = self.wrong.saturating_add(1);
        }
    }

    /// There is one, and none is wrong.
    pub fn is_right(&self) -> bool
        ensures { result ≡ true ↔ (0 < self.now.all) × (self.now.wrong ≡ 0) }
    {
        self.all > 0 && self.wrong == 0
    }
}

impl Display for Tally {
    fn fmt<W: Write>(&self, f: &mut fmt::Formatter<W>) -> fmt::Result {
        match self.wrong {
            0 => write!(f, "{} cases", self.all),
            wrong => write!(f, "{} cases, {wrong} of them wrong", self.all),
        }
    }
}
