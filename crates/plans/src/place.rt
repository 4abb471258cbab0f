//! Where a fault stands: in a scenario, in a journal, or in a document of times.

use script::Place;
use std::fmt;

/// One of the three lists of a document of times.
#[derive(Clone, Copy, PartialEq, Eq)]
pub enum TimesKey {
    Links,
    Routers,
    Changes,
}

impl TimesKey {
    /// As it is written in the document.
    pub fn name(self) -> &'static str {
        match self {
            TimesKey::Links => "links",
            TimesKey::Routers => "routers",
            TimesKey::Changes => "changes",
        }
    }
}

impl fmt::Display for TimesKey {
    fn fmt<W: fmt::Write>(&self, f: &mut fmt::Formatter<W>) -> fmt::Result {
        f.write_str(self.name())
    }
}

/// A text that is at fault, or its line. It is displayed as what is told behind the fault: ` at links 0`, ` at line
/// 7`, ` in the times` or ` at links 0 in the times`.
#[derive(Clone, Copy)]
pub enum Where {
    /// A line of the scenario.
    Scenario(Place),
    /// The line of the journal, counted from 1.
    Journal { line: usize },
    /// The document of times.
    Times,
    /// The string at this position of a list of the document of times, from 0.
    TimesLine { key: TimesKey, position: usize },
}

impl fmt::Display for Where {
    fn fmt<W: fmt::Write>(&self, f: &mut fmt::Formatter<W>) -> fmt::Result {
        match *self {
            Where::Scenario(place) => write!(f, " at {place}"),
            Where::Journal { line } => write!(f, " at line {line}"),
            Where::Times => write!(f, " in the times"),
            Where::TimesLine { key, position } => write!(f, " at {key} {position} in the times"),
        }
    }
}
