//! How a computation began and what has happened since, which decides what its end needs.

ghost use Rattle.std.specs.Prelude.{◌≡◌};
ghost use Rattle.diffusing_replies.specs.Origin as table;

/// The origin state of a computation. It says whether a reply is owed to the successor, and whether
/// the source node condition has to be tested when the last reply is there: in a disturbed state it
/// may fail.
#[derive(Clone, Copy, Debug, PartialEq, Eq)]
pub enum Origin {
    /// State 0: its own start, and the distance by way of the successor rose since, or the
    /// successor's link was lost.
    OwnDisturbed,
    /// State 1: its own start.
    Own,
    /// State 2: a reply is owed, and the distance rose or the successor's query came since.
    OwingDisturbed,
    /// State 3: the successor's query began it, and a reply is owed.
    Owing,
}

impl Origin {
    /// The number of the state, 0..=3.
    pub fn number(self) -> u8
        ensures { result ≡ table.origin_number self }
    {
        self as u8
    }

    /// The distance by way of the successor is above the one with which the computation began.
    pub fn rose(self) -> Origin
        ensures { result ≡ table.rose self }
    {
        match self {
            Origin::OwnDisturbed | Origin::Own => Origin::OwnDisturbed,
            Origin::OwingDisturbed | Origin::Owing => Origin::OwingDisturbed,
        }
    }

    /// A query came from the successor.
    pub fn queried(self) -> Origin
        ensures { result ≡ table.queried self }
    {
        Origin::OwingDisturbed
    }

    /// The successor's link is lost.
    pub fn lost(self) -> Origin
        ensures { result ≡ table.lost self }
    {
        Origin::OwnDisturbed
    }

    /// The state of the next computation, where the condition failed at the end of this one.
    pub fn restart(self) -> Origin
        ensures { result ≡ table.restart self }
    {
        match self {
            Origin::OwnDisturbed | Origin::Own => Origin::Own,
            Origin::OwingDisturbed | Origin::Owing => Origin::Owing,
        }
    }

    /// Whether the source node condition may fail at the end, and has to be tested.
    pub fn needs_test(self) -> bool
        ensures { result ≡ table.needs_test self }
    {
        match self {
            Origin::OwnDisturbed | Origin::OwingDisturbed => true,
            Origin::Own | Origin::Owing => false,
        }
    }
}
