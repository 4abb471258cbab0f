//! The numbers of faults.

ghost use Rattle.std.specs.Prelude.{◌≡◌, ◌≢◌, ◌<◌, Some, IfSome, IfNone};
ghost use Rattle.faults.specs.{declared.kind.FaultKind.FaultKind, Numbers.kind_number, Numbers.name_of};

use std::fmt;

/// What is wrong, by its number and its name. It is displayed as both, for example `4 HostBits`.
#[derive(Clone, Copy, Debug, PartialEq, Eq)]
pub enum FaultKind {
    NoSlash,
    BadAddress,
    BadLength,
    HostBits,
    BadCost,
    UnknownRouter,
    UnknownLink,
    NoThread,
    AlreadyUp,
    IsDown,
    SessionsSpent,
    NothingToDeliver,
    NothingDue,
    NothingRipe,
    JournalFull,
    NoMemory,
    Busy,
    Stale,
    NoReaderPlace,
    BadRouters,
    BadLink,
    TooManyLinks,
    BadOwner,
    UnknownPrefix,
    NotAttached,
    Stranger,
    Doubled,
    Missing,
    Closed,
    NoImage,
    WrongTicket,
    BadToml,
    BadKey,
    BadName,
    BadLine,
    BadCommand,
    TooLarge,
    Unreadable,
    BadJournal,
    Unwritable,
    PastMoment,
    TimeSpent,
    JournalKept,
    NothingSaved,
}

// The table of faults, once for all that is looked up in it: each has its number, and its name is that of its kind.
macro_rules! in_table {
    (@of $value:expr; $($kind:ident = $number:literal),*) => {
        match $value {
            $($number => Some(FaultKind::$kind),)*
            _ => None,
        }
    };
    (@number $value:expr; $($kind:ident = $number:literal),*) => {
        match $value {
            $(FaultKind::$kind => $number,)*
        }
    };
    (@name $value:expr; $($kind:ident = $number:literal),*) => {
        match $value {
            $(FaultKind::$kind => stringify!($kind),)*
        }
    };
    ($rule:ident $value:expr) => {
        in_table!(@$rule $value;
            NoSlash = 1,
            BadAddress = 2,
            BadLength = 3,
            HostBits = 4,
            BadCost = 5,
            UnknownRouter = 10,
            UnknownLink = 11,
            NoThread = 12,
            AlreadyUp = 13,
            IsDown = 14,
            SessionsSpent = 15,
            NothingToDeliver = 16,
            NothingDue = 17,
            NothingRipe = 18,
            JournalFull = 19,
            NoMemory = 20,
            Busy = 21,
            Stale = 22,
            NoReaderPlace = 23,
            BadRouters = 24,
            BadLink = 25,
            TooManyLinks = 26,
            BadOwner = 27,
            UnknownPrefix = 28,
            NotAttached = 29,
            Stranger = 30,
            Doubled = 31,
            Missing = 32,
            Closed = 33,
            NoImage = 34,
            WrongTicket = 35,
            BadToml = 40,
            BadKey = 41,
            BadName = 42,
            BadLine = 43,
            BadCommand = 45,
            TooLarge = 46,
            Unreadable = 47,
            BadJournal = 48,
            Unwritable = 49,
            PastMoment = 51,
            TimeSpent = 52,
            JournalKept = 54,
            NothingSaved = 55)
    };
}

impl FaultKind {
    /// The kind of a number, or none if no fault of this list has that number.
    pub fn of(number: u8) -> Option<FaultKind>
        ensures some { IfSome result (λ k. kind_number k ≡ number) }
        ensures none { IfNone result ((k : FaultKind) → kind_number k ≢ number) }
        ensures only { (k : FaultKind) → kind_number k ≡ number → result ≡ Some k }
    {
        in_table!(of number)
    }

    /// Its number, 1..=55.
    pub fn number(self) -> u8
        ensures number { result ≡ kind_number self }
        ensures some { 0 < result }
    {
        in_table!(number self)
    }

    /// Its name, which the program prints after the number.
    pub fn name(self) -> &'static str
        ensures { result.now ≡ name_of self }
    {
        in_table!(name self)
    }
}

impl fmt::Display for FaultKind {
    ghost use Rattle.std.specs.Prelude.{Some, ◌++◌, codes, decimal};

    ghost output = { λ k. Some (decimal (kind_number k) ++ codes " " ++ name_of k) };

    fn fmt<W: fmt::Write>(&self, f: &mut fmt::Formatter<W>) -> fmt::Result {
        write!(f, "{} {}", self.number(), self.name())
    }
}
