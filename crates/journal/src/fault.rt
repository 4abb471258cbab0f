//! What is wrong with the text of a journal.

ghost use Rattle.std.specs.Prelude.{◌≡◌};
ghost use Rattle.journal.specs.declared.fault.JournalFault.TheVariants.{NoMemory as OutOfMemory};

use faults::FaultKind;
use std::alloc::AllocFailed;
use thiserror::Error;

/// Why the text of a journal cannot be read. Its text is its number and name, and the line if it has one.
#[derive(Clone, Copy, Debug, Drop, Error)]
#[error("{}", FaultKind::from(*self))]
pub enum JournalFault {
    /// The text is not UTF-8.
    BadText,
    /// The line, counted from 1, is missing or is not what stands there in a journal.
    #[error("{} at line {line}", FaultKind::from(*self))]
    BadLine { line: usize },
    /// A growth was refused.
    NoMemory,
}

impl From<JournalFault> for FaultKind {
    ghost use Rattle.journal.specs.Kinds.{journal_kind};

    ghost from_gives = { λ fault k. k ≡ journal_kind fault };

    fn from(fault: JournalFault) -> FaultKind {
        match fault {
            JournalFault::BadText => FaultKind::BadJournal,
            JournalFault::BadLine { .. } => FaultKind::BadJournal,
            JournalFault::NoMemory => FaultKind::NoMemory,
        }
    }
}

impl<T: Drop> From<AllocFailed<T>> for JournalFault {
    ghost from_gives = { λ _ e. e ≡ OutOfMemory };

    fn from(_error: AllocFailed<T>) -> JournalFault {
        JournalFault::NoMemory
    }
}
