//! Why the program stops, and the status that it ends with.

ghost use Rattle.std.specs.Prelude.{◌≡◌};
ghost use Rattle.faults.specs.declared.kind.FaultKind.TheVariants.{NoMemory as OutOfMemory};
ghost use Rattle.network_model.specs.Journal.{most_steps};
ghost use Rattle.plans.specs.Document.{document_kind};
ghost use Rattle.plans.specs.Faults.{journal_fault, line_fault, opening_fault, refused_fault, status_of, unplaced};

use crate::document::DocumentFault;
use crate::place::Where;
use faults::FaultKind;
use journal::JournalFault;
use network_model::{NetworkFault, NoMemory, Refusal};
use script::{Key, Located, Place};
use std::alloc::AllocFailed;
use std::fmt;
use std::io::Write;

/// What is wrong, and where, if it stands in a text: it is displayed as `25 BadLink at links 0`, or without a place
/// as `24 BadRouters`.
#[derive(Clone, Copy)]
pub struct Fault {
    pub kind: FaultKind,
    pub place: Option<Where>,
}

impl Fault {
    /// The exit status of the program: 1 if it is what was read that is at fault, or could not be read.
    pub fn status(&self) -> u8
        ensures { result ≡ status_of (self.now).kind }
    {
        match self.kind {
            FaultKind::NoSlash
            | FaultKind::BadAddress
            | FaultKind::BadLength
            | FaultKind::HostBits
            | FaultKind::BadCost
            | FaultKind::BadRouters
            | FaultKind::BadLink
            | FaultKind::TooManyLinks
            | FaultKind::BadOwner
            | FaultKind::BadToml
            | FaultKind::BadKey
            | FaultKind::BadName
            | FaultKind::BadLine
            | FaultKind::BadCommand
            | FaultKind::TooLarge
            | FaultKind::Unreadable
            | FaultKind::BadJournal => 1,
            _ => 2,
        }
    }
}

impl From<FaultKind> for Fault {
    ghost from_gives = { λ kind e. e ≡ unplaced kind };

    fn from(kind: FaultKind) -> Fault {
        Fault { kind, place: None }
    }
}

impl From<NoMemory> for Fault {
    ghost from_gives = { λ _ e. e ≡ unplaced OutOfMemory };

    fn from(_error: NoMemory) -> Fault {
        Fault::from(FaultKind::NoMemory)
    }
}

impl<T: Drop> From<AllocFailed<T>> for Fault {
    ghost from_gives = { λ _ e. e ≡ unplaced OutOfMemory };

    fn from(_error: AllocFailed<T>) -> Fault {
        Fault::from(FaultKind::NoMemory)
    }
}

impl From<Refusal> for Fault {
    ghost from_gives = { λ refusal e. e ≡ refused_fault refusal };

    fn from(refusal: Refusal) -> Fault {
        Fault::from(FaultKind::from(refusal))
    }
}

impl From<DocumentFault> for Fault {
    ghost from_gives = { λ fault e. e ≡ unplaced (document_kind fault) };

    fn from(fault: DocumentFault) -> Fault {
        Fault::from(FaultKind::from(fault))
    }
}

impl From<Located> for Fault {
    ghost from_gives = { λ at e. e ≡ line_fault at };

    fn from(at: Located) -> Fault {
        let place = match at.place {
            Some(place) => Some(Where::Scenario(place)),
            None => None,
        };
        let kind = FaultKind::from(at.fault);
        Fault { kind, place }
    }
}

impl From<NetworkFault> for Fault {
    ghost from_gives = { λ fault e. e ≡ opening_fault fault };

    fn from(fault: NetworkFault) -> Fault {
        let kind = FaultKind::from(fault);
        let (key, position) = match fault {
            NetworkFault::BadLink { link } | NetworkFault::TooManyLinks { link } => {
                (Key::Links, link)
            }
            NetworkFault::BadOwner { prefix } => (Key::Prefixes, prefix),
            NetworkFault::BadRouters => return Fault::from(kind),
        };
        let place = Some(Where::Scenario(Place { key, position }));
        Fault { kind, place }
    }
}

impl From<JournalFault> for Fault {
    ghost from_gives = { λ fault e. e ≡ journal_fault fault };

    fn from(fault: JournalFault) -> Fault {
        let place = match fault {
            JournalFault::BadLine { line } => Some(Where::Journal { line }),
            JournalFault::BadText | JournalFault::NoMemory => None,
        };
        let kind = FaultKind::from(fault);
        Fault { kind, place }
    }
}

impl fmt::Display for Fault {
    fn fmt<W: fmt::Write>(&self, f: &mut fmt::Formatter<W>) -> fmt::Result {
        let kind = self.kind;
        match self.place {
            Some(place) => write!(f, "{kind}{place}"),
            None => write!(f, "{kind}"),
        }
    }
}

/// Says on `err` why the program stops, and answers its exit status. Where the journal is full, a
/// second line says how many steps were done.
pub fn refuse<E: Write>(fault: Fault, err: &mut E) -> u8
    ensures { result ≡ status_of fault.kind }
{
    let _ = writeln!(err, "dualnet: {fault}");
    if matches!(fault.kind, FaultKind::JournalFull) {
        let steps = steps_of_full_journal();
        let _ = writeln!(err, "dualnet: {steps} steps were done");
    }
    fault.status()
}

// How many steps a journal has that is full.
fn steps_of_full_journal() -> u32
    ensures { result ≡ most_steps }
{
    1_000_000
}
