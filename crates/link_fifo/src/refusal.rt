//! Why a call on links is refused, and what became of a message.

ghost use Rattle.std.specs.Prelude.{◌≡◌};
ghost use Rattle.link_fifo.specs.declared.refusal.LinkRefusal.TheVariants.{NoMemory as OutOfMemory};

use faults::FaultKind;
use network_model::Refusal;
use std::alloc::AllocError;
use thiserror::Error;

/// Why a call on links is refused. Its text is its number and name.
#[derive(Clone, Copy, Debug, PartialEq, Eq, Drop, Error)]
#[error("{}", FaultKind::from(*self))]
pub enum LinkRefusal {
    /// The link's number is too large.
    UnknownLink,
    /// The link is up.
    AlreadyUp,
    /// The link is down.
    IsDown,
    /// The link has come up 65535 times.
    SessionsSpent,
    /// The end has no item to take.
    NothingToDeliver,
    /// A growth was refused.
    NoMemory,
}

impl From<LinkRefusal> for FaultKind {
    ghost use Rattle.network_model.specs.Kinds.{refusal_kind};
    ghost use Rattle.link_fifo.specs.Refusals.{step_refusal};

    ghost from_gives = { λ refusal k. k ≡ refusal_kind (step_refusal refusal) };

    fn from(fault: LinkRefusal) -> FaultKind {
        FaultKind::from(Refusal::from(fault))
    }
}

impl From<AllocError> for LinkRefusal {
    ghost from_gives = { λ _ e. e ≡ OutOfMemory };

    fn from(_error: AllocError) -> LinkRefusal {
        LinkRefusal::NoMemory
    }
}

impl From<LinkRefusal> for Refusal {
    ghost use Rattle.std.specs.Prelude.{◌≡◌};
    ghost use Rattle.link_fifo.specs.Refusals.{step_refusal};

    ghost from_gives = { λ refusal e. e ≡ step_refusal refusal };

    fn from(refusal: LinkRefusal) -> Refusal {
        match refusal {
            LinkRefusal::UnknownLink => Refusal::UnknownLink,
            LinkRefusal::AlreadyUp => Refusal::AlreadyUp,
            LinkRefusal::IsDown => Refusal::IsDown,
            LinkRefusal::SessionsSpent => Refusal::SessionsSpent,
            LinkRefusal::NothingToDeliver => Refusal::NothingToDeliver,
            LinkRefusal::NoMemory => Refusal::NoMemory,
        }
    }
}

/// What became of a message that was put on a link.
#[derive(Clone, Copy, Debug, PartialEq, Eq)]
pub enum Put {
    /// It stands at the back, on its way to the other end.
    Queued,
    /// Its session is over: it is lost, and the link is as it was.
    Stale,
}
