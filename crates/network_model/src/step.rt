//! The atomic steps of a network, and why one is refused.

ghost use Rattle.std.specs.Prelude.{◌≡◌, ◌+◌, ◌<◌, ◌^◌};
ghost use Rattle.network_model.specs.Journal.{Fits, IsCode, code_of, code_with_prefix, packed, step_number};
ghost use Rattle.network_model.specs.declared.step.Refusal.TheVariants.{NoMemory as OutOfMemory};

use crate::memory::NoMemory;
use faults::FaultKind;
use ipv4_prefix::Prefix;
use metric::Cost;
use thiserror::Error;

/// One atomic step of a network. Routers and links go by their numbers, ports by their router's.
#[derive(Clone, Copy, Debug, PartialEq, Eq)]
pub enum Step {
    /// The link comes up, in its next session.
    LinkUp {
        link: u16,
    },
    /// The link goes down, and the messages on it are lost.
    LinkDown {
        link: u16,
    },
    /// The cost from the router on the link at its port changes.
    SetCost {
        router: u16,
        port: u8,
        cost: Cost,
    },
    /// The router takes the front item from its port; at the port numbered by its degree, the front of
    /// the notices of its own attachments.
    Deliver {
        router: u16,
        port: u8,
    },
    /// The router puts its chosen rows in force, and what it holds may leave.
    Publish {
        router: u16,
    },
    /// The router puts the front message that it holds on its link.
    Release {
        router: u16,
    },
    /// The router is attached to the prefix at this cost, which may be another than before.
    Attach {
        router: u16,
        prefix: Prefix,
        cost: Cost,
    },
    /// The router is no longer attached to the prefix.
    Detach {
        router: u16,
        prefix: Prefix,
    },
}

// What a step's number counts it by, and the places of its parts.
const ONE_STEP: u128 = 1 << 104;

const KIND: u128 = 1 << 80;

const SUBJECT: u128 = 1 << 64;

const PORT: u128 = 1 << 56;

const COST: u128 = 1 << 40;

const ADDRESS: u128 = 1 << 8;

impl Step {
    /// Its number, which no other step has: a journal's sum adds up those of its steps.
    pub fn number(&self) -> u128
        ensures number { result ≡ step_number self.now }
        ensures below { result < 2 ^ 105 }
        ensures fits { Fits self.now }
    {
        match *self {
            Step::LinkUp { link } => number_of(0, link, 0, 0),
            Step::LinkDown { link } => number_of(1, link, 0, 0),
            Step::SetCost { router, port, cost } => number_of(2, router, port, cost.value()),
            Step::Deliver { router, port } => number_of(3, router, port, 0),
            Step::Publish { router } => number_of(4, router, 0, 0),
            Step::Release { router } => number_of(5, router, 0, 0),
            Step::Attach {
                router,
                prefix,
                cost,
            } => number_with_prefix(6, router, cost.value(), prefix),
            Step::Detach { router, prefix } => number_with_prefix(7, router, 0, prefix),
        }
    }
}

// The number of a step of these parts, that names a prefix.
fn number_with_prefix(kind: u8, subject: u16, cost: u32, prefix: Prefix) -> u128
    requires kind { kind < 2 ^ 4 }
    requires cost { cost < 2 ^ 16 }
    ensures number { result ≡ 2 ^ 104 + packed (code_with_prefix kind subject cost prefix) }
    ensures below { result < 2 ^ 105 }
    ensures fits { IsCode (code_with_prefix kind subject cost prefix) }
{
    number_of(kind, subject, 0, cost)
        + u128::from(prefix.addr()) * ADDRESS
        + u128::from(prefix.len())
}

// The number of a step of these parts, that names no prefix.
fn number_of(kind: u8, subject: u16, port: u8, cost: u32) -> u128
    requires kind { kind < 2 ^ 4 }
    requires cost { cost < 2 ^ 16 }
    ensures number { result ≡ 2 ^ 104 + packed (code_of kind subject port cost) }
    ensures below { result < 2 ^ 105 }
    ensures fits { IsCode (code_of kind subject port cost) }
{
    ONE_STEP
        + u128::from(kind) * KIND
        + u128::from(subject) * SUBJECT
        + u128::from(port) * PORT
        + u128::from(cost) * COST
}

/// Why a step, or a call on the network that does steps, is refused. Its text is its number and name.
#[derive(Clone, Copy, Debug, PartialEq, Eq, Drop, Error)]
#[error("{}", FaultKind::from(*self))]
pub enum Refusal {
    /// The router's number is too large.
    UnknownRouter,
    /// The number of the link or of the port is too large.
    UnknownLink,
    /// The link is up.
    AlreadyUp,
    /// The link is down.
    IsDown,
    /// The link has come up 65535 times.
    SessionsSpent,
    /// Nothing is on its way to the port.
    NothingToDeliver,
    /// The router's chosen rows are those in force, and all that it holds may leave.
    NothingDue,
    /// The router holds nothing, or its front message may not leave yet.
    NothingRipe,
    /// The journal has 1,000,000 steps.
    JournalFull,
    /// A growth was refused.
    NoMemory,
    /// The router's image is being published: its writer is out.
    Busy,
    /// A reader showed a later image than the one in force.
    Stale,
    /// There is no place for a reader of an image.
    NoReaderPlace,
    /// The prefix is none of the network's.
    UnknownPrefix,
    /// The router is not attached to the prefix.
    NotAttached,
    /// A reader was given no image.
    NoImage,
    /// The ticket is not the one that is out for its router.
    WrongTicket,
}

impl From<Refusal> for FaultKind {
    ghost use Rattle.network_model.specs.Kinds.{refusal_kind};

    ghost from_gives = { λ refusal k. k ≡ refusal_kind refusal };

    fn from(fault: Refusal) -> FaultKind {
        match fault {
            Refusal::UnknownRouter => FaultKind::UnknownRouter,
            Refusal::UnknownLink => FaultKind::UnknownLink,
            Refusal::AlreadyUp => FaultKind::AlreadyUp,
            Refusal::IsDown => FaultKind::IsDown,
            Refusal::SessionsSpent => FaultKind::SessionsSpent,
            Refusal::NothingToDeliver => FaultKind::NothingToDeliver,
            Refusal::NothingDue => FaultKind::NothingDue,
            Refusal::NothingRipe => FaultKind::NothingRipe,
            Refusal::JournalFull => FaultKind::JournalFull,
            Refusal::NoMemory => FaultKind::NoMemory,
            Refusal::Busy => FaultKind::Busy,
            Refusal::Stale => FaultKind::Stale,
            Refusal::NoReaderPlace => FaultKind::NoReaderPlace,
            Refusal::UnknownPrefix => FaultKind::UnknownPrefix,
            Refusal::NotAttached => FaultKind::NotAttached,
            Refusal::NoImage => FaultKind::NoImage,
            Refusal::WrongTicket => FaultKind::WrongTicket,
        }
    }
}

impl From<NoMemory> for Refusal {
    ghost from_gives = { λ _ e. e ≡ OutOfMemory };

    fn from(_error: NoMemory) -> Refusal {
        Refusal::NoMemory
    }
}
