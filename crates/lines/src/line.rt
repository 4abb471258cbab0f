//! A line that is printed.

use crate::answers::{Asked, TraceLine};
use crate::ends::{Counts, Ended, NextLine};
use crate::reasons::{AwaitsLine, KnownLine};
use crate::states::{LinkLine, MachineLine, RouterLine};
use crate::times::{ChangeLine, SpellLine};
use crate::waiting::Waiting;
use faults::FaultKind;
use ipv4_prefix::Prefix;

/// A line that is printed, as text for people or as an object of JSON.
#[derive(Clone, Copy)]
pub enum Line<'a> {
    /// A row, or what was found for an address.
    Asked(Asked),
    /// `trace A ADDR: A B C END`: the routers that the packet passes, and why it ends.
    Traced(TraceLine<'a>),
    /// What a link, a router or a machine is at.
    Link(LinkLine),
    Router(RouterLine),
    Machine(MachineLine),
    /// `A PREFIX unheard`.
    Unheard { router: u16, prefix: Prefix },
    /// The neighbours whose replies a router's machine for a prefix awaits. For people, this and the next are
    /// two columns to the right.
    Awaits(AwaitsLine<'a>),
    /// What else it knows.
    Known(KnownLine),
    /// What waits to be taken, or is held.
    Waiting(Waiting),
    /// The same, of what a step takes or sends. For people it is two columns to the right.
    Moved(Waiting),
    /// `next A: STEP`, or `next A: nothing`: what a router has to do next, in a network of these links.
    Next(NextLine<'a>),
    /// `done`, or `refused NUMBER NAME`: what came of a step that was tried.
    Tried(Option<FaultKind>),
    /// `count: S steps, U updates Q queries R replies`: what was done since the last time.
    Counted(Counts),
    /// How a run or a replay ended, for example `done: 9 steps`.
    Ended(Ended),
    /// `MOMENT STEP: refused NUMBER NAME`, or `MOMENT STEP: at rest T later, COUNTS` with the spells behind it: a change
    /// in simulated time.
    Changed(ChangeLine<'a>),
    /// `computation at A for PREFIX from T to T`, or `outage` in its place. For people it is two columns to the right.
    Spell(SpellLine),
}
