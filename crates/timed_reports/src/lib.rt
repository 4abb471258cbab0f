//! What goes on in simulated time while a network comes to rest.
//!
//! A change makes work. Machines begin computations, and some routers have no way to a prefix although
//! links lead there. Who runs a network asks for how long, so this crate says what that means, and records
//! it.
//!
//! - A router is *cut off* from a prefix (`IsCutOff` of `reachability`) if links that are up lead to a router
//!   which is attached to it, and the rows that routers published do not.
//! - A machine is *computing* (`IsComputing` in `specs/Going.antt`) if it awaits replies.
//! - A *spell* of such a thing (`IsSpell` in `specs/Spells.antt`) begins with the event that makes it so, and
//!   ends with the event that unmakes it. Its length is the time between the two.
//!
//! ```text
//!   link 0 comes up   router 0 publishes and tells   router 1 publishes
//!   3                 18                             45
//!   |-- router 1 is cut off from the prefix at router 0 --|
//! ```
//!
//! A [`Report`] runs a network event by event. After each it looks at what the event may have changed and at nothing
//! else: the machine that met a message, or all those of a router that took another item; and the ways to each
//! prefix whose attachments or published rows moved, or to all where a link came up or went down.
//!
//! ```text
//! let mut report = Report::open(alloc, network, &delays, &publications)?;
//! report.at(0, Step::LinkUp { link: 0 })?;
//! let ran = report.run_to_rest(1_000_000);
//! report.outages();                                   // from when until when each router was cut off
//! report.cut_off();                                   // who is cut off now, and since when
//! ```
//!
//! A record takes time with each event. So whoever may do without it opens a [`Recording`], which keeps one only
//! if that is asked for.
//!
//! What always holds (`IsReport` in `specs/Reports.antt`): the record is exact of the events that were done. A
//! spell that ended stands in its list if and only if there was one. What goes on stands there with the moment
//! at which it began if and only if it goes on. At rest nobody is cut off, and no machine is computing
//! ([`nothing_goes_on`]). So each spell ends, at the latest with the event after which the network is at rest.
//! The lists of what ended only grow (`HasGrown`), so you read them on from where you were.
//!
//! What is tricky is memory: nothing may be refused after an event is done, so room is made first for all
//! that may end with it.
#![tactic(auto)]

ghost use Rattle.std.specs.Prelude.{ℕ};
ghost use Rattle.ipv4_prefix.specs.Prefix.{Prefix};
ghost use Rattle.reachability.specs.Ways.{IsCutOff};
ghost use Rattle.timed_simulation.specs.{Timed.world_of, Runs.IsAtRest};
ghost use Rattle.timed_reports.specs.Going.{IsComputing};

mod looks;
mod recording;
mod report;
mod spells;

pub use network_model::{NoMemory, Prefix, SmallAllocator, Step};
pub use recording::Recording;
pub use report::Report;
pub use spells::{Spell, Watched};
pub use timed_simulation::{Change, Event, LinkDelays, TimeFault, TimedRan, TimedSimulation};
pub use world::Network;

/// It does nothing. What holds of a timed simulation at rest, for whoever has one: no router is cut off from a
/// prefix that it could reach, and no machine is in a computation.
pub fn nothing_goes_on<A: SmallAllocator>(timed: &TimedSimulation<A>)
    ensures ways { IsAtRest timed.now → (p : Prefix) (i : ℕ) → IsCutOff p i (world_of timed.now) → ⊥ }
    ensures computations { IsAtRest timed.now
        → (p : Prefix) (i : ℕ) → IsComputing p i (world_of timed.now) → ⊥ }
{
    timed.holds();
    let _settled = timed.simulation().is_settled();
}
