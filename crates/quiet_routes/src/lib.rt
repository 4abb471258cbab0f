//! What holds of a network of routers that has come to rest: no machine is in a computation, and published
//! rows lead along cheapest ways.
//!
//! `least_cost` says this of one destination, and a caller has a whole network. A caller also wants to see
//! by a look at queues that all is well, and not by a look into each machine.
//!
//! The first law ([`settled_is_quiet`]): a network has *settled* exactly if it is *quiet* (`SettledIsQuiet`
//! in `specs/Settled.antt`). Settled is what a caller can see: nothing is queued, no notice waits, nothing is
//! due and nothing ripe. Quiet says besides that every machine is passive and nothing is held.
//!
//! Why it is true: what a router holds is ripe, or it is due. So in a network that has settled nothing is
//! held, and nothing is on a link. Then the machines of each prefix are passive, by the first law of
//! `least_cost`.
//!
//! The second law ([`quiet_routes`]): in a quiet network each router has its best row for each prefix
//! (`HasBestRow` in `specs/Routes.antt`). If links that are up lead to an attached router, its row is
//! `Local`, or begins a chain of rows to a `Local` one. The chain costs what the router reports, the
//! attachment's cost included, and no way to an attached router costs less. If no links lead to one, the
//! row is `Unreachable`, or the prefix is unheard.
//!
//! Why it is true: what a prefix sees of a quiet world is a quiet network of one destination
//! (`proofs/Still.antt`). Walks over the world's links are walks there, and the other way round, so the
//! second law of `least_cost` gives the chain.
//!
//! ```text
//!    router 0 ---- 3 / 7 ---- router 1        router 2        router 0 is attached, at cost 1
//!    Local                    Via port 0      unheard         router 1 is at distance 7 + 1
//! ```
//!
//! The hard step is the attachment. The law speaks of the attachments that the network has, and a machine
//! knows what it was told. In a quiet world no notice waits, so the two agree (`proofs/Homes.antt`).
//!
//! The worlds of which the law speaks are not empty: [`some_quiet_runs`] has this one, and two into which it
//! turns.
#![tactic(auto)]

ghost use Rattle.no_packet_loops.specs.Packets.{HoldsInEveryWorld};
ghost use Rattle.quiet_routes.specs.{Routes.QuietRoutes, Routes.SomeQuietRuns, Settled.SettledIsQuiet};

/// Where a walk of up links leads from a router to one that is attached to the prefix, its row for the
/// prefix is Local (at an attached router) or begins a chain of Via rows over up links in their
/// present sessions to a Local row; the chain's cost, that of the attachment included, is the router's
/// reported distance and is least. Where none leads there, the row is Unreachable or the prefix is
/// unheard at that router.
pub fn quiet_routes()
    ensures { QuietRoutes }
{}

/// The law above speaks of some worlds: runs that come to rest, with a route, with none, and with
/// a router that has not heard of the prefix.
pub fn some_quiet_runs()
    ensures { SomeQuietRuns }
{}

/// A network has nothing left to do exactly where all is quiet: where nothing waits and nothing is due,
/// no machine is left in a computation.
pub fn settled_is_quiet()
    ensures { HoldsInEveryWorld SettledIsQuiet }
{}
