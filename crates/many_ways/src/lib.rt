//! No packet meets a router twice, whichever of many next hops each router takes for it.
//!
//! Beside its row for a prefix a router may have more next hops, for example two at the same distance. It
//! sends each packet by the row or by any of them, and chooses anew for the next one. With one next hop the
//! law is that of `all_packets`. Can a packet come back if each router that it meets may choose?
//!
//! The law ([`no_hop_circles`]): no, in every world of every run, whichever prefixes match the packet, and
//! also if some routers go by what they would publish now (`NoHopCircles` in `specs/InForce.antt`). Each next
//! hop only has to be *feasible* when it is published: its port is up, and the neighbour there has reported
//! less than the feasible distance. At rest, if routers offer next hops of equal cost, each chain of them that
//! ends at an attached router, at the distance of its attachment, is a least walk ([`equal_hops_at_quiet`]).
//!
//! ```text
//!    0 -- 1 -- 3     links cost 1, and router 3 is attached to the prefix at cost 1
//!     \-- 2 --/      router 0 has its row via 1, and beside it via 2, which reported 2, less than 3
//! ```
//!
//! Why it is true: whichever next hop each router shows, its row's or one beside it, what `loop_freedom`
//! keeps of every state is kept (`WideInvariant` in `proofs/Kept.antt`). That rests on one fact, which is
//! that a feasible next hop may be shown in place of the row (`shown_keeps` in `proofs/Shown.antt`), because
//! both feasible distances of its neighbour are less. All other steps are used as they stand, since a
//! publication that makes no message ripe and leaves the feasible distance is no step for those who look at
//! one next hop alone. In whole networks matches then get longer, or stay and feasible distances fall, as
//! along rows (`proofs/Packets.antt`).
//!
//! What is tricky is when a next hop has to go. It may stay until a publication of its router makes a message
//! ripe, or has another feasible distance, and so a router that publishes chooses its next hops anew even if
//! its row stays. A neighbour that reported the feasible distance itself is none, because two routers that are
//! level would choose each other.
#![tactic(auto)]

ghost use Rattle.many_ways.specs.Network.{ManyHopsLoopFree};
ghost use Rattle.many_ways.specs.Packets.{HoldsInEveryHistory, NoFeasibleHopCircles, FeasibleHopWaysEnd};
ghost use Rattle.many_ways.specs.InForce.{NoHopCircles, HopWaysEnd, SomeRouterHasAChoice, SomeHopOutlivesItsRow};
ghost use Rattle.many_ways.specs.HopsAtQuiet.{EqualHopsAreLeast, NextHopsComeNearer, FirstIsTheRow, HopsAreInForce};
ghost use Rattle.no_packet_loops.specs.Packets.{HoldsInEveryWorld};
ghost use Rattle.many_ways.specs.Journeys.{NoHopJourneyCircles};
ghost use Rattle.many_ways.specs.Quiet.{ManyHopsAtQuiet};
ghost use Rattle.many_ways.specs.QuietWorlds.{EqualChainsAreLeast};

/// In every state of every run no walk meets a router twice. Each router may send each packet by its row, by any
/// next hop that is in force beside it, or by any that is feasible now.
pub fn many_ways()
    ensures { ManyHopsLoopFree }
{}

/// In every world of every run no packet meets a router twice, whichever prefixes match its address on its way.
/// Each router may send it by the row that it published, or by any next hop that was feasible then. It may also
/// go by the row that it has chosen since, or by any that is feasible now. No such way has more routers than
/// there are.
pub fn no_many_way_circles()
    ensures moving { HoldsInEveryHistory NoFeasibleHopCircles }
    ensures end { HoldsInEveryHistory FeasibleHopWaysEnd }
{}

/// In a quiet network every walk along feasible next hops of equal cost that ends at an attached router, at its
/// attachment, is a least one. The row is among these next hops. No feasible one is a dead end, of equal cost
/// or not.
pub fn many_ways_at_quiet()
    ensures { ManyHopsAtQuiet }
{}

/// Some run leads to a world in which a router may send a packet to either of two others, by what it
/// published. Some run leads to one in which a row over a link leads nowhere any more, although a next hop that
/// its router published beside that row leads on.
pub fn some_router_has_a_choice()
    ensures choice { SomeRouterHasAChoice }
    ensures outlives { SomeHopOutlivesItsRow }
{}

/// From every world of every run no packet meets a router twice while steps are done, until a router takes a
/// message or a notice. At each router it goes by the row, or by any next hop that was feasible when the router
/// published last, or that is feasible at that moment.
pub fn no_many_way_journey_circles()
    ensures { HoldsInEveryHistory NoHopJourneyCircles }
{}

/// In every quiet world of every run, every chain of feasible next hops of equal cost that ends at an attached
/// router, at the distance of its attachment, is a least walk. It costs the reported distance, whichever of them
/// each router takes.
pub fn equal_chains_are_least()
    ensures { EqualChainsAreLeast }
{}

/// In every world of every run no packet meets a router twice. Each router sends it by its row or by any next hop
/// beside that, as it published them or would publish them now. No such way has more routers than there are.
pub fn no_hop_circles()
    ensures circles { HoldsInEveryWorld NoHopCircles }
    ensures end { HoldsInEveryWorld HopWaysEnd }
{}

/// In every quiet world of every run each router published the next hops that it offers, and each of these
/// leads to a router that is nearer and has a route. If the network offers any, the first one beside a row over
/// a link is that of the row itself. If it offers those of equal cost, every chain of them that ends at an
/// attached router, at the distance of its attachment, is a least walk.
pub fn equal_hops_at_quiet()
    ensures least { EqualHopsAreLeast }
    ensures nearer { NextHopsComeNearer }
    ensures first { FirstIsTheRow }
    ensures in_force { HopsAreInForce }
{}
