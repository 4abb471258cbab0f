//! Routers in processes of their own that may forward by many next hops: still no packet meets a router
//! twice.
//!
//! The problem is that of `many_ways`, where more may happen (`daemon_laws`): ends of links leave their
//! sessions by themselves, messages are lost, processes begin anew, ports get other neighbours, and tables
//! are half written. A router may send each packet by the row that matches it longest, by any next hop that
//! it published beside that row, or by any that is feasible now. A next hop is feasible if the neighbour there
//! reported less than the feasible distance.
//!
//! ```text
//!    router i    row via port 0      its neighbour has left the session: the row leads nowhere
//!                beside it: port 1   -- packet -->   a router whose feasible distance is less
//! ```
//!
//! The law ([`no_daemon_hop_circles`]): no packet meets a router twice, whichever of these each router takes
//! for it, whatever has happened, and whichever prefixes match. That holds whether packets tell the session
//! of their row or not, as in `daemon_laws`. [`hops_at_rest`]: at rest chains of next hops of equal cost
//! that end at an attachment are least ways, and no next hop is a dead end.
//!
//! Why it is true: whichever next hop a router shows in place of its row, all that `daemon_laws` keeps of
//! processes is kept (`proofs/Shown.antt`, `proofs/Kept.antt`). A next hop that is feasible when it is
//! published may be shown, since its neighbour's feasible distances are less than the one that is published.
//! What happens to processes in which one router shows it is what happens to those in which it shows its row,
//! until the router publishes for the prefix again. So each step that `daemon_laws` proves is used as it
//! stands.
//!
//! What is tricky is a publication in parts. It leaves the next hops of other prefixes in force, and so it
//! may not change the feasible distance that counts as published for these.
#![tactic(auto)]

ghost use Rattle.daemon_laws.specs.Happenings.{HoldsAlways};
ghost use Rattle.many_daemon_ways.specs.Packets.{NoHopCirclesAtDaemons, NoUnmarkedHopCircles};
ghost use Rattle.many_daemon_ways.specs.Reached.{SomeHopOutlives, SomeHopsRest};
ghost use Rattle.many_daemon_ways.specs.Rest.{EqualHopsAreLeastAtDaemons, FirstIsTheRowAtDaemons, HopsAreInForceAtDaemons, HopsComeNearerAtDaemons};

/// Whatever happens, and in which order, no packet meets a router twice. Each router sends it by the row that matches
/// it longest, by any next hop that it published beside that, or by any that is feasible now. Meanwhile rows and next
/// hops may be written into tables one by one, and those of a process before may be taken out. That holds if packets
/// carry the session of the row or the next hop by which they are sent. It also holds if they carry none, as long as
/// a router forwards what comes in by a port only while it is in the session of the message that it took there last.
pub fn no_daemon_hop_circles()
    ensures marked { HoldsAlways NoHopCirclesAtDaemons }
    ensures unmarked { HoldsAlways NoUnmarkedHopCircles }
{}

/// Where all is at rest, as in `daemon_laws`, each router published what it offers. Each published next hop leads over
/// a link that is up to a router that is nearer. If a router offers any, the first one beside a row over a link is that
/// of the row itself. If all offer next hops of equal cost, every chain of published ones that ends at an attached
/// router, at the distance of its attachment, is a least way. It costs the reported distance.
pub fn hops_at_rest()
    ensures least { HoldsAlways EqualHopsAreLeastAtDaemons }
    ensures nearer { HoldsAlways HopsComeNearerAtDaemons }
    ensures first { HoldsAlways FirstIsTheRowAtDaemons }
    ensures in_force { HoldsAlways HopsAreInForceAtDaemons }
{}

/// Some published next hop leads on where a row over a link, beside which it stands, leads nowhere any more. Some
/// routers that offer next hops of equal cost come to rest, where a chain of these leads to an attached router.
pub fn some_hop_outlives()
    ensures outlives { SomeHopOutlives }
    ensures rests { SomeHopsRest }
{}
