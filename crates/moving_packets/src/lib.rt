//! A packet that moves while routers take messages comes back to a router only for a better way, or after a
//! computation that ended where it was.
//!
//! The problem: no packet meets a router twice along the tables in force (`all_packets`). But tables change
//! behind a packet that moves. Routers take messages, and so turn round. When may a packet come back, and how
//! often?
//!
//! The law ([`comes_back`]): say that a packet *stays near*: whenever it leaves a router, the published feasible
//! distance there, for the prefix by which it came, is not above that of the row by which it came. If it comes
//! back to a router then, this one has published a better way since: a lower feasible distance, or a row of
//! another prefix that is no shorter. A packet stays near if no rise is both begun and published where it is.
//! And a feasible distance rises only at the end of a computation, or when a router's last port goes down
//! ([`rises_come_from`]).
//!
//! ```text
//!    c  -- via b -->  b               the packet is at b; now b loses its way, asks c, and c takes another one
//!    FD 3             FD 2
//!    c  <-- via c --  b               b's computation ends, and b publishes: FD 7 is above 3
//! ```
//!
//! While a ticket of a router is out, nobody can say whether a packet meets there the rows that the router
//! published or those that it has chosen, which are published next. The law lets it meet either at each hop,
//! because along rows of both kinds feasible distances of both kinds fall, and because a router takes nothing
//! from a ticket until that is given back.
//!
//! Why it is true: where a packet goes on, the feasible distance falls, so that it need not have fallen at the
//! routers between. While the packet waits, the published one stays, or becomes the one that was chosen. That
//! was below the row's, too, when the packet came. The argument is said once for all kinds of moments
//! (`proofs/Returns.antt`), because that of processes is the same (`moving_daemon_packets`).
//!
//! The hard step is a packet that other prefixes match on its way. It is matched by the prefix by which it came,
//! or by one that goes before. So the router to which it comes back had published no row of that one when the
//! packet left, or has a lower feasible distance now.
//!
//! The second law ([`hops_end`]) bounds all hops, near or not: between two takings a packet goes along a way of
//! one world. So it circles for ever in no network that is left alone.
//!
//! Both conditions are needed ([`some_packets`]). What is not said: how long a packet is at a router, and how
//! often tables change meanwhile. A law has no clock.
#![tactic(auto)]

ghost use Rattle.no_packet_loops.specs.Packets.{HoldsInEveryWorld};
ghost use Rattle.moving_packets.specs.Moving.{HoldsAfterEveryRun, CalmStaysNear, ComesBackForBetter, ComesBackOncePublished, ComesBackSeldom, HopsComeNearer, RisesComeFrom, HopsAreFew, HopsEnd, SomeComesBackForBetter, SomeComesBackAfterRise};

/// After every run, of a packet that goes on along the rows in force at each moment, or those that a router with
/// a ticket out publishes next, while lawful steps of every kind are done. If it stays near, it comes back to a
/// router only where that has published a better way since, so not to one that has published nothing. It stays
/// near, even below, if at no router on its way a rise of the feasible distance, for the prefix by which it
/// came, is both begun and published or met while it is there. And then each hop by one prefix brings it nearer.
pub fn comes_back()
    ensures better { HoldsAfterEveryRun ComesBackForBetter }
    ensures published { HoldsAfterEveryRun ComesBackOncePublished }
    ensures seldom { HoldsAfterEveryRun ComesBackSeldom }
    ensures calm { HoldsAfterEveryRun CalmStaysNear }
    ensures nearer { HoldsAfterEveryRun HopsComeNearer }
{}

/// After every run, a feasible distance rises where its router takes something: if a port is up then, its
/// machine was in a computation, and it rises to the distance of that at most. A published one rises where the
/// router publishes. That the computation ends then is a clause of `machine_laws`.
pub fn rises_come_from()
    ensures { HoldsAfterEveryRun RisesComeFrom }
{}

/// In every world of every run, a packet makes fewer hops than there are routers for each taking, and once
/// more. If the network is left alone, some number is exceeded by the hops of no packet.
pub fn hops_end()
    ensures few { HoldsInEveryWorld HopsAreFew }
    ensures end { HoldsInEveryWorld HopsEnd }
{}

/// Some packet stays near, and comes back for a better way, by a row that is yet to be published. Some packet
/// does not stay near, and comes back to a router that has no better way.
pub fn some_packets()
    ensures better { SomeComesBackForBetter }
    ensures rise { SomeComesBackAfterRise }
{}
