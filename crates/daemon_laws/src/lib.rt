//! What holds of routers in processes of their own, whatever happens: no packet meets a router twice, and at
//! rest rows lead at least cost.
//!
//! The laws of networks speak of one world, in which a link is up or down at both ends at once
//! (`no_packet_loops`). Between daemons each end of a link begins and ends its sessions by itself. A process
//! can end and begin anew, a message can be lost, and rows are written into a table one by one.
//!
//! So these laws are of *processes* (`Processes` in `specs/Processes.antt`). These are routers, and for each
//! end of a link what is on its way there and its sessions. A *happening* (`Happening` in
//! `specs/Happenings.antt`) is a call of `SingleRouter`, by the definitions that its contracts cite, or the
//! loss of a message. The six duties of a daemon are in docs/daemons.md.
//!
//! ```text
//!    router a                                     router b
//!     port up in session 4                         port down: it has left session 4
//!     row via b, session 4    -- packet -->        not let in
//! ```
//!
//! The law ([`no_daemon_packet_circles`]): whatever has happened, no packet meets a router twice. That holds
//! if packets tell the session of the row by which they were sent. It also holds if they tell none, and
//! routers test what comes in. A router lets in what comes by a link while it is in the session of the message
//! that it took there last. The law holds of half-written tables, too.
//!
//! Why it is true: for each prefix, each link and each session that neither end has left, the invariant of
//! `loop_freedom` holds (`proofs/Invariant.antt`). An end that is not in the session makes a step that
//! changes nothing. So a link that comes up needs no case of its own, and of one that fails nothing is left
//! to say. Feasible distances fall along rows, as in networks, and the argument of `all_packets` gives the
//! rest.
//!
//! The hard step is a row whose own router has left the session, while the other end is still in it
//! (`proofs/Gone.antt`). The other end cannot come to a greater feasible distance than the row's in that
//! session. It would have to end a computation for which it awaits the router that has left.
//!
//! [`none_refused`]: the tests that keep out what no router sends keep out nothing that one does.
//! [`rest_is_best`]: at rest, if nothing was lost in a session that a link is up in, and the ends of each link
//! agree, each router has its best row.
//!
//! A session may be used again once nothing is left of it (`last_anew` in `specs/Happenings.antt`), and a port
//! may get another neighbour once both ends are in no session (`MayRewire`).
#![tactic(auto)]

ghost use Rattle.daemon_laws.specs.{Facts.LinkFactsAlwaysHold, Happenings.AfterIsReached, Happenings.HoldsAlways, Happenings.NoneRefused, Moments.LinkFactsHoldThere, Numbers.NumbersSuffice, Rest.RestIsAlwaysBest, Rest.SessionsBeginWhole};
ghost use Rattle.daemon_laws.specs.Packets.{NoMixtureLoopsAtDaemons, NoPacketCirclesAtDaemons, NoPacketLoopsAtDaemons, NoUnmarkedCircles, NoUnmarkedLoops, NoUnmarkedMixtureLoops, NoUnmarkedWrittenCircles, NoWrittenCircles};
ghost use Rattle.daemon_laws.specs.Reached.{SomeForgets, SomeNeighbour, SomePacketGoesAtDaemons, ExampleOfRest, SomeSessionAgain};

/// The laws hold at every moment that routers come to, by happenings one after another and by ports that get
/// other neighbours.
pub fn after_is_reached()
    ensures { AfterIsReached }
{}

/// Whatever happens, and in which order, no packet meets a router twice along routers that match its
/// address by one prefix; nor where some routers forward by what they have chosen since they published.
pub fn no_packet_loop()
    ensures published { HoldsAlways NoPacketLoopsAtDaemons }
    ensures mixtures { HoldsAlways NoMixtureLoopsAtDaemons }
{}

/// Nor does one where packets carry no session, if a router forwards what comes in by a port only while
/// it is in the session of the message that it took there last.
pub fn no_unmarked_loop()
    ensures published { HoldsAlways NoUnmarkedLoops }
    ensures mixtures { HoldsAlways NoUnmarkedMixtureLoops }
{}

/// Whatever happens, and in which order, no packet meets a router twice, whichever prefixes match its
/// address on its way, and whichever routers publish while it moves: where packets carry the session of
/// the row by which they are sent, and where they carry none, let in as above. Nor does one while rows are
/// written into tables one by one, in any order, or while a process that has begun anew takes out the rows
/// of the one before, in any order, if none of its ports is up yet.
pub fn no_daemon_packet_circles()
    ensures marked { HoldsAlways NoPacketCirclesAtDaemons }
    ensures unmarked { HoldsAlways NoUnmarkedCircles }
    ensures written { HoldsAlways NoWrittenCircles }
    ensures unmarked_written { HoldsAlways NoUnmarkedWrittenCircles }
{}

/// No router refuses a message of the session that its end of the link is in: the tests that keep out what
/// no router sends keep out nothing that one does.
pub fn none_refused()
    ensures { HoldsAlways NoneRefused }
{}

/// At each link, in each session that both its ends are in: what a router has sent, and what the other
/// keeps of it, is no less than its feasible distances; along each edge they fall; and so does the
/// distance of a computation whose query has been answered. So it is after any list of happenings between the
/// same neighbours, and at every moment, whichever neighbours ports have got.
pub fn four_facts()
    ensures listed { LinkFactsAlwaysHold }
    ensures there { LinkFactsHoldThere }
{}

/// Where all is at rest, nothing was lost in a session that a link is up in, and the two ends of each link
/// agree, each router's row for a prefix is local or begins a chain of rows to an attached router at a cost
/// that is least, or no way leads to one.
pub fn rest_is_best()
    ensures { RestIsAlwaysBest }
{}

/// A session that both ends of a link may still come into begins whole: nothing counts as lost in it, although
/// its number may have been used before.
pub fn sessions_begin_whole()
    ensures { HoldsAlways SessionsBeginWhole }
{}

/// What both processes at a link remember is enough to number its next session, by the greater of the last
/// sessions that the two were in, plus one, if nothing is on its way over the link of a later session, and no
/// message was taken or lost of one. So it is if what was on its way to a process ends with it, and what was on
/// its way from it does, or comes to an end that has come into its session.
pub fn numbers_suffice()
    ensures { NumbersSuffice }
{}

/// The laws are not empty of packets.
pub fn some_packet()
    ensures { SomePacketGoesAtDaemons }
{}

/// Nor of routers at rest.
pub fn some_rest()
    ensures { ExampleOfRest }
{}

/// Nor of sessions whose numbers are used again.
pub fn some_session_again()
    ensures { SomeSessionAgain }
{}

/// Nor of ports that get a neighbour.
pub fn some_neighbour()
    ensures { SomeNeighbour }
{}

/// Nor of prefixes that are forgotten.
pub fn some_forgets()
    ensures { SomeForgets }
{}
