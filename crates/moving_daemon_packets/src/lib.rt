//! A packet that moves between routers in processes of their own comes back to a router only for a better way,
//! or after a feasible distance rose where it was.
//!
//! The problem is that of `moving_packets`, but more may happen while the packet is there (`daemon_laws`): ends
//! leave their sessions, messages are lost, processes begin anew, and ports get other neighbours.
//!
//! The law ([`comes_back`]) is the same, for packets that tell the session of the row by which they were sent,
//! and for packets that tell none. A router that forgets the prefix or begins anew counts as one whose feasible
//! distance rose. The argument is that of `moving_packets` (`proofs/Returns.antt` there).
//!
//! While a process writes rows into its table one by one, a packet may meet each row old or new. So at each hop
//! it meets a half-written table (`Met` in `specs/Moving.antt`), and each row goes with the feasible distance of
//! its own kind, published or chosen. Where nothing is half written, that is the table of the published rows.
//!
//! The hard step is a packet that leaves a router by a row that is yet to be published, while the router goes on
//! to take messages. It may choose a lower feasible distance then, but nobody has heard of that. So the router
//! counts as having published at the greater distance until it does publish, because the invariant of
//! `daemon_laws` holds for that, too (`proofs/Raised.antt`).
//!
//! What is tricky is a packet that is long on a link, because both ends may leave their sessions meanwhile. Its hop
//! counts as made when it left ([`hops_at_once`]), since a session that the far end has left does not come
//! again while something of it is on its way.
//!
//! ```text
//!    i  -- packet, session 4 -->  k        k is in session 4 as the packet is let in:
//!                                          so it was in session 4 when the packet left
//! ```
//!
//! In processes that are left alone hops end ([`hops_end`]), because what still happens does
//! (`daemons_come_to_rest`), and between two happenings a packet meets no router twice.
#![tactic(auto)]

ghost use Rattle.daemon_laws.specs.{Happenings.HoldsAlways, Packets.session_leads, Packets.unmarked_leads};
ghost use Rattle.moving_daemon_packets.specs.{Flights.HopsAtOnce, Flights.UnmarkedHopsAtOnce, Hops.HopsEnd};
ghost use Rattle.moving_daemon_packets.specs.Moving.{HoldsAtEveryMoment, ComesBackForBetterAtDaemons, ComesBackOncePublishedAtDaemons, ComesBackSeldomAtDaemons, CalmStaysNearAtDaemons, SomeComesBack};

/// Whatever happens, and in which order, also while ports get other neighbours, and rows are written into tables one
/// by one, in any order: a packet that stays near comes back to a router only where that has a better way since,
/// published and chosen, and at most as often as that publishes, forgets a prefix or begins anew meanwhile. It stays
/// near if, at no router on its way, a rise of the feasible distance, for the prefix by which it came, is both begun
/// and published or met while it is there, and none is published by a router that forgets a prefix or begins anew. A
/// port that gets another neighbour raises none. All hold where packets carry the session of the row, and where they
/// do not and routers let in only what comes in the session of the message that they took last.
pub fn comes_back()
    ensures marked { HoldsAtEveryMoment (ComesBackForBetterAtDaemons session_leads) }
    ensures unmarked { HoldsAtEveryMoment (ComesBackForBetterAtDaemons unmarked_leads) }
    ensures published { HoldsAtEveryMoment (ComesBackOncePublishedAtDaemons session_leads) }
    ensures unmarked_published { HoldsAtEveryMoment (ComesBackOncePublishedAtDaemons unmarked_leads) }
    ensures seldom { HoldsAtEveryMoment (ComesBackSeldomAtDaemons session_leads) }
    ensures unmarked_seldom { HoldsAtEveryMoment (ComesBackSeldomAtDaemons unmarked_leads) }
    ensures calm { HoldsAtEveryMoment (CalmStaysNearAtDaemons session_leads) }
    ensures unmarked_calm { HoldsAtEveryMoment (CalmStaysNearAtDaemons unmarked_leads) }
{}

/// A packet that is long on a link went when it left: where its row, published or chosen, leads when the packet is let
/// in, it led already then. So its hop may count as made then, and the time on the link as time at the router across.
/// That holds if the link stays, and if what is on its way to a process ends with it, and so does what is on its way
/// from it, but in sessions that the other end has come into. Of packets that tell no session it holds if each comes
/// before any message of a later session.
pub fn hops_at_once()
    ensures marked { HoldsAtEveryMoment HopsAtOnce }
    ensures unmarked { HoldsAtEveryMoment UnmarkedHopsAtOnce }
{}

/// Whatever has happened: once no process tells its router anything of its own, none begins anew and no port gets
/// another neighbour, some number is exceeded by the hops of no packet, also along tables that are half written. So
/// none circles for ever.
pub fn hops_end()
    ensures marked { HoldsAlways (HopsEnd session_leads) }
    ensures unmarked { HoldsAlways (HopsEnd unmarked_leads) }
{}

/// Some packet stays near while a port of the router that it has left gets another neighbour, and comes back to
/// that router, which has found a better way over the new link, by a row that is yet to be published.
pub fn some_comes_back()
    ensures { SomeComesBack }
{}
