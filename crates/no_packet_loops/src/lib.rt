//! No packet meets a router twice along routers that match its address by one prefix, over every run of a
//! network.
//!
//! `loop_freedom` speaks of one destination, of machines and messages. A network has routers with many
//! machines, tables, queues and steps (`network_model/specs/World.antt`). So two things have to be shown:
//! each prefix sees such a network as that law has it, and packets go along successors.
//!
//! The law ([`no_packet_loop`]): take any network without faults, and any list of lawful steps. In the world
//! that they make, no packet meets a router twice along published rows (`NoPacketLoops` in
//! `specs/Packets.antt`). This is said of a packet that one prefix matches at each router, but perhaps the
//! last. It is true of a *mixture*, too, in which each router uses either its published or its chosen rows,
//! so each *trace* ends.
//!
//! Why it is true: for each prefix, each step of a world is a step of the network of one destination, or
//! nothing there (`proofs/Runs.antt`). So the four facts hold at the two ends of each link that is up
//! ([`four_facts`]). A longest match is the row of its prefix, so a packet's way by one prefix is a walk
//! along successors. Along each edge feasible distances fall ([`distances_fall`]), so no router comes twice.
//!
//! ```text
//!    packet for 10.1.2.3, matched by 10.0.0.0/8 at each router
//!
//!    c  -- via b -->  b  -- via a -->  a  local
//!    FD 3             FD 2             FD 1          c cannot come again, because FD is below 3 from b on
//! ```
//!
//! The hard step is a router that takes an item (`proofs/Taking.antt`). A notice of a link meets every
//! machine of the router, and what they send is held in one list. So what one prefix sees of that list has to
//! be taken apart from the rest.
//!
//! What is tricky: the network's record of attachments is not seen by a prefix, which sees only the notices.
//! That machines and notices agree with the record is kept beside it (`AttachmentsKept` in
//! `proofs/Kept.antt`).
//!
//! The law says nothing of packets that another prefix matches on the way (`all_packets` does), nor of a
//! packet that moves while routers take messages.
#![tactic(auto)]

ghost use Rattle.no_packet_loops.specs.LinkEnds.{FourFactsAlwaysHold};
ghost use Rattle.no_packet_loops.specs.Packets.{HoldsInEveryWorld, DistancesAlwaysFall, NoMixtureLoops, NoPacketLoops, SomePacketGoes, TracesEnd};

/// In every world of every run no packet meets a router twice along routers that match its address
/// by one prefix, and none does where some routers forward by what they have chosen since they
/// published. So every trace ends.
pub fn no_packet_loop()
    ensures published { HoldsInEveryWorld NoPacketLoops }
    ensures mixtures { HoldsInEveryWorld NoMixtureLoops }
    ensures traces { HoldsInEveryWorld TracesEnd }
{}

/// After every run, of every prefix and at each link that is up: what a router has sent, and what the
/// neighbour keeps of it, is no less than its feasible distances; along each edge they fall; and so
/// does the distance of a computation whose query has been answered.
pub fn four_facts()
    ensures { FourFactsAlwaysHold }
{}

/// After every run, along each published or chosen row that leads to a router, the feasible
/// distances of that one are below that of the row.
pub fn distances_fall()
    ensures { DistancesAlwaysFall }
{}

/// The runs are not empty of packets.
pub fn some_packet()
    ensures { SomePacketGoes }
{}
