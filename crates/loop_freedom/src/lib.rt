//! No loop along published successors, over every run of a network of router machines.
//!
//! Routers decide one by one, by what they heard some time ago, so why can three of them not send a packet
//! round in a circle? The answer has to hold at every moment, also while computations go on, links fail,
//! and one router has published what another has only chosen.
//!
//! A network is seen as one prefix sees it (`network_model/specs/View.antt`). It has a machine for each
//! router. At each end of each link it has what is still to be taken there, and what is held for the other
//! end. Its steps are those of the world (`specs/Network.antt`). After every run, four facts hold of the two
//! ends x and y of each link that is up (`LinkFacts` in `specs/Facts.antt`):
//!
//! ```text
//!   x ---- link that is up, in its present session ---- y
//!
//!   1  x's feasible distance  <=  every value on its way from x to y, and what y keeps of x
//!   2  the feasible distance that x had when it published last
//!                             <=  every value that x has released or may release, and what y keeps of x
//!   3  where x's row leads to y: both feasible distances of y, present and published
//!                              <  that of x by which the row goes
//!   4  where x's row leads to y and y is active: the distance of y's computation
//!                              <  that of x too, unless y awaits x and no reply of x is on its way
//! ```
//!
//! The law ([`no_loop`]): no walk along published successors meets a router twice, nor along a mixture of
//! published and chosen ones. By fact 3 feasible distances fall along such a walk, so no router is met twice.
//! For example, rows lead from c to b and from b to a, at feasible distances 3, 2 and 1. A row from a back to
//! c would need 3 to be below 1.
//!
//! Why the facts stay true: what x sends is its distance, which is no less than its feasible one. So fact 1
//! can break only if a feasible distance rises. It rises at the end of a computation alone, and then each
//! neighbour that was asked has answered. Fact 2 says the same of what was published last. Fact 1, read from
//! y, gives fact 3 for a neighbour that x chooses.
//!
//! The hard step is a router y that ends a computation while x's row leads to it. Its feasible distance may
//! rise then, to the distance of the computation at most. It awaited x, so x has answered, and by fact 4 that
//! distance is below x's. Fact 4 holds because x answers its successor only when its own computation ends.
//!
//! The proofs treat a step at the two ends of one link alone (`proofs/Link.antt`, `proofs/LinkSteps.antt`).
//! Then they treat each kind of step of the network (`proofs/Taking.antt`, `proofs/Publishing.antt`,
//! `proofs/Linking.antt` and others).
//!
//! Where there was a choice:
//!
//! - The network of one destination is a model of its own, of functions of routers and link ends, so that
//!   the argument for a link is about two small records. Each step of a world is shown to be a step of it
//!   (`no_packet_loops`).
//! - A notice of an attachment is a change from outside in this network, which has no queue of them. In
//!   whole networks to take one is an own step, and comes first in the measure of `coming_to_rest`.
#![tactic(auto)]

ghost use Rattle.loop_freedom.specs.Facts.{HasFacts};
ghost use Rattle.loop_freedom.specs.Network.{HoldsInEveryState, MixedLoopFree, PublishedLoopFree, SomeRouteIsPublished};

/// In every state of every run the four facts hold at both ends of each link that is up: what was
/// sent, and what the neighbour keeps of it, is no less than the feasible distances; along each edge
/// they fall; and so does the distance of a computation whose query has been answered.
pub fn facts()
    ensures { HoldsInEveryState HasFacts }
{}

/// In every state of every run no walk along published successors meets a router twice, and none
/// does where each router may use what it has published or what it has chosen since.
pub fn no_loop()
    ensures published { HoldsInEveryState PublishedLoopFree }
    ensures mixed { HoldsInEveryState MixedLoopFree }
{}

/// The runs are not empty of routes.
pub fn some_route()
    ensures { SomeRouteIsPublished }
{}
