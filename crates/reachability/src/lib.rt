//! Which routers are cut off from a prefix.
//!
//! While a network comes to rest, some routers have no way to a prefix although links lead there. No router
//! knows that of itself, because its row may lead to a neighbour whose row is not there yet. So [`CutOff`]
//! looks at the whole world, and works out two sets of routers.
//!
//! ```text
//!   a --- b --- c --- d     a is attached; a, b and c have published rows; the link of b and c is down
//!
//!   reached   a b           over links that are up
//!   routed    a b           along published rows whose links are up in the rows' sessions
//!   cut off   none          c and d do not reach a at all
//! ```
//!
//! If the link of `b` and `c` comes up again, `c` and `d` are reached. Since the row of `c` is of an earlier
//! session, it leads nowhere, and `c` and `d` are cut off until `c` has published a row of this session.
//!
//! - *Reached* is each router that is attached, and each router across a link that is up from one that is
//!   reached.
//! - *Routed* is each router that is attached and whose published row is local, and each router whose row leads
//!   to one that is routed.
//! - A router is *cut off* (`IsCutOff` in `specs/Ways.antt`) if it is reached and not routed.
//!
//! Each set is worked out in rounds. A round adds what is missing by one link or one row more, and the first
//! round that adds nothing is the last. `look` takes no memory, because the sets are made once, by `new`.
//!
//! What is tricky: a link may lead to a router that no list has, if a world is built wrongly. So `look` asks for a
//! world whose parts fit together (`IsJoined`). Each world of a run is one ([`always_joined`]).
//!
//! What always holds: the answer is that of the definition (`cut_off` of [`CutOff::look`]). Where each router
//! has its best row, as at rest, no router is cut off (`at_best`).
#![tactic(auto)]

mod cut_off;
mod links;
mod marks;
mod rows;
mod run_worlds;

pub use cut_off::CutOff;
pub use network_model::Prefix;
pub use rows::is_last;
pub use run_worlds::always_joined;
pub use world::{Network, World};
