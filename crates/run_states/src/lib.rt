//! The states of a run as lines of JSON, each with what has changed since the one before.
//!
//! A reader who wants to see a run needs the network after each step, and a run may have a million steps.
//! To write all routers after each of them would be far too much. Almost all of a network stays as it was
//! in a step. So a line has only what is new, and whoever reads the lines in order has the whole state.
//!
//! - A *book* has what was shown last of a link or of a router. Its *mark* says if that may have changed. A
//!   router's book has a mark for each of its machines, too.
//! - A *recorder* has a book for each link and each router, and the prefixes in their order.
//! - A *change* says what became of a link or a router since it was shown. Of a queue it says: so many items
//!   are gone from the front, then the messages are lost or not, then others are put.
//!
//! Two routers at costs 1 and 2, of which a is attached. Some members are left out here:
//!
//! ```text
//! {..,"kind":"opening","links":[[0,1]],"prefixes":["10.0.0.0/8"],"routers":["a","b"],"steps":7}
//! {"kind":"state","links":[..],"machines":[..],"number":0,"routers":[..]}            all that there is
//! {"kind":"state","links":[..],"number":1,"queues":[..],"step":"up a b"}             a notice at each end
//! {"kind":"state","number":2,"queues":[{"end":0,"link":0,"take":1}],"routers":[..],"step":"deliver a b"}
//! ```
//!
//! If the moments of the steps are given, each line but the opening's has its own, for example `"moment":120`.
//!
//! [`write_states`] does lawful steps from the opening. [`run_from_opening`] says how many steps of a list are
//! lawful. Before each step it marks what the step may change (`MarksTouched` in `specs/Marks.antt`). When a state is
//! told, it compares what is marked with the world, and writes what differs.
//!
//! What always holds (`IsCurrent` in `specs/Recorders.antt`): what is not marked is shown as it is. So after
//! a line all is shown as it is (`ShowsWorld`), and what is written is a text of the states (`IsStatesText`
//! in `specs/Told.antt`).
//!
//! The hard step is what a step leaves alone. For example, a message may change the machine of its prefix and
//! no other, which holds only of worlds that a run leads to.
//!
//! What is tricky: a change is read off the book and the world, and not off the step. So it is right also if
//! states are told after every second step, or after each thousandth. That a line names nothing that did not
//! change is only tested.
//!
//! Links and prefixes are named by their positions in the lines, so that a hundred thousand states stay
//! below 20 MB. Members come in the order of their names, because the crate for JSON keeps objects so.
#![tactic(auto)]

mod link_book;
mod queue;
mod recorder;
mod router_book;
mod shown;
mod states;
mod values;

pub use states::{run_from_opening, write_states};
