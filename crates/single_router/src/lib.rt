//! One router of a network whose other routers are elsewhere: in other processes, or on other machines.
//!
//! A daemon has one router, and no world. Its links are connections, which begin and end by themselves, and
//! its neighbours may be wrong or hostile, so it needs the network's router by itself, which tests whatever
//! it is told.
//!
//! A program hands a [`SingleRouter`] what its links bring, an [`Input`] each, which is a link that comes up
//! or goes down, a cost, a message, or an attachment. It publishes when that is due, and puts the messages on
//! their links that the router then releases. All comes and goes as numbers, as a program in C has them, of
//! which each is tested, and what is refused changes nothing. Such a program has it behind a handle
//! ([`RouterHandle`]), of which `router_ffi` exports the calls.
//!
//! ```text
//!   connection, timer ──> Input ──> tell ──> ┌────────────┐ ──> publish ──> rows ──> the program's image
//!                                            │ the router │
//!   connection <──────── Frame <── release ──└────────────┘
//! ```
//!
//! ```text
//! router.tell(&Input::up(0, 1, 10)?)?;             // port 0 came up in session 1, at cost 10
//! let published = router.publish(&mut rows)?;      // put these rows in force before you go on
//! let frame = router.release()?;                   // for a port and a session; 18 if nothing may leave
//! ```
//!
//! What always holds: an input does to the router what such an item or notice does to one of a network
//! (`router_accepting`, `router_at_home` in `network_model/specs/Step.antt`). It knows at most as many
//! prefixes as it was made for.
//!
//! What is tricky: three kinds of message are refused though they are well formed, because no router sends
//! them: a reply that is not awaited (38), a second query before the first is answered (39), and a message
//! of another session (36).
//!
//! What is proved of many such routers, each in a process of its own, stands above this crate, because it
//! speaks of its definitions. `daemon_laws::no_daemon_packet_circles`: no packet meets a router twice,
//! whatever happens. `daemon_laws::none_refused` and `daemons_come_to_rest::processes_converge` say the rest.
//! docs/daemons.md has the six duties that these laws ask of a program.
//!
//! Where there was a choice:
//!
//! - A prefix is forgotten at once, its row with it, and not by the next publication, because its row in
//!   force is `Unreachable`, so no packet goes by it.
//! - The limit of prefixes is no part of the laws. A prefix that it refuses is a message that is lost.
//! - `release` gives also messages of sessions that have ended. Whoever puts them on links drops them there.
#![tactic(auto)]

mod frame;
mod handle;
mod input;
mod opening;
mod single;
mod state;

pub use frame::Frame;
pub use handle::RouterHandle;
pub use input::Input;
pub use opening::Attachment;
pub use single::{Published, SingleRouter};
pub use state::{Counts, State};
