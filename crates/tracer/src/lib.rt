//! Where packets go along the images in force: the way of a packet, router by router, and why it ends.
//!
//! Each router forwards by its own image, and no image tells how a packet ends. You want to see the way as
//! packets take it now, and not as the routing tables mean it. So [`trace`] asks the image in force at each
//! router, and follows the row's link if that is up in the row's session.
//!
//! ```text
//! trace(&mut fabric, alloc, 2, 0x0a010001)?            // 10.1.0.1 from router c
//! trace_through(&mut fabric, alloc, 2, 0x0a010001)?
//!
//!   c   10.0.0.0/8 via b      b has a longer prefix that c has not heard of
//!   b   10.1.0.0/16 local     so another prefix matches here than at c
//!
//!   trace            path c b    Crossed
//!   trace_through    path c b    Delivered
//! ```
//!
//! A trace ends at a router that has no row for the address (`NoRoute`), goes there itself (`Delivered`) or
//! knows no way (`Unreachable`). It also ends if the row's link is down, or up in another session
//! (`DeadLink`). And it ends if another prefix matches than at the first router (`Crossed`). In this last
//! case [`trace_through`] goes on, so it never ends there (`ended`).
//!
//! What always holds: the path is a way along the images in force (`in_force`). It meets no router twice
//! (`no_loop`), and has no more routers than the network (`few`). The fabric stays as it is (`same`). The
//! result is that of the definition (`trace` in `network_model/specs/Forwarding.antt`, `through` in
//! `all_packets/specs/Through.antt`).
//!
//! What is tricky: the loop makes as many rounds as there are routers. That the packet has come to an end by
//! then is a law, and no test (`no_packet_loops`, `all_packets`).
//!
//! A trace waits for nobody. While a router's writer is out with a ticket, its image may be ahead of the
//! fabric: then the trace is refused with `Stale`. It is refused with `NoMemory` if its path cannot grow.
//!
//! A trace and a trace through are one loop (`follow`), which carries the first prefix on or drops it. It
//! asks for memory router by router, for its path alone, so a refused one has changed nothing.
#![tactic(auto)]

mod fault;
mod onward;
mod walk;

pub use fabric::{Fabric, FabricName};
pub use fault::TraceFault;
pub use network_model::{Ending, Trace};
pub use walk::{trace, trace_through};
