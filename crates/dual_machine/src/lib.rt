//! The machine of DUAL: what one router keeps for one prefix, and what it does at each event.
//!
//! A router that takes whatever neighbour is nearest can take one that goes through itself, so DUAL asks for
//! more than a short way. The *distance by way of* a port is what the neighbour reported there, and the
//! link's cost. A router takes the neighbour with the least such distance only under the *source node
//! condition*: its report is below the router's *feasible distance*, FD. That is the least distance that the
//! router had since its last computation ended, that of the computation included.
//!
//! While the condition holds, the machine is *passive*, and reports its distance, RD, as it changes. If it
//! fails, the machine becomes *active*: it keeps its successor, asks every neighbour by a query, and chooses
//! anew when all have replied. [`diffusing_replies`] has what it keeps of that, and the numbers of the origin
//! states.
//!
//! ```text
//!   passive --- the condition fails at the successor's query ------> 3  (a reply is owed)
//!      |                                                             |
//!      '--- it fails at any other event ---> 1                       |  distance rose,
//!      ^                                     |  distance rose,       |  or successor asked
//!      |                                     |  or successor lost    v
//!      |                                     v                       2  (a reply is owed)
//!      |                                     0
//!      |
//!      |    successor asked: 1 and 0 become 2     successor lost: 3 and 2 become 0, and no reply is owed
//!      |
//!      '--- nobody is awaited: from 1 and 3 always; from 0 and 2 where the condition holds,
//!           else the next computation begins: 0 becomes 1, and 2 becomes 3
//! ```
//!
//! [`Machine::event`] takes one event: a message, a notice of a link, or one of the router's own attachment.
//! It puts what the router sends into a [`Sends`]: a reply first, then queries or updates by ascending port.
//! An attachment is one more port, numbered by how many ports there are. It reports 0, and is never asked.
//! [`Machine::entry`] is the entry that the machine chooses for its prefix.
//!
//! What always holds (`IsMachine` in `specs/Parts.antt`): there are at most 32 ports, each at a cost. While a
//! computation is under way, some port is awaited. A reply is owed just in the states 2 and 3, to the
//! successor. That FD is at most RD is a law of the definition (`machine_laws`).
//!
//! What is tricky: in the states 1 and 3 the code makes no test when a computation ends, because the
//! condition holds then. That it does is proved (`proofs/Costs.antt`).
//!
//! Where there was a choice:
//!
//! - The records of neighbours stand by port in a `SmallVec`: up to four in the machine itself, and more
//!   in one allocation that is made when the machine opens. Awaited ports are kept with the computation,
//!   in place, so a machine asks for memory once at most.
//! - If a neighbour and the attachment are at the same distance, the present successor stays, and
//!   otherwise the lowest number is taken. So a neighbour comes before the attachment, and a router that
//!   is attached need not be `Local`.
//! - A debt is dropped if the link to the neighbour that it is owed to goes down. That neighbour is the
//!   successor, which is proved.
#![tactic(auto)]

mod distances;
mod entry;
mod events;
mod machine;
mod mode;
mod sends;

pub use diffusing_replies::{Debt, Origin, PortSet};
pub use entry::session_at;
pub use machine::Machine;
pub use mode::Mode;
pub use network_model::{Cost, Distance, Event, Kind, NoMemory, Outgoing, PortInfo};
pub use sends::Sends;
