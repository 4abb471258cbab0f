//! Links between routers. Each direction of a link is a list of items, put at the back and taken at the
//! front.
//!
//! A router has to learn of messages, and of its link, in one order. If it heard that a link is down before
//! it took the messages that came before, it could not tell old news from new. So notices of the link stand
//! among the messages. A *session* counts how often the link came up, and tells messages of an earlier life
//! of the link from those of its present one.
//!
//! ```text
//!   router A -- end A                                        end B -- router B
//!      takes <- [ Up 3 cost | update | query ]  <----------- what B puts
//!      what A puts -------------->  [ reply | Up 3 cost ] -> takes
//!   up or down, the session (3), and from each end a cost: one for both directions each
//! ```
//!
//! - **Notices** (`Up`, `Down`, `Cost`) tell an end of its link. A router learns of a change when it takes
//!   the notice, and not before. `Up` has the new session and the cost from the end that takes it.
//! - **Coming up** makes the session one greater and puts `Up` at the back of both lists. After 65,535
//!   sessions a link comes up no more.
//! - **Going down** removes the messages of both lists, keeps the notices in order, and puts `Down` behind
//!   them. So what was sent in a session is never taken in a later one.
//! - **A message is put for a session.** If the link is down, or up in another, the message is discarded and
//!   the call answers `Stale`.
//!
//! ```text
//! links.up(0)?;                                    // session 1; both ends have a notice to take
//! links.put(0, End::A, 1, message)?;               // from end A, for session 1; at B it is behind `Up`
//! links.down(0)?;                                  // the message is lost; B takes `Up`, then `Down`
//! ```
//!
//! What always holds: contracts see links as the list of links of the definition, and for how many more items
//! each direction has memory. While a link is up, there is room to tell each end that it went down
//! (`CanGoDown`). So a link that goes down is never refused for want of memory: nobody can put off that a
//! line fails.
//!
//! All growth of a call is asked for before the first change, so a refused call leaves the links as they
//! were.
#![tactic(auto)]

mod link;
mod links;
mod queue;
mod refusal;

pub use links::Links;
pub use network_model::{End, Item, LinkSpec, Message};
pub use queue::queue_at;
pub use refusal::{LinkRefusal, Put};
