//! What one router keeps of a diffusing computation.
//!
//! A router finds no neighbour that it may safely take as its successor. So it asks all of them: it sends
//! each a query with its distance, and keeps that distance and its successor until each has replied. A
//! neighbour that need not ask replies at once. If its own successor asks it, and it finds no other, it asks
//! its neighbours first, and owes its reply until they have replied. So queries spread as far as they must,
//! and replies come back on the same ways. The computation diffuses, and ends at the router that began it. A
//! router is in at most one for a destination at a time.
//!
//! Of a computation under way a router keeps
//!
//! - the ports whose reply it awaits ([`Replies`]): at first all that are up, then one less with each reply
//!   or lost link;
//! - the port to which it owes a reply itself, or none ([`Debt`]);
//! - how the computation began and what has happened since ([`Origin`]), a number 0 to 3:
//!
//! ```text
//!  +-------+---------------------------------+-----------+-----------+------------+
//!  | state | what it means                   | distance  | successor | successor  |
//!  |       |                                 | rose      | asked     | lost       |
//!  +-------+---------------------------------+-----------+-----------+------------+
//!  |   1   | own start                       |     0     |     2     |     0      |
//!  |   0   | own start; the distance rose,   |     0     |     2     |     0      |
//!  |       | or the successor was lost       |           |           |            |
//!  |   3   | the successor's query began it; |     2     |     2     |     0,     |
//!  |       | a reply is owed                 |           |           | debt gone  |
//!  |   2   | a reply is owed; the distance   |     2     |     2     |     0,     |
//!  |       | rose, or the successor asked    |           |           | debt gone  |
//!  +-------+---------------------------------+-----------+-----------+------------+
//! ```
//!
//! The last three columns are the state after an event. *Distance rose*: the distance by way of the successor
//! is above the one with which the computation began. *Successor asked*: a query came from it. *Successor
//! lost*: its link is lost. A loss counts before a query, and a query before the distance. At any other event
//! the state stays.
//!
//! When no reply is awaited any more, the computation is over. In the states 1 and 3 the router may take its
//! nearest neighbour without a test. In the states 0 and 2 it tests the condition first. If that fails, the
//! next computation begins at once: from 0 in state 1, and from 2 in state 3 with the reply still owed. For
//! example, a computation of its own start (1) whose distance rose (0) is tested at its end.
//!
//! Where there was a choice:
//!
//! - A set of ports is a word of 32 bits. In contracts its value is a finite set of numbers, so that two
//!   sets with the same ports are equal, and no clause tells how the set is kept. You may ask `has` about
//!   any port, because none from 32 on is in a set.
//! - `lost` and `came` end a wait in the same way, and are two calls so that callers say which of the two
//!   it was.
#![tactic(auto)]

mod origin;
mod port_set;
mod replies;

pub use origin::Origin;
pub use port_set::PortSet;
pub use replies::{Debt, Replies};
