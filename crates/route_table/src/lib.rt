//! The rows of one router: the entry that it chose for each prefix, and the entry that is in force.
//!
//! A router chooses a row at one moment, and publishes it at another. In between, a prefix has two entries.
//! The *control row* is the one that the router has chosen, and by the *published row* packets go. A
//! publication has to find the rows that differ, and a table may have thousands that do not.
//!
//! So a [`RouteTable`] keeps one list of rows with both entries, in the order of the prefixes. A second list
//! has the rows that differ. To publish takes time by their number, and not by the table's.
//!
//! ```text
//!   rows      10.0.0.0/8     control via port 0, session 2     published via port 1, session 1
//!             192.0.2.0/24   control local                     published local
//!   changed   10.0.0.0/8     via port 0, session 2
//! ```
//!
//! - `set` writes a control row. A known prefix is never refused, and a new one only for want of memory.
//! - `changed` lists the control rows that differ, in order. Set over the published rows, they make them the
//!   control rows (`patch`), so a patch of these rows is enough for an image.
//! - `mark_published` makes the published rows the control rows, and takes no memory.
//! - `reserve` makes room for new prefixes, and for their publication too.
//!
//! ```text
//! table.set(prefix, Entry::Local)?;
//! for (prefix, entry) in table.changed() { .. }     // what a patch has to set
//! table.mark_published();                           // now `is_changed` answers false
//! ```
//!
//! What always holds (`IsTable` in `specs/Rows.antt`): the second list has just the rows that differ, and
//! there is room for each row to change. Contracts see the two maps of the definition (`Table` in
//! `network_model/specs/World.antt`), and for how many new prefixes there is memory.
//!
//! What is tricky: a known prefix stays, as `Unreachable` if no way is left. Only `forget` takes it out,
//! which is for a router in a process of its own. So is `mark_some_published`, which publishes some rows and
//! not all.
//!
//! Rows stand in a vector, in the order of their prefixes. A tree would move less for a new prefix, but
//! its room cannot be reserved ahead, and a notice must not be refused half way.
#![tactic(auto)]

mod iter;
mod prefix_map;
mod row;
mod table;

pub use iter::{ChangedRows, ControlRows, PublishedRows};
pub use network_model::{Entry, NoMemory, Prefix};
pub use prefix_map::PrefixMap;
pub use table::RouteTable;
