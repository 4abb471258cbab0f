//! The image of a routing table: the rows that a router has chosen, in a form for look-ups.
//!
//! A router has its rows in a table (`route_table`), in the order of the prefixes. A packet asks another
//! question: of all rows whose prefix covers this address, which has the longest prefix? A tree bitmap
//! answers that in nine nodes at most (`tree_bitmap`), so a fabric that opens makes an image of each router's
//! table once, and from then on patches keep it up to date (`image_patch`).
//!
//! ```text
//! let image = compile(alloc, &table)?;     // its generation is 0
//! let row = image.lookup(addr);            // the control row that matches the address longest, if one does
//! ```
//!
//! *Control rows* are the rows that a router has chosen. The *generation* of an image says which
//! publication of its router it is, and that of a compiled image is 0, because the router has published
//! nothing yet.
//!
//! What always holds: the image of a table has just its control rows (the clause of [`compile`]). Those that
//! are `Unreachable` are among them, because a packet for an unreachable prefix must not go by a shorter
//! one.
//!
//! What is tricky: each row asks for memory as it is set, and if that is refused, there is no image. The
//! table is only read, and stays as it is.
#![tactic(auto)]

ghost use Rattle.std.specs.Prelude.{◌≡◌, IfOk};

use network_model::NoMemory;
use route_table::RouteTable;
use std::alloc::Allocator;
use tree_bitmap::Image;
use tree_bitmap::parts::{empty, set_row};

/// The image of the rows that a router has chosen, of generation 0.
pub fn compile<A: Allocator + Copy, T: Allocator>(
    alloc: A,
    table: &RouteTable<T>,
) -> Result<Image<A>, NoMemory>
    ensures { IfOk result (λ image. image
        ≡ record { generation = 0; rows = (table.now).table.control }) }
{
    let mut image = empty(alloc)?;
    for (prefix, entry) in table.rows() {
        set_row(&mut image, prefix, entry)?;
    }
    Ok(image)
}
