//! Patches of images, in place: rows to set, and the generation that they make.
//!
//! A router publishes often, and most publications change a few rows of many. To make a new image each time
//! would take time by the whole table, so a publication is a [`Patch`], which an image takes by [`Apply`].
//! That takes time by the nodes on the way to the patch's prefixes, but for the rare times that a pool moves
//! to larger memory.
//!
//! ```text
//!   image, generation 4     10.0.0.0/8 via port 0     192.0.2.0/24 local
//!   patch, generation 5     10.0.0.0/8 via port 1
//!   image, generation 5     10.0.0.0/8 via port 1     192.0.2.0/24 local
//! ```
//!
//! ```text
//! image.apply(&Patch { generation: 5, rows })?;
//! ```
//!
//! What always holds: after a patch the image has the patch's rows set over its own, in order, and the
//! patch's generation (`patched` in `specs/Patches.antt`). If two rows of a patch have one prefix, the later
//! one stands, and a patch that is refused changes nothing.
//!
//! The same patch serves twice: `publication` keeps two copies of an image, and gives each the patch in turn.
//! And the changed rows of a table are enough for a patch, because they make its published rows the chosen
//! ones (`changed` of `RouteTable`).
//!
//! What is tricky: all room is asked for before the first row is set, 23 nodes and 15 results for each row.
//! The code does not ask if a row is new, so it may ask for more than it uses, and what is left serves the
//! next patch. A patch takes no row out, because a router whose way is lost sets the row `Unreachable`.
#![tactic(auto)]

ghost use Rattle.std.specs.Prelude.{◌≡◌, ◌<◌, length, OnOk, OnErr};
ghost use Rattle.image_patch.specs.Patches.{patched};

use network_model::{Entry, NoMemory, Prefix};
use std::alloc::{Allocator, Global};
use tree_bitmap::Image;
use tree_bitmap::parts::{set_generation, set_rows};

/// Rows to set, one after another, and the generation that they make.
#[derive(Drop)]
pub struct Patch<A: Allocator = Global> {
    pub generation: u64,
    pub rows: Vec<(Prefix, Entry), A>,
}

/// What can be patched.
pub trait Apply {
    /// Sets the rows of a patch, and its generation. It takes time by the nodes on the way to its
    /// prefixes, and not by the rows of the image, but for the rare times that the pool moves to
    /// larger memory. It asks for room for 23 nodes and 15 results a row, whether the row is new or
    /// not, before it sets the first. Refused, it changes nothing.
    fn apply<P: Allocator>(&mut self, patch: &Patch<P>) -> Result<(), NoMemory>
        ensures err { OnErr result (self.new ≡ self.old) };
}

impl<A: Allocator> Apply for Image<A> {
    fn apply<P: Allocator>(&mut self, patch: &Patch<P>) -> Result<(), NoMemory>
        ensures ok { OnOk result (self.new
            ≡ patched patch.now.generation patch.now.rows.items self.old) }
        ensures err { OnErr result (self.new ≡ self.old) }

        // A patch without rows takes no memory.
        ensures full { OnErr result (0 < length patch.now.rows.items) }
    {
        set_rows(self, &patch.rows)?;
        set_generation(self, patch.generation);
        Ok(())
    }
}
