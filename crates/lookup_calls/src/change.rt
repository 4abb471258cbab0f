//! What a publication changes, as the writer keeps it for its second copy.

ghost use Rattle.std.specs.Prelude.{◌≡◌, None, Some, IfErr, IfOk, IsOkUnless, OnErr, OnOk};
ghost use Rattle.lookup_calls.specs.Prefixes.{first_block_fault};

use crate::patch::{NewRows, Patch};
use crate::prefixes::{Block, copy_blocks};
use crate::shared::Shared;
use c_interface::CallFault;
use std::alloc::Global;

/// Rows to set, and prefixes whose rows are then taken out.
#[derive(Drop)]
pub struct Change {
    patch: Patch,
    blocks: Vec<Block>,
    ghost blocks_read: { first_block_fault blocks.items ≡ None },
}

impl Change {
    ghost use Rattle.lookup_calls.specs.Faults.{IsPatchFault};
    ghost use Rattle.lookup_calls.specs.Histories.{with_missed};
    ghost use Rattle.lookup_calls.specs.Images.{new_rows};

    /// The change of these rows and prefixes.
    pub fn of(
        alloc: Global,
        generation: u64,
        rows: NewRows,
        blocks: &[Block],
    ) -> Result<Change, CallFault>
        requires { first_block_fault blocks.now ≡ None }
        ensures generation { IfOk result (λ c. c.patch.generation ≡ generation) }
        ensures rows { IfOk result (λ c. new_rows c.patch.rows ≡ new_rows rows) }
        ensures blocks { IfOk result (λ c. c.blocks.items ≡ blocks.now) }
        ensures err { IsOkUnless result CallFault.NoMemory }
    {
        let blocks = copy_blocks(alloc, blocks)?;
        Ok(Change {
            patch: Patch { generation, rows },
            blocks,
        })
    }

    /// Makes the change in an image that nobody else holds.
    pub fn make(&self, image: &mut Shared) -> Result<(), CallFault>
        ensures ok { OnOk result (image.new ≡ with_missed (Some self.now) image.old) }
        ensures unchanged { OnErr result (image.new ≡ image.old) }
        ensures err { IfErr result IsPatchFault }
    {
        image.change(*self.blocks.allocator(), &self.patch, &self.blocks)
    }
}
