//! Images that several handles hold.

ghost use Rattle.std.specs.Prelude.{◌≡◌, None, IfOk, IfErr, OnOk, OnErr, length};

use crate::kept::Kept;
use crate::patch::{Patch, apply_row};
use crate::prefixes::{Block, remove_rows};
use crate::rows::{plain_rows, worded_rows};
use c_interface::{CallFault, Row};
use std::alloc::{AllocError, Global};
use std::marker::Model;
use std::sync::Arc;

/// An image that others may hold too: while they do, it does not change.
#[derive(Drop)]
pub struct Shared {
    image: Arc<Kept>,
}

impl Model for Shared {
    ghost use Rattle.std.specs.Arc.{arc_value};
    ghost use Rattle.row_words.specs.Rows.{WordTable};

    ghost Value = { WordTable };

    ghost view = { λ s. arc_value s.image };
}

impl Shared {
    ghost use Rattle.lookup_calls.specs.Faults.{IsPatchFault};
    ghost use Rattle.lookup_calls.specs.Images.{new_rows, patched_table};
    ghost use Rattle.lookup_calls.specs.Rows.{first_row_fault};
    ghost use Rattle.lookup_calls.specs.Prefixes.{first_block_fault, withdrawn};
    ghost use Rattle.lookup_calls.specs.Tables.{plain_rows, worded_rows};

    /// The only holder of an image.
    pub fn new(alloc: Global, image: Kept) -> Result<Shared, AllocError>
        ensures { IfOk result (λ s. s ≡ image) }
    {
        Ok(Shared {
            image: Arc::new(alloc, image)?,
        })
    }

    /// One more holder of the image.
    pub fn again(&self) -> Result<Shared, AllocError>
        ensures { IfOk result (λ s. s ≡ self.now) }
    {
        Ok(Shared {
            image: Arc::try_clone(&self.image)?,
        })
    }

    /// The image.
    pub fn get(&self) -> &Kept
        ensures { result.now ≡ self.now }
    {
        &self.image
    }

    /// Takes the rows of prefixes out of the image, and sets its generation, where nobody else holds it.
    pub fn remove(&mut self, generation: u64, blocks: &[Block]) -> Result<(), CallFault>
        requires { first_block_fault blocks.now ≡ None }
        ensures ok { OnOk result (self.new ≡ withdrawn generation blocks.now self.old) }
        ensures unchanged { OnErr result (self.new ≡ self.old) }
        ensures err { IfErr result (λ f. f ≡ CallFault.Shared) }
    {
        let Some(image) = Arc::get_mut(&mut self.image) else {
            return Err(CallFault::Shared);
        };
        remove_rows(image, blocks);
        image.set_generation(generation);
        Ok(())
    }

    /// Sets rows over those of the image, in order, and its generation, where nobody else holds it.
    pub fn apply(&mut self, alloc: Global, generation: u64, rows: &[Row]) -> Result<(), CallFault>
        requires { first_row_fault rows.now ≡ None }
        ensures ok { OnOk result (self.new ≡ patched_table generation (plain_rows rows.now) self.old) }
        ensures unchanged { OnErr result (self.new ≡ self.old) }
        ensures err { IfErr result IsPatchFault }
    {
        let Some(image) = Arc::get_mut(&mut self.image) else {
            return Err(CallFault::Shared);
        };
        if rows.len() == 1 {
            apply_row(image, alloc, generation, rows[0])?;
        } else {
            let rows = plain_rows(alloc, rows)?;
            Patch { generation, rows }.apply_to(image, alloc)?;
        }
        image.widen(alloc);
        Ok(())
    }

    /// As `apply`, for rows with a word each.
    pub fn apply_words(
        &mut self,
        alloc: Global,
        generation: u64,
        rows: &[Row],
        words: &[u32],
    ) -> Result<(), CallFault>
        requires rows { first_row_fault rows.now ≡ None }
        requires count { length words.now ≡ length rows.now }
        ensures ok { OnOk result (self.new
            ≡ patched_table generation (worded_rows rows.now words.now) self.old) }
        ensures unchanged { OnErr result (self.new ≡ self.old) }
        ensures err { IfErr result IsPatchFault }
    {
        let Some(image) = Arc::get_mut(&mut self.image) else {
            return Err(CallFault::Shared);
        };
        let rows = worded_rows(alloc, rows, words)?;
        Patch { generation, rows }.apply_to(image, alloc)?;
        Ok(())
    }

    /// Sets rows over those of the image, in order, then takes those of prefixes out, and sets its
    /// generation, where nobody else holds it.
    pub(crate) fn change(
        &mut self,
        alloc: Global,
        patch: &Patch,
        blocks: &[Block],
    ) -> Result<(), CallFault>
        requires { first_block_fault blocks.now ≡ None }
        ensures ok { OnOk result (self.new ≡ withdrawn patch.now.generation blocks.now
            (patched_table patch.now.generation (new_rows patch.now.rows) self.old)) }
        ensures unchanged { OnErr result (self.new ≡ self.old) }
        ensures err { IfErr result IsPatchFault }
    {
        let Some(image) = Arc::get_mut(&mut self.image) else {
            return Err(CallFault::Shared);
        };
        patch.apply_to(image, alloc)?;
        remove_rows(image, blocks);
        image.widen(alloc);
        Ok(())
    }
}
