//! Rows that are set in an image, in place.

ghost use Rattle.std.specs.Prelude.{◌≡◌, [], ◌∷◌, None, IsOkUnless, OnErr, OnOk};
ghost use Rattle.c_interface.specs.Rows.{row_fault};
ghost use Rattle.lookup_calls.specs.{Images.new_rows, Images.patched_table, Tables.plain_rows};

use crate::kept::Kept;
use c_interface::{CallFault, Row};
use network_model::{Entry, NoMemory, Prefix};
use row_words::Marked;
use std::alloc::Global;

/// Rows without words, or rows with a word each.
#[derive(Drop)]
pub enum NewRows {
    Plain(Vec<(Prefix, Entry)>),
    Words(Vec<(Prefix, Marked)>),
}

/// Rows to set, one after another, and the generation that they make.
#[derive(Drop)]
pub struct Patch {
    pub generation: u64,
    pub rows: NewRows,
}

impl Patch {
    /// Sets the rows in an image, and its generation. Refused, it changes nothing.
    pub fn apply_to(&self, image: &mut Kept, alloc: Global) -> Result<(), NoMemory>
        ensures ok { OnOk result (image.new
            ≡ patched_table self.now.generation (new_rows self.now.rows) image.old) }
        ensures unchanged { OnErr result (image.new ≡ image.old) }
    {
        match &self.rows {
            NewRows::Plain(rows) => image.set_entries(alloc, rows)?,
            NewRows::Words(rows) => image.set_marked(alloc, rows)?,
        }
        image.set_generation(self.generation);
        Ok(())
    }
}

/// Sets one row without a word in an image, and its generation, with no list of rows. Refused, it changes
/// nothing.
pub fn apply_row(
    image: &mut Kept,
    alloc: Global,
    generation: u64,
    row: Row,
) -> Result<(), CallFault>
    requires { row_fault row ≡ None }
    ensures ok { OnOk result (image.new ≡ patched_table generation (plain_rows (row ∷ [])) image.old) }
    ensures unchanged { OnErr result (image.new ≡ image.old) }
    ensures err { IsOkUnless result CallFault.NoMemory }
{
    let (prefix, entry) = row.read()?;
    image.set_entry(alloc, prefix, entry)?;
    image.set_generation(generation);
    Ok(())
}
