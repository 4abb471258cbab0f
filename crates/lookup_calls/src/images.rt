//! Boxed images, for handles.

ghost use Rattle.std.specs.Prelude.{◌≡◌, None, IfOk, IsOkUnless, length};
ghost use Rattle.lookup_calls.specs.{Images.new_image, Rows.first_row_fault, Tables.plain_rows, Tables.worded_rows};

use crate::kept::Kept;
use crate::patch::Patch;
use crate::rows::worded_rows;
use crate::shared::Shared;
use c_interface::{CallFault, Row};
use std::alloc::Global;

/// An image of generation 0 of these rows, set in order.
pub fn image_of_rows(alloc: Global, rows: &[Row]) -> Result<Box<Shared>, CallFault>
    requires { first_row_fault rows.now ≡ None }
    ensures ok { IfOk result (λ image. image.value ≡ new_image (plain_rows rows.now)) }
    ensures err { IsOkUnless result CallFault.NoMemory }
{
    let mut image = Kept::plain(alloc, rows.len())?;
    // One by one: room for all at once would be room for the longest way of each.
    for &row in rows {
        let (prefix, entry) = row.read()?;
        image.set_entry(alloc, prefix, entry)?;
    }
    Ok(Box::new(alloc, Shared::new(alloc, image)?)?)
}

/// An image of generation 0 of these rows, each with a word, set in order.
pub fn image_of_words(alloc: Global, rows: &[Row], words: &[u32]) -> Result<Box<Shared>, CallFault>
    requires rows { first_row_fault rows.now ≡ None }
    requires count { length words.now ≡ length rows.now }
    ensures ok { IfOk result (λ image. image.value ≡ new_image (worded_rows rows.now words.now)) }
    ensures err { IsOkUnless result CallFault.NoMemory }
{
    let mut image = Kept::with_words(alloc, rows.len())?;
    let rows = worded_rows(alloc, rows, words)?;
    let patch = Patch {
        generation: 0,
        rows,
    };
    patch.apply_to(&mut image, alloc)?;
    Ok(Box::new(alloc, Shared::new(alloc, image)?)?)
}

/// One more holder of an image.
pub fn share_image(alloc: Global, image: &Shared) -> Result<Box<Shared>, CallFault>
    ensures ok { IfOk result (λ other. other.value ≡ image.now) }
    ensures err { IsOkUnless result CallFault.NoMemory }
{
    Ok(Box::new(alloc, image.again()?)?)
}

/// The only holder of an image with the same rows and generation, in memory of its own.
pub fn copy_image(alloc: Global, image: &Shared) -> Result<Box<Shared>, CallFault>
    ensures ok { IfOk result (λ other. other.value ≡ image.now) }
    ensures err { IsOkUnless result CallFault.NoMemory }
{
    let image = image.get().copy(alloc)?;
    Ok(Box::new(alloc, Shared::new(alloc, image)?)?)
}
