//! Writers and readers in boxes, for handles, and what a writer publishes.

ghost use Rattle.std.specs.Prelude.{◌≡◌, ◌⊎◌, ◌∷◌, [], IfErr, IfOk, IfSome, None, OnErr, OnOk, Some, length};
ghost use Rattle.c_interface.specs.Faults.{fault_number};
ghost use Rattle.lookup_calls.specs.{Faults.IsPatchFault, Histories.changed, Histories.last_image, Prefixes.first_block_fault, Readers.IsOpenStatus, Rows.first_row_fault, Tables.plain_rows, Tables.worded_rows};
ghost use Rattle.receipts.specs.Logs.{with_element};

use crate::change::Change;
use crate::kept::Kept;
use crate::prefixes::Block;
use crate::reader::ImageReader;
use crate::rows::{plain_rows, worded_rows};
use crate::writer::ImageWriter;
use c_interface::{CallFault, Row};
use std::alloc::Global;

/// The most readers that a writer may have.
const MOST_READERS: usize = 1024;

/// The writer of an image like this one, with room for so many readers. It is refused with `BadCount` if these
/// are more than 1,024.
pub fn writer_of(alloc: Global, image: &Kept, readers: usize) -> Result<Box<ImageWriter>, CallFault>
    ensures ok { OnOk result (IsOpenStatus (Some image.now) readers 0) }
    ensures made { IfOk result (λ w. w.value.elements ≡ image.now ∷ []) }
    ensures err { IfErr result (λ f. IsOpenStatus (Some image.now) readers (fault_number f)) }
{
    if readers > MOST_READERS {
        return Err(CallFault::BadCount);
    }
    Ok(Box::new(alloc, ImageWriter::new(alloc, image, readers)?)?)
}

/// A reader of a writer. It is refused with `BadCount` if handles have all.
pub fn reader_of(alloc: Global, writer: &ImageWriter) -> Result<Box<ImageReader>, CallFault>
    ensures ok { IfOk result (λ r. r.value ≡ writer.now) }
    ensures err { IfErr result (λ f. (f ≡ CallFault.BadCount) ⊎ (f ≡ CallFault.NoMemory)) }
{
    Ok(Box::new(alloc, writer.reader()?)?)
}

/// Publishes rows without words and prefixes. Refused, it changes nothing.
pub fn publish_rows(
    alloc: Global,
    writer: &mut ImageWriter,
    generation: u64,
    rows: &[Row],
    prefixes: &[Block],
) -> Result<(), CallFault>
    requires rows { first_row_fault rows.now ≡ None }
    requires prefixes { first_block_fault prefixes.now ≡ None }
    ensures ok { OnOk result (IfSome (last_image writer.old.elements) (λ i. writer.new
        ≡ with_element writer.old (changed generation (plain_rows rows.now) prefixes.now i))) }
    ensures unchanged { OnErr result (writer.new ≡ writer.old) }
    ensures err { IfErr result IsPatchFault }
{
    let rows = plain_rows(alloc, rows)?;
    writer.publish(Change::of(alloc, generation, rows, prefixes)?)
}

/// Publishes rows with words and prefixes. Refused, it changes nothing.
pub fn publish_words(
    alloc: Global,
    writer: &mut ImageWriter,
    generation: u64,
    rows: &[Row],
    words: &[u32],
    prefixes: &[Block],
) -> Result<(), CallFault>
    requires rows { first_row_fault rows.now ≡ None }
    requires count { length words.now ≡ length rows.now }
    requires prefixes { first_block_fault prefixes.now ≡ None }
    ensures ok { OnOk result (IfSome (last_image writer.old.elements) (λ i. writer.new
        ≡ with_element writer.old (changed generation (worded_rows rows.now words.now) prefixes.now i))) }
    ensures unchanged { OnErr result (writer.new ≡ writer.old) }
    ensures err { IfErr result IsPatchFault }
{
    let rows = worded_rows(alloc, rows, words)?;
    writer.publish(Change::of(alloc, generation, rows, prefixes)?)
}
