//! What is done to the images, writers and readers that handles hold.

ghost use Rattle.std.specs.Prelude.{◌≡◌, ◌∷◌, [], None, Some, OnOk, OnErr, IfOk, IfErr, IfSome, IsSome};
ghost use Rattle.std.specs.Option.{option_map};
ghost use Rattle.c_interface.specs.Faults.{first_of, fault_number, IsStatusBy};
ghost use Rattle.receipts.specs.Logs.{with_element};
ghost use Rattle.lookup_calls.specs.{Faults.IsApplyStatus, Faults.IsGiveStatus, Histories.changed, Histories.last_image, Images.new_image, Images.patched_table, Rows.first_row_fault, Tables.plain_rows};
ghost use Rattle.lookup_calls.specs.Handles.{handle_image, handle_reader, handle_writer};
ghost use Rattle.lookup_calls.specs.Prefixes.{cursor_fault, cursor_prefix, first_block_fault, listed_row, rows_status, withdrawn, IsFilledIn, IsRemoveStatus};
ghost use Rattle.lookup_calls.specs.Readers.{IsOpenStatus, IsPublishStatus, IsSeatStatus};

use crate::handle::ImageHandle;
use crate::images::{copy_image, image_of_rows, share_image};
use crate::prefixes::{Block, check_blocks, list_rows};
use crate::publishing::{publish_rows, reader_of, writer_of};
use crate::reader_handle::ReaderHandle;
use crate::rows::check_rows;
use crate::writer_handle::WriterHandle;
use c_interface::{CallFault, Row};
use std::alloc::Global;

/// Makes an image of rows and puts it into a handle.
pub fn make(alloc: Global, rows: &[Row], image: &mut ImageHandle) -> Result<(), CallFault>
    ensures ok { OnOk result (first_row_fault rows.now ≡ None) }
    ensures made { OnOk result (handle_image image.new
        ≡ Some (new_image (plain_rows rows.now))) }
    ensures unchanged { OnErr result (handle_image image.new ≡ handle_image image.old) }
    ensures err { IfErr result (λ f. IsStatusBy (first_row_fault rows.now) (fault_number f)) }
{
    check_rows(rows)?;
    image.put(image_of_rows(alloc, rows)?);
    Ok(())
}

/// Sets rows over those of a handle's image, and its generation.
pub fn apply(
    alloc: Global,
    image: &mut ImageHandle,
    generation: u64,
    rows: &[Row],
) -> Result<(), CallFault>
    ensures ok { OnOk result (IsApplyStatus (first_row_fault rows.now) (handle_image image.old) 0) }
    ensures patched { OnOk result (handle_image image.new
        ≡ option_map (patched_table generation (plain_rows rows.now)) (handle_image image.old)) }
    ensures unchanged { OnErr result (handle_image image.new ≡ handle_image image.old) }
    ensures err { IfErr result (λ f.
        IsApplyStatus (first_row_fault rows.now) (handle_image image.old) (fault_number f)) }
{
    check_rows(rows)?;
    let Some(mut held) = image.take(alloc) else {
        return Err(CallFault::Empty);
    };
    let outcome = held.apply(alloc, generation, rows);
    image.put(held);
    outcome
}

/// Takes the rows of prefixes out of a handle's image, and sets its generation.
pub fn remove(
    alloc: Global,
    image: &mut ImageHandle,
    generation: u64,
    prefixes: &[Block],
) -> Result<(), CallFault>
    ensures ok { OnOk result
        (IsRemoveStatus (first_block_fault prefixes.now) (handle_image image.old) 0) }
    ensures removed { OnOk result (handle_image image.new
        ≡ option_map (withdrawn generation prefixes.now) (handle_image image.old)) }
    ensures unchanged { OnErr result (handle_image image.new ≡ handle_image image.old) }
    ensures err { IfErr result (λ f. IsRemoveStatus
        (first_block_fault prefixes.now) (handle_image image.old) (fault_number f)) }
{
    check_blocks(prefixes)?;
    let Some(mut held) = image.take(alloc) else {
        return Err(CallFault::Empty);
    };
    let outcome = held.remove(generation, prefixes);
    image.put(held);
    outcome
}

/// Has another handle hold an image too, or a copy of it.
pub fn give(
    alloc: Global,
    image: &mut ImageHandle,
    other: &mut ImageHandle,
    copies: bool,
) -> Result<(), CallFault>
    ensures image { handle_image image.new ≡ handle_image image.old }
    ensures ok { OnOk result (IsGiveStatus (handle_image image.old) 0) }
    ensures given { OnOk result (handle_image other.new ≡ handle_image image.old) }
    ensures unchanged { OnErr result (handle_image other.new ≡ handle_image other.old) }
    ensures err { IfErr result (λ f. IsGiveStatus (handle_image image.old) (fault_number f)) }
{
    let Some(held) = image.take(alloc) else {
        return Err(CallFault::Empty);
    };
    let one_more = if copies {
        copy_image(alloc, &held)
    } else {
        share_image(alloc, &held)
    };
    image.put(held);
    other.put(one_more?);
    Ok(())
}

/// Writes the rows of a handle's image from where a cursor stands.
pub fn list(
    alloc: Global,
    image: &mut ImageHandle,
    from: Block,
    rows: &mut [Row],
) -> Result<(usize, Block), CallFault>
    ensures image { handle_image image.new ≡ handle_image image.old }
    ensures ok { OnOk result (rows_status (cursor_fault from) (handle_image image.old) ≡ 0) }
    ensures rows { IfOk result (λ r. IfSome (handle_image image.old) (λ i. IsFilledIn listed_row
        i.rows (cursor_prefix from) rows.old rows.new r.0 (cursor_prefix r.1))) }
    ensures unchanged { OnErr result (rows.new ≡ rows.old) }
    ensures err { IfErr result (λ f.
        rows_status (cursor_fault from) (handle_image image.old) ≡ fault_number f) }
{
    let at = from.read_cursor()?;
    let Some(held) = image.take(alloc) else {
        return Err(CallFault::Empty);
    };
    let (count, onward) = list_rows(held.get(), at, rows);
    image.put(held);
    Ok((count, Block::cursor(onward)))
}

/// Makes a writer of an image like a handle's.
pub fn open(
    alloc: Global,
    image: &mut ImageHandle,
    readers: usize,
    writer: &mut WriterHandle,
) -> Result<(), CallFault>
    ensures image { handle_image image.new ≡ handle_image image.old }
    ensures ok { OnOk result (IsOpenStatus (handle_image image.old) readers 0) }
    ensures held { OnOk result (IsSome (handle_writer writer.new)) }
    ensures made { OnOk result (IfSome (handle_image image.old)
        (λ i. IfSome (handle_writer writer.new) (λ h. h.elements ≡ i ∷ []))) }
    ensures unchanged { OnErr result (handle_writer writer.new ≡ handle_writer writer.old) }
    ensures err { IfErr result
        (λ f. IsOpenStatus (handle_image image.old) readers (fault_number f)) }
{
    let Some(held) = image.take(alloc) else {
        return Err(CallFault::Empty);
    };
    let made = writer_of(alloc, held.get(), readers);
    image.put(held);
    writer.put(made?);
    Ok(())
}

/// Publishes a change of a handle's writer.
pub fn publish(
    alloc: Global,
    writer: &mut WriterHandle,
    generation: u64,
    rows: &[Row],
    prefixes: &[Block],
) -> Result<(), CallFault>
    ensures ok { OnOk result (IsPublishStatus (first_of (first_row_fault rows.now)
        (first_block_fault prefixes.now)) (handle_writer writer.old) 0) }
    ensures published { OnOk result (IfSome (handle_writer writer.old)
        (λ h. IfSome (last_image h.elements) (λ i. handle_writer writer.new
        ≡ Some (with_element h (changed generation (plain_rows rows.now) prefixes.now i))))) }
    ensures unchanged { OnErr result (handle_writer writer.new ≡ handle_writer writer.old) }
    ensures err { IfErr result (λ f. IsPublishStatus (first_of (first_row_fault rows.now)
        (first_block_fault prefixes.now)) (handle_writer writer.old) (fault_number f)) }
{
    check_rows(rows)?;
    check_blocks(prefixes)?;
    let Some(mut held) = writer.take(alloc) else {
        return Err(CallFault::Empty);
    };
    let outcome = publish_rows(alloc, &mut held, generation, rows, prefixes);
    writer.put(held);
    outcome
}

/// Makes a reader of a handle's writer.
pub fn seat(
    alloc: Global,
    writer: &mut WriterHandle,
    reader: &mut ReaderHandle,
) -> Result<(), CallFault>
    ensures writer { handle_writer writer.new ≡ handle_writer writer.old }
    ensures ok { OnOk result (IsSeatStatus (handle_writer writer.old) 0) }
    ensures made { OnOk result (handle_reader reader.new ≡ handle_writer writer.old) }
    ensures unchanged { OnErr result (handle_reader reader.new ≡ handle_reader reader.old) }
    ensures err { IfErr result (λ f. IsSeatStatus (handle_writer writer.old) (fault_number f)) }
{
    let Some(held) = writer.take(alloc) else {
        return Err(CallFault::Empty);
    };
    let made = reader_of(alloc, &held);
    writer.put(held);
    reader.put(made?);
    Ok(())
}
