//! The same for rows with words.

ghost use Rattle.std.specs.Prelude.{◌≡◌, None, Some, OnOk, OnErr, IfOk, IfErr, IfSome, length};
ghost use Rattle.std.specs.Option.{option_map};
ghost use Rattle.c_interface.specs.Faults.{first_of, fault_number, IsStatusBy};
ghost use Rattle.receipts.specs.Logs.{with_element};
ghost use Rattle.lookup_calls.specs.{Faults.IsApplyStatus, Handles.handle_image, Handles.handle_writer, Histories.changed, Histories.last_image, Images.new_image, Images.patched_table, Readers.IsPublishStatus, Rows.count_fault, Rows.words_fault, Tables.worded_rows};
ghost use Rattle.lookup_calls.specs.Prefixes.{cursor_fault, cursor_prefix, first_block_fault, listed_row, listed_word, rows_status, IsFilledIn};

use crate::handle::ImageHandle;
use crate::images::image_of_words;
use crate::prefixes::{Block, check_blocks, check_list, list_words};
use crate::publishing::publish_words;
use crate::rows::check_words;
use crate::writer_handle::WriterHandle;
use c_interface::{CallFault, Row};
use std::alloc::Global;

/// Makes an image of rows with words and puts it into a handle.
pub fn make(
    alloc: Global,
    rows: &[Row],
    words: &[u32],
    image: &mut ImageHandle,
) -> Result<(), CallFault>
    ensures ok { OnOk result (words_fault rows.now words.now ≡ None) }
    ensures made { OnOk result (handle_image image.new
        ≡ Some (new_image (worded_rows rows.now words.now))) }
    ensures unchanged { OnErr result (handle_image image.new ≡ handle_image image.old) }
    ensures err { IfErr result (λ f. IsStatusBy (words_fault rows.now words.now) (fault_number f)) }
{
    check_words(rows, words)?;
    image.put(image_of_words(alloc, rows, words)?);
    Ok(())
}

/// Sets rows with words over those of a handle's image, and its generation.
pub fn apply(
    alloc: Global,
    image: &mut ImageHandle,
    generation: u64,
    rows: &[Row],
    words: &[u32],
) -> Result<(), CallFault>
    ensures ok { OnOk result
        (IsApplyStatus (words_fault rows.now words.now) (handle_image image.old) 0) }
    ensures patched { OnOk result (handle_image image.new
        ≡ option_map (patched_table generation (worded_rows rows.now words.now)) (handle_image image.old)) }
    ensures unchanged { OnErr result (handle_image image.new ≡ handle_image image.old) }
    ensures err { IfErr result (λ f.
        IsApplyStatus (words_fault rows.now words.now) (handle_image image.old) (fault_number f)) }
{
    check_words(rows, words)?;
    let Some(mut held) = image.take(alloc) else {
        return Err(CallFault::Empty);
    };
    let outcome = held.apply_words(alloc, generation, rows, words);
    image.put(held);
    outcome
}

/// Writes the rows of a handle's image and their words, from where a cursor stands.
pub fn list(
    alloc: Global,
    image: &mut ImageHandle,
    from: Block,
    rows: &mut [Row],
    words: &mut [u32],
) -> Result<(usize, Block), CallFault>
    ensures image { handle_image image.new ≡ handle_image image.old }
    ensures ok { OnOk result (rows_status (first_of (cursor_fault from)
        (count_fault (length rows.old) (length words.old))) (handle_image image.old) ≡ 0) }
    ensures rows { IfOk result (λ r. IfSome (handle_image image.old) (λ i. IsFilledIn listed_row
        i.rows (cursor_prefix from) rows.old rows.new r.0 (cursor_prefix r.1))) }
    ensures words { IfOk result (λ r. IfSome (handle_image image.old) (λ i. IsFilledIn listed_word
        i.rows (cursor_prefix from) words.old words.new r.0 (cursor_prefix r.1))) }
    ensures unchanged { OnErr result ((rows.new ≡ rows.old) × (words.new ≡ words.old)) }
    ensures err { IfErr result (λ f. rows_status (first_of (cursor_fault from)
        (count_fault (length rows.old) (length words.old))) (handle_image image.old)
        ≡ fault_number f) }
{
    check_list(from, rows, words)?;
    let at = from.read_cursor()?;
    let Some(held) = image.take(alloc) else {
        return Err(CallFault::Empty);
    };
    let (count, onward) = list_words(held.get(), at, rows, words);
    image.put(held);
    Ok((count, Block::cursor(onward)))
}

/// Publishes a change with words of a handle's writer.
pub fn publish(
    alloc: Global,
    writer: &mut WriterHandle,
    generation: u64,
    rows: &[Row],
    words: &[u32],
    prefixes: &[Block],
) -> Result<(), CallFault>
    ensures ok { OnOk result (IsPublishStatus (first_of (words_fault rows.now words.now)
        (first_block_fault prefixes.now)) (handle_writer writer.old) 0) }
    ensures published { OnOk result (IfSome (handle_writer writer.old)
        (λ h. IfSome (last_image h.elements) (λ i. handle_writer writer.new ≡ Some (with_element h
        (changed generation (worded_rows rows.now words.now) prefixes.now i))))) }
    ensures unchanged { OnErr result (handle_writer writer.new ≡ handle_writer writer.old) }
    ensures err { IfErr result (λ f. IsPublishStatus (first_of (words_fault rows.now words.now)
        (first_block_fault prefixes.now)) (handle_writer writer.old) (fault_number f)) }
{
    check_words(rows, words)?;
    check_blocks(prefixes)?;
    let Some(mut held) = writer.take(alloc) else {
        return Err(CallFault::Empty);
    };
    let outcome = publish_words(alloc, &mut held, generation, rows, words, prefixes);
    writer.put(held);
    outcome
}
