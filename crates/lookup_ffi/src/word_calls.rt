//! The calls of C for rows that have a word of the caller's own, for example the index of a next hop.
//!
//! A row that another call sets has the word 2^32 - 1. A look-up answers that word, too, if no row covers the
//! address.

ghost use Rattle.std.specs.Prelude.{◌≡◌, ◌≢◌, Some, IfSome, is_some, length};
ghost use Rattle.std.specs.Option.{option_map};
ghost use Rattle.c_interface.specs.Faults.{IsStatusBy, first_of};
ghost use Rattle.lookup_calls.specs.{Faults.IsApplyStatus, Faults.IsLookupStatus, Histories.changed, Histories.last_image, Images.new_image, Images.patched_table, Readers.IsPublishStatus, Readers.IsReadStatus, Rows.answer_words, Rows.count_fault, Rows.words_fault, Tables.worded_rows};
ghost use Rattle.receipts.specs.Logs.{GrowsTo, with_element};
ghost use Rattle.lookup_calls.specs.Prefixes.{cursor_fault, cursor_prefix, first_block_fault, listed_row, listed_word, rows_status, IsFilledIn};
ghost use Rattle.lookup_calls.specs.Handles.{handle_image, handle_reader, handle_writer};

use c_interface::{CallFault, Row, status};
use lookup_calls::{
    Block, ImageHandle, ReaderHandle, WriterHandle, held_words, look_up_words, read_words,
};
use std::alloc::Global;

/// As `tuhvondi_image_new`, with a word for each row. 8: there are not as many words as rows, and no row has
/// a fault. 20: memory was refused, or there are more than 16,777,214 rows.
#[unsafe(no_mangle)]
pub extern "C" fn tuhvondi_image_new_words(
    alloc: Global,
    rows: &[Row],
    words: &[u32],
    image: &mut ImageHandle,
) -> u32
    ensures status { IsStatusBy (words_fault rows.now words.now) result }
    ensures done { result ≡ 0 →
        handle_image image.new ≡ Some (new_image (worded_rows rows.now words.now)) }
    ensures refused { result ≢ 0 → handle_image image.new ≡ handle_image image.old }
{
    status(held_words::make(alloc, rows, words, image))
}

/// As `tuhvondi_image_apply`, with a word for each row. 8: there are not as many words as rows, and no row
/// has a fault. 20: memory was refused, or the image would have more than 16,777,214 rows.
#[unsafe(no_mangle)]
pub extern "C" fn tuhvondi_image_apply_words(
    alloc: Global,
    image: &mut ImageHandle,
    generation: u64,
    rows: &[Row],
    words: &[u32],
) -> u32
    ensures status { IsApplyStatus (words_fault rows.now words.now) (handle_image image.old) result }
    ensures done { result ≡ 0 → handle_image image.new
        ≡ option_map (patched_table generation (worded_rows rows.now words.now)) (handle_image image.old) }
    ensures refused { result ≢ 0 → handle_image image.new ≡ handle_image image.old }
{
    status(held_words::apply(alloc, image, generation, rows, words))
}

/// As `tuhvondi_image_lookup`, but writes the words of the rows that answer, and nothing else of them.
#[unsafe(no_mangle)]
pub extern "C" fn tuhvondi_image_lookup_words(
    alloc: Global,
    image: &mut ImageHandle,
    addrs: &[u32],
    words: &mut [u32],
) -> u32
    ensures status { IsLookupStatus
        (handle_image image.old) (length addrs.now) (length words.old) result }
    ensures done { result ≡ 0 →
        IfSome (handle_image image.old) (λ i. words.new ≡ answer_words i addrs.now) }
    ensures refused { result ≢ 0 → words.new ≡ words.old }
    ensures image { handle_image image.new ≡ handle_image image.old }
{
    let Some(held) = image.take(alloc) else {
        return CallFault::Empty.number();
    };
    let outcome = look_up_words(held.get(), addrs, words);
    image.put(held);
    status(outcome)
}

/// As `tuhvondi_image_rows`, with the word of each row. 8: there are not as many places for words as for
/// rows, and the cursor is a prefix.
#[unsafe(no_mangle)]
pub extern "C" fn tuhvondi_image_rows_words(
    alloc: Global,
    image: &mut ImageHandle,
    from: &mut Block,
    rows: &mut [Row],
    words: &mut [u32],
    written: &mut usize,
) -> u32
    ensures status { result ≡ rows_status (first_of (cursor_fault from.old)
        (count_fault (length rows.old) (length words.old))) (handle_image image.old) }
    ensures done { result ≡ 0 → IfSome (handle_image image.old) (λ i. IsFilledIn listed_row
        i.rows (cursor_prefix from.old) rows.old rows.new written.new (cursor_prefix from.new)) }
    ensures words { result ≡ 0 → IfSome (handle_image image.old) (λ i. IsFilledIn listed_word
        i.rows (cursor_prefix from.old) words.old words.new written.new (cursor_prefix from.new)) }
    ensures refused { result ≢ 0 → (rows.new ≡ rows.old) × (words.new ≡ words.old)
        × (written.new ≡ written.old) × (from.new ≡ from.old) }
    ensures image { handle_image image.new ≡ handle_image image.old }
{
    match held_words::list(alloc, image, *from, rows, words) {
        Ok((count, onward)) => {
            *written = count;
            *from = onward;
            0
        }
        Err(fault) => fault.number(),
    }
}

/// As `tuhvondi_writer_publish`, with a word for each row. 8: there are not as many words as rows, and no row
/// has a fault. 20: memory was refused, or the image would have more than 16,777,214 rows.
#[unsafe(no_mangle)]
pub extern "C" fn tuhvondi_writer_publish_words(
    alloc: Global,
    writer: &mut WriterHandle,
    generation: u64,
    rows: &[Row],
    words: &[u32],
    prefixes: &[Block],
) -> u32
    ensures status { IsPublishStatus (first_of (words_fault rows.now words.now)
        (first_block_fault prefixes.now)) (handle_writer writer.old) result }
    ensures done { result ≡ 0 → IfSome (handle_writer writer.old)
        (λ h. IfSome (last_image h.elements) (λ i. handle_writer writer.new ≡ Some (with_element h
        (changed generation (worded_rows rows.now words.now) prefixes.now i)))) }
    ensures refused { result ≢ 0 → handle_writer writer.new ≡ handle_writer writer.old }
{
    status(held_words::publish(alloc, writer, generation, rows, words, prefixes))
}

/// As `tuhvondi_reader_lookup`, but writes the words of the rows that answer, and nothing else of them.
#[unsafe(no_mangle)]
pub extern "C" fn tuhvondi_reader_lookup_words(
    alloc: Global,
    reader: &mut ReaderHandle,
    addrs: &[u32],
    words: &mut [u32],
    generation: &mut u64,
) -> u32
    ensures status { IsReadStatus
        (handle_reader reader.old) (length addrs.now) (length words.old) result }
    ensures kept { is_some (handle_reader reader.new) ≡ is_some (handle_reader reader.old) }
    ensures later { IfSome (handle_reader reader.old)
        (λ h. IfSome (handle_reader reader.new) (λ k. GrowsTo h k)) }
    ensures done { result ≡ 0 → IfSome (handle_reader reader.new)
        (λ h. IfSome (last_image h.elements)
        (λ i. (words.new ≡ answer_words i addrs.now) × (generation.new ≡ i.generation))) }
    ensures refused { result ≢ 0
        → (words.new ≡ words.old) × (generation.new ≡ generation.old) }
{
    let Some(mut held) = reader.take(alloc) else {
        return CallFault::Empty.number();
    };
    let outcome = read_words(&mut held, addrs, words, generation);
    reader.put(held);
    status(outcome)
}
