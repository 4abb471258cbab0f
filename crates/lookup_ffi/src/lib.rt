//! Forwarding images for C programs, behind handles.
//!
//! A data plane in C wants the longest match of many addresses, also in several threads, while routes
//! change. C sees `include/tuhvondi.h`. Each call answers 0, or the number of the fault for which it is
//! refused.
//!
//! ```text
//! struct tuhvondi_image image = TUHVONDI_NO_IMAGE, other = TUHVONDI_NO_IMAGE;
//! tuhvondi_image_new(rows, 2, &image);                          /* 0: done */
//! tuhvondi_image_lookup(&image, addrs, 3, answers, 3);          /* a row for each address */
//! tuhvondi_image_share(&image, &other);                         /* for a second thread: the same image */
//! tuhvondi_image_apply(&image, 2, changed, 1);                  /* 9: another handle holds it, too */
//! tuhvondi_image_free(&other);                                  /* now it can be patched */
//! ```
//!
//! - An image is made of rows (`tuhvondi_image_new`), changed by rows (`tuhvondi_image_apply`), and rows are
//!   taken out of it (`tuhvondi_image_remove`).
//! - Addresses are looked up many at a time. Rows are counted, and listed from a cursor on, which is a
//!   prefix.
//! - A row can have a word of the caller's own, beside its entry (`src/word_calls.rt`).
//! - A writer publishes changes of an image while readers look up in it (`src/readers.rt`).
//! - Two handles can *share* one image, and each looks up in a thread of its own. While it is shared it is
//!   not patched (9). A *copy* has the same rows in memory of its own.
//!
//! What always holds: the answers are those of the longest match over the rows that were given, set in order
//! (`answer_rows` and `answer_words` in `specs/Rows.antt` of `lookup_calls`). The first row with a fault gives
//! the status (`first_row_fault` there), and comes before an empty handle. A refused call leaves the image of
//! its handle, and the answers, as they are.
//!
//! What is tricky: a handle is for one call at a time, also for a look-up. The reason is that a call takes
//! the box out of the handle, works on what is in it, and puts it back (`lookup_calls`). So only three small
//! functions of a handle touch its pointer (`handle.rt` there), and these are proved by hand. A program that may
//! not stop its readers has a writer publish: `examples/c/two_copies.c`.
//!
//! The proofs take for granted that C keeps the rules of the header. For example, lists are as long as a call
//! is told, and no two arguments overlap.
#![tactic(auto)]

ghost use Rattle.std.specs.Prelude.{◌≡◌, ◌≢◌, None, Some, IfSome, IfNone, length};
ghost use Rattle.std.specs.Option.{option_map};
ghost use Rattle.lookup_calls.specs.Handles.{handle_image};
ghost use Rattle.lookup_calls.specs.{Images.new_image, Images.patched_table, Faults.IsApplyStatus, Faults.IsGiveStatus, Faults.IsLookupStatus, Rows.answer_rows, Rows.first_row_fault, Tables.plain_rows};
ghost use Rattle.c_interface.specs.Faults.{fault_number, IsStatusBy};
ghost use Rattle.lookup_calls.specs.Prefixes.{cursor_fault, cursor_prefix, first_block_fault, listed_row, rows_status, withdrawn, IsFilledIn, IsRemoveStatus};

use c_interface::{CallFault, Row, status};
use lookup_calls::{Block, ImageHandle, held, look_up};
use std::alloc::Global;

mod readers;
mod word_calls;

/// Makes an image of generation 0 of the rows, set in order, and puts it into the handle; the image
/// that the handle held is freed. 3, 4 or 6: the first row that has a fault has this one. 20: memory
/// was refused.
#[unsafe(no_mangle)]
pub extern "C" fn tuhvondi_image_new(alloc: Global, rows: &[Row], image: &mut ImageHandle) -> u32
    ensures status { IsStatusBy (first_row_fault rows.now) result }
    ensures done { result ≡ 0 → handle_image image.new ≡ Some (new_image (plain_rows rows.now)) }
    ensures refused { result ≢ 0 → handle_image image.new ≡ handle_image image.old }
{
    status(held::make(alloc, rows, image))
}

/// Sets rows over those of the image, in order, and its generation. 3, 4 or 6: the first row that has
/// a fault has this one. 7: the handle holds no image. 9: other handles hold it too. 20: memory was
/// refused.
#[unsafe(no_mangle)]
pub extern "C" fn tuhvondi_image_apply(
    alloc: Global,
    image: &mut ImageHandle,
    generation: u64,
    rows: &[Row],
) -> u32
    ensures status { IsApplyStatus (first_row_fault rows.now) (handle_image image.old) result }
    ensures done { result ≡ 0 → handle_image image.new
        ≡ option_map (patched_table generation (plain_rows rows.now)) (handle_image image.old) }
    ensures refused { result ≢ 0 → handle_image image.new ≡ handle_image image.old }
{
    status(held::apply(alloc, image, generation, rows))
}

/// Takes the rows of the prefixes out of the image, where it has them, and sets its generation. It
/// takes no memory. 3 or 4: the first prefix that has a fault has this one. 7: the handle holds no
/// image. 9: other handles hold it too.
#[unsafe(no_mangle)]
pub extern "C" fn tuhvondi_image_remove(
    alloc: Global,
    image: &mut ImageHandle,
    generation: u64,
    prefixes: &[Block],
) -> u32
    ensures status { IsRemoveStatus
        (first_block_fault prefixes.now) (handle_image image.old) result }
    ensures done { result ≡ 0 → handle_image image.new
        ≡ option_map (withdrawn generation prefixes.now) (handle_image image.old) }
    ensures refused { result ≢ 0 → handle_image image.new ≡ handle_image image.old }
{
    status(held::remove(alloc, image, generation, prefixes))
}

/// Has another handle hold the image too; the one that it held is freed. The two may look up at once,
/// each in a thread of its own. 7: the handle holds no image. 20: memory was refused.
#[unsafe(no_mangle)]
pub extern "C" fn tuhvondi_image_share(
    alloc: Global,
    image: &mut ImageHandle,
    other: &mut ImageHandle,
) -> u32
    ensures status { IsGiveStatus (handle_image image.old) result }
    ensures done { result ≡ 0 → handle_image other.new ≡ handle_image image.old }
    ensures refused { result ≢ 0 → handle_image other.new ≡ handle_image other.old }
    ensures image { handle_image image.new ≡ handle_image image.old }
{
    status(held::give(alloc, image, other, false))
}

/// Has another handle hold an image with the same rows and generation, in memory of its own; the one that
/// it held is freed. 7: the handle holds no image. 20: memory was refused.
#[unsafe(no_mangle)]
pub extern "C" fn tuhvondi_image_copy(
    alloc: Global,
    image: &mut ImageHandle,
    other: &mut ImageHandle,
) -> u32
    ensures status { IsGiveStatus (handle_image image.old) result }
    ensures done { result ≡ 0 → handle_image other.new ≡ handle_image image.old }
    ensures refused { result ≢ 0 → handle_image other.new ≡ handle_image other.old }
    ensures image { handle_image image.new ≡ handle_image image.old }
{
    status(held::give(alloc, image, other, true))
}

/// Writes, for each address, the row of the image with the longest prefix that covers it, or kind 3
/// where none does. It takes no memory. 7: the handle holds no image. 8: there are not as many answers
/// as addresses. Refused, it writes nothing.
#[unsafe(no_mangle)]
pub extern "C" fn tuhvondi_image_lookup(
    alloc: Global,
    image: &mut ImageHandle,
    addrs: &[u32],
    answers: &mut [Row],
) -> u32
    ensures status { IsLookupStatus
        (handle_image image.old) (length addrs.now) (length answers.old) result }
    ensures done { result ≡ 0 →
        IfSome (handle_image image.old) (λ i. answers.new ≡ answer_rows i addrs.now) }
    ensures refused { result ≢ 0 → answers.new ≡ answers.old }
    ensures image { handle_image image.new ≡ handle_image image.old }
{
    let Some(held) = image.take(alloc) else {
        return CallFault::Empty.number();
    };
    let outcome = look_up(held.get(), addrs, answers);
    image.put(held);
    status(outcome)
}

/// Writes which publication of its router the image is; 0 for a new one. 7: the handle holds no image,
/// and nothing is written.
#[unsafe(no_mangle)]
pub extern "C" fn tuhvondi_image_generation(
    alloc: Global,
    image: &mut ImageHandle,
    generation: &mut u64,
) -> u32
    ensures some { IfSome (handle_image image.old) (λ i.
        (result ≡ 0) × (generation.new ≡ i.generation)) }
    ensures none { IfNone (handle_image image.old)
        ((result ≡ fault_number CallFault.Empty) × (generation.new ≡ generation.old)) }
    ensures image { handle_image image.new ≡ handle_image image.old }
{
    let Some(held) = image.take(alloc) else {
        return CallFault::Empty.number();
    };
    *generation = held.get().generation();
    image.put(held);
    0
}

/// Writes the rows of the image from where the cursor stands, in the order of their prefixes, as many as
/// there is room for, and how many they are; the cursor then stands where the others begin. A length
/// of 33 is the end. It takes no memory. 3 or 4: the cursor is no prefix. 7: the handle holds no
/// image. Refused, it writes nothing.
#[unsafe(no_mangle)]
pub extern "C" fn tuhvondi_image_rows(
    alloc: Global,
    image: &mut ImageHandle,
    from: &mut Block,
    rows: &mut [Row],
    written: &mut usize,
) -> u32
    ensures status { result ≡ rows_status (cursor_fault from.old) (handle_image image.old) }
    ensures done { result ≡ 0 → IfSome (handle_image image.old) (λ i. IsFilledIn listed_row
        i.rows (cursor_prefix from.old) rows.old rows.new written.new (cursor_prefix from.new)) }
    ensures refused { result ≢ 0 →
        (rows.new ≡ rows.old) × (written.new ≡ written.old) × (from.new ≡ from.old) }
    ensures image { handle_image image.new ≡ handle_image image.old }
{
    match held::list(alloc, image, *from, rows) {
        Ok((count, onward)) => {
            *written = count;
            *from = onward;
            0
        }
        Err(fault) => fault.number(),
    }
}

/// Writes how many rows the image has: it goes through all of them. 7: the handle holds no image, and
/// nothing is written.
#[unsafe(no_mangle)]
pub extern "C" fn tuhvondi_image_row_count(
    alloc: Global,
    image: &mut ImageHandle,
    count: &mut usize,
) -> u32
    ensures some { IfSome (handle_image image.old) (λ i.
        (result ≡ 0) × (count.new ≡ length i.rows)) }
    ensures none { IfNone (handle_image image.old)
        ((result ≡ fault_number CallFault.Empty) × (count.new ≡ count.old)) }
    ensures image { handle_image image.new ≡ handle_image image.old }
{
    let Some(held) = image.take(alloc) else {
        return CallFault::Empty.number();
    };
    *count = held.get().row_count();
    image.put(held);
    0
}

/// Writes how many bytes the image takes, with the room for more rows. 7: the handle holds no image,
/// and nothing is written.
#[unsafe(no_mangle)]
pub extern "C" fn tuhvondi_image_bytes(
    alloc: Global,
    image: &mut ImageHandle,
    bytes: &mut usize,
) -> u32
    ensures some { IfSome (handle_image image.old) (λ i. result ≡ 0) }
    ensures none { IfNone (handle_image image.old)
        ((result ≡ fault_number CallFault.Empty) × (bytes.new ≡ bytes.old)) }
    ensures image { handle_image image.new ≡ handle_image image.old }
{
    let Some(held) = image.take(alloc) else {
        return CallFault::Empty.number();
    };
    *bytes = held.get().bytes();
    image.put(held);
    0
}

/// Frees the image, if there is one. The handle then holds none.
#[unsafe(no_mangle)]
pub extern "C" fn tuhvondi_image_free(alloc: Global, image: &mut ImageHandle)
    ensures { handle_image image.new ≡ None }
{
    *image = ImageHandle::none(alloc);
}

#[cfg(test)]
mod tests;
#[cfg(test)]
mod word_tests;
