//! The calls of C by which one thread changes an image while others look up in it, under no lock.

ghost use Rattle.std.specs.Prelude.{◌≡◌, ◌≢◌, ◌∷◌, [], IfSome, IsSome, None, Some, is_some, length};
ghost use Rattle.c_interface.specs.Faults.{first_of};
ghost use Rattle.receipts.specs.Logs.{GrowsTo, with_element};
ghost use Rattle.lookup_calls.specs.{Histories.changed, Histories.last_image, Prefixes.first_block_fault, Rows.answer_rows, Rows.first_row_fault, Tables.plain_rows};
ghost use Rattle.lookup_calls.specs.Readers.{IsCountStatus, IsLearnStatus, IsOpenStatus, IsPublishStatus, IsReadStatus, IsSeatStatus};
ghost use Rattle.lookup_calls.specs.Handles.{handle_image, handle_reader, handle_writer};

use c_interface::{CallFault, Row, status};
use lookup_calls::{Block, ImageHandle, ReaderHandle, WriterHandle, held, read};
use std::alloc::Global;

/// Has a writer hold two copies of the image, with room for so many readers; the one that its handle held
/// is freed. 7: the handle holds no image. 8: more than 1,024 readers. 20: memory was refused.
#[unsafe(no_mangle)]
pub extern "C" fn tuhvondi_writer_new(
    alloc: Global,
    image: &mut ImageHandle,
    readers: usize,
    writer: &mut WriterHandle,
) -> u32
    ensures status { IsOpenStatus (handle_image image.old) readers result }
    ensures held { result ≡ 0 → IsSome (handle_writer writer.new) }
    ensures done { result ≡ 0 → IfSome (handle_image image.old)
        (λ i. IfSome (handle_writer writer.new) (λ h. h.elements ≡ i ∷ [])) }
    ensures refused { result ≢ 0 → handle_writer writer.new ≡ handle_writer writer.old }
    ensures image { handle_image image.new ≡ handle_image image.old }
{
    status(held::open(alloc, image, readers, writer))
}

/// Sets rows over those of the image, in order, then takes the rows of prefixes out, sets its generation,
/// and has readers take the image from now on: all or nothing. 3, 4 or 6: the first row, or else the
/// first prefix, that has a fault has this one. 7: the handle holds no writer. 9: a reader is still in a
/// look-up that began before the last publication. 20: memory was refused.
#[unsafe(no_mangle)]
pub extern "C" fn tuhvondi_writer_publish(
    alloc: Global,
    writer: &mut WriterHandle,
    generation: u64,
    rows: &[Row],
    prefixes: &[Block],
) -> u32
    ensures status { IsPublishStatus (first_of (first_row_fault rows.now)
        (first_block_fault prefixes.now)) (handle_writer writer.old) result }
    ensures done { result ≡ 0 → IfSome (handle_writer writer.old)
        (λ h. IfSome (last_image h.elements) (λ i. handle_writer writer.new
        ≡ Some (with_element h (changed generation (plain_rows rows.now) prefixes.now i)))) }
    ensures refused { result ≢ 0 → handle_writer writer.new ≡ handle_writer writer.old }
{
    status(held::publish(alloc, writer, generation, rows, prefixes))
}

/// Writes how many images the writer has published; the first is the one that it was made of. 7: the handle
/// holds no writer, and nothing is written.
#[unsafe(no_mangle)]
pub extern "C" fn tuhvondi_writer_published(
    alloc: Global,
    writer: &mut WriterHandle,
    published: &mut u64,
) -> u32
    ensures status { IsCountStatus (handle_writer writer.old) result }
    ensures done { IfSome (handle_writer writer.old) (λ h. published.new ≡ length h.elements) }
    ensures refused { result ≢ 0 → published.new ≡ published.old }
    ensures writer { handle_writer writer.new ≡ handle_writer writer.old }
{
    let Some(held) = writer.take(alloc) else {
        return CallFault::Empty.number();
    };
    *published = held.published();
    writer.put(held);
    0
}

/// Has a reader's handle hold a reader of the writer; the one that it held is freed. 7: the handle holds
/// no writer. 8: handles hold all readers. 20: memory was refused.
#[unsafe(no_mangle)]
pub extern "C" fn tuhvondi_writer_reader(
    alloc: Global,
    writer: &mut WriterHandle,
    reader: &mut ReaderHandle,
) -> u32
    ensures status { IsSeatStatus (handle_writer writer.old) result }
    ensures done { result ≡ 0 → handle_reader reader.new ≡ handle_writer writer.old }
    ensures refused { result ≢ 0 → handle_reader reader.new ≡ handle_reader reader.old }
    ensures writer { handle_writer writer.new ≡ handle_writer writer.old }
{
    status(held::seat(alloc, writer, reader))
}

/// Writes, for each address, the row of the image that is published with the longest prefix that covers
/// it, or kind 3 where none does, and the generation of that image. It takes no memory and waits for
/// nobody. 7: the handle holds no reader. 8: there are not as many answers as addresses. 9: the writer
/// published a thousand times while the call looked for the image. Refused, it writes nothing.
#[unsafe(no_mangle)]
pub extern "C" fn tuhvondi_reader_lookup(
    alloc: Global,
    reader: &mut ReaderHandle,
    addrs: &[u32],
    answers: &mut [Row],
    generation: &mut u64,
) -> u32
    ensures status { IsReadStatus
        (handle_reader reader.old) (length addrs.now) (length answers.old) result }
    ensures kept { is_some (handle_reader reader.new) ≡ is_some (handle_reader reader.old) }
    ensures later { IfSome (handle_reader reader.old)
        (λ h. IfSome (handle_reader reader.new) (λ k. GrowsTo h k)) }
    ensures done { result ≡ 0 → IfSome (handle_reader reader.new)
        (λ h. IfSome (last_image h.elements)
        (λ i. (answers.new ≡ answer_rows i addrs.now) × (generation.new ≡ i.generation))) }
    ensures refused { result ≢ 0
        → (answers.new ≡ answers.old) × (generation.new ≡ generation.old) }
{
    let Some(mut held) = reader.take(alloc) else {
        return CallFault::Empty.number();
    };
    let outcome = read(&mut held, addrs, answers, generation);
    reader.put(held);
    status(outcome)
}

/// Has the reader learn that so many images were published, the first that its writer was made of: it never
/// answers by an older one than the last of these. It takes no memory and waits for nobody. 7: the handle holds
/// no reader. 8: fewer were published. 9: the writer published a thousand times while the call looked.
#[unsafe(no_mangle)]
pub extern "C" fn tuhvondi_reader_learn(
    alloc: Global,
    reader: &mut ReaderHandle,
    published: u64,
) -> u32
    ensures status { IsLearnStatus published (handle_reader reader.new) result }
    ensures kept { is_some (handle_reader reader.new) ≡ is_some (handle_reader reader.old) }
    ensures later { IfSome (handle_reader reader.old)
        (λ h. IfSome (handle_reader reader.new) (λ k. GrowsTo h k)) }
{
    let Some(mut held) = reader.take(alloc) else {
        return CallFault::Empty.number();
    };
    let outcome = held.learn(published);
    reader.put(held);
    status(outcome)
}

/// Frees the writer, if there is one. Its readers go on with the image that was published last.
#[unsafe(no_mangle)]
pub extern "C" fn tuhvondi_writer_free(alloc: Global, writer: &mut WriterHandle)
    ensures { handle_writer writer.new ≡ None }
{
    *writer = WriterHandle::none(alloc);
}

/// Frees the reader, if there is one: another may be made in its place.
#[unsafe(no_mangle)]
pub extern "C" fn tuhvondi_reader_free(alloc: Global, reader: &mut ReaderHandle)
    ensures { handle_reader reader.new ≡ None }
{
    *reader = ReaderHandle::none(alloc);
}
