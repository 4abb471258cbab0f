//! Look-ups of lists of C: by an image, or by a reader.

ghost use Rattle.std.specs.Prelude.{◌≡◌, IfErr, IfSome, OnErr, OnOk, Some, length};
ghost use Rattle.c_interface.specs.Faults.{fault_number};
ghost use Rattle.lookup_calls.specs.{Faults.IsLookupStatus, Histories.last_image, Readers.IsReadStatus, Rows.answer_rows, Rows.answer_words};
ghost use Rattle.receipts.specs.Logs.{GrowsTo};

use crate::kept::Kept;
use crate::reader::ImageReader;
use crate::rows::answer_all;
use c_interface::{CallFault, Row};

/// Writes the row that an image answers for each of the addresses. It takes no memory. It is refused with
/// `BadCount` if there are not as many answers as addresses.
pub fn look_up(image: &Kept, addrs: &[u32], answers: &mut [Row]) -> Result<(), CallFault>
    ensures ok { OnOk result
        (IsLookupStatus (Some image.now) (length addrs.now) (length answers.old) 0) }
    ensures answers { OnOk result (answers.new ≡ answer_rows image.now addrs.now) }
    ensures unchanged { OnErr result (answers.new ≡ answers.old) }
    ensures err { IfErr result (λ f. IsLookupStatus
        (Some image.now) (length addrs.now) (length answers.old) (fault_number f)) }
{
    if addrs.len() != answers.len() {
        return Err(CallFault::BadCount);
    }
    answer_all(image, addrs, answers);
    Ok(())
}

/// As `look_up`, but writes the words of the rows that answer, and nothing else of them.
pub fn look_up_words(image: &Kept, addrs: &[u32], words: &mut [u32]) -> Result<(), CallFault>
    ensures ok { OnOk result
        (IsLookupStatus (Some image.now) (length addrs.now) (length words.old) 0) }
    ensures words { OnOk result (words.new ≡ answer_words image.now addrs.now) }
    ensures unchanged { OnErr result (words.new ≡ words.old) }
    ensures err { IfErr result (λ f. IsLookupStatus
        (Some image.now) (length addrs.now) (length words.old) (fault_number f)) }
{
    if addrs.len() != words.len() {
        return Err(CallFault::BadCount);
    }
    image.lookup_words(addrs, words);
    Ok(())
}

/// Writes the row that the shown image answers for each of the addresses, and the generation of that image. It
/// takes no memory. It is refused with `BadCount` if there are not as many answers as addresses. It is refused
/// with `Shared` if the writer published a thousand times meanwhile.
pub fn read(
    reader: &mut ImageReader,
    addrs: &[u32],
    answers: &mut [Row],
    generation: &mut u64,
) -> Result<(), CallFault>
    ensures later { GrowsTo reader.old reader.new }
    ensures ok { OnOk result
        (IsReadStatus (Some reader.old) (length addrs.now) (length answers.old) 0) }
    ensures answers { OnOk result (IfSome (last_image reader.new.elements)
        (λ i. (answers.new ≡ answer_rows i addrs.now) × (generation.new ≡ i.generation))) }
    ensures unchanged { OnErr result
        ((answers.new ≡ answers.old) × (generation.new ≡ generation.old)) }
    ensures err { IfErr result (λ f. IsReadStatus
        (Some reader.old) (length addrs.now) (length answers.old) (fault_number f)) }
{
    if addrs.len() != answers.len() {
        return Err(CallFault::BadCount);
    }
    if reader.lookup(addrs, answers, generation) {
        Ok(())
    } else {
        Err(CallFault::Shared)
    }
}

/// As `read`, but writes the words of the rows that answer, and nothing else of them.
pub fn read_words(
    reader: &mut ImageReader,
    addrs: &[u32],
    words: &mut [u32],
    generation: &mut u64,
) -> Result<(), CallFault>
    ensures later { GrowsTo reader.old reader.new }
    ensures ok { OnOk result
        (IsReadStatus (Some reader.old) (length addrs.now) (length words.old) 0) }
    ensures words { OnOk result (IfSome (last_image reader.new.elements)
        (λ i. (words.new ≡ answer_words i addrs.now) × (generation.new ≡ i.generation))) }
    ensures unchanged { OnErr result
        ((words.new ≡ words.old) × (generation.new ≡ generation.old)) }
    ensures err { IfErr result (λ f. IsReadStatus
        (Some reader.old) (length addrs.now) (length words.old) (fault_number f)) }
{
    if addrs.len() != words.len() {
        return Err(CallFault::BadCount);
    }
    if reader.lookup_words(addrs, words, generation) {
        Ok(())
    } else {
        Err(CallFault::Shared)
    }
}
