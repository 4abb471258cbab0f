//! Cells, and the numbers by which rows name them.

ghost use Rattle.std.specs.Prelude.{◌≡◌, ◌+◌, ◌^◌, ◌<◌, ◌++◌, IfOk, OnErr, OnOk, length, map};
ghost use Rattle.row_words.specs.Rows.{mark_in, with_slots, slot_entry, slot_of, slot_word};

use network_model::{Entry, NoMemory, Prefix};
use std::alloc::Allocator;

/// What a look-up of words answers if no row covers the address. No row has this word.
pub const NO_WORD: u32 = 0xffff_ffff;

/// An entry, and a word of the caller's own.
#[derive(Clone, Copy)]
pub struct Marked {
    pub entry: Entry,
    pub word: u32,
}

/// What cell 0 has, which is that of no row.
pub(crate) const NO_MARK: Marked = Marked {
    entry: Entry::Unreachable,
    word: NO_WORD,
};

/// The entry by which a row of an image says the number of its cell.
fn slot_entry(slot: usize) -> Entry
    requires { slot < 2 ^ 24 }
    ensures { result ≡ slot_entry slot }
{
    Entry::Via {
        port: (slot / 0x1_0000) as u8,
        session: (slot % 0x1_0000) as u16,
    }
}

/// The number that an entry says.
fn slot_of(entry: Entry) -> usize
    ensures { result ≡ slot_of entry }
{
    match entry {
        Entry::Via { port, session } => usize::from(session) + 0x1_0000 * usize::from(port),
        _ => 0,
    }
}

/// The cell of a row.
pub(crate) fn mark_in(cells: &[Marked], entry: Entry) -> Marked
    ensures { result ≡ mark_in cells.now entry }
{
    match cells.get(slot_of(entry)) {
        Some(&mark) => mark,
        None => NO_MARK,
    }
}

/// The word of the cell that an answer word of the image names.
pub(crate) fn word_in(cells: &[Marked], answer: u32) -> u32
    ensures { result ≡ slot_word cells.now answer }
{
    match cells.get((answer % 0x100_0000) as usize) {
        Some(&mark) => mark.word,
        None => NO_WORD,
    }
}

/// Rows with the numbers of new cells in place of their entries, from a number on.
pub(crate) fn number_rows<A: Allocator>(
    alloc: A,
    from: usize,
    rows: &[(Prefix, Marked)],
) -> Result<Vec<(Prefix, Entry), A>, NoMemory>
    requires { from + length rows.now < 2 ^ 24 }
    ensures { IfOk result (λ v. v.items ≡ with_slots from rows.now) }
{
    let mut slots = Vec::with_capacity(alloc, rows.len())?;
    let mut slot = from;
    for &(prefix, _) in rows {
        slots.push((prefix, slot_entry(slot)))?;
        slot += 1;
    }
    Ok(slots)
}

/// Puts the cells of rows behind the others. A refused call adds none.
pub(crate) fn add_cells<A: Allocator>(
    cells: &mut Vec<Marked, A>,
    rows: &[(Prefix, Marked)],
) -> Result<(), NoMemory>
    ensures ok { OnOk result (cells.new.items ≡ cells.old.items ++ map (λ r. r.1) rows.now) }
    ensures err { OnErr result (cells.new.items ≡ cells.old.items) }
{
    let count = cells.len();
    for &(_, mark) in rows {
        if cells.push(mark).is_err() {
            cells.truncate(count);
            return Err(NoMemory);
        }
    }
    Ok(())
}
