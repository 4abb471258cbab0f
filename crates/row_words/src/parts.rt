//! The image of numbers and the cells, changed together.

ghost use Rattle.std.specs.Prelude.{◌≡◌, ◌+◌, ◌^◌, ◌<◌, ◌≤◌, ◌∷◌, [], IfOk, IfSome, OnErr, OnOk, length, map};
ghost use Rattle.std.specs.Option.{option_map};
ghost use Rattle.array_bitmap.specs.Cursor.{first_row_from, IsHeadFrom};
ghost use Rattle.ipv4_prefix.specs.LongestMatch.{longest_match};
ghost use Rattle.row_words.specs.Rows.{mark_in, marked, no_mark, slot_word, with_marked, without_marked, word_or_none, AreKept};

use crate::cells::{Marked, NO_MARK, add_cells, mark_in, number_rows, word_in};
use array_bitmap::parts::{FirstBits, remove_row, set_generation, set_rows, with};
use array_bitmap::{Image, next_prefix};
use network_model::{Entry, NoMemory, Prefix};
use std::alloc::Allocator;
use std::cmp::min;

/// How many cells there may be: their numbers have 24 bits.
pub(crate) const MOST_CELLS: usize = 0x100_0000;

/// How many rows are read at once before their cells are.
const BURST: usize = 32;

/// The cells of no rows, with room for those of so many.
pub(crate) fn first_cells<A: Allocator>(alloc: A, count: usize) -> Result<Vec<Marked, A>, NoMemory>
    requires { count < 2 ^ 24 }
    ensures { IfOk result (λ v. v.items ≡ no_mark ∷ []) }
{
    let mut cells = Vec::with_capacity(alloc, count + 1)?;
    cells.push(NO_MARK)?;
    Ok(cells)
}

/// Sets rows in order. A refused call changes nothing. It is refused for want of memory, or of numbers for
/// their cells.
pub(crate) fn set_parts<A: Allocator + Copy>(
    image: &mut Image<A>,
    cells: &mut Vec<Marked, A>,
    alloc: A,
    rows: &[(Prefix, Marked)],
) -> Result<(), NoMemory>
    requires { AreKept image.old.rows cells.old.items }
    ensures kept { AreKept image.new.rows cells.new.items }
    ensures ok { OnOk result (marked cells.new.items image.new.rows
        ≡ with_marked rows.now (marked cells.old.items image.old.rows)) }
    ensures generation { image.new.generation ≡ image.old.generation }
    ensures image { OnErr result (image.new ≡ image.old) }
    ensures cells { OnErr result (cells.new.items ≡ cells.old.items) }
{
    let count = cells.len();
    if rows.len() >= MOST_CELLS - count {
        return Err(NoMemory);
    }
    let slots = number_rows(alloc, count, rows)?;
    add_cells(cells, rows)?;
    if let Err(error) = set_rows(image, &slots) {
        cells.truncate(count);
        return Err(error);
    }
    Ok(())
}

/// Takes the row of a prefix out, and says whether there was one.
pub(crate) fn remove_part<A: Allocator>(
    image: &mut Image<A>,
    cells: &[Marked],
    prefix: Prefix,
) -> bool
    requires { AreKept image.old.rows cells.now }
    ensures kept { AreKept image.new.rows cells.now }
    ensures rows { marked cells.now image.new.rows
        ≡ without_marked prefix (marked cells.now image.old.rows) }
    ensures generation { image.new.generation ≡ image.old.generation }
{
    remove_row(image, prefix)
}

/// All rows, in order.
fn list_rows<A: Allocator>(
    image: &Image<A>,
    cells: &[Marked],
    alloc: A,
) -> Result<Vec<(Prefix, Marked), A>, NoMemory>
    ensures { IfOk result (λ v. v.items ≡ marked cells.now image.now.rows) }
{
    let mut rows = Vec::with_capacity(alloc, image.row_count())?;
    let first = Prefix::covering(0, 0);
    let mut cursor = Some(first);
    while let Some(at) = cursor {
        let Some(row) = image.first_row_from(at) else {
            return Ok(rows);
        };
        rows.push((row.0, mark_in(cells, row.1)))?;
        cursor = next_prefix(row.0);
    }
    Ok(rows)
}

/// An image of numbers, and the cells that they name.
#[derive(Drop)]
pub(crate) struct Parts<A: Allocator> {
    pub(crate) image: Image<A>,
    pub(crate) cells: Vec<Marked, A>,
}

/// The same rows and generation, with a cell for each row alone, and with the array for as many rows.
#[tactic(auto, using(crate::proofs::Marks::marked_sorted, crate::proofs::Marks::kept_first))]
pub(crate) fn anew<A: Allocator + Copy>(
    image: &Image<A>,
    cells: &[Marked],
    alloc: A,
) -> Result<Parts<A>, NoMemory>
    requires { AreKept image.now.rows cells.now }
    ensures kept { IfOk result (λ p. AreKept p.image.rows p.cells.items) }
    ensures rows { IfOk result (λ p. marked p.cells.items p.image.rows
        ≡ marked cells.now image.now.rows) }
    ensures generation { IfOk result (λ p. p.image.generation ≡ image.now.generation) }
{
    let rows = list_rows(image, cells, alloc)?;
    if rows.len() >= MOST_CELLS {
        return Err(NoMemory);
    }
    let mut image_anew = with(alloc, FirstBits::for_rows(rows.len()))?;
    let mut cells_anew = first_cells(alloc, rows.len())?;
    set_parts(&mut image_anew, &mut cells_anew, alloc, &rows)?;
    set_generation(&mut image_anew, image.generation());
    Ok(Parts {
        image: image_anew,
        cells: cells_anew,
    })
}

/// The row for which a row of the image stands.
fn mark_row(cells: &[Marked], found: Option<(Prefix, Entry)>) -> Option<(Prefix, Marked)>
    ensures { result ≡ option_map (λ r. (r.0, mark_in cells.now r.1)) found }
{
    match found {
        Some((prefix, entry)) => Some((prefix, mark_in(cells, entry))),
        None => None,
    }
}

/// Answers an address by its row.
pub(crate) fn answer_row<A: Allocator>(
    image: &Image<A>,
    cells: &[Marked],
    addr: u32,
) -> Option<(Prefix, Marked)>
    ensures { result ≡ longest_match addr (marked cells.now image.now.rows) }
{
    mark_row(cells, image.lookup(addr))
}

/// The rows for which rows of the image stand.
fn mark_rows(
    cells: &[Marked],
    found: &[Option<(Prefix, Entry)>],
    answers: &mut [Option<(Prefix, Marked)>],
)
    requires { length answers.old ≡ length found.now }
    ensures { answers.new
        ≡ map (option_map (λ r. (r.0, mark_in cells.now r.1))) found.now }
{
    for k in 0..found.len() {
        answers[k] = mark_row(cells, found[k]);
    }
}

/// Answers at most 32 addresses by their rows.
fn burst_rows<A: Allocator>(
    image: &Image<A>,
    cells: &[Marked],
    addrs: &[u32],
    answers: &mut [Option<(Prefix, Marked)>],
)
    requires few { length addrs.now ≤ 32 }
    requires one_each { length answers.old ≡ length addrs.now }
    ensures { answers.new
        ≡ map (λ addr. longest_match addr (marked cells.now image.now.rows)) addrs.now }
{
    let mut room = [None; BURST];
    let found = &mut room[..addrs.len()];
    image.lookup_all(addrs, found);
    mark_rows(cells, found, answers);
}

/// Answers addresses by their rows.
pub(crate) fn answer_rows<A: Allocator>(
    image: &Image<A>,
    cells: &[Marked],
    addrs: &[u32],
    answers: &mut [Option<(Prefix, Marked)>],
)
    requires { length answers.old ≡ length addrs.now }
    ensures { answers.new
        ≡ map (λ addr. longest_match addr (marked cells.now image.now.rows)) addrs.now }
{
    let mut done = 0;
    while done < addrs.len() {
        let end = min(done + BURST, addrs.len());
        burst_rows(image, cells, &addrs[done..end], &mut answers[done..end]);
        done = end;
    }
}

/// The first row at a prefix or after it.
pub(crate) fn first_row<A: Allocator>(
    image: &Image<A>,
    cells: &[Marked],
    at: Prefix,
) -> Option<(Prefix, Marked)>
    ensures first { result ≡ first_row_from at (marked cells.now image.now.rows) }
    ensures head { IfSome result (IsHeadFrom at (marked cells.now image.now.rows)) }
{
    mark_row(cells, image.first_row_from(at))
}

/// Answers an address by the word of its row.
pub(crate) fn answer_word<A: Allocator>(image: &Image<A>, cells: &[Marked], addr: u32) -> u32
    requires { AreKept image.now.rows cells.now }
    ensures { result ≡ word_or_none (longest_match addr (marked cells.now image.now.rows)) }
{
    word_in(cells, image.lookup_word(addr))
}

/// Puts the words of the cells in place of the answer words that name them.
fn read_words(cells: &[Marked], words: &mut [u32])
    ensures { words.new ≡ map (slot_word cells.now) words.old }
{
    for k in 0..words.len() {
        words[k] = word_in(cells, words[k]);
    }
}

/// Answers addresses by the words of their rows.
pub(crate) fn answer_words<A: Allocator>(
    image: &Image<A>,
    cells: &[Marked],
    addrs: &[u32],
    words: &mut [u32],
)
    requires kept { AreKept image.now.rows cells.now }
    requires one_each { length words.old ≡ length addrs.now }
    ensures { words.new
        ≡ map (λ addr. word_or_none (longest_match addr (marked cells.now image.now.rows))) addrs.now }
{
    image.lookup_words(addrs, words);
    read_words(cells, words);
}
