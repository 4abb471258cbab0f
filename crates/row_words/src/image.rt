//! Images with words.

ghost use Rattle.std.specs.Prelude.{◌≡◌, ◌<◌, [], IfOk, IfSome, OnErr, OnOk, length, map};
ghost use Rattle.array_bitmap.specs.Cursor.{first_row_from, IsHeadFrom};
ghost use Rattle.row_words.specs.Rows.{marked, marked_answer, with_marked, without_marked, caller_word, AreKept};

use crate::cells::Marked;
use crate::parts::{
    MOST_CELLS, Parts, anew, answer_row, answer_rows, answer_word, answer_words, first_cells,
    first_row, remove_part, set_parts,
};
use array_bitmap::Image;
use array_bitmap::parts::{FirstBits, copy, set_generation, with};
use network_model::{NoMemory, Prefix};
use std::alloc::{Allocator, Global};
use std::cmp::{max, min};
use std::marker::Model;
use std::mem::size_of;

/// The fewest cells with which an image is made anew.
const FEW_CELLS: usize = 1024;

/// Rows with a word of the caller's own beside their entries, for looking up addresses. It has at most
/// 2^24 - 2 rows.
#[derive(Drop)]
pub struct WordImage<A: Allocator = Global> {
    // Its entries say the numbers of cells.
    image: Image<A>,
    cells: Vec<Marked, A>,

    // With more cells than so many the image is made anew.
    most_cells: usize,
}

impl<A: Allocator> Model for WordImage<A> {
    ghost use Rattle.row_words.specs.Rows.{WordTable, marked, AreKept};

    ghost Value = { WordTable };

    ghost view = { λ w. record { generation = w.image.generation; rows = marked w.cells.items w.image.rows } };

    ghost invariant = { λ w. AreKept w.image.rows w.cells.items };
}

impl<A: Allocator + Copy> WordImage<A> {
    /// An image with no rows, of generation 0, with an array for so many rows and room for their cells. A
    /// count above 2^24 - 1 counts as that.
    pub fn new(alloc: A, count: usize) -> Result<Self, NoMemory>
        ensures { IfOk result (λ w. w ≡ record { generation = 0; rows = [] }) }
    {
        let count = min(count, MOST_CELLS - 1);
        Ok(WordImage {
            image: with(alloc, FirstBits::for_rows(count))?,
            cells: first_cells(alloc, count)?,
            most_cells: max(FEW_CELLS, 2 * count),
        })
    }

    /// An image with the same rows and generation, in memory of its own.
    pub fn copy(&self, alloc: A) -> Result<Self, NoMemory>
        ensures { IfOk result (λ w. w ≡ self.now) }
    {
        Ok(WordImage {
            image: copy(&self.image, alloc)?,
            cells: Vec::from_slice(alloc, &self.cells)?,
            most_cells: self.most_cells,
        })
    }

    // Makes the image anew if its cells are many, or if there are no numbers for so many more. The rows stay.
    // If memory is refused, it is tried again when there are twice as many cells.
    fn make_room(&mut self, alloc: A, count: usize)
        ensures { self.new ≡ self.old }
    {
        let used = self.cells.len();
        if used <= self.most_cells && count < MOST_CELLS - used {
            return;
        }
        match anew(&self.image, &self.cells, alloc) {
            Ok(parts) => *self = whole(parts),
            Err(_) => self.most_cells = used.saturating_mul(2),
        }
    }

    /// Sets rows in order. If several have one prefix, the last stays. A refused call changes nothing. It is
    /// refused for want of memory, or if the image would need 2^24 cells: one for each of these rows, and one
    /// for each that it has.
    pub fn set_rows(&mut self, alloc: A, rows: &[(Prefix, Marked)]) -> Result<(), NoMemory>
        ensures ok { OnOk result (self.new
            ≡ record self.old { rows = with_marked rows.now self.old.rows }) }
        ensures err { OnErr result (self.new ≡ self.old) }
    {
        self.make_room(alloc, rows.len());
        self.set_now(alloc, rows)
    }

    fn set_now(&mut self, alloc: A, rows: &[(Prefix, Marked)]) -> Result<(), NoMemory>
        ensures ok { OnOk result (self.new
            ≡ record self.old { rows = with_marked rows.now self.old.rows }) }
        ensures err { OnErr result (self.new ≡ self.old) }
    {
        set_parts(&mut self.image, &mut self.cells, alloc, rows)
    }
}

fn whole<A: Allocator>(parts: Parts<A>) -> WordImage<A>
    requires { AreKept parts.image.rows parts.cells.items }
    ensures { result ≡ record {
      generation = parts.image.generation;
      rows = marked parts.cells.items parts.image.rows;
    } }
{
    let Parts { image, cells } = parts;
    WordImage {
        most_cells: max(FEW_CELLS, cells.len().saturating_mul(2)),
        image,
        cells,
    }
}

impl<A: Allocator> WordImage<A> {
    /// The number that `set_generation` gave; 0 at first.
    pub fn generation(&self) -> u64
        ensures { result ≡ (self.now).generation }
    {
        self.image.generation()
    }

    /// Gives the image another generation. Its rows and words stay.
    pub fn set_generation(&mut self, generation: u64)
        ensures { self.new ≡ record self.old { generation = generation } }
    {
        set_generation(&mut self.image, generation);
    }

    /// Takes the row of a prefix out, if it has one. An address that it answered falls to the next shorter
    /// prefix. It takes no memory.
    pub fn remove_row(&mut self, prefix: Prefix)
        ensures { self.new ≡ record self.old { rows = without_marked prefix self.old.rows } }
    {
        remove_part(&mut self.image, &self.cells, prefix);
    }

    /// Of the rows whose prefix covers the address, the one with the longest prefix, with its word; None if
    /// no row covers it.
    pub fn lookup(&self, addr: u32) -> Option<(Prefix, Marked)>
        ensures { result ≡ marked_answer self.now addr }
    {
        answer_row(&self.image, &self.cells, addr)
    }

    /// As `lookup` for each of the addresses, which go down side by side, 32 at a time. It takes no memory.
    pub fn lookup_all(&self, addrs: &[u32], answers: &mut [Option<(Prefix, Marked)>])
        requires { length answers.old ≡ length addrs.now }
        ensures { answers.new ≡ map (marked_answer self.now) addrs.now }
    {
        answer_rows(&self.image, &self.cells, addrs, answers);
    }

    /// The word of what `lookup` answers; [`crate::NO_WORD`] if no row covers the address.
    pub fn lookup_word(&self, addr: u32) -> u32
        ensures { result ≡ caller_word self.now addr }
    {
        answer_word(&self.image, &self.cells, addr)
    }

    /// As `lookup_word` for each of the addresses, which go down side by side, 32 at a time. It takes no
    /// memory.
    pub fn lookup_words(&self, addrs: &[u32], words: &mut [u32])
        requires { length words.old ≡ length addrs.now }
        ensures { words.new ≡ map (caller_word self.now) addrs.now }
    {
        answer_words(&self.image, &self.cells, addrs, words);
    }

    /// The first row at a prefix or after it, in the order of prefixes, by address and then by length; None
    /// if there is none.
    pub fn first_row_from(&self, at: Prefix) -> Option<(Prefix, Marked)>
        ensures first { result ≡ first_row_from at (self.now).rows }
        ensures head { IfSome result (IsHeadFrom at (self.now).rows) }
    {
        first_row(&self.image, &self.cells, at)
    }

    /// How many rows there are. It takes the time of giving all rows.
    pub fn row_count(&self) -> usize
        ensures { result ≡ length (self.now).rows }
    {
        self.image.row_count()
    }

    /// The bytes that the image takes, with the room for more rows.
    pub fn bytes(&self) -> usize {
        self.image
            .bytes()
            .saturating_add(self.cells.capacity().saturating_mul(size_of::<Marked>()))
    }
}
