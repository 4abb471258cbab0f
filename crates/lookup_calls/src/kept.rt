//! An image as handles and writers keep it: with words, or without.
//!
//! Most tables have no words. So an image begins without any, as one of `array_bitmap`, and takes no memory for
//! them. When a call first gives it rows with words, it is made anew as one of `row_words`, from all its rows.

ghost use Rattle.std.specs.Prelude.{◌≡◌, ◌≤◌, ◌∷◌, [], IfOk, IfSome, OnErr, OnOk, length, true};
ghost use Rattle.std.specs.{FinMap.is_sorted, Option.option_map};
ghost use Rattle.array_bitmap.specs.Cursor.{first_row_from, IsHeadFrom};
ghost use Rattle.ipv4_prefix.specs.Prefix.{prefix_cmp};
ghost use Rattle.c_interface.specs.Rows.{answer_row};
ghost use Rattle.row_words.specs.Rows.{with_marked, without_marked};
ghost use Rattle.lookup_calls.specs.{Rows.answer_rows, Rows.answer_words, Rows.entry_answer, Tables.wordless, Tables.wordless_rows, Tables.wordless_table};

use crate::rows::{answer, answer_burst, answer_marked, answer_marked_burst};
use array_bitmap::parts::{
    FirstBits, copy, remove_row, set_generation, set_row, set_rows, widen, with,
};
use array_bitmap::{Image, next_prefix};
use c_interface::Row;
use network_model::{Entry, NoMemory, Prefix};
use row_words::{Marked, NO_WORD, WordImage};
use std::alloc::Global;
use std::marker::Model;

// An image of rows without words, or one of rows with a word each.
#[derive(Drop)]
enum Form {
    Plain(Image),
    Words(WordImage),
}

/// Rows with their words, for looking up addresses.
#[derive(Drop)]
pub struct Kept {
    form: Form,
}

impl Model for Kept {
    ghost use Rattle.row_words.specs.Rows.{WordTable};
    ghost use Rattle.lookup_calls.specs.Kept.{form_table, IsInOrder};

    ghost Value = { WordTable };

    ghost view = { λ k. form_table k.form };

    ghost invariant = { λ k. IsInOrder k.form };
}

/// An entry without a word of its own.
fn wordless(entry: Entry) -> Marked
    ensures { result ≡ wordless entry }
{
    Marked {
        entry,
        word: NO_WORD,
    }
}

/// A row without a word of its own, if there is one.
fn wordless_row(found: Option<(Prefix, Entry)>) -> Option<(Prefix, Marked)>
    ensures { result ≡ option_map (λ r. (r.0, wordless r.1)) found }
{
    match found {
        Some((prefix, entry)) => Some((prefix, wordless(entry))),
        None => None,
    }
}

// An image with words, of the rows of one without, and with room for so many more.
fn make_words(image: &Image, alloc: Global, more: usize) -> Result<WordImage, NoMemory>
    requires { is_sorted prefix_cmp image.now.rows ≡ true }
    ensures { IfOk result (λ w. w ≡ wordless_table image.now) }
{
    let mut words = WordImage::new(alloc, image.row_count().saturating_add(more))?;
    words.set_generation(image.generation());
    let first = Prefix::covering(0, 0);
    let mut cursor = Some(first);
    while let Some(at) = cursor {
        let Some(row) = image.first_row_from(at) else {
            return Ok(words);
        };
        words.set_rows(alloc, &[(row.0, wordless(row.1))])?;
        cursor = next_prefix(row.0);
    }
    Ok(words)
}

// Sets rows without words in an image that has words.
fn set_wordless(
    image: &mut WordImage,
    alloc: Global,
    rows: &[(Prefix, Entry)],
) -> Result<(), NoMemory>
    ensures ok { OnOk result (image.new
        ≡ record image.old { rows = with_marked (wordless_rows rows.now) image.old.rows }) }
    ensures unchanged { OnErr result (image.new ≡ image.old) }
{
    let mut marked = Vec::with_capacity(alloc, rows.len())?;
    for &(prefix, entry) in rows {
        marked.push((prefix, wordless(entry)))?;
    }
    image.set_rows(alloc, &marked)
}

impl Kept {
    /// An image with no rows, of generation 0, for so many rows without words.
    pub fn plain(alloc: Global, count: usize) -> Result<Kept, NoMemory>
        ensures { IfOk result (λ k. k ≡ record { generation = 0; rows = [] }) }
    {
        let image = with(alloc, FirstBits::for_rows(count))?;
        Ok(Kept {
            form: Form::Plain(image),
        })
    }

    /// An image with no rows, of generation 0, for so many rows with words.
    pub fn with_words(alloc: Global, count: usize) -> Result<Kept, NoMemory>
        ensures { IfOk result (λ k. k ≡ record { generation = 0; rows = [] }) }
    {
        let image = WordImage::new(alloc, count)?;
        Ok(Kept {
            form: Form::Words(image),
        })
    }

    /// An image with the same rows and generation, in memory of its own.
    pub fn copy(&self, alloc: Global) -> Result<Kept, NoMemory>
        ensures { IfOk result (λ k. k ≡ self.now) }
    {
        match &self.form {
            Form::Plain(image) => {
                let image = copy(image, alloc)?;
                Ok(Kept {
                    form: Form::Plain(image),
                })
            }
            Form::Words(image) => {
                let image = image.copy(alloc)?;
                Ok(Kept {
                    form: Form::Words(image),
                })
            }
        }
    }

    /// Which publication of its router the image is; 0 before the first.
    pub fn generation(&self) -> u64
        ensures { result ≡ (self.now).generation }
    {
        match &self.form {
            Form::Plain(image) => image.generation(),
            Form::Words(image) => image.generation(),
        }
    }

    /// Says which publication the image is.
    pub fn set_generation(&mut self, generation: u64)
        ensures { self.new ≡ record self.old { generation = generation } }
    {
        match &mut self.form {
            Form::Plain(image) => set_generation(image, generation),
            Form::Words(image) => image.set_generation(generation),
        }
    }

    /// Sets a row without a word. A refused call changes nothing.
    pub fn set_entry(&mut self, alloc: Global, prefix: Prefix, entry: Entry) -> Result<(), NoMemory>
        ensures ok { OnOk result (self.new ≡ record self.old {
          rows = with_marked ((prefix, wordless entry) ∷ []) self.old.rows;
        }) }
        ensures unchanged { OnErr result (self.new ≡ self.old) }
    {
        match &mut self.form {
            Form::Plain(image) => set_row(image, prefix, entry),
            Form::Words(image) => image.set_rows(alloc, &[(prefix, wordless(entry))]),
        }
    }

    /// Sets rows without words, in order. A refused call changes nothing.
    pub fn set_entries(&mut self, alloc: Global, rows: &[(Prefix, Entry)]) -> Result<(), NoMemory>
        ensures ok { OnOk result (self.new ≡ record self.old {
          rows = with_marked (wordless_rows rows.now) self.old.rows;
        }) }
        ensures unchanged { OnErr result (self.new ≡ self.old) }
    {
        match &mut self.form {
            Form::Plain(image) => set_rows(image, rows),
            Form::Words(image) => set_wordless(image, alloc, rows),
        }
    }

    // An image with words and the same rows, in memory of its own, with room for so many more.
    fn worded(&self, alloc: Global, more: usize) -> Result<WordImage, NoMemory>
        ensures { IfOk result (λ w. w ≡ self.now) }
    {
        match &self.form {
            Form::Plain(image) => make_words(image, alloc, more),
            Form::Words(image) => image.copy(alloc),
        }
    }

    // Has words from now on, and sets rows with words, in order.
    fn begin_words(&mut self, alloc: Global, rows: &[(Prefix, Marked)]) -> Result<(), NoMemory>
        ensures ok { OnOk result (self.new
            ≡ record self.old { rows = with_marked rows.now self.old.rows }) }
        ensures unchanged { OnErr result (self.new ≡ self.old) }
    {
        let mut image = self.worded(alloc, rows.len())?;
        image.set_rows(alloc, rows)?;
        *self = Kept {
            form: Form::Words(image),
        };
        Ok(())
    }

    /// Sets rows with words, in order. A refused call changes nothing. Where it is the first with rows, it
    /// takes the time of giving all rows and setting them, and memory for both images.
    pub fn set_marked(&mut self, alloc: Global, rows: &[(Prefix, Marked)]) -> Result<(), NoMemory>
        ensures ok { OnOk result (self.new
            ≡ record self.old { rows = with_marked rows.now self.old.rows }) }
        ensures unchanged { OnErr result (self.new ≡ self.old) }
    {
        if rows.is_empty() {
            return Ok(());
        }
        if let Form::Words(image) = &mut self.form {
            return image.set_rows(alloc, rows);
        }
        self.begin_words(alloc, rows)
    }

    /// Takes the row of a prefix out, if it has one. It takes no memory.
    pub fn remove_row(&mut self, prefix: Prefix)
        ensures { self.new ≡ record self.old { rows = without_marked prefix self.old.rows } }
    {
        match &mut self.form {
            Form::Plain(image) => {
                let _ = remove_row(image, prefix);
            }
            Form::Words(image) => image.remove_row(prefix),
        }
    }

    /// Makes an image anew that has outgrown its array. Where memory is refused, it stays. An image with
    /// words sees to that as rows are set.
    pub fn widen(&mut self, alloc: Global)
        ensures { self.new ≡ self.old }
    {
        if let Form::Plain(image) = &mut self.form {
            widen(image, alloc);
        }
    }

    /// The first row at a prefix or after it; None if there is none.
    pub fn first_row_from(&self, at: Prefix) -> Option<(Prefix, Marked)>
        ensures first { result ≡ first_row_from at (self.now).rows }
        ensures head { IfSome result (IsHeadFrom at (self.now).rows) }
    {
        match &self.form {
            Form::Plain(image) => wordless_row(image.first_row_from(at)),
            Form::Words(image) => image.first_row_from(at),
        }
    }

    /// How many rows there are. It takes the time of giving all rows.
    pub fn row_count(&self) -> usize
        ensures { result ≡ length (self.now).rows }
    {
        match &self.form {
            Form::Plain(image) => image.row_count(),
            Form::Words(image) => image.row_count(),
        }
    }

    /// The bytes that the image takes, with the room for more rows.
    pub fn bytes(&self) -> usize {
        match &self.form {
            Form::Plain(image) => image.bytes(),
            Form::Words(image) => image.bytes(),
        }
    }

    /// The row that the image answers for an address.
    pub fn answer(&self, addr: u32) -> Row
        ensures { result ≡ answer_row (entry_answer self.now addr) }
    {
        match &self.form {
            Form::Plain(image) => answer(image, addr),
            Form::Words(image) => answer_marked(image, addr),
        }
    }

    /// Writes the rows that the image answers for at most 32 addresses.
    pub fn answer_burst(&self, addrs: &[u32], answers: &mut [Row])
        requires few { length addrs.now ≤ 32 }
        requires one_each { length answers.old ≡ length addrs.now }
        ensures { answers.new ≡ answer_rows self.now addrs.now }
    {
        match &self.form {
            Form::Plain(image) => answer_burst(image, addrs, answers),
            Form::Words(image) => answer_marked_burst(image, addrs, answers),
        }
    }

    /// Writes the words that the image answers for addresses. It takes no memory.
    pub fn lookup_words(&self, addrs: &[u32], words: &mut [u32])
        requires { length words.old ≡ length addrs.now }
        ensures { words.new ≡ answer_words self.now addrs.now }
    {
        match &self.form {
            Form::Plain(_) => words.fill(NO_WORD),
            Form::Words(image) => image.lookup_words(addrs, words),
        }
    }
}
