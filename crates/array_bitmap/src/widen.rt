//! Images that are made anew from their rows: with a wider array where the rows have become many, and
//! with a smaller pool where most of its blocks are free.
//!
//! An array that goes by more bits makes look-ups of many rows faster, and takes memory. So a table that
//! starts empty and learns begins with 4 bits, and goes on to 9, 14 and 19. The words of the pool say
//! when to look: there are never more in use. The number of rows then says what to do. So an image that
//! has many words and few rows keeps its bits. Free blocks are never joined, and this takes their place.

ghost use Rattle.std.specs.Prelude.{◌≡◌, ◌≤◌, IfOk};
ghost use Rattle.array_bitmap.specs.Image.{rows_in, IsSoundTree};

use crate::cursor::next_prefix;
use crate::image::Image;
use crate::parts::FirstBits;
use crate::tree::Tree;
use network_model::{NoMemory, Prefix};
use std::alloc::Allocator;
use std::cmp::max;

/// How many words the pool has when an image is first looked at, by the level of its first blocks. In
/// small images a row takes 24 words at most, in large ones some 4 to 8.
const MOST_WORDS: [usize; 4] = [64 * 16, 1024 * 12, 256_000 * 6, 1 << 24];

/// How many words a pool that has some has at least when its image is next looked at: twice as many.
pub(crate) fn most_words(first: u32, words: usize) -> usize
    requires { first ≤ 3 }
{
    max(MOST_WORDS[first as usize], words.saturating_mul(2))
}

/// The least level of first blocks for a pool of so many words.
fn level_for(words: usize) -> u32
    ensures { result ≤ 3 }
{
    if words <= MOST_WORDS[0] {
        0
    } else if words <= MOST_WORDS[1] {
        1
    } else if words <= MOST_WORDS[2] {
        2
    } else {
        3
    }
}

/// A tree, and how many rows it has.
#[derive(Drop)]
struct Counted<A: Allocator> {
    tree: Tree<A>,
    rows: usize,
}

impl<A: Allocator + Copy> Tree<A> {
    /// A tree with the same rows, whose array goes by the first 4, 9, 14 or 19 bits of addresses.
    fn rebuilt(&self, alloc: A, first: u32) -> Result<Counted<A>, NoMemory>
        requires sound { IsSoundTree self.now }
        requires four { first ≤ 3 }
        ensures sound { IfOk result (λ other. IsSoundTree other.tree) }
        ensures rows { IfOk result (λ other. rows_in other.tree ≡ rows_in self.now) }
    {
        let mut tree = Tree::new(alloc, first)?;
        let mut rows = 0usize;
        let mut cursor = Prefix::covering(0, 0);
        while let Some(row) = self.first_row_from(cursor) {
            tree.set_row(row.0, row.1)?;
            rows = rows.saturating_add(1);
            let Some(next) = next_prefix(row.0) else {
                return Ok(Counted { tree, rows });
            };
            cursor = next;
        }
        Ok(Counted { tree, rows })
    }
}

fn image_of<A: Allocator>(tree: Tree<A>, alloc: A, generation: u64) -> Image<A>
    requires { IsSoundTree tree }
    ensures { result ≡ record { generation = generation; rows = rows_in tree } }
{
    Image {
        most_words: most_words(tree.first, tree.pool.word_count()),
        notes: Vec::new(alloc),
        generation,
        tree,
    }
}

/// An image with the same rows and generation, whose array goes by so many bits, in memory of its own.
/// It takes the time of giving all rows and setting them.
pub fn widened<A: Allocator + Copy>(
    image: &Image<A>,
    alloc: A,
    bits: FirstBits,
) -> Result<Image<A>, NoMemory>
    ensures { IfOk result (λ other. other ≡ image.now) }
{
    let other = image.tree.rebuilt(alloc, bits.level())?;
    Ok(image_of(other.tree, alloc, image.generation))
}

/// An image with the same rows and generation, with the array for as many rows as there are, or that of
/// now where it goes by more bits.
fn fitting<A: Allocator + Copy>(image: &Image<A>, alloc: A) -> Result<Image<A>, NoMemory>
    ensures { IfOk result (λ other. other ≡ image.now) }
{
    let first = level_for(image.tree.pool.word_count());
    let other = image.tree.rebuilt(alloc, first)?;
    let right = max(FirstBits::for_rows(other.rows).level(), image.tree.first);
    if first == right {
        return Ok(image_of(other.tree, alloc, image.generation));
    }
    drop(other);
    let other = image.tree.rebuilt(alloc, right)?;
    Ok(image_of(other.tree, alloc, image.generation))
}

/// Makes an image anew from its rows where it has outgrown its array, or where rows that came and went
/// have left many free blocks. The rows stay. Its array goes by as many bits as `FirstBits::for_rows`
/// says for its rows, or by as many as before where those are more.
///
/// Where nothing is to be done, this is one comparison, so you can call it after each patch. It is done
/// where the pool has more than 1,024 words in an image of 4 bits, 12,288 of 9, 1,536,000 of 14 and
/// 16,777,216 of 19, and then where it has twice as many as after the last time. It takes the time of
/// giving all rows and setting them, and memory for both images. Where memory is refused, the image
/// stays as it is until it has twice the words.
pub fn widen<A: Allocator + Copy>(image: &mut Image<A>, alloc: A)
    ensures { image.new ≡ image.old }
{
    let words = image.tree.pool.word_count();
    if words <= image.most_words {
        return;
    }
    match fitting(image, alloc) {
        Ok(other) => *image = other,
        Err(_) => image.most_words = most_words(image.tree.first, words),
    }
}
