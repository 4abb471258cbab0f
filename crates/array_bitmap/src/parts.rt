//! What those need who make images, or change them.

ghost use Rattle.std.specs.Prelude.{◌≡◌, ◌<◌, ◌≤◌, [], None, length, IfOk, OnOk, OnErr, is_some};
ghost use Rattle.std.specs.FinMap.{put, find as row_of};
ghost use Rattle.ipv4_prefix.specs.Prefix.{prefix_cmp};
ghost use Rattle.array_bitmap.specs.Removal.{without_row};
ghost use Rattle.network_model.specs.Publication.{with_rows};

use crate::batch::set_all;
use crate::image::Image;
use crate::tree::Tree;
use crate::widen::most_words;
pub use crate::widen::{widen, widened};
use network_model::{Entry, NoMemory, Prefix};
use std::alloc::Allocator;

/// How many of the first bits of an address an image's array goes by. More make look-ups of many rows
/// faster. An image takes 16 bytes for each number of so many bits, beside those of its rows.
#[derive(Clone, Copy)]
pub enum FirstBits {
    Four,
    Nine,
    Fourteen,
    Nineteen,
}

impl FirstBits {
    /// The bits for a number of rows.
    pub fn for_rows(count: usize) -> FirstBits {
        if count < 64 {
            FirstBits::Four
        } else if count < 1024 {
            FirstBits::Nine
        } else if count < 256_000 {
            FirstBits::Fourteen
        } else {
            FirstBits::Nineteen
        }
    }

    /// The level of the first blocks.
    pub(crate) fn level(self) -> u32
        ensures { result ≤ 3 }
    {
        match self {
            FirstBits::Four => 0,
            FirstBits::Nine => 1,
            FirstBits::Fourteen => 2,
            FirstBits::Nineteen => 3,
        }
    }
}

/// An image with no rows, of generation 0, whose array goes by so many bits.
pub fn with<A: Allocator + Copy>(alloc: A, bits: FirstBits) -> Result<Image<A>, NoMemory>
    ensures { IfOk result (λ image. image ≡ record { generation = 0; rows = [] }) }
{
    Ok(Image {
        tree: Tree::new(alloc, bits.level())?,
        generation: 0,
        notes: Vec::new(alloc),
        most_words: most_words(bits.level(), 0),
    })
}

/// An image with no rows, of generation 0, for few rows.
pub fn empty<A: Allocator + Copy>(alloc: A) -> Result<Image<A>, NoMemory>
    ensures { IfOk result (λ image. image ≡ record { generation = 0; rows = [] }) }
{
    with(alloc, FirstBits::Four)
}

/// An image with the same rows and generation, in memory of its own. It takes time by the words of
/// the image.
pub fn copy<A: Allocator + Copy>(image: &Image<A>, alloc: A) -> Result<Image<A>, NoMemory>
    ensures { IfOk result (λ other. other ≡ image.now) }
{
    Ok(Image {
        tree: image.tree.copy(alloc)?,
        generation: image.generation,
        notes: Vec::new(alloc),
        most_words: image.most_words,
    })
}

/// Sets the row of a prefix. It needs no memory where the prefix has a row. A refused call gives back what
/// it took.
pub fn set_row<A: Allocator>(
    image: &mut Image<A>,
    prefix: Prefix,
    entry: Entry,
) -> Result<(), NoMemory>
    ensures ok { OnOk result (image.new
        ≡ record image.old { rows = put prefix_cmp prefix entry image.old.rows }) }
    ensures err { OnErr result (image.new ≡ image.old) }
    ensures full { OnErr result (row_of prefix_cmp prefix image.old.rows ≡ None) }
{
    image.tree.set_row(prefix, entry)
}

/// Sets rows in order. Where one is refused, those before it are taken back, so a refused call changes
/// nothing. A call with more than one row notes what their prefixes had, in 6 bytes for each row but the
/// last, and gives that memory back. A call with one row takes no longer than `set_row`.
pub fn set_rows<A: Allocator>(
    image: &mut Image<A>,
    rows: &[(Prefix, Entry)],
) -> Result<(), NoMemory>
    ensures ok { OnOk result (image.new
        ≡ record image.old { rows = with_rows rows.now image.old.rows }) }
    ensures err { OnErr result (image.new ≡ image.old) }

    // No rows take no memory.
    ensures full { OnErr result (0 < length rows.now) }
{
    let done = set_all(&mut image.tree, rows, &mut image.notes);
    image.notes.clear();
    image.notes.shrink_to_fit();
    done
}

/// Says which publication the image is.
pub fn set_generation<A: Allocator>(image: &mut Image<A>, generation: u64)
    ensures { image.new ≡ record image.old { generation = generation } }
{
    image.generation = generation;
}

/// Takes the row of a prefix out of an image, and says whether there was one: an address that it
/// answered falls to the next shorter prefix. It needs no memory, and gives back what only that row
/// needed.
pub fn remove_row<A: Allocator>(image: &mut Image<A>, prefix: Prefix) -> bool
    ensures rows { image.new ≡ record image.old { rows = without_row prefix image.old.rows } }
    ensures found { result ≡ is_some (row_of prefix_cmp prefix image.old.rows) }
{
    image.tree.remove_row(prefix)
}
