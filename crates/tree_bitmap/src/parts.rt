//! What those need who make images, or change them.

ghost use Rattle.std.specs.Prelude.{◌≡◌, ◌<◌, [], length, IfOk, OnOk, OnErr};
ghost use Rattle.std.specs.FinMap.{put};
ghost use Rattle.ipv4_prefix.specs.Prefix.{prefix_cmp};
ghost use Rattle.network_model.specs.Publication.{with_rows};

use crate::image::Image;
use crate::tree::Tree;
use network_model::{Entry, NoMemory, Prefix};
use std::alloc::Allocator;

/// An image with no rows, of generation 0.
pub fn empty<A: Allocator + Copy>(alloc: A) -> Result<Image<A>, NoMemory>
    ensures { IfOk result (λ image. image ≡ record { generation = 0; rows = [] }) }
{
    Ok(Image {
        tree: Tree::new(alloc)?,
        generation: 0,
    })
}

/// An image with the same rows and generation, in memory of its own. It takes time by the nodes of
/// the image.
pub fn copy<A: Allocator + Copy>(image: &Image<A>, alloc: A) -> Result<Image<A>, NoMemory>
    ensures { IfOk result (λ other. other ≡ image.now) }
{
    Ok(Image {
        tree: image.tree.copy(alloc)?,
        generation: image.generation,
    })
}

/// Sets the row of a prefix.
pub fn set_row<A: Allocator>(
    image: &mut Image<A>,
    prefix: Prefix,
    entry: Entry,
) -> Result<(), NoMemory>
    ensures ok { OnOk result (image.new
        ≡ record image.old { rows = put prefix_cmp prefix entry image.old.rows }) }
    ensures err { OnErr result (image.new ≡ image.old) }
{
    image.tree.set_row(prefix, entry)
}

/// Sets rows in order. All room is made before the first is set, so a refused call changes nothing.
pub fn set_rows<A: Allocator>(
    image: &mut Image<A>,
    rows: &[(Prefix, Entry)],
) -> Result<(), NoMemory>
    ensures ok { OnOk result (image.new
        ≡ record image.old { rows = with_rows rows.now image.old.rows }) }
    ensures err { OnErr result (image.new ≡ image.old) }

    // No rows take no memory.
    ensures full { OnErr result (0 < length rows.now) }
{
    image.tree.reserve(rows.len())?;
    image.tree.set_rows(rows)
}

/// Says which publication the image is.
pub fn set_generation<A: Allocator>(image: &mut Image<A>, generation: u64)
    ensures { image.new ≡ record image.old { generation = generation } }
{
    image.generation = generation;
}
