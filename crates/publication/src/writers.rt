//! The writers of all routers of a fabric.

ghost use Rattle.std.specs.Prelude.{◌≡◌, ◌≤◌, ◌^◌, All, map, IfOk, vec_len};
ghost use Rattle.publication.specs.Lists.{EachAt, new_writing, no_patches};

use crate::name::{FabricName, Unnamed};
use crate::reader::ImageReader;
use crate::writer::{ImageWriter, OpenFault, open};
use std::alloc::Allocator;
use std::sync::Wait;
use tree_bitmap::Image;

/// A writer for each router of a fabric, by their numbers, and so many readers of each. The images
/// are the routers' opening tables, with generation 0.
pub fn open_all<B: FabricName, A: Allocator + Copy, R: Wait>(
    rt: &R,
    alloc: A,
    unnamed: Vec<Unnamed, A>,
    images: Vec<Image<A>, A>,
    readers: u8,
) -> Result<(Vec<ImageWriter<B, A>, A>, Vec<Vec<ImageReader<B, A>, A>, A>), OpenFault>
    requires name { unnamed.items ≡ B.books }
    requires rows { map (λ i. i.rows) images.items ≡ B.openings }
    requires generation { All (λ i. i.generation ≡ 0) images.items }
    requires each { vec_len unnamed ≡ vec_len images }
    requires few { vec_len images ≤ 2 ^ 16 }
    ensures count { IfOk result (λ o. (vec_len o.0 ≡ vec_len images)
        × (vec_len o.1 ≡ vec_len images)) }
    ensures writers { IfOk result (λ o. EachAt (λ router w. w ≡ new_writing router) o.0.items) }
    ensures readers { IfOk result (λ o. EachAt
        (λ router rs. (vec_len rs ≡ readers)
        × All (λ r. r ≡ no_patches router) rs.items) o.1.items) }
{
    let Ok(mut lists) = Vec::with_capacity(alloc, images.len()) else {
        return Err(OpenFault::NoMemory);
    };
    let Ok(mut writers) = Vec::with_capacity(alloc, images.len()) else {
        return Err(OpenFault::NoMemory);
    };
    let mut unnamed = unnamed.into_iter();
    let mut router: usize = 0;
    for image in images {
        let Some(part) = unnamed.next() else {
            unreachable!()
        };
        match open::<B, A, R>(rt, alloc, part, router as u16, image, readers) {
            Ok((writer, list)) => {
                writers.push_reserved(writer);
                lists.push_reserved(list);
            }
            Err(fault) => {
                close_all(rt, writers);
                return Err(fault);
            }
        }
        router += 1;
    }
    Ok((writers, lists))
}

/// Ends writers. It waits for readers that are looking up.
pub fn close_all<B: FabricName, A: Allocator, R: Wait>(rt: &R, writers: Vec<ImageWriter<B, A>, A>) {
    let mut writers = writers;
    while let Some(writer) = writers.pop() {
        writer.close(rt);
    }
    writers.into_iter().destroy_empty();
}
