//! What images with words need of memory.

use crate::equal_to::{equal, holds};
use crate::refusals::{ROOM, ballast};
use linked_list_allocator::LocalHeap as Heap;
use network_model::{Entry, Prefix};
use row_words::{Marked, NO_WORD, WordImage};
use std::alloc::Global;
use std::process::Abort;

// Two prefixes of an address, the second in the first.
fn one() -> Prefix {
    Prefix::covering(0x0a0f_0f0f, 8)
}

fn two() -> Prefix {
    Prefix::covering(0x0a0f_0f0f, 28)
}

fn marked(word: u32) -> Marked {
    Marked {
        entry: Entry::Local,
        word,
    }
}

// A row that is set again many times takes no more memory than at first.
#[test]
fn cells_of_rows_that_are_set_again_are_given_back(rt: HostRuntime) {
    let alloc = rt.alloc();
    let mut image = WordImage::new(alloc, 0).expect(&rt, "memory");
    for word in 0..5000 {
        image
            .set_rows(alloc, &[(one(), marked(word))])
            .expect(&rt, "memory");
    }
    equal(&rt, image.lookup_word(0x0a0f_0f0f), 4999);
    holds(&rt, image.bytes() < 64 * 1024);
}

// Whether two rows are refused with so many bytes left.
fn are_refused<'h>(
    rt: &impl Abort,
    heap: &'h Heap,
    left: usize,
    image: &mut WordImage<&'h Heap>,
) -> bool {
    let rows = [(one(), marked(11)), (two(), marked(12))];
    let _weight = ballast(rt, heap, left);
    image.set_rows(heap, &rows).is_err()
}

// The image has so many rows, and this word for an address that both cover.
fn has(rt: &impl Abort, image: &WordImage<&Heap>, rows: usize, word: u32) {
    equal(rt, image.row_count(), rows);
    equal(rt, image.lookup_word(0x0a0f_0f0f), word);
}

// Two rows are set in an image without any, over a heap with so many bytes left.
pub(crate) fn set_words(rt: &impl Abort, heap: &Heap, left: usize) -> bool {
    let mut image = WordImage::new(heap, 0).expect(rt, "room");
    let is_refused = are_refused(rt, heap, left, &mut image);
    if is_refused {
        has(rt, &image, 0, NO_WORD);
        holds(rt, !are_refused(rt, heap, ROOM, &mut image));
    }
    has(rt, &image, 2, 12);
    is_refused
}
