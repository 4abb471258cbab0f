//! Images of an array and blocks, for each width of the array. A scan over a plain list of the rows says
//! what they have to answer.

use crate::equal_to::{equal, holds};
use crate::images::NESTED;
use crate::refusals::{ROOM, ballast};
use crate::values::{prefix, via};
use array_bitmap::parts::{
    FirstBits, copy, empty, remove_row, set_row, set_rows, widen, widened, with,
};
use array_bitmap::{Entry, Image, Prefix, next_prefix};
use linked_list_allocator::LocalHeap as Heap;
use std::alloc::{Allocator, Global};
use std::process::Abort;

const WIDTHS: [FirstBits; 4] = [
    FirstBits::Four,
    FirstBits::Nine,
    FirstBits::Fourteen,
    FirstBits::Nineteen,
];

// An image, and the list of its rows.
#[derive(Drop)]
struct Both {
    image: Image,
    rows: Vec<(Prefix, Entry)>,
}

// The number of a prefix in the order by address and then by length.
fn number(prefix: Prefix) -> u64 {
    (u64::from(prefix.addr()) << 6) + u64::from(prefix.len())
}

// Whether a row has a longer prefix than the one that was found, if there is one.
fn is_longer(row: &(Prefix, Entry), found: &Option<(Prefix, Entry)>) -> bool {
    match found {
        Some(found) => found.0.len() < row.0.len(),
        None => true,
    }
}

// Whether a row comes before the one that was found, if there is one.
fn is_earlier(row: &(Prefix, Entry), found: &Option<(Prefix, Entry)>) -> bool {
    match found {
        Some(found) => number(row.0) < number(found.0),
        None => true,
    }
}

impl Both {
    fn new(rt: &impl Abort, alloc: Global, bits: FirstBits) -> Both {
        Both {
            image: with(alloc, bits).expect(rt, "memory"),
            rows: Vec::new(alloc),
        }
    }

    fn set(&mut self, rt: &impl Abort, prefix: Prefix, entry: Entry) {
        set_row(&mut self.image, prefix, entry).expect(rt, "memory");
        self.forget(prefix);
        self.rows.push((prefix, entry)).expect(rt, "memory");
    }

    fn remove(&mut self, rt: &impl Abort, prefix: Prefix) {
        let found = self.forget(prefix);
        equal(rt, remove_row(&mut self.image, prefix), found);
    }

    // Takes the row of a prefix out of the list, and tells whether there was one.
    fn forget(&mut self, prefix: Prefix) -> bool {
        let before = self.rows.len();
        self.rows.retain(|row| row.0 != prefix);
        self.rows.len() < before
    }

    // The row with the longest prefix that covers an address, by a scan.
    fn scan(&self, addr: u32) -> Option<(Prefix, Entry)> {
        let mut best = None;
        for &row in &self.rows {
            if row.0.covers(addr) && is_longer(&row, &best) {
                best = Some(row);
            }
        }
        best
    }

    // The first row at a prefix or after it, by a scan.
    fn first_from(&self, at: Prefix) -> Option<(Prefix, Entry)> {
        let mut first = None;
        for &row in &self.rows {
            if number(at) <= number(row.0) && is_earlier(&row, &first) {
                first = Some(row);
            }
        }
        first
    }

    // The first and the last address of each row, and those beside them.
    fn addrs(&self, rt: &impl Abort, alloc: Global) -> Vec<u32> {
        let mut addrs = Vec::new(alloc);
        for row in &self.rows {
            let first = row.0.addr();
            let last = first | (0xffff_ffffu64 >> row.0.len()) as u32;
            for addr in [first, last, first.wrapping_sub(1), last.wrapping_add(1)] {
                addrs.push(addr).expect(rt, "memory");
            }
        }
        addrs.push(0xc000_02ff).expect(rt, "memory");
        addrs
    }

    // The image answers as the list does, one by one and side by side.
    fn answers(&self, rt: &impl Abort, alloc: Global, addrs: &[u32]) {
        let mut answers = Vec::new(alloc);
        answers.resize(addrs.len(), None).expect(rt, "memory");
        self.image.lookup_all(addrs, &mut answers);
        for k in 0..addrs.len() {
            let wanted = self.scan(addrs[k]);
            equal(rt, answers[k], wanted);
            equal(rt, self.image.lookup(addrs[k]), answers[k]);
        }
    }

    // The image lists the rows of the list, in order, and has no more of them.
    fn lists(&self, rt: &impl Abort) {
        let mut cursor = Prefix::covering(0, 0);
        for _ in &self.rows {
            let row = self.image.first_row_from(cursor);
            assert_eq!(rt; row, self.first_from(cursor));
            cursor = row.and_then(|row| next_prefix(row.0)).unwrap_or(cursor);
        }
        equal(rt, self.image.row_count(), self.rows.len());
    }

    fn agrees(&self, rt: &impl Abort, alloc: Global) {
        self.answers(rt, alloc, &self.addrs(rt, alloc));
    }
}

// An address that has a row of each length.
const AT: u32 = 0xc633_64a5;

// The nested rows, the least and the greatest prefixes, and all 33 that cover an address.
fn set_hostile(rt: &impl Abort, both: &mut Both) {
    for (text, port) in NESTED {
        both.set(rt, prefix(rt, text), via(port));
    }
    for (addr, len) in [(0, 1), (0, 32), (u32::MAX, 31), (u32::MAX, 32)] {
        both.set(rt, Prefix::covering(addr, len), Entry::Unreachable);
    }
    for len in 0..33u8 {
        both.set(rt, Prefix::covering(AT, len), via(len));
    }
}

// Takes all rows out, the last one first.
fn remove_all(rt: &impl Abort, both: &mut Both) {
    for _ in 0..both.rows.len() {
        let Some(row) = both.rows.last() else {
            return;
        };
        let prefix = row.0;
        both.remove(rt, prefix);
    }
}

// Numbers, each by the one before.
#[derive(Drop)]
struct Draws {
    state: u32,
}

impl Draws {
    // A number below 65,536.
    fn draw(&mut self) -> u32 {
        self.state = self
            .state
            .wrapping_mul(1_664_525)
            .wrapping_add(1_013_904_223);
        self.state >> 16
    }

    // A prefix of any length in one of four small ranges, so that many lie in others.
    fn prefix(&mut self) -> Prefix {
        let start = match self.draw() % 4 {
            0 => 0,
            1 => 0x0a00_0000,
            2 => 0x8000_0000,
            _ => 0xffff_0000,
        };
        let addr = start | self.draw();
        Prefix::covering(addr, (self.draw() % 33) as u8)
    }
}

// Sets rows, and takes every third of them out again.
fn change(rt: &impl Abort, both: &mut Both, draws: &mut Draws) {
    for i in 0..100u32 {
        let prefix = draws.prefix();
        both.set(rt, prefix, via((i % 32) as u8));
        if i % 3 == 0 {
            both.remove(rt, prefix);
        }
        both.remove(rt, draws.prefix());
    }
}

fn come_at_random(rt: &impl Abort, alloc: Global, both: &mut Both, draws: &mut Draws) {
    change(rt, both, draws);
    both.agrees(rt, alloc);
    change(rt, both, draws);
    both.agrees(rt, alloc);
    both.lists(rt);
}

#[test]
fn rows_at_random(rt: HostRuntime) {
    let mut draws = Draws { state: 1993 };
    for bits in WIDTHS {
        let mut both = Both::new(&rt, rt.alloc(), bits);
        come_at_random(&rt, rt.alloc(), &mut both, &mut draws);
    }
}

// Rows that come and go: beside others, by paths of their own, and where a block grows and shrinks.
fn come_and_go(rt: &impl Abort, both: &mut Both) {
    set_hostile(rt, both);
    for i in 0..16u32 {
        both.set(rt, Prefix::covering((i << 28) + (i << 3), 32), Entry::Local);
    }
    remove_all(rt, both);
}

// What rows needed that are gone serves those that come.
fn come_and_go_again(rt: &impl Abort, both: &mut Both) {
    come_and_go(rt, both);
    let bytes = both.image.bytes();
    for _ in 0..20 {
        come_and_go(rt, both);
    }
    let left = (both.image.bytes(), both.image.lookup(AT));
    equal(rt, left, (bytes, None));
}

#[test]
fn array_rows_that_come_and_go_take_no_more_memory(rt: HostRuntime) {
    for bits in WIDTHS {
        come_and_go_again(&rt, &mut Both::new(&rt, rt.alloc(), bits));
    }
}

// Addresses far apart.
fn far(i: u32) -> Prefix {
    Prefix::covering(i.wrapping_mul(0x9e37_79b1), 32)
}

// Sets these rows one by one.
fn set_far<A: Allocator + Copy>(rt: &impl Abort, image: &mut Image<A>, count: u32) {
    for i in 0..count {
        set_row(image, far(i), Entry::Local).expect(rt, "memory");
    }
}

// Sets these rows one by one, in an image that is widened as it grows.
fn grow<A: Allocator + Copy>(rt: &impl Abort, image: &mut Image<A>, alloc: A, from: u32, to: u32) {
    for i in from..to {
        set_row(image, far(i), Entry::Local).expect(rt, "memory");
        widen(image, alloc);
    }
}

// Whether two numbers differ by less than a fifth of the greater one.
fn close(one: usize, other: usize) -> bool {
    one / 5 * 4 < other && other / 5 * 4 < one
}

// An image that grew takes as much memory as one that was made for so many rows.
fn is_as_large(rt: &impl Abort, alloc: Global, count: u32) {
    let mut image = empty(alloc).expect(rt, "memory");
    grow(rt, &mut image, alloc, 0, count);
    let mut whole = with(alloc, FirstBits::for_rows(count as usize)).expect(rt, "memory");
    set_far(rt, &mut whole, count);
    holds(rt, close(image.bytes(), whole.bytes()));
}

#[test]
fn images_are_widened_as_they_grow(rt: HostRuntime) {
    for count in [60, 200, 2000] {
        is_as_large(&rt, rt.alloc(), count);
    }
}

// All of a heap that is left in pieces of 1,024 bytes.
fn pieces<'h>(rt: &impl Abort, alloc: Global, heap: &'h Heap) -> Vec<Vec<u8, &'h Heap>> {
    let mut pieces = Vec::new(alloc);
    for _ in 0..128 {
        if let Ok(piece) = Vec::with_capacity(heap, 1024) {
            pieces.push(piece).expect(rt, "memory");
        }
    }
    pieces
}

// An image takes a heap, but for what is left in those pieces.
fn stays<'h>(rt: &impl Abort, alloc: Global, heap: &'h Heap, image: &mut Image<&'h Heap>) {
    let bytes = image.bytes();
    let _pieces = pieces(rt, alloc, heap);
    widen(image, heap);
    equal(rt, (image.bytes(), image.row_count()), (bytes, 100));
}

#[test]
fn an_image_that_cannot_be_widened_stays(rt: HostRuntime) {
    let heap = Heap::new(rt.alloc(), 1 << 17).expect(&rt, "memory");
    let mut image = empty(&heap).expect(&rt, "room");
    set_far(&rt, &mut image, 100);
    stays(&rt, rt.alloc(), &heap, &mut image);
    // It is tried again with twice the words.
    grow(&rt, &mut image, &heap, 100, 250);
    has_far(&rt, &image, 250, Entry::Local);
}

// The image has so many of these rows, the last of which has this entry.
fn has_far(rt: &impl Abort, image: &Image<&Heap>, count: u32, entry: Entry) {
    let last = far(count.saturating_sub(1));
    equal(rt, image.row_count(), count as usize);
    equal(rt, image.lookup(last.addr()), Some((last, entry)));
}

// An image with five rows, which fill its pool.
fn five_rows<'h>(rt: &impl Abort, heap: &'h Heap) -> Image<&'h Heap> {
    let mut image = empty(heap).expect(rt, "room");
    set_far(rt, &mut image, 5);
    image
}

// Whether two rows more are refused with so many bytes left.
fn are_two_refused(rt: &impl Abort, heap: &Heap, left: usize, image: &mut Image<&Heap>) -> bool {
    let _weight = ballast(rt, heap, left);
    let rows = [(far(5), Entry::Local), (far(6), Entry::Unreachable)];
    set_rows(image, &rows).is_err()
}

// An image of five rows takes two more.
pub(crate) fn set_two(rt: &impl Abort, heap: &Heap, left: usize) -> bool {
    let mut image = five_rows(rt, heap);
    let is_refused = are_two_refused(rt, heap, left, &mut image);
    if is_refused {
        equal(rt, image.row_count(), 5);
        holds(rt, !are_two_refused(rt, heap, ROOM, &mut image));
    }
    has_far(rt, &image, 7, Entry::Unreachable);
    is_refused
}

// Whether a copy is refused with so many bytes left, or an image made anew.
fn is_copy_refused<'h>(
    rt: &impl Abort,
    heap: &'h Heap,
    left: usize,
    image: &Image<&'h Heap>,
    anew: bool,
) -> bool {
    let _weight = ballast(rt, heap, left);
    let other = if anew {
        widened(image, heap, FirstBits::Four)
    } else {
        copy(image, heap)
    };
    if let Ok(other) = &other {
        has_far(rt, other, 5, Entry::Local);
    }
    other.is_err()
}

// An image of five rows is copied, or made anew. A refusal leaves nothing behind.
pub(crate) fn copy_five(rt: &impl Abort, heap: &Heap, left: usize, anew: bool) -> bool {
    let image = five_rows(rt, heap);
    let used = heap.used();
    let is_refused = is_copy_refused(rt, heap, left, &image, anew);
    if is_refused {
        equal(rt, (heap.used(), image.row_count()), (used, 5));
    }
    is_refused
}
