//! An image with a row more.

use crate::equal_to::equal;
use crate::images::{finds, no_rows, set_all};
use crate::values::{prefix, via};
use image_patch::{Apply, Patch};
use network_model::{Entry, Prefix};
use std::alloc::Global;
use std::process::Abort;
use tree_bitmap::Image;

// Applies a patch of one row.
fn apply(rt: &impl Abort, alloc: Global, image: &mut Image, generation: u64, row: (Prefix, Entry)) {
    let rows = vec![in alloc; row].expect(rt, "memory");
    image
        .apply(&Patch { generation, rows })
        .expect(rt, "memory");
}

// All prefixes of 8 to 11 bits that 10.0.0.0/8 covers, but for one; each by way of the port of its
// internal bit.
static ALL_BUT_ONE: [(&str, u8); 14] = [
    ("10.0.0.0/8", 0),
    ("10.0.0.0/9", 1),
    ("10.128.0.0/9", 2),
    ("10.0.0.0/10", 3),
    ("10.64.0.0/10", 4),
    ("10.128.0.0/10", 5),
    ("10.192.0.0/10", 6),
    ("10.0.0.0/11", 7),
    ("10.32.0.0/11", 8),
    ("10.64.0.0/11", 9),
    ("10.128.0.0/11", 11),
    ("10.160.0.0/11", 12),
    ("10.192.0.0/11", 13),
    ("10.224.0.0/11", 14),
];

fn finds_the_others(rt: &impl Abort, image: &Image) {
    for (at, prefix, port) in [
        ("10.0.0.1", "10.0.0.0/11", 7),
        ("10.32.0.1", "10.32.0.0/11", 8),
        ("10.64.0.1", "10.64.0.0/11", 9),
        ("10.128.0.1", "10.128.0.0/11", 11),
        ("10.160.0.1", "10.160.0.0/11", 12),
        ("10.192.0.1", "10.192.0.0/11", 13),
        ("10.224.0.1", "10.224.0.0/11", 14),
    ] {
        finds(rt, image, at, prefix, via(port));
    }
}

#[test]
fn rows_beside_a_patched_one_stay(rt: HostRuntime) {
    let mut image = no_rows(&rt, rt.alloc());
    set_all(&rt, &mut image, &ALL_BUT_ONE);
    finds(&rt, &image, "10.96.0.1", "10.64.0.0/10", via(4));
    loses(&rt, rt.alloc(), &mut image, "10.96.0.0/11");
    finds(&rt, &image, "10.96.0.1", "10.96.0.0/11", Entry::Unreachable);
    finds_the_others(&rt, &image);
}

// A patch of generation 1 makes the row of a prefix unreachable.
fn loses(rt: &impl Abort, alloc: Global, image: &mut Image, text: &str) {
    apply(rt, alloc, image, 1, (prefix(rt, text), Entry::Unreachable));
}

// Puts the row of 10.x.0.0/12, where x is 16 times the port, by a patch; the row that was put first stays.
fn puts_before(rt: &impl Abort, alloc: Global, image: &mut Image, port: u8) {
    let generation = u64::from(16u8.saturating_sub(port));
    apply(rt, alloc, image, generation, (twelve(rt, port), via(port)));
    finds(rt, image, "10.240.0.1", "10.240.0.0/12", via(15));
}

fn twelve(rt: &impl Abort, port: u8) -> Prefix {
    Prefix::new((10 << 24) + (u32::from(port) << 20), 12).expect(rt, "prefix")
}

fn is_of_generation(rt: &impl Abort, image: &Image, generation: u64) {
    equal(rt, image.generation(), generation);
}

// 10.240.0.0/12 first, 10.0.0.0/12 last: each is put before all that are there.
#[test]
fn the_first_of_sixteen_patches_stays(rt: HostRuntime) {
    let mut image = no_rows(&rt, rt.alloc());
    for port in (0..16).rev() {
        puts_before(&rt, rt.alloc(), &mut image, port);
    }
    finds(&rt, &image, "10.96.0.1", "10.96.0.0/12", via(6));
    is_of_generation(&rt, &image, 16);
}
