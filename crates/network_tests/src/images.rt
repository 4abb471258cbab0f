//! Rows that are set, and addresses that are looked up.

use crate::equal_to::equal;
use crate::values::{addr, prefix, via};
use std::alloc::Global;
use std::process::Abort;
use tree_bitmap::parts::{empty, set_row};
use tree_bitmap::{Entry, Image, Prefix, Visits};

// Sets the row of a prefix, by way of a port.
fn set(rt: &impl Abort, image: &mut Image, text: &str, port: u8) {
    set_row(image, prefix(rt, text), via(port)).expect(rt, "memory");
}

// The longest match of an address is this row.
pub(crate) fn finds(rt: &impl Abort, image: &Image, at: &str, text: &str, entry: Entry) {
    let row = (prefix(rt, text), entry);
    equal(rt, (at, image.lookup(addr(rt, at))), (at, Some(row)));
}

// Six rows, of which some lie in others, each by way of a port of its own.
pub(crate) const NESTED: [(&str, u8); 6] = [
    ("192.0.0.0/3", 1),
    ("192.0.0.0/4", 2),
    ("192.0.2.224/27", 3),
    ("192.0.2.240/28", 4),
    ("192.0.2.254/31", 5),
    ("192.0.2.255/32", 6),
];

// An image without rows.
pub(crate) fn no_rows(rt: &impl Abort, alloc: Global) -> Image {
    empty(alloc).expect(rt, "memory")
}

// Sets the rows of these prefixes, each by way of its port.
pub(crate) fn set_all(rt: &impl Abort, image: &mut Image, rows: &[(&str, u8)]) {
    for (text, port) in rows {
        set(rt, image, text, *port);
    }
}

// The longest match of each address is its row.
fn finds_all(rt: &impl Abort, image: &Image, rows: &[(&str, &str, u8)]) {
    for (at, text, port) in rows {
        finds(rt, image, at, text, via(*port));
    }
}

fn finds_none(rt: &impl Abort, image: &Image, at: &str) {
    equal(rt, image.lookup(addr(rt, at)), None);
}

static LONGEST: [(&str, &str, u8); 6] = [
    ("192.0.2.255", "192.0.2.255/32", 6),
    ("192.0.2.254", "192.0.2.254/31", 5),
    ("192.0.2.253", "192.0.2.240/28", 4),
    ("192.0.2.239", "192.0.2.224/27", 3),
    ("192.0.2.223", "192.0.0.0/4", 2),
    ("208.0.0.1", "192.0.0.0/3", 1),
];

#[test]
fn finds_the_longest_match(rt: HostRuntime) {
    let mut image = no_rows(&rt, rt.alloc());
    set_all(&rt, &mut image, &NESTED);
    finds_all(&rt, &image, &LONGEST);
    finds_none(&rt, &image, "224.0.0.1");
}

#[test]
fn counts_the_nodes_that_it_reads(rt: HostRuntime) {
    let mut image = empty(rt.alloc()).expect(&rt, "memory");
    set(&rt, &mut image, "10.0.0.1/32", 1);
    let mut visits = Visits { count: 0 };
    let _found = image.lookup_counted(0x0a00_0001, &mut visits);
    equal(&rt, visits.count, 9);
    let _lost = image.lookup_counted(0xc000_0201, &mut visits);
    equal(&rt, visits.count, 10);
}
