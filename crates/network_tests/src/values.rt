//! Costs, prefixes, addresses and messages of several of these tests.

use ipv4_prefix::parse_addr;
use network_model::{Cost, Distance, Entry, Kind, Message, Prefix};
use std::process::Abort;
use test_support::ten;

pub(crate) fn cost(rt: &impl Abort, value: u32) -> Cost {
    Cost::new(value).expect(rt, "cost")
}

pub(crate) fn prefix(rt: &impl Abort, text: &str) -> Prefix {
    Prefix::parse(text).expect(rt, text)
}

pub(crate) fn addr(rt: &impl Abort, text: &str) -> u32 {
    parse_addr(text).expect(rt, text)
}

pub(crate) fn via(port: u8) -> Entry {
    Entry::Via { port, session: 1 }
}

// An update of 10.0.0.0/8.
pub(crate) fn update() -> Message {
    Message {
        kind: Kind::Update,
        prefix: ten(),
        value: Distance::ZERO,
    }
}
