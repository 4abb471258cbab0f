//! Rows, what was found for addresses, and traces.

ghost use Rattle.std.specs.Prelude.{◌≡◌, Some};
ghost use Rattle.lines.specs.Formats.{in_format};
ghost use Rattle.lines.specs.Texts.{answer_text, asked_text, end_text, found_text, through_text, trace_text};
ghost use Rattle.lines.specs.Objects.{answer_json, asked_json, found_json, through_json, trace_json};

use crate::told::Told;
use crate::values::{EachName, NamesJson};
use ipv4_prefix::{Addr, Prefix};
use network_model::{Ending, Entry};
use std::fmt;

/// What a router found for an address.
#[derive(Clone, Copy)]
pub struct Answer {
    pub router: u16,
    pub addr: u32,
    /// The row that matched.
    pub found: Option<(Prefix, Entry)>,
}

/// A row, or what was found for an address.
#[derive(Clone, Copy)]
pub enum Asked {
    /// A row that a router published: `A PREFIX ENTRY`, where the entry is `local`, `via NAME SESSION`
    /// with the name of the router across its port, or `unreachable`.
    Row {
        router: u16,
        prefix: Prefix,
        entry: Entry,
    },
    /// A look-up: `lookup A ADDR: PREFIX ENTRY`, or `lookup A ADDR: none`.
    Lookup(Answer),
    /// A worker's job of this number: `packet J A ADDR: PREFIX ENTRY`, or `packet J A ADDR: none`.
    Packet(u64, Answer),
}

/// The trace of a packet for an address from a router.
#[derive(Clone, Copy)]
pub struct TraceLine<'a> {
    pub router: u16,
    pub addr: u32,
    /// Whether it goes on whichever prefixes match.
    pub through: bool,
    /// The routers that the packet passes.
    pub path: &'a [u16],
    /// Why it ends.
    pub end: Ending,
}

// The row of a router that a look-up found, if it found one: words, or members.
impl fmt::Display for Told<'_, (u16, Option<(Prefix, Entry)>)> {
    ghost output = { λ t. Some (in_format t.0.format
        (found_text t.0.directory.now t.1.0 t.1.1) (found_json t.0.directory.now t.1.0 t.1.1)) };

    fn fmt<W: fmt::Write>(&self, f: &mut fmt::Formatter<W>) -> fmt::Result {
        let Told(by, (router, found)) = *self;
        match found {
            None => write_either!(f, by; "none", "\"prefix\":null,\"entry\":null"),
            Some((prefix, entry)) => {
                let entry = Told(by, (router, entry));
                write_either!(f, by; "{prefix} {entry}", "\"prefix\":\"{prefix}\",{entry}")
            }
        }
    }
}

// A router, an address, and what the router found for it: words, or members.
impl fmt::Display for Told<'_, Answer> {
    ghost output = { λ t. Some (in_format t.0.format
        (answer_text t.0.directory.now t.1) (answer_json t.0.directory.now t.1)) };

    fn fmt<W: fmt::Write>(&self, f: &mut fmt::Formatter<W>) -> fmt::Result {
        let Told(by, answer) = *self;
        let name = by.directory.name(Some(answer.router));
        let (addr, found) = (Addr(answer.addr), Told(by, (answer.router, answer.found)));
        write_either!(f, by; "{name} {addr}: {found}", "\"router\":\"{name}\",\"address\":\"{addr}\",{found}")
    }
}

impl fmt::Display for Told<'_, Asked> {
    ghost output = { λ t. Some (in_format t.0.format
        (asked_text t.0.directory.now t.1) (asked_json t.0.directory.now t.1)) };

    fn fmt<W: fmt::Write>(&self, f: &mut fmt::Formatter<W>) -> fmt::Result {
        let Told(by, asked) = *self;
        match asked {
            Asked::Row {
                router,
                prefix,
                entry,
            } => {
                let name = by.directory.name(Some(router));
                let row = Told(by, (router, Some((prefix, entry))));
                write_either!(f, by; "{name} {row}", "{{\"kind\":\"row\",\"router\":\"{name}\",{row}}}")
            }
            Asked::Lookup(answer) => {
                let answer = Told(by, answer);
                write_either!(f, by; "lookup {answer}", "{{\"kind\":\"lookup\",{answer}}}")
            }
            Asked::Packet(number, answer) => {
                let answer = Told(by, answer);
                write_either!(f, by; "packet {number} {answer}", "{{\"kind\":\"packet\",\"job\":{number},{answer}}}")
            }
        }
    }
}

// The words for the end of a trace.
fn end_words(end: Ending) -> &'static str
    ensures { result.now ≡ end_text end }
{
    match end {
        Ending::Delivered => "delivered",
        Ending::NoRoute => "no route",
        Ending::Unreachable => "unreachable",
        Ending::DeadLink => "dead link",
        Ending::Crossed => "crossed",
    }
}

// The option of a trace.
fn through_words(through: bool) -> &'static str
    ensures { result.now ≡ through_text through }
{
    if through { " --through" } else { "" }
}

// The same as a member of an object of JSON.
fn through_member(through: bool) -> &'static str
    ensures { result.now ≡ through_json through }
{
    if through { "\"through\":true," } else { "" }
}

// `trace A ADDR: NAMES END`, with the names of the routers on its path, each followed by a space, and `delivered`,
// `no route`, `unreachable`, `dead link` or `crossed`; with ` --through` after the address where it is a trace through.
impl fmt::Display for Told<'_, &TraceLine<'_>> {
    ghost output = { λ t. Some (in_format t.0.format
        (trace_text t.0.directory.now t.1.now.router t.1.now.addr t.1.now.through t.1.now.path.now t.1.now.end)
        (trace_json t.0.directory.now t.1.now.router t.1.now.addr t.1.now.through t.1.now.path.now t.1.now.end)) };

    fn fmt<W: fmt::Write>(&self, f: &mut fmt::Formatter<W>) -> fmt::Result {
        let Told(by, line) = *self;
        let name = by.directory.name(Some(line.router));
        let addr = Addr(line.addr);
        let option = through_words(line.through);
        let member = through_member(line.through);
        let passed = EachName(by.directory, "", " ", line.path);
        let path = NamesJson(by.directory, line.path);
        let end = end_words(line.end);
        write_either!(f, by;
            "trace {name} {addr}{option}: {passed}{end}",
            "{{\"kind\":\"trace\",\"router\":\"{name}\",\"address\":\"{addr}\",{member}\"path\":[{path}],\"end\":\"{end}\"}}")
    }
}
