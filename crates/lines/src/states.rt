//! What links, routers and machines are at.

ghost use Rattle.std.specs.Prelude.{◌≡◌, Some};
ghost use Rattle.lines.specs.Formats.{in_format};
ghost use Rattle.lines.specs.Texts.{link_text, loads_text, machine_text, origin_text, router_text, state_text, unheard_text, up_text};
ghost use Rattle.lines.specs.Objects.{link_json, loads_json, machine_json, number_json, router_json, state_json, unheard_json};

use crate::records::{LinkState, MachineState, RouterState};
use crate::told::Told;
use ipv4_prefix::Prefix;
use network_model::Entry;
use std::fmt;

/// What is told of a link: `link A B up SESSION C1 C2 queued Q1 Q2`, or `down` in place of `up`, with the costs from the
/// ends A and B, and the items that they have yet to take.
#[derive(Clone, Copy)]
pub struct LinkLine {
    /// The router at its end A.
    pub a: u16,
    /// The router at its end B.
    pub b: u16,
    pub at: LinkState,
    /// How many items its end A has yet to take.
    pub queued_a: usize,
    /// How many items its end B has yet to take.
    pub queued_b: usize,
}

/// What is told of a router: `A gen G held H ripe R attach Q`.
#[derive(Clone, Copy)]
pub struct RouterLine {
    /// Its number.
    pub router: u16,
    pub at: RouterState,
}

/// What is told of a router's machine for a prefix: `A PREFIX passive RD d FD d ENTRY`, or `active S` in place of
/// `passive`. A distance is a number or `inf`, and the entry is written as in a row that was published.
#[derive(Clone, Copy)]
pub struct MachineLine {
    /// The router's number.
    pub router: u16,
    pub prefix: Prefix,
    pub at: MachineState,
    /// The entry that the router chose.
    pub entry: Entry,
}

// Whether a link is up, for people.
fn up_words(up: bool) -> &'static str
    ensures { result.now ≡ up_text up }
{
    if up { "up" } else { "down" }
}

// The costs of a link from its ends, and how many items these have yet to take.
#[derive(Clone, Copy)]
struct Loads(LinkLine);

// Words, or members.
impl fmt::Display for Told<'_, Loads> {
    ghost output = { λ t. Some (in_format t.0.format (loads_text t.1.0) (loads_json t.1.0)) };

    fn fmt<W: fmt::Write>(&self, f: &mut fmt::Formatter<W>) -> fmt::Result {
        let Told(by, Loads(line)) = *self;
        let (from_a, from_b) = (line.at.from_a, line.at.from_b);
        let (to_a, to_b) = (line.queued_a, line.queued_b);
        write_either!(f, by;
            "{from_a} {from_b} queued {to_a} {to_b}",
            "\"costs\":[{from_a},{from_b}],\"queued\":[{to_a},{to_b}]")
    }
}

impl fmt::Display for Told<'_, LinkLine> {
    ghost output = { λ t. Some (in_format t.0.format
        (link_text t.0.directory.now t.1) (link_json t.0.directory.now t.1)) };

    fn fmt<W: fmt::Write>(&self, f: &mut fmt::Formatter<W>) -> fmt::Result {
        let Told(by, line) = *self;
        let a = by.directory.name(Some(line.a));
        let b = by.directory.name(Some(line.b));
        let (up, session, loads) = (line.at.up, line.at.session, Told(by, Loads(line)));
        let word = up_words(up);
        write_either!(f, by;
            "link {a} {b} {word} {session} {loads}",
            "{{\"kind\":\"link\",\"a\":\"{a}\",\"b\":\"{b}\",\"up\":{up},\"session\":{session},{loads}}}")
    }
}

impl fmt::Display for Told<'_, RouterLine> {
    ghost output = { λ t. Some (in_format t.0.format
        (router_text t.0.directory.now t.1) (router_json t.0.directory.now t.1)) };

    fn fmt<W: fmt::Write>(&self, f: &mut fmt::Formatter<W>) -> fmt::Result {
        let Told(by, line) = *self;
        let name = by.directory.name(Some(line.router));
        let (generation, held) = (line.at.generation, line.at.held);
        let (ripe, notices) = (line.at.ripe, line.at.notices);
        write_either!(f, by;
            "{name} gen {generation} held {held} ripe {ripe} attach {notices}",
            "{{\"kind\":\"router\",\"router\":\"{name}\",\"generation\":{generation},\"held\":{held},\"ripe\":{ripe},\"notices\":{notices}}}")
    }
}

// The origin state of a computation under way, if one is.
impl fmt::Display for Told<'_, Option<u8>> {
    ghost output = { λ t. Some (in_format t.0.format (origin_text t.1) (number_json t.1)) };

    fn fmt<W: fmt::Write>(&self, f: &mut fmt::Formatter<W>) -> fmt::Result {
        let Told(by, origin) = *self;
        match origin {
            Some(origin) => write_either!(f, by; "active {origin}", "{origin}"),
            None => write_either!(f, by; "passive", "null"),
        }
    }
}

// Words, or members.
impl fmt::Display for Told<'_, MachineState> {
    ghost output = { λ t. Some (in_format t.0.format (state_text t.1) (state_json t.1)) };

    fn fmt<W: fmt::Write>(&self, f: &mut fmt::Formatter<W>) -> fmt::Result {
        let Told(by, at) = *self;
        let (origin, rd, fd) = (Told(by, at.origin), Told(by, at.rd), Told(by, at.fd));
        write_either!(f, by; "{origin} RD {rd} FD {fd}", "\"active\":{origin},\"rd\":{rd},\"fd\":{fd}")
    }
}

impl fmt::Display for Told<'_, MachineLine> {
    ghost output = { λ t. Some (in_format t.0.format
        (machine_text t.0.directory.now t.1) (machine_json t.0.directory.now t.1)) };

    fn fmt<W: fmt::Write>(&self, f: &mut fmt::Formatter<W>) -> fmt::Result {
        let Told(by, line) = *self;
        let name = by.directory.name(Some(line.router));
        let (prefix, at) = (line.prefix, Told(by, line.at));
        let entry = Told(by, (line.router, line.entry));
        write_either!(f, by;
            "{name} {prefix} {at} {entry}",
            "{{\"kind\":\"machine\",\"router\":\"{name}\",\"prefix\":\"{prefix}\",{at},{entry}}}")
    }
}

// A prefix of which a router's machine knows nothing.
impl fmt::Display for Told<'_, (u16, Prefix)> {
    ghost output = { λ t. Some (in_format t.0.format
        (unheard_text t.0.directory.now t.1.0 t.1.1) (unheard_json t.0.directory.now t.1.0 t.1.1)) };

    fn fmt<W: fmt::Write>(&self, f: &mut fmt::Formatter<W>) -> fmt::Result {
        let Told(by, (router, prefix)) = *self;
        let name = by.directory.name(Some(router));
        write_either!(f, by;
            "{name} {prefix} unheard",
            "{{\"kind\":\"unheard\",\"router\":\"{name}\",\"prefix\":\"{prefix}\"}}")
    }
}
