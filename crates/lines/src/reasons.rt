//! What a router's machine for a prefix knows.

ghost use Rattle.std.specs.Prelude.{Some};
ghost use Rattle.lines.specs.Formats.{in_format};
ghost use Rattle.lines.specs.Texts.{awaits_text, known_text, over_link_text, owed_text};
ghost use Rattle.lines.specs.Objects.{awaits_json, known_json, over_link_json, router_name_json};

use crate::told::Told;
use crate::values::{EachName, NamesJson};
use ipv4_prefix::Prefix;
use metric::Cost;
use network_model::Neighbour;
use std::fmt;

/// The neighbours whose replies a router's machine for a prefix awaits.
#[derive(Clone, Copy)]
pub struct AwaitsLine<'a> {
    pub router: u16,
    pub prefix: Prefix,
    pub neighbours: &'a [u16],
}

/// What else a router's machine for a prefix knows.
#[derive(Clone, Copy)]
pub struct KnownLine {
    pub router: u16,
    pub prefix: Prefix,
    pub known: Known,
}

/// What a router's machine for a prefix knows.
#[derive(Clone, Copy)]
pub enum Known {
    /// The neighbour to whom a reply is owed.
    Owes(Option<u16>),
    /// The cost of the router's own attachment.
    Attached(Cost),
    /// What is known of a neighbour.
    AtNeighbour(Option<u16>, Neighbour),
}

impl fmt::Display for Told<'_, &AwaitsLine<'_>> {
    ghost output = { λ t. Some (in_format t.0.format (awaits_text t.0.directory.now t.1.now.neighbours.now)
        (awaits_json t.0.directory.now t.1.now.router t.1.now.prefix t.1.now.neighbours.now)) };

    fn fmt<W: fmt::Write>(&self, f: &mut fmt::Formatter<W>) -> fmt::Result {
        let Told(by, line) = *self;
        let (name, prefix) = (by.directory.name(Some(line.router)), line.prefix);
        let each = EachName(by.directory, " ", "", line.neighbours);
        let names = NamesJson(by.directory, line.neighbours);
        write_either!(f, by;
            "  awaits the reply of{each}",
            "{{\"kind\":\"awaits\",\"router\":\"{name}\",\"prefix\":\"{prefix}\",\"neighbours\":[{names}]}}")
    }
}

// What is known over a link: words, or what stands in an object of JSON behind the key that says whether it is up.
impl fmt::Display for Told<'_, Neighbour> {
    ghost output = { λ t. Some (in_format t.0.format (over_link_text t.1) (over_link_json t.1)) };

    fn fmt<W: fmt::Write>(&self, f: &mut fmt::Formatter<W>) -> fmt::Result {
        let Told(by, known) = *self;
        if known.up {
            let (cost, reported) = (known.cost, Told(by, known.reported));
            write_either!(f, by; "up, cost {cost}, reported {reported}", "true,\"cost\":{cost},\"reported\":{reported}")
        } else {
            write_either!(f, by; "down", "false")
        }
    }
}

// The neighbour to whom a reply is owed, if it is owed to one.
impl fmt::Display for Told<'_, Option<u16>> {
    ghost output = { λ t. Some (in_format t.0.format
        (owed_text t.0.directory.now t.1) (router_name_json t.0.directory.now t.1)) };

    fn fmt<W: fmt::Write>(&self, f: &mut fmt::Formatter<W>) -> fmt::Result {
        let Told(by, neighbour) = *self;
        match neighbour {
            Some(neighbour) => {
                let name = by.directory.name(Some(neighbour));
                write_either!(f, by; "  owes a reply to {name}", "\"{name}\"")
            }
            None => write_either!(f, by; "  owes no reply", "null"),
        }
    }
}

impl fmt::Display for Told<'_, KnownLine> {
    ghost output = { λ t. Some (in_format t.0.format (known_text t.0.directory.now t.1.known)
        (known_json t.0.directory.now t.1.router t.1.prefix t.1.known)) };

    fn fmt<W: fmt::Write>(&self, f: &mut fmt::Formatter<W>) -> fmt::Result {
        let Told(by, line) = *self;
        let (name, prefix) = (by.directory.name(Some(line.router)), line.prefix);
        let known = line.known;
        match known {
            Known::Owes(neighbour) => {
                let owed = Told(by, neighbour);
                write_either!(f, by;
                    "{owed}",
                    "{{\"kind\":\"owes\",\"router\":\"{name}\",\"prefix\":\"{prefix}\",\"neighbour\":{owed}}}")
            }
            Known::Attached(cost) => write_either!(f, by;
                "  attached, cost {cost}",
                "{{\"kind\":\"attached\",\"router\":\"{name}\",\"prefix\":\"{prefix}\",\"cost\":{cost}}}"),
            Known::AtNeighbour(neighbour, known) => {
                let across = by.directory.name(neighbour);
                let (neighbour, over) = (Told(by, neighbour), Told(by, known));
                write_either!(f, by;
                    "  {across}: {over}",
                    "{{\"kind\":\"neighbour\",\"router\":\"{name}\",\"prefix\":\"{prefix}\",\"neighbour\":{neighbour},\"up\":{over}}}")
            }
        }
    }
}
