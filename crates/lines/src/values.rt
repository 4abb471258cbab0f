//! Values in lines.

ghost use Rattle.std.specs.Prelude.{◌≡◌, Some};
ghost use Rattle.metric.specs.Distance.{distance_text};
ghost use Rattle.lines.specs.{Formats.in_format, Texts.each_name, Texts.entry_text, Texts.kind_text, Objects.distance_json, Objects.entry_json, Objects.names_json};

use crate::told::Told;
use metric::{Distance, Kind};
use network_model::Entry;
use script::Directory;
use std::fmt;

/// The word for what a message is.
pub fn kind_words(kind: Kind) -> &'static str
    ensures { result.now ≡ kind_text kind }
{
    match kind {
        Kind::Update => "update",
        Kind::Query => "query",
        Kind::Reply => "reply",
    }
}

// The names of routers, each between two texts: what is before it and what is behind it.
#[derive(Clone, Copy)]
pub(crate) struct EachName<'a, 'b>(
    pub &'a Directory,
    pub &'static str,
    pub &'static str,
    pub &'b [u16],
);

impl fmt::Display for EachName<'_, '_> {
    ghost output = { λ t. Some (each_name t.0.now t.1.now t.2.now t.3.now) };

    fn fmt<W: fmt::Write>(&self, f: &mut fmt::Formatter<W>) -> fmt::Result {
        let EachName(directory, before, after, routers) = *self;
        for router in routers {
            let name = directory.name(Some(*router));
            write!(f, "{before}{name}{after}")?;
        }
        Ok(())
    }
}

// The names of routers as a list of JSON, without its brackets.
#[derive(Clone, Copy)]
pub(crate) struct NamesJson<'a, 'b>(pub &'a Directory, pub &'b [u16]);

impl fmt::Display for NamesJson<'_, '_> {
    ghost output = { λ t. Some (names_json t.0.now t.1.now) };

    fn fmt<W: fmt::Write>(&self, f: &mut fmt::Formatter<W>) -> fmt::Result {
        let NamesJson(directory, routers) = *self;
        match routers.split_first() {
            Some((first, rest)) => {
                let name = directory.name(Some(*first));
                let more = EachName(directory, ",\"", "\"", rest);
                write!(f, "\"{name}\"{more}")
            }
            None => Ok(()),
        }
    }
}

// Where an entry of a router leads: words, or members.
impl fmt::Display for Told<'_, (u16, Entry)> {
    ghost output = { λ t. Some (in_format t.0.format
        (entry_text t.0.directory.now t.1.0 t.1.1) (entry_json t.0.directory.now t.1.0 t.1.1)) };

    fn fmt<W: fmt::Write>(&self, f: &mut fmt::Formatter<W>) -> fmt::Result {
        let Told(by, (router, entry)) = *self;
        match entry {
            Entry::Local => write_either!(f, by; "local", "\"entry\":\"local\""),
            Entry::Via { port, session } => {
                let name = by.directory.name(by.directory.neighbour(router, port));
                write_either!(f, by;
                    "via {name} {session}",
                    "\"entry\":\"via\",\"neighbour\":\"{name}\",\"session\":{session}")
            }
            Entry::Unreachable => write_either!(f, by; "unreachable", "\"entry\":\"unreachable\""),
        }
    }
}

// A distance, which is null in JSON if it is infinite.
impl fmt::Display for Told<'_, Distance> {
    ghost output = { λ t. Some (in_format t.0.format (distance_text t.1) (distance_json t.1)) };

    fn fmt<W: fmt::Write>(&self, f: &mut fmt::Formatter<W>) -> fmt::Result {
        let Told(by, distance) = *self;
        if distance.is_infinite() {
            return write_either!(f, by; "{distance}", "null");
        }
        write!(f, "{distance}")
    }
}
