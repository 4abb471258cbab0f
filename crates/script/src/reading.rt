//! Reads the four lists of a scenario.

ghost use Rattle.std.specs.Prelude.{◌≡◌, IfOk, IfErr, OnOk, ◌⊎◌, None, Some};
ghost use Rattle.script.specs.{Reading.AreParts, Reading.ReadingOutcome, Reading.no_parts, Seen.script_parts};
ghost use Rattle.texts.specs.Lists.{lists_of};

use crate::attachment::read_attachments;
use crate::command::{Command, read_commands};
use crate::fault::LineFault;
use crate::link::read_links;
use crate::names::{Names, read_names};
use crate::place::Located;
use ipv4_prefix::Prefix;
use metric::Cost;
use network_model::{LinkSpec, NoMemory};
use std::alloc::Global;

/// The greatest number of commands in a script.
const MOST_COMMANDS: usize = 10_000;

/// What was read of a scenario: the parts of a network, and the commands to do on it.
#[derive(Drop)]
pub struct Script {
    /// The routers' names.
    pub names: Names,
    /// The links, in the order of their numbers. An end whose name is not known is router 65535.
    pub links: Vec<LinkSpec>,
    /// The attachments: each a prefix, the number of the router, and the cost.
    pub attachments: Vec<(Prefix, u16, Cost)>,
    /// The commands, in the order in which to do them.
    pub commands: Vec<Command>,
}

/// A script, and the first fault in its lines. What stands before the fault was read.
#[derive(Drop)]
pub struct Reading {
    /// What was read.
    pub script: Script,
    /// The first fault. Where the network cannot be opened of what was read, that fault comes first,
    /// unless this one is a router's name.
    pub fault: Option<Located>,
}

/// Reads the lines of a scenario in the order of its lists, and stops at the first fault. That a
/// network cannot be opened of the parts is no fault here: an end of a link may be unknown.
pub fn read_script(
    alloc: Global,
    routers: &[String],
    links: &[String],
    prefixes: &[String],
    script: &[String],
) -> Result<Reading, NoMemory>
    ensures parts { IfOk result (λ r.
        AreParts (lists_of routers.now links.now prefixes.now script.now) (script_parts r.script)) }
    ensures stop { IfOk result (λ r.
        ReadingOutcome (lists_of routers.now links.now prefixes.now script.now)
        (script_parts r.script) r.fault) }
{
    let mut read = Script::new(alloc);
    match read.read(alloc, routers, links, prefixes, script) {
        Ok(()) => Ok(Reading {
            script: read,
            fault: None,
        }),
        Err(located) => match located.fault {
            LineFault::NoMemory => Err(NoMemory),
            _ => Ok(Reading {
                script: read,
                fault: Some(located),
            }),
        },
    }
}

impl Script {
    fn new(alloc: Global) -> Script
        ensures { script_parts result ≡ no_parts }
    {
        Script {
            names: Names::new(alloc),
            links: Vec::new(alloc),
            attachments: Vec::new(alloc),
            commands: Vec::new(alloc),
        }
    }

    // Reads the lists one after another, up to the first fault.
    fn read(
        &mut self,
        alloc: Global,
        routers: &[String],
        links: &[String],
        prefixes: &[String],
        script: &[String],
    ) -> Result<(), Located>
        requires { script_parts self.old ≡ no_parts }
        ensures parts { AreParts (lists_of routers.now links.now prefixes.now script.now)
            (script_parts self.new) }
        ensures whole { OnOk result
            (ReadingOutcome (lists_of routers.now links.now prefixes.now script.now)
            (script_parts self.new) None) }
        ensures stop { IfErr result (λ at. (at.fault ≡ LineFault.NoMemory)
            ⊎ ReadingOutcome (lists_of routers.now links.now prefixes.now script.now)
            (script_parts self.new) (Some at)) }
    {
        read_names(alloc, &mut self.names, routers)?;
        read_links(&self.names, &mut self.links, links)?;
        read_attachments(&self.names, &mut self.attachments, prefixes)?;
        if script.len() > MOST_COMMANDS {
            return Err(Located {
                fault: LineFault::TooLarge,
                place: None,
            });
        }
        read_commands(
            &self.names,
            &self.links,
            &self.attachments,
            &mut self.commands,
            script,
        )
    }
}
