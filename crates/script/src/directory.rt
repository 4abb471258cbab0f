//! Who stands at the other end of each port.

ghost use Rattle.std.specs.Prelude.{◌≡◌, IfOk, filter_map};
ghost use Rattle.network_model.specs.World.{neighbour_of};
ghost use Rattle.script.specs.Directories.{directory_of, neighbour_at, source_at, name_text};

use crate::names::Names;
use network_model::{LinkSpec, NoMemory};
use std::alloc::{AllocError, Global};
use std::marker::Model;

/// The names of a network's routers, and for each port the router at the other end of its link.
#[derive(Drop)]
pub struct Directory {
    names: Names,
    neighbours: Vec<Vec<u16>>,
}

impl Model for Directory {
    ghost use Rattle.std.specs.Prelude.{map};
    ghost use Rattle.script.specs.Directories.{Directory as Contents};

    ghost Value = { Contents };

    ghost view = { λ d. record {
      names = d.names;
      neighbours = map
          (λ v. v.items) d.neighbours.items;
    } };
}

impl Directory {
    /// The directory of the routers of a network that can be opened. It goes through all links for
    /// each router, so that it is slow for more.
    pub fn new(alloc: Global, names: Names, links: &[LinkSpec]) -> Result<Directory, NoMemory>
        ensures { IfOk result (λ d. d ≡ directory_of names links.now) }
    {
        let mut neighbours = Vec::with_capacity(alloc, names.len())?;
        for router in 0..names.count() {
            neighbours.push(neighbours_of(alloc, router, links)?)?;
        }
        Ok(Directory { names, neighbours })
    }

    /// The routers' names.
    pub fn names(&self) -> &Names
        ensures { result.now ≡ self.now.names }
    {
        &self.names
    }

    /// The router at the other end of the link at a router's port; none where there is no such port.
    pub fn neighbour(&self, router: u16, port: u8) -> Option<u16>
        ensures { result ≡ neighbour_at self.now router port }
    {
        let neighbours = self.neighbours.get(usize::from(router))?;
        neighbours.get(usize::from(port)).copied()
    }

    /// The router from which a router takes at its port: the one at the other end of the link there, or
    /// itself at the port of its own attachments, which the number of its links numbers.
    pub fn source(&self, router: u16, port: u8) -> Option<u16>
        ensures { result ≡ source_at self.now router port }
    {
        let neighbours = self.neighbours.get(usize::from(router))?;
        if usize::from(port) == neighbours.len() {
            return Some(router);
        }
        neighbours.get(usize::from(port)).copied()
    }

    /// The name of a router, or `?` where there is no such router.
    pub fn name(&self, router: Option<u16>) -> &str
        ensures { result.now ≡ name_text self.now router }
    {
        match router {
            Some(router) => self.names.name(router).unwrap_or("?"),
            None => "?",
        }
    }
}

// The routers across a router's ports: across the links that touch it.
fn neighbours_of(alloc: Global, router: u16, links: &[LinkSpec]) -> Result<Vec<u16>, AllocError>
    ensures { IfOk result (λ v. v.items ≡ filter_map (neighbour_of router) links.now) }
{
    links
        .iter()
        .filter_map(|link| link.neighbour_of(router))
        .collect(alloc)
}
