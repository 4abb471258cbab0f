//! The messages that machines send.

ghost use Rattle.std.specs.Prelude.{◌≡◌, ◌+◌, ◌<◌, ◌≤◌, [], ◌++◌, length, IsOk, OnOk, OnErr};
ghost use Rattle.network_model.specs.Machine as dual;
ghost use Rattle.network_model.specs.Network.{most_ports};
ghost use Rattle.dual_machine.specs.Outbox.{HasRoom};

use crate::events::is_port;
use network_model::{Distance, Kind, Neighbour, NoMemory, Outgoing};
use std::alloc::{Allocator, Global};
use std::marker::Model;

/// Messages sent, oldest first.
#[derive(Drop)]
pub struct Sends<A: Allocator = Global> {
    items: Vec<Outgoing, A>,
}

impl<A: Allocator> Model for Sends<A> {
    ghost use Rattle.std.specs.Prelude.{vec_capacity};
    ghost use Rattle.dual_machine.specs.Outbox.{Outbox};

    ghost Value = { Outbox };

    ghost view = { λ s. record { list = s.items.items; capacity = vec_capacity s.items } };
}

impl<A: Allocator> Sends<A> {
    /// No messages. Takes no memory.
    pub fn new(alloc: A) -> Sends<A>
        ensures { result.list ≡ [] }
    {
        Sends {
            items: Vec::new(alloc),
        }
    }

    /// The messages, oldest first.
    pub fn as_slice(&self) -> &[Outgoing]
        ensures { result.now ≡ self.now.list }
    {
        self.items.as_slice()
    }

    /// Forgets all messages. The room stays.
    pub fn clear(&mut self)
        ensures cleared { self.new.list ≡ [] }
        ensures capacity { self.new.capacity ≡ self.old.capacity }
    {
        self.items.clear();
    }

    /// Makes room for this many messages more.
    pub fn reserve(&mut self, additional: usize) -> Result<(), NoMemory>
        ensures kept { self.new.list ≡ self.old.list }
        ensures ok { OnOk result (HasRoom self.new additional) }

        // It fails only where the room was missing, and then all stays.
        ensures room { HasRoom self.old additional → IsOk result }
        ensures full { OnErr result (self.old.capacity < length self.old.list + additional) }
        ensures err { OnErr result (self.new ≡ self.old) }
        ensures capacity { self.old.capacity ≤ self.new.capacity }
    {
        self.items.reserve(additional)?;
        Ok(())
    }

    // Appends a message to the port, if there is one.
    pub(crate) fn push_to(&mut self, port: Option<u8>, kind: Kind, value: Distance)
        requires { HasRoom self.old (length (dual.one_to port kind value)) }
        ensures pushed { self.new.list ≡ self.old.list ++ dual.one_to port kind value }
        ensures capacity { self.new.capacity ≡ self.old.capacity }
    {
        if let Some(port) = port {
            self.items.push_reserved(Outgoing { port, kind, value });
        }
    }

    // Appends the same message to each neighbour that is up, but not to the one left out.
    pub(crate) fn push_to_all(
        &mut self,
        but: Option<u8>,
        kind: Kind,
        value: Distance,
        ports: &[Neighbour],
    )
        requires few { length ports.now ≤ most_ports }
        requires room { HasRoom self.old (length (dual.all_from 0 but kind value ports.now)) }
        ensures pushed { self.new.list ≡ self.old.list ++ dual.all_from 0 but kind value ports.now }
        ensures capacity { self.new.capacity ≡ self.old.capacity }
    {
        for (i, neighbour) in ports.iter().enumerate() {
            let port = i as u8;
            if neighbour.up && !is_port(port, but) {
                self.push_to(Some(port), kind, value);
            }
        }
    }
}
