//! The entry that a machine chooses.

ghost use Rattle.std.specs.Prelude.{◌≡◌};
ghost use Rattle.network_model.specs.Step as step;

use crate::machine::Machine;
use network_model::{Entry, Port, SmallAllocator};

/// The session that a router's notices said last of a port; 0 where there is no such port.
pub fn session_at(ports: &[Port], port: u8) -> u16
    ensures { result ≡ step.session_at ports.now port }
{
    match ports.get(usize::from(port)) {
        Some(found) => found.session,
        None => 0,
    }
}

impl<A: SmallAllocator> Machine<A> {
    /// The entry that the machine chooses over these ports of its router: local where its successor is the
    /// attachment, and else by way of the successor, for the session of that port.
    pub fn entry(&self, ports: &[Port]) -> Entry
        ensures { result ≡ step.entry_of ports.now (self.now).machine }
    {
        if self.is_local() {
            return Entry::Local;
        }
        match self.successor() {
            Some(port) => Entry::Via {
                port,
                session: session_at(ports, port),
            },
            None => Entry::Unreachable,
        }
    }
}
