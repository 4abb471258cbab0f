//! Rows as C writes and reads them.

ghost use Rattle.std.specs.Prelude.{◌≡◌, None, Some, IfOk, IfErr};
ghost use Rattle.c_interface.specs.Rows.{prefix_fault, row_fault, row_entry, answer_row};

use crate::fault::CallFault;
use network_model::{Entry, Prefix};

/// A row: a prefix, and where packets go that it matches. `kind` is 0 for local, 1 for via, 2 for
/// unreachable, and in answers 3 for no row. Only a row via a neighbour has a port and a session;
/// those of other rows are 0 in answers, and not read in rows that are given.
#[repr(C)]
#[derive(Clone, Copy, Debug, PartialEq, Eq)]
pub struct Row {
    pub addr: u32,
    pub len: u8,
    pub kind: u8,
    pub port: u8,
    pub session: u16,
}

/// The prefix of an address's first `len` bits, which has no bit set after them.
pub fn read_prefix(addr: u32, len: u8) -> Result<Prefix, CallFault>
    ensures ok { IfOk result (λ p. (prefix_fault addr len ≡ None)
        × (p ≡ record { addr = addr; len = len })) }
    ensures err { IfErr result (λ f. prefix_fault addr len ≡ Some f) }
{
    if len > 32 {
        return Err(CallFault::BadLength);
    }
    match Prefix::new(addr, len) {
        Ok(prefix) => Ok(prefix),
        Err(_) => Err(CallFault::HostBits),
    }
}

impl Row {
    /// The prefix and the entry of a row.
    pub fn read(self) -> Result<(Prefix, Entry), CallFault>
        ensures ok { IfOk result (λ r. (row_fault self ≡ None) × (r ≡ row_entry self)) }
        ensures err { IfErr result (λ f. row_fault self ≡ Some f) }
    {
        let prefix = read_prefix(self.addr, self.len)?;
        let entry = match self.kind {
            0 => Entry::Local,
            1 => Entry::Via {
                port: self.port,
                session: self.session,
            },
            2 => Entry::Unreachable,
            _ => return Err(CallFault::BadKind),
        };
        Ok((prefix, entry))
    }

    /// The row of an answer.
    pub fn answer(found: Option<(Prefix, Entry)>) -> Row
        ensures { result ≡ answer_row found }
    {
        let Some((prefix, entry)) = found else {
            return Row {
                addr: 0,
                len: 0,
                kind: 3,
                port: 0,
                session: 0,
            };
        };
        let (kind, port, session) = match entry {
            Entry::Local => (0, 0, 0),
            Entry::Via { port, session } => (1, port, session),
            Entry::Unreachable => (2, 0, 0),
        };
        Row {
            addr: prefix.addr(),
            len: prefix.len(),
            kind,
            port,
            session,
        }
    }
}
