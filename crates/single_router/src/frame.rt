//! Messages as C writes and reads them.

ghost use Rattle.std.specs.Prelude.{◌≡◌};
ghost use Rattle.single_router.specs.Frames.{frame_of, message_kind_number};

use network_model::{Held, Kind};

/// A message, with the port by which it leaves or came, and the session of that port in which it was
/// sent. `kind` is 0 for an update, 1 for a query, 2 for a reply; `value` is the sender's distance to the
/// prefix, 4294967295 where it has no route.
#[repr(C)]
#[derive(Clone, Copy, Debug, PartialEq, Eq)]
pub struct Frame {
    pub addr: u32,
    pub value: u32,
    pub session: u16,
    pub len: u8,
    pub kind: u8,
    pub port: u8,
}

impl Frame {
    /// The frame of a message that a router holds.
    pub fn of(held: Held) -> Frame
        ensures { result ≡ frame_of held }
    {
        let message = held.message;
        Frame {
            addr: message.prefix.addr(),
            value: message.value.value(),
            session: held.session,
            len: message.prefix.len(),
            kind: number(message.kind),
            port: held.port,
        }
    }
}

fn number(kind: Kind) -> u8
    ensures { result ≡ message_kind_number kind }
{
    match kind {
        Kind::Update => 0,
        Kind::Query => 1,
        Kind::Reply => 2,
    }
}
