//! What a router is told.

ghost use Rattle.std.specs.Prelude.{◌≡◌, Ok, Err};
ghost use Rattle.single_router.specs.Inputs as inputs;

use crate::frame::Frame;
use c_interface::{CallFault, read_prefix};
use network_model::{Cost, Distance, Kind, Message, Prefix};

/// What a router is told: of a link, by its port, or of its own attachment to a prefix.
#[derive(Clone, Copy)]
pub enum Input {
    /// The link of the port came up, in a later session than the last; `cost` is that from here.
    Up {
        port: u8,
        session: u16,
        cost: Cost,
    },
    /// The link of the port went down.
    Down {
        port: u8,
    },
    /// The cost from here of the port's link, which is up, changed.
    Cost {
        port: u8,
        cost: Cost,
    },
    /// A message came to the port, that was sent in this session of its link.
    Message {
        port: u8,
        session: u16,
        message: Message,
    },
    /// The router is attached to the prefix at this cost, which is new or has changed.
    Attached {
        prefix: Prefix,
        cost: Cost,
    },
    /// The router is attached to the prefix no more.
    Detached {
        prefix: Prefix,
    },
}

impl Input {
    /// The link of the port came up. A `BadCost` where the number is no cost.
    pub fn up(port: u8, session: u16, cost: u32) -> Result<Input, CallFault>
        ensures { result ≡ inputs.up_input port session cost }
    {
        let cost = read_cost(cost)?;
        Ok(Input::Up {
            port,
            session,
            cost,
        })
    }

    /// The cost of the port's link changed. A `BadCost` where the number is no cost.
    pub fn cost(port: u8, cost: u32) -> Result<Input, CallFault>
        ensures { result ≡ inputs.cost_input port cost }
    {
        let cost = read_cost(cost)?;
        Ok(Input::Cost { port, cost })
    }

    /// The message of a frame came. A `BadLength` or `HostBits` of its prefix, then a `BadKind`.
    pub fn message(frame: Frame) -> Result<Input, CallFault>
        ensures { result ≡ inputs.frame_input frame }
    {
        let prefix = read_prefix(frame.addr, frame.len)?;
        let kind = match frame.kind {
            0 => Kind::Update,
            1 => Kind::Query,
            2 => Kind::Reply,
            _ => return Err(CallFault::BadKind),
        };
        Ok(Input::Message {
            port: frame.port,
            session: frame.session,
            message: Message {
                kind,
                prefix,
                value: Distance::new(frame.value),
            },
        })
    }

    /// The router is attached to a prefix. A `BadLength` or `HostBits` of the prefix, then a `BadCost`.
    pub fn attached(addr: u32, len: u8, cost: u32) -> Result<Input, CallFault>
        ensures { result ≡ inputs.attached_input addr len cost }
    {
        let prefix = read_prefix(addr, len)?;
        let cost = read_cost(cost)?;
        Ok(Input::Attached { prefix, cost })
    }

    /// The router is attached to a prefix no more. A `BadLength` or `HostBits` of the prefix.
    pub fn detached(addr: u32, len: u8) -> Result<Input, CallFault>
        ensures { result ≡ inputs.detached_input addr len }
    {
        let prefix = read_prefix(addr, len)?;
        Ok(Input::Detached { prefix })
    }
}

// The cost of a number.
pub(crate) fn read_cost(cost: u32) -> Result<Cost, CallFault>
    ensures { result ≡ inputs.cost_of cost }
{
    let cost = Cost::new(cost)?;
    Ok(cost)
}
