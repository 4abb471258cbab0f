//! What a router begins with.

ghost use Rattle.std.specs.Prelude.{◌≡◌, None, Some, IfOk, IfErr, OnOk, IsOkUnless, map};
ghost use Rattle.single_router.specs.Openings.{unused_port, costs_fault, attachment_row, attachments_fault};

use crate::input::read_cost;
use c_interface::{CallFault, read_prefix};
use network_model::{Cost, MOST_PORTS, Port, Prefix};
use std::alloc::Global;

/// A prefix to which a router is attached, at this cost.
#[repr(C)]
#[derive(Clone, Copy)]
pub struct Attachment {
    pub addr: u32,
    pub cost: u32,
    pub len: u8,
}

/// Tests the costs of a router's ports.
pub(crate) fn check_costs(costs: &[u32]) -> Result<(), CallFault>
    ensures ok { OnOk result (costs_fault costs.now ≡ None) }
    ensures err { IfErr result (λ f. costs_fault costs.now ≡ Some f) }
{
    if costs.len() > MOST_PORTS {
        return Err(CallFault::TooManyPorts);
    }
    for &cost in costs {
        let _ = read_cost(cost)?;
    }
    Ok(())
}

/// Tests attachments.
pub(crate) fn check_attachments(attachments: &[Attachment]) -> Result<(), CallFault>
    ensures ok { OnOk result (attachments_fault attachments.now ≡ None) }
    ensures err { IfErr result (λ f. attachments_fault attachments.now ≡ Some f) }
{
    for attachment in attachments {
        let _ = attachment.read()?;
    }
    Ok(())
}

/// Ports whose links are down and never were up, with the costs from here.
pub(crate) fn read_ports(alloc: Global, costs: &[u32]) -> Result<Vec<Port>, CallFault>
    requires { costs_fault costs.now ≡ None }
    ensures ok { IfOk result (λ ports. ports.items ≡ map unused_port costs.now) }
    ensures err { IsOkUnless result CallFault.NoMemory }
{
    let mut ports = Vec::with_capacity(alloc, costs.len())?;
    for &cost in costs {
        ports.push(Port {
            up: false,
            session: 0,
            cost: read_cost(cost)?,
        })?;
    }
    Ok(ports)
}

/// The prefixes and costs of attachments.
pub(crate) fn read_attachments(
    alloc: Global,
    attachments: &[Attachment],
) -> Result<Vec<(Prefix, Cost)>, CallFault>
    requires { attachments_fault attachments.now ≡ None }
    ensures ok { IfOk result (λ rows. rows.items ≡ map attachment_row attachments.now) }
    ensures err { IsOkUnless result CallFault.NoMemory }
{
    let mut rows = Vec::with_capacity(alloc, attachments.len())?;
    for attachment in attachments {
        rows.push(attachment.read()?)?;
    }
    Ok(rows)
}

impl Attachment {
    ghost use Rattle.single_router.specs.Openings.{attachment_fault};

    fn read(&self) -> Result<(Prefix, Cost), CallFault>
        ensures ok { IfOk result (λ r. (attachment_fault self.now ≡ None)
            × (r ≡ attachment_row self.now)) }
        ensures err { IfErr result (λ f. attachment_fault self.now ≡ Some f) }
    {
        let prefix = read_prefix(self.addr, self.len)?;
        let cost = read_cost(self.cost)?;
        Ok((prefix, cost))
    }
}
