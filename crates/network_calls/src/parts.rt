//! What a network is made of, as C has it.

ghost use Rattle.std.specs.Prelude.{◌≡◌, None, Some, IfOk, IfErr, OnOk, IsOkUnless, map};
ghost use Rattle.single_router.specs.{Openings.first_fault_in, Inputs.cost_fault};
ghost use Rattle.network_calls.specs.Parts.{attachment_parts_fault, attachment_of_parts, first_place, limits_of, link_fault, link_spec, place_of};

use c_interface::{CallFault, read_prefix};
use network_model::{Cost, Limits, LinkSpec, NetworkFault, Prefix};
use std::alloc::Global;

/// How large a network may be: the most routers, links, links of one router, prefixes, and attachments.
#[repr(C)]
#[derive(Clone, Copy)]
pub struct LimitsParts {
    pub routers: usize,
    pub links: usize,
    pub ports: usize,
    pub prefixes: usize,
    pub attachments: usize,
}

/// A link to be: the costs from its two routers, and their numbers.
#[repr(C)]
#[derive(Clone, Copy)]
pub struct LinkParts {
    pub from_a: u32,
    pub from_b: u32,
    pub a: u16,
    pub b: u16,
}

/// A router that is attached to a prefix, at a cost.
#[repr(C)]
#[derive(Clone, Copy)]
pub struct AttachmentParts {
    pub addr: u32,
    pub cost: u32,
    pub router: u16,
    pub len: u8,
}

/// Where a fault stands: its position in a list, from 0, and which list that is: 1 of links, 2 of
/// attachments, 0 neither.
#[repr(C)]
#[derive(Clone, Copy, Debug, PartialEq, Eq)]
pub struct FaultPlace {
    pub position: usize,
    pub list: u8,
}

impl FaultPlace {
    /// Where the fault of a network stands.
    pub fn of(fault: NetworkFault) -> FaultPlace
        ensures { result ≡ place_of fault }
    {
        match fault {
            NetworkFault::BadRouters => FaultPlace {
                position: 0,
                list: 0,
            },
            NetworkFault::BadLink { link } | NetworkFault::TooManyLinks { link } => FaultPlace {
                position: link,
                list: 1,
            },
            NetworkFault::BadOwner { prefix } => FaultPlace {
                position: prefix,
                list: 2,
            },
        }
    }
}

/// The cost of a number.
pub fn read_cost(cost: u32) -> Result<Cost, CallFault>
    ensures ok { IfOk result (λ c. (cost_fault cost ≡ None) × (c ≡ cost)) }
    ensures err { IfErr result (λ f. cost_fault cost ≡ Some f) }
{
    let read = Cost::new(cost)?;
    Ok(read)
}

impl LimitsParts {
    /// The limits of the program.
    pub const PROGRAM: LimitsParts = LimitsParts {
        routers: 256,
        links: 1024,
        ports: 32,
        prefixes: 4096,
        attachments: 16_384,
    };

    /// The limits of these parts.
    pub fn limits(&self) -> Limits
        ensures { result ≡ limits_of self.now }
    {
        Limits {
            routers: self.routers,
            links: self.links,
            ports: self.ports,
            prefixes: self.prefixes,
            attachments: self.attachments,
        }
    }
}

impl LinkParts {
    fn read(&self) -> Result<LinkSpec, CallFault>
        ensures ok { IfOk result (λ l. (link_fault self.now ≡ None) × (l ≡ link_spec self.now)) }
        ensures err { IfErr result (λ f. link_fault self.now ≡ Some f) }
    {
        let from_a = read_cost(self.from_a)?;
        let from_b = read_cost(self.from_b)?;
        Ok(LinkSpec {
            a: self.a,
            b: self.b,
            from_a,
            from_b,
        })
    }
}

impl AttachmentParts {
    fn read(&self) -> Result<(Prefix, u16, Cost), CallFault>
        ensures ok { IfOk result (λ a. (attachment_parts_fault self.now ≡ None)
            × (a ≡ attachment_of_parts self.now)) }
        ensures err { IfErr result (λ f. attachment_parts_fault self.now ≡ Some f) }
    {
        let prefix = read_prefix(self.addr, self.len)?;
        let cost = read_cost(self.cost)?;
        Ok((prefix, self.router, cost))
    }
}

/// Tests links: the first that has a fault, with its position.
pub fn check_links(links: &[LinkParts]) -> Result<(), (CallFault, usize)>
    ensures ok { OnOk result (first_place link_fault 0 links.now ≡ None) }
    ensures err { IfErr result (λ f. first_place link_fault 0 links.now ≡ Some f) }
{
    for (place, &link) in links.iter().enumerate() {
        match link.read() {
            Ok(_read) => {}
            Err(fault) => return Err((fault, place)),
        }
    }
    Ok(())
}

/// Tests attachments: the first that has a fault, with its position.
pub fn check_attachments(attachments: &[AttachmentParts]) -> Result<(), (CallFault, usize)>
    ensures ok { OnOk result (first_place attachment_parts_fault 0 attachments.now ≡ None) }
    ensures err { IfErr result (λ f. first_place attachment_parts_fault 0 attachments.now ≡ Some f) }
{
    for (place, &attachment) in attachments.iter().enumerate() {
        match attachment.read() {
            Ok(_read) => {}
            Err(fault) => return Err((fault, place)),
        }
    }
    Ok(())
}

/// The links of these parts.
pub fn read_links(alloc: Global, links: &[LinkParts]) -> Result<Vec<LinkSpec>, CallFault>
    requires { first_fault_in link_fault links.now ≡ None }
    ensures ok { IfOk result (λ read. read.items ≡ map link_spec links.now) }
    ensures err { IsOkUnless result CallFault.NoMemory }
{
    let mut read = Vec::with_capacity(alloc, links.len())?;
    for link in links {
        read.push(link.read()?)?;
    }
    Ok(read)
}

/// The attachments of these parts.
pub fn read_attachments(
    alloc: Global,
    attachments: &[AttachmentParts],
) -> Result<Vec<(Prefix, u16, Cost)>, CallFault>
    requires { first_fault_in attachment_parts_fault attachments.now ≡ None }
    ensures ok { IfOk result (λ read. read.items ≡ map attachment_of_parts attachments.now) }
    ensures err { IsOkUnless result CallFault.NoMemory }
{
    let mut read = Vec::with_capacity(alloc, attachments.len())?;
    for attachment in attachments {
        read.push(attachment.read()?)?;
    }
    Ok(read)
}
