//! Networks that are opened for C.

ghost use Rattle.std.specs.Prelude.{◌≡◌, None, true, length, map, IfErr, IfOk, OnOk};
ghost use Rattle.network_model.specs.Network.{widest_limits, AreWithin};
ghost use Rattle.network_calls.specs.{Delays.delays_of, Delays.is_counted, Delays.IsTimedFault, Running.opening_steps, Running.IsTimedOpening};
ghost use Rattle.network_calls.specs.Parts.{limits_of, list_fault, network_failure, parts_network, IsFaultWithin, IsOpeningFault};

use crate::delays::{DelayParts, read_delays};
use crate::failure::Failure;
use crate::parts::{
    AttachmentParts, FaultPlace, LimitsParts, LinkParts, check_attachments, check_links,
    read_attachments, read_links,
};
use crate::running::Running;
use c_interface::CallFault;
use network_model::{Limits, NoMemory};
use simulation::Network;
use std::alloc::Global;

// Where no list has the fault.
const NOWHERE: FaultPlace = FaultPlace {
    position: 0,
    list: 0,
};

// What is refused for want of memory.
const FULL: (Failure, FaultPlace) = (Failure::Given(CallFault::NoMemory), NOWHERE);

// What is refused because a delay is missing, or one too many.
const MISCOUNTED: (Failure, FaultPlace) = (Failure::Given(CallFault::BadCount), NOWHERE);

// The network of these parts within limits of the caller's, of which a fault is told first.
fn read_network_within(
    alloc: Global,
    limits: &LimitsParts,
    routers: usize,
    links: &[LinkParts],
    attachments: &[AttachmentParts],
) -> Result<Network, (Failure, FaultPlace)>
    ensures within { OnOk result (AreWithin (limits_of limits.now) widest_limits) }
    ensures ok { OnOk result ((list_fault links.now attachments.now ≡ None)
        × (network_failure (limits_of limits.now) routers links.now attachments.now ≡ None)) }
    ensures network { IfOk result (λ n. n ≡ parts_network routers links.now attachments.now) }
    ensures err { IfErr result
        (IsFaultWithin (limits_of limits.now) routers links.now attachments.now) }
{
    let own = limits.limits();
    if !own.are_within(&Limits::WIDEST) {
        return Err((Failure::BadLimits, NOWHERE));
    }
    read_network(alloc, own, routers, links, attachments)
}

// The network of these parts within these limits. The first fault of the lists is answered with its place;
// then memory may be refused, or else the first fault of the network is answered.
fn read_network(
    alloc: Global,
    limits: Limits,
    routers: usize,
    links: &[LinkParts],
    attachments: &[AttachmentParts],
) -> Result<Network, (Failure, FaultPlace)>
    requires { AreWithin limits widest_limits }
    ensures ok { OnOk result ((list_fault links.now attachments.now ≡ None)
        × (network_failure limits routers links.now attachments.now ≡ None)) }
    ensures network { IfOk result (λ n. n ≡ parts_network routers links.now attachments.now) }
    ensures err { IfErr result (IsOpeningFault (list_fault links.now attachments.now)
        (network_failure limits routers links.now attachments.now)) }
{
    if let Err((fault, position)) = check_links(links) {
        return Err((Failure::Given(fault), FaultPlace { position, list: 1 }));
    }
    if let Err((fault, position)) = check_attachments(attachments) {
        return Err((Failure::Given(fault), FaultPlace { position, list: 2 }));
    }
    let Ok(read) = read_links(alloc, links) else {
        return Err(FULL);
    };
    let Ok(rows) = read_attachments(alloc, attachments) else {
        return Err(FULL);
    };
    match Network::within(limits, routers, read, rows) {
        Ok(network) => Ok(network),
        Err(fault) => Err((Failure::Network(fault), FaultPlace::of(fault))),
    }
}

/// Opens the network of these parts within limits of the caller's, of which a fault is told first. It goes on by
/// steps.
pub fn open(
    alloc: Global,
    limits: &LimitsParts,
    routers: usize,
    links: &[LinkParts],
    attachments: &[AttachmentParts],
) -> Result<Box<Running>, (Failure, FaultPlace)>
    ensures within { OnOk result (AreWithin (limits_of limits.now) widest_limits) }
    ensures ok { OnOk result ((list_fault links.now attachments.now ≡ None)
        × (network_failure (limits_of limits.now) routers links.now attachments.now ≡ None)) }
    ensures opened { IfOk result (λ b. b.value
        ≡ opening_steps (parts_network routers links.now attachments.now)) }
    ensures err { IfErr result
        (IsFaultWithin (limits_of limits.now) routers links.now attachments.now) }
{
    let network = read_network_within(alloc, limits, routers, links, attachments)?;
    match boxed(alloc, network) {
        Ok(opened) => Ok(opened),
        Err(_) => Err(FULL),
    }
}

/// Opens the network of these parts as [`open`] does, but in simulated time, with these delays of its links and of its
/// routers' publications; one that keeps a record, if this is asked for. That the delays are not as many as links
/// and routers is told before all else.
pub fn open_timed(
    alloc: Global,
    limits: &LimitsParts,
    routers: usize,
    links: &[LinkParts],
    attachments: &[AttachmentParts],
    delays: &[DelayParts],
    publications: &[u64],
    records: bool,
) -> Result<Box<Running>, (Failure, FaultPlace)>
    ensures counted { OnOk result (is_counted routers links.now delays.now publications.now ≡ true) }
    ensures within { OnOk result (AreWithin (limits_of limits.now) widest_limits) }
    ensures ok { OnOk result ((list_fault links.now attachments.now ≡ None)
        × (network_failure (limits_of limits.now) routers links.now attachments.now ≡ None)) }
    ensures opened { IfOk result (λ b. IsTimedOpening records (parts_network routers links.now
        attachments.now) (map delays_of delays.now) publications.now b.value) }
    ensures err { IfErr result (IsTimedFault (limits_of limits.now)
        routers links.now attachments.now delays.now publications.now) }
{
    if !are_counted(routers, links, delays, publications) {
        return Err(MISCOUNTED);
    }
    let network = read_network_within(alloc, limits, routers, links, attachments)?;
    match boxed_timed(alloc, network, delays, publications, records) {
        Ok(opened) => Ok(opened),
        Err(_) => Err(FULL),
    }
}

/// A network equal to this one, in a box of its own.
pub fn copy_of(alloc: Global, network: &Running) -> Result<Box<Running>, NoMemory>
    ensures { IfOk result (λ b. b.value ≡ network.now) }
{
    let copy = network.copy(alloc)?;
    let boxed = Box::new(alloc, copy)?;
    Ok(boxed)
}

// Whether there are delays for each link, and one for each router.
fn are_counted(
    routers: usize,
    links: &[LinkParts],
    delays: &[DelayParts],
    publications: &[u64],
) -> bool
    ensures counted { result ≡ is_counted routers links.now delays.now publications.now }
    ensures each_link { result ≡ true → length delays.now ≡ length links.now }
    ensures each_router { result ≡ true → length publications.now ≡ routers }
{
    delays.len() == links.len() && publications.len() == routers
}

// Opens a network that goes on by steps, in a box.
fn boxed(alloc: Global, network: Network) -> Result<Box<Running>, NoMemory>
    ensures { IfOk result (λ b. b.value ≡ opening_steps network) }
{
    let running = Running::open(alloc, network)?;
    let boxed = Box::new(alloc, running)?;
    Ok(boxed)
}

// Opens a network in simulated time, in a box.
fn boxed_timed(
    alloc: Global,
    network: Network,
    delays: &[DelayParts],
    publications: &[u64],
    records: bool,
) -> Result<Box<Running>, NoMemory>
    requires each_link { length delays.now ≡ length network.links }
    requires each_router { length publications.now ≡ network.routers }
    ensures { IfOk result (λ b. IsTimedOpening records network (map delays_of delays.now)
        publications.now b.value) }
{
    let read = read_delays(alloc, delays)?;
    let opened = Running::open_timed(alloc, records, network, &read, publications)?;
    let boxed = Box::new(alloc, opened)?;
    Ok(boxed)
}
