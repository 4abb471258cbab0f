//! The calls that show what is on a machine, a link, a queue, a gate and a queue of notices.

ghost use Rattle.std.specs.Prelude.{◌≡◌, ◌≢◌, Some, IfSome, option_map, slice_get};
ghost use Rattle.c_interface.specs.Rows.{as_prefix};
ghost use Rattle.network_calls.specs.Calls.{at_link, at_machine, at_router_port, at_router, shown_machine};
ghost use Rattle.network_calls.specs.Failures.{status_by_failure};
ghost use Rattle.network_calls.specs.Handles.{handle_going, handle_network};
ghost use Rattle.network_calls.specs.Shown.{gate_at, link_shown, AreHeldShown, AreNoticesShown, IsQueueShown};

use c_interface::{CallFault, read_prefix};
use network_calls::{
    Failure, GateShown, ItemShown, LinkShown, MachineShown, NetworkHandle, NoticeShown, machine_of,
    queue_of, write_held, write_notices,
};
use network_model::Refusal;
use single_router::Frame;
use std::alloc::Global;

/// Writes what a router's machine for a prefix has. It takes no memory.
#[unsafe(no_mangle)]
pub extern "C" fn tuhvondi_network_machine(
    alloc: Global,
    network: &mut NetworkHandle,
    router: u16,
    addr: u32,
    len: u8,
    machine: &mut MachineShown,
) -> u32
    ensures status { result ≡ status_by_failure (at_machine router addr len (handle_network network.old)) }
    ensures done { result ≡ 0 → IfSome (handle_network network.old) (λ s.
        shown_machine s.world router (as_prefix addr len) ≡ Some machine.new) }
    ensures refused { result ≢ 0 → machine.new ≡ machine.old }
    ensures network { handle_going network.new ≡ handle_going network.old }
{
    let prefix = match read_prefix(addr, len) {
        Ok(prefix) => prefix,
        Err(fault) => return fault.number(),
    };
    let Some(held) = network.take(alloc) else {
        return CallFault::Empty.number();
    };
    let found = machine_of(held.simulation().world(), router, prefix);
    network.put(held);
    match found {
        Ok(shown) => {
            *machine = shown;
            0
        }
        Err(refusal) => Failure::Refused(refusal).number(),
    }
}

/// Writes what a link has now. It takes no memory.
#[unsafe(no_mangle)]
pub extern "C" fn tuhvondi_network_link(
    alloc: Global,
    network: &mut NetworkHandle,
    link: u16,
    shown: &mut LinkShown,
) -> u32
    ensures status { result ≡ status_by_failure (at_link link (handle_network network.old)) }
    ensures done { result ≡ 0 → IfSome (handle_network network.old) (λ s.
        option_map link_shown (slice_get s.world.links link) ≡ Some shown.new) }
    ensures refused { result ≢ 0 → shown.new ≡ shown.old }
    ensures network { handle_going network.new ≡ handle_going network.old }
{
    let Some(held) = network.take(alloc) else {
        return CallFault::Empty.number();
    };
    let found = LinkShown::at(held.simulation().world(), link);
    network.put(held);
    let Some(found) = found else {
        return Failure::Refused(Refusal::UnknownLink).number();
    };
    *shown = found;
    0
}

/// Writes the items that a router has yet to take from a port, oldest first and as many as there is room for,
/// how many these are, and whether there are more (1, else 0). It takes no memory.
#[unsafe(no_mangle)]
pub extern "C" fn tuhvondi_network_queue(
    alloc: Global,
    network: &mut NetworkHandle,
    router: u16,
    port: u8,
    items: &mut [ItemShown],
    written: &mut usize,
    more: &mut u8,
) -> u32
    ensures status { result ≡ status_by_failure (at_router_port router port (handle_network network.old)) }
    ensures done { result ≡ 0 → IfSome (handle_network network.old) (λ s. IsQueueShown
        s.world router port items.old items.new written.new more.new) }
    ensures refused { result ≢ 0 →
        (items.new ≡ items.old) × (written.new ≡ written.old) × (more.new ≡ more.old) }
    ensures network { handle_going network.new ≡ handle_going network.old }
{
    let Some(held) = network.take(alloc) else {
        return CallFault::Empty.number();
    };
    let told = queue_of(held.simulation().world(), router, port, items);
    network.put(held);
    match told {
        Ok((count, left)) => {
            *written = count;
            *more = u8::from(left);
            0
        }
        Err(refusal) => Failure::Refused(refusal).number(),
    }
}

/// Writes what a router holds back. It takes no memory.
#[unsafe(no_mangle)]
pub extern "C" fn tuhvondi_network_gate(
    alloc: Global,
    network: &mut NetworkHandle,
    router: u16,
    gate: &mut GateShown,
) -> u32
    ensures status { result ≡ status_by_failure (at_router router (handle_network network.old)) }
    ensures done { result ≡ 0 → IfSome (handle_network network.old) (λ s.
        gate_at router s.world ≡ Some gate.new) }
    ensures refused { result ≢ 0 → gate.new ≡ gate.old }
    ensures network { handle_going network.new ≡ handle_going network.old }
{
    let Some(held) = network.take(alloc) else {
        return CallFault::Empty.number();
    };
    let found = GateShown::at(held.simulation().world(), router);
    network.put(held);
    let Some(found) = found else {
        return Failure::Refused(Refusal::UnknownRouter).number();
    };
    *gate = found;
    0
}

/// Writes the messages that a router holds, oldest first and as many as there is room for, how many these
/// are, and whether there are more (1, else 0). The ripe ones of them are the first. It takes no memory.
#[unsafe(no_mangle)]
pub extern "C" fn tuhvondi_network_held(
    alloc: Global,
    network: &mut NetworkHandle,
    router: u16,
    messages: &mut [Frame],
    written: &mut usize,
    more: &mut u8,
) -> u32
    ensures status { result ≡ status_by_failure (at_router router (handle_network network.old)) }
    ensures done { result ≡ 0 → IfSome (handle_network network.old) (λ s. AreHeldShown
        s.world router messages.old messages.new written.new more.new) }
    ensures refused { result ≢ 0 →
        (messages.new ≡ messages.old) × (written.new ≡ written.old) × (more.new ≡ more.old) }
    ensures network { handle_going network.new ≡ handle_going network.old }
{
    let Some(held) = network.take(alloc) else {
        return CallFault::Empty.number();
    };
    let told = match held.simulation().world().routers().get(usize::from(router)) {
        Some(found) => Some(write_held(found, messages)),
        None => None,
    };
    network.put(held);
    let Some((count, left)) = told else {
        return Failure::Refused(Refusal::UnknownRouter).number();
    };
    *written = count;
    *more = u8::from(left);
    0
}

/// Writes the notices of its attachments that a router has yet to take, oldest first and as many as there is
/// room for, how many these are, and whether there are more (1, else 0). It takes no memory.
#[unsafe(no_mangle)]
pub extern "C" fn tuhvondi_network_notices(
    alloc: Global,
    network: &mut NetworkHandle,
    router: u16,
    notices: &mut [NoticeShown],
    written: &mut usize,
    more: &mut u8,
) -> u32
    ensures status { result ≡ status_by_failure (at_router router (handle_network network.old)) }
    ensures done { result ≡ 0 → IfSome (handle_network network.old) (λ s. AreNoticesShown
        s.world router notices.old notices.new written.new more.new) }
    ensures refused { result ≢ 0 →
        (notices.new ≡ notices.old) × (written.new ≡ written.old) × (more.new ≡ more.old) }
    ensures network { handle_going network.new ≡ handle_going network.old }
{
    let Some(held) = network.take(alloc) else {
        return CallFault::Empty.number();
    };
    let told = match held.simulation().world().routers().get(usize::from(router)) {
        Some(_) => Some(write_notices(held.simulation().world(), router, notices)),
        None => None,
    };
    network.put(held);
    let Some((count, left)) = told else {
        return Failure::Refused(Refusal::UnknownRouter).number();
    };
    *written = count;
    *more = u8::from(left);
    0
}
