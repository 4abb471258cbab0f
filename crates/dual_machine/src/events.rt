//! What an event says, and what it does to the parts of a machine.

ghost use Rattle.std.specs.Prelude.{◌≡◌, ℕ, ◌≤◌, ◌++◌, nat_lt, length};
ghost use Rattle.std.specs.FinSet as set;
ghost use Rattle.metric.specs.Distance.{infinity};
ghost use Rattle.network_model.specs.Machine as dual;
ghost use Rattle.network_model.specs.Network.{most_ports};
ghost use Rattle.dual_machine.specs.Awaited.{awaited_of, AwaitsBelow};
ghost use Rattle.dual_machine.specs.Event as events;
ghost use Rattle.dual_machine.specs.State as state;

use crate::distances::via_successor;
use diffusing_replies::{Debt, Origin, PortSet, Replies};
use network_model::{Cost, Distance, Event, Kind, Neighbour};

// Whether this is the port, if there is one.
pub(crate) fn is_port(port: u8, other: Option<u8>) -> bool
    ensures { result ≡ dual.is_port port other }
{
    other == Some(port)
}

// The port whose query the event is.
pub(crate) fn asker(event: &Event) -> Option<u8>
    ensures { result ≡ dual.asker event.now }
{
    match *event {
        Event::Message {
            port,
            kind: Kind::Query,
            ..
        } => Some(port),
        _ => None,
    }
}

// The port whose query is answered at once by an active machine: one other than the successor's.
pub(crate) fn other_asker(event: &Event, successor: Option<u8>) -> Option<u8>
    ensures { (m : dual.Machine) → m.successor ≡ successor
        → dual.one_to result Kind.Reply m.rd ≡ dual.answers_at_once m event.now }
{
    match *event {
        Event::Message {
            port,
            kind: Kind::Query,
            ..
        } if !is_port(port, successor) => Some(port),
        _ => None,
    }
}

// The attachment after the event.
pub(crate) fn attachment_after(event: &Event, attachment: Option<Cost>) -> Option<Cost>
    ensures { result ≡ dual.attachment_after event.now attachment }
{
    match *event {
        Event::Attached { cost } => Some(cost),
        Event::Detached => None,
        _ => attachment,
    }
}

// The successor after the event: none where its link is lost, or the attachment that it is.
pub(crate) fn successor_after(degree: u8, event: &Event, successor: Option<u8>) -> Option<u8>
    ensures { result ≡ dual.successor_after degree event.now successor }
{
    match *event {
        Event::Down { port } if is_port(port, successor) => None,
        Event::Detached if is_port(degree, successor) => None,
        _ => successor,
    }
}

// The port to which a reply is owed after the event.
pub(crate) fn debt_after(event: &Event, successor: Option<u8>, debt: Debt) -> Debt
    ensures { result ≡ dual.debt_after successor event.now debt }
{
    match *event {
        Event::Message {
            port,
            kind: Kind::Query,
            ..
        } if is_port(port, successor) => Some(port),
        Event::Down { port } if is_port(port, debt) => None,
        _ => debt,
    }
}

// Whether the event takes the successor: its link, or the attachment that it is.
fn is_loss_of(degree: u8, successor: Option<u8>, event: &Event) -> bool
    ensures { result ≡ state.is_loss_of degree successor event.now }
{
    match *event {
        Event::Down { port } => is_port(port, successor),
        Event::Detached => is_port(degree, successor),
        _ => false,
    }
}

// Whether the event is a query from the successor.
fn is_query_from(successor: Option<u8>, event: &Event) -> bool
    ensures { result ≡ state.is_query_from successor event.now }
{
    match *event {
        Event::Message {
            port,
            kind: Kind::Query,
            ..
        } => is_port(port, successor),
        _ => false,
    }
}

// Changes the record of the event's port, if it has one.
pub(crate) fn change_record(ports: &mut [Neighbour], event: &Event)
    requires { events.IsKnown (length ports.old) event.now }
    ensures records { ports.new ≡ dual.records_after event.now ports.old }

    // Known by the type of a cost.
    ensures cost { events.BringsCost event.now }
{
    match *event {
        Event::Message { port, value, .. } => ports[port as usize].reported = value,
        Event::Up { port, cost } => {
            prove!(cost.value() > 0);
            ports[port as usize] = Neighbour {
                up: true,
                cost,
                reported: Distance::INF,
            }
        }
        Event::Down { port } => ports[port as usize].up = false,
        Event::Cost { port, cost } => {
            prove!(cost.value() > 0);
            ports[port as usize].cost = cost
        }
        Event::Attached { cost } => prove!(cost.value() > 0),
        Event::Detached => {}
    }
}

// A reply ends the wait for its port, and so does the loss of the link.
pub(crate) fn end_wait(replies: &mut Replies, event: &Event)
    requires { events.IsKnown 32 event.now }
    ensures awaited { (n : ℕ) → awaited_of n replies.new
        ≡ dual.awaited_after event.now (awaited_of n replies.old) }
    ensures no_more { (n : ℕ) → AwaitsBelow n replies.old → AwaitsBelow n replies.new }
{
    match *event {
        Event::Message {
            port,
            kind: Kind::Reply,
            ..
        } => replies.came(port),
        Event::Down { port } => replies.lost(port),
        _ => {}
    }
}

// The ports of the neighbours that are up.
pub(crate) fn up_ports(ports: &[Neighbour]) -> PortSet
    requires { length ports.now ≤ most_ports }
    ensures { (q : ℕ) → set.contains result q ≡ events.is_neighbour_up ports.now q }
{
    let mut up = PortSet::empty();
    for (port, neighbour) in ports.iter().enumerate() {
        if neighbour.up {
            up = up.with(port as u8);
        }
    }
    up
}

// Whether the distance by way of the successor is above the one with which the computation began.
pub(crate) fn has_risen(
    rd: Distance,
    ports: &[Neighbour],
    attachment: &Option<Cost>,
    successor: Option<u8>,
) -> bool
    ensures risen { result ≡ nat_lt rd
        (dual.via_successor (ports.now ++ dual.home_ways attachment.now) successor) }
    ensures bounded { rd ≤ infinity }
{
    rd.value() < via_successor(ports, attachment, successor).value()
}

// The origin state after the event, by the successor before it.
pub(crate) fn moved(
    origin: Origin,
    degree: u8,
    event: &Event,
    successor: Option<u8>,
    risen: bool,
) -> Origin
    ensures { result ≡ state.moved degree successor event.now risen origin }
{
    if is_loss_of(degree, successor, event) {
        origin.lost()
    } else if is_query_from(successor, event) {
        origin.queried()
    } else if risen {
        origin.rose()
    } else {
        origin
    }
}
