//! What the links, the routers and the machines of a network are at, read off it once for reports, JSON and pages.
//!
//! Each of these adds what it tells besides: the length of a queue, or the items in it; the row that a router
//! chose, or the one that it published, too. The notices that a router has yet to take belong to the world, and
//! not to the router, so their count is given. (C has records of its own, in `network_calls`.)

ghost use Rattle.std.specs.Prelude.{◌≡◌, ◌<◌, IfSome, length, slice_get};
ghost use Rattle.lines.specs.States.{IsMachineState, IsOriginNumber, link_state, router_state};

use dual_machine::{Machine, Mode};
use link_fifo::Links;
use metric::{Cost, Distance};
use network_model::End;
use router_core::Router;

/// What a link is at.
#[derive(Clone, Copy, PartialEq, Eq)]
pub struct LinkState {
    /// Whether it is up.
    pub up: bool,
    /// How often it came up.
    pub session: u16,
    /// The cost from its end A.
    pub from_a: Cost,
    /// The cost from its end B.
    pub from_b: Cost,
}

impl LinkState {
    /// Of the link of this number.
    pub fn of(links: &Links, link: u16) -> LinkState
        requires { link < length links.now.links }
        ensures { IfSome (slice_get links.now.links link) (λ k. result ≡ link_state k) }
    {
        LinkState {
            up: links.is_up(link),
            session: links.session(link),
            from_a: links.cost(link, End::A),
            from_b: links.cost(link, End::B),
        }
    }
}

/// What a router is at.
#[derive(Clone, Copy, PartialEq, Eq)]
pub struct RouterState {
    /// How often it published.
    pub generation: u64,
    /// How many messages it holds, the ripe ones too.
    pub held: usize,
    /// How many of them are ripe.
    pub ripe: usize,
    /// How many notices of its own attachments it has yet to take.
    pub notices: usize,
}

impl RouterState {
    /// Of a router that has yet to take so many notices of its attachments.
    pub fn of(router: &Router, notices: usize) -> RouterState
        ensures { result ≡ router_state router.now notices }
    {
        RouterState {
            generation: router.generation(),
            held: router.held(),
            ripe: router.ripe(),
            notices,
        }
    }
}

/// What a machine is at.
#[derive(Clone, Copy, PartialEq, Eq)]
pub struct MachineState {
    /// The number of the origin state, 0..=3; none where the machine is passive.
    pub origin: Option<u8>,
    /// The reported distance.
    pub rd: Distance,
    /// The feasible distance.
    pub fd: Distance,
}

impl MachineState {
    /// Of this machine.
    pub fn of(machine: &Machine) -> MachineState
        ensures { IsMachineState machine.now result }
    {
        MachineState {
            origin: origin_number(machine),
            rd: machine.rd(),
            fd: machine.fd(),
        }
    }
}

// The number of the origin state of the computation under way.
fn origin_number(machine: &Machine) -> Option<u8>
    ensures { IsOriginNumber machine.now result }
{
    match machine.mode() {
        Mode::Passive => None,
        Mode::Active { origin, .. } => Some(origin.number()),
    }
}
