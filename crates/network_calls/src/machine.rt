//! What a machine has, as C is shown it.

ghost use Rattle.std.specs.Prelude.{◌≡◌, None, Some, map, IfErr, IfOk, OnOk};
ghost use Rattle.std.specs.List.{range_with_len};
ghost use Rattle.network_calls.specs.{Calls.machine_refusal, Calls.shown_machine, Shown.machine_heard, Shown.neighbour_shown, Shown.successor_shown};

use dual_machine::Machine;
use network_model::{Prefix, Refusal};
use router_core::Router;
use simulation::World;
use single_router::State;

/// What a machine keeps of the neighbour at a port: the distance that the neighbour reported last (4294967295
/// is infinity), the cost of the link from here, and whether the link is up (1, else 0). Of a port that is
/// not there all are 0.
#[repr(C)]
#[derive(Clone, Copy, Debug, PartialEq, Eq)]
pub struct NeighbourShown {
    pub reported: u32,
    pub cost: u32,
    pub up: u8,
}

/// What a router's machine has of a prefix: what a router shows of it, what it keeps of the neighbour at each
/// port, and its successor: a port, or how many ports there are for the router's own attachment, or 255 for
/// none.
#[repr(C)]
#[derive(Clone, Copy, Debug, PartialEq, Eq)]
pub struct MachineShown {
    pub state: State,
    pub neighbours: [NeighbourShown; 32],
    pub successor: u8,
}

const NOBODY: NeighbourShown = NeighbourShown {
    reported: 0,
    cost: 0,
    up: 0,
};

impl MachineShown {
    /// That of a router's machine for a prefix; none where the router has not heard of the prefix.
    pub fn at(router: &Router, prefix: Prefix) -> Option<MachineShown>
        ensures { result ≡ machine_heard prefix router.now }
    {
        let machine = router.machine(prefix)?;
        Some(MachineShown {
            state: State::of(prefix, machine, router.table()),
            neighbours: neighbours_of(machine),
            successor: successor_of(machine),
        })
    }
}

/// What a router's machine for a prefix has; refused with `UnknownRouter`, or with `UnknownPrefix` if the router
/// has not heard of the prefix.
pub fn machine_of(world: &World, router: u16, prefix: Prefix) -> Result<MachineShown, Refusal>
    ensures ok { IfOk result (λ m. shown_machine world.now router prefix ≡ Some m) }
    ensures known { OnOk result (machine_refusal world.now router prefix ≡ None) }
    ensures err { IfErr result (λ e. machine_refusal world.now router prefix ≡ Some e) }
{
    let Some(found) = world.routers().get(usize::from(router)) else {
        return Err(Refusal::UnknownRouter);
    };
    MachineShown::at(found, prefix).ok_or(Refusal::UnknownPrefix)
}

fn neighbour_at(machine: &Machine, port: u8) -> NeighbourShown
    ensures { result ≡ neighbour_shown (machine.now).machine port }
{
    match machine.neighbour(port) {
        Some(kept) => NeighbourShown {
            reported: kept.reported.value(),
            cost: kept.cost.value(),
            up: u8::from(kept.up),
        },
        None => NOBODY,
    }
}

fn neighbours_of(machine: &Machine) -> [NeighbourShown; 32]
    ensures { result ≡ map (neighbour_shown (machine.now).machine) (range_with_len 0 32) }
{
    let mut shown = [NOBODY; 32];
    for port in 0..32 {
        shown[port] = neighbour_at(machine, port as u8);
    }
    shown
}

fn successor_of(machine: &Machine) -> u8
    ensures { result ≡ successor_shown (machine.now).machine }
{
    match machine.successor() {
        Some(port) => port,
        None => u8::MAX,
    }
}
