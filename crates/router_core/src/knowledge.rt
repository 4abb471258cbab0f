//! Whether a machine knows anything of its prefix.

ghost use Rattle.std.specs.Prelude.{◌≡◌, ◌≤◌, length};
ghost use Rattle.std.specs.List.{list_all};
ghost use Rattle.network_model.specs.Network.{most_ports};
ghost use Rattle.router_core.specs.Alone.{is_unreported, knows_nothing};

use dual_machine::Machine;
use network_model::{Neighbour, SmallAllocator};

// Whether the neighbour has reported no distance that counts.
fn is_unreported(neighbour: &Neighbour) -> bool
    ensures { result ≡ is_unreported neighbour.now }
{
    !neighbour.up || neighbour.reported.is_infinite()
}

// Whether no neighbour has reported a distance that counts.
fn are_unreported<A: SmallAllocator>(machine: &Machine<A>, port_count: usize) -> bool
    requires ports { length machine.now.machine.ports ≡ port_count }
    requires few { port_count ≤ most_ports }
    ensures { result ≡ list_all is_unreported machine.now.machine.ports }
{
    for port in 0..port_count {
        if let Some(neighbour) = machine.neighbour(port as u8) {
            if !is_unreported(&neighbour) {
                return false;
            }
        }
    }
    true
}

// Whether the machine, which has this many ports, knows no more than one that has heard nothing.
pub fn knows_nothing<A: SmallAllocator>(machine: &Machine<A>, port_count: usize) -> bool
    requires ports { length machine.now.machine.ports ≡ port_count }
    requires few { port_count ≤ most_ports }
    ensures { result ≡ knows_nothing machine.now.machine }
{
    machine.is_passive()
        && machine.attachment().is_none()
        && machine.successor().is_none()
        && machine.rd().is_infinite()
        && machine.fd().is_infinite()
        && are_unreported(machine, port_count)
}
