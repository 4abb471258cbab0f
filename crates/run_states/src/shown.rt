//! What a state shows of a router's machine for a prefix, and what it shows anew.

ghost use Rattle.std.specs.Prelude.{◌≡◌, ◌<◌, ℕ, IfSome, IfNone, IsTrue, None, Some};
ghost use Rattle.std.specs.FinMap.{find as row_of};
ghost use Rattle.std.specs.FinSet as set;
ghost use Rattle.ipv4_prefix.specs.Prefix.{prefix_cmp};
ghost use Rattle.network_model.specs.Network.{most_ports};
ghost use Rattle.run_states.specs.{Books.shown_after, Shown.AreSame, Shown.Awaits, Shown.ShowsMachine};

use diffusing_replies::PortSet;
use dual_machine::{Machine, Mode};
use ipv4_prefix::Prefix;
use lines::{LinkState, MachineState, RouterState};
use network_model::Entry;
use router_core::Router;

/// What is shown of a router's machine for a prefix.
#[derive(Clone, Copy)]
pub(crate) struct MachineShown {
    pub at: MachineState,
    /// The ports whose replies are awaited.
    pub awaited: PortSet,
    /// The entry that the router chose.
    pub chosen: Option<Entry>,
    /// The entry that the router published.
    pub published: Option<Entry>,
}

impl MachineShown {
    /// Whether the same is shown.
    pub(crate) fn is_same(&self, other: &MachineShown) -> bool
        ensures { IsTrue result → AreSame self.now other.now }
    {
        if self.at != other.at {
            return false;
        }
        if self.chosen != other.chosen || self.published != other.published {
            return false;
        }
        has_same_ports(self.awaited, other.awaited)
    }
}

fn has_same_ports(one: PortSet, other: PortSet) -> bool
    ensures { IsTrue result
        → (q : ℕ) → q < most_ports → set.contains one q ≡ set.contains other q }
{
    for port in 0..32 {
        if one.has(port) != other.has(port) {
            return false;
        }
    }
    true
}

/// Whether the same is shown of a link.
pub(crate) fn is_same_link(one: &Option<LinkState>, other: &Option<LinkState>) -> bool
    ensures { IsTrue result → one.now ≡ other.now }
{
    *one == *other
}

/// What is shown of a router, where it was not shown before.
pub(crate) fn router_news(before: Option<RouterState>, now: RouterState) -> Option<RouterState>
    ensures { shown_after result before ≡ Some now }
{
    if before == Some(now) { None } else { Some(now) }
}

/// What is shown of a router's machine for a prefix; none where the router has not heard of it.
pub(crate) fn machine_shown(router: &Router, prefix: Prefix) -> Option<MachineShown>
    ensures some { IfSome result (ShowsMachine router.now prefix) }
    ensures none { IfNone result (row_of prefix_cmp prefix (router.now).machines ≡ None) }
{
    let machine = router.machine(prefix)?;
    Some(MachineShown {
        at: MachineState::of(machine),
        awaited: awaited_ports(machine),
        chosen: router.table().get(prefix),
        published: router.table().published(prefix),
    })
}

// The ports whose replies the computation under way awaits.
fn awaited_ports(machine: &Machine) -> PortSet
    ensures { Awaits machine.now.machine result }
{
    match machine.mode() {
        Mode::Passive => PortSet::empty(),
        Mode::Active { awaited, .. } => awaited,
    }
}
