//! The router.

ghost use Rattle.std.specs.Prelude.{◌≡◌, ◌+◌, ◌^◌, ◌<◌, ◌≤◌, ◌↔◌, map, length, true, Some, None, IsTrue, IfOk, OnOk, OnErr, OnSome, IfNone, slice_get, slice_set, is_none, option_map};
ghost use Rattle.std.specs.{List.list_all, FinMap.find as row_of, FinMap.put, FinMap.is_sorted, Option.option_copied};
ghost use Rattle.ipv4_prefix.specs.Prefix.{prefix_cmp};
ghost use Rattle.network_model.specs.{Machine.opening_machine, Publication.with_rows, Network.most_ports};
ghost use Rattle.network_model.specs.World as world;
ghost use Rattle.network_model.specs.Step as step;
ghost use Rattle.dual_machine.specs.Event.{port_of, IsKnown, IsTimely};
ghost use Rattle.route_table.specs.Place.{IsPlace, without};
ghost use Rattle.router_core.specs.{Alone.router_publishing_some, Alone.may_forget, Alone.router_forgetting, Parts.ups_after, Parts.port_ups, Parts.IsRouter, Room.ItemNeedsMemory, Room.MeetingNeedsMemory, Room.NoticeNeedsMemory, Router.CanTake, Router.is_port_up};

use crate::effects::{Effects, meet_all};
use crate::knowledge::knows_nothing;
use dual_machine::Machine;
use network_model::{
    Cost, Entry, Event, Held, Item, NoMemory, Port, PortInfo, Prefix, SmallAllocator,
};
use route_table::RouteTable;
use std::alloc::{AllocError, Allocator, Global};
use std::marker::Model;

/// A router: what its notices said of its ports, a machine for each prefix that it has heard of, the
/// rows that it has chosen and published, and the messages that it holds back.
#[derive(Drop)]
pub struct Router<A: SmallAllocator = Global> {
    ports: Vec<Port, A>,
    // In the order of the prefixes.
    machines: Vec<(Prefix, Machine<A>), A>,
    effects: Effects<A>,
    generation: u64,
}

impl<A: SmallAllocator> Model for Router<A> {
    ghost use Rattle.network_model.specs.World.{Router as WorldRouter};
    ghost use Rattle.router_core.specs.Parts.{router_of, IsRouter};

    ghost Value = { WorldRouter };

    ghost view = { λ r. router_of r.ports.items r.machines.items r.effects.table.table r.effects.gate.gate r.generation };

    ghost invariant = { λ r. IsRouter
        (router_of r.ports.items r.machines.items r.effects.table.table r.effects.gate.gate r.generation) };
}

// The ports as a machine meets them first.
fn port_infos<A: Allocator>(alloc: A, ports: &[Port]) -> Result<Vec<PortInfo, A>, AllocError>
    ensures { IfOk result (λ v. v.items
        ≡ map (λ p. record { up = p.up; cost = p.cost }) ports.now) }
{
    ports
        .iter()
        .map(|port| PortInfo {
            up: port.up,
            cost: port.cost,
        })
        .collect(alloc)
}

// Where the machine of the prefix stands, or where it would.
fn place_of<A: SmallAllocator>(
    machines: &[(Prefix, Machine<A>)],
    prefix: Prefix,
) -> Result<usize, usize>
    requires { is_sorted prefix_cmp machines.now ≡ true }
    ensures { IsPlace prefix machines.now result }
{
    machines.binary_search_by_key(&prefix, |machine| machine.0)
}

fn are_passive<A: SmallAllocator>(machines: &[(Prefix, Machine<A>)]) -> bool
    ensures { result ≡ list_all (λ m. is_none (m.1).machine.computation) machines.now }
{
    machines.iter().all(|machine| machine.1.is_passive())
}

// Equal machines in memory of this allocator.
fn copy_machines<A: SmallAllocator>(
    alloc: A,
    machines: &[(Prefix, Machine<A>)],
) -> Result<Vec<(Prefix, Machine<A>), A>, NoMemory>
    ensures { IfOk result (λ v. v.items ≡ machines.now) }
{
    let mut copies = Vec::with_capacity(alloc, machines.len())?;
    for machine in machines {
        copies.push_reserved((machine.0, machine.1.copy(alloc)?));
    }
    Ok(copies)
}

// Puts the machine of a prefix in its place, over one that is there.
fn put_machine<A: SmallAllocator>(
    machines: &mut Vec<(Prefix, Machine<A>), A>,
    prefix: Prefix,
    machine: Machine<A>,
) -> Result<(), AllocError>
    requires { is_sorted prefix_cmp machines.old.items ≡ true }
    ensures ok { OnOk result (machines.new.items
        ≡ put prefix_cmp prefix machine machines.old.items) }
    ensures err { OnErr result (machines.new.items ≡ machines.old.items) }
{
    match place_of(machines, prefix) {
        Ok(place) => machines[place].1 = machine,
        Err(place) => machines.insert(place, (prefix, machine))?,
    }
    Ok(())
}

fn remove_machine<A: SmallAllocator>(machines: &mut Vec<(Prefix, Machine<A>), A>, prefix: Prefix)
    requires { is_sorted prefix_cmp machines.old.items ≡ true }
    ensures { machines.new.items ≡ without prefix machines.old.items }
{
    if let Ok(place) = place_of(machines, prefix) {
        machines.remove(place);
    }
}

impl<A: SmallAllocator> Router<A> {
    /// A router with these ports, at most 32, that is attached to these prefixes at these costs and
    /// has published them. Of a prefix that is named more than once the first cost counts.
    pub fn new(
        alloc: A,
        ports: Vec<Port, A>,
        attachments: &[(Prefix, Cost)],
    ) -> Result<Router<A>, NoMemory>
        requires { length ports.items ≤ most_ports }
        ensures { IfOk result (λ r. r ≡ world.opening_router ports.items
            (world.rows_of attachments.now)) }
    {
        let infos = port_infos(alloc, &ports)?;
        let mut machines = Vec::new(alloc);
        let mut table = RouteTable::new(alloc);
        for i in (0..attachments.len()).rev() {
            let attachment = attachments[i];
            let machine = Machine::new(alloc, Some(attachment.1), &infos)?;
            put_machine(&mut machines, attachment.0, machine)?;
            table.set(attachment.0, Entry::Local)?;
        }
        table.mark_published();
        drop(infos);
        let effects = Effects::new(alloc, table)?;
        Ok(Router {
            ports,
            machines,
            effects,
            generation: 0,
        })
    }

    /// An equal router in memory of this allocator. It takes time and memory by what the router keeps.
    pub fn copy(&self, alloc: A) -> Result<Router<A>, NoMemory>
        ensures { IfOk result (λ r. r ≡ self.now) }
    {
        let ports = Vec::from_slice(alloc, &self.ports)?;
        let machines = copy_machines(alloc, &self.machines)?;
        let effects = self.effects.copy(alloc)?;
        Ok(Router {
            ports,
            machines,
            effects,
            generation: self.generation,
        })
    }

    /// How many ports the router has, at most 32.
    pub fn port_count(&self) -> usize
        ensures count { result ≡ length (self.now).ports }
        ensures few { result ≤ most_ports }
    {
        self.ports.len()
    }

    /// What the router's notices said last of one of its ports; none where it has no such port.
    pub fn port(&self, port: u8) -> Option<Port>
        ensures { result ≡ slice_get (self.now).ports port }
    {
        self.ports.get(usize::from(port)).copied()
    }

    /// How often the router has published.
    pub fn generation(&self) -> u64
        ensures { result ≡ (self.now).generation }
    {
        self.generation
    }

    /// The rows that the router has chosen and published.
    pub fn table(&self) -> &RouteTable<A>
        ensures { result.now.table ≡ (self.now).table }
    {
        &self.effects.table
    }

    /// How many messages the router holds.
    pub fn held(&self) -> usize
        ensures { result ≡ length (self.now).gate.held }
    {
        self.effects.gate.held()
    }

    /// The message before which `place` others are held; none where fewer are.
    pub fn message(&self, place: usize) -> Option<Held>
        ensures { result ≡ slice_get (self.now).gate.held place }
    {
        self.effects.gate.message(place)
    }

    /// How many of the held messages, at the front, are ripe, which is to say may leave.
    pub fn ripe(&self) -> usize
        ensures { result ≡ (self.now).gate.ripe }
    {
        self.effects.gate.ripe()
    }

    /// The message that `release` would give: the oldest, where it is ripe.
    pub fn front(&self) -> Option<Held>
        ensures { result ≡ step.ripe_front self.now }
    {
        self.effects.gate.front()
    }

    /// Whether a publication is due: a chosen row differs from the published ones, or a held message
    /// is not ripe.
    pub fn due(&self) -> bool
        ensures { result ≡ step.is_due self.now }
    {
        self.effects.table.is_changed() || self.effects.gate.ripe() < self.effects.gate.held()
    }

    /// The rows that a publication would put in force, in the order of the prefixes: set over the
    /// published rows, they make them the chosen ones.
    pub fn patch_rows(&self, alloc: A) -> Result<Vec<(Prefix, Entry), A>, NoMemory>
        ensures rows { IfOk result (λ rows. rows.items ≡ step.changed_rows (self.now).table) }
        ensures patch { IfOk result (λ rows. with_rows rows.items (self.now).table.published
            ≡ (self.now).table.control) }

        // Where no row has changed it takes no memory.
        ensures full { OnErr result (0 < length (step.changed_rows (self.now).table)) }
    {
        let changed = self.effects.table.changed();
        if !self.effects.table.is_changed() {
            return Ok(Vec::new(alloc));
        }
        let rows = changed.collect(alloc)?;
        Ok(rows)
    }

    /// Publishes: the chosen rows are in force, and all that is held is ripe.
    pub fn mark_published(&mut self)
        requires { (self.old).generation + 1 < 2 ^ 64 }
        ensures { self.new ≡ step.router_publishing self.old }
    {
        self.effects.table.mark_published();
        self.effects.gate.ripen();
        self.generation += 1;
    }

    /// Publishes some: the first `count` of the changed rows, in the order of the prefixes, are in force,
    /// and all of them where there are no more. What is held is no riper for that, and the generation
    /// stays. It takes no memory.
    pub fn publish_some(&mut self, count: usize)
        ensures { self.new ≡ router_publishing_some count self.old }
    {
        self.effects.table.mark_some_published(count);
    }

    /// Takes the oldest message, where it is ripe.
    pub fn release(&mut self) -> Option<Held>
        ensures released { result ≡ step.ripe_front self.old }
        ensures some { OnSome result (self.new ≡ step.router_releasing self.old) }
        ensures none { IfNone result (self.new ≡ self.old) }
    {
        self.effects.gate.release()
    }

    /// Whether no machine of the router has a computation under way.
    pub fn is_passive(&self) -> bool
        ensures { result ≡ list_all (λ m. is_none (m.1).computation) (self.now).machines }
    {
        are_passive(&self.machines)
    }

    /// The machine of the prefix, where the router has heard of it.
    pub fn machine(&self, prefix: Prefix) -> Option<&Machine<A>>
        ensures { option_map (λ m. m.machine) (option_copied result)
            ≡ row_of prefix_cmp prefix (self.now).machines }
    {
        match place_of(&self.machines, prefix) {
            Ok(place) => Some(&self.machines[place].1),
            Err(_) => None,
        }
    }

    /// Whether the router can forget the prefix and lose nothing: it has heard of it, its machine knows
    /// no more than one that has heard nothing, and the prefix's row, Unreachable, is in force. It takes
    /// time by the number of ports.
    pub fn may_forget(&self, prefix: Prefix) -> bool
        ensures { result ≡ may_forget prefix self.now }
    {
        let Some(machine) = self.machine(prefix) else {
            return false;
        };
        knows_nothing(machine, self.ports.len())
            && self.effects.table.published(prefix) == Some(Entry::Unreachable)
    }

    /// Forgets the prefix: its machine and its rows go, whatever they say. `may_forget` says when nothing
    /// is lost by it. What the router holds stays. Once it hears of the prefix again, it opens a machine.
    pub fn forget(&mut self, prefix: Prefix)
        ensures { self.new ≡ router_forgetting prefix self.old }
    {
        remove_machine(&mut self.machines, prefix);
        self.effects.table.forget(prefix);
    }

    /// Whether the router may take the item from this port: the port is known, and the item is the
    /// notice that its link came up where the port is down, and any other where it is up.
    pub fn can_take(&self, port: u8, item: &Item) -> bool
        ensures { IsTrue result ↔ ((port < length (self.now).ports)
            × CanTake (self.now).ports port item.now) }
    {
        match self.ports.get(usize::from(port)) {
            Some(found) => found.up != matches!(item, Item::Up { .. }),
            None => false,
        }
    }

    /// Takes an item from a port. A notice changes the port, and each machine meets it, in the order of
    /// the prefixes; a message meets the machine of its prefix, which is opened over the ports where it
    /// is the first to name that prefix. All growth is made first: refused, the router stays as it was. A
    /// message of a prefix that was heard of is never refused while nothing is held back.
    pub fn accept(&mut self, port: u8, item: &Item) -> Result<(), NoMemory>
        requires known { port < length (self.old).ports }
        requires timely { CanTake (self.old).ports port item.now }
        ensures ok { OnOk result (self.new ≡ step.router_accepting port item.now self.old) }
        ensures err { OnErr result (self.new ≡ self.old) }
        ensures memory { OnErr result (ItemNeedsMemory item.now self.old) }
    {
        let was = self.ports[usize::from(port)];
        match *item {
            Item::Up { session, cost } => {
                let event = Event::Up { port, cost };
                let up = true;
                self.take_notice(port, Port { up, session, cost }, &event)
            }
            Item::Down { session } => {
                let event = Event::Down { port };
                let up = false;
                self.take_notice(port, Port { up, session, ..was }, &event)
            }
            Item::Cost { session, cost } => {
                let event = Event::Cost { port, cost };
                let up = was.up;
                self.take_notice(port, Port { up, session, cost }, &event)
            }
            Item::Message(message) => {
                let event = Event::Message {
                    port,
                    kind: message.kind,
                    value: message.value,
                };
                self.meet_one(message.prefix, &event)
            }
        }
    }

    /// Takes a notice of the router's own attachment to a prefix: it is attached at this cost, or not
    /// any more. The machine of the prefix meets it, which is opened where the notice is the first to
    /// name that prefix, whatever it says. All growth is made first: refused, the router stays as it
    /// was.
    pub fn notice(&mut self, prefix: Prefix, cost: Option<Cost>) -> Result<(), NoMemory>
        ensures ok { OnOk result (self.new
            ≡ step.router_at_home (record { prefix = prefix; cost = cost }) self.old) }
        ensures err { OnErr result (self.new ≡ self.old) }
        ensures memory { OnErr result (MeetingNeedsMemory prefix self.old) }
    {
        let event = match cost {
            Some(cost) => Event::Attached { cost },
            None => Event::Detached,
        };
        self.meet_one(prefix, &event)
    }

    // Each machine meets the event of a port that changes.
    fn take_notice(&mut self, port: u8, changed: Port, event: &Event) -> Result<(), NoMemory>
        requires known { port < length (self.old).ports }
        requires at_port { port_of event.now ≡ Some port }
        requires timely { IsTimely (is_port_up (self.old).ports) event.now }
        requires moves { port_ups (slice_set (self.old).ports port changed)
            ≡ ups_after event.now (port_ups (self.old).ports) }
        ensures ok { OnOk result (self.new
            ≡ step.router_noticing event.now (slice_set (self.old).ports port changed) self.old) }
        ensures err { OnErr result (self.new ≡ self.old) }
        ensures memory { OnErr result (NoticeNeedsMemory self.old) }
    {
        // A machine sends at most one message more than it has ports.
        let each = self.port_count() + 1;
        let all = self.machines.len().saturating_mul(each);
        self.effects.reserve(all)?;
        self.ports[usize::from(port)] = changed;
        meet_all(
            &mut self.machines,
            event,
            &self.ports,
            &mut self.effects,
            each,
        );
        Ok(())
    }

    // The machine of one prefix meets the event, which leaves the router's ports as they are. It is
    // opened where the router has not heard of the prefix.
    fn meet_one(&mut self, prefix: Prefix, event: &Event) -> Result<(), NoMemory>
        requires known { IsKnown (length (self.old).ports) event.now }
        requires timely { IsTimely (is_port_up (self.old).ports) event.now }
        requires still { ups_after event.now (port_ups (self.old).ports)
            ≡ port_ups (self.old).ports }
        ensures ok { OnOk result (self.new ≡ step.router_meeting prefix event.now self.old) }
        ensures err { OnErr result (self.new ≡ self.old) }
        ensures memory { OnErr result (MeetingNeedsMemory prefix self.old) }
    {
        let each = self.port_count() + 1;
        match place_of(&self.machines, prefix) {
            Ok(place) => {
                self.effects.reserve(each)?;
                let row = &mut self.machines[place];
                self.effects.meet(&mut row.1, event, prefix, &self.ports);
            }
            Err(place) => {
                let mut machine = self.open_machine()?;
                self.machines.reserve(1)?;
                self.effects.table.reserve(1)?;
                self.effects.reserve(each)?;
                self.effects.meet(&mut machine, event, prefix, &self.ports);
                self.machines.insert(place, (prefix, machine)).unwrap();
            }
        }
        Ok(())
    }

    // A machine over the router's ports that has heard nothing, of a prefix to which the router is not
    // attached.
    fn open_machine(&self) -> Result<Machine<A>, NoMemory>
        ensures { IfOk result (λ m. m.machine
            ≡ opening_machine None (world.neighbours (self.now).ports)) }
    {
        let alloc = *self.machines.allocator();
        let infos = port_infos(alloc, &self.ports)?;
        Machine::new(alloc, None, &infos)
    }
}
