//! What a router's machines do to its table and its gate.

ghost use Rattle.std.specs.Prelude.{◌^◌, ◌≡◌, ◌≤◌, ◌<◌, ◌+◌, ◌*◌, ◌++◌, map, length, IsSome, All, IfOk, OnOk, OnErr};
ghost use Rattle.std.specs.{List.flat_map, FinMap.find as row_of, FinMap.put};
ghost use Rattle.ipv4_prefix.specs.Prefix.{prefix_cmp};
ghost use Rattle.network_model.specs.{Machine.reaction, Machine.port_count, Publication.with_rows};
ghost use Rattle.network_model.specs.Step as step;
ghost use Rattle.dual_machine.specs.{Event.IsKnown, Event.IsTimely, Event.is_neighbour_up, Outbox.most_sent};
ghost use Rattle.release_gate.specs.GateState.{empty};
ghost use Rattle.router_core.specs.{Room.kept_room, Parts.machines_of};

use dual_machine::{Machine, Sends, session_at};
use network_model::{Event, Held, Message, NoMemory, Outgoing, Port, Prefix, SmallAllocator};
use release_gate::Gate;
use route_table::RouteTable;
use std::alloc::Allocator;

// A machine sends at most one message more than it has ports, of which there are at most 32.
const KEPT_ROOM: usize = 33;

/// Where the reactions of a router's machines go: the rows that they choose, and what they send. There is
/// always room for what one machine sends, and to hold as much where nothing is held.
#[derive(Drop)]
pub struct Effects<A: Allocator> {
    pub table: RouteTable<A>,
    pub gate: Gate<A>,
    // What the present machine sends; between calls its content is of no matter.
    pub sends: Sends<A>,
    ghost sends_fit: { kept_room ≤ sends.capacity },
    ghost gate_fits: { kept_room ≤ gate.room + length gate.gate.held },
}

// What a machine sends, for the session of its port.
fn held_of(ports: &[Port], prefix: Prefix, sent: &Outgoing) -> Held
    ensures { result ≡ step.held_of ports.now prefix sent.now }
{
    Held {
        port: sent.port,
        session: session_at(ports, sent.port),
        message: Message {
            kind: sent.kind,
            prefix,
            value: sent.value,
        },
    }
}

// Holds what a machine sent, in order.
fn hold_all<A: Allocator>(gate: &mut Gate<A>, ports: &[Port], prefix: Prefix, sent: &[Outgoing])
    requires { length sent.now ≤ gate.old.room }
    ensures held { gate.new.gate.held ≡ gate.old.gate.held
        ++ map (step.held_of ports.now prefix) sent.now }
    ensures ripe { gate.new.gate.ripe ≡ gate.old.gate.ripe }
    ensures room { gate.old.room ≤ gate.new.room + length sent.now }
{
    for outgoing in sent {
        gate.hold(held_of(ports, prefix, outgoing)).unwrap();
    }
}

impl<A: SmallAllocator> Effects<A> {
    ghost use Rattle.router_core.specs.Effects.{HasRoomFor, KeepsEffectsRoom};

    /// The effects of no reaction yet, with these rows.
    pub fn new(alloc: A, table: RouteTable<A>) -> Result<Effects<A>, NoMemory>
        ensures table { IfOk result (λ e. e.table ≡ table) }
        ensures gate { IfOk result (λ e. e.gate.gate ≡ empty) }
    {
        Effects::with_room(alloc, table, Gate::new(alloc))
    }

    // Makes the room that there always is.
    fn with_room(alloc: A, table: RouteTable<A>, gate: Gate<A>) -> Result<Effects<A>, NoMemory>
        ensures table { IfOk result (λ e. e.table ≡ table) }
        ensures gate { IfOk result (λ e. e.gate.gate ≡ gate.gate) }
    {
        let mut gate = gate;
        let mut sends = Sends::new(alloc);
        gate.reserve(KEPT_ROOM)?;
        sends.reserve(KEPT_ROOM)?;
        Ok(Effects { table, gate, sends })
    }

    /// Equal effects in memory of this allocator, with the room that there always is.
    pub fn copy(&self, alloc: A) -> Result<Effects<A>, NoMemory>
        ensures table { IfOk result (λ e. e.table.table ≡ self.now.table.table) }
        ensures gate { IfOk result (λ e. e.gate.gate ≡ self.now.gate.gate) }
    {
        let table = self.table.copy(alloc)?;
        let gate = self.gate.copy(alloc)?;
        Effects::with_room(alloc, table, gate)
    }

    /// Room for this many messages more to be held.
    pub fn reserve(&mut self, count: usize) -> Result<(), NoMemory>
        ensures table { self.new.table ≡ self.old.table }
        ensures gate { self.new.gate.gate ≡ self.old.gate.gate }
        ensures sends { kept_room ≤ self.new.sends.capacity }
        ensures room { OnOk result (count ≤ self.new.gate.room) }
        ensures fits { OnOk result (self.new.gate.room < 2 ^ 63) }
        ensures full { OnErr result (self.old.gate.room < count) }
    {
        self.gate.reserve(count)
    }

    /// A machine meets an event: its row is set, and what it sends is held.
    pub fn meet(&mut self, machine: &mut Machine<A>, event: &Event, prefix: Prefix, ports: &[Port])
        requires known { IsKnown (port_count machine.old.machine) event.now }
        requires timely { IsTimely (is_neighbour_up machine.old.machine.ports) event.now }
        requires room { HasRoomFor (most_sent machine.old.machine.ports) prefix self.old }
        ensures machine { machine.new.machine ≡ (reaction machine.old.machine event.now).machine }
        ensures control { self.new.table.table.control ≡ put prefix_cmp prefix
            (step.entry_of ports.now machine.new.machine) self.old.table.table.control }
        ensures published { self.new.table.table.published ≡ self.old.table.table.published }
        ensures held { self.new.gate.gate.held ≡ self.old.gate.gate.held
            ++ map (step.held_of ports.now prefix) (reaction machine.old.machine event.now).sends }
        ensures ripe { self.new.gate.gate.ripe ≡ self.old.gate.gate.ripe }
        ensures room { KeepsEffectsRoom (most_sent machine.old.machine.ports) self.old self.new }
    {
        self.sends.clear();
        machine.event(*event, &mut self.sends).unwrap();
        hold_all(&mut self.gate, ports, prefix, self.sends.as_slice());
        self.table.set(prefix, machine.entry(ports)).unwrap();
    }
}

// Each machine of a router meets an event, in the order of the prefixes.
pub fn meet_all<A: SmallAllocator>(
    machines: &mut [(Prefix, Machine<A>)],
    event: &Event,
    ports: &[Port],
    effects: &mut Effects<A>,
    each: usize,
)
    requires known { All (λ m. IsKnown (port_count (m.1).machine) event.now) machines.old }
    requires timely { All (λ m. IsTimely (is_neighbour_up ((m.1).machine).ports) event.now) machines.old }
    requires each { All (λ m. most_sent ((m.1).machine).ports ≤ each) machines.old }
    requires sends { each ≤ effects.old.sends.capacity }
    requires gate { length machines.old * each ≤ effects.old.gate.room }
    requires rows { All (λ m. IsSome
        (row_of prefix_cmp m.0 effects.old.table.table.control)) machines.old }
    ensures machines { machines_of machines.new
        ≡ map (λ x. (x.0, (x.1).machine)) (step.reactions event.now (machines_of machines.old)) }
    ensures control { effects.new.table.table.control ≡ with_rows
        (step.chosen_rows ports.now (machines_of machines.new)) effects.old.table.table.control }
    ensures published { effects.new.table.table.published ≡ effects.old.table.table.published }
    ensures held { effects.new.gate.gate.held ≡ effects.old.gate.gate.held
        ++ flat_map (λ x. map (step.held_of ports.now x.0) (x.1).sends)
        (step.reactions event.now (machines_of machines.old)) }
    ensures ripe { effects.new.gate.gate.ripe ≡ effects.old.gate.gate.ripe }
{
    for row in machines.iter_mut() {
        let prefix = row.0;
        effects.meet(&mut row.1, event, prefix, ports);
    }
}
