//! The machine itself.

ghost use Rattle.std.specs.Prelude.{◌≡◌, ◌+◌, ◌<◌, ◌≤◌, ◌++◌, ◌↔◌, IsTrue, true, false, length, None, IsOk, OnOk, OnErr, IfOk, All, IfSome, is_none, slice_get};
ghost use Rattle.metric.specs.Distance.{IsCost, infinity};
ghost use Rattle.diffusing_replies.specs.Origin as table;
ghost use Rattle.network_model.specs.Machine as dual;
ghost use Rattle.network_model.specs.Network.{most_ports};
ghost use Rattle.dual_machine.specs.{Event.IsKnown, Event.IsTimely, Event.is_neighbour_up, Outbox.HasRoom, Outbox.most_sent, Parts.IsDebtOf};
ghost use Rattle.dual_machine.specs.State as state;

use crate::distances::{
    chosen_successor, condition_holds, is_any_up, is_up_at, least, nearer, up_count, via_successor,
};
use crate::events::{
    asker, attachment_after, change_record, debt_after, end_wait, has_risen, is_port, moved,
    other_asker, successor_after, up_ports,
};
use crate::mode::{Active, Mode};
use crate::sends::Sends;
use diffusing_replies::{Debt, Origin, Replies};
use network_model::{Cost, Distance, Event, Kind, Neighbour, NoMemory, PortInfo, SmallAllocator};
use smallvec::SmallVec;
use std::alloc::{AllocError, Global};
use std::marker::Model;

/// The machine of one router for one prefix.
#[derive(Debug, Drop)]
pub struct Machine<A: SmallAllocator = Global> {
    attachment: Option<Cost>,
    ports: SmallVec<Neighbour, 4, A>,
    rd: Distance,
    fd: Distance,
    successor: Option<u8>,
    active: Option<Active>,
}

impl<A: SmallAllocator> Model for Machine<A> {
    ghost use Rattle.std.specs.Prelude.{length};
    ghost use Rattle.dual_machine.specs.State.{MachineState};
    ghost use Rattle.dual_machine.specs.Parts.{IsMachine, computation_of, origin_of};

    ghost Value = { MachineState };

    ghost view = { λ m. record {
      machine = record {
        attachment = m.attachment;
        ports = m.ports.items;
        rd = m.rd;
        fd = m.fd;
        successor = m.successor;
        computation = computation_of (length m.ports.items) m.active;
      };
      origin = origin_of m.active;
    } };

    ghost invariant = { λ m. IsMachine m.attachment m.ports.items m.successor m.active };
}

// A neighbour that has reported nothing.
fn opening_neighbour(port: &PortInfo) -> Neighbour
    ensures value { result ≡ record { up = port.now.up; cost = port.now.cost; reported = infinity } }
    ensures cost { IsCost result.cost }
{
    prove!(port.cost.value() > 0);
    Neighbour {
        up: port.up,
        cost: port.cost,
        reported: Distance::INF,
    }
}

fn opening_neighbours<A: SmallAllocator>(
    alloc: A,
    ports: &[PortInfo],
) -> Result<SmallVec<Neighbour, 4, A>, AllocError>
    ensures items { IfOk result (λ v. v.items ≡ state.opening_neighbours ports.now) }
    ensures costs { IfOk result (λ v. All (λ n. IsCost n.cost) v.items) }
    ensures full { OnErr result (4 < length ports.now) }
{
    let mut neighbours = SmallVec::with_capacity(alloc, ports.len())?;
    for port in ports {
        neighbours.push_reserved(opening_neighbour(port));
    }
    Ok(neighbours)
}

impl<A: SmallAllocator> Machine<A> {
    /// A machine that has heard nothing over these ports, with the cost of the router's attachment to
    /// the prefix, if it has one.
    pub fn new(
        alloc: A,
        attachment: Option<Cost>,
        ports: &[PortInfo],
    ) -> Result<Machine<A>, NoMemory>
        requires { length ports.now ≤ most_ports }
        ensures ok { IfOk result (λ m. m ≡ state.opening_state attachment ports.now) }

        // Without ports it takes no memory.
        ensures full { OnErr result (0 < length ports.now) }

        // Up to four records stand in the machine itself.
        ensures inline { length ports.now ≤ 4 → IsOk result }
    {
        let neighbours = opening_neighbours(alloc, ports)?;
        let (distance, successor) = match attachment {
            Some(cost) => {
                prove!(cost.value() > 0);
                (Distance::ZERO.plus(cost), Some(ports.len() as u8))
            }
            None => (Distance::INF, None),
        };
        Ok(Machine {
            attachment,
            ports: neighbours,
            rd: distance,
            fd: distance,
            successor,
            active: None,
        })
    }

    /// An equal machine, with memory of this allocator where it needs any: the records of up to four
    /// ports stand in the machine itself.
    pub fn copy(&self, alloc: A) -> Result<Machine<A>, NoMemory>
        ensures ok { IfOk result (λ m. m ≡ self.now) }
        ensures inline { length (self.now).machine.ports ≤ 4 → IsOk result }
    {
        let ports = SmallVec::from_slice(alloc, self.ports.as_slice())?;
        Ok(Machine {
            attachment: self.attachment,
            ports,
            rd: self.rd,
            fd: self.fd,
            successor: self.successor,
            active: self.active,
        })
    }

    /// Whether the router's own attachment is the successor.
    pub fn is_local(&self) -> bool
        ensures { result ≡ dual.is_port (dual.port_count (self.now).machine)
            (self.now).machine.successor }
    {
        is_port(self.degree(), self.successor)
    }

    /// The cost of the router's own attachment, if it is attached.
    pub fn attachment(&self) -> Option<Cost>
        ensures { result ≡ (self.now).machine.attachment }
    {
        self.attachment
    }

    // How many ports there are, by which number the attachment goes as one more.
    fn degree(&self) -> u8
        ensures { result ≡ dual.port_count (self.now).machine }
    {
        self.ports.len() as u8
    }

    /// The reported distance.
    pub fn rd(&self) -> Distance
        ensures { result ≡ (self.now).machine.rd }
    {
        self.rd
    }

    /// The feasible distance.
    pub fn fd(&self) -> Distance
        ensures { result ≡ (self.now).machine.fd }
    {
        self.fd
    }

    /// The successor, if there is one: a port, or the attachment, whose number is how many ports there
    /// are.
    pub fn successor(&self) -> Option<u8>
        ensures { result ≡ (self.now).machine.successor }
    {
        self.successor
    }

    /// Whether no computation is under way.
    pub fn is_passive(&self) -> bool
        ensures { result ≡ is_none (self.now).machine.computation }
    {
        self.active.is_none()
    }

    /// Whether a computation is under way, and which.
    pub fn mode(&self) -> Mode
        ensures mode { state.IsModeOf self.now result }

        // A port is shown exactly where its reply is awaited.
        ensures awaited { state.ShowsAwaited (self.now).machine.computation result }

        // A debt is there exactly in the states 2 and 3.
        ensures debt { state.OwesByOrigin result }
    {
        match self.active {
            None => Mode::Passive,
            Some(active) => Mode::Active {
                origin: active.origin,
                awaited: active.replies.awaited(),
                debt: active.debt,
            },
        }
    }

    /// Whether a computation is under way that awaits the reply of the neighbour at this port.
    pub fn awaits(&self, port: u8) -> bool
        ensures { result ≡ state.awaits_at (self.now).machine.computation port }
    {
        match self.active {
            None => false,
            Some(active) => active.replies.awaited().has(port),
        }
    }

    /// What the machine keeps of the neighbour at this port; none where the router has no such port.
    pub fn neighbour(&self, port: u8) -> Option<Neighbour>
        ensures { result ≡ slice_get (self.now).machine.ports port }
    {
        self.ports.get(usize::from(port)).copied()
    }

    /// Whether the machine may be told of the event: its port is known, `Up` names one that is
    /// down, and any other event of a port one that is up. It may always be told of the attachment.
    pub fn is_timely(&self, event: Event) -> bool
        ensures { IsTrue result ↔ (IsKnown (dual.port_count (self.now).machine) event
            × IsTimely (is_neighbour_up (self.now).machine.ports) event) }
    {
        match event {
            Event::Up { port, .. } => {
                (port as usize) < self.ports.len() && !is_up_at(&self.ports, port)
            }
            Event::Message { port, .. } | Event::Down { port } | Event::Cost { port, .. } => {
                (port as usize) < self.ports.len() && is_up_at(&self.ports, port)
            }
            Event::Attached { .. } | Event::Detached => true,
        }
    }

    /// Tells the machine of an event, and appends what it sends. All growth is made first, so that
    /// a refused call changes nothing.
    pub fn event(&mut self, event: Event, sends: &mut Sends<A>) -> Result<(), NoMemory>
        requires known { IsKnown (dual.port_count (self.old).machine) event }
        requires timely { IsTimely (is_neighbour_up (self.old).machine.ports) event }
        ensures machine { OnOk result ((self.new).machine
            ≡ (dual.reaction (self.old).machine event).machine) }
        ensures origin { OnOk result ((self.new).origin ≡ state.origin_after self.old event) }
        ensures sent { OnOk result (sends.new.list ≡ sends.old.list
            ++ (dual.reaction (self.old).machine event).sends) }

        // One message more than there are neighbours that are up, at most.
        ensures few { OnOk result (length sends.new.list
            ≤ length sends.old.list + most_sent (self.old).machine.ports) }
        ensures capacity { sends.old.capacity ≤ sends.new.capacity }

        // It fails only where there was no room for so many, and then all stays.
        ensures room { HasRoom sends.old (most_sent (self.old).machine.ports) → IsOk result }
        ensures full { OnErr result (sends.old.capacity
            < length sends.old.list + most_sent (self.old).machine.ports) }
        ensures err { OnErr result ((self.new ≡ self.old) × (sends.new ≡ sends.old)) }
    {
        sends.reserve(up_count(&self.ports) + 1)?;
        match event {
            Event::Up { port, .. } => {
                change_record(&mut self.ports, &event);
                self.greet(port, sends);
            }
            _ => self.react(&event, sends),
        }
        Ok(())
    }

    // A neighbour that came up is told the distance, if there is one.
    fn greet(&self, port: u8, sends: &mut Sends<A>)
        requires { HasRoom sends.old (length (dual.greeting (self.now).machine port)) }
        ensures sent { sends.new.list ≡ sends.old.list ++ dual.greeting (self.now).machine port }
        ensures capacity { sends.new.capacity ≡ sends.old.capacity }
    {
        if !self.rd.is_infinite() {
            sends.push_to(Some(port), Kind::Update, self.rd);
        }
    }

    fn react(&mut self, event: &Event, sends: &mut Sends<A>)
        requires known { IsKnown (dual.port_count (self.old).machine) event.now }
        requires room { HasRoom sends.old
            (length (dual.decision (dual.with_records
            (self.old).machine event.now) event.now).sends) }
        ensures machine { (self.new).machine
            ≡ (dual.decision (dual.with_records (self.old).machine event.now) event.now).machine }
        ensures origin { (self.new).origin ≡ state.decided_origin self.old event.now }
        ensures sent { sends.new.list ≡ sends.old.list
            ++ (dual.decision (dual.with_records (self.old).machine event.now) event.now).sends }
        ensures capacity { sends.new.capacity ≡ sends.old.capacity }
    {
        let degree = self.ports.len() as u8;
        let before = self.successor;
        change_record(&mut self.ports, event);
        self.attachment = attachment_after(event, self.attachment);
        self.successor = successor_after(degree, event, before);
        let Some(active) = self.active else {
            self.decide(event, sends);
            return;
        };
        let risen = has_risen(self.rd, &self.ports, &self.attachment, self.successor);
        let origin = moved(active.origin, degree, event, before, risen);
        let debt = debt_after(event, self.successor, active.debt);
        sends.push_to(other_asker(event, self.successor), Kind::Reply, self.rd);
        let mut replies = active.replies;
        end_wait(&mut replies, event);
        if replies.is_done() {
            self.active = None;
            self.complete(origin, debt, sends);
        } else {
            self.active = Some(Active {
                origin,
                replies,
                debt,
            });
        }
    }

    // A passive machine stays passive where the condition holds, and else begins a computation.
    fn decide(&mut self, event: &Event, sends: &mut Sends<A>)
        requires known { IsKnown (dual.port_count (self.old).machine) event.now }
        requires room { HasRoom sends.old
            (length (dual.passive_reaction (self.old).machine event.now).sends) }
        ensures machine { (self.new).machine
            ≡ (dual.passive_reaction (self.old).machine event.now).machine }
        ensures origin { (self.new).origin ≡ state.passive_origin (self.old).machine event.now }
        ensures sent { sends.new.list ≡ sends.old.list
            ++ (dual.passive_reaction (self.old).machine event.now).sends }
        ensures capacity { sends.new.capacity ≡ sends.old.capacity }
    {
        let asker = asker(event);
        if condition_holds(self.fd, &self.ports, &self.attachment) {
            let fd = self.fd;
            self.become_passive(fd, asker, sends);
        } else {
            self.start(asker, sends);
        }
    }

    // A computation that an event begins. A query from the successor leaves a debt; one from
    // another port is answered first.
    fn start(&mut self, asker: Option<u8>, sends: &mut Sends<A>)
        requires known { IfSome asker (λ q. q < dual.port_count (self.old).machine) }
        requires room { HasRoom sends.old
            (length (dual.started_computation (self.old).machine asker).sends) }
        ensures machine { (self.new).machine
            ≡ (dual.started_computation (self.old).machine asker).machine }
        ensures origin { (self.new).origin ≡ state.started_origin (self.old).machine asker }
        ensures sent { sends.new.list ≡ sends.old.list
            ++ (dual.started_computation (self.old).machine asker).sends }
        ensures capacity { sends.new.capacity ≡ sends.old.capacity }
    {
        let fd = self.fd;
        match asker {
            Some(port) if is_port(port, self.successor) => {
                self.begin(fd, Origin::Owing, asker, sends);
            }
            _ => {
                let v = via_successor(&self.ports, &self.attachment, self.successor);
                sends.push_to(asker, Kind::Reply, v);
                self.begin(fd, Origin::Own, None, sends);
            }
        }
    }

    // A computation whose last reply is there. Where its origin state needs no test, the condition
    // holds.
    fn complete(&mut self, origin: Origin, debt: Debt, sends: &mut Sends<A>)
        requires debt { IsDebtOf (dual.port_count (self.old).machine) origin
            (self.old).machine.successor debt }
        requires tested { table.needs_test origin ≡ false
            → dual.condition_holds (self.old).machine.rd (dual.ways (self.old).machine) ≡ true }
        requires room { HasRoom sends.old (length (dual.completion (self.old).machine debt).sends) }
        ensures machine { (self.new).machine ≡ (dual.completion (self.old).machine debt).machine }
        ensures origin { (self.new).origin ≡ state.completion_origin (self.old).machine origin }
        ensures sent { sends.new.list ≡ sends.old.list
            ++ (dual.completion (self.old).machine debt).sends }
        ensures capacity { sends.new.capacity ≡ sends.old.capacity }
    {
        let v = self.rd;
        if !origin.needs_test() || condition_holds(v, &self.ports, &self.attachment) {
            self.become_passive(v, debt, sends);
        } else {
            self.begin(v, origin.restart(), debt, sends);
        }
    }

    // Passive at the least distance. A reply goes to the port to which one is owed, and news to the
    // others.
    fn become_passive(&mut self, fd: Distance, owed: Option<u8>, sends: &mut Sends<A>)
        requires room { HasRoom sends.old
            (length (dual.passive_result (self.old).machine fd owed).sends) }
        ensures machine { (self.new).machine
            ≡ (dual.passive_result (self.old).machine fd owed).machine }
        ensures origin { (self.new).origin ≡ None }
        ensures sent { sends.new.list ≡ sends.old.list
            ++ (dual.passive_result (self.old).machine fd owed).sends }
        ensures capacity { sends.new.capacity ≡ sends.old.capacity }
    {
        let rd = least(&self.ports, &self.attachment);
        sends.push_to(owed, Kind::Reply, rd);
        if rd != self.rd {
            sends.push_to_all(owed, Kind::Update, rd, &self.ports);
        }
        self.successor = chosen_successor(fd, &self.ports, &self.attachment, self.successor);
        self.rd = rd;
        self.fd = nearer(fd, rd);
        self.active = None;
    }

    // A computation that begins: everyone who is up is asked, and awaited, but never the attachment.
    // With no one up it is over at once.
    fn begin(&mut self, fd: Distance, origin: Origin, debt: Debt, sends: &mut Sends<A>)
        requires debt { IsDebtOf (dual.port_count (self.old).machine) origin
            (self.old).machine.successor debt }
        requires room { HasRoom sends.old
            (length (dual.new_computation (self.old).machine fd debt).sends) }
        ensures machine { (self.new).machine
            ≡ (dual.new_computation (self.old).machine fd debt).machine }
        ensures origin { (self.new).origin ≡ state.new_origin (self.old).machine origin }
        ensures sent { sends.new.list ≡ sends.old.list
            ++ (dual.new_computation (self.old).machine fd debt).sends }
        ensures capacity { sends.new.capacity ≡ sends.old.capacity }
    {
        if is_any_up(&self.ports) {
            let v = via_successor(&self.ports, &self.attachment, self.successor);
            sends.push_to_all(None, Kind::Query, v, &self.ports);
            let replies = Replies::begin(up_ports(&self.ports));
            self.rd = v;
            self.fd = fd;
            self.active = Some(Active {
                origin,
                replies,
                debt,
            });
        } else {
            self.rd = Distance::INF;
            self.fd = Distance::INF;
            self.successor = None;
            self.active = None;
        }
    }
}
