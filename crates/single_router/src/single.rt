//! The router.

ghost use Rattle.std.specs.Prelude.{◌≡◌, ◌≤◌, None, Some, IfOk, IfErr, OnOk, OnErr, length, option_map, slice_get, take, is_some, true, IsTrue};
ghost use Rattle.network_model.specs.Step as step;
ghost use Rattle.single_router.specs.{Frames.frame_of, States.router_counts, States.shown_state};
ghost use Rattle.dual_machine.specs.State.{awaits_at};
ghost use Rattle.network_model.specs.World.{machine_of};
ghost use Rattle.router_core.specs.{Alone.router_forgetting, Alone.router_publishing_some, Room.MeetingNeedsMemory, Room.NoticeNeedsMemory};
ghost use Rattle.single_router.specs.Bounded.{bounded_fault, bounded_make_fault, bounded_router, crowd_fault, with_router};
ghost use Rattle.single_router.specs.Inputs.{told_fault, router_after, port_fault, down_fault, kind_fault, owes_at, attachment_of, IsRefusedBy, IsRefusedOnlyBy, InputNeedsMemory};
ghost use Rattle.single_router.specs.Publishing.{publish_fault, has_more, rows_given, router_given, forget_fault, room_fault, IsWrittenOver};

use crate::frame::Frame;
use crate::input::Input;
use crate::opening::{Attachment, check_attachments, check_costs, read_attachments, read_ports};
use crate::state::{Counts, State, debt_of};
use c_interface::{CallFault, Row};
use network_model::{Cost, Item, Kind, Message, Port, Prefix};
use route_table::{ChangedRows, ControlRows};
use router_core::Router;
use std::alloc::Global;
use std::marker::Model;

/// One router of a network whose other routers are elsewhere.
#[derive(Drop)]
pub struct SingleRouter {
    router: Router,
    most_prefixes: usize,
}

impl Model for SingleRouter {
    ghost use Rattle.single_router.specs.Bounded.{BoundedRouter};

    ghost Value = { BoundedRouter };

    ghost view = { λ s. record { router = s.router; most = s.most_prefixes } };
}

/// What a publication gave: how many rows, and whether there are more, for which there was no room.
#[derive(Clone, Copy)]
pub struct Published {
    pub count: usize,
    pub more: bool,
}

impl SingleRouter {
    /// A router with a port for each of these costs, that of its link from here, and these attachments,
    /// which may know so many prefixes. Its links are down, and it has published its attachments. 26: more
    /// than 32 costs. 5: the first cost that is none. 3, 4 or 5: the first attachment that has a fault. 27:
    /// more attachments than prefixes that it may know. 20: memory was refused.
    pub fn new(
        alloc: Global,
        costs: &[u32],
        attachments: &[Attachment],
        most_prefixes: usize,
    ) -> Result<SingleRouter, CallFault>
        ensures ok { IfOk result (λ r.
            (bounded_make_fault most_prefixes costs.now attachments.now ≡ None)
            × (r ≡ bounded_router most_prefixes costs.now attachments.now)) }
        ensures err { IfErr result (IsRefusedBy
            (bounded_make_fault most_prefixes costs.now attachments.now)) }
    {
        check_costs(costs)?;
        check_attachments(attachments)?;
        if attachments.len() > most_prefixes {
            return Err(CallFault::TooManyPrefixes);
        }
        let ports = read_ports(alloc, costs)?;
        let rows = read_attachments(alloc, attachments)?;
        let router = Router::new(alloc, ports, &rows)?;
        Ok(SingleRouter {
            router,
            most_prefixes,
        })
    }

    /// Takes an input. 11: there is no such port. 13, 14: its link is up, or is down. 29: the router is
    /// not attached to the prefix. 36: the session is not later than the last, or the message is of
    /// another session. 38: a reply that the router does not await. 39: a query while it owes the reply to
    /// the one before. 27: a prefix more than it may know. 20: memory was refused; no message of a prefix that
    /// it has heard of is refused for that while nothing is held.
    pub fn tell(&mut self, input: &Input) -> Result<(), CallFault>
        ensures ok { OnOk result ((bounded_fault input.now self.old ≡ None)
            × (self.new ≡ with_router (router_after input.now) self.old)) }
        ensures err { OnErr result (self.new ≡ self.old) }
        ensures cause { IfErr result (IsRefusedOnlyBy (bounded_fault input.now self.old)
            (InputNeedsMemory input.now (self.old).router)) }
    {
        match *input {
            Input::Up {
                port,
                session,
                cost,
            } => self.come_up(port, session, cost),
            Input::Down { port } => self.go_down(port),
            Input::Cost { port, cost } => self.change_cost(port, cost),
            Input::Message {
                port,
                session,
                message,
            } => self.take_message(port, session, message),
            Input::Attached { prefix, cost } => {
                self.check_room(prefix)?;
                self.router.notice(prefix, Some(cost))?;
                Ok(())
            }
            Input::Detached { prefix } => self.detach(prefix),
        }
    }

    fn come_up(&mut self, port: u8, session: u16, cost: Cost) -> Result<(), CallFault>
        ensures ok { OnOk result ((told_fault (Input.Up port session cost) (self.old).router ≡ None)
            × (self.new ≡ with_router (router_after (Input.Up port session cost)) self.old)) }
        ensures err { OnErr result (self.new ≡ self.old) }
        ensures cause { IfErr result (IsRefusedOnlyBy
            (told_fault (Input.Up port session cost) (self.old).router)
            (NoticeNeedsMemory (self.old).router)) }
    {
        let was = self.router.port(port).ok_or(CallFault::UnknownPort)?;
        if was.up {
            return Err(CallFault::AlreadyUp);
        }
        if session <= was.session {
            return Err(CallFault::OtherSession);
        }
        self.router.accept(port, &Item::Up { session, cost })?;
        Ok(())
    }

    fn go_down(&mut self, port: u8) -> Result<(), CallFault>
        ensures ok { OnOk result ((told_fault (Input.Down port) (self.old).router ≡ None)
            × (self.new ≡ with_router (router_after (Input.Down port)) self.old)) }
        ensures err { OnErr result (self.new ≡ self.old) }
        ensures cause { IfErr result (IsRefusedOnlyBy
            (told_fault (Input.Down port) (self.old).router)
            (NoticeNeedsMemory (self.old).router)) }
    {
        let was = self.port_that_is_up(port)?;
        let session = was.session;
        self.router.accept(port, &Item::Down { session })?;
        Ok(())
    }

    fn change_cost(&mut self, port: u8, cost: Cost) -> Result<(), CallFault>
        ensures ok { OnOk result ((told_fault (Input.Cost port cost) (self.old).router ≡ None)
            × (self.new ≡ with_router (router_after (Input.Cost port cost)) self.old)) }
        ensures err { OnErr result (self.new ≡ self.old) }
        ensures cause { IfErr result (IsRefusedOnlyBy
            (told_fault (Input.Cost port cost) (self.old).router)
            (NoticeNeedsMemory (self.old).router)) }
    {
        let was = self.port_that_is_up(port)?;
        let session = was.session;
        self.router.accept(port, &Item::Cost { session, cost })?;
        Ok(())
    }

    fn take_message(&mut self, port: u8, session: u16, message: Message) -> Result<(), CallFault>
        ensures ok { OnOk result ((bounded_fault (Input.Message port session message) self.old ≡ None)
            × (self.new ≡ with_router
            (router_after (Input.Message port session message)) self.old)) }
        ensures err { OnErr result (self.new ≡ self.old) }
        ensures cause { IfErr result (IsRefusedOnlyBy
            (bounded_fault (Input.Message port session message) self.old)
            (MeetingNeedsMemory message.prefix (self.old).router)) }
    {
        let was = self.port_that_is_up(port)?;
        if was.session != session {
            return Err(CallFault::OtherSession);
        }
        self.check_kind(port, message.prefix, message.kind)?;
        self.check_room(message.prefix)?;
        self.router.accept(port, &Item::Message(message))?;
        Ok(())
    }

    // Whether a neighbour at the port that keeps to the protocol sends such a message of the prefix.
    fn check_kind(&self, port: u8, prefix: Prefix, kind: Kind) -> Result<(), CallFault>
        ensures ok { OnOk result (kind_fault (machine_of (self.now).router prefix).computation port kind
            ≡ None) }
        ensures err { IfErr result (λ f. kind_fault (machine_of (self.now).router prefix).computation port kind
            ≡ Some f) }
    {
        match kind {
            Kind::Query if self.owes(prefix, port) => Err(CallFault::AskedTwice),
            Kind::Reply if !self.awaits(prefix, port) => Err(CallFault::Unasked),
            _ => Ok(()),
        }
    }

    // Whether a computation for the prefix is under way that owes a reply to the port.
    fn owes(&self, prefix: Prefix, port: u8) -> bool
        ensures { result ≡ owes_at (machine_of (self.now).router prefix).computation port }
    {
        match self.router.machine(prefix) {
            Some(machine) => debt_of(machine) == Some(port),
            None => false,
        }
    }

    // Whether a computation for the prefix is under way that awaits the reply of the port.
    fn awaits(&self, prefix: Prefix, port: u8) -> bool
        ensures { result ≡ awaits_at (machine_of (self.now).router prefix).computation port }
    {
        match self.router.machine(prefix) {
            Some(machine) => machine.awaits(port),
            None => false,
        }
    }

    // Whether the router may know the prefix.
    fn check_room(&self, prefix: Prefix) -> Result<(), CallFault>
        ensures ok { OnOk result (crowd_fault prefix self.now ≡ None) }
        ensures err { IfErr result (λ f. crowd_fault prefix self.now ≡ Some f) }
    {
        let table = self.router.table();
        if table.get(prefix).is_none() && self.most_prefixes <= table.len() {
            return Err(CallFault::TooManyPrefixes);
        }
        Ok(())
    }

    fn detach(&mut self, prefix: Prefix) -> Result<(), CallFault>
        ensures ok { OnOk result ((told_fault (Input.Detached prefix) (self.old).router ≡ None)
            × (self.new ≡ with_router (router_after (Input.Detached prefix)) self.old)) }
        ensures err { OnErr result (self.new ≡ self.old) }
        ensures cause { IfErr result (IsRefusedOnlyBy
            (told_fault (Input.Detached prefix) (self.old).router)
            (MeetingNeedsMemory prefix (self.old).router)) }
    {
        if !self.is_attached(prefix) {
            return Err(CallFault::NotAttached);
        }
        self.router.notice(prefix, None)?;
        Ok(())
    }

    // A port whose link is up.
    fn port_that_is_up(&self, port: u8) -> Result<Port, CallFault>
        ensures ok { IfOk result (λ p. (slice_get ((self.now).router).ports port ≡ Some p)
            × (p.up ≡ true)) }
        ensures err { IfErr result (λ f. port_fault (slice_get ((self.now).router).ports port) down_fault
            ≡ Some f) }
    {
        let found = self.router.port(port).ok_or(CallFault::UnknownPort)?;
        if !found.up {
            return Err(CallFault::IsDown);
        }
        Ok(found)
    }

    // Whether the router was told last that it is attached to the prefix.
    fn is_attached(&self, prefix: Prefix) -> bool
        ensures { result ≡ is_some (attachment_of (self.now).router prefix) }
    {
        match self.router.machine(prefix) {
            Some(machine) => machine.attachment().is_some(),
            None => false,
        }
    }

    /// What the router has.
    pub fn counts(&self) -> Counts
        ensures { result ≡ router_counts (self.now).router }
    {
        let table = self.router.table();
        Counts {
            prefixes: table.len(),
            changed: table.changed().count(),
            held: self.router.held(),
            ripe: self.router.ripe(),
            generation: self.router.generation(),
            due: u8::from(self.router.due()),
        }
    }

    /// How often the router has published.
    pub fn generation(&self) -> u64
        ensures { result ≡ ((self.now).router).generation }
    {
        self.router.generation()
    }

    /// Publishes: writes the rows that are in force from now on and were not, in the order of their
    /// prefixes; all that the router holds may leave. Its messages are to be put on links only after these
    /// rows forward packets. Where there is no room for all rows, it writes the first ones, which are in
    /// force from now on, says that there are more, and nothing may leave yet: publish again. 8: there is no
    /// room for any. 17: nothing is due. 37: it has published 2^64 - 1 times. Refused, it writes nothing. It
    /// takes no memory.
    pub fn publish(&mut self, rows: &mut [Row]) -> Result<Published, CallFault>
        ensures ok { IfOk result (λ p. (publish_fault (length rows.old) (self.old).router ≡ None)
            × (p.count ≡ length (rows_given (length rows.old) (self.old).router))
            × (p.more ≡ has_more (length rows.old) (self.old).router)
            × IsWrittenOver (rows_given (length rows.old) (self.old).router) rows.old rows.new) }
        ensures published { OnOk result
            (self.new ≡ with_router (router_given (length rows.old)) self.old) }
        ensures err { OnErr result ((self.new ≡ self.old) × (rows.new ≡ rows.old)) }
        ensures cause { IfErr result (λ f. publish_fault (length rows.old) (self.old).router ≡ Some f) }
    {
        let count = self.counts().changed;
        if rows.len() < count {
            return self.publish_some(rows);
        }
        if !self.router.due() {
            return Err(CallFault::NothingDue);
        }
        if self.router.generation() == u64::MAX {
            return Err(CallFault::GenerationsSpent);
        }
        write_changed(self.router.table().changed(), rows);
        self.router.mark_published();
        Ok(Published { count, more: false })
    }

    // Puts the rows in force for which there is room.
    fn publish_some(&mut self, rows: &mut [Row]) -> Result<Published, CallFault>
        requires { IsTrue (has_more (length rows.old) (self.old).router) }
        ensures ok { IfOk result (λ p. (publish_fault (length rows.old) (self.old).router ≡ None)
            × (p.count ≡ length (rows_given (length rows.old) (self.old).router))
            × (p.more ≡ true)
            × IsWrittenOver (rows_given (length rows.old) (self.old).router) rows.old rows.new) }
        ensures published { OnOk result
            (self.new ≡ with_router (router_publishing_some (length rows.old)) self.old) }
        ensures err { OnErr result ((self.new ≡ self.old) × (rows.new ≡ rows.old)) }
        ensures cause { IfErr result (λ f. publish_fault (length rows.old) (self.old).router ≡ Some f) }
    {
        if rows.is_empty() {
            return Err(CallFault::BadCount);
        }
        let count = rows.len();
        write_changed(self.router.table().changed(), rows);
        self.router.publish_some(count);
        Ok(Published { count, more: true })
    }

    /// Forgets a prefix of which the router knows nothing any more: it is not attached to it, no
    /// computation goes on, no neighbour reports a distance, and its row, which is unreachable, is in
    /// force. That row is to be taken out of the program's table: packets then meet the row of a shorter
    /// prefix. 28: the router has not heard of it. 44: it knows something of it.
    pub fn forget(&mut self, prefix: Prefix) -> Result<(), CallFault>
        ensures ok { OnOk result ((forget_fault prefix (self.old).router ≡ None)
            × (self.new ≡ with_router (router_forgetting prefix) self.old)) }
        ensures err { OnErr result (self.new ≡ self.old) }
        ensures cause { IfErr result (λ f. forget_fault prefix (self.old).router ≡ Some f) }
    {
        if self.router.machine(prefix).is_none() {
            return Err(CallFault::UnknownPrefix);
        }
        if !self.router.may_forget(prefix) {
            return Err(CallFault::StillUsed);
        }
        self.router.forget(prefix);
        Ok(())
    }

    /// Takes the oldest message that the router holds, where it may leave. It is for the link of its
    /// port in its session, and is dropped where that session has ended. 18: there is none that may leave.
    pub fn release(&mut self) -> Result<Frame, CallFault>
        ensures ok { IfOk result (λ frame.
            option_map frame_of (step.ripe_front (self.old).router) ≡ Some frame) }
        ensures released { OnOk result (self.new ≡ with_router step.router_releasing self.old) }
        ensures err { OnErr result (self.new ≡ self.old) }
        ensures cause { IfErr result (λ f. (f ≡ CallFault.NothingRipe)
            × (step.ripe_front (self.old).router ≡ None)) }
    {
        match self.router.release() {
            Some(held) => Ok(Frame::of(held)),
            None => Err(CallFault::NothingRipe),
        }
    }

    /// What the router knows of a prefix. 28: it has not heard of it.
    pub fn state(&self, prefix: Prefix) -> Result<State, CallFault>
        ensures ok { IfOk result (λ s. shown_state prefix (self.now).router ≡ Some s) }
        ensures err { IfErr result (λ f. (f ≡ CallFault.UnknownPrefix)
            × (shown_state prefix (self.now).router ≡ None)) }
    {
        let machine = self.router.machine(prefix).ok_or(CallFault::UnknownPrefix)?;
        Ok(State::of(prefix, machine, self.router.table()))
    }

    /// Writes the rows that the router has chosen, in the order of their prefixes, and gives how many. 8:
    /// there is no room for them. Refused, it writes nothing. It takes no memory.
    pub fn rows(&self, rows: &mut [Row]) -> Result<usize, CallFault>
        ensures ok { IfOk result (λ count. (count ≡ length ((self.now).router).table.control)
            × (count ≤ length rows.old)
            × IsWrittenOver ((self.now).router).table.control rows.old rows.new) }
        ensures err { OnErr result (rows.new ≡ rows.old) }
        ensures cause { IfErr result (λ f. room_fault
            (length ((self.now).router).table.control) (length rows.old) ≡ Some f) }
    {
        let table = self.router.table();
        if table.len() > rows.len() {
            return Err(CallFault::BadCount);
        }
        write_chosen(table.rows(), rows);
        Ok(table.len())
    }
}

// Writes rows that a publication puts in force over the first of those that are there, as many as fit.
fn write_changed(changed: ChangedRows<'_>, rows: &mut [Row])
    ensures written { IsWrittenOver (take (length rows.old) changed.entry) rows.old rows.new }
    ensures count { length rows.new ≡ length rows.old }
{
    let mut place = 0;
    for row in changed {
        if place == rows.len() {
            return;
        }
        rows[place] = Row::answer(Some(row));
        place += 1;
    }
}

// Writes the rows that a router has chosen over the first of those that are there.
fn write_chosen(chosen: ControlRows<'_>, rows: &mut [Row])
    requires { length chosen ≤ length rows.old }
    ensures written { IsWrittenOver chosen.entry rows.old rows.new }
    ensures count { length rows.new ≡ length rows.old }
{
    let mut place = 0;
    for (prefix, entry) in chosen {
        rows[place] = Row::answer(Some((prefix, entry)));
        place += 1;
    }
}
