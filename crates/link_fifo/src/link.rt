//! One link, and what stands on it.

ghost use Rattle.std.specs.Prelude.{◌≡◌, ◌+◌, ◌<◌, ◌≤◌, [], filter, length, slice_get, true, IfOk, OnErr, OnOk, IfNone};
ghost use Rattle.std.specs.VecDeque.{deque_capacity, deque_len};
ghost use Rattle.network_model.specs.World as world;
ghost use Rattle.network_model.specs.Step as step;
ghost use Rattle.link_fifo.specs.Side.{side_of, room_of, room_to, IsFull, KeepsRoom};
ghost use Rattle.link_fifo.specs.Refusals.{sent_in};

use network_model::{Cost, End, Item, LinkSpec, Message};
use std::alloc::{AllocError, Allocator};
use std::collections::VecDeque;
use std::marker::Model;

// One end: its router, the cost from here, and the items that it has yet to take.
#[derive(Debug, Drop)]
pub(crate) struct Side<S: Allocator> {
    router: u16,
    cost: Cost,
    inbox: VecDeque<Item, S>,
}

#[derive(Debug, Drop)]
pub(crate) struct Link<S: Allocator> {
    up: bool,
    session: u16,
    a: Side<S>,
    b: Side<S>,
}

impl<S: Allocator> Model for Link<S> {
    ghost use Rattle.link_fifo.specs.Side.{CanGoDown, LinkAndRoom, side_of, room_of};

    ghost Value = { LinkAndRoom };

    ghost view = { λ k. record {
      link = record { up = k.up; session = k.session; a = side_of k.a; b = side_of k.b };
      room = record { to_a = room_of k.a; to_b = room_of k.b };
    } };

    ghost invariant = { λ k. CanGoDown k.up (record { to_a = room_of k.a; to_b = room_of k.b }) };
}

fn is_notice(item: &Item) -> bool
    ensures { result ≡ step.is_notice item.now }
{
    !matches!(item, Item::Message(_))
}

// Only the notices stay, so that there is no less room than before.
fn drop_messages<S: Allocator>(inbox: &mut VecDeque<Item, S>)
    ensures items { inbox.new.items ≡ filter step.is_notice inbox.old.items }
    ensures len { deque_len inbox.new ≤ deque_len inbox.old }
    ensures capacity { deque_capacity inbox.new ≡ deque_capacity inbox.old }
{
    inbox.retain(|item| is_notice(item));
}

impl<S: Allocator> Side<S> {
    fn new(alloc: S, router: u16, cost: Cost) -> Side<S>
        ensures { side_of result ≡ record { router = router; cost = cost; inbox = [] } }
    {
        Side {
            router,
            cost,
            inbox: VecDeque::new(alloc),
        }
    }

    // An equal end in memory of this allocator, with room for one more item: that the link went down.
    fn copy(&self, alloc: S) -> Result<Side<S>, AllocError>
        ensures side { IfOk result (λ s. side_of s ≡ side_of self.now) }
        ensures spare { IfOk result (λ s. 0 < room_of s) }
    {
        let mut inbox: VecDeque<Item, S> = self.inbox.iter().copied().collect(alloc)?;
        inbox.reserve(1)?;
        Ok(Side {
            router: self.router,
            cost: self.cost,
            inbox,
        })
    }

    // Puts an item into the room that was made for it.
    fn queue(&mut self, item: Item)
        requires { 0 < room_of self.old }
        ensures side { side_of self.new ≡ step.with_item item (side_of self.old) }
        ensures room { room_of self.old ≤ room_of self.new + 1 }
    {
        self.inbox.push_back(item).unwrap();
    }

    // Drops the messages, and tells this end that the link went down.
    fn cut(&mut self, session: u16)
        requires { 0 < room_of self.old }
        ensures side { side_of self.new ≡ step.side_cut session (side_of self.old) }
        ensures room { room_of self.old ≤ room_of self.new + 1 }
    {
        drop_messages(&mut self.inbox);
        self.queue(Item::Down { session });
    }

    // Puts an item, and leaves room for one more: that the link went down.
    fn put(&mut self, item: Item) -> Result<(), AllocError>
        ensures ok { OnOk result (side_of self.new ≡ step.with_item item (side_of self.old)) }
        ensures err { OnErr result (side_of self.new ≡ side_of self.old) }
        ensures full { OnErr result (room_of self.old ≤ 1) }
        ensures spare { OnOk result (0 < room_of self.new) }
        ensures room { room_of self.old ≤ room_of self.new + 1 }
        ensures kept { OnErr result (room_of self.old ≤ room_of self.new) }
    {
        self.reserve()?;
        self.queue(item);
        Ok(())
    }

    // Makes room for an item, and for one more: that the link went down.
    fn reserve(&mut self) -> Result<(), AllocError>
        ensures side { side_of self.new ≡ side_of self.old }
        ensures ok { OnOk result (1 < room_of self.new) }
        ensures full { OnErr result (room_of self.old ≤ 1) }
        ensures room { room_of self.old ≤ room_of self.new }
    {
        self.inbox.reserve(2)?;
        Ok(())
    }

    fn set_cost(&mut self, session: u16, cost: Cost) -> Result<(), AllocError>
        ensures ok { let changed = record (side_of self.old) { cost = cost } in
            OnOk result (side_of self.new ≡ step.with_item (Item.Cost session cost) changed) }
        ensures err { OnErr result (side_of self.new ≡ side_of self.old) }
        ensures full { OnErr result (room_of self.old ≤ 1) }
        ensures spare { OnOk result (0 < room_of self.new) }
        ensures room { room_of self.old ≤ room_of self.new + 1 }
        ensures kept { OnErr result (room_of self.old ≤ room_of self.new) }
    {
        self.put(Item::Cost { session, cost })?;
        self.cost = cost;
        Ok(())
    }
}

impl<S: Allocator + Copy> Link<S> {
    pub(crate) fn new(alloc: S, spec: &LinkSpec) -> Link<S>
        ensures { result.link ≡ world.opening_link spec.now }
    {
        Link {
            up: false,
            session: 0,
            a: Side::new(alloc, spec.a, spec.from_a),
            b: Side::new(alloc, spec.b, spec.from_b),
        }
    }

    // An equal link in memory of this allocator, with what stands on it.
    pub(crate) fn copy(&self, alloc: S) -> Result<Link<S>, AllocError>
        ensures { IfOk result (λ k. k.link ≡ self.now.link) }
    {
        let a = self.a.copy(alloc)?;
        let b = self.b.copy(alloc)?;
        Ok(Link {
            up: self.up,
            session: self.session,
            a,
            b,
        })
    }
}

impl<S: Allocator> Link<S> {
    pub(crate) fn is_up(&self) -> bool
        ensures { result ≡ self.now.link.up }
    {
        self.up
    }

    pub(crate) fn session(&self) -> u16
        ensures { result ≡ self.now.link.session }
    {
        self.session
    }

    pub(crate) fn is_up_in(&self, session: u16) -> bool
        ensures { result ≡ step.is_up_in session self.now.link }
    {
        self.up && self.session == session
    }

    fn side(&self, end: End) -> &Side<S>
        ensures { side_of result.now ≡ world.side end self.now.link }
    {
        match end {
            End::A => &self.a,
            End::B => &self.b,
        }
    }

    pub(crate) fn router(&self, end: End) -> u16
        ensures { result ≡ (world.side end self.now.link).router }
    {
        self.side(end).router
    }

    pub(crate) fn cost(&self, end: End) -> Cost
        ensures { result ≡ (world.side end self.now.link).cost }
    {
        self.side(end).cost
    }

    pub(crate) fn queued(&self, to: End) -> usize
        ensures { result ≡ length (world.side to self.now.link).inbox }
    {
        self.side(to).inbox.len()
    }

    pub(crate) fn front(&self, to: End) -> Option<Item>
        ensures { result ≡ slice_get (world.side to self.now.link).inbox 0 }
    {
        self.side(to).inbox.front().copied()
    }

    pub(crate) fn item(&self, to: End, place: usize) -> Option<Item>
        ensures { result ≡ slice_get (world.side to self.now.link).inbox place }
    {
        self.side(to).inbox.get(place).copied()
    }

    // Makes room for an item towards each end, and for one more: that the link went down.
    fn reserve(&mut self) -> Result<(), AllocError>
        ensures link { self.new.link ≡ self.old.link }
        ensures to_a { OnOk result (1 < self.new.room.to_a) }
        ensures to_b { OnOk result (1 < self.new.room.to_b) }
        ensures full { OnErr result (IsFull self.old.room) }
        ensures room { KeepsRoom 0 self.old.room self.new.room }
    {
        self.a.reserve()?;
        self.b.reserve()
    }

    pub(crate) fn come_up(&mut self) -> Result<(), AllocError>
        requires { self.old.link.session < step.last_session }
        ensures ok { OnOk result (self.new.link ≡ step.link_come_up self.old.link) }
        ensures err { OnErr result (self.new.link ≡ self.old.link) }
        ensures full { OnErr result (IsFull self.old.room) }
        ensures room { KeepsRoom 1 self.old.room self.new.room }
    {
        self.reserve()?;
        let session = self.session + 1;
        let (from_a, from_b) = (self.a.cost, self.b.cost);
        self.a.queue(Item::Up {
            session,
            cost: from_a,
        });
        self.b.queue(Item::Up {
            session,
            cost: from_b,
        });
        self.session = session;
        self.up = true;
        Ok(())
    }

    // It takes no memory: there is room for that since the link came up.
    pub(crate) fn go_down(&mut self)
        requires { self.old.link.up ≡ true }
        ensures link { self.new.link ≡ step.link_gone_down self.old.link }
        ensures room { KeepsRoom 1 self.old.room self.new.room }
    {
        let session = self.session;
        self.a.cut(session);
        self.b.cut(session);
        self.up = false;
    }

    pub(crate) fn set_cost(&mut self, end: End, cost: Cost) -> Result<(), AllocError>
        ensures ok { OnOk result (self.new.link ≡ step.with_cost cost end self.old.link) }
        ensures err { OnErr result (self.new.link ≡ self.old.link) }
        ensures full { OnErr result (room_to end self.old.room ≤ 1) }
        ensures room { KeepsRoom 1 self.old.room self.new.room }
    {
        let session = self.session;
        match end {
            End::A => self.a.set_cost(session, cost),
            End::B => self.b.set_cost(session, cost),
        }
    }

    // Puts a message of the link's present session on it.
    pub(crate) fn put(
        &mut self,
        from: End,
        session: u16,
        message: Message,
    ) -> Result<(), AllocError>
        requires { step.is_up_in session self.old.link ≡ true }
        ensures ok { let held = sent_in session message in
            OnOk result (self.new.link ≡ step.with_message held from self.old.link) }
        ensures err { OnErr result (self.new.link ≡ self.old.link) }
        ensures full { OnErr result (room_to (world.other from) self.old.room ≤ 1) }
        ensures room { KeepsRoom 1 self.old.room self.new.room }
    {
        let item = Item::Message(message);
        match from {
            End::A => self.b.put(item),
            End::B => self.a.put(item),
        }
    }

    pub(crate) fn take(&mut self, to: End) -> Option<Item>
        ensures taken { result ≡ slice_get (world.side to self.old.link).inbox 0 }
        ensures rest { self.new.link ≡ step.with_front_taken to self.old.link }
        ensures none { IfNone result (self.new.link ≡ self.old.link) }
        ensures room { KeepsRoom 0 self.old.room self.new.room }
    {
        match to {
            End::A => self.a.inbox.pop_front(),
            End::B => self.b.inbox.pop_front(),
        }
    }
}
