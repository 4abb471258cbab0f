//! The links of a network, by number.

ghost use Rattle.std.specs.Prelude.{◌≡◌, ◌<◌, ◌≤◌, ◌↔◌, ◌⊎◌, [], IsTrue, map, length, slice_get, IfSome, IfOk, IsOk, OnOk, OnErr, MatchOption, Err, Some, None, if◌then◌else◌};
ghost use Rattle.network_model.specs.{Machine.changed_at, declared.network.End.TheVariants.A, declared.network.End.TheVariants.B};
ghost use Rattle.network_model.specs.World as world;
ghost use Rattle.network_model.specs.Step as step;
ghost use Rattle.link_fifo.specs.{declared.refusal.LinkRefusal.TheVariants.NoMemory as OutOfMemory, Side.KeepsRooms, Side.room_at};
ghost use Rattle.link_fifo.specs.Refusals.{refusal_to_come_up, refusal_to_change, IsDoneUnless, front_of, sent_in, AnswersPut};

use crate::link::Link;
use crate::refusal::{LinkRefusal, Put};
use network_model::{Cost, End, Item, LinkSpec, Message, NoMemory};
use std::alloc::{AllocError, Allocator, Global};
use std::marker::Model;

/// The links of a network, numbered from 0. Each direction of a link is a list of items, put at the
/// back and taken at the front.
#[derive(Debug, Drop)]
pub struct Links<S: Allocator = Global> {
    links: Vec<Link<S>, S>,
}

impl<S: Allocator> Model for Links<S> {
    ghost use Rattle.link_fifo.specs.Side.{LinksAndRooms, links_of};

    ghost Value = { LinksAndRooms };

    ghost view = { λ s. links_of s.links.items };
}

impl<S: Allocator + Copy> Links<S> {
    /// Links as these say, each down, in session 0, with nothing on it.
    pub fn new(alloc: S, specs: &[LinkSpec]) -> Result<Links<S>, NoMemory>
        ensures ok { IfOk result (λ l. l.links ≡ map world.opening_link specs.now) }
        ensures full { OnErr result (0 < length specs.now) }
    {
        let mut links = Vec::with_capacity(alloc, specs.len())?;
        for spec in specs {
            links.push_reserved(Link::new(alloc, spec));
        }
        Ok(Links { links })
    }

    /// Equal links, with what stands on them, in memory of this allocator. It takes time and memory by
    /// the links and the items on them.
    pub fn copy(&self, alloc: S) -> Result<Links<S>, NoMemory>
        ensures ok { IfOk result (λ l. l.links ≡ self.now.links) }
        ensures full { OnErr result (0 < length self.now.links) }
    {
        let links = copy_links(alloc, &self.links)?;
        Ok(Links { links })
    }
}

// Equal links, with what stands on them, in memory of this allocator.
fn copy_links<S: Allocator + Copy>(
    alloc: S,
    links: &[Link<S>],
) -> Result<Vec<Link<S>, S>, AllocError>
    ensures ok { IfOk result (λ v. map (λ k. k.link) v.items ≡ map (λ k. k.link) links.now) }
    ensures full { OnErr result (0 < length links.now) }
{
    let mut copies = Vec::with_capacity(alloc, links.len())?;
    for link in links {
        copies.push_reserved(link.copy(alloc)?);
    }
    Ok(copies)
}

impl<S: Allocator> Links<S> {
    /// How many links there are.
    pub fn len(&self) -> usize
        ensures { result ≡ length self.now.links }
    {
        self.links.len()
    }

    /// Whether there is no link.
    pub fn is_empty(&self) -> bool
        ensures { IsTrue result ↔ (self.now.links ≡ []) }
    {
        self.links.is_empty()
    }

    /// Whether the link is up.
    pub fn is_up(&self, link: u16) -> bool
        requires known { link < length self.now.links }
        ensures up { IfSome (slice_get self.now.links link) (λ k. result ≡ k.up) }
    {
        self.links[usize::from(link)].is_up()
    }

    /// How often the link has come up.
    pub fn session(&self, link: u16) -> u16
        requires known { link < length self.now.links }
        ensures session { IfSome (slice_get self.now.links link) (λ k. result ≡ k.session) }
    {
        self.links[usize::from(link)].session()
    }

    /// The router at an end of the link.
    pub fn router(&self, link: u16, end: End) -> u16
        requires known { link < length self.now.links }
        ensures router { IfSome (slice_get self.now.links link)
            (λ k. result ≡ (world.side end k).router) }
    {
        self.links[usize::from(link)].router(end)
    }

    /// The router at the other end of the link, if the link is up in this session.
    pub fn far_end(&self, link: u16, end: End, session: u16) -> Option<u16>
        requires known { link < length self.now.links }
        ensures far { IfSome (slice_get self.now.links link) (λ k. result
            ≡ (if step.is_up_in session k then Some (world.side (world.other end) k).router else None)) }
    {
        if !self.is_up(link) || self.session(link) != session {
            return None;
        }
        Some(self.router(link, end.other()))
    }

    /// The cost of the link from one end, which it keeps while it is down.
    pub fn cost(&self, link: u16, end: End) -> Cost
        requires known { link < length self.now.links }
        ensures cost { IfSome (slice_get self.now.links link)
            (λ k. result ≡ (world.side end k).cost) }
    {
        self.links[usize::from(link)].cost(end)
    }

    /// How many items the end `to` has yet to take.
    pub fn queued(&self, link: u16, to: End) -> usize
        requires known { link < length self.now.links }
        ensures queued { IfSome (slice_get self.now.links link)
            (λ k. result ≡ length (world.side to k).inbox) }
    {
        self.links[usize::from(link)].queued(to)
    }

    /// The item that the end `to` takes after `place` others; none where fewer are queued.
    pub fn item(&self, link: u16, to: End, place: usize) -> Option<Item>
        requires known { link < length self.now.links }
        ensures item { IfSome (slice_get self.now.links link)
            (λ k. result ≡ slice_get (world.side to k).inbox place) }
    {
        self.links[usize::from(link)].item(to, place)
    }

    /// The link comes up in its next session, and each end is told so with the cost from there. Room is made
    /// to tell each end that it went down, too. Refused with `UnknownLink`, `AlreadyUp`, `SessionsSpent` and
    /// `NoMemory`, in this order.
    pub fn up(&mut self, link: u16) -> Result<(), LinkRefusal>
        ensures ok { OnOk result (self.new.links
            ≡ changed_at link step.link_come_up self.old.links) }
        ensures err { OnErr result (self.new.links ≡ self.old.links) }
        ensures cause { IsDoneUnless (refusal_to_come_up self.old.links link) result }
        ensures full { result ≡ Err OutOfMemory → (room_at self.old link A ≤ 1)
            ⊎ (room_at self.old link B ≤ 1) }
        ensures room { KeepsRooms 1 self.old self.new }
    {
        if usize::from(link) >= self.len() {
            return Err(LinkRefusal::UnknownLink);
        }
        if self.is_up(link) {
            return Err(LinkRefusal::AlreadyUp);
        }
        if self.session(link) >= u16::MAX {
            return Err(LinkRefusal::SessionsSpent);
        }
        self.links[usize::from(link)].come_up()?;
        Ok(())
    }

    /// The link goes down: the messages on it are lost, the notices stay in order, and each end is told. It
    /// takes no memory: room for that is kept while the link is up. Refused with `UnknownLink` and `IsDown`,
    /// in this order.
    pub fn down(&mut self, link: u16) -> Result<(), LinkRefusal>
        ensures ok { OnOk result (self.new.links
            ≡ changed_at link step.link_gone_down self.old.links) }
        ensures err { OnErr result (self.new.links ≡ self.old.links) }
        ensures cause { MatchOption (refusal_to_change self.old.links link) (IsOk result)
            (λ e. result ≡ Err e) }
        ensures room { KeepsRooms 1 self.old self.new }
    {
        if usize::from(link) >= self.len() {
            return Err(LinkRefusal::UnknownLink);
        }
        if !self.is_up(link) {
            return Err(LinkRefusal::IsDown);
        }
        self.links[usize::from(link)].go_down();
        Ok(())
    }

    /// The link has another cost from this end, which is told it. Refused with `UnknownLink`, `IsDown`
    /// and `NoMemory`, in this order.
    pub fn set_cost(&mut self, link: u16, end: End, cost: Cost) -> Result<(), LinkRefusal>
        ensures ok { OnOk result (self.new.links
            ≡ changed_at link (step.with_cost cost end) self.old.links) }
        ensures err { OnErr result (self.new.links ≡ self.old.links) }
        ensures cause { IsDoneUnless (refusal_to_change self.old.links link) result }
        ensures full { result ≡ Err OutOfMemory → room_at self.old link end ≤ 1 }
        ensures room { KeepsRooms 1 self.old self.new }
    {
        if usize::from(link) >= self.len() {
            return Err(LinkRefusal::UnknownLink);
        }
        if !self.is_up(link) {
            return Err(LinkRefusal::IsDown);
        }
        self.links[usize::from(link)].set_cost(end, cost)?;
        Ok(())
    }

    // Whether the link is up in this session.
    fn is_up_in(&self, link: u16, session: u16) -> bool
        requires known { link < length self.now.links }
        ensures answer { IfSome (slice_get self.now.links link)
            (λ k. result ≡ step.is_up_in session k) }
    {
        self.links[usize::from(link)].is_up_in(session)
    }

    /// Puts a message of this session on the link, on its way from one end to the other. Where the link
    /// is down, or up in another session, the message is lost; that takes no memory. Refused with
    /// `UnknownLink` and `NoMemory`.
    pub fn put(
        &mut self,
        link: u16,
        from: End,
        session: u16,
        message: Message,
    ) -> Result<Put, LinkRefusal>
        ensures ok { let held = sent_in session message in
            OnOk result (self.new.links ≡ changed_at link
            (step.with_message held from) self.old.links) }
        ensures err { OnErr result (self.new.links ≡ self.old.links) }
        ensures answer { AnswersPut session (slice_get self.old.links link) result }
        ensures full { result ≡ Err OutOfMemory → room_at self.old link (world.other from) ≤ 1 }
        ensures room { KeepsRooms 1 self.old self.new }
    {
        if usize::from(link) >= self.len() {
            return Err(LinkRefusal::UnknownLink);
        }
        if !self.is_up_in(link, session) {
            return Ok(Put::Stale);
        }
        self.links[usize::from(link)].put(from, session, message)?;
        Ok(Put::Queued)
    }

    /// The item that the end `to` takes next. Refused with `UnknownLink` and `NothingToDeliver`.
    pub fn front(&self, link: u16, to: End) -> Result<Item, LinkRefusal>
        ensures { result ≡ front_of to (slice_get self.now.links link) }
    {
        let found = self
            .links
            .get(usize::from(link))
            .ok_or(LinkRefusal::UnknownLink)?;
        found.front(to).ok_or(LinkRefusal::NothingToDeliver)
    }

    /// Takes the front item towards the end `to`. Refused with `UnknownLink` and `NothingToDeliver`.
    pub fn take(&mut self, link: u16, to: End) -> Result<Item, LinkRefusal>
        ensures answer { result ≡ front_of to (slice_get self.old.links link) }
        ensures ok { OnOk result (self.new.links
            ≡ changed_at link (step.with_front_taken to) self.old.links) }
        ensures err { OnErr result (self.new.links ≡ self.old.links) }
        ensures room { KeepsRooms 0 self.old self.new }
    {
        if usize::from(link) >= self.len() {
            return Err(LinkRefusal::UnknownLink);
        }
        self.links[usize::from(link)]
            .take(to)
            .ok_or(LinkRefusal::NothingToDeliver)
    }
}
