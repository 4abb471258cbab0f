//! The world: routers and links, and the steps that change them.

ghost use Rattle.std.specs.Prelude.{ℕ, ◌≡◌, ◌<◌, ◌≤◌, ◌↔◌, true, false, length, take, slice_get, is_none, None, Some, Err, IfOk, IfErr, IfSome, IsOk, OnOk, OnErr, MatchOption, IsTrue, option_map, option_and_then, if◌then◌else◌};
ghost use Rattle.std.specs.List.{position_from};
ghost use Rattle.network_model.specs.World as model;
ghost use Rattle.network_model.specs.Step as steps;
ghost use Rattle.network_model.specs.{Step.refusal, Run.Runs, declared.item.Held.Held, declared.route.Entry.Entry as Entries, Forwarding.entry_leads};
ghost use Rattle.network_model.specs.Turns as turns;
ghost use Rattle.world.specs.Steps.{DeliversWithRoom, DeliveryNeedsMemory, DiscardsStale, IsDoneOr, HasRoomForSteps, IsPort, is_stale, port_refusal, prefix_refusal, StopsAt};
ghost use Rattle.world.specs.{Headline.IsReached, Headline.HasWorldHeadline, Waiting.is_waiting, Waiting.waiting_port};

use crate::attachments::Attachments;
use crate::copying::{copy_attachments, copy_places, copy_routers};
use crate::network::Network;
use crate::opening::{
    opening_attachments, opening_costs, opening_places, opening_prefixes, opening_routers,
};
use link_fifo::Links;
use network_model::{Cost, End, NoMemory, Notice, Place, Prefix, Refusal, SmallAllocator, Step};
use router_core::Router;
use std::alloc::Global;
use std::marker::Model;

/// How far a list of steps came.
#[derive(Clone, Copy)]
pub struct Ran {
    /// How many steps were done.
    pub done: usize,
    /// Why the next step was refused; None where all were done.
    pub refusal: Option<Refusal>,
}

/// A network that runs: its links, its routers, the place of each router's ports on the links, its
/// prefixes, and what each router is attached to.
#[derive(Drop)]
pub struct World<A: SmallAllocator = Global> {
    places: Vec<Vec<Place, A>, A>,
    links: Links<A>,
    prefixes: Vec<Prefix, A>,
    attachments: Vec<Attachments<A>, A>,
    routers: Vec<Router<A>, A>,
}

impl<A: SmallAllocator> Model for World<A> {
    ghost use Rattle.network_model.specs.World.{World as NetworkWorld};
    ghost use Rattle.world.specs.Parts.{world_of_parts};
    ghost use Rattle.world.specs.Kept.{IsWorld};

    ghost Value = { NetworkWorld };

    ghost view = { λ w. world_of_parts w.places.items w.links.links w.prefixes.items w.attachments.items w.routers.items };

    ghost invariant = { λ w. IsWorld
        (world_of_parts w.places.items w.links.links w.prefixes.items w.attachments.items w.routers.items) };
}

impl<A: SmallAllocator> World<A> {
    /// The world of a network that opens: every link is down, nothing is queued or held, no notice
    /// waits, and each prefix is known at the routers attached to it alone. It takes time by n log n of
    /// the routers, links and attachments.
    pub fn open(alloc: A, network: &Network) -> Result<World<A>, NoMemory>
        ensures { IfOk result (λ w. w ≡ model.opening network.now) }
    {
        let links = Links::new(alloc, network.links())?;
        let places = opening_places(alloc, network)?;
        let prefixes = opening_prefixes(alloc, network)?;
        let own = opening_costs(alloc, network)?;
        let attachments = opening_attachments(alloc, network, &own)?;
        let routers = opening_routers(alloc, network, &places, &own)?;
        Ok(World {
            places,
            links,
            prefixes,
            attachments,
            routers,
        })
    }

    /// An equal world in memory of this allocator: what becomes of one of the two leaves the other as it
    /// is. It takes time and memory by all that stands in the world.
    pub fn copy(&self, alloc: A) -> Result<World<A>, NoMemory>
        ensures { IfOk result (λ w. w ≡ self.now) }
    {
        let places = copy_places(alloc, &self.places)?;
        let links = self.links.copy(alloc)?;
        let prefixes = Vec::from_slice(alloc, &self.prefixes)?;
        let attachments = copy_attachments(alloc, &self.attachments)?;
        let routers = copy_routers(alloc, &self.routers)?;
        Ok(World {
            places,
            links,
            prefixes,
            attachments,
            routers,
        })
    }

    /// The links, by number.
    pub fn links(&self) -> &Links<A>
        ensures { result.now.links ≡ (self.now).links }
    {
        &self.links
    }

    /// The routers, by number.
    pub fn routers(&self) -> &[Router<A>]
        ensures routers { result.now ≡ (self.now).routers }
        ensures attachments { length (self.now).attachments ≡ length result.now }
    {
        &self.routers
    }

    /// The router of this number.
    pub fn router(&self, number: u16) -> &Router<A>
        requires { number < length (self.now).routers }
        ensures { slice_get (self.now).routers number ≡ Some result.now }
    {
        &self.routers[usize::from(number)]
    }

    /// The link and the end at which a router's port lies, where there is such a port.
    pub fn port(&self, router: u16, port: u8) -> Option<Place>
        ensures { result ≡ model.place_at self.now router port }
    {
        let places = self.places.get(usize::from(router))?;
        places.get(usize::from(port)).copied()
    }

    /// The router at the far end of the link at a router's port, where there is such a port and its link is up
    /// in this session.
    pub fn far_router(&self, router: u16, port: u8, session: u16) -> Option<u16>
        ensures { result ≡ entry_leads self.now router (Entries.Via port session) }
    {
        let place = self.port(router, port)?;
        self.links.far_end(place.link, place.end, session)
    }

    /// How many notices of its attachments a router has yet to take.
    pub fn notices(&self, router: u16) -> usize
        requires { router < length (self.now).routers }
        ensures { option_map (λ a. length a.notices) (slice_get (self.now).attachments router)
            ≡ Some result }
    {
        self.attachments[usize::from(router)].notices()
    }

    /// The notice of its attachments that a router takes after `place` others; none where fewer wait, or
    /// where there is no such router.
    pub fn notice(&self, router: u16, place: usize) -> Option<Notice>
        ensures { result ≡ option_and_then (λ a. slice_get a.notices place)
            (slice_get (self.now).attachments router) }
    {
        self.attachments.get(usize::from(router))?.notice(place)
    }

    /// Each prefix that some router is or was attached to, once.
    pub fn prefixes(&self) -> &[Prefix]
        ensures { result.now ≡ (self.now).prefixes }
    {
        &self.prefixes
    }

    /// What a router's attachment to the prefix costs; none where it is not attached, or where there is no such
    /// router.
    pub fn attachment(&self, router: u16, prefix: Prefix) -> Option<Cost>
        ensures { result ≡ model.attachment_at self.now router prefix }
    {
        self.attachments.get(usize::from(router))?.cost(prefix)
    }

    /// What a router has to do next: the first of a release, a publication, and a delivery by ascending
    /// port that is lawful, the notices of its attachments last; none where nothing is, or where there
    /// is no such router.
    pub fn next_step(&self, router: u16) -> Option<Step>
        ensures { result ≡ turns.next_step self.now router }
    {
        let found = self.routers.get(usize::from(router))?;
        if found.front().is_some() {
            return Some(Step::Release { router });
        }
        if found.due() {
            return Some(Step::Publish { router });
        }
        let port = self.waiting_port(router)?;
        Some(Step::Deliver { router, port })
    }

    // The lowest port of a router that has an item or a notice to take.
    fn waiting_port(&self, router: u16) -> Option<u8>
        requires known { router < length (self.now).routers }
        ensures { result ≡ waiting_port self.now router }
    {
        // A router has at most 32 ports.
        let _few = self.router(router).port_count();
        let places = &self.places[usize::from(router)];
        match self.place_waiting(places) {
            Some(port) => Some(port as u8),
            None if self.notices(router) > 0 => Some(places.len() as u8),
            None => None,
        }
    }

    // The first of these places at which an item waits to be taken.
    fn place_waiting(&self, places: &[Place]) -> Option<usize>
        ensures first { result ≡ position_from (is_waiting (self.now).links) 0 places.now }
        ensures within { IfSome result (λ port. port < length places.now) }
    {
        places
            .iter()
            .position(|place| self.links.front(place.link, place.end).is_ok())
    }

    /// Whether each router can publish as often as this: a generation is a number of 64 bits.
    pub fn has_room_for(&self, steps: usize) -> bool
        ensures { IsTrue result ↔ HasRoomForSteps steps self.now }
    {
        self.routers
            .iter()
            .all(|router| steps as u64 <= u64::MAX - router.generation())
    }

    /// Does one step. Refused, it leaves all as it was. The causes are tested in the order of the
    /// definition; want of memory comes after them. A publication takes no memory, nor does a link that goes
    /// down, nor the release of a stale message, which is discarded; a delivery takes what its router needs.
    pub fn step(&mut self, step: Step) -> Result<(), Refusal>
        requires { HasRoomForSteps 1 self.old }
        ensures ok { OnOk result (steps.Lawful self.old step
            × (self.new ≡ steps.next self.old step)) }
        ensures err { OnErr result (self.new ≡ self.old) }
        ensures cause { IsDoneOr (steps.refusal self.old step) result }
        ensures publication { (i : ℕ) → step ≡ Step.Publish i
            → MatchOption (steps.refusal self.old step) (IsOk result) (λ e. result ≡ Err e) }
        ensures down { (l : ℕ) → step ≡ Step.LinkDown l
            → MatchOption (steps.refusal self.old step) (IsOk result) (λ e. result ≡ Err e) }
        ensures stale { DiscardsStale self.old step result }
        ensures room { DeliversWithRoom self.old step result }
    {
        match step {
            Step::LinkUp { link } => self.link_up(link),
            Step::LinkDown { link } => self.link_down(link),
            Step::SetCost { router, port, cost } => self.set_cost(router, port, cost),
            Step::Deliver { router, port } => self.deliver(router, port),
            Step::Publish { router } => self.publish(router),
            Step::Release { router } => self.release(router),
            Step::Attach {
                router,
                prefix,
                cost,
            } => self.attach(router, prefix, cost),
            Step::Detach { router, prefix } => self.detach(router, prefix),
        }
    }

    /// Does the steps in order, up to the first that is refused.
    pub fn run(&mut self, steps: &[Step]) -> Ran
        requires { HasRoomForSteps (length steps.now) self.old }
        ensures done { result.done ≤ length steps.now }
        ensures runs { Runs self.old (take result.done steps.now) self.new }
        ensures stop { MatchOption result.refusal (result.done ≡ length steps.now)
            (StopsAt (refusal self.new) steps.now result.done) }
        ensures reached { (n : model.Network) → IsReached n self.old → IsReached n self.new }
        ensures headline { (n : model.Network) → IsReached n self.old
            → HasWorldHeadline n self.new }
        ensures publication { IfSome result.refusal (λ e. (i : ℕ) → slice_get steps.now result.done
            ≡ Some (Step.Publish i) → refusal self.new (Step.Publish i) ≡ Some e) }
    {
        for (done, &step) in steps.iter().enumerate() {
            if let Err(refusal) = self.step(step) {
                return Ran {
                    done,
                    refusal: Some(refusal),
                };
            }
        }
        Ran {
            done: steps.len(),
            refusal: None,
        }
    }

    fn link_up(&mut self, link: u16) -> Result<(), Refusal>
        ensures ok { OnOk result (self.new ≡ steps.next self.old (Step.LinkUp link)) }
        ensures err { OnErr result (self.new ≡ self.old) }
        ensures cause { IsDoneOr (steps.refusal self.old (Step.LinkUp link)) result }
    {
        self.links.up(link)?;
        Ok(())
    }

    fn link_down(&mut self, link: u16) -> Result<(), Refusal>
        ensures ok { OnOk result (self.new ≡ steps.next self.old (Step.LinkDown link)) }
        ensures err { OnErr result (self.new ≡ self.old) }
        ensures cause { MatchOption (steps.refusal self.old (Step.LinkDown link)) (IsOk result)
            (λ e. result ≡ Err e) }
    {
        self.links.down(link)?;
        Ok(())
    }

    fn set_cost(&mut self, router: u16, port: u8, cost: Cost) -> Result<(), Refusal>
        ensures ok { OnOk result (self.new ≡ steps.next self.old (Step.SetCost router port cost)) }
        ensures err { OnErr result (self.new ≡ self.old) }
        ensures cause { IsDoneOr (steps.refusal self.old (Step.SetCost router port cost)) result }
    {
        let place = self.known_port(router, port)?;
        prove!(cost.value() > 0);
        self.links.set_cost(place.link, place.end, cost)?;
        Ok(())
    }

    fn deliver(&mut self, router: u16, port: u8) -> Result<(), Refusal>
        ensures ok { OnOk result (self.new ≡ steps.next self.old (Step.Deliver router port)) }
        ensures err { OnErr result (self.new ≡ self.old) }
        ensures cause { IsDoneOr (steps.refusal self.old (Step.Deliver router port)) result }
        ensures room { steps.refusal self.old (Step.Deliver router port) ≡ None
            → OnErr result (DeliveryNeedsMemory self.old router port) }
    {
        if self.is_at_home(router, port) {
            return self.deliver_notice(router, port);
        }
        self.deliver_item(router, port)
    }

    // Whether the port is the one at which the router takes the notices of its attachments.
    fn is_at_home(&self, router: u16, port: u8) -> bool
        ensures { result ≡ steps.is_at_home self.now router port }
    {
        match self.places.get(usize::from(router)) {
            Some(places) => usize::from(port) == places.len(),
            None => false,
        }
    }

    fn deliver_notice(&mut self, router: u16, port: u8) -> Result<(), Refusal>
        requires home { steps.is_at_home self.old router port ≡ true }
        ensures ok { OnOk result (self.new ≡ steps.next self.old (Step.Deliver router port)) }
        ensures err { OnErr result (self.new ≡ self.old) }
        ensures cause { IsDoneOr (steps.refusal self.old (Step.Deliver router port)) result }
        ensures room { steps.refusal self.old (Step.Deliver router port) ≡ None
            → OnErr result (DeliveryNeedsMemory self.old router port) }
    {
        let number = usize::from(router);
        let Some(notice) = self.attachments[number].front() else {
            return Err(Refusal::NothingToDeliver);
        };
        self.routers[number].notice(notice.prefix, notice.cost)?;
        self.attachments[number].take();
        Ok(())
    }

    fn deliver_item(&mut self, router: u16, port: u8) -> Result<(), Refusal>
        requires link { steps.is_at_home self.old router port ≡ false }
        ensures ok { OnOk result (self.new ≡ steps.next self.old (Step.Deliver router port)) }
        ensures err { OnErr result (self.new ≡ self.old) }
        ensures cause { IsDoneOr (steps.refusal self.old (Step.Deliver router port)) result }
        ensures room { steps.refusal self.old (Step.Deliver router port) ≡ None
            → OnErr result (DeliveryNeedsMemory self.old router port) }
    {
        let place = self.known_port(router, port)?;
        let item = self.links.front(place.link, place.end)?;
        let taker = &mut self.routers[usize::from(router)];
        taker.accept(port, &item)?;
        let _taken = self.links.take(place.link, place.end);
        Ok(())
    }

    fn publish(&mut self, router: u16) -> Result<(), Refusal>
        requires { HasRoomForSteps 1 self.old }
        ensures ok { OnOk result (self.new ≡ steps.next self.old (Step.Publish router)) }
        ensures err { OnErr result (self.new ≡ self.old) }
        ensures cause { MatchOption (steps.refusal self.old (Step.Publish router)) (IsOk result)
            (λ e. result ≡ Err e) }
    {
        if usize::from(router) >= self.routers.len() {
            return Err(Refusal::UnknownRouter);
        }
        if !self.router(router).due() {
            return Err(Refusal::NothingDue);
        }
        self.routers[usize::from(router)].mark_published();
        Ok(())
    }

    fn release(&mut self, router: u16) -> Result<(), Refusal>
        ensures ok { OnOk result (self.new ≡ steps.next self.old (Step.Release router)) }
        ensures err { OnErr result (self.new ≡ self.old) }
        ensures cause { IsDoneOr (steps.refusal self.old (Step.Release router)) result }
        ensures stale { (h : Held) → steps.release_at self.old router ≡ Some h
            → is_stale self.old router h ≡ true → IsOk result }
    {
        if usize::from(router) >= self.routers.len() {
            return Err(Refusal::UnknownRouter);
        }
        let Some(held) = self.router(router).front() else {
            return Err(Refusal::NothingRipe);
        };
        if let Some(place) = self.port(router, held.port) {
            self.links
                .put(place.link, place.end, held.session, held.message)?;
        }
        let _released = self.routers[usize::from(router)].release();
        Ok(())
    }

    fn attach(&mut self, router: u16, prefix: Prefix, cost: Cost) -> Result<(), Refusal>
        ensures ok { OnOk result (self.new ≡ steps.next self.old (Step.Attach router prefix cost)) }
        ensures err { OnErr result (self.new ≡ self.old) }
        ensures cause { IsDoneOr (steps.refusal self.old (Step.Attach router prefix cost)) result }
    {
        self.known_prefix(router, prefix)?;
        self.attachments[usize::from(router)].attach(prefix, cost)?;
        Ok(())
    }

    fn detach(&mut self, router: u16, prefix: Prefix) -> Result<(), Refusal>
        ensures ok { OnOk result (self.new ≡ steps.next self.old (Step.Detach router prefix)) }
        ensures err { OnErr result (self.new ≡ self.old) }
        ensures cause { IsDoneOr (steps.refusal self.old (Step.Detach router prefix)) result }
    {
        self.known_prefix(router, prefix)?;
        let attachments = &mut self.attachments[usize::from(router)];
        if attachments.cost(prefix).is_none() {
            return Err(Refusal::NotAttached);
        }
        attachments.detach(prefix)?;
        Ok(())
    }

    // Whether there are such a router and such a prefix.
    fn known_prefix(&self, router: u16, prefix: Prefix) -> Result<(), Refusal>
        ensures ok { OnOk result (prefix_refusal self.now router prefix ≡ None) }
        ensures cause { IfErr result (λ e. prefix_refusal self.now router prefix ≡ Some e) }
    {
        if usize::from(router) >= self.routers.len() {
            return Err(Refusal::UnknownRouter);
        }
        if !self.is_known(prefix) {
            return Err(Refusal::UnknownPrefix);
        }
        Ok(())
    }

    // Whether the prefix is one of the network's.
    fn is_known(&self, prefix: Prefix) -> bool
        ensures { result ≡ model.is_known self.now prefix }
    {
        self.prefixes.iter().any(|known| prefix == *known)
    }

    // The place of a port that is asked for.
    fn known_port(&self, router: u16, port: u8) -> Result<Place, Refusal>
        ensures ok { IfOk result (λ p. IsPort self.now router port p) }
        ensures cause { IfErr result (λ e. port_refusal self.now router port ≡ Some e) }
    {
        if usize::from(router) >= self.routers.len() {
            return Err(Refusal::UnknownRouter);
        }
        self.port(router, port).ok_or(Refusal::UnknownLink)
    }
}
