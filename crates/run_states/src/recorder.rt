//! What of a run was shown, and what has changed since.

ghost use Rattle.std.specs.Prelude.{◌≡◌, IfOk, OnErr, OnOk, Some, false, vec_len};
ghost use Rattle.network_model.specs.Step as steps;
ghost use Rattle.network_model.specs.World as model;
ghost use Rattle.world.specs.{Headline.IsReached, Steps.HasRoomForSteps};
ghost use Rattle.run_states.specs.Books.{matches_prefix};
ghost use Rattle.run_states.specs.Marks.{AreCut, LinkMarked, MarksTouched, RouterMarked, StepMarked, cuts, message_prefix, touched_link, may_touch};
ghost use Rattle.run_states.specs.Recorders.{AreLinksCurrent, ArePrefixesOf, AreRoutersCurrent, RecorderFollows, IsBlank, IsCurrent, IsRecorderOf, LinksFollow, RoutersFollow, ShowSame, ShowsLinks, ShowsRouters, ShowsWorld};

use crate::link_book::{LinkBook, LinkChange};
use crate::router_book::{RouterBook, RouterChange};
use ipv4_prefix::Prefix;
use network_model::{Item, NoMemory, Refusal, Step};
use route_table::PrefixMap;
use std::alloc::Global;
use world::{Network, Touched, World};

/// What has become of a network since the state before: of the links and the routers of these numbers.
#[derive(Drop)]
pub(crate) struct Changes {
    pub links: Vec<(u16, LinkChange)>,
    pub routers: Vec<(u16, RouterChange)>,
}

/// What was shown of a network last, and what a step may have changed since.
#[derive(Drop)]
pub(crate) struct Recorder {
    /// The prefixes of the network in their order, each once.
    pub prefixes: Vec<Prefix>,
    links: Vec<LinkBook>,
    routers: Vec<RouterBook>,
}

impl Recorder {
    /// A recorder of a network of which nothing was shown.
    pub(crate) fn new(alloc: Global, network: &Network) -> Result<Recorder, NoMemory>
        ensures of { IfOk result (IsRecorderOf (model.opening network.now)) }
        ensures current { IfOk result (IsCurrent (model.opening network.now)) }
        ensures blank { IfOk result IsBlank }
        ensures prefixes { IfOk result (λ r. ArePrefixesOf (network.now).attachments r.prefixes.items) }
    {
        let prefixes = prefixes_of(alloc, network)?;
        let mut links = Vec::new(alloc);
        for _ in network.links() {
            links.push(LinkBook::new(alloc))?;
        }
        let mut routers = Vec::new(alloc);
        for _ in 0..network.routers() {
            routers.push(RouterBook::new(alloc, prefixes.len())?)?;
        }
        Ok(Recorder {
            prefixes,
            links,
            routers,
        })
    }

    /// Does a step of a world to which a run leads, and marks what it may have changed. Refused, the world stays.
    pub(crate) fn step(&mut self, world: &mut World, step: Step) -> Result<(), Refusal>
        requires reached { (n : model.Network) × IsReached n world.old }
        requires room { HasRoomForSteps 1 world.old }
        requires of { IsRecorderOf world.old self.old }
        requires current { IsCurrent world.old self.old }
        ensures ok { OnOk result (steps.Lawful world.old step
            × (world.new ≡ steps.next world.old step)) }
        ensures err { OnErr result (world.new ≡ world.old) }
        ensures of { IsRecorderOf world.new self.new }
        ensures current { IsCurrent world.new self.new }
        ensures shows { ShowSame self.old self.new }
        ensures cut { AreCut (touched_link world.old step) (cuts step) (self.old.links).items (self.new.links).items }
    {
        self.mark(world, &step);
        world.step(step)
    }

    // Marks what a step that is about to be done may change.
    fn mark(&mut self, world: &World, step: &Step)
        ensures { MarksTouched world.now step.now self.old self.new }
    {
        self.mark_touched_router(world, step);
        if let Some(link) = Touched::by(step, world).link {
            self.mark_link(link, cuts(step));
        }
    }

    // Marks a link; one that goes down has lost what stood on it.
    fn mark_link(&mut self, link: u16, goes_down: bool)
        ensures { LinkMarked (Some link) goes_down self.old self.new }
    {
        if let Some(book) = self.links.get_mut(usize::from(link)) {
            book.is_marked = true;
            book.is_cut |= goes_down;
        }
    }

    // Marks the router that a step may change, and which of its machines.
    fn mark_touched_router(&mut self, world: &World, step: &Step)
        ensures { StepMarked world.now step.now self.old self.new }
    {
        match *step {
            Step::Deliver { router, port } => {
                self.mark_machines(router, next_message(world, router, port));
            }
            Step::Publish { router } => self.mark_publication(world, router),
            Step::Release { router } => self.mark_router(router),
            Step::Attach { router, .. } => self.mark_router(router),
            Step::Detach { router, .. } => self.mark_router(router),
            Step::LinkUp { .. } | Step::LinkDown { .. } | Step::SetCost { .. } => {}
        }
    }

    // Marks a router, and none of its machines.
    fn mark_router(&mut self, router: u16)
        ensures { RouterMarked router (λ _. Unit {0}) self.old self.new }
    {
        if let Some(book) = self.routers.get_mut(usize::from(router)) {
            book.is_marked = true;
        }
    }

    // Marks a router and its machine for this prefix, or where none is given each of them.
    fn mark_machines(&mut self, router: u16, which: Option<Prefix>)
        ensures { RouterMarked router (λ p. matches_prefix which p ≡ false) self.old self.new }
    {
        if let Some(book) = self.routers.get_mut(usize::from(router)) {
            book.mark_machines(&self.prefixes, which);
        }
    }

    // Marks a router that is about to publish, and its machines of which it chose another row.
    fn mark_publication(&mut self, world: &World, router: u16)
        ensures { RouterMarked router (λ p. may_touch world.now (Step.Publish router) p ≡ false)
            self.old self.new }
    {
        self.mark_router(router);
        if let Some(found) = world.routers().get(usize::from(router)) {
            for (prefix, _) in found.table().changed() {
                self.mark_machines(router, Some(prefix));
            }
        }
    }

    /// What has become of the network since the last call; from now on it is shown as it is.
    pub(crate) fn changes(&mut self, alloc: Global, world: &World) -> Result<Changes, NoMemory>
        requires of { IsRecorderOf world.now self.old }
        requires current { IsCurrent world.now self.old }
        ensures follows { IfOk result (λ c. RecorderFollows c self.old self.new) }
        ensures of { IsRecorderOf world.now self.new }
        ensures shows { OnOk result (ShowsWorld world.now self.new) }
    {
        let links = self.link_changes(alloc, world)?;
        let routers = self.router_changes(alloc, world)?;
        Ok(Changes { links, routers })
    }

    fn link_changes(
        &mut self,
        alloc: Global,
        world: &World,
    ) -> Result<Vec<(u16, LinkChange)>, NoMemory>
        requires of { IsRecorderOf world.now self.old }
        requires current { AreLinksCurrent world.now self.old }
        ensures follows { IfOk result (λ cs. LinksFollow cs.items (self.old.links).items (self.new.links).items) }
        ensures len { vec_len self.new.links ≡ vec_len self.old.links }
        ensures shows { OnOk result (ShowsLinks world.now self.new) }
        ensures routers { self.new.routers ≡ self.old.routers }
        ensures prefixes { self.new.prefixes ≡ self.old.prefixes }
    {
        let mut changes = Vec::new(alloc);
        for number in 0..self.links.len() {
            let book = &mut self.links[number];
            if book.is_marked {
                let change = book.change(alloc, world.links(), number as u16)?;
                changes.push((number as u16, change))?;
            }
        }
        Ok(changes)
    }

    fn router_changes(
        &mut self,
        alloc: Global,
        world: &World,
    ) -> Result<Vec<(u16, RouterChange)>, NoMemory>
        requires of { IsRecorderOf world.now self.old }
        requires current { AreRoutersCurrent world.now self.old }
        ensures follows { IfOk result (λ cs. RoutersFollow cs.items (self.old.routers).items (self.new.routers).items) }
        ensures of { IsRecorderOf world.now self.new }
        ensures shows { OnOk result (ShowsRouters world.now self.new) }
        ensures links { self.new.links ≡ self.old.links }
        ensures prefixes { self.new.prefixes ≡ self.old.prefixes }
    {
        let mut changes = Vec::new(alloc);
        for number in 0..self.routers.len() {
            let book = &mut self.routers[number];
            if book.is_marked {
                let (router, notices) = (world.router(number as u16), world.notices(number as u16));
                let change = book.change(alloc, &self.prefixes, router, notices)?;
                changes.push((number as u16, change))?;
            }
        }
        Ok(changes)
    }
}

// The prefix of the message that a port takes next; none where it takes something else, or nothing.
fn next_message(world: &World, router: u16, port: u8) -> Option<Prefix>
    ensures { result ≡ message_prefix (steps.front_at world.now router port) }
{
    let place = world.port(router, port)?;
    match world.links().front(place.link, place.end) {
        Ok(Item::Message(message)) => Some(message.prefix),
        _ => None,
    }
}

// The prefixes of a network, in their order, each once.
fn prefixes_of(alloc: Global, network: &Network) -> Result<Vec<Prefix>, NoMemory>
    ensures { IfOk result (λ v. ArePrefixesOf (network.now).attachments v.items) }
{
    let mut given = PrefixMap::new(alloc);
    for attachment in network.attachments() {
        given.reserve(1)?;
        given.put(attachment.0, ());
    }
    let mut prefixes = Vec::new(alloc);
    for row in given.as_slice() {
        prefixes.push(row.0)?;
    }
    Ok(prefixes)
}

// Whether a step takes from a link what stood on it.
fn cuts(step: &Step) -> bool
    ensures { result ≡ cuts step.now }
{
    matches!(step, Step::LinkDown { .. })
}
