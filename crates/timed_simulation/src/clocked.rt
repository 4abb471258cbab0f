//! A simulation with a clock: when what is left to do is due.

ghost use Rattle.std.specs.Prelude.{IsTrue, ◌≡◌, ◌<◌, ◌↔◌, false, Some, drop, length, slice_get, IfOk, IfErr, OnOk, OnErr};
ghost use Rattle.network_model.specs.World.{degree_of, place_at};
ghost use Rattle.coming_to_rest.specs.Worlds.{is_own};
ghost use Rattle.simulation.specs.Headline as headline;
ghost use Rattle.simulation.specs.Simulation as simulations;
ghost use Rattle.timed_simulation.specs.Timed.{after_event, opening_timed, with_timed_change, world_of};
ghost use Rattle.timed_simulation.specs.Events.{arrival_event, change_event, event_now, home_event, next_event, own_event, publication_event, publication_moment, router_event, waiting_event};
ghost use Rattle.timed_simulation.specs.{Next.next_moment, Due.NothingIsDue, Due.NothingIsLate, Due.NothingIsLeftOut};
ghost use Rattle.timed_simulation.specs.Runs.{IsAtRest, IsGivenOr, IsNext, IsStoppedFor, IsTimed};

use crate::events::{
    Change, Event, RouterTime, begins_at, insert_change, note_begun, opening_routers, sooner,
    take_done,
};
use crate::fault::TimeFault;
use crate::links::{
    LinkDelays, LinkTimes, copy_links, later, motion_of, note, opening_links, reserve,
};
use network_model::{NoMemory, Place, SmallAllocator, Step};
use simulation::Simulation;
use std::alloc::Global;
use std::collections::VecDeque;
use std::marker::Model;
use world::Network;

/// The most ports that a router has.
const MOST_PORTS: u8 = 32;

/// A network that runs in simulated time, which knows when each router is due, but not which is first.
#[derive(Drop)]
pub struct Clocked<A: SmallAllocator = Global> {
    simulation: Simulation<A>,
    // The moment of the last event.
    clock: u64,
    // When the items on each link arrive.
    links: Vec<LinkTimes<A>, A>,
    // How long each router takes to publish, and since when it is due.
    routers: Vec<RouterTime, A>,
    // The changes that are to be done, by their moments; of one moment as they were given.
    changes: VecDeque<Change, A>,
}

impl<A: SmallAllocator> Model for Clocked<A> {
    ghost use Rattle.std.specs.Prelude.{map};
    ghost use Rattle.timed_simulation.specs.Links.{link_of};
    ghost use Rattle.timed_simulation.specs.Timed.{Timed, timed_of};
    ghost use Rattle.timed_simulation.specs.Runs.{IsTimed};

    ghost Value = { Timed };

    ghost view = { λ t. timed_of t.simulation t.clock (map link_of t.links.items) t.routers.items t.changes.items };

    ghost invariant = { λ t. IsTimed
        (timed_of t.simulation t.clock (map link_of t.links.items) t.routers.items t.changes.items) };
}

impl<A: SmallAllocator> Clocked<A> {
    /// Opens a network at moment 0. An item is on its way along a link as long as `links` says of its
    /// direction, and a router publishes as long after it had something to publish as `routers` says, all in
    /// microseconds.
    pub fn open(
        alloc: A,
        network: Network,
        links: &[LinkDelays],
        routers: &[u64],
    ) -> Result<Clocked<A>, NoMemory>
        requires each_link { length links.now ≡ length network.links }
        requires each_router { length routers.now ≡ network.routers }
        ensures { IfOk result (λ t. t ≡ opening_timed network links.now routers.now) }
    {
        // A network has no fault, which its type keeps.
        let _routers = network.routers();
        let links = opening_links(alloc, links)?;
        let routers = opening_routers(alloc, routers)?;
        let simulation = Simulation::open(alloc, network)?;
        Ok(Clocked {
            simulation,
            clock: 0,
            links,
            routers,
            changes: VecDeque::new(alloc),
        })
    }

    /// An equal network, in memory of this allocator.
    pub fn copy(&self, alloc: A) -> Result<Clocked<A>, NoMemory>
        ensures { IfOk result (λ t. t ≡ self.now) }
    {
        let simulation = self.simulation.copy(alloc)?;
        let links = copy_links(alloc, &self.links)?;
        let routers = Vec::from_slice(alloc, &self.routers)?;
        let changes = self.changes.iter().copied().collect(alloc)?;
        Ok(Clocked {
            simulation,
            clock: self.clock,
            links,
            routers,
            changes,
        })
    }

    /// The network, its world, the images in force, and how many steps and messages there were.
    pub fn simulation(&self) -> &Simulation<A>
        ensures { result.now ≡ (self.now).simulation }
    {
        &self.simulation
    }

    /// The moment of the last event, in microseconds since the opening.
    pub fn now(&self) -> u64
        ensures { result ≡ (self.now).clock }
    {
        self.clock
    }

    /// The changes that are to be done, by their moments.
    pub fn changes(&self) -> &VecDeque<Change, A>
        ensures { result.now.items ≡ (self.now).changes }
    {
        &self.changes
    }

    /// How many routers there are.
    pub fn router_count(&self) -> usize
        ensures { result ≡ length (world_of self.now).routers }
    {
        self.simulation.world().routers().len()
    }

    /// Whether nothing is left to do: each change that was given is done, and the network is settled.
    pub fn is_at_rest(&self) -> bool
        ensures rest { IsTrue result ↔ IsAtRest self.now }
        ensures nothing { IsTrue result ↔ NothingIsDue self.now }
        ensures least_cost { IsTrue result → headline.HasBestRows (self.now).simulation }
    {
        self.changes.is_empty() && self.simulation.is_settled()
    }

    /// The first of the changes that were given.
    pub fn change_event(&self) -> Option<Event>
        ensures { result ≡ change_event self.now }
    {
        let change = *self.changes.front()?;
        Some(Event {
            moment: self.clock.max(change.moment),
            step: change.step,
            given: true,
        })
    }

    // What a router has to do at a moment.
    fn own_event(&self, moment: u64, step: Step) -> Event
        ensures { result ≡ own_event self.now moment step }
    {
        Event {
            moment: self.clock.max(moment),
            step,
            given: false,
        }
    }

    // What a router has to do at once.
    fn event_now(&self, step: Step) -> Event
        ensures { result ≡ event_now self.now step }
    {
        Event {
            moment: self.clock,
            step,
            given: false,
        }
    }

    // When a router publishes, if it has something to publish.
    fn publication_moment(&self, router: u16) -> u64
        ensures { result ≡ publication_moment self.now router }
    {
        match self.routers.get(usize::from(router)) {
            Some(time) => later(time.since, time.delay),
            None => 0,
        }
    }

    // A router publishes, if it has something to publish.
    fn publication_event(&self, router: u16) -> Option<Event>
        ensures { result ≡ publication_event self.now router }
    {
        let found = self.simulation.world().routers().get(usize::from(router))?;
        if !found.due() {
            return None;
        }
        let moment = self.publication_moment(router);
        Some(self.own_event(moment, Step::Publish { router }))
    }

    // A router takes the front item at a port, if there is one.
    fn arrival_event(&self, router: u16, port: u8, place: Place) -> Option<Event>
        requires { place_at (world_of self.now) router port ≡ Some place }
        ensures { result ≡ arrival_event self.now router port }
    {
        let links = self.simulation.world().links();
        let Ok(_) = links.front(place.link, place.end) else {
            return None;
        };
        let moment = match self.links.get(usize::from(place.link)) {
            Some(link) => link.front(place.end),
            None => 0,
        };
        Some(self.own_event(moment, Step::Deliver { router, port }))
    }

    // A router takes the oldest notice of its attachments, at the port behind those of its links.
    fn home_event(&self, router: u16, port: u8) -> Option<Event>
        requires router { router < length (world_of self.now).routers }
        requires port { degree_of (world_of self.now) router ≡ Some port }
        ensures { result ≡ home_event self.now router }
    {
        if self.simulation.world().notices(router) == 0 {
            return None;
        }
        Some(self.event_now(Step::Deliver { router, port }))
    }

    // The soonest of what a router has to do other than to release.
    fn waiting_event(&self, router: u16) -> Option<Event>
        requires { router < length (world_of self.now).routers }
        ensures { result ≡ waiting_event self.now router }
    {
        // A network without faults has at most so many ports at a router.
        let _routers = self.simulation.network().routers();
        let mut first = None;
        for port in 0..=MOST_PORTS {
            let Some(place) = self.simulation.world().port(router, port) else {
                let taken = sooner(self.publication_event(router), first);
                return sooner(taken, self.home_event(router, port));
            };
            first = sooner(first, self.arrival_event(router, port, place));
        }
        unreachable!()
    }

    /// What a router has to do next.
    pub fn router_event(&self, router: u16) -> Option<Event>
        requires { router < length (world_of self.now).routers }
        ensures { result ≡ router_event self.now router }
    {
        if self.simulation.world().router(router).front().is_some() {
            return Some(self.event_now(Step::Release { router }));
        }
        self.waiting_event(router)
    }

    /// When a router has something to do next, if it has.
    pub fn next_moment(&self, router: u16) -> Option<u64>
        requires { router < length (world_of self.now).routers }
        ensures { result ≡ next_moment self.now router }
    {
        let event = self.router_event(router)?;
        Some(event.moment)
    }

    /// Gives a change that is to be done at a moment, after those that were given before for the same one. It
    /// is refused with `PastMoment` if the moment is before the present one, and for want of memory.
    pub fn at(&mut self, moment: u64, change: Step) -> Result<(), TimeFault>
        requires { is_own change ≡ false }
        ensures ok { OnOk result (self.new
            ≡ with_timed_change (record { moment = moment; step = change }) self.old) }
        ensures err { OnErr result (self.new ≡ self.old) }
        ensures cause { IsGivenOr (self.old).clock moment result }
    {
        if moment < self.clock {
            return Err(TimeFault::PastMoment);
        }
        insert_change(
            &mut self.changes,
            Change {
                moment,
                step: change,
            },
        )?;
        Ok(())
    }

    /// Takes the first of the changes off the list, for example one whose step is refused.
    pub fn withdraw(&mut self) -> Option<Change>
        ensures change { result ≡ slice_get (self.old).changes 0 }
        ensures rest { self.new ≡ record self.old { changes = drop 1 (self.old).changes } }
    {
        self.changes.pop_front()
    }

    /// Does the next event. Refused, it leaves all as it was.
    pub fn do_event(&mut self, event: Event) -> Result<(), TimeFault>
        requires { next_event self.old ≡ Some event }
        ensures ok { OnOk result (IsNext self.old event × (self.new ≡ after_event self.old event)) }
        ensures err { OnErr result (self.new ≡ self.old) }
        ensures cause { IfErr result (IsStoppedFor self.old event) }
    {
        if event.moment >= u64::MAX {
            return Err(TimeFault::TimeSpent);
        }
        let motion = motion_of(self.simulation.world(), &event.step);
        let begins = begins_at(self.simulation.world(), &event.step);
        reserve(&mut self.links, motion)?;
        self.simulation.step(event.step)?;
        note(&mut self.links, event.moment, motion);
        note_begun(&mut self.routers, event.moment, begins);
        take_done(&mut self.changes, event.given);
        self.clock = event.moment;
        Ok(())
    }

    /// It does nothing. What holds of every timed simulation, for whoever has one: some events, whose moments
    /// never decrease, lead by lawful steps from the opening of the network to its world; nothing that is left
    /// to do was due before the present moment, and whatever a router may do is due at some moment; and the
    /// four parts of the headline.
    pub fn holds(&self)
        ensures timed { IsTimed self.now }
        ensures on_time { NothingIsLate self.now }
        ensures whole { NothingIsLeftOut self.now }
        ensures forwards { simulations.ForwardsAsPublished (self.now).simulation }
        ensures no_loop { headline.NeverMeetsTwice (self.now).simulation }
        ensures least_cost { headline.LeadsAtLeastCost (self.now).simulation }
        ensures converges { headline.ConvergesLeftAlone (self.now).simulation }
    {
        self.simulation.holds();
    }
}
