//! The timed simulation: a simulation with a clock, and which of its routers is due first.

ghost use Rattle.std.specs.Prelude.{IsTrue, ◌≡◌, ◌≤◌, ◌<◌, ◌↔◌, ◌⊎◌, false, None, Some, drop, length, slice_get, IfOk, IfErr, IfSome, IfNone, OnOk, OnErr, MatchOption};
ghost use Rattle.coming_to_rest.specs.Worlds.{is_own};
ghost use Rattle.simulation.specs.Headline as headline;
ghost use Rattle.simulation.specs.Simulation as simulations;
ghost use Rattle.timed_simulation.specs.Timed.{after_event, opening_timed, with_timed_change, world_of};
ghost use Rattle.timed_simulation.specs.Events.{next_event, router_event, soonest};
ghost use Rattle.timed_simulation.specs.Due.{IsDoneUntil, IsDue, IsFirst, NothingIsDue, NothingIsLate, NothingIsLeftOut};
ghost use Rattle.timed_simulation.specs.Runs.{IsAtRest, IsGivenOr, IsNext, IsStoppedAt, IsStoppedFor, IsStoppedShort, IsTimed, IsTimedRun};

use crate::again::look_again;
use crate::clocked::Clocked;
use crate::events::{Change, Event, sooner};
use crate::fault::TimeFault;
use crate::links::LinkDelays;
use minima::Minima;
use network_model::{NoMemory, SmallAllocator, Step};
use simulation::Simulation;
use std::alloc::Global;
use std::collections::VecDeque;
use std::marker::Model;
use world::{Network, Touched};

/// How far a run came: how many events were done, and why the next was not done, if it was due.
#[derive(Clone, Copy, PartialEq, Eq)]
pub struct TimedRan {
    pub done: usize,
    pub fault: Option<TimeFault>,
}

/// A network that runs in simulated time.
#[derive(Drop)]
pub struct TimedSimulation<A: SmallAllocator = Global> {
    clocked: Clocked<A>,
    // When each router has something to do next.
    minima: Minima<A>,
}

impl<A: SmallAllocator> Model for TimedSimulation<A> {
    ghost use Rattle.timed_simulation.specs.Timed.{Timed};
    ghost use Rattle.timed_simulation.specs.Next.{KeepsMoments};

    ghost Value = { Timed };

    ghost view = { λ t. t.clocked };

    ghost invariant = { λ t. KeepsMoments t.clocked t.minima };
}

impl<A: SmallAllocator> TimedSimulation<A> {
    /// Opens a network at moment 0. An item is on its way along a link as long as `links` says of its
    /// direction, and a router publishes as long after it had something to publish as `routers` says, all in
    /// microseconds.
    pub fn open(
        alloc: A,
        network: Network,
        links: &[LinkDelays],
        routers: &[u64],
    ) -> Result<TimedSimulation<A>, NoMemory>
        requires each_link { length links.now ≡ length network.links }
        requires each_router { length routers.now ≡ network.routers }
        ensures { IfOk result (λ t. t ≡ opening_timed network links.now routers.now) }
    {
        let minima = Minima::new(alloc, network.routers())?;
        let clocked = Clocked::open(alloc, network, links, routers)?;
        Ok(TimedSimulation { clocked, minima })
    }

    /// An equal network in memory of this allocator, with what is on its way and the changes that are to be done:
    /// what becomes of one of the two leaves the other as it is. It takes time and memory by all that stands in it.
    pub fn copy(&self, alloc: A) -> Result<TimedSimulation<A>, NoMemory>
        ensures { IfOk result (λ t. t ≡ self.now) }
    {
        let minima = self.minima.copy(alloc)?;
        let clocked = self.clocked.copy(alloc)?;
        Ok(TimedSimulation { clocked, minima })
    }

    /// The network, its world, the images in force, and how many steps and messages there were.
    pub fn simulation(&self) -> &Simulation<A>
        ensures { result.now ≡ (self.now).simulation }
    {
        self.clocked.simulation()
    }

    /// The moment of the last event, in microseconds since the opening.
    pub fn now(&self) -> u64
        ensures { result ≡ (self.now).clock }
    {
        self.clocked.now()
    }

    /// The changes that are to be done, by their moments.
    pub fn changes(&self) -> &VecDeque<Change, A>
        ensures { result.now.items ≡ (self.now).changes }
    {
        self.clocked.changes()
    }

    /// Whether nothing is left to do: each change that was given is done, and the network is settled.
    pub fn is_at_rest(&self) -> bool
        ensures rest { IsTrue result ↔ IsAtRest self.now }
        ensures nothing { IsTrue result ↔ NothingIsDue self.now }
        ensures least_cost { IsTrue result → headline.HasBestRows (self.now).simulation }
    {
        self.clocked.is_at_rest()
    }

    // The soonest of what the routers have to do, by number.
    fn first_event(&self) -> Option<Event>
        ensures { result ≡ soonest (router_event self.now) (length (world_of self.now).routers) }
    {
        match self.minima.first() {
            Some(due) => self.clocked.router_event(due.router),
            None => None,
        }
    }

    /// What is done next, if anything is left to do: the soonest of the changes that were given, and of what
    /// the routers have to do. Of one moment changes come first, as they were given, and then routers by
    /// number. It is due just then, and nothing that is left to do is due sooner. If there is none, nothing
    /// is left to do.
    pub fn next_event(&self) -> Option<Event>
        ensures next { result ≡ next_event self.now }
        ensures due { IfSome result (IsDue self.now) }
        ensures first { IfSome result (IsFirst self.now) }
        ensures none { IfNone result (NothingIsDue self.now) }
    {
        self.clocked.holds();
        sooner(self.clocked.change_event(), self.first_event())
    }

    // The same, where its moment is no later than this one.
    fn event_until(&self, moment: u64) -> Option<Event>
        ensures some { IfSome result (λ e. (next_event self.now ≡ Some e) × (e.moment ≤ moment)) }
        ensures none { result ≡ None → IsDoneUntil moment self.now }
    {
        let event = self.next_event()?;
        if event.moment > moment {
            return None;
        }
        Some(event)
    }

    /// Gives a change that is to be done at a moment, after those that were given before for the same one. It
    /// is refused with `PastMoment` if the moment is before the present one, and for want of memory.
    pub fn at(&mut self, moment: u64, change: Step) -> Result<(), TimeFault>
        requires { is_own change ≡ false }
        ensures ok { OnOk result (self.new
            ≡ with_timed_change (record { moment = moment; step = change }) self.old) }
        ensures err { OnErr result (self.new ≡ self.old) }
        ensures cause { IsGivenOr (self.old).clock moment result }
    {
        self.clocked.at(moment, change)
    }

    /// Takes the first of the changes off the list, for example one whose step is refused.
    pub fn withdraw(&mut self) -> Option<Change>
        ensures change { result ≡ slice_get (self.old).changes 0 }
        ensures rest { self.new ≡ record self.old { changes = drop 1 (self.old).changes } }
    {
        self.clocked.withdraw()
    }

    // Does the next event. Refused, it leaves all as it was.
    fn do_event(&mut self, event: Event) -> Result<(), TimeFault>
        requires { next_event self.old ≡ Some event }
        ensures ok { OnOk result (IsNext self.old event × (self.new ≡ after_event self.old event)) }
        ensures err { OnErr result (self.new ≡ self.old) }
        ensures cause { IfErr result (IsStoppedFor self.old event) }
    {
        self.clocked.holds();
        let touched = Touched::by(&event.step, self.clocked.simulation().world());
        self.clocked.do_event(event)?;
        look_again(&mut self.minima, &self.clocked, touched);
        Ok(())
    }

    /// Does what is due up to a moment, that included, in the order of the moments: at most so many events,
    /// until nothing is left to do up to then or an event cannot be done. A change that is refused stays the
    /// next one.
    pub fn run_until(&mut self, moment: u64, most: usize) -> TimedRan
        ensures run { IsTimedRun self.old self.new result.done }
        ensures most { result.done ≤ most }
        ensures until { (result.done ≡ 0) ⊎ ((self.new).clock ≤ moment) }
        ensures stop { MatchOption result.fault
            (IsDoneUntil moment self.new ⊎ (result.done ≡ most))
            (IsStoppedAt self.new) }
        ensures short { IfSome result.fault (λ _. IsStoppedShort moment most result.done self.new) }
        ensures on_time { NothingIsLate self.new }
        ensures forwards { simulations.ForwardsAsPublished (self.new).simulation }
        ensures no_loop { headline.NeverMeetsTwice (self.new).simulation }
        ensures least_cost { headline.LeadsAtLeastCost (self.new).simulation }
        ensures converges { headline.ConvergesLeftAlone (self.new).simulation }
    {
        let ran = self.do_events(moment, most);
        self.holds();
        ran
    }

    fn do_events(&mut self, moment: u64, most: usize) -> TimedRan
        ensures run { IsTimedRun self.old self.new result.done }
        ensures most { result.done ≤ most }
        ensures until { (result.done ≡ 0) ⊎ ((self.new).clock ≤ moment) }
        ensures stop { MatchOption result.fault
            (IsDoneUntil moment self.new ⊎ (result.done ≡ most))
            (IsStoppedAt self.new) }
        ensures short { IfSome result.fault (λ _. IsStoppedShort moment most result.done self.new) }
    {
        for done in 0..most {
            let Some(event) = self.event_until(moment) else {
                return TimedRan { done, fault: None };
            };
            if let Err(fault) = self.do_event(event) {
                return TimedRan {
                    done,
                    fault: Some(fault),
                };
            }
        }
        TimedRan {
            done: most,
            fault: None,
        }
    }

    /// Does all that is left to do, in the order of the moments: at most so many events, until the network is
    /// at rest or an event cannot be done. Then `now` is the moment since which it is at rest.
    pub fn run_to_rest(&mut self, most: usize) -> TimedRan
        ensures run { IsTimedRun self.old self.new result.done }
        ensures most { result.done ≤ most }
        ensures stop { MatchOption result.fault
            (IsAtRest self.new ⊎ (result.done ≡ most))
            (IsStoppedAt self.new) }
        ensures fewer { IfSome result.fault (λ _. result.done < most) }
        ensures on_time { NothingIsLate self.new }
        ensures forwards { simulations.ForwardsAsPublished (self.new).simulation }
        ensures no_loop { headline.NeverMeetsTwice (self.new).simulation }
        ensures least_cost { headline.LeadsAtLeastCost (self.new).simulation }
        ensures converges { headline.ConvergesLeftAlone (self.new).simulation }
    {
        let ran = self.run_until(u64::MAX, most);
        let _next = self.next_event();
        let _rest = self.is_at_rest();
        ran
    }

    /// It does nothing. What holds of every timed simulation, for whoever has one: some events, whose moments
    /// never decrease, lead by lawful steps from the opening of the network to its world; nothing that is left
    /// to do was due before the present moment, and whatever a router may do is due at some moment; and the
    /// four parts of the headline.
    pub fn holds(&self)
        ensures timed { IsTimed self.now }
        ensures on_time { NothingIsLate self.now }
        ensures whole { NothingIsLeftOut self.now }
        ensures forwards { simulations.ForwardsAsPublished (self.now).simulation }
        ensures no_loop { headline.NeverMeetsTwice (self.now).simulation }
        ensures least_cost { headline.LeadsAtLeastCost (self.now).simulation }
        ensures converges { headline.ConvergesLeftAlone (self.now).simulation }
    {
        self.clocked.holds();
    }
}
