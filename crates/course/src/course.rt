//! The course: a world, and how many steps made it.

ghost use Rattle.std.specs.Prelude.{ℕ, Err, IsTrue, ◌≡◌, ◌+◌, ◌^◌, ◌<◌, ◌↔◌, None, Some, length, IfOk, IfSome, IsOk, OnOk, OnErr, MatchOption, false, true};
ghost use Rattle.network_model.specs.Step as steps;
ghost use Rattle.network_model.specs.Turns as turns;
ghost use Rattle.network_model.specs.Forwarding.{is_quiet};
ghost use Rattle.world.specs.Steps.{DeliversWithRoom, DiscardsStale, HasRoomForSteps, IsDoneOr};
ghost use Rattle.world.specs.Headline.{HasWorldHeadline, IsReached};
ghost use Rattle.course.specs.{Course.course_after, Course.course_refusal, Course.opening_course, Links.HasShortWays, Links.LeadsToRouters, Turns.open_step};

use crate::due::{NoneShut, Shut, first_due, open_step};
use crate::sent::{Sent, leaving};
use crate::stepping::Stepping;
use crate::watch::Watch;
use network_model::{NoMemory, Refusal, SmallAllocator, Step};
use std::alloc::Global;
use std::marker::Model;
use world::{Network, WatchedWorld, World};

/// A network that runs. It takes memory by the routers, links, rows and messages under way, and not by the steps.
#[derive(Drop)]
pub struct Course<A: SmallAllocator = Global> {
    network: Network,
    world: WatchedWorld<A>,
    // How many steps were done.
    steps: u64,
    // The messages that they put on links.
    sent: Sent,
    // The routers that may have something to do: a hint.
    watch: Watch<A>,
}

impl<A: SmallAllocator> Model for Course<A> {
    ghost use Rattle.course.specs.Course.{Course as CourseState, course_of, IsCourse};

    ghost Value = { CourseState };

    ghost view = { λ c. course_of c.network c.world c.steps c.sent };

    ghost invariant = { λ c. IsCourse (course_of c.network c.world c.steps c.sent) };
}

impl<A: SmallAllocator> Course<A> {
    /// Opens a network: every link is down, each prefix is known at the routers attached to it alone, and no step
    /// was done.
    pub fn open(alloc: A, network: Network) -> Result<Course<A>, NoMemory>
        ensures { IfOk result (λ c. c ≡ opening_course network) }
    {
        let world = WatchedWorld::open(alloc, &network)?;
        let watch = Watch::new(alloc, network.routers())?;
        Ok(Course {
            network,
            world,
            steps: 0,
            sent: Sent::none(),
            watch,
        })
    }

    /// An equal course in memory of this allocator: what becomes of one of the two leaves the other as it is.
    /// Turns of the copy are those that this one would take. It takes time and memory by all that stands in the
    /// network, and not by the steps that were done.
    pub fn copy(&self, alloc: A) -> Result<Course<A>, NoMemory>
        ensures { IfOk result (λ c. c ≡ self.now) }
    {
        let network = self.network.copy()?;
        let world = self.world.copy(alloc)?;
        let watch = self.watch.copy(alloc)?;
        Ok(Course {
            network,
            world,
            steps: self.steps,
            sent: self.sent,
            watch,
        })
    }

    /// The network that was opened.
    pub fn network(&self) -> &Network
        ensures network { result.now ≡ (self.now).network }
        ensures count { length (self.now).world.routers ≡ (self.now).network.routers }
    {
        &self.network
    }

    /// The world that the steps made: its routers, links and notices, with what is queued and held.
    pub fn world(&self) -> &World<A>
        ensures { result.now ≡ (self.now).world }
    {
        self.world.world()
    }

    /// How many steps were done since the opening.
    pub fn steps(&self) -> u64
        ensures { result ≡ (self.now).steps }
    {
        self.steps
    }

    /// How many messages of each kind these steps put on links.
    pub fn sent(&self) -> Sent
        ensures { result ≡ (self.now).sent }
    {
        self.sent
    }

    /// What a router has to do next: the first of a release, a publication, and a delivery by ascending
    /// port that is lawful, the notices of its attachments last; none where nothing is, or where there
    /// is no such router.
    pub fn next_step(&self, router: u16) -> Option<Step>
        ensures { result ≡ turns.next_step (self.now).world router }
    {
        self.world().next_step(router)
    }

    /// The same, but none where that is shut.
    pub fn open_step<S: Shut>(&self, shut: &S, router: u16) -> Option<Step>
        ensures { result ≡ open_step (S.shuts shut.now) (self.now).world router }
    {
        open_step(self.world(), shut, router)
    }

    /// A router that has something to do that is not shut, looked for from this one on, and what that is. None
    /// only if no router has.
    pub fn turn_of<S: Shut>(&mut self, shut: &S, from: u16) -> Option<(u16, Step)>
        ensures same { self.new ≡ self.old }
        ensures some { IfSome result (λ d. open_step (S.shuts shut.now) (self.old).world d.0
            ≡ Some d.1) }
        ensures none { result ≡ None → (i : ℕ) → i < (self.old).network.routers
            → open_step (S.shuts shut.now) (self.old).world i ≡ None }
    {
        let routers = self.network.routers();
        first_due(self.world.world(), shut, &mut self.watch, routers, from)
    }

    /// The router may have something to do: what kept it from that is gone.
    pub fn look_at(&mut self, router: u16)
        ensures { self.new ≡ self.old }
    {
        self.watch.add(router);
    }

    /// How many turns the hint missed, so that all routers were asked: none, or whoever ended what kept a router from
    /// its step forgot `look_at`.
    pub fn missed_turns(&self) -> u64 {
        self.watch.missed()
    }

    /// Whether nothing is left to do: no item is queued on any link, no notice waits, nothing is due,
    /// and nothing is ripe. Where it is so, all is quiet. It is known without going through the network.
    pub fn is_settled(&self) -> bool
        ensures settled { result ≡ turns.is_settled (self.now).world }
        ensures quiet { result ≡ is_quiet (self.now).world }
        ensures idle { IsTrue result ↔ ((i : ℕ) → i < (self.now).network.routers
            → turns.next_step (self.now).world i ≡ None) }
    {
        // The network has no fault, which its type keeps.
        let _routers = self.network.routers();
        self.world.is_settled()
    }

    /// Whether no further step can be counted: 2^64 - 1 were done. If one can, no generation of a router is too
    /// large for one more publication.
    pub fn is_full(&self) -> bool
        ensures room { result ≡ false → HasRoomForSteps 1 (self.now).world }
        ensures full { result ≡ true → (s : Step) → course_refusal self.now s ≡ Some Refusal.JournalFull }
        ensures counted { result ≡ false → (s : Step) → course_refusal self.now s ≡ steps.refusal (self.now).world s }
    {
        self.steps == u64::MAX
    }

    /// Does one step. Refused, it leaves all as it was: with `JournalFull` where 2^64 - 1 steps were done, then
    /// as the world refuses it; want of memory comes last. A publication takes no memory, nor does a link that
    /// goes down, nor the release of a stale message.
    pub fn step(&mut self, step: Step) -> Result<(), Refusal>
        ensures ok { OnOk result (steps.Lawful (self.old).world step
            × (self.new ≡ course_after self.old step)) }
        ensures err { OnErr result (self.new ≡ self.old) }
        ensures cause { IsDoneOr (course_refusal self.old step) result }
        ensures publication { (i : ℕ) → step ≡ Step.Publish i
            → MatchOption (course_refusal self.old step) (IsOk result) (λ e. result ≡ Err e) }
        ensures down { (l : ℕ) → step ≡ Step.LinkDown l
            → MatchOption (course_refusal self.old step) (IsOk result) (λ e. result ≡ Err e) }
        ensures stale { course_refusal self.old step ≡ None
            → DiscardsStale (self.old).world step result }
        ensures room { course_refusal self.old step ≡ None
            → DeliversWithRoom (self.old).world step result }
    {
        if self.steps == u64::MAX {
            return Err(Refusal::JournalFull);
        }
        let kind = leaving(self.world.world(), &step);
        let touched = self.world.step(step)?;
        self.watch.note(&self.network, &step, touched);
        self.steps += 1;
        self.sent = self.sent.with(kind);
        Ok(())
    }

    /// The same, for whoever knows that a step can be counted: it is refused as the world refuses it.
    pub fn step_on(&mut self, step: Step) -> Result<(), Refusal>
        requires { (self.old).steps + 1 < 2 ^ 64 }
        ensures ok { OnOk result (steps.Lawful (self.old).world step
            × ((self.new).world ≡ steps.next (self.old).world step)) }
        ensures whole { OnOk result (self.new ≡ course_after self.old step) }
        ensures count { OnOk result ((self.new).steps ≡ (self.old).steps + 1) }
        ensures network { (self.new).network ≡ (self.old).network }
        ensures err { OnErr result (self.new ≡ self.old) }
        ensures cause { IsDoneOr (steps.refusal (self.old).world step) result }
        ensures publication { (i : ℕ) → step ≡ Step.Publish i
            → MatchOption (steps.refusal (self.old).world step) (IsOk result) (λ e. result ≡ Err e) }
        ensures down { (l : ℕ) → step ≡ Step.LinkDown l
            → MatchOption (steps.refusal (self.old).world step) (IsOk result) (λ e. result ≡ Err e) }
        ensures stale { DiscardsStale (self.old).world step result }
        ensures room { DeliversWithRoom (self.old).world step result }
    {
        self.step(step)
    }

    /// It does nothing. What holds of every course, for whoever has one: lawful steps lead from the opening of its
    /// network, which has no fault, to its world. So no packet meets a router twice along the published rows,
    /// whichever prefixes match it on its way; where all is quiet, rows lead along least-cost walks; and once links
    /// and attachments stay as they are, every order of deliveries, publications and releases comes to an end, and
    /// there every router has its least-cost row.
    pub fn holds(&self)
        ensures reached { IsReached (self.now).network (self.now).world }
        ensures headline { HasWorldHeadline (self.now).network (self.now).world }
        ensures routers { LeadsToRouters (self.now).world }
        ensures ways { HasShortWays (self.now).world }
        ensures count { length (self.now).world.routers ≡ (self.now).network.routers }
    {
        let _routers = self.network.routers();
    }
}

impl<A: SmallAllocator> Stepping for Course<A> {
    ghost course = { λ c. c };

    fn advance(&mut self, step: Step) -> Result<(), Refusal> {
        self.step(step)
    }

    fn turn_from(&mut self, from: u16) -> Option<(u16, Step)> {
        if self.is_settled() {
            return None;
        }
        self.turn_of(&NoneShut, from)
    }

    fn router_count(&self) -> usize {
        self.network.routers()
    }
}
