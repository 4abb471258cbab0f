//! The simulation: a world, the images in force, and how many steps were done.

ghost use Rattle.std.specs.Prelude.{ℕ, Err, IsTrue, ◌≡◌, ◌≤◌, ◌<◌, ◌↔◌, ◌⊎◌, None, Some, true, take, length, slice_get, map, option_map, IfOk, IfSome, IsOk, IsSome, OnOk, OnErr, MatchOption};
ghost use Rattle.network_model.specs.Step as steps;
ghost use Rattle.network_model.specs.{Run.Runs, Forwarding.is_quiet, Forwarding.onward, Publication.image_answer};
ghost use Rattle.network_model.specs.Turns as turns;
ghost use Rattle.world.specs.Steps.{DeliversWithRoom, DiscardsStale, IsDoneOr, StopsAt};
ghost use Rattle.simulation.specs.Simulation.{after_step, after_steps, answer_at, opening_simulation, simulation_refusal, ForwardsAsPublished, IsSimulation};
ghost use Rattle.simulation.specs.Headline.{ConvergesLeftAlone, HasBestRows, LeadsAtLeastCost, NeverMeetsTwice};
ghost use Rattle.simulation.specs.Settling.{HasTurned, IsStopped};
ghost use Rattle.course.specs.Links.{LeadsToRouters};
ghost use Rattle.simulation.specs.Tracing.{HasEnded, HasImageWays, IsTraced, onward_of};

use crate::images::{copy_images, forward, opening_images};
use crate::tracing::{Onward, Traced, by_row};
use course::{Course, Order, Sent, Stepping, run, settle};
use network_model::{Answer, Entry, NoMemory, Prefix, Refusal, SmallAllocator, Step};
use std::alloc::Global;
use std::marker::Model;
use tree_bitmap::Image;
use world::{Network, Ran, World};

/// A network that runs, with the image in force at each router. It takes memory by the routers, links, rows and
/// messages under way, and not by the steps.
#[derive(Drop)]
pub struct Simulation<A: SmallAllocator = Global> {
    course: Course<A>,
    // The image in force at each router.
    images: Vec<Image<A>, A>,
}

impl<A: SmallAllocator> Model for Simulation<A> {
    ghost use Rattle.simulation.specs.Simulation.{Simulation as SimulationState, with_images, IsSimulation};

    ghost Value = { SimulationState };

    ghost view = { λ s. with_images s.course s.images.items };

    ghost invariant = { λ s. IsSimulation (with_images s.course s.images.items) };
}

impl<A: SmallAllocator> Simulation<A> {
    /// Opens a network: every link is down, each prefix is known at the routers attached to it alone, whose
    /// images in force have it, and no step was done.
    pub fn open(alloc: A, network: Network) -> Result<Simulation<A>, NoMemory>
        ensures ok { IfOk result (λ s. s ≡ opening_simulation network) }
        ensures forwards { IfOk result (λ s. ForwardsAsPublished s) }
        ensures no_loop { IfOk result (λ s. NeverMeetsTwice s) }
        ensures least_cost { IfOk result (λ s. LeadsAtLeastCost s) }
        ensures converges { IfOk result (λ s. ConvergesLeftAlone s) }
    {
        let course = Course::open(alloc, network)?;
        let images = opening_images(alloc, course.world())?;
        let simulation = Simulation { course, images };
        simulation.holds();
        Ok(simulation)
    }

    /// An equal simulation in memory of this allocator: what becomes of one of the two leaves the other as it
    /// is. Turns of the copy are those that this one would take. It takes time and memory by all that stands in
    /// the network, and not by the steps that were done.
    pub fn copy(&self, alloc: A) -> Result<Simulation<A>, NoMemory>
        ensures { IfOk result (λ s. s ≡ self.now) }
    {
        let course = self.course.copy(alloc)?;
        let images = copy_images(alloc, &self.images)?;
        Ok(Simulation { course, images })
    }

    /// The network that was opened.
    pub fn network(&self) -> &Network
        ensures { result.now ≡ (self.now).network }
    {
        self.course.network()
    }

    /// The world that the steps made: its routers, links and notices, with what is queued and held.
    pub fn world(&self) -> &World<A>
        ensures { result.now ≡ (self.now).world }
    {
        self.course.world()
    }

    /// The images in force, by the routers' numbers.
    pub fn images(&self) -> &[Image<A>]
        ensures images { result.now ≡ (self.now).images }
        ensures count { length result.now ≡ length (self.now).world.routers }
    {
        &self.images
    }

    /// The image in force at a router.
    pub fn image(&self, router: u16) -> &Image<A>
        requires { router < length (self.now).images }
        ensures { slice_get (self.now).images router ≡ Some result.now }
    {
        &self.images[usize::from(router)]
    }

    /// How many steps were done since the opening.
    pub fn steps(&self) -> u64
        ensures { result ≡ (self.now).steps }
    {
        self.course.steps()
    }

    /// How many messages of each kind these steps put on links.
    pub fn sent(&self) -> Sent
        ensures { result ≡ (self.now).sent }
    {
        self.course.sent()
    }

    /// What a router has to do next: the first of a release, a publication, and a delivery by ascending
    /// port that is lawful, the notices of its attachments last; none where nothing is, or where there
    /// is no such router.
    pub fn next_step(&self, router: u16) -> Option<Step>
        ensures { result ≡ turns.next_step (self.now).world router }
    {
        self.course.next_step(router)
    }

    /// Whether nothing is left to do: no item is queued on any link, no notice waits, nothing is due,
    /// and nothing is ripe. Where it is so, all is quiet, and rows lead along least-cost walks. It is known
    /// without going through the network.
    pub fn is_settled(&self) -> bool
        ensures settled { result ≡ turns.is_settled (self.now).world }
        ensures quiet { result ≡ is_quiet (self.now).world }
        ensures least_cost { IsTrue result → HasBestRows self.now }
        ensures idle { IsTrue result ↔ ((i : ℕ) → i < (self.now).network.routers
            → turns.next_step (self.now).world i ≡ None) }
    {
        // It tells what holds of a quiet network.
        self.course.holds();
        self.course.is_settled()
    }

    /// What the image in force at a router answers for an address: its generation, and the row with
    /// the longest prefix that covers the address, of the rows that the router published; None where there is
    /// no such router. It takes no memory.
    pub fn lookup(&self, router: u16, addr: u32) -> Option<Answer>
        ensures { result ≡ answer_at self.now router addr }
    {
        let image = self.images.get(usize::from(router))?;
        Some(Answer {
            generation: image.generation(),
            matched: image.lookup(addr),
        })
    }

    /// As `lookup` for each of the addresses at one router, without the generation.
    pub fn lookup_all(&self, router: u16, addrs: &[u32], answers: &mut [Option<(Prefix, Entry)>])
        requires known { router < length (self.now).images }
        requires one_each { length answers.old ≡ length addrs.now }
        ensures { option_map (λ image. map (image_answer image) addrs.now)
            (slice_get (self.now).images router) ≡ Some answers.new }
    {
        self.images[usize::from(router)].lookup_all(addrs, answers);
    }

    /// Does one step. Refused, it leaves all as it was: with `JournalFull` where 2^64 - 1 steps were done, then
    /// as the world refuses it; want of memory comes last. A link that goes down and the release of a stale
    /// message take none.
    pub fn step(&mut self, step: Step) -> Result<(), Refusal>
        ensures ok { OnOk result (steps.Lawful (self.old).world step
            × (self.new ≡ after_step self.old step)) }
        ensures err { OnErr result (self.new ≡ self.old) }
        ensures cause { IsDoneOr (simulation_refusal self.old step) result }
        ensures stale { simulation_refusal self.old step ≡ None
            → DiscardsStale (self.old).world step result }
        ensures room { simulation_refusal self.old step ≡ None
            → DeliversWithRoom (self.old).world step result }
        ensures down { (l : ℕ) → step ≡ Step.LinkDown l
            → MatchOption (simulation_refusal self.old step) (IsOk result) (λ e. result ≡ Err e) }
        ensures forwards { ForwardsAsPublished self.new }
        ensures no_loop { NeverMeetsTwice self.new }
        ensures least_cost { LeadsAtLeastCost self.new }
        ensures converges { ConvergesLeftAlone self.new }
    {
        let done = self.do_step(step);
        self.holds();
        done
    }

    fn do_step(&mut self, step: Step) -> Result<(), Refusal>
        ensures ok { OnOk result (steps.Lawful (self.old).world step
            × (self.new ≡ after_step self.old step)) }
        ensures err { OnErr result (self.new ≡ self.old) }
        ensures cause { IsDoneOr (simulation_refusal self.old step) result }
        ensures stale { simulation_refusal self.old step ≡ None
            → DiscardsStale (self.old).world step result }
        ensures room { simulation_refusal self.old step ≡ None
            → DeliversWithRoom (self.old).world step result }
        ensures down { (l : ℕ) → step ≡ Step.LinkDown l
            → MatchOption (simulation_refusal self.old step) (IsOk result) (λ e. result ≡ Err e) }
    {
        let alloc = *self.images.allocator();
        forward(alloc, &mut self.course, &mut self.images, step)
    }

    /// Does the steps in order, up to the first that is refused.
    pub fn run(&mut self, steps: &[Step]) -> Ran
        ensures done { result.done ≤ length steps.now }
        ensures runs { Runs (self.old).world (take result.done steps.now) (self.new).world }
        ensures after { self.new ≡ after_steps self.old (take result.done steps.now) }
        ensures stop { MatchOption result.refusal (result.done ≡ length steps.now)
            (StopsAt (simulation_refusal self.new) steps.now result.done) }
        ensures forwards { ForwardsAsPublished self.new }
        ensures no_loop { NeverMeetsTwice self.new }
        ensures least_cost { LeadsAtLeastCost self.new }
        ensures converges { ConvergesLeftAlone self.new }
    {
        self.shows();
        let ran = run(self, steps);
        self.shows();
        self.holds();
        ran
    }

    /// Lets routers take turns, at most so many, until nothing is left to do or a step is refused: with
    /// `JournalFull` where 2^64 - 1 steps were done, or with `NoMemory`. A turn is the step that a router has to
    /// do next. Where nothing is left to do, rows lead along least-cost walks.
    pub fn settle(&mut self, order: Order, most: usize) -> Ran
        ensures turns { HasTurned self.old self.new result.done }
        ensures most { result.done ≤ most }
        ensures stop { MatchOption result.refusal
            ((turns.is_settled (self.new).world ≡ true) ⊎ (result.done ≡ most))
            (IsStopped self.new) }
        ensures settled { turns.is_settled (self.new).world ≡ true → HasBestRows self.new }
        ensures forwards { ForwardsAsPublished self.new }
        ensures no_loop { NeverMeetsTwice self.new }
        ensures least_cost { LeadsAtLeastCost self.new }
        ensures converges { ConvergesLeftAlone self.new }
    {
        self.shows();
        let ran = settle(self, order, most);
        self.shows();
        self.holds();
        // It tells what holds of a network that is settled.
        let _settled = self.is_settled();
        ran
    }

    /// The routers that a packet for an address passes from a router on, along the images in force: it writes
    /// them over the first of `hops`, as many as there is room for, and tells why the packet ends at the last,
    /// delivered or lost. The packet goes on by the row that the image gives, whichever prefix that has, over a
    /// link that is up in the row's session. None, and nothing is written, where there is no such router. It
    /// takes no memory.
    pub fn trace(&self, router: u16, addr: u32, hops: &mut [u16]) -> Option<Traced>
        ensures known { IsSome result ↔ (router < length (self.now).world.routers) }
        ensures traced { IfSome result (λ t. IsTraced
            self.now addr router hops.old hops.new t.count t.end) }
        ensures ended { length (self.now).world.routers ≤ length hops.old
            → IfSome result (λ t. HasEnded t.end) }
        ensures none { result ≡ None → hops.new ≡ hops.old }
    {
        let routers = self.router_count();
        if usize::from(router) >= routers {
            return None;
        }
        let mut at = router;
        for count in 0..hops.len() {
            hops[count] = at;
            match self.onward(at, addr) {
                Onward::Ends(end) => {
                    return Some(Traced {
                        count: count + 1,
                        end: Some(end),
                    });
                }
                Onward::Goes { prefix: _, router } => at = router,
            }
        }
        Some(Traced {
            count: hops.len(),
            end: None,
        })
    }

    // It does nothing. Each image in force is of what its router published.
    fn shows(&self)
        ensures { IsSimulation self.now }
    {
        let _images = &self.images;
    }

    // How many routers there are, and what holds of a packet's ways.
    fn router_count(&self) -> usize
        ensures count { result ≡ length (self.now).world.routers }
        ensures routers { LeadsToRouters (self.now).world }
        ensures ways { HasImageWays self.now }
    {
        self.course.holds();
        self.course.network().routers()
    }

    // Where a packet goes from a router, by the image in force there.
    fn onward(&self, router: u16, addr: u32) -> Onward
        requires { router < length (self.now).world.routers }
        ensures { onward_of result ≡ onward (self.now).world addr None router }
    {
        // There is an image for each router, which is known of a simulation where one of its parts is used.
        let _images = &self.images;
        let matched = self.image(router).lookup(addr);
        by_row(self.course.world(), router, matched)
    }

    /// It does nothing. What holds of every simulation, for whoever has one: each image in force has the
    /// rows that its router published, and answers every address with the longest match over them; no
    /// packet meets a router twice, whichever prefixes match it on its way; where all is quiet, rows
    /// lead along least-cost walks; and once links and attachments stay as they are, every order of
    /// deliveries, publications and releases comes to an end, and there every router has its least-cost row.
    pub fn holds(&self)
        ensures forwards { ForwardsAsPublished self.now }
        ensures no_loop { NeverMeetsTwice self.now }
        ensures least_cost { LeadsAtLeastCost self.now }
        ensures converges { ConvergesLeftAlone self.now }
    {
        // The four parts follow from what holds of its course, and from that each image is in force.
        self.course.holds();
        let _images = &self.images;
    }
}

impl<A: SmallAllocator> Stepping for Simulation<A> {
    ghost use Rattle.simulation.specs.Simulation.{course_part};

    ghost course = { course_part };

    fn advance(&mut self, step: Step) -> Result<(), Refusal> {
        self.step(step)
    }

    fn turn_from(&mut self, from: u16) -> Option<(u16, Step)> {
        self.course.turn_from(from)
    }

    fn router_count(&self) -> usize {
        self.course.network().routers()
    }
}
