//! The fabric: a world, the images in force, and the journal.

ghost use Rattle.std.specs.Prelude.{ℕ, None, Some, Err, IsTrue, ◌≡◌, ◌≢◌, ◌⊎◌, ◌≤◌, ◌++◌, ◌+◌, ◌<◌, ◌↔◌, [], take, length, slice_get, vec_capacity, vec_len, All, IfOk, IfErr, IfSome, IsSome, IsOk, OnOk, OnErr, MatchBool, MatchOption, false};
ghost use Rattle.network_model.specs.World as model;
ghost use Rattle.network_model.specs.Step as steps;
ghost use Rattle.network_model.specs.{Run.Runs, Journal.journal_sum, Journal.most_steps, Journal.steps_in_sum, Forwarding.is_quiet, Publication.answer_of, Network.most_workers};
ghost use Rattle.world.specs.Steps.{DeliversWithRoom, DiscardsStale, IsDoneOr, StopsAt};
ghost use Rattle.publication.specs.Lists.{image_of};
ghost use Rattle.fabric.specs.{Desks.all_lent, Desks.writings, Images.answer_at};
ghost use Rattle.fabric.specs.Fabric.{opening_fabric, after_step, awaits_writer, count_lent, fabric_refusal, lent_at, next_fabric_step, with_lent, ForwardsAsPublished};
ghost use Rattle.image_patch.specs.Patches.{patched};
ghost use Rattle.course.specs.Images.{due_at};
ghost use Rattle.fabric.specs.Headline.{NeverMeetsTwice, HasBestRows, LeadsAtLeastCost, ConvergesLeftAlone};
ghost use Rattle.fabric.specs.Writers.{IsReaderPort, LentAreDue, opening_tables, waiting_at};
ghost use Rattle.network_model.specs.Turns as turns;

use crate::desk::{Desk, Seats, awaits_lent, close_all, seat_all};
use crate::images::{opening_images, patch_due};
use crate::ports::deal;
use course::{Course, Sent};
use network_model::{Answer, NoMemory, Prefix, Refusal, SmallAllocator, Step};
use publication::{FabricName, ImageReader, Job, Ticket, Told, Unnamed, copy_of, open_all};
use route_table::RouteTable;
use std::alloc::Global;
use std::marker::Model;
use std::sync::Wait;
use world::{Network, Ran, World};

/// The greatest number of steps in a journal.
pub const MOST_STEPS: usize = 1_000_000;

/// A network that runs, with the image in force at each router, and the journal: all steps done since
/// it was opened, in order. It is not `Drop`: end it by `close`.
pub struct Fabric<B: FabricName, A: SmallAllocator = Global> {
    course: Course<A>,
    // The writer of each router's image, or what is kept of it while it is out.
    desks: Vec<Desk<B, A>, A>,
    // A reader of each router's image, for `lookup`.
    readers: Vec<ImageReader<B, A>, A>,
    // Its room was made at the opening.
    journal: Vec<Step, A>,
    // How many of its places are set aside for writers that are out.
    set_aside: usize,
    // The sum of the numbers of its steps.
    sum: u128,
}

impl<B: FabricName, A: SmallAllocator> Model for Fabric<B, A> {
    ghost use Rattle.std.specs.Prelude.{◌≡◌, length, vec_capacity};
    ghost use Rattle.fabric.specs.Fabric.{Fabric as FabricState};
    ghost use Rattle.fabric.specs.Writers.{FitTogether, fabric_seen};

    ghost Value = { FabricState };

    ghost view = { λ f. fabric_seen B.openings f.course.network f.journal.items f.course.world f.desks.items };

    ghost invariant = { λ f. FitTogether B.openings f.course.network f.journal.items
        (vec_capacity f.journal) f.course.world f.desks.items f.readers.items f.sum f.set_aside
        × (f.course.steps ≡ length f.journal.items) };
}

impl<B: FabricName, A: SmallAllocator> Fabric<B, A> {
    /// Opens a network: every link is down, each prefix is known at the routers attached to it alone,
    /// whose images in force have it, and the journal is empty. It makes the room for a full journal, and gives a reader
    /// of each router's image, by the routers' numbers, to each of at most 16 workers. Refused with
    /// `NoMemory`, or with `NoReaderPlace` where an image has no place for a reader.
    pub fn open<R: Wait>(
        rt: &R,
        alloc: A,
        network: Network,
        unnamed: Vec<Unnamed, A>,
        workers: u8,
    ) -> Result<(Fabric<B, A>, Vec<Vec<ImageReader<B, A>, A>, A>), Refusal>
        requires books { unnamed.items ≡ B.books }
        requires each { vec_len unnamed ≡ network.routers }
        requires openings { opening_tables network ≡ B.openings }
        requires workers { workers ≤ most_workers }
        ensures ok { IfOk result (λ o. o.0 ≡ opening_fabric network) }
        ensures ports { IfOk result (λ o. (vec_len o.1 ≡ workers)
            × All (λ port. IsReaderPort network.routers port.items) o.1.items) }
        ensures err { IfErr result (λ e. (e ≡ Refusal.NoMemory) ⊎ (e ≡ Refusal.NoReaderPlace)) }
        ensures forwards { IfOk result (λ o. ForwardsAsPublished o.0) }
        ensures no_loop { IfOk result (λ o. NeverMeetsTwice o.0) }
        ensures least_cost { IfOk result (λ o. LeadsAtLeastCost o.0) }
        ensures converges { IfOk result (λ o. ConvergesLeftAlone o.0) }
    {
        // It tells that the network has no fault.
        let _routers = network.routers();
        let course = Course::open(alloc, network)?;
        let images = opening_images(alloc, course.world())?;
        let journal = empty_journal(alloc)?;
        let (writers, lists) = open_all::<B, _, R>(rt, alloc, unnamed, images, workers + 1)?;
        let desks = seat_all(rt, alloc, writers)?;
        let Ok((readers, ports)) = deal(alloc, lists, workers) else {
            close_all(rt, desks);
            return Err(Refusal::NoMemory);
        };
        let fabric = Fabric {
            course,
            desks,
            readers,
            journal,
            set_aside: 0,
            sum: 0,
        };
        fabric.holds();
        Ok((fabric, ports))
    }

    /// The network that was opened.
    pub fn network(&self) -> &Network
        ensures network { result.now ≡ (self.now).network }
        ensures count { length (self.now).world.routers ≡ (self.now).network.routers }
    {
        self.course.network()
    }

    /// The steps done, in order: done one after another from the opening of the network, each of them
    /// lawful, they make the present world.
    pub fn journal(&self) -> &[Step]
        ensures journal { result.now ≡ (self.now).journal }
        ensures few { length result.now ≤ most_steps }
        ensures runs { Runs (model.opening (self.now).network) result.now (self.now).world }
    {
        &self.journal
    }

    /// The sum of the numbers of the journal's steps, which tells how many they are.
    pub fn sum(&self) -> u128
        ensures sum { result ≡ journal_sum (self.now).journal }
        ensures length { steps_in_sum result ≡ length (self.now).journal }
    {
        self.sum
    }

    /// The world that the steps made.
    pub fn world(&self) -> &World<A>
        ensures { result.now ≡ (self.now).world }
    {
        self.course.world()
    }

    /// What a router has to do next: the first of a release, a publication, and a delivery by ascending
    /// port that is lawful, the notices of its attachments last; none where nothing is, or where there
    /// is no such router. While the router's writer is out it is a release or none.
    pub fn next_step(&self, router: u16) -> Option<Step>
        ensures { result ≡ next_fabric_step self.now router }
    {
        let step = self.world().next_step(router)?;
        if self.awaits_writer(&step) {
            return None;
        }
        Some(step)
    }

    // Whether a step has to wait for a writer that is out.
    fn awaits_writer(&self, step: &Step) -> bool
        ensures { result ≡ awaits_writer self.now step.now }
    {
        awaits_lent(&self.desks, step)
    }

    /// A router that has something to do for which it awaits no writer, looked for from this one on, and what that
    /// is. None only if no router has.
    pub fn turn_from(&mut self, from: u16) -> Option<(u16, Step)>
        ensures same { self.new ≡ self.old }
        ensures some { IfSome result (λ d. next_fabric_step self.old d.0 ≡ Some d.1) }
        ensures none { result ≡ None → (i : ℕ) → i < (self.old).network.routers
            → next_fabric_step self.old i ≡ None }
    {
        let seats = Seats::new(&self.desks);
        self.course.turn_of(&seats, from)
    }

    /// How many turns the hint missed, so that all routers were asked: none, but that stands in no clause.
    pub fn missed_turns(&self) -> u64 {
        self.course.missed_turns()
    }

    /// How many messages of each kind the steps in the journal put on links, as its course counts them; it stands in
    /// no clause.
    pub fn sent(&self) -> Sent {
        self.course.sent()
    }

    // Whether the journal has a place for a step, which then waits for no writer.
    fn admits(&self, step: &Step) -> Result<(), Refusal>
        ensures place { OnOk result (length (self.now).journal + count_lent
            (self.now).lent < most_steps) }
        ensures free { OnOk result (awaits_writer self.now step.now ≡ false) }
        ensures cause { OnOk result (fabric_refusal self.now step.now
            ≡ steps.refusal (self.now).world step.now) }
        ensures err { IfErr result (λ e. fabric_refusal self.now step.now ≡ Some e) }
    {
        if self.journal.len() + self.set_aside >= MOST_STEPS {
            return Err(Refusal::JournalFull);
        }
        if self.awaits_writer(step) {
            return Err(Refusal::Busy);
        }
        Ok(())
    }

    /// Whether nothing is left to do: no item is queued on any link, no notice waits, nothing is due,
    /// and nothing is ripe. Where it is so, all is quiet, and rows lead along least-cost walks; where it is
    /// not so, some router has something to do in its world, for which it may await its writer. It is known
    /// without going through the network.
    pub fn is_settled(&self) -> bool
        ensures settled { result ≡ turns.is_settled (self.now).world }
        ensures quiet { result ≡ is_quiet (self.now).world }
        ensures least_cost { IsTrue result → HasBestRows self.now }
        ensures idle { IsTrue result ↔ ((i : ℕ) → i < (self.now).network.routers
            → turns.next_step (self.now).world i ≡ None) }
    {
        // It tells what holds of a quiet network.
        self.course.holds();
        self.course.is_settled()
    }

    /// What the image in force at a router answers for an address: its generation, and the row with
    /// the longest prefix that covers the address, of the rows that the router published. It takes no
    /// memory, and waits for nobody. Refused with `UnknownRouter`; with `Stale` where the reader shows a
    /// later image, as it does from a ticket's publication until the ticket is back; with `NoImage` where
    /// it shows none, which does not happen.
    pub fn lookup(&mut self, router: u16, addr: u32) -> Result<Answer, Refusal>
        ensures ok { IfOk result (λ a. answer_at (self.old).world router addr ≡ Some a) }
        ensures err { IfErr result (λ e. MatchOption (answer_at (self.old).world router addr)
            (e ≡ Refusal.UnknownRouter) (λ _. (e ≡ Refusal.Stale) ⊎ (e ≡ Refusal.NoImage))) }
        ensures same { self.new ≡ self.old }
    {
        let Some(told) = self.told(router) else {
            return Err(Refusal::UnknownRouter);
        };
        ask(&mut self.readers[usize::from(router)], &told, addr)
    }

    // What a router's writer had published when the fabric had it last; none where there is no such router.
    fn told(&self, router: u16) -> Option<Told<B>>
        ensures router { IfSome result (λ t. t.router ≡ router) }
        ensures in_force { IfSome result
            (λ t. slice_get (self.now).images router ≡ Some (image_of B.openings t)) }
        ensures last { IfSome result (λ t. IfSome (slice_get (self.now).world.routers router)
            (λ r. length t.publications ≡ r.generation)) }
        ensures known { IsSome result ↔ (router < length (self.now).world.routers) }
    {
        let desk = self.desks.get(usize::from(router))?;
        Some(desk.told())
    }

    /// An address for a worker to look up at a router, in an image no older than the one in force now:
    /// the job is told of the list that the router's last publication made. Refused with
    /// `UnknownRouter`.
    pub fn job(&self, number: u64, router: u16, addr: u32) -> Result<Job<B>, Refusal>
        ensures asked { IfOk result (λ j. (j.number ≡ number) × (j.told.router ≡ router)
            × (j.addr ≡ addr)) }
        ensures in_force { IfOk result (λ j. slice_get (self.now).images router
            ≡ Some (image_of B.openings j.told)) }
        ensures last { IfOk result (λ j. IfSome (slice_get (self.now).world.routers router)
            (λ r. length (j.told).publications ≡ r.generation)) }
        ensures known { IsOk result ↔ (router < length (self.now).world.routers) }
        ensures err { IfErr result (λ e. e ≡ Refusal.UnknownRouter) }
    {
        let told = self.told(router).ok_or(Refusal::UnknownRouter)?;
        Ok(Job { number, addr, told })
    }

    /// The rows that a router has chosen and published. Refused with `UnknownRouter`.
    pub fn table(&self, router: u16) -> Result<&RouteTable<A>, Refusal>
        ensures ok { IfOk result (λ t. IfSome (slice_get (self.now).world.routers router)
            (λ r. t.now.table ≡ r.table)) }
        ensures known { IsOk result ↔ (router < length (self.now).world.routers) }
        ensures err { IfErr result (λ e. e ≡ Refusal.UnknownRouter) }
    {
        let found = self
            .world()
            .routers()
            .get(usize::from(router))
            .ok_or(Refusal::UnknownRouter)?;
        Ok(found.table())
    }

    /// Does one step, and writes it into the journal. Refused, it leaves all as it was: with
    /// `JournalFull` where the journal has no place left, some of which may be set aside for tickets; with
    /// `Busy` for a delivery or a publication at a router whose writer is out; then as the world refuses
    /// it; want of memory comes last. A link that goes down and the release of a stale message take none.
    pub fn step<R: Wait>(&mut self, rt: &R, step: Step) -> Result<(), Refusal>
        ensures ok { OnOk result (steps.Lawful (self.old).world step
            × (self.new ≡ after_step self.old step)) }
        ensures err { OnErr result (self.new ≡ self.old) }
        ensures cause { IsDoneOr (fabric_refusal self.old step) result }
        ensures stale { fabric_refusal self.old step ≡ None
            → DiscardsStale (self.old).world step result }
        ensures room { fabric_refusal self.old step ≡ None
            → DeliversWithRoom (self.old).world step result }
        ensures down { (l : ℕ) → step ≡ Step.LinkDown l
            → MatchOption (fabric_refusal self.old step) (IsOk result) (λ e. result ≡ Err e) }
        ensures forwards { ForwardsAsPublished self.new }
        ensures no_loop { NeverMeetsTwice self.new }
        ensures least_cost { LeadsAtLeastCost self.new }
        ensures converges { ConvergesLeftAlone self.new }
    {
        let done = self.do_step(rt, step);
        self.holds();
        done
    }

    fn do_step<R: Wait>(&mut self, rt: &R, step: Step) -> Result<(), Refusal>
        ensures ok { OnOk result (steps.Lawful (self.old).world step
            × (self.new ≡ after_step self.old step)) }
        ensures err { OnErr result (self.new ≡ self.old) }
        ensures cause { IsDoneOr (fabric_refusal self.old step) result }
        ensures stale { fabric_refusal self.old step ≡ None
            → DiscardsStale (self.old).world step result }
        ensures room { fabric_refusal self.old step ≡ None
            → DeliversWithRoom (self.old).world step result }
        ensures down { (l : ℕ) → step ≡ Step.LinkDown l
            → MatchOption (fabric_refusal self.old step) (IsOk result) (λ e. result ≡ Err e) }
    {
        self.admits(&step)?;
        // The match takes the step.
        let again = step;
        let sum = self.sum + step.number();
        match step {
            Step::Publish { router } => {
                let alloc = *self.journal.allocator();
                // The chosen rows of a network's routers are of all that they have heard of.
                let _routers = self.course.network().routers();
                let waiting = waiting_at(&self.desks, router);
                match patch_due(alloc, self.course.world(), router, waiting)? {
                    Some(patch) => {
                        self.desks[usize::from(router)].publish(rt, patch)?;
                        self.course.step_on(step).unwrap();
                    }
                    None => self.course.step_on(step)?,
                }
            }
            _ => self.course.step_on(step)?,
        }
        self.sum = sum;
        self.journal.push(again).unwrap();
        Ok(())
    }

    /// Lets a router's writer go out with the patch that is due, of which a copy stays, and sets a place of
    /// the journal aside. Until the writer is back, deliveries and publications at the router are refused
    /// with `Busy`. Refused, it leaves all as it was: with `JournalFull` where no place is left, with
    /// `UnknownRouter`, with `Busy` where the writer is out, with `NothingDue`, or for want of memory.
    pub fn ticket(&mut self, router: u16) -> Result<Ticket<B, A>, Refusal>
        ensures due { OnOk result (steps.Lawful (self.old).world (Step.Publish router)) }
        ensures fresh { IfOk result (λ t. (t.before.router ≡ router) × (t.is_published ≡ false)) }
        ensures in_force { IfOk result (λ t. slice_get (self.old).images router
            ≡ Some (image_of B.openings t.before)) }
        ensures patch { IfOk result (λ t. due_at (self.old).world router
            ≡ Some (patched t.patch.generation t.patch.rows (image_of B.openings t.before))) }
        ensures ok { IfOk result (λ t. self.new ≡ with_lent self.old router (Some t.patch)) }
        ensures err { OnErr result (self.new ≡ self.old) }
        ensures cause { IsDoneOr (fabric_refusal self.old (Step.Publish router)) result }
        ensures forwards { ForwardsAsPublished self.new }
        ensures no_loop { NeverMeetsTwice self.new }
        ensures least_cost { LeadsAtLeastCost self.new }
        ensures converges { ConvergesLeftAlone self.new }
    {
        let made = self.make_ticket(router);
        self.holds();
        made
    }

    fn make_ticket(&mut self, router: u16) -> Result<Ticket<B, A>, Refusal>
        ensures due { OnOk result (steps.Lawful (self.old).world (Step.Publish router)) }
        ensures fresh { IfOk result (λ t. (t.before.router ≡ router) × (t.is_published ≡ false)) }
        ensures in_force { IfOk result (λ t. slice_get (self.old).images router
            ≡ Some (image_of B.openings t.before)) }
        ensures patch { IfOk result (λ t. due_at (self.old).world router
            ≡ Some (patched t.patch.generation t.patch.rows (image_of B.openings t.before))) }
        ensures ok { IfOk result (λ t. self.new ≡ with_lent self.old router (Some t.patch)) }
        ensures err { OnErr result (self.new ≡ self.old) }
        ensures cause { IsDoneOr (fabric_refusal self.old (Step.Publish router)) result }
    {
        self.admits(&Step::Publish { router })?;
        let alloc = *self.journal.allocator();
        // The chosen rows of a network's routers are of all that they have heard of.
        let _routers = self.course.network().routers();
        let waiting = waiting_at(&self.desks, router);
        let Some(patch) = patch_due(alloc, self.course.world(), router, waiting)? else {
            return Err(self.why_not_due(router));
        };
        let copy = copy_of(&patch)?;
        self.set_aside += 1;
        Ok(self.desks[usize::from(router)].lend(patch, copy))
    }

    fn why_not_due(&self, router: u16) -> Refusal
        requires { due_at (self.now).world router ≡ None }
        ensures { steps.refusal (self.now).world (Step.Publish router) ≡ Some result }
    {
        match self.world().routers().get(usize::from(router)) {
            Some(_) => Refusal::NothingDue,
            None => Refusal::UnknownRouter,
        }
    }

    /// Takes a router's writer back. Where its ticket has published, that is the step `Publish`, which is
    /// written into the journal; else the place that was set aside is free again, and there is no step.
    /// It takes no memory. Refused, the ticket comes back, and all is as it was: the router's writer is in,
    /// or is out with another patch.
    pub fn give_back(&mut self, ticket: Ticket<B, A>) -> Result<(), Ticket<B, A>>
        ensures its { IsOk result ↔ (lent_at (self.old).lent ticket.before.router
            ≡ Some ticket.patch) }
        ensures done { OnOk result (MatchBool ticket.is_published
            (steps.Lawful (self.old).world (Step.Publish ticket.before.router)
            × (self.new ≡ after_step (with_lent self.old ticket.before.router None)
            (Step.Publish ticket.before.router)))
            (self.new ≡ with_lent self.old ticket.before.router None)) }
        ensures ticket { IfErr result (λ t. t ≡ ticket) }
        ensures same { OnErr result (self.new ≡ self.old) }
        ensures forwards { ForwardsAsPublished self.new }
        ensures no_loop { NeverMeetsTwice self.new }
        ensures least_cost { LeadsAtLeastCost self.new }
        ensures converges { ConvergesLeftAlone self.new }
    {
        let router = ticket.router();
        let done = self.take_ticket(ticket);
        self.look_at(router);
        self.holds();
        done
    }

    // The router may have something to do, since its writer may be back.
    fn look_at(&mut self, router: u16)
        ensures { self.new ≡ self.old }
    {
        self.course.look_at(router);
    }

    fn take_ticket(&mut self, ticket: Ticket<B, A>) -> Result<(), Ticket<B, A>>
        ensures its { IsOk result ↔ (lent_at (self.old).lent ticket.before.router
            ≡ Some ticket.patch) }
        ensures done { OnOk result (MatchBool ticket.is_published
            (steps.Lawful (self.old).world (Step.Publish ticket.before.router)
            × (self.new ≡ after_step (with_lent self.old ticket.before.router None)
            (Step.Publish ticket.before.router)))
            (self.new ≡ with_lent self.old ticket.before.router None)) }
        ensures ticket { IfErr result (λ t. t ≡ ticket) }
        ensures same { OnErr result (self.new ≡ self.old) }
    {
        let router = ticket.router();
        let published = ticket.is_published();
        let place = usize::from(router);
        if place >= self.desks.len() {
            return Err(ticket);
        }
        self.desks[place].take_back(ticket)?;
        self.set_aside -= 1;
        if published {
            let step = Step::Publish { router };
            self.course.step_on(step).unwrap();
            self.sum += step.number();
            self.journal.push(step).unwrap();
        }
        Ok(())
    }

    /// Does the steps in order, up to the first that is refused.
    pub fn run<R: Wait>(&mut self, rt: &R, steps: &[Step]) -> Ran
        ensures done { result.done ≤ length steps.now }
        ensures runs { Runs (self.old).world (take result.done steps.now) (self.new).world }
        ensures journal { (self.new).journal ≡ (self.old).journal ++ take result.done steps.now }
        ensures network { (self.new).network ≡ (self.old).network }
        ensures forwards { ForwardsAsPublished self.new }
        ensures no_loop { NeverMeetsTwice self.new }
        ensures least_cost { LeadsAtLeastCost self.new }
        ensures converges { ConvergesLeftAlone self.new }
        ensures stop { MatchOption result.refusal (result.done ≡ length steps.now)
            (StopsAt (fabric_refusal self.new) steps.now result.done) }
    {
        for (done, &step) in steps.iter().enumerate() {
            if let Err(refusal) = self.step(rt, step) {
                self.holds();
                return Ran {
                    done,
                    refusal: Some(refusal),
                };
            }
        }
        self.holds();
        Ran {
            done: steps.len(),
            refusal: None,
        }
    }

    /// It does nothing. What holds of every fabric, for whoever has one: each image in force has the
    /// rows that its router published, and answers every address with the longest match over them; no
    /// packet meets a router twice, whichever prefixes match it on its way; where all is quiet, rows
    /// lead along least-cost walks; and once links and attachments stay as they are, every order of
    /// deliveries, publications and releases of its world comes to an end, and there every router has its
    /// least-cost row. Where a writer is out, its publication is one of the steps that are left (`pending`).
    /// A journal that is full, or a writer that stays out, can stop a fabric before.
    pub fn holds(&self)
        ensures forwards { ForwardsAsPublished self.now }
        ensures no_loop { NeverMeetsTwice self.now }
        ensures least_cost { LeadsAtLeastCost self.now }
        ensures converges { ConvergesLeftAlone self.now }
        ensures pending { LentAreDue self.now }
    {
        // The four parts follow from what a fabric keeps, and from that its network has no fault.
        let _desks = &self.desks;
        let _routers = self.course.network().routers();
        self.course.holds();
    }

    /// Ends the fabric, with the writers that are in. It waits for readers that are looking up; from then
    /// on they find no image.
    pub fn close<R: Wait>(self, rt: &R) {
        let Fabric {
            course: _course,
            desks,
            readers: _readers,
            journal: _journal,
            set_aside: _,
            sum: _,
        } = self;
        close_all(rt, desks);
    }
}

// What a reader answers that has learned of this list, where it shows nothing later. Refused with
// `Stale` where it shows something later, and with `NoImage` where it was shown nothing.
fn ask<B: FabricName, A: SmallAllocator>(
    reader: &mut ImageReader<B, A>,
    told: &Told<B>,
    addr: u32,
) -> Result<Answer, Refusal>
    requires { told.now.router ≡ reader.old.router }
    ensures answer { IfOk result (λ a. a ≡ answer_of (image_of B.openings told.now) addr) }
    ensures err { IfErr result (λ e. (e ≡ Refusal.Stale) ⊎ (e ≡ Refusal.NoImage)) }
    ensures stale { result ≡ Err Refusal.Stale → reader.new ≢ told.now }
    ensures unseen { result ≡ Err Refusal.NoImage → (reader.new ≡ reader.old)
        ⊎ (reader.new ≡ told.now) }
    ensures router { reader.new.router ≡ reader.old.router }
{
    reader.learn(told);
    let answer = reader.lookup(addr)?;
    if !reader.is_at(told) {
        return Err(Refusal::Stale);
    }
    Ok(answer)
}

// The prefixes that wait with a router's writer, which is in; none where there is no such router.
fn waiting_at<B: FabricName, A: SmallAllocator>(desks: &[Desk<B, A>], router: u16) -> &[Prefix]
    ensures { lent_at (all_lent desks.now) router ≡ None → result.now
        ≡ waiting_at (writings desks.now) router }
{
    match desks.get(usize::from(router)) {
        Some(desk) => desk.waiting(),
        None => &[],
    }
}

// An empty journal, with a place for each step that it may have.
fn empty_journal<A: SmallAllocator>(alloc: A) -> Result<Vec<Step, A>, NoMemory>
    ensures items { IfOk result (λ v. v.items ≡ []) }
    ensures capacity { IfOk result (λ v. most_steps ≤ vec_capacity v) }
{
    Ok(Vec::with_capacity(alloc, MOST_STEPS)?)
}
