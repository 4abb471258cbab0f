//! A fabric with the books of its shares: how it is opened and closed, its steps and its turns.

ghost use Rattle.std.specs.Prelude.{ℕ, ◌≡◌, ◌≤◌, ◌<◌, ◌+◌, ◌↔◌, if◌then◌else◌, true, false, None, Some, Ok, length, slice_get, sum_by, vec_len, IfOk, IfErr, IfSome, IsOk, OnOk, OnErr, MatchOption, MatchResult};
ghost use Rattle.network_model.specs.{declared.step.Refusal.TheVariants.WrongTicket as WithWrongTicket, Journal.journal_sum, Journal.step_number, Journal.steps_in_sum, Forwarding.is_quiet, Network.most_routers};
ghost use Rattle.network_model.specs.Step as steps;
ghost use Rattle.network_model.specs.Turns as turns;
ghost use Rattle.world.specs.Steps.{IsDoneOr};
ghost use Rattle.publication.specs.Lists.{image_of};
ghost use Rattle.fabric.specs.Fabric.{after_step, count_lent, fabric_refusal, next_fabric_step as next_turn};
ghost use Rattle.guarded.specs.{Names.IsNamed, Shares.AreNew, Shares.IsHolder, Shares.owes};
ghost use Rattle.guarded.specs.Served.{HasHeadline, IsFound, IsServed, IsTurn, IsTurnAt, IsTurnRefused, added_at_once};

use crate::errand::Errand;
use crate::name::{ControlName, High, Low, Out};
use crate::share::{Opening, Share};
use fabric::Fabric;
use network_model::{Refusal, Step};
use publication::{FabricName, Job, Ticket};
use std::alloc::Global;
use std::marker::Model;
use std::sync::Wait;
use std::sync::ledger::Book;

// What the high ledger counts by.
const UNIT: u128 = 1 << 64;

/// The fabric, and the books of the shares: they add up to its journal's sum, and to the writers that holders
/// have out. Contracts see it as the fabric.
pub struct Guarded<B: FabricName, N: ControlName> {
    pub(crate) fabric: Fabric<B>,
    high: Book<High<N>>,
    low: Book<Low<N>>,
    out: Book<Out<N>>,
}

impl<B: FabricName, N: ControlName> Model for Guarded<B, N> {
    ghost use Rattle.std.specs.Prelude.{◌≡◌, ◌≤◌, ◌+◌, ◌*◌, ◌^◌};
    ghost use Rattle.network_model.specs.Journal.{journal_sum};
    ghost use Rattle.fabric.specs.Fabric.{Fabric as FabricState, count_lent};
    ghost use Rattle.guarded.specs.Served.{IsServed};

    ghost Value = { FabricState };

    ghost view = { λ g. g.fabric };

    ghost invariant = { λ g. (g.high.total * 2 ^ 64 + g.low.total ≡ journal_sum g.fabric.journal)
        × IsServed N.opened N.asked g.fabric
        × (count_lent g.fabric.lent ≤ N.lent + g.out.total) };
}

impl<B: FabricName, N: ControlName> Guarded<B, N> {
    /// Opens the books of a fabric, and makes the shares. The first has the journal's sum, the others
    /// have 0. No holder has a writer out. Without memory the fabric comes back.
    pub fn open(
        alloc: Global,
        opening: Opening,
        fabric: Fabric<B>,
    ) -> Result<(Guarded<B, N>, Vec<Share<N>>), Fabric<B>>
        requires names { IsNamed opening N.high N.low N.out N.shares }
        requires lent { count_lent fabric.lent ≤ N.lent }
        requires some { 0 < opening.shares }
        requires opened { IsServed N.opened N.asked fabric }
        ensures shares { IfOk result (λ r. (vec_len r.1 ≡ opening.shares)
            × AreNew (journal_sum fabric.journal) r.1.items) }
        ensures object { IfErr result (λ f. f ≡ fabric) }
    {
        let sum = fabric.sum();
        let Opening {
            high,
            low,
            out,
            shares,
        } = opening;
        let Ok(mut all) = Vec::with_capacity(alloc, usize::from(shares)) else {
            return Err(fabric);
        };
        let (mut high_book, mut high_rest) = high.open::<High<N>>();
        let (mut low_book, mut low_rest) = low.open::<Low<N>>();
        let (out_book, mut out_rest) = out.open::<Out<N>>();
        let mut sum_left = sum;
        let mut high_left = (sum / UNIT) as u64;
        let mut low_left = (sum % UNIT) as u64;
        high_book.add(&mut high_rest, high_left);
        low_book.add(&mut low_rest, low_left);
        for number in 0..shares {
            let high = high_rest.split_off(1, high_left);
            let low = low_rest.split_off(1, low_left);
            let out = out_rest.split_off(1, 0);
            all.push_reserved(Share::new(number, sum_left, high, low, out));
            sum_left = 0;
            high_left = 0;
            low_left = 0;
        }
        let guarded = Guarded {
            fabric,
            high: high_book,
            low: low_book,
            out: out_book,
        };
        Ok((guarded, all))
    }

    /// The fabric, where these are all shares of it. Together they are the journal's sum, which tells how
    /// many steps it has. No more writers are out than were when its books were opened, and than holders
    /// have out.
    pub fn close(self, shares: Vec<Share<N>>) -> Fabric<B>
        requires all { vec_len shares ≡ N.shares }
        requires some { 0 < vec_len shares }
        ensures sum { sum_by (λ s. s.sum) shares.items ≡ journal_sum result.journal }
        ensures length { steps_in_sum (sum_by (λ s. s.sum) shares.items) ≡ length result.journal }
        ensures served { IsServed N.opened N.asked result }
        ensures lent { count_lent result.lent ≤ N.lent + sum_by owes shares.items }
    {
        let mut shares = shares;
        let Guarded {
            fabric,
            mut high,
            mut low,
            mut out,
        } = self;
        let Some(first) = shares.pop() else {
            unreachable!()
        };
        let Share {
            number: _,
            sum: _,
            halt: _,
            high: mut all_high,
            low: mut all_low,
            out: mut all_out,
        } = first;
        while let Some(share) = shares.pop() {
            let Share {
                number: _,
                sum: _,
                halt: _,
                high: its_high,
                low: its_low,
                out: its_out,
            } = share;
            all_high.merge(its_high);
            all_low.merge(its_low);
            all_out.merge(its_out);
        }
        high.audit(&mut all_high);
        low.audit(&mut all_low);
        out.audit(&mut all_out);
        // The sum tells how long the journal is.
        let _sum = fabric.sum();
        fabric
    }

    /// Does a step, and adds its number to the share. Refused, it changes nothing.
    pub fn step<R: Wait>(&mut self, rt: &R, step: Step, share: &mut Share<N>) -> Result<(), Refusal>
        requires { IsTurnAt N.asked (self.old).world step }
        ensures found { IsFound N.opened N.asked N.shares share.old.sum self.old }
        ensures ok { OnOk result (steps.Lawful (self.old).world step
            × (self.new ≡ after_step self.old step)) }
        ensures err { OnErr result (self.new ≡ self.old) }
        ensures cause { IsDoneOr (fabric_refusal self.old step) result }
        ensures sum { MatchResult result (λ _. share.new.sum ≡ share.old.sum + step_number step)
            (λ _. share.new.sum ≡ share.old.sum) }
        ensures holder { IsHolder share.old share.new }
        ensures out { owes share.new ≡ owes share.old }
    {
        let number = step.number();
        let Guarded {
            fabric,
            high,
            low,
            out: _,
        } = self;
        let Share {
            number: _,
            sum,
            halt: _,
            high: own_high,
            low: own_low,
            out: _,
        } = share;
        // The network has no fault, which its type keeps.
        let _network = fabric.network();
        fabric.holds();
        high.audit(own_high);
        low.audit(own_low);
        fabric.step(rt, step)?;
        // No journal's sum needs more than 128 bits.
        let _sum = fabric.sum();
        high.add(own_high, (number / UNIT) as u64);
        low.add(own_low, (number % UNIT) as u64);
        *sum += number;
        Ok(())
    }

    /// Begins a turn of a router: does what it has to do next, if anything, and answers it. Where it
    /// may lend, it gives for a publication the ticket with which the router's writer goes out, and adds
    /// nothing yet.
    pub fn begin<R: Wait>(
        &mut self,
        rt: &R,
        router: u16,
        lends: bool,
        share: &mut Share<N>,
    ) -> (Result<Option<Step>, Refusal>, Option<Errand<B, N>>)
        ensures found { IsFound N.opened N.asked N.shares share.old.sum self.old }
        ensures turn { IsTurn self.old router result.0 }
        ensures ticket { IfSome result.1 (λ t. (result.0 ≡ Ok (Some (Step.Publish router)))
            × (fabric_refusal self.old (Step.Publish router) ≡ None)
            × (t.is_published ≡ false) × (t.before.router ≡ router)) }
        ensures lent { IfSome result.1 (λ t. lends ≡ true) }
        ensures sum { share.new.sum ≡ share.old.sum + added_at_once result.0 result.1 }
        ensures holder { IsHolder share.old share.new }
        ensures out { MatchOption result.1 (owes share.new ≡ owes share.old)
            (λ _. owes share.new ≡ owes share.old + 1) }
    {
        self.audit(share);
        if usize::from(router) >= self.fabric.world().routers().len() {
            return (Err(Refusal::UnknownRouter), None);
        }
        let Some(step) = self.fabric.next_step(router) else {
            return (Ok(None), None);
        };
        self.take_turn(rt, router, step, lends, share)
    }

    /// Does what a router has to do next, and answers it. Where it may lend, it gives for a publication the
    /// ticket with which the router's writer goes out, and adds nothing yet.
    pub fn take_turn<R: Wait>(
        &mut self,
        rt: &R,
        router: u16,
        step: Step,
        lends: bool,
        share: &mut Share<N>,
    ) -> (Result<Option<Step>, Refusal>, Option<Errand<B, N>>)
        requires next { next_turn self.old router ≡ Some step }
        ensures found { IsFound N.opened N.asked N.shares share.old.sum self.old }
        ensures turn { IsTurn self.old router result.0 }
        ensures ticket { IfSome result.1 (λ t. (result.0 ≡ Ok (Some (Step.Publish router)))
            × (fabric_refusal self.old (Step.Publish router) ≡ None)
            × (t.is_published ≡ false) × (t.before.router ≡ router)) }
        ensures lent { IfSome result.1 (λ t. lends ≡ true) }
        ensures sum { share.new.sum ≡ share.old.sum + added_at_once result.0 result.1 }
        ensures holder { IsHolder share.old share.new }
        ensures out { MatchOption result.1 (owes share.new ≡ owes share.old)
            (λ _. owes share.new ≡ owes share.old + 1) }
    {
        self.audit(share);
        let done = step;
        if let Step::Publish { router: _ } = step {
            if lends {
                return match self.lend(router, share) {
                    Ok(errand) => (Ok(Some(done)), Some(errand)),
                    Err(refusal) => (Err(refusal), None),
                };
            }
        }
        match self.step(rt, step, share) {
            Ok(()) => (Ok(Some(done)), None),
            Err(refusal) => (Err(refusal), None),
        }
    }

    /// A router that has something to do, looked for from this one on, and what that is. None only if no router
    /// has.
    pub fn turn_from(&mut self, from: u16) -> Option<(u16, Step)>
        ensures same { self.new ≡ self.old }
        ensures some { IfSome result (λ d. next_turn self.old d.0 ≡ Some d.1) }
        ensures none { result ≡ None → (i : ℕ) → i < (self.old).network.routers → next_turn self.old i ≡ None }
    {
        self.fabric.turn_from(from)
    }

    // Lets the writer of a router that publishes next go out.
    fn lend(&mut self, router: u16, share: &mut Share<N>) -> Result<Errand<B, N>, Refusal>
        requires next { next_turn self.old router ≡ Some (Step.Publish router) }
        ensures due { OnOk result (steps.Lawful (self.old).world (Step.Publish router)) }
        ensures cause { IsDoneOr (fabric_refusal self.old (Step.Publish router)) result }
        ensures fresh { IfOk result (λ t. (t.is_published ≡ false) × (t.before.router ≡ router)) }
        ensures sum { share.new.sum ≡ share.old.sum }
        ensures holder { IsHolder share.old share.new }
        ensures out { MatchResult result (λ _. owes share.new ≡ owes share.old + 1)
            (λ _. owes share.new ≡ owes share.old) }
    {
        let ticket = self.fabric.ticket(router)?;
        self.out.add(&mut share.out, 1);
        Ok(Errand::new(ticket))
    }

    /// Ends a turn whose router's writer was out: it comes back, and where it has published, the number
    /// of the publication is added to the share. Refused, the ticket comes back, and nothing changes; a turn
    /// can be refused so.
    pub fn finish(&mut self, errand: Errand<B, N>, share: &mut Share<N>) -> Result<(), Ticket<B>>
        requires out { 0 < owes share.old }
        ensures found { IsFound N.opened N.asked N.shares share.old.sum self.old }
        ensures sum { MatchResult result (λ _. share.new.sum
            ≡ share.old.sum + (if errand.is_published then step_number
            (Step.Publish errand.before.router) else 0)) (λ _. share.new.sum ≡ share.old.sum) }
        ensures holder { IsHolder share.old share.new }
        ensures out { MatchResult result (λ _. owes share.new + 1 ≡ owes share.old)
            (λ _. owes share.new ≡ owes share.old) }
        ensures ticket { IfErr result (λ t. t ≡ errand) }
        ensures cause { OnErr result (IsTurnRefused N.opened N.asked WithWrongTicket) }
    {
        let ticket = errand.into_ticket();
        let published = ticket.is_published();
        let router = ticket.router();
        let number = Step::Publish { router }.number();
        let Guarded {
            fabric,
            high,
            low,
            out,
        } = self;
        let Share {
            number: _,
            sum,
            halt: _,
            high: own_high,
            low: own_low,
            out: own_out,
        } = share;
        let _network = fabric.network();
        fabric.holds();
        high.audit(own_high);
        low.audit(own_low);
        fabric.give_back(ticket)?;
        out.sub(own_out, 1);
        if published {
            // No journal's sum needs more than 128 bits.
            let _sum = fabric.sum();
            high.add(own_high, (number / UNIT) as u64);
            low.add(own_low, (number % UNIT) as u64);
            *sum += number;
        }
        Ok(())
    }

    /// An address to look up at a router, in an image no older than the one in force now.
    pub fn job(&self, number: u64, router: u16, addr: u32) -> Result<Job<B>, Refusal>
        ensures served { IsServed N.opened N.asked self.now }
        ensures headline { HasHeadline self.now }
        ensures asked { IfOk result (λ j. (j.number ≡ number) × (j.told.router ≡ router)
            × (j.addr ≡ addr)) }
        ensures in_force { IfOk result (λ j. slice_get (self.now).images router
            ≡ Some (image_of B.openings j.told)) }
        ensures known { IsOk result ↔ (router < (N.opened.network).routers) }
        ensures err { IfErr result (λ e. e ≡ Refusal.UnknownRouter) }
    {
        // The network has no fault, which its type keeps.
        let _network = self.fabric.network();
        self.fabric.holds();
        self.fabric.job(number, router, addr)
    }

    /// Whether nothing is left to do.
    pub fn is_settled(&self) -> bool
        ensures served { IsServed N.opened N.asked self.now }
        ensures headline { HasHeadline self.now }
        ensures settled { result ≡ turns.is_settled (self.now).world }
        ensures quiet { result ≡ is_quiet (self.now).world }
    {
        self.fabric.holds();
        self.fabric.is_settled()
    }

    /// How many routers there are.
    pub fn routers(&self) -> usize
        ensures routers { result ≡ (N.opened.network).routers }
        ensures few { result ≤ most_routers }
    {
        self.fabric.network().routers()
    }

    // Changes nothing: the fabric counts what the share does.
    fn audit(&mut self, share: &mut Share<N>)
        ensures found { IsFound N.opened N.asked N.shares share.old.sum self.old }
        ensures fabric { self.new ≡ self.old }
        ensures sum { share.new.sum ≡ share.old.sum }
        ensures holder { IsHolder share.old share.new }
        ensures out { owes share.new ≡ owes share.old }
    {
        // The network has no fault, which its type keeps.
        let _network = self.fabric.network();
        self.fabric.holds();
        self.high.audit(&mut share.high);
        self.low.audit(&mut share.low);
    }
}
