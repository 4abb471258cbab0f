//! A fabric under a lock.

ghost use Rattle.std.specs.Prelude.{◌≡◌, ◌<◌, ◌≤◌, ◌+◌, ◌↔◌, if◌then◌else◌, None, Some, Ok, true, false, length, slice_get, sum_by, vec_len, IfOk, IfErr, IfSome, IsOk, OnErr, OnOk, MatchOption, MatchResult};
ghost use Rattle.network_model.specs.{declared.step.Refusal.TheVariants.WrongTicket as WithWrongTicket, Journal.journal_sum, Journal.step_number, Journal.steps_in_sum, Forwarding.is_quiet, Network.most_routers};
ghost use Rattle.network_model.specs.Step as steps;
ghost use Rattle.network_model.specs.Turns as turns;
ghost use Rattle.world.specs.Steps.{IsDoneOr};
ghost use Rattle.publication.specs.Lists.{image_of};
ghost use Rattle.fabric.specs.Fabric.{Fabric as FabricState, count_lent, fabric_refusal};
ghost use Rattle.guarded.specs.Names.{IsNamed};
ghost use Rattle.guarded.specs.Served.{HasHeadline, IsFound, IsServed, IsTurn, IsTurnRefused, added_at_once};
ghost use Rattle.guarded.specs.Shares.{IsBack, IsHolder, AreNew, owes};

use crate::serve::{NoGate, TurnGate};
use fabric::Fabric;
use guarded::{ControlName, Errand, Guarded, Opening, Share};
use network_model::{Refusal, Step};
use publication::{FabricName, Job, Ticket};
use std::alloc::Global;
use std::mem::ManuallyDrop;
use std::sync::{Mutex, Wait};

/// A fabric under a lock. It is not `Drop`: end it by `close`.
pub struct Control<B: FabricName, N: ControlName> {
    pub(crate) guarded: Mutex<ManuallyDrop<Guarded<B, N>>>,
}

impl<B: FabricName, N: ControlName> Control<B, N> {
    /// Puts a fabric under a lock, and makes the shares. The first has the journal's sum, the others
    /// have 0. No holder has a writer out. Without memory the fabric comes back.
    pub fn new(
        alloc: Global,
        opening: Opening,
        fabric: Fabric<B>,
    ) -> Result<(Control<B, N>, Vec<Share<N>>), Fabric<B>>
        requires names { IsNamed opening N.high N.low N.out N.shares }
        requires lent { count_lent fabric.lent ≤ N.lent }
        requires some { 0 < opening.shares }
        requires opened { IsServed N.opened N.asked fabric }
        ensures shares { IfOk result (λ r. (vec_len r.1 ≡ opening.shares)
            × AreNew (journal_sum fabric.journal) r.1.items) }
        ensures object { IfErr result (λ f. f ≡ fabric) }
    {
        match Guarded::open(alloc, opening, fabric) {
            Ok((guarded, shares)) => Ok((Control::of(guarded), shares)),
            Err(fabric) => Err(fabric),
        }
    }

    // A fabric has to be closed, so none is let go with the lock: `close` takes it out.
    fn of(guarded: Guarded<B, N>) -> Control<B, N> {
        let guarded = unsafe { ManuallyDrop::new_unchecked(guarded) };
        Control {
            guarded: Mutex::new(guarded),
        }
    }

    /// The fabric, where these are all shares of its control. Together they are the journal's sum,
    /// which tells how many steps it has. No more writers are out than were when the control was made, and
    /// than holders have out.
    pub fn close(self, shares: Vec<Share<N>>) -> Fabric<B>
        requires all { vec_len shares ≡ N.shares }
        requires some { 0 < vec_len shares }
        ensures sum { sum_by (λ s. s.sum) shares.items ≡ journal_sum result.journal }
        ensures length { steps_in_sum (sum_by (λ s. s.sum) shares.items) ≡ length result.journal }
        ensures served { IsServed N.opened N.asked result }
        ensures lent { count_lent result.lent ≤ N.lent + sum_by owes shares.items }
    {
        let Control { guarded } = self;
        ManuallyDrop::into_inner(guarded.into_inner()).close(shares)
    }

    /// Does a step, and adds its number to the share. Refused, as `Fabric::step` refuses it, it changes
    /// nothing.
    pub fn step<R: Wait>(&self, rt: &R, step: Step, share: &mut Share<N>) -> Result<(), Refusal>
        requires asked { N.asked step ≡ true }
        ensures sum { MatchResult result (λ _. share.new.sum ≡ share.old.sum + step_number step)
            (λ _. share.new.sum ≡ share.old.sum) }
        ensures holder { IsHolder share.old share.new }
        ensures back { owes share.new ≡ owes share.old }
        ensures cause { (f : FabricState) × IsFound N.opened N.asked N.shares share.old.sum f
            × IsDoneOr (fabric_refusal f step) result × OnOk result (steps.Lawful f.world step) }
    {
        self.guarded.lock(rt).step(rt, step, share)
    }

    /// Does what a router has to do next, adds its number to the share, and answers it; none where the
    /// router has nothing to do. A publication is done with a ticket, while the lock is free. Refused with
    /// `UnknownRouter`, then as `Fabric::step` refuses the step; with `WrongTicket` where the fabric does
    /// not take the ticket back, which does not happen.
    pub fn turn<R: Wait>(
        &self,
        rt: &R,
        router: u16,
        share: &mut Share<N>,
    ) -> Result<Option<Step>, Refusal>
        ensures sum { MatchResult result
            (λ o. MatchOption o (share.new.sum ≡ share.old.sum) (λ s. share.new.sum
            ≡ share.old.sum + step_number s)) (λ _. share.new.sum ≡ share.old.sum) }
        ensures holder { IsHolder share.old share.new }
        ensures back { IsBack share.old share.new result }
        ensures turn { (f : FabricState) × IsFound N.opened N.asked N.shares share.old.sum f
            × IsTurn f router result }
    {
        self.turn_with(rt, router, share, 0, &NoGate)
    }

    // A turn of a thread, which calls the gate while its writer is out.
    pub(crate) fn turn_with<R: Wait, G: TurnGate>(
        &self,
        rt: &R,
        router: u16,
        share: &mut Share<N>,
        thread: u8,
        gate: &G,
    ) -> Result<Option<Step>, Refusal>
        ensures sum { MatchResult result
            (λ o. MatchOption o (share.new.sum ≡ share.old.sum) (λ s. share.new.sum
            ≡ share.old.sum + step_number s)) (λ _. share.new.sum ≡ share.old.sum) }
        ensures holder { IsHolder share.old share.new }
        ensures back { IsBack share.old share.new result }
        ensures turn { (f : FabricState) × IsFound N.opened N.asked N.shares share.old.sum f
            × IsTurn f router result }
    {
        let (done, errand) = self.begin(rt, router, share);
        let Some(mut errand) = errand else {
            return done;
        };
        gate.publishing(thread, router);
        let published = errand.publish(rt);
        if let Err(ticket) = self.finish(rt, errand, share) {
            ticket.close(rt);
            return Err(Refusal::WrongTicket);
        }
        published?;
        done
    }

    fn begin<R: Wait>(
        &self,
        rt: &R,
        router: u16,
        share: &mut Share<N>,
    ) -> (Result<Option<Step>, Refusal>, Option<Errand<B, N>>)
        ensures sum { share.new.sum ≡ share.old.sum + added_at_once result.0 result.1 }
        ensures holder { IsHolder share.old share.new }
        ensures out { MatchOption result.1 (owes share.new ≡ owes share.old)
            (λ _. owes share.new ≡ owes share.old + 1) }
        ensures turn { (f : FabricState) × IsFound N.opened N.asked N.shares share.old.sum f
            × IsTurn f router result.0
            × IfSome result.1 (λ t. (result.0 ≡ Ok (Some (Step.Publish router))) × (fabric_refusal f
            (Step.Publish router) ≡ None) × (t.is_published ≡ false) × (t.before.router ≡ router)) }
    {
        self.guarded.lock(rt).begin(rt, router, true, share)
    }

    pub(crate) fn finish<R: Wait>(
        &self,
        rt: &R,
        errand: Errand<B, N>,
        share: &mut Share<N>,
    ) -> Result<(), Ticket<B>>
        requires out { 0 < owes share.old }
        ensures found { (f : FabricState) × IsFound N.opened N.asked N.shares share.old.sum f }
        ensures sum { MatchResult result (λ _. share.new.sum
            ≡ share.old.sum + (if errand.is_published then step_number
            (Step.Publish errand.before.router) else 0)) (λ _. share.new.sum ≡ share.old.sum) }
        ensures holder { IsHolder share.old share.new }
        ensures out { MatchResult result (λ _. owes share.new + 1 ≡ owes share.old)
            (λ _. owes share.new ≡ owes share.old) }
        ensures cause { OnErr result (IsTurnRefused N.opened N.asked WithWrongTicket) }
    {
        self.guarded.lock(rt).finish(errand, share)
    }

    /// An address for a worker to look up at a router, in an image no older than the one in force now.
    /// Refused with `UnknownRouter`.
    pub fn job<R: Wait>(
        &self,
        rt: &R,
        number: u64,
        router: u16,
        addr: u32,
    ) -> Result<Job<B>, Refusal>
        ensures asked { IfOk result (λ j. (j.number ≡ number) × (j.told.router ≡ router)
            × (j.addr ≡ addr)) }
        ensures known { IsOk result ↔ (router < (N.opened.network).routers) }
        ensures err { IfErr result (λ e. e ≡ Refusal.UnknownRouter) }
        ensures in_force { (f : FabricState) × IsServed N.opened N.asked f × HasHeadline f
            × IfOk result (λ j. slice_get f.images router ≡ Some (image_of B.openings j.told)) }
    {
        self.guarded.lock(rt).job(number, router, addr)
    }

    /// Whether nothing is left to do; then all is quiet.
    pub fn is_settled<R: Wait>(&self, rt: &R) -> bool
        ensures { (f : FabricState) × IsServed N.opened N.asked f × HasHeadline f
            × (result ≡ turns.is_settled f.world) × (result ≡ is_quiet f.world) }
    {
        self.guarded.lock(rt).is_settled()
    }

    /// How many routers there are.
    pub(crate) fn routers<R: Wait>(&self, rt: &R) -> usize
        ensures routers { result ≡ (N.opened.network).routers }
        ensures few { result ≤ most_routers }
    {
        self.guarded.lock(rt).routers()
    }
}
