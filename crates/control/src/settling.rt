//! Fabrics that are settled: by one thread, and where there is much to do by several.

ghost use Rattle.std.specs.Prelude.{◌≡◌, ◌+◌, ◌<◌, ◌≤◌, ◌⊎◌, Err, IsTrue, IfErr, MatchResult, OnErr, OnOk, false, sum_by, vec_len};
ghost use Rattle.network_model.specs.{declared.step.Refusal.TheVariants.NoMemory as OutOfMemory, declared.step.Refusal.TheVariants.WrongTicket as WithWrongTicket, Forwarding.is_quiet};
ghost use Rattle.network_model.specs.Journal.{Fits};
ghost use Rattle.network_model.specs.Turns as turns;
ghost use Rattle.fabric.specs.{Fabric.Fabric as FabricState, Fabric.count_lent, Headline.HasBestRows};
ghost use Rattle.guarded.specs.Names.{IsNamed};
ghost use Rattle.guarded.specs.Served.{AreBack, IsServed, IsFabricStopped, IsTurnRefused, none_asked};
ghost use Rattle.guarded.specs.Shares.{HasServed, HaveServed, IsHolder, KeptTickets, owes};

use crate::control::Control;
use crate::crew::Crew;
use crate::crowd::Crowd;
use crate::progress::{Progress, STEPS_BETWEEN};
use crate::serve::{TurnGate, first_refusal};
use core::mem::replace_with;
use fabric::{Fabric, MOST_STEPS};
use guarded::{ControlName, Errand, MOST_TICKETS, Opening, Pass, Share, Thresholds, rows_due};
use network_model::{NoMemory, Refusal, Step};
use publication::FabricName;
use std::alloc::Global;
use std::marker::Brand;
use std::sync::Wait;
use std::thread;
use std::thread::Threads;

// The fabric that is to be settled. The functions that settle it have it as a type parameter.
trait Origin {
    ghost use Rattle.fabric.specs.Fabric.{Fabric as FabricState};

    ghost from: { FabricState };
}

impl Origin for Brand {
    ghost use Rattle.guarded.specs.Served.{no_fabric};

    ghost from = { no_fabric };
}

/// Lets routers take turns until nothing is left to do, or a step is refused, or there is no memory for
/// the threads' shares. Where it is done all is quiet, and rows lead along least-cost walks. One thread
/// takes all turns, in ascending cyclic order of the routers; while there is as much to publish as the crew's
/// thresholds say, up to so many do it together, and where the system gives fewer, those that it gives do
/// all. These call the gate. One thread alone is refused with `JournalFull` or `NoMemory` and with nothing
/// else. Where a writer is out, it does not come back. It leaves no other writer out, unless it is refused
/// with `WrongTicket`, which does not happen. How far it is, `progress` is told.
pub fn settle<B, P, G, R>(
    rt: &R,
    alloc: Global,
    fabric: &mut Fabric<B>,
    crew: Crew,
    gate: &G,
    progress: &mut P,
) -> Result<(), Refusal>
where
    B: FabricName + Send + Sync,
    P: Progress,
    G: TurnGate + Sync,
    R: Threads + Wait + Sync,
    ensures turns { IsServed fabric.old none_asked fabric.new }
    ensures settled { OnOk result (IsTrue (turns.is_settled (fabric.new).world)) }
    ensures quiet { OnOk result (IsTrue (is_quiet (fabric.new).world)) }
    ensures least_cost { OnOk result (HasBestRows fabric.new) }
    ensures err { IfErr result (λ e. IsTurnRefused fabric.old none_asked e
        ⊎ (e ≡ Refusal.NoMemory)) }
    ensures alone { crew.threads ≤ 1 → IfErr result (IsFabricStopped fabric.new) }
    ensures back { AreBack fabric.old fabric.new result }
{
    let by = (rt, alloc, crew, gate, progress);
    let done = replace_with(fabric, by, |fabric, by| settle_moved(fabric, by));
    fabric.holds();
    done
}

fn settle_moved<B, P, G, R>(
    fabric: Fabric<B>,
    by: (&R, Global, Crew, &G, &mut P),
) -> (Fabric<B>, Result<(), Refusal>)
where
    B: FabricName + Send + Sync,
    P: Progress,
    G: TurnGate + Sync,
    R: Threads + Wait + Sync,
    ensures turns { IsServed fabric none_asked result.0 }
    ensures settled { OnOk result.1 (IsTrue (turns.is_settled (result.0).world)) }
    ensures quiet { OnOk result.1 (IsTrue (is_quiet (result.0).world)) }
    ensures err { IfErr result.1 (λ e. IsTurnRefused fabric none_asked e
        ⊎ (e ≡ Refusal.NoMemory)) }
    ensures alone { (by.entry.2).threads ≤ 1 → IfErr result.1 (IsFabricStopped result.0) }
    ensures back { AreBack fabric result.0 result.1 }
{
    let (rt, alloc, crew, gate, progress) = by;
    settle_from::<B, Brand, P, G, R>(rt, alloc, fabric, crew, gate, progress)
}

// One thread alone, and while there is much to publish all together.
fn settle_from<B, O, P, G, R>(
    rt: &R,
    alloc: Global,
    fabric: Fabric<B>,
    crew: Crew,
    gate: &G,
    progress: &mut P,
) -> (Fabric<B>, Result<(), Refusal>)
where
    B: FabricName + Send + Sync,
    O: Origin,
    P: Progress,
    G: TurnGate + Sync,
    R: Threads + Wait + Sync,
    requires from { fabric ≡ O.from }
    ensures turns { IsServed O.from none_asked result.0 }
    ensures settled { OnOk result.1 (IsTrue (turns.is_settled (result.0).world)) }
    ensures quiet { OnOk result.1 (IsTrue (is_quiet (result.0).world)) }
    ensures err { IfErr result.1 (λ e. IsTurnRefused O.from none_asked e ⊎ (e ≡ Refusal.NoMemory)) }
    ensures alone { crew.threads ≤ 1 → IfErr result.1 (IsFabricStopped result.0) }
    ensures back { AreBack O.from result.0 result.1 }
{
    let mut fabric = fabric;
    for _ in rt.forever() {
        let done = take_turns::<B, O, P, R>(rt, &mut fabric, crew, progress);
        if done.is_err() || fabric.is_settled() {
            return (fabric, done);
        }
        if crew.threads > 1 {
            let opening = Opening::new(crew.threads);
            let (next, done) = settle_together::<B, Brand, G, R>(
                rt,
                alloc,
                opening,
                fabric,
                crew.thresholds,
                gate,
            );
            if done.is_err() || next.is_settled() {
                return (next, done);
            }
            fabric = next;
        }
    }
    unreachable!()
}

// One thread takes turns until nothing is left to do, or, where there are others, there is enough to
// publish for them.
fn take_turns<B, O, P, R>(
    rt: &R,
    fabric: &mut Fabric<B>,
    crew: Crew,
    progress: &mut P,
) -> Result<(), Refusal>
where
    B: FabricName,
    O: Origin,
    P: Progress,
    R: Wait,
    requires { IsServed O.from none_asked fabric.old }
    ensures turns { IsServed O.from none_asked fabric.new }
    ensures err { IfErr result (IsTurnRefused O.from none_asked) }
    ensures alone { IfErr result (IsFabricStopped fabric.new) }
    ensures lent { (fabric.new).lent ≡ (fabric.old).lent }
{
    let mut from = 0;
    // A turn takes a place of the journal, and without one it is refused.
    for steps in fabric.journal().len()..MOST_STEPS + 1 {
        if fabric.is_settled() {
            return Ok(());
        }
        let Some((router, step)) = fabric.turn_from(from) else {
            return Ok(());
        };
        if 1 < crew.threads {
            let due = step;
            if is_worth_threads(fabric, crew.thresholds, &due) {
                return Ok(());
            }
        }
        // The call takes the step.
        let again = step;
        fits(again);
        match fabric.step(rt, step) {
            Ok(()) => {
                from = router.wrapping_add(1);
                if (steps + 1) % STEPS_BETWEEN == 0 {
                    progress.steps(steps + 1);
                }
            }
            Err(refusal) => return Err(refusal),
        }
    }
    Ok(())
}

// It does nothing. A step fits its number.
fn fits(step: Step)
    ensures { Fits step }
{}

// Reports how many steps were done, after every so many.
pub(crate) fn report_steps<B: FabricName, P: Progress>(fabric: &Fabric<B>, progress: &mut P) {
    let steps = fabric.journal().len();
    if steps % STEPS_BETWEEN == 0 {
        progress.steps(steps);
    }
}

// Whether the step is a large publication, and together with it there is enough to publish for several
// threads.
fn is_worth_threads<B: FabricName>(
    fabric: &Fabric<B>,
    thresholds: Thresholds,
    step: &Step,
) -> bool {
    let Step::Publish { router } = *step else {
        return false;
    };
    if !thresholds.calls(rows_due(fabric, router).max(1)) {
        return false;
    }
    let mut rows: usize = 0;
    for router in 0..fabric.network().routers() {
        rows = rows.saturating_add(rows_due(fabric, router as u16));
    }
    thresholds.starts(rows.max(1))
}

// A thread for each share, while there is much to publish.
fn settle_together<B, N, G, R>(
    rt: &R,
    alloc: Global,
    opening: Opening,
    fabric: Fabric<B>,
    thresholds: Thresholds,
    gate: &G,
) -> (Fabric<B>, Result<(), Refusal>)
where
    B: FabricName + Send + Sync,
    N: ControlName + Send + Sync,
    G: TurnGate + Sync,
    R: Threads + Wait + Sync,
    requires names { IsNamed opening N.high N.low N.out N.shares }
    requires lent { count_lent fabric.lent ≤ N.lent }
    requires some { 0 < opening.shares }
    requires opened { IsServed N.opened N.asked fabric }
    ensures turns { IsServed N.opened N.asked result.0 }
    ensures err { IfErr result.1 (λ e. IsTurnRefused N.opened N.asked e ⊎ (e ≡ Refusal.NoMemory)) }
    ensures back { (result.1 ≡ Err WithWrongTicket) ⊎ (count_lent (result.0).lent ≤ N.lent) }
{
    match Control::<B, N>::new(alloc, opening, fabric) {
        Ok((control, mut shares)) => {
            let done = control.settle(rt, alloc, thresholds, gate, &mut shares);
            (control.close(shares), done)
        }
        Err(fabric) => (fabric, Err(Refusal::NoMemory)),
    }
}

impl<B: FabricName + Send + Sync, N: ControlName + Send + Sync> Control<B, N> {
    // Where a turn is refused, each thread ends its pass, and it is answered that a ticket was handed back,
    // or else the refusal of the lowest such thread.
    fn settle<R: Threads + Wait + Sync, G: TurnGate + Sync>(
        &self,
        rt: &R,
        alloc: Global,
        thresholds: Thresholds,
        gate: &G,
        shares: &mut Vec<Share<N>>,
    ) -> Result<(), Refusal>
        requires some { 0 < vec_len shares.old }
        requires home { sum_by owes shares.old.items ≡ 0 }
        ensures len { vec_len shares.new ≡ vec_len shares.old }
        ensures err { IfErr result (IsTurnRefused N.opened N.asked) }
        ensures back { (result ≡ Err WithWrongTicket) ⊎ (sum_by owes shares.new.items ≡ 0) }
    {
        self.settle_each(rt, alloc, thresholds, gate, shares);
        if has_lost_ticket(shares.as_slice()) {
            return Err(Refusal::WrongTicket);
        }
        first_refusal(shares.as_slice())
    }

    fn settle_each<R: Threads + Wait + Sync, G: TurnGate + Sync>(
        &self,
        rt: &R,
        alloc: Global,
        thresholds: Thresholds,
        gate: &G,
        shares: &mut Vec<Share<N>>,
    )
        requires some { 0 < vec_len shares.old }
        ensures { HaveServed shares.old.items shares.new.items }
    {
        let threads = shares.len();
        let crowd = Crowd::new(threads, thresholds);
        thread::for_each_mut(
            rt,
            shares.as_mut_slice(),
            threads,
            &|_place, share| { self.help(rt, alloc, share, &crowd, gate) },
        );
    }

    // What a thread does, which then has the refusal of its passes, if any, or that a ticket was handed
    // back to it. Without memory for errands it publishes all under the lock.
    fn help<R: Wait, G: TurnGate>(
        &self,
        rt: &R,
        alloc: Global,
        share: &mut Share<N>,
        crowd: &Crowd,
        gate: &G,
    )
        ensures { HasServed share.old share.new }
    {
        let mut errands = no_errands(alloc);
        crowd.enter(rt);
        let done = self.passes(rt, share, &mut errands, crowd, gate);
        let answer = self.give_all_back(rt, share, errands, done);
        share.end(answer);
    }

    // The passes of a thread, until all is over.
    fn passes<R: Wait, G: TurnGate>(
        &self,
        rt: &R,
        share: &mut Share<N>,
        errands: &mut Vec<Errand<B, N>>,
        crowd: &Crowd,
        gate: &G,
    ) -> Result<(), Refusal>
        requires covered { vec_len errands.old ≤ owes share.old }
        ensures covered { vec_len errands.new ≤ owes share.new }
        ensures back { MatchResult result
            (λ _. owes share.new + vec_len errands.old ≡ owes share.old + vec_len errands.new)
            (λ e. (e ≡ WithWrongTicket)
            ⊎ (owes share.new + vec_len errands.old ≡ owes share.old + vec_len errands.new)) }
        ensures err { IfErr result (IsTurnRefused N.opened N.asked) }
        ensures holder { IsHolder share.old share.new }
    {
        let thread = share.number();
        let mut router = 0;
        let mut turn: u64 = 1;
        for _ in rt.forever() {
            if crowd.is_over() {
                break;
            }
            gate.before(thread, turn);
            let done = self.round(rt, router, share, errands, crowd, gate);
            gate.after(thread, turn);
            turn = turn.saturating_add(1);
            match done {
                Ok(pass) => {
                    router = pass.router;
                    if pass.settled || pass.rows == 0 && !crowd.rest(rt) {
                        crowd.end();
                    }
                }
                Err(refusal) => {
                    crowd.end();
                    return Err(refusal);
                }
            }
        }
        Ok(())
    }

    // A pass under the lock, and outside it the publications that it leaves to errands.
    fn round<R: Wait, G: TurnGate>(
        &self,
        rt: &R,
        router: u16,
        share: &mut Share<N>,
        errands: &mut Vec<Errand<B, N>>,
        crowd: &Crowd,
        gate: &G,
    ) -> Result<Pass, Refusal>
        requires covered { vec_len errands.old ≤ owes share.old }
        ensures covered { vec_len errands.new ≤ owes share.new }
        ensures back { MatchResult result
            (λ _. owes share.new + vec_len errands.old ≡ owes share.old + vec_len errands.new)
            (λ e. (e ≡ WithWrongTicket)
            ⊎ (owes share.new + vec_len errands.old ≡ owes share.old + vec_len errands.new)) }
        ensures err { IfErr result (IsTurnRefused N.opened N.asked) }
        ensures holder { IsHolder share.old share.new }
    {
        let thresholds = crowd.thresholds();
        let pass = self
            .guarded
            .lock(rt)
            .pass(rt, router, thresholds, share, errands)?;
        if thresholds.calls(pass.rows) {
            crowd.call();
        }
        match publish_all(rt, share.number(), errands, gate) {
            Ok(()) => Ok(pass),
            Err(NoMemory) => Err(Refusal::NoMemory),
        }
    }

    // What a thread has out comes back. It answers what its passes came to, or that a ticket was handed
    // back, whose writer is ended.
    fn give_all_back<R: Wait>(
        &self,
        rt: &R,
        share: &mut Share<N>,
        errands: Vec<Errand<B, N>>,
        done: Result<(), Refusal>,
    ) -> Result<(), Refusal>
        requires covered { vec_len errands ≤ owes share.old }
        requires err { IfErr done (IsTurnRefused N.opened N.asked) }
        ensures back { (result ≡ Err WithWrongTicket)
            ⊎ ((owes share.new + vec_len errands ≡ owes share.old) × (result ≡ done)) }
        ensures err { IfErr result (IsTurnRefused N.opened N.asked) }
        ensures holder { IsHolder share.old share.new }
    {
        let (mut errands, mut answer) = (errands, done);
        while let Some(errand) = errands.pop() {
            if let Err(ticket) = self.finish(rt, errand, share) {
                ticket.close(rt);
                answer = Err(Refusal::WrongTicket);
            }
        }
        errands.into_iter().destroy_empty();
        answer
    }
}

// No errands, with room for as many as a thread has out at once; without memory for that there is none.
fn no_errands<B: FabricName, N: ControlName>(alloc: Global) -> Vec<Errand<B, N>>
    ensures { vec_len result ≡ 0 }
{
    match Vec::with_capacity(alloc, MOST_TICKETS) {
        Ok(errands) => errands,
        Err(_) => Vec::new(alloc),
    }
}

// A thread publishes what errands are for, up to the first for which there is no memory.
fn publish_all<B: FabricName, N: ControlName, R: Wait, G: TurnGate>(
    rt: &R,
    thread: u8,
    errands: &mut Vec<Errand<B, N>>,
    gate: &G,
) -> Result<(), NoMemory>
    ensures same { vec_len errands.new ≡ vec_len errands.old }
    ensures cause { OnErr result (IsTurnRefused N.opened N.asked OutOfMemory) }
{
    for errand in errands.as_mut_slice() {
        if !errand.is_published() {
            gate.publishing(thread, errand.router());
            errand.publish(rt)?;
        }
    }
    Ok(())
}

// Whether a ticket was handed back to one of these holders.
fn has_lost_ticket<N: ControlName>(shares: &[Share<N>]) -> bool
    ensures kept { result ≡ false → KeptTickets shares.now }
    ensures cause { IsTrue result → IsTurnRefused N.opened N.asked WithWrongTicket }
{
    for place in 0..shares.len() {
        if shares[place].has_lost_ticket() {
            return true;
        }
    }
    false
}
