//! Many turns under one lock, and publications between two of them.

ghost use Rattle.std.specs.Prelude.{◌≡◌, ◌<◌, ◌≤◌, ◌+◌, ◌⊎◌, IfErr, OnOk, MatchResult, Some, vec_len};
ghost use Rattle.network_model.specs.declared.step.Refusal.TheVariants.{WrongTicket as WithWrongTicket};
ghost use Rattle.fabric.specs.Fabric.{next_fabric_step as next_turn};
ghost use Rattle.guarded.specs.{Served.IsTurnRefused, Shares.IsHolder, Shares.owes};

use crate::errand::Errand;
use crate::guarded::Guarded;
use crate::name::ControlName;
use crate::share::Share;
use crate::thresholds::Thresholds;
use fabric::Fabric;
use network_model::{Refusal, Step};
use publication::FabricName;
use std::sync::Wait;

/// The most tickets that a thread has out at once.
pub const MOST_TICKETS: usize = 64;

// The most turns of a pass, after which another thread may have the lock.
const MOST_TURNS: usize = 1024;

/// How far a pass has come.
#[derive(Clone, Copy)]
pub struct Pass {
    /// The router with which the next pass begins.
    pub router: u16,
    /// How many rows are to be published by the tickets that it took, one at least by each.
    pub rows: usize,
    /// Whether nothing is left to do.
    pub settled: bool,
}

impl<B: FabricName, N: ControlName> Guarded<B, N> {
    /// Takes all errands back. Then routers that may have something to do take turns, from this one on in
    /// ascending cyclic order; large publications among them are left to errands, as far as there is room
    /// for these, until there is enough to publish outside the lock. Refused, as the first turn that is
    /// refused.
    pub fn pass<R: Wait>(
        &mut self,
        rt: &R,
        router: u16,
        thresholds: Thresholds,
        share: &mut Share<N>,
        errands: &mut Vec<Errand<B, N>>,
    ) -> Result<Pass, Refusal>
        requires covered { vec_len errands.old ≤ owes share.old }
        ensures covered { vec_len errands.new ≤ owes share.new }
        ensures back { MatchResult result
            (λ _. owes share.new + vec_len errands.old ≡ owes share.old + vec_len errands.new)
            (λ e. (e ≡ WithWrongTicket)
            ⊎ (owes share.new + vec_len errands.old ≡ owes share.old + vec_len errands.new)) }
        ensures err { IfErr result (IsTurnRefused N.opened N.asked) }
        ensures holder { IsHolder share.old share.new }
    {
        self.take_back(rt, share, errands)?;
        let mut pass = Pass {
            router,
            rows: 0,
            settled: false,
        };
        for _ in 0..MOST_TURNS {
            if thresholds.calls(pass.rows) || self.is_settled() {
                break;
            }
            let Some((router, step)) = self.turn_from(pass.router) else {
                break;
            };
            let rows = self.turn(rt, router, step, thresholds, share, errands)?;
            pass.rows = pass.rows.saturating_add(rows);
            pass.router = router.wrapping_add(1);
        }
        pass.settled = self.is_settled();
        Ok(pass)
    }

    // A turn of a router, which has this to do next. Of a publication that is left to an errand it tells how many
    // rows it counts as.
    fn turn<R: Wait>(
        &mut self,
        rt: &R,
        router: u16,
        step: Step,
        thresholds: Thresholds,
        share: &mut Share<N>,
        errands: &mut Vec<Errand<B, N>>,
    ) -> Result<usize, Refusal>
        requires next { next_turn self.old router ≡ Some step }
        ensures back { owes share.new + vec_len errands.old ≡ owes share.old + vec_len errands.new }
        ensures err { IfErr result (IsTurnRefused N.opened N.asked) }
        ensures holder { IsHolder share.old share.new }
    {
        if usize::from(router) >= self.routers() {
            return Ok(0);
        }
        let rows = match step {
            Step::Publish { router: _ } => rows_due(&self.fabric, router),
            _ => 0,
        };
        let lends = errands.len() < errands.capacity() && thresholds.lends(rows);
        let (done, errand) = self.take_turn(rt, router, step, lends, share);
        if let Some(errand) = errand {
            errands.push_reserved(errand);
            return Ok(rows.max(1));
        }
        match done {
            Ok(_) => Ok(0),
            Err(refusal) => Err(refusal),
        }
    }

    // Takes errands back. The writer of one that is refused, which does not happen, is ended.
    fn take_back<R: Wait>(
        &mut self,
        rt: &R,
        share: &mut Share<N>,
        errands: &mut Vec<Errand<B, N>>,
    ) -> Result<(), Refusal>
        requires covered { vec_len errands.old ≤ owes share.old }
        ensures covered { vec_len errands.new ≤ owes share.new }
        ensures back { OnOk result (owes share.new + vec_len errands.old ≡ owes share.old) }
        ensures empty { OnOk result (vec_len errands.new ≡ 0) }
        ensures lost { IfErr result (λ e. e ≡ WithWrongTicket) }
        ensures err { IfErr result (IsTurnRefused N.opened N.asked) }
        ensures holder { IsHolder share.old share.new }
    {
        while let Some(errand) = errands.pop() {
            if let Err(ticket) = self.finish(errand, share) {
                ticket.close(rt);
                return Err(Refusal::WrongTicket);
            }
        }
        Ok(())
    }
}

/// How many rows a router has chosen and not published.
pub fn rows_due<B: FabricName>(fabric: &Fabric<B>, router: u16) -> usize {
    match fabric.table(router) {
        Ok(table) => table.changed().count(),
        Err(_) => 0,
    }
}
