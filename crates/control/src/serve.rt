//! Threads that take turns.

ghost use Rattle.std.specs.Prelude.{◌≡◌, ◌+◌, ◌<◌, ◌≤◌, true, nat_lt, if◌then◌else◌, Some, None, IfErr, OnOk, vec_len};
ghost use Rattle.network_model.specs.Network.{most_routers};
ghost use Rattle.guarded.specs.Served.{IsTurnRefused};
ghost use Rattle.guarded.specs.Shares.{AreUnrefused, HasServed, HaveServed, IsBack, IsHolder, OweAsBefore};

use crate::control::Control;
use guarded::{ControlName, Share};
use network_model::Refusal;
use publication::FabricName;
use std::sync::Wait;
use std::sync::atomic::{AtomicBool, Ordering};
use std::thread;
use std::thread::Threads;

/// What a thread that serves calls before and after each of its turns, and once a turn has a ticket,
/// before it publishes, while it has no lock. Threads are numbered as their shares, and each counts its
/// turns from 1; the count stays at the greatest. A thread of those that settle together takes many turns
/// under one lock: it calls `before` and `after` for each such pass, and counts these.
pub trait TurnGate {
    fn before(&self, thread: u8, turn: u64);

    fn publishing(&self, thread: u8, router: u16);

    fn after(&self, thread: u8, turn: u64);
}

/// A gate that is always open.
pub struct NoGate;

impl TurnGate for NoGate {
    fn before(&self, _thread: u8, _turn: u64) {}

    fn publishing(&self, _thread: u8, _router: u16) {}

    fn after(&self, _thread: u8, _turn: u64) {}
}

impl<B: FabricName + Send + Sync, N: ControlName + Send + Sync> Control<B, N> {
    /// Lets a thread for each of the n shares serve: thread t serves the routers whose number modulo n
    /// is t, one turn each, in ascending cyclic order, until it finds the fabric settled. One without
    /// routers returns at once. Where a step is refused, each thread stops after its present turn, and
    /// the refusal of the lowest such thread is answered. No thread leaves a writer out, unless its ticket
    /// was handed back (`WrongTicket`), which does not happen.
    pub fn serve<R: Threads + Wait + Sync, G: TurnGate + Sync>(
        &self,
        rt: &R,
        shares: &mut Vec<Share<N>>,
        gate: &G,
    ) -> Result<(), Refusal>
        requires some { 0 < vec_len shares.old }
        ensures len { vec_len shares.new ≡ vec_len shares.old }
        ensures same { HaveServed shares.old.items shares.new.items }
        ensures back { OnOk result (OweAsBefore shares.old.items shares.new.items) }
        ensures err { IfErr result (IsTurnRefused N.opened N.asked) }
    {
        self.serve_each(rt, shares, gate);
        first_refusal(shares.as_slice())
    }

    fn serve_each<R: Threads + Wait + Sync, G: TurnGate + Sync>(
        &self,
        rt: &R,
        shares: &mut Vec<Share<N>>,
        gate: &G,
    )
        requires some { 0 < vec_len shares.old }
        ensures { HaveServed shares.old.items shares.new.items }
    {
        let stop = AtomicBool::new(false);
        let threads = shares.len();
        thread::for_each_mut(
            rt,
            shares.as_mut_slice(),
            threads,
            &|place, share| self.serve_one(rt, threads, place, share, gate, &stop),
        );
    }

    fn rota<R: Wait>(&self, rt: &R, threads: usize) -> Rota
        ensures { (result.threads ≡ threads) × (result.routers ≡ (N.opened.network).routers) }
    {
        let routers = self.routers(rt);
        Rota { threads, routers }
    }

    // The turns of the thread that has the share at this place, which then has their refusal, if any.
    fn serve_one<R: Wait, G: TurnGate>(
        &self,
        rt: &R,
        threads: usize,
        place: usize,
        share: &mut Share<N>,
        gate: &G,
        stop: &AtomicBool,
    )
        ensures { HasServed share.old share.new }
    {
        let done = self.take_turns(rt, threads, place, share, gate, stop);
        if done.is_err() {
            stop.store(true, Ordering::SeqCst);
        }
        share.end(done);
    }

    fn take_turns<R: Wait, G: TurnGate>(
        &self,
        rt: &R,
        threads: usize,
        place: usize,
        share: &mut Share<N>,
        gate: &G,
        stop: &AtomicBool,
    ) -> Result<(), Refusal>
        ensures err { IfErr result (IsTurnRefused N.opened N.asked) }
        ensures holder { IsHolder share.old share.new }
        ensures back { IsBack share.old share.new result }
    {
        let rota = self.rota(rt, threads);
        let Some(lowest) = rota.first(place) else {
            return Ok(());
        };
        // There are at most 16 shares.
        let thread = u8::try_from(place).unwrap_or(u8::MAX);
        let mut router = lowest;
        let mut turn: u64 = 1;
        let mut settled = self.is_settled(rt);
        for _ in rt.forever() {
            if settled || stop.load(Ordering::SeqCst) {
                break;
            }
            gate.before(thread, turn);
            let done = self.turn_with(rt, router, share, thread, gate);
            gate.after(thread, turn);
            settled = self.is_settled(rt);
            turn = turn.saturating_add(1);
            match done {
                Ok(_) => router = rota.next(lowest, router),
                Err(refusal) => return Err(refusal),
            }
        }
        Ok(())
    }
}

/// The refusal of the first holder whose last serving ended with one.
pub(crate) fn first_refusal<N: ControlName>(shares: &[Share<N>]) -> Result<(), Refusal>
    ensures err { IfErr result (IsTurnRefused N.opened N.asked) }
    ensures none { OnOk result (AreUnrefused shares.now) }
{
    for place in 0..shares.len() {
        match shares[place].halt() {
            None => {}
            Some(refusal) => return Err(refusal),
        }
    }
    Ok(())
}

// How the routers of a network are dealt out to threads.
#[derive(Clone, Copy)]
struct Rota {
    threads: usize,
    routers: usize,
    ghost few: { routers ≤ most_routers },
}

impl Rota {
    // The lowest router of a thread, which has the thread's number, if it has one.
    fn first(self, thread: usize) -> Option<u16>
        ensures { result ≡ (if nat_lt thread self.routers then Some thread else None) }
    {
        if thread < self.routers {
            Some(thread as u16)
        } else {
            None
        }
    }

    // The thread's router after this one; after its greatest, its lowest.
    fn next(self, lowest: u16, router: u16) -> u16
        ensures { result ≡ (if nat_lt (router + self.threads) self.routers then router + self.threads else lowest) }
    {
        let router = usize::from(router);
        if self.threads < self.routers && router + self.threads < self.routers {
            (router + self.threads) as u16
        } else {
            lowest
        }
    }
}
