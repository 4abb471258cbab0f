//! Turns let the lock go while they publish, and threads that settle publish side by side.

ghost use Rattle.std.specs.Prelude.{◌≡◌, ◌<◌, true, vec_len};

use crate::controls::{UP, serves_after};
use crate::equal_to::{equal, holds};
use control::{Control, ControlName, Crew, NO_THRESHOLDS, Share, Step, TurnGate, settle};
use fabric::Fabric;
use network_model::Cost;
use publication::FabricName;
use std::alloc::Global;
use std::process::Abort;
use std::sync::Wait;
use std::sync::atomic::{AtomicU64, Ordering};
use std::thread::Threads;
use std::time::Clock;
use test_support::{gets_to, ten};

// Router 0 publishes once thread 1 has begun and ended a turn since router 0 had its ticket.
#[derive(Drop)]
struct Outside<'a, H> {
    rt: &'a H,
    begun: AtomicU64,
    ended: AtomicU64,
    met: AtomicU64,
    missed: AtomicU64,
}

impl<H: Clock> TurnGate for Outside<'_, H> {
    fn before(&self, thread: u8, _turn: u64) {
        if thread == 1 {
            self.begun.fetch_add(1, Ordering::SeqCst);
        }
    }

    fn publishing(&self, _thread: u8, router: u16) {
        if router == 0 {
            let since = self.begun.load(Ordering::SeqCst);
            if gets_to(self.rt, &self.ended, since.saturating_add(1)) {
                self.met.fetch_add(1, Ordering::SeqCst);
            } else {
                self.missed.fetch_add(1, Ordering::SeqCst);
            }
        }
    }

    fn after(&self, thread: u8, _turn: u64) {
        if thread == 1 {
            self.ended.fetch_add(1, Ordering::SeqCst);
        }
    }
}

// Router 0's publication waits for turns of the other thread, which get the lock meanwhile.
pub(crate) fn publish_outside<B, N, H>(rt: &H, control: &Control<B, N>, shares: &mut Vec<Share<N>>)
where
    B: FabricName + Send + Sync,
    N: ControlName + Send + Sync,
    H: Threads + Wait + Abort + Clock + Sync,
    requires some { 0 < vec_len shares.old }
    requires asked { (s : Step) → N.asked s ≡ true }
    ensures { vec_len shares.new ≡ vec_len shares.old }
{
    let gate = Outside {
        rt,
        begun: AtomicU64::new(0),
        ended: AtomicU64::new(0),
        met: AtomicU64::new(0),
        missed: AtomicU64::new(0),
    };
    serves_after(rt, control, shares, UP, &gate);
    let missed = gate.missed.load(Ordering::SeqCst);
    equal(rt, (gate.met.load(Ordering::SeqCst), missed), (1, 0));
}

// Each of two threads that settle waits, before it publishes, until the other is to publish too.
#[derive(Drop)]
struct SideBySide<'a, H> {
    rt: &'a H,
    // How often each was to publish, and how often one waited in vain.
    first: AtomicU64,
    second: AtomicU64,
    missed: AtomicU64,
}

impl<H: Clock> TurnGate for SideBySide<'_, H> {
    fn before(&self, _thread: u8, _turn: u64) {}

    fn publishing(&self, thread: u8, _router: u16) {
        let (own, other) = if thread == 0 {
            (&self.first, &self.second)
        } else {
            (&self.second, &self.first)
        };
        own.fetch_add(1, Ordering::SeqCst);
        if !gets_to(self.rt, other, 1) {
            self.missed.fetch_add(1, Ordering::SeqCst);
        }
    }

    fn after(&self, _thread: u8, _turn: u64) {}
}

// Two threads settle it, and both publish: router 1 is attached too, so that both routers have a report to
// publish at once.
pub(crate) fn settle_side_by_side<B, H>(rt: &H, alloc: Global, fabric: Fabric<B>) -> Fabric<B>
where
    B: FabricName + Send + Sync,
    H: Threads + Wait + Abort + Clock + Sync,
{
    let mut fabric = fabric;
    let attached = Step::Attach {
        router: 1,
        prefix: ten(),
        cost: Cost::ONE,
    };
    fabric.step(rt, attached).expect(rt, "step");
    fabric.step(rt, UP).expect(rt, "step");
    let gate = SideBySide {
        rt,
        first: AtomicU64::new(0),
        second: AtomicU64::new(0),
        missed: AtomicU64::new(0),
    };
    let crew = Crew {
        threads: 2,
        thresholds: NO_THRESHOLDS,
    };
    settle(rt, alloc, &mut fabric, crew, &gate, &mut ()).expect(rt, "turns");
    holds(rt, gate.first.load(Ordering::SeqCst) > 0);
    holds(rt, gate.second.load(Ordering::SeqCst) > 0);
    equal(rt, gate.missed.load(Ordering::SeqCst), 0);
    let end = (fabric.is_settled(), fabric.missed_turns());
    equal(rt, end, (true, 0));
    fabric
}
