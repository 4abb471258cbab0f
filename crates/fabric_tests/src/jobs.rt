//! Jobs that a port answers: one while a turn waits, and one once nothing is left to do.

ghost use Rattle.std.specs.Prelude.{◌≡◌, ◌<◌, true, length, vec_len};

use crate::controls::{Trial, UP, two};
use crate::equal_to::{equal, holds};
use crate::fabrics::{by, way};
use control::{Control, ControlName, Share, Step, TurnGate};
use forwarder::{Answer, ForwardPort, ImageReader};
use network_model::Entry;
use publication::FabricName;
use std::alloc::Global;
use std::process::Abort;
use std::sync::Wait;
use std::sync::atomic::{AtomicU64, Ordering};
use std::thread;
use std::thread::Threads;
use std::time::Clock;
use test_support::gets_to;

// 10.0.0.1
const ADDR: u32 = 0x0A00_0001;

// The first turn waits until a port has answered a job.
#[derive(Drop)]
struct Waiting<'a, H> {
    rt: &'a H,
    begun: AtomicU64,
    answered: AtomicU64,
    missed: AtomicU64,
}

impl<H: Clock> TurnGate for Waiting<'_, H> {
    fn before(&self, _thread: u8, turn: u64) {
        if turn == 1 {
            self.begun.store(1, Ordering::SeqCst);
            if !gets_to(self.rt, &self.answered, 1) {
                self.missed.fetch_add(1, Ordering::SeqCst);
            }
        }
    }

    fn publishing(&self, _thread: u8, _router: u16) {}

    fn after(&self, _thread: u8, _turn: u64) {}
}

// The job of this number, at this router, is told of the list in force, and a port answers it so.
fn answers<B, N, R>(
    rt: &R,
    control: &Control<B, N>,
    port: &mut ForwardPort<B>,
    number: u64,
    router: u16,
    wanted: Answer,
)
where
    B: FabricName,
    N: ControlName,
    R: Wait + Abort,
{
    let job = control.job(rt, number, router, ADDR).expect(rt, "job");
    let reply = port.answer(&job).expect(rt, "answer");
    let answer = (job.generation(), reply.answer());
    equal(rt, answer, (wanted.generation, wanted));
}

// Does that at router 0, by its opening table, once the first turn has begun, and lets the turn go on.
fn answer_first<B, N, H>(
    rt: &H,
    control: &Control<B, N>,
    port: &mut ForwardPort<B>,
    gate: &Waiting<'_, H>,
)
where
    B: FabricName,
    N: ControlName,
    H: Wait + Clock + Abort,
{
    holds(rt, gets_to(rt, &gate.begun, 1));
    answers(rt, control, port, 1, 0, by(0, Entry::Local));
    gate.answered.store(1, Ordering::SeqCst);
}

// Serves with these shares. What calls it, a closure, knows of none that there is one.
fn serve<B, N, H>(
    rt: &H,
    control: &Control<B, N>,
    shares: Vec<Share<N>>,
    gate: &Waiting<'_, H>,
) -> Vec<Share<N>>
where
    B: FabricName + Send + Sync,
    N: ControlName + Send + Sync,
    H: Threads + Wait + Clock + Sync + Abort,
    ensures { vec_len result ≡ vec_len shares }
{
    let mut shares = shares;
    if !shares.is_empty() {
        control.serve(rt, &mut shares, gate).expect(rt, "turns");
    }
    shares
}

// Serves with these shares, and answers a job meanwhile.
fn serve_and_answer<B, N, H>(
    rt: &H,
    control: &Control<B, N>,
    shares: Vec<Share<N>>,
    port: &mut ForwardPort<B>,
    gate: &Waiting<'_, H>,
) -> Vec<Share<N>>
where
    B: FabricName + Send + Sync,
    N: ControlName + Send + Sync,
    H: Threads + Wait + Abort + Clock + Sync,
    ensures { vec_len result ≡ vec_len shares }
{
    let (shares, ()) = thread::join(
        rt,
        || { serve(rt, control, shares, gate) },
        || answer_first(rt, control, port, gate),
    );
    shares
}

// The attached router answers by its opening table, and the other router by the first that it published.
pub(crate) fn gives_jobs<B, N, H>(
    rt: &H,
    control: &Control<B, N>,
    mut shares: Vec<Share<N>>,
    port: &mut ForwardPort<B>,
) -> Vec<Share<N>>
where
    B: FabricName + Send + Sync,
    N: ControlName + Send + Sync,
    H: Threads + Wait + Abort + Clock + Sync,
    requires some { 0 < vec_len shares }
    requires asked { (s : Step) → N.asked s ≡ true }
    ensures { vec_len result ≡ vec_len shares }
{
    control.step(rt, UP, &mut shares[0]).expect(rt, "step");
    let gate = Waiting {
        rt,
        begun: AtomicU64::new(0),
        answered: AtomicU64::new(0),
        missed: AtomicU64::new(0),
    };
    let shares = serve_and_answer(rt, control, shares, port, &gate);
    equal(rt, gate.missed.load(Ordering::SeqCst), 0);
    answers(rt, control, port, 2, 1, way());
    shares
}

// The port of the readers of two routers.
pub(crate) fn port<B: FabricName>(
    rt: &impl Abort,
    alloc: Global,
    mut ports: Vec<Vec<ImageReader<B>>>,
) -> ForwardPort<B>
    requires { length B.books ≡ 2 }
{
    let mut readers = ports.pop().expect(rt, "port");
    let second = readers.pop().expect(rt, "reader");
    port_of(rt, alloc, readers.pop().expect(rt, "reader"), second)
}

fn port_of<B: FabricName>(
    rt: &impl Abort,
    alloc: Global,
    first: ImageReader<B>,
    second: ImageReader<B>,
) -> ForwardPort<B>
    requires { length B.books ≡ 2 }
{
    holds(rt, first.view().router() == 0);
    holds(rt, second.view().router() == 1);
    ForwardPort::new(vec![in alloc; first, second].expect(rt, "memory"))
}

#[test]
fn job_while_a_turn_waits(rt: HostRuntime) {
    two(&rt, rt.alloc(), 1, Trial::GivesJobs);
}
