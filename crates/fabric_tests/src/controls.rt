//! Networks of two routers under a lock: steps, turns, and threads that serve.

ghost use Rattle.std.specs.Prelude.{◌≡◌, ◌≤◌, ◌<◌, true, vec_len};
ghost use Rattle.fabric.specs.{Fabric.count_lent, Writers.opening_tables};
ghost use Rattle.guarded.specs.Names.{IsNamed};

use crate::equal_to::{equal, holds};
use crate::jobs::{gives_jobs, port};
use crate::outside::{publish_outside, settle_side_by_side};
use control::{Control, ControlName, Opening, Refusal, Share, Step, TurnGate};
use fabric::{Fabric, MOST_STEPS, Network, Unnamed};
use forwarder::ForwardPort;
use network_model::Cost;
use publication::FabricName;
use std::alloc::Global;
use std::marker::Brand;
use std::process::Abort;
use std::sync::Wait;
use std::sync::atomic::{AtomicU64, Ordering};
use std::thread::Threads;
use std::time::Clock;
use test_support::{gets_to, two_routers};

pub(crate) const UP: Step = Step::LinkUp { link: 0 };

const DOWN: Step = Step::LinkDown { link: 0 };

// An address of that prefix.
const ADDR: u32 = 0x0A01_0203;

// What is done with the fabric of that network.
#[derive(Clone, Copy)]
pub(crate) enum Trial {
    ByHand,
    GivesJobs,
    Meets,
    Serves,
    IsRefused { router: u16 },
    PublishOutside,
    Settles,
}

pub(crate) fn two<H>(rt: &H, alloc: Global, shares: u8, trial: Trial)
where
    H: Threads + Wait + Abort + Clock + Sync,
    requires { 0 < shares }
{
    let network = two_routers(alloc).expect(rt, "network");
    let unnamed = Unnamed::many(alloc, network.routers()).expect(rt, "memory");
    opened::<Brand, H>(rt, alloc, network, unnamed, shares, trial);
}

// Opens it, does this, and closes it.
fn opened<B, H>(
    rt: &H,
    alloc: Global,
    network: Network,
    unnamed: Vec<Unnamed>,
    shares: u8,
    trial: Trial,
)
where
    B: FabricName + Send + Sync,
    H: Threads + Wait + Abort + Clock + Sync,
    requires books { unnamed.items ≡ B.books }
    requires each { vec_len unnamed ≡ network.routers }
    requires openings { opening_tables network ≡ B.openings }
    requires some { 0 < shares }
{
    holds(rt, unnamed.len() == 2);
    let Ok((fabric, ports)) = Fabric::<B>::open(rt, alloc, network, unnamed, 1) else {
        panic!(rt; "open");
    };
    let mut port = port(rt, alloc, ports);
    let fabric = match trial {
        Trial::Settles => settle_side_by_side(rt, alloc, fabric),
        _ => controlled::<B, Brand, H>(rt, alloc, Opening::new(shares), fabric, &mut port, trial),
    };
    fabric.close(rt);
}

// Puts it under a lock, does this, and takes it out. The shares add up to the journal's sum.
fn controlled<B, N, H>(
    rt: &H,
    alloc: Global,
    opening: Opening,
    fabric: Fabric<B>,
    port: &mut ForwardPort<B>,
    trial: Trial,
) -> Fabric<B>
where
    B: FabricName + Send + Sync,
    N: ControlName + Send + Sync,
    H: Threads + Wait + Abort + Clock + Sync,
    requires names { IsNamed opening N.high N.low N.out N.shares }
    requires lent { count_lent fabric.lent ≤ N.lent }
    requires some { 0 < opening.shares }
    requires opened { fabric ≡ N.opened }
    requires asked { (s : Step) → N.asked s ≡ true }
{
    match Control::<B, N>::new(alloc, opening, fabric) {
        Ok((control, shares)) => {
            let shares = tried(rt, &control, shares, port, trial);
            let sum = sum_of(&shares);
            let fabric = control.close(shares);
            equal(rt, fabric.sum(), sum);
            fabric
        }
        Err(fabric) => {
            fabric.close(rt);
            panic!(rt; "memory")
        }
    }
}

fn sum_of<N: ControlName>(shares: &[Share<N>]) -> u128 {
    let mut sum: u128 = 0;
    for share in shares {
        sum = sum.wrapping_add(share.sum());
    }
    sum
}

fn tried<B, N, H>(
    rt: &H,
    control: &Control<B, N>,
    mut shares: Vec<Share<N>>,
    port: &mut ForwardPort<B>,
    trial: Trial,
) -> Vec<Share<N>>
where
    B: FabricName + Send + Sync,
    N: ControlName + Send + Sync,
    H: Threads + Wait + Abort + Clock + Sync,
    requires some { 0 < vec_len shares }
    requires asked { (s : Step) → N.asked s ≡ true }
    ensures { vec_len result ≡ vec_len shares }
{
    match trial {
        Trial::GivesJobs => return gives_jobs(rt, control, shares, port),
        Trial::ByHand => by_hand(rt, control, &mut shares[0]),
        Trial::Meets => meets(rt, control, &mut shares),
        Trial::PublishOutside => publish_outside(rt, control, &mut shares),
        Trial::IsRefused { router } => is_refused(rt, control, &mut shares, router),
        _ => serves(rt, control, &mut shares),
    }
    shares
}

// ---- one thread

fn steps<B: FabricName, N: ControlName, H: Wait + Abort>(
    rt: &H,
    control: &Control<B, N>,
    share: &mut Share<N>,
    step: Step,
    wanted: Result<(), Refusal>,
)
    requires asked { (s : Step) → N.asked s ≡ true }
{
    equal(rt, control.step(rt, step, share), wanted);
}

fn turns<B: FabricName, N: ControlName, H: Wait + Abort>(
    rt: &H,
    control: &Control<B, N>,
    share: &mut Share<N>,
    router: u16,
    wanted: Result<Option<Step>, Refusal>,
)
    requires asked { (s : Step) → N.asked s ≡ true }
{
    equal(rt, control.turn(rt, router, share), wanted);
}

fn has_sum<N: ControlName>(rt: &impl Abort, share: &Share<N>, sum: u128) {
    equal(rt, share.sum(), sum);
}

fn by_hand<B: FabricName, N: ControlName, H: Wait + Abort>(
    rt: &H,
    control: &Control<B, N>,
    share: &mut Share<N>,
)
    requires asked { (s : Step) → N.asked s ≡ true }
{
    let deliver = Step::Deliver { router: 1, port: 0 };
    let (up, delivered) = (UP.number(), UP.number() + deliver.number());
    equal(rt, (share.number(), control.is_settled(rt)), (0, true));
    has_sum(rt, share, 0);
    turns(rt, control, share, 0, Ok(None));
    steps(rt, control, share, UP, Ok(()));
    has_sum(rt, share, up);
    holds(rt, !control.is_settled(rt));
    steps(rt, control, share, UP, Err(Refusal::AlreadyUp));
    turns(rt, control, share, 2, Err(Refusal::UnknownRouter));
    has_sum(rt, share, up);
    turns(rt, control, share, 1, Ok(Some(deliver)));
    has_sum(rt, share, delivered);
    let unknown = control.job(rt, 1, 2, ADDR).err();
    equal(rt, unknown, Some(Refusal::UnknownRouter));
}

#[test]
fn steps_and_turns_by_hand_add_up(rt: HostRuntime) {
    two(&rt, rt.alloc(), 1, Trial::ByHand);
}

// ---- threads that serve

// Lets turns go on as they like.
struct Open;

impl TurnGate for Open {
    fn before(&self, _thread: u8, _turn: u64) {}

    fn publishing(&self, _thread: u8, _router: u16) {}

    fn after(&self, _thread: u8, _turn: u64) {}
}

// The first thread does this step, and then all serve.
pub(crate) fn serves_after<B, N, H, G>(
    rt: &H,
    control: &Control<B, N>,
    shares: &mut Vec<Share<N>>,
    step: Step,
    gate: &G,
)
where
    B: FabricName + Send + Sync,
    N: ControlName + Send + Sync,
    H: Threads + Wait + Abort + Sync,
    G: TurnGate + Sync,
    requires some { 0 < vec_len shares.old }
    requires asked { (s : Step) → N.asked s ≡ true }
    ensures { vec_len shares.new ≡ vec_len shares.old }
{
    control.step(rt, step, &mut shares[0]).expect(rt, "step");
    control.serve(rt, shares, gate).expect(rt, "turns");
    holds(rt, control.is_settled(rt));
}

fn serves<B, N, H>(rt: &H, control: &Control<B, N>, shares: &mut Vec<Share<N>>)
where
    B: FabricName + Send + Sync,
    N: ControlName + Send + Sync,
    H: Threads + Wait + Abort + Sync,
    requires some { 0 < vec_len shares.old }
    requires asked { (s : Step) → N.asked s ≡ true }
    ensures { vec_len shares.new ≡ vec_len shares.old }
{
    serves_after(rt, control, shares, UP, &Open);
    holds(rt, shares[0].sum() > UP.number());
    serves_after(rt, control, shares, DOWN, &Open);
}

#[test]
fn one_thread_serves_until_all_is_settled(rt: HostRuntime) {
    two(&rt, rt.alloc(), 1, Trial::Serves);
}

#[test]
fn two_threads_serve_until_all_is_settled(rt: HostRuntime) {
    two(&rt, rt.alloc(), 2, Trial::Serves);
}

#[test]
fn sixteen_threads_serve_until_all_is_settled(rt: HostRuntime) {
    two(&rt, rt.alloc(), 16, Trial::Serves);
}

fn priced(router: u16, cost: Cost) -> Step {
    Step::SetCost {
        router,
        port: 0,
        cost,
    }
}

// Takes turns until nothing is left to do.
fn settles<B: FabricName, N: ControlName, H: Wait + Abort>(
    rt: &H,
    control: &Control<B, N>,
    share: &mut Share<N>,
)
    requires asked { (s : Step) → N.asked s ≡ true }
{
    steps(rt, control, share, UP, Ok(()));
    for turn in 0..20u16 {
        control.turn(rt, turn % 2, share).expect(rt, "turn");
    }
    holds(rt, control.is_settled(rt));
}

// Fills the journal with the same cost, told again and again, so that this router has something to
// do, and no other.
fn fill<B: FabricName, N: ControlName, H: Wait + Abort>(
    rt: &H,
    control: &Control<B, N>,
    router: u16,
    share: &mut Share<N>,
)
    requires asked { (s : Step) → N.asked s ≡ true }
{
    settles(rt, control, share);
    let cost = Cost::new(5).expect(rt, "cost");
    steps(rt, control, share, priced(router, cost), Ok(()));
    for _ in 0..MOST_STEPS {
        let told = control.step(rt, priced(router, cost), share);
        if told.is_err() || control.turn(rt, router, share).is_err() {
            break;
        }
    }
}

// The thread of this router meets a refusal, and the other has nothing to do.
fn is_refused<B, N, H>(rt: &H, control: &Control<B, N>, shares: &mut Vec<Share<N>>, router: u16)
where
    B: FabricName + Send + Sync,
    N: ControlName + Send + Sync,
    H: Threads + Wait + Abort + Sync,
    requires some { 0 < vec_len shares.old }
    requires asked { (s : Step) → N.asked s ≡ true }
    ensures { vec_len shares.new ≡ vec_len shares.old }
{
    fill(rt, control, router, &mut shares[0]);
    let done = control.serve(rt, shares, &Open);
    equal(rt, done, Err(Refusal::JournalFull));
}

#[test]
fn first_thread_is_refused(rt: HostRuntime) {
    two(&rt, rt.alloc(), 2, Trial::IsRefused { router: 0 });
}

#[test]
fn second_thread_is_refused(rt: HostRuntime) {
    two(&rt, rt.alloc(), 2, Trial::IsRefused { router: 1 });
}

// The first turns of two threads wait for each other.
#[derive(Drop)]
struct Meeting<'a, H> {
    rt: &'a H,
    begun: AtomicU64,
    met: AtomicU64,
}

impl<H: Clock> TurnGate for Meeting<'_, H> {
    fn before(&self, _thread: u8, turn: u64) {
        if turn == 1 {
            self.begun.fetch_add(1, Ordering::SeqCst);
            if gets_to(self.rt, &self.begun, 2) {
                self.met.fetch_add(1, Ordering::SeqCst);
            }
        }
    }

    fn publishing(&self, _thread: u8, _router: u16) {}

    fn after(&self, _thread: u8, _turn: u64) {}
}

fn meets<B, N, H>(rt: &H, control: &Control<B, N>, shares: &mut Vec<Share<N>>)
where
    B: FabricName + Send + Sync,
    N: ControlName + Send + Sync,
    H: Threads + Wait + Abort + Clock + Sync,
    requires some { 0 < vec_len shares.old }
    requires asked { (s : Step) → N.asked s ≡ true }
    ensures { vec_len shares.new ≡ vec_len shares.old }
{
    let gate = Meeting {
        rt,
        begun: AtomicU64::new(0),
        met: AtomicU64::new(0),
    };
    serves_after(rt, control, shares, UP, &gate);
    equal(rt, gate.met.load(Ordering::SeqCst), 2);
}

#[test]
fn two_threads_meet_in_their_turns(rt: HostRuntime) {
    two(&rt, rt.alloc(), 2, Trial::Meets);
}

#[test]
fn two_threads_settle_a_network(rt: HostRuntime) {
    two(&rt, rt.alloc(), 2, Trial::Settles);
}

#[test]
fn two_threads_publish_outside_the_lock(rt: HostRuntime) {
    two(&rt, rt.alloc(), 2, Trial::PublishOutside);
}
