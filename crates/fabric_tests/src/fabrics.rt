//! Fabrics of two routers: their steps, their images, and those who look up in them.

ghost use Rattle.std.specs.Prelude.{◌≡◌, vec_len};
ghost use Rattle.fabric.specs.Writers.{opening_tables};

use crate::equal_to::equal;
use crate::tickets::lends;
use fabric::{Answer, Entry, Fabric, FabricName, ImageReader, Network, Refusal, Step, Unnamed};
use std::alloc::Global;
use std::marker::Brand;
use std::process::Abort;
use std::sync::Wait;
use test_support::{ten, two_routers};

// The steps by which router 1 learns the way of router 0, and publishes it.
pub const LEARNS: [Step; 7] = [
    Step::LinkUp { link: 0 },
    Step::Deliver { router: 0, port: 0 },
    Step::Deliver { router: 1, port: 0 },
    Step::Publish { router: 0 },
    Step::Release { router: 0 },
    Step::Deliver { router: 1, port: 0 },
    Step::Publish { router: 1 },
];

// An address of that prefix.
const ADDR: u32 = 0x0A01_0203;

// What is done with the fabric of a network.
#[derive(Clone, Copy)]
pub(crate) enum Trial {
    LendsAWriter,
    PublishesTheWay,
    AnswersByWhatIsInForce,
    StopsAtARefusedStep,
    TellsItsReaders,
}

// Opens it, with readers for two workers, does this, and closes it.
fn opened<B: FabricName, H: Wait + Abort>(
    rt: &H,
    alloc: Global,
    network: Network,
    unnamed: Vec<Unnamed>,
    trial: Trial,
)
    requires books { unnamed.items ≡ B.books }
    requires each { vec_len unnamed ≡ network.routers }
    requires openings { opening_tables network ≡ B.openings }
{
    let Ok((mut fabric, mut ports)) = Fabric::<B>::open(rt, alloc, network, unnamed, 2) else {
        panic!(rt; "open");
    };
    match trial {
        Trial::LendsAWriter => lends(rt, alloc, &mut fabric),
        Trial::PublishesTheWay => publishes(rt, &mut fabric),
        Trial::AnswersByWhatIsInForce => answers(rt, &mut fabric),
        Trial::StopsAtARefusedStep => stops(rt, &mut fabric),
        Trial::TellsItsReaders => tells(rt, &mut fabric, ports.pop()),
    }
    fabric.close(rt);
}

pub(crate) fn two<H: Wait + Abort>(rt: &H, alloc: Global, trial: Trial) {
    within(rt, alloc, two_routers(alloc).expect(rt, "network"), trial);
}

pub(crate) fn within<H: Wait + Abort>(rt: &H, alloc: Global, network: Network, trial: Trial) {
    let unnamed = Unnamed::many(alloc, network.routers()).expect(rt, "memory");
    opened::<Brand, H>(rt, alloc, network, unnamed, trial);
}

// What an address of that prefix answers, and by which row.
pub(crate) fn by(generation: u64, entry: Entry) -> Answer {
    Answer {
        generation,
        matched: Some((ten(), entry)),
    }
}

// What router 1 answers, once it has learned the way.
pub(crate) fn way() -> Answer {
    let (port, session) = (0, 1);
    by(1, Entry::Via { port, session })
}

// Runs these steps, so many of them up to this refusal.
fn runs<B: FabricName, H: Wait + Abort>(
    rt: &H,
    fabric: &mut Fabric<B>,
    steps: &[Step],
    wanted: (usize, Option<Refusal>),
) {
    let ran = fabric.run(rt, steps);
    equal(rt, (ran.done, ran.refusal), wanted);
}

// A look-up of the address at a router is answered so.
fn looks_up<B: FabricName>(
    rt: &impl Abort,
    fabric: &mut Fabric<B>,
    router: u16,
    wanted: Result<Answer, Refusal>,
) {
    equal(rt, fabric.lookup(router, ADDR), wanted);
}

fn publishes<B: FabricName, H: Wait + Abort>(rt: &H, fabric: &mut Fabric<B>) {
    runs(rt, fabric, &LEARNS, (7, None));
    equal(rt, fabric.journal(), LEARNS.as_slice());
    looks_up(rt, fabric, 1, Ok(way()));
    let table = fabric.table(1).expect(rt, "table");
    equal(rt, table.published_rows().next(), way().matched);
}

#[test]
fn a_way_that_is_published_is_in_force(rt: HostRuntime) {
    two(&rt, rt.alloc(), Trial::PublishesTheWay);
}

const NOTHING: Answer = Answer {
    generation: 0,
    matched: None,
};

fn answers<B: FabricName, H: Wait + Abort>(rt: &H, fabric: &mut Fabric<B>) {
    runs(rt, fabric, &LEARNS[..6], (6, None));
    looks_up(rt, fabric, 1, Ok(NOTHING));
    looks_up(rt, fabric, 2, Err(Refusal::UnknownRouter));
}

#[test]
fn answers_by_what_is_in_force(rt: HostRuntime) {
    two(&rt, rt.alloc(), Trial::AnswersByWhatIsInForce);
}

const STOPS: [Step; 3] = [
    Step::LinkUp { link: 0 },
    Step::Release { router: 0 },
    Step::LinkDown { link: 0 },
];

fn stops<B: FabricName, H: Wait + Abort>(rt: &H, fabric: &mut Fabric<B>) {
    runs(rt, fabric, &STOPS, (1, Some(Refusal::NothingRipe)));
    equal(rt, fabric.journal().len(), 1);
    for (step, refusal) in [
        (Step::LinkUp { link: 0 }, Refusal::AlreadyUp),
        (Step::Publish { router: 7 }, Refusal::UnknownRouter),
        (Step::Publish { router: 1 }, Refusal::NothingDue),
    ] {
        equal(rt, fabric.step(rt, step), Err(refusal));
    }
}

#[test]
fn stops_at_a_refused_step(rt: HostRuntime) {
    two(&rt, rt.alloc(), Trial::StopsAtARefusedStep);
}

// A worker's reader answers a job in the image that was in force when the job was made.
fn tells<B: FabricName, H: Wait + Abort>(
    rt: &H,
    fabric: &mut Fabric<B>,
    port: Option<Vec<ImageReader<B>>>,
) {
    let mut port = port.expect(rt, "port");
    equal(rt, port.len(), 2);
    has_job(rt, fabric, 0);
    runs(rt, fabric, &LEARNS, (7, None));
    has_job(rt, fabric, 1);
    let unknown = fabric.job(3, 2, ADDR).err();
    equal(rt, unknown, Some(Refusal::UnknownRouter));
    let mut second = port.pop().expect(rt, "reader");
    equal(rt, second.lookup(ADDR), Ok(way()));
}

// A job at router 1 is told of the list of this generation.
fn has_job<B: FabricName>(rt: &impl Abort, fabric: &Fabric<B>, generation: u64) {
    let job = fabric.job(1, 1, ADDR).expect(rt, "job");
    equal(rt, (job.router(), job.generation()), (1, generation));
}

#[test]
fn readers_answer_as_the_fabric_told_them(rt: HostRuntime) {
    two(&rt, rt.alloc(), Trial::TellsItsReaders);
}
