//! A network whose steps are kept: a fabric, with the workers that look up in its images.

ghost use Rattle.std.specs.Prelude.{◌≡◌, ◌≤◌, All, IfErr, MatchResult, OnOk, length, vec_len};
ghost use Rattle.network_model.specs.Network.{most_workers};
ghost use Rattle.fabric.specs.Writers.{IsReaderPort};
ghost use Rattle.lines.specs.Report.{unknown_router};
ghost use Rattle.interpreter.specs.{Dispatching.CannotInject, Dispatching.IsUnanswered, Settling.Settles, Settling.StopsSettling};

use crate::dispatcher::{Dispatcher, ports_of, print_replies};
use crate::host::Host;
use crate::live::Live;
use crate::threaded::{Staff, Threaded};
use control::{Crew, Order, Progress, TurnGate, settle, settle_in_order};
use fabric::{Fabric, FabricName};
use faults::FaultKind;
use lines::{Counts, Printer};
use network_model::{Entry, NoMemory, Prefix, Refusal, Step, Trace};
use publication::ImageReader;
use std::alloc::Global;
use std::io::Write;
use std::marker::Model;
use tracer::{trace, trace_through};
use worker_pool::PoolFault;
use world::{Network, World};

/// A fabric with its workers, and what was counted of its steps. Contracts see the fabric. It is not `Drop`: end it by
/// `close`, so that no worker is left running.
pub struct Kept<B: FabricName, H> {
    staffed: Staffed<B, H>,
    // What was done until they were counted last.
    counted: Counts,
}

impl<B: FabricName, H> Model for Kept<B, H> {
    ghost use Rattle.fabric.specs.Fabric.{Fabric as FabricState};

    ghost Value = { FabricState };

    ghost view = { λ k. k.staffed };
}

/// A fabric with its workers, and the crew by which its routers settle. Contracts see the fabric.
pub struct Staffed<B: FabricName, H> {
    rt: H,
    alloc: Global,
    crew: Crew,
    dispatcher: Dispatcher<B>,
    fabric: Fabric<B>,
}

impl<B: FabricName, H> Model for Staffed<B, H> {
    ghost use Rattle.fabric.specs.Fabric.{Fabric as FabricState};

    ghost Value = { FabricState };

    ghost view = { λ s. s.fabric };
}

impl<B: FabricName, H> Staff for Staffed<B, H> {
    ghost use Rattle.interpreter.specs.Nets.{kept_meaning};

    ghost meaning = { kept_meaning };
}

impl<B, H> Kept<B, H>
where
    B: FabricName + Send + Sync + 'static,
    H: Host,
{
    /// A fabric whose workers look up by these readers. Its routers settle by such a crew.
    pub fn new(
        rt: H,
        alloc: Global,
        crew: Crew,
        fabric: Fabric<B>,
        readers: Vec<Vec<ImageReader<B>>>,
    ) -> Result<Kept<B, H>, (Fabric<B>, NoMemory)>
        requires ports { All (λ port. IsReaderPort (length B.books) port.items) readers.items }
        requires few { vec_len readers ≤ most_workers }
        ensures { MatchResult result (λ k. k ≡ fabric) (λ e. e.0 ≡ fabric) }
    {
        match ports_of(alloc, readers) {
            Ok(ports) => Ok(Kept {
                staffed: Staffed {
                    rt,
                    alloc,
                    crew,
                    dispatcher: Dispatcher::new(ports),
                    fabric,
                },
                counted: Counts::none(),
            }),
            Err(memory) => Err((fabric, memory)),
        }
    }

    /// Waits for the workers, and lets them go. It hands the fabric back, and the kind of the fault for which workers
    /// did not answer the last jobs, if they did not.
    pub fn close(self) -> (Fabric<B>, Result<(), FaultKind>)
        ensures fabric { result.0 ≡ self }
        ensures unanswered { IfErr result.1 IsUnanswered }
    {
        let Kept {
            staffed,
            counted: _,
        } = self;
        let Staffed {
            rt,
            alloc,
            crew: _,
            dispatcher,
            fabric,
        } = staffed;
        match dispatcher.close(&rt, alloc) {
            Ok(_) => (fabric, Ok(())),
            Err(fault) => (fabric, Err(FaultKind::from(fault))),
        }
    }
}

impl<B, H> Staffed<B, H>
where
    B: FabricName + Send + Sync + 'static,
    H: Host,
{
    /// Lets routers take turns until nothing is left to do: by the crew, whose threads call the gate, or by one thread in
    /// the order that a seed draws.
    pub fn settle<G: TurnGate + Sync, P: Progress>(
        &mut self,
        gate: &G,
        seed: Option<u32>,
        progress: &mut P,
    ) -> Result<(), Refusal>
        ensures ok { OnOk result (Settles self.old self.new) }
        ensures err { IfErr result (StopsSettling self.old self.new) }
    {
        match seed {
            Some(seed) => {
                let order = Order::Seeded(u64::from(seed));
                settle_in_order(&self.rt, &mut self.fabric, order, progress)
            }
            None => settle(
                &self.rt,
                self.alloc,
                &mut self.fabric,
                self.crew,
                gate,
                progress,
            ),
        }
    }

    /// Gives the workers the next job. They begin with it, if they are at rest.
    pub fn inject(&mut self, router: u16, addr: u32) -> Result<(), FaultKind>
        ensures same { self.new ≡ self.old }
        ensures err { IfErr result (CannotInject (unknown_router (self.old).world router)) }
    {
        self.dispatcher
            .inject(self.rt, self.alloc, &self.fabric, router, addr)
    }

    /// Waits until the workers have answered all jobs, and prints their replies.
    pub fn drain<W: Write>(&mut self, printer: &Printer<'_>, out: &mut W) -> Result<(), FaultKind>
        ensures same { self.new ≡ self.old }
        ensures err { IfErr result IsUnanswered }
    {
        match self.dispatcher.drain(&self.rt, self.alloc) {
            Ok(replies) => {
                let _ = print_replies(printer, &replies, out);
                Ok(())
            }
            Err(fault) => Err(FaultKind::from(fault)),
        }
    }
}

impl<B, H> Threaded<Staffed<B, H>> for Kept<B, H>
where
    B: FabricName + Send + Sync + 'static,
    H: Host,
{
    ghost use Rattle.std.specs.Prelude.{true};

    ghost lend = { λ k s. s };

    ghost staffed = { true };

    fn staff(&mut self) -> Option<&mut Staffed<B, H>> {
        Some(&mut self.staffed)
    }
}

impl<B, H> Live for Kept<B, H>
where
    B: FabricName + Send + Sync + 'static,
    H: Host,
{
    ghost use Rattle.interpreter.specs.Nets.{kept_meaning};

    ghost meaning = { kept_meaning };

    fn network(&self) -> &Network {
        self.staffed.fabric.network()
    }

    fn world(&self) -> &World {
        self.staffed.fabric.world()
    }

    fn steps(&self) -> u64 {
        self.staffed.fabric.journal().len() as u64
    }

    fn step(&mut self, step: Step) -> Result<(), Refusal> {
        self.staffed.fabric.step(&self.staffed.rt, step)
    }

    fn settle<P: Progress>(&mut self, seed: Option<u32>, progress: &mut P) -> Result<(), Refusal> {
        let order = match seed {
            Some(seed) => Order::Seeded(u64::from(seed)),
            None => Order::Cyclic,
        };
        settle_in_order(&self.staffed.rt, &mut self.staffed.fabric, order, progress)
    }

    fn lookup(&mut self, router: u16, addr: u32) -> Result<Option<(Prefix, Entry)>, Refusal> {
        Ok(self.staffed.fabric.lookup(router, addr)?.matched)
    }

    fn trace(&mut self, router: u16, addr: u32, through: bool) -> Result<Trace, Refusal> {
        if usize::from(router) >= self.staffed.fabric.world().routers().len() {
            return Err(Refusal::UnknownRouter);
        }
        let traced = if through {
            trace_through(&mut self.staffed.fabric, self.staffed.alloc, router, addr)
        } else {
            trace(&mut self.staffed.fabric, self.staffed.alloc, router, addr)
        };
        Ok(traced?)
    }

    // It takes a worker, and this thread alone is none.
    fn inject(&mut self, _router: u16, _addr: u32) -> Result<(), FaultKind> {
        Err(FaultKind::from(PoolFault::NoThread))
    }

    // So this thread was given no job.
    fn drain<W: Write>(&mut self, _printer: &Printer<'_>, _out: &mut W) -> Result<(), FaultKind> {
        Ok(())
    }

    fn count(&mut self) -> Counts {
        let totals = Counts {
            steps: self.staffed.fabric.journal().len() as u64,
            sent: self.staffed.fabric.sent(),
        };
        let since = totals.since(self.counted);
        self.counted = totals;
        since
    }

    fn save(&mut self) -> Result<(), FaultKind> {
        Err(FaultKind::JournalKept)
    }

    fn restore(&mut self) -> Result<(), FaultKind> {
        Err(FaultKind::JournalKept)
    }
}
