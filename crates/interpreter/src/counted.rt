//! A network whose steps are counted: a simulation, and what was saved of it.

ghost use Rattle.std.specs.Prelude.{◌≡◌, ◌<◌, not, true, length, Some, IfOk, IfErr, IfSome, OnOk};
ghost use Rattle.std.specs.List.{position_from};
ghost use Rattle.ipv4_prefix.specs.Prefix.{prefix_eq};
ghost use Rattle.world.specs.Steps.{CanBeRefused};
ghost use Rattle.lines.specs.Report.{unknown_router};
ghost use Rattle.interpreter.specs.{Nets.IsAnswer, Nets.opening_counted, Settling.SettlesThere, Settling.StopsThere};
ghost use Rattle.interpreter.specs.Traces.{IsTrace, crossing_on, matched_at, matches_other};

use crate::live::Live;
use crate::threaded::{Staff, Threaded};
use control::Progress;
use faults::FaultKind;
use lines::{Answer, Asked, Counts, Line, Printer};
use network_model::{Ending, Entry, NoMemory, Prefix, Refusal, Step, Trace};
use simulation::{Order, Simulation};
use std::alloc::Global;
use std::io::Write;
use std::marker::Model;
use world::{Network, World};

/// A simulation, and what was saved of it. Contracts see both.
#[derive(Drop)]
pub struct Counted {
    alloc: Global,
    simulation: Simulation,
    saved: Option<Simulation>,
    // The number of the last job, and the jobs that were answered since the last `drain`.
    last: u64,
    answers: Vec<(u64, Answer)>,
    // What was done until it was counted last.
    counted: Counts,
}

impl Model for Counted {
    ghost use Rattle.interpreter.specs.Nets.{Counted as CountedState, counted_of};

    ghost Value = { CountedState };

    ghost view = { λ c. counted_of c.simulation c.saved };
}

impl Counted {
    /// Opens a network, of which nothing is saved.
    pub fn open(alloc: Global, network: Network) -> Result<Counted, NoMemory>
        ensures { IfOk result (λ c. c ≡ opening_counted network) }
    {
        let simulation = Simulation::open(alloc, network)?;
        Ok(Counted {
            alloc,
            simulation,
            saved: None,
            last: 0,
            answers: Vec::new(alloc),
            counted: Counts::none(),
        })
    }

    // Lets routers take turns until nothing is left to do: in ascending cyclic order, or in an order that a seed draws.
    fn take_turns(&mut self, seed: Option<u32>) -> Result<(), Refusal>
        ensures ok { OnOk result (SettlesThere (self.old).simulation (self.new).simulation) }
        ensures err { IfErr result (StopsThere (self.old).simulation (self.new).simulation) }
        ensures saved { (self.new).saved ≡ (self.old).saved }
    {
        let order = match seed {
            Some(seed) => Order::Seeded(u64::from(seed)),
            None => Order::Cyclic,
        };
        let ran = self.simulation.settle(order, usize::MAX);
        if let Some(refusal) = ran.refusal {
            return Err(refusal);
        }
        // So many steps are more than can be counted.
        if !self.simulation.is_settled() {
            return Err(Refusal::JournalFull);
        }
        Ok(())
    }

    // The row by which the image in force at a router answers an address, if one covers it.
    fn look_up(&self, router: u16, addr: u32) -> Result<Option<(Prefix, Entry)>, Refusal>
        ensures answer { IfOk result (IsAnswer (self.now).simulation.world router addr) }
        ensures err { IfErr result (λ e. unknown_router (self.now).simulation.world router ≡ Some e) }
    {
        self.simulation.holds();
        match self.simulation.lookup(router, addr) {
            Some(answer) => Ok(answer.matched),
            None => Err(Refusal::UnknownRouter),
        }
    }

    // Looks the address up for the next job.
    fn answer(&mut self, router: u16, addr: u32) -> Result<(), Refusal>
        ensures same { self.new ≡ self.old }
        ensures err { IfErr result (CanBeRefused (unknown_router (self.old).simulation.world router)) }
    {
        let found = self.look_up(router, addr)?;
        let number = self.last.saturating_add(1);
        let answer = Answer {
            router,
            addr,
            found,
        };
        let answered = (number, answer);
        self.answers.push(answered).map_err(|_| Refusal::NoMemory)?;
        self.last = number;
        Ok(())
    }

    // The way of a packet, whichever prefixes match it.
    fn follow(&self, router: u16, addr: u32) -> Result<Trace, Refusal>
        ensures ok { IfOk result (IsTrace (self.now).simulation.world router addr true) }
        ensures known { OnOk result (router < length (self.now).simulation.world.routers) }
        ensures err { IfErr result (CanBeRefused (unknown_router (self.now).simulation.world router)) }
    {
        let routers = self.simulation.world().routers().len();
        if usize::from(router) >= routers {
            return Err(Refusal::UnknownRouter);
        }
        let mut path = Vec::new(self.alloc);
        if path.resize(routers, 0_u16).is_err() {
            return Err(Refusal::NoMemory);
        }
        let Some(traced) = self.simulation.trace(router, addr, &mut path) else {
            return Err(Refusal::UnknownRouter);
        };
        path.truncate(traced.count);
        // There is room for all routers, so the packet comes to an end.
        let end = traced.end.unwrap_or(Ending::NoRoute);
        Ok(Trace { path, end })
    }

    // The place of the first router of a way that matches the packet by another prefix than the first router.
    fn crossing(&self, path: &[u16], addr: u32) -> Option<usize>
        ensures place { result ≡ crossing_on (self.now).simulation.world addr path.now }
        ensures within { IfSome result (λ n. n < length path.now) }
    {
        let first = self.matched(*path.first()?, addr)?;
        self.first_other(first, path, addr)
    }

    // The place of the first router of a way that matches the packet by another prefix than this.
    fn first_other(&self, first: Prefix, path: &[u16], addr: u32) -> Option<usize>
        ensures place { result ≡ position_from (matches_other (self.now).simulation.world addr first) 0 path.now }
        ensures within { IfSome result (λ n. n < length path.now) }
    {
        path.iter()
            .position(|&router| self.matches_other(first, router, addr))
    }

    // Whether a router matches the packet by another prefix than this.
    fn matches_other(&self, first: Prefix, router: u16, addr: u32) -> bool
        ensures { result ≡ matches_other (self.now).simulation.world addr first router }
    {
        match self.matched(router, addr) {
            Some(prefix) => differ(first, prefix),
            None => false,
        }
    }

    // The prefix by which a router matches the packet.
    fn matched(&self, router: u16, addr: u32) -> Option<Prefix>
        ensures { result ≡ matched_at (self.now).simulation.world addr router }
    {
        match self.look_up(router, addr) {
            Ok(Some((prefix, _))) => Some(prefix),
            Ok(None) => None,
            Err(_) => None,
        }
    }
}

impl Live for Counted {
    ghost use Rattle.interpreter.specs.Nets.{counted_meaning};

    ghost meaning = { counted_meaning };

    fn network(&self) -> &Network {
        self.simulation.network()
    }

    fn world(&self) -> &World {
        self.simulation.world()
    }

    fn steps(&self) -> u64 {
        self.simulation.steps()
    }

    fn step(&mut self, step: Step) -> Result<(), Refusal> {
        self.simulation.step(step)
    }

    fn settle<P: Progress>(&mut self, seed: Option<u32>, _progress: &mut P) -> Result<(), Refusal> {
        self.take_turns(seed)
    }

    fn lookup(&mut self, router: u16, addr: u32) -> Result<Option<(Prefix, Entry)>, Refusal> {
        self.look_up(router, addr)
    }

    fn trace(&mut self, router: u16, addr: u32, through: bool) -> Result<Trace, Refusal> {
        let mut traced = self.follow(router, addr)?;
        if through {
            return Ok(traced);
        }
        let Some(place) = self.crossing(&traced.path, addr) else {
            return Ok(traced);
        };
        traced.path.truncate(place + 1);
        traced.end = Ending::Crossed;
        Ok(traced)
    }

    // The job is answered at once.
    fn inject(&mut self, router: u16, addr: u32) -> Result<(), FaultKind> {
        Ok(self.answer(router, addr)?)
    }

    fn drain<W: Write>(&mut self, printer: &Printer<'_>, out: &mut W) -> Result<(), FaultKind> {
        for (number, answer) in &self.answers {
            let packet = Asked::Packet(*number, *answer);
            let _ = printer.print(&Line::Asked(packet), out);
        }
        self.answers.clear();
        Ok(())
    }

    fn count(&mut self) -> Counts {
        let totals = counts_of(&self.simulation);
        let since = totals.since(self.counted);
        self.counted = totals;
        since
    }

    fn save(&mut self) -> Result<(), FaultKind> {
        self.saved = Some(self.simulation.copy(self.alloc)?);
        Ok(())
    }

    // Refused with `NothingSaved` and `NoMemory`.
    fn restore(&mut self) -> Result<(), FaultKind> {
        let Some(saved) = &self.saved else {
            return Err(FaultKind::NothingSaved);
        };
        let copy = saved.copy(self.alloc)?;
        // What was done and not yet counted is counted later, too.
        let since = counts_of(&self.simulation).since(self.counted);
        self.counted = counts_of(&copy).since(since);
        self.simulation = copy;
        Ok(())
    }
}

// One thread does all.
impl<S: Staff> Threaded<S> for Counted {
    ghost use Rattle.std.specs.Prelude.{false};

    ghost lend = { λ c s. c };

    ghost staffed = { false };

    fn staff(&mut self) -> Option<&mut S> {
        None
    }
}

fn counts_of(simulation: &Simulation) -> Counts {
    Counts {
        steps: simulation.steps(),
        sent: simulation.sent(),
    }
}

// Whether these are two prefixes.
#[tactic(auto, using(ipv4_prefix::proofs::PrefixOrder::prefix_partial_eq))]
fn differ(one: Prefix, other: Prefix) -> bool
    ensures { result ≡ not (prefix_eq one other) }
{
    one != other
}
