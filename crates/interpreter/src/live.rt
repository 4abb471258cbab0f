//! A network that runs, as an interpreter needs it.

use control::Progress;
use faults::FaultKind;
use lines::{Counts, Printer};
use network_model::{Entry, Prefix, Refusal, Step, Trace};
use std::io::Write;
use world::{Network, World};

/// A network that runs: its steps are kept, or they are counted alone. Refused, each call leaves it as it was, but for
/// a settling, which may have done some steps.
pub trait Live {
    ghost use Rattle.std.specs.Prelude.{◌≡◌, ◌<◌, length, IfOk, IfErr, OnOk, OnErr};
    ghost use Rattle.world.specs.Steps.{IsDoneOr};
    ghost use Rattle.interpreter.specs.Nets.{IsAnswer, IsStepDone, Meaning};
    ghost use Rattle.interpreter.specs.Traces.{IsTrace};

    /// What commands mean on it.
    ghost meaning: { Meaning Self };

    /// The network that was opened.
    fn network(&self) -> &Network
        ensures { result.now ≡ meaning.network self.now };

    /// The world that the steps made.
    fn world(&self) -> &World
        ensures { result.now ≡ meaning.world self.now };

    /// How many steps made it from the opening of the network.
    fn steps(&self) -> u64;

    /// Does a step.
    fn step(&mut self, step: Step) -> Result<(), Refusal>
        ensures ok { OnOk result (IsStepDone meaning step self.old self.new) }
        ensures err { OnErr result (self.new ≡ self.old) }
        ensures cause { IsDoneOr (meaning.refusal self.old step) result };

    /// Lets routers take turns in this thread until nothing is left to do: in ascending cyclic order, or in an order
    /// that a seed draws. The same seed draws the same order.
    fn settle<P: Progress>(&mut self, seed: Option<u32>, progress: &mut P) -> Result<(), Refusal>
        ensures ok { OnOk result (meaning.settled self.old self.new) }
        ensures err { IfErr result (meaning.unsettled self.old self.new) };

    /// The row by which the image in force at a router answers an address, if one covers it.
    fn lookup(&mut self, router: u16, addr: u32) -> Result<Option<(Prefix, Entry)>, Refusal>
        ensures answer { IfOk result (IsAnswer (meaning.world self.old) router addr) }
        ensures err { IfErr result (meaning.not_looked_up self.old router addr) }
        ensures same { self.new ≡ self.old };

    /// The way of a packet along the images in force, while one prefix matches it, or through.
    fn trace(&mut self, router: u16, addr: u32, through: bool) -> Result<Trace, Refusal>
        ensures ok { IfOk result (IsTrace (meaning.world self.old) router addr through) }
        ensures known { OnOk result (router < length (meaning.world self.old).routers) }
        ensures err { IfErr result (meaning.not_traced self.old router) }
        ensures same { self.new ≡ self.old };

    /// Gives this thread the next job: to look the address up at the router. Jobs are numbered from 1. Refused, it takes
    /// no number.
    fn inject(&mut self, router: u16, addr: u32) -> Result<(), FaultKind>
        ensures err { IfErr result (meaning.not_given self.old router) }
        ensures same { self.new ≡ self.old };

    /// Prints the answers of all jobs that it was given since the last time, by number. What it prints may be lost.
    fn drain<W: Write>(&mut self, printer: &Printer<'_>, out: &mut W) -> Result<(), FaultKind>
        ensures err { IfErr result (meaning.not_answered self.old) }
        ensures same { self.new ≡ self.old };

    /// What was done since the last time, or since the opening.
    fn count(&mut self) -> Counts
        ensures { self.new ≡ self.old };

    /// Saves the network as it is, in place of what was saved before. One whose steps are kept cannot be saved.
    fn save(&mut self) -> Result<(), FaultKind>
        ensures ok { OnOk result (meaning.saved self.old self.new) }
        ensures same { OnErr result (self.new ≡ self.old) }
        ensures err { IfErr result (meaning.not_saved self.old) };

    /// Makes the network what it was when it was saved.
    fn restore(&mut self) -> Result<(), FaultKind>
        ensures ok { OnOk result (meaning.restored self.old self.new) }
        ensures same { OnErr result (self.new ≡ self.old) }
        ensures err { IfErr result (meaning.not_restored self.old) };
}
