//! Commands for which threads may be started.
//!
//! The kit lets no method of a trait's `impl` start a thread whose work rests on a bound of the `impl`, while a function
//! may by bounds of its own. So a network lends its threads' part here, and functions start them.

ghost use Rattle.std.specs.Prelude.{◌≡◌, IfErr, OnOk};

use crate::host::Host;
use crate::kept::Staffed;
use crate::live::Live;
use control::{Progress, TurnGate};
use fabric::FabricName;
use faults::FaultKind;
use lines::Printer;
use network_model::Refusal;
use std::io::Write;

/// What a network lends whose commands may start threads.
pub trait Staff {
    ghost use Rattle.interpreter.specs.Nets.{Meaning};

    /// What commands mean on it.
    ghost meaning: { Meaning Self };
}

/// A network that runs, with such a part or without. What is done on the part is done on the network.
pub trait Threaded<S: Staff>: Live {
    ghost use Rattle.std.specs.Prelude.{◌↔◌, Bool, IfSome, IsSome, IsTrue};
    ghost use Rattle.std.specs.Borrow.{LendsIf, sem};
    ghost use Rattle.interpreter.specs.Nets.{MeansAs};

    /// The network, with this in place of the part.
    ghost lend: { Self → S → Self };

    /// Whether it has the part.
    ghost staffed: { Bool };

    /// The part, if it has one.
    fn staff(&mut self) -> Option<&mut S>
        ensures* writes_back { sem 𝓛 (LendsIf Self.row S.row self.entry result (lend self.old) self.old) }
        ensures means { IfSome result (λ s. MeansAs Self.meaning S.meaning (lend self.old) self.old s.now) }
        ensures found { IsSome result ↔ IsTrue staffed };
}

/// Lets routers take turns until nothing is left to do: in ascending cyclic order while one thread does it, or in
/// an order that a seed draws. The same seed draws the same order. Threads call the gate.
pub fn settle<B, H, N, G, P>(
    net: &mut N,
    gate: &G,
    seed: Option<u32>,
    progress: &mut P,
) -> Result<(), Refusal>
where
    B: FabricName + Send + Sync + 'static,
    H: Host,
    N: Threaded<Staffed<B, H>>,
    G: TurnGate + Sync,
    P: Progress,
    ensures ok { OnOk result (N.meaning.settled net.old net.new) }
    ensures err { IfErr result (N.meaning.unsettled net.old net.new) }
{
    match net.staff() {
        Some(staffed) => staffed.settle(gate, seed, progress),
        None => net.settle(seed, progress),
    }
}

/// Gives the next job: to look the address up at the router. Jobs are numbered from 1. Refused, it takes no number.
pub fn inject<B, H, N>(net: &mut N, router: u16, addr: u32) -> Result<(), FaultKind>
where
    B: FabricName + Send + Sync + 'static,
    H: Host,
    N: Threaded<Staffed<B, H>>,
    ensures err { IfErr result (N.meaning.not_given net.old router) }
    ensures same { net.new ≡ net.old }
{
    match net.staff() {
        Some(staffed) => staffed.inject(router, addr),
        None => net.inject(router, addr),
    }
}

/// Waits for the answers of all jobs that were given since the last time, and prints them by number. What it prints
/// may be lost.
pub fn drain<B, H, N, W>(net: &mut N, printer: &Printer<'_>, out: &mut W) -> Result<(), FaultKind>
where
    B: FabricName + Send + Sync + 'static,
    H: Host,
    N: Threaded<Staffed<B, H>>,
    W: Write,
    ensures err { IfErr result (N.meaning.not_answered net.old) }
    ensures same { net.new ≡ net.old }
{
    match net.staff() {
        Some(staffed) => staffed.drain(printer, out),
        None => net.drain(printer, out),
    }
}
