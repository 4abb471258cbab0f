//! Opens a network, has a script or a shell done on it, and closes it.

ghost use Rattle.std.specs.Prelude.{◌≡◌, ◌⊎◌, Ok, Err, IfErr, OnOk, is_some, vec_len};
ghost use Rattle.fabric.specs.{Fabric.opening_fabric, Writers.opening_tables};
ghost use Rattle.plans.specs.Faults.{IsWantOfMemory};
ghost use Rattle.interpreter.specs.{Dispatching.IsUnanswered, Nets.counted_meaning, Nets.kept_meaning, Nets.opening_counted};
ghost use Rattle.play.specs.Works.{Comes, IsOfNothing, IsOfWorkers, IsWithoutAnswers, Stops, StopsWork, StopsWorkOn, Works, WorksOn, none_kept};

use crate::keeping::Keeper;
use crate::program::{Platform, Streams};
use crate::shell::do_lines;
use fabric::{Fabric, FabricName, Unnamed};
use faults::FaultKind;
use interpreter::{
    Counted, Crew, Host, Interpreter, Kept, Live, PrintStyle, Staffed, Threaded, TurnGate,
    do_commands, end_line,
};
use lines::{Ended, Line, Printer};
use plans::{Fault, Plan};
use script::{Command, Directory};
use std::io::{Read, Write};
use std::marker::Brand;
use world::Network;

/// By what a network runs whose steps are kept.
#[derive(Clone, Copy)]
pub struct Hands {
    /// How many threads let the routers take their turns, where they settle.
    pub threads: u8,
    /// How many workers answer the packets that a script injects: 1 to 16.
    pub workers: u8,
}

/// Opens a plan's network as a fabric, does its script, or the lines that are typed, and has kept what is to be kept
/// of its steps.
pub fn with_fabric<H, G, J, W, E, K, V>(
    by: &Platform<'_, '_, H, G>,
    plan: Plan,
    hands: Hands,
    style: PrintStyle,
    typed: Option<J>,
    streams: &mut Streams<'_, '_, W, E>,
    keeper: &mut K,
    kept: &mut V,
) -> Result<(), Fault>
where
    H: Host,
    G: TurnGate + Sync,
    J: Read + Drop,
    W: Write,
    E: Write,
    K: Keeper,
    V: Write,
    ensures ok { OnOk result (Works opening_fabric (Comes kept_meaning (is_some typed))
        (λ d f. K.keeps keeper.old d f (V.contents kept.old) (V.contents kept.new) keeper.new) plan) }
    ensures fault { IfErr result (StopsWork opening_fabric IsOfWorkers
        (Stops kept_meaning (is_some typed)) plan) }
{
    let unnamed = Unnamed::many(by.alloc, plan.network.routers())?;
    let Plan {
        network,
        directory,
        commands,
    } = plan;
    with_named::<Brand, H, G, J, W, E, K, V>(
        by, network, &directory, &commands, unnamed, hands, style, typed, streams, keeper, kept,
    )
}

// The same, where the network is opened under a name.
fn with_named<B, H, G, J, W, E, K, V>(
    by: &Platform<'_, '_, H, G>,
    network: Network,
    directory: &Directory,
    commands: &[Command],
    unnamed: Vec<Unnamed>,
    hands: Hands,
    style: PrintStyle,
    typed: Option<J>,
    streams: &mut Streams<'_, '_, W, E>,
    keeper: &mut K,
    kept: &mut V,
) -> Result<(), Fault>
where
    B: FabricName + Send + Sync + 'static,
    H: Host,
    G: TurnGate + Sync,
    J: Read + Drop,
    W: Write,
    E: Write,
    K: Keeper,
    V: Write,
    requires books { unnamed.items ≡ B.books }
    requires each { vec_len unnamed ≡ network.routers }
    requires openings { opening_tables network ≡ B.openings }
    ensures ok { OnOk result (WorksOn opening_fabric (Comes kept_meaning (is_some typed))
        (λ d f. K.keeps keeper.old d f (V.contents kept.old) (V.contents kept.new) keeper.new)
        network directory.now commands.now) }
    ensures fault { IfErr result (StopsWorkOn opening_fabric IsOfWorkers
        (Stops kept_meaning (is_some typed)) network commands.now) }
{
    let workers = hands.workers.max(1).min(16);
    let (fabric, readers) = Fabric::<B>::open(by.rt, by.alloc, network, unnamed, workers)?;
    let crew = Crew {
        threads: hands.threads,
        thresholds: by.thresholds,
    };
    let interpreter = Interpreter {
        alloc: by.alloc,
        gate: by.gate,
        directory,
        style,
    };
    match Kept::new(*by.rt, by.alloc, crew, fabric, readers) {
        Ok(mut net) => {
            let done = do_all(&interpreter, &mut net, typed, commands, streams);
            // No worker is left running, whatever came of it.
            let (fabric, answered) = net.close();
            let ended = keep(done, answered, &fabric, directory, keeper, kept);
            fabric.close(by.rt);
            ended
        }
        Err((fabric, memory)) => {
            fabric.close(by.rt);
            Err(Fault::from(memory))
        }
    }
}

// Has kept what is to be kept of the steps, if all was done and answered.
fn keep<B: FabricName, K: Keeper, V: Write>(
    done: Result<(), Fault>,
    answered: Result<(), FaultKind>,
    fabric: &Fabric<B>,
    directory: &Directory,
    keeper: &mut K,
    kept: &mut V,
) -> Result<(), Fault>
    requires { IfErr answered IsUnanswered }
    ensures ok { OnOk result ((done ≡ Ok tt) × K.keeps keeper.old directory.now fabric.now
        (V.contents kept.old) (V.contents kept.new) keeper.new) }
    ensures fault { IfErr result (λ e. (done ≡ Err e) ⊎ IsWithoutAnswers e ⊎ IsWantOfMemory e) }
{
    done?;
    if let Err(kind) = answered {
        return Err(Fault::from(kind));
    }
    Ok(keeper.keep(fabric, directory, kept)?)
}

/// Opens a plan's network as a simulation, and does its script, or the lines that are typed. Nothing is kept of its
/// steps. No thread is started, and the gate is not called.
pub fn with_simulation<H: Host, G: TurnGate + Sync, J: Read + Drop, W: Write, E: Write>(
    by: &Platform<'_, '_, H, G>,
    plan: Plan,
    style: PrintStyle,
    typed: Option<J>,
    streams: &mut Streams<'_, '_, W, E>,
) -> Result<(), Fault>
    ensures ok { OnOk result (Works opening_counted (Comes counted_meaning (is_some typed)) none_kept plan) }
    ensures fault { IfErr result (StopsWork opening_counted IsOfNothing
        (Stops counted_meaning (is_some typed)) plan) }
{
    let Plan {
        network,
        directory,
        commands,
    } = plan;
    with_counted::<H, G, J, W, E>(by, network, &directory, &commands, style, typed, streams)
}

// The same, where what the plan has beside the network is lent.
fn with_counted<H: Host, G: TurnGate + Sync, J: Read + Drop, W: Write, E: Write>(
    by: &Platform<'_, '_, H, G>,
    network: Network,
    directory: &Directory,
    commands: &[Command],
    style: PrintStyle,
    typed: Option<J>,
    streams: &mut Streams<'_, '_, W, E>,
) -> Result<(), Fault>
    ensures ok { OnOk result (WorksOn opening_counted (Comes counted_meaning (is_some typed)) none_kept
        network directory.now commands.now) }
    ensures fault { IfErr result (StopsWorkOn opening_counted IsOfNothing
        (Stops counted_meaning (is_some typed)) network commands.now) }
{
    let mut net = Counted::open(by.alloc, network)?;
    let interpreter = Interpreter {
        alloc: by.alloc,
        gate: by.gate,
        directory,
        style,
    };
    // A simulation lends no part, so any name will do.
    do_all::<Brand, H, Counted, G, J, W, E>(&interpreter, &mut net, typed, commands, streams)
}

// Does the script, or the lines that are typed, and says how many steps were done.
fn do_all<B, H, N, G, J, W, E>(
    interpreter: &Interpreter<'_, G>,
    net: &mut N,
    typed: Option<J>,
    commands: &[Command],
    streams: &mut Streams<'_, '_, W, E>,
) -> Result<(), Fault>
where
    B: FabricName + Send + Sync + 'static,
    H: Host,
    N: Threaded<Staffed<B, H>>,
    G: TurnGate + Sync,
    J: Read + Drop,
    W: Write,
    E: Write,
    ensures ok { OnOk result (Comes N.meaning (is_some typed) commands.now net.old net.new) }
    ensures fault { IfErr result (Stops N.meaning (is_some typed) commands.now net.old net.new) }
{
    match typed {
        Some(input) => do_lines(interpreter, net, input, streams)?,
        None => {
            let done = do_commands(interpreter, net, commands, streams.out, streams.err);
            end_line(interpreter.style.progress, streams.err);
            done?;
        }
    }
    let done = Ended::Done { steps: net.steps() };
    let printer = Printer {
        listed: false,
        ..interpreter.printer()
    };
    let _ = printer.print(&Line::Ended(done), streams.out);
    Ok(())
}
