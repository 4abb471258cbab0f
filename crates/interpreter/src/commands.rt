//! Commands that print what a network does.

ghost use Rattle.std.specs.Prelude.{◌≡◌, ◌⊎◌, IfErr, OnOk};
ghost use Rattle.world.specs.Steps.{CanBeRefused};
ghost use Rattle.plans.specs.Faults.{OfRefusal};
ghost use Rattle.interpreter.specs.Nets.{IsStepDone, IsStepRefused};

use crate::live::Live;
use faults::FaultKind;
use lines::{Answer, Asked, Line, Printer, TraceLine, moved_by};
use network_model::Step;
use std::io::Write;

/// Does a step, and prints what it moved, if more is to be told. What it prints may be lost.
pub fn do_step<N: Live, W: Write>(
    net: &mut N,
    printer: &Printer<'_>,
    moves: bool,
    step: Step,
    out: &mut W,
) -> Result<(), FaultKind>
    ensures ok { OnOk result (IsStepDone N.meaning step net.old net.new) }
    ensures err { IfErr result (λ kind. OfRefusal (CanBeRefused (N.meaning.refusal net.old step)) kind
        × (net.new ≡ net.old)) }
{
    let moved = if moves {
        moved_by(net.world(), &step)
    } else {
        None
    };
    net.step(step)?;
    if let Some(moved) = moved {
        let _ = printer.print(&Line::Moved(moved), out);
    }
    Ok(())
}

/// Does a step, and says whether it was refused. What it prints may be lost.
pub fn try_step<N: Live, W: Write>(net: &mut N, printer: &Printer<'_>, step: Step, out: &mut W)
    ensures { IsStepDone N.meaning step net.old net.new
        ⊎ IsStepRefused N.meaning step net.old net.new }
{
    let _ = match net.step(step) {
        Ok(()) => printer.print(&Line::Tried(None), out),
        Err(refusal) => printer.print(&Line::Tried(Some(FaultKind::from(refusal))), out),
    };
}

/// Asks a router's image in force, and prints what it answers. What it prints may be lost.
pub fn look_up<N: Live, W: Write>(
    net: &mut N,
    printer: &Printer<'_>,
    router: u16,
    addr: u32,
    out: &mut W,
) -> Result<(), FaultKind>
    ensures same { net.new ≡ net.old }
    ensures err { IfErr result (OfRefusal (N.meaning.not_looked_up net.old router addr)) }
{
    let found = net.lookup(router, addr)?;
    let answer = Answer {
        router,
        addr,
        found,
    };
    let _ = printer.print(&Line::Asked(Asked::Lookup(answer)), out);
    Ok(())
}

/// Traces a packet along the images in force, while one prefix matches it or through, and prints its way.
/// What it prints may be lost.
pub fn show_trace<N: Live, W: Write>(
    net: &mut N,
    printer: &Printer<'_>,
    router: u16,
    addr: u32,
    through: bool,
    out: &mut W,
) -> Result<(), FaultKind>
    ensures same { net.new ≡ net.old }
    ensures err { IfErr result (OfRefusal (N.meaning.not_traced net.old router)) }
{
    let traced = net.trace(router, addr, through)?;
    let line = TraceLine {
        router,
        addr,
        through,
        path: &traced.path,
        end: traced.end,
    };
    let _ = printer.print(&Line::Traced(line), out);
    Ok(())
}
