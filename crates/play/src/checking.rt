//! Says what a scenario holds.

ghost use Rattle.std.specs.Prelude.{◌≡◌, IfOk, IfErr};
ghost use Rattle.plans.specs.{Faults.OfBytes, Scenarios.StopsReading};
ghost use Rattle.play.specs.Ends.{IsChecked, IsPlannedFrom};

use plans::{Fault, Outcome, Plan, read_plan, read_text};
use std::alloc::Global;
use std::io::{Read, Write};

/// Reads a scenario, and says what it holds. A write that fails is lost.
pub fn check<R: Read + Drop, W: Write>(
    alloc: Global,
    scenario: R,
    out: &mut W,
) -> Result<Outcome, Fault>
    ensures ok { IfOk result (λ end. (end ≡ Outcome.Done)
        × OfBytes (R.remaining scenario) IsChecked) }
    ensures fault { IfErr result (λ e. OfBytes (R.remaining scenario)
        (λ bytes. StopsReading bytes e)) }
{
    let plan = read_plan_from(alloc, scenario)?;
    let network = &plan.network;
    let (routers, links) = (network.routers(), network.links().len());
    let (prefixes, commands) = (network.prefixes(), plan.commands.len());
    let _ = writeln!(
        out,
        "ok: {routers} routers, {links} links, {prefixes} prefixes, {commands} commands"
    );
    Ok(Outcome::Done)
}

/// The plan of the scenario that a reader gives.
pub fn read_plan_from<R: Read + Drop>(alloc: Global, scenario: R) -> Result<Plan, Fault>
    ensures ok { IfOk result (IsPlannedFrom (R.remaining scenario)) }
    ensures fault { IfErr result (λ e. OfBytes (R.remaining scenario)
        (λ bytes. StopsReading bytes e)) }
{
    let text = read_text(alloc, scenario)?;
    read_plan(alloc, text.as_str())
}
