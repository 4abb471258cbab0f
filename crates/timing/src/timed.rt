//! Runs the network of a scenario in simulated time.

ghost use Rattle.std.specs.Prelude.{◌≡◌, All, IfErr, IfOk, OnOk, false, length};
ghost use Rattle.coming_to_rest.specs.Worlds.{is_own};
ghost use Rattle.plans.specs.Faults.{OfBytes};
ghost use Rattle.timed_reports.specs.Recordings.{timed_in};
ghost use Rattle.timing.specs.{Ends.IsTimedToEnd, Ends.RunsChanges, Ends.RunsTimes, Ends.StopsTime, Runs.IsOfEvents};

use crate::printing::print_changes;
use crate::run::{give, run_changes};
use crate::snapshot::Snapshot;
use crate::times::{Times, read_times, read_times_text};
use command_line::Format;
use lines::{Ended, Line, Printer};
use plans::{Fault, Outcome, Plan, read_plan, read_text};
use script::Directory;
use std::alloc::Global;
use std::io::{Read, Write};
use timed_reports::Recording;
use timed_simulation::Change;
use world::Network;

/// Reads a scenario and a document of times, runs the network until it is at rest, and tells what came of each
/// change, in this format, and if that is asked for of each computation and each outage. Both are read whole before
/// the first event is done, and the scenario's script is not done. A write that fails is lost.
pub fn time<R: Read + Drop, J: Read + Drop, W: Write>(
    alloc: Global,
    scenario: R,
    times: J,
    format: Format,
    spells: bool,
    out: &mut W,
) -> Result<Outcome, Fault>
    ensures ok { IfOk result (λ end. (end ≡ Outcome.Done) × OfBytes (R.remaining scenario) (λ bytes.
        OfBytes (J.remaining times) (IsTimedToEnd bytes))) }
    ensures fault { IfErr result (λ e. OfBytes (R.remaining scenario) (λ bytes.
        StopsTime bytes (J.remaining times) e)) }
{
    let text = read_text(alloc, scenario)?;
    let Plan {
        network,
        directory,
        ..
    } = read_plan(alloc, text.as_str())?;
    let lines = read_times_text(alloc, times)?;
    let times = read_times(alloc, directory.names(), &network, lines.as_str())?;
    run(alloc, network, &directory, &times, format, spells, out)?;
    Ok(Outcome::Done)
}

// Runs a network with these delays and changes.
fn run<W: Write>(
    alloc: Global,
    network: Network,
    directory: &Directory,
    times: &Times,
    format: Format,
    spells: bool,
    out: &mut W,
) -> Result<(), Fault>
    requires links { length times.now.links.items ≡ length network.links }
    requires routers { length times.now.routers.items ≡ network.routers }
    requires changes { All (λ c. is_own c.step ≡ false) times.now.changes.items }
    ensures ok { OnOk result (RunsTimes network times.now) }
    ensures fault { IfErr result IsOfEvents }
{
    let mut recording = Recording::open(alloc, spells, network, &times.links, &times.routers)?;
    run_opened(
        alloc,
        &mut recording,
        directory,
        &times.changes,
        format,
        out,
    )
}

// Runs a network that was opened with these changes.
fn run_opened<W: Write>(
    alloc: Global,
    recording: &mut Recording,
    directory: &Directory,
    changes: &[Change],
    format: Format,
    out: &mut W,
) -> Result<(), Fault>
    requires { All (λ c. is_own c.step ≡ false) changes.now }
    ensures ok { OnOk result (RunsChanges (timed_in recording.old) changes.now) }
    ensures fault { IfErr result IsOfEvents }
{
    give(recording, changes)?;
    let mut begun = Vec::new(alloc);
    let ran = run_changes(recording, &mut begun);
    let end = Snapshot::of(recording.timed());
    let printer = Printer {
        directory,
        format,
        listed: false,
    };
    let links = recording.timed().simulation().network().links();
    print_changes(&printer, links, &begun, end, recording.report(), out);
    ran?;
    let ended = Ended::AtRest {
        steps: end.counts.steps,
        moment: end.now,
    };
    let _ = printer.print(&Line::Ended(ended), out);
    Ok(())
}
