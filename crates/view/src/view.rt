//! Writes the states of a run.

ghost use Rattle.std.specs.Prelude.{◌≡◌, ◌≤◌, ℕ, IfOk, None, OnOk, is_some, length};
ghost use Rattle.network_model.specs.World as model;
ghost use Rattle.network_model.specs.Run.{Runs};
ghost use Rattle.texts.specs.Words.{Text};
ghost use Rattle.plans.specs.Faults.{Gives, OfBytes, most_bytes};
ghost use Rattle.play.specs.Works.{IsRunToEnd};
ghost use Rattle.run_states.specs.Told.{IsStatesText};
ghost use Rattle.timed_reports.specs.Recordings.{timed_in};
ghost use Rattle.view.specs.Shown.{IsJournalShown, IsRunShown, IsShort, IsShown, IsShownInTime, IsTimesShown, IsWritten};

use crate::limited::Limited;
use crate::page::write_page;
use command_line::ViewWords;
use fabric::{Fabric, FabricName};
use journal::read_journal;
use network_model::{NoMemory, Step};
use play::{
    Fault, FaultKind, Host, Keeper, Outcome, Plan, read_bytes, read_plan, read_text, refuse,
    run_quietly,
};
use run_states::{run_from_opening, write_states};
use script::Directory;
use std::alloc::Global;
use std::io::{Read, Write};
use timing::{SteppedRun, read_times, read_times_text, run_in_steps};
use world::{Network, Ran};

/// Writes what the words ask for, and answers the exit status: 0, or 2 where a step of the journal is refused,
/// of which a line on `err` tells, and the states before it are written; a fault is a line on `err`, and its
/// status that of `dualnet`. `other` is the journal or the document of times that the words name. If they name
/// neither, the scenario's script is run, and what it prints is lost.
pub fn show<H: Host, R: Read + Drop, J: Read + Drop, W: Write, E: Write>(
    rt: &H,
    alloc: Global,
    words: &ViewWords<'_>,
    scenario: R,
    other: J,
    out: &mut W,
    err: &mut E,
) -> u8
    ensures { result ≡ 0 → OfBytes (R.remaining scenario) (IsShown (is_some words.now.journal)
        (is_some words.now.times) words.now.json (J.remaining other) (W.contents out.old) (W.contents out.new)) }
{
    match show_given(rt, alloc, words, scenario, other, out, err) {
        Ok(end) => end.status(),
        Err(fault) => refuse(fault, err),
    }
}

// Writes the states of the run that the words name.
fn show_given<H: Host, R: Read + Drop, J: Read + Drop, W: Write, E: Write>(
    rt: &H,
    alloc: Global,
    words: &ViewWords<'_>,
    scenario: R,
    other: J,
    out: &mut W,
    err: &mut E,
) -> Result<Outcome, Fault>
    ensures { IfOk result (λ end. end ≡ Outcome.Done → OfBytes (R.remaining scenario) (IsShown (is_some words.now.journal)
        (is_some words.now.times) words.now.json (J.remaining other) (W.contents out.old) (W.contents out.new))) }
{
    let text = read_text(alloc, scenario)?;
    let text = text.as_str();
    if words.journal.is_some() {
        return show_journal(alloc, words.json, text, other, out, err);
    }
    if words.times.is_some() {
        show_times(alloc, words.json, text, other, out)?;
        return Ok(Outcome::Done);
    }
    show_script(rt, alloc, words.json, text, out)?;
    Ok(Outcome::Done)
}

// Writes the states of the steps that a journal says, up to the first that is refused, of which a line on `err` tells.
fn show_journal<J: Read + Drop, W: Write, E: Write>(
    alloc: Global,
    json: bool,
    text: &str,
    journal: J,
    out: &mut W,
    err: &mut E,
) -> Result<Outcome, Fault>
    requires { length text.now ≤ most_bytes }
    ensures { IfOk result (λ end. end ≡ Outcome.Done → (lines : Text) × Gives (J.remaining journal) lines
        × IsJournalShown json text.now lines (W.contents out.old) (W.contents out.new)) }
{
    let lines = read_bytes(alloc, journal)?;
    let Plan {
        network,
        directory,
        ..
    } = read_plan(alloc, text)?;
    let journal = read_journal(
        alloc,
        directory.names(),
        network.links(),
        network.attachments(),
        &lines,
    )?;
    let ran = run_from_opening(alloc, &network, &journal.steps)?;
    let lawful = &journal.steps[..ran.done];
    write_steps(alloc, json, &network, &directory, lawful, &[], out)?;
    Ok(end_of(ran, err))
}

// How a run of a journal's steps ended. If one was refused, it is told.
fn end_of<E: Write>(ran: Ran, err: &mut E) -> Outcome
    ensures { result ≡ Outcome.Done → ran.refusal ≡ None }
{
    let Some(refusal) = ran.refusal else {
        return Outcome::Done;
    };
    let step = ran.done.saturating_add(1);
    let _ = writeln!(err, "dualnet: step {step} refused: {refusal}");
    Outcome::Refused
}

// Runs the network of a scenario in simulated time, as a document of times says, and writes the states of its steps.
fn show_times<J: Read + Drop, W: Write>(
    alloc: Global,
    json: bool,
    text: &str,
    times: J,
    out: &mut W,
) -> Result<(), Fault>
    requires { length text.now ≤ most_bytes }
    ensures { OnOk result ((lines : Text) × Gives (J.remaining times) lines
        × IsTimesShown json text.now lines (W.contents out.old) (W.contents out.new)) }
{
    let plan = read_plan(alloc, text)?;
    let lines = read_times_text(alloc, times)?;
    show_in_time(alloc, json, plan, lines.as_str(), out)
}

// The same of a plan, as these lines say. No function here has more in hand than it needs where it may end early.
fn show_in_time<W: Write>(
    alloc: Global,
    json: bool,
    plan: Plan,
    lines: &str,
    out: &mut W,
) -> Result<(), Fault>
    ensures { OnOk result
        (IsShownInTime json plan.network plan.directory lines.now (W.contents out.old) (W.contents out.new)) }
{
    let Plan {
        network,
        directory,
        ..
    } = plan;
    let times = read_times(alloc, directory.names(), &network, lines)?;
    let run = run_in_steps(alloc, network, &times)?;
    write_run(alloc, json, &directory, &run, out)
}

// Writes the states of the steps of a run.
fn write_run<W: Write>(
    alloc: Global,
    json: bool,
    directory: &Directory,
    run: &SteppedRun,
    out: &mut W,
) -> Result<(), Fault>
    requires { (w : model.World)
        × Runs (model.opening ((timed_in run.now.recording).simulation).network) run.now.steps.items w }
    ensures { OnOk result (IsWritten json ((timed_in run.now.recording).simulation).network directory.now
        run.now.steps.items run.now.moments.items (W.contents out.old) (W.contents out.new)) }
{
    let (network, steps, moments) = (run.network(), &run.steps, &run.moments);
    write_steps(alloc, json, network, directory, steps, moments, out)?;
    Ok(())
}

// Does the script of a scenario, and writes the states of its steps.
fn show_script<H: Host, W: Write>(
    rt: &H,
    alloc: Global,
    json: bool,
    text: &str,
    out: &mut W,
) -> Result<(), Fault>
    requires { length text.now ≤ most_bytes }
    ensures { OnOk result (IsRunToEnd
        (λ d f. IsRunShown json d f (W.contents out.old) (W.contents out.new)) text.now) }
{
    let plan = read_plan(alloc, text)?;
    let mut states = States {
        alloc,
        json,
        is_unwritten: false,
    };
    run_quietly(rt, alloc, plan, &mut states, out)?;
    if states.is_unwritten {
        return Err(Fault::from(FaultKind::Unwritable));
    }
    Ok(())
}

// Writes the states of a run that has come to its end.
#[derive(Drop)]
struct States {
    alloc: Global,
    json: bool,
    // Whether a write has failed.
    is_unwritten: bool,
}

impl Keeper for States {
    ghost use Rattle.std.specs.Prelude.{◌≡◌, false};
    ghost use Rattle.view.specs.Shown.{IsRunShown};

    ghost keeps = { λ old d f before after new. new.is_unwritten ≡ false → IsRunShown old.json d f before after };

    fn keep<B: FabricName, W: Write>(
        &mut self,
        fabric: &Fabric<B>,
        directory: &Directory,
        kept: &mut W,
    ) -> Result<(), NoMemory> {
        let network = fabric.network();
        let steps = fabric.journal();
        match write_steps(self.alloc, self.json, network, directory, steps, &[], kept) {
            Ok(()) => Ok(()),
            Err(FaultKind::Unwritable) => {
                self.is_unwritten = true;
                Ok(())
            }
            Err(_) => Err(NoMemory),
        }
    }
}

// Writes the states of lawful steps, as lines or in a page.
fn write_steps<W: Write>(
    alloc: Global,
    json: bool,
    network: &Network,
    directory: &Directory,
    steps: &[Step],
    moments: &[u64],
    out: &mut W,
) -> Result<(), FaultKind>
    requires { (w : model.World) × Runs (model.opening network.now) steps.now w }
    ensures { OnOk result
        (IsWritten json network.now directory.now steps.now moments.now (W.contents out.old) (W.contents out.new)) }
{
    if json {
        return write_states(alloc, network, directory, steps, moments, 1, out);
    }
    let states = states_of_page(alloc, network, directory, steps, moments)?;
    match write_page(&states, out) {
        Ok(()) => Ok(()),
        Err(_) => Err(FaultKind::Unwritable),
    }
}

// The states of a page: after every step, or where they are more bytes than a page has, after every second, and so on;
// and at last, of however many bytes, at the beginning and the end.
fn states_of_page(
    alloc: Global,
    network: &Network,
    directory: &Directory,
    steps: &[Step],
    moments: &[u64],
) -> Result<Vec<u8>, FaultKind>
    requires { (w : model.World) × Runs (model.opening network.now) steps.now w }
    ensures { IfOk result (λ states. (every : ℕ)
        × IsStatesText network.now directory.now steps.now moments.now every states.items
        × IsShort steps.now every states.items) }
{
    let mut every: usize = 1;
    for _ in 0..20 {
        if every >= steps.len() {
            break;
        }
        let mut page = Limited::new(alloc);
        match write_states(alloc, network, directory, steps, moments, every, &mut page) {
            Ok(()) => return Ok(page.bytes),
            Err(FaultKind::Unwritable) => every = every.saturating_mul(2),
            Err(fault) => return Err(fault),
        }
    }
    let mut page = Vec::new(alloc);
    let last = steps.len();
    write_states(alloc, network, directory, steps, moments, last, &mut page)?;
    Ok(page)
}
