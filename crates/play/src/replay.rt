//! Replays a journal over the network of its scenario.

ghost use Rattle.std.specs.Prelude.{◌≡◌, ◌⊎◌, ◌≤◌, ◌<◌, IfOk, IfErr, OnOk, OnErr, MatchOption, length, take};
ghost use Rattle.network_model.specs.{Journal.most_steps, Run.Runs, Step.Lawful};
ghost use Rattle.world.specs.Steps.{CanBeRefused, StopsAt};
ghost use Rattle.plans.specs.Faults.{IsWantOfMemory, OfBytes};
ghost use Rattle.interpreter.specs.Nets.{counted_after};
ghost use Rattle.play.specs.Replays.{Replays, StepsReplay, StopsReplay, replay_refusal};

use crate::checking::read_plan_from;
use crate::program::Streams;
use advice::Brief;
use command_line::Format;
use fabric::MOST_STEPS;
use faults::FaultKind;
use interpreter::{Counted, Interpreter, Live, NoGate, PrintStyle, end_line, show_steps_done};
use journal::{Journal, StepText, Version, first_difference, read_journal};
use lines::{Ended, Line, Printer, print_report};
use network_model::{LinkSpec, NoMemory, Refusal, Step};
use plans::{Fault, Outcome, read_bytes};
use script::Directory;
use std::alloc::Global;
use std::io::{self, Read, Write};
use world::{Ran, World};

/// Where it is told how far a replay is, after how many steps each time.
const SLICE: usize = 4096;

/// Does the steps of a journal from the opening of its scenario's network, and compares the report of
/// what they made with the journal's, but for a journal of the first version. Both files are read whole
/// before the first step is done. What is told besides goes to `err`.
pub fn replay<R: Read + Drop, J: Read + Drop, W: Write, E: Write>(
    alloc: Global,
    scenario: R,
    journal: J,
    style: PrintStyle,
    streams: &mut Streams<'_, '_, W, E>,
) -> Result<Outcome, Fault>
    ensures ok { IfOk result (λ end. OfBytes (R.remaining scenario) (λ bytes.
        OfBytes (J.remaining journal) (λ lines. Replays bytes lines end))) }
    ensures fault { IfErr result (λ e. OfBytes (R.remaining scenario) (λ bytes.
        StopsReplay bytes (J.remaining journal) e)) }
{
    let plan = read_plan_from(alloc, scenario)?;
    let lines = read_bytes(alloc, journal)?;
    let journal = read_journal(
        alloc,
        plan.directory.names(),
        plan.network.links(),
        plan.network.attachments(),
        &lines,
    )?;
    let mut live = Counted::open(alloc, plan.network)?;
    let interpreter = Interpreter {
        alloc,
        gate: &NoGate,
        directory: &plan.directory,
        style,
    };
    do_journal(&interpreter, &mut live, &journal, streams)
}

// Does the steps of a journal, and compares the reports.
fn do_journal<W: Write, E: Write>(
    interpreter: &Interpreter<'_, NoGate>,
    live: &mut Counted,
    journal: &Journal<'_>,
    streams: &mut Streams<'_, '_, W, E>,
) -> Result<Outcome, Fault>
    requires { (live.old).simulation.steps ≡ 0 }
    ensures ok { IfOk result (StepsReplay journal.now.version journal.now.steps.items
        (live.old).simulation.world (live.new).simulation.world) }
    ensures fault { IfErr result IsWantOfMemory }
{
    let progress = interpreter.style.progress;
    let ran = do_steps(live, &journal.steps, progress, streams.err);
    end_line(progress, streams.err);
    let printer = interpreter.printer();
    if let Some(refusal) = ran.refusal {
        let step = ran.done + 1;
        let fault = FaultKind::from(refusal);
        let refused = Ended::Refused { step, fault };
        let _ = printer.print(&Line::Ended(refused), streams.out);
        if interpreter.style.explain {
            let _ = streams.out.flush();
            let (directory, links) = (interpreter.directory, live.network().links());
            let _ = explain_refusal(directory, links, journal, ran.done, refusal, streams.err);
        }
        return Ok(Outcome::Refused);
    }
    match journal.version {
        Version::One => {
            let done = Ended::StepsDone { steps: ran.done };
            let _ = printer.print(&Line::Ended(done), streams.out);
            Ok(Outcome::Done)
        }
        Version::Two => compare(interpreter, live.world(), journal, streams),
    }
}

// Tells of the step that is refused after so many: its line of the journal, when its refusal comes, and what to do.
fn explain_refusal<E: Write>(
    directory: &Directory,
    links: &[LinkSpec],
    journal: &Journal<'_>,
    done: usize,
    refusal: Refusal,
    err: &mut E,
) -> io::Result<()> {
    // The steps begin in line 2.
    let line = done.saturating_add(2);
    if let Some(&step) = journal.steps.get(done) {
        let step = StepText(directory, links, step);
        writeln!(err, "  line {line} of the journal: {step}")?;
    }
    write!(err, "{}", Brief(FaultKind::from(refusal)))
}

// Does the steps in order, up to the first that is refused, or for which a journal has no place, and tells how far it
// is, where that is asked for.
fn do_steps<E: Write>(live: &mut Counted, steps: &[Step], progress: bool, err: &mut E) -> Ran
    requires { (live.old).simulation.steps ≡ 0 }
    ensures runs { Runs (live.old).simulation.world (take result.done steps.now) (live.new).simulation.world }
    ensures stop { MatchOption result.refusal (result.done ≡ length steps.now)
        (StopsAt (replay_refusal (live.new).simulation.world result.done) steps.now result.done) }
    ensures done { result.done ≤ length steps.now }
    ensures few { result.done ≤ most_steps }
{
    let all = steps.len();
    for (done, &step) in steps.iter().enumerate() {
        if done % SLICE == 0 {
            show_steps_done(progress, done, all, err);
        }
        if let Err(refusal) = do_next(live, step, done) {
            return Ran {
                done,
                refusal: Some(refusal),
            };
        }
    }
    show_steps_done(progress, all, all, err);
    Ran {
        done: all,
        refusal: None,
    }
}

// Does the step after so many, if a journal has a place for it.
fn do_next(live: &mut Counted, step: Step, done: usize) -> Result<(), Refusal>
    requires { (live.old).simulation.steps ≡ done }
    ensures ok { OnOk result (Lawful (live.old).simulation.world step
        × (live.new ≡ counted_after live.old step)) }
    ensures place { OnOk result (done < most_steps) }
    ensures err { OnErr result (live.new ≡ live.old) }
    ensures cause { IfErr result (CanBeRefused (replay_refusal (live.old).simulation.world done step)) }
{
    if done >= MOST_STEPS {
        return Err(Refusal::JournalFull);
    }
    live.step(step)
}

// Compares the report of what the steps of a journal made with the journal's.
fn compare<W: Write, E: Write>(
    interpreter: &Interpreter<'_, NoGate>,
    world: &World,
    journal: &Journal<'_>,
    streams: &mut Streams<'_, '_, W, E>,
) -> Result<Outcome, Fault>
    ensures end { IfOk result (λ end. (end ≡ Outcome.Done) ⊎ (end ≡ Outcome.Differs)) }
    ensures fault { IfErr result IsWantOfMemory }
{
    let printer = interpreter.printer();
    let mut printed = Vec::new(interpreter.alloc);
    let kept = Printer {
        directory: interpreter.directory,
        format: Format::Text,
        listed: false,
    };
    if print_report(world, &kept, &mut printed).is_err() {
        return Err(Fault::from(NoMemory));
    }
    match first_difference(&printed, journal.report) {
        Some(line) => {
            let differs = Ended::Differs { line };
            let _ = printer.print(&Line::Ended(differs), streams.out);
            if interpreter.style.explain {
                let _ = streams.out.flush();
                let _ = explain_difference(line, journal.report, &printed, streams.err);
            }
            Ok(Outcome::Differs)
        }
        None => {
            let steps = journal.steps.len();
            let agrees = Ended::Agrees { steps };
            let _ = printer.print(&Line::Ended(agrees), streams.out);
            Ok(Outcome::Done)
        }
    }
}

// Tells of the line of a report that differs: as the journal has it, and as the replay has it.
fn explain_difference<E: Write>(
    number: usize,
    journal: &[u8],
    replay: &[u8],
    err: &mut E,
) -> io::Result<()> {
    writeln!(err, "  the journal has: {}", shown_line(journal, number))?;
    writeln!(err, "  the replay has:  {}", shown_line(replay, number))
}

// The line of this number, from 1. What is not safe to print on a terminal is not shown.
fn shown_line(report: &[u8], number: usize) -> &str {
    let Ok(text) = str::from_utf8(report) else {
        return "a line that is not UTF-8";
    };
    match text.lines().nth(number.saturating_sub(1)) {
        Some(line) if is_plain(line) => line,
        Some(_) => "a line that is long, or has other characters than ASCII",
        None => "no line",
    }
}

// Whether a line is short, and has only what can be seen.
fn is_plain(line: &str) -> bool {
    line.len() <= 200 && line.bytes().all(|byte| matches!(byte, b' '..=b'~'))
}
