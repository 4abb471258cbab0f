//! What the program does, over any readers and writers.

ghost use Rattle.std.specs.Prelude.{◌≡◌, ◌++◌, false, Some, IfOk, IfErr, OnErr, OnOk, is_some};
ghost use Rattle.fabric.specs.Fabric.{opening_fabric};
ghost use Rattle.plans.specs.Faults.{OfBytes};
ghost use Rattle.interpreter.specs.Nets.{counted_meaning, kept_meaning, opening_counted};
ghost use Rattle.play.specs.{Ends.KeepsJournal, Outcomes.Ends, Outcomes.ProgramOutcome, Outcomes.StopsWords};
ghost use Rattle.play.specs.Works.{Comes, IsOfNothing, IsOfWorkers, IsWorked, Stops, StopsOn, StopsWork, Works, none_kept};

use crate::checking::{check, read_plan_from};
use crate::keeping::{JournalText, Keeper};
use crate::opening::{Hands, with_fabric, with_simulation};
use crate::replay::replay;
use advice::Page;
use command_line::{Format, Words};
use interpreter::{Host, NoGate, PrintStyle, THRESHOLDS, Thresholds, TurnGate};
use network_model::NoMemory;
use plans::{Fault, Outcome, Plan, refuse};
use std::alloc::Global;
use std::io::{self, Empty, Read, Write};
use timing::time;

/// By what the program works.
#[derive(Drop)]
pub struct Platform<'r, 'g, H, G> {
    /// The handle of its machine.
    pub rt: &'r H,
    pub alloc: Global,
    /// With how many rows to publish threads are started.
    pub thresholds: Thresholds,
    /// What these threads call.
    pub gate: &'g G,
}

/// Where the program prints, and where it tells of faults. What cannot be written is lost.
#[derive(Drop)]
pub struct Streams<'o, 'e, W, E> {
    pub out: &'o mut W,
    pub err: &'e mut E,
}

/// Does what the words ask for, and answers the exit status. Only a replay, a shell and a run in simulated time
/// read `journal`: the shell reads its commands there, and the run its document of times. A fault is a line on `err`,
/// and where the program stops for it, it is in `told`. A write to `out` or `err` that fails is lost, and changes
/// nothing else, but that a shell ends at an answer which nobody reads. Where a run or a shell ends with status 0,
/// its journal's text is added to `kept`, if it is wanted. If the program stops for a fault, nothing is added.
pub fn play<H: Host, G: TurnGate + Sync, R: Read + Drop, J: Read + Drop, W: Write, E: Write>(
    by: &Platform<'_, '_, H, G>,
    words: &Words<'_>,
    scenario: R,
    journal: J,
    streams: &mut Streams<'_, '_, W, E>,
    wanted: bool,
    kept: &mut Vec<u8>,
    told: &mut Option<Fault>,
) -> u8
    ensures { ProgramOutcome wanted words.now (R.remaining scenario) (J.remaining journal)
        kept.old.items kept.new.items told.old told.new result }
{
    match do_words(by, words, scenario, journal, streams, wanted, kept) {
        Ok(end) => end.status(),
        Err(fault) => {
            // What was printed comes before the fault, also where `out` keeps it for a while.
            let _ = streams.out.flush();
            *told = Some(fault);
            refuse(fault, streams.err)
        }
    }
}

// Does what the words ask for.
fn do_words<H: Host, G: TurnGate + Sync, R: Read + Drop, J: Read + Drop, W: Write, E: Write>(
    by: &Platform<'_, '_, H, G>,
    words: &Words<'_>,
    scenario: R,
    journal: J,
    streams: &mut Streams<'_, '_, W, E>,
    wanted: bool,
    kept: &mut Vec<u8>,
) -> Result<Outcome, Fault>
    ensures ok { IfOk result
        (Ends wanted words.now (R.remaining scenario)
        (J.remaining journal) kept.old.items kept.new.items) }
    ensures fault { IfErr result (StopsWords words.now (R.remaining scenario) (J.remaining journal)) }
    ensures kept { OnErr result (kept.new.items ≡ kept.old.items) }
{
    match *words {
        Words::Check { .. } => check(by.alloc, scenario, streams.out),
        Words::Run {
            threads,
            workers,
            explain,
            format,
            progress,
            no_journal,
            ..
        } => {
            let style = PrintStyle {
                explain,
                format,
                progress,
                is_shell: false,
            };
            if no_journal {
                return count(by, scenario, style, None::<J>, streams);
            }
            let hands = Hands { threads, workers };
            keep(by, scenario, hands, wanted, style, None::<J>, streams, kept)
        }
        Words::Replay {
            explain,
            format,
            progress,
            ..
        } => {
            let style = PrintStyle {
                explain,
                format,
                progress,
                is_shell: false,
            };
            replay(by.alloc, scenario, journal, style, streams)
        }
        Words::Time { spells, format, .. } => {
            time(by.alloc, scenario, journal, format, spells, streams.out)
        }
        Words::Explain { kind } => {
            let _ = write!(streams.out, "{}", Page(kind));
            Ok(Outcome::Done)
        }
        Words::Shell {
            explain,
            format,
            no_journal,
            ..
        } => {
            let style = PrintStyle {
                explain,
                format,
                progress: false,
                is_shell: true,
            };
            let typed = Some(journal);
            if no_journal {
                return count(by, scenario, style, typed, streams);
            }
            let hands = Hands {
                threads: 1,
                workers: 1,
            };
            keep(by, scenario, hands, wanted, style, typed, streams, kept)
        }
    }
}

// Does the script of a scenario, or the lines that are typed, on a network whose steps are kept, and adds the text of
// its journal, if it is wanted.
fn keep<H: Host, G: TurnGate + Sync, R: Read + Drop, J: Read + Drop, W: Write, E: Write>(
    by: &Platform<'_, '_, H, G>,
    scenario: R,
    hands: Hands,
    wanted: bool,
    style: PrintStyle,
    typed: Option<J>,
    streams: &mut Streams<'_, '_, W, E>,
    kept: &mut Vec<u8>,
) -> Result<Outcome, Fault>
    ensures ok { IfOk result (λ end. (end ≡ Outcome.Done) × OfBytes (R.remaining scenario)
        (IsWorked opening_fabric (Comes kept_meaning (is_some typed))
        (λ d f. KeepsJournal wanted d f (Some kept.old.items) (Some kept.new.items)))) }
    ensures fault { IfErr result (λ e. OfBytes (R.remaining scenario) (λ bytes.
        StopsOn opening_fabric IsOfWorkers (Stops kept_meaning (is_some typed)) bytes e)) }
    ensures kept { OnErr result (kept.new.items ≡ kept.old.items) }
{
    let plan = read_plan_from(by.alloc, scenario)?;
    let mut made = Vec::new(by.alloc);
    let keeper = &mut JournalText { wanted };
    with_fabric(by, plan, hands, style, typed, streams, keeper, &mut made)?;
    add(kept, made)?;
    Ok(Outcome::Done)
}

// Adds bytes behind those that are kept. If none are, nothing is copied.
fn add(kept: &mut Vec<u8>, mut made: Vec<u8>) -> Result<(), NoMemory>
    ensures ok { OnOk result (kept.new.items ≡ kept.old.items ++ made.items) }
    ensures err { OnErr result (kept.new.items ≡ kept.old.items) }
{
    if kept.is_empty() {
        *kept = made;
        return Ok(());
    }
    kept.append(&mut made)?;
    Ok(())
}

// The same on a network whose steps are counted. Nothing is kept.
fn count<H: Host, G: TurnGate + Sync, R: Read + Drop, J: Read + Drop, W: Write, E: Write>(
    by: &Platform<'_, '_, H, G>,
    scenario: R,
    style: PrintStyle,
    typed: Option<J>,
    streams: &mut Streams<'_, '_, W, E>,
) -> Result<Outcome, Fault>
    ensures ok { IfOk result (λ end. (end ≡ Outcome.Done) × OfBytes (R.remaining scenario)
        (IsWorked opening_counted (Comes counted_meaning (is_some typed)) none_kept)) }
    ensures fault { IfErr result (λ e. OfBytes (R.remaining scenario) (λ bytes.
        StopsOn opening_counted IsOfNothing (Stops counted_meaning (is_some typed)) bytes e)) }
{
    let plan = read_plan_from(by.alloc, scenario)?;
    with_simulation::<H, G, J, W, E>(by, plan, style, typed, streams)?;
    Ok(Outcome::Done)
}

/// Does the script of a plan by one thread and one worker, and has kept what is to be kept of the run. What the
/// script prints is lost, and nothing is told of how far it is.
pub fn run_quietly<H: Host, K: Keeper, V: Write>(
    rt: &H,
    alloc: Global,
    plan: Plan,
    keeper: &mut K,
    kept: &mut V,
) -> Result<(), Fault>
    ensures ok { OnOk result (Works opening_fabric (Comes kept_meaning false)
        (λ d f. K.keeps keeper.old d f (V.contents kept.old) (V.contents kept.new) keeper.new) plan) }
    ensures fault { IfErr result
        (StopsWork opening_fabric IsOfWorkers (Stops kept_meaning false) plan) }
{
    let by = Platform {
        rt,
        alloc,
        thresholds: THRESHOLDS,
        gate: &NoGate,
    };
    let hands = Hands {
        threads: 1,
        workers: 1,
    };
    let style = PrintStyle {
        explain: false,
        format: Format::Text,
        progress: false,
        is_shell: false,
    };
    let mut out = io::sink();
    let mut err = io::sink();
    // Of the type that the program's own writers have, so that no command is compiled once more.
    let mut out: &mut dyn Write = &mut out;
    let mut err: &mut dyn Write = &mut err;
    let mut streams = Streams {
        out: &mut out,
        err: &mut err,
    };
    let typed: Option<Empty> = None;
    with_fabric(&by, plan, hands, style, typed, &mut streams, keeper, kept)
}
