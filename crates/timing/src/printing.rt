//! Tells what came of each change.

use crate::snapshot::{Begun, Snapshot};
use crate::tally::{Span, began_in, count_spells};
use faults::FaultKind;
use lines::{ChangeLine, Effect, Line, Printer, SpellLine};
use network_model::LinkSpec;
use std::io::Write;
use timed_reports::{Report, Spell};

/// Prints a line for each change, in the order of the moments. What is told of a change is what was done until
/// the next one was, or until the run ended so far. If spells are recorded, those that began in that time are told
/// below, in the order in which they ended. A write that fails is lost.
pub fn print_changes<W: Write>(
    printer: &Printer<'_>,
    links: &[LinkSpec],
    begun: &[Begun],
    end: Snapshot,
    report: Option<&Report>,
    out: &mut W,
) {
    for (place, one) in begun.iter().enumerate() {
        let (after, until) = next_change(begun, place, end);
        let span = Span {
            from: one.event.moment,
            until,
        };
        let came = match one.refusal {
            Some(refusal) => Err(FaultKind::from(refusal)),
            None => Ok(effect_of(one.before, after, span, report)),
        };
        let line = ChangeLine {
            moment: one.event.moment,
            links,
            step: one.event.step,
            came,
        };
        let _ = printer.print(&Line::Changed(line), out);
        if let Some(report) = report
            && came.is_ok()
        {
            print_spells(printer, false, span, report.computations(), out);
            print_spells(printer, true, span, report.outages(), out);
        }
    }
}

// How far the run was before the change that was done next, and its moment; or how far it was at its end.
fn next_change(begun: &[Begun], place: usize, end: Snapshot) -> (Snapshot, Option<u64>) {
    for later in begun.iter().skip(place.saturating_add(1)) {
        if later.refusal.is_none() {
            return (later.before, Some(later.event.moment));
        }
    }
    (end, None)
}

// What came of a change that was done, in its time.
fn effect_of(before: Snapshot, after: Snapshot, span: Span, report: Option<&Report>) -> Effect {
    let rest = after.now.saturating_sub(span.from);
    let spells = match report {
        Some(report) => Some((
            count_spells(span, report.computations()),
            count_spells(span, report.outages()),
        )),
        None => None,
    };
    Effect {
        rest: if after.rests { Some(rest) } else { None },
        counts: after.counts.since(before.counts),
        spells,
    }
}

// Tells the spells of one kind that began in this time: outages, or else computations.
fn print_spells<W: Write>(
    printer: &Printer<'_>,
    outage: bool,
    span: Span,
    spells: &[Spell],
    out: &mut W,
) {
    for spell in spells {
        if began_in(span, spell) {
            let line = SpellLine {
                outage,
                router: spell.router,
                prefix: spell.prefix,
                from: spell.from,
                to: spell.to,
            };
            let _ = printer.print(&Line::Spell(line), out);
        }
    }
}
