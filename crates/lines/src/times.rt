//! What is told of a run in simulated time. Moments and times are in microseconds.

ghost use Rattle.std.specs.Prelude.{◌≡◌, Some};
ghost use Rattle.lines.specs.Formats.{in_format};
ghost use Rattle.lines.specs.Texts.{came_text, change_text, effect_text, rest_text, spell_text, spell_word, tallies_text};
ghost use Rattle.lines.specs.Objects.{came_json, change_json, effect_json, rest_json, spell_json, tallies_json};

use crate::ends::Counts;
use crate::told::Told;
use faults::FaultKind;
use ipv4_prefix::Prefix;
use journal::StepText;
use network_model::{LinkSpec, Step};
use std::fmt;

/// How many spells there were, and how many microseconds the longest took.
#[derive(Clone, Copy)]
pub struct Tally {
    pub count: usize,
    pub longest: u64,
}

/// What came of a change.
#[derive(Clone, Copy)]
pub struct Effect {
    /// How much later the network was at rest, if it was.
    pub rest: Option<u64>,
    /// What was done since.
    pub counts: Counts,
    /// The computations and the outages that began since, if they are recorded.
    pub spells: Option<(Tally, Tally)>,
}

/// A change in a network of these links, and what came of it, or why it was refused.
#[derive(Clone, Copy)]
pub struct ChangeLine<'a> {
    pub moment: u64,
    pub links: &'a [LinkSpec],
    pub step: Step,
    pub came: Result<Effect, FaultKind>,
}

/// A computation of a router's machine for a prefix, or an outage of a router, that has ended.
#[derive(Clone, Copy)]
pub struct SpellLine {
    /// Whether it is an outage, and else a computation.
    pub outage: bool,
    pub router: u16,
    pub prefix: Prefix,
    pub from: u64,
    pub to: u64,
}

// What a spell is.
fn spell_words(outage: bool) -> &'static str
    ensures { result.now ≡ spell_word outage }
{
    if outage { "outage" } else { "computation" }
}

// How much later a network was at rest, if it was: words, or a member.
impl fmt::Display for Told<'_, Option<u64>> {
    ghost output = { λ t. Some (in_format t.0.format (rest_text t.1) (rest_json t.1)) };

    fn fmt<W: fmt::Write>(&self, f: &mut fmt::Formatter<W>) -> fmt::Result {
        let Told(by, rest) = *self;
        match rest {
            Some(rest) => write_either!(f, by; "at rest {rest} later", "\"rest\":{rest}"),
            None => write_either!(f, by; "not at rest", "\"rest\":null"),
        }
    }
}

// Computations and outages, if they are recorded: what is told of them behind something else.
impl fmt::Display for Told<'_, Option<(Tally, Tally)>> {
    ghost output = { λ t. Some (in_format t.0.format (tallies_text t.1) (tallies_json t.1)) };

    fn fmt<W: fmt::Write>(&self, f: &mut fmt::Formatter<W>) -> fmt::Result {
        let Told(by, spells) = *self;
        let Some((computations, outages)) = spells else {
            return Ok(());
        };
        let (count, longest) = (computations.count, computations.longest);
        let (cuts, cut) = (outages.count, outages.longest);
        write_either!(f, by;
            ", {count} computations of at most {longest}, {cuts} outages of at most {cut}",
            ",\"computations\":{count},\"longest_computation\":{longest},\"outages\":{cuts},\"longest_outage\":{cut}")
    }
}

// Words, or members.
impl fmt::Display for Told<'_, Effect> {
    ghost output = { λ t. Some (in_format t.0.format (effect_text t.1) (effect_json t.1)) };

    fn fmt<W: fmt::Write>(&self, f: &mut fmt::Formatter<W>) -> fmt::Result {
        let Told(by, effect) = *self;
        let (rest, counts) = (Told(by, effect.rest), Told(by, effect.counts));
        let spells = Told(by, effect.spells);
        write_either!(f, by; "{rest}, {counts}{spells}", "{rest},{counts}{spells}")
    }
}

// What came of a change, or why it was refused: words, or members.
impl fmt::Display for Told<'_, Result<Effect, FaultKind>> {
    ghost output = { λ t. Some (in_format t.0.format (came_text t.1) (came_json t.1)) };

    fn fmt<W: fmt::Write>(&self, f: &mut fmt::Formatter<W>) -> fmt::Result {
        let Told(by, came) = *self;
        match came {
            Ok(effect) => write!(f, "{}", Told(by, effect)),
            Err(fault) => write_either!(f, by; "refused {fault}", "\"refused\":\"{fault}\""),
        }
    }
}

impl fmt::Display for Told<'_, &ChangeLine<'_>> {
    ghost output = { λ t. Some (in_format t.0.format
        (change_text t.0.directory.now t.1.now) (change_json t.0.directory.now t.1.now)) };

    fn fmt<W: fmt::Write>(&self, f: &mut fmt::Formatter<W>) -> fmt::Result {
        let Told(by, line) = *self;
        let (moment, came) = (line.moment, Told(by, line.came));
        let step = StepText(by.directory, line.links, line.step);
        write_either!(f, by;
            "{moment} {step}: {came}",
            "{{\"kind\":\"change\",\"moment\":{moment},\"step\":\"{step}\",{came}}}")
    }
}

impl fmt::Display for Told<'_, SpellLine> {
    ghost output = { λ t. Some (in_format t.0.format
        (spell_text t.0.directory.now t.1) (spell_json t.0.directory.now t.1)) };

    fn fmt<W: fmt::Write>(&self, f: &mut fmt::Formatter<W>) -> fmt::Result {
        let Told(by, line) = *self;
        let (kind, prefix) = (spell_words(line.outage), line.prefix);
        let name = by.directory.name(Some(line.router));
        let (from, to) = (line.from, line.to);
        write_either!(f, by;
            "  {kind} at {name} for {prefix} from {from} to {to}",
            "{{\"kind\":\"{kind}\",\"router\":\"{name}\",\"prefix\":\"{prefix}\",\"from\":{from},\"to\":{to}}}")
    }
}
