//! What became of steps.

ghost use Rattle.std.specs.Prelude.{Some};
ghost use Rattle.lines.specs.Formats.{in_format};
ghost use Rattle.lines.specs.Texts.{counts_text, ended_text, next_text, tried_text};
ghost use Rattle.lines.specs.Objects.{counts_json, ended_json, next_json, tried_json};

use crate::told::Told;
use course::Sent;
use faults::FaultKind;
use journal::StepText;
use network_model::{LinkSpec, Step};
use std::fmt;

/// How many steps were done, and how many messages of each kind they put on links.
#[derive(Clone, Copy)]
pub struct Counts {
    pub steps: u64,
    pub sent: Sent,
}

impl Counts {
    /// Nothing was done.
    pub fn none() -> Counts {
        Counts {
            steps: 0,
            sent: Sent::none(),
        }
    }

    /// What was done after so much was done before.
    pub fn since(self, before: Counts) -> Counts {
        let (now, then) = (self.sent, before.sent);
        Counts {
            steps: self.steps.wrapping_sub(before.steps),
            sent: Sent {
                updates: now.updates.wrapping_sub(then.updates),
                queries: now.queries.wrapping_sub(then.queries),
                replies: now.replies.wrapping_sub(then.replies),
            },
        }
    }
}

/// How a run or a replay ended.
#[derive(Clone, Copy)]
pub enum Ended {
    /// A run did so many steps.
    Done { steps: u64 },
    /// So did a run in simulated time, whose last event was at this moment.
    AtRest { steps: u64, moment: u64 },
    /// So many steps of a journal were done, and the report is the journal's.
    Agrees { steps: usize },
    /// So many steps of a journal of the first version were done.
    StepsDone { steps: usize },
    /// The report differs from the journal's at this line, from 1.
    Differs { line: usize },
    /// This step of a journal, from 1, was refused.
    Refused { step: usize, fault: FaultKind },
}

/// What a router has to do next, in a network of these links.
#[derive(Clone, Copy)]
pub struct NextLine<'a> {
    pub router: u16,
    pub links: &'a [LinkSpec],
    pub step: Option<Step>,
}

impl fmt::Display for Told<'_, &NextLine<'_>> {
    ghost output = { λ t. Some (in_format t.0.format
        (next_text t.0.directory.now t.1.now.links.now t.1.now.router t.1.now.step)
        (next_json t.0.directory.now t.1.now.links.now t.1.now.router t.1.now.step)) };

    fn fmt<W: fmt::Write>(&self, f: &mut fmt::Formatter<W>) -> fmt::Result {
        let Told(by, line) = *self;
        let name = by.directory.name(Some(line.router));
        match line.step {
            Some(step) => {
                let step = StepText(by.directory, line.links, step);
                write_either!(f, by;
                    "next {name}: {step}",
                    "{{\"kind\":\"next\",\"router\":\"{name}\",\"step\":\"{step}\"}}")
            }
            None => write_either!(f, by;
                "next {name}: nothing",
                "{{\"kind\":\"next\",\"router\":\"{name}\",\"step\":null}}"),
        }
    }
}

// Why a step that was tried was refused, if it was.
impl fmt::Display for Told<'_, Option<FaultKind>> {
    ghost output = { λ t. Some (in_format t.0.format (tried_text t.1) (tried_json t.1)) };

    fn fmt<W: fmt::Write>(&self, f: &mut fmt::Formatter<W>) -> fmt::Result {
        let Told(by, fault) = *self;
        match fault {
            None => write_either!(f, by; "done", "{{\"kind\":\"try\",\"refused\":null}}"),
            Some(fault) =>
                write_either!(f, by; "refused {fault}", "{{\"kind\":\"try\",\"refused\":\"{fault}\"}}"),
        }
    }
}

// Words, or members.
impl fmt::Display for Told<'_, Counts> {
    ghost output = { λ t. Some (in_format t.0.format (counts_text t.1) (counts_json t.1)) };

    fn fmt<W: fmt::Write>(&self, f: &mut fmt::Formatter<W>) -> fmt::Result {
        let Told(by, Counts { steps, sent }) = *self;
        let (updates, queries, replies) = (sent.updates, sent.queries, sent.replies);
        write_either!(f, by;
            "{steps} steps, {updates} updates {queries} queries {replies} replies",
            "\"steps\":{steps},\"updates\":{updates},\"queries\":{queries},\"replies\":{replies}")
    }
}

impl fmt::Display for Told<'_, Ended> {
    ghost output = { λ t. Some (in_format t.0.format (ended_text t.1) (ended_json t.1)) };

    fn fmt<W: fmt::Write>(&self, f: &mut fmt::Formatter<W>) -> fmt::Result {
        let Told(by, ended) = *self;
        match ended {
            Ended::Done { steps } => write_either!(f, by;
                "done: {steps} steps",
                "{{\"kind\":\"done\",\"steps\":{steps}}}"),
            Ended::AtRest { steps, moment } => write_either!(f, by;
                "done: {steps} steps, at rest at {moment}",
                "{{\"kind\":\"rest\",\"steps\":{steps},\"moment\":{moment}}}"),
            Ended::Agrees { steps } => write_either!(f, by;
                "replay agrees: {steps} steps",
                "{{\"kind\":\"replay\",\"result\":\"agrees\",\"steps\":{steps}}}"),
            Ended::StepsDone { steps } => write_either!(f, by;
                "replay done: {steps} steps",
                "{{\"kind\":\"replay\",\"result\":\"done\",\"steps\":{steps}}}"),
            Ended::Differs { line } => write_either!(f, by;
                "replay differs: report line {line}",
                "{{\"kind\":\"replay\",\"result\":\"differs\",\"report_line\":{line}}}"),
            Ended::Refused { step, fault } => write_either!(f, by;
                "step {step} refused: {fault}",
                "{{\"kind\":\"replay\",\"result\":\"refused\",\"step\":{step},\"refused\":\"{fault}\"}}"),
        }
    }
}
