//! Steps as C writes and reads them.

ghost use Rattle.std.specs.Prelude.{◌≡◌, None, Some, IfOk, IfErr};
ghost use Rattle.network_calls.specs.Steps.{parts_of_step, parts_of_step_fault, plain_parts, step_of};

use crate::parts::read_cost;
use c_interface::{CallFault, read_prefix};
use network_model::Step;

/// A step: its kind, 0 to 7 in the order of [`Step`]'s variants, its router or link, and what the kind needs:
/// a port, a prefix, a cost. Of a step that is shown the other fields are 0, and kind 255 is no step.
#[repr(C)]
#[derive(Clone, Copy, Debug, PartialEq, Eq)]
pub struct StepParts {
    pub addr: u32,
    pub cost: u32,
    pub subject: u16,
    pub kind: u8,
    pub port: u8,
    pub len: u8,
}

// A step of a kind, a router or link, and a port.
fn plain(kind: u8, subject: u16, port: u8) -> StepParts
    ensures { result ≡ plain_parts kind subject port }
{
    StepParts {
        addr: 0,
        cost: 0,
        subject,
        kind,
        port,
        len: 0,
    }
}

impl StepParts {
    /// The step of these parts.
    pub fn read(self) -> Result<Step, CallFault>
        ensures ok { IfOk result (λ s. (parts_of_step_fault self ≡ None) × (s ≡ step_of self)) }
        ensures err { IfErr result (λ f. parts_of_step_fault self ≡ Some f) }
    {
        let (router, port) = (self.subject, self.port);
        Ok(match self.kind {
            0 => Step::LinkUp { link: router },
            1 => Step::LinkDown { link: router },
            2 => {
                let cost = read_cost(self.cost)?;
                Step::SetCost { router, port, cost }
            }
            3 => Step::Deliver { router, port },
            4 => Step::Publish { router },
            5 => Step::Release { router },
            6 => {
                let prefix = read_prefix(self.addr, self.len)?;
                let cost = read_cost(self.cost)?;
                Step::Attach {
                    router,
                    prefix,
                    cost,
                }
            }
            7 => {
                let prefix = read_prefix(self.addr, self.len)?;
                Step::Detach { router, prefix }
            }
            _ => return Err(CallFault::BadKind),
        })
    }

    /// The parts of a step, or of none.
    pub fn of(step: Option<Step>) -> StepParts
        ensures { result ≡ parts_of_step step }
    {
        let Some(step) = step else {
            return plain(255, 0, 0);
        };
        match step {
            Step::LinkUp { link } => plain(0, link, 0),
            Step::LinkDown { link } => plain(1, link, 0),
            Step::SetCost { router, port, cost } => StepParts {
                cost: cost.value(),
                ..plain(2, router, port)
            },
            Step::Deliver { router, port } => plain(3, router, port),
            Step::Publish { router } => plain(4, router, 0),
            Step::Release { router } => plain(5, router, 0),
            Step::Attach {
                router,
                prefix,
                cost,
            } => StepParts {
                addr: prefix.addr(),
                cost: cost.value(),
                len: prefix.len(),
                ..plain(6, router, 0)
            },
            Step::Detach { router, prefix } => StepParts {
                addr: prefix.addr(),
                len: prefix.len(),
                ..plain(7, router, 0)
            },
        }
    }
}
