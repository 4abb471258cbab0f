//! The text of a step.

ghost use Rattle.std.specs.Prelude.{◌≡◌, Some};
ghost use Rattle.journal.specs.Steps.{end_a, end_b, step_text};

use network_model::{LinkSpec, Step};
use script::Directory;
use std::fmt;

/// The text of a step in a network of these links, as a script and a journal say it: `up A B`, `down A B`,
/// `cost A B C`, `deliver A B`, `publish A`, `release A`, `attach A PREFIX COST` or `detach A PREFIX`. The routers
/// of `up` and `down` come in the order of their link.
#[derive(Clone, Copy)]
pub struct StepText<'a, 'b>(pub &'a Directory, pub &'b [LinkSpec], pub Step);

// The routers at the ends of a link; none where there is no such link.
fn ends(links: &[LinkSpec], link: u16) -> (Option<u16>, Option<u16>)
    ensures a { result.0 ≡ end_a links.now link }
    ensures b { result.1 ≡ end_b links.now link }
{
    match links.get(usize::from(link)) {
        Some(link) => (Some(link.a), Some(link.b)),
        None => (None, None),
    }
}

impl fmt::Display for StepText<'_, '_> {
    ghost output = { λ t. Some (step_text t.0.now t.1.now t.2) };

    fn fmt<W: fmt::Write>(&self, f: &mut fmt::Formatter<W>) -> fmt::Result {
        let StepText(directory, links, step) = *self;
        match step {
            Step::LinkUp { link } => {
                let (a, b) = ends(links, link);
                let (a, b) = (directory.name(a), directory.name(b));
                write!(f, "up {a} {b}")
            }
            Step::LinkDown { link } => {
                let (a, b) = ends(links, link);
                let (a, b) = (directory.name(a), directory.name(b));
                write!(f, "down {a} {b}")
            }
            Step::SetCost { router, port, cost } => {
                let name = directory.name(Some(router));
                let across = directory.name(directory.neighbour(router, port));
                write!(f, "cost {name} {across} {cost}")
            }
            Step::Deliver { router, port } => {
                let name = directory.name(Some(router));
                let source = directory.name(directory.source(router, port));
                write!(f, "deliver {name} {source}")
            }
            Step::Publish { router } => write!(f, "publish {}", directory.name(Some(router))),
            Step::Release { router } => write!(f, "release {}", directory.name(Some(router))),
            Step::Attach {
                router,
                prefix,
                cost,
            } => {
                let name = directory.name(Some(router));
                write!(f, "attach {name} {prefix} {cost}")
            }
            Step::Detach { router, prefix } => {
                write!(f, "detach {} {prefix}", directory.name(Some(router)))
            }
        }
    }
}
