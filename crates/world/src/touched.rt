//! What a step can change.

ghost use Rattle.std.specs.Prelude.{◌≡◌, option_and_then};
ghost use Rattle.network_model.specs.Step as steps;
ghost use Rattle.world.specs.{Rest.link_number, Touched.LeavesOthers, Touched.touched_by};

use crate::world::World;
use network_model::{SmallAllocator, Step};

/// What a step can change: at most one link, one router's attachments, and one router, by their numbers.
#[derive(Clone, Copy)]
pub struct Touched {
    pub link: Option<u16>,
    pub attachments: Option<u16>,
    pub router: Option<u16>,
}

impl Touched {
    /// What the step can change of this world, if it is done there. All else stays.
    #[tactic(auto, using(crate::proofs::Untouched::untouched_by))]
    pub fn by<A: SmallAllocator>(step: &Step, world: &World<A>) -> Touched
        ensures named { result ≡ touched_by step.now world.now }
        ensures others { LeavesOthers result world.now (steps.next world.now step.now) }
    {
        match *step {
            Step::LinkUp { link } | Step::LinkDown { link } => Touched {
                link: Some(link),
                attachments: None,
                router: None,
            },
            Step::SetCost {
                router,
                port,
                cost: _,
            } => Touched {
                link: link_at(world, router, port),
                attachments: None,
                router: None,
            },
            Step::Deliver { router, port } => Touched {
                link: link_at(world, router, port),
                attachments: Some(router),
                router: Some(router),
            },
            Step::Publish { router } => Touched {
                link: None,
                attachments: None,
                router: Some(router),
            },
            Step::Release { router } => Touched {
                link: released_to(world, router),
                attachments: None,
                router: Some(router),
            },
            Step::Attach {
                router,
                prefix: _,
                cost: _,
            }
            | Step::Detach { router, prefix: _ } => Touched {
                link: None,
                attachments: Some(router),
                router: None,
            },
        }
    }
}

// The number of the link at a router's port.
fn link_at<A: SmallAllocator>(world: &World<A>, router: u16, port: u8) -> Option<u16>
    ensures { result ≡ link_number world.now router port }
{
    Some(world.port(router, port)?.link)
}

// The number of the link for which a router releases its next message.
fn released_to<A: SmallAllocator>(world: &World<A>, router: u16) -> Option<u16>
    ensures { result ≡ option_and_then (λ h. link_number world.now router h.port)
        (steps.release_at world.now router) }
{
    let held = world.routers().get(usize::from(router))?.front()?;
    link_at(world, router, held.port)
}
