//! How many messages of each kind were put on links.

ghost use Rattle.std.specs.Prelude.{◌≡◌, ◌+◌, ◌^◌, ◌<◌};
ghost use Rattle.course.specs.Links.{HasLinksOfPorts};
ghost use Rattle.course.specs.Counts.{leaving, none_sent, sent_count, with_sent};

use metric::Kind;
use network_model::{SmallAllocator, Step};
use world::World;

/// How many messages of each kind were put on links. A message that is discarded as it is released, because
/// the session of its link is over, is none of them.
#[derive(Clone, Copy, Debug)]
pub struct Sent {
    pub updates: u64,
    pub queries: u64,
    pub replies: u64,
}

impl Sent {
    /// Nothing was sent.
    pub fn none() -> Sent
        ensures { result ≡ none_sent }
    {
        Sent {
            updates: 0,
            queries: 0,
            replies: 0,
        }
    }

    /// With the message of this kind, if one was sent.
    pub fn with(self, kind: Option<Kind>) -> Sent
        requires { sent_count self + 1 < 2 ^ 64 }
        ensures { result ≡ with_sent kind self }
    {
        let mut sent = self;
        match kind {
            None => {}
            Some(Kind::Update) => sent.updates += 1,
            Some(Kind::Query) => sent.queries += 1,
            Some(Kind::Reply) => sent.replies += 1,
        }
        sent
    }
}

/// The kind of the message that a step is about to put on a link, if it puts one.
pub fn leaving<A: SmallAllocator>(world: &World<A>, step: &Step) -> Option<Kind>
    requires { HasLinksOfPorts world.now }
    ensures { result ≡ leaving world.now step.now }
{
    let Step::Release { router } = *step else {
        return None;
    };
    let held = world.routers().get(usize::from(router))?.front()?;
    let place = world.port(router, held.port)?;
    let links = world.links();
    if links.is_up(place.link) && links.session(place.link) == held.session {
        Some(held.message.kind)
    } else {
        None
    }
}
