//! What a router holds back, as C is shown it.

ghost use Rattle.std.specs.Prelude.{◌≡◌, ◌<◌, None, length, slice_get};
ghost use Rattle.single_router.specs.{States.flag, Frames.frame_of};
ghost use Rattle.network_calls.specs.Shown.{front_shown, gate_at, gate_shown, notice_shown, AreNoticesShown, AreShownOver};

use network_model::Notice;
use router_core::Router;
use simulation::World;
use single_router::Frame;

/// What a router holds back: how many messages, how many of them may leave, how many notices of its own
/// attachments it has yet to take, how often it has published, the message that leaves next (kind 255: none
/// may), and whether a publication is due (1, else 0).
#[repr(C)]
#[derive(Clone, Copy, Debug, PartialEq, Eq)]
pub struct GateShown {
    pub held: usize,
    pub ripe: usize,
    pub notices: usize,
    pub generation: u64,
    pub front: Frame,
    pub due: u8,
}

const NO_MESSAGE: Frame = Frame {
    addr: 0,
    value: 0,
    session: 0,
    len: 0,
    kind: 255,
    port: 0,
};

impl GateShown {
    /// That of a router; none where there is no such router.
    pub fn at(world: &World, router: u16) -> Option<GateShown>
        ensures shown { result ≡ gate_at router world.now }
        ensures none { result ≡ None → slice_get (world.now).routers router ≡ None }
    {
        let found = world.routers().get(usize::from(router))?;
        Some(GateShown::of(found, world.notices(router)))
    }

    // That of a router which has yet to take so many notices.
    fn of(router: &Router, notices: usize) -> GateShown
        ensures { result ≡ gate_shown router.now notices }
    {
        GateShown {
            held: router.held(),
            ripe: router.ripe(),
            notices,
            generation: router.generation(),
            front: front_of(router),
            due: u8::from(router.due()),
        }
    }
}

// The message that leaves next.
fn front_of(router: &Router) -> Frame
    ensures { result ≡ front_shown router.now }
{
    match router.front() {
        Some(held) => Frame::of(held),
        None => NO_MESSAGE,
    }
}

/// A notice of a router's own attachment to a prefix: its cost, or 0 where it is attached no more.
#[repr(C)]
#[derive(Clone, Copy, Debug, PartialEq, Eq)]
pub struct NoticeShown {
    pub addr: u32,
    pub cost: u32,
    pub len: u8,
}

impl NoticeShown {
    fn of(notice: Notice) -> NoticeShown
        ensures { result ≡ notice_shown notice }
    {
        NoticeShown {
            addr: notice.prefix.addr(),
            cost: match notice.cost {
                Some(cost) => cost.value(),
                None => 0,
            },
            len: notice.prefix.len(),
        }
    }
}

/// Writes the messages that a router holds over the first of those that are there, oldest first and as many
/// as fit: how many these are, and whether there are more.
pub fn write_held(router: &Router, messages: &mut [Frame]) -> (usize, bool)
    ensures { AreShownOver frame_of ((router.now).gate).held
        messages.old messages.new result.0 (flag result.1) }
{
    for at in 0..messages.len() {
        match router.message(at) {
            Some(held) => messages[at] = Frame::of(held),
            None => return (at, false),
        }
    }
    (messages.len(), messages.len() < router.held())
}

/// Writes the notices of its attachments that a router has yet to take, in the same way.
pub fn write_notices(world: &World, router: u16, notices: &mut [NoticeShown]) -> (usize, bool)
    requires { router < length (world.now).routers }
    ensures { AreNoticesShown world.now router notices.old notices.new result.0 (flag result.1) }
{
    for at in 0..notices.len() {
        match world.notice(router, at) {
            Some(notice) => notices[at] = NoticeShown::of(notice),
            None => return (at, false),
        }
    }
    (notices.len(), notices.len() < world.notices(router))
}
