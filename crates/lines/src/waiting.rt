//! What waits to be taken, what a router holds, and what of it a step moves.

ghost use Rattle.std.specs.Prelude.{◌≡◌, Some};
ghost use Rattle.lines.specs.Formats.{in_format};
ghost use Rattle.lines.specs.Texts.{item_text, message_text, notice_text, ripe_text, waiting_text};
ghost use Rattle.lines.specs.Objects.{item_json, message_json, notice_json, waiting_json};

use crate::told::Told;
use crate::values::kind_words;
use network_model::{Held, Item, Message, Notice, Step};
use std::fmt;
use world::World;

/// What waits to be taken, or is held. A message is `update PREFIX RD d session S`, or `query` or `reply`
/// in place of `update`.
#[derive(Clone, Copy)]
pub enum Waiting {
    /// `queue A from B: ITEM`, of an item that a router has yet to take from its port: `up cost C session
    /// S`, `down session S`, `cost C session S`, or a message, which is of the link's present session.
    Queued {
        router: u16,
        port: u8,
        session: u16,
        item: Item,
    },
    /// `queue A from A: attached PREFIX cost C`, of a notice of its own attachments that a router has yet
    /// to take, or `detached PREFIX`.
    Noticed {
        router: u16,
        notice: Notice,
    },
    /// `held A to B: MESSAGE ripe`, of a message that a router holds, or `not ripe` where it may not leave.
    Kept {
        router: u16,
        ripe: bool,
        held: Held,
    },
}

// Whether a message that is held may leave.
fn ripe_words(ripe: bool) -> &'static str
    ensures { result.now ≡ ripe_text ripe }
{
    if ripe { " ripe" } else { " not ripe" }
}

// A message, and the session in which it was sent: words, or members.
impl fmt::Display for Told<'_, (u16, Message)> {
    ghost output = { λ t. Some (in_format t.0.format (message_text t.1.0 t.1.1) (message_json t.1.0 t.1.1)) };

    fn fmt<W: fmt::Write>(&self, f: &mut fmt::Formatter<W>) -> fmt::Result {
        let Told(by, (session, message)) = *self;
        let kind = kind_words(message.kind);
        let (prefix, rd) = (message.prefix, Told(by, message.value));
        write_either!(f, by;
            "{kind} {prefix} RD {rd} session {session}",
            "\"item\":\"{kind}\",\"prefix\":\"{prefix}\",\"rd\":{rd},\"session\":{session}")
    }
}

// An item on a link, whose messages are of this session: words, or members.
impl fmt::Display for Told<'_, (u16, Item)> {
    ghost output = { λ t. Some (in_format t.0.format (item_text t.1.0 t.1.1) (item_json t.1.0 t.1.1)) };

    fn fmt<W: fmt::Write>(&self, f: &mut fmt::Formatter<W>) -> fmt::Result {
        let Told(by, (now, item)) = *self;
        match item {
            Item::Up { session, cost } => write_either!(f, by;
                "up cost {cost} session {session}",
                "\"item\":\"up\",\"cost\":{cost},\"session\":{session}"),
            Item::Down { session } => write_either!(f, by;
                "down session {session}",
                "\"item\":\"down\",\"session\":{session}"),
            Item::Cost { session, cost } => write_either!(f, by;
                "cost {cost} session {session}",
                "\"item\":\"cost\",\"cost\":{cost},\"session\":{session}"),
            Item::Message(message) => write!(f, "{}", Told(by, (now, message))),
        }
    }
}

// A notice of a router's own attachment: words, or members.
impl fmt::Display for Told<'_, Notice> {
    ghost output = { λ t. Some (in_format t.0.format (notice_text t.1) (notice_json t.1)) };

    fn fmt<W: fmt::Write>(&self, f: &mut fmt::Formatter<W>) -> fmt::Result {
        let Told(by, notice) = *self;
        let prefix = notice.prefix;
        match notice.cost {
            Some(cost) => write_either!(f, by;
                "attached {prefix} cost {cost}",
                "\"item\":\"attached\",\"prefix\":\"{prefix}\",\"cost\":{cost}"),
            None =>
                write_either!(f, by; "detached {prefix}", "\"item\":\"detached\",\"prefix\":\"{prefix}\""),
        }
    }
}

// As an object of JSON, the neighbour of a notice is the router itself.
impl fmt::Display for Told<'_, Waiting> {
    ghost output = { λ t. Some (in_format t.0.format
        (waiting_text t.0.directory.now t.1) (waiting_json t.0.directory.now t.1)) };

    fn fmt<W: fmt::Write>(&self, f: &mut fmt::Formatter<W>) -> fmt::Result {
        let Told(by, waiting) = *self;
        match waiting {
            Waiting::Queued {
                router,
                port,
                session,
                item,
            } => {
                let name = by.directory.name(Some(router));
                let source = by.directory.name(by.directory.neighbour(router, port));
                let item = Told(by, (session, item));
                write_either!(f, by;
                    "queue {name} from {source}: {item}",
                    "{{\"kind\":\"queued\",\"router\":\"{name}\",\"neighbour\":\"{source}\",{item}}}")
            }
            Waiting::Noticed { router, notice } => {
                let name = by.directory.name(Some(router));
                let notice = Told(by, notice);
                write_either!(f, by;
                    "queue {name} from {name}: {notice}",
                    "{{\"kind\":\"queued\",\"router\":\"{name}\",\"neighbour\":\"{name}\",{notice}}}")
            }
            Waiting::Kept { router, ripe, held } => {
                let name = by.directory.name(Some(router));
                let across = by.directory.name(by.directory.neighbour(router, held.port));
                let sent = Told(by, (held.session, held.message));
                let word = ripe_words(ripe);
                write_either!(f, by;
                    "held {name} to {across}: {sent}{word}",
                    "{{\"kind\":\"held\",\"router\":\"{name}\",\"neighbour\":\"{across}\",{sent},\"ripe\":{ripe}}}")
            }
        }
    }
}

/// What a step is about to take or to send, if it is lawful and does either.
pub fn moved_by(world: &World, step: &Step) -> Option<Waiting> {
    match *step {
        Step::Deliver { router, port } => match world.port(router, port) {
            Some(place) if usize::from(place.link) < world.links().len() => {
                let session = world.links().session(place.link);
                let item = world.links().item(place.link, place.end, 0)?;
                Some(Waiting::Queued {
                    router,
                    port,
                    session,
                    item,
                })
            }
            _ if usize::from(router) < world.routers().len() => {
                let notice = world.notice(router, 0)?;
                Some(Waiting::Noticed { router, notice })
            }
            _ => None,
        },
        Step::Release { router } => {
            let held = world.routers().get(usize::from(router))?.message(0)?;
            Some(Waiting::Kept {
                router,
                ripe: true,
                held,
            })
        }
        _ => None,
    }
}
