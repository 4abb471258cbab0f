//! What is on a link, as C is shown it.

ghost use Rattle.std.specs.Prelude.{◌≡◌, ◌<◌, length, slice_get, option_map, None, Some, IfOk, IfErr, IfSome, OnErr, OnOk};
ghost use Rattle.network_model.specs.World.{place_at, side};
ghost use Rattle.world.specs.Steps.{port_refusal};
ghost use Rattle.single_router.specs.States.{flag};
ghost use Rattle.network_calls.specs.Shown.{item_shown, link_shown, AreShownOver, IsQueueShown};

use network_model::{End, Item, Kind, Place, Refusal};
use simulation::World;

/// A link now: how many items each of its two routers has yet to take, the costs from them, their numbers,
/// how often the link came up, and whether it is up (1, else 0).
#[repr(C)]
#[derive(Clone, Copy, Debug, PartialEq, Eq)]
pub struct LinkShown {
    pub to_a: usize,
    pub to_b: usize,
    pub from_a: u32,
    pub from_b: u32,
    pub a: u16,
    pub b: u16,
    pub session: u16,
    pub up: u8,
}

/// An item on a link. Its kind is 0 for an update, 1 for a query, 2 for a reply: then `addr` and `len` are
/// the prefix, and `value` is the sender's distance (4294967295 is infinity). It is 3 where the link came up
/// and 5 where its cost changed, and `value` is the cost from the router that takes the item; 4 where the
/// link went down. These three name the session. Other fields are 0.
#[repr(C)]
#[derive(Clone, Copy, Debug, PartialEq, Eq)]
pub struct ItemShown {
    pub addr: u32,
    pub value: u32,
    pub session: u16,
    pub kind: u8,
    pub len: u8,
}

impl LinkShown {
    /// That of a link; none where there is no such link.
    pub fn at(world: &World, link: u16) -> Option<LinkShown>
        ensures { result ≡ option_map link_shown (slice_get (world.now).links link) }
    {
        let links = world.links();
        if usize::from(link) >= links.len() {
            return None;
        }
        Some(LinkShown {
            to_a: links.queued(link, End::A),
            to_b: links.queued(link, End::B),
            from_a: links.cost(link, End::A).value(),
            from_b: links.cost(link, End::B).value(),
            a: links.router(link, End::A),
            b: links.router(link, End::B),
            session: links.session(link),
            up: u8::from(links.is_up(link)),
        })
    }
}

// A notice of a link in a session.
fn notice(kind: u8, session: u16, value: u32) -> ItemShown
    ensures { result ≡ record { addr = 0; value = value; session = session; kind = kind; len = 0 } }
{
    ItemShown {
        addr: 0,
        value,
        session,
        kind,
        len: 0,
    }
}

impl ItemShown {
    /// That of an item.
    pub fn of(item: Item) -> ItemShown
        ensures { result ≡ item_shown item }
    {
        match item {
            Item::Up { session, cost } => notice(3, session, cost.value()),
            Item::Down { session } => notice(4, session, 0),
            Item::Cost { session, cost } => notice(5, session, cost.value()),
            Item::Message(message) => ItemShown {
                addr: message.prefix.addr(),
                value: message.value.value(),
                session: 0,
                kind: match message.kind {
                    Kind::Update => 0,
                    Kind::Query => 1,
                    Kind::Reply => 2,
                },
                len: message.prefix.len(),
            },
        }
    }
}

// The place of a router's port, on a link that is there; refused with `UnknownRouter` or `UnknownLink`.
fn port_place(world: &World, router: u16, port: u8) -> Result<Place, Refusal>
    ensures ok { IfOk result (λ p. (place_at world.now router port ≡ Some p)
        × (p.link < length (world.now).links)) }
    ensures known { OnOk result (port_refusal world.now router port ≡ None) }
    ensures err { IfErr result (λ e. port_refusal world.now router port ≡ Some e) }
{
    if usize::from(router) >= world.routers().len() {
        return Err(Refusal::UnknownRouter);
    }
    match world.port(router, port) {
        Some(place) if usize::from(place.link) < world.links().len() => Ok(place),
        _ => Err(Refusal::UnknownLink),
    }
}

// Writes the items that an end of a link has yet to take over the first of those that are there, oldest first
// and as many as fit: how many these are, and whether there are more.
fn write_items(world: &World, place: Place, items: &mut [ItemShown]) -> (usize, bool)
    requires { place.link < length (world.now).links }
    ensures { IfSome (slice_get (world.now).links place.link) (λ k. AreShownOver item_shown
        (side place.end k).inbox items.old items.new result.0 (flag result.1)) }
{
    let links = world.links();
    for at in 0..items.len() {
        match links.item(place.link, place.end, at) {
            Some(item) => items[at] = ItemShown::of(item),
            None => return (at, false),
        }
    }
    (
        items.len(),
        items.len() < links.queued(place.link, place.end),
    )
}

/// Writes the items that a router has yet to take from a port over the first of those that are there, oldest
/// first and as many as fit: how many these are, and whether there are more. Refused with `UnknownRouter` or
/// `UnknownLink`.
pub fn queue_of(
    world: &World,
    router: u16,
    port: u8,
    items: &mut [ItemShown],
) -> Result<(usize, bool), Refusal>
    ensures ok { IfOk result (λ t. IsQueueShown
        world.now router port items.old items.new t.0 (flag t.1)) }
    ensures known { OnOk result (port_refusal world.now router port ≡ None) }
    ensures unchanged { OnErr result (items.new ≡ items.old) }
    ensures err { IfErr result (λ e. port_refusal world.now router port ≡ Some e) }
{
    let place = port_place(world, router, port)?;
    Ok(write_items(world, place, items))
}
