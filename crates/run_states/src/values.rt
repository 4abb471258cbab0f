//! The JSON of what changed. A router, a link, a prefix and an end of a link go by their numbers, as the
//! opening lists them.

ghost use Rattle.std.specs.Prelude.{◌≡◌, ◌++◌, IfOk, OnOk, map, position};
ghost use Rattle.serde_json.specs.{Data.no_members, Data.object, Data.put as with_member, View.view, View.members_view};
ghost use Rattle.ipv4_prefix.specs.Prefix.{prefix_eq};
ghost use Rattle.run_states.specs.Values.{link_data, router_data, machine_data, queue_data, item_data, entry_data, distance_data, ports_data, port_data, items_data, list, listed, links_data, routers_data, machines_data, queue_listed, queues_data, number_of_end, number_of_prefix, put_if as if_put, put_list as with_list};

use crate::link_book::LinkChange;
use crate::queue::QueueChange;
use crate::router_book::RouterChange;
use crate::shown::MachineShown;
use diffusing_replies::PortSet;
use ipv4_prefix::Prefix;
use lines::{LinkState, MachineState, RouterState, kind_words};
use metric::Distance;
use network_model::{End, Entry, Item};
use serde_json::{Map, Value, json, push, put};
use std::alloc::{AllocError, Global};
use world::World;

// Puts what is shown of the link of this number.
fn put_link(
    members: &mut Map<String, Value>,
    alloc: Global,
    number: usize,
    link: LinkState,
) -> Result<(), AllocError>
    requires { members_view members.old.entries ≡ no_members }
    ensures { OnOk result (object (members_view members.new.entries) ≡ link_data number link) }
{
    let costs = json!(in alloc; [link.from_a.value(), link.from_b.value()])?;
    put(members, alloc, "costs", costs)?;
    put(members, alloc, "link", Value::from(number))?;
    put(members, alloc, "session", Value::from(link.session))?;
    put(members, alloc, "up", Value::Bool(link.up))
}

// What is shown of the router of this number.
fn router_value(alloc: Global, number: usize, router: RouterState) -> Result<Value, AllocError>
    ensures { IfOk result (λ v. view v ≡ router_data number router) }
{
    json!(in alloc; {
        "router": number,
        "generation": router.generation,
        "held": router.held,
        "ripe": router.ripe,
        "notices": router.notices
    })
}

// Puts what is shown of a router's machine for the prefix of this number.
fn put_machine(
    members: &mut Map<String, Value>,
    alloc: Global,
    world: &World,
    router: u16,
    prefix: usize,
    machine: MachineShown,
) -> Result<(), AllocError>
    requires { members_view members.old.entries ≡ no_members }
    ensures { OnOk result (object (members_view members.new.entries) ≡ machine_data world.now router prefix machine) }
{
    let MachineState { origin, rd, fd } = machine.at;
    put(members, alloc, "router", Value::from(router))?;
    put(members, alloc, "prefix", Value::from(prefix))?;
    put(members, alloc, "rd", distance_value(rd))?;
    put(members, alloc, "fd", distance_value(fd))?;
    let chosen = entry_value(alloc, world, router, machine.chosen)?;
    put(members, alloc, "chosen", chosen)?;
    let published = entry_value(alloc, world, router, machine.published)?;
    put(members, alloc, "published", published)?;
    if let Some(origin) = origin {
        let awaits = ports_value(alloc, world, router, machine.awaited)?;
        put(members, alloc, "awaits", awaits)?;
        put(members, alloc, "active", Value::from(origin))?;
    }
    Ok(())
}

// A distance; null where it is infinite.
fn distance_value(distance: Distance) -> Value
    ensures { view result ≡ distance_data distance }
{
    if distance.is_infinite() {
        return Value::Null;
    }
    Value::from(distance.value())
}

// An entry: a word, or the link and the session that it leads over; null where there is none.
fn entry_value(
    alloc: Global,
    world: &World,
    router: u16,
    entry: Option<Entry>,
) -> Result<Value, AllocError>
    ensures { IfOk result (λ v. view v ≡ entry_data world.now router entry) }
{
    match entry {
        None => Ok(Value::Null),
        Some(Entry::Local) => Value::try_from_str(alloc, "local"),
        Some(Entry::Unreachable) => Value::try_from_str(alloc, "unreachable"),
        Some(Entry::Via { port, session }) => {
            let link = port_value(world, router, port);
            json!(in alloc; [link, session])
        }
    }
}

// The link at a router's port; null where there is no such port.
fn port_value(world: &World, router: u16, port: u8) -> Value
    ensures { view result ≡ port_data world.now router port }
{
    match world.port(router, port) {
        Some(place) => Value::from(place.link),
        None => Value::Null,
    }
}

// The links at these ports of a router.
fn ports_value(
    alloc: Global,
    world: &World,
    router: u16,
    ports: PortSet,
) -> Result<Value, AllocError>
    ensures { IfOk result (λ v. view v ≡ ports_data world.now router ports) }
{
    let mut links = Vec::new(alloc);
    for port in 0..32 {
        if ports.has(port) {
            links.push(port_value(world, router, port))?;
        }
    }
    Ok(Value::Array(links))
}

// Puts what became of the items that an end of a link has yet to take. What did not happen is not named.
fn put_queue(
    members: &mut Map<String, Value>,
    alloc: Global,
    prefixes: &[Prefix],
    link: usize,
    end: End,
    change: &QueueChange,
) -> Result<(), AllocError>
    requires { members_view members.old.entries ≡ no_members }
    ensures { OnOk result (object (members_view members.new.entries) ≡ queue_data prefixes.now link end change.now) }
{
    put(members, alloc, "link", Value::from(link))?;
    put(members, alloc, "end", Value::from(end_number(end)))?;
    let taken = Value::from(change.take);
    put_if(members, alloc, "take", change.take > 0, taken)?;
    put_if(members, alloc, "lose", change.lose, Value::Bool(true))?;
    let items = items_value(alloc, prefixes, &change.put)?;
    put_if(members, alloc, "put", change.put.len() > 0, items)
}

// Puts a member where something happened.
fn put_if(
    members: &mut Map<String, Value>,
    alloc: Global,
    key: &str,
    happened: bool,
    value: Value,
) -> Result<(), AllocError>
    ensures { OnOk result (members_view members.new.entries
        ≡ if_put happened key.now (view value) (members_view members.old.entries)) }
{
    if happened {
        put(members, alloc, key, value)?;
    }
    Ok(())
}

fn end_number(end: End) -> u8
    ensures { result ≡ number_of_end end }
{
    match end {
        End::A => 0,
        End::B => 1,
    }
}

// Items of a link.
fn items_value(alloc: Global, prefixes: &[Prefix], items: &[Item]) -> Result<Value, AllocError>
    ensures { IfOk result (λ v. view v ≡ items_data prefixes.now items.now) }
{
    let mut values = Vec::new(alloc);
    for &item in items {
        values.push(item_value(alloc, prefixes, item)?)?;
    }
    Ok(Value::Array(values))
}

// An item of a link: a word for its kind, and then a message's prefix and distance, or a cost.
fn item_value(alloc: Global, prefixes: &[Prefix], item: Item) -> Result<Value, AllocError>
    ensures { IfOk result (λ v. view v ≡ item_data prefixes.now item) }
{
    match item {
        Item::Up { cost, .. } => json!(in alloc; ["up", cost.value()]),
        Item::Down { .. } => json!(in alloc; ["down"]),
        Item::Cost { cost, .. } => json!(in alloc; ["cost", cost.value()]),
        Item::Message(message) => {
            let kind = kind_words(message.kind);
            let prefix = prefix_number(prefixes, message.prefix);
            let value = distance_value(message.value);
            json!(in alloc; [kind, prefix, value])
        }
    }
}

// The number of a prefix; of one that is not among them, how many they are.
fn prefix_number(prefixes: &[Prefix], prefix: Prefix) -> usize
    ensures { result ≡ number_of_prefix prefix prefixes.now }
{
    place_of(prefixes, prefix).unwrap_or(prefixes.len())
}

fn place_of(prefixes: &[Prefix], prefix: Prefix) -> Option<usize>
    ensures { result ≡ position (λ other. prefix_eq other prefix) prefixes.now }
{
    prefixes.iter().position(|other| is_same(*other, prefix))
}

#[tactic(auto, using(ipv4_prefix::proofs::PrefixOrder::prefix_partial_eq))]
fn is_same(one: Prefix, other: Prefix) -> bool
    ensures { result ≡ prefix_eq one other }
{
    one == other
}

/// The links that are others.
pub(crate) fn link_values(
    alloc: Global,
    changes: &[(u16, LinkChange)],
) -> Result<Vec<Value>, AllocError>
    ensures { IfOk result (λ v. map view v.items ≡ links_data changes.now) }
{
    let mut values = Vec::new(alloc);
    for (link, change) in changes {
        push_link(alloc, &mut values, usize::from(*link), change.shown)?;
    }
    Ok(values)
}

fn push_link(
    alloc: Global,
    values: &mut Vec<Value>,
    link: usize,
    shown: Option<LinkState>,
) -> Result<(), AllocError>
    ensures { OnOk result (map view values.new.items ≡ map view values.old.items ++ listed (link_data link) shown) }
{
    if let Some(shown) = shown {
        let mut members = Map::new(alloc);
        put_link(&mut members, alloc, link, shown)?;
        values.push(Value::Object(members))?;
    }
    Ok(())
}

/// The routers that are others.
pub(crate) fn router_values(
    alloc: Global,
    changes: &[(u16, RouterChange)],
) -> Result<Vec<Value>, AllocError>
    ensures { IfOk result (λ v. map view v.items ≡ routers_data changes.now) }
{
    let mut values = Vec::new(alloc);
    for (router, change) in changes {
        push_router(alloc, &mut values, usize::from(*router), change.shown)?;
    }
    Ok(values)
}

fn push_router(
    alloc: Global,
    values: &mut Vec<Value>,
    router: usize,
    shown: Option<RouterState>,
) -> Result<(), AllocError>
    ensures { OnOk result (map view values.new.items ≡ map view values.old.items ++ listed (router_data router) shown) }
{
    if let Some(shown) = shown {
        values.push(router_value(alloc, router, shown)?)?;
    }
    Ok(())
}

/// The machines that are others.
pub(crate) fn machine_values(
    alloc: Global,
    world: &World,
    changes: &[(u16, RouterChange)],
) -> Result<Vec<Value>, AllocError>
    ensures { IfOk result (λ v. map view v.items ≡ machines_data world.now changes.now) }
{
    let mut values = Vec::new(alloc);
    for (router, change) in changes {
        push_machines(alloc, world, &mut values, *router, &change.machines)?;
    }
    Ok(values)
}

fn push_machines(
    alloc: Global,
    world: &World,
    values: &mut Vec<Value>,
    router: u16,
    machines: &[(usize, MachineShown)],
) -> Result<(), AllocError>
    ensures { OnOk result (map view values.new.items
        ≡ map view values.old.items ++ map (λ m. machine_data world.now router m.0 m.1) machines.now) }
{
    for &(prefix, shown) in machines {
        let mut members = Map::new(alloc);
        put_machine(&mut members, alloc, world, router, prefix, shown)?;
        values.push(Value::Object(members))?;
    }
    Ok(())
}

/// The queues of which something became.
pub(crate) fn queue_values(
    alloc: Global,
    prefixes: &[Prefix],
    changes: &[(u16, LinkChange)],
) -> Result<Vec<Value>, AllocError>
    ensures { IfOk result (λ v. map view v.items ≡ queues_data prefixes.now changes.now) }
{
    let mut values = Vec::new(alloc);
    for (link, change) in changes {
        let link = usize::from(*link);
        push_queue(alloc, prefixes, &mut values, link, End::A, &change.to_a)?;
        push_queue(alloc, prefixes, &mut values, link, End::B, &change.to_b)?;
    }
    Ok(values)
}

fn push_queue(
    alloc: Global,
    prefixes: &[Prefix],
    values: &mut Vec<Value>,
    link: usize,
    end: End,
    change: &QueueChange,
) -> Result<(), AllocError>
    ensures { OnOk result (map view values.new.items
        ≡ map view values.old.items ++ queue_listed prefixes.now link end change.now) }
{
    if change.is_nothing() {
        return Ok(());
    }
    let mut members = Map::new(alloc);
    put_queue(&mut members, alloc, prefixes, link, end, change)?;
    push(values, Value::Object(members))
}

/// Puts a list where it is not empty.
pub(crate) fn put_list(
    members: &mut Map<String, Value>,
    alloc: Global,
    key: &str,
    values: Vec<Value>,
) -> Result<(), AllocError>
    ensures { OnOk result (members_view members.new.entries
        ≡ with_list key.now (map view values.items) (members_view members.old.entries)) }
{
    let some = values.len() > 0;
    put_if(members, alloc, key, some, Value::Array(values))
}

/// Puts a list.
pub(crate) fn put_array(
    members: &mut Map<String, Value>,
    alloc: Global,
    key: &str,
    values: Vec<Value>,
) -> Result<(), AllocError>
    ensures { OnOk result (members_view members.new.entries
        ≡ with_member key.now (list (map view values.items)) (members_view members.old.entries)) }
{
    put(members, alloc, key, Value::Array(values))
}
