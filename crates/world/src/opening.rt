//! The parts of a network that opens.

ghost use Rattle.std.specs.Prelude.{◌≡◌, ◌<◌, ◌++◌, ◌∷◌, [], true, cond, if◌then◌else◌, map, length, IfOk, OnOk, All};
ghost use Rattle.std.specs.{List.range_with_len, BTreeSet.contains};
ghost use Rattle.ipv4_prefix.specs.Prefix.{Prefix, prefix_cmp, prefix_eq};
ghost use Rattle.network_model.specs.World as model;
ghost use Rattle.world.specs.Parts.{attachments_of};

use crate::attachments::Attachments;
use crate::by_router::{no_lists, put_at};
use crate::network::Network;
use network_model::{Cost, End, LinkSpec, NoMemory, Place, Port, Prefix, SmallAllocator};
use router_core::Router;
use std::alloc::AllocError;
use std::cmp::Reverse;
use std::collections::BTreeSet;

// The places of each router's ports, in the order of the links. Each link has a port at either end.
pub fn opening_places<A: SmallAllocator>(
    alloc: A,
    network: &Network,
) -> Result<Vec<Vec<Place, A>, A>, NoMemory>
    ensures { IfOk result (λ places. map (λ v. v.items) places.items ≡ map
        (λ i. model.places_from 0 i (network.now).links) (range_with_len 0 (network.now).routers)) }
{
    let mut places = no_lists(alloc, network.routers())?;
    for (i, link) in network.links().iter().enumerate() {
        let number = i as u16;
        put_at(
            &mut places,
            link.a,
            Place {
                link: number,
                end: End::A,
            },
        )?;
        put_at(
            &mut places,
            link.b,
            Place {
                link: number,
                end: End::B,
            },
        )?;
    }
    Ok(places)
}

// A port at the opening: down, never up, with the cost of its link from there.
fn opening_port(links: &[LinkSpec], place: &Place) -> Port
    requires { place.now.link < length links.now }
    ensures { result ≡ model.opening_port (map model.opening_link links.now) place.now }
{
    let link = &links[usize::from(place.link)];
    Port {
        up: false,
        session: 0,
        cost: match place.end {
            End::A => link.from_a,
            End::B => link.from_b,
        },
    }
}

// The ports at these places.
pub fn opening_ports<A: SmallAllocator>(
    alloc: A,
    links: &[LinkSpec],
    places: &[Place],
) -> Result<Vec<Port, A>, AllocError>
    requires { All (λ p. p.link < length links.now) places.now }
    ensures { IfOk result (λ ports. ports.items
        ≡ map (model.opening_port (map model.opening_link links.now)) places.now) }
{
    let mut ports = Vec::new(alloc);
    for place in places {
        ports.push(opening_port(links, place))?;
    }
    Ok(ports)
}

// Puts a prefix at the back, but not if it is given.
fn put_if_new<A: SmallAllocator>(
    given: &mut BTreeSet<Prefix, A>,
    prefixes: &mut Vec<Prefix, A>,
    prefix: Prefix,
) -> Result<(), NoMemory>
    ensures given { OnOk result ((p : Prefix) → contains prefix_cmp given.new p
        ≡ cond (prefix_eq prefix p) true (contains prefix_cmp given.old p)) }
    ensures prefixes { OnOk result (prefixes.new.items ≡ (if contains prefix_cmp given.old prefix
        then prefixes.old.items else prefixes.old.items ++ prefix ∷ [])) }
{
    if given.insert(prefix)? {
        prefixes.push(prefix)?;
    }
    Ok(())
}

// The prefixes to which some router is attached, each once, where the last attachment to it stands.
pub fn opening_prefixes<A: SmallAllocator>(
    alloc: A,
    network: &Network,
) -> Result<Vec<Prefix, A>, NoMemory>
    ensures { IfOk result (λ prefixes. prefixes.items
        ≡ model.prefixes_of (network.now).attachments) }
{
    let attachments = network.attachments();
    let mut given = BTreeSet::new(alloc);
    let mut prefixes = Vec::new(alloc);
    for i in (0..attachments.len()).rev() {
        let attachment = attachments[i];
        put_if_new(&mut given, &mut prefixes, attachment.0)?;
    }
    prefixes.reverse();
    Ok(prefixes)
}

// The prefixes to which each router is attached, with the costs, the last prefix first: so each is put
// behind those that were put before, by who puts the last of them first.
pub fn opening_costs<A: SmallAllocator>(
    alloc: A,
    network: &Network,
) -> Result<Vec<Vec<(Prefix, Cost), A>, A>, NoMemory>
    ensures { IfOk result (λ own. map (λ v. model.rows_of v.items) own.items ≡ map
        (model.costs_of network.now) (range_with_len 0 (network.now).routers)) }
{
    let mut sorted = Vec::from_slice(alloc, network.attachments())?;
    sorted.sort_unstable_by_key(|attachment| Reverse(attachment.0));
    let mut own = no_lists(alloc, network.routers())?;
    for attachment in &sorted {
        put_at(&mut own, attachment.1, (attachment.0, attachment.2))?;
    }
    Ok(own)
}

// What each router is attached to, where these are the prefixes and the costs of each.
pub fn opening_attachments<A: SmallAllocator>(
    alloc: A,
    network: &Network,
    own: &[Vec<(Prefix, Cost), A>],
) -> Result<Vec<Attachments<A>, A>, NoMemory>
    requires { map (λ v. model.rows_of v.items) own.now ≡ map
        (model.costs_of network.now) (range_with_len 0 (network.now).routers) }
    ensures { IfOk result (λ attachments. attachments.items ≡ map (λ i. attachments_of
        (model.costs_of network.now i) []) (range_with_len 0 (network.now).routers)) }
{
    let mut attachments = Vec::new(alloc);
    for router in 0..network.routers() {
        attachments.push(Attachments::new(alloc, &own[router])?)?;
    }
    Ok(attachments)
}

// One router at the opening, whose ports lie at these places.
fn opening_router<A: SmallAllocator>(
    alloc: A,
    network: &Network,
    router: usize,
    places: &[Place],
    own: &[(Prefix, Cost)],
) -> Result<Router<A>, NoMemory>
    requires places { places.now ≡ model.places_from 0 router (network.now).links }
    requires own { model.rows_of own.now ≡ model.costs_of network.now router }
    ensures { IfOk result (λ r. r ≡ model.opening_router_of network.now router) }
{
    let ports = opening_ports(alloc, network.links(), places)?;
    Router::new(alloc, ports, own)
}

// The routers at the opening, where these are the places of their ports, and the prefixes and the costs
// of each.
pub fn opening_routers<A: SmallAllocator>(
    alloc: A,
    network: &Network,
    places: &[Vec<Place, A>],
    own: &[Vec<(Prefix, Cost), A>],
) -> Result<Vec<Router<A>, A>, NoMemory>
    requires places { map (λ v. v.items) places.now ≡ map
        (λ i. model.places_from 0 i (network.now).links) (range_with_len 0 (network.now).routers) }
    requires own { map (λ v. model.rows_of v.items) own.now ≡ map
        (model.costs_of network.now) (range_with_len 0 (network.now).routers) }
    ensures { IfOk result (λ routers. routers.items
        ≡ map (model.opening_router_of network.now) (range_with_len 0 (network.now).routers)) }
{
    let mut routers = Vec::new(alloc);
    for router in 0..network.routers() {
        let found = opening_router(alloc, network, router, &places[router], &own[router])?;
        routers.push(found)?;
    }
    Ok(routers)
}
