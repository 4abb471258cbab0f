//! The first fault of the links of a network.

ghost use Rattle.std.specs.Prelude.{◌≡◌, ◌∷◌, [], not, ◌&&◌, ◌||◌, ◌==◌, nat_lt, filter, length, IfOk};
ghost use Rattle.std.specs.List.{list_any};
ghost use Rattle.network_model.specs.Network as valid;
ghost use Rattle.network_model.specs.declared.network.NetworkFault.TheVariants.{BadLink, TooManyLinks};

use crate::by_router::{no_lists, put_at};
use network_model::{Limits, LinkSpec, NetworkFault, NoMemory};
use std::alloc::Global;

/// The first fault of the links in a network of so many routers. It takes time by the routers and the
/// links, and where there is no memory for a list of the links at each router, by the square of the links.
pub fn link_fault(
    alloc: Global,
    limits: &Limits,
    routers: usize,
    links: &[LinkSpec],
) -> Option<NetworkFault>
    ensures { result ≡ valid.first_cause (valid.link_causes limits.now routers [] links.now) }
{
    match fault_by_lists(alloc, limits, routers, links) {
        Ok(fault) => fault,
        Err(_) => fault_by_comparison(limits, routers, links),
    }
}

fn has_same_ends(link: &LinkSpec, other: &LinkSpec) -> bool
    ensures { result ≡ valid.has_same_ends link.now other.now }
{
    link.touches(other.a) && link.touches(other.b)
}

fn has_twin(before: &[LinkSpec], link: &LinkSpec) -> bool
    ensures { result ≡ list_any (valid.has_same_ends link.now) before.now }
{
    before.iter().any(|other| has_same_ends(link, other))
}

fn degree(router: u16, links: &[LinkSpec]) -> usize
    ensures { result ≡ valid.degree router links.now }
{
    links.iter().filter(|link| link.touches(router)).count()
}

// Whether an end is no router of the network, or both ends are one router.
fn has_bad_ends(routers: usize, link: &LinkSpec) -> bool
    ensures { result ≡ (not (nat_lt link.now.a routers && nat_lt link.now.b routers)
        || (link.now.a == link.now.b)) }
{
    !(usize::from(link.a) < routers && usize::from(link.b) < routers) || link.a == link.b
}

// ---- by comparison with each link before

fn is_bad_link(routers: usize, before: &[LinkSpec], link: &LinkSpec) -> bool
    ensures { result ≡ valid.is_bad_link routers before.now link.now }
{
    has_bad_ends(routers, link) || has_twin(before, link)
}

fn is_link_too_many(limits: &Limits, before: &[LinkSpec], link: &LinkSpec) -> bool
    ensures { result ≡ valid.is_link_too_many limits.now before.now link.now }
{
    !(before.len() < limits.links
        && degree(link.a, before) < limits.ports
        && degree(link.b, before) < limits.ports)
}

fn fault_by_comparison(limits: &Limits, routers: usize, links: &[LinkSpec]) -> Option<NetworkFault>
    ensures { result ≡ valid.first_cause (valid.link_causes limits.now routers [] links.now) }
{
    for (i, link) in links.iter().enumerate() {
        let before = &links[..i];
        if is_bad_link(routers, before, link) {
            return Some(NetworkFault::BadLink { link: i });
        }
        if is_link_too_many(limits, before, link) {
            return Some(NetworkFault::TooManyLinks { link: i });
        }
    }
    None
}

// ---- by the links before that touch the same routers

// Whether a link joins the same routers as one of those that touch either of its ends.
fn has_twin_at_ends(of_a: &[LinkSpec], of_b: &[LinkSpec], link: &LinkSpec) -> bool
    ensures { result ≡ (list_any (valid.has_same_ends link.now) of_a.now
        || list_any (valid.has_same_ends link.now) of_b.now) }
{
    has_twin(of_a, link) || has_twin(of_b, link)
}

// Whether there may be one link more, after so many, of which these touch its ends.
fn has_room(limits: &Limits, number: usize, of_a: &[LinkSpec], of_b: &[LinkSpec]) -> bool
    ensures { result ≡ (nat_lt number limits.now.links && nat_lt (length of_a.now) limits.now.ports
        && nat_lt (length of_b.now) limits.now.ports) }
{
    number < limits.links && of_a.len() < limits.ports && of_b.len() < limits.ports
}

// The fault of a link whose ends can be, if it has one, after others, of which these touch either end.
fn fault_after(
    limits: &Limits,
    before: &[LinkSpec],
    of_a: &[LinkSpec],
    of_b: &[LinkSpec],
    link: &LinkSpec,
) -> Option<NetworkFault>
    requires of_a { of_a.now ≡ filter (valid.touches link.now.a) before.now }
    requires of_b { of_b.now ≡ filter (valid.touches link.now.b) before.now }
    ensures { result ≡ valid.first_cause (
        (list_any (valid.has_same_ends link.now) before.now, BadLink (length before.now))
        ∷ (valid.is_link_too_many limits.now before.now link.now, TooManyLinks (length before.now)) ∷ []) }
{
    let number = before.len();
    if has_twin_at_ends(of_a, of_b, link) {
        return Some(NetworkFault::BadLink { link: number });
    }
    if !has_room(limits, number, of_a, of_b) {
        return Some(NetworkFault::TooManyLinks { link: number });
    }
    None
}

fn fault_by_lists(
    alloc: Global,
    limits: &Limits,
    routers: usize,
    links: &[LinkSpec],
) -> Result<Option<NetworkFault>, NoMemory>
    ensures { IfOk result (λ fault. fault
        ≡ valid.first_cause (valid.link_causes limits.now routers [] links.now)) }
{
    let mut lists = no_lists(alloc, routers)?;
    for (i, link) in links.iter().enumerate() {
        if has_bad_ends(routers, link) {
            return Ok(Some(NetworkFault::BadLink { link: i }));
        }
        let of_a = &lists[usize::from(link.a)];
        let of_b = &lists[usize::from(link.b)];
        let fault = fault_after(limits, &links[..i], of_a, of_b, link);
        if fault.is_some() {
            return Ok(fault);
        }
        put_at(&mut lists, link.a, *link)?;
        put_at(&mut lists, link.b, *link)?;
    }
    Ok(None)
}
