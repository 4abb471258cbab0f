//! Which routers reach a prefix over links that are up.

ghost use Rattle.std.specs.Prelude.{ℕ, ◌≡◌, ◌<◌, ◌↔◌, true, false, is_some, length, None, IfSome};
ghost use Rattle.network_model.specs.World.{attachment_at};
ghost use Rattle.reachability.specs.{Ways.IsJoined, Ways.Reaches, Marks.is_in, Marks.unmarked};
ghost use Rattle.reachability.specs.Rounds.{AddsNone, IsAddedBy, IsClosed, KeepsReach};

use crate::marks::{is_in, mark};
use network_model::{End, Prefix, SmallAllocator};
use world::World;

/// Marks each router from which links that are up lead to one that is attached to the prefix.
pub fn mark_reached<A: SmallAllocator>(world: &World<A>, prefix: Prefix, marks: &mut [bool])
    requires size { length marks.old ≡ length (world.now).routers }
    requires joined { IsJoined world.now }
    ensures { (i : ℕ) → (is_in marks.new i ≡ true) ↔ Reaches world.now prefix i }
{
    mark_attached(world, prefix, marks);
    while spread(world, marks) {}
}

fn mark_attached<A: SmallAllocator>(world: &World<A>, prefix: Prefix, marks: &mut [bool])
    requires size { length marks.old ≡ length (world.now).routers }
    requires joined { IsJoined world.now }
    ensures { (i : ℕ) → is_in marks.new i ≡ is_some (attachment_at world.now i prefix) }
{
    for place in 0..marks.len() {
        marks[place] = world.attachment(place as u16, prefix).is_some();
    }
}

// One round over the links: across each that is up from a router that is marked, the other is marked too.
// Whether any was.
fn spread<A: SmallAllocator>(world: &World<A>, marks: &mut [bool]) -> bool
    requires size { length marks.old ≡ length (world.now).routers }
    requires joined { IsJoined world.now }
    ensures keeps { KeepsReach world.now marks.old marks.new }
    ensures grown { result ≡ true → unmarked marks.new < unmarked marks.old }
    ensures closed { result ≡ false → IsClosed world.now marks.new }
{
    let mut grown = false;
    for place in 0..world.links().len() {
        if let Some(router) = added_by(world, place as u16, marks) {
            mark(marks, router);
            grown = true;
        }
    }
    grown
}

// The router that the link adds, if it is up and one of its routers is marked and the other is not.
fn added_by<A: SmallAllocator>(world: &World<A>, link: u16, marks: &[bool]) -> Option<u16>
    requires { link < length (world.now).links }
    ensures some { IfSome result (λ k. IsAddedBy world.now marks.now link k) }
    ensures none { result ≡ None → AddsNone world.now marks.now link }
{
    let links = world.links();
    if !links.is_up(link) {
        return None;
    }
    let (a, b) = (links.router(link, End::A), links.router(link, End::B));
    match (is_in(marks, a), is_in(marks, b)) {
        (true, false) => Some(b),
        (false, true) => Some(a),
        _ => None,
    }
}
