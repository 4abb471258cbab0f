//! Looks at a world after an event: what goes on there, at each router and for each prefix that it may concern.
//!
//! What an event concerns is found out before it is done, since nothing tells of it afterwards: the prefix of a message
//! that a router takes ([`told_prefix`]), and the prefixes to which ways may move ([`mark_moved`]). Routers and prefixes
//! stand in order, so that what it does not concern is not even read.

ghost use Rattle.std.specs.Prelude.{ℕ, IsTrue, ◌≡◌, ◌+◌, ◌*◌, ◌^◌, ◌<◌, ◌≤◌, ◌↔◌, true, false, IfSome, Some, length, slice_get, slice_index_or, slice_set};
ghost use Rattle.std.specs.Vec.{vec_capacity, vec_len};
ghost use Rattle.ipv4_prefix.specs.Prefix.{prefix_eq};
ghost use Rattle.network_model.specs.Step.{entry_eq};
ghost use Rattle.no_packet_loops.specs.Packets.{control_entry, published_entry};
ghost use Rattle.reachability.specs.{Marks.size, Ways.IsCutOff, Ways.IsJoined};
ghost use Rattle.timed_reports.specs.Going.{IsComputing};
ghost use Rattle.timed_reports.specs.Looks.{AreLookedFurther, HasMarks, IsPassedBy, IsStill, IsToldPrefix, IsUnmet, MarksMoved, meets};
ghost use Rattle.timed_reports.specs.Records.{AreInOrder, AreLooked, IsLooked, MovesNoWay, moves_ways};

use crate::spells::{Spell, Watched, note};
use network_model::{Entry, Item, Prefix, SmallAllocator, Step};
use reachability::{CutOff, is_last};
use world::World;

// ---- before an event

/// The prefix of the message that a router takes by this step, if it takes one.
pub fn told_prefix<A: SmallAllocator>(world: &World<A>, step: &Step) -> Option<Prefix>
    ensures { IfSome result (λ p. IsToldPrefix world.now step.now p) }
{
    let Step::Deliver { router, port } = *step else {
        return None;
    };
    let place = world.port(router, port)?;
    let Ok(item) = world.links().front(place.link, place.end) else {
        return None;
    };
    match item {
        Item::Message(message) => Some(message.prefix),
        Item::Up { .. } | Item::Down { .. } | Item::Cost { .. } => None,
    }
}

/// Marks the prefixes to which a step may move ways. Where it may move none, the marks stay as they were.
pub fn mark_moved<A: SmallAllocator>(world: &World<A>, step: &Step, marks: &mut Vec<bool, A>)
    requires { HasMarks world.now marks.old.items }
    ensures marked { moves_ways step.now ≡ true → MarksMoved world.now step.now marks.new.items }
    ensures many { length marks.new.items ≡ length marks.old.items }
{
    if !moves_ways(step) {
        return;
    }
    let prefixes = world.prefixes();
    for number in 0..prefixes.len() {
        let still = moves_no_way(world, step, prefixes[number]);
        set_mark(marks, number, !still);
    }
}

fn set_mark<A: SmallAllocator>(marks: &mut Vec<bool, A>, place: usize, mark: bool)
    requires { place < length marks.old.items }
    ensures { marks.new.items ≡ slice_set marks.old.items place mark }
{
    marks[place] = mark;
}

// Whether a step may move ways: links, attachments and published rows do.
fn moves_ways(step: &Step) -> bool
    ensures { result ≡ moves_ways step.now }
{
    match *step {
        Step::LinkUp { .. }
        | Step::LinkDown { .. }
        | Step::Publish { .. }
        | Step::Attach { .. }
        | Step::Detach { .. } => true,
        Step::SetCost { .. } | Step::Deliver { .. } | Step::Release { .. } => false,
    }
}

// Whether it is known that a step moves no way to the prefix.
fn moves_no_way<A: SmallAllocator>(world: &World<A>, step: &Step, prefix: Prefix) -> bool
    ensures { IsTrue result → MovesNoWay world.now step.now prefix }
{
    match *step {
        Step::Publish { router } => keeps_row(world, router, prefix),
        Step::Attach {
            router: _,
            prefix: other,
            cost: _,
        } => {
            let attached = is_same(prefix, other);
            !attached
        }
        Step::Detach {
            router: _,
            prefix: other,
        } => {
            let detached = is_same(prefix, other);
            !detached
        }
        _ => false,
    }
}

// Whether the row that a router has chosen for the prefix is the one that it published.
fn keeps_row<A: SmallAllocator>(world: &World<A>, router: u16, prefix: Prefix) -> bool
    ensures { IsTrue result → control_entry world.now router prefix
        ≡ published_entry world.now router prefix }
{
    if usize::from(router) >= world.routers().len() {
        return false;
    }
    let table = world.router(router).table();
    is_same_row(table.get(prefix), table.published(prefix))
}

// Whether these are one row, or both are none.
fn is_same_row(chosen: Option<Entry>, published: Option<Entry>) -> bool
    ensures { IsTrue result → chosen ≡ published }
{
    match (chosen, published) {
        (Some(one), Some(other)) => is_same_entry(one, other),
        (None, None) => true,
        _ => false,
    }
}

#[tactic(auto, using(network_model::proofs::EntryLaws::entry_partial_eq))]
fn is_same_entry(one: Entry, other: Entry) -> bool
    ensures { result ≡ entry_eq one other }
{
    one == other
}

#[tactic(auto, using(ipv4_prefix::proofs::PrefixOrder::prefix_partial_eq))]
fn is_same(one: Prefix, other: Prefix) -> bool
    ensures { result ≡ prefix_eq one other }
{
    one == other
}

// ---- after it

// The place of a router among those of a prefix, which stand by prefixes and then by routers.
fn place_of(prefix: usize, routers: usize, router: usize) -> usize
    requires { prefix * routers + router < 2 ^ 64 }
    ensures { result ≡ prefix * routers + router }
{
    prefix * routers + router
}

// Whether the machine of a router is in a computation.
fn is_computing<A: SmallAllocator>(world: &World<A>, router: u16, prefix: Prefix) -> bool
    ensures { IsTrue result ↔ IsComputing prefix router world.now }
{
    if usize::from(router) >= world.routers().len() {
        return false;
    }
    match world.router(router).machine(prefix) {
        Some(machine) => !machine.is_passive(),
        None => false,
    }
}

// Whether a machine of the prefix meets what its router takes, where a message is for this one.
fn meets(told: Option<Prefix>, prefix: Prefix) -> bool
    ensures { result ≡ meets told prefix }
{
    match told {
        Some(told) => is_same(prefix, told),
        None => true,
    }
}

// Looks at one, which is of this prefix, if it meets what its router takes: whether its machine is in a computation.
fn look_for_computation<A: SmallAllocator>(
    world: &World<A>,
    told: Option<Prefix>,
    prefix: Prefix,
    now: u64,
    all: &mut Vec<Watched, A>,
    ended: &mut Vec<Spell, A>,
    place: usize,
)
    requires place { place < length all.old.items }
    requires of { (c : Watched) → slice_get all.old.items place ≡ Some c → c.prefix ≡ prefix }
    requires room { vec_len ended.old < vec_capacity ended.old }
    ensures looked { IsLooked IsComputing world.now now (λ c. meets told c.prefix ≡ false) place
        all.old.items all.new.items ended.old.items ended.new.items }
    ensures room { vec_len ended.new ≤ vec_len ended.old + 1 }
    ensures capacity { vec_capacity ended.old ≤ vec_capacity ended.new }
{
    if !meets(told, prefix) {
        return;
    }
    let one = all[place];
    let holds = is_computing(world, one.router, one.prefix);
    note(all, ended, place, now, holds);
}

// Looks at the machines of one router that meet what it took.
fn look_at_router<A: SmallAllocator>(
    world: &World<A>,
    prefixes: &[Prefix],
    routers: usize,
    router: u16,
    told: &Option<Prefix>,
    now: u64,
    all: &mut Vec<Watched, A>,
    ended: &mut Vec<Spell, A>,
)
    requires order { AreInOrder routers prefixes.now all.old.items }
    requires known { router < routers }
    requires room { vec_len ended.old + length all.old.items ≤ vec_capacity ended.old }
    ensures { AreLooked IsComputing world.now now (IsUnmet router told.now) (length all.old.items)
        all.old.items all.new.items ended.old.items ended.new.items }
{
    for number in 0..prefixes.len() {
        let place = place_of(number, routers, usize::from(router));
        look_for_computation(world, *told, prefixes[number], now, all, ended, place);
    }
}

/// Looks at the machines that a step may have moved: those of a router that took an item, and if that was a message,
/// the one for the prefix that was told.
pub fn look_for_computations<A: SmallAllocator>(
    world: &World<A>,
    step: &Step,
    told: Option<Prefix>,
    now: u64,
    all: &mut Vec<Watched, A>,
    ended: &mut Vec<Spell, A>,
)
    requires order { AreInOrder (length (world.now).routers) (world.now).prefixes all.old.items }
    requires known { (i q : ℕ) → step.now ≡ Step.Deliver i q → i < length (world.now).routers }
    requires room { vec_len ended.old + length all.old.items ≤ vec_capacity ended.old }
    ensures { AreLooked IsComputing world.now now (IsPassedBy step.now told) (length all.old.items)
        all.old.items all.new.items ended.old.items ended.new.items }
{
    if let Step::Deliver { router, .. } = *step {
        let routers = world.routers().len();
        look_at_router(
            world,
            world.prefixes(),
            routers,
            router,
            &told,
            now,
            all,
            ended,
        );
    }
}

// Whether a prefix is marked.
fn is_marked(marks: &[bool], place: usize) -> bool
    ensures { result ≡ slice_index_or marks.now place false }
{
    match marks.get(place) {
        Some(mark) => *mark,
        None => false,
    }
}

// Looks at the routers for a prefix, if it is marked: at the one alone that published, if it is the last of a way.
fn look_at_prefix<A: SmallAllocator>(
    world: &World<A>,
    step: &Step,
    prefixes: &[Prefix],
    marks: &[bool],
    number: usize,
    now: u64,
    cut: &mut CutOff<A>,
    all: &mut Vec<Watched, A>,
    ended: &mut Vec<Spell, A>,
)
    requires size { size cut.old ≡ length (world.now).routers }
    requires joined { IsJoined world.now }
    requires known { number < length prefixes.now }
    requires within { number * length (world.now).routers + length (world.now).routers
        ≤ length all.old.items }
    requires room { vec_len ended.old + length (world.now).routers ≤ vec_capacity ended.old }
    ensures size { size cut.new ≡ size cut.old }
    ensures looked { AreLookedFurther world.now step.now now prefixes.now marks.now number
        all.old.items all.new.items ended.old.items ended.new.items }
    ensures room { vec_len ended.new ≤ vec_len ended.old + length (world.now).routers }
    ensures capacity { vec_capacity ended.old ≤ vec_capacity ended.new }
{
    if !is_marked(marks, number) {
        return;
    }
    let routers = world.routers().len();
    let first = place_of(number, routers, 0);
    if let Step::Publish { router } = *step
        && usize::from(router) < routers
        && is_last(world, prefixes[number], router)
    {
        note(all, ended, first + usize::from(router), now, false);
        return;
    }
    cut.look(world, prefixes[number]);
    for place in first..first + routers {
        let one = all[place];
        let holds = cut.is_cut_off(one.router);
        note(all, ended, place, now, holds);
    }
}

/// Looks at all routers for each prefix to which a step may have moved ways, as the marks say.
pub fn look_for_outages<A: SmallAllocator>(
    world: &World<A>,
    step: &Step,
    marks: &[bool],
    now: u64,
    cut: &mut CutOff<A>,
    all: &mut Vec<Watched, A>,
    ended: &mut Vec<Spell, A>,
)
    requires size { size cut.old ≡ length (world.now).routers }
    requires joined { IsJoined world.now }
    requires order { AreInOrder (length (world.now).routers) (world.now).prefixes all.old.items }
    requires room { vec_len ended.old + length all.old.items ≤ vec_capacity ended.old }
    ensures looked { AreLooked IsCutOff world.now now (IsStill world.now step.now marks.now)
        (length all.old.items) all.old.items all.new.items ended.old.items ended.new.items }
    ensures size { size cut.new ≡ size cut.old }
{
    if !moves_ways(step) {
        return;
    }
    let prefixes = world.prefixes();
    for number in 0..prefixes.len() {
        look_at_prefix(world, step, prefixes, marks, number, now, cut, all, ended);
    }
}
