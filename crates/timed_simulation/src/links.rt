//! When the items on links arrive.

ghost use Rattle.std.specs.Prelude.{◌≡◌, ◌+◌, ◌<◌, ◌≤◌, filter, length, map, slice_get, true, IfOk, IfSome, OnOk};
ghost use Rattle.std.specs.{Option.option_map_or, VecDeque.deque_capacity, VecDeque.deque_len};
ghost use Rattle.network_model.specs.Step as step;
ghost use Rattle.course.specs.Links.{HasLinksOfPorts};
ghost use Rattle.timed_simulation.specs.Links.{direction_of, later, link_of, links_after, motion_of, link_moved, opening_direction, opening_directions, towards, with_put, with_taken, without_messages, HasLinkRoom, HasLinkRoomFor};

use network_model::{End, NoMemory, SmallAllocator, Step};
use std::alloc::{AllocError, Allocator};
use std::collections::VecDeque;
use world::World;

/// How long an item is on its way along each direction of a link, in microseconds.
#[derive(Clone, Copy)]
pub struct LinkDelays {
    pub to_a: u64,
    pub to_b: u64,
}

/// An item on its way: when it arrives, in microseconds, and whether it is a notice of the link.
#[derive(Clone, Copy)]
pub struct Arrival {
    pub moment: u64,
    pub notice: bool,
}

// What happens to the items on a link.
#[derive(Clone, Copy)]
pub enum Motion {
    // The link comes up, and both ends are told.
    Told,
    // The link goes down: its messages are lost, and both ends are told.
    Cut,
    // An item is put, towards this end.
    Put { to: End, notice: bool },
    // The front item is taken at this end.
    Taken { at: End },
}

// One direction of a link: how long an item is on its way, and the items, oldest first.
#[derive(Drop)]
pub struct Line<S: Allocator> {
    delay: u64,
    arrivals: VecDeque<Arrival, S>,
}

// A link: what is on its way towards each end.
#[derive(Drop)]
pub struct LinkTimes<S: Allocator> {
    to_a: Line<S>,
    to_b: Line<S>,
}

// The moment so much later. What would be past the last moment counts as that.
pub fn later(moment: u64, delay: u64) -> u64
    ensures { result ≡ later moment delay }
{
    moment.saturating_add(delay)
}

// Only the notices stay.
fn drop_messages<S: Allocator>(arrivals: &mut VecDeque<Arrival, S>)
    ensures items { arrivals.new.items ≡ filter (λ x. x.notice) arrivals.old.items }
    ensures len { deque_len arrivals.new ≤ deque_len arrivals.old }
    ensures capacity { deque_capacity arrivals.new ≡ deque_capacity arrivals.old }
{
    arrivals.retain(|arrival| arrival.notice);
}

impl<S: Allocator> Line<S> {
    fn new(alloc: S, delay: u64) -> Line<S>
        ensures { direction_of result ≡ opening_direction delay }
    {
        Line {
            delay,
            arrivals: VecDeque::new(alloc),
        }
    }

    // Makes room for one more item.
    fn reserve(&mut self) -> Result<(), AllocError>
        ensures same { direction_of self.new ≡ direction_of self.old }
        ensures ok { OnOk result (deque_len self.new.arrivals < deque_capacity self.new.arrivals) }
    {
        self.arrivals.reserve(1)
    }

    // Puts an item into the room that was made for it.
    fn put(&mut self, now: u64, notice: bool)
        requires { deque_len self.old.arrivals < deque_capacity self.old.arrivals }
        ensures { direction_of self.new ≡ with_put now notice (direction_of self.old) }
    {
        let moment = later(now, self.delay);
        self.arrivals.push_back(Arrival { moment, notice }).unwrap();
    }

    // Drops the messages, and tells this end that the link went down.
    fn cut(&mut self, now: u64)
        requires { deque_len self.old.arrivals < deque_capacity self.old.arrivals }
        ensures { direction_of self.new ≡ with_put now true (without_messages (direction_of self.old)) }
    {
        drop_messages(&mut self.arrivals);
        self.put(now, true);
    }

    fn take(&mut self)
        ensures { direction_of self.new ≡ with_taken (direction_of self.old) }
    {
        let _taken = self.arrivals.pop_front();
    }
}

impl<S: Allocator + Copy> Line<S> {
    // The same, in memory of this allocator.
    fn copy(&self, alloc: S) -> Result<Line<S>, AllocError>
        ensures { IfOk result (λ l. direction_of l ≡ direction_of self.now) }
    {
        let arrivals = self.arrivals.iter().copied().collect(alloc)?;
        Ok(Line {
            delay: self.delay,
            arrivals,
        })
    }
}

impl<S: Allocator + Copy> LinkTimes<S> {
    // The same, in memory of this allocator.
    fn copy(&self, alloc: S) -> Result<LinkTimes<S>, AllocError>
        ensures { IfOk result (λ k. link_of k ≡ link_of self.now) }
    {
        let to_a = self.to_a.copy(alloc)?;
        let to_b = self.to_b.copy(alloc)?;
        Ok(LinkTimes { to_a, to_b })
    }
}

impl<S: Allocator> LinkTimes<S> {
    // When the front item towards an end arrives; 0 where there is none.
    pub fn front(&self, to: End) -> u64
        ensures { result ≡ option_map_or (λ x. x.moment)
            (slice_get (towards to (link_of self.now)).arrivals 0) 0 }
    {
        let line = match to {
            End::A => &self.to_a,
            End::B => &self.to_b,
        };
        match line.arrivals.front() {
            Some(arrival) => arrival.moment,
            None => 0,
        }
    }

    // Makes room for one more item towards each end.
    fn reserve(&mut self) -> Result<(), AllocError>
        ensures same { link_of self.new ≡ link_of self.old }
        ensures ok { OnOk result (HasLinkRoom self.new) }
    {
        self.to_a.reserve()?;
        self.to_b.reserve()
    }

    // This happens to the items.
    fn note(&mut self, now: u64, motion: Motion)
        requires { HasLinkRoom self.old }
        ensures { link_of self.new ≡ link_moved now motion (link_of self.old) }
    {
        match motion {
            Motion::Told => {
                self.to_a.put(now, true);
                self.to_b.put(now, true);
            }
            Motion::Cut => {
                self.to_a.cut(now);
                self.to_b.cut(now);
            }
            Motion::Put { to: End::A, notice } => self.to_a.put(now, notice),
            Motion::Put { to: End::B, notice } => self.to_b.put(now, notice),
            Motion::Taken { at: End::A } => self.to_a.take(),
            Motion::Taken { at: End::B } => self.to_b.take(),
        }
    }
}

// Links of these delays, with nothing on them.
pub fn opening_links<A: SmallAllocator>(
    alloc: A,
    delays: &[LinkDelays],
) -> Result<Vec<LinkTimes<A>, A>, NoMemory>
    ensures { IfOk result (λ links. map link_of links.items ≡ map opening_directions delays.now) }
{
    let mut links = Vec::new(alloc);
    for delay in delays {
        links.push(LinkTimes {
            to_a: Line::new(alloc, delay.to_a),
            to_b: Line::new(alloc, delay.to_b),
        })?;
    }
    Ok(links)
}

// The same links, in memory of this allocator.
pub fn copy_links<A: SmallAllocator>(
    alloc: A,
    links: &[LinkTimes<A>],
) -> Result<Vec<LinkTimes<A>, A>, NoMemory>
    ensures { IfOk result (λ copies. map link_of copies.items ≡ map link_of links.now) }
{
    let mut copies = Vec::new(alloc);
    for link in links {
        let copy = link.copy(alloc)?;
        copies.push(copy)?;
    }
    Ok(copies)
}

// Makes room for what is about to be put.
pub fn reserve<A: SmallAllocator>(
    links: &mut Vec<LinkTimes<A>, A>,
    motion: Option<(u16, Motion)>,
) -> Result<(), NoMemory>
    ensures same { map link_of links.new.items ≡ map link_of links.old.items }
    ensures ok { OnOk result (HasLinkRoomFor links.new.items motion) }
{
    let Some((link, _)) = motion else {
        return Ok(());
    };
    if usize::from(link) >= links.len() {
        return Ok(());
    }
    links[usize::from(link)].reserve()?;
    Ok(())
}

// This happens to the items on a link.
pub fn note<A: SmallAllocator>(
    links: &mut Vec<LinkTimes<A>, A>,
    now: u64,
    motion: Option<(u16, Motion)>,
)
    requires { HasLinkRoomFor links.old.items motion }
    ensures { map link_of links.new.items ≡ links_after now motion (map link_of links.old.items) }
{
    let Some((link, motion)) = motion else {
        return;
    };
    if usize::from(link) >= links.len() {
        return;
    }
    links[usize::from(link)].note(now, motion);
}

// Whether the link is up in this session.
fn is_up_in<A: SmallAllocator>(world: &World<A>, link: u16, session: u16) -> bool
    requires { link < length (world.now).links }
    ensures { IfSome (slice_get (world.now).links link) (λ k. result ≡ step.is_up_in session k) }
{
    let links = world.links();
    links.is_up(link) && links.session(link) == session
}

// What the front message that a router holds does to the items on its link, as it is released.
fn release_motion<A: SmallAllocator>(world: &World<A>, router: u16) -> Option<(u16, Motion)>
    requires { HasLinksOfPorts world.now }
    ensures { result ≡ motion_of world.now (Step.Release router) }
{
    let held = world.routers().get(usize::from(router))?.front()?;
    let place = world.port(router, held.port)?;
    if !is_up_in(world, place.link, held.session) {
        return None;
    }
    let to = place.end.other();
    Some((place.link, Motion::Put { to, notice: false }))
}

// Which link's items a step is about to move, and how.
pub fn motion_of<A: SmallAllocator>(world: &World<A>, step: &Step) -> Option<(u16, Motion)>
    requires { HasLinksOfPorts world.now }
    ensures { result ≡ motion_of world.now step.now }
{
    match *step {
        Step::LinkUp { link } => Some((link, Motion::Told)),
        Step::LinkDown { link } => Some((link, Motion::Cut)),
        Step::SetCost { router, port, .. } => {
            let place = world.port(router, port)?;
            Some((
                place.link,
                Motion::Put {
                    to: place.end,
                    notice: true,
                },
            ))
        }
        Step::Deliver { router, port } => {
            let place = world.port(router, port)?;
            Some((place.link, Motion::Taken { at: place.end }))
        }
        Step::Release { router } => release_motion(world, router),
        Step::Publish { .. } | Step::Attach { .. } | Step::Detach { .. } => None,
    }
}
