use crate::equal_to::{equal, holds};
use crate::values::{cost, update};
use link_fifo::{LinkRefusal, Links, Put};
use network_model::{End, Item, LinkSpec};
use std::alloc::Allocator;
use std::process::Abort;

// One link of the routers 3 and 7, at cost 5 from the first and 9 from the other.
pub(crate) fn one_link<A: Allocator + Copy>(rt: &impl Abort, alloc: A) -> Links<A> {
    let spec = LinkSpec {
        a: 3,
        b: 7,
        from_a: cost(rt, 5),
        from_b: cost(rt, 9),
    };
    Links::new(alloc, &[spec]).expect(rt, "memory")
}

fn comes_up(rt: &impl Abort, links: &mut Links) {
    links.up(0).expect(rt, "up");
}

fn goes_down(rt: &impl Abort, links: &mut Links) {
    links.down(0).expect(rt, "down");
}

// The second router takes this.
fn takes(rt: &impl Abort, links: &mut Links, wanted: Result<Item, LinkRefusal>) {
    equal(rt, links.take(0, End::B), wanted);
}

// The link came up, in this session.
fn takes_up(rt: &impl Abort, links: &mut Links, session: u16) {
    let cost = cost(rt, 9);
    takes(rt, links, Ok(Item::Up { session, cost }));
}

fn takes_nothing(rt: &impl Abort, links: &mut Links) {
    takes(rt, links, Err(LinkRefusal::NothingToDeliver));
}

// The first router sends a message of session 1.
fn puts(rt: &impl Abort, links: &mut Links, wanted: Put) {
    equal(rt, links.put(0, End::A, 1, update()), Ok(wanted));
}

// Notices and messages come out in the order in which they were put in.
#[test]
fn items_come_out_in_order(rt: HostRuntime) {
    let mut links = one_link(&rt, rt.alloc());
    let cost = cost(&rt, 6);
    let told = Ok(Item::Cost { session: 1, cost });
    comes_up(&rt, &mut links);
    links.set_cost(0, End::B, cost).expect(&rt, "cost");
    puts(&rt, &mut links, Put::Queued);
    takes_up(&rt, &mut links, 1);
    holds(&rt, links.front(0, End::B) == told);
    takes(&rt, &mut links, told);
    takes(&rt, &mut links, Ok(Item::Message(update())));
    takes_nothing(&rt, &mut links);
}

// Going down loses the messages, and a message of the session that has ended is stale.
#[test]
fn a_session_ends_with_its_messages(rt: HostRuntime) {
    let mut links = one_link(&rt, rt.alloc());
    comes_up(&rt, &mut links);
    puts(&rt, &mut links, Put::Queued);
    goes_down(&rt, &mut links);
    takes_up(&rt, &mut links, 1);
    takes(&rt, &mut links, Ok(Item::Down { session: 1 }));
    takes_nothing(&rt, &mut links);
    comes_up(&rt, &mut links);
    puts(&rt, &mut links, Put::Stale);
    takes_up(&rt, &mut links, 2);
    takes_nothing(&rt, &mut links);
}

// Each end takes a notice.
fn both_take(rt: &impl Abort, links: &mut Links) {
    links.take(0, End::A).expect(rt, "notice");
    links.take(0, End::B).expect(rt, "notice");
}

#[test]
fn sessions_are_spent_at_65535(rt: HostRuntime) {
    let mut links = one_link(&rt, rt.alloc());
    for _ in 0..65535 {
        comes_and_goes(&rt, &mut links);
    }
    are_spent(&rt, &mut links);
}

// The link comes up and goes down, and each end learns both.
fn comes_and_goes(rt: &impl Abort, links: &mut Links) {
    comes_up(rt, links);
    both_take(rt, links);
    goes_down(rt, links);
    both_take(rt, links);
}

// The link cannot come up again.
fn are_spent(rt: &impl Abort, links: &mut Links) {
    equal(rt, links.up(0), Err(LinkRefusal::SessionsSpent));
    is_in_session(rt, links, 65535);
}

fn is_in_session(rt: &impl Abort, links: &Links, session: u16) {
    holds(rt, links.len() == 1);
    equal(rt, links.session(0), session);
}
