//! One router for C programs, behind handles.
//!
//! A routing daemon in C wants one router whose neighbours are other processes (`single_router`). It has no
//! types that keep it from giving a wrong number, or from using a router that is not there. So each call
//! tests what it is given, in a fixed order, and answers a number. C sees `include/tuhvondi_router.h`, which
//! has the rules for callers.
//!
//! ```text
//! struct tuhvondi_router r = TUHVONDI_NO_ROUTER;
//! tuhvondi_router_new(costs, 2, attachments, 1, 4096, &r);      /* 0: done */
//! tuhvondi_router_link_up(&r, 0, 1, 10);                        /* port 0, session 1, cost 10 */
//! while (tuhvondi_router_publish(..) == TUHVONDI_DONE) ..       /* its rows forward packets from now on */
//! while (tuhvondi_router_release(..) == TUHVONDI_DONE) ..       /* only then messages leave */
//! tuhvondi_router_free(&r);
//! ```
//!
//! The words: a *handle* is a pointer to a router in a box, and a flag if there is one. A *status* is 0, or
//! the number of the fault for which a call is refused (`c_interface`).
//!
//! What always holds: the tests have an order (`tell_fault` and `IsTold` in `single_router/specs/Calls.antt`). Faults of
//! the numbers come first, then an empty handle, then the router's own, and want of memory last. If a call is
//! done, the router is the network's after that input, by the very definitions that `single_router` cites. If
//! it is refused, the router stays as it was, and nothing is written. Only `tuhvondi_router_new` and the
//! calls that tell the router something ask for memory.
//!
//! What is tricky is the pointer. Each call takes the box out of the handle, works on what is in it, and puts
//! it back. So only three small functions touch the pointer (`single_router/src/handle.rt`), and these are
//! proved by hand. A handle is for one call at a time. It has no lock, and may go to another thread.
//!
//! The proofs take for granted that C keeps the rules of the header. For example, lists are as long as a call
//! is told, and no two arguments overlap.
#![tactic(auto)]

ghost use Rattle.std.specs.Prelude.{◌≡◌, ◌≢◌, None, Some, IfSome, length, option_map};
ghost use Rattle.network_model.specs.Step as step;
ghost use Rattle.c_interface.specs.{Faults.status_by, Faults.IsStatusBy, Rows.as_prefix};
ghost use Rattle.single_router.specs.{Frames.frame_of, Bounded.bounded_make_fault, Bounded.bounded_router, Bounded.with_router, Publishing.publish_fault, Publishing.router_given, Publishing.room_fault, States.router_counts, States.shown_state};
ghost use Rattle.single_router.specs.Inputs as inputs;
ghost use Rattle.router_core.specs.Alone.{router_forgetting};
ghost use Rattle.single_router.specs.Handles.{handle_router};
ghost use Rattle.single_router.specs.Calls.{held_fault, release_fault, state_fault, forget_call_fault, IsTold, IsPublished, AreChosenListed};

use c_interface::{CallFault, Row, read_prefix, status};
use single_router::{Attachment, Counts, Frame, Input, RouterHandle, State};
use std::alloc::Global;

/// Makes a router with a port for each of these costs and with these attachments, which may know so many
/// prefixes, and puts it into the handle; the router that the handle held is freed.
#[unsafe(no_mangle)]
pub extern "C" fn tuhvondi_router_new(
    alloc: Global,
    costs: &[u32],
    attachments: &[Attachment],
    most_prefixes: usize,
    router: &mut RouterHandle,
) -> u32
    ensures status { IsStatusBy (bounded_make_fault most_prefixes costs.now attachments.now) result }
    ensures done { result ≡ 0 → handle_router router.new
        ≡ Some (bounded_router most_prefixes costs.now attachments.now) }
    ensures refused { result ≢ 0 → handle_router router.new ≡ handle_router router.old }
{
    status(router.make(alloc, costs, attachments, most_prefixes))
}

// The status of telling the router of a handle what was read.
fn answer(alloc: Global, router: &mut RouterHandle, read: Result<Input, CallFault>) -> u32
    ensures { IsTold read (handle_router router.old) (handle_router router.new) result }
{
    status(router.tell(alloc, read))
}

/// The link of the port came up, in a later session than the last, at this cost from here.
#[unsafe(no_mangle)]
pub extern "C" fn tuhvondi_router_link_up(
    alloc: Global,
    router: &mut RouterHandle,
    port: u8,
    session: u16,
    cost: u32,
) -> u32
    ensures { IsTold (inputs.up_input port session cost)
        (handle_router router.old) (handle_router router.new) result }
{
    answer(alloc, router, Input::up(port, session, cost))
}

/// The link of the port went down.
#[unsafe(no_mangle)]
pub extern "C" fn tuhvondi_router_link_down(
    alloc: Global,
    router: &mut RouterHandle,
    port: u8,
) -> u32
    ensures { IsTold (Ok (Input.Down port))
        (handle_router router.old) (handle_router router.new) result }
{
    answer(alloc, router, Ok(Input::Down { port }))
}

/// The cost from here of the port's link is now this.
#[unsafe(no_mangle)]
pub extern "C" fn tuhvondi_router_link_cost(
    alloc: Global,
    router: &mut RouterHandle,
    port: u8,
    cost: u32,
) -> u32
    ensures { IsTold (inputs.cost_input port cost)
        (handle_router router.old) (handle_router router.new) result }
{
    answer(alloc, router, Input::cost(port, cost))
}

/// The message came to its port.
#[unsafe(no_mangle)]
pub extern "C" fn tuhvondi_router_message(
    alloc: Global,
    router: &mut RouterHandle,
    message: &Frame,
) -> u32
    ensures { IsTold (inputs.frame_input message.now)
        (handle_router router.old) (handle_router router.new) result }
{
    answer(alloc, router, Input::message(*message))
}

/// The router is attached to the prefix at this cost.
#[unsafe(no_mangle)]
pub extern "C" fn tuhvondi_router_attached(
    alloc: Global,
    router: &mut RouterHandle,
    addr: u32,
    len: u8,
    cost: u32,
) -> u32
    ensures { IsTold (inputs.attached_input addr len cost)
        (handle_router router.old) (handle_router router.new) result }
{
    answer(alloc, router, Input::attached(addr, len, cost))
}

/// The router is attached to the prefix no more.
#[unsafe(no_mangle)]
pub extern "C" fn tuhvondi_router_detached(
    alloc: Global,
    router: &mut RouterHandle,
    addr: u32,
    len: u8,
) -> u32
    ensures { IsTold (inputs.detached_input addr len)
        (handle_router router.old) (handle_router router.new) result }
{
    answer(alloc, router, Input::detached(addr, len))
}

/// Writes what the router has.
#[unsafe(no_mangle)]
pub extern "C" fn tuhvondi_router_counts(
    alloc: Global,
    router: &mut RouterHandle,
    counts: &mut Counts,
) -> u32
    ensures status { result ≡ status_by (held_fault (λ _. None) (handle_router router.old)) }
    ensures done { result ≡ 0 →
        option_map (λ b. router_counts b.router) (handle_router router.old) ≡ Some counts.new }
    ensures refused { result ≢ 0 → counts.new ≡ counts.old }
    ensures router { handle_router router.new ≡ handle_router router.old }
{
    let Some(held) = router.take(alloc) else {
        return CallFault::Empty.number();
    };
    *counts = held.counts();
    router.put(held);
    0
}

/// Publishes: writes the rows that are in force from now on and were not, how many they are, whether there
/// are more, for which there was no room (1, else 0), and how often the router has published. It takes no
/// memory.
#[unsafe(no_mangle)]
pub extern "C" fn tuhvondi_router_publish(
    alloc: Global,
    router: &mut RouterHandle,
    rows: &mut [Row],
    written: &mut usize,
    more: &mut u8,
    generation: &mut u64,
) -> u32
    ensures status { result ≡ status_by (held_fault
        (λ b. publish_fault (length rows.old) b.router) (handle_router router.old)) }
    ensures done { result ≡ 0 → IfSome (handle_router router.old) (λ b. IsPublished
        b.router rows.old rows.new written.new more.new generation.new) }
    ensures published { result ≡ 0 → handle_router router.new ≡ option_map
        (with_router (router_given (length rows.old))) (handle_router router.old) }
    ensures refused { result ≢ 0 → handle_router router.new ≡ handle_router router.old }
    ensures nothing { result ≢ 0 → (rows.new ≡ rows.old) × ((written.new ≡ written.old)
        × ((more.new ≡ more.old) × (generation.new ≡ generation.old))) }
{
    match router.publish(alloc, rows) {
        Ok((published, number)) => {
            *written = published.count;
            *more = u8::from(published.more);
            *generation = number;
            0
        }
        Err(fault) => fault.number(),
    }
}

/// Takes the oldest message that may leave.
#[unsafe(no_mangle)]
pub extern "C" fn tuhvondi_router_release(
    alloc: Global,
    router: &mut RouterHandle,
    message: &mut Frame,
) -> u32
    ensures status { result ≡ status_by (held_fault release_fault (handle_router router.old)) }
    ensures done { result ≡ 0 → IfSome (handle_router router.old) (λ b.
        option_map frame_of (step.ripe_front b.router) ≡ Some message.new) }
    ensures released { result ≡ 0 → handle_router router.new
        ≡ option_map (with_router step.router_releasing) (handle_router router.old) }
    ensures refused { result ≢ 0 → (handle_router router.new ≡ handle_router router.old)
        × (message.new ≡ message.old) }
{
    let Some(mut held) = router.take(alloc) else {
        return CallFault::Empty.number();
    };
    let outcome = held.release();
    router.put(held);
    match outcome {
        Ok(frame) => {
            *message = frame;
            0
        }
        Err(fault) => fault.number(),
    }
}

/// Writes what the router knows of a prefix.
#[unsafe(no_mangle)]
pub extern "C" fn tuhvondi_router_state(
    alloc: Global,
    router: &mut RouterHandle,
    addr: u32,
    len: u8,
    state: &mut State,
) -> u32
    ensures status { result ≡ status_by (state_fault addr len (handle_router router.old)) }
    ensures done { result ≡ 0 → IfSome (handle_router router.old) (λ b.
        shown_state (as_prefix addr len) b.router ≡ Some state.new) }
    ensures refused { result ≢ 0 → state.new ≡ state.old }
    ensures router { handle_router router.new ≡ handle_router router.old }
{
    let prefix = match read_prefix(addr, len) {
        Ok(prefix) => prefix,
        Err(fault) => return fault.number(),
    };
    let Some(held) = router.take(alloc) else {
        return CallFault::Empty.number();
    };
    let outcome = held.state(prefix);
    router.put(held);
    match outcome {
        Ok(shown) => {
            *state = shown;
            0
        }
        Err(fault) => fault.number(),
    }
}

/// Writes the row that the router chose for each prefix that it has heard of, and how many they are. It
/// takes no memory.
#[unsafe(no_mangle)]
pub extern "C" fn tuhvondi_router_rows(
    alloc: Global,
    router: &mut RouterHandle,
    rows: &mut [Row],
    written: &mut usize,
) -> u32
    ensures status { result ≡ status_by (held_fault (λ b.
        room_fault (length ((b.router).table).control) (length rows.old)) (handle_router router.old)) }
    ensures done { result ≡ 0 → IfSome (handle_router router.old) (λ b.
        AreChosenListed b.router rows.old rows.new written.new) }
    ensures refused { result ≢ 0 → (rows.new ≡ rows.old) × (written.new ≡ written.old) }
    ensures router { handle_router router.new ≡ handle_router router.old }
{
    let Some(held) = router.take(alloc) else {
        return CallFault::Empty.number();
    };
    let outcome = held.rows(rows);
    router.put(held);
    match outcome {
        Ok(count) => {
            *written = count;
            0
        }
        Err(fault) => fault.number(),
    }
}

/// Forgets a prefix of which the router knows nothing any more.
#[unsafe(no_mangle)]
pub extern "C" fn tuhvondi_router_forget(
    alloc: Global,
    router: &mut RouterHandle,
    addr: u32,
    len: u8,
) -> u32
    ensures status { result ≡ status_by (forget_call_fault addr len (handle_router router.old)) }
    ensures done { result ≡ 0 → handle_router router.new ≡ option_map
        (with_router (router_forgetting (as_prefix addr len))) (handle_router router.old) }
    ensures refused { result ≢ 0 → handle_router router.new ≡ handle_router router.old }
{
    let prefix = match read_prefix(addr, len) {
        Ok(prefix) => prefix,
        Err(fault) => return fault.number(),
    };
    let Some(mut held) = router.take(alloc) else {
        return CallFault::Empty.number();
    };
    let outcome = held.forget(prefix);
    router.put(held);
    status(outcome)
}

/// Frees the router, if there is one. The handle then holds none.
#[unsafe(no_mangle)]
pub extern "C" fn tuhvondi_router_free(alloc: Global, router: &mut RouterHandle)
    ensures { handle_router router.new ≡ None }
{
    *router = RouterHandle::none(alloc);
}

#[cfg(test)]
mod tests;
