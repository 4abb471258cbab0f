//! Rows that are written for C.

ghost use Rattle.std.specs.Prelude.{◌≡◌, None, Some, IfErr, IfOk, IfSome, OnErr, OnOk, length, slice_get, take, nat_lt};
ghost use Rattle.network_model.specs.World.{Router};
ghost use Rattle.network_calls.specs.Calls.{image_answer_rows, lookup_fault, router_fault, IsAnswered, AreRowsListed};
ghost use Rattle.network_calls.specs.declared.failure.Failure.TheVariants.{Refused};
ghost use Rattle.single_router.specs.{Publishing.IsWrittenOver, States.flag};

use crate::failure::Failure;
use c_interface::{CallFault, Row};
use network_model::Refusal;
use route_table::PublishedRows;
use simulation::{Image, Simulation, World};

// Writes what an image answers for each of the addresses.
fn answer_all(image: &Image, addrs: &[u32], answers: &mut [Row])
    requires { length answers.old ≡ length addrs.now }
    ensures { answers.new ≡ image_answer_rows image.now addrs.now }
{
    for place in 0..addrs.len() {
        answers[place] = Row::answer(image.lookup(addrs[place]));
    }
}

/// Writes what the image in force at a router answers for each of the addresses; refused with `UnknownRouter`,
/// or with `BadCount` if there are not as many answers as addresses.
pub fn look_up(
    simulation: &Simulation,
    router: u16,
    addrs: &[u32],
    answers: &mut [Row],
) -> Result<(), Failure>
    ensures ok { OnOk result (lookup_fault
        router (length addrs.now) (length answers.old) (Some simulation.now) ≡ None) }
    ensures answers { OnOk result (IsAnswered router addrs.now answers.new simulation.now) }
    ensures unchanged { OnErr result (answers.new ≡ answers.old) }
    ensures err { IfErr result (λ f. lookup_fault
        router (length addrs.now) (length answers.old) (Some simulation.now) ≡ Some f) }
{
    match simulation.images().get(usize::from(router)) {
        None => Err(Failure::Refused(Refusal::UnknownRouter)),
        Some(image) if addrs.len() == answers.len() => {
            answer_all(image, addrs, answers);
            Ok(())
        }
        Some(_) => Err(Failure::Given(CallFault::BadCount)),
    }
}

// Writes rows in force over the first of those that are there, as many as fit: how many these are, and whether
// there are more.
fn write_published(published: PublishedRows<'_>, rows: &mut [Row]) -> (usize, bool)
    ensures written { IsWrittenOver (take (length rows.old) published.entry) rows.old rows.new }
    ensures count { result.0 ≡ length (take (length rows.old) published.entry) }
    ensures more { result.1 ≡ nat_lt (length rows.old) (length published.entry) }
{
    let mut place = 0;
    for row in published {
        if place == rows.len() {
            return (place, true);
        }
        rows[place] = Row::answer(Some(row));
        place += 1;
    }
    (place, false)
}

/// Writes the rows that a router has in force over the first of those that are there, in the order of their
/// prefixes and as many as fit: how many these are, and whether there are more. Refused with `UnknownRouter`.
pub fn rows_of(world: &World, router: u16, rows: &mut [Row]) -> Result<(usize, bool), Refusal>
    ensures ok { IfOk result (λ t. IfSome (slice_get (world.now).routers router)
        (λ r. AreRowsListed r rows.old rows.new t.0 (flag t.1))) }
    ensures known { OnOk result (router_fault (λ (r : Router). None) (world.now).routers router ≡ None) }
    ensures unchanged { OnErr result (rows.new ≡ rows.old) }
    ensures err { IfErr result (λ e.
        router_fault (λ (r : Router). None) (world.now).routers router ≡ Some (Refused e)) }
{
    match world.routers().get(usize::from(router)) {
        Some(found) => Ok(write_published(found.table().published_rows(), rows)),
        None => Err(Refusal::UnknownRouter),
    }
}
