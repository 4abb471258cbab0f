//! The calls of a network that keeps a record: what of the record C is shown.

ghost use Rattle.std.specs.Prelude.{◌≡◌, ◌≢◌, drop, IfNone, IfSome};
ghost use Rattle.network_calls.specs.{Calls.at_record, Failures.failure_number, Failures.status_by_failure, Shown.AreShownOver, Spells.ended_shown, Spells.going_on, Spells.going_shown};
ghost use Rattle.network_calls.specs.Handles.{handle_going, handle_report};
ghost use Rattle.single_router.specs.States.{flag};

use c_interface::CallFault;
use network_calls::{Failure, NetworkHandle, SpellParts, write_ended, write_going_on};
use std::alloc::Global;

// Writes how many were written and whether there are more; 53 if no record is kept.
fn write_count(told: Option<(usize, bool)>, written: &mut usize, more: &mut u8) -> u32
    ensures some { IfSome told (λ t.
        (result ≡ 0) × (written.new ≡ t.0) × (more.new ≡ flag t.1)) }
    ensures none { IfNone told
        ((result ≡ failure_number Failure.NoRecord) × (written.new ≡ written.old) × (more.new ≡ more.old)) }
{
    let Some((count, left)) = told else {
        return Failure::NoRecord.number();
    };
    *written = count;
    *more = u8::from(left);
    0
}

/// Writes the computations that ended, in the order in which they did, from this place of that list on: as many
/// as there is room for, how many these are, and whether there are more (1, else 0). It takes no memory.
#[unsafe(no_mangle)]
pub extern "C" fn tuhvondi_network_computations(
    alloc: Global,
    network: &mut NetworkHandle,
    from: usize,
    spells: &mut [SpellParts],
    written: &mut usize,
    more: &mut u8,
) -> u32
    ensures status { result ≡ status_by_failure (at_record (handle_going network.old)) }
    ensures done { result ≡ 0 → IfSome (handle_report network.old) (λ r. AreShownOver ended_shown
        (drop from r.computations) spells.old spells.new written.new more.new) }
    ensures refused { result ≢ 0 →
        (spells.new ≡ spells.old) × (written.new ≡ written.old) × (more.new ≡ more.old) }
    ensures network { handle_going network.new ≡ handle_going network.old }
{
    let Some(held) = network.take(alloc) else {
        return CallFault::Empty.number();
    };
    let told = match held.report() {
        Some(report) => Some(write_ended(report.computations(), from, spells)),
        None => None,
    };
    network.put(held);
    write_count(told, written, more)
}

/// Writes the computations that go on, by prefixes and then by routers: as many as there is room for, how many
/// these are, and whether there are more (1, else 0). It takes no memory.
#[unsafe(no_mangle)]
pub extern "C" fn tuhvondi_network_computing(
    alloc: Global,
    network: &mut NetworkHandle,
    spells: &mut [SpellParts],
    written: &mut usize,
    more: &mut u8,
) -> u32
    ensures status { result ≡ status_by_failure (at_record (handle_going network.old)) }
    ensures done { result ≡ 0 → IfSome (handle_report network.old) (λ r. AreShownOver going_shown
        (going_on r.computing) spells.old spells.new written.new more.new) }
    ensures refused { result ≢ 0 →
        (spells.new ≡ spells.old) × (written.new ≡ written.old) × (more.new ≡ more.old) }
    ensures network { handle_going network.new ≡ handle_going network.old }
{
    let Some(held) = network.take(alloc) else {
        return CallFault::Empty.number();
    };
    let told = match held.report() {
        Some(report) => Some(write_going_on(report.computing(), spells)),
        None => None,
    };
    network.put(held);
    write_count(told, written, more)
}

/// Writes the outages that ended, as `tuhvondi_network_computations` does the computations.
#[unsafe(no_mangle)]
pub extern "C" fn tuhvondi_network_outages(
    alloc: Global,
    network: &mut NetworkHandle,
    from: usize,
    spells: &mut [SpellParts],
    written: &mut usize,
    more: &mut u8,
) -> u32
    ensures status { result ≡ status_by_failure (at_record (handle_going network.old)) }
    ensures done { result ≡ 0 → IfSome (handle_report network.old) (λ r. AreShownOver ended_shown
        (drop from r.outages) spells.old spells.new written.new more.new) }
    ensures refused { result ≢ 0 →
        (spells.new ≡ spells.old) × (written.new ≡ written.old) × (more.new ≡ more.old) }
    ensures network { handle_going network.new ≡ handle_going network.old }
{
    let Some(held) = network.take(alloc) else {
        return CallFault::Empty.number();
    };
    let told = match held.report() {
        Some(report) => Some(write_ended(report.outages(), from, spells)),
        None => None,
    };
    network.put(held);
    write_count(told, written, more)
}

/// Writes the outages that go on, as `tuhvondi_network_computing` does the computations.
#[unsafe(no_mangle)]
pub extern "C" fn tuhvondi_network_cut_off(
    alloc: Global,
    network: &mut NetworkHandle,
    spells: &mut [SpellParts],
    written: &mut usize,
    more: &mut u8,
) -> u32
    ensures status { result ≡ status_by_failure (at_record (handle_going network.old)) }
    ensures done { result ≡ 0 → IfSome (handle_report network.old) (λ r. AreShownOver going_shown
        (going_on r.cut_off) spells.old spells.new written.new more.new) }
    ensures refused { result ≢ 0 →
        (spells.new ≡ spells.old) × (written.new ≡ written.old) × (more.new ≡ more.old) }
    ensures network { handle_going network.new ≡ handle_going network.old }
{
    let Some(held) = network.take(alloc) else {
        return CallFault::Empty.number();
    };
    let told = match held.report() {
        Some(report) => Some(write_going_on(report.cut_off(), spells)),
        None => None,
    };
    network.put(held);
    write_count(told, written, more)
}
