//! Reads the delays of a network and its changes.

ghost use Rattle.std.specs.Prelude.{◌≡◌, ◌≤◌, All, IfErr, IfOk, false, length, string_bytes};
ghost use Rattle.plans.specs.Faults.{Gives, OfBytes, most_bytes};
ghost use Rattle.coming_to_rest.specs.Worlds.{is_own};
ghost use Rattle.timing.specs.Times.{AreLinkDelays, AreRouterDelays, IsFaultOf, IsTimes, IsUnreadTimes, SaysNoTimes, StopsLines, of_times, unread_times};
ghost use Rattle.texts.specs.Words.{texts};

use crate::document::{Document, read_document};
use crate::given::values;
use crate::line_reading::{read_changes, read_links, read_routers};
use faults::FaultKind;
use plans::{DocumentFault, Fault, TimesKey, Where, read_text};
use script::Names;
use std::alloc::Global;
use std::io::Read;
use timed_simulation::{Change, LinkDelays};
use world::Network;

/// The greatest number of changes.
const MOST_CHANGES: usize = 10_000;

/// What a document of times says of a network, all in microseconds.
#[derive(Drop)]
pub struct Times {
    /// How long an item is on its way, by the numbers of the links.
    pub links: Vec<LinkDelays>,
    /// How long routers take to publish, by their numbers.
    pub routers: Vec<u64>,
    /// The changes, each at its moment, in the order in which they stand.
    pub changes: Vec<Change>,
}

/// The whole text of a document of times. If it is too long or not UTF-8, the fault says that it is in the times.
pub fn read_times_text<R: Read + Drop>(alloc: Global, reader: R) -> Result<String, Fault>
    ensures whole { IfOk result (λ text. Gives (R.remaining reader) (string_bytes text)) }
    ensures short { IfOk result (λ text. length (string_bytes text) ≤ most_bytes) }
    ensures fault { IfErr result (λ e. OfBytes (R.remaining reader) (λ bytes. IsUnreadTimes bytes e)) }
{
    match read_text(alloc, reader) {
        Ok(text) => Ok(text),
        Err(kind) => Err(unread_times(kind)),
    }
}

// Why the bytes are not read, as it is told of a document of times.
fn unread_times(kind: FaultKind) -> Fault
    ensures { result ≡ unread_times kind }
{
    match kind {
        FaultKind::TooLarge | FaultKind::BadToml => of_times(kind),
        _ => Fault::from(kind),
    }
}

// A fault of the whole document.
fn of_times(kind: FaultKind) -> Fault
    ensures { result ≡ of_times kind }
{
    Fault {
        kind,
        place: Some(Where::Times),
    }
}

/// Reads the delays and the changes of a network whose routers have these names.
pub fn read_times(
    alloc: Global,
    names: &Names,
    network: &Network,
    text: &str,
) -> Result<Times, Fault>
    ensures times { IfOk result (IsTimes names.now network.now text.now) }
    ensures links { IfOk result (λ t. length t.links.items ≡ length network.now.links) }
    ensures routers { IfOk result (λ t. length t.routers.items ≡ network.now.routers) }
    ensures changes { IfOk result (λ t. All (λ c. is_own c.step ≡ false) t.changes.items) }
    ensures few { IfOk result (λ t. length t.changes.items ≤ 10000) }
    ensures fault { IfErr result (λ e. SaysNoTimes text.now e.kind e.place) }
{
    let document = match read_document(alloc, text) {
        Ok(document) => document,
        Err(fault) => return Err(document_fault(fault)),
    };
    if document.changes.len() > MOST_CHANGES {
        return Err(of_times(FaultKind::TooLarge));
    }
    let links = link_delays(alloc, names, network, &document.links, document.link)?;
    let routers = router_delays(alloc, names, network, &document.routers, document.router)?;
    let mut changes = Vec::new(alloc);
    read_changes(
        names,
        network.links(),
        network.attachments(),
        &mut changes,
        &document.changes,
    )?;
    Ok(Times {
        links,
        routers,
        changes,
    })
}

// Why a text is no document of times.
fn document_fault(fault: DocumentFault) -> Fault
    ensures { IsFaultOf fault result }
{
    match fault {
        DocumentFault::NoMemory => Fault::from(fault),
        _ => of_times(FaultKind::from(fault)),
    }
}

fn link_delays(
    alloc: Global,
    names: &Names,
    network: &Network,
    lines: &[String],
    other: u64,
) -> Result<Vec<LinkDelays>, Fault>
    ensures delays { IfOk result (λ v.
        AreLinkDelays names.now network.now (texts lines.now) other v.items) }
    ensures count { IfOk result (λ v. length v.items ≡ length network.now.links) }
    ensures fault { IfErr result (StopsLines TimesKey.Links (length lines.now)) }
{
    let mut given = Vec::new(alloc);
    read_links(names, network.links(), &mut given, lines)?;
    let other = LinkDelays {
        to_a: other,
        to_b: other,
    };
    let delays = values(alloc, network.links().len(), other, &given)?;
    Ok(delays)
}

fn router_delays(
    alloc: Global,
    names: &Names,
    network: &Network,
    lines: &[String],
    other: u64,
) -> Result<Vec<u64>, Fault>
    ensures delays { IfOk result (λ v.
        AreRouterDelays names.now network.now (texts lines.now) other v.items) }
    ensures count { IfOk result (λ v. length v.items ≡ network.now.routers) }
    ensures fault { IfErr result (StopsLines TimesKey.Routers (length lines.now)) }
{
    let mut given = Vec::new(alloc);
    read_routers(names, &mut given, lines)?;
    let delays = values(alloc, network.routers(), other, &given)?;
    Ok(delays)
}
