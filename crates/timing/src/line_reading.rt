//! The lines of a document of times.

ghost use Rattle.std.specs.Prelude.{◌≡◌, [], IfErr, IfOk, OnOk, length};
ghost use Rattle.std.specs.List.{AllZip};
ghost use Rattle.texts.specs.Words.{texts};
ghost use Rattle.script.specs.Kinds.{line_kind};
ghost use Rattle.timing.specs.Lines.{delays_from, SaysChange, SaysLink, SaysRouter};
ghost use Rattle.timing.specs.Times.{StopsLines, of_times_line};

use crate::given::Given;
use faults::FaultKind;
use ipv4_prefix::Prefix;
use metric::Cost;
use network_model::{LinkSpec, Step};
use plans::{Fault, TimesKey, Where};
use script::{LineFault, Names, parse_step, place_between};
use texts::{first_word, four_words, read_long, two_words};
use timed_simulation::{Change, LinkDelays, is_change};

/// Reads the lines of links.
pub fn read_links(
    names: &Names,
    links: &[LinkSpec],
    given: &mut Vec<Given<LinkDelays>>,
    lines: &[String],
) -> Result<(), Fault>
    requires { given.old.items ≡ [] }
    ensures says { OnOk result (AllZip (SaysLink names.now links.now) (texts lines.now) given.new.items) }
    ensures fault { IfErr result (StopsLines TimesKey.Links (length lines.now)) }
{
    for (position, line) in lines.iter().enumerate() {
        match read_link(names, links, line.as_str()) {
            Ok(delays) => given.push(delays)?,
            Err(fault) => return Err(at_line(fault, TimesKey::Links, position)),
        }
    }
    Ok(())
}

/// Reads the lines of routers.
pub fn read_routers(
    names: &Names,
    given: &mut Vec<Given<u64>>,
    lines: &[String],
) -> Result<(), Fault>
    requires { given.old.items ≡ [] }
    ensures says { OnOk result (AllZip (SaysRouter names.now) (texts lines.now) given.new.items) }
    ensures fault { IfErr result (StopsLines TimesKey.Routers (length lines.now)) }
{
    for (position, line) in lines.iter().enumerate() {
        match read_router(names, line.as_str()) {
            Ok(delay) => given.push(delay)?,
            Err(fault) => return Err(at_line(fault, TimesKey::Routers, position)),
        }
    }
    Ok(())
}

/// Reads the lines of changes.
pub fn read_changes(
    names: &Names,
    links: &[LinkSpec],
    attachments: &[(Prefix, u16, Cost)],
    changes: &mut Vec<Change>,
    lines: &[String],
) -> Result<(), Fault>
    requires { changes.old.items ≡ [] }
    ensures says { OnOk result (AllZip (SaysChange names.now links.now attachments.now) (texts lines.now)
        changes.new.items) }
    ensures fault { IfErr result (StopsLines TimesKey.Changes (length lines.now)) }
{
    // Names the type of a change's step, without which the checker has no plan for the list.
    let _step: Option<Step> = None;
    for (position, line) in lines.iter().enumerate() {
        match read_change(names, links, attachments, line.as_str()) {
            Ok(change) => changes.push(change)?,
            Err(fault) => return Err(at_line(fault, TimesKey::Changes, position)),
        }
    }
    Ok(())
}

fn at_line(fault: LineFault, key: TimesKey, position: usize) -> Fault
    ensures { result ≡ of_times_line (line_kind fault) key position }
{
    Fault {
        kind: FaultKind::from(fault),
        place: Some(Where::TimesLine { key, position }),
    }
}

// The delays that a line says: `A B THERE BACK`, two routers that a link joins, and how long an item is on its
// way from the first to the second, and back.
fn read_link(names: &Names, links: &[LinkSpec], line: &str) -> Result<Given<LinkDelays>, LineFault>
    ensures { IfOk result (SaysLink names.now links.now line.now) }
{
    let (name, neighbour, there, back) = four_words(line).ok_or(LineFault::BadLine)?;
    let router = names.number(name).ok_or(LineFault::BadLine)?;
    let far = names.number(neighbour).ok_or(LineFault::BadLine)?;
    let number = place_between(links, router, far).ok_or(LineFault::BadLine)?;
    let there = read_long(there).ok_or(LineFault::BadLine)?;
    let back = read_long(back).ok_or(LineFault::BadLine)?;
    let link = &links[number];
    let value = delays_from(router, link, there, back);
    Ok(Given { number, value })
}

// The delays of a link on which an item is so long on its way from a router, and so long back.
fn delays_from(router: u16, link: &LinkSpec, there: u64, back: u64) -> LinkDelays
    ensures { result ≡ delays_from router link.now there back }
{
    if link.a == router {
        LinkDelays {
            to_a: back,
            to_b: there,
        }
    } else {
        LinkDelays {
            to_a: there,
            to_b: back,
        }
    }
}

// The delay that a line says: `A DELAY`, a router, and how long it takes to publish.
fn read_router(names: &Names, line: &str) -> Result<Given<u64>, LineFault>
    ensures { IfOk result (SaysRouter names.now line.now) }
{
    let (name, delay) = two_words(line).ok_or(LineFault::BadLine)?;
    let router = names.number(name).ok_or(LineFault::BadLine)?;
    let value = read_long(delay).ok_or(LineFault::BadLine)?;
    Ok(Given {
        number: usize::from(router),
        value,
    })
}

// The change that a line says: `MOMENT STEP`, where the step is none that a router does.
fn read_change(
    names: &Names,
    links: &[LinkSpec],
    attachments: &[(Prefix, u16, Cost)],
    line: &str,
) -> Result<Change, LineFault>
    ensures { IfOk result (SaysChange names.now links.now attachments.now line.now) }
{
    let (moment, step) = first_word(line).ok_or(LineFault::BadCommand)?;
    let moment = read_long(moment).ok_or(LineFault::BadCommand)?;
    let step = parse_step(names, links, attachments, step)?;
    if !is_change(&step) {
        return Err(LineFault::BadCommand);
    }
    Ok(Change { moment, step })
}
