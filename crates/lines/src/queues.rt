//! Prints what routers have to do and to take, and what they hold.

ghost use Rattle.std.specs.Prelude.{IfErr, OnOk};
ghost use Rattle.std.specs.Io.KnownBytes.{Appends};
ghost use Rattle.world.specs.Steps.{CanBeRefused};
ghost use Rattle.network_model.specs.Turns as turns;
ghost use Rattle.lines.specs.{Report.unknown_router, declared.line.Line.TheVariants.Next, Formats.printed, Waiting.held_lines, Waiting.noticed_lines, Waiting.queued_lines};

use crate::ends::NextLine;
use crate::line::Line;
use crate::report::known_router;
use crate::told::Printer;
use crate::waiting::Waiting;
use link_fifo::queue_at;
use network_model::{Held, Item, LinkSpec, Notice, Refusal};
use router_core::held_messages;
use std::alloc::Global;
use std::io::{self, Write};
use world::{World, notices_at};

/// Prints what a router has to do next, in a network of these links. Refused with `UnknownRouter`. A write that fails
/// is lost.
pub fn show_next<W: Write>(
    world: &World,
    links: &[LinkSpec],
    printer: &Printer<'_>,
    router: u16,
    out: &mut W,
) -> Result<(), Refusal>
    ensures { IfErr result (λ e. CanBeRefused (unknown_router world.now router) e) }
{
    let _known = known_router(world, router)?;
    let _ = print_next(world, links, printer, router, out);
    Ok(())
}

fn print_next<W: Write>(
    world: &World,
    links: &[LinkSpec],
    printer: &Printer<'_>,
    router: u16,
    out: &mut W,
) -> io::Result<()>
    ensures { OnOk result (Appends (W.contents out.old) (W.contents out.new)
        (printed printer.now
        (Next (record { router = router; links = links.entry; step = turns.next_step world.now router })))) }
{
    let step = world.next_step(router);
    let next = NextLine {
        router,
        links,
        step,
    };
    printer.print(&Line::Next(next), out)
}

/// Prints what a router has yet to take from a port, oldest first, a line each: items of a link, or, at
/// the port that its degree numbers, notices of its own attachments. Refused with `UnknownRouter` and
/// `NoMemory`. What it prints may be lost.
pub fn show_queue<W: Write>(
    alloc: Global,
    world: &World,
    printer: &Printer<'_>,
    router: u16,
    port: u8,
    out: &mut W,
) -> Result<(), Refusal>
    ensures { IfErr result (λ e. CanBeRefused (unknown_router world.now router) e) }
{
    let _known = known_router(world, router)?;
    match world.port(router, port) {
        Some(place) if usize::from(place.link) < world.links().len() => {
            let session = world.links().session(place.link);
            let items = queue_at(alloc, world.links(), place.link, place.end)?;
            let _ = print_items(printer, router, port, session, &items, out);
        }
        _ => {
            let notices = notices_at(alloc, world, router)?;
            let _ = print_notices(printer, router, &notices, out);
        }
    }
    Ok(())
}

// Prints items that a router has yet to take from its port, on a link in this session.
fn print_items<W: Write>(
    printer: &Printer<'_>,
    router: u16,
    port: u8,
    session: u16,
    items: &[Item],
    out: &mut W,
) -> io::Result<()>
    ensures { OnOk result (Appends (W.contents out.old) (W.contents out.new)
        (queued_lines printer.now router port session items.now)) }
{
    for &item in items {
        let queued = Waiting::Queued {
            router,
            port,
            session,
            item,
        };
        printer.print(&Line::Waiting(queued), out)?;
    }
    Ok(())
}

// Prints notices of its own attachments that a router has yet to take.
fn print_notices<W: Write>(
    printer: &Printer<'_>,
    router: u16,
    notices: &[Notice],
    out: &mut W,
) -> io::Result<()>
    ensures { OnOk result (Appends (W.contents out.old) (W.contents out.new)
        (noticed_lines printer.now router notices.now)) }
{
    for &notice in notices {
        let noticed = Waiting::Noticed { router, notice };
        printer.print(&Line::Waiting(noticed), out)?;
    }
    Ok(())
}

/// Prints the messages that a router holds, oldest first, a line each. Refused with `UnknownRouter` and
/// `NoMemory`. What it prints may be lost.
pub fn show_held<W: Write>(
    alloc: Global,
    world: &World,
    printer: &Printer<'_>,
    router: u16,
    out: &mut W,
) -> Result<(), Refusal>
    ensures { IfErr result (λ e. CanBeRefused (unknown_router world.now router) e) }
{
    let found = known_router(world, router)?;
    let messages = held_messages(alloc, found)?;
    let (ripe, others) = messages.split_at(found.ripe().min(messages.len()));
    if print_held(printer, router, true, ripe, out).is_ok() {
        let _ = print_held(printer, router, false, others, out);
    }
    Ok(())
}

// Prints messages that a router holds, and whether they may leave, up to the first write that fails.
fn print_held<W: Write>(
    printer: &Printer<'_>,
    router: u16,
    ripe: bool,
    messages: &[Held],
    out: &mut W,
) -> io::Result<()>
    ensures { OnOk result (Appends (W.contents out.old) (W.contents out.new)
        (held_lines printer.now router ripe messages.now)) }
{
    for &held in messages {
        let kept = Waiting::Kept { router, ripe, held };
        printer.print(&Line::Waiting(kept), out)?;
    }
    Ok(())
}
