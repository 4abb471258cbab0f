//! Prints what a network is at: its links, its routers, their machines, and the rows that they published.

ghost use Rattle.std.specs.Prelude.{◌≡◌, ◌<◌, Err, Some, IsOk, IfErr, IfOk, IfSome, OnOk, OnErr, MatchOption, length, slice_get};
ghost use Rattle.std.specs.Io.KnownBytes.{Appends};
ghost use Rattle.world.specs.Steps.{CanBeRefused};
ghost use Rattle.lines.specs.Report.{link_line as line_of_link, unknown_router, rows_text, IsMachineLine, Prints, PrintsMachine};

use crate::answers::Asked;
use crate::line::Line;
use crate::reasons::{AwaitsLine, Known, KnownLine};
use crate::records::{LinkState, MachineState, RouterState};
use crate::states::{LinkLine, MachineLine, RouterLine};
use crate::told::Printer;
use diffusing_replies::PortSet;
use dual_machine::Mode;
use ipv4_prefix::Prefix;
use link_fifo::Links;
use network_model::{End, Refusal};
use route_table::RouteTable;
use router_core::Router;
use std::io::{self, Write};
use world::World;

/// Prints what a router's machine for a prefix is at, on a line, and why, where more is to be told.
/// Refused with `UnknownRouter`. A write that fails is lost.
pub fn print_state<W: Write>(
    world: &World,
    printer: &Printer<'_>,
    router: u16,
    prefix: Prefix,
    explain: bool,
    out: &mut W,
) -> Result<(), Refusal>
    ensures cause { MatchOption (unknown_router world.now router) (IsOk result)
        (λ e. result ≡ Err e) }
    ensures err { OnErr result (out.new ≡ out.old) }
{
    let found = known_router(world, router)?;
    let _ = print_machine(printer, router, found, prefix, out);
    if explain {
        let _ = print_reasons(printer, router, found, prefix, out);
    }
    Ok(())
}

// The router of this number.
pub(crate) fn known_router(world: &World, router: u16) -> Result<&Router, Refusal>
    ensures ok { IfOk result (λ r. slice_get (world.now).routers router ≡ Some r.now) }
    ensures err { MatchOption (unknown_router world.now router) (IsOk result)
        (λ e. result ≡ Err e) }
{
    let routers = world.routers();
    routers
        .get(usize::from(router))
        .ok_or(Refusal::UnknownRouter)
}

/// Prints each link, and each router with its machines in the order of their prefixes, a line each, up
/// to the first write that fails.
pub fn print_report<W: Write>(world: &World, printer: &Printer<'_>, out: &mut W) -> io::Result<()>
    ensures { OnOk result (Prints (W.contents out.old) (W.contents out.new)) }
{
    print_links(printer, world.links(), out)?;
    print_routers(printer, world, out)
}

// Prints each link, up to the 65535th. A network of the program has no more than 1024.
fn print_links<W: Write>(printer: &Printer<'_>, links: &Links, out: &mut W) -> io::Result<()>
    ensures { OnOk result (Prints (W.contents out.old) (W.contents out.new)) }
{
    let count = u16::try_from(links.len()).unwrap_or(u16::MAX);
    for link in 0..count {
        let line = link_line(links, link);
        printer.print(&Line::Link(line), out)?;
    }
    Ok(())
}

// Prints each router, up to the 65535th, with its machines. A network of the program has no more than 256.
fn print_routers<W: Write>(printer: &Printer<'_>, world: &World, out: &mut W) -> io::Result<()>
    ensures { OnOk result (Prints (W.contents out.old) (W.contents out.new)) }
{
    let count = u16::try_from(world.routers().len()).unwrap_or(u16::MAX);
    for number in 0..count {
        let notices = world.notices(number);
        print_router(printer, number, world.router(number), notices, out)?;
    }
    Ok(())
}

// Prints a router, and its machine for each prefix that it has heard of.
fn print_router<W: Write>(
    printer: &Printer<'_>,
    number: u16,
    router: &Router,
    notices: usize,
    out: &mut W,
) -> io::Result<()>
    ensures { OnOk result (Prints (W.contents out.old) (W.contents out.new)) }
{
    let line = RouterLine {
        router: number,
        at: RouterState::of(router, notices),
    };
    printer.print(&Line::Router(line), out)?;
    for (prefix, _) in router.table().rows() {
        print_machine(printer, number, router, prefix, out)?;
    }
    Ok(())
}

// Prints what a router's machine for a prefix is at.
fn print_machine<W: Write>(
    printer: &Printer<'_>,
    number: u16,
    router: &Router,
    prefix: Prefix,
    out: &mut W,
) -> io::Result<()>
    ensures { OnOk result (PrintsMachine printer.now number router.now prefix
        (W.contents out.old) (W.contents out.new)) }
{
    match machine_line(number, router, prefix) {
        Some(line) => printer.print(&Line::Machine(line), out),
        None => {
            let router = number;
            printer.print(&Line::Unheard { router, prefix }, out)
        }
    }
}

// What is told of a link.
fn link_line(links: &Links, link: u16) -> LinkLine
    requires { link < length links.now.links }
    ensures { IfSome (slice_get links.now.links link) (λ k. result ≡ line_of_link k) }
{
    LinkLine {
        a: links.router(link, End::A),
        b: links.router(link, End::B),
        at: LinkState::of(links, link),
        queued_a: links.queued(link, End::A),
        queued_b: links.queued(link, End::B),
    }
}

// What is told of a router's machine for a prefix; none where the router has not heard of it.
fn machine_line(number: u16, router: &Router, prefix: Prefix) -> Option<MachineLine>
    ensures { IsMachineLine number router.now prefix result }
{
    let entry = router.table().get(prefix)?;
    let machine = router.machine(prefix)?;
    Some(MachineLine {
        router: number,
        prefix,
        at: MachineState::of(machine),
        entry,
    })
}

/// Prints a router's published rows. What it prints may be lost.
pub fn show_table<W: Write>(
    world: &World,
    printer: &Printer<'_>,
    router: u16,
    out: &mut W,
) -> Result<(), Refusal>
    ensures { IfErr result (λ e. CanBeRefused (unknown_router world.now router) e) }
{
    let table = known_router(world, router)?.table();
    let _ = print_table(printer, router, table, out);
    Ok(())
}

// Prints the rows that a router published, a line each, up to the first write that fails.
fn print_table<W: Write>(
    printer: &Printer<'_>,
    router: u16,
    table: &RouteTable,
    out: &mut W,
) -> io::Result<()>
    ensures { OnOk result (Appends (W.contents out.old) (W.contents out.new)
        (rows_text printer.now router (table.now).table.published)) }
{
    for (prefix, entry) in table.published_rows() {
        let row = Asked::Row {
            router,
            prefix,
            entry,
        };
        printer.print(&Line::Asked(row), out)?;
    }
    Ok(())
}

// Prints what a router's machine for a prefix knows: whose replies it awaits and to whom it owes one, where
// it is active; the router's own attachment; then each neighbour, with the cost of the link and what was
// reported there last. Nothing, where the router has not heard of the prefix.
fn print_reasons<W: Write>(
    printer: &Printer<'_>,
    number: u16,
    router: &Router,
    prefix: Prefix,
    out: &mut W,
) -> io::Result<()> {
    let Some(machine) = router.machine(prefix) else {
        return Ok(());
    };
    if let Mode::Active { awaited, debt, .. } = machine.mode() {
        print_awaited(printer, number, prefix, &awaited, out)?;
        let owed = match debt {
            Some(port) => printer.directory.neighbour(number, port),
            None => None,
        };
        print_known(printer, number, prefix, Known::Owes(owed), out)?;
    }
    if let Some(cost) = machine.attachment() {
        print_known(printer, number, prefix, Known::Attached(cost), out)?;
    }
    for port in 0..32 {
        if let Some(known) = machine.neighbour(port) {
            let neighbour = printer.directory.neighbour(number, port);
            let known = Known::AtNeighbour(neighbour, known);
            print_known(printer, number, prefix, known, out)?;
        }
    }
    Ok(())
}

// Prints something else that it knows.
fn print_known<W: Write>(
    printer: &Printer<'_>,
    router: u16,
    prefix: Prefix,
    known: Known,
    out: &mut W,
) -> io::Result<()> {
    let line = KnownLine {
        router,
        prefix,
        known,
    };
    printer.print(&Line::Known(line), out)
}

// Prints whose replies are awaited, by ascending port.
fn print_awaited<W: Write>(
    printer: &Printer<'_>,
    number: u16,
    prefix: Prefix,
    awaited: &PortSet,
    out: &mut W,
) -> io::Result<()> {
    let mut neighbours = [0_u16; 32];
    let mut count = 0_usize;
    for port in 0..32 {
        if awaited.has(port)
            && let Some(neighbour) = printer.directory.neighbour(number, port)
            && let Some(place) = neighbours.get_mut(count)
        {
            *place = neighbour;
            count = count.saturating_add(1);
        }
    }
    let line = AwaitsLine {
        router: number,
        prefix,
        neighbours: &neighbours[..count.min(32)],
    };
    printer.print(&Line::Awaits(line), out)
}
