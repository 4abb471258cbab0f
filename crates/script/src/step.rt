//! The steps that a script asks for.

ghost use Rattle.std.specs.Prelude.{◌≡◌, ◌≤◌, ℕ, ◌∷◌, IfOk, IfErr, IfSome, ◌<◌, length, position, codes};
ghost use Rattle.metric.specs.Distance.{IsCost};
ghost use Rattle.texts.specs.Words.{Text, words_of};
ghost use Rattle.network_model.specs.Network.{joins};
ghost use Rattle.script.specs.Commands.{link_between as first_between, port_on as number_on, AsksStep, AsksNoStep, AsksCost, AsksNoCost, AsksDelivery, AsksAttachment, AsksNoAttachment, NamesWay, NamesLink};

use crate::fault::LineFault;
use crate::names::Names;
use crate::operand::{is_known, read_prefix, read_router};
use ipv4_prefix::Prefix;
use metric::Cost;
use network_model::{Limits, LinkSpec, Step};
use texts::{first_word, read_number, three_words, two_words};

// A router, and a link that touches it.
#[derive(Clone, Copy)]
struct Way {
    router: u16,
    link: u16,
}

/// The step that a line of a script or of a journal says: `up A B`, `down A B`, `cost A B C`, `deliver A B`, `publish
/// A`, `release A`, `attach A PREFIX COST` or `detach A PREFIX`. A `BadCommand` comes before the fault of a prefix,
/// and that before a `BadCost`, but a prefix that the network does not have is a `BadCommand` after all others.
pub fn parse_step(
    names: &Names,
    links: &[LinkSpec],
    attachments: &[(Prefix, u16, Cost)],
    line: &str,
) -> Result<Step, LineFault>
    ensures ok { IfOk result (AsksStep names.now links.now attachments.now (words_of line.now)) }
    ensures err { IfErr result (AsksNoStep names.now links.now attachments.now
        (words_of line.now)) }
{
    let (verb, operands) = first_word(line).ok_or(LineFault::BadCommand)?;
    read_step(names, links, attachments, verb, operands)
}

/// The step that a verb and its operands ask for.
pub(crate) fn read_step(
    names: &Names,
    links: &[LinkSpec],
    attachments: &[(Prefix, u16, Cost)],
    verb: &str,
    operands: &str,
) -> Result<Step, LineFault>
    ensures ok { IfOk result
        (AsksStep names.now links.now attachments.now (verb.now ∷ words_of operands.now)) }
    ensures err { IfErr result
        (AsksNoStep names.now links.now attachments.now (verb.now ∷ words_of operands.now)) }
{
    match verb {
        "up" => {
            let way = read_way(names, links, operands)?;
            Ok(Step::LinkUp { link: way.link })
        }
        "down" => {
            let way = read_way(names, links, operands)?;
            Ok(Step::LinkDown { link: way.link })
        }
        "cost" => {
            let (router, port, cost) = read_cost(names, links, operands)?;
            Ok(Step::SetCost { router, port, cost })
        }
        "deliver" => {
            let (router, port) = read_port(names, links, operands)?;
            Ok(Step::Deliver { router, port })
        }
        "publish" => {
            let router = read_router(names, operands)?;
            Ok(Step::Publish { router })
        }
        "release" => {
            let router = read_router(names, operands)?;
            Ok(Step::Release { router })
        }
        "attach" => {
            let (router, prefix, cost) = read_attach(names, attachments, operands)?;
            Ok(Step::Attach {
                router,
                prefix,
                cost,
            })
        }
        "detach" => {
            let (router, prefix) = read_prefix(names, attachments, operands)?;
            Ok(Step::Detach { router, prefix })
        }
        _ => Err(LineFault::BadCommand),
    }
}

// The router, its port and the cost that the operands of `cost` name: the cost from the first router on
// the link to the second.
fn read_cost(
    names: &Names,
    links: &[LinkSpec],
    operands: &str,
) -> Result<(u16, u8, Cost), LineFault>
    ensures ok { IfOk result (λ w.
        AsksCost names.now links.now (codes "cost" ∷ words_of operands.now) w.0 w.1 w.2
        × IsCost w.2) }
    ensures err { IfErr result (AsksNoCost names.now links.now
        (codes "cost" ∷ words_of operands.now)) }
{
    let (name, neighbour, number) = three_words(operands).ok_or(LineFault::BadCommand)?;
    let way = way_between(names, links, name, neighbour)?;
    let port = port_on(links, way.router, usize::from(way.link))?;
    let number = read_number(number).ok_or(LineFault::BadCommand)?;
    let cost = Cost::new(number)?;
    Ok((way.router, port, cost))
}

/// The router and its port that the operands of `deliver` name: the port on the link to the second
/// router, or that of its own attachments where the router is named twice.
pub(crate) fn read_port(
    names: &Names,
    links: &[LinkSpec],
    operands: &str,
) -> Result<(u16, u8), LineFault>
    ensures ok { IfOk result (λ w.
        AsksDelivery names.now links.now (codes "deliver" ∷ words_of operands.now) w.0 w.1) }
    ensures err { IfErr result (λ e. (e ≡ LineFault.BadCommand) × ((router port : ℕ)
        → ¬ (AsksDelivery names.now links.now
        (codes "deliver" ∷ words_of operands.now) router port))) }
{
    let (name, neighbour) = two_words(operands).ok_or(LineFault::BadCommand)?;
    if name == neighbour {
        let router = read_router(names, name)?;
        let port = port_on(links, router, links.len())?;
        return Ok((router, port));
    }
    let way = way_between(names, links, name, neighbour)?;
    let port = port_on(links, way.router, usize::from(way.link))?;
    Ok((way.router, port))
}

// The router, the prefix and the cost that the operands of `attach` name.
fn read_attach(
    names: &Names,
    attachments: &[(Prefix, u16, Cost)],
    operands: &str,
) -> Result<(u16, Prefix, Cost), LineFault>
    ensures ok { IfOk result (λ w.
        AsksAttachment names.now attachments.now
        (codes "attach" ∷ words_of operands.now) w.0 w.1 w.2) }
    ensures err { IfErr result
        (AsksNoAttachment names.now attachments.now (codes "attach" ∷ words_of operands.now)) }
{
    let (name, text, number) = three_words(operands).ok_or(LineFault::BadCommand)?;
    if text.is_empty() {
        return Err(LineFault::BadCommand);
    }
    let router = read_router(names, name)?;
    let number = read_number(number).ok_or(LineFault::BadCommand)?;
    let prefix = Prefix::parse(text)?;
    let cost = Cost::new(number)?;
    if !is_known(attachments, &prefix) {
        return Err(LineFault::BadCommand);
    }
    Ok((router, prefix, cost))
}

// The first of the two routers that the operands name, and their link.
fn read_way(names: &Names, links: &[LinkSpec], operands: &str) -> Result<Way, LineFault>
    ensures ok { IfOk result (λ w. (verb : Text)
        → NamesLink names.now links.now verb (verb ∷ words_of operands.now) w.router w.link) }
    ensures err { IfErr result (λ e. (e ≡ LineFault.BadCommand) × ((verb : Text) (router link : ℕ)
        → ¬ (NamesLink names.now links.now verb (verb ∷ words_of operands.now) router link))) }
{
    let (name, neighbour) = two_words(operands).ok_or(LineFault::BadCommand)?;
    way_between(names, links, name, neighbour)
}

// The router of the first name, and its link to the router of the second.
fn way_between(
    names: &Names,
    links: &[LinkSpec],
    name: &str,
    neighbour: &str,
) -> Result<Way, LineFault>
    ensures ok { IfOk result (λ w. NamesWay names.now links.now name.now neighbour.now w.router w.link) }
    ensures err { IfErr result (λ e. (e ≡ LineFault.BadCommand)
        × ((router link : ℕ) → ¬ (NamesWay names.now links.now name.now neighbour.now router link))) }
{
    let router = read_router(names, name)?;
    let neighbour = read_router(names, neighbour)?;
    let link = link_between(links, router, neighbour).ok_or(LineFault::BadCommand)?;
    Ok(Way { router, link })
}

// The link of two routers. The program's networks have at most 1024 links, so that no later one is looked at.
fn link_between(links: &[LinkSpec], a: u16, b: u16) -> Option<u16>
    ensures { result ≡ first_between a b links.now }
{
    let first = &links[..links.len().min(Limits::PROGRAM.links)];
    let link = place_between(first, a, b)?;
    Some(link as u16)
}

/// The place of the first link that joins the two routers.
pub fn place_between(links: &[LinkSpec], a: u16, b: u16) -> Option<usize>
    ensures value { result ≡ position (joins a b) links.now }
    ensures within { IfSome result (λ link. link < length links.now) }
{
    links.iter().position(|link| link.joins(a, b))
}

// The router's port past those on so many first links: as many of them touch it. So it is the port on
// the link of that number, and past all links that of the router's own attachments.
fn port_on(links: &[LinkSpec], router: u16, link: usize) -> Result<u8, LineFault>
    ensures ok { IfOk result (λ port. (port ≡ number_on router link links.now) × (port < 256)) }
    ensures err { IfErr result (λ e. (e ≡ LineFault.BadCommand)
        × (256 ≤ number_on router link links.now)) }
{
    match u8::try_from(earlier_links(links, router, link)) {
        Ok(port) => Ok(port),
        Err(_) => Err(LineFault::BadCommand),
    }
}

// How many links before the one of this number touch the router.
fn earlier_links(links: &[LinkSpec], router: u16, link: usize) -> usize
    ensures { result ≡ number_on router link links.now }
{
    links
        .iter()
        .take(link)
        .filter(|link| link.touches(router))
        .count()
}
