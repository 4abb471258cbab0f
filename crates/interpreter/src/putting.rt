//! Puts all links of a router up, or takes them down.

ghost use Rattle.std.specs.Prelude.{◌≡◌, ◌<◌, length, IfErr, OnOk};
ghost use Rattle.plans.specs.Faults.{OfRefusal};
ghost use Rattle.interpreter.specs.Commands.{CannotPut, IsPut, NoneAmiss, is_amiss_at, put as put_model};

use crate::live::Live;
use faults::FaultKind;
use network_model::{End, Step};
use world::World;

/// Puts each link of a router up that is down, or takes down each that is up, in ascending order of the links, to
/// the first that is refused. Refused with `UnknownRouter` before any.
pub fn put_links<N: Live>(net: &mut N, up: bool, router: u16) -> Result<(), FaultKind>
    ensures ok { OnOk result (IsPut N.meaning up router net.old net.new) }
    ensures known { OnOk result (router < length (N.meaning.world net.old).routers) }
    ensures all { OnOk result (NoneAmiss N.meaning up router net.old net.new) }
    ensures err { IfErr result (OfRefusal (CannotPut N.meaning up router net.old net.new)) }
{
    if usize::from(router) >= net.world().routers().len() {
        return Err(FaultKind::UnknownRouter);
    }
    for place in 0..net.network().links().len() {
        let link = place as u16;
        if is_amiss(net.world(), up, router, link) {
            net.step(put(up, link))?;
        }
    }
    Ok(())
}

// Whether a link has an end at the router, and is not as it is to be, up or down.
fn is_amiss(world: &World, up: bool, router: u16, link: u16) -> bool
    ensures { result ≡ is_amiss_at world.now up router link }
{
    let links = world.links();
    if usize::from(link) >= links.len() {
        return false;
    }
    let touches = links.router(link, End::A) == router || links.router(link, End::B) == router;
    touches && links.is_up(link) != up
}

// Puts a link up, or takes it down.
fn put(up: bool, link: u16) -> Step
    ensures { result ≡ put_model up link }
{
    if up {
        Step::LinkUp { link }
    } else {
        Step::LinkDown { link }
    }
}
