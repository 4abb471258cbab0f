//! What an end of a link has yet to take, as a list.

ghost use Rattle.std.specs.Prelude.{◌≡◌, ◌<◌, IfOk, IfSome, length, slice_get};
ghost use Rattle.network_model.specs.World as model;

use crate::links::Links;
use network_model::{End, Item, NoMemory};
use std::alloc::Global;

/// The items that an end of a link has yet to take, oldest first.
pub fn queue_at(alloc: Global, links: &Links, link: u16, to: End) -> Result<Vec<Item>, NoMemory>
    requires { link < length links.now.links }
    ensures { IfOk result (λ v. IfSome (slice_get links.now.links link)
        (λ k. v.items ≡ (model.side to k).inbox)) }
{
    let mut items = Vec::new(alloc);
    for place in 0..links.queued(link, to) {
        if let Some(item) = links.item(link, to, place) {
            items.push(item)?;
        }
    }
    Ok(items)
}
