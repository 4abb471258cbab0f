//! The messages that a router holds, as a list.

ghost use Rattle.std.specs.Prelude.{◌≡◌, IfOk};

use crate::router::Router;
use network_model::{Held, NoMemory};
use std::alloc::Global;

/// The messages that a router holds, oldest first.
pub fn held_messages(alloc: Global, router: &Router) -> Result<Vec<Held>, NoMemory>
    ensures { IfOk result (λ v. v.items ≡ (router.now).gate.held) }
{
    let mut messages = Vec::new(alloc);
    for place in 0..router.held() {
        if let Some(message) = router.message(place) {
            messages.push(message)?;
        }
    }
    Ok(messages)
}
