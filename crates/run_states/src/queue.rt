//! What became of the items that an end of a link has yet to take.

ghost use Rattle.std.specs.Prelude.{◌≡◌, ◌≤◌, ◌↔◌, IfOk, IsTrue, List, [], false, filter, length};
ghost use Rattle.network_model.specs.declared.item.Item.{Item};
ghost use Rattle.network_model.specs.Step as step;
ghost use Rattle.run_states.specs.Queues.{has_message, is_nothing, left_after, queue_after};

use network_model::{Item, NoMemory};
use std::alloc::{AllocError, Global};

/// What became of a queue: first so many were taken from its front, then its messages were lost or not,
/// and then others were put.
#[derive(Drop)]
pub(crate) struct QueueChange {
    pub take: usize,
    pub lose: bool,
    pub put: Vec<Item>,
}

impl QueueChange {
    /// Whether nothing became of it: none was taken, lost or put.
    pub(crate) fn is_nothing(&self) -> bool
        ensures nothing { IsTrue result ↔ ((self.now.take ≡ 0) × (self.now.lose ≡ false)
            × (self.now.put.items ≡ [])) }
        ensures exact { result ≡ is_nothing self.now }
        ensures stays { IsTrue result → (items : List Item) → queue_after self.now items ≡ items }
    {
        self.take == 0 && !self.lose && self.put.is_empty()
    }
}

/// What became of a queue that held these items before, and holds those now; where its link went down
/// meanwhile, its messages were lost.
pub(crate) fn queue_change(
    alloc: Global,
    before: &[Item],
    now: &[Item],
    lose: bool,
) -> Result<QueueChange, NoMemory>
    ensures after { IfOk result (λ c. queue_after c before.now ≡ now.now) }
    ensures lost { IfOk result (λ c. c.lose ≡ lose) }
{
    for take in 0..before.len() {
        let left = left_of(alloc, before, take, lose)?;
        if now.starts_with(&left) {
            let put = now[left.len()..].to_vec(alloc)?;
            return Ok(QueueChange { take, lose, put });
        }
    }
    Ok(QueueChange {
        take: before.len(),
        lose,
        put: now.to_vec(alloc)?,
    })
}

/// Whether a message is among the items.
pub(crate) fn has_message(items: &[Item]) -> bool
    ensures { result ≡ has_message items.now }
{
    items.iter().any(|item| !is_notice(item))
}

// What is left of a queue of which so many were taken, and the messages lost or not.
fn left_of(alloc: Global, before: &[Item], take: usize, lose: bool) -> Result<Vec<Item>, AllocError>
    requires { take ≤ length before.now }
    ensures { IfOk result (λ v. v.items ≡ left_after take lose before.now) }
{
    let left = &before[take..];
    if !lose {
        return left.to_vec(alloc);
    }
    notices_of(alloc, left)
}

fn notices_of(alloc: Global, items: &[Item]) -> Result<Vec<Item>, AllocError>
    ensures { IfOk result (λ v. v.items ≡ filter step.is_notice items.now) }
{
    items
        .iter()
        .filter(|item| is_notice(item))
        .copied()
        .collect(alloc)
}

fn is_notice(item: &Item) -> bool
    ensures { result ≡ step.is_notice item.now }
{
    !matches!(item, Item::Message(_))
}
