//! What was shown of a link, and of what its ends have yet to take.

ghost use Rattle.std.specs.Prelude.{◌≡◌, ◌<◌, [], Some, None, IfOk, IfSome, false, true, length, slice_get};
ghost use Rattle.run_states.specs.Books.{LinkFollows, ShowsLink, link_shows};

use crate::queue::{QueueChange, has_message, queue_change};
use crate::shown::is_same_link;
use lines::LinkState;
use link_fifo::{Links, queue_at};
use network_model::{End, Item, NoMemory};
use std::alloc::Global;

/// What was shown of a link last, and whether that may have changed.
#[derive(Drop)]
pub(crate) struct LinkBook {
    /// The link itself, where it was shown.
    shown: Option<LinkState>,
    /// What its end A has yet to take.
    to_a: Vec<Item>,
    /// What its end B has yet to take.
    to_b: Vec<Item>,
    /// Whether a step may have changed it.
    pub is_marked: bool,
    /// Whether it went down.
    pub is_cut: bool,
}

/// What became of a link since it was shown.
#[derive(Drop)]
pub(crate) struct LinkChange {
    /// The link itself, where it is another.
    pub shown: Option<LinkState>,
    pub to_a: QueueChange,
    pub to_b: QueueChange,
}

impl LinkBook {
    /// The book of a link that was not shown.
    pub(crate) fn new(alloc: Global) -> LinkBook
        ensures marked { result.is_marked ≡ true }
        ensures blank { link_shows result ≡ (None, [], []) }
    {
        LinkBook {
            shown: None,
            to_a: Vec::new(alloc),
            to_b: Vec::new(alloc),
            is_marked: true,
            is_cut: false,
        }
    }

    /// What became of the link of this number since it was shown; from now on it is shown as it is. Without
    /// memory the book stays.
    pub(crate) fn change(
        &mut self,
        alloc: Global,
        links: &Links,
        link: u16,
    ) -> Result<LinkChange, NoMemory>
        requires { link < length links.now.links }
        ensures follows { IfOk result (λ c. LinkFollows c self.old self.new) }
        ensures shows { IfOk result (λ _. IfSome (slice_get links.now.links link)
            (λ k. ShowsLink k self.new)) }
        ensures unmarked { IfOk result (λ _. self.new.is_marked ≡ false) }
        ensures uncut { IfOk result (λ _. self.new.is_cut ≡ false) }
    {
        let now = LinkState::of(links, link);
        let (now_a, now_b) = (
            queue_at(alloc, links, link, End::A)?,
            queue_at(alloc, links, link, End::B)?,
        );
        let (lose_a, lose_b) = (
            self.is_cut && has_message(&self.to_a),
            self.is_cut && has_message(&self.to_b),
        );
        let to_a = queue_change(alloc, &self.to_a, &now_a, lose_a)?;
        let to_b = queue_change(alloc, &self.to_b, &now_b, lose_b)?;
        let now = Some(now);
        let shown = if is_same_link(&self.shown, &now) {
            None
        } else {
            now
        };
        self.shown = now;
        self.to_a = now_a;
        self.to_b = now_b;
        self.is_marked = false;
        self.is_cut = false;
        Ok(LinkChange { shown, to_a, to_b })
    }
}
