//! Look-ups on their way down a tree.

ghost use Rattle.std.specs.Prelude.{◌≡◌, ◌+◌, ◌*◌, ◌^◌, ◌<◌, ◌≤◌, true};
ghost use Rattle.ipv4_prefix.specs.LongestMatch.{longest_match};
ghost use Rattle.tree_bitmap.specs.{Tree.IsTreeLaidOut, Tree.rows, Tree.tree_rows, Lane.IsReadTo, Lane.root_lane, Lane.longer_hit};
ghost use Rattle.bitmaps.specs.Greatest.{GreatestBelow};

use crate::node::{Node, covers, highest, is_set, length_of, nibble, rank};
use crate::tree::{Tree, Visits, path_of};
use network_model::{Entry, Prefix};
use std::alloc::Allocator;

/// The prefixes of an address that end in one node: their internal bits, or none where nothing was
/// found, the node's own bits and results, and its depth.
#[derive(Clone, Copy)]
pub(crate) struct Hit {
    pub(crate) matched: u16,
    pub(crate) internal: u16,
    pub(crate) result_base: u32,
    pub(crate) depth: u32,
}

/// The look-up of an address on its way down: the next node on its path, while it is live, and what
/// it has found in the last node where it found any.
#[derive(Clone, Copy)]
pub(crate) struct Lane {
    pub(crate) addr: u32,
    pub(crate) index: u32,
    pub(crate) hit: Hit,
    pub(crate) live: bool,
}

/// What was found in a node at a depth, if anything, else what was found above.
fn longer_hit(matched: u16, node: Node, depth: u32, above: Hit) -> Hit
    ensures { result ≡ longer_hit matched node depth above }
{
    if matched == 0 {
        return above;
    }
    Hit {
        matched,
        internal: node.internal,
        result_base: node.result_base,
        depth,
    }
}

impl Lane {
    /// A look-up that stands at the root.
    pub(crate) fn new(addr: u32) -> Lane
        ensures { result ≡ root_lane addr }
    {
        let hit = Hit {
            matched: 0,
            internal: 0,
            result_base: 0,
            depth: 0,
        };
        Lane {
            addr,
            index: 0,
            hit,
            live: true,
        }
    }

    /// Reads the next node, at a depth, where there is one, and counts it.
    pub(crate) fn descend<A: Allocator>(&mut self, tree: &Tree<A>, depth: u32, visits: &mut Visits)
        requires sound { IsTreeLaidOut tree.now }
        requires deep { depth ≤ 8 }
        requires fits { visits.old.count + 1 < 2 ^ 64 }
        requires lane { IsReadTo tree.now depth self.old }
        ensures lane { IsReadTo tree.now (depth + 1) self.new }
        ensures addr { self.new.addr ≡ self.old.addr }
        ensures read { self.old.live ≡ true → visits.new.count ≡ visits.old.count + 1 }
        ensures few { visits.new.count ≤ visits.old.count + 1 }
    {
        if !self.live {
            return;
        }
        let node = tree.read(self.index, visits);
        let four = nibble(path_of(self.addr), depth);
        let cover = covers(four, depth);
        self.hit = longer_hit(node.internal & cover, node, depth, self.hit);
        if is_set(node.external, four) {
            let below = rank(node.external, four);
            self.index = tree.pool.nodes.place(node.child_base, below);
        } else {
            self.live = false;
        }
    }

    /// Goes down as far as there are nodes: one to nine are read.
    pub(crate) fn descend_to_end<A: Allocator>(&mut self, tree: &Tree<A>, visits: &mut Visits)
        requires sound { IsTreeLaidOut tree.now }
        requires fits { visits.old.count + 9 < 2 ^ 64 }
        requires lane { IsReadTo tree.now 0 self.old }
        requires live { self.old.live ≡ true }
        ensures lane { IsReadTo tree.now 9 self.new }
        ensures addr { self.new.addr ≡ self.old.addr }
        ensures some { visits.old.count < visits.new.count }
        ensures few { visits.new.count ≤ visits.old.count + 9 }
    {
        for depth in 0..9 {
            self.descend(tree, depth, visits);
            if !self.live {
                return;
            }
        }
    }

    /// What was found: the length and entry of the longest row on the path.
    pub(crate) fn found<A: Allocator>(&self, tree: &Tree<A>) -> Option<(u8, Entry)>
        requires sound { IsTreeLaidOut tree.now }
        requires lane { IsReadTo tree.now 9 self.now }
        ensures { GreatestBelow (rows tree.now (self.now.addr * 16)) 33 result }
    {
        let bit = highest(self.hit.matched)?;
        let below = rank(self.hit.internal, bit);
        let place = tree.pool.results.place(self.hit.result_base, below);
        let len = (4 * self.hit.depth) as u8 + length_of(bit);
        Some((len, tree.pool.results.get(place)))
    }

    /// The answer.
    pub(crate) fn answer<A: Allocator>(&self, tree: &Tree<A>) -> Option<(Prefix, Entry)>
        requires sound { IsTreeLaidOut tree.now }
        requires lane { IsReadTo tree.now 9 self.now }
        ensures { result ≡ longest_match self.now.addr (tree_rows tree.now) }
    {
        let (len, entry) = self.found(tree)?;
        Some((Prefix::covering(self.addr, len), entry))
    }
}
