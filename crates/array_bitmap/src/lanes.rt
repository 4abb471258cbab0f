//! Look-ups on their way down an image, side by side.

ghost use Rattle.std.specs.Prelude.{◌≡◌, ℕ, ◌+◌, ◌-◌, ◌^◌, ◌<◌, ◌≤◌, EachIndex, length, map, slice_index};
ghost use Rattle.array_bitmap.specs.{Blocks.IsHead, Image.cells_of, Image.rows_in, Image.IsSoundTree, Tree.block_at, Tree.words_at, Tree.words_in_block, Words.answer_word, Words.IsReadBack};
ghost use Rattle.ipv4_prefix.specs.LongestMatch.{longest_match};
ghost use Rattle.word_pool.specs.Pool.{blocks};
ghost use Rattle.array_bitmap.specs.Lane.{IsLane, IsStep, IsLongestWord, AreLanes, IsCared, lane_at, head_at};

use crate::bits::{five_bits, path_of};
use crate::blocks::{Head, Kid, NO_HEAD, read_kid};
use crate::tree::Tree;
use crate::words::NOTHING;
use network_model::{Entry, Prefix};
use std::alloc::Allocator;

/// How many look-ups go down side by side.
pub(crate) const LANES: usize = 32;

/// The look-up of an address on its way down: which of the addresses it is for, the next block on its
/// path, or 0 where there is none, and the word of the longest row that it has found.
#[derive(Clone, Copy)]
pub(crate) struct Lane {
    pub(crate) at: u32,
    pub(crate) addr: u32,
    pub(crate) block: u32,
    pub(crate) best: u32,
}

/// A look-up of no address.
const NO_LANE: Lane = Lane {
    at: 0,
    addr: 0,
    block: 0,
    best: NOTHING,
};

impl Lane {
    /// A look-up that stands at the array.
    fn new<A: Allocator>(tree: &Tree<A>, at: u32, addr: u32) -> Lane
        requires { IsSoundTree tree.now }
        ensures lane { IsLane (cells_of tree.now) tree.now.first result }
        ensures at { result.at ≡ at }
        ensures addr { result.addr ≡ addr }
    {
        let top = tree.top(path_of(addr));
        Lane {
            at,
            addr,
            block: top.block,
            best: top.best,
        }
    }

    /// Reads the bitmaps of the next block, at a level.
    fn head<A: Allocator>(self, tree: &Tree<A>, level: u32) -> Head
        requires sound { IsSoundTree tree.now }
        requires lane { IsLane (cells_of tree.now) level self }
        ensures { IsHead (words_at (cells_of tree.now) self.block) result }
    {
        tree.head(path_of(self.addr), level, self.block)
    }

    /// The look-up below the next block, at a level, whose bitmaps have been read.
    fn below<A: Allocator>(self, tree: &Tree<A>, level: u32, head: Head) -> Step
        requires sound { IsSoundTree tree.now }
        requires low { tree.now.first ≤ level }
        requires deep { level ≤ 5 }
        requires lane { IsLane (cells_of tree.now) level self }
        requires head { IsHead (words_at (cells_of tree.now) self.block) head }
        ensures step { IsStep (cells_of tree.now) level result.lane result.goes_on }
        ensures at { result.lane.at ≡ self.at }
        ensures addr { result.lane.addr ≡ self.addr }
    {
        let path = path_of(self.addr);
        let kid = next_kid(tree, path, level, self.block, head);
        let lane = Lane {
            at: self.at,
            addr: self.addr,
            block: kid.place,
            best: tree.longest_to(path, level, self.block, head, self.best),
        };
        Step {
            lane,
            goes_on: kid.there,
        }
    }
}

/// A look-up that has read a block, and whether its path goes on: 1 where it does, else 0. Where it ends,
/// nothing says at which block the look-up stands.
#[derive(Clone, Copy)]
struct Step {
    lane: Lane,
    goes_on: u32,
}

/// Reads the place of the next block of a path.
fn next_kid<A: Allocator>(tree: &Tree<A>, path: u64, level: u32, block: u32, head: Head) -> Kid
    requires sound { IsSoundTree tree.now }
    requires low { tree.now.first ≤ level }
    requires deep { level ≤ 5 }
    requires at { block ≡ block_at (cells_of tree.now) path (level - tree.now.first) }
    requires head { IsHead (words_in_block (blocks tree.now.pool block)) head }
    ensures bit { result.there < 2 }
    ensures some { result.there ≡ 1
        → result.place ≡ block_at (cells_of tree.now) path (level + 1 - tree.now.first) }
    ensures none { result.there ≡ 0
        → block_at (cells_of tree.now) path (level + 1 - tree.now.first) ≡ 0 }
{
    read_kid(&tree.pool, block, head, five_bits(path, level))
}

/// Reads the bitmaps of the blocks at which the first `live` look-ups stand. No read waits for another.
fn read_heads<A: Allocator>(
    tree: &Tree<A>,
    lanes: &[Lane],
    live: usize,
    level: u32,
    heads: &mut [Head],
)
    requires sound { IsSoundTree tree.now }
    requires lanes { (k : ℕ) → k < live → IsLane (cells_of tree.now) level (lane_at lanes.now k) }
    requires within { live ≤ length lanes.now }
    requires room { live ≤ length heads.old }
    ensures heads { (k : ℕ) → k < live
        → IsHead (words_at (cells_of tree.now) (lane_at lanes.now k).block) (head_at heads.new k) }
    ensures count { length heads.new ≡ length heads.old }
{
    for i in 0..live {
        heads[i] = lanes[i].head(tree, level);
    }
}

/// Has the first `live` look-ups go down one level, and writes the words that they have found. Those that
/// go on stand first afterwards. The answer is how many they are.
fn go_down<A: Allocator>(
    tree: &Tree<A>,
    lanes: &mut [Lane],
    live: usize,
    heads: &[Head],
    level: u32,
    addrs: &[u32],
    words: &mut [u32],
) -> usize
    requires sound { IsSoundTree tree.now }
    requires low { tree.now.first ≤ level }
    requires deep { level ≤ 5 }
    requires lanes { AreLanes (cells_of tree.now) level addrs.now lanes.old live }
    requires heads { (k : ℕ) → k < live
        → IsHead (words_at (cells_of tree.now) (lane_at lanes.old k).block) (head_at heads.now k) }
    requires read { live ≤ length heads.now }
    requires room { length addrs.now ≤ length words.old }
    requires cared { EachIndex addrs.now (IsCared (cells_of tree.now) level addrs.now lanes.old live words.old) }
    ensures lanes { AreLanes (cells_of tree.now) (level + 1) addrs.now lanes.new result }
    ensures fewer { result ≤ live }
    ensures count { length lanes.new ≡ length lanes.old }
    ensures words { length words.new ≡ length words.old }
    ensures cared { EachIndex addrs.now
        (IsCared (cells_of tree.now) (level + 1) addrs.now lanes.new result words.new) }
{
    let mut still = 0;
    for i in 0..live {
        let step = lanes[i].below(tree, level, heads[i]);
        words[step.lane.at as usize] = step.lane.best;
        lanes[still] = step.lane;
        still += step.goes_on as usize;
    }
    still
}

/// Begins a look-up for each address, at the array.
fn begin_all<A: Allocator>(tree: &Tree<A>, addrs: &[u32], lanes: &mut [Lane])
    requires sound { IsSoundTree tree.now }
    requires few { length addrs.now ≤ 32 }
    requires room { length addrs.now ≤ length lanes.old }
    ensures lanes { AreLanes (cells_of tree.now) tree.now.first addrs.now lanes.new (length addrs.now) }
    ensures in_order { (k : ℕ) → k < length addrs.now → (lane_at lanes.new k).at ≡ k }
    ensures count { length lanes.new ≡ length lanes.old }
{
    for i in 0..addrs.len() {
        lanes[i] = Lane::new(tree, i as u32, addrs[i]);
    }
}

/// Writes the word of the longest row of each of at most 32 addresses. They go down by a lane each, one
/// level at a time, so that they wait for memory at once. What a lane reads does not wait for what
/// another reads, and no branch depends on it.
fn words_all<A: Allocator>(tree: &Tree<A>, addrs: &[u32], words: &mut [u32])
    requires sound { IsSoundTree tree.now }
    requires few { length addrs.now ≤ 32 }
    requires room { length addrs.now ≤ length words.old }
    ensures done { (k : ℕ) → k < length addrs.now → IsLongestWord (cells_of tree.now)
        (slice_index addrs.now k) (slice_index words.new k) }
    ensures count { length words.new ≡ length words.old }
{
    let mut lanes = [NO_LANE; LANES];
    let mut heads = [NO_HEAD; LANES];
    begin_all(tree, addrs, &mut lanes);
    let mut live = addrs.len();
    for level in tree.first..6 {
        read_heads(tree, &lanes, live, level, &mut heads);
        live = go_down(tree, &mut lanes, live, &heads, level, addrs, words);
        if live == 0 {
            return;
        }
    }
}

/// Answers an address by its word.
pub(crate) fn answer_one<A: Allocator>(tree: &Tree<A>, addr: u32) -> u32
    requires { IsSoundTree tree.now }
    ensures word { result ≡ answer_word (longest_match addr (rows_in tree.now)) }
    ensures read { IsReadBack addr (longest_match addr (rows_in tree.now)) }
{
    tree.longest(path_of(addr))
}

/// A law: with its address, each answer's word says the whole answer.
pub(crate) fn words_say_all<A: Allocator>(tree: &Tree<A>)
    requires { IsSoundTree tree.now }
    ensures { (addr : ℕ) → addr < 2 ^ 32 → IsReadBack addr (longest_match addr (rows_in tree.now)) }
{
    let _ = tree;
}

/// Answers at most 32 addresses side by side, by their words.
pub(crate) fn answer_words<A: Allocator>(tree: &Tree<A>, addrs: &[u32], words: &mut [u32])
    requires sound { IsSoundTree tree.now }
    requires few { length addrs.now ≤ 32 }
    requires one_each { length words.old ≡ length addrs.now }
    ensures { words.new
        ≡ map (λ addr. answer_word (longest_match addr (rows_in tree.now))) addrs.now }
{
    words_all(tree, addrs, words);
}

/// Answers at most 32 addresses side by side.
pub(crate) fn answer_all<A: Allocator>(
    tree: &Tree<A>,
    addrs: &[u32],
    answers: &mut [Option<(Prefix, Entry)>],
)
    requires sound { IsSoundTree tree.now }
    requires few { length addrs.now ≤ 32 }
    requires one_each { length answers.old ≡ length addrs.now }
    ensures { answers.new ≡ map (λ addr. longest_match addr (rows_in tree.now)) addrs.now }
{
    let mut words = [NOTHING; LANES];
    words_all(tree, addrs, &mut words);
    for k in 0..addrs.len() {
        answers[k] = tree.answer(addrs[k], words[k]);
    }
}
