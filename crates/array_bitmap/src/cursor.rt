//! The rows of an image in the order of their prefixes, with a prefix as the cursor.
//!
//! A walk goes from prefix to prefix. In a block it finds the next row or kid by the bitmaps, by one step for
//! each length. If the path has no block at a level, no address with the path's bits down to there has a
//! longer row, so the walk goes on past those addresses. Of the prefixes that the array goes by it tries one
//! after another.
//!
//! The tricky part is that rows stand in a block by their lengths, and are listed by their addresses. So the
//! next row is the first of those that are next of their length.

ghost use Rattle.std.specs.Prelude.{◌≡◌, ℕ, ◌+◌, ◌*◌, ◌-◌, ◌/◌, ◌%◌, ◌^◌, ◌≤◌, ◌↔◌, IfSome, IfOk, IfErr, Some, None, length, ◌<◌};
ghost use Rattle.std.specs.{Int.bit_at, FinMap.find as row_of};
ghost use Rattle.ipv4_prefix.specs.Prefix.{Prefix as Block, IsPrefix, prefix_cmp};
ghost use Rattle.array_bitmap.specs.Cursor.{IsNextPrefix, IsFirstAt, IsFoundAt, IsHeadFrom, IsNextSpot, spot_number, none_until, first_row_from};
ghost use Rattle.array_bitmap.specs.Bits.{depth_of, level_of, path_start, row_bit, width};
ghost use Rattle.array_bitmap.specs.{Words.shown, Tree.block_at, Tree.word_at, Tree.entry_in, Image.cells_of, Image.rows_in, Image.IsSoundTree};

use crate::bits::{LAST_LEVEL, five_bits, is_set, next_set, path_of, rank, row_bit};
use crate::blocks::{HEAD, Head, head_of, kid_of, rows_of};
use crate::image::Image;
use crate::tree::Tree;
use crate::words::{NOTHING, entry_of};
use network_model::{Entry, Prefix};
use std::alloc::Allocator;

/// What an image has at a prefix: its row; or no row there, and none before a later prefix; or no row
/// from there on.
#[derive(Clone, Copy)]
pub(crate) enum Found {
    Row(Entry),
    NoneBefore(Prefix),
    NoMore,
}

/// A place in a block, in the order of prefixes: the prefix of `more + 1` further bits with which these five
/// begin; where `more` is 5, the longer prefixes that begin with these five. Past all of them `five` is 32.
#[derive(Clone, Copy)]
struct Spot {
    five: u32,
    more: u32,
}

/// Where the next row of `more + 1` further bits begins: that of the value `from`, or of a greater one. It is
/// 32 where there is none.
fn next_row(rows: u64, more: u32, from: u32) -> u32
    requires few { more < 5 }
    requires within { from ≤ 2 ^ (more + 1) }
    ensures bound { result ≤ 32 }
    ensures start { result % 2 ^ (4 - more) ≡ 0 }
    ensures from { from * 2 ^ (4 - more) ≤ result }
    ensures none { (v : ℕ) → v % 2 ^ (4 - more) ≡ 0 → from * 2 ^ (4 - more) ≤ v → v < result
        → bit_at rows (row_bit v more) ≡ 0 }
{
    let values = 1u32 << (more + 1);
    let base = values - 2;
    let value = next_set(rows, base + from) - base;
    if value < values {
        return value << (4 - more);
    }
    32
}

/// The first value of `length + 1` further bits whose place comes after that of the prefix of `more + 1`
/// further bits that begins at `five`.
fn value_after(five: u32, more: u32, length: u32) -> u32
    requires small { five < 32 }
    requires few { more < 5 }
    requires start { five % 2 ^ (4 - more) ≡ 0 }
    requires one_of_five { length < 5 }
    ensures within { result ≤ 2 ^ (length + 1) }
    ensures after { (v : ℕ) → v % 2 ^ (4 - length) ≡ 0
        → (result * 2 ^ (4 - length) ≤ v) ↔ (spot_number five more < spot_number v length) }
{
    let value = five >> (4 - length);
    if length <= more {
        return value + 1;
    }
    value
}

/// Of two places that which comes first: `one`, unless `other` begins before it.
fn sooner(one: Spot, other: Spot) -> Spot
    ensures other { other.five < one.five → result ≡ other }
    ensures one { one.five ≤ other.five → result ≡ one }
{
    if other.five < one.five {
        return other;
    }
    one
}

/// The next place in a block with a row or a kid, after that of the prefix of `more + 1` further bits that
/// begins at `five`.
fn next_spot(head: Head, level: u32, five: u32, more: u32) -> Spot
    requires small { five < 32 }
    requires few { more < width level }
    requires start { five % 2 ^ (4 - more) ≡ 0 }
    requires deep { level ≤ 5 }
    ensures { IsNextSpot head level five more result }
{
    let lengths = if level == LAST_LEVEL { 3 } else { 5 };
    let mut next = Spot { five: 32, more: 0 };
    for length in 0..lengths {
        let from = value_after(five, more, length);
        next = sooner(
            next,
            Spot {
                five: next_row(head.rows, length, from),
                more: length,
            },
        );
    }
    if level == LAST_LEVEL {
        return next;
    }
    sooner(
        next,
        Spot {
            five: next_set(head.kids, five),
            more: 5,
        },
    )
}

/// The prefix at a place of the block at a level of an address's path; of the longer ones the first.
fn prefix_at(addr: u32, level: u32, spot: Spot) -> Prefix
    requires small { spot.five < 32 }
    requires deep { level ≤ 5 }
    requires short { depth_of level + (spot.more + 1) ≤ 32 }
    requires start { spot.five % 2 ^ (4 - spot.more) ≡ 0 }
    ensures valid { IsPrefix result }
    ensures addr { result.addr * 4
        ≡ (path_start (addr * 4) (depth_of level) * 32 + spot.five) * 2 ^ (25 - 5 * level) }
    ensures len { result.len ≡ depth_of level + (spot.more + 1) }
{
    let above = path_of(addr) >> (30 - 5 * level);
    let path = (above * 32 + u64::from(spot.five)) << (25 - 5 * level);
    Prefix::covering((path / 4) as u32, (5 + 5 * level + spot.more) as u8)
}

/// No row before the next prefix; or no more, where there is no next one.
fn none_until(next: Option<Prefix>) -> Found
    ensures { result ≡ none_until next }
{
    match next {
        Some(next) => Found::NoneBefore(next),
        None => Found::NoMore,
    }
}

/// The shortest prefix at an address.
fn shortest_at(addr: u32) -> Prefix
    ensures valid { IsPrefix result }
    ensures addr { result.addr ≡ addr }
    ensures shortest { (r : Block) → IsPrefix r → r.addr ≡ addr → result.len ≤ r.len }
{
    Prefix::covering(addr, (32 - addr.trailing_zeros()) as u8)
}

/// The first prefix past the block of an address's first `len` bits.
fn first_past(addr: u32, len: u8) -> Option<Prefix>
    requires { len ≤ 32 }
    ensures { IsFirstAt ((addr / 2 ^ (32 - len) + 1) * 2 ^ (32 - len)) result }
{
    let host_len = 32 - len;
    let end = ((u64::from(addr) >> host_len) + 1) << host_len;
    if end > 0xffff_ffff {
        return None;
    }
    Some(shortest_at(end as u32))
}

/// The prefix that comes next in the order of prefixes, by address and then by length; None after
/// 255.255.255.255/32.
pub fn next_prefix(prefix: Prefix) -> Option<Prefix>
    ensures { IsNextPrefix prefix result }
{
    let addr = prefix.addr();
    let len = prefix.len();
    if len < 32 {
        return Some(Prefix::covering(addr, len + 1));
    }
    first_past(addr, 32)
}

impl<A: Allocator> Tree<A> {
    /// The word of a path's first `len` bits, which are no more than the array goes by.
    fn short_word(&self, path: u64, len: u32) -> u32
        requires sound { IsSoundTree self.now }
        requires fits { path < 2 ^ 34 }
        requires short { len ≤ depth_of self.now.first }
        ensures { word_at (cells_of self.now) path len ≡ shown result }
    {
        self.shorts[(1 << len) + (path >> (34 - len)) as usize]
    }

    /// The place of a path's block at a level, or a level up to there at which the path has none.
    fn block_on(&self, path: u64, level: u32) -> Result<u32, u32>
        requires sound { IsSoundTree self.now }
        requires fits { path < 2 ^ 34 }
        requires low { self.now.first ≤ level }
        requires deep { level ≤ 5 }
        ensures block { IfOk result (λ block. block_at (cells_of self.now) path (level - self.now.first) ≡ block) }
        ensures none { IfErr result (λ end. (self.now.first ≤ end) × (end ≤ level)
            × (block_at (cells_of self.now) path (end - self.now.first) ≡ 0)) }
    {
        let mut block = self.top(path).block;
        for d in self.first..level {
            if block == 0 {
                return Err(d);
            }
            block = kid_of(&self.pool, block, five_bits(path, d));
        }
        if block == 0 {
            return Err(level);
        }
        Ok(block)
    }

    /// The word of a path's first `len` bits, or a level at which the path has no block, before the bits
    /// end.
    fn word_on(&self, path: u64, len: u32) -> Result<u32, u32>
        requires sound { IsSoundTree self.now }
        requires fits { path < 2 ^ 34 }
        requires short { len ≤ 32 }
        ensures word { IfOk result (λ word. word_at (cells_of self.now) path len ≡ shown word) }
        ensures none { IfErr result (λ end. (self.now.first ≤ end) × (end ≤ 5) × (depth_of end < len)
            × (block_at (cells_of self.now) path (end - self.now.first) ≡ 0)) }
    {
        if len <= 4 + 5 * self.first {
            return Ok(self.short_word(path, len));
        }
        let level = (len - 5) / 5;
        let block = self.block_on(path, level)?;
        let bit = row_bit(five_bits(path, level), (len - 5) % 5);
        let rows = rows_of(&self.pool, block);
        if !is_set(rows, bit) {
            return Ok(NOTHING);
        }
        Ok(self.pool.word(block, HEAD + rank(rows, bit)))
    }

    /// The entry of a prefix's row, if the prefix has one.
    pub(crate) fn row(&self, prefix: Prefix) -> Option<Entry>
        requires { IsSoundTree self.now }
        ensures { result ≡ row_of prefix_cmp prefix (rows_in self.now) }
    {
        let word = match self.word_on(path_of(prefix.addr()), u32::from(prefix.len())) {
            Ok(word) => word,
            Err(_end) => return None,
        };
        if word == NOTHING {
            return None;
        }
        Some(entry_of(word))
    }

    /// What the tree has at a prefix that ends in the block at a level of its path, or after it there.
    fn find_in(&self, block: u32, level: u32, at: Prefix) -> Found
        requires sound { IsSoundTree self.now }
        requires valid { IsPrefix at }
        requires long { depth_of self.now.first < at.len }
        requires level { level ≡ level_of at.len }
        requires block { block_at (cells_of self.now) (at.addr * 4) (level - self.now.first) ≡ block }
        ensures { IsFoundAt (entry_in (cells_of self.now)) at result }
    {
        let addr = at.addr();
        let five = five_bits(path_of(addr), level);
        let more = (u32::from(at.len()) - 5) % 5;
        let head = head_of(&self.pool, block);
        let bit = row_bit(five, more);
        if is_set(head.rows, bit) {
            return Found::Row(entry_of(self.pool.word(block, HEAD + rank(head.rows, bit))));
        }
        let next = next_spot(head, level, five, more);
        if next.five == 32 {
            return none_until(first_past(addr, (4 + 5 * level) as u8));
        }
        Found::NoneBefore(prefix_at(addr, level, next))
    }

    fn find_at(&self, at: Prefix) -> Found
        requires { IsSoundTree self.now }
        ensures valid { IsPrefix at }
        ensures found { IsFoundAt (entry_in (cells_of self.now)) at result }
    {
        let path = path_of(at.addr());
        let len = u32::from(at.len());
        if len <= 4 + 5 * self.first {
            let word = self.short_word(path, len);
            if word == NOTHING {
                return none_until(next_prefix(at));
            }
            return Found::Row(entry_of(word));
        }
        let level = (len - 5) / 5;
        match self.block_on(path, level) {
            Ok(block) => self.find_in(block, level, at),
            Err(end) => none_until(first_past(at.addr(), (4 + 5 * end) as u8)),
        }
    }

    /// The first row at a prefix or after it.
    pub(crate) fn first_row_from(&self, at: Prefix) -> Option<(Prefix, Entry)>
        requires { IsSoundTree self.now }
        ensures first { result ≡ first_row_from at (rows_in self.now) }
        ensures head { IfSome result (IsHeadFrom at (rows_in self.now)) }
    {
        let mut cursor = at;
        'cursor: loop {
            match self.find_at(cursor) {
                Found::Row(entry) => return Some((cursor, entry)),
                Found::NoneBefore(next) => cursor = next,
                Found::NoMore => return None,
            }
        }
    }

    /// How many rows there are.
    fn row_count(&self) -> usize
        requires { IsSoundTree self.now }
        ensures { result ≡ length (rows_in self.now) }
    {
        let mut count = 0;
        let mut cursor = Prefix::covering(0, 0);
        while let Some(row) = self.first_row_from(cursor) {
            count += 1;
            let Some(next) = next_prefix(row.0) else {
                return count;
            };
            cursor = next;
        }
        count
    }
}

impl<A: Allocator> Image<A> {
    /// The first row at a prefix or after it, in the order of prefixes, by address and then by
    /// length; None where there is none. From 0.0.0.0/0 on, and then from the `next_prefix` of each
    /// row's prefix on, it gives all rows, one after another. It needs no memory. Giving all rows
    /// takes a step for each prefix that the array goes by, and one call may take as many.
    pub fn first_row_from(&self, at: Prefix) -> Option<(Prefix, Entry)>
        ensures first { result ≡ first_row_from at (self.now).rows }
        ensures head { IfSome result (IsHeadFrom at (self.now).rows) }
    {
        self.tree.first_row_from(at)
    }

    /// How many rows there are. It needs no memory, and takes the time of giving all rows.
    pub fn row_count(&self) -> usize
        ensures { result ≡ length (self.now).rows }
    {
        self.tree.row_count()
    }
}
