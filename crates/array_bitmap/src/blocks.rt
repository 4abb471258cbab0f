//! Blocks of words: what their words say, and how a word more is put into one.

ghost use Rattle.std.specs.Prelude.{◌≡◌, ◌≢◌, ℕ, ◌+◌, ◌*◌, ◌^◌, ◌<◌, ◌≤◌, bit_and, is_some, true, IsTrue, Option, None, IfOk, OnErr};
ghost use Rattle.std.specs.Int.{bit_at};
ghost use Rattle.bitmaps.specs.Bits.{IsHighest};
ghost use Rattle.array_bitmap.specs.Blocks.{row_map, kid_map, row_in, kid_in, word_after, size_for, IsBlock, IsHead};
ghost use Rattle.array_bitmap.specs.Changes.{Copies, GetsRoom, ShiftsIn, PutsWord, PutsRow, PutsKid, TakesBlank, GetsKid, ShiftsOut, Narrows, TakesWord, TakesRow, TakesKid};
ghost use Rattle.array_bitmap.specs.Tree.{words_in_block};
ghost use Rattle.word_pool.specs.{Heap.size_of, Heap.SameBlocks, Heap.is_size, Pool.blocks};

use crate::bits::{bit, chosen, count, highest, is_set, rank, size_for, with_bit, without_bit};
use network_model::NoMemory;
use std::alloc::Allocator;
use word_pool::Pool;

/// How many words stand before those of the rows.
pub(crate) const HEAD: usize = 3;

/// The rows' bits of a block.
pub(crate) fn rows_of<A: Allocator>(pool: &Pool<A>, block: u32) -> u64
    requires { 3 < size_of (blocks pool.now block) }
    ensures { result ≡ row_map (words_in_block (blocks pool.now block)) }
{
    u64::from(pool.word(block, 0)) + (u64::from(pool.word(block, 1)) << 32)
}

/// The kids' bits of a block.
pub(crate) fn kids_of<A: Allocator>(pool: &Pool<A>, block: u32) -> u64
    requires { 3 < size_of (blocks pool.now block) }
    ensures value { result ≡ kid_map (words_in_block (blocks pool.now block)) }
    ensures bound { result < 2 ^ 32 }
{
    u64::from(pool.word(block, 2))
}

/// The bitmaps of a block, which have been read.
#[derive(Clone, Copy)]
pub struct Head {
    pub rows: u64,
    pub kids: u64,
}

/// Bitmaps without bits.
pub(crate) const NO_HEAD: Head = Head { rows: 0, kids: 0 };

/// Reads the bitmaps of a block.
pub(crate) fn head_of<A: Allocator>(pool: &Pool<A>, block: u32) -> Head
    requires { 3 < size_of (blocks pool.now block) }
    ensures { IsHead (words_in_block (blocks pool.now block)) result }
{
    Head {
        rows: rows_of(pool, block),
        kids: kids_of(pool, block),
    }
}

/// Whether a block has a kid, as 1 or 0, and its place; where it has none, any word.
#[derive(Clone, Copy)]
pub(crate) struct Kid {
    pub(crate) there: u32,
    pub(crate) place: u32,
}

/// Reads the place of a block's kid, by its bitmaps. There is no branch: where there is no kid, the block's
/// first word is read.
pub(crate) fn read_kid<A: Allocator>(pool: &Pool<A>, block: u32, head: Head, five: u32) -> Kid
    requires is_block { IsBlock (words_in_block (blocks pool.now block)) }
    requires head { IsHead (words_in_block (blocks pool.now block)) head }
    requires small { five < 32 }
    ensures bit { result.there < 2 }
    ensures some { result.there ≡ 1 → result.place ≡ kid_in (words_in_block (blocks pool.now block)) five }
    ensures none { result.there ≡ 0 → kid_in (words_in_block (blocks pool.now block)) five ≡ 0 }
{
    let there = bit(head.kids, five);
    let index = HEAD + count(head.rows) + rank(head.kids, five);
    Kid {
        there,
        place: pool.word(block, index * there as usize),
    }
}

/// The place of a block's kid, by its bitmaps; 0 where it has none. There is no branch.
pub(crate) fn kid_by<A: Allocator>(pool: &Pool<A>, block: u32, head: Head, five: u32) -> u32
    requires is_block { IsBlock (words_in_block (blocks pool.now block)) }
    requires head { IsHead (words_in_block (blocks pool.now block)) head }
    requires small { five < 32 }
    ensures { result ≡ kid_in (words_in_block (blocks pool.now block)) five }
{
    let kid = read_kid(pool, block, head, five);
    kid.place * kid.there
}

/// The place of a block's kid; 0 where it has none.
pub(crate) fn kid_of<A: Allocator>(pool: &Pool<A>, block: u32, five: u32) -> u32
    requires is_block { IsBlock (words_in_block (blocks pool.now block)) }
    requires small { five < 32 }
    ensures { result ≡ kid_in (words_in_block (blocks pool.now block)) five }
{
    kid_by(pool, block, head_of(pool, block), five)
}

/// The word of the greatest of a block's rows among some bits, by the block's bitmaps, or else the word
/// that was found above. There is no branch: where no row is found, the word at the place of the first
/// is read, and counts for nothing.
pub(crate) fn word_after<A: Allocator>(
    pool: &Pool<A>,
    block: u32,
    head: Head,
    cover: u64,
    best: u32,
) -> u32
    requires is_block { IsBlock (words_in_block (blocks pool.now block)) }
    requires head { IsHead (words_in_block (blocks pool.now block)) head }
    ensures { let ws = words_in_block (blocks pool.now block) in (bit : Option ℕ)
        × IsHighest 64 (bit_and (row_map ws) cover) bit
        × (result ≡ word_after ws best bit) }
{
    let hits = head.rows & cover;
    let word = pool.word(block, HEAD + rank(head.rows, highest(hits)));
    chosen(u32::from(hits != 0), word, best)
}

/// Copies the first words of a block into another.
fn copy_words<A: Allocator>(pool: &mut Pool<A>, from: u32, to: u32, used: usize)
    requires some { to ≢ 0 }
    requires apart { from ≢ to }
    requires enough { used ≤ size_of (blocks pool.old from) }
    requires fits { used ≤ size_of (blocks pool.old to) }
    ensures { Copies (blocks pool.old) (blocks pool.new) from to used }
{
    for i in 0..used {
        let word = pool.word(from, i);
        pool.set_word(to, i, word);
    }
}

/// Makes room for one word more in a block, which may move for it.
fn with_room<A: Allocator>(pool: &mut Pool<A>, block: u32, used: usize) -> Result<u32, NoMemory>
    requires some { block ≢ 0 }
    requires few { used ≤ 96 }
    requires head { 3 ≤ used }
    requires size { size_of (blocks pool.old block) ≡ size_for used }
    ensures ok { IfOk result (λ place. GetsRoom (blocks pool.old) (blocks pool.new) block place used) }
    ensures err { OnErr result (SameBlocks (blocks pool.old) (blocks pool.new)) }
{
    let size = size_for(used);
    if used < size {
        return Ok(block);
    }
    let wider = pool.take(2 * size)?;
    copy_words(pool, block, wider, used);
    pool.give(block, size);
    Ok(wider)
}

/// Puts a word before those of a block from an index on, where there is room for it.
fn shift_in<A: Allocator>(pool: &mut Pool<A>, block: u32, used: usize, at: usize, word: u32)
    requires some { block ≢ 0 }
    requires within { at ≤ used }
    requires fits { used < size_of (blocks pool.old block) }
    ensures { ShiftsIn (blocks pool.old) (blocks pool.new) block used at word }
{
    let mut end = used;
    while at < end {
        end -= 1;
        let moved = pool.word(block, end);
        pool.set_word(block, end + 1, moved);
    }
    pool.set_word(block, at, word);
}

/// Puts a word into a block, which may move for it, before those from an index on.
fn insert<A: Allocator>(
    pool: &mut Pool<A>,
    block: u32,
    used: usize,
    at: usize,
    word: u32,
) -> Result<u32, NoMemory>
    requires some { block ≢ 0 }
    requires few { used ≤ 96 }
    requires head { 3 ≤ used }
    requires within { at ≤ used }
    requires size { size_of (blocks pool.old block) ≡ size_for used }
    ensures ok { IfOk result (λ place.
        PutsWord (blocks pool.old) (blocks pool.new) block place used at word) }
    ensures err { OnErr result (SameBlocks (blocks pool.old) (blocks pool.new)) }
{
    let place = with_room(pool, block, used)?;
    shift_in(pool, place, used, at, word);
    Ok(place)
}

/// Sets the row of a bit in a block, which may move for it.
pub(crate) fn with_row<A: Allocator>(
    pool: &mut Pool<A>,
    block: u32,
    bit: u32,
    word: u32,
) -> Result<u32, NoMemory>
    requires some { block ≢ 0 }
    requires used { is_some (blocks pool.old block) ≡ true }
    requires is_block { IsBlock (words_in_block (blocks pool.old block)) }
    requires small { bit < 62 }
    ensures ok { IfOk result (λ place.
        PutsRow (blocks pool.old) (blocks pool.new) block place bit word) }
    ensures err { OnErr result (SameBlocks (blocks pool.old) (blocks pool.new)) }

    // A row that is there is set again without memory.
    ensures full { OnErr result (row_in (words_in_block (blocks pool.old block)) bit ≡ None) }
{
    let rows = rows_of(pool, block);
    let index = HEAD + rank(rows, bit);
    if is_set(rows, bit) {
        pool.set_word(block, index, word);
        return Ok(block);
    }
    let used = HEAD + count(rows) + count(kids_of(pool, block));
    let place = insert(pool, block, used, index, word)?;
    let rows = with_bit(rows, bit);
    pool.set_word(place, 0, (rows % 0x1_0000_0000) as u32);
    pool.set_word(place, 1, (rows >> 32) as u32);
    Ok(place)
}

/// Gives a block, which may move for it, a kid at five bits, where it has none.
pub(crate) fn with_kid<A: Allocator>(
    pool: &mut Pool<A>,
    block: u32,
    five: u32,
    kid: u32,
) -> Result<u32, NoMemory>
    requires some { block ≢ 0 }
    requires used { is_some (blocks pool.old block) ≡ true }
    requires is_block { IsBlock (words_in_block (blocks pool.old block)) }
    requires small { five < 32 }
    requires clear { bit_at (kid_map (words_in_block (blocks pool.old block))) five ≡ 0 }
    requires real { kid ≢ 0 }
    ensures ok { IfOk result (λ place.
        PutsKid (blocks pool.old) (blocks pool.new) block place five kid) }
    ensures err { OnErr result (SameBlocks (blocks pool.old) (blocks pool.new)) }
{
    let kids = kids_of(pool, block);
    let before = HEAD + count(rows_of(pool, block));
    let used = before + count(kids);
    let place = insert(pool, block, used, before + rank(kids, five), kid)?;
    pool.set_word(place, 2, with_bit(kids, five) as u32);
    Ok(place)
}

/// Takes a block without rows and kids.
pub(crate) fn blank<A: Allocator>(pool: &mut Pool<A>) -> Result<u32, NoMemory>
    ensures ok { IfOk result (λ place. TakesBlank (blocks pool.old) (blocks pool.new) place) }
    ensures err { OnErr result (SameBlocks (blocks pool.old) (blocks pool.new)) }
{
    let place = pool.take(4)?;
    pool.set_word(place, 0, 0);
    pool.set_word(place, 1, 0);
    pool.set_word(place, 2, 0);
    Ok(place)
}

/// Where a block stands now, and its new kid.
#[derive(Clone, Copy)]
pub struct NewKid {
    pub place: u32,
    pub kid: u32,
}

/// Gives a block, which may move for it, a new kid without rows and kids at five bits, where it has none.
pub(crate) fn with_new_kid<A: Allocator>(
    pool: &mut Pool<A>,
    block: u32,
    five: u32,
) -> Result<NewKid, NoMemory>
    requires some { block ≢ 0 }
    requires used { is_some (blocks pool.old block) ≡ true }
    requires is_block { IsBlock (words_in_block (blocks pool.old block)) }
    requires small { five < 32 }
    requires clear { bit_at (kid_map (words_in_block (blocks pool.old block))) five ≡ 0 }
    ensures ok { IfOk result (λ made.
        GetsKid (blocks pool.old) (blocks pool.new) block made.place five made.kid) }
    ensures err { OnErr result (SameBlocks (blocks pool.old) (blocks pool.new)) }
{
    let kid = blank(pool)?;
    match with_kid(pool, block, five, kid) {
        Ok(place) => Ok(NewKid { place, kid }),
        Err(error) => {
            pool.give(kid, 4);
            Err(error)
        }
    }
}

/// Takes the word at an index out of those of a block.
fn shift_out<A: Allocator>(pool: &mut Pool<A>, block: u32, used: usize, at: usize)
    requires some { block ≢ 0 }
    requires within { at < used }
    requires fits { used ≤ size_of (blocks pool.old block) }
    ensures { ShiftsOut (blocks pool.old) (blocks pool.new) block used at }
{
    for i in at + 1..used {
        let moved = pool.word(block, i);
        pool.set_word(block, i - 1, moved);
    }
}

/// Has a block go into half of its size, where its first `used` words fit. Where a block of that size is
/// free, it moves there, and what it had is free as a whole. So rows that come and go take the same blocks
/// each time. Else its upper half is given back. It needs no memory.
fn narrow<A: Allocator>(pool: &mut Pool<A>, block: u32, half: usize, used: usize) -> u32
    requires some { block ≢ 0 }
    requires one_of_six { IsTrue (is_size half) }
    requires twice { IsTrue (is_size (2 * half)) }
    requires size { size_of (blocks pool.old block) ≡ 2 * half }
    requires head { 3 ≤ used }
    requires fits { used ≤ half }
    ensures { Narrows (blocks pool.old) (blocks pool.new) block result half used }
{
    if !pool.has_free(half) {
        pool.halve(block, 2 * half);
        return block;
    }
    let Ok(place) = pool.take(half) else {
        pool.halve(block, 2 * half);
        return block;
    };
    copy_words(pool, block, place, used);
    pool.give(block, 2 * half);
    place
}

/// Takes the word at an index out of a block, which may move where the others fit into half of its size.
fn take_word<A: Allocator>(pool: &mut Pool<A>, block: u32, used: usize, at: usize) -> u32
    requires some { block ≢ 0 }
    requires few { used ≤ 97 }
    requires head { 3 < used }
    requires within { at < used }
    requires size { size_of (blocks pool.old block) ≡ size_for used }
    ensures { TakesWord (blocks pool.old) (blocks pool.new) block result used at }
{
    shift_out(pool, block, used, at);
    let size = size_for(used - 1);
    if size < size_for(used) {
        return narrow(pool, block, size, used - 1);
    }
    block
}

/// Takes the row of a bit out of a block, which may move. It needs no memory.
pub(crate) fn without_row<A: Allocator>(pool: &mut Pool<A>, block: u32, bit: u32) -> u32
    requires some { block ≢ 0 }
    requires used { is_some (blocks pool.old block) ≡ true }
    requires is_block { IsBlock (words_in_block (blocks pool.old block)) }
    requires small { bit < 62 }
    requires set { bit_at (row_map (words_in_block (blocks pool.old block))) bit ≡ 1 }
    ensures { TakesRow (blocks pool.old) (blocks pool.new) block result bit }
{
    let rows = rows_of(pool, block);
    let used = HEAD + count(rows) + count(kids_of(pool, block));
    let place = take_word(pool, block, used, HEAD + rank(rows, bit));
    let rows = without_bit(rows, bit);
    pool.set_word(place, 0, (rows % 0x1_0000_0000) as u32);
    pool.set_word(place, 1, (rows >> 32) as u32);
    place
}

/// Takes the kid at five bits out of a block, which may move. It needs no memory.
pub(crate) fn without_kid<A: Allocator>(pool: &mut Pool<A>, block: u32, five: u32) -> u32
    requires some { block ≢ 0 }
    requires used { is_some (blocks pool.old block) ≡ true }
    requires is_block { IsBlock (words_in_block (blocks pool.old block)) }
    requires small { five < 32 }
    requires set { bit_at (kid_map (words_in_block (blocks pool.old block))) five ≡ 1 }
    ensures { TakesKid (blocks pool.old) (blocks pool.new) block result five }
{
    let kids = kids_of(pool, block);
    let before = HEAD + count(rows_of(pool, block));
    let place = take_word(pool, block, before + count(kids), before + rank(kids, five));
    pool.set_word(place, 2, without_bit(kids, five) as u32);
    place
}
