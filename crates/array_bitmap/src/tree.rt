//! The words of an image: arrays on the first bits of addresses, and blocks below them.

ghost use Rattle.std.specs.Prelude.{◌≡◌, ◌≢◌, ℕ, ◌+◌, ◌-◌, ◌*◌, ◌^◌, ◌<◌, ◌≤◌, min, ◌==◌, vec_len, replicate, [], cond, nat_le, is_some, true, false, Option, Some, None, MatchOption, IfOk, OnOk, OnErr};
ghost use Rattle.std.specs.{Int.bit_at, FinMap.put, FinMap.find as row_of};
ghost use Rattle.array_bitmap.specs.{Bits.depth_of, Words.found, Words.len_of, Words.IsRowWord, Changes.WritesName, Removal.without_row, Removal.HasUse, Removal.IsPruned};
ghost use Rattle.bitmaps.specs.Greatest.{GreatestBelow};
ghost use Rattle.array_bitmap.specs.Blocks.{row_map, kid_map, IsBlock, IsHead};
ghost use Rattle.array_bitmap.specs.Tree.{words_in_block, block_at, word_at, SetsWord};
ghost use Rattle.array_bitmap.specs.Image.{cells_of, rows_in, top_at, IsSoundTree, IsStand, LosesBlock};
ghost use Rattle.ipv4_prefix.specs.{Prefix.prefix_cmp, LongestMatch.longest_match};
ghost use Rattle.word_pool.specs.Pool.{blocks, capacity};

use crate::bits::{count, covers, five_bits, is_set, path_of, rank, row_bit};
use crate::blocks::{
    HEAD, Head, blank, head_of, kid_by, kid_of, kids_of, rows_of, with_new_kid, with_row,
    without_kid, without_row, word_after,
};
use crate::words::{NOTHING, entry_of, len_of, word_of};
use network_model::{Entry, NoMemory, Prefix};
use std::alloc::{Allocator, Global};
use std::mem::size_of;
use word_pool::Pool;

const _: () = prove!(size_of::<Top>() == 8);

/// What the array has for the first bits of an address: the word of the longest of the short rows that
/// cover them, and the place of the block with the longer rows.
#[derive(Clone, Copy)]
pub struct Top {
    pub best: u32,
    pub block: u32,
}

/// Where a block stands, and its name: an index of the array, whose holder is 0, or five bits of
/// another block.
#[derive(Clone, Copy)]
pub struct Stand {
    pub holder: u32,
    pub index: u32,
    pub block: u32,
}

/// Rows by path and length. A path is an address and two zeros after it: 34 bits.
#[derive(Drop)]
pub struct Tree<A: Allocator = Global> {
    pub first: u32,
    pub shorts: Vec<u32, A>,
    pub tops: Vec<Top, A>,
    pub pool: Pool<A>,
}

/// As many copies of a value.
fn filled<T: Copy, A: Allocator>(alloc: A, count: usize, value: T) -> Result<Vec<T, A>, NoMemory>
    ensures items { IfOk result (λ v. v.items ≡ replicate count value) }
    ensures len { IfOk result (λ v. vec_len v ≡ count) }
{
    let mut values = Vec::with_capacity(alloc, count)?;
    for _i in 0..count {
        values.push(value)?;
    }
    Ok(values)
}

impl<A: Allocator + Copy> Tree<A> {
    /// A tree with no rows, whose array goes by the first 4, 9, 14 or 19 bits of addresses.
    pub fn new(alloc: A, first: u32) -> Result<Self, NoMemory>
        requires { first ≤ 3 }
        ensures sound { IfOk result (λ t. IsSoundTree t) }
        ensures first { IfOk result (λ t. t.first ≡ first) }
        ensures empty { IfOk result (λ t. rows_in t ≡ []) }
    {
        let depth = 4 + 5 * first;
        let nothing = Top {
            best: NOTHING,
            block: 0,
        };
        Ok(Tree {
            first,
            shorts: filled(alloc, 2 << depth, NOTHING)?,
            tops: filled(alloc, 1 << depth, nothing)?,
            pool: Pool::new(alloc)?,
        })
    }

    /// A tree with the same rows, in memory of its own.
    pub fn copy(&self, alloc: A) -> Result<Self, NoMemory>
        requires { IsSoundTree self.now }
        ensures sound { IfOk result (λ tree. IsSoundTree tree) }
        ensures first { IfOk result (λ tree. tree.first ≡ self.now.first) }
        ensures rows { IfOk result (λ tree. rows_in tree ≡ rows_in self.now) }
    {
        Ok(Tree {
            first: self.first,
            shorts: Vec::from_slice(alloc, &self.shorts)?,
            tops: Vec::from_slice(alloc, &self.tops)?,
            pool: self.pool.copy(alloc)?,
        })
    }
}

impl<A: Allocator> Tree<A> {
    /// What the array has for a path.
    pub(crate) fn top(&self, path: u64) -> Top
        requires sound { IsSoundTree self.now }
        requires fits { path < 2 ^ 34 }
        ensures block { result.block ≡ block_at (cells_of self.now) path 0 }
        ensures best { GreatestBelow (word_at (cells_of self.now) path)
            (depth_of self.now.first + 1) (found result.best) }
    {
        self.tops[(path >> (30 - 5 * self.first)) as usize]
    }

    /// Reads the bitmaps of a path's block at a level.
    pub(crate) fn head(&self, path: u64, level: u32, block: u32) -> Head
        requires sound { IsSoundTree self.now }
        requires at { block ≡ block_at (cells_of self.now) path (level - self.now.first) }
        ensures { IsHead (words_in_block (blocks self.now.pool block)) result }
    {
        head_of(&self.pool, block)
    }

    /// The word of the longest row of a path that ends in its block at a level, or else the one that was
    /// found above.
    pub(crate) fn longest_to(&self, path: u64, level: u32, block: u32, head: Head, best: u32) -> u32
        requires sound { IsSoundTree self.now }
        requires fits { path < 2 ^ 34 }
        requires low { self.now.first ≤ level }
        requires deep { level ≤ 5 }
        requires at { block ≡ block_at (cells_of self.now) path (level - self.now.first) }
        requires head { IsHead (words_in_block (blocks self.now.pool block)) head }
        requires above { GreatestBelow (word_at (cells_of self.now) path) (depth_of level + 1) (found best) }
        ensures { GreatestBelow (word_at (cells_of self.now) path) (min (depth_of (level + 1) + 1) 33) (found result) }
    {
        word_after(
            &self.pool,
            block,
            head,
            covers(five_bits(path, level), level),
            best,
        )
    }

    /// The place of the next block of a path, or 0 where there is none.
    pub(crate) fn next(&self, path: u64, level: u32, block: u32, head: Head) -> u32
        requires sound { IsSoundTree self.now }
        requires low { self.now.first ≤ level }
        requires deep { level ≤ 5 }
        requires at { block ≡ block_at (cells_of self.now) path (level - self.now.first) }
        requires head { IsHead (words_in_block (blocks self.now.pool block)) head }
        ensures { result ≡ block_at (cells_of self.now) path (level + 1 - self.now.first) }
    {
        kid_by(&self.pool, block, head, five_bits(path, level))
    }

    /// The word of the longest row of a path, or that for no row.
    pub(crate) fn longest(&self, path: u64) -> u32
        requires sound { IsSoundTree self.now }
        requires fits { path < 2 ^ 34 }
        ensures { GreatestBelow (word_at (cells_of self.now) path) 33 (found result) }
    {
        let top = self.top(path);
        let mut best = top.best;
        let mut block = top.block;
        for level in self.first..6 {
            let head = self.head(path, level, block);
            best = self.longest_to(path, level, block, head, best);
            block = self.next(path, level, block, head);
            if block == 0 {
                return best;
            }
        }
        best
    }

    fn rename(&mut self, holder: u32, index: u32, place: u32)
        requires within { holder ≡ 0 → index < vec_len self.old.tops }
        requires is_block { IsBlock (words_in_block (blocks self.old.pool holder)) }
        requires kid { holder ≢ 0 → bit_at (kid_map (words_in_block (blocks self.old.pool holder))) index ≡ 1 }
        requires five { holder ≢ 0 → index < 32 }
        requires real { place ≢ 0 }
        ensures name { WritesName (cells_of self.old) (cells_of self.new) holder index place }
        ensures first { self.new.first ≡ self.old.first }
        ensures shorts { vec_len self.new.shorts ≡ vec_len self.old.shorts }
        ensures tops { vec_len self.new.tops ≡ vec_len self.old.tops }
    {
        if holder == 0 {
            self.tops[index as usize].block = place;
            return;
        }
        let kids = kids_of(&self.pool, holder);
        let at = HEAD + count(rows_of(&self.pool, holder)) + rank(kids, index);
        self.pool.set_word(holder, at, place);
    }

    /// Sets the row of a path that ends in the block where the path stands.
    fn put_row(
        &mut self,
        stand: Stand,
        path: u64,
        level: u32,
        more: u32,
        word: u32,
    ) -> Result<(), NoMemory>
        requires sound { IsSoundTree self.old }
        requires fits { path < 2 ^ 34 }
        requires low { self.old.first ≤ level }
        requires deep { level ≤ 5 }
        requires few { more < 5 }
        requires stand { IsStand (cells_of self.old) path (level - self.old.first) stand }
        requires row { IsRowWord (depth_of level + (more + 1)) word }
        ensures sound { IsSoundTree self.new }
        ensures first { self.new.first ≡ self.old.first }
        ensures ok { OnOk result (SetsWord (word_at (cells_of self.old)) (word_at (cells_of self.new))
            path (depth_of level + (more + 1)) (Some word)) }
        ensures err { OnErr result ((q : ℕ) → (m : ℕ)
            → word_at (cells_of self.new) q m ≡ word_at (cells_of self.old) q m) }
        ensures full { OnErr result
            (word_at (cells_of self.old) path (depth_of level + (more + 1)) ≡ None) }
    {
        let bit = row_bit(five_bits(path, level), more);
        let place = with_row(&mut self.pool, stand.block, bit, word)?;
        self.rename(stand.holder, stand.index, place);
        Ok(())
    }

    /// Where the next block of a path stands, which is made where there is none.
    fn child(&mut self, stand: Stand, path: u64, level: u32) -> Result<Stand, NoMemory>
        requires sound { IsSoundTree self.old }
        requires fits { path < 2 ^ 34 }
        requires low { self.old.first ≤ level }
        requires deep { level < 5 }
        requires stand { IsStand (cells_of self.old) path (level - self.old.first) stand }
        ensures sound { IsSoundTree self.new }
        ensures first { self.new.first ≡ self.old.first }
        ensures ok { IfOk result (λ next.
            IsStand (cells_of self.new) path (level + 1 - self.new.first) next) }
        ensures same { (q : ℕ) → (m : ℕ)
            → word_at (cells_of self.new) q m ≡ word_at (cells_of self.old) q m }
        ensures full { OnErr result
            (block_at (cells_of self.old) path (level + 1 - self.old.first) ≡ 0) }
    {
        let five = five_bits(path, level);
        let kid = kid_of(&self.pool, stand.block, five);
        if kid != 0 {
            return Ok(Stand {
                holder: stand.block,
                index: five,
                block: kid,
            });
        }
        let made = with_new_kid(&mut self.pool, stand.block, five)?;
        self.rename(stand.holder, stand.index, made.place);
        Ok(Stand {
            holder: made.place,
            index: five,
            block: made.kid,
        })
    }

    /// Where the first block of a path stands, which is made where there is none.
    fn first_stand(&mut self, path: u64) -> Result<Stand, NoMemory>
        requires sound { IsSoundTree self.old }
        requires fits { path < 2 ^ 34 }
        ensures sound { IsSoundTree self.new }
        ensures first { self.new.first ≡ self.old.first }
        ensures ok { IfOk result (λ stand. IsStand (cells_of self.new) path 0 stand) }
        ensures same { (q : ℕ) → (m : ℕ)
            → word_at (cells_of self.new) q m ≡ word_at (cells_of self.old) q m }
        ensures full { OnErr result (block_at (cells_of self.old) path 0 ≡ 0) }
    {
        let index = (path >> (30 - 5 * self.first)) as u32;
        let top = self.top(path);
        if top.block != 0 {
            return Ok(Stand {
                holder: 0,
                index,
                block: top.block,
            });
        }
        let block = blank(&mut self.pool)?;
        self.rename(0, index, block);
        Ok(Stand {
            holder: 0,
            index,
            block,
        })
    }

    /// Sets the row of a path's first `len` bits, which ends in a block. A refusal may leave blocks that
    /// it made.
    fn put_long(&mut self, path: u64, len: u32, word: u32) -> Result<(), NoMemory>
        requires sound { IsSoundTree self.old }
        requires fits { path < 2 ^ 34 }
        requires long { depth_of self.old.first < len }
        requires short { len ≤ 32 }
        requires row { IsRowWord len word }
        ensures sound { IsSoundTree self.new }
        ensures first { self.new.first ≡ self.old.first }
        ensures ok { OnOk result (SetsWord (word_at (cells_of self.old)) (word_at (cells_of self.new))
            path len (Some word)) }
        ensures err { OnErr result ((q : ℕ) → (m : ℕ)
            → word_at (cells_of self.new) q m ≡ word_at (cells_of self.old) q m) }
        ensures full { OnErr result (word_at (cells_of self.old) path len ≡ None) }
    {
        let level = (len - 5) / 5;
        let mut stand = self.first_stand(path)?;
        for d in self.first..level {
            stand = self.child(stand, path, d)?;
        }
        self.put_row(stand, path, level, (len - 5) % 5, word)
    }

    /// Sets the row of a path's first `len` bits, which ends in a block. A refusal leaves no block that it
    /// made.
    fn set_long(&mut self, path: u64, len: u32, word: u32) -> Result<(), NoMemory>
        requires sound { IsSoundTree self.old }
        requires fits { path < 2 ^ 34 }
        requires long { depth_of self.old.first < len }
        requires short { len ≤ 32 }
        requires row { IsRowWord len word }
        ensures sound { IsSoundTree self.new }
        ensures first { self.new.first ≡ self.old.first }
        ensures ok { OnOk result (SetsWord (word_at (cells_of self.old)) (word_at (cells_of self.new))
            path len (Some word)) }
        ensures err { OnErr result ((q : ℕ) → (m : ℕ)
            → word_at (cells_of self.new) q m ≡ word_at (cells_of self.old) q m) }
        ensures full { OnErr result (word_at (cells_of self.old) path len ≡ None) }
        ensures pruned { OnErr result (IsPruned (cells_of self.new) path len) }
    {
        if let Err(error) = self.put_long(path, len, word) {
            self.prune(path, (len - 5) / 5);
            return Err(error);
        }
        Ok(())
    }

    /// Sets the row of a path's first `len` bits, which are no more than the array goes by.
    fn set_short(&mut self, path: u64, len: u32, word: u32)
        requires sound { IsSoundTree self.old }
        requires fits { path < 2 ^ 34 }
        requires short { len ≤ depth_of self.old.first }
        requires row { IsRowWord len word }
        ensures sound { IsSoundTree self.new }
        ensures first { self.new.first ≡ self.old.first }
        ensures sets { SetsWord (word_at (cells_of self.old)) (word_at (cells_of self.new))
            path len (Some word) }
    {
        let start = (path >> (34 - len)) as usize;
        let host = 4 + 5 * self.first - len;
        self.shorts[(1 << len) + start] = word;
        put_longest(
            &mut self.tops,
            start << host,
            (start + 1) << host,
            len,
            word,
        );
    }

    /// Sets the row of a path's first `len` bits.
    fn set(&mut self, path: u64, len: u32, word: u32) -> Result<(), NoMemory>
        requires sound { IsSoundTree self.old }
        requires fits { path < 2 ^ 34 }
        requires short { len ≤ 32 }
        requires row { IsRowWord len word }
        ensures sound { IsSoundTree self.new }
        ensures ok { OnOk result (SetsWord (word_at (cells_of self.old)) (word_at (cells_of self.new))
            path len (Some word)) }
        ensures err { OnErr result ((q : ℕ) → (m : ℕ)
            → word_at (cells_of self.new) q m ≡ word_at (cells_of self.old) q m) }
        ensures full { OnErr result (word_at (cells_of self.old) path len ≡ None) }
        ensures pruned { OnErr result (IsPruned (cells_of self.new) path len) }
    {
        if len <= 4 + 5 * self.first {
            self.set_short(path, len, word);
            return Ok(());
        }
        self.set_long(path, len, word)
    }

    /// Sets the row of a prefix. It needs no memory where the prefix has a row.
    pub fn set_row(&mut self, prefix: Prefix, entry: Entry) -> Result<(), NoMemory>
        requires { IsSoundTree self.old }
        ensures sound { IsSoundTree self.new }
        ensures ok { OnOk result (rows_in self.new
            ≡ put prefix_cmp prefix entry (rows_in self.old)) }
        ensures err { OnErr result (rows_in self.new ≡ rows_in self.old) }
        ensures full { OnErr result (row_of prefix_cmp prefix (rows_in self.old) ≡ None) }
        ensures pruned { OnErr result
            (IsPruned (cells_of self.new) (prefix.addr * 4) prefix.len) }
    {
        let word = word_of(prefix.len(), entry);
        self.set(path_of(prefix.addr()), u32::from(prefix.len()), word)
    }

    /// The bytes that the arrays and the blocks take, with the room for more.
    pub fn bytes(&self) -> usize
        requires { IsSoundTree self.now }
        ensures { result ≡ 2 ^ depth_of self.now.first * 16 + 4 * capacity self.now.pool }
    {
        (16 << (4 + 5 * self.first)) + self.pool.bytes()
    }

    /// Of the rows whose prefix covers the address, the one with the longest prefix.
    pub fn lookup(&self, addr: u32) -> Option<(Prefix, Entry)>
        requires { IsSoundTree self.now }
        ensures { result ≡ longest_match addr (rows_in self.now) }
    {
        self.answer(addr, self.longest(path_of(addr)))
    }

    /// The answer for an address, by the word of the longest row of its path.
    pub(crate) fn answer(&self, addr: u32, word: u32) -> Option<(Prefix, Entry)>
        requires sound { IsSoundTree self.now }
        requires longest { GreatestBelow (word_at (cells_of self.now) (addr * 4)) 33 (found word) }
        ensures { result ≡ longest_match addr (rows_in self.now) }
    {
        if word == NOTHING {
            return None;
        }
        Some((Prefix::covering(addr, len_of(word) as u8), entry_of(word)))
    }

    fn stand_on(&self, path: u64, level: u32) -> Option<Stand>
        requires sound { IsSoundTree self.now }
        requires fits { path < 2 ^ 34 }
        requires low { self.now.first ≤ level }
        requires deep { level ≤ 5 }
        ensures { MatchOption result
            (block_at (cells_of self.now) path (level - self.now.first) ≡ 0)
            (λ stand. IsStand (cells_of self.now) path (level - self.now.first) stand) }
    {
        let index = (path >> (30 - 5 * self.first)) as u32;
        let mut stand = Stand {
            holder: 0,
            index,
            block: self.top(path).block,
        };
        for d in self.first..level {
            if stand.block == 0 {
                return None;
            }
            let five = five_bits(path, d);
            stand = Stand {
                holder: stand.block,
                index: five,
                block: kid_of(&self.pool, stand.block, five),
            };
        }
        if stand.block == 0 {
            return None;
        }
        Some(stand)
    }

    /// Takes the place of a block out of the array.
    fn forget_top(&mut self, index: u32)
        requires { index < vec_len self.old.tops }
        ensures name { WritesName (cells_of self.old) (cells_of self.new) 0 index 0 }
        ensures first { self.new.first ≡ self.old.first }
        ensures shorts { vec_len self.new.shorts ≡ vec_len self.old.shorts }
        ensures tops { vec_len self.new.tops ≡ vec_len self.old.tops }
    {
        self.tops[index as usize].block = 0;
    }

    /// Takes the place of a path's block at a level, which has no row and no kid, out of where its name
    /// stands. If that is another block, that one may move.
    fn unname(&mut self, path: u64, level: u32, stand: Stand)
        requires sound { IsSoundTree self.old }
        requires fits { path < 2 ^ 34 }
        requires low { self.old.first ≤ level }
        requires deep { level ≤ 5 }
        requires stand { IsStand (cells_of self.old) path (level - self.old.first) stand }
        requires no_rows { row_map (words_in_block (blocks self.old.pool stand.block)) ≡ 0 }
        requires no_kids { kid_map (words_in_block (blocks self.old.pool stand.block)) ≡ 0 }
        ensures lost { LosesBlock (cells_of self.old) (cells_of self.new) stand.block }
        ensures first { self.new.first ≡ self.old.first }
        ensures shorts { vec_len self.new.shorts ≡ vec_len self.old.shorts }
        ensures tops { vec_len self.new.tops ≡ vec_len self.old.tops }
    {
        if stand.holder == 0 {
            self.forget_top(stand.index);
            return;
        }
        let Some(above) = self.stand_on(path, level - 1) else {
            return;
        };
        let place = without_kid(&mut self.pool, above.block, stand.index);
        self.rename(above.holder, above.index, place);
    }

    /// Gives the block of a path at a level back, where it has no row and no kid, and says whether there is
    /// none now.
    fn drop_block(&mut self, path: u64, level: u32) -> bool
        requires sound { IsSoundTree self.old }
        requires fits { path < 2 ^ 34 }
        requires low { self.old.first ≤ level }
        requires deep { level ≤ 5 }
        ensures sound { IsSoundTree self.new }
        ensures first { self.new.first ≡ self.old.first }
        ensures same { (q : ℕ) → (m : ℕ)
            → word_at (cells_of self.new) q m ≡ word_at (cells_of self.old) q m }
        ensures dropped { result ≡ true
            → block_at (cells_of self.new) path (level - self.new.first) ≡ 0 }
        ensures kept { result ≡ false → ((steps : ℕ)
            → block_at (cells_of self.new) path steps ≡ block_at (cells_of self.old) path steps)
            × (block_at (cells_of self.new) path (level - self.new.first) ≢ 0)
            × HasUse (cells_of self.new) path level }
    {
        let Some(stand) = self.stand_on(path, level) else {
            return true;
        };
        if rows_of(&self.pool, stand.block) != 0 || kids_of(&self.pool, stand.block) != 0 {
            return false;
        }
        self.unname(path, level, stand);
        self.pool.give(stand.block, 4);
        true
    }

    /// Gives back the blocks of a path that have no row and no kid, from a level up.
    fn prune(&mut self, path: u64, level: u32)
        requires sound { IsSoundTree self.old }
        requires fits { path < 2 ^ 34 }
        requires low { self.old.first ≤ level }
        requires deep { level ≤ 5 }
        ensures sound { IsSoundTree self.new }
        ensures first { self.new.first ≡ self.old.first }
        ensures same { (q : ℕ) → (m : ℕ)
            → word_at (cells_of self.new) q m ≡ word_at (cells_of self.old) q m }
        ensures pruned { (d : ℕ) → self.new.first ≤ d → d ≤ level
            → HasUse (cells_of self.new) path d }
    {
        let first = self.first;
        for up in 0..level + 1 - first {
            if !self.drop_block(path, level - up) {
                return;
            }
        }
    }

    /// Takes the row of a path's first `len` bits out, which ends in a block, and says whether there was
    /// one.
    fn remove_long(&mut self, path: u64, len: u32) -> bool
        requires sound { IsSoundTree self.old }
        requires fits { path < 2 ^ 34 }
        requires long { depth_of self.old.first < len }
        requires short { len ≤ 32 }
        ensures sound { IsSoundTree self.new }
        ensures first { self.new.first ≡ self.old.first }
        ensures gone { SetsWord (word_at (cells_of self.old)) (word_at (cells_of self.new)) path len None }
        ensures found { result ≡ is_some (word_at (cells_of self.old) path len) }
        ensures pruned { result ≡ true → IsPruned (cells_of self.new) path len }
    {
        let level = (len - 5) / 5;
        let Some(stand) = self.stand_on(path, level) else {
            return false;
        };
        let bit = row_bit(five_bits(path, level), (len - 5) % 5);
        if !is_set(rows_of(&self.pool, stand.block), bit) {
            return false;
        }
        let place = without_row(&mut self.pool, stand.block, bit);
        self.rename(stand.holder, stand.index, place);
        self.prune(path, level);
        true
    }

    /// The word of the longest row of a path with fewer than `len` bits, which are no more than the array
    /// goes by, or that for no row.
    fn longest_short(&self, path: u64, len: u32) -> u32
        requires sound { IsSoundTree self.now }
        requires fits { path < 2 ^ 34 }
        requires short { len ≤ depth_of self.now.first }
        ensures { GreatestBelow (word_at (cells_of self.now) path) len (found result) }
    {
        let mut best = NOTHING;
        for above in 0..len {
            let word = self.shorts[(1 << above) + (path >> (34 - above)) as usize];
            if word != NOTHING {
                best = word;
            }
        }
        best
    }

    /// Takes the row of a path's first `len` bits out, which are no more than the array goes by, and says
    /// whether there was one.
    fn remove_short(&mut self, path: u64, len: u32) -> bool
        requires sound { IsSoundTree self.old }
        requires fits { path < 2 ^ 34 }
        requires short { len ≤ depth_of self.old.first }
        ensures sound { IsSoundTree self.new }
        ensures first { self.new.first ≡ self.old.first }
        ensures gone { SetsWord (word_at (cells_of self.old)) (word_at (cells_of self.new)) path len None }
        ensures found { result ≡ is_some (word_at (cells_of self.old) path len) }
    {
        let start = (path >> (34 - len)) as usize;
        let number = (1 << len) + start;
        if self.shorts[number] == NOTHING {
            return false;
        }
        let next = self.longest_short(path, len);
        let host = 4 + 5 * self.first - len;
        self.shorts[number] = NOTHING;
        put_next(
            &mut self.tops,
            start << host,
            (start + 1) << host,
            len,
            next,
        );
        true
    }

    /// Takes the row of a path's first `len` bits out, and says whether there was one.
    fn remove(&mut self, path: u64, len: u32) -> bool
        requires sound { IsSoundTree self.old }
        requires fits { path < 2 ^ 34 }
        requires short { len ≤ 32 }
        ensures sound { IsSoundTree self.new }
        ensures gone { SetsWord (word_at (cells_of self.old)) (word_at (cells_of self.new)) path len None }
        ensures found { result ≡ is_some (word_at (cells_of self.old) path len) }
        ensures pruned { result ≡ true → IsPruned (cells_of self.new) path len }
    {
        if len <= 4 + 5 * self.first {
            return self.remove_short(path, len);
        }
        self.remove_long(path, len)
    }

    /// Takes the row of a prefix out, and says whether there was one. It needs no memory: what only
    /// that row needed is given back.
    pub fn remove_row(&mut self, prefix: Prefix) -> bool
        requires { IsSoundTree self.old }
        ensures sound { IsSoundTree self.new }
        ensures rows { rows_in self.new ≡ without_row prefix (rows_in self.old) }
        ensures found { result ≡ is_some (row_of prefix_cmp prefix (rows_in self.old)) }
        ensures pruned { result ≡ true
            → IsPruned (cells_of self.new) (prefix.addr * 4) prefix.len }
    {
        self.remove(path_of(prefix.addr()), u32::from(prefix.len()))
    }
}

/// Puts a word in place of those of no longer rows, in a range of the array.
fn put_longest<A: Allocator>(tops: &mut Vec<Top, A>, from: usize, to: usize, len: u32, word: u32)
    requires ordered { from ≤ to }
    requires within { to ≤ vec_len tops.old }
    ensures inside { (x : ℕ) → from ≤ x → x < to
        → top_at tops.new.items x ≡ record (top_at tops.old.items x) {
          best =
              cond (nat_le (len_of (top_at tops.old.items x).best) len) word (top_at tops.old.items x).best;
        } }
    ensures below { (x : ℕ) → x < from → top_at tops.new.items x ≡ top_at tops.old.items x }
    ensures above { (x : ℕ) → from ≤ x → to ≤ x → top_at tops.new.items x ≡ top_at tops.old.items x }
    ensures len { vec_len tops.new ≡ vec_len tops.old }
{
    for x in from..to {
        if len_of(tops[x].best) <= len {
            tops[x].best = word;
        }
    }
}

/// Puts a word in place of those of rows of a length, in a range of the array.
fn put_next<A: Allocator>(tops: &mut Vec<Top, A>, from: usize, to: usize, len: u32, word: u32)
    requires ordered { from ≤ to }
    requires within { to ≤ vec_len tops.old }
    ensures inside { (x : ℕ) → from ≤ x → x < to
        → top_at tops.new.items x ≡ record (top_at tops.old.items x) {
          best =
              cond (len_of (top_at tops.old.items x).best == len) word (top_at tops.old.items x).best;
        } }
    ensures below { (x : ℕ) → x < from → top_at tops.new.items x ≡ top_at tops.old.items x }
    ensures above { (x : ℕ) → from ≤ x → to ≤ x → top_at tops.new.items x ≡ top_at tops.old.items x }
    ensures len { vec_len tops.new ≡ vec_len tops.old }
{
    for x in from..to {
        if len_of(tops[x].best) == len {
            tops[x].best = word;
        }
    }
}
