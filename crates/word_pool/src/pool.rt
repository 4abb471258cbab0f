//! A pool of words, in which blocks are taken and given back.

ghost use Rattle.std.specs.Prelude.{◌≡◌, ◌≢◌, ℕ, ◌+◌, ◌*◌, ◌/◌, ◌%◌, ◌<◌, ◌≤◌, ◌^◌, ◌↔◌, IsTrue, IfOk, OnOk, OnErr, IsOk, vec_len, vec_capacity, length};
ghost use Rattle.word_pool.specs.Heap.{is_size, size_of, word_of, HasOnlyZeros, IsAllocated, IsFreed, IsWordWritten, IsShortened, IsSplit};
ghost use Rattle.word_pool.specs.Layout.{entry, noted, free_size, IsLaid};

use crate::known::{again, first_block, first_group, note, one_fewer, one_more};
use boxcar::tag::Tag;
use network_model::NoMemory;
use std::alloc::{Allocator, Global};
use std::cmp::min;
use std::fmt;

/// How many words a pool has at most: as many as there are places in a `u32`.
const MOST_WORDS: usize = 1 << 32;

/// How many words are added at a time: as many as the largest block has.
const GROUP: usize = 128;

/// Words in blocks of 4, 8, 16, 32, 64 or 128. The place of its first word names a block. At 0 there is
/// always a block of four zeros, which is never taken, given back or written. So its place can stand for
/// no block, and can be read. The free blocks of each size are linked by their first words, so `give` and
/// `halve` need no memory. A pool refuses to have more than 2^32 words, and the allocator may refuse
/// before. `NoMemory` is answered only when there was less room than was asked for.
#[derive(Drop)]
pub struct Pool<A: Allocator = Global> {
    words: Vec<u32, A>,
    // The first free block of each size; 0 where there is none.
    free: [u32; 6],
    // Which blocks are in use, and how many each list has: for contracts and proofs alone.
    used: Tag,
    spare: Tag,
    ghost few: { vec_len words ≤ 2 ^ 32 },
    ghost groups: { vec_len words % 128 ≡ 0 },
    ghost lists: { length spare.numbers ≡ 6 },
    ghost laid: { ∥ IsLaid (entry words.items) (vec_len words) (entry free) (entry spare.numbers)
        (noted used.numbers) ∥₁ },
}

impl<A: Allocator> fmt::Debug for Pool<A> {
    fn fmt<W: fmt::Write>(&self, f: &mut fmt::Formatter<W>) -> fmt::Result {
        f.debug_struct("Pool")
            .field("words", &self.words.len())
            .field("free", &self.free)
            .finish()
    }
}

impl<A: Allocator> Pool<A> {
    ghost use Rattle.word_pool.specs.Pool.{blocks, spare, free_words, list_of_size, word_count, capacity, groups_left};
    ghost use Rattle.word_pool.specs.Pool.{HasSpare, AddsNoWord, SameSpare, KeepsBlocks, HasSameBlocks};

    /// A pool with no block in use but the one at 0. It has 128 words.
    pub fn new(alloc: A) -> Result<Self, NoMemory>
        ensures empty { IfOk result (λ pool. HasOnlyZeros (blocks pool)) }
        ensures free { IfOk result (λ pool. 4 + free_words pool ≡ word_count pool) }
    {
        let mut words = Vec::new(alloc);
        words.resize(GROUP, 0)?;
        Ok(Pool {
            words,
            free: [4, 8, 16, 32, 64, 0],
            used: first_block(),
            spare: first_group(),
        })
    }

    /// A pool with the same blocks. It takes time and memory by the words.
    pub fn copy(&self, alloc: A) -> Result<Self, NoMemory>
        ensures { IfOk result (λ pool. HasSameBlocks self.now pool) }
    {
        Ok(Pool {
            words: Vec::from_slice(alloc, &self.words)?,
            free: self.free,
            used: again(&self.used),
            spare: again(&self.spare),
        })
    }

    /// How many words there are, in blocks in use and free.
    pub fn word_count(&self) -> usize
        ensures { result ≡ word_count self.now }
    {
        self.words.len()
    }

    /// How many words there is memory for: those that there are, and the room for more.
    pub fn capacity(&self) -> usize
        ensures { result ≡ capacity self.now }
    {
        min(self.words.capacity(), MOST_WORDS)
    }

    /// How many bytes these words take: 4 for each that there is memory for.
    pub fn bytes(&self) -> usize
        ensures { result ≡ 4 * capacity self.now }
    {
        4 * self.capacity()
    }

    /// Whether a block of a size is free.
    pub fn has_free(&self, size: usize) -> bool
        requires { IsTrue (is_size size) }
        ensures { IsTrue result ↔ (0 < spare self.now size) }
    {
        self.free[Self::list_of(size)] != 0
    }

    /// A word of a block in use.
    pub fn word(&self, block: u32, i: usize) -> u32
        requires { i < size_of (blocks self.now block) }
        ensures { result ≡ word_of (blocks self.now block) i }
    {
        self.words[block as usize + i]
    }

    /// Writes a word of a block in use.
    #[tactic(auto, unfolding(crate::specs::Pool::spare))]
    pub fn set_word(&mut self, block: u32, i: usize, word: u32)
        requires not_zero { block ≢ 0 }
        requires inside { i < size_of (blocks self.old block) }
        ensures written { IsWordWritten (blocks self.old) (blocks self.new) block i word }
        ensures no_larger { AddsNoWord self.old self.new }
        ensures free { (s : ℕ) → spare self.new s ≡ spare self.old s }
    {
        self.words[block as usize + i] = word;
    }

    /// Takes a block of a size. Nothing says which words it has. If a free block has the size or more,
    /// no word is added: a larger one is halved until it fits. Else the pool grows by 128 words.
    pub fn take(&mut self, size: usize) -> Result<u32, NoMemory>
        requires { IsTrue (is_size size) }
        ensures ok { IfOk result (λ block. IsAllocated (blocks self.old) (blocks self.new) block size) }
        ensures err { OnErr result (KeepsBlocks self.old self.new) }
        ensures again { HasSpare self.old size → IsOk result × AddsNoWord self.old self.new }

        // The words that were free, and those that were added, are in the block or free.
        ensures words { OnOk result (size + free_words self.new + word_count self.old
            ≡ free_words self.old + word_count self.new) }

        // Where 128 words more can be added without memory, a take succeeds.
        ensures full { OnErr result (groups_left self.old ≡ 0) }
    {
        let list = Self::list_of(size);
        if self.free[list] != 0 {
            return Ok(self.pop(list, size));
        }
        if size == GROUP {
            return self.grow();
        }
        let block = self.take(2 * size)?;
        self.halve(block, 2 * size);
        Ok(block)
    }

    /// Gives back a block in use, of a size. It needs no memory. Free blocks are never joined.
    pub fn give(&mut self, block: u32, size: usize)
        requires not_zero { block ≢ 0 }
        requires one_of_six { IsTrue (is_size size) }
        requires used { size_of (blocks self.old block) ≡ size }
        ensures given { IsFreed (blocks self.old) (blocks self.new) block }
        ensures no_larger { AddsNoWord self.old self.new }
        ensures one_more { spare self.new size ≡ spare self.old size + 1 }
        ensures others { SameSpare self.old self.new size }
        ensures words { free_words self.new ≡ free_words self.old + size }
    {
        let list = Self::list_of(size);
        self.words[block as usize] = self.free[list];
        self.free[list] = block;
        self.used = note(&self.used, block, 0);
        self.spare = one_more(&self.spare, list);
    }

    /// Gives back the upper half of a block in use, of a size. It needs no memory.
    pub fn halve(&mut self, block: u32, size: usize)
        requires not_zero { block ≢ 0 }
        requires one_of_six { IsTrue (is_size size) }
        requires large { 4 < size }
        requires used { size_of (blocks self.old block) ≡ size }
        ensures shortened { IsShortened (blocks self.old) (blocks self.new) block (size / 2) }
        ensures no_larger { AddsNoWord self.old self.new }
        ensures one_more { spare self.new (size / 2) ≡ spare self.old (size / 2) + 1 }
        ensures others { SameSpare self.old self.new (size / 2) }
        ensures words { free_words self.new ≡ free_words self.old + size / 2 }
    {
        let half = size / 2;
        let upper = self.split(block, half);
        self.give(upper, half);
    }

    // The list of the free blocks of a size.
    fn list_of(size: usize) -> usize
        requires { IsTrue (is_size size) }
        ensures few { result < 6 }
        ensures list { result ≡ list_of_size size }
        ensures size { size ≡ free_size result }
    {
        match size {
            4 => 0,
            8 => 1,
            16 => 2,
            32 => 3,
            64 => 4,
            _ => 5,
        }
    }

    // Takes the first free block of a list.
    fn pop(&mut self, list: usize, size: usize) -> u32
        requires one_of_six { IsTrue (is_size size) }
        requires list { list ≡ list_of_size size }
        requires some { entry self.old.free list ≢ 0 }
        ensures taken { IsAllocated (blocks self.old) (blocks self.new) result size }
        ensures no_larger { AddsNoWord self.old self.new }
        ensures words { size + free_words self.new ≡ free_words self.old }
    {
        let block = self.free[list];
        self.free[list] = self.words[block as usize];
        self.used = note(&self.used, block, size);
        self.spare = one_fewer(&self.spare, list);
        block
    }

    // Adds a block of 128 words behind the others. Where there is no room for it, the pool gets more.
    #[tactic(auto, unfolding(crate::specs::Pool::spare))]
    fn grow(&mut self) -> Result<u32, NoMemory>
        ensures ok { IfOk result (λ block. IsAllocated (blocks self.old) (blocks self.new) block 128) }
        ensures err { OnErr result (KeepsBlocks self.old self.new) }
        ensures free { (s : ℕ) → spare self.new s ≡ spare self.old s }
        ensures longer { OnOk result (word_count self.new ≡ word_count self.old + 128) }
        ensures full { OnErr result (groups_left self.old ≡ 0) }
    {
        let len = self.words.len();
        if MOST_WORDS - len < GROUP {
            return Err(NoMemory);
        }
        make_room(&mut self.words)?;
        self.words.resize(len + GROUP, 0)?;
        self.used = note(&self.used, len as u32, GROUP);
        Ok(len as u32)
    }

    // Makes two blocks in use of one. The answer is the place of the upper one.
    #[tactic(auto, unfolding(crate::specs::Pool::spare))]
    fn split(&mut self, block: u32, half: usize) -> u32
        requires not_zero { block ≢ 0 }
        requires some { 0 < half }
        requires used { size_of (blocks self.old block) ≡ half + half }
        ensures place { result ≡ block + half }
        ensures split { IsSplit (blocks self.old) (blocks self.new) block half }
        ensures no_larger { AddsNoWord self.old self.new }
        ensures free { (s : ℕ) → spare self.new s ≡ spare self.old s }
    {
        let upper = block + half as u32;
        self.used = note(&note(&self.used, block, half), upper, half);
        upper
    }
}

/// Makes room for 128 words more. Where there is none, it makes room for an eighth of the words beside
/// them: a pool has little memory that it does not use, and its words are moved about eight times.
fn make_room<A: Allocator>(words: &mut Vec<u32, A>) -> Result<(), NoMemory>
    ensures items { words.new.items ≡ words.old.items }
    ensures len { vec_len words.new ≡ vec_len words.old }
    ensures capacity { vec_capacity words.old ≤ vec_capacity words.new }
    ensures full { OnErr result (vec_capacity words.old < vec_len words.old + 128) }
{
    let len = words.len();
    if words.capacity() - len < GROUP {
        words.reserve_exact(len / 8 + GROUP)?;
    }
    Ok(())
}
