//! A pool of cells, in which blocks are taken and given back.

ghost use Rattle.std.specs.Prelude.{◌≡◌, ◌≢◌, ℕ, ◌+◌, ◌-◌, ◌<◌, ◌≤◌, ◌^◌, Some, None, IsOk, IfOk, OnOk, OnErr, is_some, true, vec_len};
ghost use Rattle.node_pool.specs.FreeLists.{IsLinked};

use crate::cells::{Cell, FreeList, fill, next_of, shift};
use network_model::NoMemory;
use std::alloc::{Allocator, Global};
use std::cmp::min;

/// How many cells a pool has at most: as many as there are places in a `u32`.
const MOST_CELLS: usize = 1 << 32;

/// Cells of one kind, in blocks of 1 to 16. A block that was given back is taken again before the
/// pool grows for one of its size, and `give` needs no memory, since the free blocks of each size
/// are linked in their own cells. Places count from 0, and there are at most 2^32: a pool that would
/// have more cells refuses to grow, as the allocator may. `NoMemory` is answered only where there
/// was less room than was asked for.
#[derive(Drop)]
pub struct Pool<T, A: Allocator = Global> {
    cells: Vec<Cell<T>, A>,
    // The free blocks of one cell, of two, and so on.
    free: [FreeList; 16],
    ghost few: { vec_len cells ≤ 2 ^ 32 },
    ghost linked: { ∥ IsLinked cells.items free ∥₁ },
}

impl<T: Copy, A: Allocator> Pool<T, A> {
    ghost use Rattle.node_pool.specs.Pool.{cell, cell_count, room, free_blocks, HasNoCells, KeepsCells};
    ghost use Rattle.node_pool.specs.Pool.{IsNoLarger, IsBehind, IsTaken, IsGrown};
    ghost use Rattle.node_pool.specs.Pool.{IsCellWritten, IsUsedBlock, HasSameCells};
    ghost use Rattle.node_pool.specs.Cell.{IsFilled};

    /// A pool with no cells.
    pub fn new(alloc: A) -> Self
        ensures { HasNoCells result }
    {
        Pool {
            cells: Vec::new(alloc),
            free: [FreeList { first: 0, count: 0 }; 16],
        }
    }

    /// A pool with the same cells and the same free blocks. It takes time and memory by the cells.
    pub fn copy(&self, alloc: A) -> Result<Self, NoMemory>
        ensures { IfOk result (λ pool. HasSameCells self.now pool) }
    {
        Ok(Pool {
            cells: Vec::from_slice(alloc, &self.cells)?,
            free: self.free,
        })
    }

    /// How many cells there are, in use and free.
    pub fn cell_count(&self) -> usize
        ensures { result ≡ cell_count self.now }
    {
        self.cells.len()
    }

    /// How many cells there is memory for: those that there are, and the room for more.
    pub fn capacity(&self) -> usize
        ensures sum { result ≡ cell_count self.now + room self.now }
        ensures few { result ≤ 2 ^ 32 }
    {
        min(self.cells.capacity(), MOST_CELLS)
    }

    /// How many free blocks of a size there are: as many takes of it need no memory.
    pub fn spare(&self, size: usize) -> usize
        requires some { 0 < size }
        requires few { size ≤ 16 }
        ensures { result ≡ free_blocks self.now size }
    {
        self.free[size - 1].count
    }

    /// The value of a cell that is in use.
    pub fn get(&self, place: u32) -> T
        requires { is_some (cell self.now place) ≡ true }
        ensures { cell self.now place ≡ Some result }
    {
        match self.cells[place as usize] {
            Cell::Used(value) => value,
            Cell::Free(_) => unreachable!(),
        }
    }

    /// The place of the cell in use that is `offset` cells after `base`.
    pub fn place(&self, base: u32, offset: u32) -> u32
        requires { is_some (cell self.now (base + offset)) ≡ true }
        ensures { result ≡ base + offset }
    {
        base + offset
    }

    /// Writes a cell that is in use.
    pub fn set(&mut self, place: u32, value: T)
        requires { is_some (cell self.old place) ≡ true }
        ensures written { IsCellWritten (cell self.old) (cell self.new) place value }
        ensures count { cell_count self.new ≡ cell_count self.old }
        ensures room { room self.new ≡ room self.old }
        ensures spare { (size : ℕ) → free_blocks self.new size ≡ free_blocks self.old size }
    {
        self.cells[place as usize] = Cell::Used(value);
    }

    /// Makes room for `count` more cells: after it, takes and growths that together ask for at most
    /// `count` cells succeed.
    pub fn reserve(&mut self, count: usize) -> Result<(), NoMemory>
        ensures same { KeepsCells self.old self.new }
        ensures ok { OnOk result (count ≤ room self.new) }
        ensures full { OnErr result (room self.old < count) }
    {
        if count > MOST_CELLS - self.cells.len() {
            return Err(NoMemory);
        }
        self.cells.reserve(count)?;
        Ok(())
    }

    /// Takes a block of `size` cells, 1 to 16, and writes the value to each. The answer is the
    /// place of the first. Where a block of that size was given back, it is taken again.
    pub fn take(&mut self, size: usize, value: T) -> Result<u32, NoMemory>
        requires some { 0 < size }
        requires few { size ≤ 16 }
        ensures ok { IfOk result (λ base. IsTaken (cell self.old) (cell self.new) base size value) }
        ensures err { OnErr result (KeepsCells self.old self.new) }

        // A free block of the size is taken, where there is one; else there are more cells.
        ensures again { 0 < free_blocks self.old size → IsOk result × IsNoLarger self.old self.new }
        ensures more { free_blocks self.old size ≡ 0
            → IfOk result (λ base. IsBehind self.old self.new base size) }
        ensures fewer { OnOk result (free_blocks self.new size ≡ free_blocks self.old size - 1) }
        ensures others { (s : ℕ) → 0 < s → s ≢ size → free_blocks self.new s ≡ free_blocks self.old s }

        ensures room { room self.old ≤ room self.new + size }
        ensures full { OnErr result (room self.old < size) }
    {
        let list = self.free[size - 1];
        if list.count > 0 {
            let base = list.first as usize;
            let first = next_of(self.cells[base]);
            fill(self.cells.as_mut_slice(), base, size, Cell::Used(value));
            self.free[size - 1] = FreeList {
                first,
                count: list.count - 1,
            };
            return Ok(list.first);
        }
        let len = self.cells.len();
        if size > MOST_CELLS - len {
            return Err(NoMemory);
        }
        self.cells.resize(len + size, Cell::Used(value))?;
        Ok(len as u32)
    }

    /// Gives back a block of `size` cells in use, 1 to 16.
    pub fn give(&mut self, base: u32, size: usize)
        requires some { 0 < size }
        requires few { size ≤ 16 }
        requires used { IsUsedBlock (cell self.old) base size }
        ensures freed { IsFilled (cell self.old) (cell self.new) base size None }
        ensures count { cell_count self.new ≡ cell_count self.old }
        ensures room { room self.new ≡ room self.old }
        ensures one_more { free_blocks self.new size ≡ free_blocks self.old size + 1 }
        ensures others { (s : ℕ) → 0 < s → s ≢ size → free_blocks self.new s ≡ free_blocks self.old s }
    {
        let list = self.free[size - 1];
        let link = Cell::Free(list.first);
        fill(self.cells.as_mut_slice(), base as usize, size, link);
        self.free[size - 1] = FreeList {
            first: base,
            count: list.count + 1,
        };
    }

    /// Moves a block of `size` cells in use to one a cell larger, with a value at the offset `gap`,
    /// and gives the old block back. A block of no cells may have any base.
    pub fn grow(&mut self, base: u32, size: usize, gap: usize, value: T) -> Result<u32, NoMemory>
        requires gap_in { gap ≤ size }
        requires few { size ≤ 15 }
        requires used { IsUsedBlock (cell self.old) base size }
        ensures ok { IfOk result
            (λ to. IsGrown (cell self.old) (cell self.new) base size gap value to) }
        ensures err { OnErr result (KeepsCells self.old self.new) }

        // As a take of the larger block, and then the old one is free.
        ensures again { 0 < free_blocks self.old (size + 1) → IsOk result × IsNoLarger self.old self.new }
        ensures more { free_blocks self.old (size + 1) ≡ 0
            → IfOk result (λ to. IsBehind self.old self.new to (size + 1)) }
        ensures fewer { OnOk result (free_blocks self.new (size + 1) ≡ free_blocks self.old (size + 1) - 1) }
        ensures one_more { OnOk result (0 < size → free_blocks self.new size ≡ free_blocks self.old size + 1) }
        ensures others { (s : ℕ) → 0 < s → s ≢ size → s ≢ size + 1
            → free_blocks self.new s ≡ free_blocks self.old s }

        ensures room { room self.old ≤ room self.new + (size + 1) }
        ensures full { OnErr result (room self.old < size + 1) }
    {
        let to = self.take(size + 1, value)?;
        if size > 0 {
            shift(
                self.cells.as_mut_slice(),
                base as usize,
                size,
                gap,
                to as usize,
                value,
            );
            self.give(base, size);
        }
        Ok(to)
    }
}
