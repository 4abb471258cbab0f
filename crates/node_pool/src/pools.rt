//! The two pools of a tree: one of nodes, one of results.

ghost use Rattle.std.specs.Prelude.{◌≡◌, ◌<◌, ◌≤◌, ◌⊎◌, IfOk, OnOk, OnErr};

use crate::pool::Pool;
use network_model::NoMemory;
use std::alloc::{Allocator, Global};

/// The most nodes in a block: a node has at most 16 children.
pub const MOST_NODES: usize = 16;

/// The most results in a block: at most 15 prefixes end in a node.
pub const MOST_RESULTS: usize = 15;

/// Cells in use, side by side: the place of the first, and how many there are. Which cells were
/// taken as one block, the caller knows.
#[derive(Clone, Copy)]
pub enum Block {
    Nodes { base: u32, size: usize },
    Results { base: u32, size: usize },
}

/// Memory for a tree: blocks of 1 to 16 nodes and of 1 to 15 results.
#[derive(Drop)]
pub struct NodePool<N, R, A: Allocator = Global> {
    pub nodes: Pool<N, A>,
    pub results: Pool<R, A>,
}

impl<N: Copy, R: Copy, A: Allocator + Copy> NodePool<N, R, A> {
    ghost use Rattle.node_pool.specs.Pool.{HasNoCells, HasSameCells};

    /// Pools with no cells.
    pub fn new(alloc: A) -> Self
        ensures nodes { HasNoCells result.nodes }
        ensures results { HasNoCells result.results }
    {
        NodePool {
            nodes: Pool::new(alloc),
            results: Pool::new(alloc),
        }
    }

    /// Pools with the same cells and the same free blocks.
    pub fn copy(&self, alloc: A) -> Result<Self, NoMemory>
        ensures nodes { IfOk result (λ copy. HasSameCells self.now.nodes copy.nodes) }
        ensures results { IfOk result (λ copy. HasSameCells self.now.results copy.results) }
    {
        Ok(NodePool {
            nodes: self.nodes.copy(alloc)?,
            results: self.results.copy(alloc)?,
        })
    }
}

impl<N: Copy, R: Copy, A: Allocator> NodePool<N, R, A> {
    ghost use Rattle.node_pool.specs.Pool.{room, KeepsCells};
    ghost use Rattle.node_pool.specs.Blocks.{TakesBlock, IsOut, IsGivenBack};

    /// Makes room: after it, takes that together ask for at most `nodes` node cells and `results`
    /// result cells succeed.
    pub fn reserve(&mut self, nodes: usize, results: usize) -> Result<(), NoMemory>
        ensures nodes { KeepsCells self.old.nodes self.new.nodes }
        ensures results { KeepsCells self.old.results self.new.results }
        ensures node_room { OnOk result (nodes ≤ room self.new.nodes) }
        ensures result_room { OnOk result (results ≤ room self.new.results) }
        ensures full { OnErr result
            ((room self.old.nodes < nodes) ⊎ (room self.old.results < results)) }
    {
        self.nodes.reserve(nodes)?;
        self.results.reserve(results)
    }

    /// Takes a block of `size` nodes, 1 to 16, and writes the value to each. The answer is the
    /// place of the first.
    pub fn take_nodes(&mut self, size: usize, node: N) -> Result<u32, NoMemory>
        requires some { 0 < size }
        requires few { size ≤ MOST_NODES }
        ensures nodes { TakesBlock self.old.nodes self.new.nodes size node result }
        ensures results { self.new.results ≡ self.old.results }
    {
        self.nodes.take(size, node)
    }

    /// Takes a block of `size` results, 1 to 15, and writes the value to each. The answer is the
    /// place of the first.
    pub fn take_results(&mut self, size: usize, value: R) -> Result<u32, NoMemory>
        requires some { 0 < size }
        requires few { size ≤ MOST_RESULTS }
        ensures results { TakesBlock self.old.results self.new.results size value result }
        ensures nodes { self.new.nodes ≡ self.old.nodes }
    {
        self.results.take(size, value)
    }

    /// Gives a block back. This needs no memory.
    pub fn give(&mut self, block: Block)
        requires { IsOut self.old block }
        ensures { IsGivenBack self.old self.new block }
    {
        match block {
            Block::Nodes { base, size } => self.nodes.give(base, size),
            Block::Results { base, size } => self.results.give(base, size),
        }
    }
}
