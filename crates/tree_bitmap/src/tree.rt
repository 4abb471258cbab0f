//! The tree of nodes, in a pool.

ghost use Rattle.std.specs.Prelude.{◌≡◌, ℕ, ◌+◌, ◌*◌, ◌^◌, ◌<◌, ◌≤◌, ◌⊎◌, length, Some, None, IfOk, OnOk, OnErr, IsOk, is_some, true};
ghost use Rattle.node_pool.specs.Pool.{cell, cell_count, room};

use crate::node::{BLANK, Node, count, internal_bit, is_set, nibble, rank, with_bit};
use network_model::{Entry, NoMemory, Prefix};
use node_pool::{Cell, NodePool};
use std::alloc::{Allocator, Global};
use std::mem::size_of;

const _: () = prove!(size_of::<Cell<Node>>() == 16);

const _: () = prove!(size_of::<Cell<Entry>>() == 8);

/// Rows by path and length. A path is an address and four zeros after it: 36 bits.
#[derive(Drop)]
pub struct Tree<A: Allocator = Global> {
    pub pool: NodePool<Node, Entry, A>,
}

/// How many nodes were read.
#[derive(Clone, Copy)]
pub struct Visits {
    pub count: u64,
}

impl<A: Allocator + Copy> Tree<A> {
    ghost use Rattle.tree_bitmap.specs.Tree.{rows, tree_rows, IsTreeLaidOut};

    /// A tree with no rows.
    pub fn new(alloc: A) -> Result<Self, NoMemory>
        ensures sound { IfOk result (λ t. IsTreeLaidOut t) }
        ensures empty { IfOk result (λ t. (q : ℕ) → (m : ℕ) → rows t q m ≡ None) }
    {
        let mut pool = NodePool::new(alloc);
        let _root = pool.take_nodes(1, BLANK)?;
        Ok(Tree { pool })
    }

    /// A tree with the same rows, in memory of its own.
    pub fn copy(&self, alloc: A) -> Result<Self, NoMemory>
        requires { IsTreeLaidOut self.now }
        ensures sound { IfOk result (λ tree. IsTreeLaidOut tree) }
        ensures rows { IfOk result (λ tree. tree_rows tree ≡ tree_rows self.now) }
    {
        Ok(Tree {
            pool: self.pool.copy(alloc)?,
        })
    }
}

impl<A: Allocator> Tree<A> {
    ghost use Rattle.tree_bitmap.specs.Tree.{nibble, internal_bit, rows, node_place, IsTreeLaidOut, SetsRow, IsChildCost, blank};
    ghost use Rattle.tree_bitmap.specs.Tree.{tree_rows};
    ghost use Rattle.std.specs.FinMap.{put};
    ghost use Rattle.ipv4_prefix.specs.Prefix.{prefix_cmp};
    ghost use Rattle.network_model.specs.Publication.{with_rows};

    /// The place of the child on a path, which is made where there is none.
    fn child(&mut self, index: u32, path: u64, depth: u32) -> Result<u32, NoMemory>
        requires sound { IsTreeLaidOut self.old }
        requires at { node_place self.old path depth ≡ Some index }
        requires deep { depth < 8 }
        ensures sound { IsTreeLaidOut self.new }
        ensures rows { (q : ℕ) → (m : ℕ) → rows self.new q m ≡ rows self.old q m }
        ensures ok { IfOk result (λ child. node_place self.new path (depth + 1) ≡ Some child) }
        ensures results { room self.new.pool.results ≡ room self.old.pool.results }
        ensures cost { IfOk result (λ child. IsChildCost self.old self.new index child) }
        ensures full { OnErr result (room self.old.pool.nodes < 16) }
        ensures full_blank { OnErr result
            (cell self.old.pool.nodes index ≡ Some blank → room self.old.pool.nodes < 1) }
    {
        let node = self.pool.nodes.get(index);
        let four = nibble(path, depth);
        let below = rank(node.external, four);
        if is_set(node.external, four) {
            return Ok(self.pool.nodes.place(node.child_base, below));
        }
        let external = with_bit(node.external, four);
        let base = self.pool.nodes.grow(
            node.child_base,
            count(node.external),
            below as usize,
            BLANK,
        )?;
        self.pool.nodes.set(
            index,
            Node {
                external,
                child_base: base,
                ..node
            },
        );
        Ok(self.pool.nodes.place(base, below))
    }

    fn set_at(
        &mut self,
        index: u32,
        bit: u32,
        entry: Entry,
        path: u64,
        depth: u32,
        len: u8,
    ) -> Result<(), NoMemory>
        requires sound { IsTreeLaidOut self.old }
        requires at { node_place self.old path depth ≡ Some index }
        requires deep { depth ≤ 8 }
        requires short { len < 4 }
        requires fits { path < 2 ^ 36 }
        requires bit { bit ≡ internal_bit (nibble path depth) len }
        requires small { bit < 15 }
        ensures sound { IsTreeLaidOut self.new }
        ensures ok { OnOk result (SetsRow (rows self.old) (rows self.new) path
            (4 * depth + len) (Some entry)) }
        ensures err { OnErr result ((q : ℕ) → (m : ℕ) → rows self.new q m ≡ rows self.old q m) }
        ensures nodes { room self.new.pool.nodes ≡ room self.old.pool.nodes }
        ensures cost { room self.old.pool.results ≤ room self.new.pool.results + 15 }
        ensures full { OnErr result (room self.old.pool.results < 15) }
    {
        let node = self.pool.nodes.get(index);
        let below = rank(node.internal, bit);
        if is_set(node.internal, bit) {
            let place = self.pool.results.place(node.result_base, below);
            self.pool.results.set(place, entry);
            return Ok(());
        }
        let internal = with_bit(node.internal, bit);
        let base = self.pool.results.grow(
            node.result_base,
            count(node.internal),
            below as usize,
            entry,
        )?;
        self.pool.nodes.set(
            index,
            Node {
                internal,
                result_base: base,
                ..node
            },
        );
        Ok(())
    }

    /// Makes room for setting `count` rows.
    pub fn reserve(&mut self, count: usize) -> Result<(), NoMemory>
        requires sound { IsTreeLaidOut self.old }
        ensures sound { IsTreeLaidOut self.new }
        ensures rows { tree_rows self.new ≡ tree_rows self.old }
        ensures nodes { OnOk result (23 * count ≤ room self.new.pool.nodes) }
        ensures results { OnOk result (15 * count ≤ room self.new.pool.results) }
        ensures full { OnErr result
            ((room self.old.pool.nodes < 23 * count) ⊎ (room self.old.pool.results < 15 * count)) }
    {
        self.pool
            .reserve(count.saturating_mul(23), count.saturating_mul(15))
    }

    /// Sets the row of a path's first `len` bits. It needs no memory where there is room for 23 nodes
    /// and 15 results.
    fn set(&mut self, path: u64, len: u8, entry: Entry) -> Result<(), NoMemory>
        requires sound { IsTreeLaidOut self.old }
        requires fits { path < 2 ^ 36 }
        requires short { len ≤ 32 }
        ensures sound { IsTreeLaidOut self.new }
        ensures ok { OnOk result (SetsRow (rows self.old) (rows self.new) path len
            (Some entry)) }
        ensures err { OnErr result ((q : ℕ) → (m : ℕ) → rows self.new q m ≡ rows self.old q m) }
        ensures nodes_cost { OnOk result
            (room self.old.pool.nodes ≤ room self.new.pool.nodes + 23) }
        ensures results_cost { OnOk result
            (room self.old.pool.results ≤ room self.new.pool.results + 15) }
        ensures full { 23 ≤ room self.old.pool.nodes → 15 ≤ room self.old.pool.results
            → IsOk result }
    {
        let depth = (len / 4) as u32;
        let mut index = 0;
        for d in 0..depth {
            index = self.child(index, path, d)?;
        }
        let rest = len % 4;
        let bit = internal_bit(nibble(path, depth), rest);
        self.set_at(index, bit, entry, path, depth, rest)
    }

    /// Sets the row of a prefix. It needs no memory where there is room for 23 nodes and 15 results.
    pub fn set_row(&mut self, prefix: Prefix, entry: Entry) -> Result<(), NoMemory>
        requires { IsTreeLaidOut self.old }
        ensures sound { IsTreeLaidOut self.new }
        ensures ok { OnOk result (tree_rows self.new
            ≡ put prefix_cmp prefix entry (tree_rows self.old)) }
        ensures err { OnErr result (tree_rows self.new ≡ tree_rows self.old) }
        ensures nodes_cost { OnOk result
            (room self.old.pool.nodes ≤ room self.new.pool.nodes + 23) }
        ensures results_cost { OnOk result
            (room self.old.pool.results ≤ room self.new.pool.results + 15) }
        ensures full { 23 ≤ room self.old.pool.nodes → 15 ≤ room self.old.pool.results
            → IsOk result }
    {
        self.set(path_of(prefix.addr()), prefix.len(), entry)
    }

    /// Sets rows in order. It needs no memory where there is room for 23 nodes and 15 results a row.
    pub fn set_rows(&mut self, rows: &[(Prefix, Entry)]) -> Result<(), NoMemory>
        requires { IsTreeLaidOut self.old }
        ensures sound { IsTreeLaidOut self.new }
        ensures ok { OnOk result (tree_rows self.new ≡ with_rows rows.now (tree_rows self.old)) }
        ensures full { 23 * length rows.now ≤ room self.old.pool.nodes
            → 15 * length rows.now ≤ room self.old.pool.results → IsOk result }
    {
        for &(prefix, entry) in rows {
            self.set_row(prefix, entry)?;
        }
        Ok(())
    }

    /// The bytes that nodes and results take, with the room for more.
    pub fn bytes(&self) -> usize
        ensures { result ≡ 16 * (cell_count self.now.pool.nodes + room self.now.pool.nodes)
            + 8 * (cell_count self.now.pool.results + room self.now.pool.results) }
    {
        16 * self.pool.nodes.capacity() + 8 * self.pool.results.capacity()
    }

    /// Reads a node, and counts it: no look-up reads one in another way.
    pub(crate) fn read(&self, index: u32, visits: &mut Visits) -> Node
        requires used { is_some (cell self.now.pool.nodes index) ≡ true }
        requires fits { visits.old.count + 1 < 2 ^ 64 }
        ensures node { cell self.now.pool.nodes index ≡ Some result }
        ensures count { visits.new.count ≡ visits.old.count + 1 }
    {
        visits.count += 1;
        self.pool.nodes.get(index)
    }
}

/// The path of an address.
pub fn path_of(addr: u32) -> u64
    ensures { result ≡ addr * 16 }
{
    u64::from(addr) * 16
}
