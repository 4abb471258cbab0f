//! The first of the routers that are due.

ghost use Rattle.std.specs.Prelude.{◌≡◌, ◌<◌, ◌≤◌, None, IfNone, IfOk, IfSome, length, replicate, set};
ghost use Rattle.network_model.specs.Network.{most_routers};
ghost use Rattle.minima.specs.Trees.{IsFirstDue, NoneDue};

use crate::due::{Due, pair_of};
use crate::tree::{at, nothing, write};
use network_model::{NoMemory, SmallAllocator};
use std::alloc::Global;
use std::marker::Model;

/// A moment for each router that is due. Contracts see the moments, by the routers' numbers.
#[derive(Drop)]
pub struct Minima<A: SmallAllocator = Global> {
    // How many routers there are.
    count: usize,
    // The tree: the leaf of router i is node count + i.
    nodes: Vec<Option<Due>, A>,
}

impl<A: SmallAllocator> Model for Minima<A> {
    ghost use Rattle.std.specs.Prelude.{ℕ, List, Option};
    ghost use Rattle.minima.specs.Trees.{IsTree, moments_of};

    ghost Value = { List (Option ℕ) };

    ghost view = { λ m. moments_of m.count m.nodes.items };

    ghost invariant = { λ m. IsTree m.count m.nodes.items };
}

impl<A: SmallAllocator> Minima<A> {
    /// None of so many routers is due.
    pub fn new(alloc: A, routers: usize) -> Result<Minima<A>, NoMemory>
        requires { routers ≤ most_routers }
        ensures { IfOk result (λ m. m ≡ replicate routers None) }
    {
        let nodes = nothing(alloc, routers + routers)?;
        Ok(Minima {
            count: routers,
            nodes,
        })
    }

    /// Equal moments, in memory of this allocator.
    pub fn copy(&self, alloc: A) -> Result<Minima<A>, NoMemory>
        ensures { IfOk result (λ m. m ≡ self.now) }
    {
        let nodes = Vec::from_slice(alloc, &self.nodes)?;
        Ok(Minima {
            count: self.count,
            nodes,
        })
    }

    /// The router is due at this moment, or not at all. It takes time by the logarithm of the routers.
    pub fn set(&mut self, router: u16, moment: Option<u64>)
        requires { router < length self.old }
        ensures { self.new ≡ set self.old router moment }
    {
        let due = pair_of(router, moment);
        write(&mut self.nodes, self.count, usize::from(router), due);
    }

    /// The first that is due: nothing is due sooner, and at the same moment no lower router. None only if nothing
    /// is due.
    pub fn first(&self) -> Option<Due>
        ensures some { IfSome result (IsFirstDue self.now) }
        ensures none { IfNone result (NoneDue self.now) }
    {
        at(&self.nodes, 1)
    }
}
