//! Which routers are cut off from a prefix.

ghost use Rattle.std.specs.Prelude.{ℕ, ◌≡◌, ◌<◌, ◌↔◌, true, false, length, IfOk};
ghost use Rattle.quiet_routes.specs.Routes.{HasBestRow};
ghost use Rattle.reachability.specs.{Ways.IsCutOff, Ways.IsJoined, Marks.is_marked, Marks.size};

use crate::links::mark_reached;
use crate::marks::is_in;
use crate::rows::mark_routed;
use network_model::{NoMemory, Prefix, SmallAllocator};
use std::alloc::Global;
use std::marker::Model;
use world::World;

/// Which routers of a world are cut off from a prefix: links that are up lead from them to a router that is
/// attached to it, and the rows that routers published do not. It is made once for a number of routers.
#[derive(Drop)]
pub struct CutOff<A: SmallAllocator = Global> {
    reached: Vec<bool, A>,
    routed: Vec<bool, A>,
}

impl<A: SmallAllocator> Model for CutOff<A> {
    ghost use Rattle.std.specs.Prelude.{◌≡◌, length};
    ghost use Rattle.reachability.specs.Marks.{Marks};

    ghost Value = { Marks };

    ghost view = { λ c. record { reached = c.reached.items; routed = c.routed.items } };

    ghost invariant = { λ c. length c.routed.items ≡ length c.reached.items };
}

impl<A: SmallAllocator> CutOff<A> {
    /// Room for so many routers, of which none is cut off yet. Refused for want of memory, which it takes by
    /// the number of routers.
    pub fn new(alloc: A, routers: usize) -> Result<CutOff<A>, NoMemory>
        ensures size { IfOk result (λ c. size c ≡ routers) }
        ensures none { IfOk result (λ c. (i : ℕ) → is_marked c i ≡ false) }
    {
        let reached = vec![in alloc; false; routers]?;
        let routed = vec![in alloc; false; routers]?;
        Ok(CutOff { reached, routed })
    }

    /// For how many routers there is room.
    pub fn routers(&self) -> usize
        ensures { result ≡ size self.now }
    {
        self.reached.len()
    }

    /// Finds out which routers of the world are cut off from the prefix. It takes no memory, and time by the
    /// routers and links, times the rounds: one more than a longest chain of rows or links at the most.
    pub fn look(&mut self, world: &World<A>, prefix: Prefix)
        requires size { size self.old ≡ length (world.now).routers }
        requires joined { IsJoined world.now }
        ensures cut_off { (i : ℕ) → (is_marked self.new i ≡ true) ↔ IsCutOff prefix i world.now }
        ensures at_best { ((k : ℕ) → k < length (world.now).routers → HasBestRow world.now prefix k)
            → (i : ℕ) → is_marked self.new i ≡ false }
        ensures size { size self.new ≡ size self.old }
    {
        mark_reached(world, prefix, &mut self.reached);
        mark_routed(world, prefix, &mut self.routed);
    }

    /// Whether the router is cut off in the world from the prefix that were looked at last. None is for which
    /// there is no room, or before a first look.
    pub fn is_cut_off(&self, router: u16) -> bool
        ensures { result ≡ is_marked self.now router }
    {
        is_in(&self.reached, router) && !is_in(&self.routed, router)
    }
}
