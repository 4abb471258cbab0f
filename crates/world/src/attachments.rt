//! What a router is attached to, and what it has yet to be told of that.

ghost use Rattle.std.specs.Prelude.{◌≡◌, [], length, slice_get, IfOk, OnOk, OnErr};
ghost use Rattle.std.specs.FinMap.{find as row_of};
ghost use Rattle.ipv4_prefix.specs.Prefix.{prefix_cmp};
ghost use Rattle.network_model.specs.World.{rows_of};
ghost use Rattle.network_model.specs.Step as steps;
ghost use Rattle.world.specs.Parts.{attachments_of};

use network_model::{Cost, NoMemory, Notice, Prefix, SmallAllocator};
use route_table::PrefixMap;
use std::alloc::Global;
use std::collections::VecDeque;
use std::marker::Model;

/// The cost of each attachment of a router, and the notices of them that the router has yet to take,
/// put at the back and taken at the front.
#[derive(Drop)]
pub struct Attachments<A: SmallAllocator = Global> {
    costs: PrefixMap<Cost, A>,
    notices: VecDeque<Notice, A>,
}

impl<A: SmallAllocator> Model for Attachments<A> {
    ghost use Rattle.network_model.specs.World.{Attachments as WorldAttachments};
    ghost use Rattle.route_table.specs.PrefixMap.{map_rows};
    ghost use Rattle.world.specs.Parts.{attachments_of};

    ghost Value = { WorldAttachments };

    ghost view = { λ a. attachments_of (map_rows a.costs) a.notices.items };
}

impl<A: SmallAllocator> Attachments<A> {
    /// A router that is attached to these prefixes at these costs, and knows it.
    pub fn new(alloc: A, own: &[(Prefix, Cost)]) -> Result<Attachments<A>, NoMemory>
        ensures { IfOk result (λ a. a ≡ attachments_of (rows_of own.now) []) }
    {
        let mut costs = PrefixMap::new(alloc);
        costs.reserve(own.len())?;
        for i in (0..own.len()).rev() {
            let attachment = own[i];
            costs.put(attachment.0, attachment.1);
        }
        Ok(Attachments {
            costs,
            notices: VecDeque::new(alloc),
        })
    }

    /// Equal attachments, with the notices of them, in memory of this allocator.
    pub fn copy(&self, alloc: A) -> Result<Attachments<A>, NoMemory>
        ensures { IfOk result (λ a. a ≡ self.now) }
    {
        let costs = self.costs.copy(alloc, self.costs.len())?;
        let notices = self.notices.iter().copied().collect(alloc)?;
        Ok(Attachments { costs, notices })
    }

    /// The cost of the attachment to the prefix, where there is one.
    pub fn cost(&self, prefix: Prefix) -> Option<Cost>
        ensures { result ≡ row_of prefix_cmp prefix (self.now).costs }
    {
        self.costs.get(prefix)
    }

    /// How many notices the router has yet to take.
    pub fn notices(&self) -> usize
        ensures { result ≡ length (self.now).notices }
    {
        self.notices.len()
    }

    /// The notice that the router takes after `place` others; none where fewer wait.
    pub fn notice(&self, place: usize) -> Option<Notice>
        ensures { result ≡ slice_get (self.now).notices place }
    {
        self.notices.get(place).copied()
    }

    /// The notice that the router takes next.
    pub fn front(&self) -> Option<Notice>
        ensures { result ≡ slice_get (self.now).notices 0 }
    {
        self.notices.front().copied()
    }

    /// The router is attached to the prefix at this cost, and has yet to be told.
    pub fn attach(&mut self, prefix: Prefix, cost: Cost) -> Result<(), NoMemory>
        ensures ok { OnOk result (self.new ≡ steps.with_attachment prefix cost self.old) }
        ensures err { OnErr result (self.new ≡ self.old) }
    {
        self.costs.reserve(1)?;
        self.notices.push_back(Notice {
            prefix,
            cost: Some(cost),
        })?;
        self.costs.put(prefix, cost);
        Ok(())
    }

    /// The router is no longer attached to the prefix, and has yet to be told.
    pub fn detach(&mut self, prefix: Prefix) -> Result<(), NoMemory>
        ensures ok { OnOk result (self.new ≡ steps.without_attachment prefix self.old) }
        ensures err { OnErr result (self.new ≡ self.old) }
    {
        self.notices.push_back(Notice { prefix, cost: None })?;
        self.costs.remove(prefix);
        Ok(())
    }

    /// The router takes the oldest notice, where there is one.
    pub fn take(&mut self)
        ensures { self.new ≡ steps.with_notice_taken self.old }
    {
        let _taken = self.notices.pop_front();
    }
}
