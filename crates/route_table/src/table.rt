//! The table of one router.

ghost use Rattle.std.specs.Prelude.{◌≡◌, ◌+◌, ◌<◌, ◌≤◌, ◌↔◌, [], length, nat_lt, IsTrue, IsSome, IsNone, IsOk, IfOk, OnOk, OnErr};
ghost use Rattle.std.specs.FinMap.{find as row_of, put, is_sorted};
ghost use Rattle.ipv4_prefix.specs.Prefix.{prefix_cmp};
ghost use Rattle.network_model.specs.{Step.changed_rows, Publication.with_rows};
ghost use Rattle.route_table.specs.{Parts.with_some_published, Parts.without_rows, PrefixMap.map_rows, PrefixMap.map_capacity, Rows.with_change, Rows.with_in_force};

use crate::iter::{ChangedRows, ControlRows, PublishedRows};
use crate::prefix_map::PrefixMap;
use crate::row::Row;
use network_model::{Entry, NoMemory, Prefix};
use std::alloc::{Allocator, Global};
use std::marker::Model;

/// Two maps from prefixes to entries, in the order of the prefixes: the control rows, which the
/// router has chosen, and the published rows, which are in force.
#[derive(Drop)]
pub struct RouteTable<A: Allocator = Global> {
    rows: PrefixMap<Row, A>,
    /// The control rows that differ from the published ones.
    changed: PrefixMap<Entry, A>,
}

impl<A: Allocator> Model for RouteTable<A> {
    ghost use Rattle.std.specs.Prelude.{◌-◌, length};
    ghost use Rattle.route_table.specs.PrefixMap.{map_rows, map_capacity};
    ghost use Rattle.route_table.specs.Rows.{TableAndRoom, table_of, IsTable};

    ghost Value = { TableAndRoom };

    ghost view = { λ t. record {
      table = table_of
          (map_rows t.rows);
      room = map_capacity t.changed - length (map_rows t.rows);
    } };

    ghost invariant = { λ t. IsTable (map_rows t.rows) (map_capacity t.rows) (map_rows t.changed)
        (map_capacity t.changed) };
}

impl<A: Allocator + Copy> RouteTable<A> {
    /// A table without rows.
    pub fn new(alloc: A) -> RouteTable<A>
        ensures { result.table ≡ record { control = []; published = [] } }
    {
        RouteTable {
            rows: PrefixMap::new(alloc),
            changed: PrefixMap::new(alloc),
        }
    }

    /// An equal table in memory of this allocator. It takes time and memory by the rows.
    pub fn copy(&self, alloc: A) -> Result<RouteTable<A>, NoMemory>
        ensures { IfOk result (λ t. t.table ≡ (self.now).table) }
    {
        let room = self.rows.len();
        let rows = self.rows.copy(alloc, room)?;
        let changed = self.changed.copy(alloc, room)?;
        Ok(RouteTable { rows, changed })
    }
}

impl<A: Allocator> RouteTable<A> {
    /// The number of control rows.
    pub fn len(&self) -> usize
        ensures { result ≡ length (self.now).table.control }
    {
        self.rows.len()
    }

    /// Whether there is no control row.
    pub fn is_empty(&self) -> bool
        ensures { IsTrue result ↔ ((self.now).table.control ≡ []) }
    {
        self.len() == 0
    }

    /// The entry that the router chose for the prefix.
    pub fn get(&self, prefix: Prefix) -> Option<Entry>
        ensures { result ≡ row_of prefix_cmp prefix (self.now).table.control }
    {
        Some(self.rows.get(prefix)?.control)
    }

    /// The entry that is in force for the prefix.
    pub fn published(&self, prefix: Prefix) -> Option<Entry>
        ensures { result ≡ row_of prefix_cmp prefix (self.now).table.published }
    {
        self.rows.get(prefix)?.published
    }

    /// The control rows, in the order of their prefixes.
    pub fn rows(&self) -> ControlRows<'_>
        ensures all { result ≡ (self.now).table.control }
        ensures sorted { IsTrue (is_sorted prefix_cmp result) }
    {
        ControlRows::new(self.rows.as_slice())
    }

    /// The published rows, in the order of their prefixes.
    pub fn published_rows(&self) -> PublishedRows<'_>
        ensures all { result ≡ (self.now).table.published }
        ensures sorted { IsTrue (is_sorted prefix_cmp result) }
    {
        PublishedRows::new(self.rows.as_slice())
    }

    /// The control rows that differ from the published ones, in the order of their prefixes. To go
    /// through them takes time by their number, and not by the table's.
    pub fn changed(&self) -> ChangedRows<'_>
        ensures all { result ≡ changed_rows (self.now).table }
        ensures sorted { IsTrue (is_sorted prefix_cmp result) }
        ensures patch { with_rows result (self.now).table.published ≡ (self.now).table.control }
    {
        ChangedRows::new(self.changed.as_slice())
    }

    /// Whether a control row differs from the published ones.
    pub fn is_changed(&self) -> bool
        ensures { result ≡ nat_lt 0 (length (changed_rows (self.now).table)) }
    {
        self.changed.len() > 0
    }

    /// Makes room: after it `set` needs no memory for this many new prefixes, nor does their
    /// publication.
    pub fn reserve(&mut self, additional: usize) -> Result<(), NoMemory>
        ensures ok { OnOk result (additional ≤ (self.new).room) }
        ensures fits { additional ≤ (self.old).room → IsOk result }
        ensures table { (self.new).table ≡ (self.old).table }
        ensures room { (self.old).room ≤ (self.new).room }
        ensures err { OnErr result (self.new ≡ self.old) }
    {
        if additional <= self.room() {
            return Ok(());
        }
        self.rows.reserve(additional)?;
        // Every row could change.
        self.changed.reserve_in_all(self.rows.capacity())?;
        Ok(())
    }

    // How many new prefixes fit without memory.
    fn room(&self) -> usize
        ensures { result ≡ (self.now).room }
    {
        self.changed.capacity() - self.len()
    }

    /// Sets the control row of the prefix. Only a new prefix can need memory.
    pub fn set(&mut self, prefix: Prefix, entry: Entry) -> Result<(), NoMemory>
        ensures control { OnOk result ((self.new).table.control
            ≡ put prefix_cmp prefix entry (self.old).table.control) }
        ensures published { (self.new).table.published ≡ (self.old).table.published }
        ensures known { IsSome (row_of prefix_cmp prefix (self.old).table.control) → IsOk result }
        ensures fits { 0 < (self.old).room → IsOk result }
        ensures room_of_known { IsSome (row_of prefix_cmp prefix (self.old).table.control)
            → (self.old).room ≤ (self.new).room }
        ensures room { (self.old).room ≤ (self.new).room + 1 }
        ensures err { OnErr result (self.new ≡ self.old) }
    {
        match self.rows.get(prefix) {
            Some(row) => self.write(prefix, entry, row.published),
            None => {
                self.reserve(1)?;
                self.write(prefix, entry, None);
            }
        }
        Ok(())
    }

    // Sets the control row of a prefix that is known or for which there is room.
    fn write(&mut self, prefix: Prefix, entry: Entry, published: Option<Entry>)
        requires in_force { published ≡ row_of prefix_cmp prefix (self.old).table.published }
        requires fits { IsNone (row_of prefix_cmp prefix (self.old).table.control)
            → 0 < (self.old).room }
        ensures control { (self.new).table.control
            ≡ put prefix_cmp prefix entry (self.old).table.control }
        ensures published { (self.new).table.published ≡ (self.old).table.published }
        ensures room_of_known { IsSome (row_of prefix_cmp prefix (self.old).table.control)
            → (self.new).room ≡ (self.old).room }
        ensures room { (self.old).room ≤ (self.new).room + 1 }
    {
        let row = Row {
            control: entry,
            published,
        };
        self.rows.put(prefix, row);
        note_change(&mut self.changed, prefix, row);
    }

    /// Publishes: the published rows become the control rows.
    pub fn mark_published(&mut self)
        ensures table { (self.new).table
            ≡ record (self.old).table { published = (self.old).table.control } }
        ensures room { (self.new).room ≡ (self.old).room }
    {
        put_in_force(&mut self.rows, self.changed.as_slice());
        self.changed.clear();
    }

    /// Publishes some: the first `count` of the changed rows are in force from now on, and all of them
    /// where there are no more. It takes no memory, and time by the number of changed rows.
    pub fn mark_some_published(&mut self, count: usize)
        ensures table { (self.new).table ≡ with_some_published count (self.old).table }
        ensures room { (self.new).room ≡ (self.old).room }
    {
        let count = count.min(self.changed.len());
        put_in_force(&mut self.rows, &self.changed.as_slice()[..count]);
        self.changed.remove_first(count);
    }

    /// Forgets the prefix: the control row and the published one go, where they are there. Their room is
    /// free for another prefix.
    pub fn forget(&mut self, prefix: Prefix)
        ensures table { (self.new).table ≡ without_rows prefix (self.old).table }
        ensures room { (self.old).room ≤ (self.new).room }
    {
        self.rows.remove(prefix);
        self.changed.remove(prefix);
    }
}

// Keeps the control row of the prefix among the changed ones exactly while it differs.
fn note_change<A: Allocator>(changed: &mut PrefixMap<Entry, A>, prefix: Prefix, row: Row)
    requires { length (with_change prefix row (map_rows changed.old)) ≤ map_capacity changed.old }
    ensures rows { map_rows changed.new ≡ with_change prefix row (map_rows changed.old) }
    ensures capacity { map_capacity changed.new ≡ map_capacity changed.old }
{
    if row.differs() {
        changed.put(prefix, row.control);
    } else {
        changed.remove(prefix);
    }
}

// Puts each of these rows, with its entry in force.
fn put_in_force<A: Allocator>(rows: &mut PrefixMap<Row, A>, chosen: &[(Prefix, Entry)])
    requires { length (with_in_force chosen.now (map_rows rows.old)) ≤ map_capacity rows.old }
    ensures rows { map_rows rows.new ≡ with_in_force chosen.now (map_rows rows.old) }
    ensures capacity { map_capacity rows.new ≡ map_capacity rows.old }
{
    for &(prefix, entry) in chosen {
        let row = Row {
            control: entry,
            published: Some(entry),
        };
        rows.put(prefix, row);
    }
}
