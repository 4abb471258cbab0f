//! A map from prefixes, in their order.

ghost use Rattle.std.specs.Prelude.{◌≡◌, ◌≤◌, ◌+◌, max, [], length, drop, IsTrue, IfOk, OnOk, OnErr};
ghost use Rattle.std.specs.FinMap.{find as value_at, put, is_sorted};
ghost use Rattle.ipv4_prefix.specs.Prefix.{prefix_cmp};
ghost use Rattle.route_table.specs.Place.{IsPlace, without};

use network_model::Prefix;
use std::alloc::{AllocError, Allocator, Global};

/// A map from prefixes to small values: one vector, in the order of the prefixes. A look-up takes
/// time by the logarithm of the length.
#[derive(Drop)]
pub struct PrefixMap<X, A: Allocator = Global> {
    entries: Vec<(Prefix, X), A>,
    ghost sorted: { IsTrue (is_sorted prefix_cmp entries.items) },
}

impl<X: Copy, A: Allocator> PrefixMap<X, A> {
    ghost use Rattle.route_table.specs.PrefixMap.{map_rows, map_capacity};

    /// No rows, and no memory taken.
    pub fn new(alloc: A) -> Self
        ensures rows { map_rows result ≡ [] }
        ensures capacity { map_capacity result ≡ 0 }
    {
        PrefixMap {
            entries: Vec::new(alloc),
        }
    }

    /// An equal map in memory of this allocator, with room for this many rows in all: for those that
    /// there are, and perhaps for more.
    pub fn copy(&self, alloc: A, room: usize) -> Result<Self, AllocError>
        requires { length (map_rows self.now) ≤ room }
        ensures rows { IfOk result (λ m. map_rows m ≡ map_rows self.now) }
        ensures capacity { IfOk result (λ m. map_capacity m ≡ room) }
    {
        let mut entries = Vec::with_capacity(alloc, room)?;
        for entry in &self.entries {
            entries.push_reserved(*entry);
        }
        Ok(PrefixMap { entries })
    }

    /// The rows, in the order of their prefixes.
    pub fn as_slice(&self) -> &[(Prefix, X)]
        ensures { result.now ≡ map_rows self.now }
    {
        self.entries.as_slice()
    }

    /// How many rows there are.
    pub fn len(&self) -> usize
        ensures { result ≡ length (map_rows self.now) }
    {
        self.entries.len()
    }

    /// How many rows fit without memory.
    pub fn capacity(&self) -> usize
        ensures { result ≡ map_capacity self.now }
    {
        self.entries.capacity()
    }

    /// What the prefix has, if it is there: a binary search.
    pub fn get(&self, prefix: Prefix) -> Option<X>
        ensures { result ≡ value_at prefix_cmp prefix (map_rows self.now) }
    {
        match self.place(prefix) {
            Ok(place) => Some(self.entries[place].1),
            Err(_) => None,
        }
    }

    // Where the row of the prefix stands, or would go.
    fn place(&self, prefix: Prefix) -> Result<usize, usize>
        ensures { IsPlace prefix (map_rows self.now) result }
    {
        self.entries.binary_search_by_key(&prefix, |entry| entry.0)
    }

    /// Writes the value of a prefix that is there, or of one for which there is room.
    pub fn put(&mut self, prefix: Prefix, value: X)
        requires { length (put prefix_cmp prefix value
            (map_rows self.old)) ≤ map_capacity self.old }
        ensures rows { map_rows self.new ≡ put prefix_cmp prefix value (map_rows self.old) }
        ensures capacity { map_capacity self.new ≡ map_capacity self.old }
    {
        match self.place(prefix) {
            Ok(place) => self.entries[place].1 = value,
            Err(place) => self.entries.insert(place, (prefix, value)).unwrap(),
        }
    }

    /// Takes the prefix out, if it is there. Its place stays reserved.
    pub fn remove(&mut self, prefix: Prefix)
        ensures rows { map_rows self.new ≡ without prefix (map_rows self.old) }
        ensures capacity { map_capacity self.new ≡ map_capacity self.old }
    {
        if let Ok(place) = self.place(prefix) {
            self.entries.remove(place);
        }
    }

    /// Removes this many rows at the front.
    pub fn remove_first(&mut self, count: usize)
        requires { count ≤ length (map_rows self.old) }
        ensures rows { map_rows self.new ≡ drop count (map_rows self.old) }
        ensures capacity { map_capacity self.new ≡ map_capacity self.old }
    {
        self.entries.drain(..count);
    }

    /// Takes all rows out. Their places stay reserved.
    pub fn clear(&mut self)
        ensures rows { map_rows self.new ≡ [] }
        ensures capacity { map_capacity self.new ≡ map_capacity self.old }
    {
        self.entries.clear();
    }

    /// Room for this many more rows, or for more than that.
    pub fn reserve(&mut self, additional: usize) -> Result<(), AllocError>
        ensures rows { map_rows self.new ≡ map_rows self.old }
        ensures ok { OnOk result (length (map_rows self.old) + additional ≤ map_capacity self.new) }
        ensures capacity { map_capacity self.old ≤ map_capacity self.new }
    {
        self.entries.reserve(additional)
    }

    /// Room for this many rows in all, and for no more than that, unless there is more already.
    pub fn reserve_in_all(&mut self, limit: usize) -> Result<(), AllocError>
        ensures rows { map_rows self.new ≡ map_rows self.old }
        ensures ok { OnOk result (map_capacity self.new ≡ max (map_capacity self.old) limit) }
        ensures err { OnErr result (map_capacity self.new ≡ map_capacity self.old) }
    {
        let additional = limit.saturating_sub(self.entries.len());
        self.entries.reserve_exact(additional)
    }
}
