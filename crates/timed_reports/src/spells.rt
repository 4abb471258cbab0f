//! What is recorded of one kind of thing: the spells that ended, and since when others go on.

ghost use Rattle.std.specs.Prelude.{ℕ, ◌≡◌, ◌+◌, ◌<◌, ◌≤◌, ◌++◌, None, Some, IfOk, OnOk, map, option_to_list, slice_get, slice_set, length};
ghost use Rattle.std.specs.Vec.{vec_capacity, vec_len};
ghost use Rattle.timed_reports.specs.Records.{AreInOrder, AreWatched, IsListed, ended_by, seen, watched, watched_at, with_routers};

use network_model::{NoMemory, Prefix, SmallAllocator};

/// A spell that has ended: at which router and for which prefix it was so, and from when until when, in
/// microseconds since the opening. It may have ended at the moment at which it began.
#[derive(Clone, Copy, PartialEq, Eq)]
pub struct Spell {
    pub router: u16,
    pub prefix: Prefix,
    pub from: u64,
    pub to: u64,
}

/// A router and a prefix, and the moment since which it is so, in microseconds since the opening; none if it
/// is not so.
#[derive(Clone, Copy)]
pub struct Watched {
    pub router: u16,
    pub prefix: Prefix,
    pub since: Option<u64>,
}

// Watches the prefix at each of so many routers.
fn watch_prefix<A: SmallAllocator>(
    all: &mut Vec<Watched, A>,
    prefix: Prefix,
    routers: usize,
) -> Result<(), NoMemory>
    requires few { routers ≤ 65536 }
    requires none { (k : ℕ) (c : Watched) → slice_get all.old.items k ≡ Some c → c.since ≡ None }
    ensures each { OnOk result ((i : ℕ) → i < routers → IsListed (watched i prefix None) all.new.items) }
    ensures kept { OnOk result ((c : Watched) → IsListed c all.old.items → IsListed c all.new.items) }
    ensures none { (k : ℕ) (c : Watched) → slice_get all.new.items k ≡ Some c → c.since ≡ None }
    ensures order { OnOk result (map watched_at all.new.items
        ≡ map watched_at all.old.items ++ with_routers routers prefix) }
{
    for place in 0..routers {
        all.push(Watched {
            router: place as u16,
            prefix,
            since: None,
        })?;
    }
    Ok(())
}

// One for each of so many routers and each of these prefixes, in the order of the prefixes. Nothing goes on.
pub fn watch_all<A: SmallAllocator>(
    alloc: A,
    routers: usize,
    prefixes: &[Prefix],
) -> Result<Vec<Watched, A>, NoMemory>
    requires few { routers ≤ 65536 }
    ensures each { IfOk result (λ all. AreWatched routers prefixes.now all.items) }
    ensures none { IfOk result (λ all. (k : ℕ) (c : Watched) → slice_get all.items k ≡ Some c
        → c.since ≡ None) }
    ensures order { IfOk result (λ all. AreInOrder routers prefixes.now all.items) }
{
    let mut all = Vec::new(alloc);
    for prefix in prefixes {
        watch_prefix(&mut all, *prefix, routers)?;
    }
    Ok(all)
}

// What a look makes of one, and the spell that ends by that.
fn see(one: Watched, now: u64, holds: bool) -> (Watched, Option<Spell>)
    ensures written { result.0 ≡ seen now holds one }
    ensures ended { result.1 ≡ ended_by now holds one }
{
    match one.since {
        Some(_) if holds => (one, None),
        Some(from) => (
            Watched { since: None, ..one },
            Some(Spell {
                router: one.router,
                prefix: one.prefix,
                from,
                to: now,
            }),
        ),
        None if holds => (
            Watched {
                since: Some(now),
                ..one
            },
            None,
        ),
        None => (one, None),
    }
}

// Writes what a look at one said. What ends is put into the room that was made for it.
pub fn note<A: SmallAllocator>(
    all: &mut Vec<Watched, A>,
    ended: &mut Vec<Spell, A>,
    place: usize,
    now: u64,
    holds: bool,
)
    requires place { place < length all.old.items }
    requires room { vec_len ended.old < vec_capacity ended.old }
    ensures written { (c : Watched) → slice_get all.old.items place ≡ Some c
        → all.new.items ≡ slice_set all.old.items place (seen now holds c) }
    ensures ended { (c : Watched) → slice_get all.old.items place ≡ Some c
        → ended.new.items ≡ ended.old.items ++ option_to_list (ended_by now holds c) }
    ensures many { length all.new.items ≡ length all.old.items }
    ensures room { vec_len ended.new ≤ vec_len ended.old + 1 }
    ensures capacity { vec_capacity ended.old ≤ vec_capacity ended.new }
{
    let (written, over) = see(all[place], now, holds);
    all[place] = written;
    if let Some(spell) = over {
        ended.push(spell).unwrap();
    }
}
