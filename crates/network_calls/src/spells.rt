//! Spells, as C reads them.

ghost use Rattle.std.specs.Prelude.{◌≡◌, None, drop, false, is_some, true, IfSome};
ghost use Rattle.network_calls.specs.{Shown.AreShownOver, Spells.ended_shown, Spells.going_on, Spells.going_shown};
ghost use Rattle.single_router.specs.States.{flag};

use timed_reports::{Spell, Watched};

/// From when until when something was so at a router for a prefix, in microseconds since the opening. If it goes
/// on, the end is 2^64 - 1, when nothing is done any more.
#[repr(C)]
#[derive(Clone, Copy, Debug, PartialEq, Eq)]
pub struct SpellParts {
    pub from: u64,
    pub to: u64,
    pub addr: u32,
    pub router: u16,
    pub len: u8,
}

impl SpellParts {
    fn ended(spell: Spell) -> SpellParts
        ensures { result ≡ ended_shown spell }
    {
        SpellParts {
            from: spell.from,
            to: spell.to,
            addr: spell.prefix.addr(),
            router: spell.router,
            len: spell.prefix.len(),
        }
    }

    // One that goes on; none if it is not so.
    fn going(watched: Watched) -> Option<SpellParts>
        ensures some { IfSome result (λ s. (is_some watched.since ≡ true)
            × (s ≡ going_shown watched)) }
        ensures none { result ≡ None → is_some watched.since ≡ false }
    {
        let from = watched.since?;
        Some(SpellParts {
            from,
            to: u64::MAX,
            addr: watched.prefix.addr(),
            router: watched.router,
            len: watched.prefix.len(),
        })
    }
}

/// Writes the spells that ended, from this place of their list on, over the first of those that are there, as
/// many as fit: how many these are, and whether there are more.
pub fn write_ended(ended: &[Spell], from: usize, spells: &mut [SpellParts]) -> (usize, bool)
    ensures { AreShownOver ended_shown (drop from ended.now)
        spells.old spells.new result.0 (flag result.1) }
{
    let (_, left) = ended.split_at(from.min(ended.len()));
    for place in 0..spells.len() {
        match left.get(place) {
            Some(spell) => spells[place] = SpellParts::ended(*spell),
            None => return (place, false),
        }
    }
    (spells.len(), spells.len() < left.len())
}

/// Writes what goes on, in the order of the list, in the same way.
pub fn write_going_on(all: &[Watched], spells: &mut [SpellParts]) -> (usize, bool)
    ensures { AreShownOver going_shown (going_on all.now)
        spells.old spells.new result.0 (flag result.1) }
{
    let mut written = 0;
    for place in 0..all.len() {
        if let Some(spell) = SpellParts::going(all[place]) {
            if written >= spells.len() {
                return (written, true);
            }
            spells[written] = spell;
            written += 1;
        }
    }
    (written, false)
}
