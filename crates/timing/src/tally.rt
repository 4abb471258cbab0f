//! How many spells began in a time, and how long the longest was.

ghost use Rattle.std.specs.Prelude.{◌≡◌};
ghost use Rattle.timing.specs.Tallies.{began_in, none_counted, tally, with_one};

use lines::Tally;
use timed_reports::Spell;

/// A time from a moment on, to another that does not belong to it; without an end if there is no other.
#[derive(Clone, Copy)]
pub struct Span {
    pub from: u64,
    pub until: Option<u64>,
}

/// Whether a spell began in this time.
pub fn began_in(span: Span, spell: &Spell) -> bool
    ensures { result ≡ began_in span spell.now }
{
    if spell.from < span.from {
        return false;
    }
    match span.until {
        Some(until) => spell.from < until,
        None => true,
    }
}

/// The spells that began in this time.
pub fn count_spells(span: Span, spells: &[Spell]) -> Tally
    ensures { result ≡ tally span spells.now none_counted }
{
    let mut tally = Tally {
        count: 0,
        longest: 0,
    };
    for spell in spells {
        tally = with_one(span, spell, tally);
    }
    tally
}

// With a spell, if it began in this time. A list of spells has fewer than can be counted.
fn with_one(span: Span, spell: &Spell, tally: Tally) -> Tally
    ensures { result ≡ with_one span spell.now tally }
{
    if !began_in(span, spell) {
        return tally;
    }
    Tally {
        count: tally.count.saturating_add(1),
        longest: tally.longest.max(spell.to.saturating_sub(spell.from)),
    }
}
