//! Reads the canonical decimal text of a number.

ghost use Rattle.std.specs.Prelude.{◌≡◌, ℕ, IfSome, IsTrue, ◌↔◌, Some};
ghost use Rattle.texts.specs.Number.{Spells, SpellsLong, HasCanonicalStart};

/// The number of 32 bits that a text spells in decimal digits, without a sign or a leading zero; None
/// for any other text.
pub fn read_number(text: &str) -> Option<u32>
    ensures read { IfSome result (Spells text.now) }
    ensures every { (n : ℕ) → Spells text.now n → result ≡ Some n }
{
    if !has_canonical_start(text) {
        return None;
    }
    text.parse().ok()
}

/// The number of 64 bits that a text spells so.
pub fn read_long(text: &str) -> Option<u64>
    ensures { IfSome result (SpellsLong text.now) }
{
    if has_canonical_start(text) {
        return text.parse().ok();
    }
    None
}

/// Whether the text has neither a sign nor a leading zero, which `parse` would take.
pub fn has_canonical_start(text: &str) -> bool
    ensures { IsTrue result ↔ HasCanonicalStart text.now }
{
    !text.starts_with('+') && (text.len() == 1 || !text.starts_with('0'))
}
