//! What is found of a random scenario.

ghost use Rattle.std.specs.Prelude.{◌≡◌, ◌↔◌, true};

/// Whether a scenario is good whose run and whose replay ended with these statuses, where `straight` says
/// that no packet met a router twice.
pub fn is_good(ran: u8, replayed: u8, straight: bool) -> bool
    ensures { result ≡ true ↔ (ran ≡ 0) × (replayed ≡ 0) × (straight ≡ true) }
{
    ran == 0 && replayed == 0 && straight
}
