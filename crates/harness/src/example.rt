//! What is found of an example.

ghost use Rattle.std.specs.Prelude.{◌≡◌};

use crate::Outcome;

/// What is found of an example.
#[derive(Clone, Copy)]
pub enum Verdict {
    IsAsItShouldBe,
    PrintsSomethingElse,
    IsOtherInAShell,
    IsNotReplayed,
    IsUnread,
}

impl Verdict {
    pub fn text(self) -> &'static str {
        match self {
            Verdict::IsAsItShouldBe => "as it should be",
            Verdict::PrintsSomethingElse => "prints something else",
            Verdict::IsOtherInAShell => "prints something else in a shell",
            Verdict::IsNotReplayed => "is not replayed",
            Verdict::IsUnread => "cannot be read",
        }
    }
}

/// What to say of a run and of a shell that should print this, and of the run's replay.
pub fn judge(ran: &Outcome, shown: &Outcome, wanted: &[u8], replayed: &Outcome) -> Verdict
    ensures right { result ≡ Verdict.IsAsItShouldBe → (ran.now.status ≡ 0)
        × (ran.now.out.items ≡ wanted.now) × (shown.now.status ≡ 0)
        × (shown.now.out.items ≡ wanted.now) × (replayed.now.status ≡ 0) }
{
    if ran.status != 0 || ran.out.as_slice() != wanted {
        return Verdict::PrintsSomethingElse;
    }
    if shown.status != 0 || shown.out.as_slice() != wanted {
        return Verdict::IsOtherInAShell;
    }
    if replayed.status != 0 {
        return Verdict::IsNotReplayed;
    }
    Verdict::IsAsItShouldBe
}
