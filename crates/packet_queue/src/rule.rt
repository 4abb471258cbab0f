//! The rule of the queue: what was put is what was taken and what it holds.

use crate::message::Taken;
use crossbeam_channel::protocol::{Join, Lesson, Outcome, Protocol, Split};
use publication::FabricName;
use std::collections::LinkedList;

/// What a pass has put and taken, and its parts of the right to know the whole. No value of it is
/// made.
pub struct Hand<B: FabricName> {
    pub parts: u64,
    pub put: LinkedList<Taken<B>>,
    pub taken: LinkedList<Taken<B>>,
}

/// The rule.
pub struct Fair;

impl<B: FabricName> Protocol<Taken<B>, Hand<B>> for Fair {
    ghost use Rattle.std.specs.Prelude.{[]};
    ghost use Rattle.packet_queue.specs.Hands.{hand, Balanced};

    ghost holds = { Balanced };

    ghost first = { hand 256 [] [] };
}

/// Cuts one part off.
pub struct Cut;

impl<B: FabricName> Split<Hand<B>> for Cut {
    ghost use Rattle.std.specs.Prelude.{[], ◌-◌};
    ghost use Rattle.packet_queue.specs.Hands.{hand};

    ghost left = { λ v. hand (v.parts - 1) v.put v.taken };

    ghost right = { λ v. hand 1 [] [] };
}

impl<B: FabricName> Join<Hand<B>> for Cut {
    ghost use Rattle.std.specs.Prelude.{[], ◌+◌, ◌++◌};
    ghost use Rattle.packet_queue.specs.Hands.{hand};

    ghost both = { λ v w. hand (v.parts + w.parts) (v.put ++ w.put) (v.taken ++ w.taken) };

    ghost spent = { hand 0 [] [] };
}

/// A message was put.
pub struct Puts;

impl<B: FabricName> Outcome<Taken<B>, Hand<B>> for Puts {
    ghost use Rattle.std.specs.Prelude.{◌≡◌, [], ◌∷◌, ◌++◌};
    ghost use Rattle.packet_queue.specs.Hands.{hand};

    ghost then = { λ v x w. w ≡ hand v.parts (v.put ++ x ∷ []) v.taken };
}

impl<B: FabricName> Lesson<Taken<B>, Hand<B>> for Puts {
    ghost use Rattle.std.specs.Prelude.{⊤};

    ghost fact = { λ v items. ⊤ };
}

/// A message was taken.
pub struct Takes;

impl<B: FabricName> Outcome<Taken<B>, Hand<B>> for Takes {
    ghost use Rattle.std.specs.Prelude.{◌≡◌, [], ◌∷◌, ◌++◌};
    ghost use Rattle.packet_queue.specs.Hands.{hand};

    ghost then = { λ v x w. w ≡ hand v.parts v.put (v.taken ++ x ∷ []) };
}

impl<B: FabricName> Lesson<Taken<B>, Hand<B>> for Takes {
    ghost use Rattle.std.specs.Prelude.{⊤};

    ghost fact = { λ v items. ⊤ };
}

/// What the queue holds is what was put and not taken.
pub struct Total;

impl<B: FabricName> Lesson<Taken<B>, Hand<B>> for Total {
    ghost use Rattle.packet_queue.specs.Hands.{AreLeft};

    ghost fact = { λ v items. AreLeft v.put v.taken items };
}
