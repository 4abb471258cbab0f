//! The rule of the two copies: what each reader saw begins the list that is shown.

use crate::edition::Edition;
use crate::known::Known;
use crate::name::FabricName;
use crossbeam_utils::rule::{Outcome, Protocol};
use std::alloc::Allocator;
use std::marker::PhantomData;

/// The copy that is shown is the image of its list, and a view is the list of a copy that was shown.
pub struct Shown<B: FabricName> {
    of: PhantomData<B>,
}

impl<B: FabricName, A: Allocator> Protocol<Edition<B, A>, Option<Known>> for Shown<B> {
    ghost use Rattle.std.specs.Prelude.{None};
    ghost use Rattle.publication.specs.Views.{Keeps};

    ghost holds = { λ shown views. Keeps B.openings shown.image shown.told views };

    ghost first = { None };
}

/// What was shown before is seen, and what is shown afterwards, which is the image of its list.
pub struct Sees<B: FabricName> {
    of: PhantomData<B>,
}

impl<B: FabricName, A: Allocator> Outcome<Edition<B, A>, Option<Known>> for Sees<B> {
    ghost use Rattle.publication.specs.Views.{Sees};

    ghost then = { λ view before after now. Sees B.openings view before.told after.image after.told now };
}
