//! One of the two copies: an image, and the list that it is the image of.

ghost use Rattle.std.specs.Prelude.{◌≡◌};
ghost use Rattle.network_model.specs.Publication.{answer_of};
ghost use Rattle.publication.specs.Lists.{image_of};

use crate::name::FabricName;
use crate::told::Told;
use left_right::Absorb;
use network_model::Answer;
use std::alloc::{AllocError, Allocator};
use tree_bitmap::Image;

/// An image and a list. In the copy that readers take, it is the image of that list.
#[derive(Drop)]
pub struct Edition<B: FabricName, A: Allocator> {
    pub(crate) image: Image<A>,
    pub(crate) told: Told<B>,
}

impl<B: FabricName, A: Allocator> Edition<B, A> {
    /// What this copy answers for an address, and its list.
    pub(crate) fn answer(&self, addr: u32) -> (Answer, Told<B>)
        requires { self.now.image ≡ image_of B.openings self.now.told }
        ensures answer { result.0 ≡ answer_of (image_of B.openings self.now.told) addr }
        ensures told { result.1 ≡ self.now.told }
    {
        let answer = Answer {
            generation: self.image.generation(),
            matched: self.image.lookup(addr),
        };
        (answer, self.told.again())
    }
}

/// `left_right` keeps no patches: the writer itself has its hidden copy follow, and appends nothing.
impl<B: FabricName, A: Allocator> Absorb<()> for Edition<B, A> {
    type State = ();

    ghost state = { λ _. tt };

    ghost applied = { λ _ _. tt };

    fn absorb_first(&mut self, _operation: &(), _other: &Edition<B, A>) -> Result<(), AllocError> {
        Ok(())
    }
}
