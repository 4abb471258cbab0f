//! What a writer publishes next, and the word that counts its publications.

ghost use Rattle.std.specs.Prelude.{◌≡◌};
ghost use Rattle.receipts.specs.Logs.{head_of};
ghost use Rattle.publication.specs.Names.{book_of};

use crate::known::Bundle;
use crate::name::FabricName;
use image_patch::Patch;
use receipts::Element;
use std::alloc::Allocator;
use std::marker::PhantomData;

/// What is to be published: what waits, and then the patch.
pub(crate) struct Coming<A: Allocator> {
    pub waiting: Vec<Patch<A>, A>,
    pub patch: Patch<A>,
}

impl<A: Allocator> Element<Bundle> for Coming<A> {
    ghost use Rattle.publication.specs.Lists.{bundle_of};

    ghost element = { λ coming. bundle_of coming.waiting.items coming.patch };
}

/// The word that counts the publications of a list. The writer has it.
#[derive(Drop)]
pub(crate) struct Head<B: FabricName> {
    pub(crate) router: u16,
    pub(crate) head: receipts::Head<Bundle>,
    pub(crate) of: PhantomData<B>,
    ghost head_is: { head ≡ head_of (book_of B.books router) },
}
