//! What was told of a writer: a beginning of its list.

ghost use Rattle.std.specs.Prelude.{◌≡◌, ◌⊎◌, ◌<◌, ◌↔◌, length, IfSome, IsTrue};
ghost use Rattle.publication.specs.Lists.{Begins, bundle_of, generation_of, with_publication};

use crate::book::{Coming, Head};
use crate::known::Bundle;
use crate::name::FabricName;
use receipts::Receipt;
use std::alloc::Allocator;
use std::marker::{Model, PhantomData};

/// What was told of a writer: the list that it had after some of its publications, which begins all
/// that it publishes later. It takes no memory.
#[derive(Drop)]
pub struct Told<B: FabricName> {
    pub(crate) router: u16,
    pub(crate) generation: u64,
    pub(crate) known: Receipt<Bundle>,
    pub(crate) of: PhantomData<B>,
}

impl<B: FabricName> Model for Told<B> {
    ghost use Rattle.std.specs.Prelude.{◌≡◌, ◌<◌, length};
    ghost use Rattle.network_model.specs.Publication.{published_generation};
    ghost use Rattle.publication.specs.declared.known.Known.{Known};
    ghost use Rattle.publication.specs.Lists.{patches_of};
    ghost use Rattle.publication.specs.Names.{book_of};

    ghost Value = { Known };

    ghost view = { λ t. record { router = t.router; publications = t.known.elements } };

    ghost invariant = { λ t. (t.generation ≡ published_generation 0 (patches_of t.known.elements))
        × (t.known.book ≡ book_of B.books t.router)
        × (t.router < length B.books) };
}

impl<B: FabricName> Told<B> {
    /// The number of the writer's router, which is one of the fabric's.
    pub fn router(&self) -> u16
        ensures router { result ≡ self.now.router }
        ensures known { result < length B.books }
    {
        self.router
    }

    /// The generation of the list: that of its last patch, 0 where it has none.
    pub fn generation(&self) -> u64
        ensures { result ≡ generation_of self.now }
    {
        self.generation
    }

    /// A copy.
    pub fn again(&self) -> Told<B>
        ensures { result ≡ self.now }
    {
        Told {
            router: self.router,
            generation: self.generation,
            known: self.known.again(),
            of: PhantomData,
        }
    }

    /// The longer of two lists of one writer, which the other begins.
    pub(crate) fn longer(&self, other: &Told<B>) -> Told<B>
        requires { other.now.router ≡ self.now.router }
        ensures one { (result ≡ self.now) ⊎ (result ≡ other.now) }
        ensures this { Begins self.now result }
        ensures that { Begins other.now result }
    {
        self.known.meet(&other.known);
        let ours = self.known.count();
        let theirs = other.known.count();
        if ours < theirs {
            other.again()
        } else {
            self.again()
        }
    }

    /// Whether the other is of the same writer and no shorter: just where this begins it.
    pub(crate) fn begins(&self, other: &Told<B>) -> bool
        ensures { IsTrue result ↔ Begins self.now other.now }
    {
        if self.router != other.router {
            return false;
        }
        self.known.begins(&other.known)
    }

    /// Whether both are one list.
    pub(crate) fn is(&self, other: &Told<B>) -> bool
        ensures { IsTrue result ↔ (self.now ≡ other.now) }
    {
        if self.router != other.router || self.known.count() != other.known.count() {
            return false;
        }
        self.meet(other);
        true
    }

    /// It changes nothing. Lists of one writer that have as many publications are one.
    pub(crate) fn meet(&self, other: &Told<B>)
        requires router { self.now.router ≡ other.now.router }
        requires count { length self.now.publications ≡ length other.now.publications }
        ensures { self.now ≡ other.now }
    {
        self.known.meet(&other.known);
    }

    /// The list with one more publication. None where the list is longer than this.
    pub(crate) fn add<A: Allocator>(&self, ledger: &Head<B>, coming: &Coming<A>) -> Option<Told<B>>
        requires { ledger.now.router ≡ self.now.router }
        ensures { IfSome result
            (λ t. t ≡ with_publication self.now
            (bundle_of coming.now.waiting.items coming.now.patch)) }
    {
        let known = self.known.add(&ledger.head, coming)?;
        Some(Told {
            router: self.router,
            generation: coming.patch.generation,
            known,
            of: PhantomData,
        })
    }
}
