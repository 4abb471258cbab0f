//! Which fabric a writer is of, and what it is made of before that has a name.

ghost use Rattle.std.specs.Prelude.{◌≡◌, ◌<◌, length, IfOk, vec_len};
ghost use Rattle.publication.specs.{Lists.no_patches, Names.book_of};

use crate::book::Head;
use crate::known::Bundle;
use crate::told::Told;
use network_model::NoMemory;
use receipts::Receipt;
use std::alloc::Allocator;
use std::marker::{Brand, Model, PhantomData};

/// Which fabric a writer, a reader or a `Told` is of: the books of its writers and the tables that
/// they open with, by their routers' numbers. A generic function has it as a type parameter, and its
/// caller chooses it, once the `Unnamed` parts are made.
pub trait FabricName {
    ghost use Rattle.std.specs.Prelude.{List};
    ghost use Rattle.logbook.specs.Pages.{Book};
    ghost use Rattle.ipv4_prefix.specs.Prefix.{Prefix};
    ghost use Rattle.network_model.specs.declared.route.Entry.{Entry};

    ghost books: { List Book };

    ghost openings: { List (List (Prefix × Entry)) };
}

impl FabricName for Brand {
    ghost use Rattle.std.specs.Prelude.{[]};

    ghost books = { [] };

    ghost openings = { [] };
}

/// What a writer is made of before its fabric has a name. Contracts see it as its book.
#[derive(Drop)]
pub struct Unnamed {
    head: receipts::Head<Bundle>,
    known: Receipt<Bundle>,
}

impl Model for Unnamed {
    ghost use Rattle.std.specs.Prelude.{◌≡◌, []};
    ghost use Rattle.logbook.specs.Pages.{Book};
    ghost use Rattle.receipts.specs.Logs.{head_of};

    ghost Value = { Book };

    ghost view = { λ u. u.known.book };

    ghost invariant = { λ u. (u.head ≡ head_of u.known.book) × (u.known.elements ≡ []) };
}

impl Unnamed {
    /// The part of one writer.
    pub fn new() -> Unnamed {
        let (head, known) = Receipt::open();
        Unnamed { head, known }
    }

    /// The parts of so many writers.
    pub fn many<A: Allocator>(alloc: A, count: usize) -> Result<Vec<Unnamed, A>, NoMemory>
        ensures { IfOk result (λ all. vec_len all ≡ count) }
    {
        let mut all = Vec::with_capacity(alloc, count)?;
        for _ in 0..count {
            all.push_reserved(Unnamed::new());
        }
        Ok(all)
    }

    /// The book's word under a name, and the list with nothing in it.
    pub(crate) fn with_name<B: FabricName>(self, router: u16) -> (Head<B>, Told<B>)
        requires book { self ≡ book_of B.books router }
        requires known { router < length B.books }
        ensures ledger { result.0.router ≡ router }
        ensures told { result.1 ≡ no_patches router }
    {
        let Unnamed { head, known } = self;
        let ledger = Head {
            router,
            head,
            of: PhantomData,
        };
        let told = Told {
            router,
            generation: 0,
            known,
            of: PhantomData,
        };
        (ledger, told)
    }
}
