//! The rule of a book, and receipts for the beginnings of its list.

ghost use Rattle.std.specs.Prelude.{◌≡◌, ◌≤◌, ◌↔◌, [], IfSome, IsTrue, length};
ghost use Rattle.receipts.specs.Logs.{GrowsTo, head_of, with_element};

use logbook::{Gain, Offer, Plain, Play, Rule, Seen, Start, Word};
use std::marker::Model;

/// The rule of a book: its word counts the elements.
pub struct Law;

impl<E> Rule<E, u64> for Law {
    ghost use Rattle.std.specs.Prelude.{[]};
    ghost use base.Fml.{ftrue};
    ghost use Rattle.receipts.specs.Logs.{IsBookOf};

    ghost holds = { λ cells log. IsBookOf cells log };

    ghost first = { [] };

    ghost hinted = { λ n log. Unit {0} };

    ghost shows = { λ log. [] };

    ghost keeps = { λ names log. ftrue };

    ghost moves = { λ ask before after answer. Unit {0} };
}

/// Callers trade nothing.
pub struct Nothing;

impl<E> Gain<E, u64> for Nothing {
    ghost use base.Fml.{ftrue};

    ghost after = { λ names about answer. ftrue };
}

/// A step that adds an element.
pub struct Add;

impl<E> Play<E, u64> for Add {
    ghost use Rattle.receipts.specs.Logs.{Adds};

    ghost then = { Adds };
}

/// What stands for an element of a list.
pub trait Element<E> {
    ghost element: { Self → E };
}

/// What a step asks for: the element.
impl<E, X: Element<E>> Plain<X, E, u64> for Add {
    ghost use Rattle.std.specs.Prelude.{None};

    ghost ask = { λ x. X.element x };

    ghost state = { λ x. None };
}

/// The word that counts the elements of a list. The writer has it.
pub type Head<E> = Word<E, u64, Law>;

/// What is known of a list: the elements that it had at some moment. It takes no memory.
#[derive(Drop)]
pub struct Receipt<E> {
    count: u64,
    seen: Seen<E, u64, Law>,
}

impl<E> Model for Receipt<E> {
    ghost use Rattle.std.specs.Prelude.{◌≡◌, length};
    ghost use Rattle.receipts.specs.Logs.{Log};

    ghost Value = { Log E };

    ghost view = { λ r. record { book = r.seen.book; elements = r.seen.log } };

    ghost invariant = { λ r. r.count ≡ length r.seen.log };
}

impl<E> Receipt<E> {
    /// A new list, with nothing in it, and its word.
    pub fn open() -> (Head<E>, Receipt<E>)
        ensures head { result.0 ≡ head_of result.1.book }
        ensures empty { result.1.elements ≡ [] }
    {
        let (seen, mut first, _second) = Seen::open(Start::alone(), 0, 0);
        let head = Word::tracked(0, &mut first);
        (head, Receipt { count: 0, seen })
    }

    /// A copy.
    pub fn again(&self) -> Receipt<E>
        ensures { result ≡ self.now }
    {
        Receipt {
            count: self.count,
            seen: self.seen.again(),
        }
    }

    /// How many elements are on the list.
    pub fn count(&self) -> u64
        ensures { result ≡ length self.now.elements }
    {
        self.count
    }

    /// It changes nothing. Of two receipts of one list, the one with no more elements begins the other.
    pub fn meet(&self, other: &Receipt<E>)
        requires { other.now.book ≡ self.now.book }
        ensures this { length self.now.elements ≤ length other.now.elements
            → GrowsTo self.now other.now }
        ensures that { length other.now.elements ≤ length self.now.elements
            → GrowsTo other.now self.now }
        ensures same { length self.now.elements ≡ length other.now.elements
            → self.now ≡ other.now }
    {
        let mut both = self.seen.again();
        both.learn(&other.seen);
    }

    /// Whether the other has no fewer elements: just where this begins it.
    pub fn begins(&self, other: &Receipt<E>) -> bool
        requires { other.now.book ≡ self.now.book }
        ensures { IsTrue result ↔ GrowsTo self.now other.now }
    {
        if self.count > other.count {
            return false;
        }
        let mut both = self.seen.again();
        both.learn(&other.seen);
        true
    }

    /// The list with one element more. None where there are more than these.
    pub fn add<X: Element<E>>(&self, head: &Head<E>, element: &X) -> Option<Receipt<E>>
        requires { head.now ≡ head_of self.now.book }
        ensures { IfSome result (λ r. r ≡ with_element self.now (X.element element.now)) }
    {
        if self.count == u64::MAX {
            return None;
        }
        let mut seen = self.seen.again();
        let mut offer: Offer<E, u64, Law, Nothing> = seen.plain::<Nothing, X, Add>(element);
        let mut pen = seen.no_pen();
        let found = head.compare_exchange::<Add, Nothing>(
            self.count,
            self.count + 1,
            &mut seen,
            &mut offer,
            &mut pen,
        );
        if found != self.count {
            return None;
        }
        Some(Receipt {
            count: self.count + 1,
            seen,
        })
    }
}
