//! What the holders of a control have beside the lock.

ghost use Rattle.std.specs.Prelude.{◌≡◌, ◌↔◌, ◌+◌, ◌*◌, ◌^◌, Some, None, IfSome, IfErr, IsTrue, MatchResult};
ghost use Rattle.network_model.specs.declared.step.Refusal.TheVariants.{WrongTicket as WithWrongTicket};
ghost use Rattle.guarded.specs.Served.{IsTurnRefused};

use crate::name::{ControlName, High, Low, Out};
use network_model::Refusal;
use std::marker::{Model, PhantomData};
use std::sync::ledger::{self, Blank};

/// What a control is made of before it has a name.
#[derive(Drop)]
pub struct Opening {
    pub(crate) high: Blank,
    pub(crate) low: Blank,
    pub(crate) out: Blank,
    pub(crate) shares: u8,
    ghost high_parts: { high.parts ≡ shares },
    ghost low_parts: { low.parts ≡ shares },
    ghost out_parts: { out.parts ≡ shares },
}

impl Opening {
    /// Of so many shares.
    pub fn new(shares: u8) -> Opening
        ensures { result.shares ≡ shares }
    {
        Opening {
            high: Blank::new(u64::from(shares)),
            low: Blank::new(u64::from(shares)),
            out: Blank::new(u64::from(shares)),
            shares,
        }
    }
}

/// Why the last `serve` of a holder ended before the fabric was settled: the refusal of one of
/// its turns, if one was refused. Contracts see it as that.
#[derive(Drop)]
pub struct Halt<N: ControlName> {
    refusal: Option<Refusal>,
    name: PhantomData<N>,
}

impl<N: ControlName> Model for Halt<N> {
    ghost use Rattle.std.specs.Prelude.{Option, IfSome};
    ghost use Rattle.network_model.specs.declared.step.Refusal.{Refusal as StepRefusal};
    ghost use Rattle.guarded.specs.Served.{IsTurnRefused};

    ghost Value = { Option StepRefusal };

    ghost view = { λ h. h.refusal };

    ghost invariant = { λ h. IfSome h.refusal (IsTurnRefused N.opened N.asked) };
}

impl<N: ControlName> Halt<N> {
    /// No turn was refused.
    pub fn none() -> Halt<N>
        ensures { result ≡ None }
    {
        Halt {
            refusal: None,
            name: PhantomData,
        }
    }

    /// A turn was refused, if one was, with this.
    pub fn of(done: Result<(), Refusal>) -> Halt<N>
        requires { IfErr done (IsTurnRefused N.opened N.asked) }
        ensures { MatchResult done (λ _. result ≡ None) (λ e. result ≡ Some e) }
    {
        Halt {
            refusal: done.err(),
            name: PhantomData,
        }
    }

    /// The refusal, if there was one.
    pub fn refusal(&self) -> Option<Refusal>
        ensures same { result ≡ self.now }
        ensures cause { IfSome result (IsTurnRefused N.opened N.asked) }
    {
        self.refusal
    }
}

/// What the steps of one holder come to, and how many writers it has out. One that is dropped is lost: its control can then not be
/// closed.
#[derive(Drop)]
pub struct Share<N: ControlName> {
    pub(crate) number: u8,
    pub(crate) sum: u128,
    pub(crate) halt: Halt<N>,
    pub(crate) high: ledger::Share<High<N>>,
    pub(crate) low: ledger::Share<Low<N>>,
    pub(crate) out: ledger::Share<Out<N>>,
    ghost high_part: { high.parts ≡ 1 },
    ghost low_part: { low.parts ≡ 1 },
    ghost out_part: { out.parts ≡ 1 },
    ghost adds_up: { sum ≡ high.amount * 2 ^ 64 + low.amount },
}

impl<N: ControlName> Share<N> {
    /// The sum of the numbers of its holder's steps; the first share of a control has that of the steps
    /// before it too.
    pub fn sum(&self) -> u128
        ensures { result ≡ self.now.sum }
    {
        self.sum
    }

    /// Its place among the shares of its control, from 0.
    pub fn number(&self) -> u8
        ensures { result ≡ self.now.number }
    {
        self.number
    }

    /// The refusal with which its holder's last serving ended, if it ended with one.
    pub fn halt(&self) -> Option<Refusal>
        ensures same { result ≡ self.now.halt }
        ensures cause { IfSome result (IsTurnRefused N.opened N.asked) }
    {
        self.halt.refusal()
    }

    /// Whether it ended so since a ticket was handed back.
    pub fn has_lost_ticket(&self) -> bool
        ensures lost { IsTrue result ↔ (self.now.halt ≡ Some WithWrongTicket) }
        ensures cause { IsTrue result → IsTurnRefused N.opened N.asked WithWrongTicket }
    {
        self.halt.refusal() == Some(Refusal::WrongTicket)
    }

    /// Notes how a serving of its holder ended.
    pub fn end(&mut self, done: Result<(), Refusal>)
        requires { IfErr done (IsTurnRefused N.opened N.asked) }
        ensures number { (self.new).number ≡ (self.old).number }
        ensures out { (self.new).out ≡ (self.old).out }
        ensures halt { MatchResult done (λ _. (self.new).halt ≡ None)
            (λ e. (self.new).halt ≡ Some e) }
    {
        self.halt = Halt::of(done);
    }

    // A share without a halt.
    pub(crate) fn new(
        number: u8,
        sum: u128,
        high: ledger::Share<High<N>>,
        low: ledger::Share<Low<N>>,
        out: ledger::Share<Out<N>>,
    ) -> Share<N>
        requires parts { (high.parts ≡ 1) × (low.parts ≡ 1) × (out.parts ≡ 1) }
        requires adds_up { sum ≡ high.amount * 2 ^ 64 + low.amount }
        ensures { (result.number ≡ number) × (result.sum ≡ sum) × (result.out ≡ out) }
    {
        Share {
            number,
            sum,
            halt: Halt::none(),
            high,
            low,
            out,
        }
    }
}
