//! Tickets that turns have out.

ghost use Rattle.std.specs.Prelude.{◌≡◌, true, false, OnOk, OnErr};
ghost use Rattle.network_model.specs.declared.step.Refusal.TheVariants.{NoMemory as OutOfMemory};
ghost use Rattle.fabric.specs.Fabric.{is_lent};
ghost use Rattle.guarded.specs.Served.{CanFailOutside, IsTurnRefused};

use crate::name::ControlName;
use network_model::NoMemory;
use publication::{FabricName, Ticket};
use std::marker::{Model, PhantomData};
use std::sync::Wait;

/// A ticket that a turn has out: its writer was in when the control began, and a turn that fails from now
/// on is a turn that was refused. Contracts see it as the ticket.
pub struct Errand<B: FabricName, N: ControlName> {
    ticket: Ticket<B>,
    name: PhantomData<N>,
}

impl<B: FabricName, N: ControlName> Model for Errand<B, N> {
    ghost use Rattle.std.specs.Prelude.{◌≡◌, false};
    ghost use Rattle.publication.specs.Outings.{Outing};
    ghost use Rattle.fabric.specs.Fabric.{is_lent};
    ghost use Rattle.guarded.specs.Served.{CanFailOutside};

    ghost Value = { Outing };

    ghost view = { λ e. e.ticket };

    ghost invariant = { λ e. (is_lent N.opened e.ticket.before.router ≡ false)
        × CanFailOutside N.opened N.asked };
}

impl<B: FabricName, N: ControlName> Errand<B, N> {
    /// An errand of a ticket of a router whose writer was in when the control was made.
    pub fn new(ticket: Ticket<B>) -> Errand<B, N>
        requires was_in { is_lent N.opened ticket.before.router ≡ false }
        requires can_fail { CanFailOutside N.opened N.asked }
        ensures { result ≡ ticket }
    {
        Errand {
            ticket,
            name: PhantomData,
        }
    }

    /// The router whose rows are to be published.
    pub fn router(&self) -> u16
        ensures { result ≡ self.now.before.router }
    {
        self.ticket.router()
    }

    /// Whether the ticket has published.
    pub fn is_published(&self) -> bool
        ensures { result ≡ self.now.is_published }
    {
        self.ticket.is_published()
    }

    /// Publishes as its ticket does. Refused, a turn can be refused so.
    pub fn publish<R: Wait>(&mut self, rt: &R) -> Result<(), NoMemory>
        requires { self.old.is_published ≡ false }
        ensures ok { OnOk result (self.new.is_published ≡ true) }
        ensures err { OnErr result (self.new.is_published ≡ false) }
        ensures before { self.new.before ≡ self.old.before }
        ensures cause { OnErr result (IsTurnRefused N.opened N.asked OutOfMemory) }
    {
        self.ticket.publish(rt)
    }

    /// The ticket.
    pub fn into_ticket(self) -> Ticket<B>
        ensures ticket { result ≡ self }
        ensures was_in { is_lent N.opened self.before.router ≡ false }
        ensures can_fail { CanFailOutside N.opened N.asked }
    {
        let Errand { ticket, name: _ } = self;
        ticket
    }
}
