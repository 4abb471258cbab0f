//! The place of a router's writer: with the fabric, or out with a ticket.

ghost use Rattle.std.specs.Prelude.{◌≡◌, ◌⊎◌, ◌+◌, ◌++◌, ◌∷◌, ◌↔◌, [], Some, None, is_some, length, map, IfErr, IfOk, IsOk, OnOk, OnErr};
ghost use Rattle.image_patch.specs.Patches.{patched};
ghost use Rattle.publication.specs.Lists.{Covers, generation_of, image_of, patch_of, patched_prefixes, with_publication};
ghost use Rattle.publication.specs.Outings.{IsOuting, new_outing};
ghost use Rattle.fabric.specs.{Desks.all_lent, Desks.desk_in, Desks.desk_out, Fabric.awaits_lent};

use course::Shut;
use network_model::{NoMemory, Prefix, SmallAllocator, Step};
use publication::{FabricName, ImageWriter, Patch, Stub, Ticket, Told, close_all as end_all};
use std::alloc::Global;
use std::marker::Model;
use std::mem::replace;
use std::sync::Wait;

// Where a writer is, or what stays of it while it is out.
enum Place<B: FabricName, A: SmallAllocator> {
    In(ImageWriter<B, A>),
    Out(Stub<B, A>),
}

/// A router's writer, or what is kept of it while it is out with a ticket. It is not `Drop`: end it by
/// `close`.
pub struct Desk<B: FabricName, A: SmallAllocator = Global> {
    place: Place<B, A>,
}

impl<B: FabricName, A: SmallAllocator> Model for Desk<B, A> {
    ghost use Rattle.fabric.specs.Desks.{Desk as DeskState};

    ghost Value = { DeskState };

    ghost use Rattle.fabric.specs.Places.{desk_of};

    ghost view = { λ d. desk_of d.place };

    ghost use Rattle.std.specs.Prelude.{⊤};

    ghost invariant = { λ d. ⊤ };
}

impl<B: FabricName, A: SmallAllocator> Desk<B, A> {
    /// A writer that is in.
    pub fn new(writer: ImageWriter<B, A>) -> Desk<B, A>
        ensures { result ≡ desk_in writer }
    {
        Desk {
            place: Place::In(writer),
        }
    }

    /// What the writer had published when it was here last.
    pub fn told(&self) -> Told<B>
        ensures told { result ≡ self.now.writing.published }
        ensures count { length result.publications ≡ generation_of result }
    {
        match &self.place {
            Place::In(writer) => {
                // It counts the publications.
                let _generation = writer.generation();
                writer.tell()
            }
            Place::Out(stub) => stub.told(),
        }
    }

    /// Whether the writer is out.
    pub fn is_out(&self) -> bool
        ensures { result ≡ is_some self.now.out }
    {
        match &self.place {
            Place::In(_) => false,
            Place::Out(_) => true,
        }
    }

    /// The prefixes that wait with a writer that is in.
    pub fn waiting(&self) -> &[Prefix]
        ensures { self.now.out ≡ None → result.now ≡ patched_prefixes self.now.writing.waiting }
    {
        match &self.place {
            Place::In(writer) => writer.waiting(),
            Place::Out(_) => &[],
        }
    }

    /// The writer, which is in, publishes a patch.
    pub fn publish<R: Wait>(&mut self, rt: &R, patch: Patch<A>) -> Result<(), NoMemory>
        requires here { self.old.out ≡ None }
        requires number { patch.generation ≡ generation_of self.old.writing.published + 1 }
        requires covers { Covers (patch_of patch) self.old.writing.waiting }
        ensures here { self.new.out ≡ None }
        ensures list { OnOk result (self.new.writing.published
            ≡ with_publication self.old.writing.published
            (self.old.writing.waiting ++ patch_of patch ∷ [])) }
        ensures waiting { OnOk result (self.new.writing.waiting ≡ []) }
        ensures image { OnOk result (image_of B.openings self.new.writing.published
            ≡ patched patch.generation patch.rows.items
            (image_of B.openings self.old.writing.published)) }
        ensures unseen { OnErr result (self.new.writing.published ≡ self.old.writing.published) }
        ensures refused { OnErr result ((self.new.writing.waiting ≡ self.old.writing.waiting)
            ⊎ (self.new.writing.waiting ≡ self.old.writing.waiting ++ patch_of patch ∷ [])) }
    {
        match &mut self.place {
            Place::In(writer) => {
                writer.publish(rt, patch)?;
                Ok(())
            }
            Place::Out(_) => unreachable!(),
        }
    }

    /// The writer, which is in, goes out with the patch, of which a copy stays.
    pub fn lend(&mut self, patch: Patch<A>, copy: Patch<A>) -> Ticket<B, A>
        requires here { self.old.out ≡ None }
        requires number { patch.generation ≡ generation_of self.old.writing.published + 1 }
        requires covers { Covers (patch_of patch) self.old.writing.waiting }
        requires copy { patch_of copy ≡ patch_of patch }
        ensures ticket { result ≡ new_outing self.old.writing (patch_of patch) }
        ensures desk { self.new ≡ desk_out self.old.writing.published (patch_of patch) }
    {
        let stub = match &self.place {
            Place::In(writer) => Stub::new(writer, copy),
            Place::Out(_) => unreachable!(),
        };
        match replace(&mut self.place, Place::Out(stub)) {
            Place::In(writer) => Ticket::new(writer, patch),
            Place::Out(_) => unreachable!(),
        }
    }

    /// The writer comes back. Refused, the ticket comes back: the writer is in, or it is out with another
    /// patch.
    pub fn take_back(&mut self, ticket: Ticket<B, A>) -> Result<(), Ticket<B, A>>
        ensures its { IsOk result ↔ ((self.old.out ≡ Some ticket.patch)
            × (self.old.writing.published.router ≡ ticket.before.router)) }
        ensures list { OnOk result (self.old.writing.published ≡ ticket.before) }
        ensures kept { OnOk result (IsOuting ticket) }
        ensures desk { OnOk result (self.new ≡ desk_in ticket.writing) }
        ensures ticket { IfErr result (λ t. t ≡ ticket) }
        ensures same { OnErr result (self.new ≡ self.old) }
    {
        let is_its = match &self.place {
            Place::In(_) => false,
            Place::Out(stub) => ticket.is_of(stub),
        };
        if !is_its {
            return Err(ticket);
        }
        match replace(&mut self.place, Place::In(ticket.into_writer())) {
            Place::In(_writer) => unreachable!(),
            Place::Out(_stub) => Ok(()),
        }
    }

    /// Ends the writer, if it is in. It waits for readers that are looking up.
    pub fn close<R: Wait>(self, rt: &R) {
        let Desk { place } = self;
        match place {
            Place::In(writer) => writer.close(rt),
            Place::Out(_stub) => {}
        }
    }
}

/// The desks of all routers, as what keeps routers from some steps: a delivery or a publication waits until its
/// router's writer is in.
#[derive(Drop)]
pub(crate) struct Seats<'a, B: FabricName, A: SmallAllocator> {
    desks: &'a [Desk<B, A>],
}

impl<'a, B: FabricName, A: SmallAllocator> Model for Seats<'a, B, A> {
    ghost use Rattle.std.specs.Prelude.{List};
    ghost use Rattle.fabric.specs.Desks.{Desk as DeskState};

    ghost Value = { List DeskState };

    ghost view = { λ s. s.desks.now };
}

impl<'a, B: FabricName, A: SmallAllocator> Seats<'a, B, A> {
    ghost use Rattle.std.specs.Prelude.{◌≡◌};

    /// These desks.
    pub(crate) fn new(desks: &'a [Desk<B, A>]) -> Seats<'a, B, A>
        ensures { result ≡ desks.now }
    {
        Seats { desks }
    }
}

impl<'a, B: FabricName, A: SmallAllocator> Shut for Seats<'a, B, A> {
    ghost use Rattle.fabric.specs.Desks.{all_lent};
    ghost use Rattle.fabric.specs.Fabric.{awaits_lent};

    ghost shuts = { λ desks. awaits_lent (all_lent desks) };

    fn is_shut(&self, step: &Step) -> bool {
        awaits_lent(self.desks, step)
    }
}

/// Whether a step has to wait for one of the writers that are out.
pub fn awaits_lent<B: FabricName, A: SmallAllocator>(desks: &[Desk<B, A>], step: &Step) -> bool
    ensures { result ≡ awaits_lent (all_lent desks.now) step.now }
{
    match *step {
        Step::Deliver { router, port: _ } | Step::Publish { router } => {
            match desks.get(usize::from(router)) {
                Some(desk) => desk.is_out(),
                None => false,
            }
        }
        Step::LinkUp { .. }
        | Step::LinkDown { .. }
        | Step::SetCost { .. }
        | Step::Release { .. }
        | Step::Attach { .. }
        | Step::Detach { .. } => false,
    }
}

/// The desks of these writers, each of which is in. Without memory it ends them.
pub fn seat_all<B: FabricName, A: SmallAllocator, R: Wait>(
    rt: &R,
    alloc: A,
    writers: Vec<ImageWriter<B, A>, A>,
) -> Result<Vec<Desk<B, A>, A>, NoMemory>
    ensures { IfOk result (λ desks. desks.items ≡ map desk_in writers.items) }
{
    let Ok(mut desks) = Vec::with_capacity(alloc, writers.len()) else {
        end_all(rt, writers);
        return Err(NoMemory);
    };
    let mut writers = writers.into_iter();
    while let Some(writer) = writers.next() {
        desks.push_reserved(Desk::new(writer));
    }
    writers.destroy_empty();
    Ok(desks)
}

/// Ends writers that are in. It waits for readers that are looking up.
pub fn close_all<B: FabricName, A: SmallAllocator, R: Wait>(rt: &R, desks: Vec<Desk<B, A>, A>) {
    let mut desks = desks;
    while let Some(desk) = desks.pop() {
        desk.close(rt);
    }
    desks.into_iter().destroy_empty();
}
