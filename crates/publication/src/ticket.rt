//! A writer that is out with the patch that it is to publish, and what stays of it.

ghost use Rattle.std.specs.Prelude.{◌≡◌, ◌+◌, ◌++◌, ◌∷◌, ◌↔◌, [], true, false, length, IsTrue, IfOk, OnOk, OnErr};
ghost use Rattle.image_patch.specs.Patches.{patched};
ghost use Rattle.publication.specs.Lists.{Covers, generation_of, image_of, patch_of, with_publication};
ghost use Rattle.publication.specs.Outings.{IsOuting, new_outing};

use crate::edition::Edition;
use crate::name::FabricName;
use crate::told::Told;
use crate::writer::ImageWriter;
use image_patch::Patch;
use left_right::Absorb;
use network_model::NoMemory;
use std::alloc::{Allocator, Global};
use std::marker::Model;
use std::sync::Wait;

/// A writer, and the patch that it is to publish. It is not `Drop`: give the writer back, or end it by
/// `close`. Contracts see what it had published when it went out, the patch, whether it has published
/// that, and what it has published and what waits now.
pub struct Ticket<B: FabricName, A: Allocator = Global>
where
    Edition<B, A>: Absorb<(), State = ()>,
{
    writer: ImageWriter<B, A>,
    before: Told<B>,
    patch: Patch<A>,
    published: bool,
}

impl<B: FabricName, A: Allocator> Model for Ticket<B, A>
where
    Edition<B, A>: Absorb<(), State = ()>,
{
    ghost use Rattle.publication.specs.Lists.{patch_of};
    ghost use Rattle.publication.specs.Outings.{IsOuting, Outing};

    ghost Value = { Outing };

    ghost view = { λ t. record { before = t.before; patch = patch_of t.patch; is_published = t.published; writing = t.writer } };

    ghost invariant = { λ t. IsOuting
        (record { before = t.before; patch = patch_of t.patch; is_published = t.published; writing = t.writer }) };
}

/// What stays of a writer that is out: the list that it had published, and a copy of its ticket's patch.
#[derive(Drop)]
pub struct Stub<B: FabricName, A: Allocator = Global> {
    before: Told<B>,
    patch: Patch<A>,
}

impl<B: FabricName, A: Allocator> Model for Stub<B, A> {
    ghost use Rattle.publication.specs.Lists.{patch_of};
    ghost use Rattle.publication.specs.Outings.{IsNextPatch, Stub as StubState};

    ghost Value = { StubState };

    ghost view = { λ s. record { before = s.before; patch = patch_of s.patch } };

    ghost invariant = { λ s. IsNextPatch s.before (patch_of s.patch) };
}

impl<B: FabricName, A: Allocator> Stub<B, A> {
    /// What will stay of a writer that goes out with such a patch.
    pub fn new(writer: &ImageWriter<B, A>, patch: Patch<A>) -> Stub<B, A>
        requires { patch.generation ≡ generation_of writer.now.published + 1 }
        ensures before { result.before ≡ writer.now.published }
        ensures patch { result.patch ≡ patch_of patch }
    {
        // It counts the publications.
        let _generation = writer.generation();
        Stub {
            before: writer.tell(),
            patch,
        }
    }

    /// What the writer had published when it went out.
    pub fn told(&self) -> Told<B>
        ensures told { result ≡ self.now.before }
        ensures count { length result.publications ≡ generation_of result }
    {
        self.before.again()
    }
}

/// A patch like this one.
pub fn copy_of<A: Allocator + Copy>(patch: &Patch<A>) -> Result<Patch<A>, NoMemory>
    ensures { IfOk result (λ p. patch_of p ≡ patch_of patch.now) }
{
    let alloc = *patch.rows.allocator();
    let rows = Vec::from_slice(alloc, patch.rows.as_slice())?;
    Ok(Patch {
        generation: patch.generation,
        rows,
    })
}

// Whether both set the same rows, and make the same generation.
fn is_patch<A: Allocator>(patch: &Patch<A>, other: &Patch<A>) -> bool
    ensures { IsTrue result ↔ (patch_of patch.now ≡ patch_of other.now) }
{
    patch.generation == other.generation && patch.rows.as_slice() == other.rows.as_slice()
}

impl<B: FabricName, A: Allocator> Ticket<B, A> {
    /// The writer goes out with the patch, which has the next generation and names all that waits.
    pub fn new(writer: ImageWriter<B, A>, patch: Patch<A>) -> Ticket<B, A>
        requires number { patch.generation ≡ generation_of writer.published + 1 }
        requires covers { Covers (patch_of patch) writer.waiting }
        ensures { result ≡ new_outing writer (patch_of patch) }
    {
        // It counts the publications.
        let _generation = writer.generation();
        let before = writer.tell();
        Ticket {
            writer,
            before,
            patch,
            published: false,
        }
    }

    /// The number of the writer's router.
    pub fn router(&self) -> u16
        ensures { result ≡ self.now.before.router }
    {
        self.before.router()
    }

    /// Whether the patch is published.
    pub fn is_published(&self) -> bool
        ensures { result ≡ self.now.is_published }
    {
        self.published
    }

    /// Whether this is what stays of the writer: it is of the same router, and has the same patch. Then
    /// it has the list, too, that the writer had published.
    pub fn is_of(&self, stub: &Stub<B, A>) -> bool
        ensures its { IsTrue result ↔ ((self.now.before.router ≡ stub.now.before.router)
            × (self.now.patch ≡ stub.now.patch)) }
        ensures list { IsTrue result → self.now.before ≡ stub.now.before }
    {
        if self.before.router() != stub.before.router() || !is_patch(&self.patch, &stub.patch) {
            return false;
        }
        self.before.meet(&stub.before);
        true
    }
}

impl<B: FabricName, A: Allocator + Copy> Ticket<B, A> {
    /// Puts the patch in force, and just before it what waits. It waits for readers that still look up in
    /// the copy to be changed. Refused, readers see what they saw, and it may be tried again.
    pub fn publish<R: Wait>(&mut self, rt: &R) -> Result<(), NoMemory>
        requires { self.old.is_published ≡ false }
        ensures ok { OnOk result (self.new.is_published ≡ true) }
        ensures list { OnOk result (self.new.writing.published
            ≡ with_publication self.old.before (self.old.writing.waiting ++ self.old.patch ∷ [])) }
        ensures image { OnOk result (image_of B.openings self.new.writing.published
            ≡ patched self.old.patch.generation self.old.patch.rows
            (image_of B.openings self.old.before)) }
        ensures err { OnErr result (self.new.is_published ≡ false) }
        ensures unseen { OnErr result (self.new.writing.published ≡ self.old.writing.published) }
        ensures before { self.new.before ≡ self.old.before }
        ensures patch { self.new.patch ≡ self.old.patch }
    {
        let patch = copy_of(&self.patch)?;
        self.writer.publish(rt, patch)?;
        self.published = true;
        Ok(())
    }
}

impl<B: FabricName, A: Allocator> Ticket<B, A> {
    /// The writer comes back.
    pub fn into_writer(self) -> ImageWriter<B, A>
        ensures writer { result ≡ self.writing }
        ensures kept { IsOuting self }
    {
        let Ticket {
            writer,
            before: _before,
            patch: _patch,
            published: _,
        } = self;
        writer
    }

    /// Ends the writer. It waits for readers that are looking up; from then on they find no image.
    pub fn close<R: Wait>(self, rt: &R) {
        self.into_writer().close(rt);
    }
}
