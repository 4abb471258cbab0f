//! The writer of an image.

ghost use Rattle.std.specs.Prelude.{◌≡◌, ◌⊎◌, ◌+◌, ◌++◌, ◌∷◌, ◌≤◌, ◌<◌, [], length, map, All, IfOk, OnOk, OnErr, vec_len};
ghost use Rattle.std.specs.Vec.{vec_capacity};
ghost use Rattle.image_patch.specs.Patches.{patched};
ghost use Rattle.publication.specs.Lists.{Covers, generation_of, image_of, is_named, new_writing, no_patches, opening_of, patch_of, patched_prefixes, with_publication};
ghost use Rattle.publication.specs.{Names.book_of, declared.writer.OpenFault.TheVariants.NoMemory as OutOfMemory, declared.writer.OpenFault.TheVariants.NoReaderPlace as NoPlace};

use crate::edition::Edition;
use crate::known::Known;
use crate::name::{FabricName, Unnamed};
use crate::press::{Press, two};
use crate::reader::ImageReader;
use crate::rule::Shown;
use crate::told::Told;
use faults::FaultKind;
use image_patch::Patch;
use left_right::Absorb;
use left_right::reader::Factory;
use network_model::{NoMemory, Prefix, Refusal};
use std::alloc::{Allocator, Global};
use std::marker::Model;
use std::sync::Wait;
use thiserror::Error;
use tree_bitmap::Image;

/// Why no writer was made. Its text is its number and name.
#[derive(Clone, Copy, Debug, Drop, Error)]
#[error("{}", FaultKind::from(*self))]
pub enum OpenFault {
    /// A growth was refused.
    NoMemory,
    /// `left_right` gave no place for a reader.
    NoReaderPlace,
}

impl From<OpenFault> for FaultKind {
    ghost use Rattle.faults.specs.declared.kind.FaultKind.TheVariants.{NoMemory as MemoryKind, NoReaderPlace as PlaceKind};

    ghost from_gives = { λ fault k. ((fault ≡ OutOfMemory) × (k ≡ MemoryKind))
        ⊎ ((fault ≡ NoPlace) × (k ≡ PlaceKind)) };

    fn from(fault: OpenFault) -> FaultKind {
        FaultKind::from(Refusal::from(fault))
    }
}

impl From<NoMemory> for OpenFault {
    ghost from_gives = { λ _ e. e ≡ OutOfMemory };

    fn from(_error: NoMemory) -> OpenFault {
        OpenFault::NoMemory
    }
}

impl From<OpenFault> for Refusal {
    ghost use Rattle.network_model.specs.declared.step.Refusal.TheVariants.{NoMemory as NoRoom, NoReaderPlace as NoSeat};

    ghost from_gives = { λ fault e. ((fault ≡ OutOfMemory) × (e ≡ NoRoom))
        ⊎ ((fault ≡ NoPlace) × (e ≡ NoSeat)) };

    fn from(fault: OpenFault) -> Refusal {
        match fault {
            OpenFault::NoMemory => Refusal::NoMemory,
            OpenFault::NoReaderPlace => Refusal::NoReaderPlace,
        }
    }
}

/// Publishes patches. It is not `Drop`: end it by `close`. Contracts see the list of its
/// publications, and the patches that wait since one was refused.
pub struct ImageWriter<B: FabricName, A: Allocator = Global>
where
    Edition<B, A>: Absorb<(), State = ()>,
{
    press: Press<B, A>,
    // The prefixes that waiting patches name.
    prefixes: Vec<Prefix, A>,
}

impl<B: FabricName, A: Allocator> Model for ImageWriter<B, A>
where
    Edition<B, A>: Absorb<(), State = ()>,
{
    ghost use Rattle.std.specs.Prelude.{◌≡◌, length, map};
    ghost use Rattle.publication.specs.Lists.{Writing, generation_of, patch_of, patched_prefixes};

    ghost Value = { Writing };

    ghost view = { λ w. record {
      published = w.press.writer.desk.shown.value.told;
      waiting = map patch_of w.press.waiting.items;
    } };

    ghost invariant = { λ w. (w.prefixes.items
        ≡ patched_prefixes (map patch_of w.press.waiting.items))
        × (length w.press.writer.desk.shown.value.told.publications
        ≡ generation_of w.press.writer.desk.shown.value.told) };
}

// Adds the prefixes that a patch names.
fn note_prefixes<A: Allocator>(prefixes: &mut Vec<Prefix, A>, patch: &Patch<A>)
    requires { vec_len prefixes.old + vec_len patch.now.rows ≤ vec_capacity prefixes.old }
    ensures { prefixes.new.items ≡ prefixes.old.items ++ map (λ r. r.0) patch.now.rows.items }
{
    for row in patch.rows.as_slice() {
        prefixes.push_reserved(row.0);
    }
}

impl<B: FabricName, A: Allocator> ImageWriter<B, A> {
    /// What was published, for readers to learn.
    pub fn tell(&self) -> Told<B>
        ensures { result ≡ self.now.published }
    {
        self.press.shown()
    }

    /// The generation of the image in force: that of the patch that was published last, or 0. It is
    /// the number of publications.
    pub fn generation(&self) -> u64
        ensures generation { result ≡ generation_of self.now.published }
        ensures count { result ≡ length self.now.published.publications }
    {
        self.press.shown().generation()
    }

    /// Whether a patch that waits names the prefix.
    pub fn waits_for(&self, prefix: Prefix) -> bool
        ensures { result ≡ is_named self.now.waiting prefix }
    {
        self.prefixes.as_slice().contains(&prefix)
    }

    /// The prefixes that waiting patches name.
    pub fn waiting(&self) -> &[Prefix]
        ensures { result.now ≡ patched_prefixes self.now.waiting }
    {
        &self.prefixes
    }

    /// Puts a patch in force, and just before it those that wait, as one publication. The patch has
    /// the next generation, and names each prefix for which `waits_for` is true. It waits for readers
    /// that still look up in the copy to be changed. Refused, it publishes nothing: readers see what
    /// they saw, and the patch may wait for the next call.
    pub fn publish<R: Wait>(&mut self, rt: &R, patch: Patch<A>) -> Result<Told<B>, NoMemory>
        requires number { patch.generation ≡ generation_of self.old.published + 1 }
        requires covers { Covers (patch_of patch) self.old.waiting }
        ensures told { IfOk result (λ t. t ≡ self.new.published) }
        ensures list { OnOk result (self.new.published
            ≡ with_publication self.old.published (self.old.waiting ++ patch_of patch ∷ [])) }
        ensures waiting { OnOk result (self.new.waiting ≡ []) }
        ensures image { OnOk result (image_of B.openings self.new.published
            ≡ patched patch.generation patch.rows.items (image_of B.openings self.old.published)) }
        ensures unseen { OnErr result (self.new.published ≡ self.old.published) }
        ensures refused { OnErr result ((self.new.waiting ≡ self.old.waiting)
            ⊎ (self.new.waiting ≡ self.old.waiting ++ patch_of patch ∷ [])) }
    {
        self.prefixes.reserve(patch.rows.len())?;
        self.press.reserve()?;
        note_prefixes(&mut self.prefixes, &patch);
        self.press.publish(rt, patch)?;
        self.prefixes.clear();
        Ok(self.press.shown())
    }

    /// Ends the writer. It waits for readers that are looking up; from then on they find no image.
    pub fn close<R: Wait>(self, rt: &R) {
        let ImageWriter {
            press,
            prefixes: _prefixes,
        } = self;
        press.close(rt);
    }
}

// So many readers, with nothing published.
fn make_readers<B: FabricName, A: Allocator>(
    alloc: A,
    factory: &Factory<Edition<B, A>, Option<Known>, Shown<B>, A>,
    told: &Told<B>,
    count: u8,
) -> Result<Vec<ImageReader<B, A>, A>, OpenFault>
    ensures { IfOk result (λ readers. (vec_len readers ≡ count)
        × All (λ r. r ≡ told.now) readers.items) }
{
    let mut readers = Vec::new(alloc);
    for _ in 0..count {
        let Ok(reader) = factory.reader() else {
            return Err(OpenFault::NoReaderPlace);
        };
        if readers
            .push(ImageReader::new(reader, told.again()))
            .is_err()
        {
            return Err(OpenFault::NoMemory);
        }
    }
    Ok(readers)
}

/// The writer of a router, whose image in force is the one given, and so many readers of it. The image
/// is the router's opening table, with generation 0.
pub fn open<B: FabricName, A: Allocator + Copy, R: Wait>(
    rt: &R,
    alloc: A,
    unnamed: Unnamed,
    router: u16,
    image: Image<A>,
    readers: u8,
) -> Result<(ImageWriter<B, A>, Vec<ImageReader<B, A>, A>), OpenFault>
    requires name { unnamed ≡ book_of B.books router }
    requires known { router < length B.books }
    requires generation { image.generation ≡ 0 }
    requires rows { image.rows ≡ opening_of B.openings router }
    ensures writer { IfOk result (λ o. o.0 ≡ new_writing router) }
    ensures count { IfOk result (λ o. vec_len o.1 ≡ readers) }
    ensures readers { IfOk result (λ o. All (λ r. r ≡ no_patches router) o.1.items) }
{
    let (ledger, told) = unnamed.with_name::<B>(router);
    let writer = two(rt, alloc, image, &told, readers)?;
    match make_readers(alloc, writer.factory(), &told, readers) {
        Ok(list) => {
            let press = Press::new(writer, ledger, alloc);
            let prefixes = Vec::new(alloc);
            Ok((ImageWriter { press, prefixes }, list))
        }
        Err(fault) => {
            writer.take(rt);
            Err(fault)
        }
    }
}
