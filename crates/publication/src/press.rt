//! The two copies, as their writer has them: one that readers take, and one that is hidden.

ghost use Rattle.std.specs.Prelude.{◌≡◌, ◌++◌, ◌∷◌, ◌<◌, [], map, MatchResult, OnErr, OnOk, IfOk, vec_len};
ghost use Rattle.std.specs.Vec.{vec_capacity};
ghost use Rattle.image_patch.specs.Patches.{patched};
ghost use Rattle.publication.specs.Lists.{Covers, bundle_of, followed, image_of, patch_of, with_publication};

use crate::book::{Coming, Head};
use crate::edition::Edition;
use crate::known::Known;
use crate::name::FabricName;
use crate::rule::{Sees, Shown};
use crate::told::Told;
use core::mem::replace_with;
use image_patch::{Apply, Patch};
use left_right::Absorb;
use left_right::writer::Writer;
use network_model::NoMemory;
use std::alloc::Allocator;
use std::sync::Wait;
use tree_bitmap::Image;
use tree_bitmap::parts::{copy, empty};

pub(crate) type Copies<B, A> = Writer<Edition<B, A>, (), Option<Known>, Shown<B>, A>;

/// The copies, and what waits for the next publication.
pub struct Press<B: FabricName, A: Allocator>
where
    Edition<B, A>: Absorb<(), State = ()>,
{
    writer: Copies<B, A>,
    // The patch that the hidden copy is wanting.
    last: Option<Patch<A>>,
    ledger: Head<B>,
    waiting: Vec<Patch<A>, A>,
    ghost image: { writer.desk.shown.value.image
        ≡ image_of B.openings writer.desk.shown.value.told },
    ghost hidden: { followed last writer.desk.spare.value.image ≡ writer.desk.shown.value.image },
    ghost word: { ledger.router ≡ writer.desk.shown.value.told.router },
}

// Two copies of an image, of which no reader has one.
pub(crate) fn two<B: FabricName, A: Allocator + Copy, R: Wait>(
    rt: &R,
    alloc: A,
    image: Image<A>,
    told: &Told<B>,
    readers: u8,
) -> Result<Copies<B, A>, NoMemory>
    requires { image ≡ image_of B.openings told.now }
    ensures shown { IfOk result (λ w. (w.desk.shown.value.image ≡ image)
        × (w.desk.shown.value.told ≡ told.now)) }
    ensures hidden { IfOk result (λ w. w.desk.spare.value.image ≡ image) }
{
    let second = copy(&image, alloc)?;
    let shown = Edition {
        image,
        told: told.again(),
    };
    let hidden = Edition {
        image: empty(alloc)?,
        told: told.again(),
    };
    let made: Result<Copies<B, A>, _> = Writer::new(alloc, shown, hidden, usize::from(readers) + 1);
    let Ok(mut writer) = made else {
        return Err(NoMemory);
    };
    // No clause of `left_right` says what its hidden copy is: it is given its image here.
    let (open, mut spare) = writer.desk.open(rt);
    spare.image = second;
    writer.desk = open.shelve(spare);
    Ok(writer)
}

// The list with one more publication. It waits for ever where the list is longer than this, as no
// writer's own is, or has 2^64 - 1 publications.
fn announce<B: FabricName, A: Allocator, R: Wait>(
    rt: &R,
    told: &Told<B>,
    ledger: &Head<B>,
    coming: &Coming<A>,
) -> Told<B>
    requires { ledger.now.router ≡ told.now.router }
    ensures { result ≡ with_publication told.now
        (bundle_of coming.now.waiting.items coming.now.patch) }
{
    if let Some(longer) = told.add(ledger, coming) {
        return longer;
    }
    for _ in rt.forever() {}
    unreachable!()
}

// Applies to an image the patch that it is wanting, and then another. Refused, it may be wanting none.
fn follow<A: Allocator>(
    image: &mut Image<A>,
    last: Option<Patch<A>>,
    patch: &Patch<A>,
) -> Result<(), Option<Patch<A>>>
    ensures { MatchResult result
        (λ _. image.new ≡ patched patch.now.generation patch.now.rows.items
        (followed last image.old))
        (λ left. followed left image.new ≡ followed last image.old) }
{
    if let Some(missed) = &last
        && image.apply(missed).is_err()
    {
        return Err(last);
    }
    match image.apply(patch) {
        Ok(()) => Ok(()),
        Err(_) => Err(None),
    }
}

// Has the hidden copy follow, and then shows it to readers. The list goes on only where nothing can
// be refused any more.
fn turn<B: FabricName, A: Allocator, R: Wait>(
    press: Press<B, A>,
    work: (&R, Patch<A>),
) -> (Press<B, A>, Result<(), NoMemory>)
    requires room { vec_len press.waiting < vec_capacity press.waiting }
    requires covers { Covers (patch_of work.1) (map patch_of press.waiting.items) }
    ensures { MatchResult result.1
        (λ _. (result.0.writer.desk.shown.value.told
        ≡ with_publication press.writer.desk.shown.value.told
        (bundle_of press.waiting.items work.entry.1))
        × (result.0.waiting.items ≡ []))
        (λ _. (result.0.writer.desk.shown.value.told ≡ press.writer.desk.shown.value.told)
        × (result.0.waiting.items ≡ press.waiting.items ++ work.entry.1 ∷ [])) }
{
    let Press {
        mut writer,
        last,
        ledger,
        mut waiting,
    } = press;
    let (rt, patch) = work;
    let (open, mut spare) = writer.desk.open(rt);
    if let Err(last) = follow(&mut spare.image, last, &patch) {
        writer.desk = open.shelve(spare);
        waiting.push_reserved(patch);
        let press = Press {
            writer,
            last,
            ledger,
            waiting,
        };
        return (press, Err(NoMemory));
    }
    let coming = Coming { waiting, patch };
    spare.told = announce(rt, &open.shown.get().told, &ledger, &coming);
    writer.desk = open.show_as::<Sees<B>>(spare);
    let Coming { mut waiting, patch } = coming;
    waiting.clear();
    let press = Press {
        writer,
        last: Some(patch),
        ledger,
        waiting,
    };
    (press, Ok(()))
}

impl<B: FabricName, A: Allocator> Press<B, A> {
    pub(crate) fn new(writer: Copies<B, A>, ledger: Head<B>, alloc: A) -> Press<B, A>
        requires image { writer.desk.shown.value.image
            ≡ image_of B.openings writer.desk.shown.value.told }
        requires hidden { writer.desk.spare.value.image ≡ writer.desk.shown.value.image }
        requires word { ledger.router ≡ writer.desk.shown.value.told.router }
        ensures writer { result.writer ≡ writer }
        ensures waiting { result.waiting.items ≡ [] }
    {
        Press {
            writer,
            last: None,
            ledger,
            waiting: Vec::new(alloc),
        }
    }

    // What readers take now.
    pub(crate) fn shown(&self) -> Told<B>
        ensures { result ≡ self.now.writer.desk.shown.value.told }
    {
        self.writer.published().told.again()
    }

    // Ends it. It waits for the readers.
    pub(crate) fn close<R: Wait>(self, rt: &R) {
        let Press {
            writer,
            last: _last,
            ledger: _ledger,
            waiting: _waiting,
        } = self;
        writer.take(rt);
    }

    // Makes room for one more patch among those that wait.
    pub(crate) fn reserve(&mut self) -> Result<(), NoMemory>
        ensures shown { self.new.writer.desk.shown.value.told
            ≡ self.old.writer.desk.shown.value.told }
        ensures waiting { self.new.waiting.items ≡ self.old.waiting.items }
        ensures room { OnOk result (vec_len self.new.waiting < vec_capacity self.new.waiting) }
    {
        self.waiting.reserve(1)?;
        Ok(())
    }

    // Shows readers the image with the patch, as one publication with all patches that wait.
    // Refused, the patch waits too.
    pub(crate) fn publish<R: Wait>(&mut self, rt: &R, patch: Patch<A>) -> Result<(), NoMemory>
        requires room { vec_len self.old.waiting < vec_capacity self.old.waiting }
        requires covers { Covers (patch_of patch) (map patch_of self.old.waiting.items) }
        ensures shown { OnOk result (self.new.writer.desk.shown.value.told
            ≡ with_publication self.old.writer.desk.shown.value.told
            (bundle_of self.old.waiting.items patch)) }
        ensures empty { OnOk result (self.new.waiting.items ≡ []) }
        ensures same { OnErr result
            (self.new.writer.desk.shown.value.told ≡ self.old.writer.desk.shown.value.told) }
        ensures waiting { OnErr result (self.new.waiting.items ≡ self.old.waiting.items
            ++ patch ∷ []) }
    {
        replace_with(self, (rt, patch), turn)
    }
}
