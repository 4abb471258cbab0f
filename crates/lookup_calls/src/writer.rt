//! The writer of an image that others read meanwhile.

ghost use Rattle.std.specs.Prelude.{◌≡◌, ◌⊎◌, ◌<◌, ◌≤◌, ◌∷◌, [], All, IfErr, IfOk, IfSome, IsOkUnless, MatchResult, OnErr, OnOk, Some, length};
ghost use Rattle.lookup_calls.specs.{Faults.IsPatchFault, Histories.with_missed, Histories.last_image};
ghost use Rattle.receipts.specs.Logs.{head_of, with_element};

use crate::board::{Board, clear_side, fill_side, make_places};
use crate::change::Change;
use crate::kept::Kept;
use crate::past::{Head, Past};
use crate::reader::ImageReader;
use crate::shared::Shared;
use c_interface::CallFault;
use core::mem::replace_with;
use receipts::Receipt;
use std::alloc::Global;
use std::marker::Model;
use std::sync::Arc;
use std::sync::atomic::{AtomicU64, Ordering};

/// Publishes images. Contracts see those that it has published.
#[derive(Drop)]
pub struct ImageWriter {
    board: Arc<Board>,
    // The copy that readers take, 0 or 1.
    side: usize,
    shown: Shared,
    // None once a step failed that does not fail.
    hidden: Option<Shared>,
    // What the hidden copy is wanting.
    missed: Option<Change>,
    head: Head,
    past: Past,
}

impl Model for ImageWriter {
    ghost use Rattle.std.specs.Prelude.{◌≡◌, ◌<◌, All, IfSome, Some};
    ghost use Rattle.std.specs.Arc.{arc_value};
    ghost use Rattle.receipts.specs.Logs.{head_of};
    ghost use Rattle.lookup_calls.specs.Histories.{Published, with_missed, last_image};

    ghost Value = { Published };

    ghost view = { λ w. w.past };

    ghost invariant = { λ w. (w.head ≡ head_of w.past.book)
        × All (λ p. p.page.book ≡ w.past.book) (arc_value w.board).places.items
        × (last_image w.past.elements ≡ Some w.shown)
        × (w.side < 2)
        × IfSome w.hidden (λ h. with_missed w.missed h ≡ w.shown) };
}

// Has an image follow, and then changes it. Refused, it may be wanting nothing.
fn follow(
    image: &mut Shared,
    missed: Option<Change>,
    change: &Change,
) -> Result<(), (CallFault, Option<Change>)>
    ensures { MatchResult result
        (λ _. image.new ≡ with_missed (Some change.now) (with_missed missed image.old))
        (λ e. IsPatchFault e.0 × (with_missed e.1 image.new ≡ with_missed missed image.old)) }
{
    if let Some(last) = &missed
        && let Err(fault) = last.make(image)
    {
        return Err((fault, missed));
    }
    match change.make(image) {
        Ok(()) => Ok(()),
        Err(fault) => Err((fault, None)),
    }
}

// Has readers take this image from now on. It gives the images that are published then.
#[tactic(auto, using(crate::proofs::Beginnings::last_more))]
fn show(board: &Board, side: usize, head: &Head, past: &Past, image: &Shared) -> Option<Past>
    requires side { side < 2 }
    requires head { head.now ≡ head_of past.now.book }
    requires places { All (λ p. p.page.book ≡ past.now.book) board.now.places.items }
    ensures { IfSome result (λ p. p ≡ with_element past.now image.now) }
{
    let more = past.add(head, image)?;
    if fill_side(&board.places, side, image, &more).is_err() {
        return None;
    }
    board.shown.store(side as u64, Ordering::SeqCst);
    Some(more)
}

// Has the hidden copy follow and change, and then shows it.
#[tactic(auto, using(crate::proofs::Beginnings::last_more))]
fn turn(writer: ImageWriter, change: Change) -> (ImageWriter, Result<(), CallFault>)
    ensures { MatchResult result.1
        (λ _. IfSome (last_image writer.elements)
        (λ i. result.0 ≡ with_element writer (with_missed (Some change) i)))
        (λ f. IsPatchFault f × (result.0 ≡ writer)) }
{
    let ImageWriter {
        board,
        side,
        shown,
        hidden,
        missed,
        head,
        past,
    } = writer;
    let Some(mut image) = hidden else {
        let writer = ImageWriter {
            board,
            side,
            shown,
            hidden: None,
            missed,
            head,
            past,
        };
        return (writer, Err(CallFault::Shared));
    };
    if !clear_side(&board.places, 1 - side) {
        let writer = ImageWriter {
            board,
            side,
            shown,
            hidden: Some(image),
            missed,
            head,
            past,
        };
        return (writer, Err(CallFault::Shared));
    }
    if let Err((fault, missed)) = follow(&mut image, missed, &change) {
        let writer = ImageWriter {
            board,
            side,
            shown,
            hidden: Some(image),
            missed,
            head,
            past,
        };
        return (writer, Err(fault));
    }
    let Some(more) = show(&board, 1 - side, &head, &past, &image) else {
        let writer = ImageWriter {
            board,
            side,
            shown,
            hidden: None,
            missed: None,
            head,
            past,
        };
        return (writer, Err(CallFault::Shared));
    };
    let writer = ImageWriter {
        board,
        side: 1 - side,
        shown: image,
        hidden: Some(shown),
        missed: Some(change),
        head,
        past: more,
    };
    (writer, Ok(()))
}

impl ImageWriter {
    /// The writer of an image like this one, with room for so many readers.
    #[tactic(auto, using(crate::proofs::Beginnings::last_more))]
    pub fn new(alloc: Global, image: &Kept, readers: usize) -> Result<ImageWriter, CallFault>
        requires { readers ≤ 1024 }
        ensures ok { IfOk result (λ w. w.elements ≡ image.now ∷ []) }
        ensures err { IsOkUnless result CallFault.NoMemory }
    {
        let (head, none): (Head, Past) = Receipt::open();
        let shown = Shared::new(alloc, image.copy(alloc)?)?;
        let hidden = Shared::new(alloc, image.copy(alloc)?)?;
        let places = make_places(alloc, readers, &none)?;
        let board = Arc::new(
            alloc,
            Board {
                shown: AtomicU64::new(0),
                places,
            },
        )?;
        let Some(past) = show(&board, 0, &head, &none, &shown) else {
            return Err(CallFault::NoMemory);
        };
        Ok(ImageWriter {
            board,
            side: 0,
            shown,
            hidden: Some(hidden),
            missed: None,
            head,
            past,
        })
    }

    /// Makes the change, and has readers take the image from now on. Refused, it publishes nothing: while
    /// a reader is still in a look-up that began before the publication before, or for want of memory.
    pub(crate) fn publish(&mut self, change: Change) -> Result<(), CallFault>
        ensures ok { OnOk result (IfSome (last_image self.old.elements)
            (λ i. self.new ≡ with_element self.old (with_missed (Some change) i))) }
        ensures unchanged { OnErr result (self.new ≡ self.old) }
        ensures err { IfErr result IsPatchFault }
    {
        replace_with(self, change, turn)
    }

    /// How many images it has published, the first that it was made of.
    pub fn published(&self) -> u64
        ensures { result ≡ length self.now.elements }
    {
        self.past.count()
    }

    /// A reader. Refused if handles have all.
    pub fn reader(&self) -> Result<ImageReader, CallFault>
        ensures ok { IfOk result (λ r. r ≡ self.now) }
        ensures err { IfErr result (λ f. (f ≡ CallFault.BadCount) ⊎ (f ≡ CallFault.NoMemory)) }
    {
        let board = Arc::try_clone(&self.board)?;
        for index in 0..board.places.len() / 2 {
            let first = 2 * index;
            if board.places[first].take() {
                return Ok(ImageReader::new(board, first, self.past.again()));
            }
        }
        Err(CallFault::BadCount)
    }
}
