//! What the writer of an image and its readers hand to each other: for each reader a page of each copy.

ghost use Rattle.std.specs.Prelude.{◌≡◌, ◌≤◌, ◌<◌, All, IfOk, IsOkUnless, Some};
ghost use Rattle.lookup_calls.specs.Histories.{last_image};

use crate::past::Past;
use crate::shared::Shared;
use c_interface::CallFault;
use counted_slot::{Counted, FREE, Fits, PRESENT, TAKEN};
use std::alloc::Global;
use std::sync::atomic::{AtomicU64, Ordering};

/// One more holder of a copy, with the images that had been published when it was the last.
#[derive(Drop)]
pub struct Page {
    image: Shared,
    past: Past,
    ghost last: { last_image past.elements ≡ Some image },
}

impl Page {
    /// A page of this image, which is the last of these.
    pub fn new(image: Shared, past: Past) -> Page
        requires { last_image past.elements ≡ Some image }
        ensures { (result.image ≡ image) × (result.past ≡ past) }
    {
        Page { image, past }
    }

    /// The image that the page holds.
    pub fn image(&self) -> &Shared
        ensures { result.now ≡ self.now.image }
    {
        &self.image
    }

    /// The images that were published up to this one.
    pub fn past(&self) -> &Past
        ensures { result.now ≡ self.now.past }
    {
        &self.past
    }
}

impl Fits for Page {
    type Tag = Past;

    ghost use Rattle.std.specs.Prelude.{◌≡◌};

    ghost fits = { λ tag page. page.past.book ≡ tag.book };
}

/// A place for a page: its reader may have that, or its writer, and each tries and never waits. The
/// memory of two readers stands apart, so that neither slows the other down.
#[derive(Drop)]
pub struct Place {
    pub page: Counted<Option<Page>>,
    /// 1 while a handle has this reader. Of its two places the first has the word.
    out: AtomicU64,
    apart: [u64; 10],
}

impl Place {
    /// A place without a page.
    pub fn new(past: &Past) -> Place
        ensures { result.page ≡ past.now }
    {
        Place {
            page: Counted::new(None, past),
            out: AtomicU64::new(0),
            apart: [0; 10],
        }
    }

    /// Takes the page out, if the reader has not got it.
    pub fn clear(&self) -> bool {
        let (found, claim) = self.page.turn(PRESENT, TAKEN);
        if found == PRESENT {
            drop(claim.put(None, FREE));
            return true;
        }
        claim.done();
        found == FREE
    }

    /// Puts a page in. It does so where `clear` has been true.
    pub fn fill(&self, page: Page) -> bool
        requires { page.past.book ≡ self.now.page.book }
    {
        let (found, claim) = self.page.turn(FREE, TAKEN);
        if found != FREE {
            claim.done();
            return false;
        }
        drop(claim.put(Some(page), PRESENT));
        true
    }

    /// Takes the reader, if no handle has it.
    pub fn take(&self) -> bool {
        self.out
            .compare_exchange(0, 1, Ordering::SeqCst, Ordering::SeqCst)
            .is_ok()
    }

    /// Gives the reader back.
    pub fn give_back(&self) {
        self.out.store(0, Ordering::SeqCst);
    }
}

/// The places of all readers, two for each, and which of the two copies is shown.
#[derive(Drop)]
pub struct Board {
    pub shown: AtomicU64,
    pub places: Vec<Place>,
}

/// The places of so many readers, without pages.
pub fn make_places(alloc: Global, readers: usize, past: &Past) -> Result<Vec<Place>, CallFault>
    requires { readers ≤ 1024 }
    ensures places { IfOk result (λ v. All (λ p. p.page.book ≡ past.now.book) v.items) }
    ensures err { IsOkUnless result CallFault.NoMemory }
{
    let mut places = Vec::with_capacity(alloc, 2 * readers)?;
    for _ in 0..2 * readers {
        places.push(Place::new(past))?;
    }
    Ok(places)
}

/// Takes the pages of one copy out. False if a reader has one of them: no other is lost to it then.
pub fn clear_side(places: &[Place], side: usize) -> bool
    requires { side < 2 }
{
    let mut all = true;
    let mut ours = side == 0;
    for place in places {
        if ours {
            all = place.clear() && all;
        }
        ours = !ours;
    }
    all
}

/// Puts a page of one copy in for each reader.
pub fn fill_side(
    places: &[Place],
    side: usize,
    image: &Shared,
    past: &Past,
) -> Result<(), CallFault>
    requires places { All (λ p. p.page.book ≡ past.now.book) places.now }
    requires last { last_image past.now.elements ≡ Some image.now }
    ensures { IsOkUnless result CallFault.NoMemory }
{
    let mut ours = side == 0;
    for place in places {
        if ours {
            let page = Page::new(image.again()?, past.again());
            if !place.fill(page) {
                return Err(CallFault::NoMemory);
            }
        }
        ours = !ours;
    }
    Ok(())
}
