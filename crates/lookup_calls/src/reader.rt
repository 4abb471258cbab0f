//! A reader of an image that its writer changes meanwhile.

ghost use Rattle.std.specs.Prelude.{◌≡◌, ◌+◌, ◌<◌, ◌≤◌, All, IfErr, IfNone, IfSome, IsTrue, OnOk, false, length};
ghost use Rattle.std.specs.Arc.{arc_value};
ghost use Rattle.receipts.specs.Logs.{GrowsTo};
ghost use Rattle.lookup_calls.specs.{Histories.last_image, Readers.IsUnlearned, Rows.answer_rows, Rows.answer_words};

use crate::board::{Board, Page};
use crate::past::Past;
use crate::rows::answer_all;
use c_interface::{CallFault, Row};
use counted_slot::{Claim, ONE_READER, PRESENT};
use std::marker::Model;
use std::sync::Arc;
use std::sync::atomic::Ordering;

/// How often a reader tries. Only if its writer has published since does it try once more.
const TRIES: usize = 1000;

/// Looks addresses up, with no lock and no wait. Contracts see the images that its writer had published
/// when it published the one that this reader saw last, or when it made this reader.
#[derive(Drop)]
pub struct ImageReader {
    seat: Seat,
    past: Past,
}

// A reader's two places, from the first on, which it gives back in the end.
struct Seat {
    board: Arc<Board>,
    first: usize,
}

impl Model for ImageReader {
    ghost use Rattle.std.specs.Prelude.{◌≡◌, ◌+◌, ◌<◌, All, length};
    ghost use Rattle.std.specs.Arc.{arc_value};
    ghost use Rattle.lookup_calls.specs.Histories.{Published};

    ghost Value = { Published };

    ghost view = { λ r. r.past };

    ghost invariant = { λ r. (r.seat.first + 1 < length (arc_value r.seat.board).places.items)
        × All (λ p. p.page.book ≡ r.past.book) (arc_value r.seat.board).places.items };
}

// The right to read the page of the copy that is shown.
fn enter<'a>(board: &'a Board, first: usize, past: &Past) -> Option<Claim<'a, Option<Page>>>
    requires place { first + 1 < length board.now.places.items }
    requires book { All (λ p. p.page.book ≡ past.now.book) board.now.places.items }
    ensures right { IfSome result (λ c. c.right ≡ 1) }
    ensures book { IfSome result (λ c. c.tag.book ≡ past.now.book) }
{
    for _ in 0..TRIES {
        let side = (board.shown.load(Ordering::SeqCst) % 2) as usize;
        let place = &board.places[first + side];
        let (found, claim) = place.page.turn(PRESENT, PRESENT + ONE_READER);
        if found != PRESENT {
            claim.done();
        } else if board.shown.load(Ordering::SeqCst) % 2 == side as u64 {
            return Some(claim);
        } else {
            // The copy may have been changed since, and not be shown yet.
            claim.leave();
        }
    }
    None
}

// The page, unless it is of an older image than the reader knows of.
fn newer<'a>(page: &'a Option<Page>, past: &Past) -> Option<&'a Page>
    requires { IfSome page.now (λ p. p.past.book ≡ past.now.book) }
    ensures { IfSome result (λ p. GrowsTo past.now p.now.past) }
{
    let Some(page) = page else {
        return None;
    };
    if !past.begins(page.past()) {
        return None;
    }
    Some(page)
}

// What was published by the time of a page, unless the reader knows of more.
fn past_by(page: &Option<Page>, past: &Past) -> Option<Past>
    requires { IfSome page.now (λ p. p.past.book ≡ past.now.book) }
    ensures { IfSome result (λ p. GrowsTo past.now p) }
{
    let page = newer(page, past)?;
    Some(page.past().again())
}

// Answers by a page, unless it is of an older image than the reader knows of.
fn answer_by(
    page: &Option<Page>,
    past: &Past,
    addrs: &[u32],
    answers: &mut [Row],
    generation: &mut u64,
) -> Option<Past>
    requires book { IfSome page.now (λ p. p.past.book ≡ past.now.book) }
    requires count { length answers.old ≡ length addrs.now }
    ensures later { IfSome result (λ p. GrowsTo past.now p) }
    ensures answers { IfSome result (λ p. IfSome (last_image p.elements)
        (λ i. (answers.new ≡ answer_rows i addrs.now) × (generation.new ≡ i.generation))) }
    ensures nothing { IfNone result
        ((answers.new ≡ answers.old) × (generation.new ≡ generation.old)) }
{
    let page = newer(page, past)?;
    let image = page.image().get();
    answer_all(image, addrs, answers);
    *generation = image.generation();
    Some(page.past().again())
}

// As `answer_by`, with words.
fn words_by(
    page: &Option<Page>,
    past: &Past,
    addrs: &[u32],
    words: &mut [u32],
    generation: &mut u64,
) -> Option<Past>
    requires book { IfSome page.now (λ p. p.past.book ≡ past.now.book) }
    requires count { length words.old ≡ length addrs.now }
    ensures later { IfSome result (λ p. GrowsTo past.now p) }
    ensures words { IfSome result (λ p. IfSome (last_image p.elements)
        (λ i. (words.new ≡ answer_words i addrs.now) × (generation.new ≡ i.generation))) }
    ensures nothing { IfNone result ((words.new ≡ words.old) × (generation.new ≡ generation.old)) }
{
    let page = newer(page, past)?;
    let image = page.image().get();
    image.lookup_words(addrs, words);
    *generation = image.generation();
    Some(page.past().again())
}

impl ImageReader {
    pub(crate) fn new(board: Arc<Board>, first: usize, past: Past) -> ImageReader
        requires place { first + 1 < length (arc_value board).places.items }
        requires book { All (λ p. p.page.book ≡ past.book) (arc_value board).places.items }
        ensures { result ≡ past }
    {
        let seat = Seat { board, first };
        ImageReader { seat, past }
    }

    /// Learns that so many images were published, the first that the writer was made of: from now on the reader
    /// answers by none that is older than the last of these. It is refused with `BadCount` if fewer were
    /// published, and with `Shared` if the writer published `TRIES` times meanwhile. It takes no memory.
    pub fn learn(&mut self, published: u64) -> Result<(), CallFault>
        ensures later { GrowsTo self.old self.new }
        ensures ok { OnOk result (published ≤ length self.new.elements) }
        ensures err { IfErr result (IsUnlearned published self.new) }
    {
        if published <= self.past.count() {
            return Ok(());
        }
        let Some(claim) = enter(&self.seat.board, self.seat.first, &self.past) else {
            return Err(CallFault::Shared);
        };
        let found = past_by(claim.get(), &self.past);
        claim.leave();
        let Some(past) = found else {
            return Err(CallFault::Shared);
        };
        let count = past.count();
        self.past = past;
        if count < published {
            return Err(CallFault::BadCount);
        }
        Ok(())
    }

    /// Answers addresses by the image that is shown, and says its generation. It takes no memory. False
    /// if it found none in `TRIES`, because the writer published that often meanwhile.
    pub fn lookup(&mut self, addrs: &[u32], answers: &mut [Row], generation: &mut u64) -> bool
        requires count { length answers.old ≡ length addrs.now }
        ensures later { GrowsTo self.old self.new }
        ensures answers { IsTrue result → IfSome (last_image self.new.elements)
            (λ i. (answers.new ≡ answer_rows i addrs.now) × (generation.new ≡ i.generation)) }
        ensures nothing { result ≡ false
            → (answers.new ≡ answers.old) × (generation.new ≡ generation.old) }
    {
        let Some(claim) = enter(&self.seat.board, self.seat.first, &self.past) else {
            return false;
        };
        let found = answer_by(claim.get(), &self.past, addrs, answers, generation);
        claim.leave();
        match found {
            Some(past) => {
                self.past = past;
                true
            }
            None => false,
        }
    }

    /// As `lookup`, with the words of the answers.
    pub fn lookup_words(&mut self, addrs: &[u32], words: &mut [u32], generation: &mut u64) -> bool
        requires count { length words.old ≡ length addrs.now }
        ensures later { GrowsTo self.old self.new }
        ensures words { IsTrue result → IfSome (last_image self.new.elements)
            (λ i. (words.new ≡ answer_words i addrs.now) × (generation.new ≡ i.generation)) }
        ensures nothing { result ≡ false
            → (words.new ≡ words.old) × (generation.new ≡ generation.old) }
    {
        let Some(claim) = enter(&self.seat.board, self.seat.first, &self.past) else {
            return false;
        };
        let found = words_by(claim.get(), &self.past, addrs, words, generation);
        claim.leave();
        match found {
            Some(past) => {
                self.past = past;
                true
            }
            None => false,
        }
    }
}

impl Drop for Seat {
    fn drop(self) {
        let Seat { board, first } = self;
        if let Some(place) = board.places.get(first) {
            place.give_back();
        }
    }
}
