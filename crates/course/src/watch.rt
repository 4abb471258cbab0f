//! Which routers may have something to do.

use network_model::{NoMemory, SmallAllocator, Step};
use std::alloc::Global;
use world::{Network, Touched};

/// How many words have a bit for each router, at most.
const MOST_WORDS: usize = 1024;

/// Routers that may have something to do. It is a hint, on which nothing that is proved stands: a router
/// that is not in it has nothing to do until a message or a notice is on its way to it.
#[derive(Drop)]
pub struct Watch<A: SmallAllocator = Global> {
    // A bit for each router, 64 to a word, the lowest first.
    words: Vec<u64, A>,
    // A bit for each of these words that has one, in the same way.
    filled: Vec<u64, A>,
    // How many routers had something to do and were not in it.
    missed: u64,
}

impl<A: SmallAllocator> Watch<A> {
    /// None of so many routers has something to do.
    pub fn new(alloc: A, routers: usize) -> Result<Watch<A>, NoMemory> {
        let mut words = Vec::new(alloc);
        words.resize(routers / 64 + 1, 0)?;
        let mut filled = Vec::new(alloc);
        filled.resize(routers / 4096 + 1, 0)?;
        Ok(Watch {
            words,
            filled,
            missed: 0,
        })
    }

    /// The same routers, in memory of this allocator.
    pub fn copy(&self, alloc: A) -> Result<Watch<A>, NoMemory> {
        let words = Vec::from_slice(alloc, &self.words)?;
        let filled = Vec::from_slice(alloc, &self.filled)?;
        Ok(Watch {
            words,
            filled,
            missed: self.missed,
        })
    }

    /// It had no router that has something to do, and this says whether there was one.
    pub fn note_missed(&mut self, missed: bool) {
        self.missed = self.missed.saturating_add(u64::from(missed));
    }

    /// How often there was one.
    pub fn missed(&self) -> u64 {
        self.missed
    }

    /// The router may have something to do.
    pub fn add(&mut self, router: u16) {
        let Some(word) = self.words.get_mut(usize::from(router / 64)) else {
            return;
        };
        let was_empty = *word == 0;
        *word |= 1 << (router % 64);
        if was_empty && let Some(word) = self.filled.get_mut(usize::from(router / 4096)) {
            *word |= 1 << (router / 64 % 64);
        }
    }

    /// The router has nothing to do.
    pub fn remove(&mut self, router: u16) {
        let Some(word) = self.words.get_mut(usize::from(router / 64)) else {
            return;
        };
        *word &= !(1 << (router % 64));
        if *word != 0 {
            return;
        }
        if let Some(word) = self.filled.get_mut(usize::from(router / 4096)) {
            *word &= !(1 << (router / 64 % 64));
        }
    }

    /// The first of its routers from this one on, and after the last from 0.
    pub fn next(&self, router: u16) -> Option<u16> {
        let found = self.next_within(usize::from(router / 64), u64::MAX << (router % 64));
        if found.is_some() {
            return found;
        }
        if let Some(place) = self.next_filled(router / 64 + 1) {
            return self.next_within(place, u64::MAX);
        }
        self.next_within(self.next_filled(0)?, u64::MAX)
    }

    // The first of the routers of a word that are in the mask.
    fn next_within(&self, place: usize, mask: u64) -> Option<u16> {
        let word = *self.words.get(place)? & mask;
        if word == 0 || place >= MOST_WORDS {
            return None;
        }
        Some(place as u16 * 64 + word.trailing_zeros() as u16)
    }

    // The first of the words from this one on that has a router.
    fn next_filled(&self, from: u16) -> Option<usize> {
        let mut mask = u64::MAX << (from % 64);
        for place in usize::from(from / 64)..self.filled.len() {
            let word = self.filled[place] & mask;
            if word != 0 && place < MOST_WORDS {
                return Some(place * 64 + word.trailing_zeros() as usize);
            }
            mask = u64::MAX;
        }
        None
    }

    /// What a step brings to do that was done, and touched this. What takes from a link brings its far end nothing
    /// to do, and of any other step that touches a link, the router is one of the link's ends.
    pub fn note(&mut self, network: &Network, step: &Step, touched: Touched) {
        if let Some(link) = touched.link
            && !matches!(step, Step::Deliver { .. })
            && let Some(spec) = network.links().get(usize::from(link))
        {
            self.add(spec.a);
            self.add(spec.b);
        } else if let Some(router) = touched.router.or(touched.attachments) {
            self.add(router);
        }
    }
}
