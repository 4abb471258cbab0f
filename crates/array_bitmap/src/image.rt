//! The rows of one publication, in the form in which a router forwards by them.

ghost use Rattle.std.specs.Prelude.{◌≡◌, ℕ, ◌<◌, ◌≤◌, ◌^◌, IfSome, All, None, false, length, map};
ghost use Rattle.array_bitmap.specs.Words.{answer_word, IsReadBack};
ghost use Rattle.ipv4_prefix.specs.{LongestMatch.IsLongestMatch, Prefix.covers};
ghost use Rattle.network_model.specs.Publication.{image_answer};

use crate::lanes::{LANES, answer_all, answer_one, answer_words, words_say_all};
use crate::tree::Tree;
use network_model::{Entry, Prefix};
use std::alloc::{Allocator, Global};
use std::cmp::min;
use std::marker::Model;

/// The rows that a router published, for looking up addresses: an array on the first 4, 9, 14 or 19
/// bits of addresses, and tree-bitmap nodes with a stride of five bits below it.
#[derive(Drop)]
pub struct Image<A: Allocator = Global> {
    pub(crate) tree: Tree<A>,
    pub(crate) generation: u64,
    // What the prefixes of a call's rows had before; empty between calls.
    pub(crate) notes: Vec<Option<Entry>, A>,

    // How many words the pool has before the image is made anew from its rows.
    pub(crate) most_words: usize,
}

impl<A: Allocator> Model for Image<A> {
    ghost use Rattle.network_model.specs.Publication.{Image as ImageRows};
    ghost use Rattle.array_bitmap.specs.Image.{IsSoundTree, rows_in};

    ghost Value = { ImageRows };

    ghost view = { λ i. record { generation = i.generation; rows = rows_in i.tree } };

    ghost invariant = { λ i. IsSoundTree i.tree };
}

impl<A: Allocator> Image<A> {
    /// Which publication of its router the image is; 0 before the first.
    pub fn generation(&self) -> u64
        ensures { result ≡ (self.now).generation }
    {
        self.generation
    }

    fn answer(&self, addr: u32) -> Option<(Prefix, Entry)>
        ensures { result ≡ image_answer self.now addr }
    {
        self.tree.lookup(addr)
    }

    /// Of the rows whose prefix covers the address, the one with the longest prefix; None where no
    /// row covers it (RFC 1812, section 5.2.4.3). It needs no memory.
    pub fn lookup(&self, addr: u32) -> Option<(Prefix, Entry)>
        ensures answer { result ≡ image_answer self.now addr }
        ensures longest { IfSome result (IsLongestMatch addr (self.now).rows) }
        ensures none { result ≡ None → All (λ row. covers row.0 addr ≡ false) (self.now).rows }
    {
        self.answer(addr)
    }

    // As `lookup` for each of at most 32 addresses, which go down side by side.
    fn lookup_burst(&self, addrs: &[u32], answers: &mut [Option<(Prefix, Entry)>])
        requires short { length addrs.now ≤ 32 }
        requires one_each { length answers.old ≡ length addrs.now }
        ensures answers { answers.new ≡ map (image_answer self.now) addrs.now }
    {
        answer_all(&self.tree, addrs, answers);
    }

    /// As `lookup` for each of the addresses, which go down side by side.
    pub fn lookup_all(&self, addrs: &[u32], answers: &mut [Option<(Prefix, Entry)>])
        requires { length answers.old ≡ length addrs.now }
        ensures { answers.new ≡ map (image_answer self.now) addrs.now }
    {
        let mut done = 0;
        while done < addrs.len() {
            let end = min(done + LANES, addrs.len());
            self.lookup_burst(&addrs[done..end], &mut answers[done..end]);
            done = end;
        }
    }

    /// The word of what `lookup` answers for the address: session (bits 0 to 15), port (16 to 23), kind (24
    /// and 25: 0 for the router itself, 1 for a neighbour, 2 for nowhere, 3 for no row) and length (26 to
    /// 31). For one address it is faster than `lookup_words`.
    pub fn lookup_word(&self, addr: u32) -> u32
        ensures word { result ≡ answer_word (image_answer self.now addr) }
        ensures read { IsReadBack addr (image_answer self.now addr) }
    {
        answer_one(&self.tree, addr)
    }

    // A law: with its address, each answer's word says the whole answer.
    fn words_say_all(&self)
        ensures { (addr : ℕ) → addr < 2 ^ 32 → IsReadBack addr (image_answer self.now addr) }
    {
        words_say_all(&self.tree);
    }

    // As `lookup_word` for each of at most 32 addresses, which go down side by side.
    fn burst_words(&self, addrs: &[u32], words: &mut [u32])
        requires short { length addrs.now ≤ 32 }
        requires one_each { length words.old ≡ length addrs.now }
        ensures words { words.new ≡ map (λ addr. answer_word (image_answer self.now addr)) addrs.now }
    {
        answer_words(&self.tree, addrs, words);
    }

    /// As `lookup_word` for each of the addresses, which go down side by side.
    pub fn lookup_words(&self, addrs: &[u32], words: &mut [u32])
        requires { length words.old ≡ length addrs.now }
        ensures words { words.new ≡ map (λ addr. answer_word (image_answer self.now addr)) addrs.now }

        // With its address, each word says the whole answer.
        ensures read { (addr : ℕ) → addr < 2 ^ 32 → IsReadBack addr (image_answer self.now addr) }
    {
        self.words_say_all();
        let mut done = 0;
        while done < addrs.len() {
            let next = min(done + LANES, addrs.len());
            self.burst_words(&addrs[done..next], &mut words[done..next]);
            done = next;
        }
    }

    /// The bytes that the image takes, with the room for more rows.
    pub fn bytes(&self) -> usize {
        self.tree.bytes()
    }
}
