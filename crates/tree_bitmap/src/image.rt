//! The rows of one publication, in the form in which a router forwards by them.

ghost use Rattle.std.specs.Prelude.{◌≡◌, ◌+◌, ◌<◌, ◌≤◌, ◌^◌, IfSome, All, None, false, length, map};
ghost use Rattle.ipv4_prefix.specs.{LongestMatch.IsLongestMatch, Prefix.covers};
ghost use Rattle.network_model.specs.Publication.{image_answer};

use crate::lanes::Lane;
use crate::tree::{Tree, Visits};
use network_model::{Entry, Prefix};
use std::alloc::{Allocator, Global};
use std::marker::Model;

/// The rows that a router published, for looking up addresses: a tree bitmap with a stride of four
/// bits (Eatherton, Varghese and Dittia, 2004).
#[derive(Drop)]
pub struct Image<A: Allocator = Global> {
    pub(crate) tree: Tree<A>,
    pub(crate) generation: u64,
}

impl<A: Allocator> Model for Image<A> {
    ghost use Rattle.network_model.specs.Publication.{Image as ImageRows};
    ghost use Rattle.tree_bitmap.specs.Tree.{IsTreeLaidOut, tree_rows};

    ghost Value = { ImageRows };

    ghost view = { λ i. record { generation = i.generation; rows = tree_rows i.tree } };

    ghost invariant = { λ i. IsTreeLaidOut i.tree };
}

impl<A: Allocator> Image<A> {
    /// Which publication of its router the image is; 0 before the first.
    pub fn generation(&self) -> u64
        ensures { result ≡ (self.now).generation }
    {
        self.generation
    }

    /// Of the rows whose prefix covers the address, the one with the longest prefix; None where no
    /// row covers it (RFC 1812, section 5.2.4.3). It needs no memory.
    pub fn lookup(&self, addr: u32) -> Option<(Prefix, Entry)>
        ensures answer { result ≡ image_answer self.now addr }
        ensures longest { IfSome result (IsLongestMatch addr (self.now).rows) }
        ensures none { result ≡ None → All (λ row. covers row.0 addr ≡ false) (self.now).rows }
    {
        self.lookup_counted(addr, &mut Visits { count: 0 })
    }

    /// As `lookup`, and counts the nodes that it reads: one to nine.
    pub fn lookup_counted(&self, addr: u32, visits: &mut Visits) -> Option<(Prefix, Entry)>
        requires { visits.old.count + 9 < 2 ^ 64 }
        ensures answer { result ≡ image_answer self.now addr }
        ensures some { visits.old.count < visits.new.count }
        ensures few { visits.new.count ≤ visits.old.count + 9 }
    {
        let mut lane = Lane::new(addr);
        lane.descend_to_end(&self.tree, visits);
        lane.answer(&self.tree)
    }

    /// As `lookup` for each of the addresses, one after another.
    pub fn lookup_all(&self, addrs: &[u32], answers: &mut [Option<(Prefix, Entry)>])
        requires { length answers.old ≡ length addrs.now }
        ensures { answers.new ≡ map (image_answer self.now) addrs.now }
    {
        for i in 0..addrs.len() {
            answers[i] = self.lookup(addrs[i]);
        }
    }

    /// The bytes that the image takes, with the room for more rows.
    pub fn bytes(&self) -> usize {
        self.tree.bytes()
    }
}
