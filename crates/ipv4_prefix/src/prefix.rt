//! A block of IPv4 addresses.

ghost use Rattle.std.specs.Prelude.{◌≡◌, ◌<◌, ◌≤◌, ◌↔◌, IfOk, IfErr, IsOk, IsTrue, OnErr, IsOkUnless, Some};
ghost use Rattle.ipv4_prefix.specs.{Prefix.Prefix as Block, Prefix.IsPrefix, Prefix.covers as is_in_block, Texts.prefix_text, declared.fault.PrefixFault.PrefixFault as Fault};
ghost use Rattle.ipv4_prefix.specs.Faults.{block, SetsHostBits, SpellsLength, IsLengthText, SpellsPrefix, IsFirstFault};

use crate::addr::{Addr, parse_addr};
use crate::fault::PrefixFault;
use std::fmt;
use std::marker::Model;
use texts::read_number;

/// A block of IPv4 addresses: those that agree with `addr` in their first `len` bits (RFC 4632,
/// section 3.1). No bit after the first `len` is set, so each block has one `Prefix`. Prefixes are
/// ordered by address, then by length.
#[derive(Clone, Copy, Debug, PartialEq, Eq, PartialOrd, Ord)]
pub struct Prefix {
    addr: u32,
    len: u8,
}

impl Model for Prefix {
    ghost use Rattle.ipv4_prefix.specs.Prefix.{Prefix as Block, IsPrefix};

    ghost Value = { Block };

    ghost view = { λ p. record { addr = p.addr; len = p.len } };

    ghost inverse = { λ v. record { addr = v.addr; len = v.len } };

    ghost invariant = { λ p. IsPrefix (record { addr = p.addr; len = p.len }) };
}

impl Prefix {
    /// The block of this first address and length. The faults are tested in this order: a length
    /// above 32 is a `BadLength`, a bit that is set after the first `len` is a `HostBits`.
    pub fn new(addr: u32, len: u8) -> Result<Prefix, PrefixFault>
        ensures made { IfOk result (λ p. p ≡ block addr len) }
        ensures exactly { IsOk result ↔ IsPrefix (block addr len) }
        ensures bad_length { (result ≡ Err PrefixFault.BadLength) ↔ (32 < len) }
        ensures host_bits { (result ≡ Err PrefixFault.HostBits)
            ↔ ((len ≤ 32) × SetsHostBits addr len) }
    {
        if len > 32 {
            return Err(PrefixFault::BadLength);
        }
        let block_size = 1u64 << (32 - len);
        if u64::from(addr) % block_size != 0 {
            return Err(PrefixFault::HostBits);
        }
        Ok(Prefix { addr, len })
    }

    /// The prefix of `len` bits, 0 to 32, that covers the address.
    pub fn covering(addr: u32, len: u8) -> Prefix
        requires { len ≤ 32 }
        ensures len { result.len ≡ len }
        ensures covers { IsTrue (is_in_block result addr) }
        ensures valid { IsPrefix result }
    {
        let host_len = 32 - len;
        let first = u64::from(addr) >> host_len << host_len;
        Prefix {
            addr: first as u32,
            len,
        }
    }

    /// The prefix that the text spells: an address, a slash and a length 0..=32, all numbers in
    /// decimal without a leading zero. The faults are tested in the order of `PrefixFault`.
    pub fn parse(text: &str) -> Result<Prefix, PrefixFault>
        ensures read { IfOk result (SpellsPrefix text.now) }
        ensures every_prefix { (p : Block) → SpellsPrefix text.now p → result ≡ Ok p }
        ensures fault { IfErr result (IsFirstFault text.now) }
        ensures every_fault { (e : Fault) → IsFirstFault text.now e → result ≡ Err e }
    {
        let Some((addr, len)) = text.split_once('/') else {
            return Err(PrefixFault::NoSlash);
        };
        let addr = parse_addr(addr)?;
        let len = parse_len(len)?;
        Prefix::new(addr, len)
    }

    /// The first address of the block.
    pub fn addr(self) -> u32
        ensures value { result ≡ self.addr }
        ensures valid { IsPrefix self }
    {
        self.addr
    }

    /// The number of bits that the block's addresses share, 0..=32.
    pub fn len(self) -> u8
        ensures value { result ≡ self.len }
        ensures valid { IsPrefix self }
    {
        self.len
    }

    /// Whether the address is in the block: whether its first `len` bits are those of the block.
    pub fn covers(self, addr: u32) -> bool
        ensures { result ≡ is_in_block self addr }
    {
        let host_len = 32 - self.len;
        u64::from(self.addr) >> host_len == u64::from(addr) >> host_len
    }
}

impl fmt::Display for Prefix {
    ghost output = { λ p. Some (prefix_text p) };

    fn fmt<W: fmt::Write>(&self, f: &mut fmt::Formatter<W>) -> fmt::Result {
        let addr = Addr(self.addr);
        let len = self.len;
        write!(f, "{addr}/{len}")
    }
}

fn parse_len(text: &str) -> Result<u8, PrefixFault>
    ensures read { IfOk result (SpellsLength text.now) }
    ensures bad_length { IsOkUnless result PrefixFault.BadLength }
    ensures no_length { OnErr result (¬ IsLengthText text.now) }
{
    match read_number(text) {
        Some(len) if len <= 32 => Ok(len as u8),
        _ => Err(PrefixFault::BadLength),
    }
}
