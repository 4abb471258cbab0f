//! IPv4 addresses and their texts.

ghost use Rattle.std.specs.Prelude.{◌≡◌, ℕ, IfOk, OnErr, IsOkUnless, Some};
ghost use Rattle.ipv4_prefix.specs.{Texts.address_text, Faults.SpellsAddress, Faults.IsAddressText};

use crate::fault::PrefixFault;
use std::fmt;
use std::net::Ipv4Addr;

/// An IPv4 address as a number, its first octet the highest. It is displayed as four decimal
/// numbers joined by points.
#[derive(Clone, Copy)]
pub struct Addr(pub u32);

impl fmt::Display for Addr {
    ghost output = { λ a. Some (address_text a.0) };

    fn fmt<W: fmt::Write>(&self, f: &mut fmt::Formatter<W>) -> fmt::Result {
        let [a, b, c, d] = self.0.to_be_bytes();
        write!(f, "{a}.{b}.{c}.{d}")
    }
}

/// The address that the text spells: four decimal numbers 0..=255 without a leading zero, joined by
/// points. Any other text is a `BadAddress`.
pub fn parse_addr(text: &str) -> Result<u32, PrefixFault>
    ensures read { IfOk result (SpellsAddress text.now) }
    ensures every_address { (addr : ℕ) → SpellsAddress text.now addr → result ≡ Ok addr }
    ensures bad_address { IsOkUnless result PrefixFault.BadAddress }
    ensures no_address { OnErr result (¬ IsAddressText text.now) }
{
    match text.parse::<Ipv4Addr>() {
        Ok(addr) => Ok(addr.to_bits()),
        Err(_) => Err(PrefixFault::BadAddress),
    }
}
