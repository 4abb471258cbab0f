//! IPv4 addresses and prefixes: what they cover, their order and their canonical texts.
//!
//! Routers do not route single addresses, but blocks of them. A block could be written in many ways, for
//! example as 10.0.0.0/8, 10.1.2.3/8 or 010.0.0.0/8. Then two rows could be one row, and equal tables could
//! differ, so a [`Prefix`] has one value and one text.
//!
//! - An *address* is a number of 32 bits, its first octet the highest.
//! - A *prefix* is an address and a length of 0 to 32 bits. It *covers* the addresses that agree with it in
//!   so many first bits (RFC 4632, section 3.1).
//! - Prefixes are *ordered* by address, then by length. This order is the project's own.
//! - The *canonical text* has decimal numbers without leading zeros: four with points, a slash, the length.
//!
//! ```text
//!   10.1.0.0/16    00001010 00000001 | 00000000 00000000     no bit is set after the length
//!   10.1.2.3       00001010 00000001 | 00000010 00000011     the first 16 bits agree: it is covered
//!   10.1.0.1/16    00001010 00000001 | 00000000 00000001     refused: 4 HostBits
//! ```
//!
//! ```text
//! let prefix = Prefix::parse("10.1.0.0/16")?;
//! prefix.covers(0x0a01_0203)                    // true
//! ```
//!
//! What always holds: no bit of a `Prefix` is set after its length (`IsPrefix` in `specs/Prefix.antt`). The
//! type keeps that, so nobody tests it again. `parse` reads the text that `Display` writes, and no other.
//!
//! The *longest match* of an address is here too, as a definition without code (`specs/LongestMatch.antt`).
//! It is the row with the longest prefix, of those that cover the address (RFC 1812, section 5.2.4.3). Among
//! rows with distinct prefixes there is one at most. `tree_bitmap` finds it without going through all rows.
//!
//! What is tricky: a text can have several faults, and the first test that fails names it. For example, the
//! text 10.0.0.1/33 is a `BadLength` and no `HostBits` ([`PrefixFault`] has the order).
#![tactic(auto)]

mod addr;
mod fault;
mod prefix;

pub use addr::{Addr, parse_addr};
pub use fault::PrefixFault;
pub use prefix::Prefix;
