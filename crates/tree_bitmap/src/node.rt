//! The nodes of a tree bitmap with a stride of four bits.

ghost use Rattle.std.specs.Prelude.{◌≡◌, ℕ, ◌+◌, ◌*◌, ◌^◌, ◌<◌, ◌≤◌, ◌↔◌, IsTrue, Option, Some, None, count_ones};
ghost use Rattle.std.specs.Int.{bit_at};
ghost use Rattle.bitmaps.specs.Bits.{rank, IsHighest};
ghost use Rattle.tree_bitmap.specs.Bits.{nibble, internal_bit, length_of, lengths_within};

/// A node of the tree: which prefixes end in it, which children it has, and where both stand.
#[derive(Clone, Copy)]
pub struct Node {
    /// The prefixes that end in the node: bit `2^len - 1 + x` is that of the `len` bits with value
    /// `x`, for lengths 0 to 3.
    pub internal: u16,
    /// The children: bit `x` is that of the four bits with value `x`.
    pub external: u16,
    /// The place of the first child; the others follow it in the order of their bits.
    pub child_base: u32,
    /// The place of the first result; the others follow it in the order of their bits.
    pub result_base: u32,
}

/// A node in which no prefix ends, and with no child.
pub(crate) const BLANK: Node = Node {
    internal: 0,
    external: 0,
    child_base: 0,
    result_base: 0,
};

/// By four bits of an address, the internal bits of the prefixes of 3, 2, 1 and 0 bits that cover it.
const COVERS: [u16; 16] = [
    0b00000001_0001_01_1,
    0b00000001_0001_01_1,
    0b00000010_0001_01_1,
    0b00000010_0001_01_1,
    0b00000100_0010_01_1,
    0b00000100_0010_01_1,
    0b00001000_0010_01_1,
    0b00001000_0010_01_1,
    0b00010000_0100_10_1,
    0b00010000_0100_10_1,
    0b00100000_0100_10_1,
    0b00100000_0100_10_1,
    0b01000000_1000_10_1,
    0b01000000_1000_10_1,
    0b10000000_1000_10_1,
    0b10000000_1000_10_1,
];

/// Whether a bit is set.
pub(crate) fn is_set(bits: u16, k: u32) -> bool
    requires { k < 16 }
    ensures { IsTrue result ↔ (bit_at bits k ≡ 1) }
{
    (bits >> k) & 1 == 1
}

/// How many bits below bit `k` are set.
pub(crate) fn rank(bits: u16, k: u32) -> u32
    requires { k < 16 }
    ensures value { result ≡ rank bits k }
    ensures bound { result ≤ k }
{
    (bits & ((1 << k) - 1)).count_ones()
}

/// The bitmap with one bit more.
pub(crate) fn with_bit(bits: u16, k: u32) -> u16
    requires within { k < 16 }
    requires clear { bit_at bits k ≡ 0 }
    ensures { result ≡ bits + 2 ^ k }
{
    bits | (1 << k)
}

/// How many bits are set.
pub(crate) fn count(bits: u16) -> usize
    ensures value { result ≡ count_ones bits }
    ensures bound { result ≤ 16 }
{
    bits.count_ones() as usize
}

/// The four bits that the node at a depth reads of a path.
pub(crate) fn nibble(path: u64, depth: u32) -> u32
    requires { depth ≤ 8 }
    ensures value { result ≡ nibble path depth }
    ensures bound { result < 16 }
{
    ((path >> (32 - 4 * depth)) % 16) as u32
}

/// The internal bit of the prefix that ends `len` bits into a node.
pub(crate) fn internal_bit(four: u32, len: u8) -> u32
    requires small { four < 16 }
    requires short { len < 4 }
    ensures value { result ≡ internal_bit four len }
    ensures bound { result < 15 }
{
    (1u32 << len) - 1 + (four >> (4 - len))
}

/// The internal bits of the prefixes that four bits of an address begin with; at depth 8, where
/// addresses end, that of no more bits.
pub(crate) fn covers(four: u32, depth: u32) -> u16
    requires small { four < 16 }
    requires deep { depth ≤ 8 }
    ensures { (k : ℕ) → k < 16 → bit_at result k ≡ 1
        ↔ ((len : ℕ) × (len < lengths_within depth) × (k ≡ internal_bit four len)) }
{
    if depth == 8 {
        return 1;
    }
    COVERS[four as usize]
}

/// The greatest bit that is set.
pub(crate) fn highest(bits: u16) -> Option<u32>
    ensures { IsHighest 16 bits result }
{
    if bits == 0 {
        return None;
    }
    Some(15 - bits.leading_zeros())
}

/// The length to which an internal bit belongs.
pub(crate) fn length_of(bit: u32) -> u8
    ensures value { result ≡ length_of bit }
    ensures bound { result < 4 }
{
    if bit < 1 {
        0
    } else if bit < 3 {
        1
    } else if bit < 7 {
        2
    } else {
        3
    }
}
