//! The bits of blocks and of paths.

ghost use Rattle.std.specs.Prelude.{◌≡◌, ◌≢◌, ℕ, ◌+◌, ◌*◌, ◌^◌, ◌<◌, ◌≤◌, ◌↔◌, IsTrue, Some, count_ones};
ghost use Rattle.std.specs.Int.{bit_at};
ghost use Rattle.bitmaps.specs.Bits.{rank, IsHighest};
ghost use Rattle.array_bitmap.specs.{Bits.five_bits, Bits.row_bit, Bits.width, Blocks.size_for};

/// The level of the last blocks, which read the last three bits of addresses.
pub(crate) const LAST_LEVEL: u32 = 5;

/// The bits of the rows of one to three further bits.
const UP_TO_THREE: u64 = 0x3fff;

/// By five bits of a path, the row bits of the prefixes of one to five bits that cover it.
const COVERS: [u64; 32] = [
    0x0000_0000_4000_4045,
    0x0000_0000_8000_4045,
    0x0000_0001_0000_8045,
    0x0000_0002_0000_8045,
    0x0000_0004_0001_0085,
    0x0000_0008_0001_0085,
    0x0000_0010_0002_0085,
    0x0000_0020_0002_0085,
    0x0000_0040_0004_0109,
    0x0000_0080_0004_0109,
    0x0000_0100_0008_0109,
    0x0000_0200_0008_0109,
    0x0000_0400_0010_0209,
    0x0000_0800_0010_0209,
    0x0000_1000_0020_0209,
    0x0000_2000_0020_0209,
    0x0000_4000_0040_0412,
    0x0000_8000_0040_0412,
    0x0001_0000_0080_0412,
    0x0002_0000_0080_0412,
    0x0004_0000_0100_0812,
    0x0008_0000_0100_0812,
    0x0010_0000_0200_0812,
    0x0020_0000_0200_0812,
    0x0040_0000_0400_1022,
    0x0080_0000_0400_1022,
    0x0100_0000_0800_1022,
    0x0200_0000_0800_1022,
    0x0400_0000_1000_2022,
    0x0800_0000_1000_2022,
    0x1000_0000_2000_2022,
    0x2000_0000_2000_2022,
];

/// The path of an address: its 32 bits, and two zeros.
pub(crate) fn path_of(addr: u32) -> u64
    ensures value { result ≡ addr * 4 }
    ensures bound { result < 2 ^ 34 }
{
    u64::from(addr) * 4
}

/// Whether a bit is set.
pub(crate) fn is_set(bits: u64, k: u32) -> bool
    requires { k < 64 }
    ensures { IsTrue result ↔ (bit_at bits k ≡ 1) }
{
    (bits >> k) & 1 == 1
}

/// A bit: 1 where it is set, else 0.
pub(crate) fn bit(bits: u64, k: u32) -> u32
    requires { k < 64 }
    ensures value { result ≡ bit_at bits k }
    ensures bound { result < 2 }
{
    ((bits >> k) & 1) as u32
}

/// How many bits below bit `k` are set.
pub(crate) fn rank(bits: u64, k: u32) -> usize
    requires { k < 64 }
    ensures value { result ≡ rank bits k }
    ensures bound { result ≤ k }
{
    (bits & ((1 << k) - 1)).count_ones() as usize
}

/// How many bits are set.
pub(crate) fn count(bits: u64) -> usize
    ensures value { result ≡ count_ones bits }
    ensures bound { result ≤ 64 }
{
    bits.count_ones() as usize
}

/// The bits with one more.
pub(crate) fn with_bit(bits: u64, k: u32) -> u64
    requires within { k < 64 }
    requires clear { bit_at bits k ≡ 0 }
    ensures { result ≡ bits + 2 ^ k }
{
    bits | (1 << k)
}

/// The five bits that a block at a level reads of a path.
pub(crate) fn five_bits(path: u64, level: u32) -> u32
    requires { level ≤ 5 }
    ensures value { result ≡ five_bits path level }
    ensures bound { result < 32 }
{
    ((path >> (25 - 5 * level)) % 32) as u32
}

/// The row bit of the prefix that ends `more + 1` bits into a block.
pub(crate) fn row_bit(five: u32, more: u32) -> u32
    requires small { five < 32 }
    requires short { more < 5 }
    ensures value { result ≡ row_bit five more }
    ensures bound { result < 62 }
{
    (1u32 << (more + 1)) - 2 + (five >> (4 - more))
}

/// The row bits of the prefixes that five bits of a path begin with; at the last level, those of three
/// bits at most.
pub(crate) fn covers(five: u32, level: u32) -> u64
    requires small { five < 32 }
    requires deep { level ≤ 5 }
    ensures { (k : ℕ) → bit_at result k ≡ 1
        ↔ ((more : ℕ) × (more < width level) × (k ≡ row_bit five more)) }
{
    let all = COVERS[five as usize];
    if level == LAST_LEVEL {
        return all & UP_TO_THREE;
    }
    all
}

/// The greatest bit that is set; 0 where none is.
pub(crate) fn highest(bits: u64) -> u32
    ensures bound { result < 64 }
    ensures none { bits ≡ 0 → result ≡ 0 }
    ensures some { bits ≢ 0 → IsHighest 64 bits (Some result) }
{
    63 - (bits | 1).leading_zeros()
}

/// The first bit that is set from a bit on; 64 where none is.
pub(crate) fn next_set(bits: u64, from: u32) -> u32
    requires { from < 64 }
    ensures from { from ≤ result }
    ensures none { (k : ℕ) → from ≤ k → k < result → bit_at bits k ≡ 0 }
{
    (bits >> from << from).trailing_zeros()
}

/// One of two words: the first where `pick` is 1, the second where it is 0. It is computed without a
/// branch, which a processor would often guess wrong.
pub(crate) fn chosen(pick: u32, one: u32, other: u32) -> u32
    requires { pick < 2 }
    ensures one { pick ≡ 1 → result ≡ one }
    ensures other { pick ≡ 0 → result ≡ other }
{
    other ^ ((other ^ one) & (pick * u32::MAX))
}

/// The size of a block for so many words.
pub(crate) fn size_for(words: usize) -> usize
    ensures { result ≡ size_for words }
{
    if words <= 4 {
        4
    } else if words <= 8 {
        8
    } else if words <= 16 {
        16
    } else if words <= 32 {
        32
    } else if words <= 64 {
        64
    } else {
        128
    }
}

/// The bits with one less.
pub(crate) fn without_bit(bits: u64, k: u32) -> u64
    requires within { k < 64 }
    requires set { bit_at bits k ≡ 1 }
    ensures rest { bits ≡ result + 2 ^ k }
    ensures clear { bit_at result k ≡ 0 }
{
    bits - (1 << k)
}
