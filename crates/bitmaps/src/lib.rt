//! What all tree bitmaps share: ranks of bits, and the longest row on a path. It has definitions and lemmas
//! alone, and no code.
//!
//! A node notes in bitmaps which rows and children it has, and keeps them without gaps in the order of their
//! bits. So where one stands follows from its *rank*, which is how many bits below its own are set:
//!
//! ```text
//!   bit      9 8 7 6 5 4 3 2 1 0
//!   set      0 1 0 0 1 1 0 0 1 0        the rank of bit 5 is 2, and that of bit 8 is 3
//! ```
//!
//! The bitmaps of `tree_bitmap` have 16 bits, and those of `array_bitmap` 64, but ranks mean the same in both,
//! and move in the same way when a bit is set (`specs/Bits.antt`, `proofs/Ranks.antt`). A look-up keeps what it
//! found last on its way down, which is the longest row because longer prefixes end deeper
//! (`specs/Greatest.antt`, `proofs/Finds.antt`). Both images set rows one after another, so what the first of
//! them leave is said here too (`proofs/RowsSet.antt`).
#![tactic(auto)]
