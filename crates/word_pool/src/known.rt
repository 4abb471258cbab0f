//! What contracts and proofs know of a pool beside its words: the blocks in use, and how many blocks are
//! free. A `Tag` has no bytes, and only clauses read its numbers. So nothing here runs or takes memory.

ghost use Rattle.std.specs.Prelude.{◌≡◌, ◌+◌, ◌-◌, [], ◌∷◌, slice_set};
ghost use Rattle.word_pool.specs.Layout.{entry};

use boxcar::tag::{Names, Tag};

// A block, with the size that it has from now on: 0 where it is in use no more.
#[derive(Drop)]
struct Change {
    before: Tag,
    block: u32,
    size: usize,
}

// A list of free blocks.
#[derive(Drop)]
struct List {
    before: Tag,
    index: usize,
}

struct Changes;

struct OneMore;

struct OneFewer;

struct Same;

struct FirstBlock;

struct FirstGroup;

impl Names<Change> for Changes {
    ghost numbers = { λ c. c.block ∷ c.size ∷ c.before.numbers };
}

impl Names<List> for OneMore {
    ghost numbers = { λ l. slice_set l.before.numbers l.index (entry l.before.numbers l.index + 1) };
}

impl Names<List> for OneFewer {
    ghost numbers = { λ l. slice_set l.before.numbers l.index (entry l.before.numbers l.index - 1) };
}

impl Names<Tag> for Same {
    ghost numbers = { λ t. t.numbers };
}

impl Names<()> for FirstBlock {
    ghost numbers = { λ _. 0 ∷ 4 ∷ [] };
}

impl Names<()> for FirstGroup {
    ghost numbers = { λ _. 1 ∷ 1 ∷ 1 ∷ 1 ∷ 1 ∷ 0 ∷ [] };
}

/// The same numbers.
#[inline(always)]
pub fn again(tag: &Tag) -> Tag
    ensures { result.numbers ≡ tag.now.numbers }
{
    Tag::of::<Tag, Same>(tag)
}

/// The block of four words at 0 is in use.
#[inline(always)]
pub fn first_block() -> Tag
    ensures { result.numbers ≡ 0 ∷ 4 ∷ [] }
{
    Tag::of::<(), FirstBlock>(&())
}

/// What is left of the first 128 words is free.
#[inline(always)]
pub fn first_group() -> Tag
    ensures { result.numbers ≡ 1 ∷ 1 ∷ 1 ∷ 1 ∷ 1 ∷ 0 ∷ [] }
{
    Tag::of::<(), FirstGroup>(&())
}

/// A block has a size from now on, 0 where it is in use no more.
#[inline(always)]
pub fn note(used: &Tag, block: u32, size: usize) -> Tag
    ensures { result.numbers ≡ block ∷ size ∷ used.now.numbers }
{
    Tag::of::<Change, Changes>(&Change {
        before: again(used),
        block,
        size,
    })
}

/// A list has one free block more.
#[inline(always)]
pub fn one_more(spare: &Tag, index: usize) -> Tag
    ensures { result.numbers ≡ slice_set spare.now.numbers index (entry spare.now.numbers index + 1) }
{
    Tag::of::<List, OneMore>(&List {
        before: again(spare),
        index,
    })
}

/// A list has one free block fewer.
#[inline(always)]
pub fn one_fewer(spare: &Tag, index: usize) -> Tag
    ensures { result.numbers ≡ slice_set spare.now.numbers index (entry spare.now.numbers index - 1) }
{
    Tag::of::<List, OneFewer>(&List {
        before: again(spare),
        index,
    })
}
