//! Prefixes as C writes them: to take rows out of an image, and as a cursor through its rows.

ghost use Rattle.std.specs.Prelude.{◌≡◌, None, Some, IfOk, IfErr, IsOkUnless, OnOk, length};
ghost use Rattle.c_interface.specs.Faults.{first_of};
ghost use Rattle.lookup_calls.specs.Prefixes.{block_of, block_fault, first_block_fault, cursor_fault, cursor_prefix, listed_row, listed_word, without_blocks, IsFilledIn};
ghost use Rattle.lookup_calls.specs.Rows.{count_fault};

use crate::kept::Kept;
use array_bitmap::next_prefix;
use c_interface::{CallFault, Row, read_prefix};
use network_model::Prefix;
use std::alloc::Global;

/// The length of the cursor at the end of all rows.
const NO_MORE: u8 = 33;

/// A prefix: the first `len` bits of an address, with no bit set after them.
#[repr(C)]
#[derive(Clone, Copy)]
pub struct Block {
    pub addr: u32,
    pub len: u8,
}

impl Block {
    fn read(self) -> Result<Prefix, CallFault>
        ensures ok { IfOk result (λ p. (block_fault self ≡ None) × (p ≡ block_of self)) }
        ensures err { IfErr result (λ f. block_fault self ≡ Some f) }
    {
        read_prefix(self.addr, self.len)
    }

    /// The prefix at which a cursor stands, or none at the end.
    pub fn read_cursor(self) -> Result<Option<Prefix>, CallFault>
        ensures ok { IfOk result (λ at. (cursor_fault self ≡ None) × (at ≡ cursor_prefix self)) }
        ensures err { IfErr result (λ f. cursor_fault self ≡ Some f) }
    {
        if self.len == NO_MORE {
            return Ok(None);
        }
        Ok(Some(self.read()?))
    }

    /// The cursor that stands at a prefix, or at the end.
    pub fn cursor(at: Option<Prefix>) -> Block
        ensures { cursor_prefix result ≡ at }
    {
        match at {
            Some(prefix) => Block {
                addr: prefix.addr(),
                len: prefix.len(),
            },
            None => Block {
                addr: 0,
                len: NO_MORE,
            },
        }
    }
}

/// Finds the first prefix that has a fault.
pub fn check_blocks(blocks: &[Block]) -> Result<(), CallFault>
    ensures ok { OnOk result (first_block_fault blocks.now ≡ None) }
    ensures err { IfErr result (λ f. first_block_fault blocks.now ≡ Some f) }
{
    for &block in blocks {
        let _ = block.read()?;
    }
    Ok(())
}

/// Finds out whether a cursor is one, and there are as many places for words as for rows.
pub fn check_list(from: Block, rows: &[Row], words: &[u32]) -> Result<(), CallFault>
    ensures count { OnOk result (length words.now ≡ length rows.now) }
    ensures ok { OnOk result (first_of (cursor_fault from)
        (count_fault (length rows.now) (length words.now)) ≡ None) }
    ensures err { IfErr result (λ f. first_of (cursor_fault from)
        (count_fault (length rows.now) (length words.now)) ≡ Some f) }
{
    let _ = from.read_cursor()?;
    if rows.len() != words.len() {
        return Err(CallFault::BadCount);
    }
    Ok(())
}

/// A copy of a list of prefixes.
pub fn copy_blocks(alloc: Global, blocks: &[Block]) -> Result<Vec<Block>, CallFault>
    ensures ok { IfOk result (λ v. v.items ≡ blocks.now) }
    ensures err { IsOkUnless result CallFault.NoMemory }
{
    let mut copied = Vec::with_capacity(alloc, blocks.len())?;
    for &block in blocks {
        copied.push(block)?;
    }
    Ok(copied)
}

/// Takes the rows of prefixes out of an image.
pub fn remove_rows(image: &mut Kept, blocks: &[Block])
    requires { first_block_fault blocks.now ≡ None }
    ensures { image.new ≡ record image.old { rows = without_blocks blocks.now image.old.rows } }
{
    for &block in blocks {
        let Ok(prefix) = block.read() else {
            unreachable!()
        };
        image.remove_row(prefix);
    }
}

/// Writes the rows of an image from a prefix on, as many as there is room for, and says how many they
/// are, and where the others begin.
pub fn list_rows(image: &Kept, from: Option<Prefix>, rows: &mut [Row]) -> (usize, Option<Prefix>)
    ensures { IsFilledIn listed_row image.now.rows from rows.old rows.new result.0 result.1 }
{
    let mut at = from;
    let mut count = 0;
    while count < rows.len() {
        let Some(start) = at else {
            return (count, None);
        };
        let Some(row) = image.first_row_from(start) else {
            return (count, None);
        };
        at = next_prefix(row.0);
        rows[count] = Row::answer(Some((row.0, row.1.entry)));
        count += 1;
    }
    (count, at)
}

/// As `list_rows`, with the word of each row at its place in another list.
pub fn list_words(
    image: &Kept,
    from: Option<Prefix>,
    rows: &mut [Row],
    words: &mut [u32],
) -> (usize, Option<Prefix>)
    requires { length words.old ≡ length rows.old }
    ensures rows { IsFilledIn listed_row image.now.rows from rows.old rows.new result.0 result.1 }
    ensures words { IsFilledIn listed_word image.now.rows from words.old words.new result.0 result.1 }
{
    let mut at = from;
    let mut count = 0;
    while count < rows.len() {
        let Some(start) = at else {
            return (count, None);
        };
        let Some(one) = image.first_row_from(start) else {
            return (count, None);
        };
        at = next_prefix(one.0);
        rows[count] = Row::answer(Some((one.0, one.1.entry)));
        words[count] = one.1.word;
        count += 1;
    }
    (count, at)
}
