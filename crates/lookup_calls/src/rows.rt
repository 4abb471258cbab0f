//! Lists of rows and of words, and answers to lists of addresses.

ghost use Rattle.std.specs.Prelude.{◌≡◌, ◌≤◌, None, Some, IfOk, IfErr, OnOk, IsOkUnless, length, map};
ghost use Rattle.std.specs.Option.{option_map};
ghost use Rattle.array_bitmap.specs.Words.{len_of};
ghost use Rattle.c_interface.specs.Rows.{answer_row, row_entry};
ghost use Rattle.lookup_calls.specs.{Images.new_rows, Tables.plain_rows, Tables.worded_rows};
ghost use Rattle.lookup_calls.specs.Rows.{answer_rows, entry_answer, first_row_fault, image_rows, word_row, words_fault};
ghost use Rattle.network_model.specs.Publication.{image_answer};

use crate::kept::Kept;
use crate::patch::NewRows;
use array_bitmap::Image;
use c_interface::{CallFault, Row};
use network_model::{Entry, Prefix};
use row_words::{Marked, WordImage};
use std::alloc::Global;
use std::cmp::min;

/// How many answers are on their way to C at once.
const FOUND: usize = 32;

/// Finds the first row that has a fault.
pub fn check_rows(rows: &[Row]) -> Result<(), CallFault>
    ensures ok { OnOk result (first_row_fault rows.now ≡ None) }
    ensures err { IfErr result (λ f. first_row_fault rows.now ≡ Some f) }
{
    for &row in rows {
        let _ = row.read()?;
    }
    Ok(())
}

/// Finds the first row that has a fault, or else whether there is not a word for each.
pub fn check_words(rows: &[Row], words: &[u32]) -> Result<(), CallFault>
    ensures rows { OnOk result (first_row_fault rows.now ≡ None) }
    ensures count { OnOk result (length words.now ≡ length rows.now) }
    ensures ok { OnOk result (words_fault rows.now words.now ≡ None) }
    ensures err { IfErr result (λ f. words_fault rows.now words.now ≡ Some f) }
{
    check_rows(rows)?;
    if rows.len() != words.len() {
        return Err(CallFault::BadCount);
    }
    Ok(())
}

fn read_rows(alloc: Global, rows: &[Row]) -> Result<Vec<(Prefix, Entry)>, CallFault>
    requires { first_row_fault rows.now ≡ None }
    ensures ok { IfOk result (λ v. v.items ≡ map row_entry rows.now) }
    ensures err { IsOkUnless result CallFault.NoMemory }
{
    let mut read = Vec::with_capacity(alloc, rows.len())?;
    for &row in rows {
        read.push(row.read()?)?;
    }
    Ok(read)
}

/// The prefixes and entries of rows, with their words.
fn read_words(
    alloc: Global,
    rows: &[Row],
    words: &[u32],
) -> Result<Vec<(Prefix, Marked)>, CallFault>
    requires rows { first_row_fault rows.now ≡ None }
    requires count { length words.now ≡ length rows.now }
    ensures ok { IfOk result (λ v. v.items ≡ worded_rows rows.now words.now) }
    ensures err { IsOkUnless result CallFault.NoMemory }
{
    let mut read = Vec::with_capacity(alloc, rows.len())?;
    for k in 0..rows.len() {
        let (prefix, entry) = rows[k].read()?;
        let word = words[k];
        read.push((prefix, Marked { entry, word }))?;
    }
    Ok(read)
}

/// Rows to set, which have no words.
pub fn plain_rows(alloc: Global, rows: &[Row]) -> Result<NewRows, CallFault>
    requires { first_row_fault rows.now ≡ None }
    ensures ok { IfOk result (λ r. new_rows r ≡ plain_rows rows.now) }
    ensures err { IsOkUnless result CallFault.NoMemory }
{
    Ok(NewRows::Plain(read_rows(alloc, rows)?))
}

/// Rows to set, each with a word.
pub fn worded_rows(alloc: Global, rows: &[Row], words: &[u32]) -> Result<NewRows, CallFault>
    requires rows { first_row_fault rows.now ≡ None }
    requires count { length words.now ≡ length rows.now }
    ensures ok { IfOk result (λ r. new_rows r ≡ worded_rows rows.now words.now) }
    ensures err { IsOkUnless result CallFault.NoMemory }
{
    Ok(NewRows::Words(read_words(alloc, rows, words)?))
}

/// The row of an answer word for an address. No branch depends on the word: that for no row has kind 3,
/// and zeros.
fn row_of(addr: u32, word: u32) -> Row
    requires { len_of word ≤ 32 }
    ensures { result ≡ word_row addr word }
{
    let len = word >> 26;
    let host_len = 32 - len;
    let first = u64::from(addr) >> host_len << host_len;
    Row {
        addr: first as u32,
        len: len as u8,
        kind: ((word >> 24) % 4) as u8,
        port: ((word >> 16) % 0x100) as u8,
        session: (word % 0x1_0000) as u16,
    }
}

/// The row that an image without words answers for an address.
pub fn answer(image: &Image, addr: u32) -> Row
    ensures { result ≡ answer_row (image_answer image.now addr) }
{
    row_of(addr, image.lookup_word(addr))
}

/// Writes what an image without words answers for each of at most 32 addresses.
pub fn answer_burst(image: &Image, addrs: &[u32], answers: &mut [Row])
    requires few { length addrs.now ≤ 32 }
    requires one_each { length answers.old ≡ length addrs.now }
    ensures { answers.new ≡ image_rows image.now addrs.now }
{
    let mut words = [0; FOUND];
    image.lookup_words(addrs, &mut words[..addrs.len()]);
    for k in 0..addrs.len() {
        answers[k] = row_of(addrs[k], words[k]);
    }
}

fn row_without_word(found: Option<(Prefix, Marked)>) -> Row
    ensures { result ≡ answer_row (option_map (λ r. (r.0, r.1.entry)) found) }
{
    match found {
        Some((prefix, mark)) => Row::answer(Some((prefix, mark.entry))),
        None => Row::answer(None),
    }
}

/// The row that an image with words answers for an address.
pub fn answer_marked(image: &WordImage, addr: u32) -> Row
    ensures { result ≡ answer_row (entry_answer image.now addr) }
{
    row_without_word(image.lookup(addr))
}

/// Writes what an image with words answers for each of at most 32 addresses.
pub fn answer_marked_burst(image: &WordImage, addrs: &[u32], answers: &mut [Row])
    requires few { length addrs.now ≤ 32 }
    requires one_each { length answers.old ≡ length addrs.now }
    ensures { answers.new ≡ answer_rows image.now addrs.now }
{
    let mut room = [None; FOUND];
    let found = &mut room[..addrs.len()];
    image.lookup_all(addrs, found);
    for k in 0..addrs.len() {
        answers[k] = row_without_word(found[k]);
    }
}

/// Writes what an image answers for each of the addresses.
pub fn answer_all(image: &Kept, addrs: &[u32], answers: &mut [Row])
    requires { length answers.old ≡ length addrs.now }
    ensures { answers.new ≡ answer_rows image.now addrs.now }
{
    if addrs.len() == 1 {
        answers[0] = image.answer(addrs[0]);
        return;
    }
    let mut done = 0;
    while done < addrs.len() {
        let end = min(done + FOUND, addrs.len());
        image.answer_burst(&addrs[done..end], &mut answers[done..end]);
        done = end;
    }
}
