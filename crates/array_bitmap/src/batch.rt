//! Rows that are set in one call: all of them, or none.
//!
//! Each row is set as it comes, and what its prefix had before is noted. Where a row is refused, the notes
//! put back what each prefix had, the last one first. That needs no memory: a prefix that had a row has
//! one now too, and one that had none loses it.

ghost use Rattle.std.specs.Prelude.{◌≡◌, ◌≤◌, ◌<◌, [], List, is_some, true, length, vec_capacity, OnOk, OnErr};
ghost use Rattle.std.specs.FinMap.{put, find as row_of};
ghost use Rattle.ipv4_prefix.specs.Prefix.{Prefix as Block, prefix_cmp};
ghost use Rattle.network_model.specs.{Publication.with_rows, declared.route.Entry.Entry as Answer};
ghost use Rattle.array_bitmap.specs.{Batch.put_back, Batch.IsNoted, Image.rows_in, Image.IsSoundTree};

use crate::tree::Tree;
use network_model::{Entry, NoMemory, Prefix};
use std::alloc::Allocator;
use std::mem::size_of;

// What the notes take for a row.
const _: () = prove!(size_of::<Option<Entry>>() == 6);

/// Puts back what a prefix that has a row had before. It needs no memory.
fn put_back<A: Allocator>(tree: &mut Tree<A>, prefix: Prefix, before: Option<Entry>)
    requires sound { IsSoundTree tree.old }
    requires there { is_some (row_of prefix_cmp prefix (rows_in tree.old)) ≡ true }
    ensures sound { IsSoundTree tree.new }
    ensures rows { rows_in tree.new ≡ put_back prefix before (rows_in tree.old) }
{
    let Some(entry) = before else {
        tree.remove_row(prefix);
        return;
    };
    let _set = tree.set_row(prefix, entry);
}

/// Takes the rows back that were set and noted, the last one first.
fn take_back<A: Allocator>(
    tree: &mut Tree<A>,
    rows: &[(Prefix, Entry)],
    notes: &mut Vec<Option<Entry>, A>,
)
    requires sound { IsSoundTree tree.old }
    requires noted { (table : List (Block × Answer)) × IsNoted table rows.now notes.old.items (rows_in tree.old) }
    ensures sound { IsSoundTree tree.new }
    ensures back { (table : List (Block × Answer))
        → IsNoted table rows.now notes.old.items (rows_in tree.old) → rows_in tree.new ≡ table }
{
    while let Some(before) = notes.pop() {
        put_back(tree, rows[notes.len()].0, before);
    }
}

/// Sets rows in order, and notes what each prefix had before.
fn set_and_note<A: Allocator>(
    tree: &mut Tree<A>,
    rows: &[(Prefix, Entry)],
    notes: &mut Vec<Option<Entry>, A>,
) -> Result<(), NoMemory>
    requires sound { IsSoundTree tree.old }
    requires none { notes.old.items ≡ [] }
    requires room { length rows.now ≤ vec_capacity notes.old }
    ensures sound { IsSoundTree tree.new }
    ensures noted { IsNoted (rows_in tree.old) rows.now notes.new.items (rows_in tree.new) }
    ensures all { OnOk result (rows_in tree.new ≡ with_rows rows.now (rows_in tree.old)) }
{
    for &(prefix, entry) in rows {
        let before = tree.row(prefix);
        tree.set_row(prefix, entry)?;
        notes.push_reserved(before);
    }
    Ok(())
}

/// Sets rows in order, of which the last one need not be noted.
fn set_with_last<A: Allocator>(
    tree: &mut Tree<A>,
    others: &[(Prefix, Entry)],
    last: (Prefix, Entry),
    notes: &mut Vec<Option<Entry>, A>,
) -> Result<(), NoMemory>
    requires sound { IsSoundTree tree.old }
    requires none { notes.old.items ≡ [] }
    requires room { length others.now ≤ vec_capacity notes.old }
    ensures sound { IsSoundTree tree.new }
    ensures ok { OnOk result (rows_in tree.new
        ≡ put prefix_cmp last.0 last.1 (with_rows others.now (rows_in tree.old))) }
    ensures err { OnErr result (IsNoted (rows_in tree.old) others.now notes.new.items (rows_in tree.new)) }
{
    set_and_note(tree, others, notes)?;
    tree.set_row(last.0, last.1)
}

/// Sets rows in order. Where one is refused, the rows stay as they were. The notes take 6 bytes
/// for each row but the last. So a call with one row asks for no memory but that of its row.
pub(crate) fn set_all<A: Allocator>(
    tree: &mut Tree<A>,
    rows: &[(Prefix, Entry)],
    notes: &mut Vec<Option<Entry>, A>,
) -> Result<(), NoMemory>
    requires sound { IsSoundTree tree.old }
    ensures sound { IsSoundTree tree.new }
    ensures ok { OnOk result (rows_in tree.new ≡ with_rows rows.now (rows_in tree.old)) }
    ensures err { OnErr result (rows_in tree.new ≡ rows_in tree.old) }
    ensures full { OnErr result (0 < length rows.now) }
{
    let Some((last, others)) = rows.split_last() else {
        return Ok(());
    };
    notes.clear();
    notes.reserve(others.len())?;
    if let Err(error) = set_with_last(tree, others, *last, notes) {
        take_back(tree, others, notes);
        return Err(error);
    }
    Ok(())
}
