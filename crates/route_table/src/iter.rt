//! Iterators over the rows of a table, in the order of their prefixes.

ghost use Rattle.std.specs.Prelude.{◌≡◌};
ghost use Rattle.std.specs.Iterator.{YieldsFirst, item_count};
ghost use Rattle.route_table.specs.Rows.{control_rows, published_rows};

use crate::row::Row;
use network_model::{Entry, Prefix};
use std::marker::Model;

/// The control rows.
#[derive(Drop)]
pub struct ControlRows<'a> {
    rows: &'a [(Prefix, Row)],
}

impl<'a> Model for ControlRows<'a> {
    ghost use Rattle.std.specs.Prelude.{List};
    ghost use Rattle.ipv4_prefix.specs.Prefix.{Prefix as Block};
    ghost use Rattle.network_model.specs.declared.route.Entry.{Entry};
    ghost use Rattle.route_table.specs.Rows.{control_rows};

    ghost Value = { List (Block × Entry) };

    ghost view = { λ s. control_rows s.rows.now };
}

impl<'a> ControlRows<'a> {
    pub(crate) fn new(rows: &'a [(Prefix, Row)]) -> Self
        ensures { result ≡ control_rows rows.now }
    {
        ControlRows { rows }
    }
}

impl Iterator for ControlRows<'_> {
    type Item = (Prefix, Entry);

    ghost next_gives = { YieldsFirst (λ s. s) };

    ghost remaining = { item_count (λ s. s) };

    fn next(&mut self) -> Option<(Prefix, Entry)> {
        let ((prefix, row), rest) = self.rows.split_first()?;
        self.rows = rest;
        Some((*prefix, row.control))
    }
}

/// The published rows.
#[derive(Drop)]
pub struct PublishedRows<'a> {
    rows: &'a [(Prefix, Row)],
}

impl<'a> Model for PublishedRows<'a> {
    ghost use Rattle.std.specs.Prelude.{List};
    ghost use Rattle.ipv4_prefix.specs.Prefix.{Prefix as Block};
    ghost use Rattle.network_model.specs.declared.route.Entry.{Entry};
    ghost use Rattle.route_table.specs.Rows.{published_rows};

    ghost Value = { List (Block × Entry) };

    ghost view = { λ s. published_rows s.rows.now };
}

impl<'a> PublishedRows<'a> {
    pub(crate) fn new(rows: &'a [(Prefix, Row)]) -> Self
        ensures { result ≡ published_rows rows.now }
    {
        PublishedRows { rows }
    }
}

impl Iterator for PublishedRows<'_> {
    type Item = (Prefix, Entry);

    ghost next_gives = { YieldsFirst (λ s. s) };

    ghost remaining = { item_count (λ s. s) };

    fn next(&mut self) -> Option<(Prefix, Entry)> {
        while let Some(((prefix, row), rest)) = self.rows.split_first() {
            self.rows = rest;
            if let Some(entry) = row.published {
                return Some((*prefix, entry));
            }
        }
        None
    }
}

/// The control rows that differ from the published ones.
#[derive(Drop)]
pub struct ChangedRows<'a> {
    rows: &'a [(Prefix, Entry)],
}

impl<'a> Model for ChangedRows<'a> {
    ghost use Rattle.std.specs.Prelude.{List};
    ghost use Rattle.ipv4_prefix.specs.Prefix.{Prefix as Block};
    ghost use Rattle.network_model.specs.declared.route.Entry.{Entry};

    ghost Value = { List (Block × Entry) };

    ghost view = { λ s. s.rows.now };
}

impl<'a> ChangedRows<'a> {
    pub(crate) fn new(rows: &'a [(Prefix, Entry)]) -> Self
        ensures { result ≡ rows.now }
    {
        ChangedRows { rows }
    }
}

impl Iterator for ChangedRows<'_> {
    type Item = (Prefix, Entry);

    ghost next_gives = { YieldsFirst (λ s. s) };

    ghost remaining = { item_count (λ s. s) };

    fn next(&mut self) -> Option<(Prefix, Entry)> {
        let (row, rest) = self.rows.split_first()?;
        self.rows = rest;
        Some(*row)
    }
}
