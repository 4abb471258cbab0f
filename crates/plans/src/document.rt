//! The document that a scenario is: four keys, each with a list of strings.

ghost use Rattle.std.specs.Prelude.{◌≡◌, ◌≢◌, IfOk, Some, None, map, string_bytes, option_and_then};
ghost use Rattle.toml.specs.{Parse.parse_document, View.table_view, View.items_view};
ghost use Rattle.plans.specs.Document.{document_kind, lists_in, lists_in_lines, texts_of, texts_at, HasNoLists};
ghost use Rattle.plans.specs.declared.document.DocumentFault.TheVariants.{NoMemory as OutOfMemory};

use faults::FaultKind;
use std::alloc::{AllocError, Global};
use thiserror::Error;
use toml::{Table, Value};

/// The lines of a scenario, in order. What they say is not read here.
#[derive(Drop)]
pub struct Lines {
    /// The names of the routers.
    pub routers: Vec<String>,
    /// The links.
    pub links: Vec<String>,
    /// The prefixes, and the routers attached to them.
    pub prefixes: Vec<String>,
    /// The commands.
    pub script: Vec<String>,
}

/// The lines of a scenario's text. A text that is no TOML document is a `BadToml`, a document with
/// other keys or values a `BadKey`.
pub fn read_scenario(alloc: Global, text: &str) -> Result<Lines, DocumentFault>
    ensures ok { IfOk result (λ lines. option_and_then lists_in (parse_document text.now)
        ≡ Some (lists_in_lines lines)) }
    ensures bad_key { result ≡ Err DocumentFault.BadKey → HasNoLists (parse_document text.now) }
    ensures bad_toml { result ≡ Err DocumentFault.BadToml → parse_document text.now ≡ None }
{
    let table = match toml::table_from_str(alloc, text) {
        Ok(table) => table,
        Err(error) => {
            return Err(if error.is_memory() {
                DocumentFault::NoMemory
            } else {
                DocumentFault::BadToml
            });
        }
    };
    if table.len() != 4 {
        return Err(DocumentFault::BadKey);
    }
    let routers = lines_at(alloc, &table, "routers")?;
    let links = lines_at(alloc, &table, "links")?;
    let prefixes = lines_at(alloc, &table, "prefixes")?;
    let script = lines_at(alloc, &table, "script")?;
    Ok(Lines {
        routers,
        links,
        prefixes,
        script,
    })
}

/// The strings of the array at a key. A key that is not there, or has something else, is a `BadKey`.
pub fn lines_at(alloc: Global, table: &Table, key: &str) -> Result<Vec<String>, DocumentFault>
    ensures ok { IfOk result (λ v. texts_at key.now (table_view table.now)
        ≡ Some (map string_bytes v.items)) }
    ensures bad_key { result ≡ Err DocumentFault.BadKey → texts_at key.now (table_view table.now) ≡ None }
    ensures no_toml { result ≢ Err DocumentFault.BadToml }
{
    let Some(value) = table.get(key) else {
        return Err(DocumentFault::BadKey);
    };
    match value.as_array() {
        Some(values) => strings(alloc, values),
        None => Err(DocumentFault::BadKey),
    }
}

// The strings of an array, in order.
fn strings(alloc: Global, values: &[Value]) -> Result<Vec<String>, DocumentFault>
    ensures ok { IfOk result (λ v. texts_of (items_view values.now)
        ≡ Some (map string_bytes v.items)) }
    ensures bad_key { result ≡ Err DocumentFault.BadKey → texts_of (items_view values.now) ≡ None }
    ensures no_toml { result ≢ Err DocumentFault.BadToml }
{
    let mut lines = Vec::new(alloc);
    for value in values {
        let text = value.as_str().ok_or(DocumentFault::BadKey)?;
        let line = String::from_str(alloc, text)?;
        lines.push(line).map_err(|_| DocumentFault::NoMemory)?;
    }
    Ok(lines)
}

/// Why a text is no scenario. Its text is its number and name.
#[derive(Clone, Copy, Debug, Drop, Error)]
#[error("{}", FaultKind::from(*self))]
pub enum DocumentFault {
    /// It is no TOML document.
    BadToml,
    /// It has not exactly the keys `routers`, `links`, `prefixes` and `script`, each with an array of strings.
    BadKey,
    /// A growth was refused.
    NoMemory,
}

impl From<DocumentFault> for FaultKind {
    ghost from_gives = { λ fault k. k ≡ document_kind fault };

    fn from(fault: DocumentFault) -> FaultKind {
        match fault {
            DocumentFault::BadToml => FaultKind::BadToml,
            DocumentFault::BadKey => FaultKind::BadKey,
            DocumentFault::NoMemory => FaultKind::NoMemory,
        }
    }
}

impl From<AllocError> for DocumentFault {
    ghost from_gives = { λ _ e. e ≡ OutOfMemory };

    fn from(_error: AllocError) -> DocumentFault {
        DocumentFault::NoMemory
    }
}
