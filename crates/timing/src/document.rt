//! The document of times: three lists of lines, and two delays.

ghost use Rattle.std.specs.Prelude.{◌≡◌, ◌≢◌, ◌≤◌, IfOk, IfErr, Some, None, Err, map, string_bytes, option_and_then};
ghost use Rattle.toml.specs.{Parse.parse_document, View.table_view};
ghost use Rattle.timing.specs.Document.{delay_at, known_keys, list_at, lists_in_document, natural, present, times_in, HasNoTimes};

use plans::{DocumentFault, lines_at};
use std::alloc::Global;
use toml::Table;

/// What a document of times has. What its lines say is not read here.
#[derive(Drop)]
pub struct Document {
    /// The delays of links.
    pub links: Vec<String>,
    /// The delays of routers.
    pub routers: Vec<String>,
    /// The changes, each with its moment.
    pub changes: Vec<String>,
    /// The delay of links that are not listed, in microseconds.
    pub link: u64,
    /// The delay of routers that are not listed, in microseconds.
    pub router: u64,
}

/// The document of a text. Each of its five keys may be left out: then a list is empty, and a delay 0. A text
/// that is no TOML document is a `BadToml`, a document with other keys or values a `BadKey`.
pub fn read_document(alloc: Global, text: &str) -> Result<Document, DocumentFault>
    ensures ok { IfOk result (λ d. option_and_then times_in (parse_document text.now)
        ≡ Some (lists_in_document d)) }
    ensures bad_key { result ≡ Err DocumentFault.BadKey → HasNoTimes (parse_document text.now) }
    ensures bad_toml { result ≡ Err DocumentFault.BadToml → parse_document text.now ≡ None }
{
    let table = match toml::table_from_str(alloc, text) {
        Ok(table) => table,
        Err(error) => {
            return Err(if error.is_memory() {
                DocumentFault::NoMemory
            } else {
                DocumentFault::BadToml
            });
        }
    };
    if table.len() != known_keys(&table) {
        return Err(DocumentFault::BadKey);
    }
    let links = lines_or_none(alloc, &table, "links")?;
    let routers = lines_or_none(alloc, &table, "routers")?;
    let changes = lines_or_none(alloc, &table, "changes")?;
    let link = delay_or_none(&table, "link")?;
    let router = delay_or_none(&table, "router")?;
    Ok(Document {
        links,
        routers,
        changes,
        link,
        router,
    })
}

// How many of the five keys a table has.
fn known_keys(table: &Table) -> usize
    ensures { result ≡ known_keys (table_view table.now) }
{
    count_key(table, "links")
        + count_key(table, "routers")
        + count_key(table, "changes")
        + count_key(table, "link")
        + count_key(table, "router")
}

// Whether a key is there, as a number.
fn count_key(table: &Table, key: &str) -> usize
    ensures count { result ≡ present key.now (table_view table.now) }
    ensures few { result ≤ 1 }
{
    match table.get(key) {
        Some(_) => 1,
        None => 0,
    }
}

// The strings of the array at a key; none where the key is not there.
fn lines_or_none(alloc: Global, table: &Table, key: &str) -> Result<Vec<String>, DocumentFault>
    ensures ok { IfOk result (λ v. list_at key.now (table_view table.now)
        ≡ Some (map string_bytes v.items)) }
    ensures bad_key { result ≡ Err DocumentFault.BadKey → list_at key.now (table_view table.now) ≡ None }
    ensures no_toml { result ≢ Err DocumentFault.BadToml }
{
    if count_key(table, key) == 0 {
        return Ok(Vec::new(alloc));
    }
    lines_at(alloc, table, key)
}

// The number at a key, which is 0 or more; 0 where the key is not there.
fn delay_or_none(table: &Table, key: &str) -> Result<u64, DocumentFault>
    ensures ok { IfOk result (λ n. delay_at key.now (table_view table.now) ≡ Some n) }
    ensures bad_key { IfErr result (λ e. (e ≡ DocumentFault.BadKey)
        × (delay_at key.now (table_view table.now) ≡ None)) }
{
    let Some(value) = table.get(key) else {
        return Ok(0);
    };
    let Some(number) = value.as_integer() else {
        return Err(DocumentFault::BadKey);
    };
    match natural(number) {
        Some(delay) => Ok(delay),
        None => Err(DocumentFault::BadKey),
    }
}

// The number, if it is 0 or more.
fn natural(number: i64) -> Option<u64>
    ensures { result ≡ natural number }
{
    u64::try_from(number).ok()
}
