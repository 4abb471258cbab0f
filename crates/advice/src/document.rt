//! Why a file is no text, or its text no scenario or no document of times.

use crate::page::Brief;
use crate::position::{At, File};
use crate::why::Shown;
use faults::FaultKind;
use plans::Where;
use std::alloc::Global;
use std::io::{self, Write};
use toml::{Table, Value};

const KEYS: [&str; 4] = ["routers", "links", "prefixes", "script"];

/// The file of this name and these bytes, for which such a fault was told. It is told which byte is the first that is
/// not UTF-8, and where it stands, if there is one; then the file counts as empty.
pub(crate) fn read_file<'a, W: Write>(
    name: &'a str,
    bytes: &'a [u8],
    kind: FaultKind,
    out: &mut W,
) -> io::Result<File<'a>> {
    // A file that is too large was not read to its end, which may be half a character.
    if kind != FaultKind::TooLarge {
        explain_bytes(name, bytes, out)?;
    }
    let text = str::from_utf8(bytes).unwrap_or("");
    Ok(File { name, text })
}

fn explain_bytes<W: Write>(name: &str, bytes: &[u8], out: &mut W) -> io::Result<()> {
    let Err(error) = str::from_utf8(bytes) else {
        return Ok(());
    };
    let end = error.valid_up_to();
    let text = str::from_utf8(bytes.get(..end).unwrap_or(&[])).unwrap_or("");
    let at = File { name, text }.at_byte(end);
    match bytes.get(end) {
        Some(0xfe | 0xff) if end == 0 => {
            writeln!(out, "  {at}: it looks like UTF-16: save it as UTF-8")
        }
        Some(byte) => writeln!(out, "  {at}: the byte 0x{byte:x} is not UTF-8"),
        None => Ok(()),
    }
}

/// Tells where a text is no TOML document.
pub fn explain_document<W: Write>(alloc: Global, file: File<'_>, out: &mut W) -> io::Result<()> {
    if file.text.contains('\0') {
        let name = file.name;
        return writeln!(
            out,
            "  {name}: it has zero bytes: is it UTF-16? Save it as UTF-8"
        );
    }
    let Err(error) = toml::table_from_str(alloc, file.text) else {
        return Ok(());
    };
    let at = match error.span() {
        Some(span) => file.at_byte(span.start),
        None => At(file.name, None),
    };
    writeln!(out, "  {at}: {}", error.message())
}

/// Tells which keys of a document are not those of a scenario.
pub fn explain_keys<W: Write>(alloc: Global, file: File<'_>, out: &mut W) -> io::Result<()> {
    let Ok(table) = toml::table_from_str(alloc, file.text) else {
        return Ok(());
    };
    for &key in &KEYS {
        match table.get(key) {
            None => writeln!(out, "  the key `{key}` is missing")?,
            Some(value) if is_list(value) => {}
            Some(_) => {
                let at = file.at_key(key);
                writeln!(out, "  {at}: `{key}` is not an array of strings")?;
            }
        }
    }
    for (key, _) in table.iter() {
        let key = key.as_str();
        if !KEYS.contains(&key) {
            writeln!(out, "  {}: unknown key `{}`", file.at_key(key), Shown(key))?;
        }
    }
    Ok(())
}

fn is_list(value: &Value) -> bool {
    match value.as_array() {
        Some(values) => values.iter().all(|value| value.as_str().is_some()),
        None => false,
    }
}

/// Tells where a document of times is at fault, in which of its strings if it is one, when the fault comes, and what
/// to do.
pub(crate) fn explain_times<W: Write>(
    alloc: Global,
    name: &str,
    bytes: &[u8],
    kind: FaultKind,
    place: Where,
    out: &mut W,
) -> io::Result<()> {
    let file = read_file(name, bytes, kind, out)?;
    match place {
        Where::TimesLine { key, position } => {
            explain_string(alloc, file, key.name(), position, out)?;
        }
        _ if kind == FaultKind::BadToml => explain_document(alloc, file, out)?,
        _ => {}
    }
    write!(out, "{}", Brief(kind))
}

// Tells of the string at this position of a list: where it stands, and what it says.
fn explain_string<W: Write>(
    alloc: Global,
    file: File<'_>,
    key: &str,
    position: usize,
    out: &mut W,
) -> io::Result<()> {
    let Ok(table) = toml::table_from_str(alloc, file.text) else {
        return Ok(());
    };
    let Some(value) = value_at(&table, key, position) else {
        return Ok(());
    };
    let line = value.as_str().unwrap_or("");
    writeln!(out, "  {}: {}", file.at_string(key, position), Shown(line))
}

fn value_at<'a>(table: &'a Table, key: &str, position: usize) -> Option<&'a Value> {
    table.get(key)?.as_array()?.get(position)
}
