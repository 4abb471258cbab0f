//! Reads the files of a scenario, of a document of times and of a journal.

ghost use Rattle.std.specs.Prelude.{◌≡◌, ◌<◌, ◌≤◌, ◌^◌, ◌↔◌, IfOk, IfErr, length, string_bytes, vec_len};
ghost use Rattle.std.specs.IoError.{error_kind};
ghost use Rattle.texts.specs.Words.{Text};
ghost use Rattle.plans.specs.Faults.{Gives, IsUnread, IsUnreadFrom, CannotRead, most_journal_bytes};

use faults::FaultKind;
use std::alloc::Global;
use std::io::{self, ErrorKind, Read};

/// The most bytes that the file of a scenario may have.
const MOST_BYTES: usize = 4_194_304;

/// The most bytes that the file of a journal may have, which is more than a million steps and their report take.
const MOST_JOURNAL_BYTES: usize = 268_435_456;

/// The whole text that the reader gives. It reads one byte more than a scenario may have, at most.
pub fn read_text<R: Read + Drop>(alloc: Global, reader: R) -> Result<String, FaultKind>
    ensures whole { IfOk result (λ text. Gives (R.remaining reader) (string_bytes text)) }
    ensures short { IfOk result (λ text. length (string_bytes text) ≤ MOST_BYTES) }
    ensures fault { IfErr result (λ kind. (bytes : Text) × Gives (R.remaining reader) bytes
        × IsUnread bytes kind) }
{
    let bytes = read_most(alloc, reader, MOST_BYTES)?;
    match String::from_utf8(bytes) {
        Ok(text) => Ok(text),
        Err(_) => Err(FaultKind::BadToml),
    }
}

/// All bytes of a journal that the reader gives. It reads one byte more than a journal may have, at most.
pub fn read_bytes<R: Read + Drop>(alloc: Global, reader: R) -> Result<Vec<u8>, FaultKind>
    ensures whole { IfOk result (λ v. Gives (R.remaining reader) v.items) }
    ensures short { IfOk result (λ v. vec_len v ≤ MOST_JOURNAL_BYTES) }
    ensures fault { IfErr result (λ kind. (bytes : Text) × Gives (R.remaining reader) bytes
        × IsUnreadFrom most_journal_bytes bytes kind) }
{
    read_most(alloc, reader, MOST_JOURNAL_BYTES)
}

// All bytes that the reader gives, if there are no more than these. It reads one byte more, at most.
fn read_most<R: Read + Drop>(alloc: Global, reader: R, most: usize) -> Result<Vec<u8>, FaultKind>
    requires { most < 2 ^ 32 }
    ensures whole { IfOk result (λ v. Gives (R.remaining reader) v.items) }
    ensures short { IfOk result (λ v. vec_len v ≤ most) }
    ensures fault { IfErr result (λ kind. (bytes : Text) × Gives (R.remaining reader) bytes
        × IsUnreadFrom most bytes kind) }
{
    let mut bytes = Vec::new(alloc);
    let mut reader = reader.take(most as u64 + 1);
    if let Err(error) = reader.read_to_end(&mut bytes) {
        return Err(read_failure(&error));
    }
    if bytes.len() > most {
        return Err(FaultKind::TooLarge);
    }
    Ok(bytes)
}

/// Why a reader failed.
pub fn read_failure(error: &io::Error) -> FaultKind
    ensures unread { CannotRead result }
    ensures memory { (result ≡ FaultKind.NoMemory) ↔ (error_kind error.now ≡ ErrorKind.OutOfMemory) }
{
    match error.kind() {
        ErrorKind::OutOfMemory => FaultKind::NoMemory,
        _ => FaultKind::Unreadable,
    }
}
