//! Answer words: what a row answers, in 32 bits.

ghost use Rattle.std.specs.Prelude.{◌≡◌, ◌≤◌, ◌<◌};
ghost use Rattle.array_bitmap.specs.Words.{len_of, row_word, word_entry, IsRowWord};

use network_model::Entry;

/// The word for no row.
pub(crate) const NOTHING: u32 = 0x0300_0000;

/// The word of a row.
pub(crate) fn word_of(len: u8, entry: Entry) -> u32
    requires { len ≤ 32 }
    ensures value { result ≡ row_word len entry }
    ensures row { IsRowWord len result }
    ensures back { word_entry result ≡ entry }
{
    let length = u32::from(len) << 26;
    match entry {
        Entry::Local => length,
        Entry::Via { port, session } => {
            length + (1 << 24) + (u32::from(port) << 16) + u32::from(session)
        }
        Entry::Unreachable => length + (2 << 24),
    }
}

/// The length of the prefix of a row's word; 0 of the word for no row.
pub(crate) fn len_of(word: u32) -> u32
    ensures value { result ≡ len_of word }
    ensures bound { result < 64 }
{
    word >> 26
}

/// The entry of a row's word.
pub(crate) fn entry_of(word: u32) -> Entry
    ensures { result ≡ word_entry word }
{
    match (word >> 24) % 4 {
        0 => Entry::Local,
        1 => Entry::Via {
            port: ((word >> 16) % 0x100) as u8,
            session: (word % 0x1_0000) as u16,
        },
        _ => Entry::Unreachable,
    }
}
