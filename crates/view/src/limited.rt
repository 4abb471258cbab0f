//! A list of bytes that takes no more than a page has of states.

ghost use Rattle.std.specs.Prelude.{◌≡◌, ◌≤◌, [], length};
ghost use Rattle.view.specs.Page.{most_page_bytes};

use std::alloc::Global;
use std::io::{self, ErrorKind, Write};

/// The most bytes of states that a page has, where fewer states make them fewer.
const MOST_BYTES: usize = 20_000_000;

/// Bytes of states that were written, no more than a page has: a write that would make them more fails.
#[derive(Drop)]
pub(crate) struct Limited {
    pub bytes: Vec<u8>,
    ghost few: { length bytes.items ≤ most_page_bytes },
}

impl Limited {
    /// No bytes.
    pub(crate) fn new(alloc: Global) -> Limited
        ensures { result.bytes.items ≡ [] }
    {
        Limited {
            bytes: Vec::new(alloc),
        }
    }
}

impl Write for Limited {
    ghost use Rattle.std.specs.Prelude.{Some};

    ghost contents = { λ l. Some (l.bytes).items };

    fn write(&mut self, buf: &[u8]) -> io::Result<usize> {
        if buf.len() > MOST_BYTES.saturating_sub(self.bytes.len()) {
            return Err(io::Error::from(ErrorKind::FileTooLarge));
        }
        self.bytes.write(buf)
    }

    fn flush(&mut self) -> io::Result<()> {
        Ok(())
    }
}
