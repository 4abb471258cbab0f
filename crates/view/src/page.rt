//! A page that shows the states of a run.

ghost use Rattle.std.specs.Prelude.{OnOk};
ghost use Rattle.std.specs.Io.KnownBytes.{Appends};
ghost use Rattle.view.specs.Page.{page_text};

use crate::code::SCRIPT;
use crate::markup::{BODY, END, FOOT, HEAD};
use crate::style::STYLE;
use std::io::{self, Write};

/// Writes a page that shows these states, lines of JSON. They stand in the page as they are, so no `<` may
/// be among them: names of routers, prefixes, words and numbers have none.
pub(crate) fn write_page<W: Write>(states: &[u8], out: &mut W) -> io::Result<()>
    ensures { OnOk result (Appends (W.contents out.old) (W.contents out.new) (page_text states.now)) }
{
    out.write_all(HEAD.as_bytes())?;
    out.write_all(STYLE.as_bytes())?;
    out.write_all(BODY.as_bytes())?;
    out.write_all(states)?;
    out.write_all(FOOT.as_bytes())?;
    out.write_all(SCRIPT.as_bytes())?;
    out.write_all(END.as_bytes())
}
