//! Lines as they are told: as text for people, or as objects of JSON.

ghost use Rattle.std.specs.{Prelude.OnOk, Prelude.Some, Fmt.DisplaysOnOk, Io.KnownBytes.Appends};
ghost use Rattle.lines.specs.Formats.{line_in, of_format, printed};

use crate::line::Line;
use command_line::Format;
use script::Directory;
use std::fmt::{self, Display};
use std::io::{self, Write};

/// How lines are told: by the names of a network's routers, in a format.
#[derive(Clone, Copy)]
pub struct Printer<'a> {
    pub directory: &'a Directory,
    pub format: Format,
    /// Whether lines are the elements of a list, each behind a comma, and not on lines of their own.
    pub listed: bool,
}

impl Printer<'_> {
    /// Prints a line.
    pub fn print<W: Write>(&self, line: &Line<'_>, out: &mut W) -> io::Result<()>
        ensures { OnOk result (Appends (W.contents out.old) (W.contents out.new)
            (printed self.now line.now)) }
    {
        let told = Told(*self, line);
        if self.listed {
            return write!(out, ",{told}");
        }
        writeln!(out, "{told}")
    }
}

/// A line as it is told, or a part of one.
#[derive(Clone, Copy)]
pub struct Told<'a, T>(pub Printer<'a>, pub T);

// Writes the text of the format.
pub(crate) fn either<W: fmt::Write, A: Display + Drop, B: Display + Drop>(
    f: &mut fmt::Formatter<W>,
    format: Format,
    text: A,
    json: B,
) -> fmt::Result
    ensures { DisplaysOnOk W.Write.write_str_gives f.old result
        (of_format format (A.Display.output text) (B.Display.output json)) f.new }
{
    match format {
        Format::Text => f.write(text),
        Format::Json => f.write(json),
    }
}

impl fmt::Display for Told<'_, &Line<'_>> {
    ghost output = { λ t. Some (line_in t.0.format t.0.directory.now t.1.now) };

    fn fmt<W: fmt::Write>(&self, f: &mut fmt::Formatter<W>) -> fmt::Result {
        let by = self.0;
        match *self.1 {
            Line::Asked(asked) => Told(by, asked).fmt(f),
            Line::Traced(ref line) => Told(by, line).fmt(f),
            Line::Link(line) => Told(by, line).fmt(f),
            Line::Router(line) => Told(by, line).fmt(f),
            Line::Machine(line) => Told(by, line).fmt(f),
            Line::Unheard { router, prefix } => Told(by, (router, prefix)).fmt(f),
            Line::Awaits(ref line) => Told(by, line).fmt(f),
            Line::Known(line) => Told(by, line).fmt(f),
            Line::Waiting(waiting) => Told(by, waiting).fmt(f),
            Line::Moved(waiting) => {
                let moved = Told(by, waiting);
                write_either!(f, by; "  {moved}", "{moved}")
            }
            Line::Next(ref line) => Told(by, line).fmt(f),
            Line::Tried(fault) => Told(by, fault).fmt(f),
            Line::Counted(counts) => {
                let counts = Told(by, counts);
                write_either!(f, by; "count: {counts}", "{{\"kind\":\"count\",{counts}}}")
            }
            Line::Ended(ended) => Told(by, ended).fmt(f),
            Line::Changed(ref line) => Told(by, line).fmt(f),
            Line::Spell(line) => Told(by, line).fmt(f),
        }
    }
}
