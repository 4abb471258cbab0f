//! Does commands as they come, a line each.

ghost use Rattle.std.specs.Prelude.{IfErr};
ghost use Rattle.play.specs.Works.{CannotReadOn, WereTried};

use crate::program::Streams;
use advice::{Typed, explain_typed};
use command_line::{Format, SHELL_COMMANDS};
use fabric::FabricName;
use faults::FaultKind;
use interpreter::{Host, Interpreter, Live, Staffed, Threaded, TurnGate, do_command};
use plans::{Fault, read_failure, refuse};
use script::read_command;
use std::fmt;
use std::io::{self, BufRead, BufReader, ErrorKind, Read, Write};

/// Does the commands that the lines of an input say, each answered at once, to the end of the input or to `quit`, or
/// to the first answer that nobody reads any more. A line that cannot be read or whose command is refused ends nothing: it
/// is told on `err`, and as JSON in its answer.
pub fn do_lines<B, H, N, G, J, W, E>(
    interpreter: &Interpreter<'_, G>,
    net: &mut N,
    input: J,
    streams: &mut Streams<'_, '_, W, E>,
) -> Result<(), Fault>
where
    B: FabricName + Send + Sync + 'static,
    H: Host,
    N: Threaded<Staffed<B, H>>,
    G: TurnGate + Sync,
    J: Read + Drop,
    W: Write,
    E: Write,
    ensures tried { WereTried N.meaning net.old net.new }
    ensures fault { IfErr result CannotReadOn }
{
    let alloc = interpreter.alloc;
    let mut number = 0_usize;
    let reader = read_as_told(BufReader::new(alloc, input))?;
    for line in reader.split(alloc, b'\n') {
        number = number.saturating_add(1);
        let line = read_as_told(line)?;
        if !do_line(interpreter, net, number, &line, streams) {
            return Ok(());
        }
    }
    Ok(())
}

// What was read, or the fault for which it was not.
fn read_as_told<T: Drop>(read: io::Result<T>) -> Result<T, Fault>
    ensures { IfErr result CannotReadOn }
{
    match read {
        Ok(read) => Ok(read),
        Err(error) => Err(Fault::from(read_failure(&error))),
    }
}

// Does what the line of this number says, tells of it where it cannot be read or is refused, and answers
// whether the shell goes on.
fn do_line<B, H, N, G, W, E>(
    interpreter: &Interpreter<'_, G>,
    net: &mut N,
    number: usize,
    line: &[u8],
    streams: &mut Streams<'_, '_, W, E>,
) -> bool
where
    B: FabricName + Send + Sync + 'static,
    H: Host,
    N: Threaded<Staffed<B, H>>,
    G: TurnGate + Sync,
    W: Write,
    E: Write,
    ensures { WereTried N.meaning net.old net.new }
{
    let line = line.strip_suffix(b"\r").unwrap_or(line);
    let done = answer_line(interpreter, net, number, line, streams.out);
    let typed = Typed {
        names: interpreter.directory.names(),
        links: net.network().links(),
        number,
        line,
    };
    tell(interpreter, &typed, done.err(), net.steps(), streams);
    !is_unread(streams.out) && done.unwrap_or(true)
}

// Whether nobody reads any more what is printed.
fn is_unread<W: Write>(out: &mut W) -> bool {
    match out.flush() {
        Ok(()) => false,
        Err(error) => error.kind() == ErrorKind::BrokenPipe,
    }
}

// Does what the line of this number says, and answers whether the shell goes on. As JSON, what it prints
// is the list of an answer that has begun.
fn answer_line<B, H, N, G, W>(
    interpreter: &Interpreter<'_, G>,
    net: &mut N,
    number: usize,
    line: &[u8],
    out: &mut W,
) -> Result<bool, FaultKind>
where
    B: FabricName + Send + Sync + 'static,
    H: Host,
    N: Threaded<Staffed<B, H>>,
    G: TurnGate + Sync,
    W: Write,
    ensures { WereTried N.meaning net.old net.new }
{
    match interpreter.style.format {
        Format::Text => answer(interpreter, net, line, out),
        Format::Json => {
            let _ = begin_answer(number, out);
            answer(interpreter, net, line, &mut Elements::new(out))
        }
    }
}

// Does what a line says, and answers whether the shell goes on. An empty line says nothing.
fn answer<B, H, N, G, W>(
    interpreter: &Interpreter<'_, G>,
    net: &mut N,
    line: &[u8],
    out: &mut W,
) -> Result<bool, FaultKind>
where
    B: FabricName + Send + Sync + 'static,
    H: Host,
    N: Threaded<Staffed<B, H>>,
    G: TurnGate + Sync,
    W: Write,
    ensures { WereTried N.meaning net.old net.new }
{
    let Ok(line) = str::from_utf8(line) else {
        return Err(FaultKind::BadCommand);
    };
    match line {
        "" => Ok(true),
        "quit" => Ok(false),
        "help" => {
            let _ = print_text(interpreter.style.format, "help", SHELL_COMMANDS, out);
            Ok(true)
        }
        _ => match line.strip_prefix("say ") {
            Some(text) => {
                let _ = print_text(interpreter.style.format, "said", text, out);
                Ok(true)
            }
            None => do_typed(interpreter, net, line, out),
        },
    }
}

// Does the command that a line says; the shell goes on.
fn do_typed<B, H, N, G, W>(
    interpreter: &Interpreter<'_, G>,
    net: &mut N,
    line: &str,
    out: &mut W,
) -> Result<bool, FaultKind>
where
    B: FabricName + Send + Sync + 'static,
    H: Host,
    N: Threaded<Staffed<B, H>>,
    G: TurnGate + Sync,
    W: Write,
    ensures { WereTried N.meaning net.old net.new }
{
    let opened = net.network();
    let command = read_command(
        interpreter.directory.names(),
        opened.links(),
        opened.attachments(),
        line,
    )?;
    do_command(interpreter, net, command, out, &mut ())?;
    Ok(true)
}

// ---- what is printed beside the lines of commands

// Prints a text, as JSON in an object of this kind, which is an element of a list.
fn print_text<W: Write>(format: Format, kind: &str, text: &str, out: &mut W) -> io::Result<()> {
    match format {
        Format::Text => writeln!(out, "{text}"),
        Format::Json => {
            let text = Escaped(text);
            write!(out, ",{{\"kind\":\"{kind}\",\"text\":\"{text}\"}}")
        }
    }
}

// Tells of a line why it was not done, if it was not; as JSON it ends the line's answer.
fn tell<G, W: Write, E: Write>(
    interpreter: &Interpreter<'_, G>,
    typed: &Typed<'_>,
    fault: Option<FaultKind>,
    steps: u64,
    streams: &mut Streams<'_, '_, W, E>,
) {
    match interpreter.style.format {
        Format::Text => {
            if let Some(kind) = fault {
                print_fault(interpreter, typed, kind, streams);
            }
        }
        Format::Json => {
            let _ = end_answer(interpreter, typed, fault, steps, streams.out);
        }
    }
}

// Tells on `err` why a line was not done, after all that was printed before, and more where that is asked
// for. A write that fails is lost.
fn print_fault<G, W: Write, E: Write>(
    interpreter: &Interpreter<'_, G>,
    typed: &Typed<'_>,
    kind: FaultKind,
    streams: &mut Streams<'_, '_, W, E>,
) {
    let _ = streams.out.flush();
    let _ = refuse(Fault::from(kind), streams.err);
    if interpreter.style.explain {
        let _ = explain_typed(interpreter.alloc, typed, kind, streams.err);
    }
}

// Begins the object that answers the line of this number, up to its list of lines.
fn begin_answer<W: Write>(number: usize, out: &mut W) -> io::Result<()> {
    write!(
        out,
        "{{\"kind\":\"answer\",\"command\":{number},\"lines\":["
    )
}

// Ends that object: the fault, if there is one, what is told more of it, and how many steps were done.
fn end_answer<G, W: Write>(
    interpreter: &Interpreter<'_, G>,
    typed: &Typed<'_>,
    fault: Option<FaultKind>,
    steps: u64,
    out: &mut W,
) -> io::Result<()> {
    end_lines(interpreter, typed, fault, out)?;
    writeln!(out, ",\"steps\":{steps}}}")
}

// Ends its list of lines, and tells of the fault.
fn end_lines<G, W: Write>(
    interpreter: &Interpreter<'_, G>,
    typed: &Typed<'_>,
    fault: Option<FaultKind>,
    out: &mut W,
) -> io::Result<()> {
    let Some(kind) = fault else {
        return write!(out, "],\"fault\":null");
    };
    write!(out, "],\"fault\":\"{kind}\"")?;
    if !interpreter.style.explain {
        return Ok(());
    }
    let mut bytes = Vec::new(interpreter.alloc);
    // Where there is no memory for all of it, what there is memory for is told.
    let _ = explain_typed(interpreter.alloc, typed, kind, &mut bytes);
    let text = Escaped(str::from_utf8(&bytes).unwrap_or(""));
    write!(out, ",\"told\":\"{text}\"")
}

// A text inside the quotes of JSON.
#[derive(Clone, Copy)]
struct Escaped<'a>(pub &'a str);

impl fmt::Display for Escaped<'_> {
    fn fmt<W: fmt::Write>(&self, f: &mut fmt::Formatter<W>) -> fmt::Result {
        for letter in self.0.chars() {
            escape(letter, f)?;
        }
        Ok(())
    }
}

fn escape<W: fmt::Write>(letter: char, f: &mut fmt::Formatter<W>) -> fmt::Result {
    match letter {
        '"' => f.write_str("\\\""),
        '\\' => f.write_str("\\\\"),
        '\n' => f.write_str("\\n"),
        '\0'..='\u{1f}' => write!(f, "\\u{:04x}", u32::from(letter)),
        _ => f.write_char(letter),
    }
}

// What writes the elements of a list, each of them behind a comma. The first comma is left out.
#[derive(Drop)]
struct Elements<'a, W> {
    out: &'a mut W,
    has_begun: bool,
}

impl<'a, W: Write> Elements<'a, W> {
    // The list that goes on behind what `out` was given.
    fn new(out: &'a mut W) -> Elements<'a, W> {
        Elements {
            out,
            has_begun: false,
        }
    }
}

impl<W: Write> Write for Elements<'_, W> {
    fn write(&mut self, buf: &[u8]) -> io::Result<usize> {
        if self.has_begun || buf.is_empty() {
            return self.out.write(buf);
        }
        self.has_begun = true;
        Ok(1)
    }

    fn flush(&mut self) -> io::Result<()> {
        self.out.flush()
    }
}
