//! The page of a run: what the program does if it is called by the name `dualnet-view`.
//!
//! ```text
//! ./dualnet-view examples/ring.toml -o ring.html           # a page of the run of its script
//! ./dualnet-view examples/ring.toml ring.journal --json    # the states of that journal's steps, as lines
//! ./dualnet-view examples/ring.toml --times examples/ring-times.toml -o ring.html    # the network in simulated time
//! ```
//!
//! `view` writes the states over readers and writers, and its exit status is the program's. Without `-o`, or with
//! `-o -`, they go to the standard output. With `-o` all is first made in memory, and written if it is not empty, so
//! that a fault in the input leaves the file as it was; a path that leads to a file that is read is refused (49).
//! If a step of the journal is refused, the states before it are written nevertheless, and the status is 2.

use command_line::{ViewWords, read_view_words};
use play::{Fault, FaultKind, Host, refuse};
use program_files::{is_input, is_read, open_beside, open_file, print_error};
use std::io::{BufWriter, Write};
use std::{fs, io};
use view::show;

// The name by which the program shows runs.
const NAME: &str = "dualnet-view";

/// Whether the first word of the command line, by which the program was called, is that name, in whatever folder.
pub fn is_called(words: &[&str]) -> bool {
    match words.first() {
        Some(called) => called.rsplit('/').next() == Some(NAME),
        None => false,
    }
}

/// Does what the words of the command line ask for.
pub fn show_given<H: Host>(rt: &HostRuntime, wait: &H, words: &[&str]) -> io::Result<u8> {
    match read_view_words(rt.alloc(), words) {
        Ok(words) => show_to(rt, wait, &words),
        Err(error) => Ok(print_error(rt, &error)),
    }
}

// Writes what the words ask for, to where they say.
fn show_to<H: Host>(rt: &HostRuntime, wait: &H, words: &ViewWords<'_>) -> io::Result<u8> {
    match words.output {
        Some(path) if path != "-" => Ok(show_in_file(rt, wait, words, path)),
        _ => {
            let mut out = BufWriter::new(rt.alloc(), rt.stdout())?;
            let status = write_to(rt, wait, words, &mut out, &mut rt.stderr());
            Ok(match out.flush() {
                Ok(()) => status,
                Err(_) => unwritable(rt),
            })
        }
    }
}

// Makes all of it in memory, and then writes the file, which is none that is read.
fn show_in_file<H: Host>(rt: &HostRuntime, wait: &H, words: &ViewWords<'_>, path: &str) -> u8 {
    if is_read(rt, words, path) || (reads_input(words) && is_input(rt, path)) {
        return unwritable(rt);
    }
    let mut page = Vec::new(rt.alloc());
    let status = write_to(rt, wait, words, &mut page, &mut rt.stderr());
    write_page(rt, path, &page, status)
}

// Writes a page, if there is any of it, and answers the exit status.
fn write_page(rt: &HostRuntime, path: &str, page: &[u8], status: u8) -> u8 {
    if page.is_empty() {
        return status;
    }
    match fs::write(rt, path, page) {
        Ok(()) => status,
        Err(_) => unwritable(rt),
    }
}

// Writes what the words ask for. Writers are of one type here, as in `print_by`.
fn write_to<H: Host>(
    rt: &HostRuntime,
    wait: &H,
    words: &ViewWords<'_>,
    mut out: &mut dyn Write,
    mut err: &mut dyn Write,
) -> u8 {
    let scenario = open_file(rt, Some(words.file));
    let other = open_beside(rt, Some(words.file), second_path(words));
    show(wait, rt.alloc(), words, scenario, other, &mut out, &mut err)
}

// The file that is read beside the scenario.
fn second_path<'a>(words: &ViewWords<'a>) -> Option<&'a str> {
    words.journal.or(words.times)
}

// Whether the standard input is read.
fn reads_input(words: &ViewWords<'_>) -> bool {
    words.file == "-" || second_path(words) == Some("-")
}

// Says that the output could not be written, and answers the exit status.
fn unwritable(rt: &HostRuntime) -> u8 {
    refuse(Fault::from(FaultKind::Unwritable), &mut rt.stderr())
}
