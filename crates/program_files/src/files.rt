//! Files, by the paths that a command line gives.

ghost use Rattle.std.specs.Prelude.{◌≡◌, true};

use std::io::{Read, Write};
use std::os::unix::fs::MetadataExt;
use std::{fs, io};

// By this path Linux shows what the standard input reads.
const INPUT: &str = "/dev/stdin";

/// A file, the standard input, or a file that could not be opened, of which each read fails.
#[derive(Drop)]
pub enum Input {
    File(fs::File),
    Standard(io::Stdin),
    Missing,
}

impl Read for Input {
    fn read(&mut self, buf: &mut [u8]) -> io::Result<usize> {
        match self {
            Input::File(file) => file.read(buf),
            Input::Standard(input) => input.read(buf),
            Input::Missing => Err(io::Error::from(io::ErrorKind::NotFound)),
        }
    }
}

/// Opens a file, if one is named; a hyphen is the standard input.
pub fn open_file(rt: &HostRuntime, path: Option<&str>) -> Input {
    let Some(path) = path else {
        return Input::Missing;
    };
    if path == "-" {
        return Input::Standard(rt.stdin());
    }
    match fs::open(rt, path) {
        Ok(file) => Input::File(file),
        Err(_) => Input::Missing,
    }
}

/// Opens the file that is read beside the scenario, if one is named. The standard input is read once, so both cannot be
/// that (47).
pub fn open_beside(rt: &HostRuntime, scenario: Option<&str>, path: Option<&str>) -> Input {
    if is_hyphen(path) && is_hyphen(scenario) {
        return Input::Missing;
    }
    open_file(rt, path)
}

// Whether a path is the hyphen, which names the standard input.
fn is_hyphen(path: Option<&str>) -> bool {
    match path {
        Some(path) => path == "-",
        None => false,
    }
}

/// Tells why a file cannot be read, if it cannot: its path, and the system's words. A write that fails is lost.
pub fn explain_unreadable<E: Write>(rt: &HostRuntime, path: &str, err: &mut E) {
    if path == "-" {
        return;
    }
    if let Err(error) = try_read(rt, path) {
        let _ = writeln!(err, "  {path}: {error}");
    }
}

// Reads a byte of a file. Of a pipe none is read, because its writer may have ended.
fn try_read(rt: &HostRuntime, path: &str) -> io::Result<()> {
    let found = fs::metadata(rt, path)?;
    if !found.is_file() && !found.is_dir() {
        return Ok(());
    }
    let mut file = fs::open(rt, path)?;
    let _count = file.read(&mut [0])?;
    Ok(())
}

/// Whether two paths lead to one file, by whatever spelling or link.
pub fn is_one_file(rt: &HostRuntime, one: &str, other: &str) -> bool
    ensures { one.now ≡ other.now → result ≡ true }
{
    if one == other {
        return true;
    }
    match (fs::metadata(rt, one), fs::metadata(rt, other)) {
        (Ok(one), Ok(other)) => one.dev() == other.dev() && one.ino() == other.ino(),
        _ => false,
    }
}

/// Whether a path leads to the file that the standard input reads. A pipe, a terminal or a device is no such file.
pub fn is_input(rt: &HostRuntime, path: &str) -> bool {
    match fs::metadata(rt, INPUT) {
        Ok(found) => found.is_file() && is_one_file(rt, INPUT, path),
        Err(_) => false,
    }
}
