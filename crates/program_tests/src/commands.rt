//! Commands that are done in memory, and what tests ask of them.

use crate::equal_to::equal;
use command_line::{Format, Words};
use harness::{Outcome, play_in_memory};
use play::Host;
use std::alloc::Global;
use std::io::{self, Read};
use std::process::Abort;

pub const CHECK: Words<'static> = Words::Check {
    file: "scenario.toml",
    explain: false,
};

pub const RUN: Words<'static> = Words::Run {
    file: "scenario.toml",
    threads: 1,
    workers: 1,
    journal: None,
    no_journal: false,
    explain: false,
    format: Format::Text,
    progress: false,
};

pub const REPLAY: Words<'static> = Words::Replay {
    file: "scenario.toml",
    journal: "journal",
    explain: false,
    format: Format::Text,
    progress: false,
};

pub const TIME: Words<'static> = Words::Time {
    file: "scenario.toml",
    times: "times.toml",
    spells: false,
    explain: false,
    format: Format::Text,
};

pub const SHELL: Words<'static> = Words::Shell {
    file: "scenario.toml",
    journal: None,
    no_journal: false,
    explain: false,
    format: Format::Text,
};

// A file that is read. It is one type, so that what does a command is compiled once for all tests.
#[derive(Clone, Copy)]
pub enum File<'a> {
    Holds(&'a [u8]),
    // It gives one byte, and then fails; and whether it has given it.
    Broken(bool),
    Missing,
}

impl Read for File<'_> {
    fn read(&mut self, buf: &mut [u8]) -> io::Result<usize> {
        match self {
            File::Holds(bytes) => bytes.read(buf),
            File::Broken(given) => {
                if *given || buf.is_empty() {
                    return Err(io::Error::from(io::ErrorKind::NotFound));
                }
                *given = true;
                buf[0] = b'#';
                Ok(1)
            }
            File::Missing => Err(io::Error::from(io::ErrorKind::NotFound)),
        }
    }
}

pub const BROKEN: File<'static> = File::Broken(false);

pub const MISSING: File<'static> = File::Missing;

// What the program gave, with these bytes as both files.
pub fn given<H: Host>(
    rt: &H,
    alloc: Global,
    words: &Words<'_>,
    scenario: &[u8],
    other: &[u8],
) -> Outcome {
    play_in_memory(rt, alloc, words, File::Holds(scenario), File::Holds(other))
}

// This is printed, and the status is 0.
pub fn prints<H: Host + Abort>(
    rt: &H,
    alloc: Global,
    words: &Words<'_>,
    scenario: &[u8],
    other: File<'_>,
    out: &str,
) {
    let got = play_in_memory(rt, alloc, words, File::Holds(scenario), other);
    equal(rt, got.err.as_slice(), b"".as_slice());
    equal(rt, got.out.as_slice(), out.as_bytes());
    equal(rt, got.status, 0);
}

// The fault is told, and nothing else is printed or kept.
pub fn tells<H: Host + Abort>(
    rt: &H,
    alloc: Global,
    words: &Words<'_>,
    scenario: File<'_>,
    other: File<'_>,
    fault: &str,
) {
    let got = play_in_memory(rt, alloc, words, scenario, other);
    equal(rt, got.err.as_slice(), fault.as_bytes());
    equal(rt, got.out.as_slice(), b"".as_slice());
    equal(rt, got.kept.as_slice(), b"".as_slice());
    equal(rt, got.status, 1);
}

// A command over two files, and the fault that it tells.
pub type Row = (Words<'static>, File<'static>, File<'static>, &'static str);

pub fn are_told<H: Host + Abort>(rt: &H, alloc: Global, rows: &[Row]) {
    for row in rows {
        tells(rt, alloc, &row.0, row.1, row.2, row.3);
    }
}
