//! Files that cannot be read or written, and texts that are not UTF-8.

use crate::commands::{BROKEN, CHECK, File, MISSING, REPLAY, RUN, Row, SHELL, TIME, are_told};
use crate::equal_to::equal;
use command_line::{exit_status, not_utf8};
use play::{Host, NoGate, Platform, Streams, THRESHOLDS, play};
use program_files::is_one_file;
use std::alloc::Global;
use std::io::{self, Write};
use std::process::Abort;

const SCENARIO: &[u8] = b"routers = [\"a\"]\nlinks = []\nprefixes = [\"0.0.0.0/0 a\"]\n\
    script = [\"table a\", \"lookup a 0.0.0.0\", \"state a 0.0.0.0/0\", \"report\"]\n";

const HOLDS: File<'static> = File::Holds(SCENARIO);

const NO_TEXT: File<'static> = File::Holds(b"\xff");

const NO_JOURNAL: File<'static> = File::Holds(b"dualnet journal 2\nend\n\xff\n");

const UNREADABLE: &str = "dualnet: 47 Unreadable\n";

static UNREAD: [Row; 7] = [
    (CHECK, MISSING, MISSING, UNREADABLE),
    (RUN, BROKEN, MISSING, UNREADABLE),
    (REPLAY, HOLDS, MISSING, UNREADABLE),
    (REPLAY, HOLDS, BROKEN, UNREADABLE),
    (TIME, HOLDS, MISSING, UNREADABLE),
    (TIME, HOLDS, BROKEN, UNREADABLE),
    (SHELL, HOLDS, BROKEN, UNREADABLE),
];

#[test]
fn what_cannot_be_read(rt: HostRuntime) {
    are_told(&rt, rt.alloc(), &UNREAD);
}

static NO_TEXTS: [Row; 3] = [
    (RUN, NO_TEXT, MISSING, "dualnet: 40 BadToml\n"),
    (TIME, HOLDS, NO_TEXT, "dualnet: 40 BadToml in the times\n"),
    (REPLAY, HOLDS, NO_JOURNAL, "dualnet: 48 BadJournal\n"),
];

#[test]
fn what_is_no_text(rt: HostRuntime) {
    are_told(&rt, rt.alloc(), &NO_TEXTS);
}

// A path of a file, and whether it leads to `/dev/null`.
static PATHS: [(&str, bool); 3] = [
    ("/dev/../dev/null", true),
    ("/dev/zero", false),
    ("/dev/no-such-file", false),
];

#[test]
fn one_file_by_two_paths(rt: HostRuntime) {
    for (path, wanted) in &PATHS {
        equal(&rt, is_one_file(&rt, "/dev/null", path), *wanted);
    }
}

#[test]
fn word_is_no_text(rt: HostRuntime) {
    let error = not_utf8(rt.alloc()).expect(&rt, "memory");
    let text = error.to_string(rt.alloc()).expect(&rt, "memory");
    equal(&rt, text.starts_with("error: a word is not UTF-8"), true);
    equal(&rt, error.use_stderr(), true);
    equal(&rt, exit_status(&error), 1);
}

// A writer that fails.
#[derive(Drop)]
pub struct Closed;

impl Write for Closed {
    fn write(&mut self, _buf: &[u8]) -> io::Result<usize> {
        Err(io::Error::from(io::ErrorKind::BrokenPipe))
    }

    fn flush(&mut self) -> io::Result<()> {
        Ok(())
    }
}

// A run whose output is lost ends with this status, and this is kept behind a line that was kept before.
fn loses<H: Host + Abort>(rt: &H, alloc: Global, scenario: &[u8], status: u8, wanted: &str) {
    let mut kept = vec![in alloc; b'k', b'\n'].expect(rt, "memory");
    let by = Platform {
        rt,
        alloc,
        thresholds: THRESHOLDS,
        gate: &NoGate,
    };
    let (mut out, mut err) = (Closed, Closed);
    let mut streams = Streams {
        out: &mut out,
        err: &mut err,
    };
    let scenario = File::Holds(scenario);
    let ended = play(
        &by,
        &RUN,
        scenario,
        MISSING,
        &mut streams,
        true,
        &mut kept,
        &mut None,
    );
    equal(rt, ended, status);
    equal(rt, kept.as_slice(), wanted.as_bytes());
}

const KEPT: &str = "k\ndualnet journal 2\nend\na gen 0 held 0 ripe 0 attach 0\n\
    a 0.0.0.0/0 passive RD 1 FD 1 local\n";

const REFUSED: &[u8] =
    b"routers = [\"a\"]\nlinks = []\nprefixes = []\nscript = [\"table a\", \"publish a\"]\n";

// What cannot be written is lost, and the status stays. Of a run that stops nothing is kept.
#[test]
fn writes_that_fail_leave_the_status(rt: HostRuntime) {
    let alloc = rt.alloc();
    loses(&rt, alloc, SCENARIO, 0, KEPT);
    loses(&rt, alloc, REFUSED, 2, "k\n");
    loses(&rt, alloc, b"x", 1, "k\n");
}
