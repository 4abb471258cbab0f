//! A network in which there is enough to publish for several control threads.

use crate::commands::{REPLAY, given};
use crate::equal_to::equal;
use crate::limits::push_attachments;
use command_line::{Format, Words};
use play::Host;
use std::alloc::{AllocError, Global};
use std::process::Abort;

const PREFIXES: u16 = 4096;

const NETWORK: &str = "routers = [\"r0\", \"a\", \"b\", \"c\", \"d\", \"e\", \"f\"]\n\
    links = [\"r0 a 1 1\", \"r0 b 1 1\", \"r0 c 1 1\", \"r0 d 1 1\", \"r0 e 1 1\", \"r0 f 1 1\"]\n\
    prefixes = [";

const SCRIPT: &str = "]\nscript = [\
    \"up r0 a\", \"up r0 b\", \"up r0 c\", \"up r0 d\", \"up r0 e\", \"up r0 f\", \"settle\", \
    \"down r0 a\", \"down r0 b\", \"down r0 c\", \"down r0 d\", \"down r0 e\", \"down r0 f\", \"settle\", \
    \"lookup a 10.0.0.1\"]\n";

// A hub that is attached to all prefixes, and leaves that reach them over it. All links come up, and then
// all go down at once: each leaf has as many rows to publish as there are prefixes.
fn push_outage(text: &mut String) -> Result<(), AllocError> {
    text.push_str(NETWORK)?;
    push_attachments(text, PREFIXES, PREFIXES, 1)?;
    text.push_str(SCRIPT)
}

// Settles it by so many threads, and does the journal again.
fn is_settled_by<H: Host + Abort>(rt: &H, alloc: Global, threads: u8) {
    let mut text = String::new(alloc);
    push_outage(&mut text).expect(rt, "memory");
    let run = Words::Run {
        file: "",
        threads,
        workers: 1,
        journal: None,
        no_journal: false,
        explain: false,
        format: Format::Text,
        progress: false,
    };
    let ran = given(rt, alloc, &run, text.as_bytes(), b"");
    equal(rt, ran.err.as_slice(), b"".as_slice());
    equal(rt, ran.status, 0);
    let out = b"lookup a 10.0.0.1: 10.0.0.0/24 unreachable\n";
    equal(rt, ran.out.starts_with(out), true);
    let again = given(rt, alloc, &REPLAY, text.as_bytes(), &ran.kept);
    equal(rt, again.err.as_slice(), b"".as_slice());
    equal(rt, again.status, 0);
}

#[test]
fn a_crowd_is_settled(rt: HostRuntime) {
    for threads in [1, 2, 4, 16] {
        is_settled_by(&rt, rt.alloc(), threads);
    }
}
