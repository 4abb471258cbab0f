//! Lines of JSON, read by another reader.

use crate::commands::given;
use crate::equal_to::equal;
use command_line::{Format, Words};
use play::Host;
use serde_json::Value;
use std::alloc::Global;
use std::process::Abort;

const RUN: Words<'static> = Words::Run {
    file: "scenario.toml",
    threads: 1,
    workers: 1,
    journal: None,
    no_journal: false,
    explain: true,
    format: Format::Json,
    progress: false,
};

const REPLAY: Words<'static> = Words::Replay {
    file: "scenario.toml",
    journal: "journal",
    explain: false,
    format: Format::Json,
    progress: false,
};

const SCENARIO: &[u8] = b"routers = [\"a\", \"b\"]\nlinks = [\"a b 1 1\"]\n\
    prefixes = [\"10.0.0.0/8 a\"]\nscript = [\"try down a b\", \"up a b\", \"settle\", \"table b\",\
    \"lookup b 10.1.2.3\", \"lookup b 11.0.0.0\", \"trace b 10.1.2.3\", \"inject a 10.1.2.3\", \"drain\",\
    \"state a 10.0.0.0/8\", \"down a b\", \"deliver b a\", \"state b 10.0.0.0/8\", \"report\"]\n";

// Each line is an object with a kind; answers how many there are.
fn objects(rt: &impl Abort, alloc: Global, out: &[u8]) -> usize {
    let text = str::from_utf8(out).expect(rt, "a text");
    let mut count = 0_usize;
    for line in text.lines() {
        let object = Value::from_str(alloc, line).expect(rt, "an object");
        equal(rt, object.get("kind").is_some(), true);
        count = count.saturating_add(1);
    }
    count
}

// So many objects are printed, and nothing else; answers what is kept.
pub fn prints_objects<H: Host + Abort>(
    rt: &H,
    alloc: Global,
    words: &Words<'_>,
    scenario: &[u8],
    other: &[u8],
    count: usize,
) -> Vec<u8> {
    let got = given(rt, alloc, words, scenario, other);
    equal(rt, got.err.as_slice(), b"".as_slice());
    equal(rt, objects(rt, alloc, &got.out), count);
    equal(rt, got.status, 0);
    got.kept
}

#[test]
fn another_reader_reads_each_line(rt: HostRuntime) {
    let alloc = rt.alloc();
    let journal = prints_objects(&rt, alloc, &RUN, SCENARIO, b"", 17);
    prints_objects(&rt, alloc, &REPLAY, SCENARIO, journal.as_slice(), 1);
}
