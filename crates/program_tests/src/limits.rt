//! Scenarios at the limits, and one past each.

use crate::commands::{CHECK, File, MISSING, RUN, TIME, prints, tells};
use std::alloc::{AllocError, Global};
use std::process::Abort;

const SHORT: &str =
    "routers = [\"a\"]\nlinks = []\nprefixes = []\nscript = [\"lookup a 0.0.0.0\"]\n";

const TOO_LARGE: &str = "dualnet: 46 TooLarge\n";

// A file at the limit, and one with a byte more.
#[test]
fn the_largest_file_is_read(rt: HostRuntime) {
    let alloc = rt.alloc();
    let more = 4_194_304_usize.saturating_sub(SHORT.len());
    let text = repeated(&rt, alloc, (SHORT, ""), "\n", more);
    let out = "lookup a 0.0.0.0: none\ndone: 0 steps\n";
    prints(&rt, alloc, &RUN, text.as_bytes(), MISSING, out);
    let text = repeated(&rt, alloc, (SHORT, "\n"), "\n", more);
    tells(
        &rt,
        alloc,
        &CHECK,
        File::Holds(text.as_bytes()),
        MISSING,
        TOO_LARGE,
    );
}

// A command for each of so many routers, or, without a command, their names.
fn push_routers(text: &mut String, command: &str, count: u16) -> Result<(), AllocError> {
    for router in 0..count {
        write!(text, "\"{command}r{router}\",")?;
    }
    Ok(())
}

// From each router to the four after it.
fn push_links(text: &mut String, count: u16) -> Result<(), AllocError> {
    for link in 0..count {
        let a = link % 256;
        let b = (a + 1 + link / 256) % 256;
        write!(text, "\"r{a} r{b} 1 1\",")?;
    }
    Ok(())
}

// So many attachments of so many prefixes in turn, each time to another of so many routers, and at another cost.
pub fn push_attachments(
    text: &mut String,
    count: u16,
    prefixes: u16,
    routers: u16,
) -> Result<(), AllocError> {
    let (prefixes, routers) = (prefixes.max(1), routers.max(1));
    for attachment in 0..count {
        let (round, prefix) = (attachment / prefixes, attachment % prefixes);
        let router = prefix.wrapping_add(round) % routers;
        let (block, part) = (prefix % 256, prefix / 256);
        write!(
            text,
            "\"10.{block}.{part}.0/24 r{router} {}\",",
            attachment + 1
        )?;
    }
    Ok(())
}

// So many links come up, and both ends of each take the notice.
fn push_ups(text: &mut String, count: u16) -> Result<(), AllocError> {
    for link in 0..count {
        let a = link % 256;
        let b = (a + 1 + link / 256) % 256;
        write!(
            text,
            "\"up r{a} r{b}\",\"deliver r{a} r{b}\",\"deliver r{b} r{a}\","
        )?;
    }
    Ok(())
}

// How many routers, links, attachments and prefixes a network has.
#[derive(Clone, Copy)]
struct Counts {
    routers: u16,
    links: u16,
    attachments: u16,
    prefixes: u16,
}

// As much as a network can have.
const MOST: Counts = Counts {
    routers: 256,
    links: 1024,
    attachments: 16384,
    prefixes: 4096,
};

// The text of a network of so many, with this script.
fn push_network(text: &mut String, counts: Counts, script: &str) -> Result<(), AllocError> {
    text.push_str("routers = [")?;
    push_routers(text, "", counts.routers)?;
    text.push_str("]\nlinks = [")?;
    push_links(text, counts.links)?;
    text.push_str("]\nprefixes = [")?;
    push_attachments(text, counts.attachments, counts.prefixes, 256)?;
    text.push_str("]\nscript = [")?;
    text.push_str(script)?;
    text.push_str("]\n")
}

fn network(rt: &impl Abort, alloc: Global, counts: Counts, script: &str) -> String {
    let mut text = String::new(alloc);
    push_network(&mut text, counts, script).expect(rt, "memory");
    text
}

// In the largest network all links come up, and each router publishes and releases a message.
#[test]
fn the_largest_network_is_opened(rt: HostRuntime) {
    let alloc = rt.alloc();
    let mut script = String::new(alloc);
    push_ups(&mut script, 1024).expect(&rt, "memory");
    push_routers(&mut script, "publish ", 256).expect(&rt, "memory");
    push_routers(&mut script, "release ", 256).expect(&rt, "memory");
    let text = network(&rt, alloc, MOST, script.as_str());
    prints(
        &rt,
        alloc,
        &RUN,
        text.as_bytes(),
        MISSING,
        "done: 3584 steps\n",
    );
}

static TOO_MANY: [(Counts, &str); 4] = [
    (
        Counts {
            routers: 257,
            ..MOST
        },
        "dualnet: 24 BadRouters\n",
    ),
    (
        Counts {
            links: 1025,
            ..MOST
        },
        "dualnet: 26 TooManyLinks at links 1024\n",
    ),
    (
        Counts {
            prefixes: 4097,
            ..MOST
        },
        "dualnet: 27 BadOwner at prefixes 4096\n",
    ),
    (
        Counts {
            attachments: 16385,
            ..MOST
        },
        "dualnet: 27 BadOwner at prefixes 16384\n",
    ),
];

#[test]
fn networks_that_are_too_large_are_refused(rt: HostRuntime) {
    let alloc = rt.alloc();
    for (counts, fault) in &TOO_MANY {
        let text = network(&rt, alloc, *counts, "");
        let file = File::Holds(text.as_bytes());
        tells(&rt, alloc, &CHECK, file, MISSING, fault);
    }
}

// A part so many times, between two texts.
fn repeated(
    rt: &impl Abort,
    alloc: Global,
    ends: (&str, &str),
    part: &str,
    count: usize,
) -> String {
    let parts = part.repeat(alloc, count).expect(rt, "memory");
    format!(in alloc; "{}{parts}{}", ends.0, ends.1).expect(rt, "memory")
}

const ROUTER: (&str, &str) = (
    "routers = [\"a\"]\nlinks = []\nprefixes = []\nscript = [",
    "]\n",
);

#[test]
fn as_many_commands_as_there_may_be(rt: HostRuntime) {
    let alloc = rt.alloc();
    let text = repeated(&rt, alloc, ROUTER, "\"table a\",", 10_000);
    let out = "done: 0 steps\n";
    prints(&rt, alloc, &RUN, text.as_bytes(), MISSING, out);
    let text = repeated(&rt, alloc, ROUTER, "\"table a\",", 10_001);
    let file = File::Holds(text.as_bytes());
    tells(&rt, alloc, &RUN, file, MISSING, TOO_LARGE);
}

const PAIR: &[u8] =
    b"routers = [\"a\", \"b\"]\nlinks = [\"a b 1 1\"]\nprefixes = []\nscript = []\n";

const CHANGES: (&str, &str) = ("changes = [", "]\n");

const AT_REST: (&str, &str) = ("", "done: 0 steps, at rest at 0\n");

// Each change is refused, because the link is down.
#[test]
fn as_many_changes_as_there_may_be(rt: HostRuntime) {
    let alloc = rt.alloc();
    let refused = "0 down a b: refused 14 IsDown\n";
    let out = repeated(&rt, alloc, AT_REST, refused, 10_000);
    let times = repeated(&rt, alloc, CHANGES, "\"0 down a b\",", 10_000);
    let file = File::Holds(times.as_bytes());
    prints(&rt, alloc, &TIME, PAIR, file, out.as_str());
    let times = repeated(&rt, alloc, CHANGES, "\"0 down a b\",", 10_001);
    let fault = "dualnet: 46 TooLarge in the times\n";
    let file = File::Holds(times.as_bytes());
    tells(&rt, alloc, &TIME, File::Holds(PAIR), file, fault);
}
