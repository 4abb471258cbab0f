//! The states of a run, as lines of JSON and in a page. What is expected was reckoned by the plain model of `model`,
//! and is of two routers at the costs 1 and 2.

use crate::equal_to::equal;
use crate::files::Closed;
use command_line::ViewWords;
use play::Host;
use std::alloc::{AllocError, Global};
use std::process::Abort;
use view::show;

const LINES: ViewWords<'static> = ViewWords {
    file: "scenario.toml",
    journal: None,
    times: None,
    output: None,
    json: true,
};

const PAGE: ViewWords<'static> = ViewWords {
    json: false,
    ..LINES
};

const JOURNAL: ViewWords<'static> = ViewWords {
    journal: Some("journal"),
    ..LINES
};

const IN_TIME: ViewWords<'static> = ViewWords {
    times: Some("times"),
    ..LINES
};

const SCENARIO: &[u8] =
    b"routers = [\"a\", \"b\"]\nlinks = [\"a b 1 2\"]\nprefixes = [\"10.0.0.0/8 a 1\"]\n\
    script = [\"up a b\", \"deliver a b\", \"publish a\", \"release a\", \"deliver b a\", \"deliver b a\", \"down a b\"]\n";

// Up to the number of steps.
const OPENING: &str =
    "{\"every\":1,\"format\":1,\"kind\":\"opening\",\"links\":[[0,1]],\"prefixes\":[\"10.0.0.0/8\"],\
    \"routers\":[\"a\",\"b\"],\"steps\":";

// Each up to its moment, and from there on.
static STATES: [(&str, &str); 8] = [
    (
        "{\"kind\":\"state\",\"links\":[{\"costs\":[1,2],\"link\":0,\"session\":0,\"up\":false}],\
        \"machines\":[{\"chosen\":\"local\",\"fd\":1,\"prefix\":0,\"published\":\"local\",\"rd\":1,\"router\":0}],",
        "\"number\":0,\
        \"routers\":[{\"generation\":0,\"held\":0,\"notices\":0,\"ripe\":0,\"router\":0},\
        {\"generation\":0,\"held\":0,\"notices\":0,\"ripe\":0,\"router\":1}]}\n",
    ),
    (
        "{\"kind\":\"state\",\"links\":[{\"costs\":[1,2],\"link\":0,\"session\":1,\"up\":true}],",
        "\"number\":1,\
        \"queues\":[{\"end\":0,\"link\":0,\"put\":[[\"up\",1]]},{\"end\":1,\"link\":0,\"put\":[[\"up\",2]]}],\
        \"step\":\"up a b\"}\n",
    ),
    (
        "{\"kind\":\"state\",",
        "\"number\":2,\"queues\":[{\"end\":0,\"link\":0,\"take\":1}],\
        \"routers\":[{\"generation\":0,\"held\":1,\"notices\":0,\"ripe\":0,\"router\":0}],\"step\":\"deliver a b\"}\n",
    ),
    (
        "{\"kind\":\"state\",",
        "\"number\":3,\
        \"routers\":[{\"generation\":1,\"held\":1,\"notices\":0,\"ripe\":1,\"router\":0}],\"step\":\"publish a\"}\n",
    ),
    (
        "{\"kind\":\"state\",",
        "\"number\":4,\"queues\":[{\"end\":1,\"link\":0,\"put\":[[\"update\",0,1]]}],\
        \"routers\":[{\"generation\":1,\"held\":0,\"notices\":0,\"ripe\":0,\"router\":0}],\"step\":\"release a\"}\n",
    ),
    (
        "{\"kind\":\"state\",",
        "\"number\":5,\"queues\":[{\"end\":1,\"link\":0,\"take\":1}],\"step\":\"deliver b a\"}\n",
    ),
    (
        "{\"kind\":\"state\",\
        \"machines\":[{\"chosen\":[0,1],\"fd\":3,\"prefix\":0,\"published\":null,\"rd\":3,\"router\":1}],",
        "\"number\":6,\
        \"queues\":[{\"end\":1,\"link\":0,\"take\":1}],\
        \"routers\":[{\"generation\":0,\"held\":1,\"notices\":0,\"ripe\":0,\"router\":1}],\"step\":\"deliver b a\"}\n",
    ),
    (
        "{\"kind\":\"state\",\"links\":[{\"costs\":[1,2],\"link\":0,\"session\":1,\"up\":false}],",
        "\"number\":7,\
        \"queues\":[{\"end\":0,\"link\":0,\"put\":[[\"down\"]]},{\"end\":1,\"link\":0,\"put\":[[\"down\"]]}],\
        \"step\":\"down a b\"}\n",
    ),
];

// What stands there if no time is simulated.
static TIMELESS: [&str; 8] = ["", "", "", "", "", "", "", ""];

// An item is on its way to `a` for 100 microseconds, and to `b` for 500. The link goes down before `b` has published.
const TIMES: &[u8] = b"links = [\"a b 500 100\"]\nrouters = [\"a 20\", \"b 1000\"]\n\
    changes = [\"0 up a b\", \"700 down a b\"]\n";

// The moments of the first seven steps, which are those of the script.
static MOMENTS: [&str; 8] = [
    "",
    "\"moment\":0,",
    "\"moment\":100,",
    "\"moment\":120,",
    "\"moment\":120,",
    "\"moment\":500,",
    "\"moment\":620,",
    "\"moment\":700,",
];

// The states after the steps that the network does then.
const LATER: &str =
    "{\"kind\":\"state\",\"moment\":800,\"number\":8,\"queues\":[{\"end\":0,\"link\":0,\"take\":1}],\
    \"step\":\"deliver a b\"}\n\
    {\"kind\":\"state\",\
    \"machines\":[{\"chosen\":\"unreachable\",\"fd\":null,\"prefix\":0,\"published\":null,\"rd\":null,\"router\":1}],\
    \"moment\":1200,\"number\":9,\"queues\":[{\"end\":1,\"link\":0,\"take\":1}],\"step\":\"deliver b a\"}\n\
    {\"kind\":\"state\",\
    \"machines\":[{\"chosen\":\"unreachable\",\"fd\":null,\"prefix\":0,\"published\":\"unreachable\",\"rd\":null,\"router\":1}],\
    \"moment\":1620,\"number\":10,\
    \"routers\":[{\"generation\":1,\"held\":1,\"notices\":0,\"ripe\":1,\"router\":1}],\"step\":\"publish b\"}\n\
    {\"kind\":\"state\",\"moment\":1620,\"number\":11,\
    \"routers\":[{\"generation\":1,\"held\":0,\"notices\":0,\"ripe\":0,\"router\":1}],\"step\":\"release b\"}\n";

// The line of an opening with so many steps, and those of the first states, each with what stands there of time.
fn push_states(text: &mut String, steps: &str, moments: &[&str]) -> Result<(), AllocError> {
    text.push_str(OPENING)?;
    text.push_str(steps)?;
    text.push_str("}\n")?;
    for (state, moment) in STATES.iter().zip(moments) {
        text.push_str(state.0)?;
        text.push_str(moment)?;
        text.push_str(state.1)?;
    }
    Ok(())
}

fn states(rt: &impl Abort, alloc: Global, steps: &str, moments: &[&str]) -> String {
    let mut text = String::new(alloc);
    push_states(&mut text, steps, moments).expect(rt, "memory");
    text
}

// What is shown of the scenario, or of a journal of it, with what is told of a fault and the status.
fn shown<H: Host + Abort>(
    rt: &H,
    alloc: Global,
    words: &ViewWords<'_>,
    scenario: &[u8],
    other: &[u8],
    end: (&str, u8),
) -> Vec<u8> {
    let (mut out, mut err) = (Vec::new(alloc), Vec::new(alloc));
    let status = show(rt, alloc, words, scenario, other, &mut out, &mut err);
    equal(rt, err.as_slice(), end.0.as_bytes());
    equal(rt, status, end.1);
    out
}

const WELL: (&str, u8) = ("", 0);

fn is(rt: &impl Abort, out: &[u8], wanted: &str) {
    equal(rt, out, wanted.as_bytes());
}

// It begins so, has this in it, and ends so.
fn has(rt: &impl Abort, out: &[u8], first: &str, part: &str, last: &str) {
    let text = str::from_utf8(out).expect(rt, "text");
    equal(rt, text.starts_with(first), true);
    equal(rt, text.contains(part), true);
    equal(rt, text.ends_with(last), true);
}

#[test]
fn states_of_two_routers(rt: HostRuntime) {
    let alloc = rt.alloc();
    let wanted = states(&rt, alloc, "7", &TIMELESS);
    let out = shown(&rt, alloc, &LINES, SCENARIO, b"", WELL);
    is(&rt, &out, wanted.as_str());
    let page = shown(&rt, alloc, &PAGE, SCENARIO, b"", WELL);
    has(
        &rt,
        &page,
        "<!DOCTYPE html>\n",
        wanted.as_str(),
        "</html>\n",
    );
}

#[test]
fn states_in_simulated_time(rt: HostRuntime) {
    let alloc = rt.alloc();
    let mut wanted = states(&rt, alloc, "11", &MOMENTS);
    wanted.push_str(LATER).expect(&rt, "memory");
    let out = shown(&rt, alloc, &IN_TIME, SCENARIO, TIMES, WELL);
    is(&rt, &out, wanted.as_str());
}

// What was done before the step is written; `up a b` is refused where the link is up.
#[test]
fn step_of_a_journal_is_refused(rt: HostRuntime) {
    let alloc = rt.alloc();
    let journal = b"dualnet journal 2\nup a b\nup a b\npublish a\nend\n";
    let wanted = states(&rt, alloc, "1", &TIMELESS[..2]);
    let end = ("dualnet: step 2 refused: 13 AlreadyUp\n", 2);
    let out = shown(&rt, alloc, &JOURNAL, SCENARIO, journal, end);
    is(&rt, &out, wanted.as_str());
}

const REFUSED: &[u8] = b"routers = [\"a\"]\nlinks = []\nprefixes = []\nscript = [\"release a\"]\n";

// What is shown of which scenario, beside what, and how it ends.
static FAULTS: [(ViewWords<'static>, &[u8], &[u8], (&str, u8)); 4] = [
    (PAGE, b"routers = 1", b"", ("dualnet: 41 BadKey\n", 1)),
    (
        IN_TIME,
        SCENARIO,
        b"link = -1\n",
        ("dualnet: 41 BadKey in the times\n", 1),
    ),
    (
        JOURNAL,
        SCENARIO,
        b"dualnet journal 3\n",
        ("dualnet: 48 BadJournal at line 1\n", 1),
    ),
    (
        LINES,
        REFUSED,
        b"",
        ("dualnet: 18 NothingRipe at script 0\n", 2),
    ),
];

// A scenario whose script is refused has no run.
#[test]
fn nothing_is_shown_of_a_fault(rt: HostRuntime) {
    for row in &FAULTS {
        let out = shown(&rt, rt.alloc(), &row.0, row.1, row.2, row.3);
        is(&rt, &out, "");
    }
}

#[test]
fn output_is_lost(rt: HostRuntime) {
    let alloc = rt.alloc();
    for words in [LINES, PAGE] {
        let mut err = Vec::new(alloc);
        let none = b"".as_slice();
        let status = show(&rt, alloc, &words, SCENARIO, none, &mut Closed, &mut err);
        is(&rt, &err, "dualnet: 49 Unwritable\n");
        equal(&rt, status, 2);
    }
}

// One message is on its way when the link goes down. Of the second prefix `b` has not heard then.
const LOSES: &[u8] = b"routers = [\"a\", \"b\"]\nlinks = [\"a b 1 2\"]\n\
    prefixes = [\"10.0.0.0/8 a 1\", \"11.0.0.0/8 a 1\"]\n\
    script = [\"up a b\", \"deliver a b\", \"deliver b a\", \"publish a\", \"release a\", \"deliver b a\", \
    \"release a\", \"down a b\"]\n";

const HEARD: &str =
    "{\"kind\":\"state\",\"machines\":[{\"chosen\":[0,1],\"fd\":3,\"prefix\":0,\"published\":null,\"rd\":3,\"router\":1}],\"number\":6,\
    \"queues\":[{\"end\":1,\"link\":0,\"take\":1}],\"routers\":[{\"generation\":0,\"held\":1,\"notices\":0,\"ripe\":0,\"router\":1}],\"step\":\"deliver b a\"}\n";

const LOST: &str =
    "{\"kind\":\"state\",\"links\":[{\"costs\":[1,2],\"link\":0,\"session\":1,\"up\":false}],\"number\":8,\
    \"queues\":[{\"end\":0,\"link\":0,\"put\":[[\"down\"]]},{\"end\":1,\"link\":0,\"lose\":true,\"put\":[[\"down\"]]}],\"step\":\"down a b\"}\n";

#[test]
fn messages_that_are_lost(rt: HostRuntime) {
    let out = shown(&rt, rt.alloc(), &LINES, LOSES, b"", WELL);
    has(&rt, &out, "{", HEARD, LOST);
}
