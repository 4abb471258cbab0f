//! Traces after each step of a journal.

ghost use Rattle.std.specs.Prelude.{◌≤◌};

use crate::random::{ADDRESSES, Done, NAMES, Scenario, push};
use std::alloc::Global;

/// How many steps of a journal one script traces: a script has at most 10,000 commands.
pub const PART: usize = 500;

/// The lines of the steps of a journal; none where the text is no journal's.
pub fn step_lines(journal: &[u8]) -> Option<&str> {
    let (_, rest) = str::from_utf8(journal).ok()?.split_once('\n')?;
    let (steps, _) = rest.split_once("end\n")?;
    Some(steps)
}

/// The text of the scenario with these steps for its script, up to those of this part, and a trace from
/// each router after each step of the part; none where the scenario has no script, or without memory.
pub fn trace_all(alloc: Global, scenario: &Scenario, steps: &str, part: usize) -> Option<String> {
    let (network, _) = scenario.text.split_once("script = [")?;
    let mut text = String::new(alloc);
    text.push_str(network).ok()?;
    push_steps(&mut text, scenario.routers, steps, part).ok()?;
    Some(text)
}

// The script: the steps up to those of this part, and the traces after each of these.
fn push_steps(text: &mut String, routers: u8, steps: &str, part: usize) -> Done
    requires { routers ≤ 8 }
{
    let first = part.saturating_mul(PART);
    let past = first.saturating_add(PART);
    text.push_str("script = [\n")?;
    for (place, step) in steps.lines().enumerate() {
        if place < past {
            write!(text, "\"{step}\",\n")?;
            if place >= first {
                push_traces(text, routers, ADDRESSES[place % ADDRESSES.len()])?;
            }
        }
    }
    text.push_str("]\n")
}

// A trace for an address from each router.
fn push_traces(text: &mut String, routers: u8, addr: &'static str) -> Done
    requires { routers ≤ 8 }
{
    for name in &NAMES[..usize::from(routers)] {
        push(text, &["\"trace ", *name, " ", addr, "\",\n"])?;
    }
    Ok(())
}

/// Whether traces were printed, and none of them meets a router twice.
pub fn are_straight(out: &str) -> bool {
    let mut is_any = false;
    for line in out.lines() {
        if let Some(trace) = line.strip_prefix("trace ") {
            let Some((_, path)) = trace.split_once(": ") else {
                return false;
            };
            if is_met_twice(path) {
                return false;
            }
            is_any = true;
        }
    }
    is_any
}

// Whether a name stands twice in a path, in which each name has a space behind it.
fn is_met_twice(path: &str) -> bool {
    for router in NAMES {
        let met = path.split(' ').filter(|name| *name == router).count();
        if met > 1 {
            return true;
        }
    }
    false
}
