//! Lines with numbers that no run reaches.

use crate::written::is_written;
use command_line::Format;
use lines::{
    Answer, Asked, Line, LinkLine, LinkState, MachineLine, MachineState, Printer, RouterLine,
    RouterState, Told,
};
use metric::{Cost, Distance};
use network_model::{Entry, Prefix};
use play::read_plan;
use std::process::Abort;

// Routers a and b, with a link.
const PAIR: &str = "routers = [\"a\", \"b\"]\nlinks = [\"a b 1 1\"]\nprefixes = []\nscript = []\n";

const ROUTER: RouterLine = RouterLine {
    router: 1,
    at: RouterState {
        generation: u64::MAX,
        held: 3,
        ripe: 2,
        notices: 70_000,
    },
};

const ANSWER: Answer = Answer {
    router: 0,
    addr: u32::MAX,
    found: None,
};

fn link(rt: &impl Abort) -> LinkLine {
    LinkLine {
        a: 1,
        b: 0,
        at: LinkState {
            up: false,
            session: u16::MAX,
            from_a: Cost::ONE,
            from_b: Cost::new(65535).expect(rt, "a cost"),
        },
        queued_a: 0,
        queued_b: 70_000,
    }
}

fn machine(prefix: Prefix) -> MachineLine {
    MachineLine {
        router: 1,
        prefix,
        at: MachineState {
            origin: Some(3),
            rd: Distance::new(4_294_967_294),
            fd: Distance::INF,
        },
        entry: Entry::Unreachable,
    }
}

fn row(prefix: Prefix) -> Asked {
    Asked::Row {
        router: 1,
        prefix,
        entry: Entry::Via {
            port: 0,
            session: 65535,
        },
    }
}

#[test]
fn numbers_that_no_run_reaches(rt: HostRuntime) {
    let alloc = rt.alloc();
    let plan = read_plan(alloc, PAIR).ok().expect(&rt, "a plan");
    let directory = &plan.directory;
    let people = Printer {
        directory,
        format: Format::Text,
        listed: false,
    };
    let json = Printer {
        format: Format::Json,
        ..people
    };
    let prefix = Prefix::covering(0x0a00_0000, 8);
    let rows = [
        (
            Line::Link(link(&rt)),
            "link b a down 65535 1 65535 queued 0 70000",
            "{\"kind\":\"link\",\"a\":\"b\",\"b\":\"a\",\"up\":false,\"session\":65535,\
            \"costs\":[1,65535],\"queued\":[0,70000]}",
        ),
        (
            Line::Router(ROUTER),
            "b gen 18446744073709551615 held 3 ripe 2 attach 70000",
            "{\"kind\":\"router\",\"router\":\"b\",\"generation\":18446744073709551615,\
            \"held\":3,\"ripe\":2,\"notices\":70000}",
        ),
        (
            Line::Machine(machine(prefix)),
            "b 10.0.0.0/8 active 3 RD 4294967294 FD inf unreachable",
            "{\"kind\":\"machine\",\"router\":\"b\",\"prefix\":\"10.0.0.0/8\",\"active\":3,\
            \"rd\":4294967294,\"fd\":null,\"entry\":\"unreachable\"}",
        ),
        (
            Line::Asked(row(prefix)),
            "b 10.0.0.0/8 via a 65535",
            "{\"kind\":\"row\",\"router\":\"b\",\"prefix\":\"10.0.0.0/8\",\"entry\":\"via\",\
            \"neighbour\":\"a\",\"session\":65535}",
        ),
        (
            Line::Asked(Asked::Packet(u64::MAX, ANSWER)),
            "packet 18446744073709551615 a 255.255.255.255: none",
            "{\"kind\":\"packet\",\"job\":18446744073709551615,\"router\":\"a\",\
            \"address\":\"255.255.255.255\",\"prefix\":null,\"entry\":null}",
        ),
    ];
    for (line, text, object) in &rows {
        is_written(&rt, alloc, &Told(people, line), text);
        is_written(&rt, alloc, &Told(json, line), object);
    }
}
