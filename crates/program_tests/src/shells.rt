//! Lines that are typed into a shell and that no file of cases can hold.

use crate::commands::{SHELL, given};
use crate::equal_to::equal;
use crate::json::prints_objects;
use command_line::{Format, Words};

const OBJECTS: Words<'static> = Words::Shell {
    file: "scenario.toml",
    journal: None,
    no_journal: false,
    explain: true,
    format: Format::Json,
};

const SCENARIO: &[u8] =
    b"routers = [\"a\", \"b\"]\nlinks = [\"a b 1 1\"]\nprefixes = [\"10.0.0.0/8 a\"]\nscript = []\n";

// Lines that end with a carriage return, that are no UTF-8, and the last of which has no end.
const TYPED: &[u8] =
    b"up a b\r\n\xff\nsettle\r\nsay \"\\\x01\nsay \xc3\n\n\xf0\x9f\x99\x82\ntable b";

#[test]
fn a_line_that_is_no_text_ends_nothing(rt: HostRuntime) {
    let got = given(&rt, rt.alloc(), &SHELL, SCENARIO, TYPED);
    let out = b"\"\\\x01\nb 10.0.0.0/8 via a 1\ndone: 9 steps\n".as_slice();
    let err =
        b"dualnet: 45 BadCommand\ndualnet: 45 BadCommand\ndualnet: 45 BadCommand\n".as_slice();
    equal(&rt, got.out.as_slice(), out);
    equal(&rt, got.err.as_slice(), err);
    equal(&rt, got.status, 0);
}

#[test]
fn each_line_is_answered_by_an_object(rt: HostRuntime) {
    prints_objects(&rt, rt.alloc(), &OBJECTS, SCENARIO, TYPED, 9);
}
