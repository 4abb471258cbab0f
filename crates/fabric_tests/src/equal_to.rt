//! What all tests here ask.

ghost use Rattle.std.specs.Prelude.{◌≡◌, true};

use std::fmt::Debug;
use std::process::Abort;

// What was found is what was wanted. An `assert_eq!` that is written out costs the gate three seconds, and a call of this
// function less than one, because it is proved once. A failure names the line of the call.
pub(crate) fn equal<T: PartialEq + Debug + Drop>(rt: &impl Abort, found: T, wanted: T) {
    assert_eq!(rt; found, wanted);
}

// It is so, as an `assert!` says that costs twice as much.
pub(crate) fn holds(rt: &impl Abort, is_so: bool)
    ensures { is_so ≡ true }
{
    assert!(rt; is_so);
}
