//! Where a fault stands in a scenario.

ghost use Rattle.std.specs.Prelude.{◌≡◌, None, Some};
ghost use Rattle.script.specs.declared.fault.LineFault.TheVariants.{NoMemory as OutOfMemory};

use crate::fault::LineFault;
use std::alloc::AllocFailed;
use std::fmt;

/// One of the four lists of a scenario.
#[derive(Clone, Copy, PartialEq, Eq)]
pub enum Key {
    Routers,
    Links,
    Prefixes,
    Script,
}

impl fmt::Display for Key {
    ghost use Rattle.script.specs.Places.{key_text};

    ghost output = { λ key. Some (key_text key) };

    fn fmt<W: fmt::Write>(&self, f: &mut fmt::Formatter<W>) -> fmt::Result {
        f.write_str(match self {
            Key::Routers => "routers",
            Key::Links => "links",
            Key::Prefixes => "prefixes",
            Key::Script => "script",
        })
    }
}

/// A line of a scenario: its list, and its position there, from 0.
#[derive(Clone, Copy, PartialEq, Eq)]
pub struct Place {
    pub key: Key,
    pub position: usize,
}

impl fmt::Display for Place {
    ghost use Rattle.script.specs.Places.{place_text};

    ghost output = { λ place. Some (place_text place.key place.position) };

    fn fmt<W: fmt::Write>(&self, f: &mut fmt::Formatter<W>) -> fmt::Result {
        let key = self.key;
        let position = self.position;
        write!(f, "{key} {position}")
    }
}

/// A fault with its place, if it has one: it is displayed as `43 BadLine at links 0`, or without the
/// place as `46 TooLarge`.
#[derive(Clone, Copy)]
pub struct Located {
    pub fault: LineFault,
    pub place: Option<Place>,
}

impl Located {
    /// The fault of a line.
    pub(crate) fn at(fault: LineFault, key: Key, position: usize) -> Located
        ensures fault { result.fault ≡ fault }
        ensures place { result.place ≡ Some (record { key = key; position = position }) }
    {
        let place = Some(Place { key, position });
        Located { fault, place }
    }
}

impl<T: Drop> From<AllocFailed<T>> for Located {
    ghost from_gives = { λ _ at. at.fault ≡ OutOfMemory };

    fn from(_error: AllocFailed<T>) -> Located {
        Located {
            fault: LineFault::NoMemory,
            place: None,
        }
    }
}

impl fmt::Display for Located {
    fn fmt<W: fmt::Write>(&self, f: &mut fmt::Formatter<W>) -> fmt::Result {
        let fault = self.fault;
        match self.place {
            Some(place) => write!(f, "{fault} at {place}"),
            None => write!(f, "{fault}"),
        }
    }
}
