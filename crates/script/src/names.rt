//! The names of routers, and their numbers.

ghost use Rattle.std.specs.Prelude.{◌≡◌, [], ◌∷◌, ◌++◌, ◌↔◌, ◌⊎◌, min, length, slice_get, Contains, take, IsTrue, IfErr, OnOk, OnErr, OnSome};
ghost use Rattle.std.specs.Option.{option_copied};
ghost use Rattle.script.specs.Routers.{IsName, AreNames, IsBadName, router_number, no_router};
ghost use Rattle.script.specs.Reading.{StopsHere, IsWhole, IsNameFault};
ghost use Rattle.texts.specs.Words.{texts};

use crate::fault::LineFault;
use crate::place::{Key, Located};
use std::alloc::Global;
use std::collections::BTreeMap;
use std::marker::Model;

/// The number of no router: a network of the program has at most 256.
pub(crate) const NO_ROUTER: u16 = u16::MAX;

/// The names of a network's routers, in the order of their numbers. A name has 1 to 16 characters,
/// small letters and digits, the first a letter, and no two are the same.
#[derive(Drop)]
pub struct Names {
    names: Vec<String>,
    numbers: BTreeMap<String, u16>,
}

impl Model for Names {
    ghost use Rattle.std.specs.Prelude.{List, map, string_bytes};
    ghost use Rattle.std.specs.BTreeMap.{get_by_text};
    ghost use Rattle.texts.specs.Words.{Text};
    ghost use Rattle.script.specs.Routers.{FindsNames};

    ghost Value = { List Text };

    ghost view = { λ n. map string_bytes n.names.items };

    ghost invariant = { λ n. FindsNames (map string_bytes n.names.items) (get_by_text n.numbers) };
}

impl Names {
    /// No names.
    pub fn new(alloc: Global) -> Names
        ensures { result ≡ [] }
    {
        Names {
            names: Vec::new(alloc),
            numbers: BTreeMap::new(alloc),
        }
    }

    /// How many names there are.
    pub fn len(&self) -> usize
        ensures value { result ≡ length self.now }
        ensures names { AreNames self.now }
    {
        self.names.len()
    }

    /// Whether there are no names.
    pub fn is_empty(&self) -> bool
        ensures { IsTrue result ↔ (self.now ≡ []) }
    {
        self.names.is_empty()
    }

    /// The number of routers. More than 65535 count as 65535.
    pub fn count(&self) -> u16
        ensures { result ≡ min no_router (length self.now) }
    {
        u16::try_from(self.names.len()).unwrap_or(NO_ROUTER)
    }

    /// The name of a router; none where there is no such router.
    pub fn name(&self, router: u16) -> Option<&str>
        ensures { option_copied result ≡ slice_get self.now router }
    {
        let name = self.names.get(usize::from(router))?;
        Some(name.as_str())
    }

    /// The number of the router of this name; none where no router has it. Names past the 65535th
    /// have the number 65535.
    pub fn number(&self, name: &str) -> Option<u16>
        ensures value { result ≡ router_number self.now name.now }
        ensures name { OnSome result (IsName name.now) }
    {
        self.numbers.get(name).copied()
    }

    /// Adds a router. The text is a `BadName` where it is no name or is among the names.
    pub(crate) fn add(&mut self, alloc: Global, name: &str) -> Result<(), LineFault>
        ensures ok { OnOk result ((self.new ≡ self.old ++ name.now ∷ []) × IsName name.now
            × ¬ (Contains self.old name.now)) }
        ensures err { OnErr result (self.new ≡ self.old) }
        ensures bad_name { result ≡ Err LineFault.BadName → IsBadName self.old name.now }
        ensures faults { IfErr result (λ e. (e ≡ LineFault.BadName) ⊎ (e ≡ LineFault.NoMemory)) }
    {
        if !is_name(name) || self.number(name).is_some() {
            return Err(LineFault::BadName);
        }
        let count = self.count();
        let key = String::from_str(alloc, name)?;
        let name = String::from_str(alloc, name)?;
        self.names.reserve(1)?;
        self.numbers.insert(key, count)?;
        self.names.push(name).unwrap();
        Ok(())
    }
}

/// Adds the names that the lines are, up to the first fault.
pub(crate) fn read_names(alloc: Global, names: &mut Names, lines: &[String]) -> Result<(), Located>
    requires { names.old ≡ [] }
    ensures read { names.new ≡ take (length names.new) (texts lines.now) }
    ensures valid { AreNames names.new }
    ensures whole { OnOk result (IsWhole (texts lines.now) names.new) }
    ensures stop { IfErr result (λ at. (at.fault ≡ LineFault.NoMemory)
        ⊎ StopsHere (IsNameFault names.new) Key.Routers (texts lines.now) names.new at) }
{
    for (position, line) in lines.iter().enumerate() {
        if let Err(fault) = names.add(alloc, line.as_str()) {
            return Err(Located::at(fault, Key::Routers, position));
        }
    }
    Ok(())
}

// Whether the text has 1 to 16 characters, small letters and digits, the first a letter.
fn is_name(text: &str) -> bool
    ensures { IsTrue result ↔ IsName text.now }
{
    let bytes = text.as_bytes();
    bytes.len() <= 16
        && bytes.first().is_some_and(|b| b.is_ascii_lowercase())
        && bytes
            .iter()
            .all(|b| b.is_ascii_lowercase() || b.is_ascii_digit())
}
