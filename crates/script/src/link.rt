//! The lines of links.

ghost use Rattle.std.specs.Prelude.{◌≡◌, [], ◌⊎◌, IfOk, IfErr, OnOk};
ghost use Rattle.script.specs.{Links.IsLink, Links.IsLinkFault, Reading.StopsHere, Reading.ReadsFirst, Reading.IsWhole};
ghost use Rattle.texts.specs.Words.{texts};

use crate::fault::LineFault;
use crate::names::{NO_ROUTER, Names};
use crate::place::{Key, Located};
use metric::Cost;
use network_model::LinkSpec;
use texts::{four_words, read_number};

/// Reads the lines of links, up to the first fault.
pub(crate) fn read_links(
    names: &Names,
    links: &mut Vec<LinkSpec>,
    lines: &[String],
) -> Result<(), Located>
    requires { links.old.items ≡ [] }
    ensures read { ReadsFirst (IsLink names.now) (texts lines.now) links.new.items }
    ensures whole { OnOk result (IsWhole (texts lines.now) links.new.items) }
    ensures stop { IfErr result (λ at. (at.fault ≡ LineFault.NoMemory)
        ⊎ StopsHere IsLinkFault Key.Links (texts lines.now) links.new.items at) }
{
    for (position, line) in lines.iter().enumerate() {
        match read_link(names, line.as_str()) {
            Ok(link) => links.push(link)?,
            Err(fault) => return Err(Located::at(fault, Key::Links, position)),
        }
    }
    Ok(())
}

/// The link that a line says: `A B C1 C2`, with C1 the cost from A and C2 the cost from B. A name that
/// is not known stands for no router, which is a fault where the network is opened, after those of all
/// lines. The words are tested first, and then the costs.
pub(crate) fn read_link(names: &Names, line: &str) -> Result<LinkSpec, LineFault>
    ensures ok { IfOk result (IsLink names.now line.now) }
    ensures err { IfErr result (IsLinkFault line.now) }
{
    let (a, b, from_a, from_b) = four_words(line).ok_or(LineFault::BadLine)?;
    if a.is_empty() || b.is_empty() {
        return Err(LineFault::BadLine);
    }
    let from_a = read_number(from_a).ok_or(LineFault::BadLine)?;
    let from_b = read_number(from_b).ok_or(LineFault::BadLine)?;
    let from_a = Cost::new(from_a)?;
    let from_b = Cost::new(from_b)?;
    let a = names.number(a).unwrap_or(NO_ROUTER);
    let b = names.number(b).unwrap_or(NO_ROUTER);
    Ok(LinkSpec {
        a,
        b,
        from_a,
        from_b,
    })
}
