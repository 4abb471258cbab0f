//! The lines of prefixes, and of the routers that are attached to them.

ghost use Rattle.std.specs.Prelude.{◌≡◌, ℕ, ◌<◌, ◌^◌, [], ◌⊎◌, IfOk, IfErr, OnOk};
ghost use Rattle.script.specs.{Attachments.AreWords, Attachments.IsAttachment, Attachments.IsAttachmentFault, Reading.StopsHere, Reading.ReadsFirst, Reading.IsWhole};
ghost use Rattle.texts.specs.Words.{Text, texts};

use crate::fault::LineFault;
use crate::names::Names;
use crate::place::{Key, Located};
use ipv4_prefix::Prefix;
use metric::Cost;
use texts::{read_number, three_words, two_words};

/// Reads the lines of prefixes, up to the first fault.
pub(crate) fn read_attachments(
    names: &Names,
    attachments: &mut Vec<(Prefix, u16, Cost)>,
    lines: &[String],
) -> Result<(), Located>
    requires { attachments.old.items ≡ [] }
    ensures read { ReadsFirst (IsAttachment names.now) (texts lines.now) attachments.new.items }
    ensures whole { OnOk result (IsWhole (texts lines.now) attachments.new.items) }
    ensures stop { IfErr result (λ at. (at.fault ≡ LineFault.NoMemory)
        ⊎ StopsHere (IsAttachmentFault names.now) Key.Prefixes (texts lines.now)
        attachments.new.items at) }
{
    for (position, line) in lines.iter().enumerate() {
        match read_attachment(names, line.as_str()) {
            Ok(attachment) => attachments.push(attachment)?,
            Err(fault) => return Err(Located::at(fault, Key::Prefixes, position)),
        }
    }
    Ok(())
}

/// The attachment that a line says: `PREFIX ROUTER COST`, or `PREFIX ROUTER` where the cost is the
/// least. The words are tested first, then the prefix, and then the cost.
pub(crate) fn read_attachment(names: &Names, line: &str) -> Result<(Prefix, u16, Cost), LineFault>
    ensures ok { IfOk result (IsAttachment names.now line.now) }
    ensures err { IfErr result (IsAttachmentFault names.now line.now) }
{
    let (prefix, router, cost) = attachment_words(line)?;
    if prefix.is_empty() {
        return Err(LineFault::BadLine);
    }
    let router = names.number(router).ok_or(LineFault::BadLine)?;
    let prefix = Prefix::parse(prefix)?;
    let cost = Cost::new(cost)?;
    Ok((prefix, router, cost))
}

// The words of a line: a prefix, a router's name, and a cost, which is the least where there is none.
fn attachment_words(line: &str) -> Result<(&str, &str, u32), LineFault>
    ensures ok { IfOk result (λ w. AreWords line.now w.0.now w.1.now w.2 × (w.2 < 2 ^ 32)) }
    ensures err { IfErr result (λ e. (e ≡ LineFault.BadLine) × ((prefix name : Text) (cost : ℕ)
        → AreWords line.now prefix name cost → ¬ (cost < 2 ^ 32))) }
{
    if let Some((prefix, router)) = two_words(line) {
        return Ok((prefix, router, Cost::ONE.value()));
    }
    let (prefix, router, cost) = three_words(line).ok_or(LineFault::BadLine)?;
    let cost = read_number(cost).ok_or(LineFault::BadLine)?;
    Ok((prefix, router, cost))
}
