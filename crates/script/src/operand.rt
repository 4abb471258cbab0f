//! What the operands of a command name: routers, prefixes, and texts.

ghost use Rattle.std.specs.Prelude.{◌≡◌, ℕ, ◌∷◌, IfOk, IfErr, None, Some};
ghost use Rattle.std.specs.List.{list_any};
ghost use Rattle.ipv4_prefix.specs.Prefix.{prefix_eq};
ghost use Rattle.texts.specs.Words.{Text, words_of};
ghost use Rattle.script.specs.{Routers.IsName, Routers.router_number, Commands.NamesText, Commands.NamesPrefix, Commands.NamesNoPrefix};

use crate::fault::LineFault;
use crate::names::Names;
use ipv4_prefix::Prefix;
use metric::Cost;
use texts::two_words;

/// The number of the router of this name.
pub(crate) fn read_router(names: &Names, name: &str) -> Result<u16, LineFault>
    ensures ok { IfOk result (λ router. (router_number names.now name.now ≡ Some router)
        × IsName name.now) }
    ensures err { IfErr result (λ e. (e ≡ LineFault.BadCommand)
        × (router_number names.now name.now ≡ None)) }
{
    names.number(name).ok_or(LineFault::BadCommand)
}

/// The router that the operands name, and the text after its name, which is not empty.
pub(crate) fn read_text<'a>(names: &Names, operands: &'a str) -> Result<(u16, &'a str), LineFault>
    ensures ok { IfOk result (λ w. (verb : Text)
        → NamesText names.now verb (verb ∷ words_of operands.now) w.0 w.1.now) }
    ensures err { IfErr result (λ e. (e ≡ LineFault.BadCommand)
        × ((verb : Text) (router : ℕ) (text : Text)
        → ¬ (NamesText names.now verb (verb ∷ words_of operands.now) router text))) }
{
    let (name, text) = two_words(operands).ok_or(LineFault::BadCommand)?;
    if text.is_empty() {
        return Err(LineFault::BadCommand);
    }
    let router = read_router(names, name)?;
    Ok((router, text))
}

/// The router that the operands name, and the prefix after its name, which is one of the network's.
pub(crate) fn read_prefix(
    names: &Names,
    attachments: &[(Prefix, u16, Cost)],
    operands: &str,
) -> Result<(u16, Prefix), LineFault>
    ensures ok { IfOk result (λ w. (verb : Text)
        → NamesPrefix names.now attachments.now verb (verb ∷ words_of operands.now) w.0 w.1) }
    ensures err { IfErr result (λ e. (verb : Text)
        → NamesNoPrefix names.now attachments.now verb (verb ∷ words_of operands.now) e) }
{
    let (router, text) = read_text(names, operands)?;
    let prefix = Prefix::parse(text)?;
    if !is_known(attachments, &prefix) {
        return Err(LineFault::BadCommand);
    }
    Ok((router, prefix))
}

/// Whether the prefix is one of the network's.
pub(crate) fn is_known(attachments: &[(Prefix, u16, Cost)], prefix: &Prefix) -> bool
    ensures { result ≡ list_any (λ a. prefix_eq a.0 prefix.now) attachments.now }
{
    attachments.iter().any(|attachment| attachment.0 == *prefix)
}
