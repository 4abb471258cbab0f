//! The lines of the script.

ghost use Rattle.std.specs.Prelude.{◌≡◌, ◌≢◌, ℕ, [], ◌∷◌, ◌⊎◌, IfOk, IfErr, OnOk, codes};
ghost use Rattle.texts.specs.Words.{Text, words_of, texts};
ghost use Rattle.script.specs.Commands.{Asks, AsksDrawn, AsksNoStep, AsksNoTrace, AsksNothing, AsksTrace, IsCommand, IsCommandFault, NamesAddress, NamesNoAddress};
ghost use Rattle.script.specs.Reading.{StopsHere, ReadsFirst, IsWhole};

use crate::fault::LineFault;
use crate::names::Names;
use crate::operand::{read_prefix, read_router, read_text};
use crate::place::{Key, Located};
use crate::step::{read_port, read_step};
use ipv4_prefix::{Prefix, parse_addr};
use metric::Cost;
use network_model::{LinkSpec, Step};
use texts::{first_word, read_number, three_words, two_words};

/// One command of a script. Routers go by their numbers, from 0.
#[derive(Clone, Copy)]
pub enum Command {
    /// Do the step.
    Step(Step),
    /// Do the step, and print whether it was refused.
    Try(Step),
    /// Put up each link of the router that is down, in ascending order of the links.
    RouterUp { router: u16 },
    /// Take down each link of the router that is up, in ascending order of the links.
    RouterDown { router: u16 },
    /// Do what the routers have to do until nothing is left.
    Settle,
    /// Settle in an order that the seed draws.
    SettleDrawn { seed: u32 },
    /// Print how many steps were done, and how many messages of each kind sent, since the last count.
    Count,
    /// Keep the state of the network, in place of the one that was kept before.
    Save,
    /// Go back to the state that was kept.
    Restore,
    /// Print what the router's machine for the prefix is at.
    State { router: u16, prefix: Prefix },
    /// Print the router's published rows.
    Table { router: u16 },
    /// Print what the router has to do next.
    Next { router: u16 },
    /// Print what the router has yet to take from its port, oldest first.
    Queue { router: u16, port: u8 },
    /// Print the messages that the router holds, oldest first.
    Held { router: u16 },
    /// Look the address up in the router's image in force.
    Lookup { router: u16, addr: u32 },
    /// Give the address to the workers, to look up at the router.
    Inject { router: u16, addr: u32 },
    /// Print the way of a packet for the address from the router, while one prefix matches it.
    Trace { router: u16, addr: u32 },
    /// Print its way to the end, whichever prefixes match it.
    TraceThrough { router: u16, addr: u32 },
    /// Wait for the workers, and print their answers.
    Drain,
    /// Print all links, routers and machines.
    Report,
}

/// Reads the lines of the script, up to the first fault.
pub(crate) fn read_commands(
    names: &Names,
    links: &[LinkSpec],
    attachments: &[(Prefix, u16, Cost)],
    commands: &mut Vec<Command>,
    lines: &[String],
) -> Result<(), Located>
    requires { commands.old.items ≡ [] }
    ensures read { ReadsFirst (IsCommand names.now links.now attachments.now) (texts lines.now)
        commands.new.items }
    ensures whole { OnOk result (IsWhole (texts lines.now) commands.new.items) }
    ensures stop { IfErr result (λ at. (at.fault ≡ LineFault.NoMemory)
        ⊎ StopsHere (IsCommandFault names.now links.now attachments.now) Key.Script
        (texts lines.now)
        commands.new.items at) }
{
    // Names the type of a command's step, without which the checker has no plan for the list.
    let _step: Option<Step> = None;
    for (position, line) in lines.iter().enumerate() {
        match read_command(names, links, attachments, line.as_str()) {
            Ok(command) => commands.push(command)?,
            Err(fault) => return Err(Located::at(fault, Key::Script, position)),
        }
    }
    Ok(())
}

/// The command that a line says: a step, `try STEP`, `up A`, `down A`, `settle`, `settle --seed N`, `count`, `save`,
/// `restore`, `state A PREFIX`, `table A`, `next A`, `queue A B`, `held A`, `lookup A ADDR`, `inject A ADDR`, `trace
/// A ADDR`, `trace A ADDR --through`, `drain` or `report`. A `BadCommand` comes before the fault of a cost, a prefix
/// or an address, but a prefix that the scenario does not have is a `BadCommand` after all others.
pub fn read_command(
    names: &Names,
    links: &[LinkSpec],
    attachments: &[(Prefix, u16, Cost)],
    line: &str,
) -> Result<Command, LineFault>
    ensures ok { IfOk result (IsCommand names.now links.now attachments.now line.now) }
    ensures err { IfErr result (IsCommandFault names.now links.now attachments.now line.now) }
{
    match first_word(line) {
        Some((verb, operands)) => read_words(names, links, attachments, verb, operands),
        None => read_word(line),
    }
}

// The command that a line of one word says.
fn read_word(word: &str) -> Result<Command, LineFault>
    ensures ok { IfOk result (λ c. ((c ≡ Command.Settle) × (word.now ≡ codes "settle"))
        ⊎ ((c ≡ Command.Count) × (word.now ≡ codes "count"))
        ⊎ ((c ≡ Command.Save) × (word.now ≡ codes "save"))
        ⊎ ((c ≡ Command.Restore) × (word.now ≡ codes "restore"))
        ⊎ ((c ≡ Command.Drain) × (word.now ≡ codes "drain"))
        ⊎ ((c ≡ Command.Report) × (word.now ≡ codes "report"))) }
    ensures err { IfErr result (λ e. (e ≡ LineFault.BadCommand) × (word.now ≢ codes "settle")
        × (word.now ≢ codes "count") × (word.now ≢ codes "save") × (word.now ≢ codes "restore")
        × (word.now ≢ codes "drain") × (word.now ≢ codes "report")) }
{
    match word {
        "settle" => Ok(Command::Settle),
        "count" => Ok(Command::Count),
        "save" => Ok(Command::Save),
        "restore" => Ok(Command::Restore),
        "drain" => Ok(Command::Drain),
        "report" => Ok(Command::Report),
        _ => Err(LineFault::BadCommand),
    }
}

// The command that a verb and its operands say.
fn read_words(
    names: &Names,
    links: &[LinkSpec],
    attachments: &[(Prefix, u16, Cost)],
    verb: &str,
    operands: &str,
) -> Result<Command, LineFault>
    ensures ok { IfOk result (Asks names.now links.now attachments.now
        (verb.now ∷ words_of operands.now)) }
    ensures err { IfErr result
        (AsksNothing names.now links.now attachments.now (verb.now ∷ words_of operands.now)) }
{
    match verb {
        "try" => {
            let (verb, operands) = first_word(operands).ok_or(LineFault::BadCommand)?;
            let step = read_step(names, links, attachments, verb, operands)?;
            Ok(Command::Try(step))
        }
        "up" => match names.number(operands) {
            Some(router) => Ok(Command::RouterUp { router }),
            None => read_step_command(names, links, attachments, verb, operands),
        },
        "down" => match names.number(operands) {
            Some(router) => Ok(Command::RouterDown { router }),
            None => read_step_command(names, links, attachments, verb, operands),
        },
        "settle" => {
            let seed = read_seed(operands)?;
            Ok(Command::SettleDrawn { seed })
        }
        "state" => {
            let (router, prefix) = read_prefix(names, attachments, operands)?;
            Ok(Command::State { router, prefix })
        }
        "table" => {
            let router = read_router(names, operands)?;
            Ok(Command::Table { router })
        }
        "next" => {
            let router = read_router(names, operands)?;
            Ok(Command::Next { router })
        }
        "queue" => {
            let (router, port) = read_port(names, links, operands)?;
            Ok(Command::Queue { router, port })
        }
        "held" => {
            let router = read_router(names, operands)?;
            Ok(Command::Held { router })
        }
        "lookup" => {
            let (router, addr) = read_addr(names, operands)?;
            Ok(Command::Lookup { router, addr })
        }
        "inject" => {
            let (router, addr) = read_addr(names, operands)?;
            Ok(Command::Inject { router, addr })
        }
        "trace" => read_trace(names, operands),
        _ => read_step_command(names, links, attachments, verb, operands),
    }
}

fn read_step_command(
    names: &Names,
    links: &[LinkSpec],
    attachments: &[(Prefix, u16, Cost)],
    verb: &str,
    operands: &str,
) -> Result<Command, LineFault>
    ensures ok { IfOk result (Asks names.now links.now attachments.now
        (verb.now ∷ words_of operands.now)) }
    ensures err { IfErr result
        (AsksNoStep names.now links.now attachments.now (verb.now ∷ words_of operands.now)) }
{
    let step = read_step(names, links, attachments, verb, operands)?;
    Ok(Command::Step(step))
}

// The seed that the operands of `settle` name.
fn read_seed(operands: &str) -> Result<u32, LineFault>
    ensures ok { IfOk result (AsksDrawn (codes "settle" ∷ words_of operands.now)) }
    ensures err { IfErr result (λ e. (e ≡ LineFault.BadCommand) × ((seed : ℕ)
        → ¬ (AsksDrawn (codes "settle" ∷ words_of operands.now) seed))) }
{
    let (option, number) = two_words(operands).ok_or(LineFault::BadCommand)?;
    if option != "--seed" {
        return Err(LineFault::BadCommand);
    }
    read_number(number).ok_or(LineFault::BadCommand)
}

// The trace that the operands of `trace` ask for.
fn read_trace(names: &Names, operands: &str) -> Result<Command, LineFault>
    ensures ok { IfOk result (AsksTrace names.now (codes "trace" ∷ words_of operands.now)) }
    ensures err { IfErr result (AsksNoTrace names.now (codes "trace" ∷ words_of operands.now)) }
{
    match three_words(operands) {
        Some((name, text, option)) => {
            if option != "--through" || text.is_empty() {
                return Err(LineFault::BadCommand);
            }
            let router = read_router(names, name)?;
            let addr = parse_addr(text)?;
            Ok(Command::TraceThrough { router, addr })
        }
        None => {
            let (router, addr) = read_addr(names, operands)?;
            Ok(Command::Trace { router, addr })
        }
    }
}

// The router that the operands name, and the address after its name.
fn read_addr(names: &Names, operands: &str) -> Result<(u16, u32), LineFault>
    ensures ok { IfOk result (λ a. (verb : Text)
        → NamesAddress names.now verb (verb ∷ words_of operands.now) a.0 a.1) }
    ensures err { IfErr result (λ e. (verb : Text)
        → NamesNoAddress names.now verb (verb ∷ words_of operands.now) e) }
{
    let (router, text) = read_text(names, operands)?;
    let addr = parse_addr(text)?;
    Ok((router, addr))
}
