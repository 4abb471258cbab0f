//! Reads the network of a scenario, and the commands of its script.

ghost use Rattle.std.specs.Prelude.{◌≡◌, ◌⊎◌, Err, IfOk, IfErr, MatchOption};
ghost use Rattle.network_model.specs.Network.{network_fault, program_limits};
ghost use Rattle.script.specs.Seen.{script_parts};
ghost use Rattle.plans.specs.Faults.{IsWantOfMemory};
ghost use Rattle.plans.specs.Scenarios.{IsScenario, IsPlanOf, IsScenarioFault, first_fault, network_read, is_name_fault as is_of_name};

use crate::document::read_scenario;
use crate::fault::Fault;
use script::{Command, Directory, Located, Reading, Script, read_script};
use std::alloc::Global;
use world::Network;

/// A network that can be opened, the names of its routers, and the commands to do on it.
#[derive(Drop)]
pub struct Plan {
    pub network: Network,
    pub directory: Directory,
    pub commands: Vec<Command>,
}

/// The network that the text of a scenario describes, and its commands.
pub fn read_plan(alloc: Global, text: &str) -> Result<Plan, Fault>
    ensures ok { IfOk result (λ o. (parts : _) × IsScenario text.now parts × IsPlanOf parts o) }
    ensures fault { IfErr result (λ e. IsWantOfMemory e ⊎ IsScenarioFault text.now e) }
{
    let lines = read_scenario(alloc, text)?;
    let reading = read_script(
        alloc,
        &lines.routers,
        &lines.links,
        &lines.prefixes,
        &lines.script,
    )?;
    plan_of(alloc, reading)
}

// The network of what was read. A fault in a router's name comes before the faults of the
// network, the fault of any other line after them.
fn plan_of(alloc: Global, reading: Reading) -> Result<Plan, Fault>
    ensures ok { IfOk result (IsPlanOf (script_parts reading.script)) }
    ensures fault { MatchOption (first_fault
        (network_fault program_limits (network_read (script_parts reading.script))) reading.fault)
        (IfErr result IsWantOfMemory) (λ fault. result ≡ Err fault) }
{
    let Reading { script, fault } = reading;
    if let Some(at) = fault
        && is_name_fault(&at)
    {
        return Err(Fault::from(at));
    }
    let Script {
        names,
        links,
        attachments,
        commands,
    } = script;
    let network = Network::new(names.count(), links, attachments)?;
    if let Some(at) = fault {
        return Err(Fault::from(at));
    }
    let directory = Directory::new(alloc, names, network.links())?;
    Ok(Plan {
        network,
        directory,
        commands,
    })
}

// Whether the fault is that of a router's name.
fn is_name_fault(at: &Located) -> bool
    ensures { result ≡ is_of_name (at.now).fault }
{
    matches!(at.fault, script::LineFault::BadName)
}
