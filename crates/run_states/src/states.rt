//! The states of a run.

ghost use Rattle.std.specs.Prelude.{◌≡◌, ◌+◌, ◌<◌, ◌≤◌, IfOk, Some, [], ◌∷◌, List, MatchOption, OnOk, false, length, map, option_map, string_bytes, take};
ghost use Rattle.std.specs.{Io.KnownBytes.Appends, List.range_with_len};
ghost use Rattle.ipv4_prefix.specs.Texts.{prefix_text};
ghost use Rattle.network_model.specs.{Network.most_routers, Run.Runs, Step.refusal};
ghost use Rattle.network_model.specs.World as model;
ghost use Rattle.world.specs.Steps.{StopsAt};
ghost use Rattle.serde_json.specs.{Data.no_members, Data.object, View.view, View.members_view, Written.has_float};
ghost use Rattle.script.specs.Directories.{name_text};
ghost use Rattle.journal.specs.Steps.{step_text};
ghost use Rattle.texts.specs.{Lines.lines_text, Words.Text};
ghost use Rattle.run_states.specs.declared.recorder.Changes.{Changes as ChangesTold};
ghost use Rattle.run_states.specs.Recorders.{RecorderFollows, IsCurrent, IsRecorderOf, ShowsWorld};
ghost use Rattle.run_states.specs.Told.{IsStatesText, Tell, is_told as told_of, moment_told, numbers_from, stride as stride_of};
ghost use Rattle.run_states.specs.Values.{count_value as number_of, value_line, list, opening_data, put_moment as with_moment, put_step as with_step, state_data, word};

use crate::recorder::{Changes, Recorder};
use crate::values::{
    link_values, machine_values, put_array, put_list, queue_values, router_values,
};
use faults::FaultKind;
use ipv4_prefix::Prefix;
use journal::StepText;
use network_model::{LinkSpec, NoMemory, Step};
use script::Directory;
use serde_json::{Map, Value, json, put};
use std::alloc::{AllocError, Global};
use std::io::{ErrorKind, Write};
use world::{Network, Ran, World};

/// How far steps come from the opening of a network, and why the next is refused, if one is.
pub fn run_from_opening(alloc: Global, network: &Network, steps: &[Step]) -> Result<Ran, NoMemory>
    ensures { IfOk result (λ ran. (w : model.World)
        × Runs (model.opening network.now) (take ran.done steps.now) w
        × MatchOption ran.refusal (ran.done ≡ length steps.now)
        (StopsAt (refusal w) steps.now ran.done)) }
{
    // The opening has room for as many steps as a slice can have.
    let _many = count(steps);
    let mut ended = World::open(alloc, network)?;
    Ok(ended.run(steps))
}

/// Writes what a network opens with, and its state at the opening, after each step whose number is a
/// multiple of `every` (each step where that is 0), and after the last: a line of JSON each. The steps are lawful,
/// one after another from the opening. Of each whose moment is given the line says that. Refused with `NoMemory`, and
/// with `Unwritable` where a write fails.
pub fn write_states<'n, W: Write>(
    alloc: Global,
    network: &'n Network,
    directory: &'n Directory,
    steps: &[Step],
    moments: &[u64],
    every: usize,
    out: &mut W,
) -> Result<(), FaultKind>
    requires { (w : model.World) × Runs (model.opening network.now) steps.now w }
    ensures { OnOk result ((text : Text)
        × IsStatesText network.now directory.now steps.now moments.now (stride_of every) text
        × Appends (W.contents out.old) (W.contents out.new) text) }
{
    let told = stride(every);
    let mut world = World::open(alloc, network)?;
    let mut recorder = Recorder::new(alloc, network)?;
    let (prefixes, last) = (&recorder.prefixes, steps.len());
    let mut opening = Map::new(alloc);
    let members = &mut opening;
    put_opening(members, alloc, network, directory, prefixes, last, told)?;
    write_value(alloc, &Value::Object(opening), out)?;
    write_state(alloc, &world, &mut recorder, 0, None, None, out)?;
    let (world, recorder) = (&mut world, &mut recorder);
    write_steps(
        alloc, network, directory, steps, moments, told, world, recorder, out,
    )
}

fn count(steps: &[Step]) -> usize
    ensures { result ≡ length steps.now }
{
    steps.len()
}

// After how many steps there is a state each.
fn stride(every: usize) -> usize
    ensures exact { result ≡ stride_of every }
    ensures positive { 0 < result }
{
    if every == 0 { 1 } else { every }
}

// Whether the state after so many steps is told.
fn is_told(number: usize, every: usize, last: usize) -> bool
    requires { 0 < every }
    ensures { result ≡ told_of every last number }
{
    number % every == 0 || number == last
}

// Does steps from the opening, whose state was shown, and writes the states after them.
fn write_steps<'n, W: Write>(
    alloc: Global,
    network: &'n Network,
    directory: &'n Directory,
    steps: &[Step],
    moments: &[u64],
    every: usize,
    world: &mut World,
    recorder: &mut Recorder,
    out: &mut W,
) -> Result<(), FaultKind>
    requires every { 0 < every }
    requires opens { world.old ≡ model.opening network.now }
    requires of { IsRecorderOf world.old recorder.old }
    requires shows { ShowsWorld world.old recorder.old }
    ensures { OnOk result ((lines : List Text)
        × Tell network.now directory.now steps.now moments.now (numbers_from every (length steps.now) 1) recorder.old lines
        × Appends (W.contents out.old) (W.contents out.new) (lines_text (λ t. t) lines)) }
{
    // A network has no faults, so the headline holds of each world that its steps lead to.
    let links = network.links();
    for (before, step) in steps.iter().enumerate() {
        if let Err(_refusal) = recorder.step(world, *step) {
            return Err(FaultKind::NoMemory);
        }
        let number = before + 1;
        if is_told(number, every, steps.len()) {
            let text = text_of(alloc, directory, links, step)?;
            let moment = moment_of(moments, before);
            let words = Some(text);
            write_state(alloc, world, recorder, number, words, moment, out)?;
        }
    }
    Ok(())
}

// The moment of the step at this position, if it is known.
fn moment_of(moments: &[u64], position: usize) -> Option<u64>
    ensures { result ≡ moment_told moments.now (position + 1) }
{
    moments.get(position).copied()
}

// A step as a script says it.
fn text_of<'n>(
    alloc: Global,
    directory: &'n Directory,
    links: &'n [LinkSpec],
    step: &Step,
) -> Result<String, NoMemory>
    ensures { IfOk result (λ text. string_bytes text ≡ step_text directory.now links.now step.now) }
{
    Ok(StepText(directory, links, *step).to_string(alloc)?)
}

// Writes a state: after how many steps it is, the last of them and its moment, and what has changed since the state
// before.
fn write_state<W: Write>(
    alloc: Global,
    world: &World,
    recorder: &mut Recorder,
    number: usize,
    step: Option<String>,
    moment: Option<u64>,
    out: &mut W,
) -> Result<(), FaultKind>
    requires of { IsRecorderOf world.now recorder.old }
    requires current { IsCurrent world.now recorder.old }
    ensures of { IsRecorderOf world.now recorder.new }
    ensures shows { OnOk result (ShowsWorld world.now recorder.new) }
    ensures told { OnOk result ((c : ChangesTold) × RecorderFollows c recorder.old recorder.new
        × Appends (W.contents out.old) (W.contents out.new)
        (value_line (state_data world.now recorder.new.prefixes.items number (option_map string_bytes step) moment c))) }
{
    let changes = recorder.changes(alloc, world)?;
    let (changes, prefixes) = (&changes, &recorder.prefixes);
    let mut state = Map::new(alloc);
    let members = &mut state;
    put_state(
        members, alloc, world, prefixes, number, step, moment, changes,
    )?;
    write_value(alloc, &Value::Object(state), out)
}

// Writes a value on a line of its own.
fn write_value<W: Write>(alloc: Global, value: &Value, out: &mut W) -> Result<(), FaultKind>
    requires { has_float (view value.now) ≡ false }
    ensures { OnOk result (Appends (W.contents out.old) (W.contents out.new) (value_line (view value.now))) }
{
    let Ok(text) = value.to_string(alloc) else {
        return Err(FaultKind::NoMemory);
    };
    match writeln!(out, "{text}") {
        Ok(()) => Ok(()),
        Err(error) if error.kind() == ErrorKind::OutOfMemory => Err(FaultKind::NoMemory),
        Err(_) => Err(FaultKind::Unwritable),
    }
}

// Puts what a network opens with: how many steps follow, and after how many of them there is a state each; the
// names of its routers, the routers at the ends of its links, and its prefixes.
fn put_opening(
    members: &mut Map<String, Value>,
    alloc: Global,
    network: &Network,
    directory: &Directory,
    prefixes: &[Prefix],
    steps: usize,
    every: usize,
) -> Result<(), NoMemory>
    requires { members_view members.old.entries ≡ no_members }
    ensures { OnOk result (object (members_view members.new.entries) ≡ opening_data network.now directory.now prefixes.now steps every) }
{
    let kind = Value::try_from_str(alloc, "opening")?;
    put(members, alloc, "kind", kind)?;
    put(members, alloc, "format", Value::from(1_u8))?;
    put(members, alloc, "steps", Value::from(steps))?;
    put(members, alloc, "every", Value::from(every))?;
    let routers = name_values(alloc, directory, network.routers())?;
    put_array(members, alloc, "routers", routers)?;
    let links = end_values(alloc, network.links())?;
    put_array(members, alloc, "links", links)?;
    let prefixes = prefix_values(alloc, prefixes)?;
    Ok(put_array(members, alloc, "prefixes", prefixes)?)
}

// The names of so many routers.
fn name_values(
    alloc: Global,
    directory: &Directory,
    routers: usize,
) -> Result<Vec<Value>, AllocError>
    requires { routers ≤ most_routers }
    ensures { IfOk result (λ v. map view v.items
        ≡ map (λ i. word (name_text directory.now (Some i))) (range_with_len 0 routers)) }
{
    let mut values = Vec::new(alloc);
    for router in 0..routers {
        values.push(Value::try_from_str(alloc, directory.name(Some(router as u16)))?)?;
    }
    Ok(values)
}

// The routers at the ends of links.
fn end_values(alloc: Global, links: &[LinkSpec]) -> Result<Vec<Value>, AllocError>
    ensures { IfOk result (λ v. map view v.items
        ≡ map (λ k. list (number_of k.a ∷ number_of k.b ∷ [])) links.now) }
{
    let mut values = Vec::new(alloc);
    for link in links {
        values.push(json!(in alloc; [link.a, link.b])?)?;
    }
    Ok(values)
}

fn prefix_values(alloc: Global, prefixes: &[Prefix]) -> Result<Vec<Value>, AllocError>
    ensures { IfOk result (λ v. map view v.items ≡ map (λ p. word (prefix_text p)) prefixes.now) }
{
    let mut values = Vec::new(alloc);
    for &prefix in prefixes {
        values.push(Value::String(prefix.to_string(alloc)?))?;
    }
    Ok(values)
}

// Puts a state: after how many steps it is, the last of them and its moment, and what has changed. If nothing has,
// nothing is named.
fn put_state(
    members: &mut Map<String, Value>,
    alloc: Global,
    world: &World,
    prefixes: &[Prefix],
    number: usize,
    step: Option<String>,
    moment: Option<u64>,
    changes: &Changes,
) -> Result<(), NoMemory>
    requires { members_view members.old.entries ≡ no_members }
    ensures { OnOk result (object (members_view members.new.entries) ≡ state_data world.now prefixes.now number (option_map string_bytes step) moment changes.now) }
{
    let kind = Value::try_from_str(alloc, "state")?;
    put(members, alloc, "kind", kind)?;
    put(members, alloc, "number", Value::from(number))?;
    put_step(members, alloc, step)?;
    put_moment(members, alloc, moment)?;
    let links = link_values(alloc, &changes.links)?;
    put_list(members, alloc, "links", links)?;
    let routers = router_values(alloc, &changes.routers)?;
    put_list(members, alloc, "routers", routers)?;
    let machines = machine_values(alloc, world, &changes.routers)?;
    put_list(members, alloc, "machines", machines)?;
    let queues = queue_values(alloc, prefixes, &changes.links)?;
    Ok(put_list(members, alloc, "queues", queues)?)
}

// Puts the text of a step.
fn put_step(
    members: &mut Map<String, Value>,
    alloc: Global,
    step: Option<String>,
) -> Result<(), AllocError>
    ensures { OnOk result (members_view members.new.entries ≡ with_step (option_map string_bytes step) (members_view members.old.entries)) }
{
    if let Some(text) = step {
        put(members, alloc, "step", Value::String(text))?;
    }
    Ok(())
}

// Puts the moment of a step, in microseconds since the opening.
fn put_moment(
    members: &mut Map<String, Value>,
    alloc: Global,
    moment: Option<u64>,
) -> Result<(), AllocError>
    ensures { OnOk result (members_view members.new.entries ≡ with_moment moment (members_view members.old.entries)) }
{
    if let Some(moment) = moment {
        put(members, alloc, "moment", Value::from(moment))?;
    }
    Ok(())
}
