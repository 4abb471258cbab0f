//! What a program is shown of its router.

ghost use Rattle.std.specs.Prelude.{◌≡◌, option_and_then, option_map, unwrap_or};
ghost use Rattle.c_interface.specs.Rows.{answer_row};
ghost use Rattle.single_router.specs.States.{awaited_flags, owed_port, state_of};

use c_interface::Row;
use dual_machine::{Machine, Mode};
use network_model::{Entry, Prefix};
use route_table::RouteTable;

/// What a router has: how many prefixes it has heard of, how many rows a publication would put in force,
/// how many messages it holds and how many of these may leave, how often it published, and whether a
/// publication is due (1, else 0).
#[repr(C)]
#[derive(Clone, Copy)]
pub struct Counts {
    pub prefixes: usize,
    pub changed: usize,
    pub held: usize,
    pub ripe: usize,
    pub generation: u64,
    pub due: u8,
}

/// What a router knows of a prefix: its reported and its feasible distance (4294967295 is infinity), the
/// cost of its own attachment (0: it has none), the row that it chose and the one that it published
/// (kind 3: none), whether a computation is under way (1, else 0), the port to which it then owes a
/// reply (255: none), and for each port whether the computation awaits its reply (1, else 0).
#[repr(C)]
#[derive(Clone, Copy, Debug, PartialEq, Eq)]
pub struct State {
    pub rd: u32,
    pub fd: u32,
    pub attached: u32,
    pub chosen: Row,
    pub published: Row,
    pub active: u8,
    pub owed: u8,
    pub awaited: [u8; 32],
}

impl State {
    /// What stands at a prefix, by a router's machine and its rows.
    pub fn of(prefix: Prefix, machine: &Machine, table: &RouteTable) -> State
        ensures { result ≡ state_of (table.now).table prefix (machine.now).machine }
    {
        State {
            rd: machine.rd().value(),
            fd: machine.fd().value(),
            attached: attached_cost(machine),
            chosen: row_at(prefix, table.get(prefix)),
            published: row_at(prefix, table.published(prefix)),
            active: u8::from(!machine.is_passive()),
            owed: owed_to(machine),
            awaited: awaited_ports(machine),
        }
    }
}

// The row of a prefix, as C has it.
fn row_at(prefix: Prefix, entry: Option<Entry>) -> Row
    ensures { result ≡ answer_row (option_map (λ e. (prefix, e)) entry) }
{
    match entry {
        Some(entry) => Row::answer(Some((prefix, entry))),
        None => Row::answer(None),
    }
}

// The cost of the router's own attachment, or 0.
fn attached_cost(machine: &Machine) -> u32
    ensures { result ≡ unwrap_or ((machine.now).machine).attachment 0 }
{
    match machine.attachment() {
        Some(cost) => cost.value(),
        None => 0,
    }
}

// For each port whether the machine awaits its reply.
fn awaited_ports(machine: &Machine) -> [u8; 32]
    ensures { result ≡ awaited_flags (machine.now).machine.computation }
{
    let mut awaited = [0; 32];
    for port in 0..32 {
        awaited[port] = u8::from(machine.awaits(port as u8));
    }
    awaited
}

// The port to which the machine owes a reply, or 255.
fn owed_to(machine: &Machine) -> u8
    ensures { result ≡ owed_port (machine.now).machine.computation }
{
    match debt_of(machine) {
        Some(port) => port,
        None => u8::MAX,
    }
}

// The port to which the machine owes a reply, if there is one.
pub(crate) fn debt_of(machine: &Machine) -> Option<u8>
    ensures { result ≡ option_and_then (λ c. c.debt) (machine.now).machine.computation }
{
    match machine.mode() {
        Mode::Active { debt, .. } => debt,
        Mode::Passive => None,
    }
}
