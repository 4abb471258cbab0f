//! What faults, costs and distances are written as.

use crate::equal_to::equal;
use forwarder::GatherFault;
use ipv4_prefix::PrefixFault;
use link_fifo::LinkRefusal;
use metric::{BadCost, Cost, Distance};
use network_model::{NoMemory, Refusal};
use play::{Fault, FaultKind, refuse};
use publication::{NoImage, OpenFault};
use std::alloc::Global;
use std::fmt::Display;
use std::process::Abort;
use tracer::TraceFault;
use worker_pool::PoolFault;

pub fn is_written<T: Display>(rt: &impl Abort, alloc: Global, value: &T, want: &str) {
    let text = value.to_string(alloc).expect(rt, "memory");
    equal(rt, text.as_str(), want);
}

fn are_written<T: Display>(rt: &impl Abort, alloc: Global, rows: &[(T, &str)]) {
    for row in rows {
        is_written(rt, alloc, &row.0, row.1);
    }
}

static OF_PREFIXES: [(PrefixFault, &str); 4] = [
    (PrefixFault::NoSlash, "1 NoSlash"),
    (PrefixFault::BadAddress, "2 BadAddress"),
    (PrefixFault::BadLength, "3 BadLength"),
    (PrefixFault::HostBits, "4 HostBits"),
];

static OF_LINKS: [(LinkRefusal, &str); 6] = [
    (LinkRefusal::UnknownLink, "11 UnknownLink"),
    (LinkRefusal::AlreadyUp, "13 AlreadyUp"),
    (LinkRefusal::IsDown, "14 IsDown"),
    (LinkRefusal::SessionsSpent, "15 SessionsSpent"),
    (LinkRefusal::NothingToDeliver, "16 NothingToDeliver"),
    (LinkRefusal::NoMemory, "20 NoMemory"),
];

static REFUSALS: [(Refusal, &str); 17] = [
    (Refusal::UnknownRouter, "10 UnknownRouter"),
    (Refusal::UnknownLink, "11 UnknownLink"),
    (Refusal::AlreadyUp, "13 AlreadyUp"),
    (Refusal::IsDown, "14 IsDown"),
    (Refusal::SessionsSpent, "15 SessionsSpent"),
    (Refusal::NothingToDeliver, "16 NothingToDeliver"),
    (Refusal::NothingDue, "17 NothingDue"),
    (Refusal::NothingRipe, "18 NothingRipe"),
    (Refusal::JournalFull, "19 JournalFull"),
    (Refusal::NoMemory, "20 NoMemory"),
    (Refusal::Busy, "21 Busy"),
    (Refusal::Stale, "22 Stale"),
    (Refusal::NoReaderPlace, "23 NoReaderPlace"),
    (Refusal::UnknownPrefix, "28 UnknownPrefix"),
    (Refusal::NotAttached, "29 NotAttached"),
    (Refusal::NoImage, "34 NoImage"),
    (Refusal::WrongTicket, "35 WrongTicket"),
];

static OF_OPENINGS: [(OpenFault, &str); 2] = [
    (OpenFault::NoMemory, "20 NoMemory"),
    (OpenFault::NoReaderPlace, "23 NoReaderPlace"),
];

static OF_TRACES: [(TraceFault, &str); 4] = [
    (TraceFault::UnknownRouter, "10 UnknownRouter"),
    (TraceFault::NoMemory, "20 NoMemory"),
    (TraceFault::Stale, "22 Stale"),
    (TraceFault::NoImage, "34 NoImage"),
];

static OF_WORKERS: [(PoolFault, &str); 7] = [
    (PoolFault::NoThread, "12 NoThread"),
    (PoolFault::Memory(NoMemory), "20 NoMemory"),
    (PoolFault::Gather(GatherFault::Stranger), "30 Stranger"),
    (PoolFault::Gather(GatherFault::Doubled), "31 Doubled"),
    (PoolFault::Gather(GatherFault::Missing), "32 Missing"),
    (PoolFault::Closed, "33 Closed"),
    (PoolFault::Refused(Refusal::NoImage), "34 NoImage"),
];

#[test]
fn how_faults_are_written(rt: HostRuntime) {
    let alloc = rt.alloc();
    are_written(&rt, alloc, &OF_PREFIXES);
    are_written(&rt, alloc, &OF_LINKS);
    are_written(&rt, alloc, &REFUSALS);
    are_written(&rt, alloc, &OF_OPENINGS);
    are_written(&rt, alloc, &OF_TRACES);
    are_written(&rt, alloc, &OF_WORKERS);
    is_written(&rt, alloc, &BadCost, "5 BadCost");
    is_written(&rt, alloc, &NoImage, "34 NoImage");
}

#[test]
fn how_costs_and_distances_are_written(rt: HostRuntime) {
    let alloc = rt.alloc();
    let most = Cost::new(65535).expect(&rt, "a cost");
    is_written(&rt, alloc, &most, "65535");
    is_written(&rt, alloc, &Distance::INF, "inf");
    is_written(&rt, alloc, &Distance::new(16776960), "16776960");
}

// The fault is told so, and ends the run with status 2.
fn is_told(rt: &impl Abort, alloc: Global, fault: Fault, text: &str) {
    let mut told = Vec::new(alloc);
    let status = refuse(fault, &mut told);
    equal(rt, status, 2);
    equal(rt, told.as_slice(), text.as_bytes());
}

#[test]
fn how_faults_of_journals_are_told(rt: HostRuntime) {
    let alloc = rt.alloc();
    let full = "dualnet: 19 JournalFull\ndualnet: 1000000 steps were done\n";
    is_told(&rt, alloc, Fault::from(Refusal::JournalFull), full);
    let unwritable = "dualnet: 49 Unwritable\n";
    is_told(&rt, alloc, Fault::from(FaultKind::Unwritable), unwritable);
}
