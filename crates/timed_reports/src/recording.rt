//! A network in simulated time that keeps a record, or one that keeps none.

ghost use Rattle.std.specs.Prelude.{◌≡◌, ◌<◌, ◌≤◌, ◌⊎◌, None, Some, false, length, slice_get, IfOk, IfSome, MatchOption, OnErr, OnOk};
ghost use Rattle.coming_to_rest.specs.Worlds.{is_own};
ghost use Rattle.timed_simulation.specs.{Timed.opening_timed, Timed.with_timed_change, Due.IsDoneUntil, Due.NothingIsLate};
ghost use Rattle.timed_simulation.specs.Runs.{IsAtRest, IsGivenOr, IsStoppedAt, IsStoppedShort, IsTimedRun};
ghost use Rattle.timed_reports.specs.Recordings.{report_in, timed_in, with_timed, without_first, GoesOn, IsOpened};

use crate::report::Report;
use network_model::{NoMemory, Step};
use std::alloc::Global;
use timed_simulation::{Change, LinkDelays, TimeFault, TimedRan, TimedSimulation};
use world::Network;

/// A network in simulated time that keeps a record, or one that keeps none. A record costs time with each event,
/// and memory by the routers times the prefixes.
#[derive(Drop)]
pub enum Recording {
    Off(TimedSimulation),
    On(Report),
}

impl Recording {
    /// Opens a network with these delays of its links and of its routers' publications; one that keeps a record,
    /// if this is asked for.
    pub fn open(
        alloc: Global,
        records: bool,
        network: Network,
        delays: &[LinkDelays],
        publications: &[u64],
    ) -> Result<Recording, NoMemory>
        requires each_link { length delays.now ≡ length network.links }
        requires each_router { length publications.now ≡ network.routers }
        ensures opened { IfOk result (λ f. timed_in f
            ≡ opening_timed network delays.now publications.now) }
        ensures form { IfOk result (λ f. IsOpened records f) }
    {
        if records {
            let report = Report::open(alloc, network, delays, publications)?;
            return Ok(Recording::On(report));
        }
        let timed = TimedSimulation::open(alloc, network, delays, publications)?;
        Ok(Recording::Off(timed))
    }

    /// An equal network, with its record if it keeps one.
    pub fn copy(&self, alloc: Global) -> Result<Recording, NoMemory>
        ensures { IfOk result (λ f. f ≡ self.now) }
    {
        match self {
            Recording::Off(timed) => Ok(Recording::Off(timed.copy(alloc)?)),
            Recording::On(report) => Ok(Recording::On(report.copy(alloc)?)),
        }
    }

    /// The network in simulated time.
    pub fn timed(&self) -> &TimedSimulation
        ensures { result.now ≡ timed_in self.now }
    {
        match self {
            Recording::Off(timed) => timed,
            Recording::On(report) => report.timed(),
        }
    }

    /// The network with its record, if it keeps one.
    pub fn report(&self) -> Option<&Report>
        ensures { MatchOption result (report_in self.now ≡ None)
            (λ r. report_in self.now ≡ Some r.now) }
    {
        match self {
            Recording::Off(_) => None,
            Recording::On(report) => Some(report),
        }
    }

    /// Gives a change that is to be done at a moment.
    pub fn at(&mut self, moment: u64, change: Step) -> Result<(), TimeFault>
        requires { is_own change ≡ false }
        ensures ok { OnOk result (self.new
            ≡ with_timed (with_timed_change (record { moment = moment; step = change })) self.old) }
        ensures err { OnErr result (self.new ≡ self.old) }
        ensures cause { IsGivenOr (timed_in self.old).clock moment result }
    {
        match self {
            Recording::Off(timed) => timed.at(moment, change),
            Recording::On(report) => report.at(moment, change),
        }
    }

    /// Takes the first of the changes off the list.
    pub fn withdraw(&mut self) -> Option<Change>
        ensures change { result ≡ slice_get (timed_in self.old).changes 0 }
        ensures rest { self.new ≡ with_timed without_first self.old }
    {
        match self {
            Recording::Off(timed) => timed.withdraw(),
            Recording::On(report) => report.withdraw(),
        }
    }

    /// Does what is due up to a moment, that included, at most so many events.
    pub fn run_until(&mut self, moment: u64, most: usize) -> TimedRan
        ensures run { IsTimedRun (timed_in self.old) (timed_in self.new) result.done }
        ensures recorded { GoesOn self.old self.new result.done }
        ensures most { result.done ≤ most }
        ensures until { (result.done ≡ 0) ⊎ ((timed_in self.new).clock ≤ moment) }
        ensures stop { MatchOption result.fault
            (IsDoneUntil moment (timed_in self.new) ⊎ (result.done ≡ most))
            (IsStoppedAt (timed_in self.new)) }
        ensures short { IfSome result.fault
            (λ _. IsStoppedShort moment most result.done (timed_in self.new)) }
        ensures on_time { NothingIsLate (timed_in self.new) }
    {
        match self {
            Recording::Off(timed) => timed.run_until(moment, most),
            Recording::On(report) => {
                let ran = report.run_until(moment, most);
                report.holds();
                ran
            }
        }
    }

    /// Does all that is left to do, at most so many events.
    pub fn run_to_rest(&mut self, most: usize) -> TimedRan
        ensures run { IsTimedRun (timed_in self.old) (timed_in self.new) result.done }
        ensures recorded { GoesOn self.old self.new result.done }
        ensures most { result.done ≤ most }
        ensures stop { MatchOption result.fault
            (IsAtRest (timed_in self.new) ⊎ (result.done ≡ most))
            (IsStoppedAt (timed_in self.new)) }
        ensures fewer { IfSome result.fault (λ _. result.done < most) }
        ensures on_time { NothingIsLate (timed_in self.new) }
    {
        match self {
            Recording::Off(timed) => timed.run_to_rest(most),
            Recording::On(report) => {
                let ran = report.run_to_rest(most);
                report.holds();
                ran
            }
        }
    }
}
