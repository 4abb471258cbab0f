//! The report: a network in simulated time, and what goes on in it and went on.

ghost use Rattle.std.specs.Prelude.{Err, [], ◌≡◌, ◌+◌, ◌<◌, ◌≤◌, ◌⊎◌, false, true, Some, drop, length, slice_get, IfOk, IfErr, IfSome, OnOk, OnErr, MatchOption};
ghost use Rattle.std.specs.Vec.{vec_capacity, vec_len};
ghost use Rattle.coming_to_rest.specs.Worlds.{is_own};
ghost use Rattle.timed_simulation.specs.Timed.{after_event, opening_timed, with_timed_change, world_of};
ghost use Rattle.timed_simulation.specs.{Events.next_event, Due.IsDoneUntil, Due.NothingIsLate};
ghost use Rattle.timed_simulation.specs.Runs.{IsAtRest, IsGivenOr, IsNext, IsStoppedAt, IsStoppedShort, IsTimed};
ghost use Rattle.timed_reports.specs.{Looks.HasMarks, Looks.IsToldPrefix, Looks.MarksMoved, Records.moves_ways};
ghost use Rattle.timed_reports.specs.Reports.{IsReport, IsReportOf, IsReportRun, RecordsEvent};

use crate::looks::{look_for_computations, look_for_outages, mark_moved, told_prefix};
use crate::spells::{Spell, Watched, watch_all};
use network_model::{NoMemory, Prefix, Refusal, SmallAllocator, Step};
use reachability::CutOff;
use std::alloc::Global;
use std::marker::Model;
use timed_simulation::{Change, Event, LinkDelays, TimeFault, TimedRan, TimedSimulation};
use world::Network;

/// A network that runs in simulated time, and a record of its machines' computations and of the routers that
/// are cut off from a prefix. It takes memory by the routers times the prefixes, and by the spells that ended.
#[derive(Drop)]
pub struct Report<A: SmallAllocator = Global> {
    timed: TimedSimulation<A>,
    computations: Vec<Spell, A>,
    computing: Vec<Watched, A>,
    outages: Vec<Spell, A>,
    cut_off: Vec<Watched, A>,
    // Where the routers are marked that are cut off from a prefix.
    cut: CutOff<A>,
    // Where the prefixes are marked to which an event may move ways.
    marks: Vec<bool, A>,
}

impl<A: SmallAllocator> Model for Report<A> {
    ghost use Rattle.timed_simulation.specs.Timed.{world_of};
    ghost use Rattle.timed_reports.specs.Looks.{HasMarks, HasRoomForMarks};
    ghost use Rattle.timed_reports.specs.Reports.{IsReport, Reported, reported_of};

    ghost Value = { Reported };

    ghost view = { λ r. reported_of r.timed r.computations.items r.computing.items r.outages.items r.cut_off.items };

    ghost invariant = { λ r. IsReport
        (reported_of r.timed r.computations.items r.computing.items r.outages.items r.cut_off.items)
        × HasRoomForMarks (world_of r.timed) r.cut
        × HasMarks (world_of r.timed) r.marks.items };
}

// Does the next event, or leaves all as it was.
fn do_one<A: SmallAllocator>(timed: &mut TimedSimulation<A>, event: &Event) -> Result<(), TimeFault>
    requires { next_event timed.old ≡ Some event.now }
    ensures ok { OnOk result (IsNext timed.old event.now
        × (timed.new ≡ after_event timed.old event.now)) }
    ensures err { OnErr result (timed.new ≡ timed.old) }
    ensures cause { IfErr result (IsStoppedAt timed.old) }
{
    timed.holds();
    let ran = timed.run_until(event.moment, 1);
    if ran.done > 0 {
        return Ok(());
    }
    match ran.fault {
        Some(fault) => Err(fault),
        // The event is due, so it was done if nothing stopped it.
        None => unreachable!(),
    }
}

// Finds out what a step concerns before it is done: it marks the prefixes to which ways may move, and answers the one of
// the message that is taken, if one is.
fn look_ahead<A: SmallAllocator>(
    timed: &TimedSimulation<A>,
    step: &Step,
    marks: &mut Vec<bool, A>,
) -> Option<Prefix>
    requires { HasMarks (world_of timed.now) marks.old.items }
    ensures told { IfSome result (λ p. IsToldPrefix (world_of timed.now) step.now p) }
    ensures marked { moves_ways step.now ≡ true → MarksMoved (world_of timed.now) step.now marks.new.items }
    ensures many { length marks.new.items ≡ length marks.old.items }
{
    let world = timed.simulation().world();
    mark_moved(world, step, marks);
    told_prefix(world, step)
}

// No marks for so many prefixes.
fn no_marks<A: SmallAllocator>(alloc: A, prefixes: usize) -> Result<Vec<bool, A>, NoMemory>
    ensures { IfOk result (λ marks. length marks.items ≡ prefixes) }
{
    Ok(vec![in alloc; false; prefixes]?)
}

// Makes room for as many as may end with one event.
fn make_room<A: SmallAllocator>(
    ended: &mut Vec<Spell, A>,
    all: &Vec<Watched, A>,
) -> Result<(), NoMemory>
    ensures items { ended.new.items ≡ ended.old.items }
    ensures room { OnOk result (vec_len ended.new + length all.now.items ≤ vec_capacity ended.new) }
{
    ended.reserve(all.len())?;
    Ok(())
}

// Makes room for what may end with the next event, and does it; or leaves all as it was.
fn do_next<A: SmallAllocator>(
    timed: &mut TimedSimulation<A>,
    event: &Event,
    computations: &mut Vec<Spell, A>,
    computing: &Vec<Watched, A>,
    outages: &mut Vec<Spell, A>,
    cut_off: &Vec<Watched, A>,
) -> Result<(), TimeFault>
    requires { next_event timed.old ≡ Some event.now }
    ensures ok { OnOk result (IsNext timed.old event.now
        × (timed.new ≡ after_event timed.old event.now)) }
    ensures err { OnErr result (timed.new ≡ timed.old) }
    ensures cause { IfErr result (IsStoppedAt timed.old) }
    ensures computations { computations.new.items ≡ computations.old.items }
    ensures outages { outages.new.items ≡ outages.old.items }
    ensures room { OnOk result (vec_len computations.new + length computing.now.items
        ≤ vec_capacity computations.new) }
    ensures room_out { OnOk result (vec_len outages.new + length cut_off.now.items
        ≤ vec_capacity outages.new) }
{
    if event.moment >= u64::MAX {
        return Err(TimeFault::TimeSpent);
    }
    if make_room(computations, computing).is_err() || make_room(outages, cut_off).is_err() {
        return Err(TimeFault::Refused(Refusal::NoMemory));
    }
    do_one(timed, event)
}

// The next event, where its moment is no later than this one.
fn next_until<A: SmallAllocator>(timed: &TimedSimulation<A>, moment: u64) -> Option<Event>
    ensures some { IfSome result (λ e. (next_event timed.now ≡ Some e) × (e.moment ≤ moment)) }
    ensures none { result ≡ None → IsDoneUntil moment timed.now }
{
    let event = timed.next_event()?;
    if event.moment > moment {
        return None;
    }
    Some(event)
}

// It does nothing. If nothing is due up to the last moment, the network is at rest.
fn rests<A: SmallAllocator>(timed: &TimedSimulation<A>)
    ensures { IsDoneUntil u64.MAX timed.now → IsAtRest timed.now }
{
    let _next = timed.next_event();
    let _rest = timed.is_at_rest();
}

impl<A: SmallAllocator> Report<A> {
    /// Opens a network at moment 0, as `TimedSimulation::open` does. Nothing goes on.
    pub fn open(
        alloc: A,
        network: Network,
        links: &[LinkDelays],
        routers: &[u64],
    ) -> Result<Report<A>, NoMemory>
        requires each_link { length links.now ≡ length network.links }
        requires each_router { length routers.now ≡ network.routers }
        ensures opened { IfOk result (λ r. r.timed ≡ opening_timed network links.now routers.now) }
        ensures fresh { IfOk result (λ r. IsReportOf [] r) }
    {
        let timed = TimedSimulation::open(alloc, network, links, routers)?;
        timed.holds();
        let count = timed.simulation().world().routers().len();
        let prefixes = timed.simulation().world().prefixes();
        let computing = watch_all(alloc, count, prefixes)?;
        let cut_off = watch_all(alloc, count, prefixes)?;
        let cut = CutOff::new(alloc, count)?;
        let marks = no_marks(alloc, prefixes.len())?;
        Ok(Report {
            timed,
            computations: Vec::new(alloc),
            computing,
            outages: Vec::new(alloc),
            cut_off,
            cut,
            marks,
        })
    }

    /// An equal network with its record, as `TimedSimulation::copy` makes one.
    pub fn copy(&self, alloc: A) -> Result<Report<A>, NoMemory>
        ensures { IfOk result (λ r. r ≡ self.now) }
    {
        let timed = self.timed.copy(alloc)?;
        let computations = Vec::from_slice(alloc, &self.computations)?;
        let computing = Vec::from_slice(alloc, &self.computing)?;
        let outages = Vec::from_slice(alloc, &self.outages)?;
        let cut_off = Vec::from_slice(alloc, &self.cut_off)?;
        let cut = CutOff::new(alloc, self.cut.routers())?;
        let marks = Vec::from_slice(alloc, &self.marks)?;
        Ok(Report {
            timed,
            computations,
            computing,
            outages,
            cut_off,
            cut,
            marks,
        })
    }

    /// The network, its world, its clock and its changes.
    pub fn timed(&self) -> &TimedSimulation<A>
        ensures { result.now ≡ (self.now).timed }
    {
        &self.timed
    }

    /// The computations that ended, in the order in which they did: each from the event with which the machine
    /// of a router for a prefix began to await replies, until the event after which it did not.
    pub fn computations(&self) -> &[Spell]
        ensures { result.now ≡ (self.now).computations }
    {
        &self.computations
    }

    /// One for each router and each prefix of the network, by prefixes and then by routers: since when its
    /// machine is in a computation, if it is.
    pub fn computing(&self) -> &[Watched]
        ensures { result.now ≡ (self.now).computing }
    {
        &self.computing
    }

    /// The outages that ended, in the order in which they did: each from the event that cut a router off from a
    /// prefix, until the event after which it was not cut off.
    pub fn outages(&self) -> &[Spell]
        ensures { result.now ≡ (self.now).outages }
    {
        &self.outages
    }

    /// One for each router and each prefix of the network, by prefixes and then by routers: since when the
    /// router is cut off from the prefix, if it is.
    pub fn cut_off(&self) -> &[Watched]
        ensures { result.now ≡ (self.now).cut_off }
    {
        &self.cut_off
    }

    /// Gives a change that is to be done at a moment, as `TimedSimulation::at` does, and with its refusals.
    pub fn at(&mut self, moment: u64, change: Step) -> Result<(), TimeFault>
        requires { is_own change ≡ false }
        ensures ok { OnOk result (self.new ≡ record self.old {
          timed = with_timed_change (record { moment = moment; step = change }) (self.old).timed;
        }) }
        ensures err { OnErr result (self.new ≡ self.old) }
        ensures cause { IsGivenOr ((self.old).timed).clock moment result }
    {
        self.timed.at(moment, change)
    }

    /// Takes the first of the changes off the list, for example one whose step is refused.
    pub fn withdraw(&mut self) -> Option<Change>
        ensures change { result ≡ slice_get ((self.old).timed).changes 0 }
        ensures rest { self.new ≡ record self.old {
          timed = record (self.old).timed { changes = drop 1 ((self.old).timed).changes };
        } }
    {
        self.timed.withdraw()
    }

    // Does the next event, and looks at what it made. Refused, it leaves all as it was.
    fn do_event(&mut self, event: Event) -> Result<(), TimeFault>
        requires { next_event (self.old).timed ≡ Some event }
        ensures ok { OnOk result (IsNext (self.old).timed event
            × ((self.new).timed ≡ after_event (self.old).timed event)
            × RecordsEvent self.old event self.new) }
        ensures err { OnErr result (self.new ≡ self.old) }
        ensures cause { IfErr result (IsStoppedAt (self.old).timed) }
    {
        let now = event.moment;
        let told = look_ahead(&self.timed, &event.step, &mut self.marks);
        if let Err(fault) = do_next(
            &mut self.timed,
            &event,
            &mut self.computations,
            &self.computing,
            &mut self.outages,
            &self.cut_off,
        ) {
            return Err(fault);
        }
        look_for_computations(
            self.timed.simulation().world(),
            &event.step,
            told,
            now,
            &mut self.computing,
            &mut self.computations,
        );
        look_for_outages(
            self.timed.simulation().world(),
            &event.step,
            &self.marks,
            now,
            &mut self.cut,
            &mut self.cut_off,
            &mut self.outages,
        );
        Ok(())
    }

    // The next event, where its moment is no later than this one.
    fn event_until(&self, moment: u64) -> Option<Event>
        ensures some { IfSome result (λ e. (next_event (self.now).timed ≡ Some e) × (e.moment ≤ moment)) }
        ensures none { result ≡ None → IsDoneUntil moment (self.now).timed }
    {
        next_until(&self.timed, moment)
    }

    /// Does what is due up to a moment, that included, as `TimedSimulation::run_until` does, and records what
    /// each event begins and ends.
    pub fn run_until(&mut self, moment: u64, most: usize) -> TimedRan
        ensures run { IsReportRun self.old self.new result.done }
        ensures most { result.done ≤ most }
        ensures until { (result.done ≡ 0) ⊎ (((self.new).timed).clock ≤ moment) }
        ensures stop { MatchOption result.fault
            (IsDoneUntil moment (self.new).timed ⊎ (result.done ≡ most))
            (IsStoppedAt (self.new).timed) }
        ensures short { IfSome result.fault (λ _. IsStoppedShort moment most result.done (self.new).timed) }
    {
        for done in 0..most {
            let Some(event) = self.event_until(moment) else {
                return TimedRan { done, fault: None };
            };
            if let Err(fault) = self.do_event(event) {
                return TimedRan {
                    done,
                    fault: Some(fault),
                };
            }
        }
        TimedRan {
            done: most,
            fault: None,
        }
    }

    /// Does all that is left to do, as `TimedSimulation::run_to_rest` does, and records what each event begins
    /// and ends.
    pub fn run_to_rest(&mut self, most: usize) -> TimedRan
        ensures run { IsReportRun self.old self.new result.done }
        ensures most { result.done ≤ most }
        ensures stop { MatchOption result.fault
            (IsAtRest (self.new).timed ⊎ (result.done ≡ most))
            (IsStoppedAt (self.new).timed) }
        ensures fewer { IfSome result.fault (λ _. result.done < most) }
    {
        let ran = self.run_until(u64::MAX, most);
        rests(self.timed());
        ran
    }

    /// It does nothing. What holds of every report, for whoever has one: the record is exact of events which
    /// lead from the opening to the present world, and what holds of every timed simulation.
    pub fn holds(&self)
        ensures report { IsReport self.now }
        ensures timed { IsTimed (self.now).timed }
        ensures on_time { NothingIsLate (self.now).timed }
    {
        self.timed.holds();
    }
}
