//! What was shown of a router, and of its machines.

ghost use Rattle.std.specs.Prelude.{◌≡◌, ◌++◌, ◌∷◌, [], ◌⊎◌, ℕ, All, IfOk, OnOk, Some, false, true, length, slice_get};
ghost use Rattle.ipv4_prefix.specs.Prefix.{Prefix};
ghost use Rattle.network_model.specs.World as model;
ghost use Rattle.run_states.specs.{declared.shown.MachineShown.MachineShown, Shown.ShowsMachine};
ghost use Rattle.run_states.specs.Books.{HasPlaces, IsBlankRouter, MachinesMarked, RouterFollows, ShowsMachines, ShowsRouter, ShowsUnmarked, matches_prefix, machines_after};

use crate::shown::{MachineShown, machine_shown, router_news};
use ipv4_prefix::Prefix;
use lines::RouterState;
use network_model::NoMemory;
use router_core::Router;
use std::alloc::Global;

/// What was shown of a router last, and whether that may have changed.
#[derive(Drop)]
pub(crate) struct RouterBook {
    /// The router itself, where it was shown.
    shown: Option<RouterState>,
    /// Its machines, by the numbers of the prefixes, where they were shown.
    machines: Vec<Option<MachineShown>>,
    /// Whether a step may have changed each of them.
    marks: Vec<bool>,
    /// Whether a step may have changed it, or one of its machines.
    pub is_marked: bool,
}

/// What became of a router since it was shown.
#[derive(Drop)]
pub(crate) struct RouterChange {
    /// The router itself, where it is another.
    pub shown: Option<RouterState>,
    /// The machines that are others, each with the number of its prefix.
    pub machines: Vec<(usize, MachineShown)>,
}

impl RouterBook {
    /// The book of a router that was not shown, with machines for so many prefixes.
    pub(crate) fn new(alloc: Global, prefixes: usize) -> Result<RouterBook, NoMemory>
        ensures places { IfOk result (HasPlaces prefixes) }
        ensures marked { IfOk result (λ b. b.is_marked ≡ true) }
        ensures marks { IfOk result (λ b. All (λ m. m ≡ true) b.marks.items) }
        ensures blank { IfOk result IsBlankRouter }
    {
        let mut machines = Vec::new(alloc);
        machines.resize(prefixes, None)?;
        let mut marks = Vec::new(alloc);
        marks.resize(prefixes, true)?;
        Ok(RouterBook {
            shown: None,
            machines,
            marks,
            is_marked: true,
        })
    }

    /// A step may have changed the machine for this prefix, or where none is given each of them.
    pub(crate) fn mark_machines(&mut self, prefixes: &[Prefix], which: Option<Prefix>)
        ensures { MachinesMarked (λ p. matches_prefix which p ≡ false) prefixes.now self.old self.new }
    {
        self.is_marked = true;
        set_marks(prefixes, &which, &mut self.marks);
    }

    /// What became of the router since it was shown; from now on it is shown as it is. It has yet to take so
    /// many notices of its attachments.
    pub(crate) fn change(
        &mut self,
        alloc: Global,
        prefixes: &[Prefix],
        router: &Router,
        notices: usize,
    ) -> Result<RouterChange, NoMemory>
        requires places { HasPlaces (length prefixes.now) self.old }
        requires current { ShowsUnmarked router.now prefixes.now self.old.marks.items self.old.machines.items }
        ensures follows { IfOk result (λ c. RouterFollows c self.old self.new) }
        ensures shows { IfOk result (λ _. ShowsRouter prefixes.now router.now notices self.new) }
        ensures places { HasPlaces (length prefixes.now) self.new }
        ensures unmarked { IfOk result (λ _. self.new.is_marked ≡ false) }
    {
        let machines = machine_changes(
            alloc,
            prefixes,
            router,
            &mut self.marks,
            &mut self.machines,
        )?;
        let now = RouterState::of(router, notices);
        let shown = router_news(self.shown, now);
        self.shown = Some(now);
        self.is_marked = false;
        Ok(RouterChange { shown, machines })
    }
}

// Sets the marks of the places whose prefixes are meant, where there are such places.
fn set_marks(prefixes: &[Prefix], which: &Option<Prefix>, marks: &mut [bool])
    ensures len { length marks.new ≡ length marks.old }
    ensures unmarked { (j : ℕ) (p : Prefix) → slice_get prefixes.now j ≡ Some p
        → slice_get marks.new j ≡ Some false
        → (slice_get marks.old j ≡ Some false) × (matches_prefix which.now p ≡ false) }
{
    let places = prefixes.len().min(marks.len());
    for number in 0..places {
        if covers(which, prefixes[number]) {
            marks[number] = true;
        }
    }
}

// Whether a prefix is the one that is given, or none is.
fn covers(which: &Option<Prefix>, prefix: Prefix) -> bool
    ensures { result ≡ matches_prefix which.now prefix }
{
    match *which {
        Some(only) => prefix == only,
        None => true,
    }
}

// The marked machines of a router that are others than those shown; from now on they are shown as they are,
// and not marked.
fn machine_changes(
    alloc: Global,
    prefixes: &[Prefix],
    router: &Router,
    marks: &mut [bool],
    shown: &mut [Option<MachineShown>],
) -> Result<Vec<(usize, MachineShown)>, NoMemory>
    requires marks { length marks.old ≡ length prefixes.now }
    requires machines { length shown.old ≡ length prefixes.now }
    requires current { ShowsUnmarked router.now prefixes.now marks.old shown.old }
    ensures follows { IfOk result (λ cs. shown.new ≡ machines_after cs.items shown.old) }
    ensures shows { IfOk result (λ _. ShowsMachines router.now prefixes.now shown.new) }
    ensures marks { length marks.new ≡ length marks.old }
    ensures len { length shown.new ≡ length shown.old }
{
    let mut changes = Vec::new(alloc);
    for (number, &prefix) in prefixes.iter().enumerate() {
        if marks[number] {
            if let Some(now) = machine_shown(router, prefix) {
                note(number, now, &mut shown[number], &mut changes)?;
            }
            marks[number] = false;
        }
    }
    Ok(changes)
}

// Shows a machine as it is, and adds it to the changes where it is another than was shown.
fn note(
    number: usize,
    now: MachineShown,
    shown: &mut Option<MachineShown>,
    changes: &mut Vec<(usize, MachineShown)>,
) -> Result<(), NoMemory>
    ensures shows { OnOk result ((r : model.Router) (p : Prefix) → ShowsMachine r p now
        → (s : MachineShown) × (shown.new ≡ Some s) × ShowsMachine r p s) }
    ensures adds { OnOk result (((changes.new.items ≡ changes.old.items ++ (number, now) ∷ [])
        × (shown.new ≡ Some now)) ⊎ ((changes.new.items ≡ changes.old.items) × (shown.new ≡ shown.old))) }
{
    if let Some(before) = shown
        && before.is_same(&now)
    {
        return Ok(());
    }
    changes.push((number, now))?;
    *shown = Some(now);
    Ok(())
}
