//! Marks of routers.

ghost use Rattle.std.specs.Prelude.{ℕ, ◌≡◌, true, false, slice_set};
ghost use Rattle.reachability.specs.Marks.{is_in};

/// Whether the router is marked.
pub fn is_in(marks: &[bool], router: u16) -> bool
    ensures { result ≡ is_in marks.now router }
{
    match marks.get(usize::from(router)) {
        Some(mark) => *mark,
        None => false,
    }
}

/// Marks the router, if there is a mark for it.
pub fn mark(marks: &mut [bool], router: u16)
    ensures { marks.new ≡ slice_set marks.old router true }
{
    let place = usize::from(router);
    if place < marks.len() {
        marks[place] = true;
    }
}

/// Takes all marks away.
pub fn clear(marks: &mut [bool])
    ensures { (i : ℕ) → is_in marks.new i ≡ false }
{
    for place in 0..marks.len() {
        marks[place] = false;
    }
}
