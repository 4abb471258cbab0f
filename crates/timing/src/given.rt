//! Values that are given for some of many.

ghost use Rattle.std.specs.Prelude.{◌≡◌, IfOk, length, replicate};
ghost use Rattle.network_model.specs.Machine.{changed_at};
ghost use Rattle.timing.specs.Given.{with_given};

use network_model::NoMemory;
use std::alloc::Global;

/// A value for the link or the router of this number.
#[derive(Clone, Copy)]
pub struct Given<T> {
    pub number: usize,
    pub value: T,
}

/// So many values: those that are given, the last of a number where it is given twice, and this one for the others.
pub fn values<T: Copy + Drop>(
    alloc: Global,
    count: usize,
    other: T,
    given: &[Given<T>],
) -> Result<Vec<T>, NoMemory>
    ensures values { IfOk result (λ v. v.items ≡ with_given given.now (replicate count other)) }
    ensures count { IfOk result (λ v. length v.items ≡ count) }
{
    let mut values = Vec::with_capacity(alloc, count)?;
    for made in 0..count {
        values.push(other)?;
    }
    set_given(&mut values, given);
    Ok(values)
}

fn set_given<T: Copy + Drop>(values: &mut Vec<T>, given: &[Given<T>])
    ensures values { values.new.items ≡ with_given given.now values.old.items }
    ensures count { length values.new.items ≡ length values.old.items }
{
    for one in given {
        set_one(values, one);
    }
}

fn set_one<T: Copy + Drop>(values: &mut Vec<T>, one: &Given<T>)
    ensures { values.new.items ≡ changed_at (one.now).number (λ _. (one.now).value) values.old.items }
{
    if one.number >= values.len() {
        return;
    }
    values[one.number] = one.value;
}
