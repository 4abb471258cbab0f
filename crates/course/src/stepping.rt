//! Steps in a row, and turns of routers, of whatever does them as a course does.

ghost use Rattle.std.specs.Prelude.{◌≡◌, ◌≤◌, ◌⊎◌, None, Some, true, take, length, IfSome, MatchOption};
ghost use Rattle.network_model.specs.Run.{Runs};
ghost use Rattle.network_model.specs.Turns as turns;
ghost use Rattle.world.specs.Steps.{StopsAt};
ghost use Rattle.course.specs.{Course.course_after_all, Course.course_refusal, Turns.HasTakenTurns, Turns.IsCourseStopped};

use crate::order::{Order, Turns};
use network_model::{Refusal, Step};
use world::Ran;

/// What does steps as a course does them.
pub trait Stepping {
    ghost use Rattle.std.specs.Prelude.{◌≡◌, None, Some, true, IfSome, OnOk, OnErr};
    ghost use Rattle.network_model.specs.Step as steps;
    ghost use Rattle.network_model.specs.Turns as turns;
    ghost use Rattle.world.specs.Steps.{IsDoneOr};
    ghost use Rattle.course.specs.Course.{Course, course_after, course_refusal};

    /// The course that it is at.
    ghost course: { Self → Course };

    /// Does one step.
    fn advance(&mut self, step: Step) -> Result<(), Refusal>
        ensures ok { OnOk result (steps.Lawful (course self.old).world step
            × (course self.new ≡ course_after (course self.old) step)) }
        ensures err { OnErr result (course self.new ≡ course self.old) }
        ensures cause { IsDoneOr (course_refusal (course self.old) step) result };

    /// The router that takes the next turn, looked for from this one on, and its step; none where nothing is
    /// left to do.
    fn turn_from(&mut self, from: u16) -> Option<(u16, Step)>
        ensures same { course self.new ≡ course self.old }
        ensures some { IfSome result (λ d. turns.next_step (course self.old).world d.0 ≡ Some d.1) }
        ensures none { result ≡ None → turns.is_settled (course self.old).world ≡ true };

    /// How many routers there are.
    fn router_count(&self) -> usize;
}

/// Does the steps in order, up to the first that is refused.
pub fn run<M: Stepping>(mover: &mut M, steps: &[Step]) -> Ran
    ensures done { result.done ≤ length steps.now }
    ensures runs { Runs (M.course mover.old).world (take result.done steps.now)
        (M.course mover.new).world }
    ensures after { M.course mover.new
        ≡ course_after_all (M.course mover.old) (take result.done steps.now) }
    ensures stop { MatchOption result.refusal (result.done ≡ length steps.now)
        (StopsAt (course_refusal (M.course mover.new)) steps.now result.done) }
{
    for (done, &step) in steps.iter().enumerate() {
        if let Err(refusal) = mover.advance(step) {
            return Ran {
                done,
                refusal: Some(refusal),
            };
        }
    }
    Ran {
        done: steps.len(),
        refusal: None,
    }
}

/// Lets routers take turns, at most so many, until nothing is left to do or a step is refused: with
/// `JournalFull` where 2^64 - 1 steps were done, or with `NoMemory`. A turn is the step that a router has to
/// do next.
pub fn settle<M: Stepping>(mover: &mut M, order: Order, most: usize) -> Ran
    ensures turns { HasTakenTurns (M.course mover.old) (M.course mover.new) result.done }
    ensures most { result.done ≤ most }
    ensures stop { MatchOption result.refusal
        ((turns.is_settled (M.course mover.new).world ≡ true) ⊎ (result.done ≡ most))
        (IsCourseStopped (M.course mover.new)) }
{
    let mut round = Turns::new(order, mover.router_count());
    for done in 0..most {
        let Some((router, step)) = mover.turn_from(round.from()) else {
            return Ran {
                done,
                refusal: None,
            };
        };
        if let Err(refusal) = mover.advance(step) {
            return Ran {
                done,
                refusal: Some(refusal),
            };
        }
        round.after(router);
    }
    Ran {
        done: most,
        refusal: None,
    }
}
