//! A fabric that is settled by one thread, in an order of its caller's.

ghost use Rattle.std.specs.Prelude.{◌≡◌, IsTrue, IfErr, OnOk};
ghost use Rattle.network_model.specs.Turns as turns;
ghost use Rattle.network_model.specs.Forwarding.{is_quiet};
ghost use Rattle.fabric.specs.Headline.{HasBestRows};
ghost use Rattle.guarded.specs.Served.{IsServed, IsFabricStopped, none_asked};

use crate::progress::Progress;
use crate::settling::report_steps;
use course::{Order, Turns};
use fabric::Fabric;
use network_model::Refusal;
use publication::FabricName;
use std::sync::Wait;

/// Lets routers take turns in an order, until nothing is left to do or a step is refused: with `JournalFull`
/// or `NoMemory`. One thread takes all turns. Where it is done all is quiet, and rows lead along least-cost
/// walks. Where a writer is out, it does not come back. How far it is, `progress` is told.
pub fn settle_in_order<B, P, R>(
    rt: &R,
    fabric: &mut Fabric<B>,
    order: Order,
    progress: &mut P,
) -> Result<(), Refusal>
where
    B: FabricName,
    P: Progress,
    R: Wait,
    ensures turns { IsServed fabric.old none_asked fabric.new }
    ensures settled { OnOk result (IsTrue (turns.is_settled (fabric.new).world)) }
    ensures quiet { OnOk result (IsTrue (is_quiet (fabric.new).world)) }
    ensures least_cost { OnOk result (HasBestRows fabric.new) }
    ensures err { IfErr result (IsFabricStopped fabric.new) }
    ensures lent { (fabric.new).lent ≡ (fabric.old).lent }
{
    let mut turns = Turns::new(order, fabric.network().routers());
    for _ in rt.forever() {
        if fabric.is_settled() {
            return Ok(());
        }
        if let Some((router, step)) = fabric.turn_from(turns.from()) {
            // It tells that the step fits its number.
            let _number = step.number();
            match fabric.step(rt, step) {
                Ok(()) => turns.after(router),
                Err(refusal) => return Err(refusal),
            }
            report_steps(fabric, progress);
        }
    }
    unreachable!()
}
