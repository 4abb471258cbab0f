//! How much a network has done, as C has it.

ghost use Rattle.std.specs.Prelude.{◌≡◌};
ghost use Rattle.network_calls.specs.Calls.{counts_of};

use simulation::Simulation;

/// How many steps were done since the opening, and how many updates, queries and replies they put on links.
#[repr(C)]
#[derive(Clone, Copy)]
pub struct Counts {
    pub steps: u64,
    pub updates: u64,
    pub queries: u64,
    pub replies: u64,
}

impl Counts {
    /// Those of a network.
    pub fn of(simulation: &Simulation) -> Counts
        ensures { result ≡ counts_of simulation.now }
    {
        let sent = simulation.sent();
        Counts {
            steps: simulation.steps(),
            updates: sent.updates,
            queries: sent.queries,
            replies: sent.replies,
        }
    }
}
