//! Why workers did not answer.

ghost use Rattle.std.specs.Prelude.{◌≡◌};

use faults::FaultKind;
use forwarder::{FabricName, ForwardPort, GatherFault};
use network_model::{NoMemory, Refusal};
use std::fmt;
use thiserror::Error;

/// Why jobs are not answered. Its text is its number and name.
#[derive(Clone, Copy, Debug, PartialEq, Eq, Drop, Error)]
#[error("{}", FaultKind::from(*self))]
pub enum PoolFault {
    /// No thread could be made for a worker.
    NoThread,
    /// A growth was refused.
    Memory(NoMemory),
    /// The packet queue handed a job back.
    Closed,
    /// A worker was refused.
    Refused(Refusal),
    /// The replies are not those to the jobs.
    Gather(GatherFault),
}

impl From<PoolFault> for FaultKind {
    ghost use Rattle.worker_pool.specs.Faults.{pool_kind};

    ghost from_gives = { λ fault k. k ≡ pool_kind fault };

    fn from(fault: PoolFault) -> FaultKind {
        match fault {
            PoolFault::NoThread => FaultKind::NoThread,
            PoolFault::Memory(fault) => FaultKind::from(fault),
            PoolFault::Closed => FaultKind::Closed,
            PoolFault::Refused(fault) => FaultKind::from(fault),
            PoolFault::Gather(fault) => FaultKind::from(fault),
        }
    }
}

impl From<NoMemory> for PoolFault {
    ghost use Rattle.worker_pool.specs.declared.fault.PoolFault.TheVariants.{Memory as OfMemory};

    ghost from_gives = { λ memory e. e ≡ OfMemory memory };

    fn from(memory: NoMemory) -> PoolFault {
        PoolFault::Memory(memory)
    }
}

/// Workers that did not begin: why, and their ports, which may begin later.
#[derive(Drop)]
pub struct NotBegun<B: FabricName> {
    pub fault: PoolFault,
    pub ports: Vec<ForwardPort<B>>,
}

impl<B: FabricName> fmt::Debug for NotBegun<B> {
    fn fmt<W: fmt::Write>(&self, f: &mut fmt::Formatter<W>) -> fmt::Result {
        let fault = self.fault;
        write!(f, "{fault}")
    }
}
