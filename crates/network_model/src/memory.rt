//! Memory, and want of it.

ghost use Rattle.std.specs.Prelude.{◌≡◌};
ghost use Rattle.std.proofs.Common.{rules};
ghost use Rattle.network_model.specs.Memory.{IsSmall};

use faults::FaultKind;
use std::alloc::{AllocError, AllocFailed, Allocator, Global};
use thiserror::Error;

/// A growth was refused. The call that answers it has changed nothing.
#[derive(Clone, Copy, Debug, PartialEq, Eq, Drop, Error)]
#[error("{}", FaultKind::from(*self))]
pub struct NoMemory;

impl From<NoMemory> for FaultKind {
    ghost use Rattle.faults.specs.declared.kind.FaultKind.TheVariants.{NoMemory as MemoryKind};

    ghost from_gives = { λ _ k. k ≡ MemoryKind };

    fn from(_fault: NoMemory) -> FaultKind {
        FaultKind::NoMemory
    }
}

impl From<AllocError> for NoMemory {
    fn from(_error: AllocError) -> NoMemory {
        NoMemory
    }
}

impl<T: Drop> From<AllocFailed<T>> for NoMemory {
    fn from(_error: AllocFailed<T>) -> NoMemory {
        NoMemory
    }
}

/// An allocator that is copied and takes no room, as `Global`, or that of a reference, as a heap that is
/// lent. So a type that holds it is known to fit in memory.
pub trait SmallAllocator: Allocator + Copy {
    ghost small: { IsSmall Self.row };
}

impl SmallAllocator for Global {
    ghost small = { Prim.search rules };
}

impl<'a, A: Allocator> SmallAllocator for &'a A {
    ghost small = { Prim.search rules };
}
