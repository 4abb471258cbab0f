//! What C holds of a network. No other module sees its pointer.

ghost use Rattle.std.specs.Prelude.{◌≡◌, IfErr, IfSome, MatchOption, None, OnErr, OnOk, Some, option_map};
ghost use Rattle.network_calls.specs.Calls.{step_fault, HeldNeedsMemory};
ghost use Rattle.network_calls.specs.{Failures.failure_number, Failures.IsStatusOnlyByFailure, Headline.HasHeadline, Running.with_step_done, Steps.step_of};
ghost use Rattle.network_calls.specs.declared.running.Going.{Going};

use crate::failure::Failure;
use crate::running::Running;
use crate::step::StepParts;
use c_interface::CallFault;
use std::alloc::Global;
use std::marker::Model;
use std::mem::replace;
use std::ptr::null_mut;

/// A network that C holds, or none.
#[repr(C)]
pub struct NetworkHandle {
    // To a `Running`, where there is one: no type of C's can name that.
    network: *mut u8,
    holds: bool,
    alloc: Global,
    ghost value: { Going },
}

impl Model for NetworkHandle {
    ghost use Rattle.c_interface.specs.Handles.{held_owns};
    ghost use Rattle.network_calls.specs.contracts.running.Running.{the_row as running_row};

    ghost also_owns = { λ h. held_owns running_row h.alloc h.holds h.network h.value };
}

impl NetworkHandle {
    ghost use Rattle.network_calls.specs.Handles.{handle_going, handle_network};

    /// A handle that holds no network.
    pub fn none(alloc: Global) -> NetworkHandle
        ensures { handle_going result ≡ None }
    {
        NetworkHandle {
            network: null_mut(),
            holds: false,
            alloc,
        }
    }

    // A handle that holds this network.
    fn of(network: Box<Running>) -> NetworkHandle
        ensures { handle_going result ≡ Some network.value }
    {
        let (ptr, alloc) = Box::into_raw_with_allocator(network);
        NetworkHandle {
            network: ptr as *mut u8,
            holds: true,
            alloc,
        }
    }

    // The network that the handle holds, if any.
    fn into_box(self) -> Option<Box<Running>>
        ensures { MatchOption result (handle_going self ≡ None)
            (λ b. handle_going self ≡ Some b.value) }
    {
        let NetworkHandle {
            network,
            holds,
            alloc,
        } = self;
        if holds {
            Some(unsafe { Box::from_raw(alloc, network as *mut Running) })
        } else {
            None
        }
    }

    /// Takes the network out of the handle, which then holds none.
    pub fn take(&mut self, alloc: Global) -> Option<Box<Running>>
        ensures taken { MatchOption result (handle_going self.old ≡ None)
            (λ b. handle_going self.old ≡ Some b.value) }
        ensures empty { handle_going self.new ≡ None }
    {
        replace(self, NetworkHandle::none(alloc)).into_box()
    }

    /// Does a step of the network that the handle holds.
    pub fn step(&mut self, alloc: Global, parts: StepParts) -> Result<(), Failure>
        ensures ok { OnOk result (IsStatusOnlyByFailure (step_fault parts (handle_going self.old))
            (HeldNeedsMemory (step_of parts) (handle_going self.old)) 0) }
        ensures stepped { OnOk result (handle_going self.new
            ≡ option_map (with_step_done (step_of parts)) (handle_going self.old)) }
        ensures headline { OnOk result (IfSome (handle_network self.new) HasHeadline) }
        ensures unchanged { OnErr result (handle_going self.new ≡ handle_going self.old) }
        ensures err { IfErr result (λ f. IsStatusOnlyByFailure (step_fault parts (handle_going self.old))
            (HeldNeedsMemory (step_of parts) (handle_going self.old)) (failure_number f)) }
    {
        if let Err(fault) = parts.read() {
            return Err(Failure::Given(fault));
        }
        let Some(mut held) = self.take(alloc) else {
            return Err(Failure::Given(CallFault::Empty));
        };
        let outcome = held.read_and_step(parts);
        held.holds();
        self.put(held);
        outcome
    }

    /// Puts a network into the handle. The one that it held is freed.
    pub fn put(&mut self, network: Box<Running>)
        ensures { handle_going self.new ≡ Some network.value }
    {
        *self = NetworkHandle::of(network);
    }
}

impl Drop for NetworkHandle {
    fn drop(self) {
        drop(self.into_box());
    }
}

unsafe impl Send for NetworkHandle {}
