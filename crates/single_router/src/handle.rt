//! What C holds of a router. No other module sees its pointer.

ghost use Rattle.std.specs.Prelude.{◌≡◌, IfErr, IfOk, IfSome, MatchOption, None, OnErr, OnOk, Some, length, option_map};
ghost use Rattle.c_interface.specs.Faults.{IsStatusBy, fault_number, status_by};
ghost use Rattle.single_router.specs.Bounded.{BoundedRouter, bounded_make_fault, bounded_router, with_router};
ghost use Rattle.single_router.specs.Calls.{held_fault, tell_fault, told, IsPublished, IsStatusOnlyBy, ReadNeedsMemory};
ghost use Rattle.single_router.specs.{Publishing.publish_fault, Publishing.router_given, States.flag};

use crate::input::Input;
use crate::opening::Attachment;
use crate::single::{Published, SingleRouter};
use c_interface::{CallFault, Row};
use std::alloc::Global;
use std::marker::Model;
use std::mem::replace;
use std::ptr::null_mut;

/// A router that C holds, or none.
#[repr(C)]
pub struct RouterHandle {
    // To a `SingleRouter`, where there is one: no type of C's can name that.
    router: *mut u8,
    holds: bool,
    alloc: Global,
    ghost value: { BoundedRouter },
}

impl Model for RouterHandle {
    ghost use Rattle.c_interface.specs.Handles.{held_owns};
    ghost use Rattle.single_router.specs.contracts.single.SingleRouter.{the_row as router_row};

    ghost also_owns = { λ h. held_owns router_row h.alloc h.holds h.router h.value };
}

impl RouterHandle {
    ghost use Rattle.single_router.specs.Handles.{handle_router};

    /// A handle that holds no router.
    pub fn none(alloc: Global) -> RouterHandle
        ensures { handle_router result ≡ None }
    {
        RouterHandle {
            router: null_mut(),
            holds: false,
            alloc,
        }
    }

    // A handle that holds this router.
    fn of(router: Box<SingleRouter>) -> RouterHandle
        ensures { handle_router result ≡ Some router.value }
    {
        let (ptr, alloc) = Box::into_raw_with_allocator(router);
        RouterHandle {
            router: ptr as *mut u8,
            holds: true,
            alloc,
        }
    }

    // The router that the handle holds, if any.
    fn into_box(self) -> Option<Box<SingleRouter>>
        ensures { MatchOption result (handle_router self ≡ None)
            (λ b. handle_router self ≡ Some b.value) }
    {
        let RouterHandle {
            router,
            holds,
            alloc,
        } = self;
        if holds {
            Some(unsafe { Box::from_raw(alloc, router as *mut SingleRouter) })
        } else {
            None
        }
    }

    /// Takes the router out of the handle, which then holds none.
    pub fn take(&mut self, alloc: Global) -> Option<Box<SingleRouter>>
        ensures taken { MatchOption result (handle_router self.old ≡ None)
            (λ b. handle_router self.old ≡ Some b.value) }
        ensures empty { handle_router self.new ≡ None }
    {
        replace(self, RouterHandle::none(alloc)).into_box()
    }

    /// Makes a router and puts it into the handle. The one that it held is freed.
    pub fn make(
        &mut self,
        alloc: Global,
        costs: &[u32],
        attachments: &[Attachment],
        most_prefixes: usize,
    ) -> Result<(), CallFault>
        ensures ok { OnOk result (IsStatusBy (bounded_make_fault most_prefixes costs.now attachments.now) 0) }
        ensures made { OnOk result (handle_router self.new
            ≡ Some (bounded_router most_prefixes costs.now attachments.now)) }
        ensures unchanged { OnErr result (handle_router self.new ≡ handle_router self.old) }
        ensures err { IfErr result (λ f.
            IsStatusBy (bounded_make_fault most_prefixes costs.now attachments.now) (fault_number f)) }
    {
        let made = SingleRouter::new(alloc, costs, attachments, most_prefixes)?;
        self.put(Box::new(alloc, made)?);
        Ok(())
    }

    /// Tells the router of the handle what was read.
    pub fn tell(&mut self, alloc: Global, read: Result<Input, CallFault>) -> Result<(), CallFault>
        ensures ok { OnOk result (IsStatusOnlyBy (tell_fault read (handle_router self.old))
            (ReadNeedsMemory read (handle_router self.old)) 0) }
        ensures told { OnOk result (handle_router self.new
            ≡ told read (handle_router self.old)) }
        ensures unchanged { OnErr result (handle_router self.new ≡ handle_router self.old) }
        ensures err { IfErr result (λ f. IsStatusOnlyBy (tell_fault read (handle_router self.old))
            (ReadNeedsMemory read (handle_router self.old)) (fault_number f)) }
    {
        let input = read?;
        let Some(mut held) = self.take(alloc) else {
            return Err(CallFault::Empty);
        };
        let outcome = held.tell(&input);
        self.put(held);
        outcome
    }

    /// Publishes the router of the handle: what it gave, and how often it has published.
    pub fn publish(
        &mut self,
        alloc: Global,
        rows: &mut [Row],
    ) -> Result<(Published, u64), CallFault>
        ensures ok { IfOk result (λ _. status_by (held_fault
            (λ b. publish_fault (length rows.old) b.router) (handle_router self.old)) ≡ 0) }
        ensures rows { IfOk result (λ p. IfSome (handle_router self.old) (λ b. IsPublished
            b.router rows.old rows.new (p.0).count (flag (p.0).more) p.1)) }
        ensures published { OnOk result (handle_router self.new ≡ option_map
            (with_router (router_given (length rows.old))) (handle_router self.old)) }
        ensures unchanged { OnErr result ((handle_router self.new ≡ handle_router self.old)
            × (rows.new ≡ rows.old)) }
        ensures err { IfErr result (λ f. status_by (held_fault
            (λ b. publish_fault (length rows.old) b.router) (handle_router self.old))
            ≡ fault_number f) }
    {
        let Some(mut held) = self.take(alloc) else {
            return Err(CallFault::Empty);
        };
        let outcome = held.publish(rows);
        let generation = held.generation();
        self.put(held);
        Ok((outcome?, generation))
    }

    /// Puts a router into the handle. The one that it held is freed.
    pub fn put(&mut self, router: Box<SingleRouter>)
        ensures { handle_router self.new ≡ Some router.value }
    {
        *self = RouterHandle::of(router);
    }
}

impl Drop for RouterHandle {
    fn drop(self) {
        drop(self.into_box());
    }
}

unsafe impl Send for RouterHandle {}
