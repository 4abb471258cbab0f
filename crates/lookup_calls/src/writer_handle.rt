//! What C holds of a writer. No other module sees its pointer.

ghost use Rattle.std.specs.Prelude.{◌≡◌, MatchOption, None, Some};
ghost use Rattle.lookup_calls.specs.Histories.{Published};

use crate::writer::ImageWriter;
use std::alloc::Global;
use std::marker::Model;
use std::mem::replace;
use std::ptr::null_mut;

/// A writer that C holds, or none.
#[repr(C)]
pub struct WriterHandle {
    // To an `ImageWriter`, where there is one: no type of C's can name that.
    writer: *mut u8,
    holds: bool,
    alloc: Global,
    ghost value: { Published },
}

impl Model for WriterHandle {
    ghost use Rattle.c_interface.specs.Handles.{held_owns};
    ghost use Rattle.lookup_calls.specs.contracts.writer.ImageWriter.{the_row as writer_row};

    ghost also_owns = { λ h. held_owns writer_row h.alloc h.holds h.writer h.value };
}

impl WriterHandle {
    ghost use Rattle.lookup_calls.specs.Handles.{handle_writer};

    /// A handle that holds no writer.
    pub fn none(alloc: Global) -> WriterHandle
        ensures { handle_writer result ≡ None }
    {
        WriterHandle {
            writer: null_mut(),
            holds: false,
            alloc,
        }
    }

    // A handle that holds this writer.
    fn of(writer: Box<ImageWriter>) -> WriterHandle
        ensures { handle_writer result ≡ Some writer.value }
    {
        let (ptr, alloc) = Box::into_raw_with_allocator(writer);
        WriterHandle {
            writer: ptr as *mut u8,
            holds: true,
            alloc,
        }
    }

    // The writer that the handle holds, if any.
    fn into_box(self) -> Option<Box<ImageWriter>>
        ensures { MatchOption result (handle_writer self ≡ None)
            (λ b. handle_writer self ≡ Some b.value) }
    {
        let WriterHandle {
            writer,
            holds,
            alloc,
        } = self;
        if holds {
            Some(unsafe { Box::from_raw(alloc, writer as *mut ImageWriter) })
        } else {
            None
        }
    }

    /// Takes the writer out of the handle, which then holds none.
    pub fn take(&mut self, alloc: Global) -> Option<Box<ImageWriter>>
        ensures taken { MatchOption result (handle_writer self.old ≡ None)
            (λ b. handle_writer self.old ≡ Some b.value) }
        ensures empty { handle_writer self.new ≡ None }
    {
        replace(self, WriterHandle::none(alloc)).into_box()
    }

    /// Puts a writer into the handle. The one that it held is freed.
    pub fn put(&mut self, writer: Box<ImageWriter>)
        ensures { handle_writer self.new ≡ Some writer.value }
    {
        *self = WriterHandle::of(writer);
    }
}

impl Drop for WriterHandle {
    fn drop(self) {
        drop(self.into_box());
    }
}

unsafe impl Send for WriterHandle {}
