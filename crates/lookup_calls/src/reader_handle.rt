//! What C holds of a reader. No other module sees its pointer.

ghost use Rattle.std.specs.Prelude.{◌≡◌, MatchOption, None, Some};
ghost use Rattle.lookup_calls.specs.Histories.{Published};

use crate::reader::ImageReader;
use std::alloc::Global;
use std::marker::Model;
use std::mem::replace;
use std::ptr::null_mut;

/// A reader that C holds, or none.
#[repr(C)]
pub struct ReaderHandle {
    // To an `ImageReader`, where there is one: no type of C's can name that.
    reader: *mut u8,
    holds: bool,
    alloc: Global,
    ghost value: { Published },
}

impl Model for ReaderHandle {
    ghost use Rattle.c_interface.specs.Handles.{held_owns};
    ghost use Rattle.lookup_calls.specs.contracts.reader.ImageReader.{the_row as reader_row};

    ghost also_owns = { λ h. held_owns reader_row h.alloc h.holds h.reader h.value };
}

impl ReaderHandle {
    ghost use Rattle.lookup_calls.specs.Handles.{handle_reader};

    /// A handle that holds no reader.
    pub fn none(alloc: Global) -> ReaderHandle
        ensures { handle_reader result ≡ None }
    {
        ReaderHandle {
            reader: null_mut(),
            holds: false,
            alloc,
        }
    }

    // A handle that holds this reader.
    fn of(reader: Box<ImageReader>) -> ReaderHandle
        ensures { handle_reader result ≡ Some reader.value }
    {
        let (ptr, alloc) = Box::into_raw_with_allocator(reader);
        ReaderHandle {
            reader: ptr as *mut u8,
            holds: true,
            alloc,
        }
    }

    // The reader that the handle holds, if any.
    fn into_box(self) -> Option<Box<ImageReader>>
        ensures { MatchOption result (handle_reader self ≡ None)
            (λ b. handle_reader self ≡ Some b.value) }
    {
        let ReaderHandle {
            reader,
            holds,
            alloc,
        } = self;
        if holds {
            Some(unsafe { Box::from_raw(alloc, reader as *mut ImageReader) })
        } else {
            None
        }
    }

    /// Takes the reader out of the handle, which then holds none.
    pub fn take(&mut self, alloc: Global) -> Option<Box<ImageReader>>
        ensures taken { MatchOption result (handle_reader self.old ≡ None)
            (λ b. handle_reader self.old ≡ Some b.value) }
        ensures empty { handle_reader self.new ≡ None }
    {
        replace(self, ReaderHandle::none(alloc)).into_box()
    }

    /// Puts a reader into the handle. The one that it held is freed.
    pub fn put(&mut self, reader: Box<ImageReader>)
        ensures { handle_reader self.new ≡ Some reader.value }
    {
        *self = ReaderHandle::of(reader);
    }
}

impl Drop for ReaderHandle {
    fn drop(self) {
        drop(self.into_box());
    }
}

unsafe impl Send for ReaderHandle {}
