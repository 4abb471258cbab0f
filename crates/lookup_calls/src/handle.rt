//! What C holds of an image. No other module sees its pointer.

ghost use Rattle.std.specs.Prelude.{◌≡◌, MatchOption, None, Some};
ghost use Rattle.row_words.specs.Rows.{WordTable};

use crate::shared::Shared;
use std::alloc::Global;
use std::marker::Model;
use std::mem::replace;
use std::ptr::null_mut;

/// An image that C holds, or none.
#[repr(C)]
pub struct ImageHandle {
    // To a `Shared`, where there is one: no type of C's can name that.
    image: *mut u8,
    holds: bool,
    alloc: Global,
    ghost value: { WordTable },
}

impl Model for ImageHandle {
    ghost use Rattle.c_interface.specs.Handles.{held_owns};
    ghost use Rattle.lookup_calls.specs.contracts.shared.Shared.{the_row as image_row};

    ghost also_owns = { λ h. held_owns image_row h.alloc h.holds h.image h.value };
}

impl ImageHandle {
    ghost use Rattle.lookup_calls.specs.Handles.{handle_image};

    /// A handle that holds no image.
    pub fn none(alloc: Global) -> ImageHandle
        ensures { handle_image result ≡ None }
    {
        ImageHandle {
            image: null_mut(),
            holds: false,
            alloc,
        }
    }

    // A handle that holds this image.
    fn of(image: Box<Shared>) -> ImageHandle
        ensures { handle_image result ≡ Some image.value }
    {
        let (ptr, alloc) = Box::into_raw_with_allocator(image);
        ImageHandle {
            image: ptr as *mut u8,
            holds: true,
            alloc,
        }
    }

    // The image that the handle holds, if any.
    fn into_box(self) -> Option<Box<Shared>>
        ensures { MatchOption result (handle_image self ≡ None)
            (λ b. handle_image self ≡ Some b.value) }
    {
        let ImageHandle {
            image,
            holds,
            alloc,
        } = self;
        if holds {
            Some(unsafe { Box::from_raw(alloc, image as *mut Shared) })
        } else {
            None
        }
    }

    /// Takes the image out of the handle, which then holds none.
    pub fn take(&mut self, alloc: Global) -> Option<Box<Shared>>
        ensures taken { MatchOption result (handle_image self.old ≡ None)
            (λ b. handle_image self.old ≡ Some b.value) }
        ensures empty { handle_image self.new ≡ None }
    {
        replace(self, ImageHandle::none(alloc)).into_box()
    }

    /// Puts an image into the handle. The one that it held is freed.
    pub fn put(&mut self, image: Box<Shared>)
        ensures { handle_image self.new ≡ Some image.value }
    {
        *self = ImageHandle::of(image);
    }
}

impl Drop for ImageHandle {
    fn drop(self) {
        drop(self.into_box());
    }
}

unsafe impl Send for ImageHandle {}
