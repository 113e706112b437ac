//! A box as its pointer and its allocator.
ghost use Rattle.std.specs.Prelude.{◌≡◌};
ghost use Rattle.std.specs.Box.Ownership.{box_owns};

use std::alloc::Allocator;
use std::marker::Model;

/// What a box consists of. It owns what the box did.
pub struct Parts<T, A: Allocator> {
    pub(crate) at: *mut T,
    pub(crate) alloc: A,
    pub ghost held: { T },
}

impl<T, A: Allocator> Model for Parts<T, A> {
    ghost also_owns = { λ parts. box_owns (A.dealloc_token parts.alloc) T.row parts.at parts.held };
}

impl<T, A: Allocator> Parts<T, A> {
    /// Takes a box apart.
    pub fn of_box(whole: Box<T, A>) -> Parts<T, A>
    where
        T: Drop,
        ensures { result.held ≡ whole.value }
    {
        let (at, alloc) = Box::into_raw_with_allocator(whole);
        Parts { at, alloc }
    }

    /// Makes a box of these parts again.
    pub fn into_box(self) -> Box<T, A>
        ensures { result.value ≡ self.held }
    {
        let Parts { at, alloc } = self;
        unsafe { Box::from_raw(alloc, at) }
    }
}

/// Returns a pointer to nothing.
pub(crate) fn nowhere() -> *mut u8 {
    std::ptr::null_mut()
}
