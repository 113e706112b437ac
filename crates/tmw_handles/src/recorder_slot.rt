ghost use Rattle.std.specs.Prelude.{◌≡◌, Option, None, Some, IsSome};
ghost use Rattle.tmw_handles.specs.Slots.{recorder_coded, recorder_owned};
ghost use Rattle.tmw_handles.specs.declared.held_recorder.HeldRecorder.{HeldRecorder};

use crate::box_parts::{Parts, nowhere};
use crate::held_recorder::HeldRecorder;
use std::alloc::Global;
use std::marker::Model;

/// A pointer as C keeps it, and what is held there, if anything.
#[repr(C)]
#[derive(Drop)]
pub struct RecorderSlot {
    at: *mut u8,
    alloc: Global,
    pub ghost held: { Option HeldRecorder } by { recorder_coded },
}

impl Model for RecorderSlot {
    ghost also_owns = { λ slot. recorder_owned slot.alloc slot.at slot.held };
}

impl RecorderSlot {
    ghost use Rattle.std.specs.Borrow.{sem};
    ghost use Rattle.tmw_handles.specs.SlotLoan.{lends_held};

    /// Makes a slot of a pointer at which nothing is held.
    fn empty_at(at: *mut u8, alloc: Global) -> RecorderSlot
        ensures { result.held ≡ None }
    {
        RecorderSlot { at, alloc }
    }

    /// Makes a slot that holds what the parts own.
    pub(crate) fn of_parts(parts: Parts<HeldRecorder, Global>) -> RecorderSlot
        ensures { result.held ≡ Some parts.held }
    {
        let Parts { at, alloc } = parts;
        let at = at as *mut u8;
        RecorderSlot { at, alloc }
    }

    /// Gives up what is held.
    pub(crate) fn into_parts(self) -> Parts<HeldRecorder, Global>
        requires { IsSome self.held }
        ensures { self.held ≡ Some result.held }
    {
        let RecorderSlot { at, alloc } = self;
        let at = at as *mut HeldRecorder;
        Parts { at, alloc }
    }

    /// Lends what is held, to be used in place.
    pub fn held_mut(&mut self) -> &mut HeldRecorder
        requires { IsSome self.old.held }
        ensures* writes_back { sem 𝓛 (lends_held self.entry result) }
        ensures value { self.old.held ≡ Some result.now }
    {
        unsafe { &mut *(self.at as *mut HeldRecorder) }
    }

    /// Makes a slot that holds nothing.
    pub(crate) fn empty(alloc: Global) -> RecorderSlot
        ensures { result.held ≡ None }
    {
        RecorderSlot::empty_at(nowhere(), alloc)
    }
}

unsafe impl Send for RecorderSlot {}
