ghost use Rattle.std.specs.Prelude.{◌≡◌, Option, None, Some, IsSome};
ghost use Rattle.tmw_handles.specs.Slots.{watch_coded, watch_owned};
ghost use Rattle.tmw_handles.specs.declared.held_watch.HeldWatch.{HeldWatch};

use crate::box_parts::{Parts, nowhere};
use crate::held_watch::HeldWatch;
use std::alloc::Global;
use std::marker::Model;

/// A pointer as C keeps it, and what is held there, if anything.
#[repr(C)]
#[derive(Drop)]
pub struct WatchSlot {
    at: *mut u8,
    alloc: Global,
    pub ghost held: { Option HeldWatch } by { watch_coded },
}

impl Model for WatchSlot {
    ghost also_owns = { λ slot. watch_owned slot.alloc slot.at slot.held };
}

impl WatchSlot {
    /// Makes a slot of a pointer at which nothing is held.
    fn empty_at(at: *mut u8, alloc: Global) -> WatchSlot
        ensures { result.held ≡ None }
    {
        WatchSlot { at, alloc }
    }

    /// Makes a slot that holds what the parts own.
    pub(crate) fn of_parts(parts: Parts<HeldWatch, Global>) -> WatchSlot
        ensures { result.held ≡ Some parts.held }
    {
        let Parts { at, alloc } = parts;
        let at = at as *mut u8;
        WatchSlot { at, alloc }
    }

    /// Gives up what is held.
    pub(crate) fn into_parts(self) -> Parts<HeldWatch, Global>
        requires { IsSome self.held }
        ensures { self.held ≡ Some result.held }
    {
        let WatchSlot { at, alloc } = self;
        let at = at as *mut HeldWatch;
        Parts { at, alloc }
    }

    /// Makes a slot that holds nothing.
    pub(crate) fn empty(alloc: Global) -> WatchSlot
        ensures { result.held ≡ None }
    {
        WatchSlot::empty_at(nowhere(), alloc)
    }
}
