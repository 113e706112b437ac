ghost use Rattle.std.specs.Prelude.{◌≡◌, ◌↔◌, Option, None, Some, IsSome, IsTrue, IfSome, IfNone};

use crate::box_parts::Parts;
use crate::held_watch::HeldWatch;
use crate::watch_slot::WatchSlot;
use std::alloc::Global;
use std::mem;

/// What a C program keeps of a watch. All bytes 0, it holds nothing.
#[repr(C)]
#[derive(Drop)]
pub struct WatchHandle {
    pub(crate) slot: WatchSlot,
    pub(crate) full: bool,
    pub ghost matches: { IsTrue full ↔ IsSome slot.held },
}

impl WatchHandle {
    ghost use Rattle.tmw_handles.specs.HandleContent.{watch_in};

    /// Makes a handle that holds nothing.
    pub fn empty(alloc: Global) -> WatchHandle
        ensures { watch_in result ≡ None }
    {
        WatchHandle {
            slot: WatchSlot::empty(alloc),
            full: false,
        }
    }

    /// Makes a handle that holds what the box does. It takes no memory.
    pub fn of(held: Box<HeldWatch, Global>) -> WatchHandle
        ensures { watch_in result ≡ Some held.value }
    {
        WatchHandle {
            slot: WatchSlot::of_parts(Parts::of_box(held)),
            full: true,
        }
    }

    /// Takes what is held, if anything, and leaves the handle empty.
    pub fn take(&mut self, alloc: Global) -> Option<Box<HeldWatch, Global>>
        ensures some { IfSome result (λ held. watch_in self.old ≡ Some held.value) }
        ensures none { IfNone result (watch_in self.old ≡ None) }
        ensures empty { watch_in self.new ≡ None }
    {
        if !self.full {
            return None;
        }
        let held = mem::replace(self, WatchHandle::empty(alloc));
        Some(held.slot.into_parts().into_box())
    }

    /// Tells whether the handle holds anything.
    pub fn is_full(&self) -> bool
        ensures { IsTrue result ↔ IsSome (watch_in self.now) }
    {
        self.full
    }
}
