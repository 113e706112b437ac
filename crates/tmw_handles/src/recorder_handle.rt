ghost use Rattle.std.specs.Prelude.{◌≡◌, ◌↔◌, Option, None, Some, IsSome, IsTrue, IfSome, IfNone};
ghost use Rattle.std.specs.Option.{ForSome};
ghost use Rattle.tmw_watch.specs.WatchParts.{writer_of};

use crate::box_parts::Parts;
use crate::held_recorder::HeldRecorder;
use crate::recorder_slot::RecorderSlot;
use std::alloc::Global;
use std::mem;

/// What a C program keeps of a recorder. All bytes 0, it holds nothing.
#[repr(C)]
#[derive(Drop)]
pub struct RecorderHandle {
    /// What is held, which is used in place.
    pub slot: RecorderSlot,
    pub(crate) full: bool,
    // The held recorder's number: a close sees by it whether each is in its place, before it takes anything.
    pub(crate) number: u8,
    pub ghost matches: { IsTrue full ↔ IsSome slot.held },
    pub ghost numbered: { ForSome slot.held
        (λ held. (writer_of held.recorder).number.number ≡ number) },
}

impl RecorderHandle {
    ghost use Rattle.tmw_handles.specs.HandleContent.{HasNumber, recorder_in};

    /// Makes a handle that holds nothing.
    pub fn empty(alloc: Global) -> RecorderHandle
        ensures { recorder_in result ≡ None }
    {
        RecorderHandle {
            slot: RecorderSlot::empty(alloc),
            full: false,
            number: 0,
        }
    }

    /// Makes a handle that holds what the box does. It takes no memory.
    pub fn of(held: Box<HeldRecorder, Global>) -> RecorderHandle
        ensures { recorder_in result ≡ Some held.value }
    {
        let number = held.recorder.number().get();
        RecorderHandle {
            slot: RecorderSlot::of_parts(Parts::of_box(held)),
            full: true,
            number,
        }
    }

    /// Takes what is held, if anything, and leaves the handle empty.
    pub fn take(&mut self, alloc: Global) -> Option<Box<HeldRecorder, Global>>
        ensures some { IfSome result (λ held. recorder_in self.old ≡ Some held.value) }
        ensures none { IfNone result (recorder_in self.old ≡ None) }
        ensures empty { recorder_in self.new ≡ None }
    {
        if !self.full {
            return None;
        }
        let held = mem::replace(self, RecorderHandle::empty(alloc));
        Some(held.slot.into_parts().into_box())
    }

    /// Returns what is held.
    pub fn into_held(self) -> Box<HeldRecorder, Global>
        requires { IsSome (recorder_in self) }
        ensures { recorder_in self ≡ Some result.value }
    {
        self.slot.into_parts().into_box()
    }

    /// Returns the number of the held recorder, if any.
    pub fn number(&self) -> Option<u8>
        ensures some { IfSome result (λ number. HasNumber number (recorder_in self.now)) }
        ensures none { IfNone result (recorder_in self.now ≡ None) }
    {
        if self.full { Some(self.number) } else { None }
    }

    /// Tells whether the handle holds anything.
    pub fn is_full(&self) -> bool
        ensures { IsTrue result ↔ IsSome (recorder_in self.now) }
    {
        self.full
    }
}
