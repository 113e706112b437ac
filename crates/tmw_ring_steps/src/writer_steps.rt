ghost use Rattle.std.specs.Prelude.{◌≡◌, IfOk, OnErr};
ghost use Rattle.tmw_ring_defs.specs.RingMachine.{answered};
ghost use Rattle.tmw_ring_defs.specs.RingSound.{Sound, IsIn};
ghost use Rattle.tmw_ring_defs.specs.RingSteps.{core_step, tail_step};
ghost use Rattle.tmw_ring_steps.specs.RingState.{core_of, machine_of};

use crate::ring_state::RingState;
use std::alloc::AllocError;
use tmw_events::{Event, Ix, Kind, pack};
use tmw_ring_defs::{Reply, RingCell, Step, WriterPhase};

impl RingState {
    /// Loads front for the writer, which has an event of this kind to record.
    pub fn see_front(&mut self, writer: Ix, kind: Kind) -> Reply
        ensures { (result, machine_of self.new)
            ≡ answered (machine_of self.old)
            (core_step (Step.Front writer kind) (core_of self.old)) }
    {
        match self.phase_of(writer) {
            Some(WriterPhase::Idle) => {
                let front = self.front;
                self.set_phase(writer, WriterPhase::Looked { kind, front });
                Reply::Saw(front)
            }
            _ => Reply::NotNow,
        }
    }

    /// Loads tail for the writer, which sees whether there is room.
    pub fn see_tail(&mut self, writer: Ix) -> Reply
        requires { Sound (core_of self.old) }
        ensures { (result, machine_of self.new)
            ≡ answered (machine_of self.old) (core_step (Step.Tail writer) (core_of self.old)) }
    {
        let Some(phase) = self.phase_of(writer) else {
            return Reply::NotNow;
        };
        match phase {
            WriterPhase::Looked { kind, front } => self.look_for_room(writer, kind, front),
            _ => Reply::NotNow,
        }
    }

    /// Clears the writer if every writer has room with tail as it is now.
    fn look_for_room(&mut self, writer: Ix, kind: Kind, front: u64) -> Reply
        requires sound { Sound (core_of self.old) }
        requires looked { IsIn (core_of self.old) writer.number (WriterPhase.Looked kind front) }
        ensures { (result, machine_of self.new)
            ≡ answered (machine_of self.old)
            (tail_step writer.number (core_of self.old) (WriterPhase.Looked kind front)) }
    {
        let tail = self.tail;
        if self.size.is_spent(tail) {
            self.set_phase(writer, WriterPhase::Idle);
            return Reply::Spent { tail };
        }
        if self.size.is_full(front, tail) {
            self.set_phase(writer, WriterPhase::Idle);
            return Reply::Full { front, tail };
        }
        self.set_phase(writer, WriterPhase::Cleared { kind });
        Reply::Cleared
    }

    /// Adds 1 to tail for the writer, whose event joins the log. After a failed allocation nothing has changed.
    pub fn claim(&mut self, writer: Ix) -> Result<Reply, AllocError>
        requires { Sound (core_of self.old) }
        ensures ok { IfOk result (λ reply. (reply, machine_of self.new)
            ≡ answered (machine_of self.old) (core_step (Step.Claim writer) (core_of self.old))) }
        ensures err { OnErr result (machine_of self.new ≡ machine_of self.old) }
    {
        let Some(phase) = self.phase_of(writer) else {
            return Ok(Reply::NotNow);
        };
        match phase {
            WriterPhase::Cleared { kind } => {
                let place = self.tail;
                self.log.push(Event {
                    thread: writer,
                    kind,
                })?;
                self.tail = place + 1;
                self.set_phase(
                    writer,
                    WriterPhase::Claimed {
                        place,
                        kind,
                        filled: false,
                    },
                );
                Ok(Reply::Place(place))
            }
            _ => Ok(Reply::NotNow),
        }
    }

    /// Stores the value of the writer's event in its place's cell.
    pub fn fill(&mut self, writer: Ix) -> Reply
        requires { Sound (core_of self.old) }
        ensures { (result, machine_of self.new)
            ≡ answered (machine_of self.old) (core_step (Step.Fill writer) (core_of self.old)) }
    {
        let Some(phase) = self.phase_of(writer) else {
            return Reply::NotNow;
        };
        match phase {
            WriterPhase::Claimed {
                place,
                kind,
                filled,
            } => {
                if filled {
                    return Reply::NotNow;
                }
                let (_, value) = pack(Event {
                    thread: writer,
                    kind,
                });
                let cell = self.cell_at(place);
                self.set_cell(place, RingCell { value, ..cell });
                self.set_phase(
                    writer,
                    WriterPhase::Claimed {
                        place,
                        kind,
                        filled: true,
                    },
                );
                Reply::Filled
            }
            _ => Reply::NotNow,
        }
    }

    /// Stores the stamp of the writer's place, with its event's header, in the place's cell.
    pub fn publish(&mut self, writer: Ix) -> Reply
        requires { Sound (core_of self.old) }
        ensures { (result, machine_of self.new)
            ≡ answered (machine_of self.old) (core_step (Step.Publish writer) (core_of self.old)) }
    {
        let Some(phase) = self.phase_of(writer) else {
            return Reply::NotNow;
        };
        match phase {
            WriterPhase::Claimed {
                place,
                kind,
                filled,
            } => {
                if !filled {
                    return Reply::NotNow;
                }
                let (header, _) = pack(Event {
                    thread: writer,
                    kind,
                });
                let cell = self.cell_at(place);
                self.set_cell(
                    place,
                    RingCell {
                        stamp: place + 1,
                        header,
                        ..cell
                    },
                );
                self.set_phase(writer, WriterPhase::Idle);
                Reply::Published(place)
            }
            _ => Reply::NotNow,
        }
    }
}
