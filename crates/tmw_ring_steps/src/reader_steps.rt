ghost use Rattle.std.specs.Prelude.{◌≡◌, IfOk, OnErr};
ghost use Rattle.tmw_ring_defs.specs.RingMachine.{answered};
ghost use Rattle.tmw_ring_defs.specs.RingSound.{Sound};
ghost use Rattle.tmw_ring_defs.specs.RingSteps.{core_step};
ghost use Rattle.tmw_ring_steps.specs.RingState.{core_of, machine_of};

use crate::ring_state::RingState;
use std::alloc::AllocError;
use tmw_events::unpack;
use tmw_ring_defs::{ReaderPhase, Reply, Step};

impl RingState {
    /// Loads the next place's stamp and header for the reader.
    pub fn peek(&mut self) -> Reply
        requires { Sound (core_of self.old) }
        ensures { (result, machine_of self.new)
            ≡ answered (machine_of self.old) (core_step Step.Peek (core_of self.old)) }
    {
        match self.reader {
            ReaderPhase::Waiting => {
                let cell = self.cell_at(self.front);
                if cell.stamp == self.front + 1 {
                    self.reader = ReaderPhase::Ready {
                        header: cell.header,
                    };
                    return Reply::Ready;
                }
                Reply::NotReady
            }
            _ => Reply::NotNow,
        }
    }

    /// Loads the next place's value for the reader.
    pub fn read(&mut self) -> Reply
        requires { Sound (core_of self.old) }
        ensures { (result, machine_of self.new)
            ≡ answered (machine_of self.old) (core_step Step.Read (core_of self.old)) }
    {
        match self.reader {
            ReaderPhase::Ready { header } => {
                let value = self.cell_at(self.front).value;
                self.reader = ReaderPhase::Told { header, value };
                Reply::Word(value)
            }
            _ => Reply::NotNow,
        }
    }

    /// Stores the next front for the reader, which has then taken the event. After a failed allocation nothing has
    /// changed.
    pub fn free(&mut self) -> Result<Reply, AllocError>
        requires { Sound (core_of self.old) }
        ensures ok { IfOk result (λ reply. (reply, machine_of self.new)
            ≡ answered (machine_of self.old) (core_step Step.Free (core_of self.old))) }
        ensures err { OnErr result (machine_of self.new ≡ machine_of self.old) }
    {
        match self.reader {
            ReaderPhase::Told { header, value } => {
                let Some(event) = unpack(header, value) else {
                    return Ok(Reply::NotNow);
                };
                self.taken.push(event)?;
                self.front += 1;
                self.reader = ReaderPhase::Waiting;
                Ok(Reply::Taken(event))
            }
            _ => Ok(Reply::NotNow),
        }
    }
}
