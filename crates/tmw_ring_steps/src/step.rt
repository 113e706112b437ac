ghost use Rattle.std.specs.Prelude.{◌≡◌, IfOk, OnErr};
ghost use Rattle.tmw_ring_defs.specs.RingMachine.{machine_step};
ghost use Rattle.tmw_ring_defs.specs.RingSound.{Sound};
ghost use Rattle.tmw_ring_steps.specs.RingState.{core_of, machine_of};

use crate::ring_state::RingState;
use std::alloc::AllocError;
use tmw_ring_defs::{Reply, Step};

impl RingState {
    /// Makes the step and returns its reply. After a failed allocation nothing has changed.
    pub fn step(&mut self, step: Step) -> Result<Reply, AllocError>
        requires { Sound (core_of self.old) }
        ensures ok { IfOk result (λ reply. (reply, machine_of self.new)
            ≡ machine_step step (machine_of self.old)) }
        ensures err { OnErr result (machine_of self.new ≡ machine_of self.old) }
    {
        if self.has_stopped(step) {
            return Ok(Reply::NotNow);
        }
        match step {
            Step::Front(writer, kind) => Ok(self.see_front(writer, kind)),
            Step::Tail(writer) => Ok(self.see_tail(writer)),
            Step::Claim(writer) => self.claim(writer),
            Step::Fill(writer) => Ok(self.fill(writer)),
            Step::Publish(writer) => Ok(self.publish(writer)),
            Step::Peek => Ok(self.peek()),
            Step::Read => Ok(self.read()),
            Step::Free => self.free(),
            Step::Stop(writer) => {
                self.stopped[usize::from(writer.get())] = true;
                Ok(Reply::Stopped)
            }
        }
    }
}
