ghost use Rattle.tmw_judge.specs.Shared.{End, HasFailed, IsOver, append-nil, append_assoc, reading_failures};
ghost use Rattle.std.specs.Prelude.{◌≡◌, ◌++◌, IfErr, IfOk};
ghost use Rattle.tmw_judge.specs.FeedEvents.{AreFedAllRead, FeedsEvents, judges_taking};

use crate::ending::Ending;
use crate::judges::Judges;
use crate::tally::Tally;
use tmw_events::Event;
use tmw_lines::{Reached, Stop, Taker, TextFault, give_items};
use tmw_streams::Source;
use tmw_trace::TraceLines;

/// Judges take events by being fed them, and may stop at the one at which all verdicts are final.
impl<C: Tally, F: Ending> Taker<Event> for Judges<C, F> {
    ghost taking = { judges_taking F.first C.counts };

    #[inline(always)]
    fn take(&mut self, event: Event) -> Result<(), Stop> {
        self.feed(event);
        if F::is_at(&self.monitors) {
            return Err(Stop);
        }
        Ok(())
    }

    ghost takes_none = { λ judges. (
      λ header bounds asked history fed. Prim.rw (append-nil history) fed,
      λ is has. has,
    ) };

    ghost takes_more = { λ a b c xs ys taken more. (
      λ header bounds asked history fed. Prim.rw (← append_assoc history xs ys)
          (more.0 header bounds asked (history ++ xs) (taken.0 header bounds asked history fed)),
      λ is has. more.1 is (taken.1 is has),
    ) };
}

/// Reads the remaining events, up to the source's end, the first fault, or the event at which all verdicts are final if `F`
/// says so, and feeds each to the judges as its line is read. After an end or a fault the reader returns it again. It takes
/// no memory, so `Memory` is not among its faults.
pub fn feed_events<S: Source, C: Tally, F: Ending>(
    lines: &mut TraceLines,
    source: &mut S,
    judges: &mut Judges<C, F>,
) -> Result<Reached, TextFault>
    requires { AreFedAllRead C.counts lines.old judges.old }
    ensures feeds { FeedsEvents F.first S.from C.counts (S.from.ended source.new) source.old
        source.new lines.old lines.new judges.old judges.new result }
    ensures failures { S.from.failures source.new ≡ reading_failures result
        (S.from.failures source.old) }
    ensures over { IfOk result (λ reached. reached ≡ End → IsOver lines.new) }
    ensures stays { IfErr result (HasFailed lines.new) }
{
    if F::is_at(&judges.monitors) {
        return Ok(Reached::Stop);
    }
    give_items(lines, source, judges)
}
