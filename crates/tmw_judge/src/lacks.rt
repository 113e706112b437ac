ghost use Rattle.std.specs.Prelude.{◌≡◌};
ghost use Rattle.tmw_judge.specs.Lacks.{lacks_if, lacks_line};

use crate::meeting::{Meeting, meeting_of};
use crate::progress::{Progress, progress_of};
use tmw_counts::Summary;

/// Returns the line that names what a run did not test, if nothing is wrong with the run and there is anything; otherwise
/// an empty text.
pub const fn lacks_if(is_open: bool, summary: &Summary) -> &'static str
    ensures { result.now ≡ lacks_if is_open summary.now }
{
    if is_open {
        lacks_line(meeting_of(summary), progress_of(&summary.counts))
    } else {
        ""
    }
}

/// Returns the line of what the run did not test, in compact JSON, if there is anything.
const fn lacks_line(meeting: Meeting, progress: Progress) -> &'static str
    ensures { result.now ≡ lacks_line meeting progress }
{
    match (meeting, progress) {
        (Meeting::Alone, Progress::Nothing) => "{\"untested\":[\"threads\",\"commits\"]}\n",
        (Meeting::Alone, Progress::Little) => "{\"untested\":[\"threads\",\"progress\"]}\n",
        (Meeting::Alone, Progress::Enough) => "{\"untested\":[\"threads\"]}\n",
        (Meeting::Apart, Progress::Nothing) => "{\"untested\":[\"overlap\",\"commits\"]}\n",
        (Meeting::Apart, Progress::Little) => "{\"untested\":[\"overlap\",\"progress\"]}\n",
        (Meeting::Apart, Progress::Enough) => "{\"untested\":[\"overlap\"]}\n",
        (Meeting::Together, Progress::Nothing) => "{\"untested\":[\"commits\"]}\n",
        (Meeting::Together, Progress::Little) => "{\"untested\":[\"progress\"]}\n",
        (Meeting::Together, Progress::Enough) => "",
    }
}
