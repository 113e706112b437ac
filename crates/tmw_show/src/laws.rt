ghost use Rattle.tmw_show.specs.TracesLaw.{TracesLaw};
ghost use Rattle.tmw_show.specs.WhyLaw.{WhyLaw};

use tmw_window::{law_states, law_window};

/// Proves that `show --trace` writes traces, which `judge` reads: one for each state from which the window begins,
/// with just that state at its start and the events that are shown. If these are the whole window, the run is violated
/// exactly if each trace is, at its end; a single one has the run's verdict. If they are a part, each trace is
/// well-formed, and not final-state opaque or not final-state strict.
pub fn law_traces()
    ensures { TracesLaw }
{
    law_window();
    law_states();
}

/// Proves that `show --why` shows of a violated run, whose last window has at most 1,000 events, a part that is violated
/// by itself, from which no transaction and no call with its answer can be taken out, alone or with the reads of its
/// values.
pub fn law_why()
    ensures { WhyLaw }
{
    law_window();
}
