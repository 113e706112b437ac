ghost use Rattle.tmw_report.specs.Shared.{Puts};
ghost use Rattle.std.specs.Prelude.{◌≡◌};
ghost use Rattle.tmw_report.specs.Remark.{Remarks, nothing_shown_if, remark_text, undecided_text};

use crate::fault_line::put_numbered;
use tmw_defs::Why;
use tmw_streams::{IoFault, Sink, put_all};

const NOTHING_SHOWN: &[u8] =
    b"warning: no two transactions overlapped, so this run tests nothing\n";

const MANY_TRANSACTIONS: &[u8] =
    b"undecided: more transactions than --window allows without a quiescent point. Put a barrier after every transaction or two (docs/RECORDING.md)\n";

const MANY_STATES: &[u8] =
    b"undecided: more possible states at a quiescent point than --states allows. Read each register before you write it (docs/RECORDING.md)\n";

const BROKEN: &[u8] =
    b" is impossible in any run, so the recorder may be wrong (docs/RECORDING.md); don't trust the verdict\n";

/// A message about a run, which the sink for errors gets beside the report.
#[derive(Clone, Copy, PartialEq, Eq, Debug)]
pub enum Remark {
    /// No two transactions overlapped.
    NothingShown,
    /// The run exceeded this bound, so the workload has to change.
    Undecided(Why),
    /// The event of this number, after the events that a verdict covers, fits no run.
    Broken(u64),
}

/// Returns the warning that a run shows nothing, if `shows_nothing`.
pub fn nothing_shown_if(shows_nothing: bool) -> Option<Remark>
    ensures { result ≡ nothing_shown_if shows_nothing }
{
    if shows_nothing {
        Some(Remark::NothingShown)
    } else {
        None
    }
}

/// Writes the remark, if there is one, to the sink for errors, as far as the sink takes it. Does not allocate.
pub fn send_remark<E: Sink>(errors: &mut E, remark: Option<Remark>)
    ensures { Remarks E.to remark errors.old errors.new }
{
    if let Some(remark) = remark {
        let _sent = put_remark(errors, remark);
    }
}

/// Writes the remark's line.
fn put_remark<K: Sink>(sink: &mut K, remark: Remark) -> Result<(), IoFault>
    ensures { Puts K.to sink.old (remark_text remark) sink.new result }
{
    match remark {
        Remark::NothingShown => put_all(sink, NOTHING_SHOWN),
        Remark::Undecided(why) => put_all(sink, undecided_text(why)),
        Remark::Broken(at) => put_numbered(sink, b"warning: event ", at, BROKEN),
    }
}

/// Returns the message for a run that exceeded this bound.
const fn undecided_text(why: Why) -> &'static [u8]
    ensures { result.now ≡ undecided_text why }
{
    match why {
        Why::Transactions => MANY_TRANSACTIONS,
        Why::States => MANY_STATES,
    }
}
