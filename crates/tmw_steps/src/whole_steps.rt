ghost use Rattle.std.specs.Prelude.{◌≡◌, ℕ, List, IfOk, IfErr, OnOk};
ghost use Rattle.tmw_lines.specs.TextFault.{HasTextFault, reading_failures};
ghost use Rattle.tmw_steps.specs.Text.{steps_grammar, steps_text, AreSteps};
ghost use Rattle.tmw_streams.specs.Transfers.{Tells};

use crate::step_list::StepList;
use crate::steps_format::StepsFormat;
use std::alloc::Global;
use tmw_lines::{TextFault, read_lines};
use tmw_streams::Source;

/// Reads a whole list of steps, up to the source's end. Lines are judged in order, each before any further read, and
/// the first fault is returned. A whole bad line that came before a failed read is reported, not `Io`. `Memory`
/// follows a failed allocation, with at most 4,096 bytes read after whole lines; only tests show that an allocation
/// failed.
pub fn read_steps<S: Source>(alloc: Global, source: &mut S) -> Result<StepList, TextFault>
    // The bytes told, up to the end, are exactly the list's text.
    ensures text { IfOk result
        (λ list. Tells S.from source.old (steps_text list.size list.steps.items) source.new) }
    ensures ended { OnOk result (S.from.ended source.new) }
    ensures steps { IfOk result (λ list. AreSteps list.size list.steps.items) }
    // The bytes told have the fault.
    ensures fault { IfErr result (λ fault. (bytes : List ℕ)
        × Tells S.from source.old bytes source.new
        × HasTextFault steps_grammar (S.from.ended source.new) bytes fault) }
    ensures failures { S.from.failures source.new ≡ reading_failures result
        (S.from.failures source.old) }
{
    match read_lines::<StepsFormat, S>(alloc, source) {
        Ok((size, steps)) => Ok(StepList { size, steps }),
        Err(fault) => Err(fault),
    }
}
