ghost use Rattle.tmw_trace.specs.Shared.{Tells};
ghost use Rattle.std.specs.Prelude.{IfErr, IfOk, List, OnOk, ℕ, ◌≡◌};
ghost use Rattle.tmw_lines.specs.TextFault.{HasTextFault, reading_failures};
ghost use Rattle.tmw_trace.specs.Text.{trace_grammar, trace_text, AreEvents};

use crate::trace::Trace;
use crate::version::Version;
use std::alloc::Global;
use tmw_lines::{TextFault, read_lines};
use tmw_streams::Source;

/// Reads a whole trace, up to the source's end. Lines are judged in order, each before any further read, and the
/// first fault is returned. A whole bad line that came before a failed read is reported, not `Io`. `Memory` follows a
/// failed allocation, with at most 4,096 bytes read after whole lines; only tests show that an allocation failed.
pub fn read_trace<S: Source>(alloc: Global, source: &mut S) -> Result<Trace, TextFault>
    // The bytes told, up to the end, are exactly the trace's text.
    ensures text { IfOk result (λ trace.
        Tells S.from source.old (trace_text trace.header trace.events.items) source.new) }
    ensures ended { OnOk result (S.from.ended source.new) }
    ensures events { IfOk result (λ trace. AreEvents trace.header trace.events.items) }
    // The bytes told have the fault.
    ensures fault { IfErr result (λ fault. (bytes : List ℕ)
        × Tells S.from source.old bytes source.new
        × HasTextFault trace_grammar (S.from.ended source.new) bytes fault) }
    ensures failures { S.from.failures source.new ≡ reading_failures result
        (S.from.failures source.old) }
{
    match read_lines::<Version, S>(alloc, source) {
        Ok((header, events)) => Ok(Trace { header, events }),
        Err(fault) => Err(fault),
    }
}
