ghost use Rattle.std.specs.Prelude.{◌≡◌, ℕ, List, IfOk, IfErr, OnOk};
ghost use Rattle.tmw_lines.specs.Grammar.{lines_text, AreLines};
ghost use Rattle.tmw_lines.specs.TextFault.{HasTextFault, reading_failures};
ghost use Rattle.tmw_streams.specs.Transfers.{Tells};

use crate::items::read_items;
use crate::line_format::LineFormat;
use crate::lines::Lines;
use crate::text_fault::TextFault;
use std::alloc::Global;
use tmw_streams::Source;

/// Reads a whole text, up to the source's end, and returns its header and its items. Lines are judged in order, each
/// before any further read, and the first fault is returned. A whole bad line that came before a failed read is
/// reported, not `Io`. `Memory` follows a failed allocation, with at most 4,096 bytes read after whole lines; only
/// tests show that an allocation failed.
pub fn read_lines<F: LineFormat, S: Source>(
    alloc: Global,
    source: &mut S,
) -> Result<(F::Header, Vec<F::Item>), TextFault>
    // The bytes told, up to the end, are exactly the text of the header and the items.
    ensures text { IfOk result (λ read.
        Tells S.from source.old (lines_text F.grammar read.0 read.1.items) source.new) }
    ensures ended { OnOk result (S.from.ended source.new) }
    ensures lines { IfOk result (λ read. AreLines F.grammar read.0 read.1.items) }
    // The bytes told have the fault.
    ensures fault { IfErr result (λ fault. (bytes : List ℕ)
        × Tells S.from source.old bytes source.new
        × HasTextFault F.grammar (S.from.ended source.new) bytes fault) }
    ensures failures { S.from.failures source.new ≡ reading_failures result
        (S.from.failures source.old) }
{
    let mut lines = Lines::<F>::new();
    let header = match lines.header(source) {
        Ok(header) => header,
        Err(fault) => return Err(fault),
    };
    let mut items = Vec::new(alloc);
    match read_items(&mut lines, source, &mut items) {
        Ok(()) => Ok((header, items)),
        Err(fault) => Err(fault),
    }
}
