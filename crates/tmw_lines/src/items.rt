ghost use Rattle.std.specs.Prelude.{◌≡◌, ◌≢◌, ◌≤◌, length, vec_capacity, IfErr, IfOk, OnOk};
ghost use Rattle.tmw_lines.specs.GiveItems.{GivesAll};
ghost use Rattle.tmw_lines.specs.ReadItems.{HasBegunToRead, ReadsItems};
ghost use Rattle.tmw_lines.specs.Lines.{IsOver, HasFailed, items_given};
ghost use Rattle.tmw_lines.specs.TextFault.{reading_failures};
ghost use Rattle.tmw_lines.specs.declared.items.Reached.TheVariants.{End};
ghost use Rattle.tmw_lines.specs.declared.text_fault.TextFault.TheVariants.{Memory};

use crate::line_format::LineFormat;
use crate::lines::Lines;
use crate::taker::Taker;
use crate::text_fault::TextFault;
use tmw_streams::Source;

/// How far lines were read.
#[derive(Clone, Copy, PartialEq, Eq, Debug)]
pub enum Reached {
    /// Up to the source's end.
    End,
    /// Up to the line at whose item the taker stopped.
    Stop,
}

/// Reads the remaining lines, up to the source's end or the first fault, and gives the taker each item as its line is
/// read. The reader then returns that end or fault again. If the taker stops at an item, its line is the last one read, and
/// at most 4,096 bytes were read after it. `Memory` is not among the faults.
pub fn give_items<F: LineFormat, S: Source, T: Taker<F::Item>>(
    lines: &mut Lines<F>,
    source: &mut S,
    taker: &mut T,
) -> Result<Reached, TextFault>
    requires begun { HasBegunToRead F.grammar lines.old }
    requires counted { T.taking.counts taker.old (items_given lines.old) }
    ensures gives { GivesAll F.grammar S.from (S.from.ended source.new) T.taking source.old
        source.new lines.old lines.new taker.old taker.new result }
    ensures failures { S.from.failures source.new ≡ reading_failures result
        (S.from.failures source.old) }
    ensures over { IfOk result (λ reached. reached ≡ End → IsOver lines.new) }
    ensures stays { IfErr result (HasFailed lines.new) }
{
    'lines: loop {
        let Ok(()) = lines.give_held(taker) else {
            return Ok(Reached::Stop);
        };
        match lines.next(source) {
            Ok(Some(item)) => {
                let Ok(()) = taker.take(item) else {
                    return Ok(Reached::Stop);
                };
            }
            Ok(None) => return Ok(Reached::End),
            Err(fault) => return Err(fault),
        }
    }
}

/// Reads the remaining lines, up to the source's end or the first fault, and appends their items to `items`. The
/// reader then returns that end or fault again. `Memory` follows a failed allocation: the item of the line read last
/// is not held, and at most 4,096 bytes were read after that line. It comes only if the items fill the room that there
/// was at first; only tests show that an allocation failed.
pub fn read_items<F: LineFormat, S: Source>(
    lines: &mut Lines<F>,
    source: &mut S,
    items: &mut Vec<F::Item>,
) -> Result<(), TextFault>
    requires { HasBegunToRead F.grammar lines.old }
    ensures reads { ReadsItems F.grammar S.from (S.from.ended source.new) source.old source.new
        lines.old lines.new
        items.old.items items.new.items result }
    ensures full { IfErr result
        (λ fault. fault ≡ Memory → vec_capacity items.old ≤ length items.new.items) }
    ensures failures { S.from.failures source.new ≡ reading_failures result
        (S.from.failures source.old) }
    ensures over { OnOk result (IsOver lines.new) }
    ensures stays { IfErr result (λ fault. fault ≢ Memory → HasFailed lines.new fault) }
{
    match give_items(lines, source, items) {
        Ok(Reached::End) => Ok(()),
        Ok(Reached::Stop) => Err(TextFault::Memory),
        Err(fault) => Err(fault),
    }
}
