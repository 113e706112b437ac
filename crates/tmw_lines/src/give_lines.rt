ghost use Rattle.std.specs.Prelude.{◌≤◌, ◌^◌};
ghost use Rattle.tmw_lines.specs.GiveLines.{IsRun};

use crate::give_result::GiveResult;
use crate::line_format::LineFormat;
use crate::next_line::MOST_ITEMS;
use crate::taker::Taker;

/// Lines that a taker was given the items of.
#[derive(Clone, Copy)]
pub struct LineRun {
    /// How many bytes they are.
    pub length: usize,
    /// How many items' lines were read, with those before them.
    pub count: u64,
    /// The taker stopped at the item of the last.
    pub stopped: bool,
}

/// Gives the taker the items of the lines that these bytes begin with, as far as the format reads them in one pass; none, if so many bytes
/// might pass the greatest number of lines. So many items' lines came before them. Most lines are read here: it is inlined into its
/// caller, and what it counts stays in registers.
#[inline(always)]
pub fn give_lines<F: LineFormat, T: Taker<F::Item>>(
    format: F,
    bytes: &[u8],
    read: u64,
    taker: &mut T,
) -> LineRun
    requires few { read ≤ 2 ^ 40 }
    requires counted { T.taking.counts taker.old read }
    ensures { IsRun F.grammar T.taking format bytes.now read taker.old taker.new result }
{
    let mut rest = bytes;
    let mut count = read;
    // Each line has a byte, so that after this no turn compares the count with the greatest number.
    if MOST_ITEMS - read <= bytes.len() as u64 {
        return LineRun {
            length: 0,
            count,
            stopped: false,
        };
    }
    loop {
        match format.give_first(rest, taker) {
            GiveResult::Nothing => {
                return LineRun {
                    length: bytes.len() - rest.len(),
                    count,
                    stopped: false,
                };
            }
            GiveResult::Taken(more) => {
                rest = &rest[more..];
                count += 1;
            }
            GiveResult::Stopped(more) => {
                return LineRun {
                    length: bytes.len() - rest.len() + more,
                    count: count + 1,
                    stopped: true,
                };
            }
        }
    }
}
