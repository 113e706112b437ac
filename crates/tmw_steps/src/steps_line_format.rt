ghost use Rattle.tmw_steps.specs.GrammarInjectivity.{steps_naming};
ghost use Rattle.tmw_steps.specs.Lengths.{long_no_size, long_no_step};
ghost use Rattle.tmw_steps.specs.Text.{steps_grammar};

use crate::size_line::{SizeLine, size_of};
use crate::step_line::step_of;
use crate::steps_format::StepsFormat;
use tmw_lines::LineFormat;
use tmw_ring_defs::Step;

/// Behind any size the same steps may follow.
impl LineFormat for StepsFormat {
    type Header = SizeLine;

    type Item = Step;

    const UNREAD: StepsFormat = StepsFormat;

    ghost grammar = { steps_grammar };

    fn behind(_size: &SizeLine) -> StepsFormat {
        StepsFormat
    }

    fn header_of(bytes: &[u8]) -> Option<SizeLine> {
        size_of(bytes)
    }

    fn item_of(self, bytes: &[u8]) -> Option<Step> {
        step_of(bytes)
    }

    ghost naming = { steps_naming };

    ghost long_header = { long_no_size };

    ghost long_item = { long_no_step };
}
