ghost use Rattle.tmw_reason.specs.Shared.{list_all, list_any, precedes, range_with_len};
ghost use Rattle.std.specs.Prelude.{Some, length, not, slice_index, ◌&&◌, ◌<◌, ◌==◌, ◌≡◌};
ghost use Rattle.tmw_reason.specs.ReasonSteps.{comes_not_else, contradicts, follows, has_place, has_writer, is_asked, is_before, is_held, is_known_rival, is_left_by_none, is_only, is_overwritten, is_rival, may_come_from, stands_between};

use crate::reason_question::Question;
use crate::reason_step::{Contradiction, ReasonStep, ValueSource};
use crate::step_facts::{
    begins_before, ends_before, is_before, is_excluded, is_given, is_supplied,
};
use tmw_cuts::State;
use tmw_defs::{Criterion, Status};
use tmw_kept::{find_unlike, left_by, needs, precedes, precedes_at, status_of, text_at};

/// Whether the transaction at this place is held in each order.
fn is_held(judged: &Question, steps: &[ReasonStep], place: usize) -> bool
    ensures { result ≡ is_held judged.now.transactions steps.now place }
{
    let text = text_at(judged.transactions, place);
    status_of(text) == Status::Committed || is_supplied(steps, place)
}

/// Whether each order has the transaction at this place.
fn has_place(judged: &Question, steps: &[ReasonStep], place: usize) -> bool
    ensures { let w = judged.now in
        result ≡ has_place w.criterion w.transactions steps.now place }
{
    match judged.criterion {
        Criterion::Opacity => place < judged.transactions.len(),
        Criterion::Strict => is_held(judged, steps, place),
    }
}

/// Whether one of the states has this value in the register.
pub(crate) fn has_value(states: &[State], register: u8, value: u64) -> bool
    requires { register < 8 }
    ensures { result ≡ list_any (λ state. slice_index state register == value) states.now }
{
    states.iter().any(|state| state[register as usize] == value)
}

/// Whether a reader's value may come from this writer, or from the start, as far as one can tell without an order.
pub(crate) fn may_come_from(judged: &Question, source: &ValueSource, writer: Option<usize>) -> bool
    ensures { let w = judged.now in
        result ≡ may_come_from w.states w.transactions source.now writer }
{
    let register = source.register.get();
    match writer {
        None => has_value(judged.states, register, source.value),
        Some(place) => {
            let text = text_at(judged.transactions, place);
            place != source.reader
                && matches!(status_of(text), Status::Committed | Status::Pending)
                && left_by(register, text) == Some(source.value)
        }
    }
}

/// Whether the transaction is held, leaves this value in the source's register and is neither the reader nor the writer.
fn is_rival(
    judged: &Question,
    steps: &[ReasonStep],
    source: &ValueSource,
    place: usize,
    left: u64,
) -> bool
    ensures { result ≡ is_rival judged.now.transactions steps.now source.now place left }
{
    let text = text_at(judged.transactions, place);
    place != source.reader
        && source.writer != Some(place)
        && is_held(judged, steps, place)
        && left_by(source.register.get(), text) == Some(left)
}

/// Whether the transaction is a rival that by these steps stands between the writer and the reader.
fn stands_between(
    judged: &Question,
    steps: &[ReasonStep],
    source: &ValueSource,
    place: usize,
    left: u64,
) -> bool
    ensures { result ≡ stands_between judged.now.transactions steps.now source.now place left }
{
    is_rival(judged, steps, source, place, left)
        && begins_before(steps, source.writer, place)
        && is_before(steps, place, source.reader)
}

/// Whether the value may come from there, and the transaction is a rival that leaves this value and by these steps stands
/// between the two.
fn is_overwritten(
    judged: &Question,
    steps: &[ReasonStep],
    source: &ValueSource,
    place: usize,
    left: u64,
) -> bool
    ensures { let w = judged.now in result
        ≡ is_overwritten w.states w.transactions steps.now source.now place left }
{
    may_come_from(judged, source, source.writer)
        && stands_between(judged, steps, source, place, left)
}

/// Whether each order has the reader, which needs the register to hold the value.
pub(crate) fn is_asked(judged: &Question, steps: &[ReasonStep], source: &ValueSource) -> bool
    ensures { let w = judged.now in
        result ≡ is_asked w.criterion w.transactions steps.now source.now }
{
    let text = text_at(judged.transactions, source.reader);
    has_place(judged, steps, source.reader) && needs(source.register.get(), source.value, text)
}

/// Whether the value can't come from this writer, or by these steps does not, unless it is the source's own.
fn comes_not_else(
    judged: &Question,
    steps: &[ReasonStep],
    source: &ValueSource,
    writer: Option<usize>,
) -> bool
    ensures { let w = judged.now in
        result ≡ comes_not_else w.states w.transactions steps.now source.now writer }
{
    let other = ValueSource { writer, ..*source };
    writer == source.writer || !may_come_from(judged, source, writer) || is_excluded(steps, &other)
}

/// Whether the value comes from no other transaction than the source's own writer.
fn from_no_other(judged: &Question, steps: &[ReasonStep], source: &ValueSource) -> bool
    ensures { let w = judged.now in result ≡ list_all
        (λ a. comes_not_else w.states w.transactions steps.now source.now (Some a))
        (range_with_len 0 (length w.transactions)) }
{
    (0..judged.transactions.len()).all(|place| comes_not_else(judged, steps, source, Some(place)))
}

/// Whether the value comes from nowhere but the source's own writer.
fn is_only(judged: &Question, steps: &[ReasonStep], source: &ValueSource) -> bool
    ensures { let w = judged.now in
        result ≡ is_only w.states w.transactions steps.now source.now }
{
    comes_not_else(judged, steps, source, None) && from_no_other(judged, steps, source)
}

/// Whether no transaction can have left the value.
fn is_from_none(judged: &Question, source: &ValueSource) -> bool
    ensures { let w = judged.now in result ≡ list_all
        (λ a. not (may_come_from w.states w.transactions source.now (Some a)))
        (range_with_len 0 (length w.transactions)) }
{
    (0..judged.transactions.len()).all(|place| !may_come_from(judged, source, Some(place)))
}

/// Whether neither the start nor any transaction can have left the value.
fn is_left_by_none(judged: &Question, source: &ValueSource) -> bool
    ensures { let w = judged.now in
        result ≡ is_left_by_none w.states w.transactions source.now }
{
    !may_come_from(judged, source, None) && is_from_none(judged, source)
}

/// Whether each order has the reader, which needs the value, and nobody can have left it.
fn is_without_source(judged: &Question, steps: &[ReasonStep], source: &ValueSource) -> bool
    ensures { let w = judged.now in
        result ≡ (is_asked w.criterion w.transactions steps.now source.now
        && is_left_by_none w.states w.transactions source.now) }
{
    is_asked(judged, steps, source) && is_left_by_none(judged, source)
}

/// Whether the transaction is a rival of a source that is known, and leaves this value, which is another.
fn is_known_rival(
    judged: &Question,
    steps: &[ReasonStep],
    source: &ValueSource,
    place: usize,
    left: u64,
) -> bool
    ensures { let w = judged.now in
        result ≡ is_known_rival w.transactions steps.now source.now place left }
{
    is_given(steps, source) && is_rival(judged, steps, source, place, left) && left != source.value
}

/// Whether by these steps the rival stands before the reader, where the value comes from a transaction.
fn is_late(steps: &[ReasonStep], source: &ValueSource, rival: usize) -> bool
    ensures { result
        ≡ (has_writer source.now && is_before steps.now rival source.now.reader) }
{
    source.writer.is_some() && is_before(steps, rival, source.reader)
}

/// Tells whether the step follows from these.
pub(crate) fn follows(judged: &Question, steps: &[ReasonStep], step: &ReasonStep) -> bool
    ensures { let w = judged.now in
        result ≡ follows w.criterion w.states w.transactions steps.now step.now }
{
    match *step {
        ReasonStep::RealTime(one, other) => one != other
            && precedes_at(judged.transactions, one, other),
        ReasonStep::From(source) => {
            is_asked(judged, steps, &source)
                && may_come_from(judged, &source, source.writer)
                && is_only(judged, steps, &source)
        }
        ReasonStep::TooLate(source) => {
            may_come_from(judged, &source, source.writer)
                && ends_before(steps, source.reader, source.writer)
        }
        ReasonStep::Overwritten(source, rival, left) => {
            is_overwritten(judged, steps, &source, rival, left)
        }
        ReasonStep::ReadFirst(source, rival, left) => {
            is_known_rival(judged, steps, &source, rival, left)
                && begins_before(steps, source.writer, rival)
        }
        ReasonStep::ChangedFirst(rival, left, source) => {
            is_known_rival(judged, steps, &source, rival, left) && is_late(steps, &source, rival)
        }
        ReasonStep::Through(one, between, other) => {
            has_place(judged, steps, between)
                && is_before(steps, one, between)
                && is_before(steps, between, other)
        }
    }
}

/// Tells whether these steps contradict each other so.
pub(crate) fn contradicts(judged: &Question, steps: &[ReasonStep], end: &Contradiction) -> bool
    ensures { let w = judged.now in
        result ≡ contradicts w.criterion w.states w.transactions steps.now end.now }
{
    match *end {
        Contradiction::Cycle(place) => {
            has_place(judged, steps, place) && is_before(steps, place, place)
        }
        Contradiction::NoSource(reader, register, value) => {
            let source = ValueSource {
                reader,
                register,
                value,
                writer: None,
            };
            is_without_source(judged, steps, &source)
        }
        Contradiction::Unlike(reader, register, expected, read) => {
            let unlike = find_unlike(register.get(), text_at(judged.transactions, reader));
            has_place(judged, steps, reader) && unlike == Some((expected, read))
        }
    }
}
