ghost use Rattle.tmw_show.specs.Shared.{line};
ghost use Rattle.std.specs.Prelude.{OnOk, length, ◌++◌, ◌+◌, ◌<◌, ◌^◌, ◌≡◌};
ghost use Rattle.tmw_show.specs.Drawing.{beside, event_row, heads_text, last_thread, rows_text, told_row, window_text};

use crate::run_verdict::{RunVerdict, told_text};
use itoa::Buffer;
use std::alloc::AllocError;
use tmw_events::Event;
use tmw_kept::{kept_of, names_of};
use tmw_texts::{Legend, long_values, push_blanks, push_label, push_names, push_shown};

/// The heads of eight columns.
const ALL_HEADS: &[u8] =
    b"    event  thread 0       thread 1       thread 2       thread 3       thread 4       thread 5       thread 6       thread 7";

/// Adds the line of the heads, and a line for each event that has the mark, in a column for each thread, after its
/// transaction's name if that begins with it. So many events of the run stand before the first. Then comes a line for each
/// short name of a value.
pub fn push_window(
    text: &mut Vec<u8>,
    told: RunVerdict,
    before: u128,
    marks: &[bool],
    events: &[Event],
) -> Result<(), AllocError>
    requires { before + length events.now < 2 ^ 128 }
    ensures { OnOk result
        (text.new.items ≡ text.old.items ++ window_text told before marks.now events.now) }
{
    let alloc = *text.allocator();
    let kept = kept_of(alloc, marks, events)?;
    let names = names_of(alloc, marks, events)?;
    let values = long_values(alloc, &kept)?;
    let legend = Legend {
        names: &names,
        values: &values,
    };
    let heads = heads_of(last_thread(&kept));
    text.extend_from_slice(heads)?;
    text.push(b'\n')?;
    push_rows(text, told, heads.len(), legend, before, marks, events)?;
    push_names(text, values.values())
}

/// The heads of the columns up to this thread's.
fn heads_of(last: u8) -> &'static [u8]
    requires { last < 8 }
    ensures { result.now ≡ heads_text last }
{
    &ALL_HEADS[..19 + 15 * last as usize]
}

/// The greatest number of a thread that has one of these events, or 0.
fn last_thread(events: &[Event]) -> u8
    ensures last { result ≡ last_thread events.now }
    ensures below { result < 8 }
{
    let mut last = 0;
    let mut rest = events;
    while let [event, more @ ..] = rest {
        last = last.max(event.thread.get());
        rest = more;
    }
    last
}

/// Adds a line for each event that has the mark. So many events of the run stand before the first.
fn push_rows(
    text: &mut Vec<u8>,
    told: RunVerdict,
    width: usize,
    legend: Legend,
    before: u128,
    marks: &[bool],
    events: &[Event],
) -> Result<(), AllocError>
    requires { before + length events.now < 2 ^ 128 }
    ensures { OnOk result
        (text.new.items ≡ text.old.items
        ++ rows_text told width legend.entry.names.now legend.entry.values.now before 0 marks.now events.now) }
{
    let mut place = 0;
    let mut rest_marks = marks;
    let mut rest = events;
    while let [mark, more_marks @ ..] = rest_marks {
        let [event, more @ ..] = rest else {
            return Ok(());
        };
        if *mark {
            let number = before + (place as u128 + 1);
            push_line(
                text,
                width,
                legend,
                place,
                number,
                *event,
                told_text(told, number),
            )?;
        }
        place += 1;
        rest_marks = more_marks;
        rest = more;
    }
    Ok(())
}

/// Adds the line of an event, with what is told of it.
fn push_line(
    text: &mut Vec<u8>,
    width: usize,
    legend: Legend,
    place: usize,
    number: u128,
    event: Event,
    told: &str,
) -> Result<(), AllocError>
    ensures { OnOk result
        (text.new.items ≡ text.old.items
        ++ line (told_row width
        (event_row legend.entry.names.now legend.entry.values.now place number event) told.now)) }
{
    let start = text.len();
    push_row(text, legend, place, number, event)?;
    let gap = width.saturating_sub(text.len() - start);
    push_beside(text, gap, told)?;
    text.push(b'\n')?;
    Ok(())
}

/// Adds an event with its number, in its thread's column, behind the name of its transaction if that begins at this
/// place.
fn push_row(
    text: &mut Vec<u8>,
    legend: Legend,
    place: usize,
    number: u128,
    event: Event,
) -> Result<(), AllocError>
    ensures { OnOk result (text.new.items
        ≡ text.old.items ++ event_row legend.entry.names.now legend.entry.values.now place number event) }
{
    let mut buffer = Buffer::new();
    let digits = buffer.format(number).as_bytes();
    push_blanks(text, 9usize.saturating_sub(digits.len()))?;
    text.extend_from_slice(digits)?;
    push_blanks(text, 2 + 15 * event.thread.get() as usize)?;
    push_label(text, legend.names, place)?;
    push_shown(text, legend.values, &event)
}

/// Adds what is printed beside an event, after so many blanks and two more.
fn push_beside(text: &mut Vec<u8>, gap: usize, told: &str) -> Result<(), AllocError>
    ensures { OnOk result (text.new.items ≡ text.old.items ++ beside gap told.now) }
{
    if told.is_empty() {
        return Ok(());
    }
    push_blanks(text, gap)?;
    text.extend_from_slice(b"  ")?;
    text.extend_from_slice(told.as_bytes())?;
    Ok(())
}
