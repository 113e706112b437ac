//! What is to be run: a ring's size, and how many events are recorded.
ghost use Rattle.std.specs.Prelude.{◌≤◌, ◌^◌};

use tmw_ring::RingSize;

/// A ring of this size, and so many events of each writer.
#[derive(Clone, Copy, PartialEq, Eq, Debug)]
pub struct Plan {
    pub size: RingSize,
    pub share: u64,
    pub ghost few: { share ≤ 2 ^ 39 },
}

/// Reads the plan of a command line, whose first word is the program's name: its numbers of cells, writers and
/// events, or a small plan if there are none. There are no more events than a ring has places.
pub fn plan_of(words: &[String]) -> Option<Plan> {
    let (cells, writers, events) = match words {
        [_] => (16, 3, 3000),
        [_, cells, writers, events] => (number(cells)?, number(writers)?, number(events)?),
        _ => return None,
    };
    let Ok(size) = RingSize::new(cells, writers, 1 << 40) else {
        return None;
    };
    if 1 << 39 < events {
        return None;
    }
    Some(Plan {
        size,
        share: events / writers,
    })
}

/// Returns the number that the word is.
fn number(word: &String) -> Option<u64> {
    word.as_str().parse::<u64>().ok()
}
